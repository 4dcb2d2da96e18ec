//! Cases of the whole program over documents in memory.
use crate::query_cases::{is_line, only, repeated, words_of};
use crate::top::pathfinder;
use io_edge::{MemShelf, MemSink};
use std::alloc::{AllocError, Global};
use std::test::Fail;
use xq_base::HashKeys;

/// Files by name.
type Files<'a> = &'a [(&'a str, &'a [u8])];

fn files_of(alloc: Global, all: Files) -> Result<Vec<(String, Vec<u8>)>, AllocError> {
    let mut files = Vec::new(alloc);
    for (name, bytes) in all {
        let name = String::from_str(alloc, name)?;
        let bytes = Vec::from_slice(alloc, bytes)?;
        files.push((name, bytes))?;
    }
    Ok(files)
}

/// What a call gives: the answer, the line without its end, the exit status.
#[derive(Clone, Copy)]
struct Wanted<'a> {
    out: &'a [u8],
    line: &'a [u8],
    code: u8,
}

/// Whether `run` with these words gives this.
fn gives(
    alloc: Global,
    words: &[&str],
    files: Files,
    piece: usize,
    fails: u64,
    wanted: Wanted,
) -> Result<bool, AllocError> {
    if piece == 0 {
        return Ok(false);
    }
    let mut shelf = MemShelf::new(alloc, files_of(alloc, files)?, piece, only(alloc, fails)?);
    let mut out = MemSink::new(alloc, 3, Vec::new(alloc));
    let mut diag = MemSink::new(alloc, 5, Vec::new(alloc));
    let words = words_of(alloc, words)?;
    let status = pathfinder(
        alloc,
        HashKeys::new(1, 2),
        words.as_slice(),
        &mut shelf,
        &mut out,
        &mut diag,
    );
    Ok(
        status.code() == wanted.code
            && out.taken() == wanted.out
            && is_line(diag.taken(), wanted.line),
    )
}

const A: &[u8] = b"<a x=\"1\"><b>2</b><c/>t<b>3</b></a>";

const WHOLE: &[u8] = b"doc(\"a.xml\")";

/// `a.xml` without its end.
const CUT: &[u8] = b"<a x=\"1\"><b>2</b>";

/// Queries over a document `a.xml`: the document, what is written, the line, the exit status.
const QUERIES: [(&[u8], &[u8], &[u8], &[u8], u8); 31] = [
    (WHOLE, A, A, b"", 0),
    (b"\n doc\t( \r\"a.xml\" ) ", A, A, b"", 0),
    (b"doc(\"b.xml\")", A, b"", b"FODC0002 at 0", 2),
    (b"  doc(\" a.xml\")", A, b"", b"FODC0002 at 2", 2),
    // a call is an expression among others
    (
        b"(doc(\"a.xml\"), doc(\"a.xml\"))",
        A,
        b"<a x=\"1\"><b>2</b><c/>t<b>3</b></a><a x=\"1\"><b>2</b><c/>t<b>3</b></a>",
        b"",
        0,
    ),
    (
        b"doc(\"a.xml\"),1",
        A,
        b"<a x=\"1\"><b>2</b><c/>t<b>3</b></a>1",
        b"",
        0,
    ),
    (
        b"for $d in (1,doc(\"a.xml\")) return ($d,2)",
        A,
        b"1 2<a x=\"1\"><b>2</b><c/>t<b>3</b></a>2",
        b"",
        0,
    ),
    (
        b"for $x in (1,2) return doc(\"b.xml\")",
        A,
        b"",
        b"FODC0002 at 23",
        2,
    ),
    (
        b"(doc(\"a.xml\"),doc(\"b.xml\"),doc(\"c.xml\"))",
        A,
        b"",
        b"FODC0002 at 14",
        2,
    ),
    // sums and documents aren't evaluated together yet
    (b"doc(\"a.xml\") + 1", A, b"", b"PFRC0004", 1),
    (b"1 + $x, doc(\"a.xml\")", A, b"", b"XPST0008 at 4", 1),
    // other quotes, references, a prefix, parentheses
    (b"doc('a.xml')", A, A, b"", 0),
    (b"doc(\"&#97;.&#x78;ml\")", A, A, b"", 0),
    (b"fn:doc(\"a.xml\")", A, A, b"", 0),
    (b"(doc((\"a.xml\")))", A, A, b"", 0),
    // no document has these names
    (b"doc(\"\")", A, b"", b"FODC0002 at 0", 2),
    (b"doc(\"a\tb\")", A, b"", b"FODC0002 at 0", 2),
    (b"doc(\"\xc3\xa4\")", A, b"", b"FODC0002 at 0", 2),
    (b"doc(\"a\"\"b\")", A, b"", b"FODC0002 at 0", 2),
    // another argument, another function, a longer name of it
    (b"doc(1)", A, b"", b"XPTY0004 at 0", 1),
    (b"doc()", A, b"", b"XPST0017 at 0", 1),
    (b"doc(\"a.xml\", 1)", A, b"", b"XPST0017 at 0", 1),
    (b"dog(\"a.xml\")", A, b"", b"XPST0017 at 0", 1),
    (b"docs(\"a.xml\")", A, b"", b"XPST0017 at 0", 1),
    (b"doc(\"a.xml\")/a", A, b"", b"PFRC0004", 1),
    // an ampersand begins a reference
    (b"doc(\"a&b\")", A, b"", b"XPST0003", 1),
    // a document that no query names is read
    (b"1", A, b"1", b"", 0),
    (b"1", CUT, b"", b"document a.xml is not well-formed", 3),
    // the query is refused first, and a document before an evaluation
    (b"$x", CUT, b"", b"XPST0008 at 0", 1),
    (
        b"1+(2,3)",
        b"<a>",
        b"",
        b"document a.xml is not well-formed",
        3,
    ),
    (b"1+(2,3)", A, b"", b"XPTY0004 at 0", 2),
];

#[test]
fn queries_over_a_document(rt: HostRuntime) -> Result<(), Fail> {
    let alloc = rt.alloc();
    for (place, (query, document, out, line, code)) in QUERIES.iter().enumerate() {
        let files = [("q.xq", *query), ("a.xml", *document)];
        let wanted = Wanted {
            out,
            line,
            code: *code,
        };
        assert!(rt;
            gives(alloc, &["run", "q.xq", "a.xml"], &files, 7, 0, wanted)?,
            "case {place}"
        );
    }
    Ok(())
}

/// Documents and what they are written back as.
const WRITTEN: [(&[u8], &[u8]); 24] = [
    (b"<a></a>", b"<a/>"),
    (b"\xef\xbb\xbf<a/>", b"<a/>"),
    (b"<a>1\r2\r\n3\n</a>", b"<a>1\n2\n3\n</a>"),
    (
        b"<a>&#13;&#xD;&amp;&lt;&gt;&quot;&apos;</a>",
        b"<a>&#xD;&#xD;&amp;&lt;&gt;\"'</a>",
    ),
    (
        b"<a>\x7f\xc2\x80\xc2\x9f\xc2\xa0\xe2\x80\xa8</a>",
        b"<a>&#x7F;&#x80;&#x9F;\xc2\xa0&#x2028;</a>",
    ),
    (b"<a x='\t\r\n'/>", b"<a x=\"  \"/>"),
    (
        b"<a x='&#9;&#10;&#13;\"'/>",
        b"<a x=\"&#x9;&#xA;&#xD;&quot;\"/>",
    ),
    (
        b"<a x = '>' y=\"'\" ><b/></a >",
        b"<a x=\"&gt;\" y=\"'\"><b/></a>",
    ),
    (b"<a><![CDATA[<b>&amp;]]></a>", b"<a>&lt;b&gt;&amp;amp;</a>"),
    (
        b"<a>x<![CDATA[]]>y<![CDATA[]]]]><![CDATA[>]]></a>",
        b"<a>xy]]&gt;</a>",
    ),
    (b"<a><![CDATA[]]></a>", b"<a/>"),
    (
        b"<!--1--><a><!----><!-- - --></a><!--2-->",
        b"<!--1--><a><!----><!-- - --></a><!--2-->",
    ),
    (
        b"<?p?><?q  v ?><a><?r ? ?></a>",
        b"<?p?><?q v ?><a><?r ? ?></a>",
    ),
    (b"<?xml version='1.0'?>\n<a/>\n", b"<a/>"),
    (
        b"<?xml version=\"1.99\" encoding=\"us-ascii\" standalone='no' ?><a/>",
        b"<a/>",
    ),
    (b"<!DOCTYPE a><a/>", b"<a/>"),
    (
        b"<?xml version='1.0'?><!--c--><!DOCTYPE a SYSTEM 'b' ><?p v?><a/>",
        b"<!--c--><?p v?><a/>",
    ),
    (
        b"<!DOCTYPE a PUBLIC \"-//A//B 1.0//EN\" 'c\"d'><a/>",
        b"<a/>",
    ),
    (b"<a> <b> </b>\n</a>", b"<a> <b> </b>\n</a>"),
    (b"<x:a x:b='1' :=''/>", b"<x:a x:b=\"1\" :=\"\"/>"),
    (
        b"<\xc3\x80\xcd\xb0\xf0\x90\x80\x80\xc2\xb7/>",
        b"<\xc3\x80\xcd\xb0\xf0\x90\x80\x80\xc2\xb7/>",
    ),
    (
        b"<a>&#x10FFFF;&#xE000;\xef\xbf\xbd</a>",
        b"<a>\xf4\x8f\xbf\xbf\xee\x80\x80\xef\xbf\xbd</a>",
    ),
    (b"<a>]]&gt;]></a>", b"<a>]]&gt;]&gt;</a>"),
    (
        b"<a xmlns='u'><b xmlns=''/></a>",
        b"<a xmlns=\"u\"><b xmlns=\"\"/></a>",
    ),
];

#[test]
fn documents_are_written_back(rt: HostRuntime) -> Result<(), Fail> {
    let alloc = rt.alloc();
    for (place, (document, out)) in WRITTEN.iter().enumerate() {
        let files = [("q.xq", WHOLE), ("a.xml", *document)];
        let wanted = Wanted {
            out,
            line: b"",
            code: 0,
        };
        assert!(rt;
            gives(alloc, &["run", "q.xq", "a.xml"], &files, 64, 0, wanted)?,
            "case {place}"
        );
    }
    Ok(())
}

const MALFORMED: [&[u8]; 40] = [
    b"",
    b" ",
    b"a",
    b"<a>&b;</a>",
    b"<a>&amp</a>",
    b"<a>&#0;</a>",
    b"<a>&#xD800;</a>",
    b"<a>&#xFFFE;</a>",
    b"<a>&#x110000;</a>",
    b"<a>&#;</a>",
    b"<a>]]></a>",
    b"<a><!-- -- --></a>",
    b"<a><!-----></a>",
    b"<a><?xml v?></a>",
    b"<a><?XmL?></a>",
    b" <?xml version='1.0'?><a/>",
    b"<?xml version='2.0'?><a/>",
    b"<?xml version='1.0' standalone='maybe'?><a/>",
    b"<?xml encoding='UTF-8'?><a/>",
    b"<a/><!DOCTYPE a>",
    b"<!DOCTYPE a PUBLIC '-//A' ><a/>",
    b"<!DOCTYPE a PUBLIC '{' 'b'><a/>",
    b"<a x='1' x='2'/>",
    b"<a x='1'y='2'/>",
    b"<a x='<'/>",
    b"<a x=1/>",
    b"<a x/>",
    b"<a></b>",
    b"<a><b></a></b>",
    b"<a/><b/>",
    b"<a/>x",
    b"x<a/>",
    b"<a>\xc3</a>",
    b"<a>\xed\xa0\x80</a>",
    b"<a>\xef\xbf\xbe</a>",
    b"<a>\x01</a>",
    b"<-a/>",
    b"<a\xc3\x97/>",
    b"<\xc2\xb7/>",
    b"\x89PTAB\n\x01",
];

const UNSUPPORTED: [&[u8]; 4] = [
    b"<!DOCTYPE a [<!ENTITY b \"c\">]><a/>",
    b"<!DOCTYPE a SYSTEM 'b' [",
    b"<?xml version=\"1.0\" encoding=\"ISO-8859-1\"?><a/>",
    b"<?xml version=\"1.0\" encoding='latin1' ?>\xe9",
];

#[test]
fn documents_are_refused(rt: HostRuntime) -> Result<(), Fail> {
    let alloc = rt.alloc();
    let words = ["run", "q.xq", "a.xml"];
    for document in &MALFORMED {
        let wanted = Wanted {
            out: b"",
            line: b"document a.xml is not well-formed",
            code: 3,
        };
        let files = [("q.xq", WHOLE), ("a.xml", *document)];
        assert!(rt; gives(alloc, &words, &files, 64, 0, wanted)?);
    }
    for document in &UNSUPPORTED {
        let wanted = Wanted {
            out: b"",
            line: b"document a.xml is unsupported",
            code: 3,
        };
        let files = [("q.xq", WHOLE), ("a.xml", *document)];
        assert!(rt; gives(alloc, &words, &files, 64, 0, wanted)?);
    }
    Ok(())
}

#[test]
fn a_document_cut_short_is_refused(rt: HostRuntime) -> Result<(), Fail> {
    let alloc = rt.alloc();
    for length in 0..A.len() {
        let wanted = Wanted {
            out: b"",
            line: b"document a.xml is not well-formed",
            code: 3,
        };
        let files = [("q.xq", WHOLE), ("a.xml", &A[..length])];
        assert!(rt; gives(alloc, &["run", "q.xq", "a.xml"], &files, 64, 0, wanted)?);
    }
    Ok(())
}

/// The first call asks for the query, and with a byte a call its end is told by the call after its last
/// byte; then comes the document.
#[test]
fn each_call_that_fails_names_its_file(rt: HostRuntime) -> Result<(), Fail> {
    let alloc = rt.alloc();
    let files = [("q.xq", WHOLE), ("a.xml", A)];
    let words = ["run", "q.xq", "a.xml"];
    for fails in 1..51 {
        let line: &[u8] = if fails < 15 {
            b"read fault: q.xq"
        } else {
            b"read fault: a.xml"
        };
        let wanted = Wanted {
            out: b"",
            line,
            code: 4,
        };
        assert!(rt; gives(alloc, &words, &files, 1, fails, wanted)?);
    }
    let wanted = Wanted {
        out: A,
        line: b"",
        code: 0,
    };
    assert!(rt; gives(alloc, &words, &files, 1, 51, wanted)?);
    Ok(())
}

/// So many elements, one in another.
fn nested(alloc: Global, levels: usize) -> Result<Vec<u8>, AllocError> {
    let mut all = repeated(alloc, b"<a>", levels)?;
    all.extend_from_slice(repeated(alloc, b"</a>", levels)?.as_slice())?;
    Ok(all)
}

#[test]
fn levels_are_counted(rt: HostRuntime) -> Result<(), Fail> {
    let alloc = rt.alloc();
    let words = ["run", "q.xq", "a.xml"];
    let last = nested(alloc, 65_535)?;
    let files = [("q.xq", b"1".as_slice()), ("a.xml", last.as_slice())];
    let wanted = Wanted {
        out: b"1",
        line: b"",
        code: 0,
    };
    assert!(rt; gives(alloc, &words, &files, 4096, 0, wanted)?);
    let next = nested(alloc, 65_536)?;
    let files = [("q.xq", b"1".as_slice()), ("a.xml", next.as_slice())];
    let wanted = Wanted {
        out: b"",
        line: b"document a.xml is too deep",
        code: 3,
    };
    assert!(rt; gives(alloc, &words, &files, 4096, 0, wanted)?);
    Ok(())
}

/// Sixteen documents are read, the first one that is refused is named, and seventeen are too many.
#[test]
fn documents_are_counted(rt: HostRuntime) -> Result<(), Fail> {
    let alloc = rt.alloc();
    let all = [
        "run", "q.xq", "a", "b", "c", "d", "e", "f", "g", "h", "i", "j", "k", "l", "m", "n", "o",
        "p", "q",
    ];
    let mut files = [("q.xq", b"doc(\"p\")".as_slice()); 18];
    for (place, name) in all.iter().skip(2).enumerate() {
        if place < 17 {
            files[place + 1] = (*name, b"<a/>");
        }
    }
    let wanted = Wanted {
        out: b"<a/>",
        line: b"",
        code: 0,
    };
    assert!(rt; gives(alloc, &all[..18], &files, 64, 0, wanted)?);
    let wanted = Wanted {
        out: b"",
        line: b"too large: more than 16 documents",
        code: 9,
    };
    assert!(rt; gives(alloc, &all, &files, 64, 0, wanted)?);
    files[12] = ("l", b"<a>");
    files[11] = ("k", b"<!DOCTYPE a [");
    let wanted = Wanted {
        out: b"",
        line: b"document k is unsupported",
        code: 3,
    };
    assert!(rt; gives(alloc, &all[..18], &files, 64, 0, wanted)?);
    Ok(())
}

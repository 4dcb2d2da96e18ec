//! Cases of the whole program over files and sinks in memory.
use crate::status::Status;
use crate::top::pathfinder;
use io_edge::{MemShelf, MemSink};
use std::alloc::{AllocError, Global};
use std::test::Fail;
use xq_base::HashKeys;

/// Queries: what is written, the diagnosis without its line end, the exit status.
const CASES: [(&[u8], &[u8], &[u8], u8); 77] = [
    (
        b"for $x in (1,2), $y in (10,20) return $x+$y",
        b"11 21 12 22",
        b"",
        0,
    ),
    (b"1+2", b"3", b"", 0),
    (b"", b"", b"XPST0003", 1),
    (b"()", b"", b"", 0),
    (b"() + 1", b"", b"", 0),
    (b"$x", b"", b"XPST0008 at 0", 1),
    (b"1+(2,3)", b"", b"XPTY0004 at 0", 2),
    (b"(1,2)+()", b"", b"XPTY0004 at 0", 2),
    // white space and comments before, between and after
    (b" \t\r\n1 \t\r\n,\n2 ", b"1 2", b"", 0),
    (b"(: a (: b :) :)1(::)+(: c :)2 (: d :)", b"3", b"", 0),
    (b"1 (: (: :)", b"", b"XPST0003", 1),
    // a keyword ends at a sign
    (b"for$x in 1 return $x", b"1", b"", 0),
    // digits end before a letter
    (b"for$x in 1return $x", b"", b"XPST0003", 1),
    (b"1for", b"", b"XPST0003", 1),
    // and a keyword before a digit
    (b"for $x in 1 return2", b"", b"XPST0003", 1),
    // a keyword is a name behind a dollar
    (b"for $for in 1 return $for", b"1", b"", 0),
    (b"for $ x in 1 return $\nx", b"1", b"", 0),
    (b"for $a:b-c.d in 1 return $a:b-c.d", b"1", b"", 0),
    (b"for $\xc3\xa9 in 1 return $\xc3\xa9", b"1", b"", 0),
    (b"$X", b"", b"XPST0008 at 0", 1),
    // the longest name
    (b"for $xy in (1,2) return $x", b"", b"XPST0008 at 24", 1),
    (b"for $x-y in 1 return $x -1", b"", b"XPST0008 at 21", 1),
    // the inner hides the outer
    (
        b"for $x in (1,2) return for $x in (3,4) return $x",
        b"3 4 3 4",
        b"",
        0,
    ),
    // the source sees the outer
    (b"for $x in 1, $x in ($x,2) return $x", b"1 2", b"", 0),
    (b"for $x in $x return 1", b"", b"XPST0008 at 10", 1),
    // the first by place
    (b"($y, for $x in $x return $z)", b"", b"XPST0008 at 1", 1),
    // a body under an empty binding
    (b"for $x in () return (1,2)+3", b"", b"", 0),
    // the least site
    (b"((1,2)+1, 3+(4,5))", b"", b"XPTY0004 at 1", 2),
    // integers of any length, within 64 bits
    (b"999999999999999999", b"999999999999999999", b"", 0),
    (b"9223372036854775807", b"9223372036854775807", b"", 0),
    (b"0000000000000000000000000000000007+08", b"15", b"", 0),
    (b"9223372036854775808", b"", b"FOAR0002 at 0", 1),
    (b"18446744073709551616", b"", b"FOAR0002 at 0", 1),
    (
        b"1, 99999999999999999999999999999999999999999",
        b"",
        b"FOAR0002 at 3",
        1,
    ),
    (b"9223372036854775807 + 1", b"", b"FOAR0002 at 0", 2),
    // of a reference and an integer the first by place
    (b"$x + 9223372036854775808", b"", b"XPST0008 at 0", 1),
    (b"9223372036854775808 + $x", b"", b"FOAR0002 at 0", 1),
    // places count each byte: a comment, both line ends, a byte order mark, wide characters
    (b"(: c :) $x", b"", b"XPST0008 at 8", 1),
    (b"1,\r\n$x", b"", b"XPST0008 at 4", 1),
    (b"\xef\xbb\xbf$x", b"", b"XPST0008 at 3", 1),
    (b"\xef\xbb\xbf1+(2,3)", b"", b"XPTY0004 at 3", 2),
    (b"(: \xc3\xa9 :)$x", b"", b"XPST0008 at 8", 1),
    (b"for $\xc3\xa9 in 1 return $x", b"", b"XPST0008 at 20", 1),
    // read, and not evaluated yet: behind the refusals by scope and by types
    (b"$x - 1", b"", b"XPST0008 at 0", 1),
    (b"\"a\" + 1", b"", b"XPTY0004 at 0", 1),
    (b"\"a\" - 1", b"", b"XPTY0004 at 0", 1),
    (b"a", b"", b"PFRC0004", 1),
    (b"\xc3\xa4", b"", b"PFRC0004", 1),
    (b"\"a\"", b"", b"PFRC0004", 1),
    (b"f(1)", b"", b"XPST0017 at 0", 1),
    (b"+1", b"1", b"", 0),
    (b"1 * 2", b"", b"PFRC0004", 1),
    (b"1 + 2 - 3", b"", b"PFRC0004", 1),
    (b"let $x := 1 return $x", b"1", b"", 0),
    (b"for $x in 1 for $y in 2 return $x", b"1", b"", 0),
    (b"for $x at $i in (7,8) return ($x,$i)", b"7 1 8 2", b"", 0),
    (b"for $x as xs:integer in 1 return $x", b"", b"PFRC0004", 1),
    (b"for $x in 1 where $x return $x", b"", b"PFRC0004", 1),
    (b"for $x in 1 order by $x return $x", b"", b"PFRC0004", 1),
    (b"(1, <a/>)", b"", b"PFRC0004", 1),
    (b"xquery version \"1.0\"; 1", b"1", b"", 0),
    (b"declare variable $x := 1; $x", b"1", b"", 0),
    // left out, whatever comes behind it
    (b"1 div 2", b"", b"PFRC0004", 1),
    (b"1 div )", b"", b"PFRC0004", 1),
    (b") 1 div 2", b"", b"XPST0003", 1),
    (b"$x + 1.5", b"", b"PFRC0004", 1),
    (b"1,", b"", b"XPST0003", 1),
    (b"1+", b"", b"XPST0003", 1),
    (b"1 2", b"", b"XPST0003", 1),
    (b"(1", b"", b"XPST0003", 1),
    (b"1)", b"", b"XPST0003", 1),
    (b"for $x return 1", b"", b"XPST0003", 1),
    // bytes that are no text
    (b"1 \xff", b"", b"XPST0003", 1),
    (b"1.5 \x01", b"", b"XPST0003", 1),
    (b"(1,(2,(),3),4)", b"1 2 3 4", b"", 0),
    (b"1+2+3", b"6", b"", 0),
    (b"for $x in (1,2) return ($x,$x+$x)", b"1 2 2 4", b"", 0),
];

/// The word of the query.
const NAME: &str = "q.xq";

/// One file, of the query's name.
fn one_file(alloc: Global, text: &[u8]) -> Result<Vec<(String, Vec<u8>)>, AllocError> {
    let name = String::from_str(alloc, NAME)?;
    let text = Vec::from_slice(alloc, text)?;
    let mut files = Vec::new(alloc);
    files.push((name, text))?;
    Ok(files)
}

pub fn words_of(alloc: Global, all: &[&str]) -> Result<Vec<String>, AllocError> {
    let mut words = Vec::new(alloc);
    for word in all {
        words.push(String::from_str(alloc, word)?)?;
    }
    Ok(words)
}

/// Whether a line of the diagnosis has this text.
pub fn is_line(taken: &[u8], text: &[u8]) -> bool {
    if text.is_empty() {
        return taken.is_empty();
    }
    match taken.split_last() {
        Some((end, front)) => *end == b'\n' && front == text,
        None => false,
    }
}

/// The status of a query without documents.
pub fn status_alone(alloc: Global, query: &[u8]) -> Result<Status, AllocError> {
    let mut shelf = MemShelf::new(alloc, one_file(alloc, query)?, 64, Vec::new(alloc));
    let mut out = MemSink::new(alloc, 64, Vec::new(alloc));
    let mut diag = MemSink::new(alloc, 64, Vec::new(alloc));
    let words = words_of(alloc, &["run", NAME])?;
    Ok(pathfinder(
        alloc,
        HashKeys::new(1, 2),
        words.as_slice(),
        &mut shelf,
        &mut out,
        &mut diag,
    ))
}

pub fn is_answered(
    alloc: Global,
    query: &[u8],
    answer: &[u8],
    line: &[u8],
    code: u8,
) -> Result<bool, AllocError> {
    let mut shelf = MemShelf::new(alloc, one_file(alloc, query)?, 7, Vec::new(alloc));
    let mut out = MemSink::new(alloc, 3, Vec::new(alloc));
    let mut diag = MemSink::new(alloc, 5, Vec::new(alloc));
    let words = words_of(alloc, &["run", NAME])?;
    let status = pathfinder(
        alloc,
        HashKeys::new(1, 2),
        words.as_slice(),
        &mut shelf,
        &mut out,
        &mut diag,
    );
    Ok(status.code() == code && out.taken() == answer && is_line(diag.taken(), line))
}

#[test]
fn queries_are_answered(rt: HostRuntime) -> Result<(), Fail> {
    let alloc = rt.alloc();
    for (place, (query, out, line, code)) in CASES.iter().enumerate() {
        assert!(rt;
            is_answered(alloc, query, out, line, *code)?,
            "case {place}"
        );
    }
    Ok(())
}

/// Some bytes, so many times, one after the other.
pub fn repeated(alloc: Global, bytes: &[u8], count: usize) -> Result<Vec<u8>, AllocError> {
    let mut all = Vec::new(alloc);
    for _ in 0..count {
        all.extend_from_slice(bytes)?;
    }
    Ok(all)
}

/// `1` in so many pairs of parentheses.
fn nested(alloc: Global, count: usize) -> Result<Vec<u8>, AllocError> {
    let mut all = repeated(alloc, b"(", count)?;
    all.push(b'1')?;
    all.extend_from_slice(repeated(alloc, b")", count)?.as_slice())?;
    Ok(all)
}

/// `1` and so many blanks.
fn padded(alloc: Global, count: usize) -> Result<Vec<u8>, AllocError> {
    let mut all = Vec::from_slice(alloc, b"1")?;
    all.extend_from_slice(repeated(alloc, b" ", count)?.as_slice())?;
    Ok(all)
}

#[test]
fn limits_are_kept(rt: HostRuntime) -> Result<(), Fail> {
    let alloc = rt.alloc();
    assert!(rt; is_answered(alloc, nested(alloc, 255)?.as_slice(), b"1", b"", 0)?);
    assert!(rt; is_answered(alloc, nested(alloc, 256)?.as_slice(), b"", b"PFRC0003", 1)?);
    assert!(rt; is_answered(alloc, padded(alloc, 1_048_575)?.as_slice(), b"1", b"", 0)?);
    assert!(rt;
        is_answered(
            alloc,
            padded(alloc, 1_048_576)?.as_slice(),
            b"",
            b"too large: q.xq",
            9
        )?
    );
    let mut sum = repeated(alloc, b"999999999999999999+", 8)?;
    sum.extend_from_slice(b"999999999999999999")?;
    assert!(rt; is_answered(alloc, sum.as_slice(), b"8999999999999999991", b"", 0)?);
    sum.extend_from_slice(b"+999999999999999999")?;
    assert!(rt; is_answered(alloc, sum.as_slice(), b"", b"FOAR0002 at 0", 2)?);
    Ok(())
}

/// A later iteration fails at a lesser site: the first sum fails for the second item alone, the second
/// sum for both. `$w` is nine times the widest literal.
#[test]
fn the_least_site_is_reported(rt: HostRuntime) -> Result<(), Fail> {
    let alloc = rt.alloc();
    let mut query = Vec::from_slice(alloc, b"for $w in 999999999999999999")?;
    query.extend_from_slice(repeated(alloc, b"+999999999999999999", 8)?.as_slice())?;
    query.extend_from_slice(
        b", $x in (2,300000000000000000) return ($w+$x,$w+$x+223372036854775816)",
    )?;
    assert!(rt; is_answered(alloc, query.as_slice(), b"", b"FOAR0002 at 219", 2)?);
    Ok(())
}

const LOOPS: &[u8] = b"for $x in (1,2), $y in (10,20) return $x+$y";

/// Words, which call of the shelf and of the answer's sink fails: what is written, the line, the exit
/// status.
type Outside = (
    &'static [&'static str],
    u64,
    u64,
    &'static [u8],
    &'static [u8],
    u8,
);

const USAGE: &[u8] = b"usage: pathfinder run|check|plan|stats|shred|gen QUERY [DOC]...";

const OUTSIDE: [Outside; 10] = [
    (&["run", "q.xq"], 0, 0, b"11 21 12 22", b"", 0),
    (&["run", "q.xq"], 1, 0, b"", b"read fault: q.xq", 4),
    (&["run", "q.xq"], 3, 0, b"", b"read fault: q.xq", 4),
    (&["run", "q.xq"], 0, 1, b"", b"write fault", 5),
    (&["run", "q.xq"], 0, 2, b"1", b"write fault", 5),
    (&["run", "none.xq"], 0, 0, b"", b"read fault: none.xq", 4),
    (&["run"], 0, 0, b"", USAGE, 6),
    (&[], 0, 0, b"", USAGE, 6),
    (&["frob", "q.xq"], 0, 0, b"", USAGE, 6),
    (
        &["run", "q.xq", "a.xml", "b.xml", "a.xml"],
        0,
        0,
        b"",
        USAGE,
        6,
    ),
];

/// A list with one number, or none for 0.
pub fn only(alloc: Global, number: u64) -> Result<Vec<u64>, AllocError> {
    let mut all = Vec::new(alloc);
    if number > 0 {
        all.push(number)?;
    }
    Ok(all)
}

fn is_outside(alloc: Global, case: &Outside) -> Result<bool, AllocError> {
    let (words, shelf_fails, out_fails, wanted, line, code) = *case;
    let mut shelf = MemShelf::new(alloc, one_file(alloc, LOOPS)?, 1, only(alloc, shelf_fails)?);
    let mut out = MemSink::new(alloc, 1, only(alloc, out_fails)?);
    let mut diag = MemSink::new(alloc, 1, Vec::new(alloc));
    let words = words_of(alloc, words)?;
    let status = pathfinder(
        alloc,
        HashKeys::new(1, 2),
        words.as_slice(),
        &mut shelf,
        &mut out,
        &mut diag,
    );
    let asked = shelf.asked().len()
        == if status == Status::Usage || shelf_fails == 1 {
            0
        } else {
            1
        };
    Ok(asked && status.code() == code && out.taken() == wanted && is_line(diag.taken(), line))
}

#[test]
fn words_and_faults_have_their_status(rt: HostRuntime) -> Result<(), Fail> {
    let alloc = rt.alloc();
    for (place, case) in OUTSIDE.iter().enumerate() {
        assert!(rt; is_outside(alloc, case)?, "case {place}");
    }
    Ok(())
}

/// The diagnosis sink fails at its third call: the status stays, and it has a prefix of the line.
#[test]
fn a_failing_diagnosis_leaves_the_status(rt: HostRuntime) -> Result<(), Fail> {
    let alloc = rt.alloc();
    let mut shelf = MemShelf::new(alloc, one_file(alloc, b"$x")?, 7, Vec::new(alloc));
    let mut out = MemSink::new(alloc, 1, Vec::new(alloc));
    let mut diag = MemSink::new(alloc, 3, only(alloc, 3)?);
    let words = words_of(alloc, &["run", NAME])?;
    let status = pathfinder(
        alloc,
        HashKeys::new(1, 2),
        words.as_slice(),
        &mut shelf,
        &mut out,
        &mut diag,
    );
    assert!(rt;
        status.code() == 1 && out.taken().is_empty() && diag.taken() == b"XPST00".as_slice()
    );
    Ok(())
}

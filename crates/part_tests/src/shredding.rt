//! Small documents, and texts that are none, with ample memory.
use doc_shred::{DOCUMENT_LIMIT, LEVEL_LIMIT, ShredFault, shred};
use doc_table::Rows;
use std::alloc::Global;
use std::test::Fail;
use xq_base::{HashKeys, Pool};

/// Whether a document is read, and else why not.
fn outcome(alloc: Global, text: &[u8]) -> Result<u32, ShredFault> {
    if text.len() > DOCUMENT_LIMIT {
        return Err(ShredFault::NoMemory);
    }
    let mut pool = Pool::new(alloc, HashKeys::new(1, 2));
    let fragment = shred(alloc, text, &mut pool)?;
    Ok(fragment.len())
}

#[test]
fn documents_give_as_many_rows_as_nodes(rt: HostRuntime) -> Result<(), Fail> {
    let rows = [
        (&b"<a/>"[..], 2),
        (b"<a x=\"1\"><b>2</b><c/>t<b>3</b></a>", 8),
        (
            b"\xEF\xBB\xBF<?xml version='1.0' encoding=\"utf-8\" standalone='yes' ?>\r\n<!-- c --><?p v?><a\n></a >\r",
            4,
        ),
        (b"<!DOCTYPE a PUBLIC \"x\" 'y' ><a><![CDATA[]]></a>", 2),
        (b"<a>x<!-- -->y</a>", 5),
        (b"<a> \n </a>", 3),
        (b"<a>&#x9;&amp;&#65;</a>", 3),
        (b"<?xml-stylesheet?><\xC3\xA9 b='&lt;'/>", 3),
    ];
    for (text, wanted) in rows {
        assert_eq!(rt; outcome(rt.alloc(), text), Ok(wanted));
    }
    Ok(())
}

#[test]
fn texts_that_are_no_documents_are_refused(rt: HostRuntime) -> Result<(), Fail> {
    let bad = [
        &b""[..],
        b"<a>",
        b"<a></b>",
        b"<a/><b/>",
        b"<a/>x",
        b"<a>]]></a>",
        b"<a><!-- -- --></a>",
        b"<a><!-- ---></a>",
        b"<a x='1' x='2'/>",
        b"<a x='<'/>",
        b"<a>&b;</a>",
        b"<a>&#0;</a>",
        b"<a>&#xFFFFFFFFFFFFFFFF;</a>",
        b"<a>\xFF</a>",
        b"<a>\xED\xA0\x80</a>",
        b"<a>\xEF\xBF\xBE</a>",
        b"<a><?XML v?></a>",
        b" <?xml version='1.0'?><a/>",
        b"<?xml version='1'?><a/>",
        b"<1a/>",
        b"<a\xC3\x97/>",
    ];
    for text in bad {
        assert_eq!(rt; outcome(rt.alloc(), text), Err(ShredFault::NotWellFormed));
    }
    let unsupported = [
        &b"<!DOCTYPE a [<!ENTITY b 'c'>]><a/>"[..],
        b"<?xml version='1.0' encoding='ISO-8859-1'?><a>\xE9",
    ];
    for text in unsupported {
        assert_eq!(rt; outcome(rt.alloc(), text), Err(ShredFault::Unsupported));
    }
    Ok(())
}

/// So many elements, one in another.
fn nested(alloc: Global, levels: u32) -> Result<Vec<u8>, Fail> {
    let mut text = Vec::new(alloc);
    for _level in 0..levels {
        text.extend_from_slice(b"<a>")?;
    }
    for _level in 0..levels {
        text.extend_from_slice(b"</a>")?;
    }
    Ok(text)
}

#[test]
fn the_last_level_is_read_and_the_next_is_too_deep(rt: HostRuntime) -> Result<(), Fail> {
    let last = nested(rt.alloc(), LEVEL_LIMIT)?;
    assert_eq!(rt; outcome(rt.alloc(), last.as_slice()), Ok(LEVEL_LIMIT + 1));
    let next = nested(rt.alloc(), LEVEL_LIMIT + 1)?;
    assert_eq!(rt;
        outcome(rt.alloc(), next.as_slice()),
        Err(ShredFault::TooDeep)
    );
    Ok(())
}

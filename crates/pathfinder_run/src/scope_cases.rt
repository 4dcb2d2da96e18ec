//! Cases of scope over the whole program: each refusal of names, functions, types of names, numbers and
//! declarations, with a second fault beside it where the place decides, and what is visible where.
use crate::query_cases::is_answered;
use std::alloc::{AllocError, Global};
use std::test::Fail;

/// Queries with names, integers and calls: what is written, the diagnosis without its line end, the exit status.
const NAMES: [(&[u8], &[u8], &[u8], u8); 59] = [
    // XQST0031: the version
    (b"xquery version \"1.1\"; 1", b"", b"XQST0031 at 15", 1),
    (b"xquery version '1'; $x", b"", b"XQST0031 at 15", 1),
    (
        b"xquery version \"1.0\" encoding \"UTF-8\"; 1",
        b"1",
        b"",
        0,
    ),
    (
        b"xquery version \"2.0\"; 9223372036854775808",
        b"",
        b"XQST0031 at 15",
        1,
    ),
    // FOAR0002: integers beyond 64 bits
    (b"1, 9223372036854775808", b"", b"FOAR0002 at 3", 1),
    (b"9223372036854775808 + $x", b"", b"FOAR0002 at 0", 1),
    (b"$x + 9223372036854775808", b"", b"XPST0008 at 0", 1),
    (b"-9223372036854775808", b"", b"FOAR0002 at 1", 1),
    (
        b"declare variable $a := 99999999999999999999; $b",
        b"",
        b"FOAR0002 at 23",
        1,
    ),
    (
        b"declare function local:f() { 9223372036854775808 }; 1",
        b"",
        b"FOAR0002 at 29",
        1,
    ),
    (
        b"<a b=\"{9223372036854775808}\"/>",
        b"",
        b"FOAR0002 at 7",
        1,
    ),
    // XPST0008: references without a binding
    (b"$x", b"", b"XPST0008 at 0", 1),
    (b"(1, $y, $x)", b"", b"XPST0008 at 4", 1),
    (b"for $x in $x return $x", b"", b"XPST0008 at 10", 1),
    (b"let $x := $x return 1", b"", b"XPST0008 at 10", 1),
    (b"(for $x in 1 return $x), $x", b"", b"XPST0008 at 25", 1),
    (b"(let $x := 1 return $x), $x", b"", b"XPST0008 at 25", 1),
    (b"for $x at $i in $i return 1", b"", b"XPST0008 at 16", 1),
    (b"for $x in 1 where $y return $z", b"", b"XPST0008 at 18", 1),
    (
        b"for $x in 1 order by $y return $z",
        b"",
        b"XPST0008 at 21",
        1,
    ),
    (b"some $x in $x satisfies $x", b"", b"XPST0008 at 11", 1),
    (
        b"(every $x in 1 satisfies $x), $x",
        b"",
        b"XPST0008 at 30",
        1,
    ),
    (b"declare variable $a := $a; 1", b"", b"XPST0008 at 23", 1),
    (
        b"declare variable $a := $b; declare variable $b := 1; $a",
        b"",
        b"XPST0008 at 23",
        1,
    ),
    (
        b"declare function local:f($x) { $y }; $z",
        b"",
        b"XPST0008 at 31",
        1,
    ),
    (
        b"declare function local:f($x) { $x }; $x",
        b"",
        b"XPST0008 at 37",
        1,
    ),
    (
        b"declare function local:f() { $a }; declare variable $a := 1; local:f()",
        b"",
        b"XPST0008 at 29",
        1,
    ),
    (b"let $x := 1 return a[$y]", b"", b"XPST0008 at 21", 1),
    (b"<a>{$x}</a>", b"", b"XPST0008 at 4", 1),
    (b"element {$n} {$m}", b"", b"XPST0008 at 9", 1),
    (b"let $x := 1 return $local:x", b"", b"XPST0008 at 19", 1),
    // what is visible
    (
        b"for $x in (1,2) for $x in ($x,3) return $x",
        b"1 3 2 3",
        b"",
        0,
    ),
    (b"let $x := 1 let $x := $x + 1 return $x", b"2", b"", 0),
    (
        b"for $x at $i in (7,8) let $y := $i return $y",
        b"1 2",
        b"",
        0,
    ),
    (
        b"for $x in 1 return (for $x in 2 return $x, $x)",
        b"2 1",
        b"",
        0,
    ),
    (
        b"some $x in (1,2), $y in $x satisfies $y",
        b"",
        b"PFRC0004",
        1,
    ),
    (
        b"declare variable $a := 1; declare variable $b := $a + 1; $b",
        b"2",
        b"",
        0,
    ),
    (
        b"declare variable $a := 1; let $a := 2 return $a",
        b"2",
        b"",
        0,
    ),
    (
        b"declare variable $a := 1; declare function local:f() { $a }; local:f()",
        b"1",
        b"",
        0,
    ),
    (
        b"declare variable $a := 1; declare function local:f($a) { $a }; local:f(3)",
        b"3",
        b"",
        0,
    ),
    (
        b"declare function local:f($x, $y) { ($y, $x) }; local:f(1, 2)",
        b"2 1",
        b"",
        0,
    ),
    // XPST0008 at a call that comes too soon
    (
        b"declare variable $a := local:f(); declare function local:f() { $a }; 1",
        b"",
        b"XPST0008 at 23",
        1,
    ),
    (
        b"declare function local:f() { $b }; declare variable $a := local:f(); declare variable $b := 1; $a",
        b"",
        b"XPST0008 at 29",
        1,
    ),
    (
        b"declare variable $a := local:g(); declare variable $b := 1; declare function local:f() { $b }; declare function local:g() { local:f() }; $a",
        b"",
        b"XPST0008 at 23",
        1,
    ),
    (
        b"declare variable $a := 1; declare function local:f() { $a }; declare variable $b := local:f(); $b",
        b"1",
        b"",
        0,
    ),
    (
        b"declare variable $a := (1, local:f()); declare variable $c := 1; declare function local:f() { ($c, $c) }; $y",
        b"",
        b"XPST0008 at 27",
        1,
    ),
    (
        b"declare variable $a := local:f(1); declare function local:f($x) { $x + 1 }; $a",
        b"2",
        b"",
        0,
    ),
    // XPST0017: calls of no function
    (b"foo()", b"", b"XPST0017 at 0", 1),
    (b"f($x)", b"", b"XPST0017 at 0", 1),
    (b"($x, f())", b"", b"XPST0008 at 1", 1),
    (b"count()", b"", b"XPST0017 at 0", 1),
    (b"count(1, 2)", b"", b"XPST0017 at 0", 1),
    (b"fn:cound(1)", b"", b"XPST0017 at 0", 1),
    (b"fn:true()", b"", b"PFRC0004", 1),
    (
        b"declare function local:f($x) { 1 }; local:f()",
        b"",
        b"XPST0017 at 36",
        1,
    ),
    (
        b"declare function local:f($x) { 1 }; local:f(1, 2)",
        b"",
        b"XPST0017 at 36",
        1,
    ),
    (
        b"declare function local:f() { 1 }; f()",
        b"",
        b"XPST0017 at 34",
        1,
    ),
    (b"declare function fn:f() { 1 }; f()", b"1", b"", 0),
    (
        b"declare function local:g() { local:f() }; declare function local:f() { 1 }; local:g()",
        b"1",
        b"",
        0,
    ),
];

/// Queries with types and declarations, alike.
const DECLARATIONS: [(&[u8], &[u8], &[u8], u8); 40] = [
    // XPST0051: names of no type
    (b"1 cast as xs:decimal", b"", b"XPST0051 at 10", 1),
    (b"1 castable as xs:double", b"", b"XPST0051 at 14", 1),
    (b"1 instance of integer", b"", b"XPST0051 at 14", 1),
    (b"1 treat as xs:int", b"", b"XPST0051 at 11", 1),
    (
        b"for $x as xs:foo in $y return 1",
        b"",
        b"XPST0051 at 10",
        1,
    ),
    (b"let $x as foo := $y return 1", b"", b"XPST0051 at 10", 1),
    (b"$y treat as xs:int", b"", b"XPST0008 at 0", 1),
    (
        b"declare variable $a as xs:any := $y; 1",
        b"",
        b"XPST0051 at 23",
        1,
    ),
    (
        b"declare function local:f($x as foo) as bar { $y }; 1",
        b"",
        b"XPST0051 at 31",
        1,
    ),
    (
        b"declare function local:f($x) as bar { $y }; 1",
        b"",
        b"XPST0051 at 32",
        1,
    ),
    (
        b"some $x as foo in $y satisfies $z",
        b"",
        b"XPST0051 at 11",
        1,
    ),
    // XPST0080: casts to no type
    (b"1 cast as xs:anyAtomicType", b"", b"XPST0080 at 10", 1),
    (b"1 castable as xs:NOTATION", b"", b"XPST0080 at 14", 1),
    (b"1 cast as xs:NOTATION?", b"", b"XPST0080 at 10", 1),
    (b"1 instance of xs:NOTATION", b"", b"XPST0051 at 14", 1),
    (b"1 instance of xs:anyAtomicType", b"", b"PFRC0004", 1),
    // XQST0034: functions declared twice or built in
    (
        b"declare function local:f() { 1 }; declare function local:f() { 2 }; 1",
        b"",
        b"XQST0034 at 51",
        1,
    ),
    (
        b"declare function local:f($x) { 1 }; declare function local:f($y) { $z }; 1",
        b"",
        b"XQST0034 at 53",
        1,
    ),
    (
        b"declare function local:f($x) { 1 }; declare function local:f() { 2 }; local:f()",
        b"2",
        b"",
        0,
    ),
    (
        b"declare function fn:count($x) { 1 }; 1",
        b"",
        b"XQST0034 at 17",
        1,
    ),
    (
        b"declare function true() { 1 }; 1",
        b"",
        b"XQST0034 at 17",
        1,
    ),
    (
        b"declare function fn:true($x) { $x }; true(1)",
        b"1",
        b"",
        0,
    ),
    (
        b"declare function fn:f() { 1 }; declare function f() { 2 }; 1",
        b"",
        b"XQST0034 at 48",
        1,
    ),
    // XQST0039, XQST0049, XQST0068, XQST0089, XQST0040: repeats
    (
        b"declare function local:f($x, $x) { $y }; 1",
        b"",
        b"XQST0039 at 29",
        1,
    ),
    (
        b"declare function local:f($x, $y, $x, $y) { 1 }; 1",
        b"",
        b"XQST0039 at 33",
        1,
    ),
    (
        b"declare variable $a := 1; declare variable $a := $b; 1",
        b"",
        b"XQST0049 at 43",
        1,
    ),
    (
        b"declare variable $a := 1; declare variable $b := $c; declare variable $a := 2; 1",
        b"",
        b"XPST0008 at 49",
        1,
    ),
    (
        b"declare boundary-space strip; declare boundary-space strip; 1",
        b"",
        b"XQST0068 at 30",
        1,
    ),
    (
        b"declare boundary-space strip; declare boundary-space strip; declare variable $a := $b; 1",
        b"",
        b"XQST0068 at 30",
        1,
    ),
    (b"for $x at $x in $y return 1", b"", b"XQST0089 at 10", 1),
    (
        b"for $x in $y, $z at $z in 1 return 1",
        b"",
        b"XPST0008 at 10",
        1,
    ),
    (b"<a b=\"1\" b=\"2\"/>", b"", b"XQST0040 at 9", 1),
    (b"<a b=\"{$x}\" b=\"2\"/>", b"", b"XPST0008 at 7", 1),
    (
        b"<a b=\"1\"><c d=\"1\" d=\"2\"/></a>",
        b"",
        b"XQST0040 at 18",
        1,
    ),
    // PFRC0001: functions that call themselves
    (
        b"declare function local:f() { local:f() }; 1",
        b"",
        b"PFRC0001 at 0",
        1,
    ),
    (
        b"declare function local:f($x) { local:g($x) }; declare function local:g($x) { local:f($x) }; 1",
        b"",
        b"PFRC0001 at 0",
        1,
    ),
    (
        b"declare function local:h() { local:f() }; declare function local:f() { (1, local:g()) }; declare function local:g() { local:k() }; declare function local:k() { local:f() }; local:h()",
        b"",
        b"PFRC0001 at 42",
        1,
    ),
    (
        b"declare function local:f($x) { 1 }; declare function local:f() { local:f(2) }; local:f()",
        b"1",
        b"",
        0,
    ),
    (
        b"declare variable $a := $b; declare function local:f() { local:f() }; 1",
        b"",
        b"XPST0008 at 23",
        1,
    ),
    (
        b"declare function local:f() { ($x, local:f()) }; 1",
        b"",
        b"PFRC0001 at 0",
        1,
    ),
];

#[test]
fn the_first_refusal_is_told(rt: HostRuntime) -> Result<(), Fail> {
    let alloc = rt.alloc();
    for (place, (query, out, line, code)) in NAMES.iter().enumerate() {
        assert!(rt;
            is_answered(alloc, query, out, line, *code)?,
            "case {place}"
        );
    }
    Ok(())
}

#[test]
fn the_first_refused_declaration_is_told(rt: HostRuntime) -> Result<(), Fail> {
    let alloc = rt.alloc();
    for (place, (query, out, line, code)) in DECLARATIONS.iter().enumerate() {
        assert!(rt;
            is_answered(alloc, query, out, line, *code)?,
            "case {place}"
        );
    }
    Ok(())
}

/// Functions each of which calls the one before it twice, from the first on, and a call of the last.
fn chain(alloc: Global, count: u64) -> Result<Vec<u8>, AllocError> {
    let mut text = Vec::from_slice(alloc, b"declare function local:f0() { 1 };")?;
    for k in 1..count {
        let before = k - 1;
        let line = format!(in alloc;
            "declare function local:f{k}() {{ (local:f{before}(), local:f{before}()) }};"
        )?;
        text.extend_from_slice(line.as_bytes())?;
    }
    let last = count.saturating_sub(1);
    let body = format!(in alloc; "local:f{last}()")?;
    text.extend_from_slice(body.as_bytes())?;
    Ok(text)
}

/// A Core beyond the limits is refused without being made, however large it would be.
#[test]
fn a_core_too_large_is_refused(rt: HostRuntime) -> Result<(), Fail> {
    let alloc = rt.alloc();
    assert!(rt; is_answered(alloc, chain(alloc, 18)?.as_slice(), b"", b"PFRC0002", 1)?);
    assert!(rt; is_answered(alloc, chain(alloc, 40)?.as_slice(), b"", b"PFRC0002", 1)?);
    assert!(rt; is_answered(alloc, chain(alloc, 3)?.as_slice(), b"1 1 1 1", b"", 0)?);
    Ok(())
}

//! Cases of reading: texts of each production, accepted, refused, or cut.
use crate::query_cases::status_alone;
use crate::status::Status;
use std::alloc::{AllocError, Global};
use std::test::Fail;
use xq_base::Code;

/// How a text is read.
#[derive(Clone, Copy, PartialEq, Eq)]
enum Read {
    /// It is a query, and all of it is read.
    Accepted,
    /// It is no query.
    Refused,
    /// It has a construct that is left out.
    LeftOut,
}

type Cases = &'static [(&'static [u8], Read)];

/// IntegerLiteral, and numbers that are left out (XQuery 1.0, section 3.1.1).
const LITERALS: Cases = &[
    (b"1", Read::Accepted),
    (b"007", Read::Accepted),
    (b"1a", Read::Refused),
    (b"1.5", Read::LeftOut),
    (b"1.", Read::LeftOut),
    (b"1e3", Read::LeftOut),
    (b"1E", Read::LeftOut),
    (b".5", Read::LeftOut),
    (b"..5", Read::Refused),
];

/// StringLiteral and its references (XQuery 1.0, section 3.1.1).
const STRINGS: Cases = &[
    (b"'a''b'", Read::Accepted),
    (b"\"a\"\"b\"", Read::Accepted),
    (b"\"a", Read::Refused),
    (b"\"&lt;&#65;&#x41;\"", Read::Accepted),
    (b"\"&x;\"", Read::Refused),
    (b"\"&#0;\"", Read::Refused),
    (b"\"a&b\"", Read::Refused),
    (b"\"&lt;&gt;&amp;&quot;&apos;\"", Read::Accepted),
    (b"\"&#x10FFFF;\"", Read::Accepted),
    (b"\"&#x110000;\"", Read::Refused),
    (b"\"&#xD800;\"", Read::Refused),
    (b"\"&lt\"", Read::Refused),
    (b"'\"'", Read::Accepted),
    (b"\"\xc3\xa9\"", Read::Accepted),
];

/// Names: no word is reserved (XQuery 1.0, section A.2.2).
const NAMES: Cases = &[
    (b"a", Read::Accepted),
    (b"a:b", Read::Accepted),
    (b"a:b:c", Read::Refused),
    (b"a-b.c", Read::Accepted),
    (b"for", Read::Accepted),
    (b"if", Read::Accepted),
    (b"div", Read::Accepted),
    (b"$x", Read::Accepted),
    (b"$ x", Read::Accepted),
    (b"$p:x", Read::Accepted),
    (b"a b", Read::Refused),
    (b"-a", Read::Accepted),
    (b"a:1", Read::Refused),
    (b"a/div", Read::Accepted),
    (b"a/import", Read::Accepted),
    (b"a/module", Read::Accepted),
    (b"div/a", Read::Accepted),
    (b"namespace/a", Read::Accepted),
    (b"external", Read::Accepted),
    (b"collation", Read::Accepted),
    (b"preserve", Read::Accepted),
];

/// Names of several bytes a character.
const WIDE_NAMES: Cases = &[
    (b"\xc3\xa9", Read::Accepted),
    (b"a\xc3\x97", Read::Refused),
    (b"a/\xc3\xa9", Read::Accepted),
    (b"1 + div\xc3\x97", Read::Refused),
    (b"1 div\xc3\x97", Read::LeftOut),
];

/// White space and comments (XQuery 1.0, sections 2.6 and A.2.4).
const BLANKS_AND_COMMENTS: Cases = &[
    (b"(: a :) 1", Read::Accepted),
    (b"(: (: :) :)1", Read::Accepted),
    (b"(: (: :)1", Read::Refused),
    (b"1(::)", Read::Accepted),
    (b"1 (: +", Read::Refused),
    (b"a(: :)/(: :)b", Read::Accepted),
    (b" ", Read::Refused),
    (b"", Read::Refused),
    (b"\xef\xbb\xbf1", Read::Accepted),
    (b"1\xef\xbb\xbf", Read::Refused),
    (b"1\r\n+\r2", Read::Accepted),
    (b"(: a :) :) 1", Read::Refused),
    (b"1 + (: ( :) 2", Read::Accepted),
    (b"\x0b1", Read::Refused),
    (b"(:\x01:)1", Read::Refused),
    (b"\xff", Read::Refused),
];

/// AdditiveExpr, MultiplicativeExpr, RangeExpr, UnaryExpr (XQuery 1.0, sections 3.3.1 and 3.4).
const ARITHMETIC: Cases = &[
    (b"1 + 2 - 3", Read::Accepted),
    (b"1 * 2 idiv 3 mod 4", Read::Accepted),
    (b"1 div 2", Read::LeftOut),
    (b"1 to 2", Read::Accepted),
    (b"1 to 2 to 3", Read::Refused),
    (b"+ - 1", Read::Accepted),
    (b"1+", Read::Refused),
    (b"* * *", Read::Accepted),
    (b"1 idiv", Read::Refused),
    (b"1 mod 2 * 3", Read::Accepted),
    (b"1 div2", Read::Refused),
    (b"div div div", Read::LeftOut),
];

/// ComparisonExpr (XQuery 1.0, section 3.5).
const COMPARISONS: Cases = &[
    (b"1 < 2", Read::Accepted),
    (b"1 < 2 < 3", Read::Refused),
    (b"1<2", Read::Accepted),
    (b"1 <= 2", Read::Accepted),
    (b"1 eq 2", Read::Accepted),
    (b"a << b", Read::Accepted),
    (b"a is b", Read::Accepted),
    (b"a >> b", Read::Accepted),
    (b"1 = -1", Read::Accepted),
    (b"1 !=2", Read::Accepted),
    (b"1 ! 2", Read::Refused),
    (b"a != b", Read::Accepted),
    (b"a >= b", Read::Accepted),
    (b"a ne b", Read::Accepted),
    (b"a lt b", Read::Accepted),
    (b"a le b", Read::Accepted),
    (b"a gt b", Read::Accepted),
    (b"a ge b", Read::Accepted),
    (b"a eq b eq c", Read::Refused),
];

/// OrExpr, AndExpr, UnionExpr, IntersectExceptExpr (XQuery 1.0, sections 3.3.3 and 3.6).
const SET_OPERATORS: Cases = &[
    (b"a or b and c", Read::Accepted),
    (b"a union b | c", Read::Accepted),
    (b"a intersect b except c", Read::Accepted),
    (b"a union", Read::Refused),
    (b"a |", Read::Refused),
    (b"a except except", Read::Accepted),
];

/// InstanceofExpr and TreatExpr (XQuery 1.0, section 3.12).
const TESTED_TYPES: Cases = &[
    (b"1 instance of xs:integer", Read::Accepted),
    (b"1 instance of xs:integer?", Read::Accepted),
    (b"1 instance of item()*", Read::Accepted),
    (b"1 instance of empty-sequence()", Read::Accepted),
    (b"1 instance of empty-sequence()?", Read::Refused),
    (b"1 treat as node()+", Read::Accepted),
];

/// CastExpr and CastableExpr (XQuery 1.0, section 3.12).
const CAST_TYPES: Cases = &[
    (b"1 cast as xs:integer?", Read::Accepted),
    (b"1 castable as xs:string", Read::Accepted),
    (b"1 cast as item()", Read::Refused),
    (b"1 cast as xs:integer ? + 2", Read::Accepted),
    (b"1 cast xs:integer", Read::Refused),
];

/// SequenceType (XQuery 1.0, section 2.5.3).
const KIND_TESTS: Cases = &[
    (b"1 instance of element(a)", Read::Accepted),
    (b"1 instance of element(*)", Read::Accepted),
    (b"1 instance of element(a, b)", Read::LeftOut),
    (b"1 instance of schema-element(a)", Read::LeftOut),
    (b"1 instance of document-node(element(a))", Read::LeftOut),
    (b"1 instance of document-node()", Read::Accepted),
];

/// PITest (XQuery 1.0, section 2.5.3).
const INSTRUCTION_TESTS: Cases = &[
    (b"processing-instruction(a)", Read::Accepted),
    (b"processing-instruction(p:a)", Read::Refused),
    (b"processing-instruction()", Read::Accepted),
    (b"processing-instruction('a')", Read::Accepted),
];

/// OccurrenceIndicator: what follows a type belongs to it (XQuery 1.0, section 2.5.3).
const OCCURRENCES: Cases = &[
    (b"1 instance of xs:integer * 2", Read::Refused),
    (b"1 instance of xs:integer + 2", Read::Refused),
    (b"(1 instance of xs:integer) + 2", Read::Accepted),
];

/// PathExpr and StepExpr (XQuery 1.0, section 3.2).
const PATHS: Cases = &[
    (b"/", Read::Accepted),
    (b"/a", Read::Accepted),
    (b"//a", Read::Accepted),
    (b"//", Read::Refused),
    (b"a//b/c", Read::Accepted),
    (b"a/", Read::Refused),
    (b"/ < 5", Read::Refused),
    (b"/ + 5", Read::Accepted),
    (b"/ * 5", Read::Refused),
    (b"/ div 2", Read::Refused),
    (b"a[1][2]", Read::Accepted),
    (b"(a)[1]/b", Read::Accepted),
    (b"a/(b)", Read::Accepted),
    (b"..", Read::Accepted),
    (b"../a", Read::Accepted),
    (b"@a", Read::Accepted),
    (b"@*", Read::Accepted),
    (b"*", Read::Accepted),
    (b"./a", Read::Accepted),
];

/// AxisStep (XQuery 1.0, section 3.2.1).
const AXES: Cases = &[
    (b"child::a", Read::Accepted),
    (b"child :: a", Read::Accepted),
    (b"self::*", Read::Accepted),
    (b"namespace::a", Read::LeftOut),
    (b"foo::a", Read::Refused),
    (b"a/following-sibling::b", Read::Accepted),
    (b"attribute::a", Read::Accepted),
    (b"child::", Read::Refused),
    (b"child::text()", Read::Accepted),
    (b"child::1", Read::Refused),
    (b"descendant::a", Read::Accepted),
    (b"self::a", Read::Accepted),
    (b"descendant-or-self::a", Read::Accepted),
    (b"following-sibling::a", Read::Accepted),
    (b"following::a", Read::Accepted),
    (b"parent::a", Read::Accepted),
    (b"ancestor::a", Read::Accepted),
    (b"preceding-sibling::a", Read::Accepted),
    (b"preceding::a", Read::Accepted),
    (b"ancestor-or-self::a", Read::Accepted),
];

/// Tests that are left out (XQuery 1.0, section 3.2.1.2).
const TESTS_LEFT_OUT: Cases = &[
    (b"p:*", Read::LeftOut),
    (b"*:n", Read::LeftOut),
    (b"a/p:*", Read::LeftOut),
    (b"child::*:n", Read::LeftOut),
    (b"@p:*", Read::LeftOut),
    (b"schema-element(a)", Read::LeftOut),
    (b"document-node(element(a))", Read::LeftOut),
    (b"element(a, b)", Read::LeftOut),
];

/// FunctionCall (XQuery 1.0, section 3.1.5).
const CALLS: Cases = &[
    (b"f()", Read::Accepted),
    (b"f(1)", Read::Accepted),
    (b"f(1, 2)", Read::Accepted),
    (b"f(1,)", Read::Refused),
    (b"f (1)", Read::Accepted),
    (b"p:f(1)", Read::Accepted),
    (b"item()", Read::Refused),
    (b"empty-sequence()", Read::Refused),
    (b"text()", Read::Accepted),
    (b"node()", Read::Accepted),
    (b"if()", Read::Refused),
    (b"avg(1)", Read::LeftOut),
    (b"fn:avg(1)", Read::LeftOut),
    (b"p:avg(1)", Read::Accepted),
    (b"avg", Read::Accepted),
    (b"typeswitch(1)", Read::LeftOut),
    (b"1 + typeswitch(1)", Read::Refused),
    (b"1 + avg(1)", Read::LeftOut),
    (b"number(1)", Read::LeftOut),
    (b"id(1)", Read::LeftOut),
    (b"idref(1)", Read::LeftOut),
    (b"collection(1)", Read::LeftOut),
    (b"matches(1)", Read::LeftOut),
    (b"replace(1)", Read::LeftOut),
    (b"tokenize(1)", Read::LeftOut),
    (b"upper-case(1)", Read::LeftOut),
    (b"lower-case(1)", Read::LeftOut),
    (b"normalize-unicode(1)", Read::LeftOut),
    (b"schema-attribute(a)", Read::LeftOut),
    (b"fn:id(1)", Read::LeftOut),
    (b"number/a", Read::Accepted),
];

/// ValidateExpr, OrderedExpr, ExtensionExpr, left out (XQuery 1.0, sections 3.9, 3.13 and 3.14).
const BLOCKS_LEFT_OUT: Cases = &[
    (b"validate {1}", Read::LeftOut),
    (b"validate lax {1}", Read::LeftOut),
    (b"validate", Read::Accepted),
    (b"ordered {1}", Read::LeftOut),
    (b"unordered {1}", Read::LeftOut),
    (b"(# a #) {1}", Read::LeftOut),
    (b"/validate {1}", Read::LeftOut),
    (b"/(# a #) {1}", Read::LeftOut),
    (b"ordered", Read::Accepted),
    (b"validate strict {1}", Read::LeftOut),
    (b"a/validate", Read::Accepted),
    (b"unordered", Read::Accepted),
];

/// ComputedConstructor (XQuery 1.0, section 3.7.3).
const BUILDERS: Cases = &[
    (b"element a {}", Read::Accepted),
    (b"element a {1}", Read::Accepted),
    (b"element {1} {}", Read::Accepted),
    (b"element {} {}", Read::Refused),
    (b"attribute a {}", Read::Accepted),
    (b"processing-instruction a {}", Read::Accepted),
    (b"processing-instruction p:a {}", Read::Refused),
    (b"text {1}", Read::Accepted),
    (b"text {}", Read::Refused),
    (b"comment {1}", Read::Accepted),
    (b"document {1}", Read::Accepted),
    (b"element", Read::Accepted),
    (b"element a", Read::Refused),
    (b"text div {1}", Read::LeftOut),
];

/// FLWORExpr (XQuery 1.0, section 3.8).
const FLWOR: Cases = &[
    (b"for $x in 1 return 2", Read::Accepted),
    (b"for $x at $i in 1 return 2", Read::Accepted),
    (b"for $x as xs:integer in 1 return 2", Read::Accepted),
    (b"let $x := 1 return 2", Read::Accepted),
    (b"let $x as item()* := 1 return 2", Read::Accepted),
    (
        b"for $x in 1, $y in 2 let $z := 1 where 1 return 2",
        Read::Accepted,
    ),
    (b"for $x in 1", Read::Refused),
    (b"for x in 1", Read::Refused),
    (b"1 + for $x in 1 return 2", Read::Refused),
    (b"for", Read::Accepted),
    (b"let", Read::Accepted),
    (
        b"for $x in 1 let $y := 2 for $z in 3 return 4",
        Read::Accepted,
    ),
    (b"let $x = 1 return 2", Read::Refused),
    (b"for $x in 1, return 2", Read::Refused),
    (b"for $x in 1 where return 2", Read::Refused),
    (b"for $x in 1 where return return 2", Read::Accepted),
];

/// OrderByClause (XQuery 1.0, section 3.8.3).
const ORDERS: Cases = &[
    (b"for $x in 1 order by 1 return 2", Read::Accepted),
    (
        b"for $x in 1 stable order by 1 descending empty greatest, 2 return 2",
        Read::Accepted,
    ),
    (
        b"for $x in 1 order by 1 collation 'a' return 2",
        Read::LeftOut,
    ),
    (b"for $x in 1 order by 1 empty return 2", Read::Refused),
];

/// QuantifiedExpr and IfExpr (XQuery 1.0, sections 3.10 and 3.11).
const QUANTIFIERS: Cases = &[
    (b"some $x in 1 satisfies 2", Read::Accepted),
    (
        b"every $x as item() in 1, $y in 2 satisfies 3",
        Read::Accepted,
    ),
    (b"some $x in 1", Read::Refused),
    (b"if (1) then 2 else 3", Read::Accepted),
    (b"if (1) then 2", Read::Refused),
    (b"some", Read::Accepted),
    (b"every", Read::Accepted),
    (b"if (1, 2) then 3 else 4", Read::Accepted),
    (b"1 + if (1) then 2 else 3", Read::Refused),
];

/// DirElemConstructor (XQuery 1.0, section 3.7.1).
const ELEMENTS: Cases = &[
    (b"<a/>", Read::Accepted),
    (b"<a></a>", Read::Accepted),
    (b"<a ></a >", Read::Accepted),
    (b"<a></b>", Read::Refused),
    (b"<a b='1'/>", Read::Accepted),
    (b"<a b = '1' c=\"2\" />", Read::Accepted),
    (b"<a b='1'c='2'/>", Read::Refused),
    (b"< a/>", Read::Refused),
    (b"<a><b/>x{1}y</a>", Read::Accepted),
    (b"<a>}</a>", Read::Refused),
    (b"<a>{{}}</a>", Read::Accepted),
    (b"<a>{}</a>", Read::Refused),
    (b"<a>&lt;</a>", Read::Accepted),
    (b"<a>&x;</a>", Read::Refused),
    (b"<div/>", Read::Accepted),
    (b"<import/>", Read::Accepted),
    (b"<module/>", Read::Accepted),
    (b"<a>&#65;&#x41;</a>", Read::Accepted),
    (b"<a>&#0;</a>", Read::Refused),
    (b"<a", Read::Refused),
    (b"<a>", Read::Refused),
    (b"<a>]]></a>", Read::Accepted),
    (b"<a>{1, <b/>}</a>", Read::Accepted),
    (b"<a>{</a>", Read::Refused),
    (b"<a (: c :)/>", Read::Refused),
    (b"<a>(: c</a>", Read::Accepted),
];

/// DirAttributeValue (XQuery 1.0, section 3.7.1.1).
const VALUES: Cases = &[
    (b"<a b='{1}'/>", Read::Accepted),
    (b"<a b='{{'/>", Read::Accepted),
    (b"<a b='}'/>", Read::Refused),
    (b"<a b=''''/>", Read::Accepted),
    (b"<a b='&lt;'/>", Read::Accepted),
    (b"<a b='<'/>", Read::Refused),
    (b"<a b=\"'\"/>", Read::Accepted),
    (b"<a b=\"\"\"/>", Read::Refused),
    (b"<a b=1/>", Read::Refused),
    (b"<a b/>", Read::Refused),
    (b"<a b=\"{1}{2}x\"/>", Read::Accepted),
    (b"<a b=\"}}\"/>", Read::Accepted),
];

/// DirCommentConstructor, DirPIConstructor, CDataSection (XQuery 1.0, sections 3.7.1.3 and 3.7.2).
const COMMENTS_AND_INSTRUCTIONS: Cases = &[
    (b"<!--a-->", Read::Accepted),
    (b"<!--a--b-->", Read::Refused),
    (b"<!--a--->", Read::Refused),
    (b"<?a?>", Read::Accepted),
    (b"<?a b?>", Read::Accepted),
    (b"<?xml b?>", Read::Refused),
    (b"<?a:b?>", Read::Accepted),
    (b"<a><!----><?b?></a>", Read::Accepted),
    (b"<a><![CDATA[<]]></a>", Read::Accepted),
    (b"<!-->", Read::Refused),
    (b"<?XML b?>", Read::Refused),
    (b"<a><!--a--b--></a>", Read::Refused),
    (b"<a><![CDATA[a</a>", Read::Refused),
    (b"<![CDATA[a]]>", Read::Refused),
];

/// Prolog (XQuery 1.0, section 4).
const PROLOGS: Cases = &[
    (b"declare boundary-space strip; 1", Read::Accepted),
    (b"declare boundary-space preserve; 1", Read::LeftOut),
    (b"declare variable $x := 1; $x", Read::Accepted),
    (b"declare variable $x as item() := 1; $x", Read::Accepted),
    (b"declare variable $x external; $x", Read::LeftOut),
    (b"declare function f() {1}; 1", Read::Accepted),
    (
        b"declare function f($x, $y as item()) as item() {1}; 1",
        Read::Accepted,
    ),
    (b"declare function f() external; 1", Read::LeftOut),
    (b"declare boundary-space strip 1", Read::Refused),
    (b"declare variable $x = 1; $x", Read::Refused),
    (b"declare function f($x, ) {1}; 1", Read::Refused),
    (b"declare function f() {}; 1", Read::Refused),
    (b"declare", Read::Accepted),
];

/// Declarations that are left out (XQuery 1.0, section 4).
const DECLARATIONS_LEFT_OUT: Cases = &[
    (b"declare base-uri 'a'; 1", Read::LeftOut),
    (b"declare div 2", Read::LeftOut),
    (b"declare/a", Read::Accepted),
    (b"import", Read::LeftOut),
    (b"a/import", Read::Accepted),
    (b"module", Read::LeftOut),
    (b"declare variable $x := 1; module", Read::Accepted),
    (b"declare variable $x := 1; import", Read::LeftOut),
    (
        b"declare variable $x := 1; declare boundary-space strip; 1",
        Read::Refused,
    ),
    (b"declare namespace a = \"b\"; 1", Read::LeftOut),
    (b"import module \"a\"; 1", Read::LeftOut),
    (b"module namespace a = \"b\"; 1", Read::LeftOut),
];

/// VersionDecl (XQuery 1.0, section 4.1).
const VERSIONS: Cases = &[
    (b"xquery", Read::Accepted),
    (b"xquery/version", Read::Accepted),
    (b"xquery version 1", Read::Refused),
    (b"xquery version \"1.0\"; 1", Read::Accepted),
    (b"xquery version \"2\"; 1", Read::Accepted),
    (
        b"xquery version \"1.0\" encoding \"UTF-8\"; 1",
        Read::Accepted,
    ),
    (
        b"xquery version \"1.0\" encoding \"us-ascii\"; 1",
        Read::Accepted,
    ),
    (
        b"xquery version \"1.0\" encoding \"latin1\"; 1",
        Read::LeftOut,
    ),
    (b"xquery version \"1.0\" 1", Read::Refused),
];

/// Expr and ParenthesizedExpr (XQuery 1.0, sections 3.1.3 and 3.3.1).
const ENDS: Cases = &[
    (b"1, 2", Read::Accepted),
    (b"1 2", Read::Refused),
    (b"1,", Read::Refused),
    (b"()", Read::Accepted),
    (b"(1, 2)", Read::Accepted),
    (b"(1", Read::Refused),
    (b"1)", Read::Refused),
    (b".", Read::Accepted),
    (b"1;", Read::Refused),
];

/// The code with which a text is refused.
fn refused_with(alloc: Global, text: &[u8]) -> Result<Option<Code>, AllocError> {
    Ok(match status_alone(alloc, text)? {
        Status::Static { code, .. } => Some(code),
        _ => None,
    })
}

/// Whether a text is read so. A parenthesis too much behind it shows whether it was read to its end: a cut
/// stands before it.
fn is_read(alloc: Global, text: &[u8], read: Read) -> Result<bool, AllocError> {
    let mut longer = Vec::from_slice(alloc, text)?;
    longer.extend_from_slice(b" )")?;
    let alone = refused_with(alloc, text)?;
    let behind = refused_with(alloc, longer.as_slice())?;
    Ok(match read {
        Read::Accepted => alone != Some(Code::XPST0003) && behind == Some(Code::XPST0003),
        Read::Refused => alone == Some(Code::XPST0003),
        Read::LeftOut => alone == Some(Code::PFRC0004) && behind == Some(Code::PFRC0004),
    })
}

/// The tables of all productions.
const TABLES: [Cases; 29] = [
    LITERALS,
    STRINGS,
    NAMES,
    WIDE_NAMES,
    BLANKS_AND_COMMENTS,
    ARITHMETIC,
    COMPARISONS,
    SET_OPERATORS,
    TESTED_TYPES,
    CAST_TYPES,
    KIND_TESTS,
    INSTRUCTION_TESTS,
    OCCURRENCES,
    PATHS,
    AXES,
    TESTS_LEFT_OUT,
    CALLS,
    BLOCKS_LEFT_OUT,
    BUILDERS,
    FLWOR,
    ORDERS,
    QUANTIFIERS,
    ELEMENTS,
    VALUES,
    COMMENTS_AND_INSTRUCTIONS,
    PROLOGS,
    DECLARATIONS_LEFT_OUT,
    VERSIONS,
    ENDS,
];

#[test]
fn each_production_is_read(rt: HostRuntime) -> Result<(), Fail> {
    let alloc = rt.alloc();
    for (table, cases) in TABLES.iter().enumerate() {
        for (place, (text, read)) in cases.iter().enumerate() {
            assert!(rt; is_read(alloc, text, *read)?, "table {table}, case {place}");
        }
    }
    Ok(())
}

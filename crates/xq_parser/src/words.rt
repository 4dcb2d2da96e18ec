//! The words of the language: their classes.
ghost use Rattle.std.specs.Prelude.{◌≡◌};
ghost use Rattle.xq_ast.specs.Bytes as bytes;
ghost use Rattle.xq_ast.specs.Words as spec;

use xq_ast::look::Look;
use xq_lexer::bytes::follows;

/// Whether two texts are the same.
pub fn same(a: &[u8], b: &[u8]) -> bool
    ensures { result ≡ bytes.same a.now b.now }
{
    a == b
}

/// A word before `$`, or else another class.
pub fn binding_words(word: &[u8], other: Look) -> Look
    ensures { result ≡ spec.word_look spec.binding_words other word.now }
{
    if same(word, b"for") {
        Look::For
    } else if same(word, b"let") {
        Look::Let
    } else if same(word, b"some") {
        Look::Some
    } else if same(word, b"every") {
        Look::Every
    } else {
        other
    }
}

/// A word before `{`, or else another class.
pub fn block_words(word: &[u8], other: Look) -> Look
    ensures { result ≡ spec.word_look spec.block_words other word.now }
{
    if same(word, b"text") {
        Look::TextBuilder
    } else if same(word, b"comment") {
        Look::CommentBuilder
    } else if same(word, b"document") {
        Look::DocumentBuilder
    } else if same(word, b"validate") {
        Look::LeftOut
    } else if same(word, b"ordered") {
        Look::LeftOut
    } else if same(word, b"unordered") {
        Look::LeftOut
    } else {
        other
    }
}

/// A word before `{`, or before a name and `{`, or else another class.
pub fn builder_words(word: &[u8], other: Look) -> Look
    ensures { result ≡ spec.word_look spec.builder_words other word.now }
{
    if same(word, b"element") {
        Look::ElementBuilder
    } else if same(word, b"attribute") {
        Look::AttributeBuilder
    } else if same(word, b"processing-instruction") {
        Look::InstructionBuilder
    } else {
        other
    }
}

/// A forward axis before `::`, or else another class.
pub fn forward_axes(word: &[u8], other: Look) -> Look
    ensures { result ≡ spec.word_look spec.forward_axes other word.now }
{
    if same(word, b"child") {
        Look::Axis
    } else if same(word, b"descendant") {
        Look::Axis
    } else if same(word, b"attribute") {
        Look::Axis
    } else if same(word, b"self") {
        Look::Axis
    } else if same(word, b"descendant-or-self") {
        Look::Axis
    } else if same(word, b"following-sibling") {
        Look::Axis
    } else if same(word, b"following") {
        Look::Axis
    } else {
        other
    }
}

/// A reverse axis before `::`, or one that is left out, or else another class.
pub fn reverse_axes(word: &[u8], other: Look) -> Look
    ensures { result ≡ spec.word_look spec.reverse_axes other word.now }
{
    if same(word, b"parent") {
        Look::Axis
    } else if same(word, b"ancestor") {
        Look::Axis
    } else if same(word, b"preceding-sibling") {
        Look::Axis
    } else if same(word, b"preceding") {
        Look::Axis
    } else if same(word, b"ancestor-or-self") {
        Look::Axis
    } else if same(word, b"namespace") {
        Look::LeftOut
    } else {
        other
    }
}

/// A word before `(` that tests a kind, or else another class.
pub fn kind_words(word: &[u8], other: Look) -> Look
    ensures { result ≡ spec.word_look spec.kind_words other word.now }
{
    if same(word, b"node") {
        Look::NodeTest
    } else if same(word, b"text") {
        Look::TextTest
    } else if same(word, b"comment") {
        Look::CommentTest
    } else if same(word, b"document-node") {
        Look::DocumentTest
    } else if same(word, b"processing-instruction") {
        Look::InstructionTest
    } else if same(word, b"element") {
        Look::ElementTest
    } else if same(word, b"attribute") {
        Look::AttributeTest
    } else if same(word, b"schema-element") {
        Look::LeftOut
    } else if same(word, b"schema-attribute") {
        Look::LeftOut
    } else {
        other
    }
}

/// A word before `(` where a type is due, or else another class.
pub fn type_words(word: &[u8], other: Look) -> Look
    ensures { result ≡ spec.word_look spec.type_words other word.now }
{
    if same(word, b"item") {
        Look::ItemTest
    } else if same(word, b"empty-sequence") {
        Look::EmptyTest
    } else {
        other
    }
}

/// A word before `(` that is no function, or else another class.
pub fn reserved_words(word: &[u8], other: Look) -> Look
    ensures { result ≡ spec.word_look spec.reserved_words other word.now }
{
    if same(word, b"if") {
        Look::If
    } else if same(word, b"typeswitch") {
        Look::Typeswitch
    } else if same(word, b"item") {
        Look::Reserved
    } else if same(word, b"empty-sequence") {
        Look::Reserved
    } else {
        other
    }
}

/// A function that is left out, or else another class.
pub fn left_calls(word: &[u8], other: Look) -> Look
    ensures { result ≡ spec.word_look spec.left_calls other word.now }
{
    if same(word, b"avg") {
        Look::LeftOut
    } else if same(word, b"number") {
        Look::LeftOut
    } else if same(word, b"id") {
        Look::LeftOut
    } else if same(word, b"idref") {
        Look::LeftOut
    } else if same(word, b"collection") {
        Look::LeftOut
    } else {
        other
    }
}

/// A function on texts that is left out, or else another class.
pub fn left_text_calls(word: &[u8], other: Look) -> Look
    ensures { result ≡ spec.word_look spec.left_text_calls other word.now }
{
    if same(word, b"matches") {
        Look::LeftOut
    } else if same(word, b"replace") {
        Look::LeftOut
    } else if same(word, b"tokenize") {
        Look::LeftOut
    } else if same(word, b"upper-case") {
        Look::LeftOut
    } else if same(word, b"lower-case") {
        Look::LeftOut
    } else if same(word, b"normalize-unicode") {
        Look::LeftOut
    } else {
        other
    }
}

/// A word of logic or comparison, or else another class.
pub fn comparing_words(word: &[u8], other: Look) -> Look
    ensures { result ≡ spec.word_look spec.comparing_words other word.now }
{
    if same(word, b"or") {
        Look::Or
    } else if same(word, b"and") {
        Look::And
    } else if same(word, b"eq") {
        Look::Eq
    } else if same(word, b"ne") {
        Look::Ne
    } else if same(word, b"lt") {
        Look::Lt
    } else if same(word, b"le") {
        Look::Le
    } else if same(word, b"gt") {
        Look::Gt
    } else if same(word, b"ge") {
        Look::Ge
    } else if same(word, b"is") {
        Look::Is
    } else {
        other
    }
}

/// Another operator, or else another class.
pub fn operator_words(word: &[u8], other: Look) -> Look
    ensures { result ≡ spec.word_look spec.operator_words other word.now }
{
    if same(word, b"to") {
        Look::To
    } else if same(word, b"idiv") {
        Look::Idiv
    } else if same(word, b"mod") {
        Look::Mod
    } else if same(word, b"div") {
        Look::Div
    } else if same(word, b"union") {
        Look::Union
    } else if same(word, b"intersect") {
        Look::Intersect
    } else if same(word, b"except") {
        Look::Except
    } else {
        other
    }
}

/// A word of types where an operator is due, or else another class.
pub fn typing_words(word: &[u8], other: Look) -> Look
    ensures { result ≡ spec.word_look spec.typing_words other word.now }
{
    if same(word, b"instance") {
        Look::Instance
    } else if same(word, b"of") {
        Look::Of
    } else if same(word, b"treat") {
        Look::Treat
    } else if same(word, b"castable") {
        Look::Castable
    } else if same(word, b"cast") {
        Look::Cast
    } else if same(word, b"as") {
        Look::As
    } else {
        other
    }
}

/// A word of the clauses of FLWOR expressions, or else another class.
pub fn clause_words(word: &[u8], other: Look) -> Look
    ensures { result ≡ spec.word_look spec.clause_words other word.now }
{
    if same(word, b"for") {
        Look::For
    } else if same(word, b"let") {
        Look::Let
    } else if same(word, b"in") {
        Look::In
    } else if same(word, b"at") {
        Look::At
    } else if same(word, b"where") {
        Look::Where
    } else if same(word, b"stable") {
        Look::Stable
    } else if same(word, b"order") {
        Look::Order
    } else if same(word, b"by") {
        Look::By
    } else {
        other
    }
}

/// A word behind clauses and conditions, or else another class.
pub fn inner_words(word: &[u8], other: Look) -> Look
    ensures { result ≡ spec.word_look spec.inner_words other word.now }
{
    if same(word, b"return") {
        Look::Return
    } else if same(word, b"satisfies") {
        Look::Satisfies
    } else if same(word, b"then") {
        Look::Then
    } else if same(word, b"else") {
        Look::Else
    } else {
        other
    }
}

/// A word of sort keys, or else another class.
pub fn key_words(word: &[u8], other: Look) -> Look
    ensures { result ≡ spec.word_look spec.key_words other word.now }
{
    if same(word, b"ascending") {
        Look::Ascending
    } else if same(word, b"descending") {
        Look::Descending
    } else if same(word, b"empty") {
        Look::Empty
    } else if same(word, b"greatest") {
        Look::Greatest
    } else if same(word, b"least") {
        Look::Least
    } else if same(word, b"collation") {
        Look::Collation
    } else {
        other
    }
}

/// A word of the prolog, or else another class.
pub fn prolog_words(word: &[u8], other: Look) -> Look
    ensures { result ≡ spec.word_look spec.prolog_words other word.now }
{
    if same(word, b"version") {
        Look::Version
    } else if same(word, b"encoding") {
        Look::Encoding
    } else if same(word, b"boundary-space") {
        Look::BoundarySpace
    } else if same(word, b"strip") {
        Look::Strip
    } else if same(word, b"preserve") {
        Look::Preserve
    } else if same(word, b"variable") {
        Look::Variable
    } else if same(word, b"function") {
        Look::Function
    } else if same(word, b"external") {
        Look::External
    } else {
        other
    }
}

/// A word after `declare`, or else another class.
pub fn declared_words(word: &[u8], other: Look) -> Look
    ensures { result ≡ spec.word_look spec.declared_words other word.now }
{
    if same(word, b"boundary-space") {
        Look::DeclareSpace
    } else if same(word, b"variable") {
        Look::DeclareVariable
    } else if same(word, b"function") {
        Look::DeclareFunction
    } else {
        other
    }
}

/// A function that may be called, or is left out.
pub fn call_look(word: &[u8]) -> Look
    ensures { result ≡ spec.call_look word.now }
{
    left_calls(word, left_text_calls(word, Look::Callee))
}

/// A function's name without `fn:`.
pub fn without_fn(word: &[u8]) -> &[u8]
    ensures { result.now ≡ spec.without_fn word.now }
{
    if follows(b"fn:", word, 0) {
        &word[3..]
    } else {
        word
    }
}

/// A word where an operator is due.
pub fn operator_look(word: &[u8]) -> Look
    ensures { result ≡ spec.operator_look word.now }
{
    let last = key_words(word, prolog_words(word, Look::Name));
    let inner = clause_words(word, inner_words(word, last));
    comparing_words(word, operator_words(word, typing_words(word, inner)))
}

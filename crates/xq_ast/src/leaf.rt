//! What stands at the leaves of a tree: names, words, signs, tests and types.
use sqlite_items::Items;
use xq_base::{AtomKind, Fun, NodeTest, TextId};

/// A name or a string, with the offset of its first byte.
#[derive(Drop)]
pub struct Name<X> {
    pub offset: u64,
    pub text: X,
}

/// A variable, with the offset of its `$`.
#[derive(Drop)]
pub struct Variable<V> {
    pub offset: u64,
    pub name: V,
}

/// The two quantifiers (XQuery 1.0, section 3.11).
#[derive(Clone, Copy, Debug, PartialEq, Eq)]
pub enum Quantifier {
    Some,
    Every,
}

/// The two signs of an operand (XQuery 1.0, section 3.4).
#[derive(Clone, Copy, Debug, PartialEq, Eq)]
pub enum Sign {
    Plus,
    Minus,
}

/// The operators with two operands, of all levels (XQuery 1.0, sections 3.3 to 3.6).
#[derive(Clone, Copy, Debug, PartialEq, Eq)]
pub enum Operator {
    Or,
    And,
    /// General comparisons: `=`, `!=`, `<`, `<=`, `>`, `>=`.
    GeneralEq,
    GeneralNe,
    GeneralLt,
    GeneralLe,
    GeneralGt,
    GeneralGe,
    /// Value comparisons: `eq`, `ne`, `lt`, `le`, `gt`, `ge`.
    Eq,
    Ne,
    Lt,
    Le,
    Gt,
    Ge,
    /// Comparisons of nodes: `is`, `<<`, `>>`.
    Is,
    Before,
    After,
    To,
    Add,
    Subtract,
    Multiply,
    IntegerDivide,
    Modulo,
    Union,
    Intersect,
    Except,
}

/// What a step tests (XQuery 1.0, section 3.2.1.2).
#[derive(Drop)]
pub enum Test<X> {
    /// `*`
    Star,
    Named(Name<X>),
    Kind(KindTest<X>),
}

/// A test by kind; `element(*)` and `attribute(*)` are those without a name (XQuery 1.0, section 2.5.4).
#[derive(Drop)]
pub enum KindTest<X> {
    Node,
    Text,
    Comment,
    Document,
    Instruction(Option<Name<X>>),
    Element(Option<Name<X>>),
    Attribute(Option<Name<X>>),
}

/// How many items a sequence type admits (XQuery 1.0, section 2.5.3).
#[derive(Clone, Copy, Debug, PartialEq, Eq)]
pub enum Occurs {
    One,
    Optional,
    Many,
    AtLeastOne,
}

/// A sequence type as it is read, with its offset (XQuery 1.0, section 2.5.3).
#[derive(Drop)]
pub enum ReadType {
    Empty(u64),
    Of(u64, ReadItem, Occurs),
}

/// The type of an item as it is read: any, a kind of node, or an atomic type by its name.
#[derive(Drop)]
pub enum ReadItem {
    Any,
    Kind(KindTest<Items<u8>>),
    Named(Name<Items<u8>>),
}

/// Which items a sequence type admits: all, all atomic values, those of one kind, or nodes by a test
/// (XQuery 1.0, section 2.5.4).
#[derive(Clone, Copy, Debug, PartialEq, Eq)]
pub enum ItemType {
    Any,
    AnyAtomic,
    Atom(AtomKind),
    Test(NodeTest),
}

/// A sequence type whose names are resolved (XQuery 1.0, section 2.5.3).
#[derive(Clone, Copy, Debug, PartialEq, Eq)]
pub enum SeqType {
    Empty,
    Of { item: ItemType, occurs: Occurs },
}

/// The function of a call: a built-in one, or the declared one of this number, counted from 0 in the
/// order of the prolog (XQuery 1.0, section 3.1.5).
#[derive(Clone, Copy, Debug, PartialEq, Eq)]
pub enum Callee {
    Known(Fun),
    Declared(u32),
}

/// The six constructors that are written with words (XQuery 1.0, section 3.7.3).
#[derive(Clone, Copy, Debug, PartialEq, Eq)]
pub enum BuildKind {
    Element,
    Attribute,
    Text,
    Comment,
    Pi,
    Document,
}

/// A piece of content as it is read: its characters, in which line ends are line feeds.
#[derive(Drop)]
pub enum ContentRun {
    Chars(Items<u8>),
    Cdata(Items<u8>),
    /// The character that a reference names.
    Reference(Items<u8>),
    /// `{{`
    OpenBrace,
    /// `}}`
    CloseBrace,
}

/// A piece of an attribute's value as it is read.
#[derive(Drop)]
pub enum ValueRun {
    Chars(Items<u8>),
    /// The character that a reference names.
    Reference(Items<u8>),
    /// `{{`
    OpenBrace,
    /// `}}`
    CloseBrace,
    /// The value's quote, which was doubled.
    Quote(Items<u8>),
}

/// A maximal run of content as one text, and whether it is boundary space (XQuery 1.0, section 3.7.1.4).
#[derive(Clone, Copy, Debug, PartialEq, Eq)]
pub struct TextRun {
    pub text: TextId,
    pub is_boundary: bool,
}

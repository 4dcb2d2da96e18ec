use crate::item::TextId;

/// The kinds of atomic values of the profile: xs:integer, xs:string, xs:boolean, xs:untypedAtomic
/// (XQuery 1.0 and XPath 2.0 Data Model, section 2.6).
#[derive(Clone, Copy, Debug, PartialEq, Eq, Hash)]
pub enum AtomKind {
    Integer,
    Text,
    Boolean,
    Untyped,
}

/// The kinds of items: those of atomic values and those of nodes (Data Model, sections 2.6 and 6).
#[derive(Clone, Copy, Debug, PartialEq, Eq, Hash)]
pub enum ItemKind {
    Atom(AtomKind),
    Element,
    Attribute,
    Text,
    Comment,
    Pi,
    Document,
}

/// The six comparisons (XQuery 1.0, sections 3.5.1 and 3.5.2).
#[derive(Clone, Copy, Debug, PartialEq, Eq, Hash)]
pub enum CompOp {
    Eq,
    Ne,
    Lt,
    Le,
    Gt,
    Ge,
}

/// The operators and functions of the profile (XQuery 1.0, section 3; XQuery 1.0 and XPath 2.0
/// Functions and Operators), and those that normalisation and plans use besides.
#[derive(Clone, Copy, Debug, PartialEq, Eq, Hash)]
pub enum Fun {
    /// `or` and `and`, on values that are one boolean each.
    Or,
    And,
    /// Value comparisons: `eq`, `ne`, `lt`, `le`, `gt`, `ge`.
    Eq,
    Ne,
    Lt,
    Le,
    Gt,
    Ge,
    /// General comparisons: `=`, `!=`, `<`, `<=`, `>`, `>=`.
    GeneralEq,
    GeneralNe,
    GeneralLt,
    GeneralLe,
    GeneralGt,
    GeneralGe,
    /// Comparisons of nodes: `is`, `<<`, `>>`.
    Is,
    Before,
    After,
    /// `to`.
    To,
    /// Arithmetic: `+`, `-`, `*`, `idiv`, `mod`, and the sign `-`.
    Add,
    Subtract,
    Multiply,
    IntegerDivide,
    Modulo,
    Negate,
    /// Set operators.
    Union,
    Intersect,
    Except,
    /// Functions, each under its name.
    Doc,
    Root,
    Count,
    Empty,
    Exists,
    Boolean,
    Not,
    True,
    False,
    /// `string`.
    StringOf,
    Data,
    Name,
    LocalName,
    StringLength,
    NormalizeSpace,
    Concat,
    StringJoin,
    Contains,
    StartsWith,
    EndsWith,
    SubstringBefore,
    SubstringAfter,
    Substring,
    Translate,
    Compare,
    Abs,
    Sum,
    Min,
    Max,
    DistinctValues,
    IndexOf,
    Reverse,
    Subsequence,
    InsertBefore,
    Remove,
    ZeroOrOne,
    OneOrMore,
    ExactlyOne,
    Position,
    Last,
    Error,
    XsInteger,
    XsString,
    XsBoolean,
    XsUntypedAtomic,
    /// The nodes of a path's result in document order, without repeats; atoms as they are (XQuery 1.0, section 3.2).
    PathOrder,
    /// The atomised items as texts joined by one blank (XQuery 1.0, section 3.7.1.1).
    ContentText,
    /// `data` of one item.
    Atomize,
    /// The name of an element or attribute that a text gives, and the target of an instruction.
    QName,
    PiTarget,
    /// Whether an item has this kind.
    IsKind(ItemKind),
    /// The cast to this kind.
    CastTo(AtomKind),
    /// An external function: the text of its term, and how many integers it takes (own rule).
    Extern { term: TextId, arity: u8 },
}

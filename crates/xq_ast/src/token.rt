//! The tokens of an expression, and the pieces of a direct constructor.

/// Whether an operand is due at a place, or an operator: it decides what `<` and `*` begin (XQuery 1.0,
/// appendix A.2.2).
#[derive(Clone, Copy, Debug, PartialEq, Eq)]
pub enum Mode {
    Operand,
    Operator,
}

/// The kinds of tokens: names, digits, strings, and one for each sign (XQuery 1.0, appendix A.2).
#[derive(Clone, Copy, Debug, PartialEq, Eq)]
pub enum TokenKind {
    /// A QName, as long as it is.
    Name,
    /// Digits.
    Integer,
    /// A string in quotes of either kind.
    Quoted,
    /// `,`
    Comma,
    /// `;`
    Semicolon,
    /// `$`
    Dollar,
    /// `(`
    Open,
    /// `)`
    Close,
    /// `[`
    OpenBracket,
    /// `]`
    CloseBracket,
    /// `{`
    OpenBrace,
    /// `}`
    CloseBrace,
    /// `:=`
    Assign,
    /// `::`
    Colons,
    /// `@`
    AtSign,
    /// `.`
    Dot,
    /// `..`
    Dots,
    /// `/`
    Slash,
    /// `//`
    Slashes,
    /// `=`
    Equal,
    /// `!=`
    Unequal,
    /// `<`: a comparison where an operator is due, else the start of a direct constructor.
    Less,
    /// `<=`
    AtMost,
    /// `>`
    Greater,
    /// `>=`
    AtLeast,
    /// `<<`
    Precedes,
    /// `>>`
    Follows,
    /// `+`
    Plus,
    /// `-`
    Minus,
    /// `*`
    Star,
    /// `|`
    Bar,
    /// `?`
    Question,
    /// `(#`, which is left out.
    Pragma,
    /// `p:*`, which is left out.
    PrefixStar,
    /// `*:n`, which is left out.
    StarName,
    /// Digits directly before `.`, `e` or `E`, which are left out.
    Decimal,
    /// `.` directly before a digit, which is left out.
    Fraction,
}

/// A token, from its first byte up to the byte after it.
#[derive(Clone, Copy, Debug, PartialEq, Eq)]
pub struct Token {
    pub kind: TokenKind,
    pub start: usize,
    pub end: usize,
}

/// Where in a direct constructor a piece is due (XQuery 1.0, section 3.7.1).
#[derive(Clone, Copy, Debug, PartialEq, Eq)]
pub enum DirPlace {
    Tag,
    DoubleQuoted,
    SingleQuoted,
    Content,
}

/// The kinds of pieces of direct constructors (XQuery 1.0, sections 3.7.1 and 3.7.2).
#[derive(Clone, Copy, Debug, PartialEq, Eq)]
pub enum PieceKind {
    /// White space in a tag, as long as it is.
    White,
    /// A QName in a tag.
    Name,
    /// `=` in a tag.
    Equals,
    /// `"` that opens a value, or closes it.
    DoubleQuote,
    /// `'` that opens a value, or closes it.
    SingleQuote,
    /// `>` in a tag.
    TagEnd,
    /// `/>` in a tag.
    EmptyTagEnd,
    /// Characters that stand for themselves, as many as there are.
    Chars,
    /// A reference.
    Reference,
    /// CDATA in content.
    Cdata,
    /// `{{`
    DoubledOpen,
    /// `}}`
    DoubledClose,
    /// The quote of a value, doubled.
    DoubledQuote,
    /// `{`
    Brace,
    /// `<` before a name in content.
    TagStart,
    /// `</` in content.
    EndTagStart,
    /// A comment in content.
    Comment,
    /// An instruction in content.
    Instruction,
}

/// A piece, from its first byte up to the byte after it.
#[derive(Clone, Copy, Debug, PartialEq, Eq)]
pub struct Piece {
    pub kind: PieceKind,
    pub start: usize,
    pub end: usize,
}

/// How far white space and comments are passed over: how many comments are open, where the outer one
/// begins, and the place.
#[derive(Clone, Copy, Debug, PartialEq, Eq)]
pub struct Skip {
    pub depth: usize,
    pub back: usize,
    pub at: usize,
}

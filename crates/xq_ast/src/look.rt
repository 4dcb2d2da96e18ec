//! What stands at a place, as far as the grammar asks: each place is of one class only.
ghost use Rattle.std.specs.Prelude.{◌≡◌, ◌==◌};
ghost use Rattle.xq_ast.specs.Codes as codes;

/// What is due at a place.
#[derive(Clone, Copy, Debug, PartialEq, Eq)]
pub enum Due {
    /// An operand, and so an ExprSingle.
    Operand,
    /// An operator, or a word that isn't a name.
    Operator,
    /// A name, whichever it is, or a sign.
    Named,
    /// The test of a step, behind its axis.
    Tested,
    /// A sequence type.
    Typed,
    /// A declaration of the prolog.
    Prologue,
    /// A piece of a tag.
    Tag,
    /// A piece of a value in `"`.
    DoubleQuoted,
    /// A piece of a value in `'`.
    SingleQuoted,
    /// A piece of content.
    Content,
}

/// What stands at a place: a sign, a piece, or a name with what it begins there (XQuery 1.0, appendix A.2).
/// A class without a comment is the token, word or piece of that name.
#[derive(Clone, Copy, Debug, PartialEq, Eq)]
pub enum Look {
    /// Nothing that may stand there.
    Nothing,
    /// The end of the text.
    End,
    /// No declaration, where one could stand.
    Body,
    /// A name that begins nothing else.
    Name,
    Integer,
    Quoted,
    Comma,
    Semicolon,
    Dollar,
    Open,
    Close,
    OpenBracket,
    CloseBracket,
    OpenBrace,
    CloseBrace,
    Assign,
    Colons,
    AtSign,
    Dot,
    Dots,
    Slash,
    Slashes,
    Equal,
    Unequal,
    Less,
    AtMost,
    Greater,
    AtLeast,
    Precedes,
    Follows,
    Plus,
    Minus,
    Star,
    Bar,
    Question,
    Pragma,
    PrefixStar,
    StarName,
    Decimal,
    Fraction,
    /// `for` before `$`, or the word where an operator is due.
    For,
    /// `let` before `$`, or the word where an operator is due.
    Let,
    /// `some` before `$`.
    Some,
    /// `every` before `$`.
    Every,
    /// `if` before `(`.
    If,
    /// `typeswitch` before `(`.
    Typeswitch,
    /// A name before `(` that may be called.
    Callee,
    /// A name before `(` that may not be called, and begins nothing there.
    Reserved,
    /// A name that begins a construct that is left out.
    LeftOut,
    /// `node` before `(`.
    NodeTest,
    /// `text` before `(`.
    TextTest,
    /// `comment` before `(`.
    CommentTest,
    /// `document-node` before `(`.
    DocumentTest,
    /// `processing-instruction` before `(`.
    InstructionTest,
    /// `element` before `(`.
    ElementTest,
    /// `attribute` before `(`.
    AttributeTest,
    /// `item` before `(`.
    ItemTest,
    /// `empty-sequence` before `(`.
    EmptyTest,
    /// An axis before `::`.
    Axis,
    /// `element` before `{`, or before a name and `{`.
    ElementBuilder,
    /// `attribute` before `{`, or before a name and `{`.
    AttributeBuilder,
    /// `processing-instruction` before `{`, or before a name and `{`.
    InstructionBuilder,
    /// `text` before `{`.
    TextBuilder,
    /// `comment` before `{`.
    CommentBuilder,
    /// `document` before `{`.
    DocumentBuilder,
    Or,
    And,
    Eq,
    Ne,
    Lt,
    Le,
    Gt,
    Ge,
    Is,
    To,
    Idiv,
    Mod,
    Div,
    Union,
    Intersect,
    Except,
    Instance,
    Of,
    Treat,
    Castable,
    Cast,
    As,
    In,
    At,
    Return,
    Satisfies,
    Then,
    Else,
    Where,
    Stable,
    Order,
    By,
    Ascending,
    Descending,
    Empty,
    Greatest,
    Least,
    Collation,
    Version,
    Encoding,
    /// `encoding` before a string that names another one than UTF-8 or US-ASCII.
    OtherEncoding,
    BoundarySpace,
    Strip,
    Preserve,
    Variable,
    Function,
    External,
    /// `xquery` before `version`.
    Xquery,
    Module,
    /// `declare` before `boundary-space`.
    DeclareSpace,
    /// `declare` before `variable`.
    DeclareVariable,
    /// `declare` before `function`.
    DeclareFunction,
    White,
    /// White space before a name in a tag.
    Gap,
    Equals,
    DoubleQuote,
    SingleQuote,
    TagEnd,
    EmptyTagEnd,
    Chars,
    Reference,
    Cdata,
    DoubledOpen,
    DoubledClose,
    DoubledQuote,
    Brace,
    TagStart,
    EndTagStart,
    Comment,
    Instruction,
}

/// The number of a class, by which classes are compared.
pub fn code(look: Look) -> u8
    ensures { result ≡ codes.code look }
{
    match look {
        Look::Nothing => 0,
        Look::End => 1,
        Look::Body => 2,
        Look::Name => 3,
        Look::Integer => 4,
        Look::Quoted => 5,
        Look::Comma => 6,
        Look::Semicolon => 7,
        Look::Dollar => 8,
        Look::Open => 9,
        Look::Close => 10,
        Look::OpenBracket => 11,
        Look::CloseBracket => 12,
        Look::OpenBrace => 13,
        Look::CloseBrace => 14,
        Look::Assign => 15,
        Look::Colons => 16,
        Look::AtSign => 17,
        Look::Dot => 18,
        Look::Dots => 19,
        Look::Slash => 20,
        Look::Slashes => 21,
        Look::Equal => 22,
        Look::Unequal => 23,
        Look::Less => 24,
        Look::AtMost => 25,
        Look::Greater => 26,
        Look::AtLeast => 27,
        Look::Precedes => 28,
        Look::Follows => 29,
        Look::Plus => 30,
        Look::Minus => 31,
        Look::Star => 32,
        Look::Bar => 33,
        Look::Question => 34,
        Look::Pragma => 35,
        Look::PrefixStar => 36,
        Look::StarName => 37,
        Look::Decimal => 38,
        Look::Fraction => 39,
        Look::For => 40,
        Look::Let => 41,
        Look::Some => 42,
        Look::Every => 43,
        Look::If => 44,
        Look::Typeswitch => 45,
        Look::Callee => 46,
        Look::Reserved => 47,
        Look::LeftOut => 48,
        Look::NodeTest => 49,
        Look::TextTest => 50,
        Look::CommentTest => 51,
        Look::DocumentTest => 52,
        Look::InstructionTest => 53,
        Look::ElementTest => 54,
        Look::AttributeTest => 55,
        Look::ItemTest => 56,
        Look::EmptyTest => 57,
        Look::Axis => 58,
        Look::ElementBuilder => 59,
        Look::AttributeBuilder => 60,
        Look::InstructionBuilder => 61,
        Look::TextBuilder => 62,
        Look::CommentBuilder => 63,
        Look::DocumentBuilder => 64,
        Look::Or => 65,
        Look::And => 66,
        Look::Eq => 67,
        Look::Ne => 68,
        Look::Lt => 69,
        Look::Le => 70,
        Look::Gt => 71,
        Look::Ge => 72,
        Look::Is => 73,
        Look::To => 74,
        Look::Idiv => 75,
        Look::Mod => 76,
        Look::Div => 77,
        Look::Union => 78,
        Look::Intersect => 79,
        Look::Except => 80,
        Look::Instance => 81,
        Look::Of => 82,
        Look::Treat => 83,
        Look::Castable => 84,
        Look::Cast => 85,
        Look::As => 86,
        Look::In => 87,
        Look::At => 88,
        Look::Return => 89,
        Look::Satisfies => 90,
        Look::Then => 91,
        Look::Else => 92,
        Look::Where => 93,
        Look::Stable => 94,
        Look::Order => 95,
        Look::By => 96,
        Look::Ascending => 97,
        Look::Descending => 98,
        Look::Empty => 99,
        Look::Greatest => 100,
        Look::Least => 101,
        Look::Collation => 102,
        Look::Version => 103,
        Look::Encoding => 104,
        Look::OtherEncoding => 105,
        Look::BoundarySpace => 106,
        Look::Strip => 107,
        Look::Preserve => 108,
        Look::Variable => 109,
        Look::Function => 110,
        Look::External => 111,
        Look::Xquery => 112,
        Look::Module => 113,
        Look::DeclareSpace => 114,
        Look::DeclareVariable => 115,
        Look::DeclareFunction => 116,
        Look::White => 117,
        Look::Gap => 118,
        Look::Equals => 119,
        Look::DoubleQuote => 120,
        Look::SingleQuote => 121,
        Look::TagEnd => 122,
        Look::EmptyTagEnd => 123,
        Look::Chars => 124,
        Look::Reference => 125,
        Look::Cdata => 126,
        Look::DoubledOpen => 127,
        Look::DoubledClose => 128,
        Look::DoubledQuote => 129,
        Look::Brace => 130,
        Look::TagStart => 131,
        Look::EndTagStart => 132,
        Look::Comment => 133,
        Look::Instruction => 134,
    }
}

impl Look {
    /// Whether two classes are the same.
    pub fn is(self, other: Look) -> bool
        ensures { result ≡ (codes.code self == codes.code other) }
    {
        code(self) == code(other)
    }
}

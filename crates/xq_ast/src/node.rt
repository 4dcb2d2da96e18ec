//! Expressions: one recursive type for what is read and for what is resolved.
use crate::leaf::{
    BuildKind, Callee, ContentRun, Name, Operator, Quantifier, ReadType, SeqType, Sign, Test,
    TextRun, ValueRun, Variable,
};
use sqlite_items::{Boxed, Items};
use xq_base::{AtomKind, Axis, TextId};

/// What stands at the leaves of a tree: as it is read, or as it is resolved.
pub trait Phase {
    /// Names of elements, attributes and instructions, and strings.
    type Text: Drop;
    /// A reference to a variable, or the variable that a binding binds.
    type Var: Drop;
    /// The function of a call.
    type Fun: Drop;
    /// A sequence type.
    type Type: Drop;
    /// The atomic type of a cast.
    type Kind: Drop;
    /// The value of digits.
    type Number: Drop;
    /// What stands for itself in content.
    type Run: Drop;
    /// What stands for itself in an attribute's value.
    type ValueRun: Drop;
}

/// As it is read: names, digits and runs are texts, with their offsets.
#[derive(Drop)]
pub struct AsRead {
    pub unit: bool,
}

impl Phase for AsRead {
    type Text = Items<u8>;

    type Var = Name<Items<u8>>;

    type Fun = Name<Items<u8>>;

    type Type = ReadType;

    type Kind = Name<Items<u8>>;

    type Number = Items<u8>;

    type Run = ContentRun;

    type ValueRun = ValueRun;
}

/// As it is resolved: texts are numbers of a pool, and a variable is the offset of the `$` that binds it.
#[derive(Drop)]
pub struct AsResolved {
    pub unit: bool,
}

impl Phase for AsResolved {
    type Text = TextId;

    type Var = u32;

    type Fun = Callee;

    type Type = SeqType;

    type Kind = AtomKind;

    type Number = i64;

    type Run = TextRun;

    type ValueRun = TextId;
}

/// An expression; its offset comes first. Operators of one level, steps of a path and signs are lists,
/// so that a tree is no deeper than its ExprSingles nest, however long a query is.
#[derive(Drop)]
pub enum Node<P: Phase> {
    /// Two ExprSingles or more, with commas (XQuery 1.0, section 3.3.1).
    Comma(u64, Boxed<Node<P>>, Items<Node<P>>),
    /// Clauses, condition, keys (none without `order by`), result (XQuery 1.0, section 3.8).
    Flwor(
        u64,
        Items<Clause<P::Var, P::Type, Node<P>>>,
        Option<Boxed<Node<P>>>,
        Items<Key<Node<P>>>,
        Boxed<Node<P>>,
    ),
    /// XQuery 1.0, section 3.11.
    Quantified(u64, Quantifier, Items<QuantBind<P::Var, P::Type, Node<P>>>, Boxed<Node<P>>),
    /// `if`, `then`, `else` (XQuery 1.0, section 3.10).
    If(u64, Boxed<Node<P>>, Boxed<Node<P>>, Boxed<Node<P>>),
    /// A level of operators: an operand, and one or more behind operators; it nests to the left
    /// (XQuery 1.0, appendix A.4).
    Chain(u64, Boxed<Node<P>>, Items<Right<Node<P>>>),
    /// Signs, the outer first (XQuery 1.0, section 3.4).
    Signed(u64, Items<Signed>, Boxed<Node<P>>),
    /// XQuery 1.0, section 3.12.1.
    Instance(u64, Boxed<Node<P>>, P::Type),
    /// XQuery 1.0, section 3.12.5.
    Treat(u64, Boxed<Node<P>>, P::Type),
    /// The flag is the `?` (XQuery 1.0, section 3.12.3).
    Castable(u64, Boxed<Node<P>>, P::Kind, bool),
    /// The flag is the `?` (XQuery 1.0, section 3.12.2).
    Cast(u64, Boxed<Node<P>>, P::Kind, bool),
    /// `/` alone (XQuery 1.0, section 3.2).
    Root(u64),
    /// The steps of a path; its offset is that of the last (XQuery 1.0, section 3.2).
    Path(Start, Step<P::Text, Node<P>>, Items<Behind<P::Text, Node<P>>>),
    /// XQuery 1.0, section 3.1.1.
    Integer(u64, P::Number),
    /// XQuery 1.0, section 3.1.1.
    Text(u64, P::Text),
    /// XQuery 1.0, section 3.1.2.
    Var(u64, P::Var),
    /// XQuery 1.0, section 3.1.3.
    Paren(u64, Option<Boxed<Node<P>>>),
    /// XQuery 1.0, section 3.1.4.
    Dot(u64),
    /// XQuery 1.0, section 3.1.5.
    Call(u64, P::Fun, Items<Node<P>>),
    /// A constructor with a word, its name and its content (XQuery 1.0, section 3.7.3).
    Build(u64, BuildKind, BuildName<P::Text, Node<P>>, Option<Boxed<Node<P>>>),
    /// A direct element: name, attributes, content (XQuery 1.0, section 3.7.1).
    Element(
        u64,
        Name<P::Text>,
        Items<Attribute<P::Text, P::ValueRun, Node<P>>>,
        Items<Part<P::Run, Node<P>>>,
    ),
    /// A direct comment (XQuery 1.0, section 3.7.2).
    Comment(u64, P::Text),
    /// A direct instruction (XQuery 1.0, section 3.7.2).
    Instruction(u64, Name<P::Text>, P::Text),
}

/// An operand behind an operator.
#[derive(Drop)]
pub struct Right<E> {
    pub operator: Operator,
    pub operand: E,
}

/// A sign and its offset.
#[derive(Clone, Copy, Debug, PartialEq, Eq)]
pub struct Signed {
    pub offset: u64,
    pub sign: Sign,
}

/// What a path begins with: its first step, `/`, or `//`, with the offset of the slash.
#[derive(Clone, Copy, Debug, PartialEq, Eq)]
pub enum Start {
    Here,
    Root(u64),
    Deep(u64),
}

/// A step or a primary with its predicates, and its offset.
#[derive(Drop)]
pub struct Step<X, E> {
    pub offset: u64,
    pub kind: StepKind<X, E>,
    pub predicates: Items<E>,
}

#[derive(Drop)]
pub enum StepKind<X, E> {
    /// XQuery 1.0, sections 3.2.1.1 and 3.2.1.2.
    Walk(Axis, Test<X>),
    /// XQuery 1.0, section 3.2.
    Primary(Boxed<E>),
}

/// A step behind `/` or `//`.
#[derive(Drop)]
pub struct Behind<X, E> {
    pub slashes: Slashes,
    pub step: Step<X, E>,
}

/// `/`, or `//` with the offset of its first slash.
#[derive(Clone, Copy, Debug, PartialEq, Eq)]
pub enum Slashes {
    One,
    Two(u64),
}

/// XQuery 1.0, section 3.8.1.
#[derive(Drop)]
pub enum Clause<V, T, E> {
    For(Items<ForBind<V, T, E>>),
    Let(Items<LetBind<V, T, E>>),
}

#[derive(Drop)]
pub struct ForBind<V, T, E> {
    pub var: Variable<V>,
    pub ty: Option<T>,
    /// The variable of the position.
    pub at: Option<Variable<V>>,
    pub source: Boxed<E>,
}

#[derive(Drop)]
pub struct LetBind<V, T, E> {
    pub var: Variable<V>,
    pub ty: Option<T>,
    pub value: Boxed<E>,
}

#[derive(Drop)]
pub struct QuantBind<V, T, E> {
    pub var: Variable<V>,
    pub ty: Option<T>,
    pub source: Boxed<E>,
}

/// A key of `order by` (XQuery 1.0, section 3.8.3).
#[derive(Drop)]
pub struct Key<E> {
    pub key: Boxed<E>,
    pub descending: bool,
    pub empty_greatest: bool,
}

/// The name of a constructor with a word: none, one that is written, or an expression.
#[derive(Drop)]
pub enum BuildName<X, E> {
    Absent,
    Named(Name<X>),
    Computed(Boxed<E>),
}

/// XQuery 1.0, section 3.7.1.1.
#[derive(Drop)]
pub struct Attribute<X, W, E> {
    pub name: Name<X>,
    pub value: Items<ValuePart<W, E>>,
}

/// A part of a value, with the offset of its first byte.
#[derive(Drop)]
pub enum ValuePart<W, E> {
    Run(u64, W),
    Brace(u64, Boxed<E>),
}

/// A part of content: a run or an expression in braces, with its offset, or a direct constructor
/// (XQuery 1.0, section 3.7.1.3).
#[derive(Drop)]
pub enum Part<R, E> {
    Run(u64, R),
    Brace(u64, Boxed<E>),
    Inner(Boxed<E>),
}

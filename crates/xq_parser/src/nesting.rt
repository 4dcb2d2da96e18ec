//! What nests: how the grammar reads an ExprSingle and a direct element by itself, a level deeper, and why
//! there is none where no more levels may nest.
ghost use Rattle.std.specs.Prelude.{◌≡◌, ◌++◌};
ghost use Rattle.xq_parser.specs.Outcomes.{Gives, Fails, Nests, single_reads, element_reads};

use crate::fault::ParseFault;
use crate::grammar::{Grammar, Nested, Tree};
use crate::look::{looks, place, stands_one};
use sqlite_items::Boxed;
use std::alloc::Global;
use xq_ast::look::{Due, Look};

/// Functions that read what nests.
#[derive(Clone, Copy)]
pub struct Calls<F, G> {
    pub single: F,
    pub element: G,
}

impl<
    F: Fn(Global, &[u8], usize, usize) -> Result<(Boxed<Tree>, usize), ParseFault> + Copy,
    G: Fn(Global, &[u8], usize, usize) -> Result<(Boxed<Tree>, usize), ParseFault> + Copy,
> Nested for Calls<F, G> {
    ghost reads = { λ s d. Nests d (F.pre s.single) (F.post s.single) (G.pre s.element) (G.post s.element) };

    fn single(
        self,
        alloc: Global,
        text: &[u8],
        at: usize,
        depth: usize,
    ) -> Result<(Boxed<Tree>, usize), ParseFault> {
        (self.single)(alloc, text, at, depth)
    }

    fn element(
        self,
        alloc: Global,
        text: &[u8],
        at: usize,
        depth: usize,
    ) -> Result<(Boxed<Tree>, usize), ParseFault> {
        (self.element)(alloc, text, at, depth)
    }
}

/// An ExprSingle in which so many levels may nest, itself included.
#[cycle(levels)]
#[tactic(auto, unfolding(crate::specs::Reading::single_reads))]
pub fn single(
    alloc: Global,
    text: &[u8],
    at: usize,
    depth: usize,
) -> Result<(Boxed<Tree>, usize), ParseFault>
    ensures { Gives (single_reads text.now depth at) result }
{
    if depth == 0 {
        return Err(no_level(text, at));
    }
    let nested = Calls { single, element };
    Grammar {
        alloc,
        text,
        depth: depth - 1,
        nested,
    }
    .level(at)
}

/// A direct element in which so many levels may nest, itself included.
#[cycle(levels)]
#[tactic(auto, unfolding(crate::specs::Reading::element_reads))]
pub fn element(
    alloc: Global,
    text: &[u8],
    at: usize,
    depth: usize,
) -> Result<(Boxed<Tree>, usize), ParseFault>
    ensures { Gives (element_reads text.now depth at) result }
{
    if depth == 0 {
        return Err(no_element(text, at));
    }
    let nested = Calls { single, element };
    Grammar {
        alloc,
        text,
        depth: depth - 1,
        nested,
    }
    .elem(at)
}

/// Why there is no ExprSingle where none may nest.
#[tactic(auto, unfolding(xq_ast::specs::Grammar::no_level, crate::specs::Reading::single_reads))]
fn no_level(text: &[u8], at: usize) -> ParseFault
    ensures { Fails (single_reads text.now 0 at) result }
{
    if stands_one(
        text,
        at,
        Due::Operand,
        &[
            Look::Plus,
            Look::Minus,
            Look::Slash,
            Look::Slashes,
            Look::Name,
            Look::Axis,
            Look::AtSign,
            Look::Star,
            Look::Dots,
            Look::NodeTest,
            Look::TextTest,
            Look::CommentTest,
            Look::DocumentTest,
            Look::InstructionTest,
            Look::ElementTest,
            Look::AttributeTest,
            Look::Integer,
            Look::Quoted,
            Look::Dollar,
            Look::Open,
            Look::Dot,
            Look::Callee,
            Look::Less,
            Look::LeftOut,
            Look::Decimal,
            Look::Fraction,
            Look::ElementBuilder,
            Look::AttributeBuilder,
            Look::InstructionBuilder,
            Look::DocumentBuilder,
            Look::TextBuilder,
            Look::CommentBuilder,
            Look::For,
            Look::Let,
            Look::Some,
            Look::Every,
            Look::If,
            Look::Typeswitch,
            Look::Reserved,
        ],
    ) {
        ParseFault::TooDeep(place(text, at))
    } else if stands_one(
        text,
        at,
        Due::Operand,
        &[Look::Pragma, Look::PrefixStar, Look::StarName],
    ) {
        ParseFault::LeftOut(place(text, at))
    } else {
        ParseFault::Syntax
    }
}

/// Why there is no direct element where none may nest.
#[tactic(auto, unfolding(xq_ast::specs::Grammar::no_element, crate::specs::Reading::element_reads))]
fn no_element(text: &[u8], at: usize) -> ParseFault
    ensures { Fails (element_reads text.now 0 at) result }
{
    if looks(text, at, Due::Content, Look::TagStart) {
        ParseFault::TooDeep(at)
    } else {
        ParseFault::Syntax
    }
}

//! The grammar: its rules are methods, each in the file of its group. What nests is read by a parameter, so
//! that each rule is proved by itself.
ghost use Rattle.std.specs.Prelude.{◌≡◌, ℕ, [], IfOk, length};
ghost use Rattle.xq_ast.specs.declared.look.Due.TheVariants as due_;
ghost use Rattle.xq_ast.specs.declared.look.Look.TheVariants as k;
ghost use Rattle.xq_ast.specs.Look.{syms, stands_one};
ghost use Rattle.xq_ast.specs.Rules.{single};
ghost use Rattle.xq_ast.specs.Terminals as rule;
ghost use Rattle.xq_ast.specs.Trees as tree_;
ghost use Rattle.xq_parser.specs.Parsers.{Parser, many_from};
ghost use Rattle.xq_parser.specs.Outcomes.{Gives, Reads, single_reads, element_reads, more};

use crate::fault::ParseFault;
use crate::look::{place, stands_one};
use crate::terminals::sign;
use sqlite_items::{Boxed, Items};
use std::alloc::{AllocError, Global};
use xq_ast::look::{Due, Look};
use xq_ast::node::{AsRead, Node};

/// The tree of an expression.
pub type Tree = Node<AsRead>;

/// How what nests is read, at so many levels.
pub trait Nested: Copy {
    ghost reads: { Self → ℕ → Type 0 };

    fn single(
        self,
        alloc: Global,
        text: &[u8],
        at: usize,
        depth: usize,
    ) -> Result<(Boxed<Tree>, usize), ParseFault>
        requires { reads self depth }
        ensures { Gives (single_reads text.now depth at) result };

    fn element(
        self,
        alloc: Global,
        text: &[u8],
        at: usize,
        depth: usize,
    ) -> Result<(Boxed<Tree>, usize), ParseFault>
        requires { reads self depth }
        ensures { Gives (element_reads text.now depth at) result };
}

/// The rules over a text.
#[derive(Clone, Copy)]
pub struct Grammar<'a, N> {
    pub alloc: Global,
    pub text: &'a [u8],
    /// How many levels may still nest.
    pub depth: usize,
    pub nested: N,
}

/// Parts as long as one of these kinds stands at the place.
#[tactic(auto, unfolding(crate::specs::Parsers::many_from))]
pub fn many<T: Drop, P: Fn(usize) -> Result<(T, usize), ParseFault>>(
    alloc: Global,
    text: &[u8],
    at: usize,
    due: Due,
    kinds: &[Look],
    part: P,
) -> Result<(Items<T>, usize), ParseFault>
    requires { P.IsAlwaysCallable part }
    ensures { (p : Parser T) → ((n : ℕ) (x : _) → P.post part n x → Gives (p n) x) → Gives (many_from (stands_one text.now (syms due kinds.now)) p (length text.now) [] at) result }
{
    let mut found = Items::new(alloc);
    let mut end = at;
    for _turn in 0..text.len() {
        if !stands_one(text, end, due, kinds) {
            return Ok((found, end));
        }
        match part(end) {
            Err(e) => return Err(e),
            Ok((one, next)) => {
                found.push(one)?;
                end = next;
            }
        }
    }
    Ok((found, end))
}

/// Expressions with commas between them; one alone is itself.
fn comma(
    alloc: Global,
    offset: u64,
    first: Boxed<Tree>,
    more: Items<Tree>,
) -> Result<Boxed<Tree>, AllocError>
    ensures { IfOk result (λ e. e ≡ tree_.comma first more offset) }
{
    if more.is_empty() {
        return Ok(first);
    }
    Ok(Boxed::new(alloc, Node::Comma(offset, first, more))?)
}

impl<'a, N: Nested> Grammar<'a, N> {
    /// What nests, one level deeper: an ExprSingle.
    pub fn single(&self, at: usize) -> Result<(Boxed<Tree>, usize), ParseFault>
        requires { N.reads self.now.nested self.now.depth }
        ensures { Gives (single_reads self.now.text.now self.now.depth at) result }
    {
        self.nested.single(self.alloc, self.text, at, self.depth)
    }

    /// What nests, one level deeper: a direct element.
    pub fn element(&self, at: usize) -> Result<(Boxed<Tree>, usize), ParseFault>
        requires { N.reads self.now.nested self.now.depth }
        ensures { Gives (element_reads self.now.text.now self.now.depth at) result }
    {
        self.nested.element(self.alloc, self.text, at, self.depth)
    }

    /// ExprSingles, each behind a comma.
    pub fn more_singles(&self, at: usize) -> Result<(Items<Tree>, usize), ParseFault>
        requires { N.reads self.now.nested self.now.depth }
        ensures { Reads self.now.text.now self.now.depth (more (λ _ a. a) (rule.operator k.Comma) single) at result }
    {
        many(
            self.alloc,
            self.text,
            at,
            Due::Operator,
            &[Look::Comma],
            |at|
                requires { N.reads self.now.nested self.now.depth }
            {
                let at = sign(self.text, at, Due::Operator, Look::Comma)?;
                let (found, at) = self.single(at)?;
                Ok((found.into_inner(), at))
            },
        )
    }

    /// Expr (XQuery 1.0, section 3, production 31).
    #[tactic(auto, unfolding(xq_ast::specs::Terminals::expr))]
    pub fn expr(&self, at: usize) -> Result<(Boxed<Tree>, usize), ParseFault>
        requires { N.reads self.now.nested self.now.depth }
        ensures { Reads self.now.text.now self.now.depth rule.expr at result }
    {
        let offset = place(self.text, at) as u64;
        let (first, at) = self.single(at)?;
        let (more, at) = self.more_singles(at)?;
        Ok((comma(self.alloc, offset, first, more)?, at))
    }

    /// `{` Expr `}`, where an operator is due.
    #[tactic(auto, unfolding(xq_ast::specs::Terminals::block))]
    pub fn block(&self, at: usize) -> Result<(Boxed<Tree>, usize), ParseFault>
        requires { N.reads self.now.nested self.now.depth }
        ensures { Reads self.now.text.now self.now.depth rule.block at result }
    {
        let at = sign(self.text, at, Due::Operator, Look::OpenBrace)?;
        let (found, at) = self.expr(at)?;
        let at = sign(self.text, at, Due::Operator, Look::CloseBrace)?;
        Ok((found, at))
    }
}

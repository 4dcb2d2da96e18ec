//! The Core of an expression (Formal Semantics, section 4), by its form. Each function answers some of the
//! forms, and the last all that are left.
ghost use Rattle.core_scope.specs.Leaves.{syn_resolved};
ghost use Rattle.core_scope.specs.Syn as s;
ghost use Rattle.core_normal.specs.Making.{Norms};
ghost use Rattle.core_normal.specs.Trees as trees;

use crate::bodies::{State, Tree};
use crate::contents::{comment, instruction};
use crate::make::{empty, literal, text, var};
use crate::maker::{Maker, Nested};
use crate::pieces::{Context, dot, root};
use core_meaning::Core;
use sqlite_items::Boxed;
use xq_ast::node::Node;
use xq_base::{Atom, Want};

impl<'q, N: Nested> Maker<'q, N> {
    /// The Core of an expression, with these variables and this context.
    ///
    /// Errors: `Want`, where memory is wanting, the number of a variable passes 32 bits, or expressions nest
    /// deeper than the levels.
    pub fn norm(&self, e: &Tree, state: &mut State, focus: Option<Context>) -> Result<Core, Want>
        requires { N.norms self.now.nested self.now.levels }
        ensures { Norms self.now.bodies.now state.old focus (λ t. syn_resolved t e.now) result state.new }
    {
        match e {
            Node::Comma(offset, first, more) => {
                let head = first.get();
                let tail = more.as_slice();
                self.comma(*offset, head, tail, state, focus)
            }
            Node::Flwor(offset, clauses, condition, keys, body) => {
                let all = clauses.as_slice();
                let order = keys.as_slice();
                let value = body.get();
                self.loops(*offset, all, condition, order, value, state, focus)
            }
            Node::Quantified(offset, quantifier, binds, body) => {
                let turns = binds.as_slice();
                let asked = body.get();
                self.quantified(*offset, *quantifier, turns, asked, state, focus)
            }
            Node::If(offset, condition, first, second) => {
                let test = condition.get();
                let yes = first.get();
                let no = second.get();
                self.conditional(*offset, test, yes, no, state, focus)
            }
            Node::Chain(offset, first, rights) => {
                let left = first.get();
                let operators = rights.as_slice();
                self.chain(*offset, left, operators, state, focus)
            }
            Node::Signed(_, signs, operand) => {
                let outer = signs.as_slice();
                let plain = operand.get();
                self.signed(outer, plain, state, focus)
            }
            Node::Path(start, first, behind) => {
                let later = behind.as_slice();
                self.path(*start, first, later, state, focus)
            }
            Node::Paren(offset, inside) => self.paren(*offset, inside, state, focus),
            Node::Call(offset, callee, args) => {
                let es = args.as_slice();
                self.call(*offset, *callee, es, state, focus)
            }
            _ => self.norm_typed(e, state, focus),
        }
    }

    /// A parenthesis (XQuery 1.0, section 3.1.3).
    fn paren(
        &self,
        offset: u64,
        inside: &Option<Boxed<Tree>>,
        state: &mut State,
        focus: Option<Context>,
    ) -> Result<Core, Want>
        requires { N.norms self.now.nested self.now.levels }
        ensures { Norms self.now.bodies.now state.old focus (λ t. s.paren offset (trees.maybe t inside.now)) result state.new }
    {
        match inside {
            None => Ok(empty(offset)),
            Some(inner) => {
                let core = self.expr(inner.get(), state, focus)?;
                Ok(core)
            }
        }
    }

    /// The same, of the forms with a type, and of constructors with parts.
    fn norm_typed(&self, e: &Tree, state: &mut State, focus: Option<Context>) -> Result<Core, Want>
        requires { N.norms self.now.nested self.now.levels }
        ensures { Norms self.now.bodies.now state.old focus (λ t. syn_resolved t e.now) result state.new }
    {
        match e {
            Node::Instance(offset, operand, ty) => {
                let tested = operand.get();
                self.instance(*offset, tested, *ty, state, focus)
            }
            Node::Treat(offset, operand, ty) => {
                let treated = operand.get();
                self.treat(*offset, treated, *ty, state, focus)
            }
            Node::Castable(offset, operand, kind, optional) => {
                let asked = operand.get();
                self.castable(*offset, asked, (*kind, *optional), state, focus)
            }
            Node::Cast(offset, operand, kind, optional) => {
                let value = operand.get();
                self.cast(*offset, value, (*kind, *optional), state, focus)
            }
            Node::Build(offset, what, name, content) => {
                self.build(*offset, *what, name, content, state, focus)
            }
            Node::Element(offset, name, attributes, parts) => {
                let first = attributes.as_slice();
                let all = parts.as_slice();
                self.element(*offset, name, first, all, state, focus)
            }
            _ => self.norm_plain(e, state, focus),
        }
    }

    /// The same, of the forms in which no expression nests.
    fn norm_plain(&self, e: &Tree, state: &mut State, focus: Option<Context>) -> Result<Core, Want>
        ensures { Norms self.now.bodies.now state.old focus (λ t. syn_resolved t e.now) result state.new }
    {
        match e {
            Node::Integer(offset, z) => Ok(literal(*offset, Atom::Int(*z))),
            Node::Text(offset, id) => Ok(text(*offset, *id)),
            Node::Var(offset, v) => {
                let x = state.vars.get(*v);
                Ok(var(*offset, x))
            }
            Node::Dot(offset) => Ok(dot(*offset, focus)),
            Node::Root(offset) => {
                let core = root(self.alloc, *offset, focus)?;
                Ok(core)
            }
            Node::Comment(offset, content) => {
                let core = comment(self.alloc, *offset, *content)?;
                Ok(core)
            }
            Node::Instruction(offset, name, content) => {
                let core = instruction(self.alloc, *offset, name.text, *content)?;
                Ok(core)
            }
            // No form is left.
            _ => Err(Want),
        }
    }
}

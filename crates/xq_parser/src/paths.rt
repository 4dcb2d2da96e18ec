//! Paths (XQuery 1.0, section 3.2).
ghost use Rattle.std.specs.Prelude.{◌≡◌, if◌then◌else◌, codes, IfOk};
ghost use Rattle.xq_base.specs.declared.axis.Axis.TheVariants as axis_;
ghost use Rattle.xq_ast.specs.Bytes.{same};
ghost use Rattle.xq_ast.specs.declared.look.Due.TheVariants as due_;
ghost use Rattle.xq_ast.specs.declared.node.StepKind.TheVariants as step_;
ghost use Rattle.xq_ast.specs.Look as looks_;
ghost use Rattle.xq_ast.specs.Paths as rule;
ghost use Rattle.xq_ast.specs.Primaries.{primary};
ghost use Rattle.xq_ast.specs.Rules.{make, many as any_of, ◌&◌};
ghost use Rattle.xq_ast.specs.Trees as tree_;
ghost use Rattle.xq_parser.specs.Outcomes.{Reads, more};

use crate::fault::ParseFault;
use crate::grammar::{Grammar, Nested, Tree, many};
use crate::look::{between, end_at, look_at, looks, place, stands_one};
use crate::terminals::{left, name, sign};
use crate::types::begins_kind;
use crate::words::same;
use sqlite_items::{Boxed, Items};
use std::alloc::{AllocError, Global};
use xq_ast::leaf::{KindTest, Test};
use xq_ast::look::{Due, Look};
use xq_ast::node::{Behind, Node, Slashes, Start, Step, StepKind};
use xq_base::Axis;

type Bytes = Items<u8>;

type TreeStep = Step<Bytes, Tree>;

type TreeBehind = Behind<Bytes, Tree>;

type TreeKind = StepKind<Bytes, Tree>;

/// The axes to what stands before or above a node, and else the child axis.
fn reverse_axis(word: &[u8]) -> Axis
    ensures { result ≡ (if same word.now (codes "parent") then axis_.Parent else if same word.now (codes "ancestor") then axis_.Ancestor else if same word.now (codes "preceding-sibling") then axis_.PrecedingSibling else if same word.now (codes "preceding") then axis_.Preceding else if same word.now (codes "ancestor-or-self") then axis_.AncestorOrSelf else axis_.Child) }
{
    if same(word, b"parent") {
        Axis::Parent
    } else if same(word, b"ancestor") {
        Axis::Ancestor
    } else if same(word, b"preceding-sibling") {
        Axis::PrecedingSibling
    } else if same(word, b"preceding") {
        Axis::Preceding
    } else if same(word, b"ancestor-or-self") {
        Axis::AncestorOrSelf
    } else {
        Axis::Child
    }
}

/// The axis that a word names (XQuery 1.0, section 3.2.1.1).
fn axis_of(word: &[u8]) -> Axis
    ensures { result ≡ rule.axis_of word.now }
{
    if same(word, b"descendant") {
        Axis::Descendant
    } else if same(word, b"attribute") {
        Axis::Attribute
    } else if same(word, b"self") {
        Axis::SelfNode
    } else if same(word, b"descendant-or-self") {
        Axis::DescendantOrSelf
    } else if same(word, b"following-sibling") {
        Axis::FollowingSibling
    } else if same(word, b"following") {
        Axis::Following
    } else {
        reverse_axis(word)
    }
}

/// The axis on which a test without one stands (XQuery 1.0, section 3.2.4).
fn kind_step(found: KindTest<Bytes>) -> TreeKind
    ensures { result ≡ tree_.kind_step found }
{
    let axis = match &found {
        KindTest::Attribute(_) => Axis::Attribute,
        _ => Axis::Child,
    };
    StepKind::Walk(axis, Test::Kind(found))
}

/// A path that begins with its first step; a primary alone is no path.
fn path_here(
    alloc: Global,
    first: TreeStep,
    more: Items<TreeBehind>,
) -> Result<Boxed<Tree>, AllocError>
    ensures { IfOk result (λ e. e ≡ tree_.path_here first more) }
{
    let Step {
        offset,
        kind,
        predicates,
    } = first;
    let alone = more.is_empty() && predicates.is_empty();
    match kind {
        StepKind::Primary(e) if alone => Ok(e),
        kind => {
            let step = Step {
                offset,
                kind,
                predicates,
            };
            Ok(Boxed::new(alloc, Node::Path(Start::Here, step, more))?)
        }
    }
}

/// Whether a step can begin at a place.
fn begins_step(text: &[u8], at: usize) -> bool
    ensures { result ≡ looks_.stands_one text.now (looks_.syms due_.Operand rule.step_looks) at }
{
    stands_one(
        text,
        at,
        Due::Operand,
        &[
            Look::Name,
            Look::Axis,
            Look::AtSign,
            Look::Star,
            Look::Dots,
            Look::NodeTest,
            Look::TextTest,
            Look::CommentTest,
            Look::DocumentTest,
            Look::InstructionTest,
            Look::ElementTest,
            Look::AttributeTest,
            Look::Integer,
            Look::Quoted,
            Look::Dollar,
            Look::Open,
            Look::Dot,
            Look::Callee,
            Look::Less,
            Look::LeftOut,
            Look::Decimal,
            Look::Fraction,
            Look::ElementBuilder,
            Look::AttributeBuilder,
            Look::InstructionBuilder,
            Look::DocumentBuilder,
            Look::TextBuilder,
            Look::CommentBuilder,
            Look::Pragma,
            Look::PrefixStar,
            Look::StarName,
            Look::For,
            Look::Let,
            Look::Some,
            Look::Every,
            Look::If,
            Look::Typeswitch,
            Look::Reserved,
        ],
    )
}

impl<'a, N: Nested> Grammar<'a, N> {
    /// Predicate (XQuery 1.0, production 83).
    #[tactic(auto, unfolding(xq_ast::specs::Paths::predicate))]
    fn predicate(&self, at: usize) -> Result<(Tree, usize), ParseFault>
        requires { N.reads self.now.nested self.now.depth }
        ensures { Reads self.now.text.now self.now.depth rule.predicate at result }
    {
        let at = sign(self.text, at, Due::Operator, Look::OpenBracket)?;
        let (found, at) = self.expr(at)?;
        let at = sign(self.text, at, Due::Operator, Look::CloseBracket)?;
        Ok((found.into_inner(), at))
    }

    /// The predicates of a step.
    #[tactic(auto, unfolding(xq_ast::specs::Paths::predicate))]
    fn predicates(&self, at: usize) -> Result<(Items<Tree>, usize), ParseFault>
        requires { N.reads self.now.nested self.now.depth }
        ensures { Reads self.now.text.now self.now.depth (any_of rule.predicate) at result }
    {
        many(
            self.alloc,
            self.text,
            at,
            Due::Operator,
            &[Look::OpenBracket],
            |at|
                requires { N.reads self.now.nested self.now.depth }
            { self.predicate(at) },
        )
    }

    /// NodeTest behind an axis (XQuery 1.0, production 78).
    fn test(&self, at: usize) -> Result<(Test<Bytes>, usize), ParseFault>
        requires { N.reads self.now.nested self.now.depth }
        ensures { Reads self.now.text.now self.now.depth rule.test at result }
    {
        let here = look_at(self.text, at, Due::Tested);
        if here.is(Look::Star) {
            let at = sign(self.text, at, Due::Tested, Look::Star)?;
            Ok((Test::Star, at))
        } else if here.is(Look::Name) {
            let (found, at) = name(self.alloc, self.text, at, Due::Tested, Look::Name)?;
            Ok((Test::Named(found), at))
        } else if begins_kind(self.text, at, Due::Tested) {
            let (found, at) = self.kind_test(at, Due::Tested)?;
            Ok((Test::Kind(found), at))
        } else {
            left(
                self.text,
                at,
                Due::Tested,
                &[Look::LeftOut, Look::PrefixStar, Look::StarName],
            )
        }
    }

    /// An axis and its test (XQuery 1.0, productions 72 to 76).
    #[tactic(auto, unfolding(xq_ast::specs::Paths::axis_step))]
    fn axis_step(&self, at: usize) -> Result<(TreeKind, usize), ParseFault>
        requires { N.reads self.now.nested self.now.depth }
        ensures { Reads self.now.text.now self.now.depth rule.axis_step at result }
    {
        if !looks(self.text, at, Due::Operand, Look::Axis) {
            return Err(ParseFault::Syntax);
        }
        let end = end_at(self.text, at, Due::Operand);
        let axis = axis_of(between(self.text, place(self.text, at), end));
        let at = sign(self.text, end, Due::Operator, Look::Colons)?;
        let (found, at) = self.test(at)?;
        Ok((StepKind::Walk(axis, found), at))
    }

    /// `@` and a test (XQuery 1.0, production 74).
    #[tactic(auto, unfolding(xq_ast::specs::Paths::at_step))]
    fn at_step(&self, at: usize) -> Result<(TreeKind, usize), ParseFault>
        requires { N.reads self.now.nested self.now.depth }
        ensures { Reads self.now.text.now self.now.depth rule.at_step at result }
    {
        let at = sign(self.text, at, Due::Operand, Look::AtSign)?;
        let (found, at) = self.test(at)?;
        Ok((StepKind::Walk(Axis::Attribute, found), at))
    }

    /// `*` on the child axis (XQuery 1.0, production 74).
    #[tactic(auto, unfolding(xq_ast::specs::Paths::any_step))]
    fn any_step(&self, at: usize) -> Result<(TreeKind, usize), ParseFault>
        requires { N.reads self.now.nested self.now.depth }
        ensures { Reads self.now.text.now self.now.depth rule.any_step at result }
    {
        let at = sign(self.text, at, Due::Operand, Look::Star)?;
        Ok((StepKind::Walk(Axis::Child, Test::Star), at))
    }

    /// A name on the child axis (XQuery 1.0, production 74).
    #[tactic(auto, unfolding(xq_ast::specs::Paths::named_step))]
    fn named_step(&self, at: usize) -> Result<(TreeKind, usize), ParseFault>
        requires { N.reads self.now.nested self.now.depth }
        ensures { Reads self.now.text.now self.now.depth rule.named_step at result }
    {
        let (found, at) = name(self.alloc, self.text, at, Due::Operand, Look::Name)?;
        Ok((StepKind::Walk(Axis::Child, Test::Named(found)), at))
    }

    /// `..` (XQuery 1.0, production 77).
    #[tactic(auto, unfolding(xq_ast::specs::Paths::up_step))]
    fn up_step(&self, at: usize) -> Result<(TreeKind, usize), ParseFault>
        requires { N.reads self.now.nested self.now.depth }
        ensures { Reads self.now.text.now self.now.depth rule.up_step at result }
    {
        let at = sign(self.text, at, Due::Operand, Look::Dots)?;
        Ok((StepKind::Walk(Axis::Parent, Test::Kind(KindTest::Node)), at))
    }

    /// A primary expression as a step.
    fn primary_step(&self, at: usize) -> Result<(TreeKind, usize), ParseFault>
        requires { N.reads self.now.nested self.now.depth }
        ensures { Reads self.now.text.now self.now.depth (make step_.Primary & primary) at result }
    {
        let (found, at) = self.primary(at)?;
        Ok((StepKind::Primary(found), at))
    }

    /// A step, or a primary expression as one, without its predicates (XQuery 1.0, production 70).
    #[tactic(auto, unfolding(xq_ast::specs::Paths::step_kind))]
    fn step_kind(&self, at: usize) -> Result<(TreeKind, usize), ParseFault>
        requires { N.reads self.now.nested self.now.depth }
        ensures { Reads self.now.text.now self.now.depth rule.step_kind at result }
    {
        let here = look_at(self.text, at, Due::Operand);
        if here.is(Look::Axis) {
            self.axis_step(at)
        } else if here.is(Look::AtSign) {
            self.at_step(at)
        } else if here.is(Look::Star) {
            self.any_step(at)
        } else if here.is(Look::Name) {
            self.named_step(at)
        } else if begins_kind(self.text, at, Due::Operand) {
            let (found, at) = self.kind_test(at, Due::Operand)?;
            Ok((kind_step(found), at))
        } else if here.is(Look::Dots) {
            self.up_step(at)
        } else {
            self.primary_step(at)
        }
    }

    /// StepExpr; its offset is its own first byte (XQuery 1.0, production 70).
    #[tactic(auto, unfolding(xq_ast::specs::Paths::step))]
    fn step(&self, at: usize) -> Result<(TreeStep, usize), ParseFault>
        requires { N.reads self.now.nested self.now.depth }
        ensures { Reads self.now.text.now self.now.depth rule.step at result }
    {
        let offset = place(self.text, at) as u64;
        let (kind, at) = self.step_kind(at)?;
        let (predicates, at) = self.predicates(at)?;
        let found = Step {
            offset,
            kind,
            predicates,
        };
        Ok((found, at))
    }

    /// `//`: the offset of its first slash.
    #[tactic(auto, unfolding(xq_ast::specs::Paths::two))]
    fn two(&self, at: usize, due: Due) -> Result<(u64, usize), ParseFault>
        requires { N.reads self.now.nested self.now.depth }
        ensures { Reads self.now.text.now self.now.depth (rule.two due) at result }
    {
        let offset = place(self.text, at) as u64;
        let at = sign(self.text, at, due, Look::Slashes)?;
        Ok((offset, at))
    }

    /// `/` or `//` between two steps.
    #[tactic(auto, unfolding(xq_ast::specs::Paths::slashes))]
    fn slashes(&self, at: usize) -> Result<(Slashes, usize), ParseFault>
        requires { N.reads self.now.nested self.now.depth }
        ensures { Reads self.now.text.now self.now.depth rule.slashes at result }
    {
        if looks(self.text, at, Due::Operator, Look::Slash) {
            let at = sign(self.text, at, Due::Operator, Look::Slash)?;
            return Ok((Slashes::One, at));
        }
        let (offset, at) = self.two(at, Due::Operator)?;
        Ok((Slashes::Two(offset), at))
    }

    /// Steps, each behind its slashes.
    #[tactic(auto, unfolding(xq_ast::specs::Paths::slashes, xq_ast::specs::Paths::two))]
    fn more_steps(&self, at: usize) -> Result<(Items<TreeBehind>, usize), ParseFault>
        requires { N.reads self.now.nested self.now.depth }
        ensures { Reads self.now.text.now self.now.depth (more tree_.behind rule.slashes rule.step) at result }
    {
        many(
            self.alloc,
            self.text,
            at,
            Due::Operator,
            &[Look::Slash, Look::Slashes],
            |at|
                requires { N.reads self.now.nested self.now.depth }
            {
                let (slashes, at) = self.slashes(at)?;
                let (step, at) = self.step(at)?;
                Ok((Behind { slashes, step }, at))
            },
        )
    }

    /// `/` and a path, or `/` alone where no step can begin (XQuery 1.0, production 68).
    #[tactic(auto, unfolding(xq_ast::specs::Paths::root))]
    fn root(&self, at: usize) -> Result<(Boxed<Tree>, usize), ParseFault>
        requires { N.reads self.now.nested self.now.depth }
        ensures { Reads self.now.text.now self.now.depth rule.root at result }
    {
        let offset = place(self.text, at) as u64;
        let at = sign(self.text, at, Due::Operand, Look::Slash)?;
        if !begins_step(self.text, at) {
            return Ok((Boxed::new(self.alloc, Node::Root(offset))?, at));
        }
        let (first, at) = self.step(at)?;
        let (more, at) = self.more_steps(at)?;
        let found = Boxed::new(self.alloc, Node::Path(Start::Root(offset), first, more))?;
        Ok((found, at))
    }

    /// `//` and a path (XQuery 1.0, production 68).
    #[tactic(auto, unfolding(xq_ast::specs::Paths::deep_root))]
    fn deep_root(&self, at: usize) -> Result<(Boxed<Tree>, usize), ParseFault>
        requires { N.reads self.now.nested self.now.depth }
        ensures { Reads self.now.text.now self.now.depth rule.deep_root at result }
    {
        let (offset, at) = self.two(at, Due::Operand)?;
        let (first, at) = self.step(at)?;
        let (more, at) = self.more_steps(at)?;
        let found = Boxed::new(self.alloc, Node::Path(Start::Deep(offset), first, more))?;
        Ok((found, at))
    }

    /// A path that begins with its first step, or a primary alone.
    fn relative(&self, at: usize) -> Result<(Boxed<Tree>, usize), ParseFault>
        requires { N.reads self.now.nested self.now.depth }
        ensures { Reads self.now.text.now self.now.depth (rule.relative tree_.path_here) at result }
    {
        let (first, at) = self.step(at)?;
        let (more, at) = self.more_steps(at)?;
        Ok((path_here(self.alloc, first, more)?, at))
    }

    /// A path, or what stands for one (XQuery 1.0, production 68).
    #[tactic(auto, unfolding(xq_ast::specs::Paths::path))]
    pub fn path(&self, at: usize) -> Result<(Boxed<Tree>, usize), ParseFault>
        requires { N.reads self.now.nested self.now.depth }
        ensures { Reads self.now.text.now self.now.depth rule.path at result }
    {
        let here = look_at(self.text, at, Due::Operand);
        if here.is(Look::Slash) {
            self.root(at)
        } else if here.is(Look::Slashes) {
            self.deep_root(at)
        } else {
            self.relative(at)
        }
    }
}

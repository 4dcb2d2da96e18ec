//! Primary expressions and constructors with words (XQuery 1.0, sections 3.1 and 3.7.3).
ghost use Rattle.std.specs.Prelude.{◌≡◌, ◌∷◌, Some, None};
ghost use Rattle.xq_ast.specs.declared.look.Due.TheVariants as due_;
ghost use Rattle.xq_ast.specs.declared.look.Look.TheVariants as k;
ghost use Rattle.xq_ast.specs.Look as looks_;
ghost use Rattle.xq_ast.specs.Primaries as rule;
ghost use Rattle.xq_ast.specs.Rules.{make, either, single, ◌&◌, ◌◁◌};
ghost use Rattle.xq_ast.specs.Terminals as terminal;
ghost use Rattle.xq_parser.specs.Outcomes.{Reads};

use crate::fault::ParseFault;
use crate::grammar::{Grammar, Nested, Tree};
use crate::look::{end_at, look_at, looks, place, stands_one};
use crate::terminals::{left, name, ncname, sign, string, text_at};
use sqlite_items::{Boxed, Items};
use xq_ast::leaf::{BuildKind, Name};
use xq_ast::look::{Due, Look};
use xq_ast::node::{BuildName, Node};

/// The name of a constructor, as it is written or computed.
type TreeName = BuildName<Items<u8>, Tree>;

/// The constructor that a word begins.
fn build_kind(look: Look) -> BuildKind
    ensures { result ≡ rule.build_kind look }
{
    match look {
        Look::ElementBuilder => BuildKind::Element,
        Look::AttributeBuilder => BuildKind::Attribute,
        Look::InstructionBuilder => BuildKind::Pi,
        Look::DocumentBuilder => BuildKind::Document,
        Look::TextBuilder => BuildKind::Text,
        _ => BuildKind::Comment,
    }
}

/// Whether a constructor with a word stands at a place.
fn begins_builder(text: &[u8], at: usize) -> bool
    ensures { result ≡ looks_.stands_one text.now (looks_.syms due_.Operand rule.builders) at }
{
    stands_one(
        text,
        at,
        Due::Operand,
        &[
            Look::ElementBuilder,
            Look::AttributeBuilder,
            Look::InstructionBuilder,
            Look::DocumentBuilder,
            Look::TextBuilder,
            Look::CommentBuilder,
        ],
    )
}

impl<'a, N: Nested> Grammar<'a, N> {
    /// IntegerLiteral (XQuery 1.0, production 141).
    #[tactic(auto, unfolding(xq_ast::specs::Primaries::integer))]
    fn integer(&self, at: usize) -> Result<(Boxed<Tree>, usize), ParseFault>
        requires { N.reads self.now.nested self.now.depth }
        ensures { Reads self.now.text.now self.now.depth rule.integer at result }
    {
        let offset = place(self.text, at) as u64;
        let (found, at) = text_at(self.alloc, self.text, at, Due::Operand, Look::Integer)?;
        Ok((Boxed::new(self.alloc, Node::Integer(offset, found))?, at))
    }

    /// StringLiteral (XQuery 1.0, production 144).
    #[tactic(auto, unfolding(xq_ast::specs::Primaries::literal))]
    fn literal(&self, at: usize) -> Result<(Boxed<Tree>, usize), ParseFault>
        requires { N.reads self.now.nested self.now.depth }
        ensures { Reads self.now.text.now self.now.depth rule.literal at result }
    {
        let (found, at) = string(self.alloc, self.text, at, Due::Operand)?;
        let Name { offset, text } = found;
        Ok((Boxed::new(self.alloc, Node::Text(offset, text))?, at))
    }

    /// VarRef (XQuery 1.0, production 87).
    #[tactic(auto, unfolding(xq_ast::specs::Primaries::var))]
    fn var(&self, at: usize) -> Result<(Boxed<Tree>, usize), ParseFault>
        requires { N.reads self.now.nested self.now.depth }
        ensures { Reads self.now.text.now self.now.depth rule.var at result }
    {
        let offset = place(self.text, at) as u64;
        let at = sign(self.text, at, Due::Operand, Look::Dollar)?;
        let (found, at) = name(self.alloc, self.text, at, Due::Named, Look::Name)?;
        Ok((Boxed::new(self.alloc, Node::Var(offset, found))?, at))
    }

    /// What parentheses hold, and the closing one.
    #[tactic(auto, unfolding(xq_ast::specs::Primaries::inside))]
    fn inside(&self, at: usize) -> Result<(Option<Boxed<Tree>>, usize), ParseFault>
        requires { N.reads self.now.nested self.now.depth }
        ensures { Reads self.now.text.now self.now.depth rule.inside at result }
    {
        if looks(self.text, at, Due::Operand, Look::Close) {
            let at = sign(self.text, at, Due::Operand, Look::Close)?;
            return Ok((None, at));
        }
        let (found, at) = self.expr(at)?;
        let at = sign(self.text, at, Due::Operator, Look::Close)?;
        Ok((Some(found), at))
    }

    /// ParenthesizedExpr (XQuery 1.0, production 89).
    #[tactic(auto, unfolding(xq_ast::specs::Primaries::paren))]
    fn paren(&self, at: usize) -> Result<(Boxed<Tree>, usize), ParseFault>
        requires { N.reads self.now.nested self.now.depth }
        ensures { Reads self.now.text.now self.now.depth rule.paren at result }
    {
        let offset = place(self.text, at) as u64;
        let at = sign(self.text, at, Due::Operand, Look::Open)?;
        let (found, at) = self.inside(at)?;
        Ok((Boxed::new(self.alloc, Node::Paren(offset, found))?, at))
    }

    /// ContextItemExpr (XQuery 1.0, production 90).
    #[tactic(auto, unfolding(xq_ast::specs::Primaries::dot))]
    fn dot(&self, at: usize) -> Result<(Boxed<Tree>, usize), ParseFault>
        requires { N.reads self.now.nested self.now.depth }
        ensures { Reads self.now.text.now self.now.depth rule.dot at result }
    {
        let offset = place(self.text, at) as u64;
        let at = sign(self.text, at, Due::Operand, Look::Dot)?;
        Ok((Boxed::new(self.alloc, Node::Dot(offset))?, at))
    }

    /// ExprSingles with commas between them.
    fn singles(&self, at: usize) -> Result<(Items<Tree>, usize), ParseFault>
        requires { N.reads self.now.nested self.now.depth }
        ensures { Reads self.now.text.now self.now.depth (terminal.listed single) at result }
    {
        let (first, at) = self.single(at)?;
        let (more, at) = self.more_singles(at)?;
        let mut found = Items::new(self.alloc);
        found.push(first.into_inner())?;
        found.append(more)?;
        Ok((found, at))
    }

    /// The arguments of a call, and `)` (XQuery 1.0, production 93).
    #[tactic(auto, unfolding(xq_ast::specs::Primaries::arguments))]
    pub fn arguments(&self, at: usize) -> Result<(Items<Tree>, usize), ParseFault>
        requires { N.reads self.now.nested self.now.depth }
        ensures { Reads self.now.text.now self.now.depth rule.arguments at result }
    {
        if looks(self.text, at, Due::Operand, Look::Close) {
            let at = sign(self.text, at, Due::Operand, Look::Close)?;
            return Ok((Items::new(self.alloc), at));
        }
        let (found, at) = self.singles(at)?;
        let at = sign(self.text, at, Due::Operator, Look::Close)?;
        Ok((found, at))
    }

    /// FunctionCall (XQuery 1.0, production 93).
    #[tactic(auto, unfolding(xq_ast::specs::Primaries::call))]
    fn call(&self, at: usize) -> Result<(Boxed<Tree>, usize), ParseFault>
        requires { N.reads self.now.nested self.now.depth }
        ensures { Reads self.now.text.now self.now.depth rule.call at result }
    {
        let offset = place(self.text, at) as u64;
        let (called, at) = name(self.alloc, self.text, at, Due::Operand, Look::Callee)?;
        let at = sign(self.text, at, Due::Operator, Look::Open)?;
        let (arguments, at) = self.arguments(at)?;
        Ok((
            Boxed::new(self.alloc, Node::Call(offset, called, arguments))?,
            at,
        ))
    }

    /// A name that is computed: `{` Expr `}` where a name might stand.
    fn computed_name(&self, at: usize) -> Result<(TreeName, usize), ParseFault>
        requires { N.reads self.now.nested self.now.depth }
        ensures { Reads self.now.text.now self.now.depth rule.computed_name at result }
    {
        let at = sign(self.text, at, Due::Named, Look::OpenBrace)?;
        let (found, at) = self.expr(at)?;
        let at = sign(self.text, at, Due::Operator, Look::CloseBrace)?;
        Ok((BuildName::Computed(found), at))
    }

    /// The name of an element or an attribute: QName, or computed.
    #[tactic(auto, unfolding(xq_ast::specs::Primaries::build_name))]
    fn build_name(&self, at: usize) -> Result<(TreeName, usize), ParseFault>
        requires { N.reads self.now.nested self.now.depth }
        ensures { Reads self.now.text.now self.now.depth rule.build_name at result }
    {
        if looks(self.text, at, Due::Named, Look::OpenBrace) {
            return self.computed_name(at);
        }
        let (found, at) = name(self.alloc, self.text, at, Due::Named, Look::Name)?;
        Ok((BuildName::Named(found), at))
    }

    /// The target of an instruction: NCName, or computed.
    #[tactic(auto, unfolding(xq_ast::specs::Primaries::target_name))]
    fn target_name(&self, at: usize) -> Result<(TreeName, usize), ParseFault>
        requires { N.reads self.now.nested self.now.depth }
        ensures { Reads self.now.text.now self.now.depth rule.target_name at result }
    {
        if looks(self.text, at, Due::Named, Look::OpenBrace) {
            return self.computed_name(at);
        }
        let (found, at) = ncname(self.alloc, self.text, at)?;
        Ok((BuildName::Named(found), at))
    }

    /// What stands behind the brace that opens a constructor's content, up to the brace that closes it.
    fn content_end(&self, at: usize) -> Result<(Option<Boxed<Tree>>, usize), ParseFault>
        requires { N.reads self.now.nested self.now.depth }
        ensures { Reads self.now.text.now self.now.depth (either (terminal.one due_.Operand k.CloseBrace) (make None ◁ terminal.operand k.CloseBrace) (make Some & terminal.expr ◁ terminal.operator k.CloseBrace)) at result }
    {
        if looks(self.text, at, Due::Operand, Look::CloseBrace) {
            let at = sign(self.text, at, Due::Operand, Look::CloseBrace)?;
            return Ok((None, at));
        }
        let (found, at) = self.expr(at)?;
        let at = sign(self.text, at, Due::Operator, Look::CloseBrace)?;
        Ok((Some(found), at))
    }

    /// The content of a constructor in its braces, or none.
    #[tactic(auto, unfolding(xq_ast::specs::Primaries::build_content))]
    fn build_content(&self, at: usize) -> Result<(Option<Boxed<Tree>>, usize), ParseFault>
        requires { N.reads self.now.nested self.now.depth }
        ensures { Reads self.now.text.now self.now.depth rule.build_content at result }
    {
        let at = sign(self.text, at, Due::Operator, Look::OpenBrace)?;
        self.content_end(at)
    }

    /// A constructor's word, one of these.
    fn build_word(&self, at: usize, kinds: &[Look]) -> Result<(BuildKind, usize), ParseFault>
        requires { N.reads self.now.nested self.now.depth }
        ensures { Reads self.now.text.now self.now.depth (terminal.of_class due_.Operand kinds.now rule.build_kind) at result }
    {
        if !stands_one(self.text, at, Due::Operand, kinds) {
            return Err(ParseFault::Syntax);
        }
        let here = look_at(self.text, at, Due::Operand);
        Ok((build_kind(here), end_at(self.text, at, Due::Operand)))
    }

    /// CompElemConstructor, CompAttrConstructor (XQuery 1.0, productions 111 and 113).
    #[tactic(auto, unfolding(xq_ast::specs::Primaries::named_builder))]
    fn named_builder(&self, at: usize) -> Result<(Boxed<Tree>, usize), ParseFault>
        requires { N.reads self.now.nested self.now.depth }
        ensures { Reads self.now.text.now self.now.depth rule.named_builder at result }
    {
        let offset = place(self.text, at) as u64;
        let (kind, at) = self.build_word(at, &[Look::ElementBuilder, Look::AttributeBuilder])?;
        let (name, at) = self.build_name(at)?;
        let (content, at) = self.build_content(at)?;
        Ok((
            Boxed::new(self.alloc, Node::Build(offset, kind, name, content))?,
            at,
        ))
    }

    /// CompPIConstructor (XQuery 1.0, production 116).
    #[tactic(auto, unfolding(xq_ast::specs::Primaries::instruction_builder))]
    fn instruction_builder(&self, at: usize) -> Result<(Boxed<Tree>, usize), ParseFault>
        requires { N.reads self.now.nested self.now.depth }
        ensures { Reads self.now.text.now self.now.depth rule.instruction_builder at result }
    {
        let offset = place(self.text, at) as u64;
        let (kind, at) = self.build_word(at, &[Look::InstructionBuilder])?;
        let (name, at) = self.target_name(at)?;
        let (content, at) = self.build_content(at)?;
        Ok((
            Boxed::new(self.alloc, Node::Build(offset, kind, name, content))?,
            at,
        ))
    }

    /// CompDocConstructor, CompTextConstructor, CompCommentConstructor (XQuery 1.0, productions 110, 114 and 115).
    #[tactic(auto, unfolding(xq_ast::specs::Primaries::block_builder))]
    fn block_builder(&self, at: usize) -> Result<(Boxed<Tree>, usize), ParseFault>
        requires { N.reads self.now.nested self.now.depth }
        ensures { Reads self.now.text.now self.now.depth rule.block_builder at result }
    {
        let offset = place(self.text, at) as u64;
        let kinds = [
            Look::DocumentBuilder,
            Look::TextBuilder,
            Look::CommentBuilder,
        ];
        let (kind, at) = self.build_word(at, &kinds)?;
        let (content, at) = self.block(at)?;
        let found = Node::Build(offset, kind, BuildName::Absent, Some(content));
        Ok((Boxed::new(self.alloc, found)?, at))
    }

    /// ComputedConstructor (XQuery 1.0, production 109).
    #[tactic(auto, unfolding(xq_ast::specs::Primaries::builder))]
    fn builder(&self, at: usize) -> Result<(Boxed<Tree>, usize), ParseFault>
        requires { N.reads self.now.nested self.now.depth }
        ensures { Reads self.now.text.now self.now.depth rule.builder at result }
    {
        let here = look_at(self.text, at, Due::Operand);
        if here.is(Look::ElementBuilder) || here.is(Look::AttributeBuilder) {
            self.named_builder(at)
        } else if here.is(Look::InstructionBuilder) {
            self.instruction_builder(at)
        } else {
            self.block_builder(at)
        }
    }

    /// What is left out where an operand is due, or no primary expression.
    fn left_primary(&self, at: usize) -> Result<(Boxed<Tree>, usize), ParseFault>
        ensures { Reads self.now.text.now self.now.depth (terminal.left due_.Operand (k.LeftOut ∷ k.Decimal ∷ k.Fraction ∷ rule.left_signs)) at result }
    {
        let kinds = [
            Look::LeftOut,
            Look::Decimal,
            Look::Fraction,
            Look::Pragma,
            Look::PrefixStar,
            Look::StarName,
        ];
        left(self.text, at, Due::Operand, &kinds)
    }

    /// A primary expression (XQuery 1.0, production 84).
    #[tactic(auto, unfolding(xq_ast::specs::Primaries::primary))]
    pub fn primary(&self, at: usize) -> Result<(Boxed<Tree>, usize), ParseFault>
        requires { N.reads self.now.nested self.now.depth }
        ensures { Reads self.now.text.now self.now.depth rule.primary at result }
    {
        let here = look_at(self.text, at, Due::Operand);
        if here.is(Look::Integer) {
            self.integer(at)
        } else if here.is(Look::Quoted) {
            self.literal(at)
        } else if here.is(Look::Dollar) {
            self.var(at)
        } else if here.is(Look::Open) {
            self.paren(at)
        } else if here.is(Look::Dot) {
            self.dot(at)
        } else if here.is(Look::Callee) {
            self.call(at)
        } else if here.is(Look::Less) {
            self.direct(at)
        } else if begins_builder(self.text, at) {
            self.builder(at)
        } else {
            self.left_primary(at)
        }
    }
}

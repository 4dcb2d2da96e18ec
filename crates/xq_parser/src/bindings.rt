//! FLWOR expressions, quantifiers and conditions (XQuery 1.0, sections 3.8, 3.10 and 3.11).
ghost use Rattle.std.specs.Prelude.{◌≡◌, ℕ, [], ◌∷◌, IfOk};
ghost use Rattle.xq_ast.specs.declared.look.Due.TheVariants as due_;
ghost use Rattle.xq_ast.specs.declared.look.Look.TheVariants as k;
ghost use Rattle.xq_ast.specs.Bindings as rule;
ghost use Rattle.xq_ast.specs.Rules.{many, maybe};
ghost use Rattle.xq_ast.specs.Terminals.{operator, of_class, listed};
ghost use Rattle.xq_ast.specs.Types.{typ};
ghost use Rattle.xq_parser.specs.Outcomes.{Reads, ReadsPast, read, more};
ghost use Rattle.xq_parser.specs.Partial.{GivesBy, tested, if_tested, branched, if_branched};

use crate::fault::ParseFault;
use crate::grammar::{Grammar, Nested, Tree, many};
use crate::look::{look_at, looks, place};
use crate::terminals::{ReadName, class_at, name, sign};
use sqlite_items::{Boxed, Items};
use std::alloc::{AllocError, Global};
use xq_ast::leaf::{Quantifier, ReadType, Variable};
use xq_ast::look::{Due, Look};
use xq_ast::node::{Clause, ForBind, Key, LetBind, Node, QuantBind};

/// A variable as it is read.
pub type ReadVariable = Variable<ReadName>;

type ReadClause = Clause<ReadName, ReadType, Tree>;

type ReadFor = ForBind<ReadName, ReadType, Tree>;

type ReadLet = LetBind<ReadName, ReadType, Tree>;

type ReadQuant = QuantBind<ReadName, ReadType, Tree>;

/// One and those that follow it.
pub fn with_first<T: Drop>(alloc: Global, first: T, more: Items<T>) -> Result<Items<T>, AllocError>
    ensures { IfOk result (λ found. found ≡ first ∷ more) }
{
    let mut found = Items::new(alloc);
    found.push(first)?;
    found.append(more)?;
    Ok(found)
}

/// The quantifier that a word names.
fn quantifier_of(word: Look) -> Quantifier
    ensures { result ≡ rule.quantifier_of word }
{
    match word {
        Look::Some => Quantifier::Some,
        _ => Quantifier::Every,
    }
}

impl<'a, N: Nested> Grammar<'a, N> {
    /// `$` VarName.
    #[tactic(auto, unfolding(xq_ast::specs::Bindings::variable))]
    pub fn variable(&self, at: usize) -> Result<(ReadVariable, usize), ParseFault>
        requires { N.reads self.now.nested self.now.depth }
        ensures { Reads self.now.text.now self.now.depth rule.variable at result }
    {
        let offset = place(self.text, at) as u64;
        let at = sign(self.text, at, Due::Operand, Look::Dollar)?;
        let (name, at) = name(self.alloc, self.text, at, Due::Named, Look::Name)?;
        Ok((Variable { offset, name }, at))
    }

    /// TypeDeclaration, if there is one (XQuery 1.0, production 118).
    #[tactic(auto, unfolding(xq_ast::specs::Types::typ))]
    pub fn maybe_typ(&self, at: usize) -> Result<(Option<ReadType>, usize), ParseFault>
        requires { N.reads self.now.nested self.now.depth }
        ensures { Reads self.now.text.now self.now.depth (maybe typ) at result }
    {
        if !looks(self.text, at, Due::Operator, Look::As) {
            return Ok((None, at));
        }
        let (found, at) = self.typ(at)?;
        Ok((Some(found), at))
    }

    /// PositionalVar, if there is one (XQuery 1.0, production 35).
    #[tactic(auto, unfolding(xq_ast::specs::Bindings::position))]
    fn position(&self, at: usize) -> Result<(Option<ReadVariable>, usize), ParseFault>
        requires { N.reads self.now.nested self.now.depth }
        ensures { Reads self.now.text.now self.now.depth rule.position at result }
    {
        if !looks(self.text, at, Due::Operator, Look::At) {
            return Ok((None, at));
        }
        let at = sign(self.text, at, Due::Operator, Look::At)?;
        let (found, at) = self.variable(at)?;
        Ok((Some(found), at))
    }

    /// A binding of `for` (XQuery 1.0, production 34).
    #[tactic(auto, unfolding(xq_ast::specs::Bindings::for_bind))]
    fn for_bind(&self, at: usize) -> Result<(ReadFor, usize), ParseFault>
        requires { N.reads self.now.nested self.now.depth }
        ensures { Reads self.now.text.now self.now.depth rule.for_bind at result }
    {
        let (var, at) = self.variable(at)?;
        let (ty, at) = self.maybe_typ(at)?;
        let (position, at) = self.position(at)?;
        let at = sign(self.text, at, Due::Operator, Look::In)?;
        let (source, at) = self.single(at)?;
        let found = ForBind {
            var,
            ty,
            at: position,
            source,
        };
        Ok((found, at))
    }

    fn more_for_binds(&self, at: usize) -> Result<(Items<ReadFor>, usize), ParseFault>
        requires { N.reads self.now.nested self.now.depth }
        ensures { Reads self.now.text.now self.now.depth (more (λ _ a. a) (operator k.Comma) rule.for_bind) at result }
    {
        many(
            self.alloc,
            self.text,
            at,
            Due::Operator,
            &[Look::Comma],
            |at|
                requires { N.reads self.now.nested self.now.depth }
            {
                let at = sign(self.text, at, Due::Operator, Look::Comma)?;
                self.for_bind(at)
            },
        )
    }

    /// A binding of `let` (XQuery 1.0, production 36).
    #[tactic(auto, unfolding(xq_ast::specs::Bindings::let_bind))]
    fn let_bind(&self, at: usize) -> Result<(ReadLet, usize), ParseFault>
        requires { N.reads self.now.nested self.now.depth }
        ensures { Reads self.now.text.now self.now.depth rule.let_bind at result }
    {
        let (var, at) = self.variable(at)?;
        let (ty, at) = self.maybe_typ(at)?;
        let at = sign(self.text, at, Due::Operator, Look::Assign)?;
        let (value, at) = self.single(at)?;
        Ok((LetBind { var, ty, value }, at))
    }

    fn more_let_binds(&self, at: usize) -> Result<(Items<ReadLet>, usize), ParseFault>
        requires { N.reads self.now.nested self.now.depth }
        ensures { Reads self.now.text.now self.now.depth (more (λ _ a. a) (operator k.Comma) rule.let_bind) at result }
    {
        many(
            self.alloc,
            self.text,
            at,
            Due::Operator,
            &[Look::Comma],
            |at|
                requires { N.reads self.now.nested self.now.depth }
            {
                let at = sign(self.text, at, Due::Operator, Look::Comma)?;
                self.let_bind(at)
            },
        )
    }

    /// ForClause (XQuery 1.0, production 34).
    #[tactic(auto, unfolding(xq_ast::specs::Bindings::for_clause))]
    fn for_clause(&self, at: usize, due: Due) -> Result<(ReadClause, usize), ParseFault>
        requires { N.reads self.now.nested self.now.depth }
        ensures { Reads self.now.text.now self.now.depth (rule.for_clause due) at result }
    {
        let at = sign(self.text, at, due, Look::For)?;
        let (first, at) = self.for_bind(at)?;
        let (more, at) = self.more_for_binds(at)?;
        Ok((Clause::For(with_first(self.alloc, first, more)?), at))
    }

    /// LetClause (XQuery 1.0, production 36).
    #[tactic(auto, unfolding(xq_ast::specs::Bindings::let_clause))]
    fn let_clause(&self, at: usize, due: Due) -> Result<(ReadClause, usize), ParseFault>
        requires { N.reads self.now.nested self.now.depth }
        ensures { Reads self.now.text.now self.now.depth (rule.let_clause due) at result }
    {
        let at = sign(self.text, at, due, Look::Let)?;
        let (first, at) = self.let_bind(at)?;
        let (more, at) = self.more_let_binds(at)?;
        Ok((Clause::Let(with_first(self.alloc, first, more)?), at))
    }

    /// A clause of `for` or `let`, by what is due at its first word.
    #[tactic(auto, unfolding(xq_ast::specs::Bindings::clause))]
    fn clause(&self, at: usize, due: Due) -> Result<(ReadClause, usize), ParseFault>
        requires { N.reads self.now.nested self.now.depth }
        ensures { Reads self.now.text.now self.now.depth (rule.clause due) at result }
    {
        if looks(self.text, at, due, Look::For) {
            self.for_clause(at, due)
        } else {
            self.let_clause(at, due)
        }
    }

    #[tactic(auto, unfolding(xq_ast::specs::Bindings::clause, xq_ast::specs::Bindings::let_clause))]
    fn more_clauses(&self, at: usize) -> Result<(Items<ReadClause>, usize), ParseFault>
        requires { N.reads self.now.nested self.now.depth }
        ensures { Reads self.now.text.now self.now.depth (many (rule.clause due_.Operator)) at result }
    {
        many(
            self.alloc,
            self.text,
            at,
            Due::Operator,
            &[Look::For, Look::Let],
            |at|
                requires { N.reads self.now.nested self.now.depth }
            { self.clause(at, Due::Operator) },
        )
    }

    /// The clauses of `for` and `let`.
    #[tactic(auto, unfolding(xq_ast::specs::Bindings::clauses))]
    fn clauses(&self, at: usize) -> Result<(Items<ReadClause>, usize), ParseFault>
        requires { N.reads self.now.nested self.now.depth }
        ensures { Reads self.now.text.now self.now.depth rule.clauses at result }
    {
        let (first, at) = self.clause(at, Due::Operand)?;
        let (more, at) = self.more_clauses(at)?;
        Ok((with_first(self.alloc, first, more)?, at))
    }

    /// WhereClause, if there is one (XQuery 1.0, production 37).
    #[tactic(auto, unfolding(xq_ast::specs::Bindings::condition))]
    fn condition(&self, at: usize) -> Result<(Option<Boxed<Tree>>, usize), ParseFault>
        requires { N.reads self.now.nested self.now.depth }
        ensures { Reads self.now.text.now self.now.depth rule.condition at result }
    {
        if !looks(self.text, at, Due::Operator, Look::Where) {
            return Ok((None, at));
        }
        let at = sign(self.text, at, Due::Operator, Look::Where)?;
        let (found, at) = self.single(at)?;
        Ok((Some(found), at))
    }

    /// Whether a key sorts downwards (XQuery 1.0, production 41).
    #[tactic(auto, unfolding(xq_ast::specs::Bindings::descending))]
    fn descending(&self, at: usize) -> Result<(bool, usize), ParseFault>
        requires { N.reads self.now.nested self.now.depth }
        ensures { Reads self.now.text.now self.now.depth rule.descending at result }
    {
        if looks(self.text, at, Due::Operator, Look::Descending) {
            let at = sign(self.text, at, Due::Operator, Look::Descending)?;
            return Ok((true, at));
        }
        if looks(self.text, at, Due::Operator, Look::Ascending) {
            let at = sign(self.text, at, Due::Operator, Look::Ascending)?;
            return Ok((false, at));
        }
        Ok((false, at))
    }

    /// Whether an empty key is the greatest (XQuery 1.0, production 41).
    #[tactic(auto, unfolding(xq_ast::specs::Bindings::empty_greatest))]
    fn empty_greatest(&self, at: usize) -> Result<(bool, usize), ParseFault>
        requires { N.reads self.now.nested self.now.depth }
        ensures { Reads self.now.text.now self.now.depth rule.empty_greatest at result }
    {
        if !looks(self.text, at, Due::Operator, Look::Empty) {
            return Ok((false, at));
        }
        let at = sign(self.text, at, Due::Operator, Look::Empty)?;
        if looks(self.text, at, Due::Operator, Look::Greatest) {
            let at = sign(self.text, at, Due::Operator, Look::Greatest)?;
            return Ok((true, at));
        }
        let at = sign(self.text, at, Due::Operator, Look::Least)?;
        Ok((false, at))
    }

    /// A collation, which is left out.
    #[tactic(auto, unfolding(xq_ast::specs::Bindings::collation))]
    fn collation(&self, at: usize) -> Result<usize, ParseFault>
        requires { N.reads self.now.nested self.now.depth }
        ensures { ReadsPast self.now.text.now self.now.depth rule.collation at result }
    {
        if looks(self.text, at, Due::Operator, Look::Collation) {
            Err(ParseFault::LeftOut(place(self.text, at)))
        } else {
            Ok(at)
        }
    }

    /// OrderSpec (XQuery 1.0, productions 40 and 41).
    #[tactic(auto, unfolding(xq_ast::specs::Bindings::key))]
    fn key(&self, at: usize) -> Result<(Key<Tree>, usize), ParseFault>
        requires { N.reads self.now.nested self.now.depth }
        ensures { Reads self.now.text.now self.now.depth rule.key at result }
    {
        let (key, at) = self.single(at)?;
        let (descending, at) = self.descending(at)?;
        let (empty_greatest, at) = self.empty_greatest(at)?;
        let at = self.collation(at)?;
        let found = Key {
            key,
            descending,
            empty_greatest,
        };
        Ok((found, at))
    }

    fn more_keys(&self, at: usize) -> Result<(Items<Key<Tree>>, usize), ParseFault>
        requires { N.reads self.now.nested self.now.depth }
        ensures { Reads self.now.text.now self.now.depth (more (λ _ a. a) (operator k.Comma) rule.key) at result }
    {
        many(
            self.alloc,
            self.text,
            at,
            Due::Operator,
            &[Look::Comma],
            |at|
                requires { N.reads self.now.nested self.now.depth }
            {
                let at = sign(self.text, at, Due::Operator, Look::Comma)?;
                self.key(at)
            },
        )
    }

    /// The keys of `order by`.
    fn keys(&self, at: usize) -> Result<(Items<Key<Tree>>, usize), ParseFault>
        requires { N.reads self.now.nested self.now.depth }
        ensures { Reads self.now.text.now self.now.depth (listed rule.key) at result }
    {
        let (first, at) = self.key(at)?;
        let (more, at) = self.more_keys(at)?;
        Ok((with_first(self.alloc, first, more)?, at))
    }

    /// OrderByClause, if there is one (XQuery 1.0, production 38).
    #[tactic(auto, unfolding(xq_ast::specs::Bindings::order))]
    fn order(&self, at: usize) -> Result<(Items<Key<Tree>>, usize), ParseFault>
        requires { N.reads self.now.nested self.now.depth }
        ensures { Reads self.now.text.now self.now.depth rule.order at result }
    {
        let here = look_at(self.text, at, Due::Operator);
        if here.is(Look::Stable) {
            let at = sign(self.text, at, Due::Operator, Look::Stable)?;
            let at = sign(self.text, at, Due::Operator, Look::Order)?;
            let at = sign(self.text, at, Due::Operator, Look::By)?;
            return self.keys(at);
        }
        if here.is(Look::Order) {
            let at = sign(self.text, at, Due::Operator, Look::Order)?;
            let at = sign(self.text, at, Due::Operator, Look::By)?;
            return self.keys(at);
        }
        Ok((Items::new(self.alloc), at))
    }

    /// FLWORExpr (XQuery 1.0, production 33).
    #[tactic(auto, unfolding(xq_ast::specs::Bindings::flwor))]
    fn flwor(&self, at: usize) -> Result<(Boxed<Tree>, usize), ParseFault>
        requires { N.reads self.now.nested self.now.depth }
        ensures { Reads self.now.text.now self.now.depth rule.flwor at result }
    {
        let offset = place(self.text, at) as u64;
        let (clauses, at) = self.clauses(at)?;
        let (condition, at) = self.condition(at)?;
        let (keys, at) = self.order(at)?;
        let at = sign(self.text, at, Due::Operator, Look::Return)?;
        let (body, at) = self.single(at)?;
        let found = Node::Flwor(offset, clauses, condition, keys, body);
        Ok((Boxed::new(self.alloc, found)?, at))
    }

    /// A binding of `some` or `every` (XQuery 1.0, production 42).
    #[tactic(auto, unfolding(xq_ast::specs::Bindings::quant_bind))]
    fn quant_bind(&self, at: usize) -> Result<(ReadQuant, usize), ParseFault>
        requires { N.reads self.now.nested self.now.depth }
        ensures { Reads self.now.text.now self.now.depth rule.quant_bind at result }
    {
        let (var, at) = self.variable(at)?;
        let (ty, at) = self.maybe_typ(at)?;
        let at = sign(self.text, at, Due::Operator, Look::In)?;
        let (source, at) = self.single(at)?;
        Ok((QuantBind { var, ty, source }, at))
    }

    fn more_quant_binds(&self, at: usize) -> Result<(Items<ReadQuant>, usize), ParseFault>
        requires { N.reads self.now.nested self.now.depth }
        ensures { Reads self.now.text.now self.now.depth (more (λ _ a. a) (operator k.Comma) rule.quant_bind) at result }
    {
        many(
            self.alloc,
            self.text,
            at,
            Due::Operator,
            &[Look::Comma],
            |at|
                requires { N.reads self.now.nested self.now.depth }
            {
                let at = sign(self.text, at, Due::Operator, Look::Comma)?;
                self.quant_bind(at)
            },
        )
    }

    /// The bindings of a quantifier.
    fn quant_binds(&self, at: usize) -> Result<(Items<ReadQuant>, usize), ParseFault>
        requires { N.reads self.now.nested self.now.depth }
        ensures { Reads self.now.text.now self.now.depth (listed rule.quant_bind) at result }
    {
        let (first, at) = self.quant_bind(at)?;
        let (more, at) = self.more_quant_binds(at)?;
        Ok((with_first(self.alloc, first, more)?, at))
    }

    /// `some` or `every`.
    fn quantifier(&self, at: usize) -> Result<(Quantifier, usize), ParseFault>
        requires { N.reads self.now.nested self.now.depth }
        ensures { Reads self.now.text.now self.now.depth (of_class due_.Operand (k.Some ∷ k.Every ∷ []) rule.quantifier_of) at result }
    {
        let (word, at) = class_at(self.text, at, Due::Operand, &[Look::Some, Look::Every])?;
        Ok((quantifier_of(word), at))
    }

    /// QuantifiedExpr (XQuery 1.0, production 42).
    #[tactic(auto, unfolding(xq_ast::specs::Bindings::quantified))]
    fn quantified(&self, at: usize) -> Result<(Boxed<Tree>, usize), ParseFault>
        requires { N.reads self.now.nested self.now.depth }
        ensures { Reads self.now.text.now self.now.depth rule.quantified at result }
    {
        let offset = place(self.text, at) as u64;
        let (quantifier, at) = self.quantifier(at)?;
        let (binds, at) = self.quant_binds(at)?;
        let at = sign(self.text, at, Due::Operator, Look::Satisfies)?;
        let (test, at) = self.single(at)?;
        let found = Node::Quantified(offset, quantifier, binds, test);
        Ok((Boxed::new(self.alloc, found)?, at))
    }

    /// `if (` Expr `)`, with the offset of the condition.
    fn tested(&self, at: usize) -> Result<((u64, Boxed<Tree>), usize), ParseFault>
        requires { N.reads self.now.nested self.now.depth }
        ensures { GivesBy if_tested (read self.now.text.now self.now.depth tested at) result }
    {
        let offset = place(self.text, at) as u64;
        let at = sign(self.text, at, Due::Operand, Look::If)?;
        let at = sign(self.text, at, Due::Operator, Look::Open)?;
        let (test, at) = self.expr(at)?;
        let at = sign(self.text, at, Due::Operator, Look::Close)?;
        Ok(((offset, test), at))
    }

    /// A condition up to its `else`.
    fn branched(&self, at: usize) -> Result<((u64, (Boxed<Tree>, Boxed<Tree>)), usize), ParseFault>
        requires { N.reads self.now.nested self.now.depth }
        ensures { GivesBy if_branched (read self.now.text.now self.now.depth branched at) result }
    {
        let ((offset, test), at) = self.tested(at)?;
        let at = sign(self.text, at, Due::Operator, Look::Then)?;
        let (yes, at) = self.single(at)?;
        Ok(((offset, (test, yes)), at))
    }

    /// IfExpr (XQuery 1.0, production 45).
    #[tactic(auto, unfolding(xq_ast::specs::Bindings::conditional))]
    fn conditional(&self, at: usize) -> Result<(Boxed<Tree>, usize), ParseFault>
        requires { N.reads self.now.nested self.now.depth }
        ensures { Reads self.now.text.now self.now.depth rule.conditional at result }
    {
        let ((offset, (test, yes)), at) = self.branched(at)?;
        let at = sign(self.text, at, Due::Operator, Look::Else)?;
        let (no, at) = self.single(at)?;
        Ok((Boxed::new(self.alloc, Node::If(offset, test, yes, no))?, at))
    }

    /// ExprSingle (XQuery 1.0, production 32).
    #[tactic(auto, unfolding(xq_ast::specs::Bindings::level))]
    pub fn level(&self, at: usize) -> Result<(Boxed<Tree>, usize), ParseFault>
        requires { N.reads self.now.nested self.now.depth }
        ensures { Reads self.now.text.now self.now.depth rule.level at result }
    {
        let here = look_at(self.text, at, Due::Operand);
        if here.is(Look::For) || here.is(Look::Let) {
            self.flwor(at)
        } else if here.is(Look::Some) || here.is(Look::Every) {
            self.quantified(at)
        } else if here.is(Look::If) {
            self.conditional(at)
        } else if here.is(Look::Typeswitch) {
            Err(ParseFault::LeftOut(place(self.text, at)))
        } else {
            self.disjunction(at)
        }
    }
}

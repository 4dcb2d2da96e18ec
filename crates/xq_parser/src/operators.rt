//! The levels of operators (XQuery 1.0, sections 3.3 to 3.6 and 3.12, and appendix A.4). A level is a list:
//! a tree is no deeper than its ExprSingles nest.
ghost use Rattle.std.specs.Prelude.{◌≡◌, IfOk, ◌∷◌, []};
ghost use Rattle.xq_ast.specs.declared.look.Look.TheVariants as k;
ghost use Rattle.xq_ast.specs.declared.look.Due.TheVariants as due_;
ghost use Rattle.xq_ast.specs.declared.node.Node.TheVariants as node_;
ghost use Rattle.xq_ast.specs.Operators as rule;
ghost use Rattle.xq_ast.specs.Look as looks_;
ghost use Rattle.xq_ast.specs.Rules.{make, ◌&◌, many as any_of};
ghost use Rattle.xq_ast.specs.Trees as tree_;
ghost use Rattle.xq_parser.specs.Outcomes.{Reads, more};

use crate::fault::ParseFault;
use crate::grammar::{Grammar, Nested, Tree, many};
use crate::look::{end_at, look_at, looks, place, stands_one};
use crate::terminals::{ReadName, left, name, sign};
use sqlite_items::{Boxed, Items};
use std::alloc::{AllocError, Global};
use xq_ast::leaf::{Operator, ReadType, Sign};
use xq_ast::look::{Due, Look};
use xq_ast::node::{Node, Right, Signed};

/// The operand and the operator before it, as often as they stand.
type Rights = Items<Right<Tree>>;

/// The sign that stands before an operand.
fn sign_of(look: Look) -> Sign
    ensures { result ≡ rule.sign_of look }
{
    match look {
        Look::Plus => Sign::Plus,
        _ => Sign::Minus,
    }
}

/// What a sign or word of an operator stands for.
fn operator_of(look: Look) -> Operator
    ensures { result ≡ rule.operator_of look }
{
    match look {
        Look::Or => Operator::Or,
        Look::And => Operator::And,
        Look::Equal => Operator::GeneralEq,
        Look::Unequal => Operator::GeneralNe,
        Look::Less => Operator::GeneralLt,
        Look::AtMost => Operator::GeneralLe,
        Look::Greater => Operator::GeneralGt,
        Look::AtLeast => Operator::GeneralGe,
        Look::Eq => Operator::Eq,
        Look::Ne => Operator::Ne,
        Look::Lt => Operator::Lt,
        Look::Le => Operator::Le,
        Look::Gt => Operator::Gt,
        Look::Ge => Operator::Ge,
        Look::Is => Operator::Is,
        Look::Precedes => Operator::Before,
        Look::Follows => Operator::After,
        Look::To => Operator::To,
        Look::Plus => Operator::Add,
        Look::Minus => Operator::Subtract,
        Look::Star => Operator::Multiply,
        Look::Idiv => Operator::IntegerDivide,
        Look::Mod => Operator::Modulo,
        Look::Intersect => Operator::Intersect,
        Look::Except => Operator::Except,
        _ => Operator::Union,
    }
}

/// A level of operators: what stands alone is itself.
fn chained(
    alloc: Global,
    offset: u64,
    first: Boxed<Tree>,
    more: Rights,
) -> Result<Boxed<Tree>, AllocError>
    ensures { IfOk result (λ e. e ≡ tree_.chained first more offset) }
{
    if more.is_empty() {
        return Ok(first);
    }
    Ok(Boxed::new(alloc, Node::Chain(offset, first, more))?)
}

/// An operator that doesn't repeat, or its first operand alone.
fn compared(
    alloc: Global,
    offset: u64,
    first: Boxed<Tree>,
    second: Option<Right<Tree>>,
) -> Result<Boxed<Tree>, AllocError>
    ensures { IfOk result (λ e. e ≡ tree_.compared offset first second) }
{
    match second {
        None => Ok(first),
        Some(right) => {
            let mut more = Items::new(alloc);
            more.push(right)?;
            Ok(Boxed::new(alloc, Node::Chain(offset, first, more))?)
        }
    }
}

/// An operand with its signs, or alone.
fn signed(
    alloc: Global,
    offset: u64,
    signs: Items<Signed>,
    operand: Boxed<Tree>,
) -> Result<Boxed<Tree>, AllocError>
    ensures { IfOk result (λ e. e ≡ tree_.signed offset signs operand) }
{
    if signs.is_empty() {
        return Ok(operand);
    }
    Ok(Boxed::new(alloc, Node::Signed(offset, signs, operand))?)
}

/// `cast as`, or its operand alone.
fn cast_to(
    alloc: Global,
    offset: u64,
    operand: Boxed<Tree>,
    kind: Option<(ReadName, bool)>,
) -> Result<Boxed<Tree>, AllocError>
    ensures { IfOk result (λ e. e ≡ tree_.typed (tree_.cast_to node_.Cast) offset operand kind) }
{
    match kind {
        None => Ok(operand),
        Some((name, optional)) => {
            Ok(Boxed::new(alloc, Node::Cast(offset, operand, name, optional))?)
        }
    }
}

/// `castable as`, or its operand alone.
fn castable_to(
    alloc: Global,
    offset: u64,
    operand: Boxed<Tree>,
    kind: Option<(ReadName, bool)>,
) -> Result<Boxed<Tree>, AllocError>
    ensures { IfOk result (λ e. e ≡ tree_.typed (tree_.cast_to node_.Castable) offset operand kind) }
{
    match kind {
        None => Ok(operand),
        Some((name, optional)) => {
            Ok(Boxed::new(alloc, Node::Castable(offset, operand, name, optional))?)
        }
    }
}

/// `treat as`, or its operand alone.
fn treated(
    alloc: Global,
    offset: u64,
    operand: Boxed<Tree>,
    ty: Option<ReadType>,
) -> Result<Boxed<Tree>, AllocError>
    ensures { IfOk result (λ e. e ≡ tree_.typed node_.Treat offset operand ty) }
{
    match ty {
        None => Ok(operand),
        Some(ty) => Ok(Boxed::new(alloc, Node::Treat(offset, operand, ty))?),
    }
}

/// `instance of`, or its operand alone.
fn instance_of(
    alloc: Global,
    offset: u64,
    operand: Boxed<Tree>,
    ty: Option<ReadType>,
) -> Result<Boxed<Tree>, AllocError>
    ensures { IfOk result (λ e. e ≡ tree_.typed node_.Instance offset operand ty) }
{
    match ty {
        None => Ok(operand),
        Some(ty) => Ok(Boxed::new(alloc, Node::Instance(offset, operand, ty))?),
    }
}

/// Whether the operator of a comparison stands at a place.
fn begins_comparison(text: &[u8], at: usize) -> bool
    ensures { result ≡ looks_.stands_one text.now (looks_.syms due_.Operator rule.comparisons) at }
{
    stands_one(
        text,
        at,
        Due::Operator,
        &[
            Look::Equal,
            Look::Unequal,
            Look::Less,
            Look::AtMost,
            Look::Greater,
            Look::AtLeast,
            Look::Eq,
            Look::Ne,
            Look::Lt,
            Look::Le,
            Look::Gt,
            Look::Ge,
            Look::Is,
            Look::Precedes,
            Look::Follows,
        ],
    )
}

impl<'a, N: Nested> Grammar<'a, N> {
    /// One of these operators.
    fn operator_in(&self, at: usize, kinds: &[Look]) -> Result<(Operator, usize), ParseFault>
        requires { N.reads self.now.nested self.now.depth }
        ensures { Reads self.now.text.now self.now.depth (rule.operator_in kinds.now) at result }
    {
        if !stands_one(self.text, at, Due::Operator, kinds) {
            return Err(ParseFault::Syntax);
        }
        let here = look_at(self.text, at, Due::Operator);
        Ok((operator_of(here), end_at(self.text, at, Due::Operator)))
    }

    /// A sign, with its offset.
    #[tactic(auto, unfolding(xq_ast::specs::Operators::one_sign))]
    fn one_sign(&self, at: usize) -> Result<(Signed, usize), ParseFault>
        requires { N.reads self.now.nested self.now.depth }
        ensures { Reads self.now.text.now self.now.depth rule.one_sign at result }
    {
        let offset = place(self.text, at) as u64;
        let here = look_at(self.text, at, Due::Operand);
        if here.is(Look::Plus) || here.is(Look::Minus) {
            let sign = sign_of(here);
            Ok((Signed { offset, sign }, end_at(self.text, at, Due::Operand)))
        } else {
            Err(ParseFault::Syntax)
        }
    }

    /// The signs before an operand.
    #[tactic(auto, unfolding(xq_ast::specs::Operators::one_sign))]
    fn signs(&self, at: usize) -> Result<(Items<Signed>, usize), ParseFault>
        requires { N.reads self.now.nested self.now.depth }
        ensures { Reads self.now.text.now self.now.depth (any_of rule.one_sign) at result }
    {
        many(
            self.alloc,
            self.text,
            at,
            Due::Operand,
            &[Look::Plus, Look::Minus],
            |at|
                requires { N.reads self.now.nested self.now.depth }
            { self.one_sign(at) },
        )
    }

    /// UnaryExpr; its offset is that of the first sign (XQuery 1.0, production 58).
    #[tactic(auto, unfolding(xq_ast::specs::Operators::unary))]
    fn unary(&self, at: usize) -> Result<(Boxed<Tree>, usize), ParseFault>
        requires { N.reads self.now.nested self.now.depth }
        ensures { Reads self.now.text.now self.now.depth rule.unary at result }
    {
        let offset = place(self.text, at) as u64;
        let (signs, at) = self.signs(at)?;
        let (operand, at) = self.path(at)?;
        Ok((signed(self.alloc, offset, signs, operand)?, at))
    }

    /// SingleType: the name of the type, and whether `?` stands behind it (XQuery 1.0, production 117).
    #[tactic(auto, unfolding(xq_ast::specs::Operators::single_type))]
    fn single_type(&self, at: usize) -> Result<((ReadName, bool), usize), ParseFault>
        requires { N.reads self.now.nested self.now.depth }
        ensures { Reads self.now.text.now self.now.depth rule.single_type at result }
    {
        let (name, at) = name(self.alloc, self.text, at, Due::Named, Look::Name)?;
        if !looks(self.text, at, Due::Operator, Look::Question) {
            return Ok(((name, false), at));
        }
        let at = sign(self.text, at, Due::Operator, Look::Question)?;
        Ok(((name, true), at))
    }

    /// `cast as` and its type, or nothing.
    #[tactic(auto, unfolding(xq_ast::specs::Operators::cast_type))]
    fn cast_type(&self, at: usize) -> Result<(Option<(ReadName, bool)>, usize), ParseFault>
        requires { N.reads self.now.nested self.now.depth }
        ensures { Reads self.now.text.now self.now.depth rule.cast_type at result }
    {
        if !looks(self.text, at, Due::Operator, Look::Cast) {
            return Ok((None, at));
        }
        let at = sign(self.text, at, Due::Operator, Look::Cast)?;
        let at = sign(self.text, at, Due::Operator, Look::As)?;
        let (found, at) = self.single_type(at)?;
        Ok((Some(found), at))
    }

    /// CastExpr (XQuery 1.0, production 57).
    #[tactic(auto, unfolding(xq_ast::specs::Operators::cast))]
    fn cast(&self, at: usize) -> Result<(Boxed<Tree>, usize), ParseFault>
        requires { N.reads self.now.nested self.now.depth }
        ensures { Reads self.now.text.now self.now.depth rule.cast at result }
    {
        let offset = place(self.text, at) as u64;
        let (operand, at) = self.unary(at)?;
        let (kind, at) = self.cast_type(at)?;
        Ok((cast_to(self.alloc, offset, operand, kind)?, at))
    }

    /// `castable as` and its type, or nothing.
    #[tactic(auto, unfolding(xq_ast::specs::Operators::castable_type))]
    fn castable_type(&self, at: usize) -> Result<(Option<(ReadName, bool)>, usize), ParseFault>
        requires { N.reads self.now.nested self.now.depth }
        ensures { Reads self.now.text.now self.now.depth rule.castable_type at result }
    {
        if !looks(self.text, at, Due::Operator, Look::Castable) {
            return Ok((None, at));
        }
        let at = sign(self.text, at, Due::Operator, Look::Castable)?;
        let at = sign(self.text, at, Due::Operator, Look::As)?;
        let (found, at) = self.single_type(at)?;
        Ok((Some(found), at))
    }

    /// CastableExpr (XQuery 1.0, production 56).
    #[tactic(auto, unfolding(xq_ast::specs::Operators::castable))]
    fn castable(&self, at: usize) -> Result<(Boxed<Tree>, usize), ParseFault>
        requires { N.reads self.now.nested self.now.depth }
        ensures { Reads self.now.text.now self.now.depth rule.castable at result }
    {
        let offset = place(self.text, at) as u64;
        let (operand, at) = self.cast(at)?;
        let (kind, at) = self.castable_type(at)?;
        Ok((castable_to(self.alloc, offset, operand, kind)?, at))
    }

    /// `treat as` and its type, or nothing.
    #[tactic(auto, unfolding(xq_ast::specs::Operators::treat_type))]
    fn treat_type(&self, at: usize) -> Result<(Option<ReadType>, usize), ParseFault>
        requires { N.reads self.now.nested self.now.depth }
        ensures { Reads self.now.text.now self.now.depth rule.treat_type at result }
    {
        if !looks(self.text, at, Due::Operator, Look::Treat) {
            return Ok((None, at));
        }
        let at = sign(self.text, at, Due::Operator, Look::Treat)?;
        let at = sign(self.text, at, Due::Operator, Look::As)?;
        let (found, at) = self.seq_type(at)?;
        Ok((Some(found), at))
    }

    /// TreatExpr (XQuery 1.0, production 55).
    #[tactic(auto, unfolding(xq_ast::specs::Operators::treat))]
    fn treat(&self, at: usize) -> Result<(Boxed<Tree>, usize), ParseFault>
        requires { N.reads self.now.nested self.now.depth }
        ensures { Reads self.now.text.now self.now.depth rule.treat at result }
    {
        let offset = place(self.text, at) as u64;
        let (operand, at) = self.castable(at)?;
        let (ty, at) = self.treat_type(at)?;
        Ok((treated(self.alloc, offset, operand, ty)?, at))
    }

    /// `instance of` and its type, or nothing.
    #[tactic(auto, unfolding(xq_ast::specs::Operators::instance_type))]
    fn instance_type(&self, at: usize) -> Result<(Option<ReadType>, usize), ParseFault>
        requires { N.reads self.now.nested self.now.depth }
        ensures { Reads self.now.text.now self.now.depth rule.instance_type at result }
    {
        if !looks(self.text, at, Due::Operator, Look::Instance) {
            return Ok((None, at));
        }
        let at = sign(self.text, at, Due::Operator, Look::Instance)?;
        let at = sign(self.text, at, Due::Operator, Look::Of)?;
        let (found, at) = self.seq_type(at)?;
        Ok((Some(found), at))
    }

    /// InstanceofExpr (XQuery 1.0, production 54).
    #[tactic(auto, unfolding(xq_ast::specs::Operators::instance))]
    fn instance(&self, at: usize) -> Result<(Boxed<Tree>, usize), ParseFault>
        requires { N.reads self.now.nested self.now.depth }
        ensures { Reads self.now.text.now self.now.depth rule.instance at result }
    {
        let offset = place(self.text, at) as u64;
        let (operand, at) = self.treat(at)?;
        let (ty, at) = self.instance_type(at)?;
        Ok((instance_of(self.alloc, offset, operand, ty)?, at))
    }

    /// Operands of `intersect` and `except`, each behind its operator.
    fn more_instances(&self, at: usize) -> Result<(Rights, usize), ParseFault>
        requires { N.reads self.now.nested self.now.depth }
        ensures { Reads self.now.text.now self.now.depth (more tree_.right (rule.operator_in (k.Intersect ∷ k.Except ∷ [])) rule.instance) at result }
    {
        many(
            self.alloc,
            self.text,
            at,
            Due::Operator,
            &[Look::Intersect, Look::Except],
            |at|
                requires { N.reads self.now.nested self.now.depth }
            {
                let (operator, at) = self.operator_in(at, &[Look::Intersect, Look::Except])?;
                let (operand, at) = self.instance(at)?;
                let operand = operand.into_inner();
                Ok((Right { operator, operand }, at))
            },
        )
    }

    /// IntersectExceptExpr (XQuery 1.0, production 53).
    #[tactic(auto, unfolding(xq_ast::specs::Operators::intersect))]
    fn intersect(&self, at: usize) -> Result<(Boxed<Tree>, usize), ParseFault>
        requires { N.reads self.now.nested self.now.depth }
        ensures { Reads self.now.text.now self.now.depth rule.intersect at result }
    {
        let offset = place(self.text, at) as u64;
        let (first, at) = self.instance(at)?;
        let (more, at) = self.more_instances(at)?;
        Ok((chained(self.alloc, offset, first, more)?, at))
    }

    /// Operands of `union` and `|`, each behind its operator.
    fn more_intersects(&self, at: usize) -> Result<(Rights, usize), ParseFault>
        requires { N.reads self.now.nested self.now.depth }
        ensures { Reads self.now.text.now self.now.depth (more tree_.right (rule.operator_in (k.Union ∷ k.Bar ∷ [])) rule.intersect) at result }
    {
        many(
            self.alloc,
            self.text,
            at,
            Due::Operator,
            &[Look::Union, Look::Bar],
            |at|
                requires { N.reads self.now.nested self.now.depth }
            {
                let (operator, at) = self.operator_in(at, &[Look::Union, Look::Bar])?;
                let (operand, at) = self.intersect(at)?;
                let operand = operand.into_inner();
                Ok((Right { operator, operand }, at))
            },
        )
    }

    /// UnionExpr (XQuery 1.0, production 52).
    #[tactic(auto, unfolding(xq_ast::specs::Operators::union))]
    fn union(&self, at: usize) -> Result<(Boxed<Tree>, usize), ParseFault>
        requires { N.reads self.now.nested self.now.depth }
        ensures { Reads self.now.text.now self.now.depth rule.union at result }
    {
        let offset = place(self.text, at) as u64;
        let (first, at) = self.intersect(at)?;
        let (more, at) = self.more_intersects(at)?;
        Ok((chained(self.alloc, offset, first, more)?, at))
    }

    /// `*`, `idiv` or `mod`; `div` is left out.
    #[tactic(auto, unfolding(xq_ast::specs::Operators::times))]
    fn times(&self, at: usize) -> Result<(Operator, usize), ParseFault>
        requires { N.reads self.now.nested self.now.depth }
        ensures { Reads self.now.text.now self.now.depth rule.times at result }
    {
        let here = look_at(self.text, at, Due::Operator);
        if here.is(Look::Star) || here.is(Look::Idiv) || here.is(Look::Mod) {
            self.operator_in(at, &[Look::Star, Look::Idiv, Look::Mod])
        } else {
            left(self.text, at, Due::Operator, &[Look::Div])
        }
    }

    /// Operands of `*`, `idiv` and `mod`, each behind its operator.
    #[tactic(auto, unfolding(xq_ast::specs::Operators::times))]
    fn more_unions(&self, at: usize) -> Result<(Rights, usize), ParseFault>
        requires { N.reads self.now.nested self.now.depth }
        ensures { Reads self.now.text.now self.now.depth (more tree_.right rule.times rule.union) at result }
    {
        many(
            self.alloc,
            self.text,
            at,
            Due::Operator,
            &[Look::Star, Look::Idiv, Look::Mod, Look::Div],
            |at|
                requires { N.reads self.now.nested self.now.depth }
            {
                let (operator, at) = self.times(at)?;
                let (operand, at) = self.union(at)?;
                let operand = operand.into_inner();
                Ok((Right { operator, operand }, at))
            },
        )
    }

    /// MultiplicativeExpr (XQuery 1.0, production 51).
    #[tactic(auto, unfolding(xq_ast::specs::Operators::multiplied))]
    fn multiplied(&self, at: usize) -> Result<(Boxed<Tree>, usize), ParseFault>
        requires { N.reads self.now.nested self.now.depth }
        ensures { Reads self.now.text.now self.now.depth rule.multiplied at result }
    {
        let offset = place(self.text, at) as u64;
        let (first, at) = self.union(at)?;
        let (more, at) = self.more_unions(at)?;
        Ok((chained(self.alloc, offset, first, more)?, at))
    }

    /// Operands of `+` and `-`, each behind its operator.
    fn more_multiplied(&self, at: usize) -> Result<(Rights, usize), ParseFault>
        requires { N.reads self.now.nested self.now.depth }
        ensures { Reads self.now.text.now self.now.depth (more tree_.right (rule.operator_in (k.Plus ∷ k.Minus ∷ [])) rule.multiplied) at result }
    {
        many(
            self.alloc,
            self.text,
            at,
            Due::Operator,
            &[Look::Plus, Look::Minus],
            |at|
                requires { N.reads self.now.nested self.now.depth }
            {
                let (operator, at) = self.operator_in(at, &[Look::Plus, Look::Minus])?;
                let (operand, at) = self.multiplied(at)?;
                let operand = operand.into_inner();
                Ok((Right { operator, operand }, at))
            },
        )
    }

    /// AdditiveExpr (XQuery 1.0, production 50).
    #[tactic(auto, unfolding(xq_ast::specs::Operators::added))]
    fn added(&self, at: usize) -> Result<(Boxed<Tree>, usize), ParseFault>
        requires { N.reads self.now.nested self.now.depth }
        ensures { Reads self.now.text.now self.now.depth rule.added at result }
    {
        let offset = place(self.text, at) as u64;
        let (first, at) = self.multiplied(at)?;
        let (more, at) = self.more_multiplied(at)?;
        Ok((chained(self.alloc, offset, first, more)?, at))
    }

    /// `to` and its operand, or nothing.
    #[tactic(auto, unfolding(xq_ast::specs::Operators::range_end))]
    fn range_end(&self, at: usize) -> Result<(Option<Right<Tree>>, usize), ParseFault>
        requires { N.reads self.now.nested self.now.depth }
        ensures { Reads self.now.text.now self.now.depth rule.range_end at result }
    {
        if !looks(self.text, at, Due::Operator, Look::To) {
            return Ok((None, at));
        }
        let (operator, at) = self.operator_in(at, &[Look::To])?;
        let (operand, at) = self.added(at)?;
        let operand = operand.into_inner();
        Ok((Some(Right { operator, operand }), at))
    }

    /// RangeExpr (XQuery 1.0, production 49).
    #[tactic(auto, unfolding(xq_ast::specs::Operators::range))]
    fn range(&self, at: usize) -> Result<(Boxed<Tree>, usize), ParseFault>
        requires { N.reads self.now.nested self.now.depth }
        ensures { Reads self.now.text.now self.now.depth rule.range at result }
    {
        let offset = place(self.text, at) as u64;
        let (first, at) = self.added(at)?;
        let (second, at) = self.range_end(at)?;
        Ok((compared(self.alloc, offset, first, second)?, at))
    }

    /// A comparison's operator and its second operand.
    fn comparison_end(&self, at: usize) -> Result<(Right<Tree>, usize), ParseFault>
        requires { N.reads self.now.nested self.now.depth }
        ensures { Reads self.now.text.now self.now.depth (make tree_.right & rule.operator_in rule.comparisons & rule.range) at result }
    {
        let (operator, at) = self.operator_in(
            at,
            &[
                Look::Equal,
                Look::Unequal,
                Look::Less,
                Look::AtMost,
                Look::Greater,
                Look::AtLeast,
                Look::Eq,
                Look::Ne,
                Look::Lt,
                Look::Le,
                Look::Gt,
                Look::Ge,
                Look::Is,
                Look::Precedes,
                Look::Follows,
            ],
        )?;
        let (operand, at) = self.range(at)?;
        let operand = operand.into_inner();
        Ok((Right { operator, operand }, at))
    }

    /// A comparison's operator and its second operand, or nothing.
    #[tactic(auto, unfolding(xq_ast::specs::Operators::compared_to))]
    fn compared_to(&self, at: usize) -> Result<(Option<Right<Tree>>, usize), ParseFault>
        requires { N.reads self.now.nested self.now.depth }
        ensures { Reads self.now.text.now self.now.depth rule.compared_to at result }
    {
        if !begins_comparison(self.text, at) {
            return Ok((None, at));
        }
        let (found, at) = self.comparison_end(at)?;
        Ok((Some(found), at))
    }

    /// ComparisonExpr (XQuery 1.0, production 48).
    #[tactic(auto, unfolding(xq_ast::specs::Operators::comparison))]
    fn comparison(&self, at: usize) -> Result<(Boxed<Tree>, usize), ParseFault>
        requires { N.reads self.now.nested self.now.depth }
        ensures { Reads self.now.text.now self.now.depth rule.comparison at result }
    {
        let offset = place(self.text, at) as u64;
        let (first, at) = self.range(at)?;
        let (second, at) = self.compared_to(at)?;
        Ok((compared(self.alloc, offset, first, second)?, at))
    }

    /// Operands of `and`, each behind its operator.
    fn more_comparisons(&self, at: usize) -> Result<(Rights, usize), ParseFault>
        requires { N.reads self.now.nested self.now.depth }
        ensures { Reads self.now.text.now self.now.depth (more tree_.right (rule.operator_in (k.And ∷ [])) rule.comparison) at result }
    {
        many(
            self.alloc,
            self.text,
            at,
            Due::Operator,
            &[Look::And],
            |at|
                requires { N.reads self.now.nested self.now.depth }
            {
                let (operator, at) = self.operator_in(at, &[Look::And])?;
                let (operand, at) = self.comparison(at)?;
                let operand = operand.into_inner();
                Ok((Right { operator, operand }, at))
            },
        )
    }

    /// AndExpr (XQuery 1.0, production 47).
    #[tactic(auto, unfolding(xq_ast::specs::Operators::conjunction))]
    fn conjunction(&self, at: usize) -> Result<(Boxed<Tree>, usize), ParseFault>
        requires { N.reads self.now.nested self.now.depth }
        ensures { Reads self.now.text.now self.now.depth rule.conjunction at result }
    {
        let offset = place(self.text, at) as u64;
        let (first, at) = self.comparison(at)?;
        let (more, at) = self.more_comparisons(at)?;
        Ok((chained(self.alloc, offset, first, more)?, at))
    }

    /// Operands of `or`, each behind its operator.
    fn more_conjunctions(&self, at: usize) -> Result<(Rights, usize), ParseFault>
        requires { N.reads self.now.nested self.now.depth }
        ensures { Reads self.now.text.now self.now.depth (more tree_.right (rule.operator_in (k.Or ∷ [])) rule.conjunction) at result }
    {
        many(
            self.alloc,
            self.text,
            at,
            Due::Operator,
            &[Look::Or],
            |at|
                requires { N.reads self.now.nested self.now.depth }
            {
                let (operator, at) = self.operator_in(at, &[Look::Or])?;
                let (operand, at) = self.conjunction(at)?;
                let operand = operand.into_inner();
                Ok((Right { operator, operand }, at))
            },
        )
    }

    /// The top of the levels of operators (XQuery 1.0, production 46).
    #[tactic(auto, unfolding(xq_ast::specs::Operators::disjunction))]
    pub fn disjunction(&self, at: usize) -> Result<(Boxed<Tree>, usize), ParseFault>
        requires { N.reads self.now.nested self.now.depth }
        ensures { Reads self.now.text.now self.now.depth rule.disjunction at result }
    {
        let offset = place(self.text, at) as u64;
        let (first, at) = self.conjunction(at)?;
        let (more, at) = self.more_conjunctions(at)?;
        Ok((chained(self.alloc, offset, first, more)?, at))
    }
}

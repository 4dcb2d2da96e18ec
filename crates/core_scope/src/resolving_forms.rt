//! The resolved forms of expressions without binds, steps and constructors.
ghost use Rattle.std.specs.Prelude.{◌≡◌, ℕ, IfOk, OnOk, length, map};
ghost use Rattle.doc_table.specs.OtherTexts.{Grows};
ghost use Rattle.core_scope.specs.Matching as fits;
ghost use Rattle.core_scope.specs.Matching.{NodeStands};
ghost use Rattle.core_scope.specs.Names.{function_of};
ghost use Rattle.core_scope.specs.Open.{open_in};
ghost use Rattle.core_scope.specs.Resolving.{callee_or_first};
ghost use Rattle.core_scope.specs.Standing.{Lasting};
ghost use Rattle.xq_ast.specs.declared.node.Node.TheVariants as n;

use crate::bindings::Bindings;
use crate::leaves::{callee, cast_kind, seq_type};
use crate::resolving::{Inner, Read, Resolved, Resolver};
use sqlite_items::{Boxed, Items};
use xq_ast::leaf::{Callee, Name, ReadType};
use xq_ast::node::{Node, Right, Signed};
use xq_base::{Pool, Want};

impl<'s, 'a, N: Inner<'a>> Resolver<'s, 'a, N> {
    /// Expressions with commas.
    #[tactic(auto, using(crate::proofs::Forming::comma_stands))]
    pub fn comma(
        &self,
        offset: u64,
        first: &'a Boxed<Read>,
        more: &'a [Read],
        names: &mut Bindings<'a>,
        pool: &mut Pool,
    ) -> Result<Resolved, Want>
        requires { N.resolves self.now.inner self.now.depth }
        ensures stands { IfOk result (λ r. NodeStands self.now.functions.now (open_in names.old) (n.Comma offset first.now more.now) pool.new r) }
        ensures keeps { Grows pool.old pool.new }
        ensures names { OnOk result (open_in names.new ≡ open_in names.old) }
    {
        let first = self.boxed(first, names, pool)?;
        let more = self.all(more, names, pool)?;
        Ok(Node::Comma(offset, first, more))
    }

    /// `if`, `then`, `else`.
    #[tactic(auto, using(crate::proofs::Forming::if_stands))]
    pub fn conditional(
        &self,
        offset: u64,
        condition: &'a Boxed<Read>,
        first: &'a Boxed<Read>,
        second: &'a Boxed<Read>,
        names: &mut Bindings<'a>,
        pool: &mut Pool,
    ) -> Result<Resolved, Want>
        requires { N.resolves self.now.inner self.now.depth }
        ensures stands { IfOk result (λ r. NodeStands self.now.functions.now (open_in names.old) (n.If offset condition.now first.now second.now) pool.new r) }
        ensures keeps { Grows pool.old pool.new }
        ensures names { OnOk result (open_in names.new ≡ open_in names.old) }
    {
        let condition = self.boxed(condition, names, pool)?;
        let first = self.boxed(first, names, pool)?;
        let second = self.boxed(second, names, pool)?;
        Ok(Node::If(offset, condition, first, second))
    }

    /// Operands behind operators.
    pub fn rights(
        &self,
        rights: &'a [Right<Read>],
        names: &mut Bindings<'a>,
        pool: &mut Pool,
    ) -> Result<Items<Right<Resolved>>, Want>
        requires { N.resolves self.now.inner self.now.depth }
        ensures stands { IfOk result (λ rs. Lasting pool.new (λ later. map (fits.right_in later) rs ≡ map (fits.right_for self.now.functions.now (open_in names.old)) rights.now)) }
        ensures keeps { Grows pool.old pool.new }
        ensures names { OnOk result (open_in names.new ≡ open_in names.old) }
    {
        let mut found = Items::new(self.alloc);
        for right in rights {
            let operand = self
                .inner
                .resolve(&right.operand, self.functions, names, pool, self.depth)?;
            found.push(Right {
                operator: right.operator,
                operand,
            })?;
        }
        Ok(found)
    }

    /// A level of operators.
    #[tactic(auto, using(crate::proofs::Forming::chain_stands))]
    pub fn chain(
        &self,
        offset: u64,
        first: &'a Boxed<Read>,
        rights: &'a [Right<Read>],
        names: &mut Bindings<'a>,
        pool: &mut Pool,
    ) -> Result<Resolved, Want>
        requires { N.resolves self.now.inner self.now.depth }
        ensures stands { IfOk result (λ r. NodeStands self.now.functions.now (open_in names.old) (n.Chain offset first.now rights.now) pool.new r) }
        ensures keeps { Grows pool.old pool.new }
        ensures names { OnOk result (open_in names.new ≡ open_in names.old) }
    {
        let first = self.boxed(first, names, pool)?;
        let rights = self.rights(rights, names, pool)?;
        Ok(Node::Chain(offset, first, rights))
    }

    /// An operand behind signs.
    #[tactic(auto, using(crate::proofs::Forming::signed_stands))]
    pub fn signed(
        &self,
        offset: u64,
        signs: &[Signed],
        operand: &'a Boxed<Read>,
        names: &mut Bindings<'a>,
        pool: &mut Pool,
    ) -> Result<Resolved, Want>
        requires { N.resolves self.now.inner self.now.depth }
        ensures stands { IfOk result (λ r. NodeStands self.now.functions.now (open_in names.old) (n.Signed offset signs.now operand.now) pool.new r) }
        ensures keeps { Grows pool.old pool.new }
        ensures names { OnOk result (open_in names.new ≡ open_in names.old) }
    {
        let operand = self.boxed(operand, names, pool)?;
        let signs = Items::from_slice(self.alloc, signs)?;
        Ok(Node::Signed(offset, signs, operand))
    }

    /// `instance of`.
    #[tactic(auto, using(crate::proofs::Forming::instance_stands))]
    pub fn instance(
        &self,
        offset: u64,
        operand: &'a Boxed<Read>,
        ty: &ReadType,
        names: &mut Bindings<'a>,
        pool: &mut Pool,
    ) -> Result<Resolved, Want>
        requires { N.resolves self.now.inner self.now.depth }
        ensures stands { IfOk result (λ r. NodeStands self.now.functions.now (open_in names.old) (n.Instance offset operand.now ty.now) pool.new r) }
        ensures keeps { Grows pool.old pool.new }
        ensures names { OnOk result (open_in names.new ≡ open_in names.old) }
    {
        let operand = self.boxed(operand, names, pool)?;
        let ty = seq_type(ty, pool)?;
        Ok(Node::Instance(offset, operand, ty))
    }

    /// `treat as`.
    #[tactic(auto, using(crate::proofs::Forming::treat_stands))]
    pub fn treat(
        &self,
        offset: u64,
        operand: &'a Boxed<Read>,
        ty: &ReadType,
        names: &mut Bindings<'a>,
        pool: &mut Pool,
    ) -> Result<Resolved, Want>
        requires { N.resolves self.now.inner self.now.depth }
        ensures stands { IfOk result (λ r. NodeStands self.now.functions.now (open_in names.old) (n.Treat offset operand.now ty.now) pool.new r) }
        ensures keeps { Grows pool.old pool.new }
        ensures names { OnOk result (open_in names.new ≡ open_in names.old) }
    {
        let operand = self.boxed(operand, names, pool)?;
        let ty = seq_type(ty, pool)?;
        Ok(Node::Treat(offset, operand, ty))
    }

    /// `castable as`.
    #[tactic(auto, using(crate::proofs::Forming::castable_stands))]
    pub fn castable(
        &self,
        offset: u64,
        operand: &'a Boxed<Read>,
        name: &Name<Items<u8>>,
        optional: bool,
        names: &mut Bindings<'a>,
        pool: &mut Pool,
    ) -> Result<Resolved, Want>
        requires { N.resolves self.now.inner self.now.depth }
        ensures stands { IfOk result (λ r. NodeStands self.now.functions.now (open_in names.old) (n.Castable offset operand.now name.now optional) pool.new r) }
        ensures keeps { Grows pool.old pool.new }
        ensures names { OnOk result (open_in names.new ≡ open_in names.old) }
    {
        let operand = self.boxed(operand, names, pool)?;
        Ok(Node::Castable(offset, operand, cast_kind(name.text.as_slice()), optional))
    }

    /// `cast as`.
    #[tactic(auto, using(crate::proofs::Forming::cast_stands))]
    pub fn cast(
        &self,
        offset: u64,
        operand: &'a Boxed<Read>,
        name: &Name<Items<u8>>,
        optional: bool,
        names: &mut Bindings<'a>,
        pool: &mut Pool,
    ) -> Result<Resolved, Want>
        requires { N.resolves self.now.inner self.now.depth }
        ensures stands { IfOk result (λ r. NodeStands self.now.functions.now (open_in names.old) (n.Cast offset operand.now name.now optional) pool.new r) }
        ensures keeps { Grows pool.old pool.new }
        ensures names { OnOk result (open_in names.new ≡ open_in names.old) }
    {
        let operand = self.boxed(operand, names, pool)?;
        Ok(Node::Cast(offset, operand, cast_kind(name.text.as_slice()), optional))
    }

    /// An expression in parentheses, or nothing.
    #[tactic(auto, using(crate::proofs::Forming::paren_stands))]
    pub fn paren(
        &self,
        offset: u64,
        inner: &'a Option<Boxed<Read>>,
        names: &mut Bindings<'a>,
        pool: &mut Pool,
    ) -> Result<Resolved, Want>
        requires { N.resolves self.now.inner self.now.depth }
        ensures stands { IfOk result (λ r. NodeStands self.now.functions.now (open_in names.old) (n.Paren offset inner.now) pool.new r) }
        ensures keeps { Grows pool.old pool.new }
        ensures names { OnOk result (open_in names.new ≡ open_in names.old) }
    {
        let inner = self.maybe(inner, names, pool)?;
        Ok(Node::Paren(offset, inner))
    }

    /// The function of a call.
    fn called(&self, name: &'a Name<Items<u8>>, arguments: &'a [Read]) -> Callee
        ensures { result ≡ callee_or_first (function_of self.now.functions.now name.now.text (length arguments.now)) }
    {
        callee(self.functions.get(name.text.as_slice(), arguments.len()))
    }

    /// A call of a function.
    #[tactic(auto, using(crate::proofs::Forming::call_stands))]
    pub fn call(
        &self,
        offset: u64,
        name: &'a Name<Items<u8>>,
        arguments: &'a [Read],
        names: &mut Bindings<'a>,
        pool: &mut Pool,
    ) -> Result<Resolved, Want>
        requires { N.resolves self.now.inner self.now.depth }
        ensures stands { IfOk result (λ r. NodeStands self.now.functions.now (open_in names.old) (n.Call offset name.now arguments.now) pool.new r) }
        ensures keeps { Grows pool.old pool.new }
        ensures names { OnOk result (open_in names.new ≡ open_in names.old) }
    {
        let function = self.called(name, arguments);
        let arguments = self.all(arguments, names, pool)?;
        Ok(Node::Call(offset, function, arguments))
    }
}

//! The resolved forms of expressions with binds.
ghost use Rattle.std.specs.Prelude.{◌≡◌, ℕ, IfOk, OnOk, map};
ghost use Rattle.doc_table.specs.OtherTexts.{Grows};
ghost use Rattle.core_scope.specs.Matching as fits;
ghost use Rattle.core_scope.specs.Matching.{NodeStands};
ghost use Rattle.core_scope.specs.Open as opens;
ghost use Rattle.core_scope.specs.Open.{open_in};
ghost use Rattle.core_scope.specs.Standing.{Lasting};
ghost use Rattle.core_scope.specs.Telling.{entered_clause, entered_clauses, entered_for, entered_fors, entered_lets, entered_quants};
ghost use Rattle.xq_ast.specs.declared.node.Node.TheVariants as n;

use crate::bindings::Bindings;
use crate::leaves::{position, seq_types, variable};
use crate::resolving::{Inner, Read, Resolved, Resolver};
use sqlite_items::{Boxed, Items};
use xq_ast::leaf::{Name, Quantifier, ReadType, SeqType};
use xq_ast::node::{Clause, ForBind, Key, LetBind, Node, QuantBind};
use xq_base::{Pool, Want};

impl<'s, 'a, N: Inner<'a>> Resolver<'s, 'a, N> {
    /// A `for` bind, which is entered.
    fn for_bind(
        &self,
        bind: &'a ForBind<Name<Items<u8>>, ReadType, Read>,
        names: &mut Bindings<'a>,
        pool: &mut Pool,
    ) -> Result<ForBind<u32, SeqType, Resolved>, Want>
        requires { N.resolves self.now.inner self.now.depth }
        ensures stands { IfOk result (λ b. Lasting pool.new (λ later. fits.for_in later b ≡ fits.for_for self.now.functions.now (open_in names.old) bind.now)) }
        ensures keeps { Grows pool.old pool.new }
        ensures names { OnOk result (open_in names.new ≡ entered_for bind.now (open_in names.old)) }
    {
        let var = variable(&bind.var)?;
        let at = position(&bind.at)?;
        let ty = seq_types(&bind.ty, pool)?;
        let source = self.boxed(&bind.source, names, pool)?;
        names.enter_maybe(&bind.at)?;
        names.enter_variable(&bind.var)?;
        Ok(ForBind {
            var,
            ty,
            at,
            source,
        })
    }

    /// `for` binds, which are entered.
    fn fors(
        &self,
        fors: &'a [ForBind<Name<Items<u8>>, ReadType, Read>],
        names: &mut Bindings<'a>,
        pool: &mut Pool,
    ) -> Result<Items<ForBind<u32, SeqType, Resolved>>, Want>
        requires { N.resolves self.now.inner self.now.depth }
        ensures stands { IfOk result (λ found. Lasting pool.new (λ later. map (fits.for_in later) found ≡ fits.fors_for self.now.functions.now (open_in names.old) fors.now)) }
        ensures keeps { Grows pool.old pool.new }
        ensures names { OnOk result (open_in names.new ≡ entered_fors fors.now (open_in names.old)) }
    {
        let mut found = Items::new(self.alloc);
        for bind in fors {
            let one = self.for_bind(bind, names, pool)?;
            found.push(one)?;
        }
        Ok(found)
    }

    /// A `let` bind, which is entered.
    fn let_bind(
        &self,
        bind: &'a LetBind<Name<Items<u8>>, ReadType, Read>,
        names: &mut Bindings<'a>,
        pool: &mut Pool,
    ) -> Result<LetBind<u32, SeqType, Resolved>, Want>
        requires { N.resolves self.now.inner self.now.depth }
        ensures stands { IfOk result (λ b. Lasting pool.new (λ later. fits.let_in later b ≡ fits.let_for self.now.functions.now (open_in names.old) bind.now)) }
        ensures keeps { Grows pool.old pool.new }
        ensures names { OnOk result (open_in names.new ≡ opens.entered_variable bind.now.var (open_in names.old)) }
    {
        let var = variable(&bind.var)?;
        let ty = seq_types(&bind.ty, pool)?;
        let value = self.boxed(&bind.value, names, pool)?;
        names.enter_variable(&bind.var)?;
        Ok(LetBind { var, ty, value })
    }

    /// `let` binds, which are entered.
    fn lets(
        &self,
        lets: &'a [LetBind<Name<Items<u8>>, ReadType, Read>],
        names: &mut Bindings<'a>,
        pool: &mut Pool,
    ) -> Result<Items<LetBind<u32, SeqType, Resolved>>, Want>
        requires { N.resolves self.now.inner self.now.depth }
        ensures stands { IfOk result (λ found. Lasting pool.new (λ later. map (fits.let_in later) found ≡ fits.lets_for self.now.functions.now (open_in names.old) lets.now)) }
        ensures keeps { Grows pool.old pool.new }
        ensures names { OnOk result (open_in names.new ≡ entered_lets lets.now (open_in names.old)) }
    {
        let mut found = Items::new(self.alloc);
        for bind in lets {
            let one = self.let_bind(bind, names, pool)?;
            found.push(one)?;
        }
        Ok(found)
    }

    /// A clause, whose binds are entered.
    fn clause(
        &self,
        clause: &'a Clause<Name<Items<u8>>, ReadType, Read>,
        names: &mut Bindings<'a>,
        pool: &mut Pool,
    ) -> Result<Clause<u32, SeqType, Resolved>, Want>
        requires { N.resolves self.now.inner self.now.depth }
        ensures stands { IfOk result (λ c. Lasting pool.new (λ later. fits.clause_in later c ≡ fits.clause_for self.now.functions.now (open_in names.old) clause.now)) }
        ensures keeps { Grows pool.old pool.new }
        ensures names { OnOk result (open_in names.new ≡ entered_clause clause.now (open_in names.old)) }
    {
        match clause {
            Clause::For(binds) => {
                let binds = self.fors(binds.as_slice(), names, pool)?;
                Ok(Clause::For(binds))
            }
            Clause::Let(binds) => {
                let binds = self.lets(binds.as_slice(), names, pool)?;
                Ok(Clause::Let(binds))
            }
        }
    }

    /// Clauses, whose binds are entered.
    fn clauses(
        &self,
        clauses: &'a [Clause<Name<Items<u8>>, ReadType, Read>],
        names: &mut Bindings<'a>,
        pool: &mut Pool,
    ) -> Result<Items<Clause<u32, SeqType, Resolved>>, Want>
        requires { N.resolves self.now.inner self.now.depth }
        ensures stands { IfOk result (λ found. Lasting pool.new (λ later. map (fits.clause_in later) found ≡ fits.clauses_for self.now.functions.now (open_in names.old) clauses.now)) }
        ensures keeps { Grows pool.old pool.new }
        ensures names { OnOk result (open_in names.new ≡ entered_clauses clauses.now (open_in names.old)) }
    {
        let mut found = Items::new(self.alloc);
        for clause in clauses {
            let one = self.clause(clause, names, pool)?;
            found.push(one)?;
        }
        Ok(found)
    }

    /// Keys.
    fn keys(
        &self,
        keys: &'a [Key<Read>],
        names: &mut Bindings<'a>,
        pool: &mut Pool,
    ) -> Result<Items<Key<Resolved>>, Want>
        requires { N.resolves self.now.inner self.now.depth }
        ensures stands { IfOk result (λ found. Lasting pool.new (λ later. map (fits.key_in later) found ≡ map (fits.key_for self.now.functions.now (open_in names.old)) keys.now)) }
        ensures keeps { Grows pool.old pool.new }
        ensures names { OnOk result (open_in names.new ≡ open_in names.old) }
    {
        let mut found = Items::new(self.alloc);
        for key in keys {
            let one = self.boxed(&key.key, names, pool)?;
            found.push(Key {
                key: one,
                descending: key.descending,
                empty_greatest: key.empty_greatest,
            })?;
        }
        Ok(found)
    }

    /// Clauses, condition, keys, result.
    pub fn flwor(
        &self,
        offset: u64,
        clauses: &'a [Clause<Name<Items<u8>>, ReadType, Read>],
        condition: &'a Option<Boxed<Read>>,
        keys: &'a [Key<Read>],
        body: &'a Boxed<Read>,
        names: &mut Bindings<'a>,
        pool: &mut Pool,
    ) -> Result<Resolved, Want>
        requires { N.resolves self.now.inner self.now.depth }
        ensures stands { IfOk result (λ r. NodeStands self.now.functions.now (open_in names.old) (n.Flwor offset clauses.now condition.now keys.now body.now) pool.new r) }
        ensures keeps { Grows pool.old pool.new }
        ensures names { OnOk result (open_in names.new ≡ open_in names.old) }
    {
        let mark = names.depth();
        let clauses = self.clauses(clauses, names, pool)?;
        let condition = self.maybe(condition, names, pool)?;
        let keys = self.keys(keys, names, pool)?;
        let body = self.boxed(body, names, pool)?;
        names.leave_to(mark)?;
        Ok(Node::Flwor(offset, clauses, condition, keys, body))
    }

    /// A quantifier's bind, which is entered.
    fn quant_bind(
        &self,
        bind: &'a QuantBind<Name<Items<u8>>, ReadType, Read>,
        names: &mut Bindings<'a>,
        pool: &mut Pool,
    ) -> Result<QuantBind<u32, SeqType, Resolved>, Want>
        requires { N.resolves self.now.inner self.now.depth }
        ensures stands { IfOk result (λ b. Lasting pool.new (λ later. fits.quant_in later b ≡ fits.quant_for self.now.functions.now (open_in names.old) bind.now)) }
        ensures keeps { Grows pool.old pool.new }
        ensures names { OnOk result (open_in names.new ≡ opens.entered_variable bind.now.var (open_in names.old)) }
    {
        let var = variable(&bind.var)?;
        let ty = seq_types(&bind.ty, pool)?;
        let source = self.boxed(&bind.source, names, pool)?;
        names.enter_variable(&bind.var)?;
        Ok(QuantBind { var, ty, source })
    }

    /// A quantifier's binds, which are entered.
    fn quants(
        &self,
        quants: &'a [QuantBind<Name<Items<u8>>, ReadType, Read>],
        names: &mut Bindings<'a>,
        pool: &mut Pool,
    ) -> Result<Items<QuantBind<u32, SeqType, Resolved>>, Want>
        requires { N.resolves self.now.inner self.now.depth }
        ensures stands { IfOk result (λ found. Lasting pool.new (λ later. map (fits.quant_in later) found ≡ fits.quants_for self.now.functions.now (open_in names.old) quants.now)) }
        ensures keeps { Grows pool.old pool.new }
        ensures names { OnOk result (open_in names.new ≡ entered_quants quants.now (open_in names.old)) }
    {
        let mut found = Items::new(self.alloc);
        for bind in quants {
            let one = self.quant_bind(bind, names, pool)?;
            found.push(one)?;
        }
        Ok(found)
    }

    /// `some` or `every`.
    pub fn quantified(
        &self,
        offset: u64,
        quantifier: Quantifier,
        binds: &'a [QuantBind<Name<Items<u8>>, ReadType, Read>],
        body: &'a Boxed<Read>,
        names: &mut Bindings<'a>,
        pool: &mut Pool,
    ) -> Result<Resolved, Want>
        requires { N.resolves self.now.inner self.now.depth }
        ensures stands { IfOk result (λ r. NodeStands self.now.functions.now (open_in names.old) (n.Quantified offset quantifier binds.now body.now) pool.new r) }
        ensures keeps { Grows pool.old pool.new }
        ensures names { OnOk result (open_in names.new ≡ open_in names.old) }
    {
        let mark = names.depth();
        let binds = self.quants(binds, names, pool)?;
        let body = self.boxed(body, names, pool)?;
        names.leave_to(mark)?;
        Ok(Node::Quantified(offset, quantifier, binds, body))
    }
}

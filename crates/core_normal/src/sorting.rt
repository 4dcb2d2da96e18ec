//! The Core of loops with keys (Formal Semantics, section 4.8.4), and of all FLWORs.
ghost use Rattle.std.specs.Prelude.{◌≡◌, IfOk};
ghost use Rattle.core_meaning.specs.Erasure.{Texts, core_of, plain_bind, plain_key};
ghost use Rattle.core_meaning.specs.PlainCore as c;
ghost use Rattle.core_scope.specs.Leaves.{syn_resolved};
ghost use Rattle.core_scope.specs.Syn as s;
ghost use Rattle.core_normal.specs.Held.{type_in};
ghost use Rattle.core_normal.specs.Making.{Makes_, Norms};
ghost use Rattle.core_normal.specs.Pieces as pieces;
ghost use Rattle.core_normal.specs.Rows as rows;
ghost use Rattle.core_normal.specs.Sorting.{keys_in, leading, normed_by_keys, normed_key, normed_keyed, normed_keys, normed_sorted, normed_where, parts_in};
ghost use Rattle.core_normal.specs.Trees as trees;
ghost use Rattle.core_normal.specs.Turned.{turn_of};

use crate::bind_refs::{BindRef, flwor_refs};
use crate::binds::Turned;
use crate::bodies::{State, Tree};
use crate::loops::{enter, leave};
use crate::make::sorted;
use crate::maker::{Maker, Nested};
use crate::pieces::{Context, boolean, typed};
use crate::places::place;
use core_meaning::{Bind, Core, SeqType, SortKey, VarId};
use sqlite_items::{Boxed, Items};
use std::alloc::Global;
use xq_ast::leaf;
use xq_ast::node::{Clause, Key};
use xq_base::Want;

/// What stands inside all binds of a loop with keys: the condition, the keys and the result.
#[derive(Clone, Copy)]
pub struct Keyed<'q> {
    pub condition: &'q Option<Boxed<Tree>>,
    pub keys: &'q [Key<Tree>],
    pub body: &'q Tree,
}

/// A loop with keys in its parts.
#[derive(Drop)]
pub struct Parted {
    pub binds: Items<Bind>,
    pub keys: Items<SortKey>,
    pub body: Core,
}

/// A bind of `let` in a loop with keys.
fn let_bind(alloc: Global, x: u32, value: Core) -> Result<Bind, Want>
    ensures { IfOk result (λ b. (t : Texts) → plain_bind t b ≡ c.let_bind x (core_of t value)) }
{
    let value = Boxed::new(alloc, value)?;
    Ok(Bind::Let(VarId(x), value))
}

/// A bind of a loop in a loop with keys.
fn for_bind(alloc: Global, x: u32, place: u32, value: Core) -> Result<Bind, Want>
    ensures { IfOk result (λ b. (t : Texts) → plain_bind t b ≡ c.for_bind x place (core_of t value)) }
{
    let seq = Boxed::new(alloc, value)?;
    let (var, pos) = (VarId(x), VarId(place));
    Ok(Bind::For { var, pos, seq })
}

/// The condition of a loop with keys.
fn where_bind(alloc: Global, condition: Core) -> Result<Bind, Want>
    ensures { IfOk result (λ b. (t : Texts) → plain_bind t b ≡ c.where_bind (core_of t condition)) }
{
    let condition = Boxed::new(alloc, condition)?;
    Ok(Bind::Where(condition))
}

/// A key over its value.
fn key_of(
    alloc: Global,
    value: Core,
    descending: bool,
    empty_greatest: bool,
) -> Result<SortKey, Want>
    ensures { IfOk result (λ k. (t : Texts) → plain_key t k ≡ c.key_by (core_of t value) descending empty_greatest) }
{
    let key = Boxed::new(alloc, value)?;
    Ok(SortKey {
        key,
        descending,
        empty_greatest,
    })
}

/// A bind over its value: of a loop where there is a variable of its places, else of `let`.
fn headed(alloc: Global, pos: Option<u32>, y: u32, value: Core) -> Result<Bind, Want>
    ensures { IfOk result (λ b. (t : Texts) → plain_bind t b ≡ rows.bind_of pos y (core_of t value)) }
{
    match pos {
        None => {
            let bind = let_bind(alloc, y, value)?;
            Ok(bind)
        }
        Some(place) => {
            let bind = for_bind(alloc, y, place, value)?;
            Ok(bind)
        }
    }
}

/// The test of a bind's type, behind binds that were made.
fn with_test(
    alloc: Global,
    offset: u64,
    ty: Option<SeqType>,
    y: u32,
    x: u32,
    mut binds: Items<Bind>,
) -> Result<Items<Bind>, Want>
    ensures { IfOk result (λ all. (t : Texts) (more : c.Binds) → leading t all more ≡ leading t binds (pieces.tested_bind offset (type_in t ty) y x more)) }
{
    match ty {
        None => Ok(binds),
        Some(ty) => {
            let value = typed(alloc, offset, y, ty)?;
            let test = let_bind(alloc, x, value)?;
            binds.push(test)?;
            Ok(binds)
        }
    }
}

/// A bind that was made, behind others.
fn behind(alloc: Global, turned: Turned, mut binds: Items<Bind>) -> Result<Items<Bind>, Want>
    ensures { IfOk result (λ all. (t : Texts) (more : c.Binds) → leading t all more ≡ leading t binds (rows.bind_turn (turn_of t turned) more)) }
{
    let Turned {
        pos,
        y,
        x,
        ty,
        place,
        seq,
    } = turned;
    let bind = headed(alloc, pos, y, seq)?;
    binds.push(bind)?;
    let all = with_test(alloc, place, ty, y, x, binds)?;
    Ok(all)
}

/// A condition that was made, behind binds.
fn with_condition(
    alloc: Global,
    condition: Core,
    mut binds: Items<Bind>,
) -> Result<Items<Bind>, Want>
    ensures { IfOk result (λ all. (t : Texts) (more : c.Binds) → leading t all more ≡ leading t binds (c.one_bind (c.where_bind (core_of t condition)) more)) }
{
    let bind = where_bind(alloc, condition)?;
    binds.push(bind)?;
    Ok(binds)
}

impl<'q, N: Nested> Maker<'q, N> {
    /// The condition of a loop with keys, behind its binds.
    fn with_where(
        &self,
        condition: &Option<Boxed<Tree>>,
        binds: Items<Bind>,
        state: &mut State,
        focus: Option<Context>,
    ) -> Result<Items<Bind>, Want>
        requires { N.norms self.now.nested self.now.levels }
        ensures { Makes_ leading self.now.bodies.now state.old focus (normed_where self.now.bodies.now (λ t. trees.maybe t condition.now) (λ t. leading t binds)) result state.new }
    {
        match condition {
            None => Ok(binds),
            Some(w) => {
                let inner = w.get();
                let test = self.expr(inner, state, focus)?;
                let truth = boolean(self.alloc, place(inner), test)?;
                let all = with_condition(self.alloc, truth, binds)?;
                Ok(all)
            }
        }
    }

    /// A key (XQuery 1.0, section 3.8.3).
    fn sort_key(
        &self,
        key: &Key<Tree>,
        state: &mut State,
        focus: Option<Context>,
    ) -> Result<SortKey, Want>
        requires { N.norms self.now.nested self.now.levels }
        ensures { Makes_ plain_key self.now.bodies.now state.old focus (normed_key self.now.bodies.now key.now) result state.new }
    {
        let inner = key.key.get();
        let value = self.expr(inner, state, focus)?;
        let made = key_of(self.alloc, value, key.descending, key.empty_greatest)?;
        Ok(made)
    }

    /// The keys of a loop.
    fn sort_keys(
        &self,
        keys: &[Key<Tree>],
        state: &mut State,
        focus: Option<Context>,
    ) -> Result<Items<SortKey>, Want>
        requires { N.norms self.now.nested self.now.levels }
        ensures { Makes_ keys_in self.now.bodies.now state.old focus (normed_keys self.now.bodies.now keys.now) result state.new }
    {
        let mut made = Items::new(self.alloc);
        for key in keys {
            let one = self.sort_key(key, state, focus)?;
            made.push(one)?;
        }
        Ok(made)
    }

    /// What stands inside all binds, behind them.
    fn keyed(
        &self,
        inside: &Keyed<'_>,
        binds: Items<Bind>,
        state: &mut State,
        focus: Option<Context>,
    ) -> Result<Parted, Want>
        requires { N.norms self.now.nested self.now.levels }
        ensures { Makes_ parts_in self.now.bodies.now state.old focus (normed_keyed self.now.bodies.now inside.now (λ t. leading t binds)) result state.new }
    {
        let all = self.with_where(inside.condition, binds, state, focus)?;
        let keys = self.sort_keys(inside.keys, state, focus)?;
        let body = self.expr(inside.body, state, focus)?;
        Ok(Parted {
            binds: all,
            keys,
            body,
        })
    }

    /// Binds behind those that were made, round what stands inside them.
    fn sort(
        &self,
        refs: &[BindRef<'_>],
        inside: &Keyed<'_>,
        binds: Items<Bind>,
        state: &mut State,
        focus: Option<Context>,
    ) -> Result<Parted, Want>
        requires { N.norms self.now.nested self.now.levels }
        ensures { Makes_ parts_in self.now.bodies.now state.old focus (normed_sorted self.now.bodies.now refs.now inside.now (λ t. leading t binds)) result state.new }
    {
        match refs.split_first() {
            None => {
                let parts = self.keyed(inside, binds, state, focus)?;
                Ok(parts)
            }
            Some((bind, rest)) => {
                let turned = self.turned(bind, state, focus)?;
                let (x, pos) = (turned.x, turned.pos);
                let before = enter(bind, x, pos, state)?;
                let more = behind(self.alloc, turned, binds)?;
                let parts = self.sort(rest, inside, more, state, focus)?;
                leave(bind, pos, before, state)?;
                Ok(parts)
            }
        }
    }

    /// A FLWOR with keys (XQuery 1.0, section 3.8.3).
    fn sorted_flwor(
        &self,
        offset: u64,
        clauses: &[Clause<u32, leaf::SeqType, Tree>],
        inside: &Keyed<'_>,
        state: &mut State,
        focus: Option<Context>,
    ) -> Result<Core, Want>
        requires { N.norms self.now.nested self.now.levels }
        ensures { Makes_ core_of self.now.bodies.now state.old focus (normed_by_keys self.now.bodies.now offset (λ t. trees.clauses t clauses.now) inside.now.condition.now inside.now.keys.now inside.now.body.now) result state.new }
    {
        let refs = flwor_refs(self.alloc, clauses)?;
        let all = refs.as_slice();
        let none = Items::new(self.alloc);
        let parts = self.sort(all, inside, none, state, focus)?;
        let Parted { binds, keys, body } = parts;
        let core = sorted(self.alloc, offset, binds, keys, body)?;
        Ok(core)
    }

    /// A FLWOR, with keys or without (XQuery 1.0, section 3.8).
    ///
    /// Errors: `Want`, where memory is wanting or the number of a variable passes 32 bits.
    pub fn loops(
        &self,
        offset: u64,
        clauses: &[Clause<u32, leaf::SeqType, Tree>],
        condition: &Option<Boxed<Tree>>,
        keys: &[Key<Tree>],
        e: &Tree,
        state: &mut State,
        focus: Option<Context>,
    ) -> Result<Core, Want>
        requires { N.norms self.now.nested self.now.levels }
        ensures { Norms self.now.bodies.now state.old focus (λ t. s.flwor offset (trees.clauses t clauses.now) (trees.maybe t condition.now) (trees.keys t keys.now) (syn_resolved t e.now)) result state.new }
    {
        match keys {
            [] => {
                let core = self.flwor(offset, clauses, condition, e, state, focus)?;
                Ok(core)
            }
            [_, ..] => {
                let inside = Keyed {
                    condition,
                    keys,
                    body: e,
                };
                let core = self.sorted_flwor(offset, clauses, &inside, state, focus)?;
                Ok(core)
            }
        }
    }
}

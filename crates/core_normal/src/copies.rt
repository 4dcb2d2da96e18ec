//! Copies of Cores with their new variables moved.
ghost use Rattle.std.specs.Prelude.{◌≡◌, ℕ, IfOk, map};
ghost use Rattle.core_meaning.specs.Erasure.{Texts, binds_of, core_of, cores_of, keys_of, node_kind, plain_bind, plain_key, sequence_test, test_in};
ghost use Rattle.core_meaning.specs.PlainCore as c;
ghost use Rattle.core_normal.specs.Copying.{Copies, IsMoved, Moves, bind_moved, key_moved, name_in};
ghost use Rattle.core_normal.specs.Pieces.{one};
ghost use Rattle.core_normal.specs.Shift as shift;

use crate::make::{
    both, build_named, build_plain, called, cast, castable, choice, convert, empty, fail, for_each,
    instance, let_be, literal, sorted, step, treat, var,
};
use core_meaning::{Bind, BuildKind, Core, CoreKind, SeqType, SortKey, StepFrom, VarId};
use sqlite_items::{Boxed, Items};
use std::alloc::Global;
use xq_base::{AtomKind, Axis, Fun, NodeTest, Want};

/// Where the new variables begin, and by how much they move.
#[derive(Clone, Copy, Debug, PartialEq, Eq)]
pub struct Moving {
    pub base: u32,
    pub by: u32,
}

/// A variable, moved where it is new.
///
/// Errors: `Want`, where its number passes 32 bits.
#[tactic(auto, unfolding(crate::specs::Shift::moved))]
pub fn variable(x: u32, moving: Moving) -> Result<u32, Want>
    ensures { IfOk result (λ y. y ≡ shift.moved moving.base moving.by x) }
{
    if x < moving.base {
        return Ok(x);
    }
    match moving.by.checked_add(x) {
        None => Err(Want),
        Some(y) => Ok(y),
    }
}

/// A bind of a loop over what was copied.
fn for_bind(alloc: Global, moving: Moving, vars: (VarId, VarId), seq: Core) -> Result<Bind, Want>
    ensures { IfOk result (λ r. (t : Texts) → plain_bind t r ≡ c.for_bind (shift.moved moving.base moving.by vars.0.0) (shift.moved moving.base moving.by vars.1.0) (core_of t seq)) }
{
    let x = variable(vars.0.0, moving)?;
    let place = variable(vars.1.0, moving)?;
    let seq = Boxed::new(alloc, seq)?;
    Ok(Bind::For {
        var: VarId(x),
        pos: VarId(place),
        seq,
    })
}

/// A bind of a value that was copied.
fn let_bind(alloc: Global, moving: Moving, x: VarId, value: Core) -> Result<Bind, Want>
    ensures { IfOk result (λ r. (t : Texts) → plain_bind t r ≡ c.let_bind (shift.moved moving.base moving.by x.0) (core_of t value)) }
{
    let x = variable(x.0, moving)?;
    let value = Boxed::new(alloc, value)?;
    Ok(Bind::Let(VarId(x), value))
}

/// A condition that was copied.
fn where_bind(alloc: Global, condition: Core) -> Result<Bind, Want>
    ensures { IfOk result (λ r. (t : Texts) → plain_bind t r ≡ c.where_bind (core_of t condition)) }
{
    let condition = Boxed::new(alloc, condition)?;
    Ok(Bind::Where(condition))
}

/// A key that was copied.
fn key_by(alloc: Global, key: Core, descending: bool, empty_greatest: bool) -> Result<SortKey, Want>
    ensures { IfOk result (λ r. (t : Texts) → plain_key t r ≡ c.key_by (core_of t key) descending empty_greatest) }
{
    let key = Boxed::new(alloc, key)?;
    Ok(SortKey {
        key,
        descending,
        empty_greatest,
    })
}

/// The most levels of a Core within the limits.
pub const MAX_LEVELS: u32 = 4_096;

/// How a part of a Core is copied, at so many levels.
pub trait Part: Copy {
    ghost copies: { Self → ℕ → Type 0 };

    fn copy(self, alloc: Global, core: &Core, moving: Moving, levels: u32) -> Result<Core, Want>
        requires { copies self levels }
        ensures { IsMoved moving core.now result };
}

/// The copying of a Core: its rules are methods, and its parts are copied by a parameter, so that each rule is
/// proved by itself.
#[derive(Clone, Copy)]
struct Copier<N> {
    alloc: Global,
    moving: Moving,
    /// How many levels the parts may have.
    levels: u32,
    nested: N,
}

impl<N: Part> Copier<N> {
    fn part(&self, core: &Core) -> Result<Core, Want>
        requires { N.copies self.now.nested self.now.levels }
        ensures { IsMoved self.now.moving core.now result }
    {
        self.nested.copy(self.alloc, core, self.moving, self.levels)
    }

    fn var(&self, offset: u64, x: VarId) -> Result<Core, Want>
        ensures { Moves self.now.moving (λ t. c.Var offset x.0) result }
    {
        let y = variable(x.0, self.moving)?;
        Ok(var(offset, y))
    }

    fn seq(&self, offset: u64, a: &Core, b: &Core) -> Result<Core, Want>
        requires { N.copies self.now.nested self.now.levels }
        ensures { Moves self.now.moving (λ t. c.Seq offset (core_of t a.now) (core_of t b.now)) result }
    {
        let first = self.part(a)?;
        let second = self.part(b)?;
        let copy = both(self.alloc, offset, first, second)?;
        Ok(copy)
    }

    fn let_be(&self, offset: u64, x: VarId, a: &Core, b: &Core) -> Result<Core, Want>
        requires { N.copies self.now.nested self.now.levels }
        ensures { Moves self.now.moving (λ t. c.Let offset x.0 (core_of t a.now) (core_of t b.now)) result }
    {
        let y = variable(x.0, self.moving)?;
        let value = self.part(a)?;
        let body = self.part(b)?;
        let copy = let_be(self.alloc, offset, y, value, body)?;
        Ok(copy)
    }

    fn for_each(&self, offset: u64, vars: (VarId, VarId), a: &Core, b: &Core) -> Result<Core, Want>
        requires { N.copies self.now.nested self.now.levels }
        ensures { Moves self.now.moving (λ t. c.For offset vars.0.0 vars.1.0 (core_of t a.now) (core_of t b.now)) result }
    {
        let x = variable(vars.0.0, self.moving)?;
        let place = variable(vars.1.0, self.moving)?;
        let seq = self.part(a)?;
        let body = self.part(b)?;
        let copy = for_each(self.alloc, offset, x, place, seq, body)?;
        Ok(copy)
    }

    fn choice(&self, offset: u64, test: &Core, a: &Core, b: &Core) -> Result<Core, Want>
        requires { N.copies self.now.nested self.now.levels }
        ensures { Moves self.now.moving (λ t. c.If offset (core_of t test.now) (core_of t a.now) (core_of t b.now)) result }
    {
        let condition = self.part(test)?;
        let yes = self.part(a)?;
        let no = self.part(b)?;
        let copy = choice(self.alloc, offset, condition, yes, no)?;
        Ok(copy)
    }

    fn build_named(
        &self,
        offset: u64,
        what: BuildKind,
        name: &Core,
        content: &Core,
    ) -> Result<Core, Want>
        requires { N.copies self.now.nested self.now.levels }
        ensures { Moves self.now.moving (λ t. c.Build offset (node_kind what) (one (core_of t name.now)) (core_of t content.now)) result }
    {
        let called = self.part(name)?;
        let inside = self.part(content)?;
        let copy = build_named(self.alloc, offset, what, called, inside)?;
        Ok(copy)
    }

    fn build_plain(&self, offset: u64, what: BuildKind, a: &Core) -> Result<Core, Want>
        requires { N.copies self.now.nested self.now.levels }
        ensures { Moves self.now.moving (λ t. c.Build offset (node_kind what) c.no_cores (core_of t a.now)) result }
    {
        let part = self.part(a)?;
        let copy = build_plain(self.alloc, offset, what, part)?;
        Ok(copy)
    }

    /// A constructor, with a name or without one.
    fn build(
        &self,
        offset: u64,
        what: BuildKind,
        name: &Option<Boxed<Core>>,
        content: &Core,
    ) -> Result<Core, Want>
        requires { N.copies self.now.nested self.now.levels }
        ensures { Moves self.now.moving (λ t. c.Build offset (node_kind what) (name_in t name.now) (core_of t content.now)) result }
    {
        match name {
            Some(called) => self.build_named(offset, what, called.get(), content),
            None => self.build_plain(offset, what, content),
        }
    }

    fn step(&self, offset: u64, axis: (StepFrom, Axis, NodeTest), a: &Core) -> Result<Core, Want>
        requires { N.copies self.now.nested self.now.levels }
        ensures { Moves self.now.moving (λ t. c.Step offset axis.0 axis.1 (test_in t axis.2) (core_of t a.now)) result }
    {
        let part = self.part(a)?;
        let copy = step(self.alloc, offset, axis.0, axis.1, axis.2, part)?;
        Ok(copy)
    }

    fn instance(&self, offset: u64, a: &Core, ty: SeqType) -> Result<Core, Want>
        requires { N.copies self.now.nested self.now.levels }
        ensures { Moves self.now.moving (λ t. c.Instance offset (core_of t a.now) (sequence_test t ty)) result }
    {
        let part = self.part(a)?;
        let copy = instance(self.alloc, offset, part, ty)?;
        Ok(copy)
    }

    fn treat(&self, offset: u64, a: &Core, ty: SeqType) -> Result<Core, Want>
        requires { N.copies self.now.nested self.now.levels }
        ensures { Moves self.now.moving (λ t. c.Treat offset (core_of t a.now) (sequence_test t ty)) result }
    {
        let part = self.part(a)?;
        let copy = treat(self.alloc, offset, part, ty)?;
        Ok(copy)
    }

    fn convert(&self, offset: u64, a: &Core, ty: SeqType) -> Result<Core, Want>
        requires { N.copies self.now.nested self.now.levels }
        ensures { Moves self.now.moving (λ t. c.Convert offset (core_of t a.now) (sequence_test t ty)) result }
    {
        let part = self.part(a)?;
        let copy = convert(self.alloc, offset, part, ty)?;
        Ok(copy)
    }

    fn cast(&self, offset: u64, a: &Core, to: (AtomKind, bool)) -> Result<Core, Want>
        requires { N.copies self.now.nested self.now.levels }
        ensures { Moves self.now.moving (λ t. c.Cast offset (core_of t a.now) to.0 to.1) result }
    {
        let part = self.part(a)?;
        let copy = cast(self.alloc, offset, part, to.0, to.1)?;
        Ok(copy)
    }

    fn castable(&self, offset: u64, a: &Core, to: (AtomKind, bool)) -> Result<Core, Want>
        requires { N.copies self.now.nested self.now.levels }
        ensures { Moves self.now.moving (λ t. c.Castable offset (core_of t a.now) to.0 to.1) result }
    {
        let part = self.part(a)?;
        let copy = castable(self.alloc, offset, part, to.0, to.1)?;
        Ok(copy)
    }

    /// Some Cores.
    fn all(&self, cores: &[Core]) -> Result<Items<Core>, Want>
        requires { N.copies self.now.nested self.now.levels }
        ensures { IfOk result (λ rs. (t : Texts) → map (core_of t) rs ≡ map (λ x. shift.core self.now.moving.base self.now.moving.by (core_of t x)) cores.now) }
    {
        let mut copies = Items::new(self.alloc);
        for core in cores {
            let copy = self.part(core)?;
            copies.push(copy)?;
        }
        Ok(copies)
    }

    fn call(&self, offset: u64, fun: Fun, args: &[Core]) -> Result<Core, Want>
        requires { N.copies self.now.nested self.now.levels }
        ensures { Moves self.now.moving (λ t. c.Call offset fun (cores_of (map (core_of t) args.now))) result }
    {
        let copies = self.all(args)?;
        Ok(called(offset, fun, copies))
    }

    /// A bind of a sorted loop.
    fn bind(&self, bind: &Bind) -> Result<Bind, Want>
        requires { N.copies self.now.nested self.now.levels }
        ensures { IfOk result (λ r. (t : Texts) → plain_bind t r ≡ bind_moved self.now.moving.base self.now.moving.by (plain_bind t bind.now)) }
    {
        match bind {
            Bind::For { var, pos, seq } => {
                let value = self.part(seq.get())?;
                let copy = for_bind(self.alloc, self.moving, (*var, *pos), value)?;
                Ok(copy)
            }
            Bind::Let(x, value) => {
                let bound = self.part(value.get())?;
                let copy = let_bind(self.alloc, self.moving, *x, bound)?;
                Ok(copy)
            }
            Bind::Where(condition) => {
                let test = self.part(condition.get())?;
                let copy = where_bind(self.alloc, test)?;
                Ok(copy)
            }
        }
    }

    /// The binds of a sorted loop.
    fn binds(&self, binds: &[Bind]) -> Result<Items<Bind>, Want>
        requires { N.copies self.now.nested self.now.levels }
        ensures { IfOk result (λ rs. (t : Texts) → map (plain_bind t) rs ≡ map (λ x. bind_moved self.now.moving.base self.now.moving.by (plain_bind t x)) binds.now) }
    {
        let mut copies = Items::new(self.alloc);
        for bind in binds {
            let copy = self.bind(bind)?;
            copies.push(copy)?;
        }
        Ok(copies)
    }

    /// A key of a sorted loop.
    fn key(&self, key: &SortKey) -> Result<SortKey, Want>
        requires { N.copies self.now.nested self.now.levels }
        ensures { IfOk result (λ r. (t : Texts) → plain_key t r ≡ key_moved self.now.moving.base self.now.moving.by (plain_key t key.now)) }
    {
        let value = self.part(key.key.get())?;
        let copy = key_by(self.alloc, value, key.descending, key.empty_greatest)?;
        Ok(copy)
    }

    /// The keys of a sorted loop.
    fn keys(&self, keys: &[SortKey]) -> Result<Items<SortKey>, Want>
        requires { N.copies self.now.nested self.now.levels }
        ensures { IfOk result (λ rs. (t : Texts) → map (plain_key t) rs ≡ map (λ x. key_moved self.now.moving.base self.now.moving.by (plain_key t x)) keys.now) }
    {
        let mut copies = Items::new(self.alloc);
        for key in keys {
            let copy = self.key(key)?;
            copies.push(copy)?;
        }
        Ok(copies)
    }

    fn sorted(
        &self,
        offset: u64,
        binds: &[Bind],
        keys: &[SortKey],
        body: &Core,
    ) -> Result<Core, Want>
        requires { N.copies self.now.nested self.now.levels }
        ensures { Moves self.now.moving (λ t. c.Sorted offset (binds_of (map (plain_bind t) binds.now)) (keys_of (map (plain_key t) keys.now)) (core_of t body.now)) result }
    {
        let turns = self.binds(binds)?;
        let order = self.keys(keys)?;
        let value = self.part(body)?;
        let copy = sorted(self.alloc, offset, turns, order, value)?;
        Ok(copy)
    }

    /// A Core, by its form.
    fn form(&self, core: &Core) -> Result<Core, Want>
        requires { N.copies self.now.nested self.now.levels }
        ensures { IsMoved self.now.moving core.now result }
    {
        let offset = core.offset;
        match &core.kind {
            CoreKind::Lit(atom) => Ok(literal(offset, *atom)),
            CoreKind::Empty => Ok(empty(offset)),
            CoreKind::Fail(code) => Ok(fail(offset, *code)),
            CoreKind::Var(x) => self.var(offset, *x),
            CoreKind::Seq(a, b) => self.seq(offset, a.get(), b.get()),
            CoreKind::Let(x, a, b) => self.let_be(offset, *x, a.get(), b.get()),
            CoreKind::For {
                var,
                pos,
                seq,
                body,
            } => self.for_each(offset, (*var, *pos), seq.get(), body.get()),
            CoreKind::Sorted { binds, keys, body } => {
                self.sorted(offset, binds.as_slice(), keys.as_slice(), body.get())
            }
            CoreKind::If(a, b, d) => self.choice(offset, a.get(), b.get(), d.get()),
            CoreKind::Call(fun, args) => self.call(offset, *fun, args.as_slice()),
            _ => self.form_with_one(core),
        }
    }

    /// The same, of constructors and of the forms with one part.
    fn form_with_one(&self, core: &Core) -> Result<Core, Want>
        requires { N.copies self.now.nested self.now.levels }
        ensures { IsMoved self.now.moving core.now result }
    {
        let offset = core.offset;
        match &core.kind {
            CoreKind::Step {
                from,
                axis,
                test,
                input,
            } => self.step(offset, (*from, *axis, *test), input.get()),
            CoreKind::Build {
                what,
                name,
                content,
            } => self.build(offset, *what, name, content.get()),
            CoreKind::Instance(a, ty) => self.instance(offset, a.get(), *ty),
            CoreKind::Treat(a, ty) => self.treat(offset, a.get(), *ty),
            CoreKind::Convert(a, ty) => self.convert(offset, a.get(), *ty),
            CoreKind::Cast(a, kind, optional) => self.cast(offset, a.get(), (*kind, *optional)),
            CoreKind::Castable(a, kind, optional) => {
                self.castable(offset, a.get(), (*kind, *optional))
            }
            // No form is left.
            _ => Err(Want),
        }
    }
}

/// A function that copies the parts of a Core.
#[derive(Clone, Copy)]
struct Deeper<F> {
    copy: F,
}

impl<F: Fn(Global, &Core, Moving, u32) -> Result<Core, Want> + Copy> Part for Deeper<F> {
    ghost copies = { λ s levels. Copies levels (F.pre s.copy) (F.post s.copy) };

    fn copy(self, alloc: Global, core: &Core, moving: Moving, levels: u32) -> Result<Core, Want> {
        (self.copy)(alloc, core, moving, levels)
    }
}

/// A copy of a Core of at most so many levels, whose new variables are moved.
///
/// Errors: `Want`, where memory is wanting, the number of a variable passes 32 bits, or it has more levels.
pub fn moved(alloc: Global, core: &Core, moving: Moving, levels: u32) -> Result<Core, Want>
    ensures { IsMoved moving core.now result }
{
    if levels == 0 {
        return Err(Want);
    }
    let nested = Deeper { copy: moved };
    let levels = levels - 1;
    Copier {
        alloc,
        moving,
        levels,
        nested,
    }
    .form(core)
}

//! Nodes of the Core, one function for each form. The clauses hold for whatever texts the numbers stand for.
ghost use Rattle.std.specs.Prelude.{◌≡◌, IfOk, map};
ghost use Rattle.doc_table.specs.Tree.{text_in};
ghost use Rattle.core_meaning.specs.Erasure.{Texts, atom_in, binds_of, core_of, cores_of, keys_of, node_kind, plain_bind, plain_key, sequence_test, test_in};
ghost use Rattle.core_meaning.specs.PlainCore as c;
ghost use Rattle.core_normal.specs.Fresh as spec;
ghost use Rattle.core_normal.specs.Held.{Gives};
ghost use Rattle.core_normal.specs.Pieces.{one, text_lit, two};

use core_meaning::{Bind, BuildKind, Core, CoreKind, SeqType, SortKey, StepFrom, VarId};
use sqlite_items::{Boxed, Items};
use std::alloc::Global;
use xq_base::{Atom, AtomKind, Axis, Code, Fun, NodeTest, TextId, Want};

/// A new variable, where `next` counts those that were made, and they stand from `base` on.
pub fn fresh(base: u32, next: &mut u32) -> Result<u32, Want>
    ensures { IfOk result (λ x. Gives (spec.fresh base next.old) x next.new) }
{
    let (Some(x), Some(more)) = (base.checked_add(*next), next.checked_add(1)) else {
        return Err(Want);
    };
    *next = more;
    Ok(x)
}

pub fn literal(offset: u64, atom: Atom) -> Core
    ensures { (t : Texts) → core_of t result ≡ c.Lit offset (atom_in t atom) }
{
    let kind = CoreKind::Lit(atom);
    Core { kind, offset }
}

pub fn text(offset: u64, id: TextId) -> Core
    ensures { (t : Texts) → core_of t result ≡ text_lit offset (text_in t id) }
{
    literal(offset, Atom::Str(id))
}

pub fn empty(offset: u64) -> Core
    ensures { (t : Texts) → core_of t result ≡ c.Empty offset }
{
    let kind = CoreKind::Empty;
    Core { kind, offset }
}

pub fn fail(offset: u64, code: Code) -> Core
    ensures { (t : Texts) → core_of t result ≡ c.Fail offset code }
{
    let kind = CoreKind::Fail(code);
    Core { kind, offset }
}

pub fn var(offset: u64, x: u32) -> Core
    ensures { (t : Texts) → core_of t result ≡ c.Var offset x }
{
    let kind = CoreKind::Var(VarId(x));
    Core { kind, offset }
}

/// One after the other.
pub fn both(alloc: Global, offset: u64, a: Core, b: Core) -> Result<Core, Want>
    ensures { IfOk result (λ core. (t : Texts) → core_of t core ≡ c.Seq offset (core_of t a) (core_of t b)) }
{
    let a = Boxed::new(alloc, a)?;
    let b = Boxed::new(alloc, b)?;
    let kind = CoreKind::Seq(a, b);
    Ok(Core { kind, offset })
}

pub fn let_be(alloc: Global, offset: u64, x: u32, a: Core, b: Core) -> Result<Core, Want>
    ensures { IfOk result (λ core. (t : Texts) → core_of t core ≡ c.Let offset x (core_of t a) (core_of t b)) }
{
    let a = Boxed::new(alloc, a)?;
    let b = Boxed::new(alloc, b)?;
    let kind = CoreKind::Let(VarId(x), a, b);
    Ok(Core { kind, offset })
}

pub fn for_each(
    alloc: Global,
    offset: u64,
    x: u32,
    place: u32,
    a: Core,
    b: Core,
) -> Result<Core, Want>
    ensures { IfOk result (λ core. (t : Texts) → core_of t core ≡ c.For offset x place (core_of t a) (core_of t b)) }
{
    let seq = Boxed::new(alloc, a)?;
    let body = Boxed::new(alloc, b)?;
    let (var, pos) = (VarId(x), VarId(place));
    Ok(Core {
        kind: CoreKind::For {
            var,
            pos,
            seq,
            body,
        },
        offset,
    })
}

pub fn sorted(
    alloc: Global,
    offset: u64,
    binds: Items<Bind>,
    keys: Items<SortKey>,
    body: Core,
) -> Result<Core, Want>
    ensures { IfOk result (λ core. (t : Texts) → core_of t core ≡ c.Sorted offset (binds_of (map (plain_bind t) binds)) (keys_of (map (plain_key t) keys)) (core_of t body)) }
{
    let body = Boxed::new(alloc, body)?;
    Ok(Core {
        kind: CoreKind::Sorted { binds, keys, body },
        offset,
    })
}

pub fn choice(alloc: Global, offset: u64, test: Core, a: Core, b: Core) -> Result<Core, Want>
    ensures { IfOk result (λ core. (t : Texts) → core_of t core ≡ c.If offset (core_of t test) (core_of t a) (core_of t b)) }
{
    let test = Boxed::new(alloc, test)?;
    let a = Boxed::new(alloc, a)?;
    let b = Boxed::new(alloc, b)?;
    let kind = CoreKind::If(test, a, b);
    Ok(Core { kind, offset })
}

pub fn called(offset: u64, fun: Fun, args: Items<Core>) -> Core
    ensures { (t : Texts) → core_of t result ≡ c.Call offset fun (cores_of (map (core_of t) args)) }
{
    let kind = CoreKind::Call(fun, args);
    Core { kind, offset }
}

pub fn call_one(alloc: Global, offset: u64, fun: Fun, a: Core) -> Result<Core, Want>
    ensures { IfOk result (λ core. (t : Texts) → core_of t core ≡ c.Call offset fun (one (core_of t a))) }
{
    let mut args = Items::new(alloc);
    args.push(a)?;
    let kind = CoreKind::Call(fun, args);
    Ok(Core { kind, offset })
}

pub fn call_two(alloc: Global, offset: u64, fun: Fun, a: Core, b: Core) -> Result<Core, Want>
    ensures { IfOk result (λ core. (t : Texts) → core_of t core ≡ c.Call offset fun (two (core_of t a) (core_of t b))) }
{
    let mut args = Items::new(alloc);
    args.push(a)?;
    args.push(b)?;
    let kind = CoreKind::Call(fun, args);
    Ok(Core { kind, offset })
}

pub fn step(
    alloc: Global,
    offset: u64,
    start: StepFrom,
    axis: Axis,
    test: NodeTest,
    a: Core,
) -> Result<Core, Want>
    ensures { IfOk result (λ core. (t : Texts) → core_of t core ≡ c.Step offset start axis (test_in t test) (core_of t a)) }
{
    let input = Boxed::new(alloc, a)?;
    Ok(Core {
        kind: CoreKind::Step {
            from: start,
            axis,
            test,
            input,
        },
        offset,
    })
}

fn named(offset: u64, what: BuildKind, name: Boxed<Core>, content: Boxed<Core>) -> Core
    ensures { (t : Texts) → core_of t result ≡ c.Build offset (node_kind what) (one (core_of t name)) (core_of t content) }
{
    let kind = CoreKind::Build {
        what,
        name: Some(name),
        content,
    };
    Core { kind, offset }
}

/// A constructor with a name.
pub fn build_named(
    alloc: Global,
    offset: u64,
    what: BuildKind,
    name: Core,
    content: Core,
) -> Result<Core, Want>
    ensures { IfOk result (λ core. (t : Texts) → core_of t core ≡ c.Build offset (node_kind what) (one (core_of t name)) (core_of t content)) }
{
    let boxed = Boxed::new(alloc, name)?;
    let inside = Boxed::new(alloc, content)?;
    let core = named(offset, what, boxed, inside);
    Ok(core)
}

/// A constructor without a name.
pub fn build_plain(alloc: Global, offset: u64, what: BuildKind, content: Core) -> Result<Core, Want>
    ensures { IfOk result (λ core. (t : Texts) → core_of t core ≡ c.Build offset (node_kind what) c.no_cores (core_of t content)) }
{
    let content = Boxed::new(alloc, content)?;
    Ok(Core {
        kind: CoreKind::Build {
            what,
            name: None,
            content,
        },
        offset,
    })
}

pub fn instance(alloc: Global, offset: u64, a: Core, ty: SeqType) -> Result<Core, Want>
    ensures { IfOk result (λ core. (t : Texts) → core_of t core ≡ c.Instance offset (core_of t a) (sequence_test t ty)) }
{
    let a = Boxed::new(alloc, a)?;
    let kind = CoreKind::Instance(a, ty);
    Ok(Core { kind, offset })
}

pub fn treat(alloc: Global, offset: u64, a: Core, ty: SeqType) -> Result<Core, Want>
    ensures { IfOk result (λ core. (t : Texts) → core_of t core ≡ c.Treat offset (core_of t a) (sequence_test t ty)) }
{
    let a = Boxed::new(alloc, a)?;
    let kind = CoreKind::Treat(a, ty);
    Ok(Core { kind, offset })
}

pub fn convert(alloc: Global, offset: u64, a: Core, ty: SeqType) -> Result<Core, Want>
    ensures { IfOk result (λ core. (t : Texts) → core_of t core ≡ c.Convert offset (core_of t a) (sequence_test t ty)) }
{
    let a = Boxed::new(alloc, a)?;
    let kind = CoreKind::Convert(a, ty);
    Ok(Core { kind, offset })
}

pub fn cast(
    alloc: Global,
    offset: u64,
    a: Core,
    kind: AtomKind,
    optional: bool,
) -> Result<Core, Want>
    ensures { IfOk result (λ core. (t : Texts) → core_of t core ≡ c.Cast offset (core_of t a) kind optional) }
{
    let a = Boxed::new(alloc, a)?;
    Ok(Core {
        kind: CoreKind::Cast(a, kind, optional),
        offset,
    })
}

pub fn castable(
    alloc: Global,
    offset: u64,
    a: Core,
    kind: AtomKind,
    optional: bool,
) -> Result<Core, Want>
    ensures { IfOk result (λ core. (t : Texts) → core_of t core ≡ c.Castable offset (core_of t a) kind optional) }
{
    let a = Boxed::new(alloc, a)?;
    Ok(Core {
        kind: CoreKind::Castable(a, kind, optional),
        offset,
    })
}

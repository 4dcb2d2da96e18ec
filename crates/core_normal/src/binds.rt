//! Binds that were made, and what they are round.
ghost use Rattle.std.specs.Prelude.{◌≡◌, IfOk};
ghost use Rattle.core_meaning.specs.Erasure.{Texts, core_of};
ghost use Rattle.core_normal.specs.Held.{Gives, type_in};
ghost use Rattle.core_normal.specs.Normal as normal;
ghost use Rattle.core_normal.specs.Rows as spec;
ghost use Rattle.core_normal.specs.Turned.{turn_of};

use crate::make::{for_each, fresh, let_be};
use crate::pieces::tested;
use core_meaning::{Core, SeqType};
use std::alloc::Global;
use xq_base::Want;

/// A bind that was made: the variable of the places of a loop, the variable that takes the value, the
/// tested one, the type with the place of its test, and the value.
#[derive(Drop)]
pub struct Turned {
    pub pos: Option<u32>,
    pub y: u32,
    pub x: u32,
    pub ty: Option<SeqType>,
    pub place: u64,
    pub seq: Core,
}

/// The variable of a bind: a new one where the first is tested.
fn bound(base: u32, ty: Option<SeqType>, y: u32, next: &mut u32) -> Result<u32, Want>
    ensures { IfOk result (λ x. (t : Texts) → Gives (normal.bound base (type_in t ty) y next.old) x next.new) }
{
    match ty {
        None => Ok(y),
        Some(_) => {
            let x = fresh(base, next)?;
            Ok(x)
        }
    }
}

/// The bind of a loop over a value that was made.
pub fn for_turned(
    base: u32,
    ty: Option<SeqType>,
    place: u64,
    seq: Core,
    next: &mut u32,
) -> Result<Turned, Want>
    ensures { IfOk result (λ r. (t : Texts) → Gives (spec.for_turn base (type_in t ty) place (core_of t seq) next.old) (turn_of t r) next.new) }
{
    let y = fresh(base, next)?;
    let pos = fresh(base, next)?;
    let x = bound(base, ty, y, next)?;
    Ok(Turned {
        pos: Some(pos),
        y,
        x,
        ty,
        place,
        seq,
    })
}

/// The bind of a variable to a value that was made.
pub fn let_turned(
    base: u32,
    ty: Option<SeqType>,
    place: u64,
    seq: Core,
    next: &mut u32,
) -> Result<Turned, Want>
    ensures { IfOk result (λ r. (t : Texts) → Gives (spec.let_turn base (type_in t ty) place (core_of t seq) next.old) (turn_of t r) next.new) }
{
    let y = fresh(base, next)?;
    let x = bound(base, ty, y, next)?;
    Ok(Turned {
        pos: None,
        y,
        x,
        ty,
        place,
        seq,
    })
}

fn head(
    alloc: Global,
    offset: u64,
    pos: Option<u32>,
    y: u32,
    seq: Core,
    body: Core,
) -> Result<Core, Want>
    ensures { IfOk result (λ core. (t : Texts) → core_of t core ≡ spec.headed offset pos y (core_of t seq) (core_of t body)) }
{
    match pos {
        None => {
            let core = let_be(alloc, offset, y, seq, body)?;
            Ok(core)
        }
        Some(place) => {
            let core = for_each(alloc, offset, y, place, seq, body)?;
            Ok(core)
        }
    }
}

/// A bind round what follows.
pub fn turn(alloc: Global, offset: u64, turned: Turned, e: Core) -> Result<Core, Want>
    ensures { IfOk result (λ core. (t : Texts) → core_of t core ≡ spec.turn offset (turn_of t turned) (core_of t e)) }
{
    let Turned {
        pos,
        y,
        x,
        ty,
        place,
        seq,
    } = turned;
    let body = tested(alloc, place, ty, y, x, e)?;
    let core = head(alloc, offset, pos, y, seq, body)?;
    Ok(core)
}

//! The types of small sums, with ample memory.
ghost use Rattle.std.specs.Prelude.{◌≡◌, IfOk};
ghost use Rattle.core_meaning.specs.Erasure.{Texts, core_of};
ghost use Rattle.core_meaning.specs.PlainCore as p;
ghost use Rattle.xq_types.specs.Samples.{letter, number, plus, IsTextPlusOne, IsNothingPlusOne, IsTwoSums};

use crate::fault::TypeFault;
use crate::infer::infer;
use crate::scope::Scope;
use crate::typ::XqType;
use crate::typed::type_of;
use crate::written::type_text;
use core_meaning::{Core, CoreKind};
use sqlite_items::{Boxed, Items};
use std::alloc::{AllocError, Global};
use xq_base::{Atom, Fun, TextId};

fn one(offset: u64) -> Core
    ensures { (t : Texts) → core_of t result ≡ number offset }
{
    Core {
        kind: CoreKind::Lit(Atom::Int(1)),
        offset,
    }
}

fn text(offset: u64) -> Core
    ensures { (t : Texts) → core_of t result ≡ letter t offset }
{
    Core {
        kind: CoreKind::Lit(Atom::Str(TextId(1))),
        offset,
    }
}

fn nothing(offset: u64) -> Core
    ensures { (t : Texts) → core_of t result ≡ p.Empty offset }
{
    Core {
        kind: CoreKind::Empty,
        offset,
    }
}

fn sum(alloc: Global, offset: u64, first: Core, second: Core) -> Result<Core, AllocError>
    ensures { IfOk result (λ core. (t : Texts) → core_of t core ≡ plus offset (core_of t first) (core_of t second)) }
{
    let mut operands = Items::new(alloc);
    operands.push(first)?;
    operands.push(second)?;
    Ok(Core {
        kind: CoreKind::Call(Fun::Add, operands),
        offset,
    })
}

fn both(alloc: Global, offset: u64, first: Core, second: Core) -> Result<Core, AllocError>
    ensures { IfOk result (λ core. (t : Texts) → core_of t core ≡ p.Seq offset (core_of t first) (core_of t second)) }
{
    let first = Boxed::new(alloc, first)?;
    let second = Boxed::new(alloc, second)?;
    Ok(Core {
        kind: CoreKind::Seq(first, second),
        offset,
    })
}

fn text_plus_one(alloc: Global) -> Result<Core, AllocError>
    ensures { IfOk result IsTextPlusOne }
{
    sum(alloc, 0, text(0), one(6))
}

fn nothing_plus_one(alloc: Global) -> Result<Core, AllocError>
    ensures { IfOk result IsNothingPlusOne }
{
    sum(alloc, 0, nothing(0), one(5))
}

fn two_sums(alloc: Global) -> Result<Core, AllocError>
    ensures { IfOk result IsTwoSums }
{
    let first = sum(alloc, 1, one(1), text(5))?;
    let second = sum(alloc, 10, text(10), one(16))?;
    both(alloc, 0, first, second)
}

fn type_of_text_plus_one(alloc: Global) -> Result<XqType, TypeFault> {
    let core = text_plus_one(alloc)?;
    Ok(type_of(alloc, core)?.ty())
}

fn type_of_nothing_plus_one(alloc: Global) -> Result<XqType, TypeFault> {
    let core = nothing_plus_one(alloc)?;
    Ok(type_of(alloc, core)?.ty())
}

fn type_of_two_sums(alloc: Global) -> Result<XqType, TypeFault> {
    let core = two_sums(alloc)?;
    Ok(type_of(alloc, core)?.ty())
}

#[test]
fn a_text_is_no_operand_of_a_sum(rt: HostRuntime) {
    let given = type_of_text_plus_one(rt.alloc());
    assert!(rt; matches!(given, Err(TypeFault::Refused { offset: 0 })));
}

#[test]
fn nothing_is_an_operand_of_a_sum(rt: HostRuntime) {
    let given = type_of_nothing_plus_one(rt.alloc());
    assert!(rt;
        matches!(
            given,
            Ok(XqType {
                least: 0,
                most: 1,
                ..
            })
        )
    );
}

#[test]
fn the_first_of_two_refused_sums_is_told(rt: HostRuntime) {
    let given = type_of_two_sums(rt.alloc());
    assert!(rt; matches!(given, Err(TypeFault::Refused { offset: 1 })));
}

#[test]
fn kinds_are_written_in_their_order(rt: HostRuntime) {
    let ty = XqType {
        kinds: [
            true, false, false, true, true, false, false, false, true, false,
        ],
        least: 1,
        most: 2,
    };
    let given = type_text(rt.alloc(), ty);
    assert!(rt; given.is_ok());
    let Ok(text) = given else { return };
    assert_eq!(rt; text.as_slice(), b"integer|untyped|element|pi+".as_slice());
}

/// Sums to the left, or sequences to the right, of this many levels.
fn nested(alloc: Global, levels: u32, sums: bool) -> Result<Core, AllocError> {
    let mut core = one(0);
    for _turn in 1..levels {
        core = if sums {
            sum(alloc, 0, core, one(0))?
        } else {
            both(alloc, 0, one(0), core)?
        };
    }
    Ok(core)
}

fn is_typed(alloc: Global, core: &Core) -> bool {
    infer(core, &mut Scope::new(alloc)).is_ok()
}

#[test]
fn sums_of_4096_levels_fit_the_stack(rt: HostRuntime) {
    let made = nested(rt.alloc(), 4096, true);
    assert!(rt; made.is_ok());
    let Ok(core) = made else { return };
    assert!(rt; is_typed(rt.alloc(), &core));
}

#[test]
fn sequences_of_4096_levels_fit_the_stack(rt: HostRuntime) {
    let made = nested(rt.alloc(), 4096, false);
    assert!(rt; made.is_ok());
    let Ok(core) = made else { return };
    assert!(rt; is_typed(rt.alloc(), &core));
}

//! What an evaluation answers.
ghost use Rattle.std.specs.Prelude.{◌≡◌};
ghost use Rattle.plan_eval.specs.declared.fault.EvalFault.TheVariants.{NoMemory};

use plan_dag::OpId;
use staircase::Tally;
use std::alloc::{AllocError, AllocFailed};
use xq_base::{Axis, Code, Item, Want};

/// What a step counts, with its site and its offset in the query.
#[derive(Clone, Copy, Debug, PartialEq, Eq)]
pub struct StepTally {
    pub site: u32,
    pub offset: u64,
    pub axis: Axis,
    pub tally: Tally,
}

/// The items of an answer, and the tallies of the steps that were evaluated, in their order.
#[derive(Drop)]
pub struct Evaluated {
    pub items: Vec<Item>,
    pub tallies: Vec<StepTally>,
}

/// Why a plan has no items: a check has a row, an operator needs more rows than one may need, or memory
/// is wanting.
#[derive(Clone, Copy, Debug, PartialEq, Eq)]
pub enum EvalFault {
    Dynamic { code: Code, offset: u64 },
    TableLimit { op: OpId, rows: u128 },
    NoMemory,
}

impl From<Want> for EvalFault {
    ghost from_gives = { λ _ e. e ≡ NoMemory };

    fn from(_e: Want) -> EvalFault {
        EvalFault::NoMemory
    }
}

impl From<AllocError> for EvalFault {
    ghost from_gives = { λ _ e. e ≡ NoMemory };

    fn from(_e: AllocError) -> EvalFault {
        EvalFault::NoMemory
    }
}

impl<T: Drop> From<AllocFailed<T>> for EvalFault {
    ghost from_gives = { λ _ e. e ≡ NoMemory };

    fn from(_e: AllocFailed<T>) -> EvalFault {
        EvalFault::NoMemory
    }
}

//! Why there is no proposal.
ghost use Rattle.std.specs.Prelude.{◌≡◌};

use bw_model::{Fault, code};
use bw_prover::Unproved;
use std::alloc::{AllocError, AllocFailed};
use thiserror::Error;

/// Why the planner proposes no program for a condition, or none with so many skips.
#[derive(Clone, Copy, Debug, PartialEq, Eq, Error)]
pub enum Unplanned {
    /// A certificate would pass a limit of nodes, chains or product rows, there is no rule for it,
    /// or the fallback searches a list faster.
    #[error("a limit of certificates is passed, or the fallback is faster")]
    Limit,
    /// A program would have too many instructions, or take too many registers.
    #[error("a limit of programs is passed")]
    Length,
    /// No certificate was found for a program: a value isn't known to be the same by each way.
    #[error("no certificate was found for a program")]
    Uncertified,
    /// Memory was refused.
    #[error("memory was refused")]
    Memory,
}

impl From<AllocError> for Unplanned {
    ghost use Rattle.bw_plan.specs.declared.unplanned.Unplanned.TheVariants.{Memory};

    ghost from_gives = { λ _ unplanned. unplanned ≡ Memory };

    fn from(_error: AllocError) -> Self {
        Unplanned::Memory
    }
}

impl<T: Drop> From<AllocFailed<T>> for Unplanned {
    ghost use Rattle.bw_plan.specs.declared.unplanned.Unplanned.TheVariants.{Memory};

    ghost from_gives = { λ _ unplanned. unplanned ≡ Memory };

    fn from(_error: AllocFailed<T>) -> Self {
        Unplanned::Memory
    }
}

impl From<Unproved> for Unplanned {
    ghost use Rattle.bw_plan.specs.Unplanned.{unplanned_of};

    ghost from_gives = { λ unproved unplanned. unplanned ≡ unplanned_of unproved };

    fn from(unproved: Unproved) -> Self {
        match unproved {
            Unproved::Memory => Unplanned::Memory,
            Unproved::Unknown { .. } | Unproved::Unordered => Unplanned::Uncertified,
            _ => Unplanned::Limit,
        }
    }
}

/// The error that is reported, at no place: 651, or 801 for `Memory`.
impl From<Unplanned> for Fault {
    ghost use Rattle.bw_plan.specs.Unplanned.{fault_of};

    ghost from_gives = { λ unplanned fault. fault ≡ fault_of unplanned };

    fn from(unplanned: Unplanned) -> Self {
        match unplanned {
            Unplanned::Memory => Fault::new(code::OUT_OF_MEMORY),
            _ => Fault::new(code::NO_PROGRAM),
        }
    }
}

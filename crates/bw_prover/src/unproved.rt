//! Why a program has no certificate for a condition.
ghost use Rattle.std.specs.Prelude.{◌≡◌};

use bw_model::Row;
use bw_program::Register;
use std::alloc::{AllocError, AllocFailed};

/// What a certificate has at most so many of.
#[derive(Clone, Copy, Debug, PartialEq, Eq)]
pub enum Counted {
    Nodes,
    Chains,
    Rows,
}

/// Why no certificate is found. Instructions are numbered from 0; the number after the last is the
/// end, which reads the result.
#[derive(Drop)]
pub enum Unproved {
    /// A limit of certificates, or the budget of product rows, would be passed: there may be at
    /// most so many of these.
    Limit {
        counted: Counted,
        most: u32,
    },
    /// An instruction reads a register before one writes it.
    Unwritten {
        instruction: usize,
        register: Register,
    },
    /// An instruction reads a register that isn't known to have one value after a join: by this
    /// skip it may differ from what falls through. If there is a witness, the value differs on its
    /// rows.
    Unknown {
        instruction: usize,
        register: Register,
        join: usize,
        skip: usize,
        witness: Option<Witness>,
    },
    /// The program is wrong on this row, which the schema admits.
    Differs {
        row: Row,
    },
    /// The program is right on every row that the schema admits, but not on every bit pattern,
    /// which a certificate speaks of. It is wrong on one in which a column has these bits, which no
    /// row has.
    OnlyUnadmitted {
        column: usize,
        is_null: bool,
        code: u64,
    },
    /// The result can't be compared with the condition, since no one order of variables fits all of
    /// its comparisons of columns.
    Unordered,
    /// No rule fits: two columns of unequal minimums are compared, AND or OR has no parts, or the
    /// program or condition names what the schema lacks.
    NoRule,
    /// Memory was refused.
    Memory,
}

/// Two rows that the schema admits. On `taken` the skip's register is 0, and the value by the skip
/// isn't the one that falls through. On `through` the skip's register is 1: a segment that has both
/// rows doesn't skip.
#[derive(Drop)]
pub struct Witness {
    pub taken: Row,
    pub through: Row,
}

impl From<AllocError> for Unproved {
    ghost use Rattle.bw_prover.specs.declared.unproved.Unproved.TheVariants.{Memory};

    ghost from_gives = { λ _ unproved. unproved ≡ Memory };

    fn from(_error: AllocError) -> Self {
        Unproved::Memory
    }
}

impl<T: Drop> From<AllocFailed<T>> for Unproved {
    ghost use Rattle.bw_prover.specs.declared.unproved.Unproved.TheVariants.{Memory};

    ghost from_gives = { λ _ unproved. unproved ≡ Memory };

    fn from(_error: AllocFailed<T>) -> Self {
        Unproved::Memory
    }
}

//! Sets of truth values.
ghost use Rattle.std.specs.Prelude.{◌≡◌};
ghost use Rattle.bw_ranges.specs.TruthSet.{both, either, has_truth, one_truth, opposite, test};
ghost use Rattle.bw_ranges.specs.Verdict.{verdict_of};

use crate::verdict::Verdict;
use bw_model::Truth;

/// A set of truth values: those that a condition may have.
#[derive(Clone, Copy, Debug, PartialEq, Eq)]
pub struct TruthSet {
    pub no: bool,
    pub unknown: bool,
    pub yes: bool,
}

impl TruthSet {
    /// Returns the set of one truth value.
    pub fn one(truth: Truth) -> Self
        ensures { result ≡ one_truth truth }
    {
        TruthSet {
            no: truth == Truth::No,
            unknown: truth == Truth::Unknown,
            yes: truth == Truth::Yes,
        }
    }

    /// Returns whether a truth value is in the set.
    pub fn has(self, truth: Truth) -> bool
        ensures { result ≡ has_truth self truth }
    {
        match truth {
            Truth::No => self.no,
            Truth::Unknown => self.unknown,
            Truth::Yes => self.yes,
        }
    }

    /// Returns what NOT of a truth value in the set may be.
    pub fn opposite(self) -> Self
        ensures { result ≡ opposite self }
    {
        TruthSet {
            no: self.yes,
            unknown: self.unknown,
            yes: self.no,
        }
    }

    /// Returns what AND of a truth value in each set may be.
    pub fn both(self, other: Self) -> Self
        ensures { result ≡ both self other }
    {
        TruthSet {
            no: self.no | other.no,
            unknown: (self.unknown & (other.unknown | other.yes)) | (self.yes & other.unknown),
            yes: self.yes & other.yes,
        }
    }

    /// Returns what OR of a truth value in each set may be.
    pub fn either(self, other: Self) -> Self
        ensures { result ≡ either self other }
    {
        TruthSet {
            no: self.no & other.no,
            unknown: (self.unknown & (other.unknown | other.no)) | (self.no & other.unknown),
            yes: self.yes | other.yes,
        }
    }

    /// Returns what `IS` of a truth value in the set may be, for one that is wanted.
    pub fn test(self, wanted: Truth) -> Self
        ensures { result ≡ test self wanted }
    {
        let (is_wanted, is_other) = match wanted {
            Truth::No => (self.no, self.unknown | self.yes),
            Truth::Unknown => (self.unknown, self.no | self.yes),
            Truth::Yes => (self.yes, self.no | self.unknown),
        };
        TruthSet {
            no: is_other,
            unknown: false,
            yes: is_wanted,
        }
    }

    /// Returns whether a condition with these possible truth values is TRUE on no row, or on every
    /// row.
    pub fn verdict(self) -> Verdict
        ensures { result ≡ verdict_of self }
    {
        match (self.yes, self.no, self.unknown) {
            (false, _, _) => Verdict::NoRow,
            (true, false, false) => Verdict::EveryRow,
            _ => Verdict::Open,
        }
    }
}

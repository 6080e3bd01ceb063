//! Whether a condition is TRUE on no row within ranges, or on each of them.
ghost use Rattle.std.specs.Prelude.{◌≡◌, false, true, List, map};
ghost use Rattle.bw_model.specs.Cond.{is_match};
ghost use Rattle.bw_model.specs.Row.{Value};
ghost use Rattle.bw_ranges.specs.ColumnRange.{IsWithin};
ghost use Rattle.bw_ranges.specs.PossibleTruths.{possible_truths};
ghost use Rattle.bw_ranges.specs.TruthSet.{all_of_sets};
ghost use Rattle.bw_ranges.specs.Verdict.{verdict_of};
ghost use Rattle.bw_ranges.specs.declared.verdict.Verdict.TheVariants.{EveryRow, NoRow};

use crate::column_range::ColumnRange;
use crate::truth_set::TruthSet;
use crate::truths::{part_truths, truths};
use bw_model::{Cond, Truth};

/// What ranges tell of a condition.
#[derive(Clone, Copy, Debug, PartialEq, Eq)]
pub enum Verdict {
    /// The condition is TRUE on no row within the ranges.
    NoRow,
    /// The condition is TRUE on every row within the ranges.
    EveryRow,
    /// The rows have to be read.
    Open,
}

/// Returns what ranges, one for each column, tell of a condition. Once a part of AND can't be TRUE,
/// no other part is evaluated.
#[tactic(auto, using(crate::proofs::VerdictLemmas::matches))]
pub fn decide(cond: &Cond, ranges: &[ColumnRange]) -> Verdict
    ensures exact { result ≡ verdict_of (possible_truths ranges.now cond.now) }
    ensures no_row { result ≡ NoRow → (row : List Value) → IsWithin ranges.now row
        → is_match cond.now row ≡ false }
    ensures every_row { result ≡ EveryRow → (row : List Value) → IsWithin ranges.now row
        → is_match cond.now row ≡ true }
{
    verdict_of(cond, ranges)
}

/// Returns what ranges tell of a condition.
#[tactic(auto, using(crate::proofs::PossibleLemmas::possible))]
fn verdict_of(cond: &Cond, ranges: &[ColumnRange]) -> Verdict
    ensures { result ≡ verdict_of (possible_truths ranges.now cond.now) }
{
    match cond {
        Cond::And(parts) => verdict_of_all(parts, ranges),
        _ => truths(cond, ranges).verdict(),
    }
}

/// Returns what ranges tell of AND of the parts.
#[tactic(auto, using(crate::proofs::SetLemmas::both_assoc))]
fn verdict_of_all(parts: &[Cond], ranges: &[ColumnRange]) -> Verdict
    ensures { result ≡ verdict_of (all_of_sets (map (possible_truths ranges.now) parts.now)) }
{
    let mut set = TruthSet::one(Truth::Yes);
    for part in parts {
        set = set.both(part_truths(part, ranges));
        if !set.yes {
            return Verdict::NoRow;
        }
    }
    set.verdict()
}

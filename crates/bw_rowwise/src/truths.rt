//! The truth of a condition in 512 lanes, one for each row, as two planes.
ghost use Rattle.std.specs.Prelude.{◌≡◌, ◌≤◌, ◌<◌, ◌-◌, ◌++◌, ℕ, List, Bool, [], false, true};
ghost use Rattle.std.specs.Prelude.{length, map, replicate, slice_index_or};
ghost use Rattle.bw_lanes.specs.Lanes.{lanes_of_words};
ghost use Rattle.bw_model.specs.Groups.{group_size};
ghost use Rattle.bw_model.specs.Row.{Value};
ghost use Rattle.bw_model.specs.Truth.{greatest, is_truth, least, negation, truth_from};
ghost use Rattle.bw_model.specs.declared.cond.Truth.{Truth};
ghost use Rattle.bw_model.specs.declared.cond.Truth.TheVariants.{No, Yes};
ghost use Rattle.bw_rowwise.specs.Lanes.{AreTruths};

use crate::planes::{both_lanes, either_lanes, every_lane, other_lanes};
use bw_lanes::{Plane, Selection, is_zero, mask};
use bw_model::Truth;

/// A truth value in each lane, as two planes.
#[derive(Clone, Copy)]
pub struct Truths {
    /// The lanes in which it is TRUE.
    pub yes: Plane,
    /// The lanes in which it is TRUE or UNKNOWN.
    pub maybe: Plane,
}

impl Truths {
    /// Returns the same truth value in each lane.
    pub fn all(truth: Truth) -> Self
        ensures { AreTruths result (λ _. truth) }
    {
        Truths {
            yes: every_lane(truth == Truth::Yes),
            maybe: every_lane(truth != Truth::No),
        }
    }

    /// Returns TRUE in these lanes, and FALSE in the others.
    pub fn of(those: Plane) -> Self
        ensures { AreTruths result
            (λ lane. truth_from (slice_index_or (lanes_of_words those) lane false)) }
    {
        Truths {
            yes: those,
            maybe: those,
        }
    }

    /// Returns AND in each lane.
    pub fn both(&self, other: &Truths) -> Truths
        ensures { (f g : ℕ → Truth) → AreTruths self.now f → AreTruths other.now g
            → AreTruths result (λ lane. least (f lane) (g lane)) }
    {
        Truths {
            yes: both_lanes(&self.yes, &other.yes),
            maybe: both_lanes(&self.maybe, &other.maybe),
        }
    }

    /// Returns OR in each lane.
    pub fn either(&self, other: &Truths) -> Truths
        ensures { (f g : ℕ → Truth) → AreTruths self.now f → AreTruths other.now g
            → AreTruths result (λ lane. greatest (f lane) (g lane)) }
    {
        Truths {
            yes: either_lanes(&self.yes, &other.yes),
            maybe: either_lanes(&self.maybe, &other.maybe),
        }
    }

    /// Returns NOT in each lane.
    pub fn opposite(&self) -> Truths
        ensures { (f : ℕ → Truth) → AreTruths self.now f
            → AreTruths result (λ lane. negation (f lane)) }
    {
        Truths {
            yes: other_lanes(&self.maybe),
            maybe: other_lanes(&self.yes),
        }
    }

    /// Returns whether each lane has a truth value.
    pub fn test(&self, wanted: Truth) -> Truths
        ensures { (f : ℕ → Truth) → AreTruths self.now f
            → AreTruths result (λ lane. truth_from (is_truth (f lane) wanted)) }
    {
        match wanted {
            Truth::No => Truths::of(other_lanes(&self.maybe)),
            Truth::Unknown => Truths::of(both_lanes(&self.maybe, &other_lanes(&self.yes))),
            Truth::Yes => Truths::of(self.yes),
        }
    }

    /// Returns whether every lane is FALSE.
    pub fn are_false(&self) -> bool
        ensures { result ≡ true → (f : ℕ → Truth) → AreTruths self.now f
            → (lane : ℕ) → lane < 512 → f lane ≡ No }
    {
        is_zero(&self.maybe)
    }

    /// Returns whether every lane is TRUE.
    pub fn are_true(&self) -> bool
        ensures { result ≡ true → (f : ℕ → Truth) → AreTruths self.now f
            → (lane : ℕ) → lane < 512 → f lane ≡ Yes }
    {
        is_zero(&other_lanes(&self.yes))
    }

    /// Returns those of the first `rows` lanes that are TRUE.
    pub fn true_rows(&self, rows: u32) -> Selection
        requires { rows ≤ 512 }
        ensures rows { (f : ℕ → Truth) (those : List (List Value)) (keeps : List Value → Bool)
            → AreTruths self.now f → length those ≡ rows
            → ((lane : ℕ) → lane < rows → is_truth (f lane) Yes
            ≡ keeps (slice_index_or those lane []))
            → lanes_of_words result ≡ map keeps those
            ++ replicate (group_size - length those) false }
        ensures within { (lane : ℕ) → rows ≤ lane
            → slice_index_or (lanes_of_words result) lane false ≡ false }
    {
        both_lanes(&self.yes, &mask(rows))
    }
}

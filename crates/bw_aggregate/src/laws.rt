//! A law of selected rows, for the crates that select them.
ghost use Rattle.std.specs.Prelude.{◌≡◌, ◌++◌, ◌&&◌, ℕ, Bool, true, false, List, replicate};
ghost use Rattle.std.specs.Simd.Lanes.{zip2};
ghost use Rattle.bw_aggregate.specs.Selected.{IsWithin};

/// A law: the lanes of the first rows have no 1 past those rows, and nor have lanes that are 1 only
/// in such lanes.
pub fn first_rows_are_within()
    ensures first { (rows more : ℕ) → IsWithin rows (replicate rows true ++ replicate more false) }
    ensures both { (rows : ℕ) (lanes others : List Bool) → IsWithin rows others
        → IsWithin rows (zip2 (λ a b. a && b) lanes others) }
{}

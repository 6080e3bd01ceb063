//! Planes by their lanes.
ghost use Rattle.std.specs.Prelude.{◌≡◌, ◌≢◌, ◌<◌, ◌&&◌, ◌||◌, ℕ, Bool, false, length, not};
ghost use Rattle.std.specs.Prelude.{slice_index_or};
ghost use Rattle.bw_lanes.specs.Lanes.{lanes_of_words};

use bw_lanes::{LANES, Plane, and, mask, not, or};

/// Returns the lanes that are 1 in both planes.
#[tactic(auto, using(crate::proofs::PlaneLemmas::at_both, crate::proofs::PlaneLemmas::long_both))]
pub fn both_lanes(a: &Plane, b: &Plane) -> Plane
    ensures long { length (lanes_of_words result) ≡ 512 }
    ensures each { (lane : ℕ) → lane < 512 → slice_index_or (lanes_of_words result) lane false
        ≡ (slice_index_or (lanes_of_words a.now) lane false
        && slice_index_or (lanes_of_words b.now) lane false) }
{
    and(a, b)
}

/// Returns the lanes that are 1 in at least one plane.
#[tactic(auto, using(crate::proofs::PlaneLemmas::at_either))]
pub fn either_lanes(a: &Plane, b: &Plane) -> Plane
    ensures { (lane : ℕ) → lane < 512 → slice_index_or (lanes_of_words result) lane false
        ≡ (slice_index_or (lanes_of_words a.now) lane false
        || slice_index_or (lanes_of_words b.now) lane false) }
{
    or(a, b)
}

/// Returns the lanes that are 0.
#[tactic(auto, using(crate::proofs::PlaneLemmas::at_other))]
pub fn other_lanes(a: &Plane) -> Plane
    ensures { (lane : ℕ) → lane < 512 → slice_index_or (lanes_of_words result) lane false
        ≡ not (slice_index_or (lanes_of_words a.now) lane false) }
{
    not(a)
}

/// Returns a plane whose lanes are all 1, or all 0.
pub fn every_lane(is_one: bool) -> Plane
    ensures { (lane : ℕ) → lane < 512 → slice_index_or (lanes_of_words result) lane false ≡ is_one }
{
    if is_one { mask(LANES as u32) } else { mask(0) }
}

/// Sets a lane.
#[inline]
pub fn put_lane(plane: &mut Plane, at: usize, is_one: bool)
    requires { at < 512 }
    ensures put { slice_index_or (lanes_of_words plane.new) at false ≡ is_one }
    ensures others { (other : ℕ) → other < 512 → other ≢ at
        → slice_index_or (lanes_of_words plane.new) other false
        ≡ slice_index_or (lanes_of_words plane.old) other false }
{
    if is_one {
        plane[at / 64] |= 1 << (at % 64);
    } else {
        plane[at / 64] &= !(1 << (at % 64));
    }
}

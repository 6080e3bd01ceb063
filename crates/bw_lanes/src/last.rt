//! The last lane of a range that is 1.
ghost use Rattle.std.specs.Prelude.{◌≡◌, ◌-◌, ◌<◌, ◌≤◌, ◌+◌, ◌*◌, ◌/◌, ◌%◌, ℕ, true, false};
ghost use Rattle.std.specs.Prelude.{slice_index_or, None, IfSome};
ghost use Rattle.bw_lanes.specs.Lanes.{lanes_of_words};
ghost use Rattle.bw_lanes.specs.Last.{AreClear, IsLast};

use crate::plane::Plane;

/// Returns the last lane that is 1 from `first` up to `end`, without `end` itself, or None if each
/// of these is 0.
#[tactic(auto, using(crate::proofs::LastLemmas::no_lane))]
pub fn last_between(plane: &Plane, first: usize, end: usize) -> Option<usize>
    requires { (first ≤ end) × (end ≤ 512) }
    ensures last { IfSome result (λ lane. IsLast (lanes_of_words plane.now) first end lane) }
    ensures none { result ≡ None → AreClear (lanes_of_words plane.now) first end }
{
    let mut past = end;
    while past > first {
        let top = past - 1;
        if plane[top / 64] != 0 {
            let clear = clear_below(plane, top);
            if clear <= top % 64 {
                let lane = top - clear;
                return if lane < first { None } else { Some(lane) };
            }
        }
        past = top - top % 64;
    }
    None
}

/// Returns how many lanes of a word are 0, from lane `top` down to the next one that is 1; more
/// than are left in the word if none is.
#[tactic(auto, using(crate::proofs::LastLemmas::lanes_below))]
fn clear_below(plane: &Plane, top: usize) -> usize
    requires { top < 512 }
    ensures clear { (lane : ℕ) → 64 * (top / 64) ≤ lane → lane ≤ top → top < lane + result
        → slice_index_or (lanes_of_words plane.now) lane false ≡ false }
    ensures set { result ≤ top % 64
        → slice_index_or (lanes_of_words plane.now) (top - result) false ≡ true }
{
    (plane[top / 64] << (63 - top % 64)).leading_zeros() as usize
}

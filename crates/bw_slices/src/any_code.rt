//! Whether a code isn't 0, or is above a number. Most columns have one to four slices: each of
//! these numbers has a call of its own, without a loop over slices.
ghost use Rattle.std.specs.Prelude.{◌≡◌, ◌==◌, ◌*◌, ◌^◌, ◌<◌, ◌≤◌, length, nat_lt, not};
ghost use Rattle.std.specs.List.{list_any};
ghost use Rattle.bw_lanes.specs.Lanes.{lanes_of_words};
ghost use Rattle.bw_model.specs.Selection.{selected_items};
ghost use Rattle.bw_slices.specs.Slices.{slices_codes};

use crate::codes_above::any_above;
use bw_lanes::{Plane, bytes_any};

/// Returns whether a number that `slices` slices spell is above `most`, which has as many bytes.
#[tactic(auto, using(crate::proofs::AboveLemmas::none_above_none))]
pub(crate) fn is_any_above(bytes: &[u8], slices: usize, most: u64) -> bool
    requires size { 512 * slices ≤ length bytes.now }
    requires within_limit { slices ≤ 8 }
    requires most { most < 2 ^ (8 * slices) }
    ensures { result ≡ list_any (nat_lt most) (slices_codes slices bytes.now) }
{
    match slices {
        0 => false,
        1 => any_above(bytes, 1, most),
        2 => any_above(bytes, 2, most),
        3 => any_above(bytes, 3, most),
        4 => any_above(bytes, 4, most),
        _ => any_above(bytes, slices, most),
    }
}

/// Returns whether a number that `slices` slices spell in these lanes isn't 0.
pub(crate) fn is_any_nonzero(bytes: &[u8], slices: usize, lanes: &Plane) -> bool
    requires { 512 * slices ≤ length bytes.now }
    ensures { result ≡ list_any (λ code. not (code == 0))
        (selected_items (lanes_of_words lanes.now) (slices_codes slices bytes.now)) }
{
    match slices {
        1 => any_nonzero(bytes, 1, lanes),
        2 => any_nonzero(bytes, 2, lanes),
        3 => any_nonzero(bytes, 3, lanes),
        4 => any_nonzero(bytes, 4, lanes),
        _ => any_nonzero(bytes, slices, lanes),
    }
}

/// Does this for any number of slices.
#[inline(always)]
fn any_nonzero(bytes: &[u8], slices: usize, lanes: &Plane) -> bool
    requires { 512 * slices ≤ length bytes.now }
    ensures { result ≡ list_any (λ code. not (code == 0))
        (selected_items (lanes_of_words lanes.now) (slices_codes slices bytes.now)) }
{
    bytes_any(bytes, slices, lanes)
}

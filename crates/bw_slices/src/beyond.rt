//! Whether the highest bytes of the codes in many lanes show that none is beyond another one.
ghost use Rattle.std.specs.Prelude.{All, ◌≡◌, ◌^◌, ◌+◌, ◌-◌, ◌*◌, ◌/◌, ◌<◌, ◌≤◌, true, false, not};
ghost use Rattle.std.specs.Prelude.{if◌then◌else◌, length, map, nat_lt};
ghost use Rattle.std.specs.List.{list_any};
ghost use Rattle.bw_lanes.specs.Lanes.{lanes_of_words};
ghost use Rattle.bw_model.specs.Selection.{selected_items};
ghost use Rattle.bw_segment.specs.Selected.{is_beyond, is_greatest};
ghost use Rattle.bw_slices.specs.Slices.{slices_codes};

use crate::codes_above::lanes_above;
use crate::read::slices_in;
use bw_lanes::{Plane, Selection, and, is_zero, not};
use bw_segment::Extreme;

/// In nearly all segments, this many of the highest digits suffice to show that no code is beyond
/// the maximum or the minimum of the codes of many segments.
const HIGHEST: u32 = 12;

/// Returns whether the highest bytes, those with at least these digits, show that no code in these
/// lanes is beyond `other`. They don't if it has more digits than the codes. It isn't compiled into
/// its caller, which takes less time for a few lanes then.
#[inline(never)]
pub(crate) fn none_beyond(
    width: u32,
    bytes: &[u8],
    lanes: &Selection,
    other: u64,
    which: Extreme,
) -> bool
    requires width { (1 ≤ width) × (width ≤ 63) }
    requires size { length bytes.now ≡ 512 * ((width + 7) / 8) }
    requires other { other < 2 ^ 63 }
    ensures { result ≡ true → list_any (is_beyond (is_greatest which) other)
        (selected_items (lanes_of_words lanes.now) (slices_codes ((width + 7) / 8) bytes.now))
        ≡ false }
{
    if other >> width != 0 {
        return false;
    }
    let low = (width.saturating_sub(HIGHEST) / 8) as usize;
    let slices = slices_in(width) - low;
    is_zero(&and(lanes, &near(bytes, slices, low, other, which)))
}

/// Returns the lanes whose first bytes, all but the `low` lowest ones, don't show that the code
/// isn't beyond `other`. If these are all bytes, they are the lanes in which it is.
#[inline(always)]
fn near(bytes: &[u8], slices: usize, low: usize, other: u64, which: Extreme) -> Plane
    requires size { length bytes.now ≡ 512 * (slices + low) }
    requires slices { (1 ≤ slices) × (slices ≤ 7) }
    requires within_limit { slices + low ≤ 8 }
    requires other { other < 2 ^ (8 * (slices + low)) }
    requires fits { other < 2 ^ 63 }
    ensures { lanes_of_words result ≡ map (λ code. if is_greatest which
        then not (nat_lt (code / 2 ^ (8 * low)) ((other + 1) / 2 ^ (8 * low)))
        else nat_lt (code / 2 ^ (8 * low)) ((other - 1) / 2 ^ (8 * low) + 1))
        (slices_codes (slices + low) bytes.now) }
{
    match which {
        Extreme::Greatest => not(&lanes_below(bytes, slices, (other + 1) >> (8 * low))),
        Extreme::Least => lanes_below(bytes, slices, (other.saturating_sub(1) >> (8 * low)) + 1),
    }
}

/// Returns the lanes in which the number that `slices` slices spell is below `c`.
#[inline(always)]
fn lanes_below(bytes: &[u8], slices: usize, c: u64) -> Plane
    requires size { 512 * slices ≤ length bytes.now }
    requires within_limit { slices ≤ 7 }
    requires c { c ≤ 2 ^ (8 * slices) }
    ensures { lanes_of_words result ≡ map (λ n. nat_lt n c) (slices_codes slices bytes.now) }
{
    if c == 0 {
        return [0; 8];
    }
    not(&lanes_above(bytes, slices, c - 1))
}

//! The minimum and the maximum of the codes in some lanes; if the lanes are few, one code after the
//! other.
ghost use Rattle.std.specs.Prelude.{All, ◌≡◌, ◌^◌, ◌<◌, ◌≤◌, length, max, min, IfSome};
ghost use Rattle.std.specs.Prelude.{if◌then◌else◌};
ghost use Rattle.std.specs.List.{reduce};
ghost use Rattle.bw_lanes.specs.Lanes.{lanes_of_words};
ghost use Rattle.bw_model.specs.Selection.{selected_items};
ghost use Rattle.bw_segment.specs.Selected.{is_greatest};

use crate::layout::CodeLayout;
use bw_lanes::{LANES, Selection, count, last_between};

/// Which of several codes is sought.
#[derive(Clone, Copy)]
pub enum Extreme {
    Least,
    Greatest,
}

impl Extreme {
    /// Returns whether it is the greatest.
    #[inline(always)]
    pub fn is_greatest(self) -> bool
        ensures { result ≡ is_greatest self }
    {
        matches!(self, Extreme::Greatest)
    }
}

/// If there are at most this many lanes, their codes are read one by one.
const FEW: u32 = 4;

/// Returns the minimum of the codes in some lanes, or None if there are no lanes.
pub(crate) fn least_in<L: CodeLayout>(width: u32, bytes: &[u8], lanes: &Selection) -> Option<u64>
    requires width { (1 ≤ width) × (width ≤ 63) }
    requires size { length bytes.now ≡ L.packing.size width }
    requires small { All (λ code. code < 2 ^ width) (L.packing.codes width bytes.now) }
    ensures least { result
        ≡ reduce min (selected_items (lanes_of_words lanes.now) (L.packing.codes width bytes.now)) }
    ensures bound { IfSome result (λ code. code < 2 ^ 63) }
{
    if count(lanes) <= FEW {
        extreme_of_few::<L>(width, bytes, lanes, Extreme::Least)
    } else {
        L::least(width, bytes, lanes)
    }
}

/// Returns the maximum of these codes, or None if there are no lanes.
pub(crate) fn greatest_in<L: CodeLayout>(width: u32, bytes: &[u8], lanes: &Selection) -> Option<u64>
    requires width { (1 ≤ width) × (width ≤ 63) }
    requires size { length bytes.now ≡ L.packing.size width }
    requires small { All (λ code. code < 2 ^ width) (L.packing.codes width bytes.now) }
    ensures greatest { result
        ≡ reduce max (selected_items (lanes_of_words lanes.now) (L.packing.codes width bytes.now)) }
    ensures bound { IfSome result (λ code. code < 2 ^ 63) }
{
    if count(lanes) <= FEW {
        extreme_of_few::<L>(width, bytes, lanes, Extreme::Greatest)
    } else {
        L::greatest(width, bytes, lanes)
    }
}

/// Returns the maximum of the codes in some lanes, or the minimum, from the last lane down.
#[inline(always)]
fn extreme_of_few<L: CodeLayout>(
    width: u32,
    bytes: &[u8],
    lanes: &Selection,
    which: Extreme,
) -> Option<u64>
    requires width { (1 ≤ width) × (width ≤ 63) }
    requires size { length bytes.now ≡ L.packing.size width }
    requires small { All (λ code. code < 2 ^ width) (L.packing.codes width bytes.now) }
    ensures extreme { result ≡ reduce (if is_greatest which then max else min)
        (selected_items (lanes_of_words lanes.now) (L.packing.codes width bytes.now)) }
    ensures bound { IfSome result (λ code. code < 2 ^ 63) }
{
    L::keeps_codes();
    let mut extreme = None;
    let mut end = LANES;
    while let Some(lane) = last_between(lanes, 0, end) {
        let code = L::code(width, bytes, lane);
        extreme = Some(match extreme {
            Some(other) => extreme_of(code, other, which),
            None => code,
        });
        end = lane;
    }
    extreme
}

/// Returns the greater of two codes, or the smaller one.
#[inline(always)]
fn extreme_of(code: u64, other: u64, which: Extreme) -> u64
    ensures { result ≡ (if is_greatest which then max else min) code other }
{
    match which {
        Extreme::Greatest => code.max(other),
        Extreme::Least => code.min(other),
    }
}

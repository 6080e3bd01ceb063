//! How a layout packs the codes of one column of a segment.
ghost use Rattle.std.specs.Prelude.{◌*◌, All, ◌≡◌, true, false, ◌==◌, ◌^◌, ◌<◌, ◌≤◌, ◌++◌, ℕ};
ghost use Rattle.std.specs.Prelude.{length, map, max, min, nat_lt, not, slice_index, sum, IfSome};
ghost use Rattle.std.specs.Prelude.{IsOkUnless, OnOk};
ghost use Rattle.std.specs.List.{list_any, reduce};
ghost use Rattle.bw_lanes.specs.Lanes.{lanes_of_words};
ghost use Rattle.bw_model.specs.Code.{has_bit};
ghost use Rattle.bw_model.specs.Fault.{no_memory};
ghost use Rattle.bw_model.specs.Selection.{selected_items};
ghost use Rattle.bw_model.specs.StoredCodes.{byte_of};
ghost use Rattle.bw_segment.specs.Packing.{Packing, IsPacking};
ghost use Rattle.bw_segment.specs.Selected.{is_beyond, is_greatest};

use crate::extremes::Extreme;
use bw_lanes::{LANES, Plane, Selection};
use bw_model::Fault;

/// A packing of the codes of 512 lanes into bytes. Each method but `size` and `push_codes` reads
/// the bytes of codes of `width` binary digits, 1 to 63, and its result depends only on the codes
/// that they spell. Lane i is row i's.
pub trait CodeLayout {
    ghost packing: { Packing };

    /// Returns how many bytes the codes have.
    fn size(width: u32) -> usize
        requires { (1 ≤ width) × (width ≤ 63) }
        ensures size { result ≡ packing.size width }
        ensures bound { result ≤ 4096 };

    /// Adds the bytes of the codes. Errors: 801 if memory is refused; a part may have been added
    /// then.
    fn push_codes(bytes: &mut Vec<u8>, width: u32, codes: &[u64; LANES]) -> Result<(), Fault>
        requires { (1 ≤ width) × (width ≤ 63) }
        ensures added { OnOk result (bytes.new.items
            ≡ bytes.old.items ++ packing.bytes width codes.now) }
        ensures only_oom { IsOkUnless result no_memory };

    /// Returns the lanes whose code isn't 0.
    fn nonzero_lanes(width: u32, bytes: &[u8]) -> Plane
        requires width { (1 ≤ width) × (width ≤ 63) }
        requires size { length bytes.now ≡ packing.size width }
        ensures { lanes_of_words result
            ≡ map (λ code. not (code == 0)) (packing.codes width bytes.now) };

    /// Returns the lanes whose code is above `most`, a number of `width` digits.
    fn above(width: u32, bytes: &[u8], most: u64) -> Plane
        requires width { (1 ≤ width) × (width ≤ 63) }
        requires size { length bytes.now ≡ packing.size width }
        requires most { most < 2 ^ width }
        ensures { lanes_of_words result ≡ map (nat_lt most) (packing.codes width bytes.now) };

    /// Returns whether a code in these lanes isn't 0.
    fn any_nonzero(width: u32, bytes: &[u8], lanes: &Plane) -> bool
        requires width { (1 ≤ width) × (width ≤ 63) }
        requires size { length bytes.now ≡ packing.size width }
        ensures { result ≡ list_any (λ code. not (code == 0))
            (selected_items (lanes_of_words lanes.now) (packing.codes width bytes.now)) };

    /// Returns whether a code is above `most`, a number of `width` digits.
    fn any_above(width: u32, bytes: &[u8], most: u64) -> bool
        requires width { (1 ≤ width) × (width ≤ 63) }
        requires size { length bytes.now ≡ packing.size width }
        requires most { most < 2 ^ width }
        ensures { result ≡ list_any (nat_lt most) (packing.codes width bytes.now) };

    /// Returns the lanes in which a bit of the code is 1. Bit 0 is the least.
    fn bit(width: u32, bytes: &[u8], bit: u32) -> Plane
        requires width { (1 ≤ width) × (width ≤ 63) }
        requires size { length bytes.now ≡ packing.size width }
        requires bit { bit < width }
        ensures { lanes_of_words result
            ≡ map (λ code. has_bit code bit) (packing.codes width bytes.now) };

    /// Returns the lanes in which a byte of the code is less than `c`. Byte 0 is the least.
    fn byte_lt(width: u32, bytes: &[u8], slice: usize, c: u8) -> Plane
        requires width { (1 ≤ width) × (width ≤ 63) }
        requires size { length bytes.now ≡ packing.size width }
        requires slice { 8 * slice < width }
        ensures { lanes_of_words result
            ≡ map (λ code. nat_lt (byte_of slice code) c) (packing.codes width bytes.now) };

    /// Returns the lanes in which a byte of the code is `c`. Byte 0 is the least.
    fn byte_eq(width: u32, bytes: &[u8], slice: usize, c: u8) -> Plane
        requires width { (1 ≤ width) × (width ≤ 63) }
        requires size { length bytes.now ≡ packing.size width }
        requires slice { 8 * slice < width }
        ensures { lanes_of_words result
            ≡ map (λ code. byte_of slice code == c) (packing.codes width bytes.now) };

    /// Returns the sum of the codes in these lanes.
    fn sum(width: u32, bytes: &[u8], lanes: &Selection) -> u128
        requires width { (1 ≤ width) × (width ≤ 63) }
        requires size { length bytes.now ≡ packing.size width }
        requires small { All (λ code. code < 2 ^ width) (packing.codes width bytes.now) }
        ensures sum { result
            ≡ sum (selected_items (lanes_of_words lanes.now) (packing.codes width bytes.now)) }
        ensures bound { result ≤ 2 ^ 72 };

    /// Returns the minimum of the codes in these lanes, or None if there are no lanes.
    fn least(width: u32, bytes: &[u8], lanes: &Selection) -> Option<u64>
        requires width { (1 ≤ width) × (width ≤ 63) }
        requires size { length bytes.now ≡ packing.size width }
        requires small { All (λ code. code < 2 ^ width) (packing.codes width bytes.now) }
        ensures least { result
            ≡ reduce min (selected_items (lanes_of_words lanes.now)
            (packing.codes width bytes.now)) }
        ensures bound { IfSome result (λ code. code < 2 ^ 63) };

    /// Returns the maximum of the codes in these lanes, or None if there are no lanes.
    fn greatest(width: u32, bytes: &[u8], lanes: &Selection) -> Option<u64>
        requires width { (1 ≤ width) × (width ≤ 63) }
        requires size { length bytes.now ≡ packing.size width }
        requires small { All (λ code. code < 2 ^ width) (packing.codes width bytes.now) }
        ensures greatest { result
            ≡ reduce max (selected_items (lanes_of_words lanes.now)
            (packing.codes width bytes.now)) }
        ensures bound { IfSome result (λ code. code < 2 ^ 63) };

    /// Returns true only if no code in these lanes is beyond `other`: above it, or below it if the
    /// least is sought. It may return false then too: only some of the highest digits are read, and
    /// fewer of them if the caller says that the lanes are few.
    fn none_beyond(
        width: u32,
        bytes: &[u8],
        lanes: &Selection,
        are_few: bool,
        other: u64,
        which: Extreme,
    ) -> bool
        requires width { (1 ≤ width) × (width ≤ 63) }
        requires size { length bytes.now ≡ packing.size width }
        requires small { All (λ code. code < 2 ^ width) (packing.codes width bytes.now) }
        requires other { other < 2 ^ 63 }
        ensures { result ≡ true → list_any (is_beyond (is_greatest which) other)
            (selected_items (lanes_of_words lanes.now) (packing.codes width bytes.now)) ≡ false };

    /// Returns the code in a lane.
    fn code(width: u32, bytes: &[u8], lane: usize) -> u64
        requires width { (1 ≤ width) × (width ≤ 63) }
        requires size { length bytes.now ≡ packing.size width }
        requires lane { lane < 512 }
        ensures { result ≡ slice_index (packing.codes width bytes.now) lane };

    /// Sets `codes` to the code of each lane.
    fn unpack(width: u32, bytes: &[u8], codes: &mut [u64; LANES])
        requires width { (1 ≤ width) × (width ≤ 63) }
        requires size { length bytes.now ≡ packing.size width }
        ensures { codes.new ≡ packing.codes width bytes.now };

    /// A law: the bytes of codes spell these codes.
    fn keeps_codes()
        ensures { IsPacking packing };
}

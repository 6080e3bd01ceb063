//! Codes stored as planes, and the results of their kernels.
ghost use Rattle.std.specs.Prelude.{◌≡◌, ◌+◌, ◌-◌, ◌*◌, ◌/◌, ◌%◌, ◌^◌, ◌<◌, ◌≤◌, IfSome, false};
ghost use Rattle.std.specs.Prelude.{if◌then◌else◌, length, map, max, min, nat_lt, not, true};
ghost use Rattle.std.specs.List.{list_any, reduce};
ghost use Rattle.bw_lanes.specs.Lanes.{lanes_of_words};
ghost use Rattle.bw_model.specs.Code.{has_bit};
ghost use Rattle.bw_model.specs.Selection.{selected_items};
ghost use Rattle.bw_model.specs.StoredCodes.{byte_of};
ghost use Rattle.bw_segment.specs.Selected.{is_beyond, is_greatest};
ghost use Rattle.bw_planes.specs.Planes.{plane_packing, planes_codes};

use crate::compare::{at_least, byte_at_least, eq, equal_step};
use crate::sum::{is_dense, sum_in_planes, sum_in_word};
use bw_lanes::{
    LANES, Plane, Selection, and, bytes_bit, is_zero, load, not, or, push_bit, to_bytes,
};
use bw_model::Fault;
use bw_segment::{CodeLayout, Extreme, push_byte, put_byte, slices_of};

/// Codes stored as planes, one for each bit, from the top bit down, 64 bytes each: bit i mod 8, the
/// least first, of byte i / 8 is row i's.
pub struct Planes;

impl CodeLayout for Planes {
    ghost packing = { plane_packing };

    fn size(width: u32) -> usize {
        64 * width as usize
    }

    fn push_codes(bytes: &mut Vec<u8>, width: u32, codes: &[u64; LANES]) -> Result<(), Fault> {
        let slices = slices_of(codes, (width as usize + 7) / 8);
        for place in 0..width {
            let bit = width - 1 - place;
            let plane = to_bytes(&bytes_bit(&slices[bit as usize / 8], bit % 8));
            bytes.extend_from_slice(&plane)?;
        }
        Ok(())
    }

    #[tactic(auto, using(crate::proofs::CompareLemmas::used_steps))]
    fn nonzero_lanes(width: u32, bytes: &[u8]) -> Plane {
        let mut used = [0; 8];
        for bit in 0..width as usize {
            used = or(&used, &plane_of(width, bytes, bit));
        }
        used
    }

    // The ones at the lower end of the number change nothing, and nor do those bits of the codes.
    fn above(width: u32, bytes: &[u8], most: u64) -> Plane {
        let low = most.trailing_ones();
        at_least(width, bytes, low, width - low, (most >> low) + 1)
    }

    fn any_nonzero(width: u32, bytes: &[u8], lanes: &Plane) -> bool {
        !is_zero(&and(lanes, &Planes::nonzero_lanes(width, bytes)))
    }

    fn any_above(width: u32, bytes: &[u8], most: u64) -> bool {
        !none_is_near(width, bytes, most) && !is_zero(&Planes::above(width, bytes, most))
    }

    #[inline(always)]
    fn bit(width: u32, bytes: &[u8], bit: u32) -> Plane {
        plane_of(width, bytes, bit as usize)
    }

    // Compiled into the loop of a run, as `byte_eq` is: a plane that a call leaves in memory would
    // be cleared for each step.
    #[inline(always)]
    fn byte_lt(width: u32, bytes: &[u8], slice: usize, c: u8) -> Plane {
        let low = 8 * slice as u32;
        not(&byte_at_least(width, bytes, low, (width - low).min(8), c))
    }

    #[inline(always)]
    fn byte_eq(width: u32, bytes: &[u8], slice: usize, c: u8) -> Plane {
        let low = 8 * slice as u32;
        eq(width, bytes, low, (width - low).min(8), c)
    }

    #[tactic(auto, using(crate::proofs::SumLemmas::word_sums))]
    fn sum(width: u32, bytes: &[u8], lanes: &Selection) -> u128 {
        if is_dense(lanes) {
            return sum_in_planes(width, bytes, lanes);
        }
        let mut sum = 0;
        for word in 0..8 {
            if lanes[word] != 0 {
                sum += sum_in_word(width, bytes, word, lanes[word]);
            }
        }
        sum
    }

    fn least(width: u32, bytes: &[u8], lanes: &Selection) -> Option<u64> {
        chosen_code(width, bytes, lanes, Extreme::Least)
    }

    fn greatest(width: u32, bytes: &[u8], lanes: &Selection) -> Option<u64> {
        chosen_code(width, bytes, lanes, Extreme::Greatest)
    }

    fn none_beyond(
        width: u32,
        bytes: &[u8],
        lanes: &Selection,
        are_few: bool,
        other: u64,
        which: Extreme,
    ) -> bool {
        if are_few && FIRST < width {
            are_far(width, bytes, lanes, FIRST, other, which)
        } else {
            are_many_far(width, bytes, lanes, other, which)
        }
    }

    #[tactic(auto, using(crate::proofs::CodeLemmas::code_steps))]
    fn code(width: u32, bytes: &[u8], lane: usize) -> u64 {
        let mut code = 0;
        for place in 0..width as usize {
            let byte = bytes[64 * place + lane / 8];
            code = 2 * code + u64::from(byte >> (lane % 8) & 1);
        }
        code
    }

    #[tactic(auto, using(crate::proofs::CodeLemmas::byte_steps))]
    fn unpack(width: u32, bytes: &[u8], codes: &mut [u64; LANES]) {
        let slices = (width as usize + 7) / 8;
        put_byte(codes, &byte_at(width, bytes, slices - 1));
        for place in 1..slices {
            push_byte(codes, &byte_at(width, bytes, slices - 1 - place));
        }
    }

    fn keeps_codes() {}
}

/// Returns the maximum or the minimum of the codes in the lanes, or None if there are no lanes.
/// From the top bit down, the lanes that remain are those in which the bit is 1, or 0 for the
/// minimum, or all of them if there are none of these.
#[inline(always)]
fn chosen_code(width: u32, bytes: &[u8], lanes: &Selection, which: Extreme) -> Option<u64>
    requires width { (1 ≤ width) × (width ≤ 63) }
    requires size { length bytes.now ≡ 64 * width }
    ensures chosen { result ≡ reduce (if is_greatest which then max else min)
        (selected_items (lanes_of_words lanes.now) (planes_codes width bytes.now)) }
    ensures bound { IfSome result (λ code. code < 2 ^ 63) }
{
    if is_zero(lanes) {
        return None;
    }
    let is_sought = which.is_greatest();
    let mut left = *lanes;
    let mut code = 0;
    for place in 0..width {
        let plane = Planes::bit(width, bytes, width - 1 - place);
        let sought = equal_step(&left, &plane, is_sought);
        code *= 2;
        if is_zero(&sought) {
            code += u64::from(!is_sought);
        } else {
            code += u64::from(is_sought);
            left = sought;
        }
    }
    Some(code)
}

/// In nearly all segments, this many of the highest digits suffice to show that no code is above a
/// number. If 512 codes are spread over all possible values, one of them has the same such digits
/// as the maximum in one of sixteen cases.
const HIGHEST: u32 = 14;

/// Returns whether the codes' highest digits show that none is above a number. They don't if a few
/// digits suffice anyway.
#[inline(always)]
fn none_is_near(width: u32, bytes: &[u8], most: u64) -> bool
    requires width { (1 ≤ width) × (width ≤ 63) }
    requires size { length bytes.now ≡ 64 * width }
    ensures { result ≡ true → list_any (nat_lt most) (planes_codes width bytes.now) ≡ false }
{
    if most.trailing_ones() + HIGHEST >= width {
        return false;
    }
    let low = width - HIGHEST;
    is_zero(&at_least(width, bytes, low, HIGHEST, most >> low))
}

/// If a code of few is above or below the one of many others that is the maximum or the minimum,
/// this many of its highest digits are the same as that code's, or beyond them.
const FIRST: u32 = 6;

/// Returns true only if the highest digits, this many, show that no code in these lanes is beyond
/// `other`. It is compiled into its callers, so that the loop over a few digits is unrolled.
#[inline(always)]
fn are_far(
    width: u32,
    bytes: &[u8],
    lanes: &Selection,
    digits: u32,
    other: u64,
    which: Extreme,
) -> bool
    requires width { (1 ≤ width) × (width ≤ 63) }
    requires size { length bytes.now ≡ 64 * width }
    requires digits { (1 ≤ digits) × (digits ≤ width) }
    requires other { other < 2 ^ 63 }
    ensures { result ≡ true → list_any (is_beyond (is_greatest which) other)
        (selected_items (lanes_of_words lanes.now) (planes_codes width bytes.now)) ≡ false }
{
    is_zero(&and(lanes, &near(width, bytes, digits, other, which)))
}

/// Does this with more of the highest digits, or with all. It isn't compiled into its caller, which
/// takes less time for a few lanes then.
#[inline(never)]
fn are_many_far(width: u32, bytes: &[u8], lanes: &Selection, other: u64, which: Extreme) -> bool
    requires width { (1 ≤ width) × (width ≤ 63) }
    requires size { length bytes.now ≡ 64 * width }
    requires other { other < 2 ^ 63 }
    ensures { result ≡ true → list_any (is_beyond (is_greatest which) other)
        (selected_items (lanes_of_words lanes.now) (planes_codes width bytes.now)) ≡ false }
{
    are_far(width, bytes, lanes, HIGHEST.min(width), other, which)
}

/// Returns the lanes whose highest digits, this many, don't show that the code isn't beyond
/// `other`. If these are all digits, they are the lanes in which it is.
#[inline(always)]
fn near(width: u32, bytes: &[u8], digits: u32, other: u64, which: Extreme) -> Plane
    requires width { (1 ≤ width) × (width ≤ 63) }
    requires size { length bytes.now ≡ 64 * width }
    requires digits { (1 ≤ digits) × (digits ≤ width) }
    requires other { other < 2 ^ 63 }
    ensures { lanes_of_words result ≡ map (λ code. if is_greatest which
        then not (nat_lt (code / 2 ^ (width - digits) % 2 ^ digits)
        ((other + 1) / 2 ^ (width - digits)))
        else nat_lt (code / 2 ^ (width - digits) % 2 ^ digits)
        ((other - 1) / 2 ^ (width - digits) + 1)) (planes_codes width bytes.now) }
{
    let low = width - digits;
    match which {
        Extreme::Greatest => at_least(width, bytes, low, digits, (other + 1) >> low),
        Extreme::Least => {
            let top = (other.saturating_sub(1) >> low) + 1;
            not(&at_least(width, bytes, low, digits, top))
        }
    }
}

/// Returns the plane of a bit. Its place is computed in whole words, so that a loop over bits moves
/// from plane to plane.
#[tactic(auto, using(crate::proofs::CodeLemmas::plane_loaded))]
#[inline(always)]
pub(crate) fn plane_of(width: u32, bytes: &[u8], bit: usize) -> Plane
    requires width { width ≤ 63 }
    requires size { length bytes.now ≡ 64 * width }
    requires bit { bit < width }
    ensures { lanes_of_words result
        ≡ map (λ code. has_bit code bit) (planes_codes width bytes.now) }
{
    load(&bytes[64 * (width as usize - 1 - bit)..])
}

/// Returns a byte of each code; byte 0 is the least. The planes of its bits are shifted into a byte
/// of each lane, from the top one down.
#[tactic(auto, using(crate::proofs::TransposeLemmas::byte_steps))]
fn byte_at(width: u32, bytes: &[u8], slice: usize) -> [u8; LANES]
    requires width { (1 ≤ width) × (width ≤ 63) }
    requires size { length bytes.now ≡ 64 * width }
    requires slice { 8 * slice < width }
    ensures { result ≡ map (byte_of slice) (planes_codes width bytes.now) }
{
    let low = 8 * slice as u32;
    let count = (width - low).min(8);
    let mut byte = [0; LANES];
    for place in 0..count {
        push_bit(
            &mut byte,
            &Planes::bit(width, bytes, low + count - 1 - place),
        );
    }
    byte
}

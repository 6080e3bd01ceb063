//! Comparisons of some bits of the codes with a constant, from the lowest bit up, by one operation
//! for each plane. There is no early end: to ask after each plane whether a lane is left takes
//! longer than the planes of a byte.
ghost use Rattle.std.specs.Prelude.{◌≡◌, ◌==◌, ◌&&◌, ◌||◌, if◌then◌else◌, ◌+◌, ◌*◌, ◌/◌, ◌%◌, ◌^◌};
ghost use Rattle.std.specs.Prelude.{◌<◌, ◌≤◌, length, map, nat_lt, not};
ghost use lib.Lanes.{zip2};
ghost use Rattle.bw_lanes.specs.Lanes.{lanes_of_words};
ghost use Rattle.bw_model.specs.Code.{has_bit};
ghost use Rattle.bw_planes.specs.Planes.{planes_codes};

use bw_lanes::{Plane, and, load, not, or};

/// All lanes 1.
const ONES: Plane = [u64::MAX; 8];

/// Returns the lanes in which the number that `count` bits of the code spell, from `low` upwards,
/// is at least `c`.
#[inline(always)]
pub(crate) fn at_least(width: u32, bytes: &[u8], low: u32, count: u32, c: u64) -> Plane
    requires width { (1 ≤ width) × (width ≤ 63) }
    requires size { length bytes.now ≡ 64 * width }
    requires bits { low + count ≤ width }
    ensures { lanes_of_words result
        ≡ map (λ code. not (nat_lt (code / 2 ^ low % 2 ^ count) c)) (planes_codes width bytes.now) }
{
    if c >> count != 0 {
        return [0; 8];
    }
    if count == 8 {
        low_at_least(width, bytes, low, 8, c)
    } else {
        low_at_least(width, bytes, low, count, c)
    }
}

/// Compares at most 8 bits with a byte, which has no more bits than a whole byte of the
/// code. If it is a multiple of 8, the three lowest of these bits change nothing.
#[inline(always)]
pub(crate) fn byte_at_least(width: u32, bytes: &[u8], low: u32, count: u32, c: u8) -> Plane
    requires width { (1 ≤ width) × (width ≤ 63) }
    requires size { length bytes.now ≡ 64 * width }
    requires bits { low + count ≤ width }
    ensures { lanes_of_words result
        ≡ map (λ code. not (nat_lt (code / 2 ^ low % 2 ^ count) c)) (planes_codes width bytes.now) }
{
    if count != 8 {
        at_least(width, bytes, low, count, u64::from(c))
    } else if c % 8 == 0 {
        low_at_least(width, bytes, low + 3, 5, u64::from(c / 8))
    } else {
        low_at_least(width, bytes, low, 8, u64::from(c))
    }
}

/// Compares with a constant that has no higher bit. It is compiled into its callers, so
/// that the loop over the planes of a whole byte, the usual case, is unrolled.
#[tactic(auto, using(crate::proofs::CompareLemmas::comparison))]
#[inline(always)]
fn low_at_least(width: u32, bytes: &[u8], low: u32, count: u32, c: u64) -> Plane
    requires width { (1 ≤ width) × (width ≤ 63) }
    requires size { length bytes.now ≡ 64 * width }
    requires bits { low + count ≤ width }
    requires top { c / 2 ^ count ≡ 0 }
    ensures { lanes_of_words result
        ≡ map (λ code. not (nat_lt (code / 2 ^ low % 2 ^ count) c)) (planes_codes width bytes.now) }
{
    let mut at_least = ONES;
    for place in 0..count as usize {
        let plane = plane_above(width, bytes, low, place);
        at_least = at_least_step(&at_least, &plane, c >> place & 1 == 1);
    }
    at_least
}

/// Returns the lanes in which the number that `count` bits of the code spell, from `low` upwards,
/// is `c`.
#[inline(always)]
pub(crate) fn eq(width: u32, bytes: &[u8], low: u32, count: u32, c: u8) -> Plane
    requires width { (1 ≤ width) × (width ≤ 63) }
    requires size { length bytes.now ≡ 64 * width }
    requires bits { low + count ≤ width }
    requires byte { (1 ≤ count) × (count ≤ 8) }
    ensures { lanes_of_words result
        ≡ map (λ code. code / 2 ^ low % 2 ^ count == c) (planes_codes width bytes.now) }
{
    if count == 8 {
        return low_eq(width, bytes, low, 8, c);
    }
    if c as u32 >> count != 0 {
        return [0; 8];
    }
    low_eq(width, bytes, low, count, c)
}

/// Returns the lanes in which this number has the `count` lowest bits of `c`. The loop ends early,
/// and not at the number of bits, so that it is unrolled for every number.
#[tactic(auto, using(crate::proofs::CompareLemmas::comparison))]
#[inline(always)]
fn low_eq(width: u32, bytes: &[u8], low: u32, count: u32, c: u8) -> Plane
    requires width { (1 ≤ width) × (width ≤ 63) }
    requires size { length bytes.now ≡ 64 * width }
    requires bits { low + count ≤ width }
    requires byte { (1 ≤ count) × (count ≤ 8) }
    ensures { lanes_of_words result
        ≡ map (λ code. code / 2 ^ low % 2 ^ count == c % 2 ^ count) (planes_codes width bytes.now) }
{
    let mut equal = ONES;
    for place in 0..8 {
        let plane = plane_above(width, bytes, low, place);
        equal = equal_step(&equal, &plane, c >> place & 1 == 1);
        if place + 1 == count as usize {
            break;
        }
    }
    equal
}

/// Returns the plane of the bit `low + place`. Its place is computed from that of `low`, so that in
/// an unrolled loop it is a constant number of bytes away.
#[inline(always)]
fn plane_above(width: u32, bytes: &[u8], low: u32, place: usize) -> Plane
    requires width { width ≤ 63 }
    requires size { length bytes.now ≡ 64 * width }
    requires bit { low + place < width }
    ensures { lanes_of_words result
        ≡ map (λ code. has_bit code (low + place)) (planes_codes width bytes.now) }
{
    let end = (width - low) as usize;
    load(&bytes[64 * (end - 1 - place)..])
}

/// Returns the lanes that are at least the constant with one bit more, its highest so far. If that
/// is 1, they are those that have it too and were at least the constant so far; if it is 0, those
/// that have a 1 or were.
fn at_least_step(at_least: &Plane, plane: &Plane, one: bool) -> Plane
    ensures { lanes_of_words result ≡ zip2 (λ a p. if one then a && p else (a || p))
        (lanes_of_words at_least.now) (lanes_of_words plane.now) }
{
    if one {
        and(at_least, plane)
    } else {
        or(at_least, plane)
    }
}

/// Returns those lanes that have this bit in a plane.
#[tactic(auto, using(crate::proofs::CompareLemmas::zip2_map_right))]
pub(crate) fn equal_step(lanes: &Plane, plane: &Plane, one: bool) -> Plane
    ensures { lanes_of_words result ≡ zip2 (λ l p. l && (if one then p else not p))
        (lanes_of_words lanes.now) (lanes_of_words plane.now) }
{
    if one {
        and(lanes, plane)
    } else {
        and(lanes, &not(plane))
    }
}

//! Comparisons of the codes with a number, from the least significant byte up, by vectors of 64
//! bytes.
ghost use Rattle.std.specs.Prelude.{◌≡◌, ◌==◌, ◌&&◌, ◌||◌, ◌+◌, ◌*◌, ◌^◌, ◌<◌, ◌≤◌, drop, length};
ghost use Rattle.std.specs.Prelude.{map, nat_lt, not, take};
ghost use Rattle.std.specs.List.{list_any};
ghost use lib.Lanes.{zip2};
ghost use Rattle.bw_lanes.specs.Lanes.{bits_from_least, lanes_of_words};
ghost use Rattle.bw_model.specs.StoredCodes.{byte_of};
ghost use Rattle.bw_slices.specs.Slices.{slices_codes};

use bw_lanes::{LANES, Plane};
use std::simd::prelude::*;

/// Returns the lanes in which the number that `slices` slices spell is above `most`, which has as
/// many bytes. One to three slices have a call of their own, without a loop over slices.
pub(crate) fn lanes_above(bytes: &[u8], slices: usize, most: u64) -> Plane
    requires size { 512 * slices ≤ length bytes.now }
    requires within_limit { slices ≤ 8 }
    requires most { most < 2 ^ (8 * slices) }
    ensures { lanes_of_words result ≡ map (nat_lt most) (slices_codes slices bytes.now) }
{
    match slices {
        1 => above_by(bytes, 1, most),
        2 => above_by(bytes, 2, most),
        3 => above_by(bytes, 3, most),
        _ => above_by(bytes, slices, most),
    }
}

/// Does this for any number of slices.
#[tactic(auto, using(crate::proofs::AboveLemmas::above_steps))]
#[inline(always)]
fn above_by(bytes: &[u8], slices: usize, most: u64) -> Plane
    requires size { 512 * slices ≤ length bytes.now }
    requires within_limit { slices ≤ 8 }
    requires most { most < 2 ^ (8 * slices) }
    ensures { lanes_of_words result ≡ map (nat_lt most) (slices_codes slices bytes.now) }
{
    let mut words = [0; 8];
    for word in 0..8 {
        words[word] = bits_of_set(set_above(bytes, slices, 64 * word, most));
    }
    words
}

/// Returns whether one of the numbers that `slices` slices spell is above `most`.
#[inline(always)]
pub(crate) fn any_above(bytes: &[u8], slices: usize, most: u64) -> bool
    requires size { 512 * slices ≤ length bytes.now }
    requires within_limit { slices ≤ 8 }
    requires most { most < 2 ^ (8 * slices) }
    ensures { result ≡ list_any (nat_lt most) (slices_codes slices bytes.now) }
{
    let mut any = u8x64::splat(0);
    for word in 0..8 {
        any = any | set_above(bytes, slices, 64 * word, most);
    }
    any.reduce_or() != 0
}

/// Returns one byte for each of 64 rows, from `first` on, which isn't 0 if the row's number is
/// above `most`.
#[inline(always)]
fn set_above(bytes: &[u8], slices: usize, first: usize, most: u64) -> u8x64
    requires size { 512 * slices ≤ length bytes.now }
    requires within_limit { slices ≤ 8 }
    requires rows { first + 64 ≤ 512 }
    requires most { most < 2 ^ (8 * slices) }
    ensures { map (λ byte. not (byte == 0)) result
        ≡ map (nat_lt most) (take 64 (drop first (slices_codes slices bytes.now))) }
{
    let mut set = u8x64::splat(0);
    for slice in 0..slices {
        let here = u8x64::from_slice(&bytes[LANES * (slices - 1 - slice) + first..]);
        set = next_above(set, here, byte_at(most, slice));
    }
    set
}

/// Returns these bytes after one more is compared: `bytes` of the rows, and `c` of the number.
#[inline(always)]
fn next_above(set: u8x64, bytes: u8x64, c: u8) -> u8x64
    ensures { map (λ byte. not (byte == 0)) result
        ≡ zip2 (λ above byte. nat_lt c byte || ((byte == c) && above))
        (map (λ byte. not (byte == 0)) set) bytes }
{
    let byte = u8x64::splat(c);
    bytes.saturating_sub(byte) | bytes.simd_eq(byte).select(set, u8x64::splat(0))
}

/// Returns a byte of a number; byte 0 is the least.
fn byte_at(n: u64, slice: usize) -> u8
    requires { slice < 8 }
    ensures { result ≡ byte_of slice n }
{
    (n >> (8 * slice) & 0xFF) as u8
}

/// Returns one bit for each byte: whether it isn't 0.
fn bits_of_set(bytes: u8x64) -> u64
    ensures { bits_from_least 64 result ≡ map (λ byte. not (byte == 0)) bytes }
{
    !bytes.simd_eq(u8x64::splat(0)).to_bitmask()
}

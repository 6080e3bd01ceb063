//! Comparisons and bits of one byte of each of 512 rows, by vectors of 64 bytes.
ghost use Rattle.std.specs.Prelude.{◌≡◌, ◌==◌, ◌&&◌, ◌+◌, ◌*◌, ◌<◌, ◌≤◌, length, map, nat_lt, not};
ghost use Rattle.std.specs.List.{list_any, range_with_len};
ghost use Rattle.std.specs.Int.{bit_at};
ghost use lib.Lanes.{zip2};
ghost use Rattle.bw_lanes.specs.Lanes.{bits_from_least, lanes_of_words, are_zero};

use crate::lanes::LANES;
use crate::plane::Plane;
use crate::selected::greater;
use std::simd::prelude::*;

/// Returns the rows whose byte is less than `c`. Byte i is row i's. The bytes are compared with the
/// number below, since the processor has no instruction for "less", but two for "at most".
#[tactic(auto, using(crate::proofs::WordLemmas::words_made))]
#[inline(always)]
pub fn bytes_lt(bytes: &[u8; LANES], c: u8) -> Plane
    ensures { lanes_of_words result ≡ map (λ byte. nat_lt byte c) bytes.now }
{
    if c == 0 {
        return [0; 8];
    }
    let mut words = [0; 8];
    for word in 0..8 {
        words[word] = at_most(u8x64::from_slice(&bytes[64 * word..]), c - 1);
    }
    words
}

/// Returns the rows whose byte is `c`. Byte i is row i's.
#[tactic(auto, using(crate::proofs::WordLemmas::words_made))]
#[inline(always)]
pub fn bytes_eq(bytes: &[u8; LANES], c: u8) -> Plane
    ensures { lanes_of_words result ≡ map (λ byte. byte == c) bytes.now }
{
    let mut words = [0; 8];
    for word in 0..8 {
        words[word] = eq(u8x64::from_slice(&bytes[64 * word..]), c);
    }
    words
}

/// Returns the rows in whose byte a bit is 1; bit 0 is the least. Byte i is row i's.
#[tactic(auto, using(crate::proofs::WordLemmas::words_made))]
#[inline(always)]
pub fn bytes_bit(bytes: &[u8; LANES], bit: u32) -> Plane
    requires { bit < 8 }
    ensures { lanes_of_words result ≡ map (λ byte. bit_at byte bit == 1) bytes.now }
{
    let mut words = [0; 8];
    for word in 0..8 {
        words[word] = bit_of(u8x64::from_slice(&bytes[64 * word..]), bit);
    }
    words
}

/// Returns the rows whose bytes are 0 in each of `count` slices, one after the other. Byte i of a
/// slice is row i's.
#[tactic(auto, using(crate::proofs::WordLemmas::words_made))]
pub fn bytes_none(slices: &[u8], count: usize) -> Plane
    requires { 512 * count ≤ length slices.now }
    ensures { lanes_of_words result
        ≡ map (λ row. are_zero slices.now row count) (range_with_len 0 512) }
{
    let mut words = [0; 8];
    for word in 0..8 {
        words[word] = eq(or_slices(slices, count, 64 * word), 0);
    }
    words
}

/// Returns whether one of `rows` has a byte that isn't 0 in one of `count` slices, one after the
/// other. Byte i of a slice is row i's. If none of 64 rows is selected, their bytes aren't read.
#[tactic(auto, using(crate::proofs::AnyLemmas::any_steps))]
#[inline(always)]
pub fn bytes_any(slices: &[u8], count: usize, rows: &Plane) -> bool
    requires { 512 * count ≤ length slices.now }
    ensures { result ≡ list_any (λ lane. lane)
        (zip2 (λ among row. among && not (are_zero slices.now row count))
        (lanes_of_words rows.now) (range_with_len 0 512)) }
{
    let mut any = false;
    for word in 0..8 {
        any |= any_of_word(slices, count, 64 * word, rows[word]);
    }
    any
}

/// Returns whether one of 64 rows, from `first` on, is selected and has such a byte; `rows` is their
/// word of the plane.
#[inline(always)]
fn any_of_word(slices: &[u8], count: usize, first: usize, rows: u64) -> bool
    requires slices { 512 * count ≤ length slices.now }
    requires rows { first + 64 ≤ 512 }
    ensures { result ≡ list_any (λ lane. lane)
        (zip2 (λ among row. among && not (are_zero slices.now row count))
        (bits_from_least 64 rows) (range_with_len first 64)) }
{
    rows != 0 && rows & !eq(or_slices(slices, count, first), 0) != 0
}

/// Returns the bytes of 64 rows, from `first` on, in `count` slices, combined by OR.
#[tactic(auto, using(crate::proofs::ByteLemmas::joined_so_far))]
#[inline(always)]
fn or_slices(slices: &[u8], count: usize, first: usize) -> u8x64
    requires slices { 512 * count ≤ length slices.now }
    requires rows { first + 64 ≤ 512 }
    ensures { map (λ byte. byte == 0) result
        ≡ map (λ row. are_zero slices.now row count) (range_with_len first 64) }
{
    let mut bytes = u8x64::splat(0);
    for place in 0..count {
        bytes = bytes | u8x64::from_slice(&slices[LANES * place + first..]);
    }
    bytes
}

/// Returns one bit for each byte: whether it is at most `c`, which is then the greater of both. The
/// bytes needn't be copied for this, as they would be to compare the lesser of both with them.
#[inline(always)]
fn at_most(bytes: u8x64, c: u8) -> u64
    ensures { bits_from_least 64 result ≡ map (λ byte. nat_lt byte (c + 1)) bytes }
{
    let limit = u8x64::splat(c);
    greater(bytes, limit).simd_eq(limit).to_bitmask()
}

/// Returns one bit for each byte: whether it is `c`.
#[inline(always)]
fn eq(bytes: u8x64, c: u8) -> u64
    ensures { bits_from_least 64 result ≡ map (λ byte. byte == c) bytes }
{
    bytes.simd_eq(u8x64::splat(c)).to_bitmask()
}

/// Returns one bit of each byte.
fn bit_of(bytes: u8x64, bit: u32) -> u64
    requires { bit < 8 }
    ensures { bits_from_least 64 result ≡ map (λ byte. bit_at byte bit == 1) bytes }
{
    let place = u8x64::splat(1 << bit);
    (bytes & place).simd_eq(place).to_bitmask()
}

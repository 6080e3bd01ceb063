//! Sums of codes: plane by plane, or 64 rows at a time. The bits of these rows are in one word of
//! each plane. If none of the rows is selected, nothing is read.
ghost use Rattle.std.specs.Prelude.{◌≡◌, ◌+◌, ◌-◌, ◌*◌, ◌/◌, ◌%◌, ◌^◌, ◌<◌, ◌≤◌, ◌&&◌, length};
ghost use Rattle.std.specs.Prelude.{take, map, sum, sum_by, count_by};
ghost use lib.Lanes.{zip2};
ghost use Rattle.bw_lanes.specs.Lanes.{bits_from_least, lanes_of_bytes, lanes_of_words};
ghost use Rattle.bw_model.specs.Code.{has_bit};
ghost use Rattle.bw_model.specs.Selection.{selected_items};
ghost use Rattle.bw_planes.specs.Planes.{planes_codes, codes_in_word};

use crate::planes::plane_of;
use bw_lanes::{Selection, count_and};
use std::simd::prelude::*;

/// If more words of a selection than this have rows, the planes are read one after the other, which
/// takes less time than to read them again for each word.
const MOST: usize = 6;

/// Returns whether most words of a selection have rows.
pub(crate) fn is_dense(lanes: &Selection) -> bool {
    let mut some = 0;
    for word in 0..8 {
        some += usize::from(lanes[word] != 0);
    }
    some > MOST
}

/// Returns the sum of the codes in these lanes, plane by plane.
pub(crate) fn sum_in_planes(width: u32, bytes: &[u8], lanes: &Selection) -> u128
    requires width { (1 ≤ width) × (width ≤ 63) }
    requires size { length bytes.now ≡ 64 * width }
    ensures sum { result
        ≡ sum (selected_items (lanes_of_words lanes.now) (planes_codes width bytes.now)) }
    ensures bound { result ≤ 2 ^ 72 }
{
    let few = width.min(32);
    let lower = u128::from(sum_of_planes(width, bytes, lanes, 0, few));
    let upper = u128::from(sum_of_planes(width, bytes, lanes, few, width - few));
    lower + (upper << few)
}

/// Returns the sum of the numbers that `count` bits of these codes spell, from `low` upwards: by
/// the number of ones in each plane, from the highest down.
#[inline(always)]
fn sum_of_planes(width: u32, bytes: &[u8], lanes: &Selection, low: u32, count: u32) -> u64
    requires width { width ≤ 63 }
    requires size { length bytes.now ≡ 64 * width }
    requires bits { low + count ≤ width }
    requires within_limit { count ≤ 32 }
    ensures sum { result ≡ sum_by (λ code. code / 2 ^ low % 2 ^ count)
        (selected_items (lanes_of_words lanes.now) (planes_codes width bytes.now)) }
    ensures bound { result + 512 ≤ 512 * 2 ^ count }
{
    let top = (width - low - count) as usize;
    let mut sum = 0;
    for place in 0..count as usize {
        sum = 2 * sum + u64::from(ones_in_plane(width, bytes, lanes, top + place));
    }
    sum
}

/// Returns in how many of these lanes a plane has a 1; plane 0 is that of the highest bit.
#[inline(always)]
fn ones_in_plane(width: u32, bytes: &[u8], lanes: &Selection, plane: usize) -> u32
    requires width { width ≤ 63 }
    requires size { length bytes.now ≡ 64 * width }
    requires plane { plane < width }
    ensures ones { result ≡ count_by (λ code. has_bit code (width - 1 - plane))
        (selected_items (lanes_of_words lanes.now) (planes_codes width bytes.now)) }
    ensures bound { result ≤ 512 }
{
    count_and(lanes, &plane_of(width, bytes, width as usize - 1 - plane))
}

/// Returns the sum of the codes of selected rows among the 64 of a word.
pub(crate) fn sum_in_word(width: u32, bytes: &[u8], word: usize, rows: u64) -> u128
    requires width { (1 ≤ width) × (width ≤ 63) }
    requires size { length bytes.now ≡ 64 * width }
    requires word { word < 8 }
    ensures sum { result
        ≡ sum (selected_items (bits_from_least 64 rows)
        (codes_in_word word (planes_codes width bytes.now))) }
    ensures bound { result ≤ 2 ^ 69 }
{
    let few = width.min(32);
    let lower = sum_of_bits(width, bytes, word, rows, 0, few);
    let upper = sum_of_bits(width, bytes, word, rows, few, width - few);
    u128::from(lower) + (u128::from(upper) << few)
}

/// Returns the sum of the numbers that `count` bits of these codes spell, from `low` upwards: by
/// the number of ones in each plane, from the highest down.
#[inline(always)]
fn sum_of_bits(width: u32, bytes: &[u8], word: usize, rows: u64, low: u32, count: u32) -> u64
    requires width { width ≤ 63 }
    requires size { length bytes.now ≡ 64 * width }
    requires word { word < 8 }
    requires bits { low + count ≤ width }
    requires within_limit { count ≤ 32 }
    ensures sum { result ≡ sum_by (λ code. code / 2 ^ low % 2 ^ count)
        (selected_items (bits_from_least 64 rows)
        (codes_in_word word (planes_codes width bytes.now))) }
    ensures bound { result + 64 ≤ 64 * 2 ^ count }
{
    let top = (width - low - count) as usize;
    let mut sum = 0;
    for place in 0..count as usize {
        sum = 2 * sum + u64::from(ones_in(rows, word_of(width, bytes, word, top + place)));
    }
    sum
}

/// Returns a word of a plane; plane 0 is that of the highest bit. Its place is computed in whole
/// words, so that a loop over planes moves from one to the next.
#[inline(always)]
fn word_of(width: u32, bytes: &[u8], word: usize, plane: usize) -> u64
    requires width { width ≤ 63 }
    requires size { length bytes.now ≡ 64 * width }
    requires word { word < 8 }
    requires plane { plane < width }
    ensures { bits_from_least 64 result
        ≡ map (λ code. has_bit code (width - 1 - plane))
        (codes_in_word word (planes_codes width bytes.now)) }
{
    first_word(&bytes[64 * plane + 8 * word..])
}

/// Returns the word of the first 8 bytes.
#[inline(always)]
fn first_word(bytes: &[u8]) -> u64
    requires { 8 ≤ length bytes.now }
    ensures { bits_from_least 64 result ≡ lanes_of_bytes (take 8 bytes.now) }
{
    u64x1::from_le_bytes(u8x8::from_slice(bytes)).to_array()[0]
}

/// Returns how many bits are 1 in two words.
fn ones_in(a: u64, b: u64) -> u32
    ensures ones { result ≡ count_by (λ lane. lane)
        (zip2 (λ x y. x && y) (bits_from_least 64 a) (bits_from_least 64 b)) }
    ensures bound { result ≤ 64 }
{
    (a & b).count_ones()
}

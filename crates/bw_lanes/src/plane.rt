//! Planes: one bit of each of 512 rows, and the operations on them, by vectors of words.
ghost use Rattle.std.specs.Prelude.{◌≡◌, ◌-◌, ◌<◌, ◌≤◌, ◌^◌, ◌==◌, ◌++◌, ◌&&◌, ◌||◌, true, false};
ghost use Rattle.std.specs.Prelude.{not, if◌then◌else◌, map, count_by, nat_lt, replicate};
ghost use Rattle.std.specs.Prelude.{slice_index_or};
ghost use Rattle.std.specs.List.{flat_map, list_all, range_with_len};
ghost use lib.Lanes.{zip2};
ghost use Rattle.bw_lanes.specs.Lanes.{bits_from_least, lanes_of_words, differ};

use std::simd::prelude::*;

/// One bit of each of 512 rows: row i's is bit i mod 64, the least first, of word i / 64.
pub type Plane = [u64; 8];

/// Selected rows of a segment: a plane with a 1 in the lane of each, and no other 1.
pub type Selection = Plane;

/// Returns the lanes that are 1 in both.
#[tactic(auto, using(crate::proofs::WordLemmas::lanes_of_and))]
pub fn and(a: &Plane, b: &Plane) -> Plane
    ensures { lanes_of_words result
        ≡ zip2 (λ x y. x && y) (lanes_of_words a.now) (lanes_of_words b.now) }
{
    (u64x8::from_array(*a) & u64x8::from_array(*b)).to_array()
}

/// Returns the lanes that are 1 in either.
#[tactic(auto, using(crate::proofs::WordLemmas::lanes_of_or))]
pub fn or(a: &Plane, b: &Plane) -> Plane
    ensures { lanes_of_words result
        ≡ zip2 (λ x y. x || y) (lanes_of_words a.now) (lanes_of_words b.now) }
{
    (u64x8::from_array(*a) | u64x8::from_array(*b)).to_array()
}

/// Returns the lanes that differ.
#[tactic(auto, using(crate::proofs::WordLemmas::lanes_of_xor))]
pub fn xor(a: &Plane, b: &Plane) -> Plane
    ensures { lanes_of_words result ≡ zip2 differ (lanes_of_words a.now) (lanes_of_words b.now) }
{
    (u64x8::from_array(*a) ^ u64x8::from_array(*b)).to_array()
}

/// Returns the lanes that are 0.
pub fn not(plane: &Plane) -> Plane
    ensures { lanes_of_words result ≡ map not (lanes_of_words plane.now) }
{
    invert(u64x8::from_array(*plane)).to_array()
}

/// Returns whether all 512 lanes are 0.
pub fn is_zero(plane: &Plane) -> bool
    ensures { result ≡ list_all not (lanes_of_words plane.now) }
{
    has_no_one(u64x8::from_array(*plane))
}

/// Returns the lane of a row, from 0.
#[tactic(auto, using(crate::proofs::WordLemmas::lane_of_words))]
pub fn lane(plane: &Plane, row: usize) -> bool
    requires { row < 512 }
    ensures { result ≡ slice_index_or (lanes_of_words plane.now) row false }
{
    plane[row / 64] >> (row % 64) & 1 == 1
}

/// Returns how many lanes are 1, word by word: the processor counts the ones of a word.
#[tactic(auto, using(crate::proofs::WordLemmas::ones_so_far))]
pub fn count(plane: &Plane) -> u32
    ensures ones { result ≡ count_by (λ lane. lane) (lanes_of_words plane.now) }
    ensures bound { result ≤ 512 }
{
    let mut ones = 0;
    for word in 0..8 {
        ones += ones_of(plane[word]);
    }
    ones
}

/// Returns how many lanes are 1 in both.
#[tactic(auto, using(crate::proofs::WordLemmas::lanes_of_and))]
pub fn count_and(a: &Plane, b: &Plane) -> u32
    ensures ones { result ≡ count_by (λ lane. lane)
        (zip2 (λ x y. x && y) (lanes_of_words a.now) (lanes_of_words b.now)) }
    ensures bound { result ≤ 512 }
{
    ones_in(u64x8::from_array(*a) & u64x8::from_array(*b))
}

/// Returns the plane in which the first `rows` lanes are 1, and the others 0.
#[tactic(auto, using(crate::proofs::WordLemmas::masked))]
pub fn mask(rows: u32) -> Plane
    requires { rows ≤ 512 }
    ensures { lanes_of_words result ≡ replicate rows true ++ replicate (512 - rows) false }
{
    ones_and_last(u64::from(rows / 64), (1 << (rows % 64)) - 1).to_array()
}

/// Returns how many lanes of a word are 1.
#[tactic(auto, using(crate::proofs::WordLemmas::ones_in_bits))]
fn ones_of(word: u64) -> u32
    ensures ones { result ≡ count_by (λ lane. lane) (bits_from_least 64 word) }
    ensures bound { result ≤ 64 }
{
    word.count_ones()
}

/// Returns how many lanes are 1.
fn ones_in(words: u64x8) -> u32
    ensures ones { result ≡ count_by (λ lane. lane) (lanes_of_words words) }
    ensures bound { result ≤ 512 }
{
    words.count_ones().strict_reduce_sum() as u32
}

/// The numbers of a plane's words.
const NUMBERS: [u64; 8] = [0, 1, 2, 3, 4, 5, 6, 7];

/// Returns a plane whose first `whole` words are 1 in all lanes, the next one is `last`, and those
/// after it are 0.
fn ones_and_last(whole: u64, last: u64) -> u64x8
    ensures { result ≡ map (λ word. if nat_lt word whole then 2 ^ 64 - 1 else if word == whole
        then last else 0) (range_with_len 0 8) }
{
    let numbers = u64x8::from_array(NUMBERS);
    let whole = u64x8::splat(whole);
    let rest = numbers
        .simd_eq(whole)
        .select(u64x8::splat(last), u64x8::splat(0));
    numbers.simd_lt(whole).select(u64x8::splat(u64::MAX), rest)
}

/// Returns the lanes that are 0.
#[tactic(auto, using(crate::proofs::WordLemmas::lanes_of_not))]
fn invert(words: u64x8) -> u64x8
    ensures { lanes_of_words result ≡ map not (lanes_of_words words) }
{
    !words
}

/// Returns whether no lane is 1.
#[tactic(auto, using(crate::proofs::WordLemmas::no_word))]
fn has_no_one(words: u64x8) -> bool
    ensures { result ≡ list_all not (lanes_of_words words) }
{
    words.reduce_or() == 0
}

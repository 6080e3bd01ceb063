//! Comparisons of one code of each of 512 rows with another, by vectors of 64 codes.
ghost use Rattle.std.specs.Prelude.{◌≡◌, ◌==◌, nat_lt};
ghost use lib.Lanes.{zip2};
ghost use Rattle.bw_lanes.specs.Lanes.{bits_from_least, lanes_of_words};

use crate::lanes::LANES;
use crate::plane::Plane;
use std::simd::prelude::*;

/// Returns the rows whose code in `xs` is less than that in `ys`. Code i is row i's.
#[tactic(auto, using(crate::proofs::WordLemmas::zips_made))]
pub fn codes_lt(xs: &[u64; LANES], ys: &[u64; LANES]) -> Plane
    ensures { lanes_of_words result ≡ zip2 nat_lt xs.now ys.now }
{
    let mut words = [0; 8];
    for word in 0..8 {
        words[word] = lt(
            u64x64::from_slice(&xs[64 * word..]),
            u64x64::from_slice(&ys[64 * word..]),
        );
    }
    words
}

/// Returns the rows whose codes in `xs` and `ys` are equal. Code i is row i's.
#[tactic(auto, using(crate::proofs::WordLemmas::zips_made))]
pub fn codes_eq(xs: &[u64; LANES], ys: &[u64; LANES]) -> Plane
    ensures { lanes_of_words result ≡ zip2 (λ x y. x == y) xs.now ys.now }
{
    let mut words = [0; 8];
    for word in 0..8 {
        words[word] = eq(
            u64x64::from_slice(&xs[64 * word..]),
            u64x64::from_slice(&ys[64 * word..]),
        );
    }
    words
}

/// Returns one bit for each code: whether it is less than the other one.
fn lt(xs: u64x64, ys: u64x64) -> u64
    ensures { bits_from_least 64 result ≡ zip2 nat_lt xs ys }
{
    xs.simd_lt(ys).to_bitmask()
}

/// Returns one bit for each code: whether it equals the other one.
fn eq(xs: u64x64, ys: u64x64) -> u64
    ensures { bits_from_least 64 result ≡ zip2 (λ x y. x == y) xs ys }
{
    xs.simd_eq(ys).to_bitmask()
}

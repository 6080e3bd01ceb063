//! A bit of each of 512 rows, shifted into a byte of each row, by vectors of 64 bytes.
ghost use Rattle.std.specs.Prelude.{◌≡◌};
ghost use lib.Lanes.{zip2};
ghost use Rattle.bw_lanes.specs.Lanes.{bits_from_least, lanes_of_words};
ghost use Rattle.bw_lanes.specs.Shifted.{with_bit};

use crate::lanes::LANES;
use crate::plane::Plane;
use crate::selected::{bytes_of_word, put};
use std::simd::prelude::*;

/// Shifts one more bit into a byte of each lane: each byte becomes its double, plus 1 if the
/// plane's lane is 1, modulo 256. Byte i is row i's.
///
/// So the planes of codes, in BitWeaving's vertical layout, become bytes of the codes, from the
/// most significant bit down.
#[tactic(auto, using(crate::proofs::WordLemmas::parts_written))]
pub fn push_bit(bytes: &mut [u8; LANES], plane: &Plane)
    ensures { bytes.new ≡ zip2 with_bit bytes.old (lanes_of_words plane.now) }
{
    for word in 0..8 {
        let some = with_bits(u8x64::from_slice(&bytes[64 * word..]), plane[word]);
        put(bytes, word, some);
    }
}

/// Returns the bytes of 64 rows, each with a bit of their word shifted in.
#[tactic(auto, using(crate::proofs::SelectedLemmas::shifted_computed))]
fn with_bits(bytes: u8x64, word: u64) -> u8x64
    ensures { result ≡ zip2 with_bit bytes (bits_from_least 64 word) }
{
    bytes + bytes - bytes_of_word(word)
}

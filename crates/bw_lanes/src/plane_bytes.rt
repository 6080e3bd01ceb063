//! Planes as they are stored: 64 bytes; row i's bit is bit i mod 8, the least first, of byte i / 8.
ghost use Rattle.std.specs.Prelude.{◌≡◌, ◌≤◌, length, take};
ghost use Rattle.bw_lanes.specs.Lanes.{lanes_of_words, lanes_of_bytes, bytes_of_lanes};

use crate::plane::Plane;
use std::simd::prelude::*;

/// Returns the plane of the first 64 bytes.
pub fn load(bytes: &[u8]) -> Plane
    requires { 64 ≤ length bytes.now }
    ensures { lanes_of_words result ≡ lanes_of_bytes (take 64 bytes.now) }
{
    words_of(u8x64::from_slice(bytes)).to_array()
}

/// Returns the bytes of a plane.
pub fn to_bytes(plane: &Plane) -> [u8; 64]
    ensures { result ≡ bytes_of_lanes (lanes_of_words plane.now) }
{
    bytes_of(u64x8::from_array(*plane)).to_array()
}

/// Returns the words of the bytes, little-endian.
#[tactic(auto, using(crate::proofs::StoredLemmas::words_recoded))]
fn words_of(bytes: u8x64) -> u64x8
    ensures { lanes_of_words result ≡ lanes_of_bytes bytes }
{
    u64x8::from_le_bytes(bytes)
}

/// Returns the bytes of the words, little-endian.
#[tactic(auto, using(crate::proofs::StoredLemmas::bytes_recoded))]
fn bytes_of(words: u64x8) -> u8x64
    ensures { result ≡ bytes_of_lanes (lanes_of_words words) }
{
    words.to_le_bytes()
}

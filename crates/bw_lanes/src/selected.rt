//! Selected rows of 512, as one byte each, and the bytes of a slice in these rows, by vectors of 64
//! bytes.
ghost use Rattle.std.specs.Prelude.{◌≡◌, ◌==◌, ◌&&◌, ◌<◌, ◌≤◌, ◌*◌, ℕ, List, Bool, length, min};
ghost use Rattle.std.specs.Prelude.{max, sum, map, if◌then◌else◌};
ghost use Rattle.std.specs.List.{fold};
ghost use lib.Lanes.{zip2, sum_l, put_chunk};
ghost use Rattle.bw_lanes.specs.Lanes.{bits_from_least, lanes_of_words};
ghost use Rattle.bw_lanes.specs.Selected.{as_byte, bytes_selected};

use crate::lanes::LANES;
use crate::plane::Plane;
use std::simd::prelude::*;

/// The byte of a word that has the bit of each of 64 rows.
const BYTE_OF_ROW: [usize; 64] = [
    0, 0, 0, 0, 0, 0, 0, 0, 1, 1, 1, 1, 1, 1, 1, 1, 2, 2, 2, 2, 2, 2, 2, 2, 3, 3, 3, 3, 3, 3, 3, 3,
    4, 4, 4, 4, 4, 4, 4, 4, 5, 5, 5, 5, 5, 5, 5, 5, 6, 6, 6, 6, 6, 6, 6, 6, 7, 7, 7, 7, 7, 7, 7, 7,
];

/// The value of that bit in the byte.
const BIT_OF_ROW: [u8; 64] = [
    1, 2, 4, 8, 16, 32, 64, 128, 1, 2, 4, 8, 16, 32, 64, 128, 1, 2, 4, 8, 16, 32, 64, 128, 1, 2, 4,
    8, 16, 32, 64, 128, 1, 2, 4, 8, 16, 32, 64, 128, 1, 2, 4, 8, 16, 32, 64, 128, 1, 2, 4, 8, 16,
    32, 64, 128, 1, 2, 4, 8, 16, 32, 64, 128,
];

// If this was inlined after a loop that makes the plane, it was compiled to handle each byte by
// itself: a sum took seven times as long.
/// Returns one byte for each row: 255 if its lane is 1, else 0.
#[tactic(auto, using(crate::proofs::WordLemmas::put_bytes))]
#[inline(never)]
pub fn bytes_of_plane(plane: &Plane) -> [u8; LANES]
    ensures { result ≡ map as_byte (lanes_of_words plane.now) }
{
    let mut bytes = [0; LANES];
    for word in 0..8 {
        put(&mut bytes, word, bytes_of_word(plane[word]));
    }
    bytes
}

/// Sets the bytes of the 64 rows of a word.
#[tactic(auto, using(crate::proofs::SelectedLemmas::put_is))]
pub(crate) fn put(bytes: &mut [u8; LANES], word: usize, some: u8x64)
    requires { word < 8 }
    ensures { bytes.new ≡ put_chunk (64 * word) bytes.old some }
{
    some.copy_to_slice(&mut bytes[64 * word..]);
}

/// Returns one byte for each of the 64 rows of a word: 255 if its lane is 1, else 0.
#[tactic(auto, using(crate::proofs::SelectedLemmas::bytes_computed))]
pub(crate) fn bytes_of_word(word: u64) -> u8x64
    ensures { result ≡ map as_byte (bits_from_least 64 word) }
{
    let bytes = u64x8::splat(word).to_le_bytes().swizzle(BYTE_OF_ROW);
    let bits = u8x64::from_array(BIT_OF_ROW);
    (bytes & bits)
        .simd_eq(bits)
        .select(u8x64::splat(255), u8x64::splat(0))
}

/// Returns the sum of the bytes of selected rows. `rows` has 255 for a selected row and 0 for any
/// other, as [`bytes_of_plane`] returns.
#[tactic(auto, using(std::proofs::lemmas::Simd::adds_fit, std::proofs::lemmas::Simd::sum_fits))]
pub fn sum_in(bytes: &[u8; LANES], rows: &[u8; LANES]) -> u32
    ensures sum { (lanes : List Bool) → rows.now ≡ map as_byte lanes
        → result ≡ sum (bytes_selected 0 lanes bytes.now) }
    ensures bound { result ≤ 130560 }
{
    let mut sums = u32x16::splat(0);
    for word in 0..8 {
        let some = u8x64::from_slice(&bytes[64 * word..]) & u8x64::from_slice(&rows[64 * word..]);
        sums = sums.strict_add(fours(some));
    }
    sums.strict_reduce_sum()
}

/// Returns the sums of four bytes each.
#[tactic(auto, using(crate::proofs::SelectedLemmas::sums_of_fours))]
fn fours(bytes: u8x64) -> u32x16
    ensures sum { sum_l result ≡ sum_l bytes }
    ensures bound { sum_l result ≤ 16320 }
{
    bytes.dot4(u8x64::splat(1))
}

/// Returns the minimum of the bytes of selected rows, or 255 if none is selected.
pub fn least_in(bytes: &[u8; LANES], rows: &[u8; LANES]) -> u8
    ensures { (lanes : List Bool) → rows.now ≡ map as_byte lanes
        → result ≡ fold min 255 (bytes_selected 255 lanes bytes.now) }
{
    let mut least = u8x64::splat(255);
    for word in 0..8 {
        let others = !u8x64::from_slice(&rows[64 * word..]);
        least = lesser(least, u8x64::from_slice(&bytes[64 * word..]) | others);
    }
    least_of(least)
}

/// Returns the maximum of the bytes of selected rows, or 0 if none is selected.
pub fn greatest_in(bytes: &[u8; LANES], rows: &[u8; LANES]) -> u8
    ensures { (lanes : List Bool) → rows.now ≡ map as_byte lanes
        → result ≡ fold max 0 (bytes_selected 0 lanes bytes.now) }
{
    let mut greatest = u8x64::splat(0);
    for word in 0..8 {
        let some = u8x64::from_slice(&bytes[64 * word..]) & u8x64::from_slice(&rows[64 * word..]);
        greatest = greater(greatest, some);
    }
    greatest_of(greatest)
}

/// Removes from the selected rows those whose byte isn't `c`.
#[tactic(auto, using(crate::proofs::WordLemmas::parts_written))]
pub fn keep_in(rows: &mut [u8; LANES], bytes: &[u8; LANES], c: u8)
    ensures { (lanes : List Bool) → rows.old ≡ map as_byte lanes
        → rows.new ≡ map as_byte (zip2 (λ lane byte. lane && (byte == c)) lanes bytes.now) }
{
    for word in 0..8 {
        let some = u8x64::from_slice(&rows[64 * word..]);
        let kept = mask_equal(some, u8x64::from_slice(&bytes[64 * word..]), c);
        put(rows, word, kept);
    }
}

/// Returns the bytes of `rows` in the lanes whose byte is `c`, and 0 in the others.
fn mask_equal(rows: u8x64, bytes: u8x64, c: u8) -> u8x64
    ensures { result ≡ zip2 (λ row byte. if byte == c then row else 0) rows bytes }
{
    bytes.simd_eq(u8x64::splat(c)).select(rows, u8x64::splat(0))
}

/// Returns the lesser byte in each lane.
#[tactic(auto, using(crate::proofs::SelectedLemmas::lesser_is))]
fn lesser<const N: usize>(a: Simd<u8, N>, b: Simd<u8, N>) -> Simd<u8, N>
    ensures { result ≡ zip2 min a.entry b.entry }
{
    a.simd_min(b)
}

/// Returns the greater byte in each lane.
#[tactic(auto, using(crate::proofs::SelectedLemmas::greater_is))]
pub(crate) fn greater<const N: usize>(a: Simd<u8, N>, b: Simd<u8, N>) -> Simd<u8, N>
    ensures { result ≡ zip2 max a.entry b.entry }
{
    a.simd_max(b)
}

/// Returns the minimum of 64 bytes, by halves.
fn least_of(bytes: u8x64) -> u8
    ensures { min 255 result ≡ fold min 255 bytes }
{
    let b = lesser(bytes.extract::<0, 32>(), bytes.extract::<32, 32>());
    let b = lesser(b.extract::<0, 16>(), b.extract::<16, 16>());
    let b = lesser(b.extract::<0, 8>(), b.extract::<8, 8>());
    let b = lesser(b.extract::<0, 4>(), b.extract::<4, 4>());
    let b = lesser(b.extract::<0, 2>(), b.extract::<2, 2>());
    let b = lesser(b.extract::<0, 1>(), b.extract::<1, 1>());
    b.to_array()[0]
}

/// Returns the maximum of 64 bytes, by halves.
fn greatest_of(bytes: u8x64) -> u8
    ensures { max 0 result ≡ fold max 0 bytes }
{
    let b = greater(bytes.extract::<0, 32>(), bytes.extract::<32, 32>());
    let b = greater(b.extract::<0, 16>(), b.extract::<16, 16>());
    let b = greater(b.extract::<0, 8>(), b.extract::<8, 8>());
    let b = greater(b.extract::<0, 4>(), b.extract::<4, 4>());
    let b = greater(b.extract::<0, 2>(), b.extract::<2, 2>());
    let b = greater(b.extract::<0, 1>(), b.extract::<1, 1>());
    b.to_array()[0]
}

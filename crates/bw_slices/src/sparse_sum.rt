//! The sum of the codes in few lanes, one code after the other, and their highest bytes.
ghost use Rattle.std.specs.Prelude.{All, ◌≡◌, ◌^◌, ◌+◌, ◌*◌, ◌/◌, ◌<◌, ◌≤◌, ℕ, true, false, not};
ghost use Rattle.std.specs.Int.{bit_at};
ghost use Rattle.std.specs.Prelude.{drop, length, slice_index, slice_index_or, sum, take};
ghost use Rattle.bw_lanes.specs.Lanes.{bits_from_least, lanes_of_words};
ghost use Rattle.bw_model.specs.Selection.{selected_items};
ghost use Rattle.bw_segment.specs.Selected.{is_beyond, is_greatest};
ghost use Rattle.bw_slices.specs.Slices.{slices_codes};

use crate::layout::Slices;
use bw_lanes::{LANES, Selection};
use bw_segment::{CodeLayout, Extreme};

/// Returns the sum of the codes in these lanes.
#[tactic(auto, using(crate::proofs::CodeLemmas::few_sums))]
pub(crate) fn sum_of_few(width: u32, bytes: &[u8], lanes: &Selection) -> u128
    requires width { (1 ≤ width) × (width ≤ 63) }
    requires size { length bytes.now ≡ 512 * ((width + 7) / 8) }
    requires small { All (λ code. code < 2 ^ width) (slices_codes ((width + 7) / 8) bytes.now) }
    ensures { result ≡ sum (selected_items (lanes_of_words lanes.now)
        (slices_codes ((width + 7) / 8) bytes.now)) }
{
    let mut sum = 0;
    for word in 0..8 {
        sum += sum_of_word(width, bytes, word, lanes[word]);
    }
    sum
}

/// Returns the sum of the codes of selected rows among the 64 of a word.
#[tactic(auto, using(bw_segment::proofs::SelectedLemmas::no_bits))]
fn sum_of_word(width: u32, bytes: &[u8], word: usize, rows: u64) -> u128
    requires width { (1 ≤ width) × (width ≤ 63) }
    requires size { length bytes.now ≡ 512 * ((width + 7) / 8) }
    requires small { All (λ code. code < 2 ^ width) (slices_codes ((width + 7) / 8) bytes.now) }
    requires word { word < 8 }
    ensures sum { result ≡ sum (selected_items (bits_from_least 64 rows)
        (take 64 (drop (64 * word) (slices_codes ((width + 7) / 8) bytes.now)))) }
    ensures bound { result ≤ 2 ^ 69 }
{
    let mut sum = 0;
    let mut left = rows;
    while left != 0 {
        let row = left.trailing_zeros();
        sum += u128::from(Slices::code(width, bytes, 64 * word + row as usize));
        left &= !(1 << row);
    }
    sum
}

/// Returns whether, in each of few lanes, the byte is below `top` or, if the least is sought, above
/// it.
pub(crate) fn none_near(bytes: &[u8; LANES], lanes: &Selection, top: u64, which: Extreme) -> bool
    ensures { result ≡ true → (lane : ℕ)
        → slice_index_or (lanes_of_words lanes.now) lane false ≡ true
        → is_beyond (not (is_greatest which)) top (slice_index bytes.now lane) ≡ true }
{
    for word in 0..8 {
        if !none_near_in_word(bytes, word, lanes[word], top, which) {
            return false;
        }
    }
    true
}

/// Returns this for the 64 lanes of a word; `rows` has their bits.
#[inline(always)]
fn none_near_in_word(bytes: &[u8; LANES], word: usize, rows: u64, top: u64, which: Extreme) -> bool
    requires { word < 8 }
    ensures { result ≡ true → (row : ℕ) → row < 64 → bit_at rows row ≡ 1
        → is_beyond (not (is_greatest which)) top (slice_index bytes.now (64 * word + row)) ≡ true }
{
    let mut left = rows;
    while left != 0 {
        let row = left.trailing_zeros();
        if is_near(u64::from(bytes[64 * word + row as usize]), top, which) {
            return false;
        }
        left &= !(1 << row);
    }
    true
}

/// Returns whether a byte is at least `top` or, if the least is sought, at most `top`.
#[inline(always)]
fn is_near(byte: u64, top: u64, which: Extreme) -> bool
    ensures { result ≡ not (is_beyond (not (is_greatest which)) top byte) }
{
    match which {
        Extreme::Greatest => byte >= top,
        Extreme::Least => byte <= top,
    }
}

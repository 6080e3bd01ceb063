//! The parts of a column's block, and the first error of its lanes.
ghost use Rattle.std.specs.Prelude.{◌≡◌, ◌^◌, ◌≤◌, ◌<◌, ◌||◌, true, false, ℕ, List, length, map};
ghost use Rattle.std.specs.Prelude.{drop, nat_lt, slice_index_or};
ghost use Rattle.bw_lanes.specs.Lanes.{lanes_of_words};
ghost use Rattle.bw_model.specs.Code.{span_at};
ghost use Rattle.bw_model.specs.Groups.{group_size};
ghost use Rattle.bw_segment.specs.BlockFault.{lanes_fault, TellsCodes};
ghost use Rattle.bw_segment.specs.Packing.{null_size, block_nulls};

use crate::placement::Placement;
use bw_lanes::{LANES, Plane, and, bytes_bit, is_zero, lane, load, mask, not, or, to_bytes};
use bw_model::{Fault, code};

impl Placement {
    ghost use Rattle.std.specs.Prelude.{◌++◌, if◌then◌else◌, [], OnOk, OnErr, IsOkUnless};
    ghost use Rattle.bw_lanes.specs.Lanes.{bytes_of_lanes};
    ghost use Rattle.bw_model.specs.Fault.{no_memory};
    ghost use Rattle.bw_model.specs.Row.{Value};
    ghost use Rattle.bw_model.specs.Variable.{is_nullable};
    ghost use Rattle.bw_segment.specs.Meaning.{null_bits};

    /// Returns the maximum code of a column.
    pub fn span(&self, col: usize) -> u64
        requires { col < length self.now.schema.columns.items }
        ensures span { result ≡ span_at self.now.schema.columns.items col }
        ensures bound { result < 2 ^ 63 }
    {
        let column = &self.schema.columns[col];
        column.hi.abs_diff(column.lo)
    }

    /// Returns how many bytes the null plane of a column's block has: 0 if the column isn't
    /// nullable.
    pub fn null_size(&self, col: usize) -> usize
        requires { col < length self.now.schema.columns.items }
        ensures size { result ≡ null_size self.now.schema.columns.items col }
        ensures bound { result ≤ 64 }
    {
        if self.schema.columns[col].nullable {
            64
        } else {
            0
        }
    }

    /// Adds the null plane of a column to the bytes, if the column is nullable; `nulls` has 1 for
    /// each null lane, else 0. Errors: 801 if memory is refused; nothing was added then.
    pub fn push_nulls(
        &self,
        bytes: &mut Vec<u8>,
        col: usize,
        nulls: &[u8; LANES],
    ) -> Result<(), Fault>
        requires { col < length self.now.schema.columns.items }
        ensures added { OnOk result ((rows : List (List Value))
            → nulls.now ≡ map (λ null. if null then 1 else 0) (null_bits rows col)
            → bytes.new.items ≡ bytes.old.items
            ++ (if is_nullable self.now.schema.columns.items col
            then bytes_of_lanes (null_bits rows col) else [])) }
        ensures refused { OnErr result (bytes.new.items ≡ bytes.old.items) }
        ensures only_oom { IsOkUnless result no_memory }
    {
        if !self.schema.columns[col].nullable {
            return Ok(());
        }
        let added = to_bytes(&bytes_bit(nulls, 0));
        bytes.extend_from_slice(&added)?;
        Ok(())
    }

    /// Returns the null plane of a column's block, or zeros if the column isn't nullable.
    #[tactic(auto, using(crate::proofs::PlacementLemmas::nullable_read), unfolding(crate::specs::Packing::block_nulls))]
    pub fn nulls_in(&self, col: usize, block: &[u8]) -> Plane
        requires column { col < length self.now.schema.columns.items }
        requires size { null_size self.now.schema.columns.items col ≤ length block.now }
        ensures { lanes_of_words result
            ≡ block_nulls self.now.schema.columns.items col block.now }
    {
        if self.schema.columns[col].nullable {
            load(block)
        } else {
            [0; 8]
        }
    }

    /// Returns the bytes of a column's block after its null plane.
    pub fn codes_in<'a>(&self, col: usize, block: &'a [u8]) -> &'a [u8]
        requires column { col < length self.now.schema.columns.items }
        requires size { null_size self.now.schema.columns.items col ≤ length block.now }
        ensures { result.now ≡ drop (null_size self.now.schema.columns.items col) block.now }
    {
        if self.schema.columns[col].nullable {
            &block[64..]
        } else {
            block
        }
    }
}

/// Returns the number of the first error of a block of `rows` rows, or None if it is valid. `nulls`
/// are its null bits, and `above` the lanes whose code is above the column's maximum. `used` are
/// the lanes whose code isn't 0; it need be right only in null and padding lanes.
pub fn fault_of_lanes(rows: u32, nulls: &Plane, used: &Plane, above: &Plane) -> Option<u16>
    requires { rows ≤ 512 }
    ensures { (span : ℕ) (codes : List ℕ) → length codes ≡ group_size
        → TellsCodes rows (lanes_of_words nulls.now) codes (lanes_of_words used.now)
        → lanes_of_words above.now ≡ map (nat_lt span) codes
        → result ≡ lanes_fault span rows (lanes_of_words nulls.now) codes }
{
    if !is_padding_clear(rows, nulls, used) {
        return Some(code::PADDING);
    }
    let with_code = and(nulls, used);
    if is_zero(&or(&with_code, above)) {
        return None;
    }
    for row in 0..rows as usize {
        if lane(&with_code, row) {
            return Some(code::NULL_WITH_CODE);
        }
        if lane(above, row) {
            return Some(code::CODE_TOO_LARGE);
        }
    }
    None
}

/// Returns whether both planes are 0 in the lanes past the last row.
fn is_padding_clear(rows: u32, nulls: &Plane, used: &Plane) -> bool
    requires { rows ≤ 512 }
    ensures clear { result ≡ true → (row : ℕ) → rows ≤ row → row < 512
        → (slice_index_or (lanes_of_words nulls.now) row false
        || slice_index_or (lanes_of_words used.now) row false) ≡ false }
    ensures set { result ≡ false → (row : ℕ) × (rows ≤ row) × (row < 512)
        × ((slice_index_or (lanes_of_words nulls.now) row false
        || slice_index_or (lanes_of_words used.now) row false) ≡ true) }
{
    if rows as usize == LANES {
        return true;
    }
    is_zero(&and(&or(nulls, used), &not(&mask(rows))))
}

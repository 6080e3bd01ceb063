//! The validation of a column's block.
ghost use Rattle.std.specs.Prelude.{◌≡◌, ◌^◌, ◌<◌, ◌≤◌, None, length, true};
ghost use Rattle.bw_lanes.specs.Lanes.{lanes_of_words};
ghost use Rattle.bw_model.specs.Groups.{group_size};
ghost use Rattle.bw_segment.specs.BlockFault.{block_fault, lanes_fault, TellsCodes};
ghost use Rattle.bw_segment.specs.Packing.{block_size};

use crate::block::fault_of_lanes;
use crate::layout::CodeLayout;
use crate::packed::PackedSegment;
use crate::placement::Placement;
use bw_lanes::{LANES, Plane, is_zero};

impl<L: CodeLayout> PackedSegment<L> {
    /// Returns the number of the first error of a column's block, in a segment of `rows` rows, or
    /// None if it is valid.
    ///
    /// 308 if a bit of a padding row is 1. Otherwise the first wrong row decides: 307 if it is null
    /// with a code that isn't 0, 306 if its code is above the column's maximum. A code is what the
    /// layout reads from all bits of its bytes.
    #[tactic(auto, using(crate::proofs::PlacementLemmas::span_fits))]
    pub fn find_fault(placement: &Placement, col: usize, rows: u32, block: &[u8]) -> Option<u16>
        requires column { col < length placement.now.schema.columns.items }
        requires rows { rows ≤ group_size }
        requires size { length block.now
            ≡ block_size L.packing placement.now.schema.columns.items col }
        ensures { result
            ≡ block_fault L.packing placement.now.schema.columns.items col rows block.now }
    {
        let nulls = placement.nulls_in(col, block);
        let codes = placement.codes_in(col, block);
        let width = placement.width(col);
        let span = placement.span(col);
        if rows as usize == LANES && are_good::<L>(&nulls, width, codes, span) {
            return None;
        }
        L::keeps_codes();
        let used = lanes_with_code::<L>(rows, &nulls, width, codes);
        let above = L::above(width, codes, span);
        fault_of_lanes(rows, &nulls, &used, &above)
    }
}

/// Returns whether each of 512 rows is valid: no code is above the maximum, and each null row has
/// code 0.
#[inline(always)]
fn are_good<L: CodeLayout>(nulls: &Plane, width: u32, codes: &[u8], span: u64) -> bool
    requires width { (1 ≤ width) × (width ≤ 63) }
    requires size { length codes.now ≡ L.packing.size width }
    requires span { span < 2 ^ width }
    ensures { result ≡ true
        → lanes_fault span 512 (lanes_of_words nulls.now) (L.packing.codes width codes.now) ≡ None }
{
    L::keeps_codes();
    (is_zero(nulls) || !L::any_nonzero(width, codes, nulls)) && !L::any_above(width, codes, span)
}

/// Returns the lanes whose code isn't 0. Without padding and null lanes, in which alone it need be
/// right, it returns zeros.
fn lanes_with_code<L: CodeLayout>(rows: u32, nulls: &Plane, width: u32, codes: &[u8]) -> Plane
    requires width { (1 ≤ width) × (width ≤ 63) }
    requires size { length codes.now ≡ L.packing.size width }
    ensures { TellsCodes rows (lanes_of_words nulls.now) (L.packing.codes width codes.now)
        (lanes_of_words result) }
{
    if rows as usize == LANES && is_zero(nulls) {
        return [0; 8];
    }
    L::nonzero_lanes(width, codes)
}

//! Segments in either layout, behind the same calls.
ghost use Rattle.std.specs.Prelude.{◌≡◌, ◌++◌, ◌<◌, ◌≤◌, List, length, take, IfOk, OnOk, OnErr};
ghost use Rattle.std.specs.Prelude.{IsOkUnless};
ghost use Rattle.bw_io.specs.Shared.{bytes_in};
ghost use Rattle.bw_model.specs.Fault.{no_memory};
ghost use Rattle.bw_model.specs.Groups.{group_size};
ghost use Rattle.bw_model.specs.Row.{Value};
ghost use Rattle.bw_segment.specs.Columns.{KeepRows};
ghost use Rattle.bw_file.specs.Blocks.{form_of, block_size, block_fault, segment_size};
ghost use Rattle.bw_file.specs.Blocks.{segment_bytes, IsPlaced, IsSound, rows_spelled};

use crate::in_layout;
use crate::layout::Layout;
use bw_io::SharedBytes;
use bw_lanes::{LANES, Plane, Selection};
use bw_model::{Fault, Schema, Value};
use bw_planes::PlaneSegment;
use bw_segment::{ColumnCodes, Extreme, PackedSegment, Placement, Segment};
use bw_slices::SliceSegment;
use std::alloc::Global;
use std::rc::Rc;

/// A segment of a table file, in the file's layout.
#[derive(Drop)]
pub enum AnySegment {
    Planes(PlaneSegment),
    Slices(SliceSegment),
}

/// Evaluates an expression with the segment, in whichever layout it is.
#[macro_export]
macro_rules! with_segment {
    ($any:expr, $segment:ident => $value:expr) => {
        match $any {
            $crate::AnySegment::Planes($segment) => $value,
            $crate::AnySegment::Slices($segment) => $value,
        }
    };
}

#[tactic(auto, unfolding(crate::specs::AnySegment::any_meaning))]
impl Segment for AnySegment {
    ghost use Rattle.bw_file.specs.AnySegment.{any_meaning, any_is_group};

    ghost meaning = { any_meaning };

    fn schema(&self) -> &Schema {
        with_segment!(self, segment => segment.schema())
    }

    fn rows_in(&self) -> u32 {
        with_segment!(self, segment => segment.rows_in())
    }

    #[inline(always)]
    fn bit(&self, col: usize, bit: u32) -> Plane {
        with_segment!(self, segment => segment.bit(col, bit))
    }

    #[inline(always)]
    fn nulls(&self, col: usize) -> Plane {
        with_segment!(self, segment => segment.nulls(col))
    }

    fn byte_lt(&self, col: usize, slice: usize, c: u8) -> Plane {
        with_segment!(self, segment => segment.byte_lt(col, slice, c))
    }

    fn byte_eq(&self, col: usize, slice: usize, c: u8) -> Plane {
        with_segment!(self, segment => segment.byte_eq(col, slice, c))
    }

    fn sum_of_codes(&self, col: usize, rows: &Selection) -> u128 {
        with_segment!(self, segment => segment.sum_of_codes(col, rows))
    }

    fn min_code(&self, col: usize, rows: &Selection) -> Option<u64> {
        with_segment!(self, segment => segment.min_code(col, rows))
    }

    fn max_code(&self, col: usize, rows: &Selection) -> Option<u64> {
        with_segment!(self, segment => segment.max_code(col, rows))
    }

    fn none_beyond(
        &self,
        col: usize,
        rows: &Selection,
        are_few: bool,
        other: u64,
        which: Extreme,
    ) -> bool {
        with_segment!(self, segment => segment.none_beyond(col, rows, are_few, other, which))
    }

    fn codes(&self, col: usize, codes: &mut [u64; LANES]) {
        with_segment!(self, segment => segment.codes(col, codes))
    }

    fn value(&self, col: usize, row: usize) -> Value {
        with_segment!(self, segment => segment.value(col, row))
    }

    ghost is_group = { any_is_group };
}

impl AnySegment {
    ghost use Rattle.bw_file.specs.AnySegment.{any_layout, any_meaning};

    /// Returns the segment of bytes that are valid blocks of this layout.
    #[tactic(auto, unfolding(crate::specs::AnySegment::any_meaning, crate::specs::Blocks::form_of))]
    pub(crate) fn of_blocks(
        layout: Layout,
        placement: Rc<Placement>,
        rows: u32,
        bytes: SharedBytes,
    ) -> Self
        requires placed { IsPlaced layout placement.value }
        requires nonempty { 1 ≤ rows }
        requires within_limit { rows ≤ group_size }
        requires sound { IsSound layout placement.value.schema.columns.items rows (bytes_in bytes) }
        ensures layout { any_layout result ≡ layout }
        ensures name { (any_meaning result).name ≡ placement.value.schema.name }
        ensures columns { (any_meaning result).columns ≡ placement.value.schema.columns.items }
        ensures rows { (any_meaning result).rows
            ≡ rows_spelled layout placement.value.schema.columns.items rows (bytes_in bytes) }
    {
        match layout {
            Layout::Planes => AnySegment::Planes(PlaneSegment::of_blocks(placement, rows, bytes)),
            Layout::Slices => AnySegment::Slices(SliceSegment::of_blocks(placement, rows, bytes)),
        }
    }
}

/// Returns the placement of blocks in this layout, with a copy of the schema. Errors: 801 if memory
/// is refused.
#[tactic(auto, unfolding(crate::specs::Blocks::form_of))]
pub fn placement_of(alloc: Global, layout: Layout, schema: &Schema) -> Result<Placement, Fault>
    ensures name { IfOk result (λ placement. placement.schema.name ≡ schema.now.name) }
    ensures columns { IfOk result (λ placement.
        placement.schema.columns.items ≡ schema.now.columns.items) }
    ensures placed { IfOk result (IsPlaced layout) }
    ensures only_oom { IsOkUnless result no_memory }
{
    in_layout!(layout, Placement::of::<_>(alloc, schema))
}

/// Adds the bytes of a segment of the rows that are stored by columns.
#[tactic(auto, unfolding(crate::specs::Blocks::form_of))]
pub(crate) fn append(
    alloc: Global,
    layout: Layout,
    bytes: &mut Vec<u8>,
    placement: &Placement,
    kept: &[ColumnCodes],
) -> Result<(), Fault>
    requires placed { IsPlaced layout placement.now }
    requires kept { length kept.now ≡ length placement.now.schema.columns.items }
    ensures added { OnOk result ((rows : List (List Value))
        → KeepRows placement.now.schema.columns.items rows kept.now
        → bytes.new.items ≡ bytes.old.items
        ++ segment_bytes layout placement.now.schema.columns.items rows) }
    ensures front { OnOk result (take (length bytes.old.items) bytes.new.items ≡ bytes.old.items) }
    ensures refused { OnErr result (bytes.new.items ≡ bytes.old.items) }
    ensures only_oom { IsOkUnless result no_memory }
{
    in_layout!(
        layout,
        PackedSegment::<_>::append(alloc, bytes, placement, kept)
    )
}

/// Returns how many bytes a column's block has.
#[tactic(auto, unfolding(crate::specs::Blocks::form_of))]
pub fn block_size(layout: Layout, placement: &Placement, col: usize) -> usize
    requires { col < length placement.now.schema.columns.items }
    ensures size { result ≡ block_size layout placement.now.schema.columns.items col }
    ensures bound { result ≤ 4160 }
{
    in_layout!(layout, PackedSegment::<_>::block_size(placement, col))
}

/// Returns how many bytes a segment has.
#[tactic(auto, unfolding(crate::specs::Blocks::form_of))]
pub fn segment_size(layout: Layout, placement: &Placement) -> usize
    requires { IsPlaced layout placement.now }
    ensures size { result ≡ segment_size layout placement.now.schema.columns.items }
    ensures small { result ≤ 266240 }
{
    in_layout!(layout, PackedSegment::<_>::segment_size(placement))
}

/// Returns the number of the first error of a column's block, in a segment of `rows` rows.
#[tactic(auto, unfolding(crate::specs::Blocks::form_of))]
pub(crate) fn block_fault(
    layout: Layout,
    placement: &Placement,
    col: usize,
    rows: u32,
    block: &[u8],
) -> Option<u16>
    requires column { col < length placement.now.schema.columns.items }
    requires rows { rows ≤ group_size }
    requires size { length block.now ≡ block_size layout placement.now.schema.columns.items col }
    ensures { result ≡ block_fault layout placement.now.schema.columns.items col rows block.now }
{
    in_layout!(
        layout,
        PackedSegment::<_>::find_fault(placement, col, rows, block)
    )
}

//! A table in memory.
ghost use Rattle.std.specs.Prelude.{◌≡◌, ◌<◌, ◌≤◌, length, IfOk, IsOkUnless};
ghost use Rattle.bw_model.specs.Fault.{no_memory};
ghost use Rattle.bw_model.specs.Groups.{groups_of, together};
ghost use Rattle.bw_model.specs.Limits.{most_rows};
ghost use Rattle.bw_file.specs.Blocks.{IsPlaced, form_of};
ghost use Rattle.bw_memory.specs.StoredSegments.{StoresSegments, stored_groups};

use bw_file::Layout;
use bw_lanes::LANES;
use bw_model::{Fault, Schema};
use bw_segment::{CodeLayout, ColumnBlocks, NumberedBlocks, PackedSegment, Placement, Segment};
use std::rc::Rc;

/// A table in memory: its schema and its rows, in segments of 512, of which the last may have
/// fewer. All blocks of a column are back to back.
#[derive(Drop)]
pub struct MemoryTable {
    pub(crate) layout: Layout,
    pub(crate) placement: Rc<Placement>,
    pub(crate) rows: u32,
    pub(crate) segments: u32,
    pub(crate) columns: Vec<ColumnBlocks>,
    ghost placed: { IsPlaced layout placement.value },
    ghost within_limit: { rows ≤ most_rows },
    ghost kept: { StoresSegments layout placement.value.schema.columns.items rows segments
        columns.items },
    ghost cut: { stored_groups layout placement.value.schema.columns.items rows segments
        columns.items
        ≡ groups_of (together
        (stored_groups layout placement.value.schema.columns.items rows segments columns.items)) },
}

impl MemoryTable {
    ghost use Rattle.bw_memory.specs.MemoryTable.{layout_of, meaning_numbered, rows_of, schema_of};
    ghost use Rattle.bw_memory.specs.MemoryTable.{placement_of, segments_in};

    /// Returns the table's schema.
    pub fn schema(&self) -> &Schema
        ensures { result.now ≡ schema_of self.now }
    {
        &self.placement.schema
    }

    /// Returns the table's layout.
    pub fn layout(&self) -> Layout
        ensures { result ≡ layout_of self.now }
    {
        self.layout
    }

    /// Returns the number of rows.
    pub fn rows(&self) -> u32
        ensures { result ≡ length (rows_of self.now) }
    {
        self.rows
    }

    /// Returns the number of segments.
    pub fn segments(&self) -> u32
        ensures { result ≡ segments_in self.now }
    {
        self.segments
    }

    /// Returns the segment of this number, from 0, in the table's layout. It borrows the columns,
    /// and nothing is validated again.
    pub fn segment<'a, L: CodeLayout>(
        &'a self,
        number: u32,
    ) -> Result<PackedSegment<L, NumberedBlocks<'a>>, Fault>
        requires layout { form_of (layout_of self.now) ≡ L.packing }
        requires number { number < segments_in self.now }
        ensures means { IfOk result (λ segment.
            ⟦<PackedSegment<L, NumberedBlocks<'a>> as Segment>⟧.meaning segment
            ≡ meaning_numbered self.now number) }
        ensures placed { IfOk result (λ segment.
            segment.placement.value ≡ placement_of self.now) }
        ensures only_oom { IsOkUnless result no_memory }
    {
        Ok(self.placed_segment(self.placement.clone()?, number))
    }

    /// Returns the segment of this number, by the placement of another one of this table. It takes
    /// less time than [`Self::segment`], which counts one more reference to what all segments share.
    pub fn placed_segment<'a, L: CodeLayout>(
        &'a self,
        placement: Rc<Placement>,
        number: u32,
    ) -> PackedSegment<L, NumberedBlocks<'a>>
        requires layout { form_of (layout_of self.now) ≡ L.packing }
        requires placed { placement.value ≡ placement_of self.now }
        requires number { number < segments_in self.now }
        ensures means { ⟦<PackedSegment<L, NumberedBlocks<'a>> as Segment>⟧.meaning result
            ≡ meaning_numbered self.now number }
        ensures placed { result.placement.value ≡ placement_of self.now }
    {
        let rows = (self.rows - LANES as u32 * number).min(LANES as u32);
        PackedSegment::of_columns(placement, rows, &self.columns, number as usize)
    }
}

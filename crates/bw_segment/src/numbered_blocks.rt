//! The segments of a table whose blocks are stored by columns.
ghost use Rattle.std.specs.Prelude.{◌≡◌, ◌+◌, ◌<◌, ◌≤◌, ℕ, [], length, IfOk, OnOk, IsOkUnless};
ghost use Rattle.bw_io.specs.Shared.{bytes_in};
ghost use Rattle.bw_model.specs.Fault.{no_memory};
ghost use Rattle.bw_model.specs.Groups.{group_size};
ghost use Rattle.bw_segment.specs.BlockFault.{IsSound};
ghost use Rattle.bw_segment.specs.ColumnBlocks.{AreBlank, HasBlocks, StoresBlocks};
ghost use Rattle.bw_segment.specs.ColumnBlocks.{segment_numbered};
ghost use Rattle.bw_segment.specs.Packing.{block_bytes, block_size, meaning_spelled};
ghost use Rattle.bw_segment.specs.Packed.{IsPlaced};

use crate::blocks::Blocks;
use crate::build::push_block;
use crate::column_blocks::ColumnBlocks;
use crate::columns::ColumnCodes;
use crate::layout::CodeLayout;
use crate::packed::PackedSegment;
use crate::placement::Placement;
use crate::segment::Segment;
use bw_model::Fault;
use std::alloc::Global;
use std::rc::Rc;

/// Nullable columns whose blocks have at least this many bytes store their null planes apart too,
/// which takes a seventeenth more memory.
const LONG: usize = 1088;

/// Returns the columns of a table in a layout, without a block. Errors: 801 if memory is refused.
pub fn no_blocks<L: CodeLayout>(
    alloc: Global,
    placement: &Placement,
) -> Result<Vec<ColumnBlocks>, Fault>
    ensures keep { IfOk result
        (λ kept. StoresBlocks L.packing placement.now.schema.columns.items 0 kept.items) }
    ensures only_oom { IsOkUnless result no_memory }
{
    let mut kept = Vec::with_capacity(alloc, placement.schema.columns.len())?;
    for col in 0..placement.schema.columns.len() {
        let size = PackedSegment::<L>::block_size(placement, col);
        let is_long = placement.schema.columns[col].nullable && size >= LONG;
        kept.push(ColumnBlocks::new(alloc, size, is_long))?;
    }
    Ok(kept)
}

/// Returns the columns of a table in which each row has the minimum of each column. Errors: 801 if
/// memory is refused.
pub fn blank_columns<L: CodeLayout>(
    alloc: Global,
    placement: &Placement,
) -> Result<Vec<ColumnBlocks>, Fault>
    ensures blank { IfOk result
        (λ kept. AreBlank L.packing placement.now.schema.columns.items kept.items) }
    ensures only_oom { IsOkUnless result no_memory }
{
    let mut kept = Vec::with_capacity(alloc, placement.schema.columns.len())?;
    for col in 0..placement.schema.columns.len() {
        kept.push(blank_blocks::<L>(alloc, placement, col)?)?;
    }
    Ok(kept)
}

/// Returns a column of which every segment has the block of no rows. In each row of a table it is the
/// column's minimum. Errors: 801 if memory is refused.
fn blank_blocks<L: CodeLayout>(
    alloc: Global,
    placement: &Placement,
    col: usize,
) -> Result<ColumnBlocks, Fault>
    requires { col < length placement.now.schema.columns.items }
    ensures size { IfOk result (λ blocks.
        blocks.size ≡ block_size L.packing placement.now.schema.columns.items col) }
    ensures stride { IfOk result (λ blocks. blocks.stride ≡ 0) }
    ensures bytes { IfOk result (λ blocks.
        blocks.bytes.items ≡ block_bytes L.packing placement.now.schema.columns.items col []) }
    ensures only_oom { IsOkUnless result no_memory }
{
    L::keeps_codes();
    let mut block = Vec::with_capacity(alloc, PackedSegment::<L>::block_size(placement, col))?;
    push_block::<L>(&mut block, placement, col, &ColumnCodes::empty())?;
    Ok(ColumnBlocks::repeat(alloc, block))
}

/// Adds the blocks of a segment, each to its column, after those of earlier segments. Errors: 801
/// if memory is refused; some columns may then have one block more than others.
pub fn push_blocks<L: CodeLayout>(
    kept: &mut [ColumnBlocks],
    segment: &PackedSegment<L>,
) -> Result<(), Fault>
    requires { length kept.old ≡ length segment.now.placement.value.schema.columns.items }
    ensures keep { OnOk result ((count : ℕ)
        → StoresBlocks L.packing segment.now.placement.value.schema.columns.items count kept.old
        → StoresBlocks L.packing segment.now.placement.value.schema.columns.items
        (count + 1) kept.new) }
    ensures last { OnOk result ((count : ℕ)
        → StoresBlocks L.packing segment.now.placement.value.schema.columns.items count kept.old
        → segment_numbered kept.new count ≡ bytes_in segment.now.bytes) }
    ensures others { OnOk result ((count number : ℕ)
        → StoresBlocks L.packing segment.now.placement.value.schema.columns.items count kept.old
        → number < count → segment_numbered kept.new number ≡ segment_numbered kept.old number) }
    ensures only_oom { IsOkUnless result no_memory }
{
    for (col, blocks) in kept.iter_mut().enumerate() {
        blocks.push(segment.block(col))?;
    }
    Ok(())
}

/// The blocks of one segment, by its number, each within its column.
#[derive(Clone, Copy)]
pub struct NumberedBlocks<'a> {
    columns: &'a [ColumnBlocks],
    number: usize,
}

impl Blocks for NumberedBlocks<'_> {
    ghost use Rattle.bw_segment.specs.ColumnBlocks.{segment_numbered, stands_numbered};

    ghost bytes = { λ blocks. segment_numbered blocks.columns.now blocks.number };

    ghost holds = { λ blocks column start end.
        stands_numbered blocks.columns.now blocks.number column start end };

    #[inline(always)]
    fn block(&self, col: usize, _start: usize, _end: usize) -> &[u8] {
        let column = &self.columns[col];
        let bytes: &[u8] = &column.bytes;
        let start = self.number * column.stride;
        &bytes[start..start + column.size]
    }

    #[inline(always)]
    fn front(&self, col: usize, _start: usize, _end: usize) -> Option<&[u8]> {
        self.columns[col].front(self.number)
    }
}

impl<'a, L: CodeLayout> PackedSegment<L, NumberedBlocks<'a>> {
    /// Returns the segment of this number, which has `rows` rows. Its blocks, which are stored by
    /// columns, must be valid.
    pub fn of_columns(
        placement: Rc<Placement>,
        rows: u32,
        columns: &'a [ColumnBlocks],
        number: usize,
    ) -> Self
        requires placed { IsPlaced L.packing placement.value }
        requires nonempty { 1 ≤ rows }
        requires within_limit { rows ≤ group_size }
        requires kept { (count : ℕ) × (number < count)
            × HasBlocks L.packing placement.value.schema.columns.items count columns.now }
        requires sound { IsSound L.packing placement.value.schema.columns.items rows
            (segment_numbered columns.now number) }
        ensures means { ⟦<PackedSegment<L, NumberedBlocks<'a>> as Segment>⟧.meaning result
            ≡ meaning_spelled L.packing placement.value.schema rows
            (segment_numbered columns.now number) }
        ensures placed { result.placement.value ≡ placement.value }
    {
        PackedSegment::of_held_blocks(placement, rows, NumberedBlocks { columns, number })
    }
}

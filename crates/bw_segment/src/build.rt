//! Segments built from rows, column by column.
ghost use Rattle.std.specs.Prelude.{◌≡◌, ◌<◌, ◌++◌, List, if◌then◌else◌, length, map, take, IfOk, OnErr, OnOk, IsOkUnless};
ghost use Rattle.bw_model.specs.Fault.{no_memory};
ghost use Rattle.bw_model.specs.Row.{Value};
ghost use Rattle.bw_segment.specs.Columns.{KeepRows};
ghost use Rattle.bw_segment.specs.Meaning.{meaning_of, null_bits, stored_codes, IsGroup};
ghost use Rattle.bw_segment.specs.Packing.{block_bytes, segment_bytes};
ghost use Rattle.bw_segment.specs.Packed.{IsPlaced};

use crate::columns::{ColumnCodes, columns_of};
use crate::layout::CodeLayout;
use crate::packed::PackedSegment;
use crate::placement::Placement;
use crate::segment::Segment;
use bw_io::SharedBytes;
use bw_model::{Fault, Row, Schema};
use std::alloc::Global;
use std::rc::Rc;

impl<L: CodeLayout> PackedSegment<L> {
    /// Returns a segment of these rows, 1 to 512, which the schema must admit. It has a copy of the
    /// schema. Errors: 801 if memory is refused.
    pub fn build(alloc: Global, schema: &Schema, rows: &[Row]) -> Result<Self, Fault>
        requires { IsGroup (meaning_of schema.now rows.now) }
        ensures means { IfOk result (λ segment.
            ⟦<PackedSegment<L> as Segment>⟧.meaning segment ≡ meaning_of schema.now rows.now) }
        ensures only_oom { IsOkUnless result no_memory }
    {
        let placement = Rc::new(alloc, Placement::of::<L>(alloc, schema)?)?;
        PackedSegment::build_shared(alloc, &placement, rows)
    }

    /// Returns a segment of these rows, 1 to 512, for a table whose segments share the placement.
    /// Errors: 801 if memory is refused.
    pub fn build_shared(
        alloc: Global,
        placement: &Rc<Placement>,
        rows: &[Row],
    ) -> Result<Self, Fault>
        requires placed { IsPlaced L.packing placement.now.value }
        requires group { IsGroup (meaning_of placement.now.value.schema rows.now) }
        ensures means { IfOk result (λ segment.
            ⟦<PackedSegment<L> as Segment>⟧.meaning segment
            ≡ meaning_of placement.now.value.schema rows.now) }
        ensures only_oom { IsOkUnless result no_memory }
    {
        let shared: &Placement = placement;
        let kept = columns_of(alloc, &shared.schema, rows)?;
        let bytes = SharedBytes::new(alloc, blocks_of::<L>(alloc, shared, &kept)?)?;
        let placement = placement.clone()?;
        let count = rows.len() as u32;
        L::keeps_codes();
        Ok(PackedSegment::of_blocks(placement, count, bytes))
    }

    /// Adds the bytes of a segment of the rows, 1 to 512, that are stored by columns. Errors: 801
    /// if memory is refused; nothing was added then.
    pub fn append(
        alloc: Global,
        bytes: &mut Vec<u8>,
        placement: &Placement,
        kept: &[ColumnCodes],
    ) -> Result<(), Fault>
        requires placed { IsPlaced L.packing placement.now }
        requires kept { length kept.now ≡ length placement.now.schema.columns.items }
        ensures added { OnOk result ((rows : List (List Value))
            → KeepRows placement.now.schema.columns.items rows kept.now
            → bytes.new.items ≡ bytes.old.items
            ++ segment_bytes L.packing placement.now.schema.columns.items rows) }
        ensures front { OnOk result (take (length bytes.old.items) bytes.new.items
            ≡ bytes.old.items) }
        ensures refused { OnErr result (bytes.new.items ≡ bytes.old.items) }
        ensures only_oom { IsOkUnless result no_memory }
    {
        let added = blocks_of::<L>(alloc, placement, kept)?;
        bytes.extend_from_slice(&added)?;
        Ok(())
    }
}

/// Returns the bytes of a segment of the rows that are stored by columns.
fn blocks_of<L: CodeLayout>(
    alloc: Global,
    placement: &Placement,
    kept: &[ColumnCodes],
) -> Result<Vec<u8>, Fault>
    requires placed { IsPlaced L.packing placement.now }
    requires kept { length kept.now ≡ length placement.now.schema.columns.items }
    ensures bytes { IfOk result (λ bytes. (rows : List (List Value))
        → KeepRows placement.now.schema.columns.items rows kept.now
        → bytes.items ≡ segment_bytes L.packing placement.now.schema.columns.items rows) }
    ensures only_oom { IsOkUnless result no_memory }
{
    let count = placement.schema.columns.len();
    let mut bytes = Vec::with_capacity(alloc, placement.start::<L>(count))?;
    for col in 0..count {
        push_block::<L>(&mut bytes, placement, col, &kept[col])?;
    }
    Ok(bytes)
}

/// Adds the block of a column of the rows that are stored by columns. Errors: 801 if memory is
/// refused; a part may have been added then.
pub(crate) fn push_block<L: CodeLayout>(
    bytes: &mut Vec<u8>,
    placement: &Placement,
    col: usize,
    kept: &ColumnCodes,
) -> Result<(), Fault>
    requires { col < length placement.now.schema.columns.items }
    ensures added { OnOk result ((rows : List (List Value))
        → kept.now.codes ≡ stored_codes placement.now.schema.columns.items rows col
        → kept.now.nulls ≡ map (λ null. if null then 1 else 0) (null_bits rows col)
        → bytes.new.items ≡ bytes.old.items
        ++ block_bytes L.packing placement.now.schema.columns.items col rows) }
    ensures only_oom { IsOkUnless result no_memory }
{
    placement.push_nulls(bytes, col, &kept.nulls)?;
    L::push_codes(bytes, placement.schema.width(col), &kept.codes)?;
    Ok(())
}

//! The parts of a table that depend on its layout.
ghost use Rattle.std.specs.Prelude.{◌≡◌, ℕ, List, length, IfOk, OnOk, IsOkUnless};
ghost use Rattle.bw_model.specs.Fault.{no_memory};
ghost use Rattle.bw_segment.specs.ColumnBlocks.{AreBlank, StoresBlocks};
ghost use Rattle.bw_file.specs.AnySegment.{any_layout, any_meaning};
ghost use Rattle.bw_file.specs.Blocks.{IsPlaced, form_of};
ghost use Rattle.bw_memory.specs.StoredSegments.{AddsSegment, AreBytesOf};

use bw_file::{AnySegment, Layout, in_layout, placement_of, with_segment};
use bw_model::{Fault, Schema};
use bw_segment::{ColumnBlocks, Placement, blank_columns, no_blocks, push_blocks};
use std::alloc::Global;
use std::rc::Rc;

/// Returns the placement, in a layout, of a table with an equal schema.
pub(crate) fn shared_placement(
    alloc: Global,
    layout: Layout,
    schema: &Schema,
) -> Result<Rc<Placement>, Fault>
    ensures name { IfOk result (λ placement. placement.value.schema.name ≡ schema.now.name) }
    ensures columns { IfOk result (λ placement.
        placement.value.schema.columns.items ≡ schema.now.columns.items) }
    ensures placed { IfOk result (λ placement. IsPlaced layout placement.value) }
    ensures only_oom { IsOkUnless result no_memory }
{
    let placement = placement_of(alloc, layout, schema)?;
    Ok(Rc::new(alloc, placement)?)
}

/// Returns the columns of a table in a layout, without a block.
#[tactic(auto, unfolding(bw_file::specs::Blocks::form_of))]
pub(crate) fn no_columns(
    alloc: Global,
    layout: Layout,
    placement: &Placement,
) -> Result<Vec<ColumnBlocks>, Fault>
    ensures keep { IfOk result (λ columns.
        StoresBlocks (form_of layout) placement.now.schema.columns.items 0 columns.items) }
    ensures only_oom { IsOkUnless result no_memory }
{
    in_layout!(layout, no_blocks::<_>(alloc, placement))
}

/// Returns the columns of a table in a layout, in which each row has the minimum of each column.
#[tactic(auto, unfolding(bw_file::specs::Blocks::form_of))]
pub(crate) fn unread_columns(
    alloc: Global,
    layout: Layout,
    placement: &Placement,
) -> Result<Vec<ColumnBlocks>, Fault>
    ensures blank { IfOk result (λ columns.
        AreBlank (form_of layout) placement.now.schema.columns.items columns.items) }
    ensures only_oom { IsOkUnless result no_memory }
{
    in_layout!(layout, blank_columns::<_>(alloc, placement))
}

/// Adds the blocks of a segment, each to its column.
#[tactic(auto, unfolding(bw_file::specs::Blocks::form_of, bw_file::specs::AnySegment::any_meaning))]
pub(crate) fn push_segment(columns: &mut [ColumnBlocks], segment: &AnySegment) -> Result<(), Fault>
    requires { length columns.old ≡ length (any_meaning segment.now).columns }
    ensures added { OnOk result ((bytes : List ℕ) × AreBytesOf segment.now bytes
        × AddsSegment (any_layout segment.now) (any_meaning segment.now).columns bytes columns.old
        columns.new) }
    ensures only_oom { IsOkUnless result no_memory }
{
    with_segment!(segment, segment => push_blocks(columns, segment))
}

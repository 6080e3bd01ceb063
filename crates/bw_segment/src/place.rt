//! The places at which the blocks of a table's columns begin.
ghost use Rattle.std.specs.Prelude.{◌≤◌, length};
ghost use Rattle.bw_segment.specs.Packing.{bytes_before};
ghost use Rattle.bw_segment.specs.Packed.{IsPlaced};

use crate::layout::CodeLayout;
use crate::placement::Placement;
use bw_model::{Fault, Schema};
use std::alloc::Global;

impl Placement {
    ghost use Rattle.std.specs.Prelude.{◌≡◌, IfOk, IsOkUnless};
    ghost use Rattle.bw_model.specs.Fault.{no_memory};

    /// Returns the placement of a table's blocks in a layout, with a copy of the schema. Errors:
    /// 801 if memory is refused.
    pub fn of<L: CodeLayout>(alloc: Global, schema: &Schema) -> Result<Self, Fault>
        ensures name { IfOk result (λ placement. placement.schema.name ≡ schema.now.name) }
        ensures columns { IfOk result (λ placement.
            placement.schema.columns.items ≡ schema.now.columns.items) }
        ensures placed { IfOk result (IsPlaced L.packing) }
        ensures only_oom { IsOkUnless result no_memory }
    {
        let copied = schema.copy(alloc)?;
        let mut starts = Vec::with_capacity(alloc, copied.columns.len() + 1)?;
        let mut widths = Vec::with_capacity(alloc, copied.columns.len())?;
        let mut end = 0;
        for col in 0..copied.columns.len() {
            let width = copied.width(col);
            starts.push(end)?;
            widths.push(width)?;
            end += 64 * u32::from(copied.columns[col].nullable) + L::size(width) as u32;
        }
        starts.push(end)?;
        Ok(Placement {
            schema: copied,
            starts,
            widths,
        })
    }

    /// Returns the first byte of a column's block, in a segment of a layout. For the number of
    /// columns, it is the number of bytes.
    #[inline(always)]
    pub(crate) fn start<L: CodeLayout>(&self, col: usize) -> usize
        requires placed { IsPlaced L.packing self.now }
        requires column { col ≤ length self.now.schema.columns.items }
        ensures { result ≡ bytes_before L.packing self.now.schema.columns.items col }
    {
        self.starts[col] as usize
    }
}

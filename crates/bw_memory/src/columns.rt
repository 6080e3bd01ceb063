//! Columns of a table that are read one at a time.
ghost use Rattle.std.specs.Prelude.{◌≡◌, ◌≢◌, ◌+◌, ◌*◌, ◌/◌, ◌-◌, ◌^◌, ◌<◌, ◌≤◌, ℕ, None};
ghost use Rattle.std.specs.Prelude.{IfErr, IfOk, IfSome, OnOk, IsOkUnless, length};
ghost use Rattle.bw_model.specs.Fault.{no_memory};
ghost use Rattle.bw_model.specs.Limits.{most_rows};
ghost use Rattle.bw_io.specs.Source.{failed_by};
ghost use Rattle.bw_segment.specs.ColumnBlocks.{bytes_kept};
ghost use Rattle.bw_file.specs.Blocks.{IsPlaced, block_fault, block_size};
ghost use Rattle.bw_file.specs.TableReading.{IsTableFault};
ghost use Rattle.bw_memory.specs.Columns.{IsBlank, IsBlocksFault, IsFirstFault, block_in};
ghost use Rattle.bw_memory.specs.Filling.{AreBytesAt};
ghost use Rattle.bw_memory.specs.MemoryTable.{layout_of, placement_of, schema_of, segments_in};
ghost use Rattle.bw_memory.specs.StoredSegments.{piece_of, rows_numbered};

use crate::filling::fill_at;
use crate::layouts::{shared_placement, unread_columns};
use crate::table::MemoryTable;
use bw_file::{Layout, block_size, validate_block};
use bw_io::RandomAccess;
use bw_lanes::LANES;
use bw_model::{Fault, Schema};
use bw_segment::{ColumnBlocks, Placement};
use std::alloc::Global;
use std::mem::replace;
use std::rc::Rc;

impl MemoryTable {
    /// Returns a table of so many rows, at most 2^24, each of which has the minimum of each column.
    /// Errors: 801 if memory is refused.
    pub(crate) fn blank_under(
        alloc: Global,
        layout: Layout,
        schema: &Schema,
        rows: u32,
    ) -> Result<Self, Fault>
        requires { rows ≤ most_rows }
        ensures layout { IfOk result (λ table. layout_of table ≡ layout) }
        ensures name { IfOk result (λ table. (schema_of table).name ≡ schema.now.name) }
        ensures columns { IfOk result (λ table.
            (schema_of table).columns.items ≡ schema.now.columns.items) }
        ensures rows { IfOk result (λ table. table.rows ≡ rows) }
        ensures segments { IfOk result (λ table. segments_in table ≡ (rows + 511) / 512) }
        ensures blank { IfOk result IsBlank }
        ensures only_oom { IsOkUnless result no_memory }
    {
        let placement = shared_placement(alloc, layout, schema)?;
        MemoryTable::blank(alloc, layout, placement, rows)
    }

    /// Returns a table of so many rows, at most 2^24, each of which has the minimum of each column. It
    /// shares a placement. Errors: 801 if memory is refused.
    pub(crate) fn blank(
        alloc: Global,
        layout: Layout,
        placement: Rc<Placement>,
        rows: u32,
    ) -> Result<Self, Fault>
        requires placed { IsPlaced layout placement.value }
        requires rows { rows ≤ most_rows }
        ensures layout { IfOk result (λ table. layout_of table ≡ layout) }
        ensures placement { IfOk result (λ table. placement_of table ≡ placement.value) }
        ensures rows { IfOk result (λ table. table.rows ≡ rows) }
        ensures segments { IfOk result (λ table. segments_in table ≡ (rows + 511) / 512) }
        ensures blank { IfOk result IsBlank }
        ensures only_oom { IsOkUnless result no_memory }
    {
        let columns = unread_columns(alloc, layout, &placement)?;
        Ok(MemoryTable {
            layout,
            placement,
            rows,
            segments: (rows + 511) / 512,
            columns,
        })
    }

    /// Reads the blocks of a column in all segments, back to back, from a place of a device on, and
    /// validates them.
    ///
    /// Errors: 308 at the first byte with a bit of a padding row, 307 and 306 at a block's first
    /// byte, of the first block that has an error; 305 if the device ends before; 701 if a read
    /// fails; 801 if memory is refused. The device's count of failures must be less than 2^64 - 1.
    pub(crate) fn read_blocks<D: RandomAccess>(
        &self,
        device: &mut D,
        col: usize,
        at: u64,
        blocks: &mut Vec<u8>,
    ) -> Result<(), Fault>
        requires counter_fits { (D.state device.old).failures < 2 ^ 64 - 1 }
        requires column { col < length (schema_of self.now).columns.items }
        requires capacity { at < 2 ^ 62 }
        ensures long { OnOk result (length blocks.new.items ≡ segments_in self.now
            * block_size (layout_of self.now) (schema_of self.now).columns.items col) }
        ensures valid { OnOk result ((number : ℕ) → number < segments_in self.now
            → block_fault (layout_of self.now) (schema_of self.now).columns.items col
            (rows_numbered self.now.rows number) (piece_of blocks.new.items
            (block_size (layout_of self.now) (schema_of self.now).columns.items col) number)
            ≡ None) }
        ensures filled { OnOk result
            (IfSome (D.state device.old).known (AreBytesAt at blocks.new.items)) }
        ensures refused { IfErr result (IsBlocksFault (D.state device.old).known self.now col at) }
        ensures fault { IfErr result IsTableFault }
        ensures same { (D.state device.new).known ≡ (D.state device.old).known }
        ensures count { (D.state device.new).failures
            ≡ (D.state device.old).failures + failed_by result }
    {
        let size = block_size(self.layout, &self.placement, col);
        blocks.resize(self.segments as usize * size, 0)?;
        fill_at(device, at, blocks)?;
        self.validate_column(col, blocks, at)
    }

    /// Validates the blocks of a column in all segments, back to back, the first of which is at this
    /// place of a file. Errors: those of [`validate_block`], of the first block that has one.
    pub(crate) fn validate_column(&self, col: usize, blocks: &[u8], at: u64) -> Result<(), Fault>
        requires column { col < length (schema_of self.now).columns.items }
        requires long { length blocks.now ≡ segments_in self.now
            * block_size (layout_of self.now) (schema_of self.now).columns.items col }
        requires capacity { at < 2 ^ 62 }
        ensures valid { OnOk result ((number : ℕ) → number < segments_in self.now
            → block_fault (layout_of self.now) (schema_of self.now).columns.items col
            (rows_numbered self.now.rows number) (piece_of blocks.now
            (block_size (layout_of self.now) (schema_of self.now).columns.items col) number)
            ≡ None) }
        ensures fault { IfErr result (IsFirstFault self.now col (piece_of blocks.now
            (block_size (layout_of self.now) (schema_of self.now).columns.items col)) at) }
        ensures table { IfErr result IsTableFault }
    {
        let size = block_size(self.layout, &self.placement, col);
        for number in 0..self.segments {
            let start = number as usize * size;
            let rows = (self.rows - LANES as u32 * number).min(LANES as u32);
            let block = &blocks[start..start + size];
            validate_block(
                self.layout,
                &self.placement,
                col,
                rows,
                block,
                at + start as u64,
            )?;
        }
        Ok(())
    }

    /// Puts blocks in place of those of a column: those of all segments, back to back, each of which
    /// must be valid. Returns the bytes that it had.
    pub(crate) fn replace_column(&mut self, alloc: Global, col: usize, blocks: Vec<u8>) -> Vec<u8>
        requires column { col < length (schema_of self.old).columns.items }
        requires long { length blocks.items ≡ segments_in self.old
            * block_size (layout_of self.old) (schema_of self.old).columns.items col }
        requires valid { (number : ℕ) → number < segments_in self.old
            → block_fault (layout_of self.old) (schema_of self.old).columns.items col
            (rows_numbered self.old.rows number) (piece_of blocks.items
            (block_size (layout_of self.old) (schema_of self.old).columns.items col) number)
            ≡ None }
        ensures bytes { result.items ≡ bytes_kept self.old.columns.items col }
        ensures layout { layout_of self.new ≡ layout_of self.old }
        ensures schema { schema_of self.new ≡ schema_of self.old }
        ensures placement { placement_of self.new ≡ placement_of self.old }
        ensures rows { self.new.rows ≡ self.old.rows }
        ensures segments { segments_in self.new ≡ segments_in self.old }
        ensures column { (number : ℕ) → number < segments_in self.old
            → block_in self.new number col ≡ piece_of blocks.items
            (block_size (layout_of self.old) (schema_of self.old).columns.items col) number }
        ensures others { (other : ℕ) → other ≢ col → (number : ℕ)
            → block_in self.new number other ≡ block_in self.old number other }
    {
        let size = block_size(self.layout, &self.placement, col);
        replace(
            &mut self.columns[col],
            ColumnBlocks::of_bytes(alloc, size, blocks),
        )
        .into_bytes()
    }
}

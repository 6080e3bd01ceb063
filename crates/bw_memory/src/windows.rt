//! Reads the segments of a file by columns, some at a time.
ghost use Rattle.std.specs.Prelude.{◌≡◌, ◌≢◌, ◌⊎◌, ◌+◌, ◌*◌, ◌/◌, ◌-◌, ◌^◌, ◌<◌, ◌≤◌, ℕ, List, Option};
ghost use Rattle.std.specs.Prelude.{IfErr, IfOk, IfSome, IsOkUnless, OnOk, length};
ghost use Rattle.bw_model.specs.Fault.{no_memory};
ghost use Rattle.bw_model.specs.Limits.{most_rows};
ghost use Rattle.bw_io.specs.Source.{failed_by};
ghost use Rattle.bw_file.specs.TableReading.{IsTableFault};
ghost use Rattle.bw_file.specs.Blocks.{block_size};
ghost use Rattle.bw_memory.specs.Columnar.{AreFirstBlocks, HasBlock, IsColumnFault, column_count};
ghost use Rattle.bw_memory.specs.Columnar.{is_wanted, place_in, table_in};
ghost use Rattle.bw_memory.specs.Columns.{IsBlank, block_in};
ghost use Rattle.bw_memory.specs.MemoryTable.{layout_of, placement_of, schema_of, segments_in};
ghost use Rattle.bw_memory.specs.Windows.{IsPart, IsWindow, end_of, first_in, most_at_once, most_in};
ghost use Rattle.bw_memory.specs.Windows.{window_in};

use crate::columnar::ColumnarTable;
use crate::segment_window::SegmentWindow;
use crate::table::MemoryTable;
use bw_file::block_size;
use bw_io::RandomAccess;
use bw_lanes::LANES;
use bw_model::Fault;
use std::alloc::Global;
use std::mem::replace;

/// The bytes of a window's columns, if it has more than one segment: at least so many in all, and so
/// many of each column on average.
const WINDOW_SIZE: usize = 131_072;

const READ_SIZE: usize = 8_192;

impl SegmentWindow {
    /// Returns a window without a segment, before the first one of a file of which the columns are to
    /// be read that are wanted. Errors: 801 if memory is refused.
    pub fn new(alloc: Global, columnar: &ColumnarTable, wanted: &[bool]) -> Result<Self, Fault>
        requires { length wanted.now ≡ column_count columnar.now }
        ensures window { IfOk result (λ window. (known : Option (List ℕ))
            → IsWindow known columnar.now (is_wanted wanted.now) window) }
        ensures before { IfOk result (λ window. end_of window ≡ 0) }
        ensures most { IfOk result (λ window.
            most_in window ≡ most_at_once columnar.now (is_wanted wanted.now)) }
        ensures only_oom { IsOkUnless result no_memory }
    {
        SegmentWindow::before_all(alloc, columnar, segments_at_once(columnar, wanted))
    }

    /// Does this for one column.
    pub(crate) fn of_column(
        alloc: Global,
        columnar: &ColumnarTable,
        col: usize,
    ) -> Result<Self, Fault>
        requires { col < column_count columnar.now }
        ensures before { IfOk result (λ window. end_of window ≡ 0) }
        ensures part { IfOk result (λ window.
            IsPart columnar.now (first_in window) (window_in window)) }
        ensures only_oom { IsOkUnless result no_memory }
    {
        let size = block_size(columnar.table.layout, &columnar.table.placement, col);
        SegmentWindow::before_all(alloc, columnar, (WINDOW_SIZE / size.max(8)).max(1) as u32)
    }

    /// Returns a window without a segment, before the first one of a file, of which it will have at
    /// most so many. Errors: 801 if memory is refused.
    fn before_all(alloc: Global, columnar: &ColumnarTable, most: u32) -> Result<Self, Fault>
        requires { 1 ≤ most }
        ensures blank { IfOk result (λ window. IsBlank (window_in window)) }
        ensures before { IfOk result (λ window. end_of window ≡ 0) }
        ensures most { IfOk result (λ window. most_in window ≡ most) }
        ensures part { IfOk result (λ window.
            IsPart columnar.now (first_in window) (window_in window)) }
        ensures only_oom { IsOkUnless result no_memory }
    {
        Ok(SegmentWindow {
            table: columnar.blank(alloc, 0)?,
            first: 0,
            most,
            spare: no_bytes(alloc, columnar.table.placement.schema.columns.len())?,
        })
    }

    /// Returns the table of its segments.
    #[inline(always)]
    pub fn table(&self) -> &MemoryTable
        ensures { result.now ≡ window_in self.now }
    {
        &self.table
    }

    /// Returns the number of the file's segments before its end.
    pub fn end(&self) -> u32
        ensures { result ≡ end_of self.now }
    {
        self.first + self.table.segments
    }

    /// Reads the next segments of the file, in place of its own, which may not be the file's last
    /// ones.
    ///
    /// Errors: 306 to 308, of a block that is read; 305 if the device ends before; 701 if a read fails;
    /// 801 if memory is refused. The device's count of failures must be less than 2^64 - 1.
    pub fn read_next<D: RandomAccess>(
        &mut self,
        alloc: Global,
        device: &mut D,
        columnar: &ColumnarTable,
        wanted: &[bool],
    ) -> Result<(), Fault>
        requires counter_fits { (D.state device.old).failures < 2 ^ 64 - 1 }
        requires each { length wanted.now ≡ column_count columnar.now }
        requires window { IsWindow (D.state device.old).known columnar.now (is_wanted wanted.now)
            self.old }
        requires more { end_of self.old < segments_in (table_in columnar.now) }
        ensures window { OnOk result (IsWindow (D.state device.old).known columnar.now
            (is_wanted wanted.now) self.new) }
        ensures next { OnOk result (first_in self.new ≡ end_of self.old) }
        ensures some { OnOk result (1 ≤ segments_in (window_in self.new)) }
        ensures few { OnOk result (segments_in (window_in self.new) ≤ most_in self.old) }
        ensures most { OnOk result (most_in self.new ≡ most_in self.old) }
        ensures fault { IfErr result IsTableFault }
        ensures same { (D.state device.new).known ≡ (D.state device.old).known }
        ensures count { (D.state device.new).failures
            ≡ (D.state device.old).failures + failed_by result }
    {
        self.pass(alloc, columnar)?;
        for col in 0..wanted.len() {
            if wanted[col] {
                self.read_column(alloc, device, columnar, col)?;
            }
        }
        Ok(())
    }

    /// Passes to the next segments, of which no column has been read. Errors: 801 if memory is refused.
    pub(crate) fn pass(&mut self, alloc: Global, columnar: &ColumnarTable) -> Result<(), Fault>
        requires more { end_of self.old < segments_in (table_in columnar.now) }
        requires part { IsPart columnar.now (first_in self.old) (window_in self.old) }
        ensures next { OnOk result (first_in self.new ≡ end_of self.old) }
        ensures some { OnOk result (1 ≤ segments_in (window_in self.new)) }
        ensures few { OnOk result (segments_in (window_in self.new) ≤ most_in self.old) }
        ensures most { OnOk result (most_in self.new ≡ most_in self.old) }
        ensures part { OnOk result (IsPart columnar.now (first_in self.new) (window_in self.new)) }
        ensures blank { OnOk result ((window_in self.new ≡ window_in self.old)
            ⊎ IsBlank (window_in self.new)) }
        ensures only_oom { IsOkUnless result no_memory }
    {
        let whole = &columnar.table;
        let first = self.first + self.table.segments;
        let most = self.most.min(whole.segments - first);
        let rows = (whole.rows - LANES as u32 * first).min(LANES as u32 * most);
        self.first = first;
        if rows == self.table.rows {
            return Ok(());
        }
        self.table = columnar.blank(alloc, rows)?;
        Ok(())
    }

    /// Reads the blocks of a column in its segments into a buffer, and adds them to those of the
    /// segments before.
    /// Errors: those of [`ColumnarTable::read_column`].
    pub(crate) fn append_blocks<D: RandomAccess>(
        &self,
        device: &mut D,
        columnar: &ColumnarTable,
        col: usize,
        buffer: &mut Vec<u8>,
        blocks: &mut Vec<u8>,
    ) -> Result<(), Fault>
        requires counter_fits { (D.state device.old).failures < 2 ^ 64 - 1 }
        requires column { col < column_count columnar.now }
        requires part { IsPart columnar.now (first_in self.now) (window_in self.now) }
        requires before { AreFirstBlocks (D.state device.old).known columnar.now col
            (first_in self.now) blocks.old.items }
        ensures added { OnOk result (AreFirstBlocks (D.state device.old).known columnar.now col
            (end_of self.now) blocks.new.items) }
        ensures refused { IfErr result (IsColumnFault (D.state device.old).known columnar.now col) }
        ensures fault { IfErr result IsTableFault }
        ensures same { (D.state device.new).known ≡ (D.state device.old).known }
        ensures count { (D.state device.new).failures
            ≡ (D.state device.old).failures + failed_by result }
    {
        let at = self.place_of(columnar, col);
        self.table.read_blocks(device, col, at, buffer)?;
        blocks.extend_from_slice(buffer)?;
        Ok(())
    }

    /// Returns where its blocks of a column begin in the file.
    fn place_of(&self, columnar: &ColumnarTable, col: usize) -> u64
        requires column { col < column_count columnar.now }
        requires part { IsPart columnar.now (first_in self.now) (window_in self.now) }
        ensures place { result ≡ place_in columnar.now col 0 + first_in self.now
            * block_size (layout_of (window_in self.now)) (schema_of (window_in self.now)).columns.items
            col }
        ensures bound { result < 2 ^ 62 }
    {
        let size = block_size(self.table.layout, &self.table.placement, col);
        columnar.place_of(col) + self.first as u64 * size as u64
    }

    /// Reads its segments of a column. Errors: those of [`SegmentWindow::read_next`].
    fn read_column<D: RandomAccess>(
        &mut self,
        alloc: Global,
        device: &mut D,
        columnar: &ColumnarTable,
        col: usize,
    ) -> Result<(), Fault>
        requires counter_fits { (D.state device.old).failures < 2 ^ 64 - 1 }
        requires column { col < column_count columnar.now }
        requires part { IsPart columnar.now (first_in self.old) (window_in self.old) }
        ensures read { OnOk result ((number : ℕ) → number < segments_in (window_in self.old)
            → IfSome (D.state device.old).known (HasBlock columnar.now col
            (first_in self.old + number) (block_in (window_in self.new) number col))) }
        ensures others { OnOk result ((other : ℕ) → other ≢ col → (number : ℕ)
            → block_in (window_in self.new) number other
            ≡ block_in (window_in self.old) number other) }
        ensures first { OnOk result (first_in self.new ≡ first_in self.old) }
        ensures most { OnOk result (most_in self.new ≡ most_in self.old) }
        ensures segments { OnOk result
            (segments_in (window_in self.new) ≡ segments_in (window_in self.old)) }
        ensures layout { OnOk result (layout_of (window_in self.new) ≡ layout_of (window_in self.old)) }
        ensures placement { OnOk result
            (placement_of (window_in self.new) ≡ placement_of (window_in self.old)) }
        ensures rows { OnOk result ((window_in self.new).rows ≡ (window_in self.old).rows) }
        ensures fault { IfErr result IsTableFault }
        ensures same { (D.state device.new).known ≡ (D.state device.old).known }
        ensures count { (D.state device.new).failures
            ≡ (D.state device.old).failures + failed_by result }
    {
        let at = self.place_of(columnar, col);
        let mut blocks = take_bytes(alloc, &mut self.spare, col);
        self.table.read_blocks(device, col, at, &mut blocks)?;
        let before = self.table.replace_column(alloc, col, blocks);
        keep_bytes(&mut self.spare, col, before);
        Ok(())
    }
}

impl ColumnarTable {
    /// Returns a table of so many rows, at most 2^24, with the file's columns, each of which has its
    /// minimum in each row. Errors: 801 if memory is refused.
    fn blank(&self, alloc: Global, rows: u32) -> Result<MemoryTable, Fault>
        requires { rows ≤ most_rows }
        ensures layout { IfOk result (λ table. layout_of table ≡ layout_of (table_in self.now)) }
        ensures placement { IfOk result
            (λ table. placement_of table ≡ placement_of (table_in self.now)) }
        ensures rows { IfOk result (λ table. table.rows ≡ rows) }
        ensures segments { IfOk result (λ table. segments_in table ≡ (rows + 511) / 512) }
        ensures blank { IfOk result IsBlank }
        ensures only_oom { IsOkUnless result no_memory }
    {
        MemoryTable::blank(
            alloc,
            self.table.layout,
            self.table.placement.clone()?,
            rows,
        )
    }
}

/// Returns so many lists without a byte. Errors: 801 if memory is refused.
fn no_bytes(alloc: Global, count: usize) -> Result<Vec<Vec<u8>>, Fault>
    ensures { IsOkUnless result no_memory }
{
    let mut bytes = Vec::with_capacity(alloc, count)?;
    for _ in 0..count {
        bytes.push(Vec::new(alloc))?;
    }
    Ok(bytes)
}

/// Takes the bytes of a number out of a list, if it has them.
fn take_bytes(alloc: Global, bytes: &mut [Vec<u8>], number: usize) -> Vec<u8> {
    match bytes.get_mut(number) {
        Some(kept) => replace(kept, Vec::new(alloc)),
        None => Vec::new(alloc),
    }
}

/// Puts bytes in their place in a list, if it has one.
fn keep_bytes(bytes: &mut [Vec<u8>], number: usize, more: Vec<u8>) {
    if let Some(kept) = bytes.get_mut(number) {
        *kept = more;
    }
}

/// Returns how many segments a window has at most, given the columns that are wanted.
fn segments_at_once(columnar: &ColumnarTable, wanted: &[bool]) -> u32
    requires { length wanted.now ≡ column_count columnar.now }
    ensures { result ≡ most_at_once columnar.now (is_wanted wanted.now) }
{
    let table = &columnar.table;
    let (mut count, mut size) = (0, 0);
    for col in 0..wanted.len() {
        if wanted[col] {
            count += 1;
            size += block_size(table.layout, &table.placement, col);
        }
    }
    (WINDOW_SIZE.max(READ_SIZE * count) / size.max(8)).max(1) as u32
}

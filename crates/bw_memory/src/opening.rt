//! Opens a file by columns, and reads its columns.
ghost use Rattle.std.specs.Prelude.{◌≡◌, ◌≢◌, ◌⊎◌, ◌+◌, ◌*◌, ◌/◌, ◌-◌, ◌^◌, ◌<◌, length, take};
ghost use Rattle.std.specs.Prelude.{ℕ, List, Option, true, false, IfErr, IfOk, IfSome, OnOk, OnErr};
ghost use Rattle.bw_io.specs.Source.{failed_by, is_input_fault};
ghost use Rattle.bw_file.specs.declared.order.FileOrder.TheVariants.{ByColumns};
ghost use Rattle.bw_file.specs.Blocks.{block_size};
ghost use Rattle.bw_file.specs.FileBytes.{magic};
ghost use Rattle.bw_file.specs.TableReading.{IsTableFault};
ghost use Rattle.bw_memory.specs.Columnar.{AreFileBlocks, AreValidBlocks, HasColumns, HasDamage};
ghost use Rattle.bw_memory.specs.Columnar.{HasReadColumn};
ghost use Rattle.bw_memory.specs.Columnar.{IsColumnFault};
ghost use Rattle.bw_memory.specs.Columnar.{IsOpened, IsOpenFault, SameHeader, column_count};
ghost use Rattle.bw_memory.specs.Columnar.{IsReadFault, columnar_size};
ghost use Rattle.bw_memory.specs.Columnar.{is_wanted, place_in, table_in};
ghost use Rattle.bw_memory.specs.Columns.{IsBlank};
ghost use Rattle.bw_memory.specs.MemoryTable.{layout_of, schema_of, segments_in};

use crate::columnar::ColumnarTable;
use crate::filling::fill_at;
use crate::segment_window::SegmentWindow;
use crate::table::MemoryTable;
use bw_file::{FileOrder, ParsedHeader, block_size, parse_header, segment_size};
use bw_io::{Failed, RandomAccess};
use bw_model::{Fault, code};
use std::alloc::Global;

/// Returns whether a file begins as one by columns does. A read that fails, or a file that is
/// shorter, is no sign of one. The device's count of failures must be less than 2^64 - 1.
#[tactic(auto, unfolding(bw_file::specs::FileBytes::magic))]
pub fn is_by_columns<D: RandomAccess>(device: &mut D) -> bool
    requires { (D.state device.old).failures < 2 ^ 64 - 1 }
    ensures found { result ≡ true
        → IfSome (D.state device.old).known (λ bytes. take 8 bytes ≡ magic ByColumns) }
    ensures missed { result ≡ false
        → ((D.state device.old).failures < (D.state device.new).failures)
        ⊎ IfSome (D.state device.old).known (λ bytes. take 8 bytes ≢ magic ByColumns) }
    ensures same { (D.state device.new).known ≡ (D.state device.old).known }
{
    let mut first = [0u8; 8];
    fill_at(device, 0, &mut first).is_ok() && first == *b"BWBYCOLS"
}

/// No header has more bytes.
const LONGEST_HEADER: u64 = 20_000;

impl ColumnarTable {
    /// Opens a file by columns: reads its header and its length, and no column.
    ///
    /// Errors: the header's, 301 to 305 and 310; 305 at the file's length, if it is shorter than its
    /// columns, and 309 at the end of its columns, if it is longer; 701 if a read fails, or the file
    /// has changed; 801 if memory is refused. The device's count of failures must be less than
    /// 2^64 - 1.
    pub fn open<D: RandomAccess>(alloc: Global, device: &mut D) -> Result<Self, Fault>
        requires { (D.state device.old).failures < 2 ^ 64 - 1 }
        ensures opened { IfOk result (IsOpened (D.state device.old).known) }
        ensures blank { IfOk result (λ columnar. IsBlank (table_in columnar)) }
        ensures refused { IfErr result (IsOpenFault (D.state device.old).known) }
        ensures fault { IfErr result IsTableFault }
        ensures confirmed { IfOk result (λ _. (D.state device.new).confirmed ≡ true) }
        ensures same { (D.state device.new).known ≡ (D.state device.old).known }
        ensures count { (D.state device.new).failures
            ≡ (D.state device.old).failures + failed_by result }
    {
        let size = match device.size() {
            Ok(size) => size,
            Err(Failed) => return Err(Fault::new(code::READ_FAILED)),
        };
        let count = size.min(LONGEST_HEADER) as usize;
        let mut bytes = Vec::with_capacity(alloc, count)?;
        bytes.resize(count, 0)?;
        fill_at(device, 0, &mut bytes)?;
        let ParsedHeader { header, size: head } = parse_header(
            alloc,
            FileOrder::ByColumns,
            &bytes,
        )?;
        let table = MemoryTable::blank_under(alloc, header.layout, &header.schema, header.rows)?;
        let all = table.segments as u64 * segment_size(table.layout, &table.placement) as u64;
        if size < head + all {
            return Err(Fault::at_byte(code::TRUNCATED, size));
        }
        if size > head + all {
            return Err(Fault::at_byte(code::BYTES_AFTER_END, head + all));
        }
        if device.confirm().is_err() {
            return Err(Fault::new(code::READ_FAILED));
        }
        Ok(ColumnarTable { table, head })
    }

    /// Opens a file by columns, and reads all columns.
    ///
    /// Errors: those of [`ColumnarTable::open`], then those of [`ColumnarTable::read_columns`]; 701
    /// also if the file has changed since it was opened. The device's count of failures must be less
    /// than 2^64 - 1.
    pub fn read<D: RandomAccess>(alloc: Global, device: &mut D) -> Result<Self, Fault>
        requires { (D.state device.old).failures < 2 ^ 64 - 1 }
        ensures opened { IfOk result (IsOpened (D.state device.old).known) }
        ensures read { IfOk result (λ columnar. HasColumns (D.state device.old).known columnar
            (λ _. true) (column_count columnar)) }
        ensures refused { IfErr result (λ fault. is_input_fault fault ≡ false
            → IsReadFault (D.state device.old).known (λ _. true) fault) }
        ensures fault { IfErr result IsTableFault }
        ensures confirmed { IfOk result (λ _. (D.state device.new).confirmed ≡ true) }
        ensures count { (D.state device.new).failures
            ≡ (D.state device.old).failures + failed_by result }
    {
        let mut columnar = ColumnarTable::open(alloc, device)?;
        columnar.read_all(alloc, device)?;
        match device.confirm() {
            Ok(()) => Ok(columnar),
            Err(Failed) => Err(Fault::new(code::READ_FAILED)),
        }
    }

    /// Returns the table, in which a column that wasn't read has its minimum in each row.
    pub fn table(&self) -> &MemoryTable
        ensures { result.now ≡ table_in self.now }
    {
        &self.table
    }

    /// Returns the number of bytes of the file.
    pub fn size(&self) -> u64
        ensures { result ≡ columnar_size self.now }
    {
        let size = segment_size(self.table.layout, &self.table.placement) as u64;
        self.head + self.table.segments as u64 * size
    }

    /// Reads a column into memory, and validates its blocks.
    ///
    /// Errors: 308 at the first byte with a bit of a padding row, 307 and 306 at a block's first
    /// byte, of the first block that has an error; 305 if the device ends within the column; 701 if a
    /// read fails; 801 if memory is refused. The table is then as it was. The device's count of
    /// failures must be less than 2^64 - 1.
    pub fn read_column<D: RandomAccess>(
        &mut self,
        alloc: Global,
        device: &mut D,
        col: usize,
    ) -> Result<(), Fault>
        requires counter_fits { (D.state device.old).failures < 2 ^ 64 - 1 }
        requires column { col < length (schema_of (table_in self.old)).columns.items }
        ensures read { OnOk result (HasReadColumn (D.state device.old).known self.old self.new col) }
        ensures refused { IfErr result (IsColumnFault (D.state device.old).known self.old col) }
        ensures fault { IfErr result IsTableFault }
        ensures untouched { OnErr result (self.new ≡ self.old) }
        ensures same { (D.state device.new).known ≡ (D.state device.old).known }
        ensures count { (D.state device.new).failures
            ≡ (D.state device.old).failures + failed_by result }
    {
        let blocks = self.column_blocks(alloc, device, col)?;
        self.put_column(alloc, col, blocks);
        Ok(())
    }

    /// Puts blocks in place of those of a column: those of all segments, back to back, each of which
    /// must be valid.
    pub(crate) fn put_column(&mut self, alloc: Global, col: usize, blocks: Vec<u8>)
        requires column { col < column_count self.old }
        requires long { length blocks.items ≡ segments_in (table_in self.old)
            * block_size (layout_of (table_in self.old)) (schema_of (table_in self.old)).columns.items
            col }
        requires valid { AreValidBlocks self.old col (segments_in (table_in self.old)) blocks.items }
        ensures { (known : Option (List ℕ)) → AreFileBlocks known self.old col blocks.items
            → HasReadColumn known self.old self.new col }
    {
        self.table.replace_column(alloc, col, blocks);
    }

    /// Returns the blocks of a column in all segments, back to back. Those of some segments at a time
    /// are read and validated, so that they are still in the processor's cache. Errors: those of
    /// [`ColumnarTable::read_column`].
    pub(crate) fn column_blocks<D: RandomAccess>(
        &self,
        alloc: Global,
        device: &mut D,
        col: usize,
    ) -> Result<Vec<u8>, Fault>
        requires counter_fits { (D.state device.old).failures < 2 ^ 64 - 1 }
        requires column { col < length (schema_of (table_in self.now)).columns.items }
        ensures blocks { IfOk result (λ blocks.
            AreFileBlocks (D.state device.old).known self.now col blocks.items) }
        ensures refused { IfErr result (IsColumnFault (D.state device.old).known self.now col) }
        ensures fault { IfErr result IsTableFault }
        ensures same { (D.state device.new).known ≡ (D.state device.old).known }
        ensures count { (D.state device.new).failures
            ≡ (D.state device.old).failures + failed_by result }
    {
        let size = block_size(self.table.layout, &self.table.placement, col);
        let mut blocks = Vec::with_capacity(alloc, self.table.segments as usize * size)?;
        let mut window = SegmentWindow::of_column(alloc, self, col)?;
        let mut buffer = Vec::new(alloc);
        while window.end() < self.table.segments {
            window.pass(alloc, self)?;
            window.append_blocks(device, self, col, &mut buffer, &mut blocks)?;
        }
        Ok(blocks)
    }

    /// Reads all columns, in order. No column may have been read before.
    ///
    /// Errors: those of [`ColumnarTable::read_column`], of the first column that has one. The columns
    /// before it have then been read.
    pub fn read_all<D: RandomAccess>(&mut self, alloc: Global, device: &mut D) -> Result<(), Fault>
        requires counter_fits { (D.state device.old).failures < 2 ^ 64 - 1 }
        requires blank { IsBlank (table_in self.old) }
        ensures read { OnOk result (HasColumns (D.state device.old).known self.new (λ _. true)
            (column_count self.new)) }
        ensures header { SameHeader self.old self.new }
        ensures refused { IfErr result
            (HasDamage (D.state device.old).known (λ _. true) self.new) }
        ensures fault { IfErr result IsTableFault }
        ensures same { (D.state device.new).known ≡ (D.state device.old).known }
        ensures count { (D.state device.new).failures
            ≡ (D.state device.old).failures + failed_by result }
    {
        for col in 0..self.table.placement.schema.columns.len() {
            self.read_column(alloc, device, col)?;
        }
        Ok(())
    }

    /// Reads the columns of which `wanted` is true, in order. No column may have been read before.
    ///
    /// Errors: those of [`ColumnarTable::read_column`], of the first column that has one. The columns
    /// before it have then been read.
    pub fn read_columns<D: RandomAccess>(
        &mut self,
        alloc: Global,
        device: &mut D,
        wanted: &[bool],
    ) -> Result<(), Fault>
        requires counter_fits { (D.state device.old).failures < 2 ^ 64 - 1 }
        requires blank { IsBlank (table_in self.old) }
        requires each { length wanted.now ≡ column_count self.old }
        ensures read { OnOk result (HasColumns (D.state device.old).known self.new
            (is_wanted wanted.now) (column_count self.new)) }
        ensures header { SameHeader self.old self.new }
        ensures refused { IfErr result
            (HasDamage (D.state device.old).known (is_wanted wanted.now) self.new) }
        ensures fault { IfErr result IsTableFault }
        ensures same { (D.state device.new).known ≡ (D.state device.old).known }
        ensures count { (D.state device.new).failures
            ≡ (D.state device.old).failures + failed_by result }
    {
        for col in 0..wanted.len() {
            if wanted[col] {
                self.read_column(alloc, device, col)?;
            }
        }
        Ok(())
    }

    /// Returns where the blocks of a column begin in the file.
    pub(crate) fn place_of(&self, col: usize) -> u64
        requires { col < length (schema_of (table_in self.now)).columns.items }
        ensures place { result ≡ place_in self.now col 0 }
        ensures bound { result < 2 ^ 60 }
    {
        let segments = self.table.segments as u64;
        let mut at = self.head;
        for before in 0..col {
            at += segments * block_size(self.table.layout, &self.table.placement, before) as u64;
        }
        at
    }
}

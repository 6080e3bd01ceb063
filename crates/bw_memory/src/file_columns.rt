//! The columns of a file by columns, each of which is read when it is needed.
ghost use Rattle.std.proofs.Props.{props};
ghost use Rattle.std.specs.Prelude.{◌≡◌, ◌≢◌, ◌-◌, ◌^◌, ◌<◌, ◌≤◌, ℕ, IfErr, IfOk, IsTrue, OnErr, OnOk, false};
ghost use Rattle.std.specs.Prelude.{IsOkUnless, [], length, slice_set, true};
ghost use Rattle.bw_model.specs.Fault.{no_memory};
ghost use Rattle.bw_io.specs.Source.{is_input_fault, is_read_fault};
ghost use Rattle.bw_file.specs.TableReading.{IsTableFault};
ghost use Rattle.bw_memory.specs.Columnar.{AreFileBlocks, HasReadColumn, IsColumnFault, column_count};
ghost use Rattle.bw_memory.specs.Columnar.{table_in};
ghost use Rattle.bw_memory.specs.ColumnStore.{header_of, in_file};
ghost use Rattle.bw_memory.specs.Columns.{IsBlank};
ghost use Rattle.bw_memory.specs.FileColumns.{HasColumnDamage, HasColumnsRead, IsBlankElsewhere};
ghost use Rattle.bw_memory.specs.FileColumns.{state_of};
ghost use Rattle.bw_memory.specs.MemoryTable.{schema_of};
ghost use Rattle.bw_memory.specs.Ranges.{AreRangesOf, HaveRanges, ranges_kept};
ghost use Rattle.bw_memory.specs.ColumnState.{IsStateAfter};
ghost use Rattle.bw_memory.specs.declared.table.MemoryTable.{MemoryTable};
ghost use Rattle.bw_memory.specs.declared.column_state.ColumnState.TheVariants as state;
ghost use Rattle.bw_memory.specs.Failed.{has_failed_to_read};

use crate::column_ranges::{column_ranges, wide_ranges};
use crate::column_state::ColumnState;
use crate::column_store::ColumnStore;
use crate::columnar::ColumnarTable;
use crate::settling::verdicts_on_groups;
use crate::table::MemoryTable;
use bw_file::in_layout;
use bw_io::RandomAccess;
use bw_model::{Cond, Fault, Place, code};
use bw_ranges::{ColumnRange, Verdict};
use std::alloc::Global;

/// A file by columns and its table. A column is read when it is first needed, and stays in memory; so
/// does the error of one that is damaged. Once a read has failed, or the file has changed, the file is
/// read no more.
#[derive(Drop)]
pub struct FileColumns<D: RandomAccess + Drop> {
    pub(crate) device: D,
    pub(crate) columnar: ColumnarTable,
    pub(crate) states: Vec<ColumnState>,
    /// For each column the ranges of its values, if they were made when it was read.
    pub(crate) ranges: Vec<Vec<ColumnRange>>,
    /// And the ranges of wide groups.
    pub(crate) wide_ranges: Vec<Vec<ColumnRange>>,
    pub(crate) is_lost: bool,
    ghost all: { length states.items ≡ column_count columnar },
    ghost have: { HasColumnsRead (D.state device).known columnar states.items } by { Prim.hlevel props },
    ghost blank: { IsBlankElsewhere columnar states.items },
    ghost lists: { length ranges.items ≡ column_count columnar },
    ghost ranged: { HaveRanges 4 (table_in columnar) ranges.items },
    ghost wide_lists: { length wide_ranges.items ≡ column_count columnar },
    ghost wide_ranged: { HaveRanges 64 (table_in columnar) wide_ranges.items },
    ghost damage: { HasColumnDamage (D.state device).known columnar states.items },
    ghost counter_fits: { is_lost ≡ false → (D.state device).failures < 2 ^ 64 - 1 },
    ghost confirmed: { is_lost ≡ false → (D.state device).confirmed ≡ true },
}

impl<D: RandomAccess + Drop> FileColumns<D> {
    /// Returns the columns of a file by columns, given the file and its table as it was opened, with
    /// no column read.
    ///
    /// The file must have been found unchanged since the last read, as [`ColumnarTable::open`] finds
    /// it, and its device's count of failures be less than 2^64 - 1. Errors: 801 if memory is refused.
    pub fn new(alloc: Global, device: D, columnar: ColumnarTable) -> Result<Self, Fault>
        requires counter_fits { (D.state device).failures < 2 ^ 64 - 1 }
        requires confirmed { (D.state device).confirmed ≡ true }
        requires blank { IsBlank (table_in columnar) }
        ensures table { IfOk result (λ columns. columns.columnar ≡ columnar) }
        ensures known { IfOk result (λ columns. (D.state columns.device).known
            ≡ (D.state device).known) }
        ensures found { IfOk result (λ columns. columns.is_lost ≡ false) }
        ensures unread { IfOk result (λ columns. (column : ℕ)
            → state_of columns.states.items column ≡ state.Unread) }
        ensures only_oom { IsOkUnless result no_memory }
    {
        let count = columnar.table().schema().columns.len();
        let mut states = Vec::with_capacity(alloc, count)?;
        states.resize(count, ColumnState::Unread)?;
        Ok(FileColumns {
            device,
            columnar,
            states,
            ranges: no_ranges(alloc, count)?,
            wide_ranges: no_ranges(alloc, count)?,
            is_lost: false,
        })
    }

    /// Reads a column into memory, unless the file has changed. If it is damaged, its error stays.
    ///
    /// Errors: those of [`ColumnarTable::read_column`]; 701 also if the file has changed.
    fn read_from_file(&mut self, alloc: Global, column: usize) -> Result<(), Fault>
        requires column { column < column_count self.old.columnar }
        requires unread { state_of self.old.states.items column ≡ state.Unread }
        requires there { self.old.is_lost ≡ false }
        ensures read { OnOk result (HasReadColumn (D.state self.old.device).known self.old.columnar
            self.new.columnar column) }
        ensures refused { IfErr result (IsColumnFault (D.state self.old.device).known
            self.old.columnar column) }
        ensures fault { IfErr result IsTableFault }
        ensures untouched { OnErr result (self.new.columnar ≡ self.old.columnar) }
        ensures known { (D.state self.new.device).known ≡ (D.state self.old.device).known }
        ensures lost { IfErr result (λ fault. IsTrue (is_read_fault fault)
            → self.new.is_lost ≡ true) }
        ensures found { OnOk result (self.new.is_lost ≡ false) }
        ensures told { IfErr result (λ fault. self.new.is_lost ≡ true
            → is_read_fault fault ≡ true) }
        ensures failed { self.new.is_lost ≡ true → (D.state self.old.device).failures
            < (D.state self.new.device).failures }
        ensures count { (D.state self.old.device).failures ≤ (D.state self.new.device).failures }
        ensures state { IsStateAfter result (state_of self.new.states.items column) }
        ensures states { (other : ℕ) → other ≢ column
            → state_of self.new.states.items other ≡ state_of self.old.states.items other }
    {
        let done = self.columnar.column_blocks(alloc, &mut self.device, column);
        if has_failed_to_read(&done) || self.device.confirm().is_err() {
            self.is_lost = true;
            return Err(Fault::new(code::READ_FAILED));
        }
        match done {
            Ok(blocks) => {
                self.store(alloc, column, blocks);
                Ok(())
            }
            Err(fault) => {
                if !fault.is_memory() {
                    self.keep_error(column, fault);
                }
                Err(fault)
            }
        }
    }

    /// Stores a column's blocks, and makes the ranges of its values.
    fn store(&mut self, alloc: Global, column: usize, blocks: Vec<u8>)
        requires column { column < column_count self.old.columnar }
        requires blocks { AreFileBlocks (D.state self.old.device).known self.old.columnar column
            blocks.items }
        ensures read { HasReadColumn (D.state self.old.device).known self.old.columnar
            self.new.columnar column }
        ensures device { self.new.device ≡ self.old.device }
        ensures same { self.new.is_lost ≡ self.old.is_lost }
        ensures states { self.new.states.items
            ≡ slice_set self.old.states.items column state.Read }
    {
        self.columnar.put_column(alloc, column, blocks);
        self.ranges[column] = ranges_of(alloc, self.columnar.table(), column);
        self.wide_ranges[column] = wide_ranges_of(alloc, &self.ranges[column]);
        self.states[column] = ColumnState::Read;
    }

    /// Keeps the error of a column that wasn't read.
    fn keep_error(&mut self, column: usize, fault: Fault)
        requires column { column < column_count self.old.columnar }
        requires unread { state_of self.old.states.items column ≡ state.Unread }
        requires there { IsColumnFault (D.state self.old.device).known self.old.columnar column fault }
        requires table { IsTableFault fault }
        requires damage { is_input_fault fault ≡ false }
        ensures columnar { self.new.columnar ≡ self.old.columnar }
        ensures device { self.new.device ≡ self.old.device }
        ensures same { self.new.is_lost ≡ self.old.is_lost }
        ensures states { self.new.states.items
            ≡ slice_set self.old.states.items column (state.Damaged fault) }
    {
        self.states[column] = ColumnState::Damaged(fault);
    }
}

/// Returns for each of so many columns no range. Errors: 801 if memory is refused.
fn no_ranges(alloc: Global, count: usize) -> Result<Vec<Vec<ColumnRange>>, Fault>
    ensures each { IfOk result (λ kept. length kept.items ≡ count) }
    ensures none { IfOk result (λ kept. (column : ℕ) → ranges_kept kept.items column ≡ []) }
    ensures only_oom { IsOkUnless result no_memory }
{
    let mut kept = Vec::with_capacity(alloc, count)?;
    for _ in 0..count {
        kept.push(Vec::new(alloc))?;
    }
    Ok(kept)
}

/// Returns the ranges of a column's values in a table; none, if memory is refused.
#[tactic(auto, unfolding(bw_file::specs::Blocks::form_of))]
fn ranges_of(alloc: Global, table: &MemoryTable, column: usize) -> Vec<ColumnRange>
    requires { column < length (schema_of table.now).columns.items }
    ensures { AreRangesOf 4 table.now column result.items }
{
    match in_layout!(table.layout(), column_ranges::<_>(alloc, table, column)) {
        Ok(ranges) => ranges,
        Err(_) => Vec::new(alloc),
    }
}

/// Returns the ranges of wide groups, given those of groups; none, if memory is refused.
fn wide_ranges_of(alloc: Global, ranges: &[ColumnRange]) -> Vec<ColumnRange>
    ensures { (table : MemoryTable) (column : ℕ) → AreRangesOf 4 table column ranges.now
        → AreRangesOf 64 table column result.items }
{
    match wide_ranges(alloc, ranges) {
        Ok(wide) => wide,
        Err(_) => Vec::new(alloc),
    }
}

/// Returns whether a read failed.
fn has_failed_to_read(done: &Result<Vec<u8>, Fault>) -> bool
    ensures { result ≡ has_failed_to_read done.now }
{
    matches!(
        done,
        Err(Fault {
            code: code::READ_FAILED,
            place: Place::Nowhere,
        })
    )
}

impl<D: RandomAccess + Drop> ColumnStore for FileColumns<D> {
    ghost table = { λ columns. table_in columns.columnar };

    ghost source = { λ columns. in_file (D.state columns.device).known (header_of columns.columnar) };

    ghost is_lost = { λ columns. columns.is_lost };

    ghost state = { λ columns. state_of columns.states.items };

    ghost failures = { λ columns. (D.state columns.device).failures };

    fn table(&self) -> &MemoryTable {
        self.columnar.table()
    }

    fn read(&mut self, alloc: Global, column: usize) -> Result<(), Fault> {
        match self.states[column] {
            ColumnState::Read => Ok(()),
            ColumnState::Damaged(fault) => Err(fault),
            ColumnState::Unread if self.is_lost => Err(Fault::new(code::READ_FAILED)),
            ColumnState::Unread => self.read_from_file(alloc, column),
        }
    }

    fn settle(&self, alloc: Global, cond: &Cond, columns: &[usize]) -> Result<Vec<Verdict>, Fault> {
        let table = self.columnar.table();
        verdicts_on_groups(alloc, table, &self.ranges, &self.wide_ranges, cond, columns)
    }
}

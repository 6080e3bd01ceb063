//! Tables whose columns are in memory, or are read when they are needed.
ghost use Rattle.std.specs.Prelude.{◌≡◌, ◌≢◌, ◌<◌, ◌≤◌, ℕ, Bool, IfErr, IfOk, IsOkUnless, IsTrue, OnOk};
ghost use Rattle.std.specs.Prelude.{false, length, true};
ghost use Rattle.bw_model.specs.Fault.{no_memory};
ghost use Rattle.bw_io.specs.Source.{is_read_fault};
ghost use Rattle.bw_file.specs.TableReading.{IsTableFault};
ghost use Rattle.bw_memory.specs.ColumnState.{IsReadAgain, IsStateAfter};
ghost use Rattle.bw_memory.specs.ColumnStore.{ColumnSource, HasColumn, HasColumnFault, IsTableOf};
ghost use Rattle.bw_memory.specs.MemoryTable.{schema_of};
ghost use Rattle.bw_memory.specs.Settled.{HasNoVerdicts, HaveVerdicts};
ghost use Rattle.bw_memory.specs.declared.column_state.ColumnState.{ColumnState};
ghost use Rattle.bw_memory.specs.declared.table.MemoryTable.{MemoryTable};

use crate::table::MemoryTable;
use bw_model::{Cond, Fault};
use bw_ranges::Verdict;
use std::alloc::Global;

/// A table whose columns are in memory, or are read from a file by columns when they are needed.
pub trait ColumnStore {
    /// The table, as far as it is in memory.
    ghost table: { Self → MemoryTable };

    /// Where its columns come from.
    ghost source: { Self → ColumnSource };

    /// Whether the file is read no more, since a read failed or the file has changed.
    ghost is_lost: { Self → Bool };

    /// What is known of a column.
    ghost state: { Self → ℕ → ColumnState };

    /// How many calls of the file's device have failed.
    ghost failures: { Self → ℕ };

    /// Returns the table. In a column that wasn't read each row has the values of the source, or the
    /// column's minimum.
    fn table(&self) -> &MemoryTable
        ensures table { result.now ≡ table self.now }
        ensures of { IsTableOf (source self.now) (table self.now) };

    /// Reads a column, unless it is in memory. Errors: those of the file in this column (306 to 308,
    /// 305); 701 if a read fails, or the file has changed, or that was so before; 801 if memory is
    /// refused. The columns that were read stay. A column that was read, or whose error was found,
    /// has the same result again.
    fn read(&mut self, alloc: Global, column: usize) -> Result<(), Fault>
        requires { column < length (schema_of (table self.old)).columns.items }
        ensures read { OnOk result (HasColumn (source self.old) (table self.new) column) }
        ensures refused { IfErr result (HasColumnFault (source self.old) column) }
        ensures fault { IfErr result IsTableFault }
        ensures kept { (other : ℕ) → HasColumn (source self.old) (table self.old) other
            → HasColumn (source self.old) (table self.new) other }
        ensures of { IsTableOf (source self.old) (table self.new) }
        ensures schema { schema_of (table self.new) ≡ schema_of (table self.old) }
        ensures source { source self.new ≡ source self.old }
        ensures lost { IfErr result (λ fault. IsTrue (is_read_fault fault)
            → is_lost self.new ≡ true) }
        ensures found { OnOk result (is_lost self.new ≡ is_lost self.old) }
        ensures told { IfErr result (λ fault. is_lost self.old ≡ false → is_lost self.new ≡ true
            → is_read_fault fault ≡ true) }
        ensures failed { is_lost self.old ≡ false → is_lost self.new ≡ true
            → failures self.old < failures self.new }
        ensures count { failures self.old ≤ failures self.new }
        ensures again { IsReadAgain (is_lost self.old) (state self.old column) result }
        ensures state { IsStateAfter result (state self.new column) }
        ensures states { (other : ℕ) → other ≢ column
            → state self.new other ≡ state self.old other };

    /// Returns for groups of [`crate::GROUP`] segments what the ranges of these columns, as far as
    /// they are kept, tell of a condition. Of a group past the last one nothing is told. Errors: 801
    /// if memory is refused.
    fn settle(&self, alloc: Global, cond: &Cond, columns: &[usize]) -> Result<Vec<Verdict>, Fault>
        ensures settled { IfOk result (λ verdicts.
            HaveVerdicts cond.now (table self.now) verdicts.items) }
        ensures in_memory { IfOk result (λ verdicts.
            HasNoVerdicts (source self.now) verdicts.items) }
        ensures only_oom { IsOkUnless result no_memory };
}

impl ColumnStore for MemoryTable {
    ghost use Rattle.bw_memory.specs.ColumnStore.{in_memory};
    ghost use Rattle.bw_memory.specs.declared.column_state.ColumnState.TheVariants.{Read};

    ghost table = { λ table. table };

    ghost source = { in_memory };

    ghost is_lost = { λ table. false };

    ghost state = { λ table column. Read };

    ghost failures = { λ table. 0 };

    fn table(&self) -> &MemoryTable {
        self
    }

    fn read(&mut self, _alloc: Global, _column: usize) -> Result<(), Fault> {
        Ok(())
    }

    fn settle(
        &self,
        alloc: Global,
        _cond: &Cond,
        _columns: &[usize],
    ) -> Result<Vec<Verdict>, Fault> {
        Ok(Vec::new(alloc))
    }
}

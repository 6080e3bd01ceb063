//! Has the columns of a query in memory.
ghost use Rattle.std.specs.Prelude.{◌≡◌, ◌<◌, ◌≤◌, IfErr, IfOk, IsOkUnless, IsTrue, OnOk, false, true};
ghost use Rattle.bw_model.specs.Fault.{no_memory};
ghost use Rattle.bw_io.specs.Source.{is_read_fault};
ghost use Rattle.bw_file.specs.TableReading.{IsTableFault};
ghost use Rattle.bw_memory.specs.ColumnStore.{HasFirstFault, HasRows};
ghost use Rattle.bw_memory.specs.MemoryTable.{rows_of, schema_of};
ghost use Rattle.bw_memory.specs.Settled.{HasNoVerdicts, HaveVerdicts};
ghost use Rattle.bw_query.specs.NamedColumns.{is_named_by};

use crate::named_columns::{cond_names, is_named};
use bw_memory::ColumnStore;
use bw_model::{Cond, Fault, Query};
use bw_ranges::Verdict;
use std::alloc::Global;

/// Reads the columns that a query names, unless they are in memory. Errors: those of
/// [`ColumnStore::read`], of the first column that has one.
pub(crate) fn read_named<C: ColumnStore>(
    alloc: Global,
    store: &mut C,
    query: &Query,
) -> Result<(), Fault>
    ensures rows { OnOk result (HasRows (C.source store.old) (is_named_by query.now)
        (rows_of (C.table store.new))) }
    ensures refused { IfErr result (HasFirstFault (C.source store.old) (is_named_by query.now)) }
    ensures fault { IfErr result IsTableFault }
    ensures source { C.source store.new ≡ C.source store.old }
    ensures schema { schema_of (C.table store.new) ≡ schema_of (C.table store.old) }
    ensures lost { IfErr result (λ fault. IsTrue (is_read_fault fault)
        → C.is_lost store.new ≡ true) }
    ensures failed { C.is_lost store.old ≡ false → C.is_lost store.new ≡ true
        → C.failures store.old < C.failures store.new }
    ensures count { C.failures store.old ≤ C.failures store.new }
{
    for column in 0..store.table().schema().columns.len() {
        if is_named(query, column) {
            store.read(alloc, column)?;
        }
    }
    Ok(())
}

/// Returns what the ranges of the columns that a condition names tell of it, for each group of
/// segments, as [`ColumnStore::settle`] does. Errors: 801 if memory is refused.
pub(crate) fn settle_named<C: ColumnStore>(
    alloc: Global,
    store: &C,
    cond: &Cond,
) -> Result<Vec<Verdict>, Fault>
    ensures verdicts { IfOk result (λ verdicts.
        HaveVerdicts cond.now (C.table store.now) verdicts.items) }
    ensures in_memory { IfOk result (λ verdicts.
        HasNoVerdicts (C.source store.now) verdicts.items) }
    ensures only_oom { IsOkUnless result no_memory }
{
    let mut columns = Vec::new(alloc);
    for column in 0..store.table().schema().columns.len() {
        if cond_names(cond, column) {
            columns.push(column)?;
        }
    }
    store.settle(alloc, cond, &columns)
}

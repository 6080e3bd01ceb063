//! What the ranges of values tell of a condition on groups of segments.
ghost use Rattle.std.specs.Prelude.{◌≡◌, ◌<◌, ℕ, List, IfOk, IsOkUnless, false, length, map};
ghost use Rattle.bw_model.specs.Fault.{no_memory};
ghost use Rattle.bw_model.specs.Row.{Value};
ghost use Rattle.bw_ranges.specs.ColumnRange.{range_in, range_of_column};
ghost use Rattle.bw_memory.specs.MemoryTable.{meaning_numbered, segments_in};
ghost use Rattle.bw_memory.specs.Ranges.{AreWithin, HasRangeInGroup, HasRangeInTable, HaveRanges};
ghost use Rattle.bw_memory.specs.Ranges.{is_named};
ghost use Rattle.bw_memory.specs.Settled.{HaveVerdicts, HoldsOn, HoldsOnGroup};
ghost use Rattle.bw_memory.specs.declared.table.MemoryTable.{MemoryTable};

use crate::column_ranges::{GROUP, WIDE};
use crate::table::MemoryTable;
use bw_model::{Column, Cond, Fault};
use bw_ranges::{ColumnRange, Verdict, decide};
use std::alloc::Global;

/// If of so many groups all are open, no other is decided on: of values in no order, all would be. 50
/// comparisons over 1,221 groups took C 0.93 ms (2026-11-30).
const ASKED: u32 = 100;

/// Returns for each group of segments what the ranges of these columns tell of a condition. For each
/// column of the table a list of ranges is kept, and one of the ranges of wide groups. The list may
/// end early: of the groups past its end nothing is told. Errors: 801 if memory is refused.
pub(crate) fn verdicts_on_groups(
    alloc: Global,
    table: &MemoryTable,
    kept: &[Vec<ColumnRange>],
    wide: &[Vec<ColumnRange>],
    cond: &Cond,
    columns: &[usize],
) -> Result<Vec<Verdict>, Fault>
    requires kept { HaveRanges 4 table.now kept.now }
    requires wide { HaveRanges 64 table.now wide.now }
    ensures verdicts { IfOk result (λ verdicts.
        HaveVerdicts cond.now table.now verdicts.items) }
    ensures only_oom { IsOkUnless result no_memory }
{
    let whole = whole_ranges(alloc, &table.schema().columns)?;
    match decide_rows(cond, &whole) {
        Verdict::Open if are_kept(kept, columns) => {
            verdicts_by_ranges(alloc, table, &whole, kept, wide, cond, columns)
        }
        Verdict::Open => Ok(Vec::new(alloc)),
        verdict => one_verdict(alloc, table, cond, verdict),
    }
}

/// Returns the range of what each column admits. Errors: 801 if memory is refused.
fn whole_ranges(alloc: Global, columns: &[Column]) -> Result<Vec<ColumnRange>, Fault>
    ensures ranges { IfOk result (λ ranges. ranges.items ≡ map range_of_column columns.now) }
    ensures only_oom { IsOkUnless result no_memory }
{
    let mut ranges = Vec::with_capacity(alloc, columns.len())?;
    for column in columns {
        ranges.push(ColumnRange::of_column(column))?;
    }
    Ok(ranges)
}

/// Returns what ranges tell of a condition on any rows whose values are in them.
fn decide_rows(cond: &Cond, ranges: &[ColumnRange]) -> Verdict
    ensures { (rows : List (List Value)) → AreWithin ranges.now rows
        → HoldsOn cond.now rows result }
{
    decide(cond, ranges)
}

/// Returns whether ranges are kept of one of these columns.
fn are_kept(kept: &[Vec<ColumnRange>], columns: &[usize]) -> bool {
    for column in columns {
        if let Some(ranges) = kept.get(*column) {
            if !ranges.is_empty() {
                return true;
            }
        }
    }
    false
}

/// Returns the same verdict on each group of segments. Errors: 801 if memory is refused.
fn one_verdict(
    alloc: Global,
    table: &MemoryTable,
    cond: &Cond,
    verdict: Verdict,
) -> Result<Vec<Verdict>, Fault>
    requires { (number : ℕ) → number < segments_in table.now
        → HoldsOn cond.now (meaning_numbered table.now number).rows verdict }
    ensures verdicts { IfOk result (λ verdicts.
        HaveVerdicts cond.now table.now verdicts.items) }
    ensures only_oom { IsOkUnless result no_memory }
{
    let groups = table.segments().div_ceil(GROUP) as usize;
    let mut verdicts = Vec::with_capacity(alloc, groups)?;
    verdicts.resize(groups, verdict)?;
    Ok(verdicts)
}

/// Returns what the kept ranges tell of a condition on the groups of segments, given the ranges of
/// what the columns admit. A group has the verdict on its wide group, unless that is open. Errors: 801
/// if memory is refused.
fn verdicts_by_ranges(
    alloc: Global,
    table: &MemoryTable,
    whole: &[ColumnRange],
    kept: &[Vec<ColumnRange>],
    wide: &[Vec<ColumnRange>],
    cond: &Cond,
    columns: &[usize],
) -> Result<Vec<Verdict>, Fault>
    requires whole { (column : ℕ) → HasRangeInTable table.now column (range_in whole.now column) }
    requires kept { HaveRanges 4 table.now kept.now }
    requires wide { HaveRanges 64 table.now wide.now }
    ensures verdicts { IfOk result (λ verdicts.
        HaveVerdicts cond.now table.now verdicts.items) }
    ensures only_oom { IsOkUnless result no_memory }
{
    let groups = table.segments().div_ceil(GROUP);
    let mut verdicts = Vec::with_capacity(alloc, groups as usize)?;
    let mut ranges = Vec::with_capacity(alloc, whole.len())?;
    ranges.extend_from_slice(whole)?;
    let mut on_wide = Verdict::Open;
    let mut is_any_decided = false;
    for group in 0..groups {
        if group == ASKED && !is_any_decided {
            return Ok(verdicts);
        }
        if group % WIDE == 0 {
            let number = (group / WIDE) as usize;
            on_wide = group_verdict(cond, &mut ranges, whole, wide, columns, number);
        }
        let verdict = match on_wide {
            Verdict::Open => {
                group_verdict(cond, &mut ranges, whole, kept, columns, group as usize)
            }
            verdict => verdict,
        };
        verdicts.push(verdict)?;
        is_any_decided |= verdict != Verdict::Open;
    }
    Ok(verdicts)
}

/// Returns what the kept ranges tell of a condition on a group of segments. The ranges of these
/// columns in it are put in place of those in another one.
fn group_verdict(
    cond: &Cond,
    ranges: &mut [ColumnRange],
    whole: &[ColumnRange],
    kept: &[Vec<ColumnRange>],
    columns: &[usize],
    group: usize,
) -> Verdict
    requires { length ranges.old ≡ length whole.now }
    ensures others { (column : ℕ) → is_named columns.now column ≡ false
        → range_in ranges.new column ≡ range_in ranges.old column }
    ensures holds { (size : ℕ) (table : MemoryTable) → HaveRanges size table kept.now
        → ((column : ℕ) → HasRangeInTable table column (range_in whole.now column))
        → ((column : ℕ) → is_named columns.now column ≡ false
        → HasRangeInTable table column (range_in ranges.old column))
        → HoldsOnGroup cond.now size table group result }
{
    put_ranges(ranges, whole, kept, columns, group);
    decide_rows(cond, ranges)
}

/// Puts the ranges of these columns in a group of segments in place of those in another group.
fn put_ranges(
    ranges: &mut [ColumnRange],
    whole: &[ColumnRange],
    kept: &[Vec<ColumnRange>],
    columns: &[usize],
    group: usize,
)
    requires { length ranges.old ≡ length whole.now }
    ensures others { (column : ℕ) → is_named columns.now column ≡ false
        → range_in ranges.new column ≡ range_in ranges.old column }
    ensures group { (size : ℕ) (table : MemoryTable) → HaveRanges size table kept.now
        → ((column : ℕ) → HasRangeInTable table column (range_in whole.now column))
        → ((column : ℕ) → is_named columns.now column ≡ false
        → HasRangeInTable table column (range_in ranges.old column))
        → (column : ℕ) → HasRangeInGroup size table group column (range_in ranges.new column) }
{
    for column in columns {
        if *column < ranges.len() {
            ranges[*column] = range_in_group(whole, kept, *column, group);
        }
    }
}

/// Returns the range of a column in a group of segments, if one is kept, or else that of what the
/// column admits.
fn range_in_group(
    whole: &[ColumnRange],
    kept: &[Vec<ColumnRange>],
    column: usize,
    group: usize,
) -> ColumnRange
    requires { column < length whole.now }
    ensures { (size : ℕ) (table : MemoryTable) → HaveRanges size table kept.now
        → HasRangeInTable table column (range_in whole.now column)
        → HasRangeInGroup size table group column result }
{
    if let Some(ranges) = kept.get(column) {
        if let Some(range) = ranges.get(group) {
            return *range;
        }
    }
    whole[column]
}

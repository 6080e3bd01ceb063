//! Ranges of a column's values in groups of segments.
ghost use Rattle.std.specs.Prelude.{◌≡◌, ◌+◌, ◌*◌, ◌/◌, ◌<◌, ◌≤◌, ℕ, IfOk, IsOkUnless, length};
ghost use Rattle.bw_model.specs.Fault.{no_memory};
ghost use Rattle.bw_file.specs.Blocks.{form_of};
ghost use Rattle.bw_memory.specs.MemoryTable.{layout_of, schema_of, segments_in};
ghost use Rattle.bw_memory.specs.Ranges.{AreRangesOf, HasRange, HasRangeInGroup};
ghost use Rattle.bw_memory.specs.declared.table.MemoryTable.{MemoryTable};

use crate::table::MemoryTable;
use bw_lanes::{and, is_zero, mask, not};
use bw_model::Fault;
use bw_ranges::ColumnRange;
use bw_segment::{CodeLayout, Segment};
use std::alloc::Global;

/// The number of segments of a group, of whose values a range is kept. Of runs of 4,096 equal values
/// that begin anywhere, C read 3.38 ms without ranges, and 0.64, 0.36 and 0.23 with groups of 8, 4
/// and 2 segments (2026-11-30).
pub const GROUP: u32 = 4;

/// The number of groups of a wide group, of whose values a range is kept too. It is asked about first:
/// of a sorted column nearly all wide groups are settled.
pub(crate) const WIDE: u32 = 16;

/// If there are more groups than this, at most so many, spread evenly over the table, are looked at
/// before all others. Of evenly spread values without order each group has nearly the range of the
/// column, which tells nothing, and making the ranges took a third of a session's first answer.
const SAMPLES: u32 = 32;

/// Returns the range of a column's values in each group of segments of a table of this layout; none,
/// if there are many groups, which by a sample of them tell nothing. Errors: 801 if memory is refused.
pub(crate) fn column_ranges<L: CodeLayout>(
    alloc: Global,
    table: &MemoryTable,
    col: usize,
) -> Result<Vec<ColumnRange>, Fault>
    requires layout { form_of (layout_of table.now) ≡ L.packing }
    requires column { col < length (schema_of table.now).columns.items }
    ensures ranges { IfOk result (λ ranges. AreRangesOf 4 table.now col ranges.items) }
    ensures only_oom { IsOkUnless result no_memory }
{
    let groups = table.segments().div_ceil(GROUP);
    if groups > SAMPLES && !has_narrow_group::<L>(table, col, groups)? {
        return Ok(Vec::new(alloc));
    }
    let mut ranges = Vec::with_capacity(alloc, groups as usize)?;
    for group in 0..groups {
        ranges.push(group_range::<L>(table, col, group)?)?;
    }
    Ok(ranges)
}

/// Returns whether a range among some of the groups, spread evenly over the table, is at most half as
/// wide as that of all of these; or whether only some have nulls, or numbers. The last group, which may
/// have few rows, isn't among them. Errors: 801 if memory is refused.
fn has_narrow_group<L: CodeLayout>(
    table: &MemoryTable,
    col: usize,
    groups: u32,
) -> Result<bool, Fault>
    requires layout { form_of (layout_of table.now) ≡ L.packing }
    requires column { col < length (schema_of table.now).columns.items }
    requires groups { groups ≡ (segments_in table.now + 3) / 4 }
    requires some { 0 < groups }
    ensures only_oom { IsOkUnless result no_memory }
{
    let step = groups.div_ceil(SAMPLES);
    let first = group_range::<L>(table, col, 0)?;
    let mut whole = first;
    let mut narrowest = extent(&first);
    let mut differ = false;
    let mut group = step;
    while group < groups - 1 {
        let range = group_range::<L>(table, col, group)?;
        whole = whole.hull(&range);
        narrowest = narrowest.min(extent(&range));
        differ |= range.has_nulls != first.has_nulls || is_null(&range) != is_null(&first);
        group += step;
    }
    Ok(differ || narrowest <= extent(&whole) / 2)
}

/// Returns whether there is no number in a range.
fn is_null(range: &ColumnRange) -> bool {
    range.greatest < range.least
}

/// Returns how far the numbers of a range are apart; 0 if there is none.
fn extent(range: &ColumnRange) -> u64 {
    if is_null(range) {
        0
    } else {
        range.greatest.abs_diff(range.least)
    }
}

/// Returns the range of a column's values in a group of segments. Errors: 801 if memory is refused.
fn group_range<L: CodeLayout>(
    table: &MemoryTable,
    col: usize,
    group: u32,
) -> Result<ColumnRange, Fault>
    requires layout { form_of (layout_of table.now) ≡ L.packing }
    requires column { col < length (schema_of table.now).columns.items }
    requires group { group * 4 < segments_in table.now }
    ensures range { IfOk result (HasRangeInGroup 4 table.now group col) }
    ensures only_oom { IsOkUnless result no_memory }
{
    let first = group * GROUP;
    let end = first + GROUP.min(table.segments() - first);
    let mut range = segment_range(&table.segment::<L>(first)?, col);
    for number in first + 1..end {
        range = segment_range(&table.segment::<L>(number)?, col).hull(&range);
    }
    Ok(range)
}

/// Returns the ranges of wide groups, but for a last one of fewer groups, given those of all groups.
/// Errors: 801 if memory is refused.
pub(crate) fn wide_ranges(alloc: Global, ranges: &[ColumnRange]) -> Result<Vec<ColumnRange>, Fault>
    ensures wide { IfOk result (λ wide. (table : MemoryTable) (column : ℕ)
        → AreRangesOf 4 table column ranges.now → AreRangesOf 64 table column wide.items) }
    ensures only_oom { IsOkUnless result no_memory }
{
    let count = ranges.len() / WIDE as usize;
    let mut wide = Vec::with_capacity(alloc, count)?;
    for number in 0..count {
        wide.push(wide_range(ranges, number))?;
    }
    Ok(wide)
}

/// Returns the range of a wide group, given those of all groups.
fn wide_range(ranges: &[ColumnRange], number: usize) -> ColumnRange
    requires { number * 16 + 16 ≤ length ranges.now }
    ensures { (table : MemoryTable) (column : ℕ) → AreRangesOf 4 table column ranges.now
        → HasRangeInGroup 64 table number column result }
{
    let first = number * WIDE as usize;
    let mut range = ranges[first];
    for group in first + 1..first + WIDE as usize {
        range = ranges[group].hull(&range);
    }
    range
}

/// Returns the range of a column's values in a segment: from the minimum to the maximum of those that
/// aren't null.
fn segment_range<S: Segment>(segment: &S, col: usize) -> ColumnRange
    requires { col < length (S.meaning segment.now).columns }
    ensures { HasRange result col (S.meaning segment.now).rows }
{
    let nulls = segment.nulls(col);
    let present = and(&mask(segment.rows_in()), &not(&nulls));
    let Some(least) = segment.min_code(col, &present) else {
        return ColumnRange::only_null();
    };
    let Some(greatest) = segment.max_code(col, &present) else {
        return ColumnRange::only_null();
    };
    let column = &segment.schema().columns[col];
    ColumnRange::of_codes(column, least, greatest, !is_zero(&nulls))
}

//! What ranges tell of generated conditions, beside their truth on every row within.
ghost use Rattle.std.specs.Prelude.{IsTrue, length};
ghost use Rattle.bw_model.specs.Cond.{names_within};

use crate::generated::{COLUMNS_TABLE, NEAR, condition};
use crate::rows::NumberSource;
use bw_model::{Cond, Operand, Row, Schema, Truth, Value};
use bw_ranges::{ColumnRange, TruthSet, Verdict, decide, possible_truths};
use bw_rowwise::truth;
use bw_sql::parse;
use std::alloc::{AllocError, Global};
use std::process::Abort;
use std::test::Fail;

/// Draws a range of at most two numbers, and null, with a number near one of a condition.
fn range(numbers: &mut NumberSource) -> ColumnRange {
    let at = numbers.below(NEAR.len() as u64) as usize;
    let near = NEAR.get(at).copied().unwrap_or(0);
    let least = near.saturating_add_unsigned(numbers.below(3));
    let count = numbers.below(3);
    if count == 0 {
        return ColumnRange::only_null();
    }
    ColumnRange {
        least,
        greatest: least.saturating_add_unsigned(count - 1),
        has_nulls: numbers.below(2) == 0,
    }
}

/// Returns the values in a range.
fn values_in(alloc: Global, range: &ColumnRange) -> Result<Vec<Value>, AllocError> {
    let mut values = Vec::new(alloc);
    for number in [range.least, range.greatest] {
        if range.has(Some(number)) && !values.contains(&Some(number)) {
            values.push(Some(number))?;
        }
    }
    if range.has_nulls {
        values.push(None)?;
    }
    Ok(values)
}

/// Returns all rows within ranges.
fn rows_within(alloc: Global, ranges: &[ColumnRange]) -> Result<Vec<Row>, AllocError> {
    let mut rows = Vec::new(alloc);
    rows.push(Row {
        values: Vec::new(alloc),
    })?;
    for range in ranges {
        let values = values_in(alloc, range)?;
        let mut longer = Vec::new(alloc);
        for row in &rows {
            for value in &values {
                let mut next: Vec<Value> = Vec::from_slice(alloc, &row.values)?;
                next.push(*value)?;
                longer.push(Row { values: next })?;
            }
        }
        rows = longer;
    }
    Ok(rows)
}

/// Returns the truth values that a condition has on rows.
fn truths_on(rt: &impl Abort, schema: &Schema, cond: &Cond, rows: &[Row]) -> TruthSet
    requires { IsTrue (names_within (length schema.now.columns.items) cond.now) }
{
    let mut seen = TruthSet {
        no: false,
        unknown: false,
        yes: false,
    };
    for row in rows {
        assert!(rt; row.values.len() == schema.columns.len());
        match truth(cond, row) {
            Truth::No => seen.no = true,
            Truth::Unknown => seen.unknown = true,
            Truth::Yes => seen.yes = true,
        }
    }
    seen
}

/// Returns whether possible truth values are exact: those of a comparison that doesn't compare a
/// column with itself, and of `IS NULL`.
fn is_exact(cond: &Cond) -> bool {
    match cond {
        Cond::Cmp(_, Operand::Col(x), Operand::Col(y)) => x != y,
        Cond::Cmp(..) | Cond::IsNull(_) => true,
        _ => false,
    }
}

/// Ends the test unless each truth value that a condition has on a row within the ranges is
/// possible, and each possible one is such a truth value if they are exact.
fn assert_possible(
    rt: &impl Abort,
    schema: &Schema,
    cond: &Cond,
    ranges: &[ColumnRange],
    rows: &[Row],
    text: &str,
) -> Verdict
    requires { IsTrue (names_within (length schema.now.columns.items) cond.now) }
{
    let seen = truths_on(rt, schema, cond, rows);
    let possible = possible_truths(cond, ranges);
    assert!(rt; possible.no || !seen.no, "{text}");
    assert!(rt; possible.unknown || !seen.unknown, "{text}");
    assert!(rt; possible.yes || !seen.yes, "{text}");
    if is_exact(cond) {
        assert!(rt; possible == seen, "{text}: {possible:?} and {seen:?}");
    }
    decide(cond, ranges)
}

/// Draws a range for each of so many columns.
fn ranges_for(
    alloc: Global,
    numbers: &mut NumberSource,
    columns: usize,
) -> Result<Vec<ColumnRange>, AllocError> {
    let mut ranges = Vec::new(alloc);
    for _ in 0..columns {
        ranges.push(range(numbers))?;
    }
    Ok(ranges)
}

/// Tests a drawn condition over drawn ranges, and returns what they tell of it.
fn drawn_verdict(
    rt: &impl Abort,
    alloc: Global,
    schema: &Schema,
    numbers: &mut NumberSource,
    depth: u32,
) -> Result<Verdict, Fail> {
    let text = condition(alloc, numbers, depth)?;
    let sql = format!(in alloc; "SELECT COUNT(*) FROM t WHERE {text}")?;
    let cond = parse(alloc, schema, sql.as_bytes())?.cond;
    let ranges = ranges_for(alloc, numbers, schema.columns.len())?;
    let rows = rows_within(alloc, &ranges)?;
    Ok(assert_possible(rt, schema, &cond, &ranges, &rows, text.as_str()))
}

#[test]
fn truths_within_ranges_are_possible(rt: HostRuntime) -> Result<(), Fail> {
    let alloc = rt.alloc();
    let schema = Schema::parse(alloc, COLUMNS_TABLE.as_bytes())?;
    let mut numbers = NumberSource::new(1201);
    let (mut no_row, mut every_row, mut open) = (0u32, 0u32, 0u32);
    for number in 0..120u32 {
        match drawn_verdict(&rt, alloc, &schema, &mut numbers, number % 4)? {
            Verdict::NoRow => no_row = no_row.saturating_add(1),
            Verdict::EveryRow => every_row = every_row.saturating_add(1),
            Verdict::Open => open = open.saturating_add(1),
        }
    }
    assert!(rt; no_row >= 20, "{no_row}");
    assert!(rt; every_row >= 10, "{every_row}");
    assert!(rt; open >= 10, "{open}");
    Ok(())
}

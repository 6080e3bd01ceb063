//! Tests a condition over rows: its proposal is checked and run, and compared with the condition's
//! truth.
ghost use Rattle.std.specs.Prelude.{◌≡◌, IfOk, IsTrue, length};
ghost use Rattle.bw_model.specs.Cond.{names_within};
ghost use Rattle.bw_segment.specs.Meaning.{IsGroup, meaning_of};

use bw_cert::{Certified, check};
use bw_lanes::lane;
use bw_model::{Column, Cond, Fault, Row, Schema, Truth, Value};
use bw_plan::propose_in_order;
use bw_planes::PlaneSegment;
use bw_rowwise::truth;
use bw_slices::SliceSegment;
use bw_sql::parse;
use std::alloc::Global;
use std::process::Abort;
use std::test::Fail;

/// A source of pseudo-random numbers, the same in every run.
#[derive(Drop)]
pub(crate) struct NumberSource(u64);

impl NumberSource {
    pub(crate) fn new(seed: u64) -> Self {
        NumberSource(seed | 1)
    }

    /// Returns the next number of Marsaglia's xorshift, without its low bits.
    pub(crate) fn next(&mut self) -> u64 {
        let mut x = self.0;
        x ^= x << 13;
        x ^= x >> 7;
        x ^= x << 17;
        self.0 = x;
        x >> 11
    }

    /// Returns a number below a limit, or 0 if the limit is 0.
    pub(crate) fn below(&mut self, limit: u64) -> u64 {
        let next = self.next();
        if limit == 0 { 0 } else { next % limit }
    }
}

/// The cost of a run.
#[derive(Clone, Copy, Debug)]
pub(crate) struct Cost {
    pub(crate) loads: usize,
    pub(crate) skips: usize,
    pub(crate) selected: u64,
}

/// Returns a value of a column: one near its minimum, its maximum or another number, or any.
fn value(numbers: &mut NumberSource, column: &Column, near: i64) -> Value {
    if column.nullable && numbers.below(6) == 0 {
        return None;
    }
    let span = column.hi.abs_diff(column.lo);
    let offset = match numbers.below(4) {
        0 => numbers.below(6).min(span),
        1 => span.saturating_sub(numbers.below(6)),
        2 => near
            .abs_diff(column.lo)
            .saturating_add(numbers.below(3))
            .min(span),
        _ => numbers.next() % span.max(1),
    };
    let n = i128::from(column.lo) + i128::from(offset);
    Some(i64::try_from(n).unwrap_or(column.lo))
}

/// Returns this many rows of a table, some with values near these numbers.
pub(crate) fn rows_of(
    alloc: Global,
    numbers: &mut NumberSource,
    schema: &Schema,
    near: &[i64],
    count: usize,
) -> Result<Vec<Row>, Fail> {
    let mut rows = Vec::new(alloc);
    for _ in 0..count {
        let mut values = Vec::new(alloc);
        for column in &schema.columns {
            let at = numbers.below(near.len() as u64) as usize;
            let near = near.get(at).copied().unwrap_or(0);
            values.push(value(numbers, column, near))?;
        }
        rows.push(Row { values })?;
    }
    Ok(rows)
}

/// Ends the test unless the rows are a group of the table.
fn assert_group(rt: &impl Abort, schema: &Schema, rows: &[Row])
    ensures { IsGroup (meaning_of schema.now rows.now) }
{
    assert!(rt; rows.len() >= 1);
    assert!(rt; rows.len() <= 512);
    for row in rows {
        assert!(rt; schema.admits(row), "{:?}", row.values);
    }
}

/// Returns the certified program of a condition with its parts in some order, or the error of
/// `propose_in_order`. The checker must accept what is proposed.
pub(crate) fn certify_plan(
    rt: &impl Abort,
    alloc: Global,
    schema: &Schema,
    cond: &Cond,
    order: &Cond,
    text: &str,
) -> Result<Certified, Fault>
    requires { IsTrue (names_within (length schema.now.columns.items) cond.now) }
    ensures { IfOk result (λ certified. certified.schema.columns.items ≡ schema.now.columns.items) }
{
    let proposal = propose_in_order(alloc, schema, cond, order)?;
    match check(alloc, schema, cond, proposal.program, &proposal.certificate) {
        Ok(certified) => Ok(certified),
        Err((_, fault)) => panic!(rt; "{text}: {fault}"),
    }
}

/// Returns what a program selects from a group of rows in both layouts, which must be the rows on
/// which the condition is TRUE.
fn select_rows(
    rt: &impl Abort,
    alloc: Global,
    schema: &Schema,
    certified: &Certified,
    cond: &Cond,
    rows: &[Row],
    text: &str,
) -> Result<Cost, Fail>
    requires names { IsTrue (names_within (length schema.now.columns.items) cond.now) }
    requires columns { certified.now.schema.columns.items ≡ schema.now.columns.items }
{
    assert_group(rt, schema, rows);
    let planes = PlaneSegment::build(alloc, schema, rows)?;
    let (plane, counts) = certified.run_segment(&planes);
    let slices = SliceSegment::build(alloc, schema, rows)?;
    let (other, others) = certified.run_segment(&slices);
    assert!(rt; plane == other, "{text}");
    assert_eq!(rt; counts.loads, others.loads, "{text}");
    assert_eq!(rt; counts.skips, others.skips, "{text}");
    let mut selected = 0u64;
    for (i, row) in rows.iter().enumerate() {
        assert!(rt; row.values.len() == schema.columns.len());
        let is_true = truth(cond, row) == Truth::Yes;
        assert!(rt; i < 512);
        assert!(rt; lane(&plane, i) == is_true, "{text} on {:?}", row.values);
        selected = selected.saturating_add(u64::from(is_true));
    }
    Ok(Cost {
        loads: counts.loads,
        skips: counts.skips,
        selected,
    })
}

/// Returns the cost of a program over all groups of rows.
fn selected_in_all(
    rt: &impl Abort,
    alloc: Global,
    schema: &Schema,
    certified: &Certified,
    cond: &Cond,
    rows: &[Row],
    text: &str,
) -> Result<Cost, Fail>
    requires names { IsTrue (names_within (length schema.now.columns.items) cond.now) }
    requires columns { certified.now.schema.columns.items ≡ schema.now.columns.items }
{
    let mut cost = Cost {
        loads: 0,
        skips: 0,
        selected: 0,
    };
    for group in rows.chunks(512) {
        let more = select_rows(rt, alloc, schema, certified, cond, group, text)?;
        cost.loads = cost.loads.saturating_add(more.loads);
        cost.skips = cost.skips.saturating_add(more.skips);
        cost.selected = cost.selected.saturating_add(more.selected);
    }
    Ok(cost)
}

/// Returns the cost of a condition's program over rows, or the error of `propose`.
pub(crate) fn cost_of_rows(
    rt: &impl Abort,
    alloc: Global,
    schema: &Schema,
    text: &str,
    rows: &[Row],
) -> Result<Result<Cost, Fault>, Fail> {
    cost_in_order(rt, alloc, schema, text, text, rows)
}

/// Returns the cost of a program that takes the condition's parts in the order of another text.
pub(crate) fn cost_in_order(
    rt: &impl Abort,
    alloc: Global,
    schema: &Schema,
    text: &str,
    order: &str,
    rows: &[Row],
) -> Result<Result<Cost, Fault>, Fail> {
    let sql = format!(in alloc; "SELECT COUNT(*) FROM t WHERE {text}")?;
    let cond = parse(alloc, schema, sql.as_bytes())?.cond;
    let sql = format!(in alloc; "SELECT COUNT(*) FROM t WHERE {order}")?;
    let order = parse(alloc, schema, sql.as_bytes())?.cond;
    match certify_plan(rt, alloc, schema, &cond, &order, text) {
        Ok(certified) => {
            let cost = selected_in_all(rt, alloc, schema, &certified, &cond, rows, text)?;
            Ok(Ok(cost))
        }
        Err(fault) => Ok(Err(fault)),
    }
}

/// Returns the cost of a condition that has a program.
pub(crate) fn cost_of(
    rt: &impl Abort,
    alloc: Global,
    schema: &Schema,
    text: &str,
    rows: &[Row],
) -> Result<Cost, Fail> {
    match cost_of_rows(rt, alloc, schema, text, rows)? {
        Ok(cost) => Ok(cost),
        Err(fault) => panic!(rt; "{text}: {fault}"),
    }
}

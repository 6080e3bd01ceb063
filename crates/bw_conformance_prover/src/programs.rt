//! Programs of the planner, and with one instruction changed.
use crate::case::{Case, Verdict, query_of};
use crate::changes::assert_changes_checked;
use crate::conditions::condition;
use crate::tables::{NumberSource, SMALL, WIDE, small_rows, table, wide_rows};
use bw_model::{Row, Schema};
use bw_plan::propose;
use std::alloc::Global;
use std::process::Abort;
use std::test::Fail;

/// Ends the test unless the planner's program of a condition is certified, and with `changes` each
/// of its instructions is changed in turn: what the prover returns must be right.
fn assert_certified(
    rt: &impl Abort,
    alloc: Global,
    schema: &Schema,
    rows: &[Row],
    text: &str,
    changes: bool,
) -> Result<(), Fail> {
    let query = query_of(alloc, schema, text)?;
    let case = Case {
        schema,
        cond: &query.cond,
        rows,
    };
    let program = propose(alloc, schema, &query.cond)?.program;
    if changes {
        assert_changes_checked(rt, alloc, case, &program)?;
    }
    let verdict = case.verdict(rt, alloc, program)?;
    assert_eq!(rt; verdict, Verdict::Certified, "{text}");
    Ok(())
}

/// Ends the test unless this many conditions are certified over a table.
fn assert_drawn(
    rt: &impl Abort,
    alloc: Global,
    schema: &Schema,
    rows: &[Row],
    count: u32,
    changes: bool,
) -> Result<(), Fail> {
    let mut numbers = NumberSource::new(u64::from(count));
    for number in 0..count {
        let text = condition(alloc, &mut numbers, number % 4)?;
        assert_certified(rt, alloc, schema, rows, text.as_str(), changes)?;
    }
    Ok(())
}

#[test]
fn planned_programs_of_a_small_table_are_certified(rt: HostRuntime) -> Result<(), Fail> {
    let schema = table(rt.alloc(), SMALL)?;
    let rows = small_rows(rt.alloc())?;
    assert_drawn(&rt, rt.alloc(), &schema, &rows, 100, false)
}

#[test]
fn planned_programs_of_a_wide_table_are_certified(rt: HostRuntime) -> Result<(), Fail> {
    let schema = table(rt.alloc(), WIDE)?;
    let rows = wide_rows(rt.alloc(), &mut NumberSource::new(31))?;
    assert_drawn(&rt, rt.alloc(), &schema, &rows, 40, false)
}

#[test]
fn changed_programs_of_the_planner_are_checked(rt: HostRuntime) -> Result<(), Fail> {
    let schema = table(rt.alloc(), SMALL)?;
    let rows = small_rows(rt.alloc())?;
    assert_drawn(&rt, rt.alloc(), &schema, &rows, 12, true)
}

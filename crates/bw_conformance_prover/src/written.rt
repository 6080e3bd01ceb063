//! Programs of other writers than the planner, and with one instruction changed.
ghost use Rattle.std.specs.Prelude.{IfOk, IsTrue};
ghost use Rattle.bw_program.specs.Program.{fits};

use crate::case::{Case, Verdict, query_of};
use crate::changes::assert_changes_checked;
use crate::tables::{NumberSource, SMALL, WIDE, small_rows, table, wide_rows};
use crate::writer::{Bound, Style, Writer};
use bw_model::{Row, Schema};
use bw_program::Program;
use std::alloc::{AllocError, Global};
use std::process::Abort;
use std::test::Fail;

/// Returns a part over a column of a table, or over its first one.
fn drawn_part(numbers: &mut NumberSource, schema: &Schema) -> Bound {
    let column = numbers.below(schema.columns.len() as u64) as u8;
    let negated = numbers.below(2) == 0;
    match schema.columns.get(column as usize) {
        Some(found) => Bound {
            column,
            width: width_of(schema, column),
            nullable: found.nullable,
            bound: numbers.below(found.hi.abs_diff(found.lo)),
            negated,
        },
        None => Bound {
            column: 0,
            width: 1,
            nullable: false,
            bound: 1,
            negated,
        },
    }
}

/// Returns how many bits a column's codes have.
fn width_of(schema: &Schema, column: u8) -> u8 {
    let column = column as usize;
    if column < schema.columns.len() {
        schema.width(column) as u8
    } else {
        1
    }
}

/// Appends the text of a part to that of a condition.
fn push_part(
    alloc: Global,
    schema: &Schema,
    text: &mut String,
    word: &str,
    part: Bound,
) -> Result<(), AllocError> {
    let (name, lo) = match schema.columns.get(part.column as usize) {
        Some(column) => (["a", "b", "c", "d"][(part.column % 4) as usize], column.lo),
        None => ("a", 0),
    };
    let number = i128::from(lo) + i128::from(part.bound);
    let op = if part.negated { ">=" } else { "<" };
    let part = format!(in alloc; "{word}{name} {op} {number}")?;
    text.push_str(part.as_str())
}

/// Returns some parts, and the text of their AND or OR.
fn drawn_parts(
    alloc: Global,
    numbers: &mut NumberSource,
    schema: &Schema,
    any: bool,
    parts: &mut Vec<Bound>,
) -> Result<String, AllocError> {
    let mut text = String::new(alloc);
    let word = if any { " OR " } else { " AND " };
    for number in 0..2 + numbers.below(2) {
        let part = drawn_part(numbers, schema);
        push_part(
            alloc,
            schema,
            &mut text,
            if number == 0 { "" } else { word },
            part,
        )?;
        parts.push(part)?;
    }
    Ok(text)
}

/// Returns the program of a writer for the AND or OR of some parts.
fn written_program(
    alloc: Global,
    schema: &Schema,
    seed: u64,
    any: bool,
    parts: &[Bound],
    style: Style,
) -> Result<Program, Fail>
    ensures { IfOk result (λ program. IsTrue (fits schema.now.columns.items program)) }
{
    let mut writer = Writer::new(alloc, seed);
    writer.parts(any, parts, style)?;
    match Program::new(alloc, schema, &writer.instrs, writer.result())? {
        Some(program) => Ok(program),
        None => Err("no program")?,
    }
}

/// A table, rows of it, and whether each instruction of a program is changed in turn.
#[derive(Clone, Copy)]
struct Setting<'a> {
    schema: &'a Schema,
    rows: &'a [Row],
    changes: bool,
}

/// Ends the test unless a writer's program is certified, and what is returned of its changes is
/// right.
fn assert_written(
    rt: &impl Abort,
    alloc: Global,
    setting: Setting<'_>,
    seed: u64,
    style: Style,
) -> Result<(), Fail> {
    let mut numbers = NumberSource::new(seed);
    let any = numbers.below(2) == 0;
    let mut parts = Vec::new(alloc);
    let text = drawn_parts(alloc, &mut numbers, setting.schema, any, &mut parts)?;
    let program = written_program(alloc, setting.schema, seed, any, &parts, style)?;
    assert_certified(rt, alloc, setting, text.as_str(), program)
}

/// Ends the test unless a program is certified for a condition.
fn assert_certified(
    rt: &impl Abort,
    alloc: Global,
    setting: Setting<'_>,
    text: &str,
    program: Program,
) -> Result<(), Fail>
    requires { IsTrue (fits setting.schema.now.columns.items program) }
{
    let query = query_of(alloc, setting.schema, text)?;
    let case = Case {
        schema: setting.schema,
        cond: &query.cond,
        rows: setting.rows,
    };
    if setting.changes {
        assert_changes_checked(rt, alloc, case, &program)?;
    }
    let verdict = case.verdict(rt, alloc, program)?;
    assert_eq!(rt; verdict, Verdict::Certified, "{text}");
    Ok(())
}

/// Ends the test unless programs of each style are certified, and for the first `changed` seeds
/// what is returned of their changes is right.
fn assert_all_written(
    rt: &impl Abort,
    alloc: Global,
    schema: &Schema,
    rows: &[Row],
    seeds: u64,
    changed: u64,
) -> Result<(), Fail> {
    for seed in 0..seeds {
        let setting = Setting {
            schema,
            rows,
            changes: seed < changed,
        };
        for style in [Style::Down, Style::Up, Style::Bytes] {
            assert_written(rt, alloc, setting, seed.wrapping_mul(97), style)?;
        }
    }
    Ok(())
}

#[test]
fn written_programs_of_a_small_table_are_certified(rt: HostRuntime) -> Result<(), Fail> {
    let schema = table(rt.alloc(), SMALL)?;
    let rows = small_rows(rt.alloc())?;
    assert_all_written(&rt, rt.alloc(), &schema, &rows, 12, 1)
}

#[test]
fn written_programs_of_a_wide_table_are_certified(rt: HostRuntime) -> Result<(), Fail> {
    let schema = table(rt.alloc(), WIDE)?;
    let rows = wide_rows(rt.alloc(), &mut NumberSource::new(37))?;
    assert_all_written(&rt, rt.alloc(), &schema, &rows, 8, 0)
}

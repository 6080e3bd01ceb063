//! Generated conditions of every kind.
use crate::rows::{NumberSource, cost_of, rows_of};
use bw_model::Schema;
use std::alloc::{AllocError, Global};
use std::process::Abort;
use std::test::Fail;

/// Narrow, wide and nullable columns. The first four begin at 0, the next two at -10.
pub(crate) const COLUMNS_TABLE: &str = "\
    TABLE t\n\
    COLUMN a 0 255 NOT NULL\n\
    COLUMN x 0 1048575\n\
    COLUMN y 0 70000 NOT NULL\n\
    COLUMN z 0 1000\n\
    COLUMN b -10 10\n\
    COLUMN w -10 600 NOT NULL\n\
    COLUMN g -9223372036854775807 0\n\
    ";

const COLUMNS: [&str; 7] = ["a", "x", "y", "z", "b", "w", "g"];

const COMPARISONS: [&str; 6] = ["=", "<>", "<", ">", "<=", ">="];

/// NumberSource that conditions compare with, and that rows are near.
pub(crate) const NEAR: [i64; 16] = [
    -9223372036854775807,
    -300,
    -11,
    -10,
    -1,
    0,
    1,
    7,
    8,
    255,
    256,
    600,
    65535,
    70000,
    16777216,
    4294967295,
];

/// Draws one of some texts.
fn one_of<'a>(numbers: &mut NumberSource, texts: &[&'a str]) -> &'a str {
    let at = numbers.below(texts.len() as u64) as usize;
    texts.get(at).copied().unwrap_or("a")
}

/// Returns a literal, or at times NULL.
fn literal(alloc: Global, numbers: &mut NumberSource) -> Result<String, AllocError> {
    if numbers.below(12) == 0 {
        return String::from_str(alloc, "NULL");
    }
    let at = numbers.below(NEAR.len() as u64) as usize;
    let n = NEAR.get(at).copied().unwrap_or(0);
    n.to_string(alloc)
}

/// Returns two columns with the same minimum.
fn columns(numbers: &mut NumberSource) -> (&'static str, &'static str) {
    if numbers.below(4) == 0 {
        return (
            one_of(numbers, &COLUMNS[4..6]),
            one_of(numbers, &COLUMNS[4..6]),
        );
    }
    (
        one_of(numbers, &COLUMNS[..4]),
        one_of(numbers, &COLUMNS[..4]),
    )
}

/// Draws a predicate of any form.
fn predicate(alloc: Global, numbers: &mut NumberSource) -> Result<String, AllocError> {
    let column = one_of(numbers, &COLUMNS);
    let op = one_of(numbers, &COMPARISONS);
    let not = one_of(numbers, &["", "NOT "]);
    let first = literal(alloc, numbers)?;
    let second = literal(alloc, numbers)?;
    match numbers.below(10) {
        0 => format!(in alloc; "{first} {op} {column}"),
        1 => format!(in alloc; "{first} {op} {second}"),
        2 => format!(in alloc; "{column} {not}BETWEEN {first} AND {second}"),
        3 => format!(in alloc; "{column} IS {not}NULL"),
        4 | 5 => {
            let mut list = format!(in alloc; "{column} {not}IN ({first}, {second}")?;
            for _ in 0..numbers.below(5) {
                let next = literal(alloc, numbers)?;
                list.push_str(format!(in alloc; ", {next}")?.as_str())?;
            }
            list.push_str(")")?;
            Ok(list)
        }
        6 => {
            let (c, d) = columns(numbers);
            format!(in alloc; "{c} {op} {d}")
        }
        7 => {
            let (c, d) = columns(numbers);
            format!(in alloc; "{c} {not}IN ({first}, {d}, {second})")
        }
        _ => format!(in alloc; "{column} {op} {first}"),
    }
}

/// Returns a condition whose parts nest this deep.
pub(crate) fn condition(
    alloc: Global,
    numbers: &mut NumberSource,
    depth: u32,
) -> Result<String, AllocError> {
    if depth == 0 || numbers.below(5) == 0 {
        return predicate(alloc, numbers);
    }
    let first = condition(alloc, numbers, depth - 1)?;
    match numbers.below(6) {
        0 => format!(in alloc; "NOT ({first})"),
        1 => {
            let not = one_of(numbers, &["", "NOT "]);
            let truth = one_of(numbers, &["TRUE", "FALSE", "UNKNOWN"]);
            format!(in alloc; "({first}) IS {not}{truth}")
        }
        2 => {
            let second = condition(alloc, numbers, depth - 1)?;
            let third = predicate(alloc, numbers)?;
            format!(in alloc; "({first}) OR ({second}) OR {third}")
        }
        3 => {
            let second = condition(alloc, numbers, depth - 1)?;
            format!(in alloc; "({first}) OR ({second})")
        }
        _ => {
            let second = condition(alloc, numbers, depth - 1)?;
            format!(in alloc; "({first}) AND ({second})")
        }
    }
}

/// Checks this many conditions: each has a program that selects the right rows.
fn pick(rt: &(impl Abort + AllocGlobal), seed: u64, count: u32) -> Result<(), Fail> {
    let alloc = rt.alloc();
    let schema = Schema::parse(alloc, COLUMNS_TABLE.as_bytes())?;
    let mut numbers = NumberSource::new(seed);
    let rows = rows_of(alloc, &mut numbers, &schema, &NEAR, 1500)?;
    for number in 0..count {
        let text = condition(alloc, &mut numbers, number % 4)?;
        cost_of(rt, alloc, &schema, text.as_str(), &rows)?;
    }
    Ok(())
}

#[test]
fn first_conditions_pick_what_is_true(rt: HostRuntime) -> Result<(), Fail> {
    pick(&rt, 1000, 30)
}

#[test]
fn second_conditions_pick_what_is_true(rt: HostRuntime) -> Result<(), Fail> {
    pick(&rt, 1037, 30)
}

#[test]
fn third_conditions_pick_what_is_true(rt: HostRuntime) -> Result<(), Fail> {
    pick(&rt, 1074, 30)
}

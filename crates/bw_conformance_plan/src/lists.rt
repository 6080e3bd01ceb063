//! Lists of numbers: what fits into a program, and the rows that it selects.
use crate::rows::{NumberSource, cost_of, cost_of_rows, rows_of};
use bw_model::{Row, Schema, code};
use std::alloc::Global;
use std::process::Abort;
use std::test::Fail;

/// Columns of eight bits, 16, 20, 26 and 32, of which the third and the fifth take null.
const WIDTHS: &str = "\
    TABLE t\n\
    COLUMN a 0 255 NOT NULL\n\
    COLUMN b 0 65535 NOT NULL\n\
    COLUMN c 0 1048575\n\
    COLUMN d 0 67108863 NOT NULL\n\
    COLUMN e 0 4294967295\n\
    ";

/// Returns scattered numbers of this many bits, of which the first and the last bytes are often all
/// zeros or ones.
fn scatter_numbers(alloc: Global, count: u64, bits: u32) -> Result<Vec<i64>, Fail> {
    let mut numbers = NumberSource::new(u64::from(bits));
    let mut made = Vec::new(alloc);
    for number in 0..count {
        let any = numbers.below(1 << bits.min(62));
        let near = match number % 8 {
            0 => any | 255,
            1 => any & !255,
            _ => any,
        };
        made.push(i64::try_from(near % (1 << bits.min(62))).unwrap_or(0))?;
    }
    Ok(made)
}

/// Returns the condition that a column is one of some numbers.
fn among(alloc: Global, column: &str, numbers: &[i64]) -> Result<String, Fail> {
    let mut text = format!(in alloc; "{column} IN (")?;
    for (at, number) in numbers.iter().enumerate() {
        let comma = if at == 0 { "" } else { "," };
        text.push_str(format!(in alloc; "{comma}{number}")?.as_str())?;
    }
    text.push_str(")")?;
    Ok(text)
}

/// Returns the same condition as an OR of equations.
fn equations(alloc: Global, column: &str, numbers: &[i64]) -> Result<String, Fail> {
    let mut text = String::new(alloc);
    for (at, number) in numbers.iter().enumerate() {
        let word = if at == 0 { "" } else { " OR " };
        text.push_str(format!(in alloc; "{word}{column} = {number}")?.as_str())?;
    }
    Ok(text)
}

/// Ends the test unless lists of this many numbers have a program, negated and combined too.
fn assert_served(
    rt: &(impl Abort + AllocGlobal),
    column: &str,
    bits: u32,
    counts: &[u64],
) -> Result<(), Fail> {
    let alloc = rt.alloc();
    let schema = Schema::parse(alloc, WIDTHS.as_bytes())?;
    for count in counts {
        let numbers = scatter_numbers(alloc, *count, bits)?;
        let mut source = NumberSource::new(*count);
        let rows = rows_of(alloc, &mut source, &schema, &numbers, 1200)?;
        let text = among(alloc, column, &numbers)?;
        for (before, after) in [("", ""), ("NOT (", ")"), ("a < 9 OR ", " AND b > 5")] {
            let text = format!(in alloc; "{before}{text}{after}")?;
            cost_of(rt, alloc, &schema, text.as_str(), &rows)?;
        }
    }
    Ok(())
}

#[test]
fn lists_over_one_byte_are_served(rt: HostRuntime) -> Result<(), Fail> {
    assert_served(&rt, "a", 8, &[10, 60, 200])
}

#[test]
fn lists_over_two_bytes_are_served(rt: HostRuntime) -> Result<(), Fail> {
    assert_served(&rt, "b", 16, &[60, 240])
}

#[test]
fn lists_over_three_bytes_are_served(rt: HostRuntime) -> Result<(), Fail> {
    assert_served(&rt, "c", 20, &[40, 60, 180])
}

#[test]
fn lists_over_four_bytes_are_served(rt: HostRuntime) -> Result<(), Fail> {
    assert_served(&rt, "d", 26, &[60, 129])?;
    assert_served(&rt, "e", 32, &[100])
}

/// Ends the test unless equations cost as much as the list of their numbers.
fn assert_as_list(
    rt: &impl Abort,
    alloc: Global,
    column: &str,
    bits: u32,
    count: u64,
) -> Result<(), Fail> {
    let schema = Schema::parse(alloc, WIDTHS.as_bytes())?;
    let numbers = scatter_numbers(alloc, count, bits)?;
    let rows = rows_of(
        alloc,
        &mut NumberSource::new(count),
        &schema,
        &numbers,
        1200,
    )?;
    let list = among(alloc, column, &numbers)?;
    let list = cost_of(rt, alloc, &schema, list.as_str(), &rows)?;
    let text = equations(alloc, column, &numbers)?;
    let cost = cost_of(rt, alloc, &schema, text.as_str(), &rows)?;
    assert_eq!(rt; cost.loads, list.loads, "{text}");
    assert_eq!(rt; cost.skips, list.skips, "{text}");
    Ok(())
}

#[test]
fn equations_of_one_column_cost_what_a_list_costs(rt: HostRuntime) -> Result<(), Fail> {
    assert_as_list(&rt, rt.alloc(), "a", 8, 300)?;
    assert_as_list(&rt, rt.alloc(), "b", 16, 60)?;
    assert_as_list(&rt, rt.alloc(), "c", 20, 40)
}

/// Ends the test unless a list of this many numbers has a program, and one of one more has none.
fn assert_longest(
    rt: &impl Abort,
    alloc: Global,
    column: &str,
    bits: u32,
    count: u64,
) -> Result<(), Fail> {
    let schema = Schema::parse(alloc, WIDTHS.as_bytes())?;
    let none: Vec<Row> = Vec::new(alloc);
    let fits = scatter_numbers(alloc, count, bits)?;
    let text = among(alloc, column, &fits)?;
    cost_of(rt, alloc, &schema, text.as_str(), &none)?;
    let passes = scatter_numbers(alloc, count.saturating_add(1), bits)?;
    let text = among(alloc, column, &passes)?;
    match cost_of_rows(rt, alloc, &schema, text.as_str(), &none)? {
        Ok(cost) => panic!(rt; "one number more: {cost:?}"),
        Err(fault) => assert_eq!(rt; fault.code, code::NO_PROGRAM),
    }
    Ok(())
}

#[test]
fn the_longest_lists_are_served(rt: HostRuntime) -> Result<(), Fail> {
    assert_longest(&rt, rt.alloc(), "a", 8, 400)
}

#[test]
fn the_longest_scattered_lists_are_served(rt: HostRuntime) -> Result<(), Fail> {
    assert_longest(&rt, rt.alloc(), "d", 26, 133)
}

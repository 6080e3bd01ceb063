//! Comparisons of columns with one another: skips, if no row has the two equal so far.
use crate::rows::{NumberSource, cost_of, cost_of_rows, rows_of};
use bw_model::{Row, Schema, code};
use std::alloc::Global;
use std::process::Abort;
use std::test::Fail;

/// Columns of ten bits, the first two of which take no null.
const TEN_BITS: &str = "\
    TABLE t\n\
    COLUMN a 0 1023 NOT NULL\n\
    COLUMN c 0 1023 NOT NULL\n\
    COLUMN b 0 1023\n\
    COLUMN d 0 1023\n\
    ";

/// The same with four bytes.
const FOUR_BYTES: &str = "\
    TABLE t\n\
    COLUMN a 0 4294967295 NOT NULL\n\
    COLUMN c 0 4294967295 NOT NULL\n\
    COLUMN b 0 4294967295\n\
    COLUMN d 0 4294967295\n\
    ";

const COMPARISONS: [&str; 6] = ["=", "<>", "<", ">", "<=", ">="];

/// Columns of which one takes null, or none, or both, and which differ in their top bit.
const PAIRS: [(&str, &str); 4] = [("a", "c"), ("a", "b"), ("b", "a"), ("b", "d")];

/// Returns 512 equal rows, in which `a` and `d` have the top bit of this number, and `c` and `b`
/// haven't.
fn alike(alloc: Global, top: i64) -> Result<Vec<Row>, Fail> {
    let mut rows = Vec::new(alloc);
    for _ in 0..512 {
        let mut values = Vec::new(alloc);
        for value in [top, 7, 5, top.saturating_add(9)] {
            values.push(Some(value))?;
        }
        rows.push(Row { values })?;
    }
    Ok(rows)
}

/// Ends the test if a condition's program takes no skip over rows, or more than this many loads.
fn assert_early(
    rt: &(impl Abort + AllocGlobal),
    schema: &Schema,
    text: &str,
    rows: &[Row],
    loads: usize,
) -> Result<(), Fail> {
    let cost = cost_of(rt, rt.alloc(), schema, text, rows)?;
    assert!(rt; cost.skips >= 1, "{text}: {cost:?}");
    assert!(rt; cost.loads <= loads, "{text}: {cost:?}");
    Ok(())
}

/// The text before and after a comparison: it alone, negated, tested, and combined with another one
/// that doesn't settle it.
const FORMS: [(&str, &str); 11] = [
    ("", ""),
    ("NOT (", ")"),
    ("(", ") IS TRUE"),
    ("(", ") IS NOT FALSE"),
    ("(", ") IS UNKNOWN"),
    ("c < 9 AND ", ""),
    ("", " AND c < 9"),
    ("c > 9 OR ", ""),
    ("", " OR c > 9"),
    ("NOT (c < 9 AND ", ")"),
    ("NOT (", " OR c > 9)"),
];

#[test]
fn comparisons_of_columns_end_early(rt: HostRuntime) -> Result<(), Fail> {
    let alloc = rt.alloc();
    let schema = Schema::parse(alloc, TEN_BITS.as_bytes())?;
    let rows = alike(alloc, 600)?;
    for (before, after) in FORMS {
        for (x, y) in PAIRS {
            for op in COMPARISONS {
                let text = format!(in alloc; "{before}{x} {op} {y}{after}")?;
                assert_early(&rt, &schema, text.as_str(), &rows, 8)?;
            }
        }
    }
    Ok(())
}

#[test]
fn tests_for_unknown_load_nulls_alone(rt: HostRuntime) -> Result<(), Fail> {
    let alloc = rt.alloc();
    let schema = Schema::parse(alloc, TEN_BITS.as_bytes())?;
    let rows = alike(alloc, 600)?;
    for (x, y) in PAIRS {
        for op in COMPARISONS {
            let text = format!(in alloc; "({x} {op} {y}) IS NOT UNKNOWN")?;
            let cost = cost_of(&rt, alloc, &schema, text.as_str(), &rows)?;
            assert!(rt; cost.loads <= 2, "{text}: {cost:?}");
        }
    }
    Ok(())
}

#[test]
fn wide_comparisons_of_columns_end_early(rt: HostRuntime) -> Result<(), Fail> {
    let alloc = rt.alloc();
    let schema = Schema::parse(alloc, FOUR_BYTES.as_bytes())?;
    let rows = alike(alloc, 3_000_000_000)?;
    for (x, y) in PAIRS {
        for op in COMPARISONS {
            let text = format!(in alloc; "{x} {op} {y}")?;
            assert_early(&rt, &schema, text.as_str(), &rows, 4)?;
        }
    }
    Ok(())
}

#[test]
fn ranges_and_lists_of_columns_end_early(rt: HostRuntime) -> Result<(), Fail> {
    let alloc = rt.alloc();
    let schema = Schema::parse(alloc, TEN_BITS.as_bytes())?;
    let rows = alike(alloc, 600)?;
    for not in ["", "NOT "] {
        for (x, y, z) in [
            ("a", "c", "b"),
            ("c", "a", "d"),
            ("b", "a", "d"),
            ("d", "c", "b"),
            ("a", "b", "c"),
        ] {
            let text = format!(in alloc; "{x} {not}BETWEEN {y} AND {z}")?;
            assert_early(&rt, &schema, text.as_str(), &rows, 10)?;
            let text = format!(in alloc; "{x} {not}IN ({y}, {z})")?;
            assert_early(&rt, &schema, text.as_str(), &rows, 10)?;
            let text = format!(in alloc; "{x} {not}IN ({y}, 11, {z})")?;
            assert_early(&rt, &schema, text.as_str(), &rows, 16)?;
        }
    }
    Ok(())
}

/// Returns the columns `c0`, `c1` and so on of a table, from 0 to a maximum, and the condition that
/// each is less than the next.
fn chain(alloc: Global, count: usize, most: i64) -> Result<(Schema, String), Fail> {
    let mut table = String::from_str(alloc, "TABLE t\n")?;
    let mut text = String::from_str(alloc, "c0 < c1")?;
    for column in 0..count.saturating_add(1) {
        let line = format!(in alloc; "COLUMN c{column} 0 {most} NOT NULL\n")?;
        table.push_str(line.as_str())?;
    }
    for column in 1..count {
        let next = column + 1;
        let part = format!(in alloc; " AND c{column} < c{next}")?;
        text.push_str(part.as_str())?;
    }
    Ok((Schema::parse(alloc, table.as_bytes())?, text))
}

/// Ends the test unless a chain of this many comparisons has a program, and one of one more has
/// none.
fn assert_longest(rt: &(impl Abort + AllocGlobal), count: usize, most: i64) -> Result<(), Fail> {
    let alloc = rt.alloc();
    let (schema, text) = chain(alloc, count, most)?;
    let mut numbers = NumberSource::new(7);
    let rows = rows_of(alloc, &mut numbers, &schema, &[0, 1, 500, most], 700)?;
    cost_of(rt, alloc, &schema, text.as_str(), &rows)?;
    let (schema, text) = chain(alloc, count.saturating_add(1), most)?;
    let none: Vec<Row> = Vec::new(alloc);
    match cost_of_rows(rt, alloc, &schema, text.as_str(), &none)? {
        Ok(cost) => panic!(rt; "{text}: {cost:?}"),
        Err(fault) => assert_eq!(rt; fault.code, code::NO_PROGRAM, "{text}"),
    }
    Ok(())
}

#[test]
fn comparisons_that_share_columns_are_served(rt: HostRuntime) -> Result<(), Fail> {
    let alloc = rt.alloc();
    let most = i64::MAX - 1;
    let (schema, _) = chain(alloc, 3, most)?;
    let mut numbers = NumberSource::new(9);
    let rows = rows_of(alloc, &mut numbers, &schema, &[0, 1, 500, most], 700)?;
    for text in [
        "c0 < c1 AND c1 < c2 AND c2 < c3",
        "c0 <= c1 OR c1 >= c2 OR c2 <> c3",
        "NOT (c0 < c1 AND c2 = c3)",
        "c0 BETWEEN c1 AND c2",
    ] {
        cost_of(&rt, alloc, &schema, text, &rows)?;
    }
    Ok(())
}

/// Columns of four bits, the last of which takes no null.
const FOUR_BITS: &str = "\
    TABLE t\n\
    COLUMN x 0 15\n\
    COLUMN y 0 15\n\
    COLUMN z 0 15\n\
    COLUMN w 0 15 NOT NULL\n\
    ";

// Compared columns demand opposite orders here, and no order shows one of the skips that the planner
// writes at first.
#[test]
fn conditions_with_a_skip_that_has_no_proof_are_served(rt: HostRuntime) -> Result<(), Fail> {
    let alloc = rt.alloc();
    let schema = Schema::parse(alloc, FOUR_BITS.as_bytes())?;
    let mut numbers = NumberSource::new(13);
    let rows = rows_of(alloc, &mut numbers, &schema, &[0, 7, 15], 700)?;
    for text in [
        "(w < 15 OR w = z) AND (y < 6 OR z >= x) AND (z <= y OR z <> w) AND (z <= w OR x <= y)",
        "(y >= 1 AND (z < 7 OR z <> y OR w <= z) AND (y > z OR w = z)) AND z < 3 AND x > w",
    ] {
        cost_of(&rt, alloc, &schema, text, &rows)?;
    }
    Ok(())
}

#[test]
fn seven_columns_of_63_bits_in_order_are_served(rt: HostRuntime) -> Result<(), Fail> {
    assert_longest(&rt, 6, 9_223_372_036_854_775_806)
}

#[test]
fn seven_columns_of_32_bits_in_order_are_served(rt: HostRuntime) -> Result<(), Fail> {
    assert_longest(&rt, 6, 4_294_967_295)
}

//! Programs that take a condition's parts in another order than they are written in.
use crate::rows::{NumberSource, cost_in_order, rows_of};
use bw_model::{Row, Schema, code};
use std::process::Abort;
use std::test::Fail;

const TABLE: &str = "\
    TABLE t\n\
    COLUMN a 0 255 NOT NULL\n\
    COLUMN x 0 1048575\n\
    COLUMN y 0 70000 NOT NULL\n\
    COLUMN z 0 1000\n\
    COLUMN b -10 10\n\
    ";

const NEAR: [i64; 6] = [-1, 0, 3, 7, 128, 900];

/// Conditions, and the same parts in another order.
const ORDERS: [(&str, &str); 7] = [
    ("a < 128 AND x = 7", "x = 7 AND a < 128"),
    (
        "a < 128 AND y < 900 AND z = 7",
        "z = 7 AND y < 900 AND a < 128",
    ),
    (
        "a < 8 OR z IS NULL OR x BETWEEN 5 AND 900",
        "x BETWEEN 5 AND 900 OR a < 8 OR z IS NULL",
    ),
    (
        "NOT (a < 8 AND x = 7) OR b = 3",
        "b = 3 OR NOT (x = 7 AND a < 8)",
    ),
    (
        "a IN (1, 3, 5) AND x < y AND b IS NOT NULL",
        "b IS NOT NULL AND x < y AND a IN (1, 3, 5)",
    ),
    (
        "(a < 8 OR b = 3) IS NOT TRUE AND (x < 900 OR z < 7)",
        "(x < 900 OR z < 7) AND (a < 8 OR b = 3) IS NOT TRUE",
    ),
    ("a < 8 AND a < 128 AND z > 7", "z > 7 AND a < 128 AND a < 8"),
];

/// Returns three groups of rows and a short one.
fn rows(rt: &impl AllocGlobal, schema: &Schema) -> Result<Vec<Row>, Fail> {
    rows_of(rt.alloc(), &mut NumberSource::new(29), schema, &NEAR, 1700)
}

#[test]
fn parts_in_another_order_select_the_same_rows(rt: HostRuntime) -> Result<(), Fail> {
    let schema = Schema::parse(rt.alloc(), TABLE.as_bytes())?;
    let rows = rows(&rt, &schema)?;
    for (text, order) in ORDERS {
        let written = cost_in_order(&rt, rt.alloc(), &schema, text, text, &rows)?;
        let other = cost_in_order(&rt, rt.alloc(), &schema, text, order, &rows)?;
        let (Ok(written), Ok(other)) = (written, other) else {
            panic!(rt; "{text}: no program");
        };
        assert_eq!(rt; written.selected, other.selected, "{text}");
    }
    Ok(())
}

/// No row has the number 12345 in `y`.
#[test]
fn a_selective_part_that_comes_first_saves_loads(rt: HostRuntime) -> Result<(), Fail> {
    let schema = Schema::parse(rt.alloc(), TABLE.as_bytes())?;
    let rows = rows(&rt, &schema)?;
    let text = "x < 900000 AND z < 999 AND y = 12345";
    let order = "y = 12345 AND x < 900000 AND z < 999";
    let written = cost_in_order(&rt, rt.alloc(), &schema, text, text, &rows)?;
    let other = cost_in_order(&rt, rt.alloc(), &schema, text, order, &rows)?;
    let (Ok(written), Ok(other)) = (written, other) else {
        panic!(rt; "{text}: no program");
    };
    assert_eq!(rt; other.selected, 0);
    assert!(rt; other.loads <= written.loads / 2, "{written:?} {other:?}");
    Ok(())
}

#[test]
fn parts_of_another_condition_have_no_program(rt: HostRuntime) -> Result<(), Fail> {
    let schema = Schema::parse(rt.alloc(), TABLE.as_bytes())?;
    let rows = rows(&rt, &schema)?;
    for (text, order) in [
        ("a < 8 AND x = 7", "x = 7 AND a < 9"),
        ("a < 8 AND x = 7", "x = 7"),
        ("a < 8 AND x = 7", "a < 8 OR x = 7"),
    ] {
        match cost_in_order(&rt, rt.alloc(), &schema, text, order, &rows)? {
            Ok(_) => panic!(rt; "{text} by {order}: a program"),
            Err(fault) => assert_eq!(rt; fault.code, code::NO_PROGRAM, "{order}"),
        }
    }
    Ok(())
}

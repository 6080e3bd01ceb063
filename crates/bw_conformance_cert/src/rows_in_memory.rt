//! Statements read by `bw_sql`, and their conditions and totals over rows in memory, without a CSV
//! text.
ghost use Rattle.std.specs.Prelude.{◌≡◌, All, IsTrue, IfOk, length};
ghost use Rattle.std.specs.List.{list_all};
ghost use Rattle.bw_model.specs.Cond.{names_within};
ghost use Rattle.bw_model.specs.Row.{values_of};
ghost use Rattle.bw_model.specs.Total.{item_within};

use crate::files::SCHEMA;
use bw_model::{Item, Query, Row, Schema, Truth, Value};
use bw_rowwise::{aggregate, select, truth};
use bw_sql::parse;
use std::alloc::Global;
use std::process::Abort;
use std::test::Fail;

/// The columns `a` and `b` of five rows.
const TABLE: [[Value; 2]; 5] = [
    [Some(0), Some(-10)],
    [Some(255), Some(10)],
    [Some(7), None],
    [Some(7), None],
    [Some(8), Some(0)],
];

fn rows_of(alloc: Global, table: &[[Value; 2]]) -> Result<Vec<Row>, Fail>
    ensures { IfOk result (λ rows. All (λ row. length (values_of row) ≡ 2) rows.items) }
{
    let mut rows = Vec::new(alloc);
    for [a, b] in table {
        rows.push(Row {
            values: vec![in alloc; *a, *b]?,
        })?;
    }
    Ok(rows)
}

/// Returns the query of a statement over the table of two columns.
fn query(rt: &(impl Abort + AllocGlobal), sql: &str) -> Result<Query, Fail>
    ensures cond { IfOk result (λ query. IsTrue (names_within 2 query.cond)) }
    ensures items { IfOk result (λ query. IsTrue (list_all (item_within 2) query.items.items)) }
{
    let schema = Schema::parse(rt.alloc(), SCHEMA)?;
    assert!(rt; schema.columns.len() == 2);
    Ok(parse(rt.alloc(), &schema, sql.as_bytes())?)
}

/// Checks the truth of a condition on each row of the table, and that the rows on which it is TRUE
/// are selected.
fn check_truth(
    rt: &(impl Abort + AllocGlobal),
    condition: &str,
    expected: [Truth; 5],
) -> Result<(), Fail> {
    let sql = format!(in rt.alloc(); "SELECT COUNT(*) FROM t WHERE {condition}")?;
    let query = query(rt, sql.as_str())?;
    let mut last = None;
    for (i, [a, b]) in TABLE.iter().enumerate() {
        let row = Row {
            values: vec![in rt.alloc(); *a, *b]?,
        };
        let truth = truth(&query.cond, &row);
        assert_eq!(rt; truth, expected[i], "row {i} of {condition}");
        if truth == Truth::Yes {
            last = Some([*a, *b]);
        }
    }
    let kept = select(rt.alloc(), &query.cond, &rows_of(rt.alloc(), &TABLE)?)?;
    match (kept.last(), last) {
        (Some(row), Some(values)) => {
            assert_eq!(rt; row.values.as_slice(), values.as_slice(), "{condition}");
        }
        (None, None) => {}
        _ => panic!(rt; "rows that {condition} keeps"),
    }
    Ok(())
}

#[test]
fn conditions_are_three_valued(rt: HostRuntime) -> Result<(), Fail> {
    use Truth::{No, Unknown, Yes};
    for (condition, expected) in [
        ("b < 1", [Yes, No, Unknown, Unknown, Yes]),
        ("NOT (b < 1)", [No, Yes, Unknown, Unknown, No]),
        (
            "b NOT IN (0, NULL)",
            [Unknown, Unknown, Unknown, Unknown, No],
        ),
        ("(b < 1) IS UNKNOWN", [No, No, Yes, Yes, No]),
        ("(b < 1) IS NOT UNKNOWN", [Yes, Yes, No, No, Yes]),
        ("a < 300", [Yes, Yes, Yes, Yes, Yes]),
        ("a >= 256", [No, No, No, No, No]),
        ("b <> 1000", [Yes, Yes, Unknown, Unknown, Yes]),
        ("192 <= a", [No, Yes, No, No, No]),
        ("a = b", [No, No, Unknown, Unknown, No]),
        (
            "a NOT BETWEEN 1 AND 8 OR b IS NULL",
            [Yes, Yes, Yes, Yes, No],
        ),
        (
            "b NOT BETWEEN 1 AND NULL",
            [Yes, Unknown, Unknown, Unknown, Yes],
        ),
        ("b IS NULL IS NOT FALSE", [No, No, Yes, Yes, No]),
    ] {
        check_truth(&rt, condition, expected)?;
    }
    Ok(())
}

#[test]
fn totals_drop_nulls(rt: HostRuntime) -> Result<(), Fail> {
    let rows = rows_of(rt.alloc(), &TABLE)?;
    assert_eq!(rt; rows.len(), 5);
    assert_eq!(rt; aggregate(&Item::CountAll, &rows), Some(5));
    assert_eq!(rt; aggregate(&Item::Sum(0), &rows), Some(277));
    assert_eq!(rt; aggregate(&Item::Max(1), &rows), Some(10));
    let sevens = rows_of(rt.alloc(), &TABLE[2..4])?;
    assert_eq!(rt; sevens.len(), 2);
    assert_eq!(rt; aggregate(&Item::CountAll, &sevens), Some(2));
    assert_eq!(rt; aggregate(&Item::Count(1), &sevens), Some(0));
    assert_eq!(rt; aggregate(&Item::Sum(1), &sevens), None);
    assert_eq!(rt; aggregate(&Item::Min(1), &sevens), None);
    Ok(())
}

/// The columns of the table have fourteen variables: the eight bits of `a`, and of `b` its null and
/// five bits.
#[test]
fn variables_are_numbered_over_the_schema(rt: HostRuntime) -> Result<(), Fail> {
    let schema = Schema::parse(rt.alloc(), SCHEMA)?;
    assert!(rt; schema.columns.len() == 2);
    assert_eq!(rt; schema.var_count(), 14);
    assert_eq!(rt; schema.var_null(0), None);
    assert_eq!(rt; schema.var_null(1), Some(8));
    assert_eq!(rt; schema.width(0), 8);
    assert_eq!(rt; schema.width(1), 5);
    Ok(())
}

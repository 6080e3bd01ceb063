//! What accepted programs select, and which skips they take, compared with the condition's truth
//! row by row.
ghost use Rattle.std.specs.Prelude.{IsTrue, length};
ghost use Rattle.bw_model.specs.Cond.{names_within};

use crate::files::{BELOW_EIGHT, SAME_SKIP_TWICE, SCHEMA, TOP_BITS, TWO_SKIPS};
use bw_cert::check_file;
use bw_lanes::Plane;
use bw_model::{Cond, Row, Schema, Truth, admitted_rows_have_each_value};
use bw_planes::PlaneSegment;
use bw_rowwise::truth;
use bw_run::Counts;
use bw_segment::is_group;
use bw_slices::SliceSegment;
use bw_sql::parse;
use std::alloc::Global;
use std::process::Abort;
use std::test::Fail;

/// Rows with these values of `a`, and nulls in `b`.
fn rows_of(alloc: Global, values: &[u8]) -> Result<Vec<Row>, Fail> {
    let mut rows = Vec::new(alloc);
    for a in values {
        rows.push(Row {
            values: vec![in alloc; Some(i64::from(*a)), None]?,
        })?;
    }
    Ok(rows)
}

/// Ends the test unless a plane is the truth of the condition on each of the rows, and 0 after
/// them.
fn assert_truth(rt: &impl Abort, schema: &Schema, cond: &Cond, rows: &[Row], plane: &Plane)
    requires { IsTrue (names_within (length schema.now.columns.items) cond.now) }
{
    admitted_rows_have_each_value();
    for i in 0..512 {
        let bit = plane[i / 64] >> (i % 64) & 1 == 1;
        let expected = match rows.get(i) {
            None => false,
            Some(row) => schema.admits(row) && truth(cond, row) == Truth::Yes,
        };
        assert_eq!(rt; bit, expected, "row {i}");
    }
}

/// Runs an accepted program over rows in planes and in slices: both select the matching rows, with
/// equal counts.
fn run(
    rt: &impl Abort,
    alloc: Global,
    condition: &str,
    file: &str,
    values: &[u8],
) -> Result<Counts, Fail> {
    let schema = Schema::parse(alloc, SCHEMA)?;
    let sql = format!(in alloc; "SELECT COUNT(*) FROM t WHERE {condition}")?;
    let query = parse(alloc, &schema, sql.as_bytes())?;
    let certified = check_file(alloc, &schema, &query.cond, file.as_bytes())?.certified;
    let rows = rows_of(alloc, values)?;
    assert!(rt; is_group(&schema, &rows));
    let planes = PlaneSegment::build(alloc, &schema, &rows)?;
    let (plane, counts) = certified.run_segment(&planes);
    assert_truth(rt, &schema, &query.cond, &rows, &plane);
    let slices = SliceSegment::build(alloc, &schema, &rows)?;
    let (other, others) = certified.run_segment(&slices);
    assert!(rt; plane == other);
    assert_eq!(rt; counts.loads, others.loads);
    assert_eq!(rt; counts.skips, others.skips);
    Ok(counts)
}

/// Conditions and their program files.
const FILES: [(&str, &str); 4] = [
    ("a >= 192", TOP_BITS),
    ("a >= 192", SAME_SKIP_TWICE),
    ("a >= 224", TWO_SKIPS),
    ("a < 8", BELOW_EIGHT),
];

/// Ends the test unless the files have these loads and skips over rows.
fn assert_counts(
    rt: &impl Abort,
    alloc: Global,
    values: &[u8],
    expected: [(usize, usize); 4],
) -> Result<(), Fail> {
    for ((condition, file), (loads, skips)) in FILES.iter().zip(expected) {
        let counts = run(rt, alloc, condition, file, values)?;
        assert_eq!(rt; counts.loads, loads, "{condition} on {values:?}");
        assert_eq!(rt; counts.skips, skips, "{condition} on {values:?}");
    }
    Ok(())
}

#[test]
fn every_value_in_one_segment(rt: HostRuntime) -> Result<(), Fail> {
    let mut values = Vec::new(rt.alloc());
    for a in 0..=255 {
        values.push(a)?;
    }
    assert_counts(&rt, rt.alloc(), &values, [(2, 0), (2, 0), (3, 0), (1, 0)])
}

#[test]
fn every_value_in_a_segment_of_its_own(rt: HostRuntime) -> Result<(), Fail> {
    for a in 0..=255u8 {
        // of two skips into one place, segments of different values take another one
        let (one_skip, two_skips) = match a {
            0..128 => ((1, 1), (1, 1)),
            128..192 => ((2, 0), (2, 1)),
            192.. => ((2, 0), (3, 0)),
        };
        assert_counts(
            &rt,
            rt.alloc(),
            &[a],
            [one_skip, one_skip, two_skips, (1, 0)],
        )?;
    }
    Ok(())
}

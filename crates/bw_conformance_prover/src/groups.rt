//! Groups of rows, and what a program selects of them.
ghost use Rattle.std.specs.Prelude.{◌≡◌, IsTrue, length};
ghost use Rattle.bw_model.specs.Cond.{names_within};
ghost use Rattle.bw_program.specs.Program.{fits};
ghost use Rattle.bw_segment.specs.Meaning.{IsGroup, meaning_of};

use bw_lanes::lane;
use bw_model::{Cond, Row, Schema, Truth};
use bw_planes::PlaneSegment;
use bw_program::Program;
use bw_rowwise::truth;
use bw_run::run_segment;
use std::alloc::Global;
use std::process::Abort;
use std::test::Fail;

/// Ends the test unless the rows are a group of the table.
fn assert_group(rt: &impl Abort, schema: &Schema, rows: &[Row])
    ensures { IsGroup (meaning_of schema.now rows.now) }
{
    assert!(rt; rows.len() >= 1);
    assert!(rt; rows.len() <= 512);
    for row in rows {
        assert!(rt; schema.admits(row), "{:?}", row.values);
    }
}

/// Returns whether a program selects from a group of rows those on which the condition is TRUE.
pub(crate) fn is_right_on(
    rt: &impl Abort,
    alloc: Global,
    schema: &Schema,
    program: &Program,
    cond: &Cond,
    rows: &[Row],
) -> Result<bool, Fail>
    requires names { IsTrue (names_within (length schema.now.columns.items) cond.now) }
    requires fits { IsTrue (fits schema.now.columns.items program.now) }
{
    assert_group(rt, schema, rows);
    let planes = PlaneSegment::build(alloc, schema, rows)?;
    let (plane, _) = run_segment(program, &planes);
    for (i, row) in rows.iter().enumerate() {
        assert!(rt; row.values.len() == schema.columns.len());
        assert!(rt; i < 512);
        if lane(&plane, i) != (truth(cond, row) == Truth::Yes) {
            return Ok(false);
        }
    }
    Ok(true)
}

/// Returns a segment of 512 rows: one row `last` after equal rows `first`.
pub(crate) fn segment_of(alloc: Global, first: &Row, last: &Row) -> Result<Vec<Row>, Fail> {
    let mut rows = Vec::new(alloc);
    for _ in 0..511 {
        rows.push(first.copy(alloc)?)?;
    }
    rows.push(last.copy(alloc)?)?;
    Ok(rows)
}

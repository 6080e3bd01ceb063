//! Rows in memory, as one group of a table in both layouts.
ghost use Rattle.std.specs.Prelude.{◌≡◌, IfOk};

use bw_lanes::{Plane, count};
use bw_model::{Row, Schema, Value};
use bw_planes::Planes;
use bw_segment::{CodeLayout, PackedSegment, Segment, is_group};
use bw_slices::Slices;
use std::alloc::Global;
use std::process::Abort;
use std::test::Fail;

/// A table with a column of 8 bits, from 0 to 255, that takes no null, and one of 5 bits, from -10
/// to 10, that does.
pub(crate) const SCHEMA: &[u8] = b"TABLE t\nCOLUMN a 0 255 NOT NULL\nCOLUMN b -10 10\n";

/// Five rows of it.
pub(crate) const TABLE: [[Value; 2]; 5] = [
    [Some(0), Some(-10)],
    [Some(255), Some(10)],
    [Some(7), None],
    [Some(7), None],
    [Some(8), Some(0)],
];

/// Returns rows of these values.
pub(crate) fn rows_of(alloc: Global, table: &[[Value; 2]]) -> Result<Vec<Row>, Fail> {
    let mut rows = Vec::new(alloc);
    for [a, b] in table {
        rows.push(Row {
            values: vec![in alloc; *a, *b]?,
        })?;
    }
    Ok(rows)
}

/// Returns the segment of rows of these values.
pub(crate) fn segment_of<L: CodeLayout>(
    rt: &(impl Abort + AllocGlobal),
    schema: &Schema,
    table: &[[Value; 2]],
) -> Result<PackedSegment<L>, Fail>
    ensures { IfOk result (λ segment. (⟦<PackedSegment<L> as Segment>⟧.meaning segment).columns
        ≡ schema.now.columns.items) }
{
    let rows = rows_of(rt.alloc(), table)?;
    assert!(rt; is_group(schema, &rows));
    Ok(PackedSegment::build(rt.alloc(), schema, &rows)?)
}

/// Returns the number of rows that have a 1 at a variable; 0 if there is no such variable.
pub(crate) fn ones(segment: &impl Segment, var: u32) -> Option<u32> {
    if var < segment.schema().var_count() {
        Some(count(&segment.plane(var)))
    } else {
        None
    }
}

/// Returns how many rows, those past the last one too, have a byte less than c, and how many have
/// c.
pub(crate) fn count_below_and_at(
    segment: &impl Segment,
    col: usize,
    slice: usize,
    c: u8,
) -> Option<(u32, u32)> {
    let schema = segment.schema();
    if col < schema.columns.len() && slice < schema.slices(col) {
        let below = count(&segment.byte_lt(col, slice, c));
        Some((below, count(&segment.byte_eq(col, slice, c))))
    } else {
        None
    }
}

/// Returns what a segment says of every variable, and of every byte of its codes and every
/// constant.
fn answers<S: Segment>(alloc: Global, segment: &S) -> Result<Vec<Plane>, Fail> {
    let mut planes = Vec::new(alloc);
    let schema = segment.schema();
    for variable in 0..schema.var_count() {
        planes.push(segment.plane(variable))?;
    }
    for col in 0..schema.columns.len() {
        for slice in 0..schema.slices(col) {
            for c in 0..=255u8 {
                planes.push(segment.byte_lt(col, slice, c))?;
                planes.push(segment.byte_eq(col, slice, c))?;
            }
        }
    }
    Ok(planes)
}

#[test]
fn layouts_answer_alike(rt: HostRuntime) -> Result<(), Fail> {
    let alloc = rt.alloc();
    let schema = Schema::parse(alloc, SCHEMA)?;
    let planes = answers(alloc, &segment_of::<Planes>(&rt, &schema, &TABLE)?)?;
    let slices = answers(alloc, &segment_of::<Slices>(&rt, &schema, &TABLE)?)?;
    // 14 variables, and 256 constants for each of two bytes and two comparisons
    assert_eq!(rt; planes.len(), 14 + 1024);
    assert!(rt; planes.as_slice() == slices.as_slice());
    assert!(rt; planes.len() >= 14);
    // the top plane of a, its last one, the nulls of b and b's least bit: one bit a row, the first
    // row's least
    for (variable, word) in [(0, 0b00010), (7, 0b01110), (8, 0b01100), (13, 0b00000)] {
        assert_eq!(rt; planes[variable][0], word, "variable {variable}");
    }
    Ok(())
}

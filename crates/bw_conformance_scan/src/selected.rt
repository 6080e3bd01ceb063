//! Aggregates of selected rows, in segments of both layouts.
ghost use Rattle.std.specs.Prelude.{◌≡◌, IfOk, IsTrue, length};
ghost use Rattle.bw_lanes.specs.Lanes.{lanes_of_words};
ghost use Rattle.bw_model.specs.Total.{is_aggregate, item_within};
ghost use Rattle.bw_aggregate.specs.Selected.{IsWithin};

use crate::segments::segment_of;
use bw_aggregate::Totals;
use bw_lanes::{Plane, lane};
use bw_model::{Item, Schema, Value};
use bw_planes::Planes;
use bw_segment::{CodeLayout, Segment};
use bw_slices::Slices;
use std::process::Abort;
use std::test::Fail;

/// Ends the test if a lane past the first ones is 1.
fn assert_within(rt: &impl Abort, rows: u32, plane: &Plane)
    ensures { IsWithin rows (lanes_of_words plane.now) }
{
    for row in rows as usize..512 {
        assert!(rt; !lane(plane, row));
    }
}

/// Ends the test unless the item is an aggregate of one of the first columns.
fn assert_aggregate(rt: &impl Abort, item: &Item, columns: usize)
    ensures aggregate { IsTrue (is_aggregate item.now) }
    ensures column { IsTrue (item_within columns item.now) }
{
    match item {
        Item::Plain(_) => panic!(rt; "no aggregate"),
        Item::CountAll => {}
        Item::Count(col) | Item::Sum(col) | Item::Min(col) | Item::Max(col) => {
            assert!(rt; *col < columns);
        }
    }
}

/// A group of rows, and which of them are selected.
pub(crate) type Selected<'a> = (&'a [[Value; 2]], Plane);

/// Returns the totals of these and of the selected rows of one more group.
fn add_group<L: CodeLayout>(
    rt: &(impl Abort + AllocGlobal),
    mut totals: Totals,
    schema: &Schema,
    item: &Item,
    group: Selected,
) -> Result<Totals, Fail>
    requires { totals.selected.item ≡ item.now }
    ensures { IfOk result (λ totals. totals.selected.item ≡ item.now) }
{
    let (rows, plane) = group;
    let segment = segment_of::<L>(rt, schema, rows)?;
    let before = totals.rows();
    let rows = segment.rows_in();
    assert!(rt; before <= 1 << 20);
    assert!(rt; rows <= 512);
    assert_aggregate(rt, item, segment.schema().columns.len());
    assert_within(rt, rows, &plane);
    totals.add(&segment, &plane);
    assert_eq!(rt; totals.rows(), before + u64::from(rows));
    Ok(totals)
}

/// Returns the total over two groups of rows.
fn total<L: CodeLayout>(
    rt: &(impl Abort + AllocGlobal),
    schema: &Schema,
    item: &Item,
    [first, second]: [Selected; 2],
) -> Result<Option<i128>, Fail> {
    assert_aggregate(rt, item, schema.columns.len());
    let totals = add_group::<L>(rt, Totals::new(item), schema, item, first)?;
    Ok(add_group::<L>(rt, totals, schema, item, second)?.finish())
}

/// Ends the test unless this is the total over two groups of rows of a table, in planes and in
/// slices.
pub(crate) fn assert_total(
    rt: &(impl Abort + AllocGlobal),
    schema: &[u8],
    item: Item,
    groups: [Selected; 2],
    expected: Option<i128>,
) -> Result<(), Fail> {
    let schema = Schema::parse(rt.alloc(), schema)?;
    let planes = total::<Planes>(rt, &schema, &item, groups)?;
    assert_eq!(rt; planes, expected, "{item:?} of planes, {groups:?}");
    let slices = total::<Slices>(rt, &schema, &item, groups)?;
    assert_eq!(rt; slices, expected, "{item:?} of slices, {groups:?}");
    Ok(())
}

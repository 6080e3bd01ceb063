//! The totals of the selected rows among those that were gathered by columns.
ghost use Rattle.std.specs.Prelude.{◌≡◌, ◌≢◌, ◌+◌, ◌≤◌, List, Some, count_by, length, pos, IsTrue};
ghost use Rattle.bw_lanes.specs.Lanes.{lanes_of_words};
ghost use Rattle.bw_model.specs.Limits.{most_rows};
ghost use Rattle.bw_model.specs.Row.{Value};
ghost use Rattle.bw_model.specs.Selection.{selected_items};
ghost use Rattle.bw_model.specs.Total.{is_aggregate, total};
ghost use Rattle.bw_model.specs.declared.query.Item.TheVariants.{CountAll};
ghost use Rattle.bw_rowwise.specs.Accumulator.{IsTotalOfRows};
ghost use Rattle.bw_rowwise.specs.Columns.{HaveRows, numbers_of};
ghost use Rattle.bw_aggregate.specs.Gathered.{Reads};
ghost use Rattle.bw_aggregate.specs.Selected.{IsWithin, with_selected};

use bw_lanes::{LANES, Selection, lane};
use bw_model::Item;
use bw_rowwise::{Accumulator, Columns};

/// Adds the selected rows among those that were gathered to a total: row i is selected if lane i is
/// 1. The aggregate's column is at `place` among the columns. The selection must have `number` bits.
/// With the selected rows the total must be of at most 2^24. If no row is selected, nothing is read.
pub fn add_gathered(
    total: &mut Accumulator,
    columns: &Columns,
    place: usize,
    selection: &Selection,
    number: u32,
)
    requires place { Reads (numbers_of columns.now) total.old.item place }
    requires number { number ≡ count_by (λ lane. lane) (lanes_of_words selection.now) }
    requires capacity { total.old.count + number ≤ most_rows }
    ensures item { total.new.item ≡ total.old.item }
    ensures count { total.new.count ≡ total.old.count + number }
    ensures total { (rows : List (List Value)) → HaveRows rows columns.now
        → IsWithin (length rows) (lanes_of_words selection.now)
        → total.new ≡ with_selected total.old (selected_items (lanes_of_words selection.now) rows) }
{
    if number != 0 {
        let others = total_of(total.item(), columns, place, selection, number);
        total.add_total(number, others);
    }
}

/// Returns the total of the selected rows, `number` of them.
fn total_of(
    item: Item,
    columns: &Columns,
    place: usize,
    selection: &Selection,
    number: u32,
) -> Option<i128>
    requires place { Reads (numbers_of columns.now) item place }
    requires number { number ≡ count_by (λ lane. lane) (lanes_of_words selection.now) }
    ensures total { (rows : List (List Value)) → HaveRows rows columns.now
        → IsWithin (length rows) (lanes_of_words selection.now)
        → result ≡ total item (selected_items (lanes_of_words selection.now) rows) }
    ensures small { IsTotalOfRows number result }
{
    match item {
        Item::Plain(_) => None,
        Item::CountAll => total_of_count(number),
        _ => total_of_values(item, columns, place, selection),
    }
}

/// Returns the total of a count of rows.
fn total_of_count(number: u32) -> Option<i128>
    ensures total { result ≡ Some (pos number) }
    ensures small { IsTotalOfRows number result }
{
    Some(i128::from(number))
}

/// Returns the total of the column's values in the selected rows.
fn total_of_values(
    item: Item,
    columns: &Columns,
    place: usize,
    selection: &Selection,
) -> Option<i128>
    requires aggregate { IsTrue (is_aggregate item) }
    requires place { Reads (numbers_of columns.now) item place }
    requires values { item ≢ CountAll }
    ensures total { (rows : List (List Value)) → HaveRows rows columns.now
        → IsWithin (length rows) (lanes_of_words selection.now)
        → result ≡ total item (selected_items (lanes_of_words selection.now) rows) }
    ensures small { IsTotalOfRows (count_by (λ lane. lane) (lanes_of_words selection.now)) result }
{
    let mut total = Accumulator::new(item);
    for row in 0..LANES {
        if lane(selection, row) {
            total.add(columns.value(place, row));
        }
    }
    total.has_small_total();
    total.finish()
}

//! The totals of the selected rows of a segment.
ghost use Rattle.std.specs.Prelude.{◌≡◌, ◌+◌, ◌≤◌, ◌++◌, List, None, count_by, length, IsTrue};
ghost use Rattle.std.specs.Prelude.{true};
ghost use Rattle.bw_lanes.specs.Lanes.{lanes_of_words};
ghost use Rattle.bw_model.specs.Limits.{most_rows};
ghost use Rattle.bw_model.specs.Row.{Value};
ghost use Rattle.bw_model.specs.Total.{combine_totals, item_within, total};
ghost use Rattle.bw_rowwise.specs.Accumulator.{tally_of, IsTotalOfRows};
ghost use Rattle.bw_aggregate.specs.Selected.{IsWithin, selected_rows, with_selected};

use crate::column::{greatest, least, no_value_below, none_beyond, present, sum};
use bw_lanes::{Selection, count};
use bw_model::{Item, totals_join};
use bw_rowwise::Accumulator;
use bw_segment::{Extreme, Segment};

/// Adds the selected rows of a segment to a total: row i is selected if lane i is 1. The selection
/// must have no bit past the segment's rows, and `number` bits in all, which are counted once for
/// all totals. The segment must have the aggregate's column. With the segment's rows the total must
/// be of at most 2^24. If no row is selected, nothing is read.
pub fn add_selected<S: Segment>(
    total: &mut Accumulator,
    segment: &S,
    selection: &Selection,
    number: u32,
)
    requires column { IsTrue (item_within (length (S.meaning segment.now).columns) total.old.item) }
    requires selection { IsWithin (length (S.meaning segment.now).rows)
        (lanes_of_words selection.now) }
    requires number { number ≡ count_by (λ lane. lane) (lanes_of_words selection.now) }
    requires capacity { total.old.count + length (S.meaning segment.now).rows ≤ most_rows }
    ensures step { total.new ≡ with_selected total.old
        (selected_rows (S.meaning segment.now) (lanes_of_words selection.now)) }
    ensures item { total.new.item ≡ total.old.item }
    ensures count { total.new.count
        ≡ total.old.count + length
        (selected_rows (S.meaning segment.now) (lanes_of_words selection.now)) }
    ensures total { (rows : List (List Value)) → total.old ≡ tally_of total.old.item rows
        → total.new ≡ tally_of total.old.item
        (rows ++ selected_rows (S.meaning segment.now) (lanes_of_words selection.now)) }
{
    totals_join();
    if number != 0 {
        let others = total_of(total, segment, selection, number);
        total.add_total(number, others);
    }
}

/// Returns the total of the selected rows of a segment, `number` of them, or None if it adds
/// nothing to that of earlier rows.
fn total_of<S: Segment>(
    so_far: &Accumulator,
    segment: &S,
    selection: &Selection,
    number: u32,
) -> Option<i128>
    requires column { IsTrue (item_within (length (S.meaning segment.now).columns)
        so_far.now.item) }
    requires selection { IsWithin (length (S.meaning segment.now).rows)
        (lanes_of_words selection.now) }
    requires number { number
        ≡ length (selected_rows (S.meaning segment.now) (lanes_of_words selection.now)) }
    ensures total { combine_totals so_far.now.item so_far.now.answer result
        ≡ combine_totals so_far.now.item so_far.now.answer (total so_far.now.item
        (selected_rows (S.meaning segment.now) (lanes_of_words selection.now))) }
    ensures small { IsTotalOfRows 1 result }
{
    let item = so_far.item();
    if leaves_total(item, segment, selection, number, so_far.finish()) {
        return None;
    }
    match item {
        Item::CountAll => Some(i128::from(number)),
        item => total_by_columns(item, segment, selection, number),
    }
}

/// The most rows that are few. If the column is nullable, one of more is usually null. And one of
/// more often has the first digits of the maximum or the minimum, so more digits are compared.
const FEW: u32 = 16;

/// Returns true only if the selected rows of a segment, `number` of them, leave a total so far as
/// it is. The code of a null is 0, which is above no other, so a maximum needn't look at nulls, and
/// a minimum of few rows only if a code is below its own.
#[inline(always)]
fn leaves_total<S: Segment>(
    item: Item,
    segment: &S,
    selection: &Selection,
    number: u32,
    so_far: Option<i128>,
) -> bool
    requires column { IsTrue (item_within (length (S.meaning segment.now).columns) item) }
    requires selection { IsWithin (length (S.meaning segment.now).rows)
        (lanes_of_words selection.now) }
    ensures { result ≡ true
        → combine_totals item so_far None ≡ combine_totals item so_far
        (total item (selected_rows (S.meaning segment.now) (lanes_of_words selection.now))) }
{
    let are_few = number <= FEW;
    match item {
        Item::Min(col) => {
            let nullable = segment.schema().columns[col].nullable;
            if nullable && !are_few {
                return no_value_below(segment, col, selection, are_few, so_far);
            }
            none_beyond(segment, col, selection, are_few, so_far, Extreme::Least)
                || nullable && no_value_below(segment, col, selection, are_few, so_far)
        }
        Item::Max(col) => none_beyond(segment, col, selection, are_few, so_far, Extreme::Greatest),
        Item::Plain(_) | Item::CountAll | Item::Count(_) | Item::Sum(_) => false,
    }
}

/// Returns the total of the selected rows of a segment, `number` of them. It isn't compiled into
/// its caller, which would then clear planes for a count of rows too.
#[inline(never)]
fn total_by_columns<S: Segment>(
    item: Item,
    segment: &S,
    selection: &Selection,
    number: u32,
) -> Option<i128>
    requires column { IsTrue (item_within (length (S.meaning segment.now).columns) item) }
    requires selection { IsWithin (length (S.meaning segment.now).rows)
        (lanes_of_words selection.now) }
    requires number { number
        ≡ length (selected_rows (S.meaning segment.now) (lanes_of_words selection.now)) }
    ensures total { result ≡ total item
        (selected_rows (S.meaning segment.now) (lanes_of_words selection.now)) }
    ensures small { IsTotalOfRows 1 result }
{
    match item {
        Item::Plain(_) => None,
        Item::CountAll => Some(i128::from(number)),
        Item::Count(col) => Some(i128::from(count(&present(segment, col, selection)))),
        Item::Sum(col) => sum(segment, col, &present(segment, col, selection)),
        Item::Min(col) => least(segment, col, &present(segment, col, selection)),
        Item::Max(col) => greatest(segment, col, &present(segment, col, selection)),
    }
}

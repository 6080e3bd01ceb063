//! The selected rows of a segment, or of those that were gathered, in a result's totals.
ghost use Rattle.std.specs.Prelude.{◌≡◌, ◌+◌, ◌≤◌, IfOk, IsTrue, All, List, count_by, length};
ghost use Rattle.std.specs.Prelude.{ℕ, [], map, OnOk, IsOkUnless};
ghost use Rattle.std.specs.List.{list_all};
ghost use Rattle.bw_lanes.specs.Lanes.{lanes_of_words};
ghost use Rattle.bw_model.specs.Fault.{no_memory};
ghost use Rattle.bw_model.specs.Limits.{most_rows};
ghost use Rattle.bw_model.specs.Row.{Value};
ghost use Rattle.bw_model.specs.Selection.{selected_items};
ghost use Rattle.bw_model.specs.Total.{item_within};
ghost use Rattle.bw_rowwise.specs.Accumulator.{Tally};
ghost use Rattle.bw_rowwise.specs.Columns.{Grows, HaveRows, numbers_of};
ghost use Rattle.bw_aggregate.specs.Gathered.{Reads};
ghost use Rattle.bw_aggregate.specs.Selected.{IsWithin, selected_rows, with_selected};
ghost use Rattle.bw_answer.specs.Gathered.{AreSummed};
ghost use Rattle.bw_answer.specs.Output.{totals_in};
ghost use Rattle.bw_answer.specs.Places.{AreRead};
ghost use Rattle.bw_answer.specs.Totals.{is_of};

use crate::output::Output;
use bw_aggregate::{add_gathered, add_selected};
use bw_lanes::{Selection, count};
use bw_model::{Fault, Item};
use bw_rowwise::{Accumulator, Columns};
use bw_segment::Segment;
use std::alloc::Global;

/// Adds the selected rows of a segment to each total.
pub(crate) fn total_selected<S: Segment>(
    totals: &mut [Accumulator],
    segment: &S,
    selection: &Selection,
)
    requires columns { All (λ tally. IsTrue
        (item_within (length (S.meaning segment.now).columns) tally.item)) totals.old }
    requires capacity { All (λ tally. tally.count + length (S.meaning segment.now).rows ≤ most_rows)
        totals.old }
    requires selection { IsWithin (length (S.meaning segment.now).rows)
        (lanes_of_words selection.now) }
    ensures { totals.new ≡ map (λ tally. with_selected tally
        (selected_rows (S.meaning segment.now) (lanes_of_words selection.now))) totals.old }
{
    let number = count(selection);
    for total in totals.iter_mut() {
        add_selected(total, segment, selection, number);
    }
}

/// The columns of the totals of a result, gathered over some rows, and the place of each total's
/// column.
#[derive(Drop)]
pub(crate) struct Summed {
    pub(crate) columns: Columns,
    pub(crate) places: Vec<usize>,
}

impl Summed {
    /// Returns the columns of totals, without a row. Errors: 801 if memory is refused.
    pub(crate) fn new(alloc: Global, output: &Output) -> Result<Self, Fault>
        ensures places { IfOk result (λ summed. AreSummed summed (totals_in output.now)) }
        ensures rows { IfOk result (λ summed. HaveRows [] summed.columns) }
        ensures only_oom { IsOkUnless result no_memory }
    {
        let mut columns = Columns::new(alloc);
        let places = match output {
            Output::Listing(_) => Vec::new(alloc),
            Output::Totals(totals) => places_of(alloc, totals, &mut columns)?,
        };
        columns.clear();
        Ok(Summed { columns, places })
    }
}

/// Returns the place of each total's column among columns, where those that aren't there are added.
pub(crate) fn places_of(
    alloc: Global,
    totals: &[Accumulator],
    columns: &mut Columns,
) -> Result<Vec<usize>, Fault>
    ensures places { IfOk result (λ places. AreRead (numbers_of columns.new)
        (map (λ (tally : Tally). tally.item) totals.now) places.items) }
    ensures only_oom { IsOkUnless result no_memory }
{
    let mut places = Vec::new(alloc);
    for total in totals {
        places.push(place_of(total.item(), columns)?)?;
    }
    Ok(places)
}

/// Returns the place of an aggregate's column among columns, where it is added if it isn't there; 0
/// for a count of rows.
fn place_of(item: Item, columns: &mut Columns) -> Result<usize, Fault>
    ensures place { IfOk result (Reads (numbers_of columns.new) item) }
    ensures grown { OnOk result (Grows (numbers_of columns.old) (numbers_of columns.new)) }
    ensures only_oom { IsOkUnless result no_memory }
{
    match item {
        Item::CountAll => Ok(0),
        Item::Plain(column)
        | Item::Count(column)
        | Item::Sum(column)
        | Item::Min(column)
        | Item::Max(column) => columns.place_of(column),
    }
}

/// Adds the selected rows among those that were gathered to each total, whose column is at its place
/// among the columns.
pub(crate) fn total_gathered(totals: &mut [Accumulator], summed: &Summed, selection: &Selection)
    requires places { AreSummed summed.now totals.old }
    requires capacity { All (λ tally. tally.count
        + count_by (λ lane. lane) (lanes_of_words selection.now) ≤ most_rows) totals.old }
    ensures items { map (λ (tally : Tally). tally.item) totals.new
        ≡ map (λ (tally : Tally). tally.item) totals.old }
    ensures counts { (width rows : ℕ) → IsTrue (list_all (is_of width rows) totals.old)
        → IsTrue (list_all (is_of width
        (rows + count_by (λ lane. lane) (lanes_of_words selection.now))) totals.new) }
    ensures totals { (rows : List (List Value)) → HaveRows rows summed.now.columns
        → IsWithin (length rows) (lanes_of_words selection.now)
        → totals.new ≡ map (λ tally. with_selected tally
        (selected_items (lanes_of_words selection.now) rows)) totals.old }
{
    let number = count(selection);
    for place in 0..totals.len() {
        add_gathered(
            &mut totals[place],
            &summed.columns,
            summed.places[place],
            selection,
            number,
        );
    }
}

//! What a query makes of the rows that match it: records, or totals.
ghost use Rattle.std.specs.Prelude.{◌≡◌, ◌-◌, ◌<◌, ◌≤◌, ◌+◌, ◌++◌, ◌∷◌, [], ℕ, List, All, IfErr, IfOk};
ghost use Rattle.std.specs.Prelude.{IsTrue, OnOk, false, length, map, replicate, IsOkUnless};
ghost use Rattle.std.specs.List.{list_all};
ghost use Rattle.bw_lanes.specs.Lanes.{lanes_of_words};
ghost use Rattle.bw_model.specs.Fault.{no_memory};
ghost use Rattle.bw_model.specs.Groups.{group_size};
ghost use Rattle.bw_model.specs.Limits.{most_rows};
ghost use Rattle.bw_model.specs.Row.{Value, values_of};
ghost use Rattle.bw_model.specs.Selection.{selection as selected_by};
ghost use Rattle.bw_model.specs.Total.{item_within};
ghost use Rattle.bw_model.specs.declared.query.Item.{Item};
ghost use Rattle.bw_rowwise.specs.Accumulator.{Tally, count_rows, tally_of};
ghost use Rattle.bw_aggregate.specs.Selected.{IsWithin};
ghost use Rattle.bw_sql.specs.Items.{AreOfOneKind};
ghost use Rattle.bw_answer.specs.Aggregates.{aggregates_of};
ghost use Rattle.bw_answer.specs.Answer.{csv_text, lists_rows, meaning};
ghost use Rattle.bw_answer.specs.Gathered.{AreGathered, AreSummed};
ghost use Rattle.bw_answer.specs.TextAndTotals.{AreOver};
ghost use Rattle.bw_answer.specs.Totals.{is_of};

use crate::listing::Listing;
use crate::selected::{Summed, total_gathered, total_selected};
use crate::totals::{add_count, totals_of, with_totals};
use bw_lanes::Selection;
use bw_model::{Fault, Item, Query, Row, totals_join};
use bw_rowwise::Accumulator;
use bw_segment::Segment;
use std::alloc::Global;

/// What a query makes of the rows that match it.
#[derive(Drop)]
pub(crate) enum Output {
    /// Records of columns, one a row.
    Listing(Listing),
    /// The total of each aggregate, each once.
    Totals(Vec<Accumulator>),
}

impl Output {
    ghost use Rattle.bw_answer.specs.Output.{HaveListed, IsOutputOf, totals_in};

    /// Returns what a query of these items makes of no rows. They must be all columns or all
    /// aggregates. Errors: 801 if memory is refused.
    pub(crate) fn new(alloc: Global, items: &[Item]) -> Result<Self, Fault>
        requires { AreOfOneKind items.now }
        ensures of_items { IfOk result (λ output. IsOutputOf output items.now) }
        ensures totals { IfOk result (λ output. lists_rows items.now ≡ false → totals_in output
            ≡ map (λ item. tally_of item []) (aggregates_of items.now)) }
        ensures counts { IfOk result (λ output. (width : ℕ)
            → IsTrue (list_all (item_within width) items.now)
            → IsTrue (list_all (is_of width 0) (totals_in output))) }
        ensures only_oom { IsOkUnless result no_memory }
    {
        if lists_rows(items) {
            Ok(Output::Listing(Listing::new(alloc, items)?))
        } else {
            Ok(Output::Totals(totals_of(alloc, items)?))
        }
    }

    /// Reserves memory after a text for the records of `rows` rows, if rows are listed.
    pub(crate) fn reserve(&self, text: &mut Vec<u8>, rows: u32) -> Result<(), Fault>
        ensures text { text.new.items ≡ text.old.items }
        ensures only_oom { IsOkUnless result no_memory }
    {
        match self {
            Output::Listing(listing) => listing.reserve(text, rows),
            Output::Totals(_) => Ok(()),
        }
    }

    /// Adds `count` rows, whatever their values, to each total, as to a count of rows.
    pub(crate) fn add_count(&mut self, count: u32)
        requires { All (λ tally. tally.count + count ≤ most_rows) (totals_in self.old) }
        ensures totals { totals_in self.new
            ≡ map (λ tally. count_rows tally count) (totals_in self.old) }
        ensures of_items { (items : List Item) → IsOutputOf self.old items
            → IsOutputOf self.new items }
    {
        match self {
            Output::Listing(_) => {}
            Output::Totals(totals) => add_count(totals, count),
        }
    }

    /// Adds the matching rows of a segment, which the selection selects, to the text or to the
    /// totals.
    pub(crate) fn put_selected<S: Segment>(
        &mut self,
        text: &mut Vec<u8>,
        query: &Query,
        segment: &S,
        selection: &Selection,
    ) -> Result<(), Fault>
        requires picks { lanes_of_words selection.now
            ≡ selected_by query.now.cond (S.meaning segment.now).rows
            ++ replicate (group_size - length (S.meaning segment.now).rows) false }
        requires items { IsTrue (list_all (item_within (length (S.meaning segment.now).columns))
            query.now.items.items) }
        requires of_items { IsOutputOf self.old query.now.items.items }
        requires columns { All (λ tally. IsTrue
            (item_within (length (S.meaning segment.now).columns) tally.item))
            (totals_in self.old) }
        requires capacity { All
            (λ tally. tally.count + length (S.meaning segment.now).rows ≤ most_rows)
            (totals_in self.old) }
        ensures covers { OnOk result ((names : List (List ℕ)) → (rows : List (List Value))
            → AreOver names query.now rows text.old.items (totals_in self.old)
            → AreOver names query.now (rows ++ (S.meaning segment.now).rows) text.new.items
            (totals_in self.new)) }
        ensures counts { OnOk result ((width rows : ℕ)
            → IsTrue (list_all (is_of width rows) (totals_in self.old))
            → IsTrue (list_all (is_of width (rows + length (S.meaning segment.now).rows))
            (totals_in self.new))) }
        ensures left { IfErr result (λ _. totals_in self.new ≡ totals_in self.old) }
        ensures of_items { IsOutputOf self.new query.now.items.items }
        ensures only_oom { IsOkUnless result no_memory }
    {
        totals_join();
        match self {
            Output::Listing(listing) => listing.push_selected(text, segment, selection),
            Output::Totals(totals) => {
                total_selected(totals, segment, selection);
                Ok(())
            }
        }
    }

    /// Removes the rows that were gathered.
    pub(crate) fn clear(&mut self)
        ensures rows { HaveListed [] self.new }
        ensures totals { totals_in self.new ≡ totals_in self.old }
        ensures of_items { (items : List Item) → IsOutputOf self.old items
            → IsOutputOf self.new items }
    {
        match self {
            Output::Listing(listing) => listing.clear(),
            Output::Totals(_) => {}
        }
    }

    /// Gathers a row, after the `lane` rows that were gathered.
    pub(crate) fn put_row(&mut self, lane: usize, row: &Row)
        requires { lane < 512 }
        ensures rows { (rows : List (List Value)) → length rows ≡ lane → HaveListed rows self.old
            → HaveListed (rows ++ values_of row.now ∷ []) self.new }
        ensures totals { totals_in self.new ≡ totals_in self.old }
        ensures of_items { (items : List Item) → IsOutputOf self.old items
            → IsOutputOf self.new items }
    {
        match self {
            Output::Listing(listing) => listing.put_row(lane, row),
            Output::Totals(_) => {}
        }
    }

    /// Adds the matching rows among those that were gathered, `count` of them, which the selection
    /// selects, to the text or to the totals.
    pub(crate) fn put_gathered(
        &mut self,
        text: &mut Vec<u8>,
        query: &Query,
        selection: &Selection,
        summed: &Summed,
        count: u32,
    ) -> Result<(), Fault>
        requires within { IsWithin count (lanes_of_words selection.now) }
        requires of_items { IsOutputOf self.old query.now.items.items }
        requires places { AreSummed summed.now (totals_in self.old) }
        requires capacity { All (λ tally. tally.count + count ≤ most_rows) (totals_in self.old) }
        ensures covers { OnOk result ((names : List (List ℕ)) (rows more : List (List Value))
            → AreGathered more count query.now.cond (lanes_of_words selection.now) self.old
            summed.now.columns → AreOver names query.now rows text.old.items (totals_in self.old)
            → AreOver names query.now (rows ++ more) text.new.items (totals_in self.new)) }
        ensures counts { OnOk result ((width rows : ℕ)
            → IsTrue (list_all (is_of width rows) (totals_in self.old))
            → IsTrue (list_all (is_of width (rows + count)) (totals_in self.new))) }
        ensures items { OnOk result (map (λ (tally : Tally). tally.item) (totals_in self.new)
            ≡ map (λ (tally : Tally). tally.item) (totals_in self.old)) }
        ensures left { IfErr result (λ _. totals_in self.new ≡ totals_in self.old) }
        ensures of_items { IsOutputOf self.new query.now.items.items }
        ensures only_oom { IsOkUnless result no_memory }
    {
        totals_join();
        match self {
            Output::Listing(listing) => listing.push_gathered(text, selection),
            Output::Totals(totals) => {
                total_gathered(totals, summed, selection);
                Ok(())
            }
        }
    }

    /// Returns the text, with the record of the totals if rows are totalled. Errors: 801 if memory
    /// is refused.
    pub(crate) fn into_text(self, text: Vec<u8>, query: &Query) -> Result<Vec<u8>, Fault>
        requires nonempty { 1 ≤ length query.now.items.items }
        requires of_items { IsOutputOf self query.now.items.items }
        ensures text { IfOk result (λ whole. (names : List (List ℕ)) (rows : List (List Value))
            → AreOver names query.now rows text.items (totals_in self)
            → whole.items ≡ csv_text (meaning names query.now rows)) }
        ensures only_oom { IsOkUnless result no_memory }
    {
        match self {
            Output::Listing(_) => Ok(text),
            Output::Totals(totals) => with_totals(text, &totals, &query.items),
        }
    }
}

/// Returns whether the items list rows: the first is a column. Else they are aggregates.
fn lists_rows(items: &[Item]) -> bool
    ensures { result ≡ lists_rows items.now }
{
    match items {
        [Item::Plain(_), ..] => true,
        _ => false,
    }
}

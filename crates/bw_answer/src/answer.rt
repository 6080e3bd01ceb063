//! The result of a query over the rows of segments, as CSV text.
ghost use Rattle.std.specs.Prelude.{◌≡◌, ◌==◌, ◌<◌, ◌≤◌, ◌+◌, ◌-◌, ◌++◌, ◌∷◌, List, [], ℕ};
ghost use Rattle.std.specs.Prelude.{false, All, IsTrue, IfOk, IfErr, OnOk, length, replicate};
ghost use Rattle.std.specs.Prelude.{map, vec_len, IsOkUnless};
ghost use Rattle.std.specs.List.{list_all};
ghost use Rattle.bw_model.specs.Column.{admits_values, names_of};
ghost use Rattle.bw_model.specs.Fault.{no_memory};
ghost use Rattle.bw_lanes.specs.Lanes.{lanes_of_words};
ghost use Rattle.bw_model.specs.Groups.{group_size};
ghost use Rattle.bw_model.specs.Limits.{most_rows};
ghost use Rattle.bw_model.specs.Row.{Value, values_of};
ghost use Rattle.bw_model.specs.Selection.{matching_rows, selection as selected_by};
ghost use Rattle.bw_model.specs.Total.{item_within};
ghost use Rattle.bw_rowwise.specs.Accumulator.{Tally};
ghost use Rattle.bw_rowwise.specs.Columns.{HaveRows};
ghost use Rattle.bw_rowwise.specs.Filter.{IsPreparedFrom};
ghost use Rattle.bw_sql.specs.Items.{AreOfOneKind};
ghost use Rattle.bw_answer.specs.Answer.{csv_text, is_count_all, meaning};
ghost use Rattle.bw_answer.specs.Gathered.{AreGathered, AreSummed};
ghost use Rattle.bw_answer.specs.Output.{HaveListed, IsOutputOf, output_is_prop, totals_in};
ghost use Rattle.bw_aggregate.specs.Selected.{IsWithin};
ghost use Rattle.bw_answer.specs.Totals.{is_of};

use crate::heading::heading_text;
use crate::output::Output;
use crate::selected::Summed;
use bw_lanes::Selection;
use bw_model::{Fault, Item, Query, Row, Schema, admitted_rows_have_each_value};
use bw_rowwise::{Filter, matches_all};
use bw_segment::Segment;
use std::alloc::Global;

/// Consumes the rows of a table, one segment after another, and makes the text of a query's result: the
/// heading, and then a record for each matching row, or one record of totals over them.
#[derive(Drop)]
pub struct Answer<'a> {
    width: usize,
    rows: u32,
    query: &'a Query,
    /// The query's condition, prepared for many rows.
    filter: Filter,
    /// The heading, and then the records of the matching rows, if the query lists them.
    text: Vec<u8>,
    /// What becomes of the matching rows.
    pub(crate) output: Output,
    /// Whether the query only counts the matching rows.
    only_counts: bool,
    ghost prepared: { IsPreparedFrom query.now.cond filter },
    ghost items: { IsTrue (list_all (item_within width) query.now.items.items) },
    ghost nonempty: { 1 ≤ length query.now.items.items },
    ghost of_items: { IsOutputOf output query.now.items.items } by { output_is_prop output query.now.items.items },
    ghost capacity: { IsTrue (list_all (is_of width rows) (totals_in output)) },
    ghost alone: { only_counts ≡ list_all is_count_all query.now.items.items },
}

impl<'a> Answer<'a> {
    ghost use Rattle.bw_answer.specs.Progress.{IsOver, GoesOver, query_in};
    ghost use Rattle.bw_answer.specs.declared.answer.Answer.{Answer};

    /// Returns the result over no rows. The query must have an item, its items must be all columns
    /// or all aggregates, and the schema must have each column among them. Errors: 801 if memory is
    /// refused.
    pub fn new(alloc: Global, schema: &Schema, query: &'a Query) -> Result<Self, Fault>
        requires items { IsTrue (list_all (item_within (vec_len schema.now.columns))
            query.now.items.items) }
        requires nonempty { 1 ≤ length query.now.items.items }
        requires kinds { AreOfOneKind query.now.items.items }
        ensures covers { IfOk result
            (λ answer. IsOver (names_of schema.now.columns.items) query.now [] answer) }
        ensures starts { IfOk result (λ answer. GoesOver answer [] answer) }
        ensures takes { IfOk result (λ answer. (row : List Value)
            → IsTrue (admits_values schema.now.columns.items row)
            → IsTrue (length row == answer.width)) }
        ensures width { IfOk result (λ answer. answer.width ≡ vec_len schema.now.columns) }
        ensures rows { IfOk result (λ answer. answer.rows ≡ 0) }
        ensures only_oom { IsOkUnless result no_memory }
    {
        admitted_rows_have_each_value();
        let width = schema.columns.len();
        Ok(Answer {
            width,
            rows: 0,
            query,
            filter: Filter::new(alloc, &query.cond)?,
            text: heading_text(alloc, &schema.columns, &query.items)?,
            output: Output::new(alloc, &query.items)?,
            only_counts: count_all_alone(&query.items),
        })
    }

    /// Returns the query.
    pub fn query(&self) -> &Query
        ensures { result.now ≡ query_in self.now }
    {
        self.query
    }

    /// Reserves memory for the result over `count` rows, if the query lists each row. So a result
    /// that is too long for memory fails before the first row. Errors: 801 if memory is refused.
    pub fn reserve(&mut self, count: u32) -> Result<(), Fault>
        ensures covers { (names : List (List ℕ)) (query : Query) (rows : List (List Value))
            → IsOver names query rows self.old → IsOver names query rows self.new }
        ensures width { self.new.width ≡ self.old.width }
        ensures rows { self.new.rows ≡ self.old.rows }
        ensures only_oom { IsOkUnless result no_memory }
    {
        if matches_all(&self.query.cond) {
            self.output.reserve(&mut self.text, count)?;
        }
        Ok(())
    }

    /// Returns whether the query only counts the matching rows. No value need be read then, if their
    /// number is known.
    pub fn only_counts(&self) -> bool
        ensures { result ≡ list_all is_count_all (query_in self.now).items.items }
    {
        self.only_counts
    }

    /// Consumes `count` rows, of which `matches` match, whatever their values. The query must only
    /// count rows, and have space for them.
    pub fn take_matches(&mut self, count: u32, matches: u32)
        requires alone { IsTrue (list_all is_count_all (query_in self.old).items.items) }
        requires matches { matches ≤ count }
        requires capacity { self.old.rows + count ≤ most_rows }
        ensures covers { (start : Answer) (before rows : List (List Value)) → length rows ≡ count
            → length (matching_rows (query_in self.old).cond rows) ≡ matches
            → GoesOver start before self.old → GoesOver start (before ++ rows) self.new }
        ensures asked { query_in self.new ≡ query_in self.old }
        ensures width { self.new.width ≡ self.old.width }
        ensures rows { self.new.rows ≡ self.old.rows + count }
    {
        self.output.add_count(matches);
        self.rows += count;
    }

    /// Consumes the rows of a segment; `selection` selects those that match the query. Only the
    /// columns that the query names are fetched. The segment must be of the query's table, and
    /// there must be space for its rows. Errors: 801 if memory is refused.
    pub fn take_selected<S: Segment>(
        &mut self,
        segment: &S,
        selection: &Selection,
    ) -> Result<(), Fault>
        requires picks { lanes_of_words selection.now
            ≡ selected_by (query_in self.old).cond (S.meaning segment.now).rows
            ++ replicate (group_size - length (S.meaning segment.now).rows) false }
        requires same_width { length (S.meaning segment.now).columns ≡ self.old.width }
        requires capacity { self.old.rows + length (S.meaning segment.now).rows ≤ most_rows }
        ensures covers { OnOk result ((start : Answer) (before : List (List Value))
            → GoesOver start before self.old
            → GoesOver start (before ++ (S.meaning segment.now).rows) self.new) }
        ensures asked { OnOk result (query_in self.new ≡ query_in self.old) }
        ensures width { OnOk result (self.new.width ≡ self.old.width) }
        ensures rows { OnOk result (self.new.rows
            ≡ self.old.rows + length (S.meaning segment.now).rows) }
        ensures only_oom { IsOkUnless result no_memory }
    {
        self.output
            .put_selected(&mut self.text, self.query, segment, selection)?;
        self.rows += segment.rows_in();
        Ok(())
    }

    /// Consumes the rows of a segment, and tests the condition on each. Only the columns that the
    /// query names are fetched. The segment must be of the query's table, and there must be space
    /// for its rows. Errors: 801 if memory is refused.
    pub fn take_segment<S: Segment>(&mut self, segment: &S) -> Result<(), Fault>
        requires same_width { length (S.meaning segment.now).columns ≡ self.old.width }
        requires capacity { self.old.rows + length (S.meaning segment.now).rows ≤ most_rows }
        ensures covers { OnOk result ((start : Answer) (before : List (List Value))
            → GoesOver start before self.old
            → GoesOver start (before ++ (S.meaning segment.now).rows) self.new) }
        ensures asked { OnOk result (query_in self.new ≡ query_in self.old) }
        ensures width { OnOk result (self.new.width ≡ self.old.width) }
        ensures rows { OnOk result (self.new.rows
            ≡ self.old.rows + length (S.meaning segment.now).rows) }
        ensures only_oom { IsOkUnless result no_memory }
    {
        let kept = self.filter.matching_lanes(segment);
        self.take_selected(segment, &kept)
    }

    /// Removes the rows that were gathered.
    pub(crate) fn clear_rows(&mut self)
        ensures named { HaveRows [] self.new.filter.columns }
        ensures listed { HaveListed [] self.new.output }
        ensures covers { (names : List (List ℕ)) (query : Query) (rows : List (List Value))
            → IsOver names query rows self.old → IsOver names query rows self.new }
        ensures asked { query_in self.new ≡ query_in self.old }
        ensures width { self.new.width ≡ self.old.width }
        ensures rows { self.new.rows ≡ self.old.rows }
        ensures totals { totals_in self.new.output ≡ totals_in self.old.output }
    {
        self.filter.clear();
        self.output.clear();
    }

    /// Gathers a row, after the `lane` rows that were gathered.
    pub(crate) fn put_row(&mut self, lane: usize, row: &Row)
        requires { lane < 512 }
        ensures named { (rows : List (List Value)) → length rows ≡ lane
            → HaveRows rows self.old.filter.columns
            → HaveRows (rows ++ values_of row.now ∷ []) self.new.filter.columns }
        ensures listed { (rows : List (List Value)) → length rows ≡ lane
            → HaveListed rows self.old.output
            → HaveListed (rows ++ values_of row.now ∷ []) self.new.output }
        ensures covers { (names : List (List ℕ)) (query : Query) (rows : List (List Value))
            → IsOver names query rows self.old → IsOver names query rows self.new }
        ensures asked { query_in self.new ≡ query_in self.old }
        ensures width { self.new.width ≡ self.old.width }
        ensures rows { self.new.rows ≡ self.old.rows }
        ensures totals { totals_in self.new.output ≡ totals_in self.old.output }
    {
        self.filter.put_row(lane, row);
        self.output.put_row(lane, row);
    }

    /// Returns the rows among those that were gathered, `count` of them, that match the query.
    pub(crate) fn matching_rows(&self, count: u32) -> Selection
        requires { count ≤ 512 }
        ensures rows { (rows : List (List Value)) → HaveRows rows self.now.filter.columns
            → length rows ≡ count → lanes_of_words result ≡ selected_by (query_in self.now).cond rows
            ++ replicate (group_size - length rows) false }
        ensures within { IsWithin count (lanes_of_words result) }
    {
        self.filter.matching_rows(count)
    }

    /// Consumes rows that were gathered by columns, `count` of them; `selection` selects those that
    /// match the query. There must be space for the rows. Errors: 801 if memory is refused.
    pub(crate) fn take_gathered(
        &mut self,
        count: u32,
        selection: &Selection,
        summed: &Summed,
    ) -> Result<(), Fault>
        requires within { IsWithin count (lanes_of_words selection.now) }
        requires places { AreSummed summed.now (totals_in self.old.output) }
        requires capacity { self.old.rows + count ≤ most_rows }
        ensures covers { OnOk result ((start : Answer) (before rows : List (List Value))
            → AreGathered rows count (query_in self.old).cond (lanes_of_words selection.now)
            self.old.output summed.now.columns
            → GoesOver start before self.old → GoesOver start (before ++ rows) self.new) }
        ensures asked { OnOk result (query_in self.new ≡ query_in self.old) }
        ensures width { OnOk result (self.new.width ≡ self.old.width) }
        ensures rows { OnOk result (self.new.rows ≡ self.old.rows + count) }
        ensures items { OnOk result (map (λ (tally : Tally). tally.item) (totals_in self.new.output)
            ≡ map (λ (tally : Tally). tally.item) (totals_in self.old.output)) }
        ensures refused { IfErr result (λ _. (self.new.rows ≡ self.old.rows)
            × (totals_in self.new.output ≡ totals_in self.old.output)) }
        ensures only_oom { IsOkUnless result no_memory }
    {
        self.output
            .put_gathered(&mut self.text, self.query, selection, summed, count)?;
        self.rows += count;
        Ok(())
    }

    /// Returns the text of the result over the rows that were consumed. Errors: 801 if memory is
    /// refused.
    pub fn into_text(self) -> Result<Vec<u8>, Fault>
        ensures text { IfOk result (λ text. (names : List (List ℕ)) → (query : Query)
            → (rows : List (List Value))
            → IsOver names query rows self.entry
            → text.items ≡ csv_text (meaning names query rows)) }
        ensures only_oom { IsOkUnless result no_memory }
    {
        let Answer {
            width: _,
            rows: _,
            query,
            filter: _,
            text,
            output,
            only_counts: _,
        } = self;
        output.into_text(text, query)
    }
}

/// Returns whether the items only count rows.
fn count_all_alone(items: &[Item]) -> bool
    ensures { result ≡ list_all is_count_all items.now }
{
    items.iter().all(|item| is_count_all(*item))
}

/// Returns whether an item is the number of rows.
fn is_count_all(item: Item) -> bool
    ensures { result ≡ is_count_all item }
{
    matches!(item, Item::CountAll)
}

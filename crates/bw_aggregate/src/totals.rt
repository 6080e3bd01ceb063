//! The total of an aggregate over the selected rows of segments, one segment after another.
ghost use Rattle.std.specs.Prelude.{◌≡◌, ◌+◌, ◌≤◌, List, [], ◌++◌, length, IsTrue};
ghost use Rattle.bw_lanes.specs.Lanes.{lanes_of_words};
ghost use Rattle.bw_model.specs.Limits.{most_rows};
ghost use Rattle.bw_model.specs.Row.{Value};
ghost use Rattle.bw_model.specs.Total.{is_aggregate, item_within};
ghost use Rattle.bw_rowwise.specs.Accumulator.{tally_of};
ghost use Rattle.bw_aggregate.specs.Selected.{IsWithin, selected_rows};

use crate::selected::add_selected;
use bw_lanes::{Selection, count};
use bw_model::Item;
use bw_rowwise::Accumulator;
use bw_segment::Segment;
use std::marker::Model;

/// The total of an aggregate over the selected rows of the segments so far, which have at most 2^24
/// rows together.
#[derive(Clone, Copy)]
pub struct Totals {
    selected: Accumulator,
    rows: u32,
}

impl Model for Totals {
    ghost use Rattle.std.specs.Prelude.{◌≤◌};
    ghost use Rattle.bw_model.specs.Limits.{most_rows};
    ghost use Rattle.bw_aggregate.specs.Totals.{TotalsSoFar};

    ghost Value = { TotalsSoFar };

    ghost view = { λ t. record { selected = t.selected; rows = t.rows } };

    ghost invariant = { λ t. (t.rows ≤ most_rows) × (t.selected.count ≤ t.rows) };

    ghost inverse = { λ t. record { selected = t.selected; rows = t.rows } };
}

impl Totals {
    /// Returns the total of an aggregate over no rows.
    pub fn new(item: &Item) -> Self
        requires { IsTrue (is_aggregate item.now) }
        ensures selected { result.selected ≡ tally_of item.now [] }
        ensures rows { result.rows ≡ 0 }
    {
        Totals {
            selected: Accumulator::new(*item),
            rows: 0,
        }
    }

    /// Adds the selected rows of a segment: row i is selected if lane i is 1. The selection must
    /// have no bit past the segment's rows, and the segment must have the aggregate's column. With
    /// this segment there must be at most 2^24 rows.
    #[tactic(auto, using(crate::proofs::SelectedLemmas::few_selected))]
    pub fn add<S: Segment>(&mut self, segment: &S, selection: &Selection)
        requires column { IsTrue
            (item_within (length (S.meaning segment.now).columns) self.old.selected.item) }
        requires selection { IsWithin (length (S.meaning segment.now).rows)
            (lanes_of_words selection.now) }
        requires capacity { self.old.rows + length (S.meaning segment.now).rows ≤ most_rows }
        ensures item { self.new.selected.item ≡ self.old.selected.item }
        ensures rows { self.new.rows ≡ self.old.rows + length (S.meaning segment.now).rows }
        ensures total { (rows : List (List Value)) → self.old.selected
            ≡ tally_of self.old.selected.item rows
            → self.new.selected ≡ tally_of self.old.selected.item
            (rows ++ selected_rows (S.meaning segment.now) (lanes_of_words selection.now)) }
    {
        let mut selected = self.selected;
        add_selected(&mut selected, segment, selection, count(selection));
        *self = Totals {
            selected,
            rows: self.rows + segment.rows_in(),
        };
    }

    /// Returns how many rows the segments so far have, selected or not.
    pub fn rows(&self) -> u64
        ensures { result ≡ self.now.rows }
    {
        u64::from(self.rows)
    }

    /// Returns the total of the selected rows so far: null if there are no values, but for COUNT,
    /// which is 0.
    pub fn finish(&self) -> Option<i128>
        ensures { result ≡ self.now.selected.answer }
    {
        self.selected.finish()
    }
}

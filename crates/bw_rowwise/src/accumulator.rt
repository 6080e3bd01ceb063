//! The total of values that come one at a time, or of a list of rows.
ghost use Rattle.std.specs.Prelude.{◌≡◌, ◌+◌, ◌<◌, ◌≤◌, List, [], ◌∷◌, ◌++◌, length, map, All};
ghost use Rattle.std.specs.Prelude.{IsTrue};
ghost use Rattle.bw_model.specs.Limits.{most_rows};
ghost use Rattle.bw_model.specs.declared.query.Item.TheVariants.{CountAll};
ghost use Rattle.bw_model.specs.Row.{Value, values_of};
ghost use Rattle.bw_model.specs.Total.{total, is_aggregate, item_within};
ghost use Rattle.bw_rowwise.specs.Accumulator.{tally_of, tally_with, tally_joined, count_rows};
ghost use Rattle.bw_rowwise.specs.Accumulator.{value_for, IsTotalOfRows};

use crate::total::{answer_with, combine_totals, value_for};
use bw_model::{Item, Row, Value, totals_join};
use std::marker::Model;

/// The total of an aggregate over the rows that were added so far, which are at most 2^24.
#[derive(Clone, Copy)]
pub struct Accumulator {
    item: Item,
    rows: u32,
    total: Option<i128>,
}

impl Model for Accumulator {
    ghost use Rattle.std.specs.Prelude.{◌≤◌};
    ghost use Rattle.bw_model.specs.Limits.{most_rows};
    ghost use Rattle.bw_rowwise.specs.Accumulator.{Tally, IsTotalOfRows};

    ghost Value = { Tally };

    ghost view = { λ a. record { item = a.item; count = a.rows; answer = a.total } };

    ghost invariant = { λ a. (a.rows ≤ most_rows) × IsTotalOfRows a.rows a.total };

    ghost inverse = { λ t. record { item = t.item; rows = t.count; total = t.answer } };
}

impl Accumulator {
    /// Returns the total of an aggregate over no rows.
    pub fn new(item: Item) -> Self
        requires { IsTrue (is_aggregate item) }
        ensures { result ≡ tally_of item [] }
    {
        let total = match item {
            Item::CountAll | Item::Count(_) => Some(0),
            Item::Plain(_) | Item::Sum(_) | Item::Min(_) | Item::Max(_) => None,
        };
        Accumulator {
            item,
            rows: 0,
            total,
        }
    }

    /// Returns the aggregate.
    pub fn item(&self) -> Item
        ensures { result ≡ self.now.item }
    {
        self.item
    }

    /// Adds a row that has this value in the aggregate's column; a count of rows needs no value.
    pub fn add(&mut self, value: Value)
        requires { self.old.count < most_rows }
        ensures step { self.new ≡ tally_with self.old value }
        ensures total { (rows : List (List Value)) (row : List Value)
            → value ≡ value_for self.old.item row → self.old ≡ tally_of self.old.item rows
            → self.new ≡ tally_of self.old.item (rows ++ row ∷ []) }
    {
        self.total = answer_with(self.item, self.total, value);
        self.rows += 1;
    }

    /// Adds `count` rows, whatever their values, to a count of rows. Makes any other total such a
    /// count.
    pub fn add_count(&mut self, count: u32)
        requires { self.old.count + count ≤ most_rows }
        ensures total { (rows more : List (List Value)) → length more ≡ count
            → self.old ≡ tally_of CountAll rows → self.new ≡ tally_of CountAll (rows ++ more) }
        ensures step { self.new ≡ count_rows self.old count }
    {
        self.rows += count;
        self.total = Some(i128::from(self.rows));
    }

    /// Adds `count` rows, whose total is known. There must be at most 2^24 rows in all, and the
    /// total must be no larger than 2^73 for each row.
    #[tactic(auto, using(crate::proofs::TotalLemmas::small_below))]
    pub fn add_total(&mut self, count: u32, others: Option<i128>)
        requires capacity { self.old.count + count ≤ most_rows }
        requires small { IsTotalOfRows count others }
        ensures step { self.new ≡ tally_joined self.old count others }
        ensures total { (rows more : List (List Value)) → length more ≡ count
            → others ≡ total self.old.item more
            → self.old ≡ tally_of self.old.item rows
            → self.new ≡ tally_of self.old.item (rows ++ more) }
    {
        totals_join();
        self.total = combine_totals(self.item, self.total, others);
        self.rows += count;
    }

    /// A law: the total is no larger than its rows can make it.
    pub fn has_small_total(&self)
        ensures { IsTotalOfRows self.now.count self.now.answer }
    {
        let _rows = self.rows;
    }

    /// Returns the total of the rows so far.
    pub fn finish(&self) -> Option<i128>
        ensures { result ≡ self.now.answer }
    {
        self.total
    }
}

/// Returns the total of a list of rows, each of which must have the aggregate's column.
pub fn aggregate(item: &Item, rows: &[Row]) -> Option<i128>
    requires aggregate { IsTrue (is_aggregate item.now) }
    requires columns { All (λ row. IsTrue (item_within (length (values_of row)) item.now))
        rows.now }
    requires count { length rows.now ≤ most_rows }
    ensures { result ≡ total item.now (map values_of rows.now) }
{
    let mut accumulator = Accumulator::new(*item);
    for row in rows {
        accumulator.add(value_for(*item, row));
    }
    accumulator.finish()
}

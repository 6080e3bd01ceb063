//! A condition that filters rows: those of segments, or 512 that were gathered.
ghost use Rattle.std.specs.Prelude.{◌≡◌, ◌-◌, ◌<◌, ◌≤◌, ◌++◌, ◌∷◌, [], false, length, replicate};
ghost use Rattle.std.specs.Prelude.{ℕ, List, IfOk, IsOkUnless, IsTrue, slice_index_or};
ghost use Rattle.bw_lanes.specs.Lanes.{lanes_of_words};
ghost use Rattle.bw_model.specs.Fault.{no_memory};
ghost use Rattle.bw_model.specs.Groups.{group_size};
ghost use Rattle.bw_model.specs.Row.{Value, values_of};
ghost use Rattle.bw_model.specs.Selection.{selection};
ghost use Rattle.bw_model.specs.declared.cond.Cond.{Cond};
ghost use Rattle.bw_rowwise.specs.Columns.{HaveRows};
ghost use Rattle.bw_rowwise.specs.Prepared.{places_within};

use crate::columns::Columns;
use crate::lanes::truths;
use crate::prepared::Prepared;
use bw_lanes::Selection;
use bw_model::{Cond, Fault, Row};
use bw_segment::Segment;
use std::alloc::Global;

/// A prepared condition, and the columns that it names.
#[derive(Drop)]
pub struct Filter {
    cond: Prepared,
    columns: Columns,
    ghost within: { IsTrue (places_within (length columns.columns.items) cond) },
}

impl Filter {
    ghost use Rattle.bw_rowwise.specs.Filter.{IsPreparedFrom};

    /// Prepares a condition. Errors: 801 if memory is refused.
    pub fn new(alloc: Global, cond: &Cond) -> Result<Self, Fault>
        ensures prepared { IfOk result (IsPreparedFrom cond.now) }
        ensures only_oom { IsOkUnless result no_memory }
    {
        let mut columns = Columns::new(alloc);
        let cond = Prepared::new(alloc, cond, &mut columns)?;
        Ok(Filter { cond, columns })
    }

    /// Returns the rows of a segment on which the condition is TRUE: neither FALSE nor UNKNOWN will
    /// do. Lane i is row i's, and 0 past the last row. Each column that the condition names is
    /// unpacked once.
    pub fn matching_lanes<S: Segment>(&mut self, segment: &S) -> Selection
        ensures kept { (asked : Cond) → IsPreparedFrom asked self.old → lanes_of_words result
            ≡ selection asked (S.meaning segment.now).rows
            ++ replicate (group_size - length (S.meaning segment.now).rows) false }
        ensures same { (asked : Cond) → IsPreparedFrom asked self.old
            → IsPreparedFrom asked self.new }
    {
        self.columns.unpack(segment);
        self.matching_rows(segment.rows_in())
    }

    /// Removes the rows that were gathered.
    pub fn clear(&mut self)
        ensures rows { HaveRows [] self.new.columns }
        ensures same { (asked : Cond) → IsPreparedFrom asked self.old
            → IsPreparedFrom asked self.new }
    {
        self.columns.clear();
    }

    /// Gathers a row, after the `lane` rows that were gathered.
    pub fn put_row(&mut self, lane: usize, row: &Row)
        requires { lane < 512 }
        ensures rows { (rows : List (List Value)) → length rows ≡ lane
            → HaveRows rows self.old.columns
            → HaveRows (rows ++ values_of row.now ∷ []) self.new.columns }
        ensures same { (asked : Cond) → IsPreparedFrom asked self.old
            → IsPreparedFrom asked self.new }
    {
        self.columns.put_row(lane, row);
    }

    /// Returns the rows among those that were gathered, `count` of them, on which the condition is
    /// TRUE. Lane i is row i's, and 0 past the last row.
    pub fn matching_rows(&self, count: u32) -> Selection
        requires { count ≤ 512 }
        ensures rows { (asked : Cond) (rows : List (List Value)) → IsPreparedFrom asked self.now
            → HaveRows rows self.now.columns → length rows ≡ count → lanes_of_words result
            ≡ selection asked rows ++ replicate (group_size - length rows) false }
        ensures within { (lane : ℕ) → count ≤ lane
            → slice_index_or (lanes_of_words result) lane false ≡ false }
    {
        truths(&self.cond, &self.columns).true_rows(count)
    }
}

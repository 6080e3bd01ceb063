//! Columns of a table in 512 lanes, one for each row: unpacked from a segment, or gathered from
//! rows that come one at a time.
ghost use Rattle.std.specs.Prelude.{◌≡◌, ◌<◌, ◌++◌, ◌∷◌, [], ℕ, All, List, length, map, IfOk};
ghost use Rattle.std.specs.Prelude.{IsOkUnless, OnOk};
ghost use Rattle.bw_lanes.specs.Lanes.{lanes_of_words};
ghost use Rattle.bw_model.specs.Fault.{no_memory};
ghost use Rattle.bw_model.specs.Row.{Value, value_in, values_of};
ghost use Rattle.bw_rowwise.specs.Columns.{Grows, HasColumn, HasSelected, HaveRows, HaveSelected};
ghost use Rattle.bw_rowwise.specs.Columns.{IsAt, numbers_of, row_in, value_at};
ghost use Rattle.bw_rowwise.specs.declared.columns.LaneColumn.{LaneColumn};

use crate::column_lanes::ColumnLanes;
use bw_lanes::{LANES, Selection, count, last_between};
use bw_model::{Fault, Row, Value, admitted_rows_have_each_value};
use bw_segment::{Segment, keys_in_lanes};
use std::alloc::Global;

/// From this number of selected rows on, a column is unpacked in all lanes at once, and not row by
/// row.
const MANY: u32 = 128;

/// A column by its number, and its values in 512 lanes.
#[derive(Drop)]
pub(crate) struct LaneColumn {
    number: usize,
    lanes: ColumnLanes,
}

/// Columns of a table, each once, and their values in 512 lanes.
#[derive(Drop)]
pub struct Columns {
    columns: Vec<LaneColumn>,
}

impl Columns {
    /// Returns no columns.
    pub fn new(alloc: Global) -> Self
        ensures { numbers_of result ≡ [] }
    {
        Columns {
            columns: Vec::new(alloc),
        }
    }

    /// Returns the place of the column of this number. It is added if it isn't there, without a
    /// value. Errors: 801 if memory is refused.
    pub fn place_of(&mut self, number: usize) -> Result<usize, Fault>
        ensures place { IfOk result (IsAt (numbers_of self.new) number) }
        ensures grown { OnOk result (Grows (numbers_of self.old) (numbers_of self.new)) }
        ensures only_oom { IsOkUnless result no_memory }
    {
        for place in 0..self.columns.len() {
            if self.columns[place].number == number {
                return Ok(place);
            }
        }
        self.columns.push(LaneColumn {
            number,
            lanes: ColumnLanes::empty(),
        })?;
        Ok(self.columns.len() - 1)
    }

    /// Returns the lanes of the column at a place.
    pub(crate) fn lanes(&self, place: usize) -> &ColumnLanes
        requires { place < length self.now.columns.items }
        ensures { (lane : ℕ) → value_at result.now lane ≡ value_in (row_in self.now lane) place }
    {
        &self.columns[place].lanes
    }

    /// Returns the value in a lane of the column at a place.
    #[inline]
    pub fn value(&self, place: usize, lane: usize) -> Value
        requires place { place < length self.now.columns.items }
        requires lane { lane < 512 }
        ensures { result ≡ value_in (row_in self.now lane) place }
    {
        self.lanes(place).value(lane)
    }

    /// Unpacks the columns of a segment.
    pub(crate) fn unpack<S: Segment>(&mut self, segment: &S)
        ensures rows { HaveRows (S.meaning segment.now).rows self.new }
        ensures same { numbers_of self.new ≡ numbers_of self.old }
    {
        unpack_all(&mut self.columns, segment);
    }

    /// Unpacks the columns of a segment in the selected rows: all of a column at once if they are
    /// many, else row by row.
    pub fn unpack_selected<S: Segment>(&mut self, segment: &S, selection: &Selection)
        ensures rows { HaveSelected (S.meaning segment.now).rows (lanes_of_words selection.now)
            self.new }
        ensures same { numbers_of self.new ≡ numbers_of self.old }
    {
        if count(selection) >= MANY {
            self.unpack(segment);
        } else {
            self.unpack_few(segment, selection);
        }
    }

    /// Unpacks the columns of a segment in the selected rows, row by row.
    fn unpack_few<S: Segment>(&mut self, segment: &S, selection: &Selection)
        ensures rows { HaveSelected (S.meaning segment.now).rows (lanes_of_words selection.now)
            self.new }
        ensures same { numbers_of self.new ≡ numbers_of self.old }
    {
        unpack_few(&mut self.columns, segment, selection);
    }

    /// Removes all values.
    pub fn clear(&mut self)
        ensures rows { HaveRows [] self.new }
        ensures same { numbers_of self.new ≡ numbers_of self.old }
    {
        clear_all(&mut self.columns);
    }

    /// Puts the values of a row into the lane after those of earlier rows.
    pub fn put_row(&mut self, lane: usize, row: &Row)
        requires { lane < 512 }
        ensures rows { (rows : List (List Value)) → length rows ≡ lane → HaveRows rows self.old
            → HaveRows (rows ++ values_of row.now ∷ []) self.new }
        ensures same { numbers_of self.new ≡ numbers_of self.old }
    {
        put_in_all(&mut self.columns, lane, row);
    }
}

impl LaneColumn {
    /// Unpacks the column of a segment, or no values if the segment doesn't have it.
    fn unpack<S: Segment>(&mut self, segment: &S)
        ensures rows { HasColumn (S.meaning segment.now).rows self.new.number self.new.lanes }
        ensures same { self.new.number ≡ self.old.number }
    {
        admitted_rows_have_each_value();
        if self.number < segment.schema().columns.len() {
            self.lanes.none = keys_in_lanes(segment, self.number, &mut self.lanes.keys);
        } else {
            self.lanes.clear();
        }
    }

    /// Unpacks the column of a segment in the selected rows, from the last one down.
    fn unpack_selected<S: Segment>(&mut self, segment: &S, selection: &Selection)
        ensures rows { HasSelected (S.meaning segment.now).rows (lanes_of_words selection.now)
            self.new.number self.new.lanes }
        ensures same { self.new.number ≡ self.old.number }
    {
        admitted_rows_have_each_value();
        self.lanes.clear();
        if self.number < segment.schema().columns.len() {
            put_selected(&mut self.lanes, segment, self.number, selection);
        }
    }

    /// Removes all values.
    fn clear(&mut self)
        ensures rows { HasColumn [] self.new.number self.new.lanes }
        ensures same { self.new.number ≡ self.old.number }
    {
        self.lanes.clear();
    }

    /// Puts the value of a row into the lane after those of earlier rows.
    fn put_row(&mut self, lane: usize, row: &Row)
        requires { lane < 512 }
        ensures rows { (rows : List (List Value)) → length rows ≡ lane
            → HasColumn rows self.old.number self.old.lanes
            → HasColumn (rows ++ values_of row.now ∷ []) self.new.number self.new.lanes }
        ensures same { self.new.number ≡ self.old.number }
    {
        self.lanes.put(lane, value_in(row, self.number));
    }
}

/// Returns the value of a row in a column, or null if the row doesn't have it.
fn value_in(row: &Row, number: usize) -> Value
    ensures { result ≡ value_in (values_of row.now) number }
{
    row.values.get(number).copied().flatten()
}

/// Unpacks columns of a segment.
fn unpack_all<S: Segment>(columns: &mut [LaneColumn], segment: &S)
    ensures rows { All (λ (column : LaneColumn).
        HasColumn (S.meaning segment.now).rows column.number column.lanes) columns.new }
    ensures same { map (λ (column : LaneColumn). column.number) columns.new
        ≡ map (λ (column : LaneColumn). column.number) columns.old }
{
    for column in columns.iter_mut() {
        column.unpack(segment);
    }
}

/// Unpacks columns of a segment in the selected rows, row by row.
fn unpack_few<S: Segment>(columns: &mut [LaneColumn], segment: &S, selection: &Selection)
    ensures rows { All (λ (column : LaneColumn). HasSelected (S.meaning segment.now).rows
        (lanes_of_words selection.now) column.number column.lanes) columns.new }
    ensures same { map (λ (column : LaneColumn). column.number) columns.new
        ≡ map (λ (column : LaneColumn). column.number) columns.old }
{
    for column in columns.iter_mut() {
        column.unpack_selected(segment, selection);
    }
}

/// Removes the values of columns.
fn clear_all(columns: &mut [LaneColumn])
    ensures rows { All (λ (column : LaneColumn). HasColumn [] column.number column.lanes)
        columns.new }
    ensures same { map (λ (column : LaneColumn). column.number) columns.new
        ≡ map (λ (column : LaneColumn). column.number) columns.old }
{
    for column in columns.iter_mut() {
        column.clear();
    }
}

/// Puts the values of a row into the lane after those of earlier rows.
fn put_in_all(columns: &mut [LaneColumn], lane: usize, row: &Row)
    requires { lane < 512 }
    ensures rows { (rows : List (List Value)) → length rows ≡ lane
        → All (λ (column : LaneColumn). HasColumn rows column.number column.lanes) columns.old
        → All (λ (column : LaneColumn).
        HasColumn (rows ++ values_of row.now ∷ []) column.number column.lanes) columns.new }
    ensures same { map (λ (column : LaneColumn). column.number) columns.new
        ≡ map (λ (column : LaneColumn). column.number) columns.old }
{
    for column in columns.iter_mut() {
        column.put_row(lane, row);
    }
}

/// Puts the values of a column of a segment into the lanes of the selected rows.
fn put_selected<S: Segment>(
    lanes: &mut ColumnLanes,
    segment: &S,
    number: usize,
    selection: &Selection,
)
    requires { number < length (S.meaning segment.now).columns }
    ensures { HasSelected (S.meaning segment.now).rows (lanes_of_words selection.now) number
        lanes.new }
{
    let mut row = segment.rows_in() as usize;
    while let Some(last) = last_between(selection, 0, row) {
        lanes.put(last, segment.value(number, last));
        row = last;
    }
}

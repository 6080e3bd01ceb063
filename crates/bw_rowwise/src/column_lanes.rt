//! The values of a column in 512 lanes, one for each row, and comparisons of them.
ghost use Rattle.std.specs.Prelude.{◌≡◌, ◌≢◌, ◌<◌, ℕ, Bool, Some, None, false, slice_index};
ghost use Rattle.std.specs.Prelude.{slice_index_or};
ghost use Rattle.bw_lanes.specs.Lanes.{lanes_of_words};
ghost use Rattle.bw_model.specs.Row.{Value};
ghost use Rattle.bw_model.specs.Truth.{compare_values, holds, is_null, truth_from};
ghost use Rattle.bw_rowwise.specs.Columns.{value_at};
ghost use Rattle.bw_rowwise.specs.Lanes.{AreTruths};
ghost use Rattle.bw_rowwise.specs.Numbers.{among_numbers};
ghost use Rattle.bw_segment.specs.Keys.{number_of_key};

use crate::numbers::Numbers;
use crate::planes::{both_lanes, either_lanes, every_lane, other_lanes, put_lane};
use crate::truths::Truths;
use bw_lanes::{LANES, Plane, bytes_eq, codes_eq, codes_lt, lane};
use bw_model::{Op, Truth, Value};
use bw_segment::{key, number};

/// A value in each lane: the lanes without one, and the keys of the values in the others.
#[derive(Drop)]
pub struct ColumnLanes {
    pub none: Plane,
    pub keys: [u64; LANES],
}

impl ColumnLanes {
    /// Returns no values.
    pub fn empty() -> Self
        ensures { (lane : ℕ) → lane < 512 → value_at result lane ≡ None }
    {
        ColumnLanes {
            none: every_lane(true),
            keys: [0; LANES],
        }
    }

    /// Removes all values.
    pub fn clear(&mut self)
        ensures { (lane : ℕ) → lane < 512 → value_at self.new lane ≡ None }
    {
        self.none = every_lane(true);
    }

    /// Puts a value into a lane.
    #[inline]
    pub fn put(&mut self, at: usize, value: Value)
        requires { at < 512 }
        ensures put { value_at self.new at ≡ value }
        ensures others { (other : ℕ) → other < 512 → other ≢ at
            → value_at self.new other ≡ value_at self.old other }
    {
        if let Some(n) = value {
            self.keys[at] = key(n);
        }
        put_lane(&mut self.none, at, value.is_none());
    }

    /// Returns the truth of a comparison with other values in each lane.
    pub fn compare(&self, op: Op, other: &ColumnLanes) -> Truths
        ensures { AreTruths result
            (λ lane. compare_values op (value_at self.now lane) (value_at other.now lane)) }
    {
        let none = either_lanes(&self.none, &other.none);
        let holds = lanes_holding(op, &self.keys, &other.keys);
        Truths {
            yes: both_lanes(&holds, &other_lanes(&none)),
            maybe: either_lanes(&holds, &none),
        }
    }

    /// Returns the truth of a comparison with a number in each lane.
    pub fn compare_with(&self, op: Op, n: i64) -> Truths
        ensures { AreTruths result (λ lane. compare_values op (value_at self.now lane) (Some n)) }
    {
        let keys = [key(n); LANES];
        let holds = lanes_holding(op, &self.keys, &keys);
        Truths {
            yes: both_lanes(&holds, &other_lanes(&self.none)),
            maybe: either_lanes(&holds, &self.none),
        }
    }

    /// Returns in each lane whether the value is one of these numbers, as `IN` has it.
    pub fn among(&self, numbers: &Numbers) -> Truths
        ensures { AreTruths result
            (λ lane. among_numbers (value_at self.now lane) numbers.now.sorted.items) }
    {
        let mut yes = [0; LANES];
        let mut maybe = [0; LANES];
        for lane in 0..LANES {
            let truth = numbers.among(self.value(lane));
            yes[lane] = (truth == Truth::Yes) as u8;
            maybe[lane] = (truth != Truth::No) as u8;
        }
        Truths {
            yes: bytes_eq(&yes, 1),
            maybe: bytes_eq(&maybe, 1),
        }
    }

    /// Returns in each lane whether the value is null.
    pub fn nulls(&self) -> Truths
        ensures { AreTruths result (λ lane. truth_from (is_null (value_at self.now lane))) }
    {
        Truths::of(self.none)
    }

    /// Returns the value in a lane.
    #[inline]
    pub fn value(&self, at: usize) -> Value
        requires { at < 512 }
        ensures { result ≡ value_at self.now at }
    {
        if lane(&self.none, at) {
            None
        } else {
            Some(number(self.keys[at]))
        }
    }
}

/// Returns the lanes in which a comparison is true of the numbers of two keys.
fn lanes_holding(op: Op, xs: &[u64; LANES], ys: &[u64; LANES]) -> Plane
    ensures { (lane : ℕ) → lane < 512 → slice_index_or (lanes_of_words result) lane false
        ≡ holds op (number_of_key (slice_index xs.now lane))
        (number_of_key (slice_index ys.now lane)) }
{
    match op {
        Op::Eq => codes_eq(xs, ys),
        Op::Ne => other_lanes(&codes_eq(xs, ys)),
        Op::Lt => codes_lt(xs, ys),
        Op::Gt => codes_lt(ys, xs),
        Op::Le => other_lanes(&codes_lt(ys, xs)),
        Op::Ge => other_lanes(&codes_lt(xs, ys)),
    }
}

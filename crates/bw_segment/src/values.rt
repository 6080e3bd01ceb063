//! The values of a column in all 512 lanes of a group at once.
ghost use Rattle.std.specs.Prelude.{◌≡◌, ◌==◌, ◌<◌, ◌≤◌, ◌^◌, ◌-◌, ◌+ℤ◌, ◌-ℤ◌, ◌<ℤ◌, ◌≤ℤ◌, ℕ, true};
ghost use Rattle.std.specs.Prelude.{[], ◌++◌, Some, None, All, length, map, pos, replicate};
ghost use Rattle.std.specs.Prelude.{slice_index, slice_index_or, unsigned_abs, if◌then◌else◌};
ghost use Rattle.bw_lanes.specs.Lanes.{lanes_of_words};
ghost use Rattle.bw_model.specs.Code.{span_of, value_of_code};
ghost use Rattle.bw_model.specs.Row.{value_in};
ghost use Rattle.bw_model.specs.Truth.{is_null};
ghost use Rattle.bw_segment.specs.Keys.{number_of_key, value_in_lane};

use crate::segment::Segment;
use bw_lanes::{LANES, Plane, bytes_of_plane, is_zero, mask, not, or};
use bw_model::{Column, Value};

/// Sets `values` to the values of a column in the 512 lanes: lane i has that of row i, and is null
/// past the last row.
pub fn values_in_lanes<S: Segment>(segment: &S, col: usize, values: &mut [Value; LANES])
    requires { col < length (S.meaning segment.now).columns }
    ensures { (lane : ℕ) → lane < 512 → slice_index_or values.new lane None
        ≡ value_in (slice_index_or (S.meaning segment.now).rows lane []) col }
{
    let mut codes = [0; LANES];
    segment.codes(col, &mut codes);
    let column = &segment.schema().columns[col];
    let none = no_values(segment, col);
    if is_zero(&none) {
        put_all(column, &codes, values);
    } else {
        put_values(column, &codes, &bytes_of_plane(&none), values);
    }
}

/// Sets `keys` to the values of a column in the 512 lanes, as keys. Returns the lanes without a
/// value: those of null rows, and those past the last row.
pub fn keys_in_lanes<S: Segment>(segment: &S, col: usize, keys: &mut [u64; LANES]) -> Plane
    requires { col < length (S.meaning segment.now).columns }
    ensures { (lane : ℕ) → lane < 512 → value_in_lane (lanes_of_words result) keys.new lane
        ≡ value_in (slice_index_or (S.meaning segment.now).rows lane []) col }
{
    let mut codes = [0; LANES];
    segment.codes(col, &mut codes);
    put_keys(&segment.schema().columns[col], &codes, keys);
    no_values(segment, col)
}

/// Returns the key of a number: its distance from -2^63. Keys are ordered as the numbers are.
pub fn key(n: i64) -> u64
    ensures { number_of_key result ≡ n }
{
    (i128::from(n) + (1 << 63)) as u64
}

/// Returns the number of a key.
pub fn number(key: u64) -> i64
    ensures { result ≡ number_of_key key }
{
    (i128::from(key) - (1 << 63)) as i64
}

/// Returns the lanes without a value: those of rows that are null in the column, and those past the
/// last row.
fn no_values<S: Segment>(segment: &S, col: usize) -> Plane
    requires { col < length (S.meaning segment.now).columns }
    ensures { lanes_of_words result
        ≡ map (λ row. is_null (value_in row col)) (S.meaning segment.now).rows
        ++ replicate (512 - length (S.meaning segment.now).rows) true }
{
    let past = not(&mask(segment.rows_in()));
    or(&past, &segment.nulls(col))
}

/// Sets each lane to the value of its code.
fn put_all(column: &Column, codes: &[u64; LANES], values: &mut [Value; LANES])
    requires { All (λ code. code ≤ span_of column.now) codes.now }
    ensures { (lane : ℕ) → lane < 512 → slice_index_or values.new lane None
        ≡ Some (value_of_code column.now (slice_index codes.now lane)) }
{
    let (lo, hi) = (column.lo, column.hi);
    for lane in 0..LANES {
        values[lane] = Some(value_of(lo, hi, codes[lane]));
    }
}

/// Sets each lane to the value of its code if its byte in `nulls` is 0, else to null.
fn put_values(
    column: &Column,
    codes: &[u64; LANES],
    nulls: &[u8; LANES],
    values: &mut [Value; LANES],
)
    requires { All (λ code. code ≤ span_of column.now) codes.now }
    ensures { (lane : ℕ) → lane < 512 → slice_index_or values.new lane None
        ≡ (if slice_index nulls.now lane == 0
        then Some (value_of_code column.now (slice_index codes.now lane)) else None) }
{
    let (lo, hi) = (column.lo, column.hi);
    for lane in 0..LANES {
        values[lane] = value_or_null(value_of(lo, hi, codes[lane]), nulls[lane]);
    }
}

/// Sets each lane to the key of its code.
fn put_keys(column: &Column, codes: &[u64; LANES], keys: &mut [u64; LANES])
    requires { All (λ code. code ≤ span_of column.now) codes.now }
    ensures { (lane : ℕ) → lane < 512 → number_of_key (slice_index keys.new lane)
        ≡ value_of_code column.now (slice_index codes.now lane) }
{
    let (lo, hi) = (column.lo, column.hi);
    let least = key(lo);
    for lane in 0..LANES {
        keys[lane] = key_of(lo, hi, least, codes[lane]);
    }
}

/// Returns the key of a code, from the column's minimum and maximum, and the minimum's key.
fn key_of(lo: i64, hi: i64, least: u64, code: u64) -> u64
    requires ordered { lo ≤ℤ hi }
    requires narrow { (hi -ℤ lo) <ℤ pos (2 ^ 63) }
    requires least { number_of_key least ≡ lo }
    requires code { code ≤ unsigned_abs (hi -ℤ lo) }
    ensures { number_of_key result ≡ lo +ℤ pos code }
{
    least + code
}

/// Returns the value of a code, from the column's minimum and maximum.
fn value_of(lo: i64, hi: i64, code: u64) -> i64
    requires ordered { lo ≤ℤ hi }
    requires narrow { (hi -ℤ lo) <ℤ pos (2 ^ 63) }
    requires code { code ≤ unsigned_abs (hi -ℤ lo) }
    ensures { result ≡ lo +ℤ pos code }
{
    lo + code as i64
}

/// Returns the value if the byte is 0, else null.
fn value_or_null(value: i64, null: u8) -> Value
    ensures { result ≡ (if null == 0 then Some value else None) }
{
    if null == 0 { Some(value) } else { None }
}

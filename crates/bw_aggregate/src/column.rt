//! The aggregates of a column over the selected rows of one segment.
ghost use Rattle.std.specs.Prelude.{◌≡◌, ◌^◌, ◌<◌, ◌≤◌, ◌+ℤ◌, ◌*ℤ◌, ℕ, ℤ, pos, true, false, IfSome};
ghost use Rattle.std.specs.Prelude.{Some, length, List, Bool};
ghost use Rattle.std.specs.List.{list_any, reduce};
ghost use Rattle.std.specs.Int.{int_min, int_max};
ghost use Rattle.bw_lanes.specs.Lanes.{lanes_of_words};
ghost use Rattle.bw_model.specs.Code.{value_at};
ghost use Rattle.bw_segment.specs.Selected.{codes_in, is_beyond, is_greatest};
ghost use Rattle.bw_rowwise.specs.Accumulator.{IsTotalOfRows};
ghost use Rattle.bw_aggregate.specs.Selected.{present_lanes, values_in};

use bw_lanes::{Selection, and, count, not};
use bw_segment::{Extreme, Segment};

/// Returns the selected rows in which a column isn't null.
#[tactic(auto, unfolding(crate::specs::Selected::present_lanes))]
pub(crate) fn present<S: Segment>(segment: &S, col: usize, rows: &Selection) -> Selection
    requires { col < length (S.meaning segment.now).columns }
    ensures { lanes_of_words result
        ≡ present_lanes (S.meaning segment.now) col (lanes_of_words rows.now) }
{
    and(rows, &not(&segment.nulls(col)))
}

/// Returns the minimum of a column, which has the code 0.
fn lowest<S: Segment>(segment: &S, col: usize) -> i64
    requires { col < length (S.meaning segment.now).columns }
    ensures { (code : ℕ) → value_at (S.meaning segment.now).columns col code ≡ result +ℤ pos code }
{
    segment.schema().columns[col].lo
}

/// Returns the sum of the values of the codes in these rows, or None if there are no rows.
pub(crate) fn sum<S: Segment>(segment: &S, col: usize, rows: &Selection) -> Option<i128>
    requires { col < length (S.meaning segment.now).columns }
    ensures sum { result ≡ reduce (λ a b. a +ℤ b)
        (values_in (S.meaning segment.now) col (lanes_of_words rows.now)) }
    ensures small { IsTotalOfRows 1 result }
{
    let number = count(rows);
    if number == 0 {
        return None;
    }
    let codes = segment.sum_of_codes(col, rows);
    Some(sum_of_values(lowest(segment, col), number, codes))
}

/// Returns the minimum value of the codes in these rows, or None if there are no rows.
pub(crate) fn least<S: Segment>(segment: &S, col: usize, rows: &Selection) -> Option<i128>
    requires { col < length (S.meaning segment.now).columns }
    ensures least { result ≡ reduce int_min
        (values_in (S.meaning segment.now) col (lanes_of_words rows.now)) }
    ensures small { IsTotalOfRows 1 result }
{
    let code = segment.min_code(col, rows)?;
    Some(value_of_code(lowest(segment, col), code))
}

/// Returns the maximum value of the codes in these rows, or None if there are no rows.
pub(crate) fn greatest<S: Segment>(segment: &S, col: usize, rows: &Selection) -> Option<i128>
    requires { col < length (S.meaning segment.now).columns }
    ensures greatest { result ≡ reduce int_max
        (values_in (S.meaning segment.now) col (lanes_of_words rows.now)) }
    ensures small { IsTotalOfRows 1 result }
{
    let code = segment.max_code(col, rows)?;
    Some(value_of_code(lowest(segment, col), code))
}

/// Returns true only if no code of a column is beyond this one. If none is, nothing has to be read.
#[inline(always)]
fn is_last<S: Segment>(segment: &S, col: usize, code: u64, which: Extreme) -> bool
    requires { col < length (S.meaning segment.now).columns }
    ensures { result ≡ true → (lanes : List Bool)
        → list_any (is_beyond (is_greatest which) code)
        (codes_in (S.meaning segment.now) col lanes) ≡ false }
{
    match which {
        Extreme::Least => code == 0,
        Extreme::Greatest => {
            let column = &segment.schema().columns[col];
            code == column.hi.abs_diff(column.lo)
        }
    }
}

/// Returns true only if no value of the codes in these rows is beyond a total: above it, or below
/// it if the least is sought.
#[inline(always)]
pub(crate) fn none_beyond<S: Segment>(
    segment: &S,
    col: usize,
    rows: &Selection,
    are_few: bool,
    so_far: Option<i128>,
    which: Extreme,
) -> bool
    requires { col < length (S.meaning segment.now).columns }
    ensures { result ≡ true → (lo : ℤ) × (code : ℕ)
        × ((other : ℕ) → value_at (S.meaning segment.now).columns col other ≡ lo +ℤ pos other)
        × (so_far ≡ Some (lo +ℤ pos code))
        × (list_any (is_beyond (is_greatest which) code)
        (codes_in (S.meaning segment.now) col (lanes_of_words rows.now)) ≡ false) }
{
    let Some(total) = so_far else {
        return false;
    };
    match code_of_value(lowest(segment, col), total) {
        Some(code) => {
            is_last(segment, col, code, which)
                || segment.none_beyond(col, rows, are_few, code, which)
        }
        None => false,
    }
}

/// Returns true only if no value of a column in these rows is below a total. It isn't compiled into
/// its caller, which would then clear a plane each time.
#[inline(never)]
pub(crate) fn no_value_below<S: Segment>(
    segment: &S,
    col: usize,
    rows: &Selection,
    are_few: bool,
    so_far: Option<i128>,
) -> bool
    requires { col < length (S.meaning segment.now).columns }
    ensures { result ≡ true → (lo : ℤ) × (code : ℕ)
        × ((other : ℕ) → value_at (S.meaning segment.now).columns col other ≡ lo +ℤ pos other)
        × (so_far ≡ Some (lo +ℤ pos code))
        × (list_any (is_beyond false code) (codes_in (S.meaning segment.now) col
        (present_lanes (S.meaning segment.now) col (lanes_of_words rows.now))) ≡ false) }
{
    let Some(total) = so_far else {
        return false;
    };
    match code_of_value(lowest(segment, col), total) {
        Some(code) => {
            is_last(segment, col, code, Extreme::Least)
                || segment.none_beyond(
                    col,
                    &present(segment, col, rows),
                    are_few,
                    code,
                    Extreme::Least,
                )
        }
        None => false,
    }
}

/// Returns the code of a value, if `lowest` is that of the code 0, or None if it has none of 63
/// binary digits.
#[inline(always)]
fn code_of_value(lowest: i64, value: i128) -> Option<u64>
    ensures { IfSome result (λ code. (value ≡ lowest +ℤ pos code) × (code < 2 ^ 63)) }
{
    let value = i64::try_from(value).ok()?;
    let code = value.checked_sub(lowest)?;
    u64::try_from(code).ok()
}

/// Returns the value of a code, if `lowest` is that of the code 0.
fn value_of_code(lowest: i64, code: u64) -> i128
    requires { code < 2 ^ 63 }
    ensures value { result ≡ lowest +ℤ pos code }
    ensures small { IsTotalOfRows 1 (Some result) }
{
    i128::from(lowest) + i128::from(code)
}

/// Returns the sum of `number` values, whose codes have this sum: `lowest` for each of them, plus
/// the codes.
fn sum_of_values(lowest: i64, number: u32, codes: u128) -> i128
    requires number { number ≤ 512 }
    requires codes { codes ≤ 2 ^ 72 }
    ensures sum { result ≡ lowest *ℤ pos number +ℤ pos codes }
    ensures small { IsTotalOfRows 1 (Some result) }
{
    i128::from(lowest) * i128::from(number) + codes as i128
}

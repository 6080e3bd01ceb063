//! A record of values, written from its last byte to its first, since digits come in that order.
ghost use Rattle.std.specs.Prelude.{◌≡◌, ◌+◌, ◌*◌, ◌<◌, ◌≤◌, ◌++◌, ◌∷◌, All, drop, length};
ghost use Rattle.std.specs.Fmt.{signed_decimal};
ghost use Rattle.bw_answer.specs.Answer.{record_text, value_text};
ghost use Rattle.bw_answer.specs.LaneFields.{fields_in_lane, value_in_lane};

use bw_model::Value;
use bw_rowwise::Columns;
use itoa::write_digits;

/// The most bytes of a field: a sign, 19 digits, and the comma or the line feed after it.
pub(crate) const FIELD: usize = 21;

/// Writes the record of the values in a lane of the columns at these places, so that it ends at
/// `end`. Returns where it starts.
pub(crate) fn put_record(
    text: &mut [u8],
    end: usize,
    lanes: &Columns,
    columns: &[usize],
    number: usize,
) -> usize
    requires nonempty { 1 ≤ length columns.now }
    requires columns { All (λ column. column < length lanes.now.columns.items) columns.now }
    requires number { number < 512 }
    requires capacity { (21 * length columns.now ≤ end) × (end ≤ length text.old) }
    ensures capacity { (result ≤ end) × (end ≤ result + 21 * length columns.now) }
    ensures written { drop result text.new
        ≡ record_text (fields_in_lane lanes.now columns.now number) ++ drop end text.old }
{
    let mut left = columns.len() - 1;
    let mut start = put_byte(text, end, b'\n');
    start = put_value(text, start, value_in_lane(lanes, number, columns[left]));
    while left > 0 {
        left -= 1;
        start = put_byte(text, start, b',');
        start = put_value(text, start, value_in_lane(lanes, number, columns[left]));
    }
    start
}

/// Returns the value of a column in a lane.
#[inline]
fn value_in_lane(lanes: &Columns, number: usize, column: usize) -> Value
    requires { (number < 512) × (column < length lanes.now.columns.items) }
    ensures { result ≡ value_in_lane lanes.now number column }
{
    lanes.value(column, number)
}

/// Writes a number, or null, so that it ends at `end`. Returns where it starts.
#[inline]
fn put_value(text: &mut [u8], end: usize, value: Value) -> usize
    requires { (20 ≤ end) × (end ≤ length text.old) }
    ensures capacity { (result ≤ end) × (end ≤ result + 20) }
    ensures written { drop result text.new ≡ value_text value ++ drop end text.old }
{
    match value {
        None => put_null(text, end),
        Some(n) => put_number(text, end, n),
    }
}

/// Writes null so that it ends at `end`. Returns where it starts.
#[inline]
fn put_null(text: &mut [u8], end: usize) -> usize
    requires { (4 ≤ end) × (end ≤ length text.old) }
    ensures capacity { result + 4 ≡ end }
    ensures written { drop result text.new ≡ 78 ∷ 85 ∷ 76 ∷ 76 ∷ drop end text.old }
{
    let end = put_byte(text, end, b'L');
    let end = put_byte(text, end, b'L');
    let end = put_byte(text, end, b'U');
    put_byte(text, end, b'N')
}

/// Writes a number so that it ends at `end`. Returns where it starts.
#[inline]
fn put_number(text: &mut [u8], end: usize, n: i64) -> usize
    requires { (20 ≤ end) × (end ≤ length text.old) }
    ensures capacity { (result ≤ end) × (end ≤ result + 20) }
    ensures written { drop result text.new ≡ signed_decimal n ++ drop end text.old }
{
    let start = write_digits(n.unsigned_abs(), text, end);
    if n < 0 {
        put_byte(text, start, b'-')
    } else {
        start
    }
}

/// Writes a byte before `end`. Returns its place.
#[inline]
fn put_byte(text: &mut [u8], end: usize, byte: u8) -> usize
    requires { (1 ≤ end) × (end ≤ length text.old) }
    ensures capacity { result + 1 ≡ end }
    ensures written { drop result text.new ≡ byte ∷ drop end text.old }
{
    text[end - 1] = byte;
    end - 1
}

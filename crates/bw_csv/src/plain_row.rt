//! The row of a plain record, read from the text itself.
ghost use Rattle.std.specs.Prelude.{◌≡◌, ◌≤◌, Some, true, false, IfSome};
ghost use Rattle.csv.specs.declared.parser.State.TheVariants as st;
ghost use Rattle.bw_model.specs.Limits.{most_rows};
ghost use Rattle.bw_model.specs.Row.{values_of};
ghost use Rattle.bw_csv.specs.Plain.{HasRow, is_line_end};
ghost use Rattle.bw_csv.specs.Records.{records_in};

use crate::marks::{ends_line, is_line_end, skip_bytes};
use crate::plain_field::value_at;
use crate::rule::FieldRule;
use bw_model::{MAX_ROWS, Row};

/// Writes the row of a text's next record, which has this number, under the rules into `row`. Returns the text
/// after the record, which begins with a line's end or is empty. Returns None if the record isn't
/// plain or has an error, or if there is none.
#[inline(always)]
pub(crate) fn plain_row<'a>(
    rules: &[FieldRule],
    text: &'a [u8],
    number: u32,
    row: &mut Row,
) -> Option<&'a [u8]>
    ensures row { IfSome result
        (λ rest. HasRow number rules.now text.now rest.now (values_of row.new)) }
    ensures end { IfSome result (λ rest. is_line_end rest.now ≡ true) }
{
    let record = after_line_ends(text);
    if number > MAX_ROWS || is_line_end(record) {
        return None;
    }
    row_at(rules, record, number, row)
}

/// Returns a text without the line ends at its start, of which most have one or two.
#[inline(always)]
fn after_line_ends(text: &[u8]) -> &[u8]
    ensures { records_in st.StartRecord (Some text.now)
        ≡ records_in st.StartRecord (Some result.now) }
{
    let mut rest = text;
    while !rest.is_empty() && ends_line(rest[0]) {
        rest = skip_bytes(rest, 1);
    }
    rest
}

/// Reads the plain record that a text begins with. Returns the text after it.
#[inline(always)]
fn row_at<'a>(rules: &[FieldRule], text: &'a [u8], number: u32, row: &mut Row) -> Option<&'a [u8]>
    requires within_limit { number ≤ most_rows }
    requires record { is_line_end text.now ≡ false }
    ensures row { IfSome result
        (λ rest. HasRow number rules.now text.now rest.now (values_of row.new)) }
    ensures end { IfSome result (λ rest. is_line_end rest.now ≡ true) }
{
    row.values.clear();
    let mut rest = text;
    for (i, rule) in rules.iter().enumerate() {
        let Some(found) = value_at(rule, rest, number) else {
            return None;
        };
        let Ok(()) = row.values.push(found.value) else {
            return None;
        };
        let left = skip_bytes(rest, found.len);
        if is_line_end(left) {
            return if i + 1 == rules.len() {
                Some(left)
            } else {
                None
            };
        }
        rest = skip_bytes(left, 1);
    }
    None
}

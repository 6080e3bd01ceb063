//! The value that a field spells.
ghost use Rattle.std.specs.Prelude.{◌≡◌};
ghost use Rattle.bw_model.specs.SchemaText.{bound_of, signed_digits};
ghost use Rattle.bw_encode.specs.Number.{IsValueOf, starts_number, starts_with_zero};

use bw_model::Value;
use bw_text::number_in;

/// Returns the value that a field spells: null if it is empty, or a number of 64 bits in decimal
/// without leading zeros, after a minus sign if it is negative. Returns None if it is any other
/// text.
pub(crate) fn value_of(field: &[u8]) -> Option<Value>
    ensures { IsValueOf field.now result }
{
    if field.is_empty() {
        return Some(None);
    }
    if !starts_number(field) {
        return None;
    }
    let Some(n) = number_of(field) else {
        return None;
    };
    Some(Some(n))
}

/// Returns whether a text starts as a number in decimal does: with no zero, unless that is all, after
/// a minus sign or none. Negative zero is no such number.
fn starts_number(text: &[u8]) -> bool
    ensures { result ≡ starts_number text.now }
{
    match text {
        [b'-', digits @ ..] => !starts_with_zero(digits),
        _ => !starts_with_zero(text) || text.len() == 1,
    }
}

fn starts_with_zero(text: &[u8]) -> bool
    ensures { result ≡ starts_with_zero text.now }
{
    match text {
        [first, ..] => *first == b'0',
        _ => false,
    }
}

/// Returns the number that a field of an optional minus sign and digits spells, if it fits 64 bits.
#[tactic(auto, unfolding(bw_model::specs::SchemaText::bound_of))]
fn number_of(field: &[u8]) -> Option<i64>
    ensures { result ≡ bound_of field.now }
{
    match field {
        [b'-', digits @ ..] => signed_digits(true, digits),
        _ => signed_digits(false, field),
    }
}

fn signed_digits(is_negative: bool, digits: &[u8]) -> Option<i64>
    ensures { result ≡ signed_digits is_negative digits.now }
{
    number_in(is_negative, digits)?
}

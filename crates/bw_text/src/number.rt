//! Whole numbers, spelled in decimal digits.
ghost use Rattle.std.specs.Prelude.{◌≡◌, ◌+◌, ◌*◌, ◌^◌, ◌-◌, ◌<◌, ◌≤◌, ℕ, List, Some, None, IfSome};
ghost use Rattle.std.specs.Prelude.{length, min, if◌then◌else◌};
ghost use Rattle.std.specs.List.{list_all};
ghost use Rattle.std.specs.Char.{is_ascii_digit};
ghost use Rattle.bw_text.specs.Number.{digits_value, are_digits, number_of, natural_of};
ghost use Rattle.bw_text.specs.Number.{where_64_bits_hold};

/// Returns whether a text is at least one digit, and nothing else.
fn are_digits(text: &[u8]) -> bool
    ensures { result ≡ are_digits text.now }
{
    !text.is_empty() && are_all_digits(text)
}

/// Returns the number of a sign and decimal digits, however many, or None if it doesn't fit 64
/// bits.
pub fn whole_number(is_negative: bool, digits: &[u8]) -> Option<i64>
    ensures { result ≡ number_of is_negative digits.now }
{
    checked_with_sign(is_negative, magnitude_of(digits))
}

/// Returns the number of a sign and a text of decimal digits, in one pass. The outer option is None
/// if the text isn't digits, the inner one if the number doesn't fit 64 bits.
pub fn number_in(is_negative: bool, text: &[u8]) -> Option<Option<i64>>
    ensures { result ≡ if are_digits text.now then Some (number_of is_negative text.now) else None }
{
    if text.len() <= 18 {
        short_number(is_negative, text)
    } else {
        long_number(is_negative, text)
    }
}

/// Reads a text so short that every number on the way fits 64 bits.
fn short_number(is_negative: bool, text: &[u8]) -> Option<Option<i64>>
    requires { length text.now ≤ 18 }
    ensures { result ≡ if are_digits text.now then Some (number_of is_negative text.now) else None }
{
    match short_magnitude(text) {
        None => None,
        Some(magnitude) => Some(Some(with_sign(is_negative, magnitude))),
    }
}

/// Reads a text of any length.
fn long_number(is_negative: bool, text: &[u8]) -> Option<Option<i64>>
    ensures { result ≡ if are_digits text.now then Some (number_of is_negative text.now) else None }
{
    match long_magnitude(text) {
        None => None,
        Some(magnitude) => Some(checked_with_sign(is_negative, magnitude)),
    }
}

/// Returns the number that a text of decimal digits spells, with any number of leading zeros, or
/// None if the text isn't digits, or the number isn't less than 2^64.
#[tactic(auto, unfolding(crate::specs::Number::natural_of))]
pub fn natural_number(text: &[u8]) -> Option<u64>
    ensures { result ≡ natural_of text.now }
{
    if are_digits(text) {
        number_of_digits(text)
    } else {
        None
    }
}

/// Returns the number that digits spell, if it is less than 2^64.
fn number_of_digits(digits: &[u8]) -> Option<u64>
    ensures { result ≡ where_64_bits_hold (digits_value digits.now) }
{
    let mut number: u64 = 0;
    for digit in digits {
        let units = u64::from(digit.saturating_sub(b'0'));
        let Some(tenfold) = number.checked_mul(10) else {
            return None;
        };
        let Some(more) = tenfold.checked_add(units) else {
            return None;
        };
        number = more;
    }
    Some(number)
}

fn are_all_digits(text: &[u8]) -> bool
    ensures { result ≡ list_all is_ascii_digit text.now }
{
    text.iter().all(|c| c.is_ascii_digit())
}

/// Returns the number that the digits spell, or the greatest `u64` if that is less.
fn magnitude_of(digits: &[u8]) -> u64
    ensures { result ≡ min (digits_value digits.now) (2 ^ 64 - 1) }
{
    let mut magnitude: u64 = 0;
    for digit in digits {
        let units = u64::from(digit.saturating_sub(b'0'));
        magnitude = magnitude.saturating_mul(10).saturating_add(units);
    }
    magnitude
}

/// Returns the number that the digits of a short text spell, or None for another text.
fn short_magnitude(text: &[u8]) -> Option<u64>
    requires { length text.now ≤ 18 }
    ensures magnitude { result ≡ if are_digits text.now then Some (digits_value text.now)
        else None }
    ensures small { IfSome result (λ magnitude. magnitude < 2 ^ 63) }
{
    if text.is_empty() {
        return None;
    }
    let mut magnitude: u64 = 0;
    for digit in text {
        if !digit.is_ascii_digit() {
            return None;
        }
        let units = u64::from(digit.saturating_sub(b'0'));
        magnitude = 10 * magnitude + units;
    }
    Some(magnitude)
}

/// Returns the number that the digits of a text spell, or the greatest `u64` if that is less; None
/// for another text.
fn long_magnitude(text: &[u8]) -> Option<u64>
    ensures { result ≡ if are_digits text.now then Some (min (digits_value text.now) (2 ^ 64 - 1))
        else None }
{
    if text.is_empty() {
        return None;
    }
    let mut magnitude: u64 = 0;
    for digit in text {
        if !digit.is_ascii_digit() {
            return None;
        }
        let units = u64::from(digit.saturating_sub(b'0'));
        magnitude = with_digit(magnitude, units);
    }
    Some(magnitude)
}

/// Returns the magnitude with one digit more, or the greatest `u64` if that is less.
fn with_digit(magnitude: u64, units: u64) -> u64
    requires { units < 10 }
    ensures { result ≡ min (10 * magnitude + units) (2 ^ 64 - 1) }
{
    if magnitude < 1 << 60 {
        magnitude * 10 + units
    } else {
        magnitude.saturating_mul(10).saturating_add(units)
    }
}

/// Returns the number of a sign and a magnitude below 2^63. Both sides are so short that they are
/// compiled without a branch: no processor can predict a sign.
#[inline(always)]
#[tactic(auto, unfolding(crate::specs::Number::number_of))]
pub fn with_sign(is_negative: bool, magnitude: u64) -> i64
    requires { magnitude < 2 ^ 63 }
    ensures { (digits : List ℕ) → magnitude ≡ digits_value digits → number_of is_negative digits
        ≡ Some result }
{
    let number = magnitude as i64;
    if is_negative { -number } else { number }
}

/// Returns the number of a sign and a magnitude, if it fits 64 bits.
fn checked_with_sign(is_negative: bool, magnitude: u64) -> Option<i64>
    ensures { (digits : List ℕ) → magnitude ≡ min (digits_value digits) (2 ^ 64 - 1) → result
        ≡ number_of is_negative digits }
{
    if is_negative {
        0i64.checked_sub_unsigned(magnitude)
    } else {
        0i64.checked_add_unsigned(magnitude)
    }
}

//! The value of a plain field, read from the text itself, which begins with the field.
//!
//! A plain field has no quotation mark, and ends at a comma, a line's end or the end of the text.
//! Every result here is right; if a function returns None, the csv reader must read the record.
ghost use Rattle.std.specs.Prelude.{◌≡◌, ◌^◌, ◌<◌, ◌≤◌, ◌&&◌, ℕ, List, Some, Ok, true, IfSome};
ghost use Rattle.std.specs.Prelude.{int_le, length, take};
ghost use Rattle.std.specs.List.{list_all};
ghost use Rattle.bw_text.specs.Number.{are_digits, digits_value, number_of};
ghost use Rattle.bw_csv.specs.Plain.{IsPlainField, is_plain};
ghost use Rattle.bw_csv.specs.Rows.{after_minus, is_minus, value_of_field};

use crate::field::{after_minus, is_minus, value_of};
use crate::marks::{is_field_end, is_plain, skip_bytes};
use crate::rule::FieldRule;
use bw_model::Value;
use bw_text::with_sign;

/// The digits with which a text begins: the number that they spell, and how many they are.
#[derive(Clone, Copy)]
struct Digits {
    magnitude: u64,
    count: usize,
}

/// The number with which a text begins, and how many bytes spell it.
#[derive(Clone, Copy)]
struct Spelled {
    number: i64,
    len: usize,
}

/// The value of a text's first field, and the field's length.
#[derive(Clone, Copy)]
pub(crate) struct Found {
    pub(crate) value: Value,
    pub(crate) len: usize,
}

/// Returns the value that a text's first field spells under a rule, or None if the field isn't plain
/// or is an error.
#[inline(always)]
pub(crate) fn value_at(rule: &FieldRule, text: &[u8], number: u32) -> Option<Found>
    ensures plain { IfSome result (λ found. IsPlainField text.now found.len) }
    ensures value { IfSome result
        (λ found. value_of_field number rule.now (take found.len text.now) ≡ Ok found.value) }
{
    match number_at(rule, text) {
        Some(found) => Some(found),
        None => other_at(rule, text, number),
    }
}

/// Returns the value of a field of a few digits, maybe after a minus sign.
#[inline(always)]
fn number_at(rule: &FieldRule, text: &[u8]) -> Option<Found>
    ensures plain { IfSome result (λ found. IsPlainField text.now found.len) }
    ensures value { IfSome result (λ found. (number : ℕ)
        → value_of_field number rule.now (take found.len text.now) ≡ Ok found.value) }
{
    let Some(spelled) = spelled_at(text) else {
        return None;
    };
    if is_field_end(skip_bytes(text, spelled.len)) && is_within(rule, spelled.number) {
        Some(Found {
            value: Some(spelled.number),
            len: spelled.len,
        })
    } else {
        None
    }
}

/// Returns the value of a field of any other form. Such fields are rare, so this stays out of the
/// loop over fields.
#[inline(never)]
fn other_at(rule: &FieldRule, text: &[u8], number: u32) -> Option<Found>
    ensures plain { IfSome result (λ found. IsPlainField text.now found.len) }
    ensures value { IfSome result
        (λ found. value_of_field number rule.now (take found.len text.now) ≡ Ok found.value) }
{
    let len = plain_len(text);
    if !is_field_end(skip_bytes(text, len)) {
        return None;
    }
    match value_of(rule, &text[..len], number) {
        Ok(value) => Some(Found { value, len }),
        Err(_) => None,
    }
}

/// Returns the number that at most 17 digits spell at the start of a text, maybe after a minus
/// sign, if another byte follows them.
#[inline(always)]
fn spelled_at(text: &[u8]) -> Option<Spelled>
    ensures within { IfSome result (λ spelled. spelled.len < length text.now) }
    ensures digits { IfSome result (λ spelled. are_digits (after_minus (take spelled.len text.now))
        ≡ true) }
    ensures number { IfSome result (λ spelled. number_of (is_minus (take spelled.len text.now))
        (after_minus (take spelled.len text.now)) ≡ Some spelled.number) }
{
    let is_negative = is_minus(text);
    let Some(digits) = digits_at(after_minus(text)) else {
        return None;
    };
    Some(Spelled {
        number: with_sign(is_negative, digits.magnitude),
        len: digits.count + is_negative as usize,
    })
}

/// Returns the digits at the start of a text, at least 1 and at most 17, if another byte follows
/// them.
#[inline(always)]
fn digits_at(text: &[u8]) -> Option<Digits>
    ensures within { IfSome result (λ digits. digits.count < length text.now) }
    ensures digits { IfSome result (λ digits. are_digits (take digits.count text.now) ≡ true) }
    ensures magnitude { IfSome result (λ digits. digits.magnitude
        ≡ digits_value (take digits.count text.now)) }
    ensures small { IfSome result (λ digits. digits.magnitude < 2 ^ 63) }
{
    let mut magnitude: u64 = 0;
    for i in 0..text.len().min(18) {
        let c = text[i];
        if !c.is_ascii_digit() {
            return if i > 0 {
                Some(Digits {
                    magnitude,
                    count: i,
                })
            } else {
                None
            };
        }
        let units = u64::from(c.saturating_sub(b'0'));
        magnitude = 10 * magnitude + units;
    }
    None
}

/// Returns whether a number is within the bounds of a rule.
#[inline(always)]
fn is_within(rule: &FieldRule, n: i64) -> bool
    ensures { result ≡ (int_le rule.now.lo n && int_le n rule.now.hi) }
{
    rule.lo <= n && n <= rule.hi
}

/// Returns how many bytes at the start of a text are those of a plain field.
fn plain_len(text: &[u8]) -> usize
    ensures within { result ≤ length text.now }
    ensures plain { list_all is_plain (take result text.now) ≡ true }
{
    for (i, c) in text.iter().enumerate() {
        if !is_plain(*c) {
            return i;
        }
    }
    text.len()
}

//! The value that a field spells.
ghost use Rattle.std.specs.Prelude.{◌≡◌, ℕ, ◌<◌, ◌≤◌, length, IfErr, IsTrue};
ghost use Rattle.bw_model.specs.Row.{Value};
ghost use Rattle.bw_csv.specs.Rows.{is_blank, without_front_blanks, without_end_blanks};
ghost use Rattle.bw_csv.specs.Rows.{without_blanks, is_null_text, is_minus, after_minus};
ghost use Rattle.bw_csv.specs.Rows.{without_sign, number_value, text_value, within_bounds};
ghost use Rattle.bw_csv.specs.Rows.{value_of_field, MatchesUnlessExempt, IsRowsFault, located_at};

use crate::rule::FieldRule;
use bw_model::{Fault, Value, code};
use bw_text::{is_same_text, number_in};

/// Returns the value that a field spells under a rule. Most fields are digits, maybe after a minus
/// sign, which are read in one pass.
///
/// Errors, at the record of this number: 204 if it isn't a whole number, 206 if it is null and the
/// rule doesn't allow null, 205 if the number is outside the rule's bounds.
#[tactic(auto, unfolding(crate::specs::Rows::value_of_field))]
pub fn value_of(rule: &FieldRule, field: &[u8], number: u32) -> Result<Value, Fault>
    ensures exact { result ≡ value_of_field number rule.now field.now }
    ensures value { MatchesUnlessExempt (λ value. value) result
        (value_of_field number rule.now field.now) }
    ensures fault { IfErr result IsRowsFault }
    ensures place { IfErr result (λ fault. IsTrue (located_at number fault)) }
{
    match number_in(is_minus(field), after_minus(field)) {
        Some(n) => within_bounds(rule, n, number),
        None => value_of_text(rule, without_blanks(field), number),
    }
}

/// Returns the value that a text without blanks at its ends spells.
fn value_of_text(rule: &FieldRule, text: &[u8], number: u32) -> Result<Value, Fault>
    ensures exact { result ≡ text_value number rule.now text.now }
    ensures fault { IfErr result IsRowsFault }
    ensures place { IfErr result (λ fault. IsTrue (located_at number fault)) }
{
    if !is_null_text(text) {
        return number_of(rule, is_minus(text), without_sign(text), number);
    }
    if rule.nullable {
        Ok(None)
    } else {
        Err(Fault::at_record(code::NULL_NOT_ALLOWED, number))
    }
}

/// Returns the number that a sign and digits spell under a rule.
fn number_of(
    rule: &FieldRule,
    is_negative: bool,
    digits: &[u8],
    number: u32,
) -> Result<Value, Fault>
    ensures exact { result ≡ number_value number rule.now is_negative digits.now }
    ensures fault { IfErr result IsRowsFault }
    ensures place { IfErr result (λ fault. IsTrue (located_at number fault)) }
{
    match number_in(is_negative, digits) {
        Some(n) => within_bounds(rule, n, number),
        None => Err(Fault::at_record(code::NOT_A_NUMBER, number)),
    }
}

/// Returns a number if it fits 64 bits and is within the rule's bounds.
fn within_bounds(rule: &FieldRule, spelled: Option<i64>, number: u32) -> Result<Value, Fault>
    ensures exact { result ≡ within_bounds number rule.now spelled }
    ensures fault { IfErr result IsRowsFault }
    ensures place { IfErr result (λ fault. IsTrue (located_at number fault)) }
{
    match spelled {
        Some(n) if rule.lo <= n && n <= rule.hi => Ok(Some(n)),
        _ => Err(Fault::at_record(code::OUT_OF_RANGE, number)),
    }
}

/// Returns whether a field without blanks is empty, or NULL in any case.
pub(crate) fn is_null_text(text: &[u8]) -> bool
    ensures { result ≡ is_null_text text.now }
{
    text.is_empty() || is_same_text(text, b"NULL")
}

/// Returns whether a text begins with a minus sign.
#[inline(always)]
pub(crate) fn is_minus(text: &[u8]) -> bool
    ensures { result ≡ is_minus text.now }
{
    !text.is_empty() && text[0] == b'-'
}

/// Returns a text without its minus sign, if it has one. There is no branch on the sign, which no
/// processor can predict.
#[inline(always)]
pub(crate) fn after_minus(text: &[u8]) -> &[u8]
    ensures { result.now ≡ after_minus text.now }
{
    &text[is_minus(text) as usize..]
}

/// Returns a text without its sign, if it has one.
pub(crate) fn without_sign(text: &[u8]) -> &[u8]
    ensures { result.now ≡ without_sign text.now }
{
    if !text.is_empty() && (text[0] == b'-' || text[0] == b'+') {
        &text[1..]
    } else {
        text
    }
}

/// Returns a field without the spaces and tabs at both ends.
pub fn without_blanks(field: &[u8]) -> &[u8]
    ensures { result.now ≡ without_blanks field.now }
{
    without_end_blanks(without_front_blanks(field))
}

fn without_front_blanks(field: &[u8]) -> &[u8]
    ensures { result.now ≡ without_front_blanks field.now }
{
    for i in 0..field.len() {
        if !is_blank(field[i]) {
            return &field[i..];
        }
    }
    &[]
}

fn without_end_blanks(field: &[u8]) -> &[u8]
    ensures { result.now ≡ without_end_blanks field.now }
{
    let mut end = field.len();
    while end > 0 && is_blank(field[end - 1]) {
        end -= 1;
    }
    &field[..end]
}

fn is_blank(c: u8) -> bool
    ensures { result ≡ is_blank c }
{
    c == b' ' || c == b'\t'
}

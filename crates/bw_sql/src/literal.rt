//! Literals: an optional sign and digits, of a number that fits 64 bits.
ghost use Rattle.std.specs.Prelude.{◌≡◌, ◌<◌, ◌≤◌, length, IfOk};
ghost use Rattle.bw_sql.specs.Reader.{ReadsFrom};
ghost use Rattle.bw_sql.specs.Reading.{literal_at, sign_at, digits_at};
ghost use Rattle.bw_sql.specs.Token.{lexemes};

use crate::reader::{Read, Refusal, Stop, after_mark};
use crate::token::{Mark, PlacedToken, Token};
use bw_text::whole_number;

/// Returns the number that a literal spells, and the tokens after it.
#[tactic(auto, unfolding(crate::specs::Reading::literal_at))]
pub fn literal<'t>(tokens: &'t [PlacedToken<'t>]) -> Read<'t, i64>
    ensures read { ReadsFrom (λ x. x) tokens.now result literal_at }
    ensures consumes_input { IfOk result (λ read. length read.1.now < length tokens.now) }
{
    let (is_negative, unsigned) = sign(tokens);
    let (digits, rest) = digits(unsigned)?;
    match whole_number(is_negative, digits) {
        Some(n) => Ok((n, rest)),
        None => Err(Stop::at(Refusal::Literal, tokens)),
    }
}

/// Returns whether a minus is first, and the tokens after the sign, if there is one.
#[tactic(auto, unfolding(crate::specs::Reading::sign_at))]
fn sign<'t>(tokens: &'t [PlacedToken<'t>]) -> (bool, &'t [PlacedToken<'t>])
    ensures is { (result.0, lexemes result.1.now) ≡ sign_at (lexemes tokens.now) }
    ensures consumes_input { length result.1.now ≤ length tokens.now }
{
    if let Some(rest) = after_mark(Mark::Minus, tokens) {
        return (true, rest);
    }
    match after_mark(Mark::Plus, tokens) {
        Some(rest) => (false, rest),
        None => (false, tokens),
    }
}

/// Reads digits, which are required here.
#[tactic(auto, unfolding(crate::specs::Reading::digits_at))]
fn digits<'t>(tokens: &'t [PlacedToken<'t>]) -> Read<'t, &'t [u8]>
    ensures read { ReadsFrom (λ text. text.now) tokens.now result digits_at }
    ensures consumes_input { IfOk result (λ read. length read.1.now < length tokens.now) }
{
    if let Some((first, rest)) = tokens.split_first()
        && let Token::Digits(text) = first.token
    {
        return Ok((text, rest));
    }
    Err(Stop::at(Refusal::Syntax, tokens))
}

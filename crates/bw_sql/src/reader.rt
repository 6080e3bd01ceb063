//! What the readers of the grammar share: each consumes some of the remaining tokens and returns
//! what it read and the tokens after it, or where and why it stopped.
ghost use Rattle.std.specs.Prelude.{◌≡◌, ◌<◌, length, IfOk, IfSome};
ghost use Rattle.std.specs.Option.{option_map};
ghost use Rattle.bw_sql.specs.declared.reader.Stop.TheVariants.{OutOfMemory};
ghost use Rattle.bw_sql.specs.Reader.{Reads, ReadsFrom, refusal_stop};
ghost use Rattle.bw_sql.specs.Reading.{after_keyword, after_mark, keyword_at, mark_at, name_at};
ghost use Rattle.bw_sql.specs.Refusal.{code_of};
ghost use Rattle.bw_sql.specs.Token.{lexemes};

use crate::token::{Mark, PlacedToken, Token};
use bw_model::code;
use bw_text::Keyword;
use std::alloc::{AllocError, AllocFailed};

/// Why a statement is rejected at a token.
#[derive(Clone, Copy, PartialEq, Eq)]
pub enum Refusal {
    Syntax,
    UnknownTable,
    UnknownColumn,
    Literal,
    MixedItems,
    Nesting,
}

impl Refusal {
    /// Returns its error number.
    pub fn code(self) -> u16
        ensures { result ≡ code_of self }
    {
        match self {
            Refusal::Syntax => code::SYNTAX,
            Refusal::UnknownTable => code::UNKNOWN_TABLE,
            Refusal::UnknownColumn => code::UNKNOWN_COLUMN,
            Refusal::Literal => code::LITERAL,
            Refusal::MixedItems => code::MIXED_ITEMS,
            Refusal::Nesting => code::NESTING,
        }
    }
}

/// Why a reader stopped.
#[derive(Clone, Copy)]
pub enum Stop {
    /// The statement is rejected at the token from which on so many are left, or at its end if none
    /// is.
    Refused { why: Refusal, left: usize },
    OutOfMemory,
}

impl Stop {
    /// Returns a refusal at the first of these tokens.
    pub fn at(why: Refusal, tokens: &[PlacedToken<'_>]) -> Self
        ensures { result ≡ refusal_stop why (length tokens.now) }
    {
        Stop::Refused {
            why,
            left: tokens.len(),
        }
    }
}

/// What a reader returns: what it read, and the tokens after it.
pub type Read<'t, T> = Result<(T, &'t [PlacedToken<'t>]), Stop>;

/// The tokens that a loop still has to read.
#[derive(Clone, Copy)]
pub struct Left<'t> {
    pub tokens: &'t [PlacedToken<'t>],
}

impl From<AllocError> for Stop {
    ghost from_gives = { λ _ stop. stop ≡ OutOfMemory };

    fn from(_error: AllocError) -> Self {
        Stop::OutOfMemory
    }
}

impl<T: Drop> From<AllocFailed<T>> for Stop {
    ghost from_gives = { λ _ stop. stop ≡ OutOfMemory };

    fn from(_error: AllocFailed<T>) -> Self {
        Stop::OutOfMemory
    }
}

/// Returns the tokens after a keyword, if it is first.
#[tactic(auto, unfolding(crate::specs::Reading::after_keyword))]
pub fn after_keyword<'t>(
    word: Keyword,
    tokens: &'t [PlacedToken<'t>],
) -> Option<&'t [PlacedToken<'t>]>
    ensures is { option_map (λ rest. lexemes rest.now) result
        ≡ after_keyword word (lexemes tokens.now) }
    ensures consumes_input { IfSome result (λ rest. length rest.now < length tokens.now) }
{
    if let Some((first, rest)) = tokens.split_first()
        && let Token::Keyword(found) = first.token
        && found == word
    {
        return Some(rest);
    }
    None
}

/// Returns the tokens after a mark, if it is first.
#[tactic(auto, unfolding(crate::specs::Reading::after_mark))]
pub fn after_mark<'t>(mark: Mark, tokens: &'t [PlacedToken<'t>]) -> Option<&'t [PlacedToken<'t>]>
    ensures is { option_map (λ rest. lexemes rest.now) result
        ≡ after_mark mark (lexemes tokens.now) }
    ensures consumes_input { IfSome result (λ rest. length rest.now < length tokens.now) }
{
    if let Some((first, rest)) = tokens.split_first()
        && let Token::Mark(found) = first.token
        && found == mark
    {
        return Some(rest);
    }
    None
}

/// Returns the tokens after a keyword, which is required here.
#[tactic(auto, unfolding(crate::specs::Reading::keyword_at))]
pub fn keyword<'t>(
    word: Keyword,
    tokens: &'t [PlacedToken<'t>],
) -> Result<&'t [PlacedToken<'t>], Stop>
    ensures read { Reads (λ rest. lexemes rest.now) result (keyword_at word (lexemes tokens.now)) }
    ensures consumes_input { IfOk result (λ rest. length rest.now < length tokens.now) }
{
    after_keyword(word, tokens).ok_or(Stop::at(Refusal::Syntax, tokens))
}

/// Returns the tokens after a mark, which is required here.
#[tactic(auto, unfolding(crate::specs::Reading::mark_at))]
pub fn mark<'t>(mark: Mark, tokens: &'t [PlacedToken<'t>]) -> Result<&'t [PlacedToken<'t>], Stop>
    ensures read { Reads (λ rest. lexemes rest.now) result (mark_at mark (lexemes tokens.now)) }
    ensures consumes_input { IfOk result (λ rest. length rest.now < length tokens.now) }
{
    after_mark(mark, tokens).ok_or(Stop::at(Refusal::Syntax, tokens))
}

/// Reads a required name, and returns it with the tokens after it.
#[tactic(auto, unfolding(crate::specs::Reading::name_at))]
pub fn name<'t>(tokens: &'t [PlacedToken<'t>]) -> Read<'t, &'t [u8]>
    ensures read { ReadsFrom (λ text. text.now) tokens.now result name_at }
    ensures consumes_input { IfOk result (λ read. length read.1.now < length tokens.now) }
{
    if let Some((first, rest)) = tokens.split_first()
        && let Token::Name(text) = first.token
    {
        return Ok((text, rest));
    }
    Err(Stop::at(Refusal::Syntax, tokens))
}

//! The tokens with which a statement can go on: those with which the parser reads on.
ghost use Rattle.std.specs.Prelude.{◌≡◌, ℕ, List, Option, IfOk, IsOkUnless, IsTrue, OnOk, ◌↔◌, ◌++◌, ◌∷◌};
ghost use Rattle.std.specs.Prelude.{[], Some, filter, slice_get};
ghost use Rattle.std.specs.Option.{option_map};
ghost use Rattle.bw_model.specs.Fault.{no_memory};
ghost use Rattle.bw_model.specs.declared.schema.Schema.{Schema};
ghost use Rattle.bw_sql.specs.declared.expected.TheConstants.{EXPECTED};
ghost use Rattle.bw_sql.specs.declared.expected.Expected.{Expected};
ghost use Rattle.bw_sql.specs.declared.expected.Expected.TheVariants.{End};
ghost use Rattle.bw_sql.specs.Cut.{IsCut, Spot};
ghost use Rattle.bw_sql.specs.Demand.{is_met};
ghost use Rattle.bw_sql.specs.Expected.{is_expected, sample, tokens_left};
ghost use Rattle.bw_sql.specs.Frontier.{Viable};
ghost use Rattle.bw_sql.specs.Grammar.{IsQuery};
ghost use Rattle.bw_sql.specs.QueryShape.{QueryShape};
ghost use Rattle.bw_sql.specs.Statement.{tokens_of};
ghost use Rattle.bw_sql.specs.Token.{Lexeme, lexeme, lexemes};

use crate::lexer::lex;
use crate::reader::Stop;
use crate::statement::statement;
use crate::token::{Mark, PlacedToken, Token};
use bw_model::{Fault, Op, Schema, code};
use bw_text::Keyword;
use std::alloc::Global;

/// What may follow the beginning of a statement: a token of a kind, or the end.
#[derive(Clone, Copy)]
pub enum Expected {
    Keyword(Keyword),
    Mark(Mark),
    Comparison,
    /// The table's name.
    Table,
    /// A column's name.
    Column,
    Digits,
    End,
}

/// All of these, in the order in which they are listed.
const EXPECTED: [Expected; 29] = [
    Expected::Keyword(Keyword::Select),
    Expected::Keyword(Keyword::Count),
    Expected::Keyword(Keyword::Sum),
    Expected::Keyword(Keyword::Min),
    Expected::Keyword(Keyword::Max),
    Expected::Keyword(Keyword::From),
    Expected::Keyword(Keyword::Where),
    Expected::Comparison,
    Expected::Keyword(Keyword::Between),
    Expected::Keyword(Keyword::In),
    Expected::Keyword(Keyword::Is),
    Expected::Keyword(Keyword::Not),
    Expected::Keyword(Keyword::Null),
    Expected::Keyword(Keyword::True),
    Expected::Keyword(Keyword::False),
    Expected::Keyword(Keyword::Unknown),
    Expected::Keyword(Keyword::And),
    Expected::Keyword(Keyword::Or),
    Expected::Table,
    Expected::Column,
    Expected::Digits,
    Expected::Mark(Mark::Plus),
    Expected::Mark(Mark::Minus),
    Expected::Mark(Mark::Star),
    Expected::Mark(Mark::Open),
    Expected::Mark(Mark::Close),
    Expected::Mark(Mark::Comma),
    Expected::Mark(Mark::Semicolon),
    Expected::End,
];

impl Expected {
    /// Returns a token of this kind: of columns the name of the first, of numbers 0. The end has
    /// none.
    fn sample(self, schema: &Schema) -> Option<Token<'_>>
        ensures { option_map lexeme result ≡ sample schema.now self }
    {
        match self {
            Expected::Keyword(word) => Some(Token::Keyword(word)),
            Expected::Mark(mark) => Some(Token::Mark(mark)),
            Expected::Comparison => Some(Token::Compare(Op::Eq)),
            Expected::Table => Some(Token::Name(schema.name.as_bytes())),
            Expected::Column => Some(Token::Name(schema.columns[0].name.as_bytes())),
            Expected::Digits => Some(Token::Digits(b"0")),
            Expected::End => None,
        }
    }
}

/// Returns what may follow the tokens of a text, up to a byte that begins none: each kind of token
/// with which some statement under the schema begins with them, and the end if they are one. A kind
/// stands for the sample that the parser reads, so names and numbers are any.
///
/// Errors: 801 if memory is refused.
pub fn expected_tokens<'a>(
    alloc: Global,
    schema: &'a Schema,
    text: &'a [u8],
) -> Result<Vec<Expected>, Fault>
    ensures listed { IfOk result (λ found. (tokens : List Spot) × (stop : Option ℕ)
        × IsCut 0 text.now tokens stop
        × (found.items ≡ filter (is_expected schema.now (tokens_of tokens)) EXPECTED)) }
    ensures only_oom { IsOkUnless result no_memory }
{
    let mut lexed = lex(alloc, text)?;
    list_expected(alloc, schema, &EXPECTED, &mut lexed.tokens)
}

/// A law: what is expected after tokens is what some statement has there, and each kind is tried.
#[tactic(auto, using(crate::proofs::Expectations::tried))]
pub fn what_is_expected_goes_on()
    ensures goes_on { (schema : Schema) (tokens : List Lexeme) (expected : Expected) (t : Lexeme)
        → sample schema expected ≡ Some t → IsTrue (is_expected schema tokens expected)
        ↔ Viable schema (is_met schema) (tokens ++ t ∷ []) }
    ensures ends { (schema : Schema) (tokens : List Lexeme)
        → IsTrue (is_expected schema tokens End)
        ↔ ((query : QueryShape) × IsQuery schema tokens query) }
    ensures tried { (expected : Expected) → (at : ℕ) × (slice_get EXPECTED at ≡ Some expected) }
{}

/// Returns which of these may follow tokens, which stay as they are.
fn list_expected<'a>(
    alloc: Global,
    schema: &'a Schema,
    kinds: &[Expected],
    tokens: &mut Vec<PlacedToken<'a>>,
) -> Result<Vec<Expected>, Fault>
    ensures listed { IfOk result (λ found. found.items
        ≡ filter (is_expected schema.now (lexemes tokens.old.items)) kinds.now) }
    ensures only_oom { IsOkUnless result no_memory }
{
    let mut found = Vec::new(alloc);
    for expected in kinds {
        if is_expected(alloc, schema, *expected, tokens)? {
            found.push(*expected)?;
        }
    }
    Ok(found)
}

/// Returns whether this may follow tokens, which stay as they are unless memory is refused.
fn is_expected<'a>(
    alloc: Global,
    schema: &'a Schema,
    expected: Expected,
    tokens: &mut Vec<PlacedToken<'a>>,
) -> Result<bool, Fault>
    ensures is { IfOk result
        (λ is. is ≡ is_expected schema.now (lexemes tokens.old.items) expected) }
    ensures same { OnOk result (tokens.new.items ≡ tokens.old.items) }
    ensures only_oom { IsOkUnless result no_memory }
{
    match expected.sample(schema) {
        None => Ok(tokens_left(alloc, schema, tokens)?.is_none()),
        Some(token) => {
            tokens.push(PlacedToken { token, at: 0 })?;
            let left = tokens_left(alloc, schema, tokens)?;
            tokens.pop();
            Ok(left.unwrap_or(0) == 0)
        }
    }
}

/// Returns how many tokens are left where the parser stops, or none if they are a statement.
fn tokens_left(
    alloc: Global,
    schema: &Schema,
    tokens: &[PlacedToken<'_>],
) -> Result<Option<usize>, Fault>
    ensures left { IfOk result (λ left. left ≡ tokens_left schema.now (lexemes tokens.now)) }
    ensures only_oom { IsOkUnless result no_memory }
{
    match statement(alloc, schema, tokens) {
        Ok(_) => Ok(None),
        Err(Stop::Refused { left, .. }) => Ok(Some(left)),
        Err(Stop::OutOfMemory) => Err(Fault::new(code::OUT_OF_MEMORY)),
    }
}

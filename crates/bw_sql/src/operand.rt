//! Operands of predicates, and the names of columns.
ghost use Rattle.std.specs.Prelude.{◌≡◌, ◌<◌, length, IfOk};
ghost use Rattle.bw_sql.specs.Reader.{ReadsFrom};
ghost use Rattle.bw_sql.specs.Reading.{operand_at, column_at, begins_with_name};
ghost use Rattle.bw_sql.specs.Token.{lexemes};

use crate::literal::literal;
use crate::reader::{Read, Refusal, Stop, after_keyword, name};
use crate::token::{PlacedToken, Token};
use bw_model::{Operand, Schema};
use bw_text::Keyword;

/// Reads a required operand: a column, a literal or NULL.
#[tactic(auto, unfolding(crate::specs::Reading::operand_at))]
pub fn operand<'t>(schema: &Schema, tokens: &'t [PlacedToken<'t>]) -> Read<'t, Operand>
    ensures read { ReadsFrom (λ x. x) tokens.now result (operand_at schema.now) }
    ensures consumes_input { IfOk result (λ read. length read.1.now < length tokens.now) }
{
    if let Some(rest) = after_keyword(Keyword::Null, tokens) {
        return Ok((Operand::Null, rest));
    }
    if begins_with_name(tokens) {
        let (column, rest) = column(schema, tokens)?;
        return Ok((Operand::Col(column), rest));
    }
    let (n, rest) = literal(tokens)?;
    Ok((Operand::Lit(n), rest))
}

/// Reads a column's name, which is required here, and returns the column's number.
#[tactic(auto, unfolding(crate::specs::Reading::column_at))]
pub fn column<'t>(schema: &Schema, tokens: &'t [PlacedToken<'t>]) -> Read<'t, usize>
    ensures read { ReadsFrom (λ x. x) tokens.now result (column_at schema.now) }
    ensures consumes_input { IfOk result (λ read. length read.1.now < length tokens.now) }
{
    let (text, rest) = name(tokens)?;
    match schema.column_named(text) {
        Some(column) => Ok((column, rest)),
        None => Err(Stop::at(Refusal::UnknownColumn, tokens)),
    }
}

/// Returns whether a name is first.
pub fn begins_with_name(tokens: &[PlacedToken<'_>]) -> bool
    ensures { result ≡ begins_with_name (lexemes tokens.now) }
{
    if let Some(first) = tokens.first()
        && let Token::Name(_) = first.token
    {
        return true;
    }
    false
}

//! Predicates:
//!
//! ```text
//! predicate = operand compare operand
//!           | operand [ NOT ] BETWEEN operand AND operand
//!           | operand [ NOT ] IN ( operand { , operand } )
//!           | operand IS [ NOT ] NULL
//! operand   = name | [ + | - ] digits | NULL
//! compare   = = | <> | < | > | <= | >=
//! ```
//!
//! The NOT forms negate the whole.
ghost use Rattle.std.specs.Prelude.{◌≡◌, ◌<◌, ◌≤◌, length, IfOk, IfSome};
ghost use Rattle.std.specs.Option.{option_map};
ghost use Rattle.bw_model.specs.CondTree.{Not, tree_of};
ghost use Rattle.bw_sql.specs.Reader.{ReadsFrom};
ghost use Rattle.bw_sql.specs.Reading.{predicate_at, predicate_of, after_comparison, null_test_at};
ghost use Rattle.bw_sql.specs.Reading.{operands_at, range_at, list_at, range_or_list_at};
ghost use Rattle.bw_sql.specs.Reading.{with_front, more_operands};
ghost use Rattle.bw_sql.specs.Token.{lexemes};

use crate::operand::operand;
use crate::reader::{Left, Read, after_keyword, after_mark, keyword, mark};
use crate::token::{Mark, PlacedToken, Token};
use bw_model::{Cond, Op, Operand, Schema};
use bw_text::Keyword;
use std::alloc::{AllocError, Global};

/// Reads a required predicate.
#[tactic(auto, unfolding(crate::specs::Reading::predicate_at, bw_model::specs::CondTree::tree_of))]
pub fn predicate<'t>(
    alloc: Global,
    schema: &Schema,
    tokens: &'t [PlacedToken<'t>],
) -> Read<'t, Cond>
    ensures read { ReadsFrom tree_of tokens.now result (predicate_at schema.now) }
    ensures consumes_input { IfOk result (λ read. length read.1.now ≤ length tokens.now) }
{
    let (x, rest) = operand(schema, tokens)?;
    predicate_of(alloc, schema, x, rest)
}

/// Reads the rest of a predicate, after its first operand.
#[tactic(auto, unfolding(bw_model::specs::CondTree::tree_of))]
fn predicate_of<'t>(
    alloc: Global,
    schema: &Schema,
    x: Operand,
    tokens: &'t [PlacedToken<'t>],
) -> Read<'t, Cond>
    ensures read { ReadsFrom tree_of tokens.now result (predicate_of schema.now x) }
    ensures consumes_input { IfOk result (λ read. length read.1.now ≤ length tokens.now) }
{
    if let Some((op, next)) = after_comparison(tokens) {
        let (y, rest) = operand(schema, next)?;
        return Ok((Cond::Cmp(op, x, y), rest));
    }
    if let Some(next) = after_keyword(Keyword::Is, tokens) {
        return null_test(alloc, x, next);
    }
    if let Some(next) = after_keyword(Keyword::Not, tokens) {
        let (cond, rest) = range_or_list(alloc, schema, x, next)?;
        return Ok((negation(alloc, cond)?, rest));
    }
    range_or_list(alloc, schema, x, tokens)
}

/// Returns the comparison that is first, and the tokens after it.
#[tactic(auto, unfolding(crate::specs::Reading::after_comparison))]
fn after_comparison<'t>(tokens: &'t [PlacedToken<'t>]) -> Option<(Op, &'t [PlacedToken<'t>])>
    ensures is { option_map (λ found. (found.0, lexemes found.1.now)) result
        ≡ after_comparison (lexemes tokens.now) }
    ensures consumes_input { IfSome result (λ found. length found.1.now < length tokens.now) }
{
    if let Some((first, rest)) = tokens.split_first()
        && let Token::Compare(op) = first.token
    {
        return Some((op, rest));
    }
    None
}

/// Returns the negation of a condition.
#[tactic(auto, unfolding(bw_model::specs::CondTree::tree_of))]
pub fn negation(alloc: Global, cond: Cond) -> Result<Cond, AllocError>
    ensures { IfOk result (λ negated. tree_of negated ≡ Not (tree_of cond)) }
{
    Ok(Cond::Not(Box::new(alloc, cond)?))
}

/// Reads `[ NOT ] NULL`, which is required here, and returns the test for null.
#[tactic(auto, unfolding(crate::specs::Reading::null_test_at, bw_model::specs::CondTree::tree_of))]
fn null_test<'t>(alloc: Global, x: Operand, tokens: &'t [PlacedToken<'t>]) -> Read<'t, Cond>
    ensures read { ReadsFrom tree_of tokens.now result (null_test_at x) }
    ensures consumes_input { IfOk result (λ read. length read.1.now ≤ length tokens.now) }
{
    if let Some(next) = after_keyword(Keyword::Not, tokens) {
        let rest = keyword(Keyword::Null, next)?;
        return Ok((negation(alloc, Cond::IsNull(x))?, rest));
    }
    let rest = keyword(Keyword::Null, tokens)?;
    Ok((Cond::IsNull(x), rest))
}

/// Reads what follows an operand: a range after BETWEEN, or a list after IN.
#[tactic(auto, unfolding(crate::specs::Reading::range_or_list_at))]
fn range_or_list<'t>(
    alloc: Global,
    schema: &Schema,
    x: Operand,
    tokens: &'t [PlacedToken<'t>],
) -> Read<'t, Cond>
    ensures read { ReadsFrom tree_of tokens.now result (range_or_list_at schema.now x) }
    ensures consumes_input { IfOk result (λ read. length read.1.now ≤ length tokens.now) }
{
    match after_keyword(Keyword::Between, tokens) {
        Some(next) => range(schema, x, next),
        None => list(alloc, schema, x, tokens),
    }
}

/// Reads the bounds of an operand's range, which are required here.
#[tactic(auto, unfolding(bw_model::specs::CondTree::tree_of))]
fn range<'t>(schema: &Schema, x: Operand, tokens: &'t [PlacedToken<'t>]) -> Read<'t, Cond>
    ensures read { ReadsFrom tree_of tokens.now result (range_at schema.now x) }
    ensures consumes_input { IfOk result (λ read. length read.1.now ≤ length tokens.now) }
{
    let (low, rest) = operand(schema, tokens)?;
    let rest = keyword(Keyword::And, rest)?;
    let (high, rest) = operand(schema, rest)?;
    Ok((Cond::Between(x, low, high), rest))
}

/// Reads the list in brackets after IN, which is required here.
#[tactic(auto, unfolding(bw_model::specs::CondTree::tree_of))]
fn list<'t>(
    alloc: Global,
    schema: &Schema,
    x: Operand,
    tokens: &'t [PlacedToken<'t>],
) -> Read<'t, Cond>
    ensures read { ReadsFrom tree_of tokens.now result (list_at schema.now x) }
    ensures consumes_input { IfOk result (λ read. length read.1.now ≤ length tokens.now) }
{
    let rest = keyword(Keyword::In, tokens)?;
    let rest = mark(Mark::Open, rest)?;
    let (items, rest) = operands(alloc, schema, rest)?;
    let rest = mark(Mark::Close, rest)?;
    Ok((Cond::Among(x, items), rest))
}

/// Reads a required operand and those after it, each behind a comma.
fn operands<'t>(
    alloc: Global,
    schema: &Schema,
    tokens: &'t [PlacedToken<'t>],
) -> Read<'t, Vec<Operand>>
    ensures read { ReadsFrom (λ xs. xs.items) tokens.now result (operands_at schema.now) }
    ensures consumes_input { IfOk result (λ read. length read.1.now ≤ length tokens.now) }
{
    let (first, rest) = operand(schema, tokens)?;
    more_operands(schema, vec![in alloc; first]?, rest)
}

/// Reads further operands, each behind a comma, and returns them with those before.
fn more_operands<'t>(
    schema: &Schema,
    mut items: Vec<Operand>,
    tokens: &'t [PlacedToken<'t>],
) -> Read<'t, Vec<Operand>>
    ensures read { ReadsFrom (λ xs. xs.items) tokens.now result
        (λ tokens. with_front items.items (more_operands schema.now tokens)) }
    ensures consumes_input { IfOk result (λ read. length read.1.now ≤ length tokens.now) }
{
    let mut left = Left { tokens };
    while let Some(next) = after_mark(Mark::Comma, left.tokens) {
        let (item, after) = operand(schema, next)?;
        items.push(item)?;
        left = Left { tokens: after };
    }
    Ok((items, left.tokens))
}

//! Search conditions:
//!
//! ```text
//! cond    = term { OR term }
//! term    = factor { AND factor }
//! factor  = [ NOT ] test
//! test    = primary [ IS [ NOT ] ( TRUE | FALSE | UNKNOWN ) ]
//! primary = ( cond ) | predicate
//! ```
//!
//! A single part isn't wrapped. Each `(` and each NOT is a level of nesting; `levels` counts those
//! that are still allowed.
ghost use Rattle.std.specs.Prelude.{◌≡◌, ◌<◌, ◌≤◌, length, map, IfOk};
ghost use Rattle.bw_model.specs.CondTree.{Test, tree_of, trees_of};
ghost use Rattle.bw_sql.specs.Reader.{ReadsFrom};
ghost use Rattle.bw_sql.specs.Reading.{condition_in, factor_in, joined_in, more_parts_in};
ghost use Rattle.bw_sql.specs.Reading.{nested_readers, part_in, primary_in, test_in, truth_test_at};
ghost use Rattle.bw_sql.specs.Reading.{truth_value_at, value_test_at, with_front};
ghost use Rattle.bw_sql.specs.Token.{lexemes};
ghost use Rattle.bw_sql.specs.Words.{join_of, word_of};

use crate::predicate::{negation, predicate};
use crate::reader::{Left, Read, Refusal, Stop, after_keyword, after_mark, mark};
use crate::token::{Mark, PlacedToken};
use bw_model::{Cond, Junction, Schema, Truth};
use bw_text::Keyword;
use std::alloc::{AllocError, Global};

/// Returns the word between joined parts.
fn keyword(junction: Junction) -> Keyword
    ensures { result ≡ word_of junction }
{
    match junction {
        Junction::All => Keyword::And,
        Junction::Any => Keyword::Or,
    }
}

/// Returns the condition of two or more parts.
#[tactic(auto, unfolding(bw_model::specs::CondTree::tree_of))]
fn join(junction: Junction, parts: Vec<Cond>) -> Cond
    ensures { tree_of result ≡ join_of junction (trees_of (map tree_of parts.items)) }
{
    match junction {
        Junction::All => Cond::And(parts),
        Junction::Any => Cond::Or(parts),
    }
}

/// Reads a condition, which is required here.
#[cycle(condition)]
#[tactic(auto, unfolding(crate::specs::Reading::condition_in))]
pub fn condition<'t>(
    alloc: Global,
    schema: &Schema,
    levels: usize,
    tokens: &'t [PlacedToken<'t>],
) -> Read<'t, Cond>
    ensures read { ReadsFrom tree_of tokens.now result
        (condition_in schema.now (nested_readers schema.now levels)) }
    ensures consumes_input { IfOk result (λ read. length read.1.now ≤ length tokens.now) }
{
    read_connected(alloc, schema, levels, Junction::Any, tokens)
}

/// Reads a required part and those after it, each behind the word that joins them: a condition of
/// terms, or a term of factors.
#[cycle(condition)]
#[tactic(auto, unfolding(crate::specs::Reading::joined_in))]
fn read_connected<'t>(
    alloc: Global,
    schema: &Schema,
    levels: usize,
    junction: Junction,
    tokens: &'t [PlacedToken<'t>],
) -> Read<'t, Cond>
    ensures read { ReadsFrom tree_of tokens.now result
        (joined_in schema.now (nested_readers schema.now levels) junction) }
    ensures consumes_input { IfOk result (λ read. length read.1.now ≤ length tokens.now) }
{
    let (first, rest) = part(alloc, schema, levels, junction, tokens)?;
    if after_keyword(keyword(junction), rest).is_none() {
        return Ok((first, rest));
    }
    let parts = vec![in alloc; first]?;
    let (parts, rest) = more_parts(alloc, schema, levels, junction, parts, rest)?;
    Ok((join(junction, parts), rest))
}

/// Reads further parts, each behind the word that joins them, and returns them with those before.
#[cycle(condition)]
fn more_parts<'t>(
    alloc: Global,
    schema: &Schema,
    levels: usize,
    junction: Junction,
    mut parts: Vec<Cond>,
    tokens: &'t [PlacedToken<'t>],
) -> Read<'t, Vec<Cond>>
    ensures read { ReadsFrom (λ parts. map tree_of parts.items) tokens.now result
        (λ tokens. with_front (map tree_of parts.items)
        (more_parts_in schema.now (nested_readers schema.now levels) junction tokens)) }
    ensures consumes_input { IfOk result (λ read. length read.1.now ≤ length tokens.now) }
{
    let mut left = Left { tokens };
    while let Some(next) = after_keyword(keyword(junction), left.tokens) {
        let (another, after) = part(alloc, schema, levels, junction, next)?;
        parts.push(another)?;
        left = Left { tokens: after };
    }
    Ok((parts, left.tokens))
}

/// Reads a required part: a factor of a term, or a term of a condition.
#[cycle(condition)]
#[tactic(auto, unfolding(crate::specs::Reading::part_in, crate::specs::Reading::joined_in))]
fn part<'t>(
    alloc: Global,
    schema: &Schema,
    levels: usize,
    junction: Junction,
    tokens: &'t [PlacedToken<'t>],
) -> Read<'t, Cond>
    ensures read { ReadsFrom tree_of tokens.now result
        (part_in schema.now (nested_readers schema.now levels) junction) }
    ensures consumes_input { IfOk result (λ read. length read.1.now ≤ length tokens.now) }
{
    match junction {
        Junction::All => factor(alloc, schema, levels, tokens),
        Junction::Any => read_connected(alloc, schema, levels, Junction::All, tokens),
    }
}

/// Reads a required factor.
#[cycle(condition)]
#[tactic(auto, unfolding(crate::specs::Reading::factor_in, bw_model::specs::CondTree::tree_of))]
fn factor<'t>(
    alloc: Global,
    schema: &Schema,
    levels: usize,
    tokens: &'t [PlacedToken<'t>],
) -> Read<'t, Cond>
    ensures read { ReadsFrom tree_of tokens.now result
        (factor_in schema.now (nested_readers schema.now levels)) }
    ensures consumes_input { IfOk result (λ read. length read.1.now ≤ length tokens.now) }
{
    let Some(next) = after_keyword(Keyword::Not, tokens) else {
        return test(alloc, schema, levels, tokens);
    };
    if levels == 0 {
        return Err(Stop::at(Refusal::Nesting, tokens));
    }
    let (cond, rest) = test(alloc, schema, levels - 1, next)?;
    Ok((negation(alloc, cond)?, rest))
}

/// Reads a required test.
#[cycle(condition)]
#[tactic(auto, unfolding(crate::specs::Reading::test_in, bw_model::specs::CondTree::tree_of))]
fn test<'t>(
    alloc: Global,
    schema: &Schema,
    levels: usize,
    tokens: &'t [PlacedToken<'t>],
) -> Read<'t, Cond>
    ensures read { ReadsFrom tree_of tokens.now result
        (test_in schema.now (nested_readers schema.now levels)) }
    ensures consumes_input { IfOk result (λ read. length read.1.now ≤ length tokens.now) }
{
    let (cond, rest) = primary(alloc, schema, levels, tokens)?;
    truth_test(alloc, cond, rest)
}

/// Returns the condition, or a test of its truth value if IS follows.
#[tactic(auto, unfolding(crate::specs::Reading::truth_test_at, bw_model::specs::CondTree::tree_of))]
fn truth_test<'t>(alloc: Global, cond: Cond, tokens: &'t [PlacedToken<'t>]) -> Read<'t, Cond>
    ensures read { ReadsFrom tree_of tokens.now result (truth_test_at (tree_of cond)) }
    ensures consumes_input { IfOk result (λ read. length read.1.now ≤ length tokens.now) }
{
    let Some(next) = after_keyword(Keyword::Is, tokens) else {
        return Ok((cond, tokens));
    };
    let Some(after) = after_keyword(Keyword::Not, next) else {
        return value_test(alloc, cond, next);
    };
    let (found, rest) = value_test(alloc, cond, after)?;
    Ok((negation(alloc, found)?, rest))
}

/// Reads a truth value's word, which is required here, and returns the test for it.
fn value_test<'t>(alloc: Global, cond: Cond, tokens: &'t [PlacedToken<'t>]) -> Read<'t, Cond>
    ensures read { ReadsFrom tree_of tokens.now result (value_test_at (tree_of cond)) }
    ensures consumes_input { IfOk result (λ read. length read.1.now ≤ length tokens.now) }
{
    let (t, rest) = truth_value(tokens)?;
    Ok((test_condition(alloc, cond, t)?, rest))
}

/// Returns the test whether a condition has a truth value.
#[tactic(auto, unfolding(bw_model::specs::CondTree::tree_of))]
fn test_condition(alloc: Global, cond: Cond, t: Truth) -> Result<Cond, AllocError>
    ensures { IfOk result (λ tested. tree_of tested ≡ Test (tree_of cond) t) }
{
    Ok(Cond::Test(Box::new(alloc, cond)?, t))
}

/// Reads a truth value's word, which is required here.
#[tactic(auto, unfolding(crate::specs::Reading::truth_value_at))]
fn truth_value<'t>(tokens: &'t [PlacedToken<'t>]) -> Read<'t, Truth>
    ensures read { ReadsFrom (λ x. x) tokens.now result truth_value_at }
    ensures consumes_input { IfOk result (λ read. length read.1.now < length tokens.now) }
{
    if let Some(rest) = after_keyword(Keyword::True, tokens) {
        return Ok((Truth::Yes, rest));
    }
    if let Some(rest) = after_keyword(Keyword::False, tokens) {
        return Ok((Truth::No, rest));
    }
    if let Some(rest) = after_keyword(Keyword::Unknown, tokens) {
        return Ok((Truth::Unknown, rest));
    }
    Err(Stop::at(Refusal::Syntax, tokens))
}

/// Reads a required predicate, or a condition in brackets.
#[cycle(condition)]
#[tactic(auto, unfolding(crate::specs::Reading::primary_in, bw_model::specs::CondTree::tree_of))]
fn primary<'t>(
    alloc: Global,
    schema: &Schema,
    levels: usize,
    tokens: &'t [PlacedToken<'t>],
) -> Read<'t, Cond>
    ensures read { ReadsFrom tree_of tokens.now result
        (primary_in schema.now (nested_readers schema.now levels)) }
    ensures consumes_input { IfOk result (λ read. length read.1.now ≤ length tokens.now) }
{
    let Some(next) = after_mark(Mark::Open, tokens) else {
        return predicate(alloc, schema, tokens);
    };
    if levels == 0 {
        return Err(Stop::at(Refusal::Nesting, tokens));
    }
    let (cond, rest) = condition(alloc, schema, levels - 1, next)?;
    let rest = mark(Mark::Close, rest)?;
    Ok((cond, rest))
}

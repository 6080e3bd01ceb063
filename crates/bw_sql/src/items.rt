//! The select list:
//!
//! ```text
//! list = * | item { , item }
//! item = name | COUNT ( * ) | ( COUNT | SUM | MIN | MAX ) ( name )
//! ```
//!
//! The items of a list are all columns or all aggregates.
ghost use Rattle.std.specs.Prelude.{is_some, ◌≡◌, ◌<◌, length, IfOk, IfSome};
ghost use Rattle.std.specs.Option.{option_map};
ghost use Rattle.bw_sql.specs.Demand.{every_column};
ghost use Rattle.bw_sql.specs.Reader.{Reads, ReadsFrom};
ghost use Rattle.bw_sql.specs.Reading.{after_aggregate, aggregated_at, argument_at};
ghost use Rattle.bw_sql.specs.Reading.{begins_with_name, item_at, items_at, more_items};
ghost use Rattle.bw_sql.specs.Reading.{next_item_at, of_one_kind, with_front};
ghost use Rattle.bw_sql.specs.Token.{lexemes};
ghost use Rattle.bw_sql.specs.Words.{of_column};

use crate::operand::{begins_with_name, column};
use crate::reader::{Left, Read, Refusal, Stop, after_keyword, after_mark, mark};
use crate::token::{Mark, PlacedToken};
use bw_model::{Item, Schema};
use bw_text::Keyword;
use std::alloc::{AllocError, Global};

/// Reads the select list, which is required here.
#[tactic(auto, unfolding(crate::specs::Reading::items_at))]
pub fn items<'t>(
    alloc: Global,
    schema: &Schema,
    tokens: &'t [PlacedToken<'t>],
) -> Read<'t, Vec<Item>>
    ensures { ReadsFrom (λ xs. xs.items) tokens.now result (items_at schema.now) }
{
    if let Some(rest) = after_mark(Mark::Star, tokens) {
        return Ok((every_column(alloc, schema)?, rest));
    }
    let (first, rest) = item(schema, tokens)?;
    let are_columns = begins_with_name(tokens);
    more_items(schema, are_columns, vec![in alloc; first]?, rest)
}

/// Returns every column, in the order of the schema.
fn every_column(alloc: Global, schema: &Schema) -> Result<Vec<Item>, AllocError>
    ensures { IfOk result (λ items. items.items ≡ every_column schema.now.columns.items) }
{
    (0..schema.columns.len())
        .map(|column| Item::Plain(column))
        .collect(alloc)
}

/// Reads further items, each behind a comma and all of one kind, and returns them with those
/// before.
fn more_items<'t>(
    schema: &Schema,
    are_columns: bool,
    mut items: Vec<Item>,
    tokens: &'t [PlacedToken<'t>],
) -> Read<'t, Vec<Item>>
    ensures { ReadsFrom (λ xs. xs.items) tokens.now result
        (λ tokens. with_front items.items (more_items schema.now are_columns tokens)) }
{
    let mut left = Left { tokens };
    while let Some(next) = after_mark(Mark::Comma, left.tokens) {
        let (item, after) = next_item(schema, are_columns, next)?;
        items.push(item)?;
        left = Left { tokens: after };
    }
    Ok((items, left.tokens))
}

/// Reads a required item of this kind.
#[tactic(auto, unfolding(crate::specs::Reading::next_item_at))]
fn next_item<'t>(
    schema: &Schema,
    are_columns: bool,
    tokens: &'t [PlacedToken<'t>],
) -> Read<'t, Item>
    ensures read { ReadsFrom (λ x. x) tokens.now result (next_item_at schema.now are_columns) }
    ensures consumes_input { IfOk result (λ read. length read.1.now < length tokens.now) }
{
    of_one_kind(schema, are_columns, tokens)?;
    item(schema, tokens)
}

/// Rejects an item that begins like one of the other kind. Its first token determines the kind; a
/// column that isn't the schema's is the earlier error.
#[tactic(auto, unfolding(crate::specs::Reading::of_one_kind))]
fn of_one_kind(schema: &Schema, are_columns: bool, tokens: &[PlacedToken<'_>]) -> Result<(), Stop>
    ensures { Reads (λ same. same) result
        (of_one_kind schema.now are_columns (lexemes tokens.now)) }
{
    if begins_with_name(tokens) {
        if are_columns {
            return Ok(());
        }
        column(schema, tokens)?;
        return Err(Stop::at(Refusal::MixedItems, tokens));
    }
    if are_columns && after_aggregate(tokens).is_some() {
        return Err(Stop::at(Refusal::MixedItems, tokens));
    }
    Ok(())
}

/// Returns an aggregate of a column.
#[derive(Clone, Copy, PartialEq, Eq)]
enum Aggregate {
    Count,
    Sum,
    Min,
    Max,
}

/// Returns the aggregate whose word is first, and the tokens after it.
#[tactic(auto, unfolding(crate::specs::Reading::after_aggregate))]
fn after_aggregate<'t>(tokens: &'t [PlacedToken<'t>]) -> Option<(Aggregate, &'t [PlacedToken<'t>])>
    ensures is { option_map (λ found. (found.0, lexemes found.1.now)) result
        ≡ after_aggregate (lexemes tokens.now) }
    ensures consumes_input { IfSome result (λ found. length found.1.now < length tokens.now) }
{
    if let Some(rest) = after_keyword(Keyword::Count, tokens) {
        return Some((Aggregate::Count, rest));
    }
    if let Some(rest) = after_keyword(Keyword::Sum, tokens) {
        return Some((Aggregate::Sum, rest));
    }
    if let Some(rest) = after_keyword(Keyword::Min, tokens) {
        return Some((Aggregate::Min, rest));
    }
    let rest = after_keyword(Keyword::Max, tokens)?;
    Some((Aggregate::Max, rest))
}

/// Reads a required item.
#[tactic(auto, unfolding(crate::specs::Reading::item_at))]
fn item<'t>(schema: &Schema, tokens: &'t [PlacedToken<'t>]) -> Read<'t, Item>
    ensures read { ReadsFrom (λ x. x) tokens.now result (item_at schema.now) }
    ensures consumes_input { IfOk result (λ read. length read.1.now < length tokens.now) }
{
    if begins_with_name(tokens) {
        let (column, rest) = column(schema, tokens)?;
        return Ok((Item::Plain(column), rest));
    }
    match after_aggregate(tokens) {
        Some((aggregate, rest)) => argument(schema, aggregate, rest),
        None => Err(Stop::at(Refusal::Syntax, tokens)),
    }
}

/// Reads an aggregate's argument in brackets, which is required here.
fn argument<'t>(
    schema: &Schema,
    aggregate: Aggregate,
    tokens: &'t [PlacedToken<'t>],
) -> Read<'t, Item>
    ensures read { ReadsFrom (λ x. x) tokens.now result (argument_at schema.now aggregate) }
    ensures consumes_input { IfOk result (λ read. length read.1.now < length tokens.now) }
{
    let rest = mark(Mark::Open, tokens)?;
    let (item, rest) = read_aggregate(schema, aggregate, rest)?;
    let rest = mark(Mark::Close, rest)?;
    Ok((item, rest))
}

/// Reads an aggregate's argument: a column, or for COUNT also `*`.
#[tactic(auto, unfolding(crate::specs::Reading::aggregated_at))]
fn read_aggregate<'t>(
    schema: &Schema,
    aggregate: Aggregate,
    tokens: &'t [PlacedToken<'t>],
) -> Read<'t, Item>
    ensures read { ReadsFrom (λ x. x) tokens.now result (aggregated_at schema.now aggregate) }
    ensures consumes_input { IfOk result (λ read. length read.1.now < length tokens.now) }
{
    if aggregate == Aggregate::Count
        && let Some(rest) = after_mark(Mark::Star, tokens)
    {
        return Ok((Item::CountAll, rest));
    }
    let (column, rest) = column(schema, tokens)?;
    Ok((of_column(aggregate, column), rest))
}

fn of_column(aggregate: Aggregate, column: usize) -> Item
    ensures { result ≡ of_column aggregate column }
{
    match aggregate {
        Aggregate::Count => Item::Count(column),
        Aggregate::Sum => Item::Sum(column),
        Aggregate::Min => Item::Min(column),
        Aggregate::Max => Item::Max(column),
    }
}

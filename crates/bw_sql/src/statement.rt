//! The grammar of a statement:
//!
//! ```text
//! query = SELECT list FROM name [ WHERE cond ] [ ; ]
//! ```
ghost use Rattle.std.specs.Prelude.{◌<◌};
ghost use Rattle.bw_sql.specs.Reader.{Reads, ReadsFrom};
ghost use Rattle.bw_model.specs.CondTree.{tree_of};
ghost use Rattle.bw_sql.specs.QueryShape.{query_shape};
ghost use Rattle.bw_sql.specs.Reading.{end_at, selection_at, statement_at, table_at};
ghost use Rattle.bw_sql.specs.Reading.{table_expression_at};
ghost use Rattle.bw_sql.specs.Token.{lexemes};

use crate::condition::condition;
use crate::items::items;
use crate::reader::{Read, Refusal, Stop, after_keyword, after_mark, keyword, name};
use crate::token::{Mark, PlacedToken};
use bw_model::{Cond, Query, Schema};
use bw_text::Keyword;
use std::alloc::Global;

/// The maximal depth of nested brackets and NOTs.
const MAX_NESTING: usize = 100;

/// Returns the query that all tokens spell under a schema.
#[tactic(auto, unfolding(crate::specs::Reading::statement_at))]
pub fn statement(alloc: Global, schema: &Schema, tokens: &[PlacedToken<'_>]) -> Result<Query, Stop>
    ensures { Reads query_shape result (statement_at schema.now (lexemes tokens.now)) }
{
    let rest = keyword(Keyword::Select, tokens)?;
    let (items, rest) = items(alloc, schema, rest)?;
    let (cond, rest) = table_expression(alloc, schema, rest)?;
    end(rest)?;
    Ok(Query { items, cond })
}

/// Reads the table after FROM, and the condition on its rows.
#[tactic(auto, unfolding(crate::specs::Reading::table_expression_at))]
fn table_expression<'t>(
    alloc: Global,
    schema: &Schema,
    tokens: &'t [PlacedToken<'t>],
) -> Read<'t, Cond>
    ensures { ReadsFrom tree_of tokens.now result (table_expression_at schema.now) }
{
    let rest = keyword(Keyword::From, tokens)?;
    let rest = table(schema, rest)?;
    selection(alloc, schema, rest)
}

/// Returns the tokens after the schema's name, which is required here.
#[tactic(auto, unfolding(crate::specs::Reading::table_at))]
fn table<'t>(schema: &Schema, tokens: &'t [PlacedToken<'t>]) -> Result<&'t [PlacedToken<'t>], Stop>
    ensures { Reads (λ rest. lexemes rest.now) result (table_at schema.now (lexemes tokens.now)) }
{
    let (text, rest) = name(tokens)?;
    if schema.name.is(text) {
        Ok(rest)
    } else {
        Err(Stop::at(Refusal::UnknownTable, tokens))
    }
}

/// Reads the condition after WHERE. Without WHERE all rows match.
#[tactic(auto, unfolding(crate::specs::Reading::selection_at, bw_model::specs::CondTree::tree_of))]
fn selection<'t>(alloc: Global, schema: &Schema, tokens: &'t [PlacedToken<'t>]) -> Read<'t, Cond>
    ensures { ReadsFrom tree_of tokens.now result (selection_at schema.now) }
{
    match after_keyword(Keyword::Where, tokens) {
        None => Ok((Cond::Always, tokens)),
        Some(rest) => condition(alloc, schema, MAX_NESTING, rest),
    }
}

/// Reads the end of a statement, after an optional semicolon.
#[tactic(auto, unfolding(crate::specs::Reading::end_at))]
fn end(tokens: &[PlacedToken<'_>]) -> Result<(), Stop>
    ensures { Reads (λ ended. ended) result (end_at (lexemes tokens.now)) }
{
    let rest = after_mark(Mark::Semicolon, tokens).unwrap_or(tokens);
    if rest.is_empty() {
        Ok(())
    } else {
        Err(Stop::at(Refusal::Syntax, rest))
    }
}

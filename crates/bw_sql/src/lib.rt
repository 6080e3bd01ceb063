//! The parser of the query language, a profile of SQL-92.
//!
//! Crates above use the contract of [`parse`]. A text is cut into tokens in one way, the longest
//! piece first (`specs/Cut.antt`, [`one_cut`]). It is parsed exactly if it isn't too long and its
//! tokens spell a query by the grammar, a relation by cases without a parser
//! (`specs/Grammar.antt`), and to that query, unless memory runs out. A list of tokens spells at
//! most one query ([`one_query`]). Any other text fails with its error: that it is too long, or
//! else the first token with which no statement can go on under the demands of the error's number
//! (`specs/Frontier.antt`). A text has at most one error, and none if it spells a query
//! ([`one_fault`]); it has one if it spells none ([`query_or_fault`]). A parsed query names only
//! columns of the schema, and its lists are as long as `bw_model` requires.
//!
//! The readers are proved against reading functions on lists of tokens (`specs/Reading.antt`),
//! which read what the grammar spells and nothing else ([`read_as_spelled`]).
//!
//! Read `token.rt` first, then the grammar in `statement.rt`, `items.rt`, `condition.rt` and
//! `predicate.rt`.
#![tactic(auto)]

ghost use Rattle.std.specs.Prelude.{List, ℕ, Option, ◌≡◌, ◌<◌, ◌≤◌, length, IfOk, IfErr, IsTrue};
ghost use Rattle.std.specs.Prelude.{IsOkUnless, vec_len};
ghost use Rattle.std.specs.List.{list_all};
ghost use Rattle.bw_model.specs.FaultTable.{STATEMENT_TOO_LONG};
ghost use Rattle.bw_model.specs.Fault.{at_byte, no_memory};
ghost use Rattle.bw_model.specs.Cond.{names_within, is_whole};
ghost use Rattle.bw_model.specs.SchemaText.{schema_shape};
ghost use Rattle.bw_model.specs.FaultPlaces.{StandsAsListed};
ghost use Rattle.bw_model.specs.Total.{item_within};
ghost use Rattle.bw_sql.specs.QueryShape.{QueryShape};
ghost use Rattle.bw_sql.specs.Cut.{IsCut, Spot, spots};
ghost use Rattle.bw_sql.specs.Grammar.{IsQuery};
ghost use Rattle.bw_sql.specs.Items.{AreOfOneKind};
ghost use Rattle.bw_sql.specs.Verdict.{Answers, IsFaultOf};
ghost use Rattle.bw_sql.specs.Limits.{longest_statement};
ghost use Rattle.bw_sql.specs.Reading.{statement_at};
ghost use Rattle.bw_sql.specs.Refusal.{IsStatementFault};
ghost use Rattle.bw_sql.specs.Statement.{IsFault, SpellsOrFails, Parses, Spells};
ghost use Rattle.bw_sql.specs.Token.{Lexeme};

mod condition;
mod expected;
mod items;
mod lexer;
mod literal;
mod operand;
mod predicate;
mod reader;
mod statement;
mod token;

use crate::lexer::{Lexed, lex};
use crate::reader::Stop;
use crate::statement::statement;
use bw_model::{Fault, Query, Schema, code};
pub use expected::{Expected, expected_tokens, what_is_expected_goes_on};
pub use lexer::has_no_token;
use std::alloc::Global;
pub use token::Mark;

/// The maximal length of a statement, in bytes.
pub const MAX_LEN: usize = 65_536;

/// Returns the query that a statement spells under a schema. Names match the schema's, ignoring the
/// case of ASCII letters.
///
/// Errors: more than 65,536 bytes (407, at byte 65536). Else the error at the lowest byte, and
/// there the lowest number: a byte that is part of no token, blank or comment (401); a token with
/// which no query can go on, or the end of an unfinished query (402); a table (403) or column (404)
/// that isn't the schema's; a literal that 64 bits don't hold (405, at its sign or first digit); an
/// item of another kind than the first (406, at its first token); a bracket or NOT nested more than
/// 100 deep (408). 801 if memory runs out.
pub fn parse(alloc: Global, schema: &Schema, text: &[u8]) -> Result<Query, Fault>
    ensures read { Parses schema.now text.now result }
    ensures refused { (query : QueryShape) → Spells schema.now text.now query
        → IsOkUnless result no_memory }
    ensures too_long { longest_statement < length text.now
        → result ≡ Err (at_byte STATEMENT_TOO_LONG longest_statement) }
    ensures columns { IfOk result (λ query.
        IsTrue (names_within (vec_len schema.now.columns) query.cond)) }
    ensures whole { IfOk result (λ query. IsTrue (is_whole query.cond)) }
    ensures items { IfOk result (λ query.
        IsTrue (list_all (item_within (vec_len schema.now.columns)) query.items.items)) }
    ensures nonempty { IfOk result (λ query. 1 ≤ length query.items.items) }
    ensures kinds { IfOk result (λ query. AreOfOneKind query.items.items) }
    ensures fault { IfErr result IsStatementFault }
{
    read(alloc, schema, text)
}

/// Returns the query that a statement is read as, or the error at which reading stopped.
fn read(alloc: Global, schema: &Schema, text: &[u8]) -> Result<Query, Fault>
    ensures too_long { longest_statement < length text.now
        → result ≡ Err (at_byte STATEMENT_TOO_LONG longest_statement) }
    ensures exact { length text.now ≤ longest_statement → Answers schema.now text.now result }
    ensures fault { IfErr result IsStatementFault }
{
    if text.len() > MAX_LEN {
        return Err(Fault::at_byte(code::STATEMENT_TOO_LONG, MAX_LEN as u64));
    }
    let lexed = lex(alloc, text)?;
    match statement(alloc, schema, lexed.tokens.as_slice()) {
        Err(stop) => Err(refusal(stop, &lexed, text)),
        Ok(query) => match lexed.stopped {
            Some(at) => Err(Fault::at_byte(code::CHARACTER, at as u64)),
            None => Ok(query),
        },
    }
}

/// A law: a text is cut into tokens in one way.
#[tactic(auto, using(crate::proofs::Cuts::one_cut_of))]
pub fn one_cut()
    ensures { (at : ℕ) (text : List ℕ) (tokens others : List Spot) (stop other : Option ℕ)
        → IsCut at text tokens stop → IsCut at text others other
        → (tokens ≡ others) × (stop ≡ other) }
{}

/// A law: the reading functions read a query from the tokens that spell it, and no other.
#[tactic(auto, using(crate::proofs::Spelled::query_read, crate::proofs::Texts::query_spelled))]
pub fn read_as_spelled()
    ensures read { (schema : Schema) (tokens : List Lexeme) (query : QueryShape)
        → IsQuery schema tokens query → statement_at schema tokens ≡ Ok query }
    ensures spelled { (schema : Schema) (tokens : List Lexeme) (query : QueryShape)
        → statement_at schema tokens ≡ Ok query → IsQuery schema tokens query }
{}

/// A law: a list of tokens spells at most one query.
#[tactic(auto, using(crate::proofs::Texts::same_query))]
pub fn one_query()
    ensures { (schema : Schema) (tokens : List Lexeme) (query other : QueryShape)
        → IsQuery schema tokens query → IsQuery schema tokens other → query ≡ other }
{}

/// A law: a text spells at most one query.
pub fn one_query_of_a_text()
    ensures { (schema : Schema) (text : List ℕ) (query other : QueryShape)
        → Spells schema text query → Spells schema text other → query ≡ other }
{}

/// A law: schemas of one shape have the same columns, and a text spells the same query under
/// both.
#[tactic(auto, using(crate::proofs::SameNames::columns_too, crate::proofs::SameNames::spells_too))]
pub fn schemas_of_one_shape()
    ensures columns { (schema other : Schema) → schema_shape schema ≡ schema_shape other
        → schema.columns.items ≡ other.columns.items }
    ensures spelled { (schema other : Schema) (text : List ℕ) (query : QueryShape)
        → schema_shape schema ≡ schema_shape other
        → Spells schema text query → Spells other text query }
{}

/// A law: a text has at most one error, and none if it spells a query.
pub fn one_fault()
    ensures one { (schema : Schema) (text : List ℕ) (fault other : Fault)
        → IsFault schema text fault → IsFault schema text other → fault ≡ other }
    ensures none_spelled { (schema : Schema) (text : List ℕ) (query : QueryShape) (fault : Fault)
        → Spells schema text query → IsFault schema text fault → ⊥ }
{}

/// A law: a text's error is where the table of errors lists it: at a byte.
#[tactic(auto, using(crate::proofs::FaultPlaceLemmas::fault_listed))]
pub fn faults_stand_as_listed()
    ensures { (schema : Schema) (text : List ℕ) (fault : Fault)
        → IsFault schema text fault → StandsAsListed fault }
{}

/// A law: every text spells a query or has an error.
pub fn query_or_fault()
    ensures { (schema : Schema) (text : List ℕ) → SpellsOrFails schema text }
{}

/// Returns the error of a reader that stopped. After the last token, a byte that begins no token is
/// the first error.
fn refusal(stop: Stop, lexed: &Lexed<'_>, text: &[u8]) -> Fault
    ensures is { IsFaultOf (spots lexed.now.tokens.items) lexed.now.stopped
        (length text.now) stop result }
    ensures fault { IsStatementFault result }
{
    let Stop::Refused { why, left } = stop else {
        return Fault::new(code::OUT_OF_MEMORY);
    };
    let tokens = lexed.tokens.as_slice();
    let first = tokens.len().saturating_sub(left);
    match (tokens.get(first), lexed.stopped) {
        (Some(placed), _) => Fault::at_byte(why.code(), placed.at as u64),
        (None, Some(at)) => Fault::at_byte(code::CHARACTER, at as u64),
        (None, None) => Fault::at_byte(why.code(), text.len() as u64),
    }
}

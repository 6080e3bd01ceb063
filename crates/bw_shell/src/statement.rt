//! A statement read under the schema of a schema text, as the calls of program files begin.
ghost use Rattle.std.specs.Prelude.{◌≡◌, false, Ok, IfOk, IfErr, IsTrue, length};
ghost use Rattle.bw_model.specs.declared.query.Query.{Query};
ghost use Rattle.bw_model.specs.declared.schema.Schema.{Schema};
ghost use Rattle.bw_model.specs.Cond.{names_within};
ghost use Rattle.bw_model.specs.Fault.{MatchesUnlessOom, is_memory};
ghost use Rattle.bw_io.specs.Sink.{is_write_fault};
ghost use Rattle.bw_shell.specs.ParsedStatement.{IsStatement, IsStatementRefusal, parsed_shape};
ghost use Rattle.bw_shell.specs.ParsedStatement.{shape_of};

use bw_model::{Fault, Query, Schema};
use bw_sql::parse;
use std::alloc::Global;

/// A schema, and a query under it.
#[derive(Drop)]
pub(crate) struct ParsedStatement {
    pub(crate) schema: Schema,
    pub(crate) query: Query,
}

/// Reads a schema text, and a statement under its schema.
///
/// Errors, in this order: the schema text's (106, 101 to 105), and the statement's (401 to 408).
/// 801 at any time, if memory is refused.
#[tactic(auto, using(crate::specs::ParsedStatement::schema_refused, crate::specs::ParsedStatement::statement_refused))]
pub(crate) fn parse_statement(
    alloc: Global,
    schema: &[u8],
    sql: &[u8],
) -> Result<ParsedStatement, Fault>
    ensures read { IfOk result (λ parsed. IsStatement schema.now sql.now parsed.schema parsed.query) }
    ensures names { IfOk result (λ parsed.
        IsTrue (names_within (length parsed.schema.columns.items) parsed.query.cond)) }
    ensures accepts { (other : Schema) (query : Query)
        → IsStatement schema.now sql.now other query
        → MatchesUnlessOom parsed_shape result (Ok (shape_of other query)) }
    ensures fault { IfErr result (λ fault. is_memory fault ≡ false
        → IsStatementRefusal schema.now sql.now fault) }
    ensures code { IfErr result (λ fault. is_write_fault fault ≡ false) }
{
    let schema = Schema::parse(alloc, schema)?;
    let query = parse(alloc, &schema, sql)?;
    Ok(ParsedStatement { schema, query })
}

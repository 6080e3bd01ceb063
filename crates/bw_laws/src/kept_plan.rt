//! Results with a stored plan.
ghost use Rattle.std.specs.Prelude.{ℕ, List, [], Option, Some, Result, Ok};
ghost use Rattle.bw_model.specs.declared.fault.Fault.{Fault};
ghost use Rattle.bw_model.specs.declared.query.Query.{Query};
ghost use Rattle.bw_model.specs.declared.schema.Schema.{Schema};
ghost use Rattle.bw_model.specs.Groups.{groups_of};
ghost use Rattle.bw_model.specs.Row.{Value};
ghost use Rattle.bw_model.specs.SchemaText.{IsSchemaText, schema_shape};
ghost use Rattle.bw_io.specs.Sink.{WriteOutcome, none_aside, sink_state};
ghost use Rattle.bw_file.specs.declared.layout.Layout.{Layout};
ghost use Rattle.bw_file.specs.FileBytes.{IsFileBytes};
ghost use Rattle.bw_sql.specs.Statement.{IsReadAs};
ghost use Rattle.bw_report.specs.declared.served.Served.{Served};
ghost use Rattle.bw_shell.specs.Plan.{IsPlan, IsPlanned};
ghost use Rattle.bw_query.specs.Served.{ByProgram, IsServed};
ghost use Rattle.bw_query.specs.TableAnswer.{AnswersFile, by_statement};

use bw_cert::{certificates_are_checked_by_their_fields, one_verdict, valid_exactly_where_checked};

/// A law about `plan_text` and `answer`: a query with a stored plan is scanned by the plan's
/// program, never by the fallback.
///
/// If `plan_text` succeeds for a schema text and a statement, a sink that was empty holds a plan
/// for them. `answer` accepts a plan as the program file of its statement over every table whose
/// schema that text spells: the statement spells a query under that schema, and the file is
/// accepted for each query that it spells. The plan's own program serves the query, with the loads
/// and skips of its runs, over any groups of rows, and so over the table of a file.
pub fn a_kept_plan_is_used()
    ensures written { (text sql plan : List ℕ) (given : Result (List ℕ) Fault) (before after : ℕ)
        → IsPlanned text sql given → WriteOutcome {T = Unit {0}} none_aside
        (sink_state (Some []) before) (sink_state (Some plan) after) given (Ok tt)
        → IsPlan text sql plan }
    ensures accepted { (text sql plan : List ℕ) (schema : Schema) → IsPlan text sql plan
        → IsSchemaText text (schema_shape schema)
        → (query : Query) × by_statement (Some plan) sql schema (Ok query) }
    ensures each { (text sql plan : List ℕ) (schema : Schema) (query : Query) → IsPlan text sql plan
        → IsSchemaText text (schema_shape schema) → IsReadAs schema sql (Ok query)
        → by_statement (Some plan) sql schema (Ok query) }
    ensures served { (text sql plan : List ℕ) (schema : Schema) (query : Query)
        (groups : List (List (List Value)))
        (served : Served) → (kept : IsPlan text sql plan) → IsSchemaText text (schema_shape schema)
        → IsServed (Some plan) schema query groups served
        → ByProgram kept.program schema.columns.items groups served }
    ensures file { (text sql plan bytes : List ℕ) (layout : Layout) (schema : Schema)
        (rows : List (List Value))
        (old new : Option (List ℕ)) (served : Served) → (kept : IsPlan text sql plan)
        → IsFileBytes bytes layout schema rows → IsSchemaText text (schema_shape schema)
        → (answers : AnswersFile (by_statement (Some plan) sql) bytes old new)
        → IsServed (Some plan) answers.schema answers.query (groups_of answers.rows) served
        → ByProgram kept.program schema.columns.items (groups_of rows) served }
{
    valid_exactly_where_checked();
    certificates_are_checked_by_their_fields();
    one_verdict();
}

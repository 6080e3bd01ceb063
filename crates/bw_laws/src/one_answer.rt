//! A schema text, a CSV text and a statement determine the answer.
ghost use Rattle.std.specs.Prelude.{◌≡◌, ℕ, List, Result};
ghost use Rattle.bw_model.specs.declared.fault.Fault.{Fault};
ghost use Rattle.bw_model.specs.declared.query.Query.{Query};
ghost use Rattle.bw_model.specs.declared.schema.Schema.{Schema};
ghost use Rattle.bw_model.specs.SchemaText.{schema_shape};
ghost use Rattle.bw_io.specs.Source.{Arrival};
ghost use Rattle.bw_sql.specs.Statement.{IsReadAs};
ghost use Rattle.bw_csv_calls.specs.Direct.{IsAnswer};
ghost use Rattle.bw_laws.specs.OneAnswer.{DirectMayWrite, query_asked_in};

/// A law: under schemas of one name and the same columns, a statement is read in one way. Two
/// readings are equal queries or the same error.
pub fn one_reading_under_one_shape()
    ensures { (schema other : Schema) (text : List ℕ) (reading second : Result Query Fault)
        → schema_shape schema ≡ schema_shape other → IsReadAs schema text reading
        → IsReadAs other text second → query_asked_in reading ≡ query_asked_in second }
{}

/// A law: a schema text, a CSV text and a statement have one answer. What was read of the two
/// sources determines one text or one error (`came`). So over sources of these texts `direct` can
/// write at most one text, whichever of its reads fail (`texts`).
pub fn there_is_one_answer()
    ensures came { (schema csv : Arrival) (sql : List ℕ) (given other : Result (List ℕ) Fault)
        → IsAnswer schema sql csv given → IsAnswer schema sql csv other → given ≡ other }
    ensures texts { (schema csv sql answer other : List ℕ)
        → DirectMayWrite schema csv sql answer → DirectMayWrite schema csv sql other
        → answer ≡ other }
{}

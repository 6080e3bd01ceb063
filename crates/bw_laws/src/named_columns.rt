//! An answer depends only on the columns that its query names.
ghost use Rattle.std.specs.Prelude.{◌≡◌, ℕ, List, map, true};
ghost use Rattle.bw_model.specs.declared.query.Query.{Query};
ghost use Rattle.bw_model.specs.Row.{Value, value_in};
ghost use Rattle.bw_answer.specs.Answer.{meaning};
ghost use Rattle.bw_query.specs.NamedColumns.{query_names};

/// A law: if each row is changed, but has the same values in the columns that a query names, the
/// query's meaning over the rows is the same. So a column that it doesn't name need not be read.
pub fn an_answer_depends_on_named_columns()
    ensures { (names : List (List ℕ)) (query : Query) (change : List Value → List Value)
        (rows : List (List Value)) → ((column : ℕ) → query_names column query ≡ true
        → (row : List Value) → value_in (change row) column ≡ value_in row column)
        → meaning names query (map change rows) ≡ meaning names query rows }
{}

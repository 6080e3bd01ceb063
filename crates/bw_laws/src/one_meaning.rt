//! Equal queries have equal meanings.
ghost use Rattle.std.specs.Prelude.{◌≡◌, ℕ, List};
ghost use Rattle.bw_model.specs.declared.query.Query.{Query};
ghost use Rattle.bw_model.specs.Row.{Value};
ghost use Rattle.bw_sql.specs.QueryShape.{query_shape};
ghost use Rattle.bw_answer.specs.Answer.{meaning};

/// A law: two queries with the same items and the same trees of conditions have the same
/// meaning over any rows, wherever their parts lie in memory.
pub fn one_meaning_of_what_is_asked()
    ensures { (names : List (List ℕ)) (query other : Query) (rows : List (List Value))
        → query_shape query ≡ query_shape other → meaning names query rows
        ≡ meaning names other rows }
{}

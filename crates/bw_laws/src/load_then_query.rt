//! Results of `answer` and `dump` over what a load wrote.
ghost use Rattle.std.specs.Prelude.{◌≡◌, ℕ, List, Option, Ok};
ghost use Rattle.bw_file.specs.declared.layout.Layout.{Layout};
ghost use Rattle.bw_query.specs.TableAnswer.{AnswersFile, IsEveryRow, by_dump, by_statement};
ghost use Rattle.bw_sql.specs.Statement.{IsReadAs};
ghost use Rattle.bw_laws.specs.LoadThenQuery.{AnswersCsv};
ghost use Rattle.bw_csv_calls.specs.Load.{file_of};

use bw_model::Schema;

/// A law about `load`, `answer` and `dump`: over the bytes that a load writes for a CSV text
/// under this schema, in either layout, the answer to a statement is its meaning over the rows of
/// that CSV text, whichever program selects them; and a dump is every row in every column. It is
/// the text that `direct` writes. At run time it looks at each column of the schema.
pub fn what_is_loaded_is_answered(schema: &Schema)
    ensures answered { (layout : Layout) (csv bytes sql : List ℕ)
        (program old new : Option (List ℕ))
        → file_of layout schema.now csv ≡ Ok bytes
        → AnswersFile (by_statement program sql) bytes old new
        → AnswersCsv (λ query. IsReadAs schema.now sql (Ok query)) schema.now csv old new }
    ensures dumped { (layout : Layout) (csv bytes : List ℕ) (old new : Option (List ℕ))
        → file_of layout schema.now csv ≡ Ok bytes → AnswersFile by_dump bytes old new
        → AnswersCsv (IsEveryRow schema.now) schema.now csv old new }
{
    schema.has_names_and_bounds();
}

//! Results over the file by columns that a load wrote.
ghost use Rattle.std.specs.Prelude.{◌≡◌, ℕ, List, None, Option, Some, Ok};
ghost use Rattle.std.specs.Io.KnownBytes.{Appends};
ghost use Rattle.bw_file.specs.declared.layout.Layout.{Layout};
ghost use Rattle.bw_file.specs.declared.order.FileOrder.{FileOrder};
ghost use Rattle.bw_file.specs.declared.order.FileOrder.TheVariants.{ByColumns};
ghost use Rattle.bw_file.specs.Columnar.{IsColumnarFile, bytes_in_order};
ghost use Rattle.bw_answer.specs.Answer.{csv_text, meaning};
ghost use Rattle.bw_csv_calls.specs.Direct.{answer_of};
ghost use Rattle.bw_memory.specs.Columnar.{IsOpened, table_in};
ghost use Rattle.bw_memory.specs.ColumnStore.{HasRows, header_of, in_file};
ghost use Rattle.bw_memory.specs.MemoryTable.{schema_of};
ghost use Rattle.bw_memory.specs.declared.columnar.ColumnarTable.{ColumnarTable};
ghost use Rattle.bw_model.specs.Column.{names_of};
ghost use Rattle.bw_model.specs.Row.{Value};
ghost use Rattle.bw_model.specs.declared.query.Query.{Query};
ghost use Rattle.bw_model.specs.declared.schema.Schema.{Schema};
ghost use Rattle.bw_query.specs.ColumnarAnswer.{ColumnarText};
ghost use Rattle.bw_query.specs.NamedColumns.{is_named_by};
ghost use Rattle.bw_query.specs.TableAnswer.{IsEveryRow, by_dump, by_statement};
ghost use Rattle.bw_sql.specs.Statement.{IsReadAs};
ghost use Rattle.bw_laws.specs.Backup.{table_text};
ghost use Rattle.bw_laws.specs.LoadThenQuery.{AnswersCsv};
ghost use Rattle.bw_csv_calls.specs.Load.{file_in};

use bw_memory::{columns_are_those_of_the_file, stored_rows_are_those_of_the_file};
use bw_model::Schema;

/// A law about `load_in_order`, `answer_by_columns` and `dump_by_columns`: over the file by
/// columns that a load writes for a CSV text under this schema, in either layout, the answer to a
/// statement is its meaning over the rows of that CSV text, whichever program selects them, although
/// only the columns that the statement and its program name are read; and a dump is every row in
/// every column. At run time it looks at each column of the schema.
pub fn what_is_loaded_by_columns_is_answered(schema: &Schema)
    ensures answered { (layout : Layout) (csv bytes sql text : List ℕ)
        (program old new : Option (List ℕ))
        → file_in ByColumns layout schema.now csv ≡ Ok bytes
        → ColumnarText (by_statement program sql) program (Some bytes) text → Appends old new text
        → AnswersCsv (λ query. IsReadAs schema.now sql (Ok query)) schema.now csv old new }
    ensures dumped { (layout : Layout) (csv bytes text : List ℕ) (old new : Option (List ℕ))
        → file_in ByColumns layout schema.now csv ≡ Ok bytes
        → ColumnarText by_dump None (Some bytes) text → Appends old new text
        → AnswersCsv (IsEveryRow schema.now) schema.now csv old new }
{
    schema.has_names_and_bounds();
    columns_are_those_of_the_file();
}

/// A law about `answer_statements`: over the file by columns that a load writes, what a session
/// answers a statement by, the text of its meaning over rows that have the columns which it names, is
/// the text of its meaning over the rows of the CSV text. At run time it looks at each column of the
/// schema.
pub fn a_session_by_columns_answers_what_was_loaded(schema: &Schema)
    ensures { (layout : Layout) (csv bytes : List ℕ) (columnar : ColumnarTable) (query : Query)
        (stored : List (List Value)) → file_in ByColumns layout schema.now csv ≡ Ok bytes
        → IsOpened (Some bytes) columnar
        → HasRows (in_file (Some bytes) (header_of columnar)) (is_named_by query) stored
        → answer_of schema.now.columns.items query csv ≡ Ok (csv_text
        (meaning (names_of (schema_of (table_in columnar)).columns.items) query stored)) }
{
    schema.has_names_and_bounds();
    stored_rows_are_those_of_the_file();
}

/// A law about `dump_by_columns` and `load_in_order`: a dump of a file by columns writes the table
/// as a CSV text. Loading it by columns, in the same layout, yields the bytes of the file; in another
/// order or layout the table's file there.
pub fn what_is_dumped_by_columns_is_loaded()
    ensures took { (bytes : List ℕ) (layout : Layout) (schema : Schema) (rows : List (List Value))
        (text : List ℕ) (old new : Option (List ℕ)) → IsColumnarFile bytes layout schema rows
        → ColumnarText by_dump None (Some bytes) text → Appends old new text
        → Appends old new (table_text schema rows) }
    ensures loaded { (bytes : List ℕ) (layout other : Layout) (schema : Schema)
        (rows : List (List Value)) (order : FileOrder) → IsColumnarFile bytes layout schema rows
        → file_in order other schema (table_text schema rows)
        ≡ Ok (bytes_in_order order other schema rows) }
    ensures same { (bytes : List ℕ) (layout : Layout) (schema : Schema) (rows : List (List Value))
        → IsColumnarFile bytes layout schema rows
        → file_in ByColumns layout schema (table_text schema rows) ≡ Ok bytes }
{
    columns_are_those_of_the_file();
}

//! A dump is a backup: loading it yields the table's file again.
ghost use Rattle.std.specs.Prelude.{◌≡◌, ◌≤◌, ℕ, List, Option, Ok, length};
ghost use Rattle.std.specs.Io.KnownBytes.{Appends};
ghost use Rattle.bw_model.specs.declared.query.Query.{Query};
ghost use Rattle.bw_model.specs.declared.schema.Schema.{Schema};
ghost use Rattle.bw_model.specs.Column.{names_of};
ghost use Rattle.bw_model.specs.Limits.{longest_csv};
ghost use Rattle.bw_model.specs.Row.{Value};
ghost use Rattle.bw_model.specs.SchemaText.{IsSchemaText, schema_shape};
ghost use Rattle.bw_answer.specs.Answer.{csv_text, meaning};
ghost use Rattle.bw_csv.specs.Rows.{rows_of};
ghost use Rattle.bw_csv_calls.specs.Load.{file_of};
ghost use Rattle.bw_file.specs.declared.layout.Layout.{Layout};
ghost use Rattle.bw_file.specs.FileBytes.{IsFileBytes, file_bytes};
ghost use Rattle.bw_query.specs.TableAnswer.{AnswersFile, IsEveryRow, by_dump};
ghost use Rattle.bw_laws.specs.Backup.{IsOfNeededVersion, IsTold, Loads, LoadsUnder, longest_dump};
ghost use Rattle.bw_laws.specs.Backup.{table_text};

use bw_model::Schema;

/// A law: what a dump writes of a table is the table as a CSV text, which spells the table's
/// rows. So loading it in the same layout yields the table's file: the same bytes, unless the file
/// was of version 2 without need. The text is at most as long as its columns and rows allow, and
/// with at most three columns it is never too long to be loaded.
pub fn a_dump_is_a_backup()
    ensures text { (bytes : List ℕ) (layout : Layout) (schema : Schema) (rows : List (List Value))
        (query : Query) → IsFileBytes bytes layout schema rows → IsEveryRow schema query
        → csv_text (meaning (names_of schema.columns.items) query rows) ≡ table_text schema rows }
    ensures spells { (bytes : List ℕ) (layout : Layout) (schema : Schema) (rows : List (List Value))
        → IsFileBytes bytes layout schema rows
        → rows_of schema.columns.items (table_text schema rows) ≡ Ok rows }
    ensures loads { (bytes : List ℕ) (layout other : Layout) (schema : Schema)
        (rows : List (List Value)) → IsFileBytes bytes layout schema rows
        → file_of other schema (table_text schema rows) ≡ Ok (file_bytes other schema rows) }
    ensures same { (bytes : List ℕ) (layout : Layout) (schema : Schema) (rows : List (List Value))
        → IsFileBytes bytes layout schema rows → IsOfNeededVersion bytes schema
        → file_of layout schema (table_text schema rows) ≡ Ok bytes }
    ensures size { (bytes : List ℕ) (layout : Layout) (schema : Schema) (rows : List (List Value))
        → IsFileBytes bytes layout schema rows
        → length (table_text schema rows) ≤ longest_dump (length schema.columns.items)
        (length rows) }
    ensures fits { (bytes : List ℕ) (layout : Layout) (schema : Schema) (rows : List (List Value))
        → IsFileBytes bytes layout schema rows → length schema.columns.items ≤ 3
        → length (table_text schema rows) ≤ longest_csv }
{}

/// A law about `dump` and `load`: a dump of a table file writes the table as a CSV text. If
/// this isn't longer than a CSV text may be, then loading it under a schema text that spells the
/// schema yields the table's file in the requested layout; in the same layout the same bytes,
/// unless the file was of version 2 without need.
pub fn what_is_dumped_is_loaded()
    ensures took { (bytes : List ℕ) (layout : Layout) (schema : Schema) (rows : List (List Value))
        (old new : Option (List ℕ)) → IsFileBytes bytes layout schema rows
        → AnswersFile by_dump bytes old new → Appends old new (table_text schema rows) }
    ensures loaded { (bytes : List ℕ) (layout other : Layout) (schema : Schema)
        (rows : List (List Value))
        → IsFileBytes bytes layout schema rows → length (table_text schema rows) ≤ longest_csv
        → LoadsUnder other schema (table_text schema rows) (file_bytes other schema rows) }
    ensures same { (bytes : List ℕ) (layout : Layout) (schema : Schema) (rows : List (List Value))
        → IsFileBytes bytes layout schema rows → length (table_text schema rows) ≤ longest_csv
        → IsOfNeededVersion bytes schema → LoadsUnder layout schema (table_text schema rows) bytes }
{}

/// A law about `info`, `dump` and `load`: what `info` writes of a table file spells the table's
/// schema. Under it, loading the dump in the same layout yields the bytes of the file, unless that
/// was of version 2 without need.
pub fn a_file_is_restored()
    ensures told { (bytes : List ℕ) (layout : Layout) (schema : Schema) (rows : List (List Value))
        (told : List ℕ)
        → IsFileBytes bytes layout schema rows → IsTold bytes told
        → IsSchemaText told (schema_shape schema) }
    ensures same { (bytes : List ℕ) (layout : Layout) (schema : Schema) (rows : List (List Value))
        (told : List ℕ)
        (old new : Option (List ℕ)) → IsFileBytes bytes layout schema rows
        → IsOfNeededVersion bytes schema
        → IsTold bytes told → AnswersFile by_dump bytes old new
        → Appends old new (table_text schema rows)
        × (length (table_text schema rows) ≤ longest_csv
        → Loads layout told (table_text schema rows) bytes) }
{
    what_is_dumped_is_loaded();
}

/// A law: the file that a load writes of a CSV text is, byte for byte, the one that a load
/// writes of that file's dump, under the same schema and in the same layout. At run time it looks
/// at each column of the schema.
pub fn a_load_is_restored(schema: &Schema)
    ensures { (layout : Layout) (csv bytes : List ℕ) (rows : List (List Value))
        (old new : Option (List ℕ))
        → rows_of schema.now.columns.items csv ≡ Ok rows → file_of layout schema.now csv ≡ Ok bytes
        → AnswersFile by_dump bytes old new → Appends old new (table_text schema.now rows)
        × (file_of layout schema.now (table_text schema.now rows) ≡ Ok bytes) }
{
    schema.has_names_and_bounds();
    what_is_dumped_is_loaded();
    a_dump_is_a_backup();
}

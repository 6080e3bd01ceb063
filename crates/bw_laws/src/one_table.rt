//! A table and a statement determine the answer.
ghost use Rattle.std.specs.Prelude.{ℕ, List, Option};
ghost use Rattle.std.specs.Io.KnownBytes.{Appends};
ghost use Rattle.bw_model.specs.declared.schema.Schema.{Schema};
ghost use Rattle.bw_model.specs.Row.{Value};
ghost use Rattle.bw_file.specs.declared.layout.Layout.{Layout};
ghost use Rattle.bw_file.specs.FileBytes.{IsFileBytes};
ghost use Rattle.bw_query.specs.TableAnswer.{AnswersFile, by_statement};

/// A law: a table and a statement have one answer. Over two files of one table, `answer` writes
/// the same text for a statement, whatever the layouts and versions of the files, and whichever
/// programs select the rows.
pub fn a_table_has_one_answer()
    ensures { (layout other : Layout) (schema : Schema) (rows : List (List Value))
        (bytes others sql : List ℕ) (program old new second before after : Option (List ℕ))
        → IsFileBytes bytes layout schema rows
        → AnswersFile (by_statement program sql) bytes old new
        → IsFileBytes others other schema rows
        → AnswersFile (by_statement second sql) others before after
        → (text : List ℕ) × Appends old new text × Appends before after text }
{}

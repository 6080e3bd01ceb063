//! A table in memory gives the results of its file.
ghost use Rattle.std.specs.Prelude.{◌≡◌, ℕ, false, List, Option, Some, Result, Err};
ghost use Rattle.std.specs.Io.KnownBytes.{Appends};
ghost use Rattle.bw_model.specs.declared.fault.Fault.{Fault};
ghost use Rattle.bw_model.specs.declared.query.Query.{Query};
ghost use Rattle.bw_model.specs.declared.schema.Schema.{Schema};
ghost use Rattle.bw_model.specs.Row.{Value};
ghost use Rattle.bw_file.specs.declared.layout.Layout.{Layout};
ghost use Rattle.bw_file.specs.FileBytes.{IsFileBytes};
ghost use Rattle.bw_io.specs.Source.{source_state};
ghost use Rattle.bw_file.specs.Reading.{State, state_at};
ghost use Rattle.bw_query.specs.MemoryAnswer.{RowsText};
ghost use Rattle.bw_query.specs.TableAnswer.{AnswersFile, IsTableResult, by_statement};
ghost use Rattle.bw_query.specs.TableAnswer.{is_no_verdict};
ghost use Rattle.bw_laws.specs.OneAnswer.{query_asked_in};

use bw_cert::one_verdict;

/// A law about `answer_in_memory` and `answer`: over a table in memory that was read from these
/// bytes, a statement has the same answer as over a source of the bytes.
///
/// What `answer_in_memory` may write is the one text that `answer` may write, whichever programs
/// select the rows of either (`text`). With the same program file, or without one, the statement is
/// read in one way: as the same query, or as the same error (`asked`). So if statement or program
/// file is rejected over the table, `answer` fails with the same error, unless a device or memory
/// fails (`refused`).
pub fn a_table_in_memory_is_answered_as_its_file()
    ensures text { (bytes sql text : List ℕ) (layout : Layout) (schema : Schema)
        (rows : List (List Value)) (program second old new : Option (List ℕ))
        → IsFileBytes bytes layout schema rows
        → RowsText (by_statement program sql) schema rows text
        → AnswersFile (by_statement second sql) bytes old new → Appends old new text }
    ensures asked { (bytes sql : List ℕ) (layout another : Layout) (schema other : Schema)
        (rows others : List (List Value)) (program : Option (List ℕ))
        (given second : Result Query Fault)
        → IsFileBytes bytes layout schema rows → IsFileBytes bytes another other others
        → by_statement program sql schema given → by_statement program sql other second
        → query_asked_in given ≡ query_asked_in second }
    ensures refused { (bytes sql : List ℕ) (layout : Layout) (schema : Schema)
        (rows : List (List Value)) (program : Option (List ℕ)) (failures : ℕ) (now : State)
        (fault second : Fault) → IsFileBytes bytes layout schema rows
        → by_statement program sql schema (Err fault)
        → IsTableResult (by_statement program sql) (state_at (source_state (Some bytes) failures) 0)
        now (Err second) → is_no_verdict second ≡ false → fault ≡ second }
{
    one_verdict();
}

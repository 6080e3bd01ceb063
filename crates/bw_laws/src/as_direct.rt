//! `load` and `answer` give the results of `direct`.
ghost use Rattle.std.specs.Prelude.{◌≡◌, ℕ, List, Option, Result, Ok};
ghost use Rattle.std.specs.Io.KnownBytes.{Appends};
ghost use Rattle.bw_model.specs.declared.fault.Fault.{Fault};
ghost use Rattle.bw_io.specs.Source.{Arrival};
ghost use Rattle.bw_file.specs.declared.layout.Layout.{Layout};
ghost use Rattle.bw_query.specs.TableAnswer.{AnswersFile, by_statement};
ghost use Rattle.bw_csv_calls.specs.Direct.{IsAnswer};
ghost use Rattle.bw_csv_calls.specs.Load.{IsFile};
ghost use Rattle.bw_laws.specs.AsDirect.{IsAnswerable, LoadMayWrite, HasConsumedAnswer};
ghost use Rattle.bw_laws.specs.AsDirect.{HasConsumedAsDirect};

/// A law about `load`, `answer` and `direct`. Let a load write the bytes of a table file for a
/// schema text and a CSV text. Then over these bytes `answer` writes the one text that `direct` may
/// write for the same schema text, CSV text and statement, whichever reads fail (`texts`). It is
/// the text of the one answer that follows from what was read of the sources (`came`). Neither
/// layout nor program changes it, so two such answers are the same text (`alike`). If what was read
/// has a text for an answer, then a load of it yields a table file under whose schema the statement
/// spells a query (`answerable`).
pub fn what_is_loaded_is_answered_as_direct()
    ensures texts { (layout : Layout) (schema csv bytes sql : List ℕ)
        (program old new : Option (List ℕ))
        → LoadMayWrite layout schema csv bytes
        → AnswersFile (by_statement program sql) bytes old new
        → HasConsumedAsDirect schema csv sql old new }
    ensures came { (layout : Layout) (schema csv : Arrival) (bytes sql : List ℕ)
        (program old new : Option (List ℕ))
        → IsFile layout schema csv (Ok bytes) → AnswersFile (by_statement program sql) bytes old new
        → HasConsumedAnswer schema csv sql old new }
    ensures alike { (layout other : Layout) (schema csv bytes others sql : List ℕ)
        (program old new second before after : Option (List ℕ))
        → LoadMayWrite layout schema csv bytes
        → AnswersFile (by_statement program sql) bytes old new
        → LoadMayWrite other schema csv others
        → AnswersFile (by_statement second sql) others before after
        → (text : List ℕ) × Appends old new text × Appends before after text }
    ensures answerable { (layout : Layout) (schema csv : Arrival) (sql text : List ℕ)
        (given : Result (List ℕ) Fault)
        → IsAnswer schema sql csv (Ok text) → IsFile layout schema csv given
        → IsAnswerable layout sql given }
{}

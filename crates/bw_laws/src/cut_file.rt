//! Reading only the beginning of a table file.
ghost use Rattle.std.specs.Prelude.{◌≡◌, ◌<◌, ℕ, List, Result, Err, length, take};
ghost use Rattle.bw_model.specs.FaultTable.{TRUNCATED};
ghost use Rattle.bw_model.specs.declared.fault.Fault.{Fault};
ghost use Rattle.bw_model.specs.declared.schema.Schema.{Schema};
ghost use Rattle.bw_model.specs.Fault.{at_byte};
ghost use Rattle.bw_model.specs.Row.{Value};
ghost use Rattle.bw_file.specs.declared.layout.Layout.{Layout};
ghost use Rattle.bw_file.specs.FileBytes.{IsFileBytes};
ghost use Rattle.bw_file.specs.TableReading.{Found, IsReadAs};

/// A law: a truncated table file is rejected. Reading any proper beginning of its bytes fails
/// with 305 at the beginning's own length, and with nothing else.
pub fn a_cut_file_is_refused()
    ensures refused { (bytes : List ℕ) (layout : Layout) (schema : Schema)
        (rows : List (List Value)) (n : ℕ) → IsFileBytes bytes layout schema rows → n < length bytes
        → IsReadAs (take n bytes) (Err (at_byte TRUNCATED n)) }
    ensures alone { (bytes : List ℕ) (layout : Layout) (schema : Schema) (rows : List (List Value))
        (n : ℕ)
        (read : Result Found Fault) → IsFileBytes bytes layout schema rows → n < length bytes
        → IsReadAs (take n bytes) read → read ≡ Err (at_byte TRUNCATED n) }
{}

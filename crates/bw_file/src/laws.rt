//! Laws of table files: bytes are read as a table exactly if they spell it.
ghost use Rattle.std.specs.Prelude.{◌≡◌, ◌<◌, ℕ, List, Result, Ok, slice_index};
ghost use Rattle.bw_model.specs.declared.fault.Fault.{Fault};
ghost use Rattle.bw_model.specs.Row.{Value};
ghost use Rattle.bw_file.specs.declared.layout.Layout.{Layout};
ghost use Rattle.bw_model.specs.SchemaText.{schema_shape};
ghost use Rattle.bw_file.specs.FileBytes.{IsFileBytes};
ghost use Rattle.bw_file.specs.TableReading.{Found, found_as, IsReadAs};

use bw_model::Schema;

/// A law: bytes that are read as a table spell that table, in version 1 or 2.
pub fn what_is_read_is_a_file()
    ensures { (bytes : List ℕ) (found : Found) → ((i : ℕ) → slice_index bytes i < 256)
        → IsReadAs bytes (Ok found)
        → (schema : Schema) × (schema_shape schema ≡ found.schema)
        × IsFileBytes bytes found.layout schema found.rows }
{}

/// A law: bytes that spell a table, in version 1 or 2, are read as that table.
pub fn what_is_spelled_is_read()
    ensures { (bytes : List ℕ) (layout : Layout) (schema : Schema) (rows : List (List Value))
        → IsFileBytes bytes layout schema rows
        → IsReadAs bytes (Ok (found_as layout (schema_shape schema) rows)) }
{}

/// A law: bytes are read as one result only.
pub fn bytes_are_read_in_one_way()
    ensures { (bytes : List ℕ) (one other : Result Found Fault) → IsReadAs bytes one
        → IsReadAs bytes other → one ≡ other }
{}

/// A law: bytes spell at most one table: its layout, its schema's name and columns, and its rows.
pub fn a_file_is_of_one_table()
    ensures { (bytes : List ℕ) (layout other_layout : Layout) (schema other_schema : Schema)
        (rows other_rows : List (List Value))
        → IsFileBytes bytes layout schema rows
        → IsFileBytes bytes other_layout other_schema other_rows
        → found_as layout (schema_shape schema) rows
        ≡ found_as other_layout (schema_shape other_schema) other_rows }
{}

//! What the table of a file by columns has of the file.
ghost use Rattle.std.specs.Prelude.{◌≡◌, ◌<◌, ℕ, Bool, List, Some, length, map, slice_index, take, true};
ghost use Rattle.bw_model.specs.declared.fault.Fault.{Fault};
ghost use Rattle.bw_model.specs.declared.schema.Schema.{Schema};
ghost use Rattle.bw_model.specs.Fault.{at_byte};
ghost use Rattle.bw_model.specs.FaultTable.{TRUNCATED};
ghost use Rattle.bw_model.specs.Row.{Value};
ghost use Rattle.bw_model.specs.SchemaText.{schema_shape};
ghost use Rattle.bw_io.specs.Source.{is_input_fault};
ghost use Rattle.bw_file.specs.declared.layout.Layout.{Layout};
ghost use Rattle.bw_file.specs.Columnar.{IsColumnarFile};
ghost use Rattle.bw_memory.specs.declared.columnar.ColumnarTable.{ColumnarTable};
ghost use Rattle.bw_memory.specs.Columnar.{HasColumns, HasOpenFault, IsColumnFault, IsOpened};
ghost use Rattle.bw_memory.specs.Columnar.{column_count, table_in};
ghost use Rattle.bw_memory.specs.MemoryTable.{layout_of, rows_of, schema_of};
ghost use Rattle.bw_memory.specs.ColumnStore.{HasRows, header_of, in_file};
ghost use Rattle.bw_memory.specs.NamedRows.{AreReadRows, read_row};

/// A law: the table of a file by columns has the file's columns and rows, but for the columns that
/// weren't read: each row has their minimums.
pub fn columns_are_those_of_the_file()
    ensures schema { (bytes : List ℕ) (layout : Layout) (schema : Schema)
        (rows : List (List Value)) (columnar : ColumnarTable) (read : ℕ → Bool)
        → IsColumnarFile bytes layout schema rows → IsOpened (Some bytes) columnar
        → HasColumns (Some bytes) columnar read
        (length (schema_of (table_in columnar)).columns.items)
        → schema_shape (schema_of (table_in columnar)) ≡ schema_shape schema }
    ensures rows { (bytes : List ℕ) (layout : Layout) (schema : Schema)
        (rows : List (List Value)) (columnar : ColumnarTable) (read : ℕ → Bool)
        → IsColumnarFile bytes layout schema rows → IsOpened (Some bytes) columnar
        → HasColumns (Some bytes) columnar read
        (length (schema_of (table_in columnar)).columns.items)
        → rows_of (table_in columnar) ≡ map (read_row schema.columns.items read) rows }
{}

/// A law: so have the rows of a store of columns of the file. They have the file's values in the
/// columns that are wanted, and in each other column the file's values or the minimum.
pub fn stored_rows_are_those_of_the_file()
    ensures { (bytes : List ℕ) (layout : Layout) (schema : Schema) (rows : List (List Value))
        (columnar : ColumnarTable) (wanted : ℕ → Bool) (stored : List (List Value))
        → IsColumnarFile bytes layout schema rows → IsOpened (Some bytes) columnar
        → HasRows (in_file (Some bytes) (header_of columnar)) wanted stored
        → (schema_shape (schema_of (table_in columnar)) ≡ schema_shape schema)
        × AreReadRows schema.columns.items wanted rows stored }
{}

/// A law: if all columns of a file by columns were read, then its bytes are the file of the table's
/// rows.
pub fn a_file_that_was_read_is_of_its_rows()
    ensures { (bytes : List ℕ) (columnar : ColumnarTable) → ((i : ℕ) → slice_index bytes i < 256)
        → IsOpened (Some bytes) columnar
        → HasColumns (Some bytes) columnar (λ _. true)
        (length (schema_of (table_in columnar)).columns.items)
        → IsColumnarFile bytes (layout_of (table_in columnar)) (schema_of (table_in columnar))
        (rows_of (table_in columnar)) }
{}

/// A law: a file by columns that was cut isn't opened. Its error is 305 at its length, unless a read
/// fails or memory is refused. The whole file has no error but these, before its columns are read.
pub fn a_cut_file_by_columns_is_refused()
    ensures refused { (bytes : List ℕ) (layout : Layout) (schema : Schema)
        (rows : List (List Value)) (n : ℕ) (fault : Fault)
        → IsColumnarFile bytes layout schema rows → n < length bytes
        → HasOpenFault (take n bytes) fault → fault ≡ at_byte TRUNCATED n }
    ensures alone { (bytes : List ℕ) (layout : Layout) (schema : Schema)
        (rows : List (List Value)) (n : ℕ) (columnar : ColumnarTable)
        → IsColumnarFile bytes layout schema rows → n < length bytes
        → IsOpened (Some (take n bytes)) columnar → ⊥ }
    ensures whole { (bytes : List ℕ) (layout : Layout) (schema : Schema)
        (rows : List (List Value)) (fault : Fault)
        → IsColumnarFile bytes layout schema rows → HasOpenFault bytes fault → ⊥ }
{}

/// A law: the file by columns of a table's rows has no error in any column, so reading one fails only
/// if a read fails or memory is refused.
pub fn a_written_file_has_no_damage()
    ensures { (bytes : List ℕ) (layout : Layout) (schema : Schema) (rows : List (List Value))
        (columnar : ColumnarTable) (column : ℕ) (fault : Fault)
        → IsColumnarFile bytes layout schema rows → IsOpened (Some bytes) columnar
        → column < column_count columnar → IsColumnFault (Some bytes) columnar column fault
        → is_input_fault fault ≡ true }
{}

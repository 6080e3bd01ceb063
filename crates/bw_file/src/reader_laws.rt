//! Laws of readers of table files.
ghost use Rattle.std.specs.Prelude.{◌≡◌, ℕ, List, Some, IsTrue};
ghost use Rattle.bw_model.specs.declared.fault.Fault.{Fault};
ghost use Rattle.bw_model.specs.declared.schema.Schema.{Schema};
ghost use Rattle.bw_model.specs.Row.{Value};
ghost use Rattle.bw_model.specs.SchemaText.{schema_shape};
ghost use Rattle.bw_file.specs.FileBytes.{IsFileBytes};
ghost use Rattle.bw_file.specs.Reading.{State, HasConsumed};
ghost use Rattle.bw_io.specs.Source.{is_input_fault};
ghost use Rattle.bw_file.specs.TableReader.{ReadProgress, ReadWhole, FrontsEndEarly, AnswersFault};
ghost use Rattle.bw_file.specs.TableReader.{ReturnsFirst};
ghost use Rattle.bw_file.specs.TableReading.{Found, found_as};
ghost use Rattle.bw_file.specs.declared.layout.Layout.{Layout};
ghost use Rattle.bw_file.specs.declared.table_reader.TableReader.{TableReader};

/// A law: the bytes that a reader has read were consumed from the source, with no failed read. A
/// file of fewer of them ends too early.
pub fn bytes_were_taken()
    ensures { (start now : State) (reader : TableReader) (groups : List (List (List Value)))
        → ReadProgress start now reader groups
        → ((bytes : List ℕ) × HasConsumed start now bytes × FrontsEndEarly bytes)
        × (now.failures ≡ start.failures) }
{}

/// A law: if the unread bytes spell a table, a reader returns that table's header and its groups,
/// one after the other. What is read completely is that table, and the only errors are a failed
/// read and out of memory.
pub fn a_file_is_read_whole()
    ensures groups { (bytes : List ℕ) (layout : Layout) (schema : Schema) (rows : List (List Value))
        → IsFileBytes bytes layout schema rows
        → (start now : State) (reader : TableReader) (groups : List (List (List Value)))
        → start.known ≡ Some bytes → ReadProgress start now reader groups
        → ReturnsFirst reader groups layout schema rows }
    ensures table { (bytes : List ℕ) (layout : Layout) (schema : Schema) (rows : List (List Value))
        → IsFileBytes bytes layout schema rows
        → (start now : State) (found : Found) → start.known ≡ Some bytes → ReadWhole start now found
        → found ≡ found_as layout (schema_shape schema) rows }
    ensures faults { (bytes : List ℕ) (layout : Layout) (schema : Schema) (rows : List (List Value))
        → IsFileBytes bytes layout schema rows
        → (start old now : State) (fault : Fault) → start.known ≡ Some bytes
        → AnswersFault start old now fault
        → IsTrue (is_input_fault fault) }
{}

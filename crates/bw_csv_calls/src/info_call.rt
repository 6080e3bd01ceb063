//! The header of a table file, written as text.
ghost use Rattle.std.specs.Prelude.{◌≡◌, ◌+◌, ◌-◌, ◌^◌, ◌<◌, ◌≤◌, ℕ, List, Result, Some, true, length};
ghost use Rattle.std.specs.Prelude.{IfErr, IfOk, IsOkUnless, IsTrue, OnOk};
ghost use Rattle.bw_model.specs.declared.fault.Fault.{Fault};
ghost use Rattle.bw_model.specs.declared.schema.Schema.{Schema};
ghost use Rattle.bw_model.specs.Groups.{groups_of};
ghost use Rattle.bw_model.specs.Row.{Value};
ghost use Rattle.bw_io.specs.Sink.{WriteOutcome, none_aside};
ghost use Rattle.bw_model.specs.Fault.{no_memory};
ghost use Rattle.bw_model.specs.SchemaText.{IsSchemaText, schema_shape};
ghost use Rattle.bw_io.specs.Source.{TellsFailure, failed_by};
ghost use Rattle.bw_file.specs.declared.layout.Layout.{Layout};
ghost use Rattle.bw_file.specs.declared.order.FileOrder.TheVariants.{ByRows};
ghost use Rattle.bw_file.specs.FileBytes.{AreRows, IsFileBytes, bytes_of_version, header_bytes};
ghost use Rattle.bw_file.specs.Reading.{state_at};
ghost use Rattle.bw_file.specs.TableReader.{bytes_taken, layout_in, rows_stated, schema_in};
ghost use Rattle.bw_file.specs.TableReader.{version_in};
ghost use Rattle.bw_csv_calls.specs.Info.{IsColumnarInfo, IsInfoResult, TellsFile, file_size};
ghost use Rattle.bw_csv_calls.specs.Info.{info_text, is_no_verdict, segment_count};

use crate::text::{Facts, info_text};
use bw_file::{TableReader, a_file_is_read_whole};
use bw_io::{RandomAccess, Sink, Source, write_whole};
use bw_memory::ColumnarTable;
use bw_model::{Fault, code};
use std::alloc::Global;

/// Writes the header of a table file as text: the schema text that spells the table's schema, then
/// a comment line each for the numbers of its rows and segments, its layout, its version, and the
/// length of the whole file. Reads only the header.
///
/// Nothing is written before the header is found valid. Each device's count of failures must be
/// less than 2^64 - 1.
///
/// Errors, in this order: the header (301 to 305, 310) and the sink (702). 701 if a read fails, and
/// 801 at any time if memory is refused.
pub fn info<S: Source, K: Sink>(alloc: Global, table: &mut S, sink: &mut K) -> Result<(), Fault>
    requires table { (S.state table.old).failures < 2 ^ 64 - 1 }
    requires sink { (K.state sink.old).failures < 2 ^ 64 - 1 }
    ensures info { (offset : ℕ) × (given : Result (List ℕ) Fault)
        × IsInfoResult (state_at (S.state table.old) 0) (state_at (S.state table.new) offset) given
        × WriteOutcome none_aside (K.state sink.old) (K.state sink.new) given result }

    // If the unread bytes are a table file's, its schema, its rows and its length are reported, and
    // only a device or memory can fail.
    ensures file { (bytes : List ℕ) (layout : Layout) (schema : Schema) (rows : List (List Value))
        → (S.state table.old).known ≡ Some bytes → IsFileBytes bytes layout schema rows
        → OnOk result (TellsFile bytes layout schema rows (K.state sink.old).taken
        (K.state sink.new).taken) }
    ensures accepted { (bytes : List ℕ) (layout : Layout) (schema : Schema)
        (rows : List (List Value)) → (S.state table.old).known ≡ Some bytes
        → IsFileBytes bytes layout schema rows
        → IfErr result (λ fault. IsTrue (is_no_verdict fault)) }
    // The call fails by a failed read if and only if the table's count of failures rose.
    ensures table { TellsFailure (S.state table.old) (S.state table.new) result }
{
    a_file_is_read_whole();
    let reader = TableReader::begin(alloc, table)?;
    let text = header_text(alloc, &reader)?;
    write_whole(sink, &text)
}

/// Returns the text of a reader's header. The reader must have read the header's bytes, and no
/// other.
fn header_text(alloc: Global, reader: &TableReader) -> Result<Vec<u8>, Fault>
    requires head { bytes_taken reader.now
        ≡ length (header_bytes ByRows (version_in reader.now) (layout_in reader.now)
        (schema_in reader.now).name (schema_in reader.now).columns.items (rows_stated reader.now)) }
    requires short { bytes_taken reader.now ≤ 20000 }
    ensures text { IfOk result (λ text. text.items
        ≡ info_text (version_in reader.now) (layout_in reader.now) (schema_in reader.now)
        (rows_stated reader.now) (file_size (version_in reader.now) (layout_in reader.now)
        (schema_in reader.now) (rows_stated reader.now))) }
    ensures spelled { IfOk result
        (λ text. IsSchemaText text.items (schema_shape (schema_in reader.now))) }
    ensures only_oom { IsOkUnless result no_memory }
{
    let rows = reader.rows();
    let segments = (u64::from(rows) + 511) / 512;
    let facts = Facts {
        version: reader.version(),
        layout: reader.layout(),
        rows,
        size: reader.offset() + segments * reader.segment_size() as u64,
    };
    info_text(alloc, reader.schema(), facts)
}

/// Writes the header of a file by columns as text, as [`info`] does for a table file. Reads only the
/// header.
///
/// Errors, in this order: the header (301 to 305, 310), then 305 or 309 by the file's length, and
/// the sink (702). 701 if a read fails or the file has changed since it was opened, and 801 at any
/// time if memory is refused. Each device's count of failures must be less than 2^64 - 1.
pub fn info_by_columns<D: RandomAccess, K: Sink>(
    alloc: Global,
    device: &mut D,
    sink: &mut K,
) -> Result<(), Fault>
    requires device { (D.state device.old).failures < 2 ^ 64 - 1 }
    requires sink { (K.state sink.old).failures < 2 ^ 64 - 1 }
    ensures info { (given : Result (List ℕ) Fault)
        × IsColumnarInfo (D.state device.old).known given
        × WriteOutcome none_aside (K.state sink.old) (K.state sink.new) given result }
    ensures confirmed { OnOk result ((D.state device.new).confirmed ≡ true) }
    ensures count { (D.state device.new).failures
        ≡ (D.state device.old).failures + failed_by result }
{
    let columnar = ColumnarTable::open(alloc, device)?;
    let table = columnar.table();
    let facts = Facts {
        version: 2,
        layout: table.layout(),
        rows: table.rows(),
        size: columnar.size(),
    };
    let text = info_text(alloc, table.schema(), facts)?;
    if device.confirm().is_err() {
        return Err(Fault::new(code::READ_FAILED));
    }
    write_whole(sink, &text)
}

/// A law: the file of a table has the size that its header states, and its rows as many groups.
pub fn tables_have_their_size()
    ensures size { (version : ℕ) (layout : Layout) (schema : Schema) (rows : List (List Value))
        → AreRows schema.columns.items rows
        → length (bytes_of_version version layout schema.name schema.columns.items rows)
        ≡ file_size version layout schema (length rows) }
    ensures segments { (rows : List (List Value)) → length (groups_of rows)
        ≡ segment_count (length rows) }
{}

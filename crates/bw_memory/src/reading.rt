//! Reads a table into memory.
ghost use Rattle.std.specs.Prelude.{◌≡◌, ◌-◌, ◌^◌, ◌<◌, ℕ, List, [], None, Some, IsTrue, IfOk};
ghost use Rattle.std.specs.Prelude.{IfErr};
ghost use Rattle.bw_model.specs.declared.schema.Schema.{Schema};
ghost use Rattle.bw_model.specs.Row.{Value};
ghost use Rattle.bw_segment.specs.ColumnBlocks.{StoresBlocks};
ghost use Rattle.bw_io.specs.Source.{TellsFailure, is_input_fault};
ghost use Rattle.bw_file.specs.declared.layout.Layout.{Layout};
ghost use Rattle.bw_file.specs.Blocks.{form_of};
ghost use Rattle.bw_file.specs.FileBytes.{IsFileBytes};
ghost use Rattle.bw_file.specs.Reading.{State, state_at};
ghost use Rattle.bw_file.specs.TableReader.{AnswersFault, ReadProgress, bytes_taken, layout_in};
ghost use Rattle.bw_file.specs.TableReader.{rows_given, schema_in, final_result};
ghost use Rattle.bw_file.specs.TableReading.{IsTableFault};
ghost use Rattle.bw_memory.specs.MemoryTable.{HasReadTable, layout_of, rows_of, schema_of};
ghost use Rattle.bw_memory.specs.ReadSegments.{StoresAllSegments};

use crate::layouts::{no_columns, push_segment, shared_placement};
use crate::table::MemoryTable;
use bw_file::{TableReader, a_file_is_read_whole, bytes_were_taken};
use bw_io::Source;
use bw_model::Fault;
use bw_segment::ColumnBlocks;
use std::alloc::Global;

impl MemoryTable {
    /// Reads a table file into memory, and validates each segment. Memory grows with the bytes that
    /// are read, by at most a sixteenth at a time; no header makes it grow.
    ///
    /// Errors are those of [`TableReader`]: 301 to 310, by the file's first error; 701 if a read
    /// fails; 801 if memory is refused. The source's count of errors must be able to rise.
    pub fn read<S: Source>(alloc: Global, source: &mut S) -> Result<Self, Fault>
        requires { (S.state source.old).failures < 2 ^ 64 - 1 }
        ensures table { IfOk result (λ table. (offset : ℕ)
            × HasReadTable (state_at (S.state source.old) 0) (state_at (S.state source.new) offset)
            (layout_of table) (schema_of table) (rows_of table)) }
        ensures refused { IfErr result (λ fault. (offset : ℕ)
            × AnswersFault (state_at (S.state source.old) 0) (state_at (S.state source.old) 0)
            (state_at (S.state source.new) offset) fault) }
        ensures fault { IfErr result IsTableFault }

        // If the unread bytes are known, a success shows that they are the table's file. If they
        // are a table file's, only a failed read or memory can fail.
        ensures file { (bytes : List ℕ) → (S.state source.old).known ≡ Some bytes
            → IfOk result (λ table. IsFileBytes bytes (layout_of table) (schema_of table)
            (rows_of table)) }
        ensures accepted { (bytes : List ℕ) (layout : Layout) (schema : Schema)
            (rows : List (List Value)) → (S.state source.old).known ≡ Some bytes
            → IsFileBytes bytes layout schema rows
            → IfErr result (λ fault. IsTrue (is_input_fault fault)) }
        ensures source { TellsFailure (S.state source.old) (S.state source.new) result }
    {
        a_file_is_read_whole();
        let mut reader = TableReader::begin(alloc, source)?;
        read_table(alloc, &mut reader, source)
    }
}

/// Returns the table of a file of which only the header was read.
fn read_table<S: Source>(
    alloc: Global,
    reader: &mut TableReader,
    source: &mut S,
) -> Result<MemoryTable, Fault>
    requires counter_fits { (S.state source.old).failures < 2 ^ 64 - 1 }
    requires fresh { (rows_given reader.old ≡ 0) × (final_result reader.old ≡ None) }
    requires began { (start : State) × ReadProgress start
        (state_at (S.state source.old) (bytes_taken reader.old)) reader.old [] }
    ensures table { IfOk result (λ table. (start : State)
        → ReadProgress start (state_at (S.state source.old) (bytes_taken reader.old)) reader.old []
        → HasReadTable start (state_at (S.state source.new) (bytes_taken reader.new))
        (layout_of table) (schema_of table) (rows_of table)) }
    ensures refused { IfErr result (λ fault. (start : State)
        → ReadProgress start (state_at (S.state source.old) (bytes_taken reader.old)) reader.old []
        → AnswersFault start (state_at (S.state source.old) (bytes_taken reader.old))
        (state_at (S.state source.new) (bytes_taken reader.new)) fault) }
    ensures fault { IfErr result IsTableFault }
{
    bytes_were_taken();
    let layout = reader.layout();
    let placement = shared_placement(alloc, layout, reader.schema())?;
    let mut columns = no_columns(alloc, layout, &placement)?;
    let segments = read_segments(reader, source, &mut columns)?;
    Ok(MemoryTable {
        layout,
        placement,
        rows: reader.given(),
        segments,
        columns,
    })
}

/// Reads all segments, and adds their blocks to the columns. Returns the number of segments.
fn read_segments<S: Source>(
    reader: &mut TableReader,
    source: &mut S,
    columns: &mut [ColumnBlocks],
) -> Result<u32, Fault>
    requires counter_fits { (S.state source.old).failures < 2 ^ 64 - 1 }
    requires fresh { (rows_given reader.old ≡ 0) × (final_result reader.old ≡ None) }
    requires none { StoresBlocks (form_of (layout_in reader.old))
        (schema_in reader.old).columns.items
        0 columns.old }
    ensures kept { IfOk result (λ count. StoresAllSegments
        (state_at (S.state source.old) (bytes_taken reader.old))
        (state_at (S.state source.new) (bytes_taken reader.new)) reader.old (rows_given reader.new)
        count columns.new) }
    ensures refused { IfErr result (λ fault. (start : State)
        → ReadProgress start (state_at (S.state source.old) (bytes_taken reader.old)) reader.old []
        → AnswersFault start (state_at (S.state source.old) (bytes_taken reader.old))
        (state_at (S.state source.new) (bytes_taken reader.new)) fault) }
    ensures fault { IfErr result IsTableFault }
{
    bytes_were_taken();
    let mut count = 0;
    while let Some(segment) = reader.next_segment(source)? {
        let pushed = push_segment(columns, &segment);
        drop(segment);
        pushed?;
        count += 1;
    }
    Ok(count)
}

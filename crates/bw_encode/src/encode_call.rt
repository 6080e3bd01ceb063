//! A CSV text encoded: a table of numbers and codes, and a text of what the codes stand for.
ghost use Rattle.std.specs.Prelude.{◌≡◌, ◌+◌, ◌-◌, ◌^◌, ◌<◌, false, IfOk, IfErr, Err, Ok};
ghost use Rattle.bw_model.specs.Fault.{is_memory};
ghost use Rattle.bw_model.specs.Limits.{longest_csv};
ghost use Rattle.bw_io.specs.Sink.{GoesOut};
ghost use Rattle.bw_io.specs.Source.{Arrival, ReadOutcome, SourceEffect};
ghost use Rattle.bw_encode.specs.Encode.{Encodes, EncodeOutcome};
ghost use Rattle.bw_encode.specs.Rows.{is_device_fault, rows_of};

use crate::coded_table::TextColumns;
use crate::dialect::Dialect;
use crate::fields_text::push_end;
use crate::selection::Selection;
use crate::table_maker::TableMaker;
use bw_csv::read_csv;
use bw_io::{Sink, Source, write_whole};
use bw_model::Fault;
use std::alloc::Global;
use std::hash::RandomState;

/// The two texts of an encoded CSV text.
#[derive(Drop)]
struct Texts {
    fields: Vec<u8>,
    table: Vec<u8>,
}

/// Writes the two texts of the selected rows and fields of a CSV text: what the codes of its columns
/// stand for, and then the table of its numbers and codes. With a limit of rows, the first text ends
/// with the number of bytes before the first row that wasn't read. Nothing is written before all else has succeeded. Fields are found by
/// hashes that depend on the hasher's keys. Each device's count of failures must be less than
/// 2^64 - 1.
///
/// Errors, in this order: the CSV's source (701) and length (208); its first wrong record (201,
/// 209, 105, 203, 207); the first sink (702), and then the second (702), of which the one whose
/// count of failures rose has failed. 801 at any time, if memory is refused.
pub fn encode_text<C: Source, F: Sink, K: Sink, M: TableMaker>(
    alloc: Global,
    hasher: RandomState,
    dialect: Dialect,
    selection: Selection<'_>,
    maker: &M,
    csv_source: &mut C,
    fields_sink: &mut F,
    sink: &mut K,
) -> Result<(), Fault>
    requires csv { (C.state csv_source.old).failures < 2 ^ 64 - 1 }
    requires fields { (F.state fields_sink.old).failures < 2 ^ 64 - 1 }
    requires sink { (K.state sink.old).failures < 2 ^ 64 - 1 }

    // What was written, by what the source yielded.
    ensures encoded { (csv : Arrival)
        × ReadOutcome longest_csv (C.state csv_source.old) (C.state csv_source.new) csv
        × EncodeOutcome dialect selection.entry (M.bytes_of maker.now) csv
        (F.state fields_sink.old) (F.state fields_sink.new) (K.state sink.old) (K.state sink.new) result }

    // Of the source at most one byte past its limit is read. The call fails by a failed read if and
    // only if the source's count of failures rose.
    ensures csv { SourceEffect (longest_csv + 1) (C.state csv_source.old)
        (C.state csv_source.new) result }
{
    let csv = read_csv(alloc, csv_source)?;
    let texts = texts_of(alloc, hasher, dialect, selection, maker, &csv)?;
    write_whole(fields_sink, &texts.fields)?;
    write_whole(sink, &texts.table)
}

/// Returns the two texts of a CSV text. Errors: those of [`TextColumns::read`].
fn texts_of<M: TableMaker>(
    alloc: Global,
    hasher: RandomState,
    dialect: Dialect,
    selection: Selection<'_>,
    maker: &M,
    csv: &[u8],
) -> Result<Texts, Fault>
    ensures texts { IfOk result (λ texts. Encodes dialect selection.entry (M.bytes_of maker.now) csv.now
        texts.fields.items texts.table.items) }
    ensures fault { IfErr result (λ fault. is_memory fault ≡ false
        → rows_of dialect selection.entry csv.now ≡ Err fault) }
    ensures device { IfErr result (λ fault. is_device_fault fault ≡ false) }
{
    let columns = TextColumns::read(alloc, dialect, selection, csv)?;
    let coded = columns.encode(alloc, hasher)?;
    let mut fields = coded.fields_text(alloc)?;
    push_end(&mut fields, selection.rows, columns.bytes_read())?;
    let table = maker.make(alloc, &coded)?;
    Ok(Texts { fields, table })
}

//! A CSV text of any fields, encoded as a table file or a file by columns.
ghost use Rattle.std.specs.Prelude.{◌-◌, ◌^◌, ◌<◌, ◌+◌};
ghost use Rattle.bw_model.specs.Limits.{longest_csv};
ghost use Rattle.bw_io.specs.Source.{Arrival, ReadOutcome, SourceEffect};
ghost use Rattle.bw_encode.specs.Encode.{EncodeOutcome};
ghost use Rattle.bw_file.specs.Columnar.{bytes_in_order};

use bw_encode::{CodedTable, Dialect, Selection, TableMaker, encode_text};
use bw_file::{Encoder, FileOrder, Layout};
use bw_io::{Sink, Source};
use bw_model::Fault;
use std::alloc::Global;
use std::hash::RandomState;

/// The form of the file that is made of coded columns.
#[derive(Clone, Copy)]
pub struct FileForm {
    pub order: FileOrder,
    pub layout: Layout,
}

impl TableMaker for FileForm {
    ghost use Rattle.bw_file.specs.Columnar.{bytes_in_order};

    ghost bytes_of = { λ form. bytes_in_order form.order form.layout };

    fn make(&self, alloc: Global, table: &CodedTable<'_>) -> Result<Vec<u8>, Fault> {
        let schema = table.schema(alloc)?;
        let mut encoder = Encoder::new(alloc, self.layout, &schema)?;
        table.deliver(alloc, &mut encoder)?;
        encoder.finish_in_order(self.order)
    }
}

/// Writes two texts of the selected rows and fields of a CSV text, which may be any bytes: what the
/// codes of its columns stand for, and then the file of its numbers and codes, by rows or by columns, in
/// a layout. With a limit of rows, the first ends with the number of bytes before the first row that
/// wasn't read. Nothing is written before all else has succeeded. Fields are found by hashes that depend on the hasher's keys. Each device's
/// count of failures must be less than 2^64 - 1.
///
/// Errors, in this order: the CSV's source (701) and length (208); its first wrong record (201,
/// 209, 105, 203, 207); the first sink (702), and then the second (702). 801 at any time, if memory
/// is refused.
pub fn encode<C: Source, F: Sink, K: Sink>(
    alloc: Global,
    hasher: RandomState,
    dialect: Dialect,
    selection: Selection<'_>,
    form: FileForm,
    csv_source: &mut C,
    fields_sink: &mut F,
    sink: &mut K,
) -> Result<(), Fault>
    requires csv { (C.state csv_source.old).failures < 2 ^ 64 - 1 }
    requires fields { (F.state fields_sink.old).failures < 2 ^ 64 - 1 }
    requires sink { (K.state sink.old).failures < 2 ^ 64 - 1 }
    ensures encoded { (csv : Arrival)
        × ReadOutcome longest_csv (C.state csv_source.old) (C.state csv_source.new) csv
        × EncodeOutcome dialect selection.entry (bytes_in_order form.order form.layout) csv
        (F.state fields_sink.old) (F.state fields_sink.new) (K.state sink.old) (K.state sink.new) result }
    ensures csv { SourceEffect (longest_csv + 1) (C.state csv_source.old)
        (C.state csv_source.new) result }
{
    encode_text(
        alloc,
        hasher,
        dialect,
        selection,
        &form,
        csv_source,
        fields_sink,
        sink,
    )
}

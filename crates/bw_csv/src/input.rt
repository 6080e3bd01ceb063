//! A CSV text, read completely.
ghost use Rattle.std.specs.Prelude.{◌≡◌, ◌+◌, ◌-◌, ◌^◌, ◌<◌, false, IfErr, IsTrue};
ghost use Rattle.bw_csv.specs.Rows.{is_reader_fault};
ghost use Rattle.bw_io.specs.Sink.{is_write_fault};
ghost use Rattle.bw_model.specs.Limits.{longest_csv};
ghost use Rattle.bw_io.specs.Source.{Arrival, ReadOutcome, SourceEffect};
ghost use Rattle.bw_csv.specs.Input.{is_csv_input_fault, IsCsvResult};

use bw_io::{Input, Source, read_limited};
use bw_model::{Fault, MAX_CSV_LEN, code};
use std::alloc::Global;

/// Reads a CSV text completely: at most 2^30 bytes. The source's count of failures must be less
/// than 2^64 - 1.
///
/// Errors: 701 if a read fails; 208 if the text is longer, of which one byte more is read; 801 if
/// memory is refused.
pub fn read_csv<C: Source>(alloc: Global, source: &mut C) -> Result<Vec<u8>, Fault>
    requires { (C.state source.old).failures < 2 ^ 64 - 1 }
    ensures answered { (came : Arrival) × ReadOutcome longest_csv (C.state source.old)
        (C.state source.new) came × IsCsvResult came result }
    ensures source { SourceEffect (longest_csv + 1) (C.state source.old)
        (C.state source.new) result }
    ensures fault { IfErr result (λ fault. is_write_fault fault ≡ false) }
    ensures not_reader { IfErr result (λ fault. is_reader_fault fault ≡ false) }
    ensures input { IfErr result (λ fault. IsTrue (is_csv_input_fault fault)) }
{
    match read_limited(alloc, source, MAX_CSV_LEN)? {
        Input::Whole(text) => Ok(text),
        Input::Over => Err(Fault::new(code::CSV_TOO_LONG)),
    }
}

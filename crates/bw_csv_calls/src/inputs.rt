//! The text of a schema, read completely.
ghost use Rattle.std.specs.Prelude.{◌≡◌, ◌+◌, ◌-◌, ◌^◌, ◌<◌, false, IfErr};
ghost use Rattle.bw_csv.specs.Rows.{is_reader_fault};
ghost use Rattle.bw_io.specs.Sink.{is_write_fault};
ghost use Rattle.bw_model.specs.Limits.{longest_schema};
ghost use Rattle.bw_io.specs.Source.{Arrival, ReadOutcome, SourceEffect};
ghost use Rattle.bw_csv_calls.specs.ReadInputs.{IsSchemaFrom};

use bw_io::{Input, Source, read_limited};
use bw_model::{Fault, MAX_SCHEMA_LEN, Schema, code};
use std::alloc::Global;

/// Reads the schema of a schema text. Errors: the source's (701), and then the text's (106, 101 to
/// 105); 801 if memory is refused.
pub(crate) fn read_schema<S: Source>(alloc: Global, source: &mut S) -> Result<Schema, Fault>
    requires { (S.state source.old).failures < 2 ^ 64 - 1 }
    ensures answered { (came : Arrival) × ReadOutcome longest_schema (S.state source.old)
        (S.state source.new) came × IsSchemaFrom came result }
    ensures source { SourceEffect (longest_schema + 1) (S.state source.old)
        (S.state source.new) result }
    ensures fault { IfErr result (λ fault. is_write_fault fault ≡ false) }
    ensures not_reader { IfErr result (λ fault. is_reader_fault fault ≡ false) }
{
    match read_limited(alloc, source, MAX_SCHEMA_LEN as u64)? {
        Input::Whole(text) => Schema::parse(alloc, &text),
        Input::Over => Err(Fault::new(code::SCHEMA_TOO_LONG)),
    }
}

//! The segments of a table file, from its reader.
ghost use Rattle.std.specs.Prelude.{◌≡◌, ◌+◌, ◌-◌, ◌≤◌, OnOk, length, IsOkUnless};
ghost use Rattle.bw_model.specs.Fault.{no_memory};
ghost use Rattle.bw_model.specs.Limits.{most_rows};
ghost use Rattle.bw_file.specs.AnySegment.{any_meaning};
ghost use Rattle.bw_file.specs.Reading.{state_at};
ghost use Rattle.bw_file.specs.TableReader.{bytes_taken, rows_given, rows_stated, schema_in};
ghost use Rattle.bw_query.specs.SegmentLemmas.{file_fails_after, file_fails_among};
ghost use Rattle.bw_query.specs.Segments.{Consumes, HasFailed, HasGiven, HasGivenAll};

use crate::consumer::SegmentConsumer;
use crate::segments::Segments;
use bw_file::{AnySegment, TableReader, with_segment};
use bw_io::Source;
use bw_model::{Fault, Schema};
use bw_run::Registers;

impl<S: Source> Segments<S> for TableReader {
    ghost table = { schema_in };

    ghost stated = { rows_stated };

    ghost given = { rows_given };

    ghost left = { λ reader. rows_stated reader - rows_given reader };

    ghost gave = { λ reader from groups next source.
        HasGiven (state_at (S.state from) (bytes_taken reader)) reader groups
        (state_at (S.state source) (bytes_taken next)) next };

    ghost ended = { λ reader from groups next source.
        HasGivenAll (state_at (S.state from) (bytes_taken reader)) reader groups
        (state_at (S.state source) (bytes_taken next)) };

    ghost failed = { λ reader from next source.
        HasFailed (state_at (S.state from) (bytes_taken reader)) reader
        (state_at (S.state source) (bytes_taken next)) };

    fn schema(&self) -> &Schema {
        TableReader::schema(self)
    }

    fn rows(&self) -> u32 {
        TableReader::rows(self)
    }

    #[inline(always)]
    fn take_next<C: SegmentConsumer>(
        &mut self,
        source: &mut S,
        registers: &mut Registers,
        consumer: &mut C,
    ) -> Result<bool, Fault> {
        match self.next_segment(source)? {
            Some(segment) => {
                let taken = take_either(&segment, registers, consumer);
                drop(segment);
                taken?;
                Ok(true)
            }
            None => Ok(false),
        }
    }

    ghost fails_among = { λ reader from groups next source. file_fails_among _ reader groups _ next };

    ghost fails_after = { λ reader from groups next source. file_fails_after _ reader groups _ };
}

/// Hands a segment in either layout to a consumer. The layout is looked up once a segment.
#[tactic(auto, unfolding(bw_file::specs::AnySegment::any_meaning))]
#[inline(always)]
fn take_either<C: SegmentConsumer>(
    segment: &AnySegment,
    registers: &mut Registers,
    consumer: &mut C,
) -> Result<(), Fault>
    requires fits { C.fits consumer.old (any_meaning segment.now).columns }
    requires capacity { C.rows consumer.old + length (any_meaning segment.now).rows ≤ most_rows }
    ensures consumes { OnOk result (Consumes (any_meaning segment.now).columns
        (any_meaning segment.now).rows C.fits C.rows C.over consumer.old consumer.new) }
    ensures only_oom { IsOkUnless result no_memory }
{
    with_segment!(segment, segment => consumer.take(segment, registers))
}

//! An answer that consumes what a scan finds.
ghost use Rattle.std.specs.Prelude.{◌≡◌, ◌+◌, ◌≤◌, IfOk, length, IsOkUnless};
ghost use Rattle.bw_model.specs.Fault.{no_memory};
ghost use Rattle.bw_model.specs.Limits.{most_rows};
ghost use Rattle.bw_answer.specs.Progress.{query_in};
ghost use Rattle.bw_query.specs.Consumers.{AnswersColumns, AnswersGroup, HasAnswered, IsTextFrom};
ghost use Rattle.bw_query.specs.Scan.{IsFor};
ghost use Rattle.bw_query.specs.declared.scan.Scan.TheVariants.{Program, Rows};

use crate::consumer::SegmentConsumer;
use crate::scan::Scan;
use crate::served::{Scanned, TableText};
use bw_answer::Answer;
use bw_cert::Certified;
use bw_model::Fault;
use bw_run::{Counts, Registers};
use bw_segment::Segment;

/// An answer that consumes the rows that a scan finds.
#[derive(Drop)]
pub(crate) struct AnswerConsumer<'a, 'q> {
    pub(crate) scan: &'a Scan,
    pub(crate) answer: Answer<'q>,
    pub(crate) scanned: Scanned,
}

impl SegmentConsumer for AnswerConsumer<'_, '_> {
    ghost fits = { AnswersColumns };

    ghost rows = { λ consumer. consumer.answer.rows };

    ghost over = { HasAnswered };

    ghost gives = { λ start. IsTextFrom start.answer start.scan.now };

    #[inline(always)]
    fn take<S: Segment>(&mut self, segment: &S, registers: &mut Registers) -> Result<(), Fault> {
        let more = take_segment(segment, self.scan, registers, &mut self.answer)?;
        self.scanned = self.scanned.plus(more);
        Ok(())
    }

    fn into_text(self) -> Result<TableText, Fault> {
        let AnswerConsumer {
            scan: _,
            answer,
            scanned,
        } = self;
        Ok(TableText {
            text: answer.into_text()?,
            scanned,
        })
    }
}

/// Consumes the rows of a segment that a scan finds. Returns the counts of its run.
#[inline(always)]
fn take_segment<S: Segment>(
    segment: &S,
    scan: &Scan,
    registers: &mut Registers,
    answer: &mut Answer<'_>,
) -> Result<Counts, Fault>
    requires scan { IsFor (S.meaning segment.now).columns (query_in answer.old).cond scan.now }
    requires width { answer.old.width ≡ length (S.meaning segment.now).columns }
    requires capacity { answer.old.rows + length (S.meaning segment.now).rows ≤ most_rows }
    ensures taken { IfOk result (AnswersGroup (S.meaning segment.now).columns scan.now answer.old
        answer.new (S.meaning segment.now).rows) }
    ensures only_oom { IsOkUnless result no_memory }
{
    match scan {
        Scan::Program(certified) => take_by_program(segment, certified, registers, answer),
        Scan::Rows => take_by_fallback(segment, answer),
    }
}

/// Consumes the rows of a segment that a program selects. Returns the counts of its run.
#[inline(always)]
fn take_by_program<S: Segment>(
    segment: &S,
    certified: &Certified,
    registers: &mut Registers,
    answer: &mut Answer<'_>,
) -> Result<Counts, Fault>
    requires scan { IsFor (S.meaning segment.now).columns (query_in answer.old).cond
        (Program certified.now) }
    requires width { answer.old.width ≡ length (S.meaning segment.now).columns }
    requires capacity { answer.old.rows + length (S.meaning segment.now).rows ≤ most_rows }
    ensures taken { IfOk result (AnswersGroup (S.meaning segment.now).columns
        (Program certified.now) answer.old answer.new (S.meaning segment.now).rows) }
    ensures only_oom { IsOkUnless result no_memory }
{
    certified.condition().same_meaning(&answer.query().cond);
    let (selection, counts) = certified.run_in(segment, registers);
    answer.take_selected(segment, selection)?;
    Ok(counts)
}

/// Consumes the rows of a segment that the fallback selects.
fn take_by_fallback<S: Segment>(segment: &S, answer: &mut Answer<'_>) -> Result<Counts, Fault>
    requires width { answer.old.width ≡ length (S.meaning segment.now).columns }
    requires capacity { answer.old.rows + length (S.meaning segment.now).rows ≤ most_rows }
    ensures taken { IfOk result (AnswersGroup (S.meaning segment.now).columns Rows answer.old
        answer.new (S.meaning segment.now).rows) }
    ensures only_oom { IsOkUnless result no_memory }
{
    answer.take_segment(segment)?;
    Ok(Counts { loads: 0, skips: 0 })
}

//! The number of the rows that a program selects.
ghost use Rattle.std.specs.Prelude.{◌≡◌, length};
ghost use Rattle.bw_model.specs.Selection.{matching_rows};
ghost use Rattle.bw_answer.specs.Progress.{query_in};
ghost use Rattle.bw_query.specs.Consumers.{CountsColumns, HasCounted, IsRunOver, IsTextCounted};
ghost use Rattle.bw_query.specs.Scan.{IsFor};
ghost use Rattle.bw_query.specs.declared.scan.Scan.TheVariants.{Program};

use crate::consumer::SegmentConsumer;
use crate::served::{Scanned, TableText};
use bw_answer::Answer;
use bw_cert::Certified;
use bw_model::Fault;
use bw_run::{Counts, Registers};
use bw_segment::Segment;

/// Counts the rows of segments, and those that a program selects, for a query that only counts
/// them. It may begin with numbers of rows that were counted before. No value is read but by the
/// program, and the answer gets both numbers at the end.
#[derive(Drop)]
pub(crate) struct MatchCounter<'a, 'q> {
    pub(crate) certified: &'a Certified,
    pub(crate) answer: Answer<'q>,
    pub(crate) rows: u32,
    pub(crate) matches: u32,
    pub(crate) scanned: Scanned,
}

impl SegmentConsumer for MatchCounter<'_, '_> {
    ghost fits = { CountsColumns };

    ghost rows = { λ counter. counter.rows };

    ghost over = { HasCounted };

    ghost gives = { IsTextCounted };

    #[inline(always)]
    fn take<S: Segment>(&mut self, segment: &S, registers: &mut Registers) -> Result<(), Fault> {
        let (found, more) = count_in(segment, self.certified, &self.answer, registers);
        self.rows += segment.rows_in();
        self.matches += found;
        self.scanned = self.scanned.plus(more);
        Ok(())
    }

    fn into_text(self) -> Result<TableText, Fault> {
        let MatchCounter {
            certified: _,
            mut answer,
            rows,
            matches,
            scanned,
        } = self;
        answer.take_matches(rows, matches);
        Ok(TableText {
            text: answer.into_text()?,
            scanned,
        })
    }
}

/// Returns how many rows of a segment match the condition of an answer, for which a program is
/// certified, and the counts of the program's run.
#[inline(always)]
fn count_in<S: Segment>(
    segment: &S,
    certified: &Certified,
    answer: &Answer<'_>,
    registers: &mut Registers,
) -> (u32, Counts)
    requires { IsFor (S.meaning segment.now).columns (query_in answer.now).cond
        (Program certified.now) }
    ensures matches { result.0
        ≡ length (matching_rows (query_in answer.now).cond (S.meaning segment.now).rows) }
    ensures run { IsRunOver (S.meaning segment.now).columns (Program certified.now)
        (S.meaning segment.now).rows result.1 }
{
    certified.condition().same_meaning(&answer.query().cond);
    certified.count_matches(segment, registers)
}

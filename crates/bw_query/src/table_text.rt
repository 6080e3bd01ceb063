//! The text of a result over a table's segments, one after another.
ghost use Rattle.std.specs.Prelude.{◌≡◌, ◌≤◌, [], false, IsTrue, IfOk, IfErr, length, vec_len};
ghost use Rattle.std.specs.Prelude.{IsOkUnless};
ghost use Rattle.std.specs.List.{list_all};
ghost use Rattle.bw_model.specs.Column.{names_of};
ghost use Rattle.bw_model.specs.Fault.{no_memory};
ghost use Rattle.bw_model.specs.Limits.{most_rows};
ghost use Rattle.bw_model.specs.Total.{item_within};
ghost use Rattle.bw_sql.specs.Items.{AreOfOneKind};
ghost use Rattle.bw_answer.specs.Progress.{IsOver};
ghost use Rattle.bw_io.specs.Sink.{is_write_fault};
ghost use Rattle.bw_query.specs.Scan.{IsFor};
ghost use Rattle.bw_query.specs.Segments.{GivesText, IsTextOf};

use crate::answer_consumer::AnswerConsumer;
use crate::consumer::SegmentConsumer;
use crate::match_counter::MatchCounter;
use crate::scan::Scan;
use crate::segments::Segments;
use crate::served::{NOTHING_SCANNED, TableText};
use bw_answer::Answer;
use bw_model::{Fault, Query, Schema};
use bw_run::registers;
use std::alloc::Global;

/// Returns the text of the result of a query over a table, of which no segment came so far. It is
/// complete once the last segment came and nothing follows. A query that only counts the rows that
/// a program selects reads no values.
#[inline(always)]
pub(crate) fn table_text<I, T: Segments<I>>(
    alloc: Global,
    segments: &mut T,
    input: &mut I,
    query: &Query,
    scan: &Scan,
) -> Result<TableText, Fault>
    requires fresh { T.gave segments.old input.old [] segments.old input.old }
    requires none { T.given segments.old ≡ 0 }
    requires items { IsTrue (list_all (item_within (vec_len (T.table segments.old).columns))
        query.now.items.items) }
    requires nonempty { 1 ≤ length query.now.items.items }
    requires kinds { AreOfOneKind query.now.items.items }
    requires scan { IsFor (T.table segments.old).columns.items query.now.cond scan.now }
    ensures text { IfOk result (λ found. IsTextOf (T.table segments.old).columns.items query.now
        scan.now (λ groups. T.ended segments.old input.old groups segments.new input.new)
        found.text.items found.scanned) }
    ensures refused { IfErr result (T.failed segments.old input.old segments.new input.new) }
    ensures fault { IfErr result (λ fault. is_write_fault fault ≡ false) }
{
    let answer = empty_answer(alloc, segments.schema(), segments.rows(), query)?;
    let scanned = NOTHING_SCANNED;
    match scan {
        Scan::Program(certified) if answer.only_counts() => {
            let counter = MatchCounter {
                certified,
                answer,
                rows: 0,
                matches: 0,
                scanned,
            };
            consumed_text(segments, input, counter)
        }
        _ => {
            let consumer = AnswerConsumer {
                scan,
                answer,
                scanned,
            };
            consumed_text(segments, input, consumer)
        }
    }
}

/// Returns the result of a query over no rows, with memory for its text over so many rows, if it
/// lists each. Errors: 801 if memory is refused.
pub(crate) fn empty_answer<'q>(
    alloc: Global,
    schema: &Schema,
    rows: u32,
    query: &'q Query,
) -> Result<Answer<'q>, Fault>
    requires items { IsTrue (list_all (item_within (vec_len schema.now.columns))
        query.now.items.items) }
    requires nonempty { 1 ≤ length query.now.items.items }
    requires kinds { AreOfOneKind query.now.items.items }
    ensures over { IfOk result (IsOver (names_of schema.now.columns.items) query.now []) }
    ensures width { IfOk result (λ answer. answer.width ≡ length schema.now.columns.items) }
    ensures fresh { IfOk result (λ answer. answer.rows ≡ 0) }
    ensures only_oom { IsOkUnless result no_memory }
{
    let mut answer = Answer::new(alloc, schema, query)?;
    answer.reserve(rows)?;
    Ok(answer)
}

/// Hands all segments to a consumer. It must have consumed as many rows as were given before the
/// first one. Returns its text.
#[inline(always)]
pub(crate) fn consumed_text<I, T: Segments<I>, C: SegmentConsumer + Drop>(
    segments: &mut T,
    input: &mut I,
    mut consumer: C,
) -> Result<TableText, Fault>
    requires fresh { T.gave segments.old input.old [] segments.old input.old }
    requires rows { C.rows consumer ≡ T.given segments.old }
    requires capacity { T.given segments.old ≤ most_rows }
    requires fits { C.fits consumer (T.table segments.old).columns.items }
    requires over { C.over consumer (T.table segments.old).columns.items [] consumer }
    ensures text { IfOk result (GivesText (λ groups. T.ended segments.old input.old groups
        segments.new input.new) (C.gives consumer (T.table segments.old).columns.items)) }
    ensures refused { IfErr result (T.failed segments.old input.old segments.new input.new) }
    ensures fault { IfErr result (λ fault. is_write_fault fault ≡ false) }
{
    let mut registers = registers();
    while segments.take_next(input, &mut registers, &mut consumer)? {}
    consumer.into_text()
}

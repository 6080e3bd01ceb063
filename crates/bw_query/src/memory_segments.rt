//! The segments of a table in memory.
ghost use Rattle.std.proofs.Props.{props};
ghost use Rattle.std.specs.Prelude.{◌≡◌, ◌+◌, ◌-◌, ◌<◌, ◌≤◌, IfOk, IfSome, IsTrue, length, vec_len};
ghost use Rattle.std.specs.Prelude.{IsOkUnless, None, ℕ, false, true};
ghost use Rattle.std.specs.List.{list_all};
ghost use Rattle.bw_model.specs.Fault.{no_memory};
ghost use Rattle.bw_model.specs.Groups.{together};
ghost use Rattle.bw_model.specs.Limits.{most_rows};
ghost use Rattle.bw_model.specs.Total.{item_within};
ghost use Rattle.bw_sql.specs.Items.{AreOfOneKind};
ghost use Rattle.bw_answer.specs.Answer.{is_count_all};
ghost use Rattle.bw_answer.specs.Progress.{query_in};
ghost use Rattle.bw_file.specs.Blocks.{form_of};
ghost use Rattle.bw_memory.specs.MemoryTable.{groups_in, layout_of, meaning_numbered, placement_of};
ghost use Rattle.bw_memory.specs.MemoryTable.{rows_of, schema_of, segments_in};
ghost use Rattle.bw_memory.specs.Settled.{HaveVerdicts};
ghost use Rattle.bw_query.specs.Consumers.{IsTextOfRest};
ghost use Rattle.bw_query.specs.Scan.{IsFor};
ghost use Rattle.bw_query.specs.SegmentLemmas.{memory_fails};
ghost use Rattle.bw_query.specs.Segments.{IsTextOf, IsTextOver, open_groups};
ghost use Rattle.bw_query.specs.Settled.{is_settled};
ghost use Rattle.bw_query.specs.declared.scan.Scan.TheVariants.{Program};

use crate::answer_consumer::AnswerConsumer;
use crate::consumer::SegmentConsumer;
use crate::match_counter::MatchCounter;
use crate::scan::Scan;
use crate::segments::Segments;
use crate::served::{NOTHING_SCANNED, TableText};
use crate::settled::{count_settled, next_open, next_settled, settled_by};
use crate::table_text::{consumed_text, empty_answer};
use bw_answer::Answer;
use bw_cert::Certified;
use bw_file::in_layout;
use bw_memory::MemoryTable;
use bw_model::{Fault, Query, Schema};
use bw_ranges::Verdict;
use bw_run::Registers;
use bw_segment::{CodeLayout, NumberedBlocks, PackedSegment, Placement, Segment};
use std::alloc::Global;
use std::marker::PhantomData;
use std::rc::Rc;

/// The segments of a table in memory, in its layout, without those that are settled.
#[derive(Drop)]
struct MemorySegments<'a, L: CodeLayout> {
    table: &'a MemoryTable,
    settled: &'a [bool],
    /// The number of the next segment.
    next: u32,
    /// From the next segment to the one before this number, none is settled.
    end: u32,
    /// How many rows of settled segments were counted beforehand.
    counted: u32,
    /// The placement of the segment before it, which the next one takes over.
    placement: Option<Rc<Placement>>,
    layout: PhantomData<L>,
    ghost packing: { form_of (layout_of table.now) ≡ L.packing },
    ghost placed: { IfSome placement (λ shared. shared.value ≡ placement_of table.now) } by { Prim.hlevel props },
    ghost within: { next ≤ end },
    ghost most: { end ≤ segments_in table.now },
    ghost open: { (number : ℕ) → next ≤ number → number < end
        → is_settled settled.now number ≡ false } by { Prim.hlevel props },
    ghost fits: { counted + length (together (open_groups table.now settled.now
        (segments_in table.now))) ≤ most_rows },
}

/// Returns the segment of a number, by the placement of another one of the table, if there is one,
/// which it takes over. Errors: 801 if memory is refused.
#[inline(always)]
pub(crate) fn next_segment<'a, L: CodeLayout>(
    table: &'a MemoryTable,
    placement: &mut Option<Rc<Placement>>,
    number: u32,
) -> Result<PackedSegment<L, NumberedBlocks<'a>>, Fault>
    requires layout { form_of (layout_of table.now) ≡ L.packing }
    requires number { number < segments_in table.now }
    requires placed { IfSome placement.old (λ shared. shared.value ≡ placement_of table.now) }
    ensures means { IfOk result (λ segment.
        ⟦<PackedSegment<L, NumberedBlocks<'a>> as Segment>⟧.meaning segment
        ≡ meaning_numbered table.now number) }
    ensures placed { IfOk result (λ segment. segment.placement.value ≡ placement_of table.now) }
    ensures taken { placement.new ≡ None }
    ensures only_oom { IsOkUnless result no_memory }
{
    match placement.take() {
        Some(placement) => Ok(table.placed_segment(placement, number)),
        None => table.segment(number),
    }
}

impl<'a, L: CodeLayout> MemorySegments<'a, L> {
    /// Returns the segments of a table that aren't settled. None came so far, and this many rows of
    /// settled ones were counted.
    fn new(table: &'a MemoryTable, settled: &'a [bool], counted: u32) -> Self
        requires layout { form_of (layout_of table.now) ≡ L.packing }
        requires fits { counted + length (together (open_groups table.now settled.now
            (segments_in table.now))) ≤ most_rows }
        ensures table { result.table.now ≡ table.now }
        ensures settled { result.settled.now ≡ settled.now }
        ensures counted { result.counted ≡ counted }
        ensures next { result.next ≡ 0 }
    {
        MemorySegments {
            table,
            settled,
            next: 0,
            end: 0,
            counted,
            placement: None,
            layout: PhantomData,
        }
    }

    /// Passes over settled segments. Returns whether there is a segment after them. No reference to
    /// the fields leaves it, so that they stay in registers.
    #[inline(always)]
    fn advance(&mut self) -> bool
        ensures table { self.new.table ≡ self.old.table }
        ensures settled { self.new.settled ≡ self.old.settled }
        ensures counted { self.new.counted ≡ self.old.counted }
        ensures from { self.old.next ≤ self.new.next }
        ensures passed { (number : ℕ) → self.old.next ≤ number → number < self.new.next
            → is_settled self.old.settled.now number ≡ true }
        ensures unsettled { result ≡ true
            → is_settled self.old.settled.now self.new.next ≡ false }
        ensures some { result ≡ true → self.new.next < self.new.end }
        ensures none { result ≡ false → self.new.next ≡ segments_in self.old.table.now }
    {
        if self.next < self.end {
            return true;
        }
        let count = self.table.segments();
        self.next = next_open(self.settled, self.next, count);
        self.end = next_settled(self.settled, self.next, count);
        self.next < count
    }
}

impl<'a, L: CodeLayout> Segments<()> for MemorySegments<'a, L> {
    ghost table = { λ segments. schema_of segments.table.now };

    ghost stated = { λ segments. length (rows_of segments.table.now) };

    ghost given = { λ segments. segments.counted + length (together (open_groups
        segments.table.now segments.settled.now segments.next)) };

    ghost left = { λ segments. segments_in segments.table.now - segments.next };

    ghost gave = { λ start _ groups segments _. (segments.table.now ≡ start.table.now)
        × (segments.settled.now ≡ start.settled.now)
        × (groups ≡ open_groups start.table.now start.settled.now segments.next) };

    ghost ended = { λ start _ groups _ _. groups ≡ open_groups start.table.now start.settled.now
        (segments_in start.table.now) };

    ghost failed = { λ _ _ _ _ fault. fault ≡ no_memory };

    fn schema(&self) -> &Schema {
        self.table.schema()
    }

    fn rows(&self) -> u32 {
        self.table.rows()
    }

    #[inline(always)]
    fn take_next<C: SegmentConsumer>(
        &mut self,
        _input: &mut (),
        registers: &mut Registers,
        consumer: &mut C,
    ) -> Result<bool, Fault> {
        if !self.advance() {
            return Ok(false);
        }
        let segment = next_segment::<L>(self.table, &mut self.placement, self.next)?;
        consumer.take(&segment, registers)?;
        self.placement = Some(segment.placement);
        self.next += 1;
        Ok(true)
    }

    ghost fails_among = { λ start from groups segments input gave. memory_fails };

    ghost fails_after = { λ start from groups segments input ended. memory_fails };
}

/// Returns the text of the result of a query over a table in memory. Errors: 801 if memory is
/// refused.
pub(crate) fn memory_text(
    alloc: Global,
    table: &MemoryTable,
    query: &Query,
    scan: &Scan,
) -> Result<TableText, Fault>
    requires items { IsTrue (list_all (item_within (vec_len (schema_of table.now).columns))
        query.now.items.items) }
    requires nonempty { 1 ≤ length query.now.items.items }
    requires kinds { AreOfOneKind query.now.items.items }
    requires scan { IsFor (schema_of table.now).columns.items query.now.cond scan.now }
    ensures text { IfOk result (λ found. IsTextOf (schema_of table.now).columns.items query.now
        scan.now (λ groups. groups ≡ groups_in table.now) found.text.items found.scanned) }
    ensures only_oom { IsOkUnless result no_memory }
{
    open_text(alloc, table, &[], query, scan)
}

/// Returns the text of the result of a query over a table in memory. Segments are passed over if a
/// verdict on their group settles that no row matches; or that each does, if a program's matching
/// rows are only counted. The layout is looked up once. Errors: 801 if memory is refused.
#[tactic(auto, unfolding(bw_file::specs::Blocks::form_of))]
pub(crate) fn open_text(
    alloc: Global,
    table: &MemoryTable,
    verdicts: &[Verdict],
    query: &Query,
    scan: &Scan,
) -> Result<TableText, Fault>
    requires items { IsTrue (list_all (item_within (vec_len (schema_of table.now).columns))
        query.now.items.items) }
    requires nonempty { 1 ≤ length query.now.items.items }
    requires kinds { AreOfOneKind query.now.items.items }
    requires scan { IsFor (schema_of table.now).columns.items query.now.cond scan.now }
    requires verdicts { HaveVerdicts query.now.cond table.now verdicts.now }
    ensures text { IfOk result (λ found. IsTextOver table.now verdicts.now query.now scan.now
        found.text.items found.scanned) }
    ensures only_oom { IsOkUnless result no_memory }
{
    in_layout!(
        table.layout(),
        text_in::<_>(alloc, table, verdicts, query, scan)
    )
}

/// Returns the same of a table in this layout.
fn text_in<L: CodeLayout>(
    alloc: Global,
    table: &MemoryTable,
    verdicts: &[Verdict],
    query: &Query,
    scan: &Scan,
) -> Result<TableText, Fault>
    requires layout { form_of (layout_of table.now) ≡ L.packing }
    requires items { IsTrue (list_all (item_within (vec_len (schema_of table.now).columns))
        query.now.items.items) }
    requires nonempty { 1 ≤ length query.now.items.items }
    requires kinds { AreOfOneKind query.now.items.items }
    requires scan { IsFor (schema_of table.now).columns.items query.now.cond scan.now }
    requires verdicts { HaveVerdicts query.now.cond table.now verdicts.now }
    ensures text { IfOk result (λ found. IsTextOver table.now verdicts.now query.now scan.now
        found.text.items found.scanned) }
    ensures only_oom { IsOkUnless result no_memory }
{
    let answer = empty_answer(alloc, table.schema(), table.rows(), query)?;
    match scan {
        Scan::Program(certified) if answer.only_counts() => {
            counted_text::<L>(alloc, table, verdicts, certified, answer)
        }
        _ => found_text::<L>(alloc, table, verdicts, scan, answer),
    }
}

/// Returns the text of a result that only counts the rows that a program selects. Those of segments
/// that are passed over are counted beforehand. Errors: 801 if memory is refused.
fn counted_text<L: CodeLayout>(
    alloc: Global,
    table: &MemoryTable,
    verdicts: &[Verdict],
    certified: &Certified,
    answer: Answer<'_>,
) -> Result<TableText, Fault>
    requires layout { form_of (layout_of table.now) ≡ L.packing }
    requires verdicts { HaveVerdicts (query_in answer).cond table.now verdicts.now }
    requires program { IsFor (schema_of table.now).columns.items (query_in answer).cond
        (Program certified.now) }
    requires alone { IsTrue (list_all is_count_all (query_in answer).items.items) }
    requires fresh { answer.rows ≡ 0 }
    ensures text { IfOk result
        (IsTextOfRest answer.entry (Program certified.now) table.now true verdicts.now) }
    ensures only_oom { IsOkUnless result no_memory }
{
    let settled = settled_by(alloc, verdicts, true)?;
    let counted = count_settled(table, verdicts);
    let mut segments = MemorySegments::<L>::new(table, &settled, counted.rows);
    let counter = MatchCounter {
        certified,
        answer,
        rows: counted.rows,
        matches: counted.matches,
        scanned: NOTHING_SCANNED,
    };
    consumed_text(&mut segments, &mut (), counter)
}

/// Returns the text of a result that consumes the rows that a scan finds. Errors: 801 if memory is
/// refused.
fn found_text<L: CodeLayout>(
    alloc: Global,
    table: &MemoryTable,
    verdicts: &[Verdict],
    scan: &Scan,
    answer: Answer<'_>,
) -> Result<TableText, Fault>
    requires layout { form_of (layout_of table.now) ≡ L.packing }
    requires verdicts { HaveVerdicts (query_in answer).cond table.now verdicts.now }
    requires scan { IsFor (schema_of table.now).columns.items (query_in answer).cond scan.now }
    requires width { answer.width ≡ length (schema_of table.now).columns.items }
    requires fresh { answer.rows ≡ 0 }
    ensures text { IfOk result (IsTextOfRest answer.entry scan.now table.now false verdicts.now) }
    ensures only_oom { IsOkUnless result no_memory }
{
    let settled = settled_by(alloc, verdicts, false)?;
    let mut segments = MemorySegments::<L>::new(table, &settled, 0);
    let consumer = AnswerConsumer {
        scan,
        answer,
        scanned: NOTHING_SCANNED,
    };
    consumed_text(&mut segments, &mut (), consumer)
}

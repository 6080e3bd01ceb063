//! The segments of a file by columns, some of which are in memory at a time.
ghost use Rattle.std.proofs.Props.{props};
ghost use Rattle.std.specs.Prelude.{◌≡◌, ◌+◌, ◌-◌, ◌^◌, ◌<◌, ◌≤◌, IfErr, IfOk, IfSome, IsTrue};
ghost use Rattle.std.specs.Prelude.{false, length, true, vec_len};
ghost use Rattle.std.specs.List.{list_all};
ghost use Rattle.bw_model.specs.Total.{item_within};
ghost use Rattle.bw_sql.specs.Items.{AreOfOneKind};
ghost use Rattle.bw_io.specs.Sink.{is_write_fault};
ghost use Rattle.bw_io.specs.Source.{failed_by};
ghost use Rattle.bw_file.specs.Blocks.{form_of};
ghost use Rattle.bw_file.specs.TableReading.{IsTableFault};
ghost use Rattle.bw_memory.specs.Columnar.{column_count, is_wanted, table_in};
ghost use Rattle.bw_memory.specs.MemoryTable.{layout_of, placement_of, rows_of, schema_of};
ghost use Rattle.bw_memory.specs.MemoryTable.{segments_in};
ghost use Rattle.bw_memory.specs.Windows.{HasGroups, IsWindow, first_in, window_in};
ghost use Rattle.bw_query.specs.ColumnarSegments.{HasFailedPart, HasGivenAllParts, HasGivenParts};
ghost use Rattle.bw_query.specs.ColumnarSegments.{rows_before};
ghost use Rattle.bw_query.specs.Scan.{IsFor};
ghost use Rattle.bw_query.specs.SegmentLemmas.{parts_fail_after, parts_fail_among};
ghost use Rattle.bw_query.specs.Segments.{IsTextOf};

use crate::consumer::SegmentConsumer;
use crate::memory_segments::next_segment;
use crate::scan::Scan;
use crate::segments::Segments;
use crate::served::TableText;
use crate::table_text::table_text;
use bw_file::in_layout;
use bw_io::RandomAccess;
use bw_memory::{ColumnarTable, SegmentWindow};
use bw_model::{Fault, Query, Schema};
use bw_run::Registers;
use bw_segment::{CodeLayout, Placement};
use std::alloc::Global;
use std::marker::PhantomData;
use std::rc::Rc;

/// The segments of a file by columns, of which the columns are read that are wanted. A window of them
/// is in memory.
#[derive(Drop)]
struct ColumnarSegments<'a, L: CodeLayout> {
    alloc: Global,
    columnar: &'a ColumnarTable,
    wanted: &'a [bool],
    window: SegmentWindow,
    /// The number of the next segment in the window.
    next: u32,
    /// The placement of the segment before it, which the next one takes over.
    placement: Option<Rc<Placement>>,
    layout: PhantomData<L>,
    ghost packing: { form_of (layout_of (table_in columnar.now)) ≡ L.packing },
    ghost each: { length wanted.now ≡ column_count columnar.now },
    ghost placed: { IfSome placement (λ shared. shared.value ≡ placement_of (table_in columnar.now)) } by { Prim.hlevel props },
    ghost within: { next ≤ segments_in (window_in window) },
}

impl<'a, L: CodeLayout> ColumnarSegments<'a, L> {
    /// Returns whether there is a next segment. Reads the next ones of the file, if all of the window
    /// have come. Errors: those of [`SegmentWindow::read_next`].
    #[inline(always)]
    fn has_next<D: RandomAccess>(&mut self, device: &mut D) -> Result<bool, Fault>
        requires counter_fits { (D.state device.old).failures < 2 ^ 64 - 1 }
        requires window { IsWindow (D.state device.old).known self.old.columnar.now
            (is_wanted self.old.wanted.now) self.old.window }
        ensures window { IfOk result (λ _. IsWindow (D.state device.old).known
            self.old.columnar.now (is_wanted self.old.wanted.now) self.new.window) }
        ensures some { IfOk result (λ came. IsTrue came
            → self.new.next < segments_in (window_in self.new.window)) }
        ensures next { IfOk result (λ _. first_in self.new.window + self.new.next
            ≡ first_in self.old.window + self.old.next) }
        ensures ended { IfOk result (λ came. came ≡ false
            → first_in self.old.window + self.old.next
            ≡ segments_in (table_in self.old.columnar.now)) }
        ensures columnar { self.new.columnar.now ≡ self.old.columnar.now }
        ensures wanted { self.new.wanted.now ≡ self.old.wanted.now }
        ensures fault { IfErr result IsTableFault }
        ensures same { (D.state device.new).known ≡ (D.state device.old).known }
        ensures count { (D.state device.new).failures
            ≡ (D.state device.old).failures + failed_by result }
    {
        if self.next < self.window.table().segments() {
            return Ok(true);
        }
        if self.window.end() == self.columnar.table().segments() {
            return Ok(false);
        }
        self.next = 0;
        self.window
            .read_next(self.alloc, device, self.columnar, self.wanted)?;
        Ok(true)
    }
}

impl<'a, D: RandomAccess, L: CodeLayout> Segments<D> for ColumnarSegments<'a, L> {
    ghost table = { λ segments. schema_of (table_in segments.columnar.now) };

    ghost stated = { λ segments. length (rows_of (table_in segments.columnar.now)) };

    ghost given = { λ segments. rows_before segments.columnar.now
        (first_in segments.window + segments.next) };

    ghost left = { λ segments. segments_in (table_in segments.columnar.now)
        - (first_in segments.window + segments.next) };

    ghost gave = { λ start from groups segments device.
        HasGivenParts (D.state from) start.columnar.now start.wanted.now groups (D.state device)
        segments.columnar.now segments.wanted.now segments.window segments.next };

    ghost ended = { λ start from groups segments device.
        HasGivenAllParts (D.state from) start.columnar.now start.wanted.now groups
        (D.state device) };

    ghost failed = { λ start from segments device fault.
        HasFailedPart (D.state from) (D.state device) fault };

    fn schema(&self) -> &Schema {
        self.columnar.table().schema()
    }

    fn rows(&self) -> u32 {
        self.columnar.table().rows()
    }

    #[inline(always)]
    fn take_next<C: SegmentConsumer>(
        &mut self,
        device: &mut D,
        registers: &mut Registers,
        consumer: &mut C,
    ) -> Result<bool, Fault> {
        if !self.has_next(device)? {
            return Ok(false);
        }
        let segment = next_segment::<L>(self.window.table(), &mut self.placement, self.next)?;
        consumer.take(&segment, registers)?;
        self.placement = Some(segment.placement);
        self.next += 1;
        Ok(true)
    }

    ghost fails_among = { λ start from groups segments device. parts_fail_among };

    ghost fails_after = { λ start from groups segments device. parts_fail_after };
}

/// Returns the text of the result of a query over a file by columns, of which the columns are read
/// that are wanted. The layout is looked up once.
///
/// Errors: 306 to 308, of a column that is read, which needn't be the file's first error; 305 if the
/// device ends within one; 701 if a read fails; 801 if memory is refused.
#[tactic(auto, unfolding(bw_file::specs::Blocks::form_of))]
pub(crate) fn columnar_text<D: RandomAccess>(
    alloc: Global,
    device: &mut D,
    columnar: &ColumnarTable,
    wanted: &[bool],
    query: &Query,
    scan: &Scan,
) -> Result<TableText, Fault>
    requires counter_fits { (D.state device.old).failures < 2 ^ 64 - 1 }
    requires each { length wanted.now ≡ column_count columnar.now }
    requires items { IsTrue (list_all (item_within
        (vec_len (schema_of (table_in columnar.now)).columns)) query.now.items.items) }
    requires nonempty { 1 ≤ length query.now.items.items }
    requires kinds { AreOfOneKind query.now.items.items }
    requires scan { IsFor (schema_of (table_in columnar.now)).columns.items query.now.cond scan.now }
    ensures text { IfOk result (λ found.
        IsTextOf (schema_of (table_in columnar.now)).columns.items query.now scan.now
        (HasGroups (D.state device.old).known columnar.now (is_wanted wanted.now)
        (segments_in (table_in columnar.now))) found.text.items found.scanned) }
    ensures fault { IfErr result (λ fault. is_write_fault fault ≡ false) }
    ensures same { (D.state device.new).known ≡ (D.state device.old).known }
    ensures count { (D.state device.new).failures
        ≡ (D.state device.old).failures + failed_by result }
{
    in_layout!(
        columnar.table().layout(),
        text_in::<_, D>(alloc, device, columnar, wanted, query, scan)
    )
}

/// Returns the same of a file in this layout.
fn text_in<L: CodeLayout, D: RandomAccess>(
    alloc: Global,
    device: &mut D,
    columnar: &ColumnarTable,
    wanted: &[bool],
    query: &Query,
    scan: &Scan,
) -> Result<TableText, Fault>
    requires layout { form_of (layout_of (table_in columnar.now)) ≡ L.packing }
    requires counter_fits { (D.state device.old).failures < 2 ^ 64 - 1 }
    requires each { length wanted.now ≡ column_count columnar.now }
    requires items { IsTrue (list_all (item_within
        (vec_len (schema_of (table_in columnar.now)).columns)) query.now.items.items) }
    requires nonempty { 1 ≤ length query.now.items.items }
    requires kinds { AreOfOneKind query.now.items.items }
    requires scan { IsFor (schema_of (table_in columnar.now)).columns.items query.now.cond scan.now }
    ensures text { IfOk result (λ found.
        IsTextOf (schema_of (table_in columnar.now)).columns.items query.now scan.now
        (HasGroups (D.state device.old).known columnar.now (is_wanted wanted.now)
        (segments_in (table_in columnar.now))) found.text.items found.scanned) }
    ensures fault { IfErr result (λ fault. is_write_fault fault ≡ false) }
    ensures same { (D.state device.new).known ≡ (D.state device.old).known }
    ensures count { (D.state device.new).failures
        ≡ (D.state device.old).failures + failed_by result }
{
    let mut segments = ColumnarSegments::<L> {
        alloc,
        columnar,
        wanted,
        window: SegmentWindow::new(alloc, columnar, wanted)?,
        next: 0,
        placement: None,
        layout: PhantomData,
    };
    table_text(alloc, &mut segments, device, query, scan)
}

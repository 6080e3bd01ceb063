//! Chooses between programs that take a condition's parts in different orders, by trial runs over
//! the first segments of a table in memory.
//!
//! All programs that the checker accepts for a condition select the same rows, so any of them may
//! serve. The one with the fewest loads does.
ghost use Rattle.std.specs.Prelude.{◌≡◌, ◌<◌, ◌≤◌, ◌⊎◌, min, IfOk, IsTrue, None, length};
ghost use Rattle.std.specs.Prelude.{IsOkUnless, List, ℕ};
ghost use Rattle.std.specs.List.{sum_by};
ghost use Rattle.bw_cert.specs.declared.certified.Certified.{Certified};
ghost use Rattle.bw_file.specs.Blocks.{form_of};
ghost use Rattle.bw_memory.specs.MemoryTable.{layout_of, schema_of};
ghost use Rattle.bw_model.specs.declared.column.Column.{Column};
ghost use Rattle.bw_model.specs.declared.cond.Cond.{Cond};
ghost use Rattle.bw_model.specs.Cond.{names_within};
ghost use Rattle.bw_model.specs.Fault.{no_memory};
ghost use Rattle.bw_query.specs.Scan.{IsChosen, IsFor, loads_in};
ghost use Rattle.bw_model.specs.Row.{Value};
ghost use Rattle.bw_model.specs.Selection.{matching_rows};
ghost use Rattle.bw_rowwise.specs.Filter.{IsPreparedFrom};
ghost use Rattle.bw_query.specs.Trial.{trial_groups, trial_loads, trial_rows};
ghost use Rattle.bw_query.specs.declared.scan.Scan.TheVariants.{Program};

use crate::scan::{Scan, plan_and_certify};
use bw_cert::Certified;
use bw_file::in_layout;
use bw_lanes::count;
use bw_memory::MemoryTable;
use bw_model::{Cond, Fault};
use bw_rowwise::Filter;
use bw_segment::{CodeLayout, Segment};
use std::alloc::Global;

/// A trial runs over this many segments, or over all if there are fewer.
const TRIAL_SEGMENTS: u32 = 32;

/// In tables of fewer segments the parts are taken as they are written: to plan and check another
/// program takes longer than it saves.
const LEAST_SEGMENTS: u32 = 1024;

/// The most parts that are taken in another order.
const MOST_PARTS: u64 = 16;

/// The most rows of a trial's segments.
const MOST_ROWS: u64 = 16_384;

/// The most instructions of a program that is compared with another one.
const MOST_INSTRUCTIONS: usize = 512;

/// Returns how a condition is to be scanned over a table in memory: by the planner's program, if it
/// proposes one that the checker accepts, or by one that takes the condition's parts in another
/// order and loads less in the first 32 segments; else the fallback. Errors: 801 if memory is
/// refused.
pub(crate) fn plan_for_table(alloc: Global, table: &MemoryTable, cond: &Cond) -> Result<Scan, Fault>
    requires { IsTrue (names_within (length (schema_of table.now).columns.items) cond.now) }
    ensures certified { IfOk result (IsFor (schema_of table.now).columns.items cond.now) }
    ensures chosen { IfOk result (IsChosen None (schema_of table.now).columns.items cond.now) }
    ensures only_oom { IsOkUnless result no_memory }
{
    match plan_and_certify(alloc, table.schema(), cond, cond)? {
        Scan::Program(written) => {
            Ok(Scan::Program(try_another_order(alloc, table, cond, written)?))
        }
        Scan::Rows => Ok(Scan::Rows),
    }
}

/// Returns a condition's program as it is, or one that takes the parts of its AND or OR by their
/// share of rows, if the planner proposes one, the checker accepts it, and it loads less in the
/// first 32 segments. Errors: 801 if memory is refused.
fn try_another_order(
    alloc: Global,
    table: &MemoryTable,
    cond: &Cond,
    written: Certified,
) -> Result<Certified, Fault>
    requires names { IsTrue (names_within (length (schema_of table.now).columns.items) cond.now) }
    requires certified { IsFor (schema_of table.now).columns.items cond.now (Program written) }
    requires chosen { IsChosen None (schema_of table.now).columns.items cond.now (Program written) }
    ensures certified { IfOk result (λ program. IsFor (schema_of table.now).columns.items cond.now
        (Program program)) }
    ensures chosen { IfOk result (λ program. IsChosen None (schema_of table.now).columns.items
        cond.now (Program program)) }
    ensures at_most { IfOk result (λ program. trial_loads table.now (Program program)
        ≤ trial_loads table.now (Program written)) }
    ensures only_oom { IsOkUnless result no_memory }
{
    if written.program().len() > MOST_INSTRUCTIONS {
        return Ok(written);
    }
    let Some(order) = order_by_share(alloc, table, cond)? else {
        return Ok(written);
    };
    match plan_and_certify(alloc, table.schema(), cond, &order)? {
        Scan::Program(other) => cheaper(table, written, other),
        Scan::Rows => Ok(written),
    }
}

/// Returns the program that loads fewer planes and bytes in the first 32 segments, or the first one
/// if both load as many. Errors: 801 if memory is refused.
fn cheaper(table: &MemoryTable, first: Certified, second: Certified) -> Result<Certified, Fault>
    requires first { first.schema.columns.items ≡ (schema_of table.now).columns.items }
    requires second { second.schema.columns.items ≡ (schema_of table.now).columns.items }
    ensures one { IfOk result (λ program. (program ≡ first) ⊎ (program ≡ second)) }
    ensures fewest { IfOk result (λ program. trial_loads table.now (Program program)
        ≡ min (trial_loads table.now (Program first)) (trial_loads table.now (Program second))) }
    ensures only_oom { IsOkUnless result no_memory }
{
    let loads = count_in_trial(table, &mut LoadCount { certified: &first })?;
    let fewer = count_in_trial(table, &mut LoadCount { certified: &second })?;
    if fewer < loads { Ok(second) } else { Ok(first) }
}

/// What is counted in each segment of a trial.
trait TrialCount {
    /// It can count in segments of these columns.
    ghost fits: { Self → List Column → Type 0 };

    /// How many it counts in a group of rows of these columns.
    ghost counts: { Self → List Column → List (List Value) → ℕ };

    /// Returns how many it counts in a segment.
    fn count_in<S: Segment>(&mut self, segment: &S) -> usize
        requires { fits self.old (S.meaning segment.now).columns }
        ensures count { result
            ≡ counts self.old (S.meaning segment.now).columns (S.meaning segment.now).rows }
        ensures bounded { result ≤ 4096 }
        ensures fits { (columns : List Column) → fits self.old columns → fits self.new columns }
        ensures same { counts self.new ≡ counts self.old };
}

/// Counts the planes and bytes that a program loads.
#[derive(Drop)]
struct LoadCount<'a> {
    certified: &'a Certified,
}

impl<'a> TrialCount for LoadCount<'a> {
    ghost fits = { λ count columns. count.certified.now.schema.columns.items ≡ columns };

    ghost counts = { λ count columns rows. loads_in columns (Program count.certified.now) rows };

    fn count_in<S: Segment>(&mut self, segment: &S) -> usize {
        self.certified.run_segment(segment).1.loads
    }
}

/// Counts the rows on which a condition is TRUE.
#[derive(Drop)]
struct MatchCount<'a> {
    cond: &'a Cond,
    filter: Filter,
    ghost prepared: { IsPreparedFrom cond.now filter },
}

impl<'a> TrialCount for MatchCount<'a> {
    ghost fits = { λ count columns. Unit {0} };

    ghost counts = { λ count columns rows. length (matching_rows count.cond.now rows) };

    fn count_in<S: Segment>(&mut self, segment: &S) -> usize {
        count(&self.filter.matching_lanes(segment)) as usize
    }
}

/// Returns what is counted in the first 32 segments, all together. The layout is looked up once.
/// Errors: 801 if memory is refused.
#[tactic(auto, unfolding(bw_file::specs::Blocks::form_of))]
fn count_in_trial<C: TrialCount>(table: &MemoryTable, counter: &mut C) -> Result<u64, Fault>
    requires { C.fits counter.old (schema_of table.now).columns.items }
    ensures total { IfOk result (λ total. total
        ≡ sum_by (C.counts counter.old (schema_of table.now).columns.items)
        (trial_groups table.now)) }
    ensures only_oom { IsOkUnless result no_memory }
{
    in_layout!(table.layout(), count_in_layout::<_, C>(table, counter))
}

/// Returns the same of a table in this layout.
fn count_in_layout<L: CodeLayout, C: TrialCount>(
    table: &MemoryTable,
    counter: &mut C,
) -> Result<u64, Fault>
    requires layout { form_of (layout_of table.now) ≡ L.packing }
    requires fits { C.fits counter.old (schema_of table.now).columns.items }
    ensures total { IfOk result (λ total. total
        ≡ sum_by (C.counts counter.old (schema_of table.now).columns.items)
        (trial_groups table.now)) }
    ensures only_oom { IsOkUnless result no_memory }
{
    let mut total = 0;
    for number in 0..table.segments().min(TRIAL_SEGMENTS) {
        let segment = table.segment::<L>(number)?;
        total += counter.count_in(&segment) as u64;
    }
    Ok(total)
}

/// Returns a condition with its parts in another order, if it is an AND or an OR of at most 16
/// parts, and the table has at least 1,024 segments: those of an AND by ascending share of rows on
/// which they are TRUE in the first 32 segments, those of an OR by descending share. None if they
/// are written in this order. Errors: 801 if memory is refused.
fn order_by_share(alloc: Global, table: &MemoryTable, cond: &Cond) -> Result<Option<Cond>, Fault>
    ensures only_oom { IsOkUnless result no_memory }
{
    if table.segments() < LEAST_SEGMENTS {
        return Ok(None);
    }
    match cond {
        Cond::And(parts) => { Ok(by_share(alloc, table, parts, First::Rarest)?.map(Cond::And)) }
        Cond::Or(parts) => { Ok(by_share(alloc, table, parts, First::MostFrequent)?.map(Cond::Or)) }
        _ => Ok(None),
    }
}

/// Which parts are taken first, by the share of rows on which they are TRUE.
#[derive(Clone, Copy)]
enum First {
    Rarest,
    MostFrequent,
}

/// Returns parts by their share of rows in the first 32 segments; None if they are in this order,
/// or more than 16. Errors: 801 if memory is refused.
fn by_share(
    alloc: Global,
    table: &MemoryTable,
    parts: &[Cond],
    first: First,
) -> Result<Option<Vec<Cond>>, Fault>
    ensures only_oom { IsOkUnless result no_memory }
{
    if parts.len() as u64 > MOST_PARTS {
        return Ok(None);
    }
    let mut ranks = Vec::new(alloc);
    for (number, part) in parts.iter().enumerate() {
        let rows = rows_in_trial(alloc, table, part)?;
        let share = match first {
            First::Rarest => rows,
            First::MostFrequent => MOST_ROWS.saturating_sub(rows),
        };
        ranks.push(
            share
                .saturating_mul(MOST_PARTS)
                .saturating_add(number as u64),
        )?;
    }
    if ranks.is_sorted() {
        return Ok(None);
    }
    ranks.sort_unstable();
    let mut ordered = Vec::new(alloc);
    for rank in &ranks {
        if let Some(part) = parts.get((rank % MOST_PARTS) as usize) {
            ordered.push(part.copy(alloc)?)?;
        }
    }
    Ok(Some(ordered))
}

/// Returns on how many rows of the first 32 segments a condition is TRUE. Errors: 801 if memory is
/// refused.
fn rows_in_trial(alloc: Global, table: &MemoryTable, cond: &Cond) -> Result<u64, Fault>
    ensures rows { IfOk result (λ rows. rows ≡ trial_rows table.now cond.now) }
    ensures only_oom { IsOkUnless result no_memory }
{
    let filter = Filter::new(alloc, cond)?;
    count_in_trial(table, &mut MatchCount { cond, filter })
}

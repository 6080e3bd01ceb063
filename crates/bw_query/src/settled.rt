//! Which segments of a table a scan leaves out, since verdicts settle how many of their rows match.
ghost use Rattle.std.specs.Prelude.{◌≡◌, ◌+◌, ◌<◌, ◌≤◌, IfOk, IsOkUnless, ℕ, false, length, true};
ghost use Rattle.bw_model.specs.declared.cond.Cond.{Cond};
ghost use Rattle.bw_model.specs.Fault.{no_memory};
ghost use Rattle.bw_model.specs.Groups.{together};
ghost use Rattle.bw_model.specs.Limits.{most_rows};
ghost use Rattle.bw_model.specs.Selection.{matching_rows};
ghost use Rattle.bw_memory.specs.MemoryTable.{meaning_numbered, rows_of, segments_in};
ghost use Rattle.bw_memory.specs.Settled.{HaveVerdicts, verdict_on};
ghost use Rattle.bw_query.specs.Segments.{groups_left};
ghost use Rattle.bw_query.specs.Settled.{is_left_out, is_settled, matches_left_out, rows_left_out};
ghost use Rattle.bw_query.specs.Settled.{settled_by};

use bw_lanes::LANES;
use bw_memory::{GROUP, MemoryTable};
use bw_model::Fault;
use bw_ranges::Verdict;
use std::alloc::Global;

/// Numbers of rows, and of the matching ones among them.
#[derive(Clone, Copy)]
pub(crate) struct Counted {
    pub(crate) rows: u32,
    pub(crate) matches: u32,
}

/// Returns whether the segments of each group are left out, by a query that only counts rows or by
/// another one. Errors: 801 if memory is refused.
pub(crate) fn settled_by(
    alloc: Global,
    verdicts: &[Verdict],
    counts: bool,
) -> Result<Vec<bool>, Fault>
    ensures settled { IfOk result (λ settled. settled.items ≡ settled_by counts verdicts.now) }
    ensures only_oom { IsOkUnless result no_memory }
{
    let mut settled = Vec::with_capacity(alloc, verdicts.len())?;
    for verdict in verdicts {
        settled.push(is_left_out(*verdict, counts))?;
    }
    Ok(settled)
}

/// Returns whether a segment is left out: none of its rows matches; or each does, and rows are only
/// counted.
fn is_left_out(verdict: Verdict, counts: bool) -> bool
    ensures { result ≡ is_left_out counts verdict }
{
    match verdict {
        Verdict::NoRow => true,
        Verdict::EveryRow => counts,
        Verdict::Open => false,
    }
}

/// Returns the numbers of rows of the segments that a count leaves out.
pub(crate) fn count_settled(table: &MemoryTable, verdicts: &[Verdict]) -> Counted
    ensures rows { result.rows + length (together (groups_left table.now true verdicts.now))
        ≡ length (rows_of table.now) }
    ensures matches { (cond : Cond) → HaveVerdicts cond table.now verdicts.now
        → result.matches
        + length (matching_rows cond (together (groups_left table.now true verdicts.now)))
        ≡ length (matching_rows cond (rows_of table.now)) }
    ensures among { result.matches ≤ result.rows }
{
    let mut counted = Counted {
        rows: 0,
        matches: 0,
    };
    if verdicts.is_empty() {
        return counted;
    }
    for number in 0..table.segments() {
        counted = counted.plus(verdict_on(verdicts, number), rows_in(table, number));
    }
    counted
}

/// Returns how many rows the segment of a number has.
fn rows_in(table: &MemoryTable, number: u32) -> u32
    requires { number < segments_in table.now }
    ensures { result ≡ length (meaning_numbered table.now number).rows }
{
    (table.rows() - LANES as u32 * number).min(LANES as u32)
}

/// Returns the verdict on a segment, which is that on its group. One past the last group is open.
fn verdict_on(verdicts: &[Verdict], number: u32) -> Verdict
    ensures { result ≡ verdict_on verdicts.now number }
{
    match verdicts.get((number / GROUP) as usize) {
        Some(verdict) => *verdict,
        None => Verdict::Open,
    }
}

impl Counted {
    /// Returns the numbers with those of one more segment, if a count leaves it out.
    fn plus(self, verdict: Verdict, rows: u32) -> Self
        requires among { self.matches ≤ self.rows }
        requires capacity { self.rows + rows ≤ most_rows }
        ensures rows { result.rows ≡ self.rows + rows_left_out verdict rows }
        ensures matches { result.matches ≡ self.matches + matches_left_out verdict rows }
        ensures among { result.matches ≤ result.rows }
    {
        match verdict {
            Verdict::NoRow => Counted {
                rows: self.rows + rows,
                matches: self.matches,
            },
            Verdict::EveryRow => Counted {
                rows: self.rows + rows,
                matches: self.matches + rows,
            },
            Verdict::Open => self,
        }
    }
}

/// Returns whether a segment is settled: the segments are settled by groups of four, and one past
/// the last group isn't.
fn is_settled(settled: &[bool], number: u32) -> bool
    ensures { result ≡ is_settled settled.now number }
{
    match settled.get((number / GROUP) as usize) {
        Some(&settled) => settled,
        None => false,
    }
}

/// Returns the number of the first segment that isn't settled, from this number on; the number of
/// segments if there is none. It isn't compiled into its caller, which needs it once for many segments.
#[inline(never)]
pub(crate) fn next_open(settled: &[bool], number: u32, segments: u32) -> u32
    requires { number ≤ segments }
    ensures from { number ≤ result }
    ensures within { result ≤ segments }
    ensures passed { (other : ℕ) → number ≤ other → other < result
        → is_settled settled.now other ≡ true }
    ensures unsettled { result < segments → is_settled settled.now result ≡ false }
{
    for next in number..segments {
        if !is_settled(settled, next) {
            return next;
        }
    }
    segments
}

/// Returns the number of the first segment that is settled, from this number on; the number of
/// segments if there is none. It isn't compiled into its caller either.
#[inline(never)]
pub(crate) fn next_settled(settled: &[bool], number: u32, segments: u32) -> u32
    requires { number ≤ segments }
    ensures from { number ≤ result }
    ensures within { result ≤ segments }
    ensures open { (other : ℕ) → number ≤ other → other < result
        → is_settled settled.now other ≡ false }
    ensures some { number < segments → is_settled settled.now number ≡ false → number < result }
{
    let known = settled.len().min(segments as usize) * GROUP as usize;
    for next in number..known.min(segments as usize) as u32 {
        if is_settled(settled, next) {
            return next;
        }
    }
    segments
}

//! What consumes the segments of a table, and makes the text of a result.
ghost use Rattle.std.specs.Prelude.{◌≡◌, ◌≤◌, ◌+◌, ℕ, List, OnOk, IfOk, length, IsOkUnless};
ghost use Rattle.bw_model.specs.declared.column.Column.{Column};
ghost use Rattle.bw_model.specs.Fault.{no_memory};
ghost use Rattle.bw_model.specs.Limits.{most_rows};
ghost use Rattle.bw_model.specs.Row.{Value};
ghost use Rattle.bw_query.specs.Segments.{Consumes};
ghost use Rattle.bw_query.specs.declared.served.TableText.{TableText};

use crate::served::TableText;
use bw_model::Fault;
use bw_run::Registers;
use bw_segment::Segment;

/// What consumes the segments of a table, one after another, and makes the text of a result over
/// their rows.
pub(crate) trait SegmentConsumer {
    /// It can consume segments of these columns.
    ghost fits: { Self → List Column → Type 0 };

    /// How many rows it has consumed, with those that it began with.
    ghost rows: { Self → ℕ };

    /// From the first state to the second it has consumed these groups of rows of these columns.
    ghost over: { Self → List Column → List (List (List Value)) → Self → Type 0 };

    /// This is the text of the result over these groups of rows of these columns, if it has consumed
    /// them from this state on, with the counts of their scan.
    ghost gives: { Self → List Column → List (List (List Value)) → TableText → Type 0 };

    /// Consumes the rows of a segment. Programs run in the registers, whose content doesn't matter.
    /// Errors: 801 if memory is refused.
    fn take<S: Segment>(&mut self, segment: &S, registers: &mut Registers) -> Result<(), Fault>
        requires fits { fits self.old (S.meaning segment.now).columns }
        requires capacity { rows self.old + length (S.meaning segment.now).rows ≤ most_rows }
        ensures consumes { OnOk result (Consumes (S.meaning segment.now).columns
            (S.meaning segment.now).rows fits rows over self.old self.new) }
        ensures only_oom { IsOkUnless result no_memory };

    /// Returns the text of the result over the rows that it has consumed, and what was scanned for
    /// it. Errors: 801 if memory is refused.
    fn into_text(self) -> Result<TableText, Fault>
        requires fits { (columns : List Column) × fits self columns }
        requires capacity { rows self ≤ most_rows }
        ensures text { IfOk result (λ found. (start : Self) (columns : List Column)
            (groups : List (List (List Value))) → over start columns groups self
            → gives start columns groups found) }
        ensures only_oom { IsOkUnless result no_memory };
}

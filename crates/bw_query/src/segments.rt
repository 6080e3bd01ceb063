//! The segments of a table, in order, from a file or in memory.
ghost use Rattle.std.specs.Prelude.{◌≡◌, ◌+◌, ◌<◌, ◌≤◌, ◌++◌, ◌∷◌, [], ℕ, List, IsTrue, false, length};
ghost use Rattle.std.specs.Prelude.{IfErr, IfOk};
ghost use Rattle.bw_model.specs.declared.fault.Fault.{Fault};
ghost use Rattle.bw_model.specs.declared.schema.Schema.{Schema};
ghost use Rattle.bw_model.specs.Fault.{no_memory};
ghost use Rattle.bw_model.specs.Limits.{most_rows};
ghost use Rattle.bw_model.specs.Row.{Value};
ghost use Rattle.bw_io.specs.Sink.{is_write_fault};
ghost use Rattle.bw_query.specs.Segments.{TakesGroup};

use crate::consumer::SegmentConsumer;
use bw_model::{Fault, Schema};
use bw_run::Registers;

/// The segments of a table, in order. They come from an input: the source of a table file, or
/// nothing more than the table, if it is in memory.
pub(crate) trait Segments<I> {
    /// The table's schema.
    ghost table: { Self → Schema };

    /// How many rows it has, or states.
    ghost stated: { Self → ℕ };

    /// How many rows came so far, with those that were counted beforehand.
    ghost given: { Self → ℕ };

    /// At least as many segments are to come.
    ghost left: { Self → ℕ };

    /// From the first state of the segments and their input to the second, these groups of rows
    /// came.
    ghost gave: { Self → I → List (List (List Value)) → Self → I → Type 0 };

    /// They came, and are all groups of the table that aren't left out.
    ghost ended: { Self → I → List (List (List Value)) → Self → I → Type 0 };

    /// From the first state to the second, there was an error in place of all groups.
    ghost failed: { Self → I → Self → I → Fault → Type 0 };

    /// Returns the table's schema.
    fn schema(&self) -> &Schema
        ensures { result.now ≡ table self.now };

    /// Returns how many rows the table has, or states.
    fn rows(&self) -> u32
        ensures { result ≡ stated self.now };

    /// Hands the next segment to a consumer, which must have consumed as many rows as came so
    /// far.
    /// Returns whether there was one: after the last segment the consumer stays as it was.
    fn take_next<C: SegmentConsumer>(
        &mut self,
        input: &mut I,
        registers: &mut Registers,
        consumer: &mut C,
    ) -> Result<bool, Fault>
        requires began { (start : Self) × (from : I) × (groups : List (List (List Value)))
            × gave start from groups self.old input.old }
        requires fits { C.fits consumer.old (table self.old).columns.items }
        requires rows { C.rows consumer.old ≡ given self.old }
        ensures taken { IfOk result (λ came. IsTrue came → TakesGroup (table self.old).columns.items
            (λ group. (given self.new ≡ given self.old + length group)
            × ((start : Self) (from : I) (groups : List (List (List Value)))
            → gave start from groups self.old input.old
            → gave start from (groups ++ group ∷ []) self.new input.new))
            C.fits C.rows C.over consumer.old consumer.new) }
        ensures left { IfOk result (λ came. IsTrue came → left self.new < left self.old) }
        ensures capacity { IfOk result (λ came. IsTrue came → given self.new ≤ most_rows) }
        ensures table { IfOk result (λ came. IsTrue came → table self.new ≡ table self.old) }
        ensures ended { IfOk result (λ came. came ≡ false → (start : Self) (from : I)
            (groups : List (List (List Value))) → gave start from groups self.old input.old
            → ended start from groups self.new input.new) }
        ensures untouched { IfOk result (λ came. came ≡ false → consumer.new ≡ consumer.old) }
        ensures refused { IfErr result (λ fault. (start : Self) (from : I)
            (groups : List (List (List Value))) → gave start from groups self.old input.old
            → failed start from self.new input.new fault) }
        ensures fault { IfErr result (λ fault. is_write_fault fault ≡ false) };

    /// A law: memory may be refused after any group.
    ghost fails_among: { (start : Self) (from : I) (groups : List (List (List Value))) (now : Self)
        (input : I) → gave start from groups now input → failed start from now input no_memory };

    /// A law: and after all of them.
    ghost fails_after: { (start : Self) (from : I) (groups : List (List (List Value))) (now : Self)
        (input : I) → ended start from groups now input → failed start from now input no_memory };
}

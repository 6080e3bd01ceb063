//! Consumers of rows, which get the rows of a CSV text or a table file one after another.
ghost use Rattle.std.specs.Prelude.{◌≡◌, ◌+◌, ◌<◌, ℕ, List, [], ◌∷◌, ◌++◌, Bool, OnOk};
ghost use Rattle.std.specs.Prelude.{IsTrue, IsOkUnless};
ghost use Rattle.bw_model.specs.Fault.{no_memory};
ghost use Rattle.bw_model.specs.Limits.{most_rows};
ghost use Rattle.bw_model.specs.Row.{Value, values_of};

use crate::fault::Fault;
use crate::row::{Row, Value};

/// A consumer of rows, one after another.
pub trait RowConsumer {
    /// Whether it accepts a row of these values.
    ghost takes: { Self → List Value → Bool };

    /// How many rows it has accepted.
    ghost rows: { Self → ℕ };

    /// The first consumer, given these rows, becomes the second.
    ghost led: { Self → List (List Value) → Self → Type 0 };

    /// Accepts the next row. Errors: only 801, out of memory, after which no row follows.
    fn take(&mut self, row: &Row) -> Result<(), Fault>
        requires fits { IsTrue (takes self.old (values_of row.now)) }
        requires capacity { rows self.old < most_rows }
        ensures takes { OnOk result (takes self.new ≡ takes self.old) }
        ensures rows { OnOk result (rows self.new ≡ rows self.old + 1) }
        ensures led { OnOk result ((start : Self) → (before : List (List Value))
            → led start before self.old → led start (before ++ values_of row.now ∷ []) self.new) }
        ensures only_oom { IsOkUnless result no_memory };
}

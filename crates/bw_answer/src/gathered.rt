//! The result of a query over rows that come one at a time, as CSV text.
ghost use Rattle.std.specs.Prelude.{◌≡◌, ◌==◌, ◌+◌, ◌<◌, ◌≤◌, ◌++◌, ◌∷◌, List, [], ℕ, IsTrue};
ghost use Rattle.std.specs.Prelude.{IfOk, OnOk, length, map, vec_len, IsOkUnless};
ghost use Rattle.std.specs.List.{list_all};
ghost use Rattle.bw_answer.specs.Answer.{csv_text, meaning};
ghost use Rattle.bw_answer.specs.Gathered.{AreSummed};
ghost use Rattle.bw_answer.specs.Output.{totals_in};
ghost use Rattle.bw_model.specs.Column.{admits_values, names_of};
ghost use Rattle.bw_model.specs.Fault.{no_memory};
ghost use Rattle.bw_model.specs.Limits.{most_rows};
ghost use Rattle.bw_model.specs.Row.{Value, values_of};
ghost use Rattle.bw_model.specs.Total.{item_within};
ghost use Rattle.bw_sql.specs.Items.{AreOfOneKind};

use crate::answer::Answer;
use crate::selected::Summed;
use bw_lanes::LANES;
use bw_model::{Fault, Query, Row, RowConsumer, Schema};
use std::alloc::Global;

/// Consumes rows one at a time, and makes the text of a query's result as [`Answer`] does. The
/// columns that the query names are gathered over 512 rows at a time.
#[derive(Drop)]
pub struct GatheredAnswer<'a> {
    answer: Answer<'a>,
    /// The columns of its totals.
    summed: Summed,
    /// How many rows are gathered, and not in the answer yet.
    filled: u32,
    ghost few: { filled ≤ 512 },
    ghost capacity: { answer.rows + filled ≤ most_rows },
    ghost placed: { AreSummed summed (totals_in answer.output) },
}

impl<'a> GatheredAnswer<'a> {
    ghost use Rattle.bw_answer.specs.GatheredProgress.{HasTaken, Holds, TakesOver};
    ghost use Rattle.bw_answer.specs.declared.gathered.GatheredAnswer.{GatheredAnswer};
    ghost use Rattle.bw_model.specs.declared.query.Query.{Query};

    /// Returns the result over no rows, under the conditions of [`Answer::new`]. Errors: 801 if
    /// memory is refused.
    pub fn new(alloc: Global, schema: &Schema, query: &'a Query) -> Result<Self, Fault>
        requires items { IsTrue (list_all (item_within (vec_len schema.now.columns))
            query.now.items.items) }
        requires nonempty { 1 ≤ length query.now.items.items }
        requires kinds { AreOfOneKind query.now.items.items }
        ensures covers { IfOk result
            (λ answer. HasTaken (names_of schema.now.columns.items) query.now [] answer) }
        ensures starts { IfOk result (λ answer. TakesOver answer [] answer) }
        ensures takes { IfOk result (λ answer. (row : List Value)
            → IsTrue (admits_values schema.now.columns.items row)
            → IsTrue (length row == answer.answer.width)) }
        ensures rows { IfOk result (λ answer. answer.answer.rows + answer.filled ≡ 0) }
        ensures only_oom { IsOkUnless result no_memory }
    {
        let mut answer = Answer::new(alloc, schema, query)?;
        answer.clear_rows();
        let summed = Summed::new(alloc, &answer.output)?;
        Ok(GatheredAnswer {
            answer,
            summed,
            filled: 0,
        })
    }

    /// Consumes a row. There must be space for it. Errors: 801 if memory is refused.
    fn take_row(&mut self, row: &Row) -> Result<(), Fault>
        requires { self.old.answer.rows + self.old.filled < most_rows }
        ensures taken { OnOk result ((start : GatheredAnswer) (before : List (List Value))
            → TakesOver start before self.old
            → TakesOver start (before ++ values_of row.now ∷ []) self.new) }
        ensures width { OnOk result (self.new.answer.width ≡ self.old.answer.width) }
        ensures rows { OnOk result (self.new.answer.rows + self.new.filled
            ≡ self.old.answer.rows + self.old.filled + 1) }
        ensures only_oom { IsOkUnless result no_memory }
    {
        self.make_room()?;
        self.gather(row);
        Ok(())
    }

    /// Adds the rows that were gathered to the answer if they are 512. Errors: 801 if memory is
    /// refused.
    fn make_room(&mut self) -> Result<(), Fault>
        ensures taken { OnOk result ((start : GatheredAnswer) (before : List (List Value))
            → TakesOver start before self.old → TakesOver start before self.new) }
        ensures few { OnOk result (self.new.filled < 512) }
        ensures width { OnOk result (self.new.answer.width ≡ self.old.answer.width) }
        ensures rows { OnOk result (self.new.answer.rows + self.new.filled
            ≡ self.old.answer.rows + self.old.filled) }
        ensures only_oom { IsOkUnless result no_memory }
    {
        if self.filled as usize == LANES {
            return self.flush();
        }
        Ok(())
    }

    /// Gathers a row, after those that were gathered.
    fn gather(&mut self, row: &Row)
        requires few { self.old.filled < 512 }
        requires capacity { self.old.answer.rows + self.old.filled < most_rows }
        ensures taken { (start : GatheredAnswer) (before : List (List Value))
            → TakesOver start before self.old
            → TakesOver start (before ++ values_of row.now ∷ []) self.new }
        ensures width { self.new.answer.width ≡ self.old.answer.width }
        ensures rows { self.new.answer.rows + self.new.filled
            ≡ self.old.answer.rows + self.old.filled + 1 }
    {
        let lane = self.filled as usize;
        self.answer.put_row(lane, row);
        self.summed.columns.put_row(lane, row);
        self.filled += 1;
    }

    /// Adds the rows that were gathered to the answer. Errors: 801 if memory is refused.
    fn flush(&mut self) -> Result<(), Fault>
        ensures taken { OnOk result ((start : GatheredAnswer) (before : List (List Value))
            → TakesOver start before self.old → TakesOver start before self.new) }
        ensures empty { OnOk result (self.new.filled ≡ 0) }
        ensures width { OnOk result (self.new.answer.width ≡ self.old.answer.width) }
        ensures rows { OnOk result (self.new.answer.rows ≡ self.old.answer.rows + self.old.filled) }
        ensures only_oom { IsOkUnless result no_memory }
    {
        let selection = self.answer.matching_rows(self.filled);
        self.answer
            .take_gathered(self.filled, &selection, &self.summed)?;
        self.answer.clear_rows();
        self.summed.columns.clear();
        self.filled = 0;
        Ok(())
    }

    /// Returns the text of the result over the rows that were consumed. Errors: 801 if memory is
    /// refused.
    pub fn into_text(mut self) -> Result<Vec<u8>, Fault>
        ensures text { IfOk result (λ text. (names : List (List ℕ)) → (query : Query)
            → (rows : List (List Value))
            → HasTaken names query rows self.entry
            → text.items ≡ csv_text (meaning names query rows)) }
        ensures only_oom { IsOkUnless result no_memory }
    {
        self.flush()?;
        let GatheredAnswer {
            answer,
            summed: _,
            filled: _,
        } = self;
        answer.into_text()
    }
}

impl RowConsumer for GatheredAnswer<'_> {
    ghost takes = { λ gathered row. length row == gathered.answer.width };

    ghost rows = { λ gathered. gathered.answer.rows + gathered.filled };

    ghost use Rattle.bw_answer.specs.GatheredProgress.{TakesOver};

    ghost led = { TakesOver };

    fn take(&mut self, row: &Row) -> Result<(), Fault> {
        self.take_row(row)
    }
}

//! Certified programs.
ghost use Rattle.std.specs.Prelude.{◌≡◌, ◌+◌, ◌-◌, ◌≤◌, ◌++◌, true, false, IfOk, IfErr, List};
ghost use Rattle.std.specs.Prelude.{length, replicate, IsTrue};
ghost use Rattle.std.specs.List.{list_all};
ghost use Rattle.bw_lanes.specs.Lanes.{lanes_of_words};
ghost use Rattle.bw_model.specs.Column.{admits_values};
ghost use Rattle.bw_model.specs.Groups.{group_size};
ghost use Rattle.bw_model.specs.Row.{Value};
ghost use Rattle.bw_model.specs.Selection.{matching_positions, matching_rows, positions_of};
ghost use Rattle.bw_model.specs.Selection.{selection};
ghost use Rattle.bw_run.specs.Run.{run_of};
ghost use Rattle.bw_model.specs.CondTree.{tree_of};
ghost use Rattle.bw_model.specs.Fault.{is_memory};
ghost use Rattle.bw_program.specs.Program.{fits};
ghost use Rattle.bw_cert.specs.Selects.{Selects, selection_by};

use bw_lanes::{Selection, count};
use bw_model::{Cond, Fault, Schema, groups_make_the_table};
use bw_program::Program;
use bw_run::{Counts, Registers, registers, run_in};
use bw_segment::Segment;
use std::alloc::Global;

/// A scan program that selects exactly the rows on which a condition is TRUE, on every table of a
/// schema. Only [`check`](crate::check) makes one.
#[derive(Drop)]
pub struct Certified {
    pub(crate) schema: Schema,
    pub(crate) condition: Cond,
    pub(crate) program: Program,
    pub(crate) ghost fits: { IsTrue (fits schema.columns.items program) },
    pub(crate) ghost selects: { Selects schema.columns.items condition program },
}

impl Certified {
    /// Returns a certified program with copies of the schema and the condition. Errors: 801 if
    /// memory is refused.
    pub(crate) fn new(
        alloc: Global,
        schema: &Schema,
        condition: &Cond,
        program: Program,
    ) -> Result<Self, (Program, Fault)>
        requires fits { IsTrue (fits schema.now.columns.items program) }
        requires selects { Selects schema.now.columns.items condition.now program }
        ensures schema { IfOk result (λ certified. (certified.schema.name ≡ schema.now.name)
            × (certified.schema.columns.items ≡ schema.now.columns.items)) }
        ensures condition { IfOk result (λ certified. tree_of certified.condition
            ≡ tree_of condition.now) }
        ensures program { IfOk result (λ certified. certified.program ≡ program) }
        ensures handed_back { IfErr result (λ refused. (refused.0 ≡ program)
            × (is_memory refused.1 ≡ true)) }
    {
        let kept = match schema.copy(alloc) {
            Ok(kept) => kept,
            Err(fault) => return Err((program, fault)),
        };
        let same = match condition.copy(alloc) {
            Ok(same) => same,
            Err(fault) => return Err((program, fault)),
        };
        same.same_meaning(condition);
        Ok(Certified {
            schema: kept,
            condition: same,
            program,
        })
    }

    /// Returns the schema of the tables that it runs on.
    pub fn schema(&self) -> &Schema
        ensures { result.now ≡ self.now.schema }
    {
        &self.schema
    }

    /// Returns the condition that the program is certified for.
    pub fn condition(&self) -> &Cond
        ensures { result.now ≡ self.now.condition }
    {
        &self.condition
    }

    /// Returns the program that the checker accepted.
    pub fn program(&self) -> &Program
        ensures { result.now ≡ self.now.program }
    {
        &self.program
    }

    /// Runs the program on a segment of a table of the schema. Returns, for each row, whether the
    /// condition is TRUE on it, and 0 past the last row.
    ///
    /// The counts of the run add up to at most the number of the program's instructions, so to at
    /// most 4,096. Allocates no memory and never fails.
    pub fn run_segment<S: Segment>(&self, segment: &S) -> (Selection, Counts)
        requires { (S.meaning segment.now).columns ≡ self.now.schema.columns.items }
        ensures rows { lanes_of_words result.0
            ≡ selection self.now.condition (S.meaning segment.now).rows
            ++ replicate (group_size - length (S.meaning segment.now).rows) false }
        ensures loads { result.1.loads ≡ (run_of self.now.program (S.meaning segment.now)).loads }
        ensures skips { result.1.skips ≡ (run_of self.now.program (S.meaning segment.now)).skips }
        ensures bounded { result.1.loads + result.1.skips ≤ length self.now.program.instrs }
        ensures most { result.1.loads + result.1.skips ≤ 4096 }
    {
        let mut registers = registers();
        let (selection, counts) = self.run_in(segment, &mut registers);
        (*selection, counts)
    }

    /// Runs the program, as [`Certified::run_segment`] does, in registers of the caller, whose
    /// content doesn't matter, and lends the one with the result. A scan runs in the same ones on
    /// all segments.
    #[inline(always)]
    pub fn run_in<'a, S: Segment>(
        &self,
        segment: &S,
        registers: &'a mut Registers,
    ) -> (&'a Selection, Counts)
        requires { (S.meaning segment.now).columns ≡ self.now.schema.columns.items }
        ensures rows { lanes_of_words result.0.now
            ≡ selection self.now.condition (S.meaning segment.now).rows
            ++ replicate (group_size - length (S.meaning segment.now).rows) false }
        ensures loads { result.1.loads ≡ (run_of self.now.program (S.meaning segment.now)).loads }
        ensures skips { result.1.skips ≡ (run_of self.now.program (S.meaning segment.now)).skips }
        ensures bounded { result.1.loads + result.1.skips ≤ length self.now.program.instrs }
        ensures most { result.1.loads + result.1.skips ≤ 4096 }
    {
        self.program.is_valid();
        self.schema.bits_spell_row();
        run_in(&self.program, segment, registers)
    }

    /// Runs the program in registers of the caller, as [`Certified::run_in`] does, and returns the
    /// number of the segment's rows on which the condition is TRUE, with the counts of the run.
    #[inline(always)]
    pub fn count_matches<S: Segment>(&self, segment: &S, registers: &mut Registers) -> (u32, Counts)
        requires { (S.meaning segment.now).columns ≡ self.now.schema.columns.items }
        ensures matches { result.0
            ≡ length (matching_rows self.now.condition (S.meaning segment.now).rows) }
        ensures loads { result.1.loads ≡ (run_of self.now.program (S.meaning segment.now)).loads }
        ensures skips { result.1.skips ≡ (run_of self.now.program (S.meaning segment.now)).skips }
        ensures most { result.1.loads + result.1.skips ≤ 4096 }
    {
        let (selection, counts) = self.run_in(segment, registers);
        (count(selection), counts)
    }

    /// A law, exact selection: on every table of the schema the program selects exactly the rows on
    /// which the condition is TRUE, whichever skips its runs on the groups of rows take.
    pub fn selects_rows(&self)
        ensures bits { (rows : List (List Value))
            → list_all (admits_values self.now.schema.columns.items) rows ≡ true
            → selection_by self.now.schema.columns.items self.now.program rows
            ≡ selection self.now.condition rows }
        ensures positions { (rows : List (List Value))
            → list_all (admits_values self.now.schema.columns.items) rows ≡ true
            → positions_of (selection_by self.now.schema.columns.items self.now.program rows)
            ≡ matching_positions self.now.condition rows }
    {
        groups_make_the_table();
        self.schema.bits_spell_row();
    }
}

//! What a program without a certificate is to do.
ghost use Rattle.std.specs.Prelude.{length, IsTrue};
ghost use Rattle.bw_model.specs.Cond.{names_within};
ghost use Rattle.bw_program.specs.Program.{fits};

use bw_model::{Cond, Row, Schema, Truth};
use bw_program::Program;
use bw_rowwise::truth;

/// A program that is to select the rows on which a condition is TRUE.
#[derive(Clone, Copy)]
pub(crate) struct Claim<'a> {
    pub(crate) schema: &'a Schema,
    pub(crate) cond: &'a Cond,
    pub(crate) program: &'a Program,
    pub(crate) ghost names: { IsTrue (names_within (length schema.now.columns.items) cond.now) },
    pub(crate) ghost fits: { IsTrue (fits schema.now.columns.items program.now) },
}

impl Claim<'_> {
    /// Returns the condition's truth on a row, if that has a value for each column.
    pub(crate) fn truth_on(&self, row: &Row) -> Option<Truth> {
        if row.values.len() != self.schema.columns.len() {
            return None;
        }
        Some(truth(self.cond, row))
    }
}

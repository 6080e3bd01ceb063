//! Judges what the prover returns.
ghost use Rattle.std.specs.Prelude.{◌≡◌, IfOk, IsTrue, length};
ghost use Rattle.bw_model.specs.Cond.{names_within};
ghost use Rattle.bw_program.specs.Program.{fits};

use crate::groups::{is_right_on, segment_of};
use bw_cert::check;
use bw_cert_text::Certificate;
use bw_model::{Cond, Query, Row, Schema};
use bw_program::Program;
use bw_prover::{Unproved, Witness, prove};
use bw_sql::parse;
use std::alloc::Global;
use std::process::Abort;
use std::test::Fail;

/// What became of a program.
#[derive(Clone, Copy, Debug, PartialEq, Eq)]
pub(crate) enum Verdict {
    /// The checker accepts the certificate.
    Certified,
    /// It is wrong on a row.
    Differs,
    /// It is wrong on a segment, which differs by a skip.
    WrongBySkip,
    /// A register isn't known after a join, and no segment shows that the program is wrong.
    Unknown,
    /// It reads a register that isn't written before.
    Unwritten,
    /// It is right on all rows, but not on all bit patterns.
    OnlyUnadmitted,
    Unordered,
    Limit,
    NoRule,
}

/// A program's table and condition, and rows of the table.
#[derive(Clone, Copy)]
pub(crate) struct Case<'a> {
    pub(crate) schema: &'a Schema,
    pub(crate) cond: &'a Cond,
    pub(crate) rows: &'a [Row],
    pub ghost names: { IsTrue (names_within (length schema.now.columns.items) cond.now) },
}

/// Returns the query that counts the rows of a condition.
pub(crate) fn query_of(alloc: Global, schema: &Schema, condition: &str) -> Result<Query, Fail>
    ensures { IfOk result (λ query.
        IsTrue (names_within (length schema.now.columns.items) query.cond)) }
{
    let sql = format!(in alloc; "SELECT COUNT(*) FROM t WHERE {condition}")?;
    Ok(parse(alloc, schema, sql.as_bytes())?)
}

impl Case<'_> {
    /// Returns what the prover makes of a program. Ends the test if the checker rejects its
    /// certificate, if a certified program is wrong on the case's rows, or if a row or a segment
    /// that is to show a wrong program doesn't.
    pub(crate) fn verdict(
        self,
        rt: &impl Abort,
        alloc: Global,
        program: Program,
    ) -> Result<Verdict, Fail>
        requires { IsTrue (fits self.schema.now.columns.items program) }
    {
        match prove(alloc, self.schema, self.cond, &program, 80_000) {
            Ok(certificate) => {
                let is_right = self.is_right(rt, alloc, &program, self.rows)?;
                assert!(rt; is_right, "a certified program is wrong");
                self.assert_accepted(rt, alloc, program, &certificate);
                Ok(Verdict::Certified)
            }
            Err(unproved) => self.verdict_on_refusal(rt, alloc, &program, &unproved),
        }
    }

    /// Returns whether a program selects from a group of rows those on which the condition is TRUE.
    fn is_right(
        self,
        rt: &impl Abort,
        alloc: Global,
        program: &Program,
        rows: &[Row],
    ) -> Result<bool, Fail>
        requires { IsTrue (fits self.schema.now.columns.items program.now) }
    {
        is_right_on(rt, alloc, self.schema, program, self.cond, rows)
    }

    /// Ends the test unless the checker accepts a certificate.
    fn assert_accepted(
        self,
        rt: &impl Abort,
        alloc: Global,
        program: Program,
        certificate: &Certificate<'_>,
    ) {
        if let Err((_, fault)) = check(alloc, self.schema, self.cond, program, certificate) {
            panic!(rt; "{fault}");
        }
    }

    /// Checks why there is no certificate.
    fn verdict_on_refusal(
        self,
        rt: &impl Abort,
        alloc: Global,
        program: &Program,
        unproved: &Unproved,
    ) -> Result<Verdict, Fail>
        requires { IsTrue (fits self.schema.now.columns.items program.now) }
    {
        match unproved {
            Unproved::Differs { row } => {
                let rows = segment_of(alloc, row, row)?;
                let is_right = self.is_right(rt, alloc, program, &rows)?;
                assert!(rt; !is_right, "right on {:?}", row.values);
                Ok(Verdict::Differs)
            }
            Unproved::OnlyUnadmitted { .. } => {
                let is_right = self.is_right(rt, alloc, program, self.rows)?;
                assert!(rt; is_right, "wrong on a row that is admitted");
                Ok(Verdict::OnlyUnadmitted)
            }
            Unproved::Unknown {
                witness: Some(witness),
                ..
            } => self.by_skip(rt, alloc, program, witness),
            Unproved::Unknown { witness: None, .. } => Ok(Verdict::Unknown),
            Unproved::Unwritten { .. } => Ok(Verdict::Unwritten),
            Unproved::Unordered => Ok(Verdict::Unordered),
            Unproved::Limit { .. } => Ok(Verdict::Limit),
            Unproved::NoRule => Ok(Verdict::NoRule),
            Unproved::Memory => panic!(rt; "out of memory"),
        }
    }

    /// Returns whether a segment shows that a program is wrong: one of rows with which it skips, or
    /// the same and a row with which it doesn't.
    fn by_skip(
        self,
        rt: &impl Abort,
        alloc: Global,
        program: &Program,
        witness: &Witness,
    ) -> Result<Verdict, Fail>
        requires { IsTrue (fits self.schema.now.columns.items program.now) }
    {
        let skipping = segment_of(alloc, &witness.taken, &witness.taken)?;
        let through = segment_of(alloc, &witness.taken, &witness.through)?;
        if self.is_right(rt, alloc, program, &skipping)?
            && self.is_right(rt, alloc, program, &through)?
        {
            return Ok(Verdict::Unknown);
        }
        Ok(Verdict::WrongBySkip)
    }
}

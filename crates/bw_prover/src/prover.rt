//! The prover: from a condition and a program to a certificate, or to why there is none.
ghost use Rattle.std.specs.Prelude.{◌≡◌, ◌≤◌, IsTrue, IfOk, length, min};
ghost use Rattle.bw_cert_text.specs.CertificateFields.{certificate_fields};
ghost use Rattle.bw_cert_text.specs.Columns.{has_columns};
ghost use Rattle.bw_diagram.specs.Facts.{most_products};
ghost use Rattle.bw_prover.specs.Growth.{HasGrown};
ghost use Rattle.bw_prover.specs.Rows.{row_count};
ghost use Rattle.bw_prover.specs.Rules.{has_rules};

use crate::emit::{NO_LINE, certificate};
use crate::facts::Facts;
use crate::product::MAX_PRODUCTS;
use crate::unproved::Unproved;
use bw_cert_text::{Body, BodyLine, Certificate, Entry};
use bw_diagram::Connective;
use bw_model::{Cond, Schema};
use bw_program::Program;
use std::alloc::Global;

/// Finds a certificate of a program for a condition, both of this schema, by which the checker
/// accepts it, of at most so many product rows: at most `MAX_PRODUCTS` count. Returns the
/// certificate, or why none is found. What it returns depends on nothing but the arguments.
///
/// A program that is right on every bit pattern is certified within the limits, if one order of
/// variables fits all comparisons of columns, and no instruction reads a register before one writes
/// it, or is never reached for a skip that is always taken.
pub fn prove<'a>(
    alloc: Global,
    schema: &'a Schema,
    cond: &Cond,
    program: &Program,
    rows: u32,
) -> Result<Certificate<'a>, Unproved>
    ensures columns { IfOk result (λ certificate.
        IsTrue (has_columns schema.now.columns.items (certificate_fields certificate))) }
    ensures limit { IfOk result (λ certificate.
        length certificate.products ≤ min rows most_products) }
    ensures rules { IfOk result (λ _. IsTrue (has_rules schema.now.columns.items cond.now)) }
{
    let prover = Prover::new(alloc, schema, cond, rows, u32::MAX)?;
    let orders = if prover.facts.order.is_total {
        1
    } else {
        ORDERS
    };
    let unproved = match prover.certify(schema, program, rows) {
        Ok(certificate) => return Ok(certificate),
        Err(unproved) => unproved,
    };
    for order in 1..orders {
        if !matches!(&unproved, Unproved::Unordered | Unproved::Unknown { .. }) {
            break;
        }
        let other = prove_in_order(alloc, schema, cond, program, rows, order);
        if other.is_ok() {
            return other;
        }
    }
    Err(unproved)
}

/// Finds a certificate as [`prove`] does, with the order of variables of this number.
fn prove_in_order<'a>(
    alloc: Global,
    schema: &'a Schema,
    cond: &Cond,
    program: &Program,
    rows: u32,
    order: u8,
) -> Result<Certificate<'a>, Unproved>
    ensures columns { IfOk result (λ certificate.
        IsTrue (has_columns schema.now.columns.items (certificate_fields certificate))) }
    ensures limit { IfOk result (λ certificate.
        length certificate.products ≤ min rows most_products) }
    ensures rules { IfOk result (λ _. IsTrue (has_rules schema.now.columns.items cond.now)) }
{
    Prover::in_order(alloc, schema, cond, rows, u32::MAX, order)?.certify(schema, program, rows)
}

/// So many orders of variables are tried where no one order fits all comparisons of columns: those
/// of three columns, twice each.
const ORDERS: u8 = 13;

/// The proof of a program, begun with its condition.
#[derive(Drop)]
pub struct Prover<'a> {
    pub(crate) facts: Facts<'a>,
    /// The lines of the condition, the instructions and the joins.
    lines: Body,
    /// The node that is 1 where the condition is TRUE.
    wanted: u64,
    /// From how many product rows on AND and OR end if their parts would pass the limit.
    pub(crate) forecast_from: u32,
}

impl<'a> Prover<'a> {
    /// Writes the lines of a condition of this schema, by at most so many product rows. From
    /// `forecast_from` rows on, an AND or OR ends at the limit if its parts would pass it by as many
    /// rows each as those so far.
    pub fn new(
        alloc: Global,
        schema: &'a Schema,
        cond: &Cond,
        rows: u32,
        forecast_from: u32,
    ) -> Result<Self, Unproved>
        ensures rows { IfOk result (λ prover. row_count prover ≤ min rows most_products) }
        ensures rules { IfOk result (λ _. IsTrue (has_rules schema.now.columns.items cond.now)) }
    {
        Self::in_order(alloc, schema, cond, rows, forecast_from, 0)
    }

    /// Writes the lines of a condition as [`new`](Self::new) does, with the order of variables of
    /// this number.
    fn in_order(
        alloc: Global,
        schema: &'a Schema,
        cond: &Cond,
        rows: u32,
        forecast_from: u32,
        order: u8,
    ) -> Result<Self, Unproved>
        ensures rows { IfOk result (λ prover. row_count prover ≤ min rows most_products) }
        ensures rules { IfOk result (λ _. IsTrue (has_rules schema.now.columns.items cond.now)) }
    {
        let mut prover = Prover {
            facts: Facts::new(alloc, schema, cond, rows, order)?,
            lines: Body::new(alloc),
            wanted: 0,
            forecast_from,
        };
        prover.wanted = prover.steps(cond)?.yes;
        Ok(prover)
    }

    /// Returns how many product rows there are so far.
    pub fn rows(&self) -> u32
        ensures { result ≡ row_count self.now }
    {
        self.facts.products.count
    }

    /// Finds a certificate of a program of the same schema, as [`prove`] does.
    pub fn certify(
        mut self,
        schema: &'a Schema,
        program: &Program,
        rows: u32,
    ) -> Result<Certificate<'a>, Unproved>
        ensures columns { IfOk result (λ certificate.
            IsTrue (has_columns schema.now.columns.items (certificate_fields certificate))) }
        ensures rows { IfOk result (λ certificate.
            row_count self.entry ≤ length certificate.products) }
        ensures limit { IfOk result (λ certificate.
            length certificate.products ≤ min rows most_products) }
    {
        self.facts.products.set_limit(rows.min(MAX_PRODUCTS))?;
        let (made, wanted) = (self.walk(program)?, self.wanted);
        let row = self.facts.row(Connective::Xor, made, wanted)?;
        if row.node != 0 {
            return Err(self.facts.difference(row.node)?);
        }
        certificate(schema, self.facts, self.lines, row.number)
    }

    /// Appends a line.
    pub(crate) fn put(&mut self, entry: Entry<'_>) -> Result<(), Unproved>
        ensures grown { HasGrown self.old.facts self.new.facts }
    {
        let line = NO_LINE;
        self.lines.push(&BodyLine { line, entry })?;
        Ok(())
    }
}

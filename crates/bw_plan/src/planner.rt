//! Proposals: a program, and a certificate for it.
ghost use Rattle.std.specs.Prelude.{IsTrue, IfOk, IfErr, IfNone, length};
ghost use Rattle.bw_model.specs.Cond.{names_within};
ghost use Rattle.bw_program.specs.Program.{fits};
ghost use Rattle.bw_cert_text.specs.CertificateFields.{certificate_fields};
ghost use Rattle.bw_cert_text.specs.Columns.{has_columns};
ghost use Rattle.bw_prover.specs.Rules.{has_rules};
ghost use Rattle.bw_plan.specs.Refusal.{IsRefusal};

use crate::code::Code;
use crate::formula::{Formula, FormulaReader};
use crate::limits::{FORECAST_FROM, MAX_CONDITION_ROWS, MAX_LIST_ROWS, MAX_ROWS};
use crate::plan::Plan;
use crate::unplanned::Unplanned;
use bw_cert_text::Certificate;
use bw_model::{Cond, Fault, Schema};
use bw_program::Program;
use bw_prover::Prover;
use std::alloc::Global;

/// A program for a condition, and a certificate that is to prove that it selects the right rows.
#[derive(Drop)]
pub struct Proposal<'a> {
    pub program: Program,
    pub certificate: Certificate<'a>,
}

/// Proposes a program for a condition, and a certificate for it. Both fit the schema. Whether they
/// are right is left to the checker. The caller ensures that the condition's columns are the
/// schema's.
///
/// Errors: 651, at no place, if a limit of instructions, registers, nodes, chains or rows would be
/// passed, if two columns of unequal minimums are compared, or if the row-by-row fallback takes no
/// longer. 801 if memory is refused.
pub fn propose<'a>(alloc: Global, schema: &'a Schema, cond: &Cond) -> Result<Proposal<'a>, Fault>
    requires { IsTrue (names_within (length schema.now.columns.items) cond.now) }
    ensures program { IfOk result (λ proposal.
        IsTrue (fits schema.now.columns.items proposal.program)) }
    ensures certificate { IfOk result (λ proposal.
        IsTrue (has_columns schema.now.columns.items (certificate_fields proposal.certificate))) }
    ensures rules { IfOk result (λ _. IsTrue (has_rules schema.now.columns.items cond.now)) }
    ensures fault { IfErr result IsRefusal }
{
    propose_in_order(alloc, schema, cond, cond)
}

/// Proposes a program for a condition as [`propose`] does. Its instructions take the parts of each
/// AND and OR in the order of `order`, which is the condition with these parts exchanged.
///
/// Errors are those of `propose`, and 651 if `order` selects other rows.
pub fn propose_in_order<'a>(
    alloc: Global,
    schema: &'a Schema,
    cond: &Cond,
    order: &Cond,
) -> Result<Proposal<'a>, Fault>
    ensures program { IfOk result (λ proposal.
        IsTrue (fits schema.now.columns.items proposal.program)) }
    ensures certificate { IfOk result (λ proposal.
        IsTrue (has_columns schema.now.columns.items (certificate_fields proposal.certificate))) }
    ensures rules { IfOk result (λ _. IsTrue (has_rules schema.now.columns.items cond.now)) }
    ensures fault { IfErr result IsRefusal }
{
    Ok(try_plans(alloc, schema, cond, order)?)
}

/// Returns why [`propose`] proposes no program for a condition, unless it proposes one. It proposes
/// none for a condition that has no rules, as one that compares columns of unequal minimums.
pub fn why_unplanned(alloc: Global, schema: &Schema, cond: &Cond) -> Option<Unplanned>
    ensures rules { IfNone result (IsTrue (has_rules schema.now.columns.items cond.now)) }
{
    try_plans(alloc, schema, cond, cond).err()
}

/// Returns what `propose_in_order` does, or why it doesn't.
fn try_plans<'a>(
    alloc: Global,
    schema: &'a Schema,
    cond: &Cond,
    order: &Cond,
) -> Result<Proposal<'a>, Unplanned>
    ensures program { IfOk result (λ proposal.
        IsTrue (fits schema.now.columns.items proposal.program)) }
    ensures certificate { IfOk result (λ proposal.
        IsTrue (has_columns schema.now.columns.items (certificate_fields proposal.certificate))) }
    ensures rules { IfOk result (λ _. IsTrue (has_rules schema.now.columns.items cond.now)) }
{
    let mut reader = FormulaReader {
        alloc,
        schema,
        relations: 0,
    };
    let part = reader.part_of(order)?;
    let has_long_set = part.has_long_set();
    let mut tried: Option<Plan> = None;
    for _ in 0..3 {
        let prover = Prover::new(alloc, schema, cond, MAX_CONDITION_ROWS, FORECAST_FROM)?;
        if has_long_set && prover.rows() > MAX_LIST_ROWS {
            return Err(Unplanned::Limit);
        }
        let plan = match tried {
            None => Plan::new(reader.relations, prover.rows()),
            Some(last) => last.with_fewer_skips(),
        };
        match proposal_by(alloc, schema, prover, &part, plan) {
            Err(Unplanned::Length | Unplanned::Limit | Unplanned::Uncertified) if plan.skips => {
                tried = Some(plan);
            }
            made => return made,
        }
    }
    Err(Unplanned::Uncertified)
}

/// Returns a program of a condition by one plan.
fn proposal_by<'a>(
    alloc: Global,
    schema: &'a Schema,
    prover: Prover<'a>,
    part: &Formula,
    plan: Plan,
) -> Result<Proposal<'a>, Unplanned>
    ensures program { IfOk result (λ proposal.
        IsTrue (fits schema.now.columns.items proposal.program)) }
    ensures certificate { IfOk result (λ proposal.
        IsTrue (has_columns schema.now.columns.items (certificate_fields proposal.certificate))) }
{
    let mut code = Code::new(alloc, schema, plan);
    let answer = code.whole(part)?;
    let program = Program::new(alloc, schema, &code.instrs, answer)?;
    let program = program.ok_or(Unplanned::Limit)?;
    let certificate = prover.certify(schema, &program, MAX_ROWS)?;
    Ok(Proposal {
        program,
        certificate,
    })
}

//! The checker.
ghost use Rattle.std.specs.Prelude.{◌≡◌, ◌<◌, false, IfOk, IfErr, OnOk, IsTrue, Ok, Err, length};
ghost use Rattle.bw_model.specs.Cond.{names_within};
ghost use Rattle.bw_model.specs.CondTree.{tree_of};
ghost use Rattle.bw_model.specs.Fault.{is_memory};
ghost use Rattle.bw_diagram.specs.Facts.{Facts};
ghost use Rattle.bw_cert_text.specs.BodyLines.{body_lines};
ghost use Rattle.bw_cert.specs.Valid.{Valid, Checks, check_certificate, end_on, is_check_fault};

use crate::certified::Certified;
use crate::laws::{valid_exactly_where_checked, valid_programs_select};
use crate::stated_facts::diagram_of;
use bw_cert_rules::{AtEnd, known_at_end, pair};
use bw_cert_text::{Certificate, EndLine};
use bw_diagram::{Connective, Diagram};
use bw_model::{Cond, Fault, Schema, code};
use bw_program::Program;
use std::alloc::Global;

/// Checks a certificate for a program and a condition, whose columns must be the schema's. If it
/// fails, it returns the program with the error.
///
/// Errors: the first line that breaks a rule.
///
/// - 601 to 604: a NODE, CHAIN or ROW line breaks its own rule
/// - 606: a line isn't the condition's next, or doesn't show the result of its step
/// - 607: a line isn't the program's next, or doesn't show the result of its instruction
/// - 608: a join isn't true
/// - 609: an instruction reads a register that isn't known, or the result register isn't known at
///   END
/// - 610: at END, a line is left over, or the result isn't the condition's node
///
/// 801 if memory is refused.
pub fn check(
    alloc: Global,
    schema: &Schema,
    condition: &Cond,
    program: Program,
    certificate: &Certificate<'_>,
) -> Result<Certified, (Program, Fault)>
    requires { IsTrue (names_within (length schema.now.columns.items) condition.now) }
    ensures checked { Checks result
        (check_certificate schema.now.columns.items condition.now program certificate.now) }
    ensures valid { IfOk result (λ certified.
        Valid schema.now.columns.items condition.now program certificate.now) }
    ensures schema { IfOk result (λ certified. (certified.schema.name ≡ schema.now.name)
        × (certified.schema.columns.items ≡ schema.now.columns.items)) }
    ensures condition { IfOk result (λ certified.
        tree_of certified.condition ≡ tree_of condition.now) }
    ensures program { IfOk result (λ certified. certified.program ≡ program) }
    ensures handed_back { IfErr result (λ refused. refused.0 ≡ program) }
    ensures code { IfErr result (λ refused. IsTrue (is_check_fault refused.1)) }
{
    if let Err(fault) = check_sections(alloc, schema, condition, &program, certificate) {
        return Err((program, fault));
    }
    valid_exactly_where_checked();
    valid_programs_select();
    program.is_valid();
    Certified::new(alloc, schema, condition, program)
}

/// Checks the lines of a certificate, section by section.
fn check_sections(
    alloc: Global,
    schema: &Schema,
    condition: &Cond,
    program: &Program,
    certificate: &Certificate<'_>,
) -> Result<(), Fault>
    requires { IsTrue (names_within (length schema.now.columns.items) condition.now) }
    ensures right { OnOk result ((facts : Facts)
        × (check_certificate schema.now.columns.items condition.now program.now certificate.now
        ≡ Ok facts)) }
    ensures fault { IfErr result (λ fault. is_memory fault ≡ false
        → check_certificate schema.now.columns.items condition.now program.now certificate.now
        ≡ Err fault) }
    ensures code { IfErr result (λ fault. IsTrue (is_check_fault fault)) }
{
    let diagram = diagram_of(alloc, schema, certificate)?;
    let end = certificate.end();
    let (nodes, rest) = pair(schema, &diagram, condition, certificate.body(), end.line)?;
    let at_end = known_at_end(alloc, schema, &diagram, program, rest, end.line)?;
    check_end(&diagram, &at_end, program.result(), nodes.yes, end)
}

/// Checks the end: no line is left over, and the result register's node is the condition's.
fn check_end(
    diagram: &Diagram<'_>,
    at_end: &AtEnd<'_>,
    answer: u8,
    first: u64,
    end: EndLine,
) -> Result<(), Fault>
    requires { answer < 64 }
    ensures right { OnOk result (end_on diagram.now end.line
        (record { known = at_end.now.known; rest = body_lines at_end.now.rest }) answer first
        end.row ≡ Ok diagram.now) }
    ensures fault { IfErr result (λ fault. end_on diagram.now end.line
        (record { known = at_end.now.known; rest = body_lines at_end.now.rest }) answer first
        end.row ≡ Err fault) }
    ensures code { IfErr result (λ fault. IsTrue (is_check_fault fault)) }
{
    if let Some((line, _)) = at_end.rest.next() {
        return Err(Fault::at_line(code::END, line.line));
    }
    let Some(node) = at_end.known[answer as usize] else {
        return Err(Fault::at_line(code::REGISTER_UNKNOWN, end.line));
    };
    match diagram.product_node(Connective::Xor, node, first, end.row) {
        Some(0) => Ok(()),
        _ => Err(Fault::at_line(code::END, end.line)),
    }
}

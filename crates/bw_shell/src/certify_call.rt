//! Writes program files for programs of any writer, with certificates that the prover finds.
ghost use Rattle.std.specs.Prelude.{◌≡◌, ◌-◌, ◌^◌, ◌<◌, ℕ, List, Result, true, false, length, IfOk};
ghost use Rattle.std.specs.Prelude.{IfErr, IsTrue};
ghost use Rattle.bw_model.specs.FaultTable.{NO_CERTIFICATE};
ghost use Rattle.bw_model.specs.declared.fault.Fault.{Fault};
ghost use Rattle.bw_model.specs.Cond.{names_within};
ghost use Rattle.bw_model.specs.Fault.{is_memory, at_line};
ghost use Rattle.bw_program.specs.Program.{ProgramShape, fits};
ghost use Rattle.bw_program.specs.ProgramText.{IsProgramText};
ghost use Rattle.bw_cert_text.specs.CertificateShape.{CertificateShape};
ghost use Rattle.bw_cert.specs.FileVerdict.{Certifies};
ghost use Rattle.bw_io.specs.Sink.{WriteOutcome, none_aside};
ghost use Rattle.bw_shell.specs.Certification.{IsCertified, IsCertificationOf, IsUncertified};
ghost use Rattle.bw_prover.specs.declared.unproved.Unproved.TheVariants.{Memory};
ghost use Rattle.bw_shell.specs.Certification.{is_certification_fault, IsNotFound, line_numbered};
ghost use Rattle.bw_shell.specs.Plan.{IsPrintedFrom};

use crate::plan_call::file_of;
use crate::statement::parse_statement;
use bw_cert::{check_file, split_file};
use bw_io::{Sink, write_whole};
use bw_model::{Cond, Fault, Schema, code};
use bw_program::Program;
use bw_prover::{MAX_PRODUCTS, Unproved, prove};
use bw_text::Lines;
use std::alloc::{AllocError, Global};

/// Finds a certificate of a program for a statement under the schema of a schema text, and writes
/// the program file: the program's canonical text, the line CERTIFICATE, and the certificate's
/// text. A check accepts it for the same schema and statement. What the program's text has from a
/// line CERTIFICATE on is ignored.
///
/// Errors, in this order: the schema text's (106, 101 to 105), the statement's (401 to 408), the
/// program text's (501 to 507), 652 if no certificate is found, and the sink's (702); 801 at any
/// time, if memory is refused. 652 is at the line of an instruction or of the result: at that of
/// the instruction that reads a register which isn't known, else at that of the result. The sink's count of errors must be able to rise.
pub fn certify_text<K: Sink>(
    alloc: Global,
    schema: &[u8],
    sql: &[u8],
    program: &[u8],
    sink: &mut K,
) -> Result<(), Fault>
    requires { (K.state sink.old).failures < 2 ^ 64 - 1 }
    ensures certified { (given : Result (List ℕ) Fault)
        × IsCertified schema.now sql.now program.now given
        × WriteOutcome none_aside (K.state sink.old) (K.state sink.new) given result }
{
    let parsed = parse_statement(alloc, schema, sql)?;
    let file = certified_file(alloc, &parsed.schema, &parsed.query.cond, program)?;
    write_whole(sink, &file)
}

/// Returns the program file of a program's text for a condition, once the checker has accepted it.
fn certified_file(
    alloc: Global,
    schema: &Schema,
    cond: &Cond,
    text: &[u8],
) -> Result<Vec<u8>, Fault>
    requires { IsTrue (names_within (length schema.now.columns.items) cond.now) }
    ensures made { IfOk result (λ file.
        IsCertificationOf schema.now.columns.items cond.now text.now file.items) }
    ensures fault { IfErr result (λ fault. is_memory fault ≡ false
        → IsUncertified schema.now.columns.items text.now fault) }
    ensures code { IfErr result (λ fault. is_certification_fault fault ≡ true) }
{
    let parts = split_file(text);
    let program = Program::parse(alloc, schema, parts.program)?;
    let file = accepted_file(alloc, schema, cond, parts.program, &program)?;
    Ok(file)
}

/// Returns the program file of a program for a condition, once the checker has accepted it.
fn accepted_file(
    alloc: Global,
    schema: &Schema,
    cond: &Cond,
    text: &[u8],
    program: &Program,
) -> Result<Vec<u8>, Fault>
    requires names { IsTrue (names_within (length schema.now.columns.items) cond.now) }
    requires fits { IsTrue (fits schema.now.columns.items program.now) }
    ensures printed { IfOk result (λ file.
        IsPrintedFrom schema.now.columns.items program.now file.items) }
    ensures certifies { IfOk result (λ file. (program : ProgramShape)
        × (certificate : CertificateShape)
        × Certifies schema.now.columns.items cond.now file.items program certificate) }
    ensures fault { IfErr result (IsNotFound text.now (length program.now.instrs)) }
{
    let file = proved_file(alloc, schema, cond, text, program)?;
    match check_file(alloc, schema, cond, &file) {
        Ok(_) => Ok(file),
        Err(fault) => Err(not_found_unless_memory(alloc, text, program.len(), fault)),
    }
}

/// Returns the program file of a program for a condition, which isn't checked yet.
fn proved_file(
    alloc: Global,
    schema: &Schema,
    cond: &Cond,
    text: &[u8],
    program: &Program,
) -> Result<Vec<u8>, Fault>
    requires fits { IsTrue (fits schema.now.columns.items program.now) }
    ensures printed { IfOk result (λ file.
        IsPrintedFrom schema.now.columns.items program.now file.items) }
    ensures fault { IfErr result (IsNotFound text.now (length program.now.instrs)) }
{
    match prove(alloc, schema, cond, program, MAX_PRODUCTS) {
        Ok(certificate) => Ok(file_of(alloc, schema, program, &certificate)?),
        Err(unproved) => Err(fault_of(alloc, text, program.len(), &unproved)),
    }
}

/// Returns the error of a program without a certificate. `end` is the number after the last
/// instruction's.
fn fault_of(alloc: Global, text: &[u8], end: usize, unproved: &Unproved) -> Fault
    ensures fault { IsNotFound text.now end result }
    ensures memory { unproved.now ≡ Memory → IsTrue (is_memory result) }
{
    match unproved {
        Unproved::Memory => Fault::new(code::OUT_OF_MEMORY),
        Unproved::Unwritten { instruction, .. } | Unproved::Unknown { instruction, .. } => {
            not_found(alloc, text, (*instruction).min(end))
        }
        _ => not_found(alloc, text, end),
    }
}

/// Returns the checker's error if that is 801, else the error of a program without a certificate,
/// at the line of the result, which is after that of the last instruction.
fn not_found_unless_memory(alloc: Global, text: &[u8], end: usize, fault: Fault) -> Fault
    ensures fault { IsNotFound text.now end result }
    ensures memory { is_memory fault ≡ true → result ≡ fault }
{
    if fault.is_memory() {
        fault
    } else {
        not_found(alloc, text, end)
    }
}

/// Returns the error of a program without a certificate, at the line of an instruction, or at that
/// of the result after the last one.
fn not_found(alloc: Global, text: &[u8], instruction: usize) -> Fault
    ensures { is_memory result ≡ false
        → result ≡ at_line NO_CERTIFICATE (line_numbered text.now instruction) }
{
    match line_of(alloc, text, instruction) {
        Ok(line) => Fault::at_line(code::NO_CERTIFICATE, line),
        Err(_) => Fault::new(code::OUT_OF_MEMORY),
    }
}

/// Returns the number of an instruction's line, or of the result's after the last instruction.
fn line_of(alloc: Global, text: &[u8], instruction: usize) -> Result<u64, AllocError>
    ensures { IfOk result (λ line. line ≡ line_numbered text.now instruction) }
{
    let mut lines = Lines::new(text);
    let mut before = instruction;
    while let Some(line) = lines.next_line(alloc)? {
        if before == 0 {
            return Ok(line.number);
        }
        before -= 1;
    }
    Ok(lines.number())
}

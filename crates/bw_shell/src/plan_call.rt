//! Writes program files by the planner.
ghost use Rattle.std.specs.Prelude.{◌≡◌, ◌-◌, ◌^◌, ◌<◌, ℕ, List, Result, false, length, IfOk};
ghost use Rattle.std.specs.Prelude.{IfErr, IsTrue, if◌then◌else◌, IsOkUnless};
ghost use Rattle.bw_model.specs.FaultTable.{NO_PROGRAM};
ghost use Rattle.bw_model.specs.declared.fault.Fault.{Fault};
ghost use Rattle.bw_model.specs.Cond.{names_within};
ghost use Rattle.bw_model.specs.Fault.{is_memory, no_memory, nowhere};
ghost use Rattle.bw_program.specs.Program.{ProgramShape, fits};
ghost use Rattle.bw_cert_text.specs.CertificateFields.{certificate_fields};
ghost use Rattle.bw_cert_text.specs.CertificateShape.{CertificateShape};
ghost use Rattle.bw_cert_text.specs.Columns.{has_columns};
ghost use Rattle.bw_cert.specs.FileVerdict.{Certifies};
ghost use Rattle.bw_io.specs.Sink.{WriteOutcome, none_aside};
ghost use Rattle.bw_shell.specs.Plan.{IsPlanned, IsPrinted, IsPrintedFrom};

use crate::statement::parse_statement;
use bw_cert::check_file;
use bw_cert_text::Certificate;
use bw_io::{Sink, write_whole};
use bw_model::{Cond, Fault, Schema, code};
use bw_plan::{Proposal, propose};
use bw_program::Program;
use std::alloc::Global;

/// Plans a statement under the schema of a schema text, and writes the program file: the text of a
/// scan program, the line CERTIFICATE, and the text of a certificate. A check accepts it for the
/// same schema and statement.
///
/// Errors, in this order: the schema text's (106, 101 to 105), the statement's (401 to 408), 651 if
/// the planner has no program that the checker accepts, and the sink's (702); 801 at any time, if
/// memory is refused. The sink's count of errors must be able to rise.
pub fn plan_text<K: Sink>(
    alloc: Global,
    schema: &[u8],
    sql: &[u8],
    sink: &mut K,
) -> Result<(), Fault>
    requires { (K.state sink.old).failures < 2 ^ 64 - 1 }
    ensures planned { (given : Result (List ℕ) Fault) × IsPlanned schema.now sql.now given
        × WriteOutcome none_aside (K.state sink.old) (K.state sink.new) given result }
{
    let parsed = parse_statement(alloc, schema, sql)?;
    let file = plan_of(alloc, &parsed.schema, &parsed.query.cond)?;
    write_whole(sink, &file)
}

/// Returns the program file of a candidate program for a condition, once the checker has accepted
/// its text.
fn plan_of(alloc: Global, schema: &Schema, cond: &Cond) -> Result<Vec<u8>, Fault>
    requires { IsTrue (names_within (length schema.now.columns.items) cond.now) }
    ensures printed { IfOk result (λ file. IsPrinted schema.now.columns.items file.items) }
    ensures certifies { IfOk result (λ file. (program : ProgramShape)
        × (certificate : CertificateShape)
        × Certifies schema.now.columns.items cond.now file.items program certificate) }
    ensures fault { IfErr result (λ fault. is_memory fault ≡ false → fault ≡ nowhere NO_PROGRAM) }
{
    let file = propose_file(alloc, schema, cond)?;
    match check_file(alloc, schema, cond, &file) {
        Ok(_) => Ok(file),
        Err(fault) => Err(unplanned_unless_memory(fault)),
    }
}

/// Returns the program file of a candidate program for a condition, which isn't checked yet.
fn propose_file(alloc: Global, schema: &Schema, cond: &Cond) -> Result<Vec<u8>, Fault>
    requires { IsTrue (names_within (length schema.now.columns.items) cond.now) }
    ensures printed { IfOk result (λ file. IsPrinted schema.now.columns.items file.items) }
    ensures fault { IfErr result (λ fault. is_memory fault ≡ false → fault ≡ nowhere NO_PROGRAM) }
{
    let Proposal {
        program,
        certificate,
    } = propose(alloc, schema, cond)?;
    file_of(alloc, schema, &program, &certificate)
}

/// Returns the text of a program, the line CERTIFICATE, and the text of a certificate.
pub(crate) fn file_of(
    alloc: Global,
    schema: &Schema,
    program: &Program,
    certificate: &Certificate<'_>,
) -> Result<Vec<u8>, Fault>
    requires program { IsTrue (fits schema.now.columns.items program.now) }
    requires certificate { IsTrue
        (has_columns schema.now.columns.items (certificate_fields certificate.now)) }
    ensures printed { IfOk result (λ file.
        IsPrintedFrom schema.now.columns.items program.now file.items) }
    ensures only_oom { IsOkUnless result no_memory }
{
    let mut file = program.print(alloc, schema)?;
    file.extend_from_slice(b"CERTIFICATE\n")?;
    file.extend_from_slice(&certificate.print(alloc, schema)?)?;
    Ok(file)
}

/// Returns the checker's error if that is 801, else 651.
fn unplanned_unless_memory(fault: Fault) -> Fault
    ensures { result ≡ (if is_memory fault then fault else nowhere NO_PROGRAM) }
{
    if fault.is_memory() {
        fault
    } else {
        Fault::new(code::NO_PROGRAM)
    }
}

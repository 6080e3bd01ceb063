//! Program files before a condition is asked for.
ghost use Rattle.std.specs.Prelude.{◌≡◌, false, IfErr, OnOk, IsTrue};
ghost use Rattle.bw_model.specs.Fault.{is_memory};
ghost use Rattle.bw_cert.specs.FileVerdict.{IsTextFault, is_file_fault};
ghost use Rattle.bw_query.specs.ProgramChoice.{IsFileRead};

use bw_cert::{Certificate, MAX_PROGRAM_FILE_LEN, split_file};
use bw_model::{Fault, Schema, code};
use bw_program::Program;
use std::alloc::Global;

/// Reads a program file without a condition. Errors are those that `check_file` returns for every
/// condition: 508, a file of more than 67,108,864 bytes; 501 to 507, its program text; 605, its
/// certificate text. 801 at any time, if memory is refused.
#[tactic(auto, using(bw_cert::specs::FileVerdict::too_long, bw_cert::specs::FileVerdict::program_refused, bw_cert::specs::FileVerdict::certificate_refused))]
pub(crate) fn read_file(alloc: Global, schema: &Schema, file: &[u8]) -> Result<(), Fault>
    ensures read { OnOk result (IsFileRead schema.now.columns.items file.now) }
    ensures fault { IfErr result (λ fault. is_memory fault ≡ false
        → IsTextFault schema.now.columns.items file.now fault) }
    ensures code { IfErr result (λ fault. IsTrue (is_file_fault fault)) }
{
    if file.len() > MAX_PROGRAM_FILE_LEN {
        return Err(Fault::new(code::PROGRAM_FILE_TOO_LONG));
    }
    let parts = split_file(file);
    Program::parse(alloc, schema, parts.program)?;
    Certificate::parse(alloc, parts.first_line, parts.certificate)?;
    Ok(())
}

//! The program of a program file, certified for a condition.
ghost use Rattle.std.specs.Prelude.{◌≡◌, false, Ok, IfOk, IfErr, IsTrue, length};
ghost use Rattle.bw_model.specs.Cond.{names_within};
ghost use Rattle.bw_model.specs.CondTree.{tree_of};
ghost use Rattle.bw_model.specs.Fault.{MatchesUnlessOom, is_memory};
ghost use Rattle.bw_program.specs.Program.{ProgramShape};
ghost use Rattle.bw_cert_text.specs.CertificateShape.{CertificateShape};
ghost use Rattle.bw_cert.specs.FileVerdict.{Certifies, IsFileFault, counts_of, is_file_fault};
ghost use Rattle.bw_cert.specs.FileVerdict.{program_and_counts, told_of};

use crate::accepted::Accepted;
use crate::certified::Certified;
use crate::checker::check;
use crate::file_laws::one_verdict;
use crate::program_file::{MAX_PROGRAM_FILE_LEN, split_file};
use bw_cert_text::Certificate;
use bw_model::{Cond, Fault, Schema, code};
use bw_program::Program;
use std::alloc::Global;

/// A certified program, and the numbers of the file that it came from.
#[derive(Drop)]
pub struct CertifiedFile {
    pub certified: Certified,
    pub accepted: Accepted,
}

/// Returns the program of a program file, certified for a condition whose columns must be the
/// schema's.
///
/// Errors, in this order: 508, a file of more than 67,108,864 bytes; 501 to 507, its program text;
/// 605, its certificate text; 601 to 604 and 606 to 610, the first line that breaks a rule. 801 at
/// any time, if memory is refused.
pub fn check_file(
    alloc: Global,
    schema: &Schema,
    condition: &Cond,
    file: &[u8],
) -> Result<CertifiedFile, Fault>
    requires { IsTrue (names_within (length schema.now.columns.items) condition.now) }
    // What is accepted spells a program and a valid certificate. What spells them is accepted, even
    // if they are valid for another condition of the same tree.
    ensures valid { IfOk result (λ found. (certificate : CertificateShape)
        × Certifies schema.now.columns.items condition.now file.now found.certified.program
        certificate × (found.accepted ≡ counts_of found.certified.program certificate)) }
    ensures accepted { (same : Cond) (program : ProgramShape) (certificate : CertificateShape)
        → tree_of same ≡ tree_of condition.now
        → Certifies schema.now.columns.items same file.now program certificate
        → MatchesUnlessOom program_and_counts result (Ok (told_of program certificate)) }

    // A failed call returns the file's error.
    ensures fault { IfErr result (λ fault. is_memory fault ≡ false
        → IsFileFault schema.now.columns.items condition.now file.now fault) }
    ensures code { IfErr result (λ fault. IsTrue (is_file_fault fault)) }

    // It is certified for this schema and condition.
    ensures schema { IfOk result (λ found. (found.certified.schema.name ≡ schema.now.name)
        × (found.certified.schema.columns.items ≡ schema.now.columns.items)) }
    ensures condition { IfOk result (λ found.
        tree_of found.certified.condition ≡ tree_of condition.now) }
{
    one_verdict();
    check_parts(alloc, schema, condition, file)
}

/// Checks a program file as [`check_file`] does, without the law that what can be certified is
/// never rejected.
#[tactic(auto, using(crate::specs::FileVerdict::too_long, crate::specs::FileVerdict::program_refused, crate::specs::FileVerdict::certificate_refused, crate::specs::FileVerdict::text_refused, crate::specs::FileVerdict::line_refused))]
fn check_parts(
    alloc: Global,
    schema: &Schema,
    condition: &Cond,
    file: &[u8],
) -> Result<CertifiedFile, Fault>
    requires { IsTrue (names_within (length schema.now.columns.items) condition.now) }
    ensures valid { IfOk result (λ found. (certificate : CertificateShape)
        × Certifies schema.now.columns.items condition.now file.now found.certified.program
        certificate × (found.accepted ≡ counts_of found.certified.program certificate)) }
    ensures fault { IfErr result (λ fault. is_memory fault ≡ false
        → IsFileFault schema.now.columns.items condition.now file.now fault) }
    ensures code { IfErr result (λ fault. IsTrue (is_file_fault fault)) }
    ensures schema { IfOk result (λ found. (found.certified.schema.name ≡ schema.now.name)
        × (found.certified.schema.columns.items ≡ schema.now.columns.items)) }
    ensures condition { IfOk result (λ found.
        tree_of found.certified.condition ≡ tree_of condition.now) }
{
    if file.len() > MAX_PROGRAM_FILE_LEN {
        return Err(Fault::new(code::PROGRAM_FILE_TOO_LONG));
    }
    let parts = split_file(file);
    let program = Program::parse(alloc, schema, parts.program)?;
    let certificate = Certificate::parse(alloc, parts.first_line, parts.certificate)?;
    match check(alloc, schema, condition, program, &certificate) {
        Ok(certified) => {
            let accepted = Accepted {
                instructions: certified.program().len(),
                skips: certified.program().skips(),
                nodes: certificate.nodes(),
                chains: certificate.chains(),
                rows: certificate.rows(),
            };
            Ok(CertifiedFile {
                certified,
                accepted,
            })
        }
        Err((_, fault)) => Err(fault),
    }
}

//! A program file checked for the condition of a statement.
ghost use Rattle.std.specs.Prelude.{◌≡◌, false, Ok, IfOk, IfErr, IsTrue, length};
ghost use Rattle.bw_model.specs.Cond.{names_within};
ghost use Rattle.bw_model.specs.CondTree.{tree_of};
ghost use Rattle.bw_model.specs.Fault.{MatchesUnlessOom, is_memory};
ghost use Rattle.bw_program.specs.Program.{ProgramShape};
ghost use Rattle.bw_cert_text.specs.CertificateShape.{CertificateShape};
ghost use Rattle.bw_shell.specs.CheckText.{IsAccepted, IsCheckFault};
ghost use Rattle.bw_cert.specs.declared.accepted.Accepted.{Accepted as Numbers};
ghost use Rattle.bw_cert.specs.FileVerdict.{Certifies, IsFileFault, counts_of};

use crate::statement::parse_statement;
use bw_cert::{Accepted, check_file};
use bw_model::{Cond, Fault, Schema};
use std::alloc::Global;

/// Checks a program file for the condition of a statement, under the schema of a schema text.
/// Returns the numbers of the program and of its certificate.
///
/// Errors, in this order: the schema text's (106, 101 to 105), the statement's (401 to 408), and
/// the file's, as of [`check_file`]. 801 at any time, if memory is refused.
#[tactic(auto, using(crate::specs::CheckText::text_refused, crate::specs::CheckText::file_refused))]
pub fn check_text(alloc: Global, schema: &[u8], sql: &[u8], file: &[u8]) -> Result<Accepted, Fault>
    ensures accepted { IfOk result (λ accepted. IsAccepted schema.now sql.now file.now accepted) }
    ensures accepts { (accepted : Numbers) → IsAccepted schema.now sql.now file.now accepted
        → MatchesUnlessOom (λ numbers. numbers) result (Ok accepted) }
    ensures fault { IfErr result (λ fault. is_memory fault ≡ false
        → IsCheckFault schema.now sql.now file.now fault) }
{
    let parsed = parse_statement(alloc, schema, sql)?;
    numbers(alloc, &parsed.schema, &parsed.query.cond, file)
}

/// Returns the numbers of a program file that is certified for the condition.
fn numbers(alloc: Global, schema: &Schema, condition: &Cond, file: &[u8]) -> Result<Accepted, Fault>
    requires { IsTrue (names_within (length schema.now.columns.items) condition.now) }
    ensures valid { IfOk result (λ numbers. (program : ProgramShape)
        × (certificate : CertificateShape)
        × Certifies schema.now.columns.items condition.now file.now program certificate
        × (numbers ≡ counts_of program certificate)) }
    ensures accepted { (same : Cond) (program : ProgramShape) (certificate : CertificateShape)
        → tree_of same ≡ tree_of condition.now
        → Certifies schema.now.columns.items same file.now program certificate
        → MatchesUnlessOom (λ numbers. numbers) result (Ok (counts_of program certificate)) }
    ensures fault { IfErr result (λ fault. is_memory fault ≡ false
        → IsFileFault schema.now.columns.items condition.now file.now fault) }
{
    let found = check_file(alloc, schema, condition, file)?;
    Ok(found.accepted)
}

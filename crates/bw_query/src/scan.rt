//! Chooses what finds the rows of a query.
ghost use Rattle.std.specs.Prelude.{◌≡◌, false, IfOk, IfErr, IsTrue, List, None, length};
ghost use Rattle.std.specs.Prelude.{IsOkUnless};
ghost use Rattle.bw_model.specs.declared.column.Column.{Column};
ghost use Rattle.bw_model.specs.declared.cond.Cond.{Cond};
ghost use Rattle.bw_model.specs.Cond.{names_within};
ghost use Rattle.bw_model.specs.CondTree.{tree_of};
ghost use Rattle.bw_model.specs.Fault.{is_memory, no_memory};
ghost use Rattle.bw_program.specs.Program.{ProgramShape};
ghost use Rattle.bw_cert_text.specs.CertificateShape.{CertificateShape};
ghost use Rattle.bw_cert.specs.FileVerdict.{is_file_fault};
ghost use Rattle.bw_cert.specs.Valid.{Valid};
ghost use Rattle.bw_memory.specs.MemoryTable.{schema_of};
ghost use Rattle.bw_query.specs.declared.scan.Scan.TheVariants.{Program};
ghost use Rattle.bw_query.specs.ProgramChoice.{IsChosenAmong, IsYield, texts_of};
ghost use Rattle.bw_query.specs.Scan.{IsFor, IsChosen, IsScanFault, IsUsable, given_file, scan_by};

use crate::trial::plan_for_table;
use bw_cert::{
    Certified, certificates_are_checked_by_their_fields, check, check_file,
    valid_exactly_where_checked,
};
use bw_memory::MemoryTable;
use bw_model::{Cond, Fault, Schema};
use bw_plan::propose_in_order;
use std::alloc::Global;

/// What finds the rows of a query: a scan program that was certified for its condition, or the
/// fallback, which evaluates the condition itself.
#[derive(Drop)]
pub(crate) enum Scan {
    Program(Certified),
    Rows,
}

/// Returns what finds the rows of a query: the program of a program file, if there is one; else the
/// planner's, if it proposes one that the checker accepts; else the fallback.
///
/// Errors: those of the program file, as [`check_file`] returns them (501 to 508, 601 to 610). A
/// candidate program that isn't accepted is no error: it isn't used. 801 at any time, if memory is
/// refused, also to the planner.
pub(crate) fn scan_for(
    alloc: Global,
    schema: &Schema,
    cond: &Cond,
    program: Option<&[u8]>,
) -> Result<Scan, Fault>
    requires { IsTrue (names_within (length schema.now.columns.items) cond.now) }
    ensures certified { IfOk result (IsFor schema.now.columns.items cond.now) }
    ensures chosen { IfOk result
        (IsChosen (given_file program.entry) schema.now.columns.items cond.now) }
    ensures fault { IfErr result (λ fault. is_memory fault ≡ false
        → IsScanFault (given_file program.entry) schema.now.columns.items cond.now fault) }
    ensures code { IfErr result (λ fault. IsTrue (is_file_fault fault)) }
    // If the program file is accepted for a condition of the same tree, only memory can fail.
    ensures accepted { (same : Cond) → tree_of same ≡ tree_of cond.now
        → IsUsable (given_file program.entry) schema.now.columns.items same
        → IsOkUnless result no_memory }
{
    match program {
        Some(file) => Ok(Scan::Program(check_file(alloc, schema, cond, file)?.certified)),
        None => plan_and_certify(alloc, schema, cond, cond),
    }
}

/// Returns how a condition is to be scanned if there are program files to choose among: by the
/// program of the first one that is accepted for it; else by the planner's that [`plan_for_table`]
/// returns; else the fallback. Errors: 801 if memory is refused.
pub(crate) fn choose(
    alloc: Global,
    table: &MemoryTable,
    cond: &Cond,
    files: &[Vec<u8>],
) -> Result<Scan, Fault>
    requires { IsTrue (names_within (length (schema_of table.now).columns.items) cond.now) }
    ensures certified { IfOk result (IsFor (schema_of table.now).columns.items cond.now) }
    ensures chosen { IfOk result
        (IsChosenAmong (texts_of files.now) (schema_of table.now).columns.items cond.now) }
    ensures only_oom { IsOkUnless result no_memory }
{
    let schema = table.schema();
    for number in 0..files.len() {
        match certify_by_file(alloc, schema, cond, &files[number])? {
            Some(certified) => return Ok(Scan::Program(certified)),
            None => {}
        }
    }
    plan_for_table(alloc, table, cond)
}

/// A law: a certificate that is valid for a condition is valid for each equal one.
pub(crate) fn certificates_serve_equal_conditions()
    ensures { (columns : List Column) (cond same : Cond) (program : ProgramShape)
        (certificate : CertificateShape)
        → tree_of cond ≡ tree_of same → Valid columns cond program certificate
        → Valid columns same program certificate }
{
    valid_exactly_where_checked();
    certificates_are_checked_by_their_fields();
}

/// Returns the program of a program file, if it's accepted for a condition. Errors: 801 if memory
/// is refused.
fn certify_by_file(
    alloc: Global,
    schema: &Schema,
    cond: &Cond,
    file: &[u8],
) -> Result<Option<Certified>, Fault>
    requires { IsTrue (names_within (length schema.now.columns.items) cond.now) }
    ensures found { IfOk result (IsYield file.now schema.now.columns.items cond.now) }
    ensures only_oom { IsOkUnless result no_memory }
{
    match check_file(alloc, schema, cond, file) {
        Ok(found) => Ok(Some(found.certified)),
        Err(fault) if fault.is_memory() => Err(fault),
        Err(_) => Ok(None),
    }
}

/// Returns the planner's program, which takes the parts of the condition in the order of another
/// one, if it proposes one that the checker accepts; else the fallback. Errors: 801 if memory is
/// refused.
pub(crate) fn plan_and_certify(
    alloc: Global,
    schema: &Schema,
    cond: &Cond,
    order: &Cond,
) -> Result<Scan, Fault>
    requires { IsTrue (names_within (length schema.now.columns.items) cond.now) }
    ensures certified { IfOk result (IsFor schema.now.columns.items cond.now) }
    ensures chosen { IfOk result (IsChosen None schema.now.columns.items cond.now) }
    ensures only_oom { IsOkUnless result no_memory }
{
    scan_by(certify_plan(alloc, schema, cond, order))
}

/// Returns the planner's program, which the checker has accepted. Errors: 651, the planner's; 601
/// to 610, the checker's; 801 if memory is refused.
fn certify_plan(
    alloc: Global,
    schema: &Schema,
    cond: &Cond,
    order: &Cond,
) -> Result<Certified, Fault>
    requires { IsTrue (names_within (length schema.now.columns.items) cond.now) }
    ensures certified { IfOk result
        (λ certified. IsFor schema.now.columns.items cond.now (Program certified)) }
    ensures chosen { IfOk result (λ certified. IsChosen None schema.now.columns.items cond.now
        (Program certified)) }
{
    let proposal = propose_in_order(alloc, schema, cond, order)?;
    match check(alloc, schema, cond, proposal.program, &proposal.certificate) {
        Ok(certified) => Ok(certified),
        Err((_, fault)) => Err(fault),
    }
}

/// Returns the scan by a program that was found, or the fallback if there is none. Errors: 801 if
/// memory was refused.
fn scan_by(found: Result<Certified, Fault>) -> Result<Scan, Fault>
    ensures { result ≡ scan_by found }
{
    match found {
        Ok(certified) => Ok(Scan::Program(certified)),
        Err(fault) if fault.is_memory() => Err(fault),
        Err(_) => Ok(Scan::Rows),
    }
}

//! Laws: a certificate is valid if and only if no line breaks a rule, and then the program selects
//! the rows on which the condition is TRUE.
ghost use Rattle.std.specs.Prelude.{◌≡◌, ◌⊎◌, ℕ, List, Ok, Err, IsTrue, length};
ghost use Rattle.bw_model.specs.declared.column.Column.{Column};
ghost use Rattle.bw_model.specs.declared.cond.Cond.{Cond};
ghost use Rattle.bw_model.specs.declared.fault.Fault.{Fault};
ghost use Rattle.bw_model.specs.Cond.{names_within};
ghost use Rattle.bw_model.specs.CondTree.{tree_of};
ghost use Rattle.bw_model.specs.Fault.{at_line};
ghost use Rattle.bw_model.specs.Variable.{Assignment};
ghost use Rattle.bw_diagram.specs.Facts.{Facts};
ghost use Rattle.bw_program.specs.Machine.{Reaches, State, end_state};
ghost use Rattle.bw_program.specs.Program.{ProgramShape, is_program, fits};
ghost use Rattle.bw_program.specs.declared.instr.Instr.{Instr};
ghost use Rattle.bw_cert_text.specs.CertificateFields.{certificate_fields};
ghost use Rattle.bw_cert_text.specs.CertificateShape.{CertificateShape};
ghost use Rattle.bw_cert_text.specs.declared.lines.BodyLine.{BodyLine};
ghost use Rattle.bw_cert_rules.specs.Accepted.{known_before};
ghost use Rattle.bw_cert_rules.specs.Sound.{Hold};
ghost use Rattle.bw_cert_rules.specs.Walk.{check_lines};
ghost use Rattle.bw_cert.specs.FirstFault.{FirstFault, StandsOn};
ghost use Rattle.bw_cert.specs.FirstWrong.{FirstWrong};
ghost use Rattle.bw_cert.specs.Selects.{Selects};
ghost use Rattle.bw_cert.specs.Valid.{Valid, check_certificate};

use bw_cert_rules::{
    accepted_lines_are_valid, lines_are_checked_by_their_fields, pairs_are_of_trees,
    pairs_tell_truths, skip_soundness, valid_lines_are_accepted,
};
use bw_diagram::{accepted_lines_are_true, cited_nodes_have_stated_values};
use bw_run::runs_come_to_the_end;

/// A law: a certificate is valid if and only if no line breaks a rule.
pub fn valid_exactly_where_checked()
    ensures sound { (columns : List Column) (cond : Cond) (program : ProgramShape)
        (certificate : CertificateShape) (facts : Facts)
        → check_certificate columns cond program certificate ≡ Ok facts
        → Valid columns cond program certificate }
    ensures complete { (columns : List Column) (cond : Cond) (program : ProgramShape)
        (certificate : CertificateShape)
        → (valid : Valid columns cond program certificate)
        → check_certificate columns cond program certificate ≡ Ok valid.facts }
{
    accepted_lines_are_valid();
    valid_lines_are_accepted();
}

/// A law, skip soundness and exact selection. If a certificate is valid, the schema has all columns
/// and bits that the program names.
///
/// In every run, over any lanes, whichever skips it takes, and at each place that it reaches: if a
/// register's node is known there, the register has the node's value in the lane of each
/// assignment. One of these places is the end, after the last instruction. There the result
/// register is 1 exactly in the lanes on whose rows the condition is TRUE.
pub fn valid_programs_select()
    ensures fits { (columns : List Column) (cond : Cond) (program : ProgramShape)
        (certificate : CertificateShape)
        → Valid columns cond program certificate → IsTrue (fits columns program) }
    ensures places { (columns : List Column) (cond : Cond) (program : ProgramShape)
        (certificate : CertificateShape) → IsTrue (is_program program)
        → (valid : Valid columns cond program certificate)
        → (lanes : List Assignment) (place : ℕ) (state : State)
        → Reaches columns lanes program place state
        → Hold valid.facts lanes (known_before valid.facts program.instrs valid.parts place)
        state.registers }
    ensures end { (columns : List Column) (program : ProgramShape) → IsTrue (is_program program)
        → (lanes : List Assignment)
        → Reaches columns lanes program (length program.instrs) (end_state columns lanes program) }
    ensures selects { (columns : List Column) (cond : Cond) (program : ProgramShape)
        (certificate : CertificateShape)
        → IsTrue (names_within (length columns) cond) → IsTrue (is_program program)
        → Valid columns cond program certificate → Selects columns cond program }
{
    accepted_lines_are_true();
    cited_nodes_have_stated_values();
    skip_soundness();
    runs_come_to_the_end();
    pairs_tell_truths();
}

/// A law: certificates of the same content are checked alike, for conditions of the same tree.
/// Either no line breaks a rule in both, or both have the same first error.
pub fn certificates_are_checked_by_their_fields()
    ensures { (columns : List Column) (cond same : Cond) (program : ProgramShape)
        (certificate other : CertificateShape)
        → tree_of cond ≡ tree_of same → certificate_fields certificate ≡ certificate_fields other
        → check_certificate columns cond program certificate
        ≡ check_certificate columns same program other }
{
    pairs_are_of_trees();
    lines_are_checked_by_their_fields();
}

/// A law: if the lines of a program's instructions and joins are rejected, the error is their first
/// error. Before its line are the lines of parts that satisfy their rules, for some first
/// instructions, and then the valid lines of the next instruction's part.
///
/// Lines with a first error are rejected with it, so they have at most one. It is on one of the
/// lines, and doesn't depend on the lines that follow that one; or it is at END, if the lines run
/// out.
pub fn refused_lines_have_a_first_fault()
    ensures stands { (facts : Facts) (instrs : List Instr) (end : ℕ) (lines : List BodyLine)
        (fault : Fault)
        → check_lines facts instrs end lines ≡ Err fault → FirstFault facts instrs end lines fault }
    ensures first { (facts : Facts) (instrs : List Instr) (end : ℕ) (lines : List BodyLine)
        (fault : Fault)
        → FirstFault facts instrs end lines fault → check_lines facts instrs end lines ≡ Err fault }
    ensures after { (facts : Facts) (instrs : List Instr) (end : ℕ) (lines : List BodyLine)
        (fault : Fault)
        → check_lines facts instrs end lines ≡ Err fault
        → StandsOn facts instrs end lines fault ⊎ (fault ≡ at_line fault.code end) }
{}

/// A law: a certificate that is rejected has a first line that breaks a rule. It is a NODE, CHAIN
/// or ROW line after those that satisfy theirs; or one of the condition's lines, after all of
/// these; or the first error of the program's lines, after the condition's; or, after all of these,
/// a line that is left over, or END.
pub fn refused_certificates_have_a_first_fault()
    ensures { (columns : List Column) (cond : Cond) (program : ProgramShape)
        (certificate : CertificateShape) (fault : Fault)
        → check_certificate columns cond program certificate ≡ Err fault
        → FirstWrong columns cond program certificate fault }
{}

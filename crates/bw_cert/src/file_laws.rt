//! Laws: a program file is either certified or rejected, in one way only.
ghost use Rattle.std.specs.Prelude.{◌≡◌, ℕ, List};
ghost use Rattle.bw_model.specs.declared.column.Column.{Column};
ghost use Rattle.bw_model.specs.declared.cond.Cond.{Cond};
ghost use Rattle.bw_model.specs.declared.fault.Fault.{Fault};
ghost use Rattle.bw_model.specs.CondTree.{tree_of};
ghost use Rattle.bw_program.specs.Program.{ProgramShape};
ghost use Rattle.bw_cert_text.specs.CertificateFields.{certificate_fields};
ghost use Rattle.bw_cert_text.specs.CertificateShape.{CertificateShape};
ghost use Rattle.bw_cert.specs.FileVerdict.{Certifies, IsFileFault};

use crate::laws::{certificates_are_checked_by_their_fields, valid_exactly_where_checked};

/// A law: a file spells at most one program, and all certificates for it have the same content. It
/// has at most one error, and none if it is certified, even for another condition of the same tree.
pub fn one_verdict()
    ensures certified { (columns : List Column) (cond same : Cond) (file : List ℕ)
        (program other : ProgramShape) (certificate another : CertificateShape)
        → Certifies columns cond file program certificate
        → Certifies columns same file other another
        → (program ≡ other) × (certificate_fields certificate ≡ certificate_fields another) }
    ensures none_certified { (columns : List Column) (cond same : Cond) (file : List ℕ)
        (program : ProgramShape)
        (certificate : CertificateShape) (fault : Fault) → tree_of cond ≡ tree_of same
        → Certifies columns cond file program certificate → IsFileFault columns same file fault
        → ⊥ }
    ensures fault { (columns : List Column) (cond same : Cond) (file : List ℕ) (fault other : Fault)
        → tree_of cond ≡ tree_of same
        → IsFileFault columns cond file fault → IsFileFault columns same file other
        → fault ≡ other }
{
    certificates_are_checked_by_their_fields();
    valid_exactly_where_checked();
}

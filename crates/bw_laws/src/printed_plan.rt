//! The program and the certificate of a printed program file.
ghost use Rattle.std.specs.Prelude.{◌≡◌, ℕ, List};
ghost use Rattle.bw_cert_text.specs.CertificateFields.{certificate_fields};
ghost use Rattle.bw_cert_text.specs.PrintText.{respell};
ghost use Rattle.bw_cert_text.specs.Reprint.{renumber};
ghost use Rattle.bw_program.specs.ProgramText.{IsProgramText};
ghost use Rattle.bw_shell.specs.Certification.{IsCertification};
ghost use Rattle.bw_shell.specs.Plan.{IsPlan};

/// A law: a plan prints the certified program. A plan's file is the printed text of a program,
/// the line CERTIFICATE, and the printed text of a certificate. The checker reads that program and
/// validates that certificate in the file, in the schema's spelling and with the line numbers of
/// the file.
pub fn a_plan_prints_its_program()
    ensures program { (text sql file : List ℕ) → (plan : IsPlan text sql file)
        → plan.printed.shown ≡ plan.program }
    ensures certificate { (text sql file : List ℕ) → (plan : IsPlan text sql file)
        → renumber plan.certifies.first (respell plan.schema.columns.items plan.printed.stated)
        ≡ certificate_fields plan.certificate }
{}

/// A law: the program that the checker reads in a file that `bw certify` printed is the given one:
/// the given text spells it, before its line CERTIFICATE.
pub fn a_certified_program_is_the_given_one()
    ensures { (schema_text sql text file : List ℕ)
        → (certified : IsCertification schema_text sql text file)
        → IsProgramText certified.schema.columns.items certified.made.given
        certified.made.program }
{}

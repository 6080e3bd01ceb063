//! The parts of a program file.
ghost use Rattle.std.specs.Prelude.{◌≡◌, ◌≤◌, ◌+◌, length};
ghost use Rattle.bw_cert.specs.ProgramFile.{IsCut, divides};

use bw_text::{Lines, is_same_text, only_word};

/// The most bytes of a program file: 64 MiB.
pub const MAX_PROGRAM_FILE_LEN: usize = 1 << 26;

/// The parts of a program file: a program text, a certificate text, and the number in the file of
/// the certificate text's first line.
#[derive(Clone, Copy)]
pub struct ProgramFile<'a> {
    pub program: &'a [u8],
    pub certificate: &'a [u8],
    pub first_line: u64,
}

/// Cuts a program file at the first line whose only word is CERTIFICATE, ignoring case. Without
/// such a line, all of it is the program text; the certificate text is then empty, and its first
/// line is the one after the last. Allocates no memory.
pub fn split_file(file: &[u8]) -> ProgramFile<'_>
    ensures cut { IsCut file.now result.program.now result.certificate.now result.first_line }
    ensures first { (1 ≤ result.first_line) × (result.first_line ≤ length file.now + 1) }
    ensures consumes_input { length result.program.now ≤ length file.now }
{
    let mut lines = Lines::new(file);
    let mut read = 0;
    'lines: while let Some(line) = lines.cut_line() {
        if divides(line) {
            return ProgramFile {
                program: &file[..read],
                certificate: lines.rest(),
                first_line: lines.number(),
            };
        }
        read = file.len() - lines.rest().len();
    }
    ProgramFile {
        program: file,
        certificate: &[],
        first_line: lines.number(),
    }
}

/// Returns whether a line divides a program file: its only word is CERTIFICATE.
fn divides(line: &[u8]) -> bool
    ensures { result ≡ divides line.now }
{
    only_word(line).is_some_and(|word| is_same_text(word, b"CERTIFICATE"))
}

//! Program texts, read line by line: instructions, then `RESULT x`.
ghost use Rattle.std.specs.Prelude.{◌≡◌, ◌<◌, ◌≤◌, ℕ, Ok, Err, [], false, length, option_map, IfOk};
ghost use Rattle.std.specs.Prelude.{IfErr, OnOk, IsTrue};
ghost use Rattle.bw_model.specs.Fault.{MatchesUnlessOom, is_memory};
ghost use Rattle.bw_text.specs.Lines.{lines_in, end_in};
ghost use Rattle.bw_program.specs.Program.{ProgramShape, fits, most_instructions};
ghost use Rattle.bw_program.specs.ProgramText.{program_of, program_on, last_line};
ghost use Rattle.bw_program.specs.ProgramText.{program_with_result, instrs_of, within_end};
ghost use Rattle.bw_program.specs.ProgramText.{goes_past, IsProgramText, IsProgramFault};

use crate::instr::{Instr, Register};
use crate::line::{instr_of, is_result_line, result_of};
use crate::program::{Program, registers_of};
use crate::step::steps_of;
use crate::valid::MAX_INSTRUCTIONS;
use bw_model::{Fault, Schema, code};
use bw_text::{Line, Lines};
use std::alloc::{AllocError, Global};

impl Program {
    /// Reads a program text under a schema, which must have the columns, bits, null planes and
    /// slices that it names.
    ///
    /// Errors: the first wrong line, with the first of these that applies:
    ///
    /// - 505: an instruction after the 4,096th
    /// - 501: another form, an invalid number, or a line after the result
    /// - 502: a register that isn't r0 to r63
    /// - 503: a column, bit or slice that the schema doesn't have
    /// - 507: a null plane of a column that has none
    /// - 504: a skip that doesn't go forward
    ///
    /// At the end of the text, one line after the last, a missing result is 506. If all else is
    /// right, the first skip past the end is 504. 801 if memory is refused.
    pub fn parse(alloc: Global, schema: &Schema, text: &[u8]) -> Result<Program, Fault>
        // A text that is read spells the program, and every text that spells one is read.
        ensures spelled { IfOk result
            (λ program. IsProgramText schema.now.columns.items text.now program) }
        ensures accepted { (program : ProgramShape)
            → IsProgramText schema.now.columns.items text.now program
            → MatchesUnlessOom (λ program. program) result (Ok program) }

        // A failed call returns the first error of the text.
        ensures fault { MatchesUnlessOom (λ program. program) result
            (program_of schema.now.columns.items text.now) }
        ensures code { IfErr result IsProgramFault }
        ensures fits { IfOk result (λ program. IsTrue (fits schema.now.columns.items program)) }
    {
        read_program(alloc, schema, text)
    }
}

/// An instruction and the number of its line.
#[derive(Clone, Copy)]
pub(crate) struct Placed {
    line: u64,
    instr: Instr,
}

/// Reads a program text line by line.
fn read_program(alloc: Global, schema: &Schema, text: &[u8]) -> Result<Program, Fault>
    ensures read { MatchesUnlessOom (λ program. program) result
        (program_of schema.now.columns.items text.now) }
    ensures code { IfErr result IsProgramFault }
{
    let mut lines = Lines::new(text);
    let mut placed = Vec::new(alloc);
    let result = read_lines(alloc, schema, &mut lines, &mut placed)?;
    refuse_more(alloc, lines)?;
    check_targets(&placed)?;
    let instrs = instrs_of(alloc, &placed)?;
    let steps = steps_of(alloc, &instrs)?;
    let registers = registers_of(&instrs, result);
    Ok(Program {
        instrs,
        result,
        registers,
        steps,
    })
}

/// Reads the lines up to that of the result, and returns the result register.
fn read_lines(
    alloc: Global,
    schema: &Schema,
    lines: &mut Lines<'_>,
    placed: &mut Vec<Placed>,
) -> Result<Register, Fault>
    requires { placed.old.items ≡ [] }
    ensures read { IfOk result
        (λ register. program_on schema.now.columns.items [] (lines_in lines.old) (end_in lines.old)
        ≡ program_with_result placed.new.items (lines_in lines.new) register) }
    ensures fault { IfErr result (λ fault. is_memory fault ≡ false
        → program_on schema.now.columns.items [] (lines_in lines.old) (end_in lines.old)
        ≡ Err fault) }
    ensures within_limit { OnOk result (length placed.new.items ≤ most_instructions) }
    ensures below { IfOk result (λ register. register < 64) }
    ensures code { IfErr result IsProgramFault }
{
    while let Some(line) = lines.next_line(alloc)? {
        if is_result_line(&line) {
            return result_of(&line);
        }
        if placed.len() >= MAX_INSTRUCTIONS {
            return Err(Fault::at_line(code::PROGRAM_TOO_LONG, line.number));
        }
        let instr = instr_of(schema, placed.len(), &line)?;
        placed.push(Placed {
            line: line.number,
            instr,
        })?;
    }
    Err(Fault::at_line(code::NO_RESULT, lines.number()))
}

/// Fails if a line follows that of the result.
fn refuse_more(alloc: Global, mut lines: Lines<'_>) -> Result<(), Fault>
    ensures none { OnOk result ((x : ℕ) → last_line (lines_in lines.entry) x ≡ Ok x) }
    ensures nonempty { IfErr result (λ fault. is_memory fault ≡ false → (x : ℕ)
        → last_line (lines_in lines.entry) x ≡ Err fault) }
    ensures code { IfErr result IsProgramFault }
{
    let more = lines.next_line(alloc)?;
    match number_of(&more) {
        None => Ok(()),
        Some(number) => Err(Fault::at_line(code::PROGRAM_FORM, number)),
    }
}

/// Returns the number of a line, if there is one.
fn number_of(line: &Option<Line<'_>>) -> Option<u64>
    ensures { result ≡ option_map (λ line. line.number) line.now }
{
    line.as_ref().map(|line| line.number)
}

/// Returns the instructions, without the numbers of their lines.
fn instrs_of(alloc: Global, placed: &[Placed]) -> Result<Vec<Instr>, AllocError>
    ensures { IfOk result (λ instrs. instrs.items ≡ instrs_of placed.now) }
{
    placed.iter().map(|each| each.instr).collect(alloc)
}

/// Fails by the first skip past the end of the instructions.
fn check_targets(placed: &[Placed]) -> Result<(), Fault>
    ensures within { OnOk result ((x : ProgramShape) → within_end (length placed.now) placed.now x
        ≡ Ok x) }
    ensures past { IfErr result (λ fault. (x : ProgramShape)
        → within_end (length placed.now) placed.now x ≡ Err fault) }
    ensures code { IfErr result IsProgramFault }
{
    for each in placed {
        if goes_past(placed.len(), each.instr) {
            return Err(Fault::at_line(code::SKIP_TARGET, each.line));
        }
    }
    Ok(())
}

/// Returns whether an instruction is a skip past `end`, the number of instructions.
fn goes_past(end: usize, instr: Instr) -> bool
    ensures { result ≡ goes_past end instr }
{
    match instr {
        Instr::Skip(_, target) => target > end,
        _ => false,
    }
}

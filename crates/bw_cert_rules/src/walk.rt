//! The lines of a program's instructions and joins, consumed one after another.
ghost use Rattle.std.specs.Prelude.{◌≡◌, ◌≤◌, IsTrue, IfOk, IfErr, Ok, Err};
ghost use Rattle.bw_model.specs.Fault.{MatchesUnlessOom};
ghost use Rattle.bw_program.specs.Program.{named_by};
ghost use Rattle.bw_text.specs.Register.{register_count};
ghost use Rattle.bw_cert_text.specs.BodyLines.{body_lines};
ghost use Rattle.bw_cert_rules.specs.Walk.{check_lines, instruction_taken};
ghost use Rattle.bw_cert_rules.specs.Known.{is_known_fault};

use crate::edge::Edges;
use crate::known::Known;
use crate::line_checker::LineChecker;
use bw_cert_text::{BodyLines, Entry};
use bw_diagram::Diagram;
use bw_model::{Fault, Schema, code};
use bw_program::{Instr, Program};
use std::alloc::Global;

/// What is known at the end of a program, and the lines that follow those of its instructions and
/// joins.
#[derive(Clone, Copy)]
pub struct AtEnd<'a> {
    pub known: Known,
    pub rest: BodyLines<'a>,
}

/// Consumes the lines of a program's instructions and joins. Returns what is known of the registers
/// at its end, and the lines that follow. `end` is the number of the certificate's last line, after
/// all lines.
///
/// Errors: the first line that breaks a rule, or the last line if lines are missing.
///
/// - 607: another line than the instruction's, or one that doesn't show the instruction's result
/// - 609: a line of the right kind whose instruction reads a register that isn't known
/// - 608: another line than JOIN at a place to which skips lead, or a KEEP line that isn't true on
///   fall-through and by each skip
///
/// 801 if memory is refused.
pub fn known_at_end<'a>(
    alloc: Global,
    schema: &Schema,
    diagram: &Diagram<'_>,
    program: &Program,
    lines: BodyLines<'a>,
    end: u64,
) -> Result<AtEnd<'a>, Fault>
    requires { diagram.now.columns ≡ schema.now.columns.items }
    ensures checked { MatchesUnlessOom (λ at. record { known = at.known; rest = body_lines at.rest })
        result (check_lines diagram.now program.now.instrs end (body_lines lines.entry)) }
    ensures code { IfErr result (λ fault. IsTrue (is_known_fault fault)) }
{
    let checker = LineChecker { schema, diagram };
    let mut known: Known = [None; 64];
    let mut edges = Edges::new(alloc, program.len())?;
    let mut rest = lines;
    for number in 0..program.len() {
        let instr = program.instr(number);
        edges.add(&known, instr)?;
        rest = checker.take_instruction(&mut known, instr, rest, end)?;
        let place = number + 1;
        rest = checker.take_join(&mut known, edges.into_place(place), place, rest, end)?;
    }
    Ok(AtEnd { known, rest })
}

impl LineChecker<'_> {
    /// Consumes the line of an instruction, and returns those that follow.
    fn take_instruction<'a>(
        self,
        known: &mut Known,
        instr: Instr,
        lines: BodyLines<'a>,
        end: u64,
    ) -> Result<BodyLines<'a>, Fault>
        requires columns { self.diagram.now.columns ≡ self.schema.now.columns.items }
        requires registers { named_by instr ≤ register_count }
        ensures taken { IfOk result (λ rest.
            instruction_taken self.entry.diagram.now end known.old instr (body_lines lines.entry)
            ≡ Ok (record { known = known.new; rest = body_lines rest })) }
        ensures fault { IfErr result (λ fault.
            instruction_taken self.entry.diagram.now end known.old instr (body_lines lines.entry)
            ≡ Err fault) }
        ensures code { IfErr result (λ fault. IsTrue (is_known_fault fault)) }
    {
        let Some((line, rest)) = lines.next() else {
            return Err(Fault::at_line(code::INSTRUCTION_LINE, end));
        };
        let Entry::Instruction(given) = line.entry else {
            return Err(Fault::at_line(code::INSTRUCTION_LINE, line.line));
        };
        self.check_instruction_line(known, line.line, instr, given)?;
        Ok(rest)
    }
}

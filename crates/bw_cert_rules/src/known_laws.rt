//! Laws: what the lines state is known, and that it is true in every run.
ghost use Rattle.std.specs.Prelude.{◌≡◌, ℕ, List, [], Ok, IsTrue, length, map};
ghost use Rattle.bw_model.specs.Variable.{Assignment};
ghost use Rattle.bw_diagram.specs.Facts.{Facts, AreTrue};
ghost use Rattle.bw_program.specs.Machine.{State, Reaches, end_state};
ghost use Rattle.bw_program.specs.Program.{ProgramShape, is_program};
ghost use Rattle.bw_program.specs.declared.instr.Instr.{Instr};
ghost use Rattle.bw_cert_text.specs.CertificateFields.{body_fields};
ghost use Rattle.bw_cert_text.specs.declared.lines.BodyLine.{BodyLine};
ghost use Rattle.bw_cert_rules.specs.Accepted.{Part, AreValidParts, Accepts, known_before};
ghost use Rattle.bw_cert_rules.specs.Accepted.{lines_of};
ghost use Rattle.bw_cert_rules.specs.Sound.{Hold};
ghost use Rattle.bw_cert_rules.specs.Walk.{WalkState, check_lines, line_fields};

use bw_diagram::cited_nodes_have_stated_values;

/// A law, skip soundness: let parts satisfy the rules for a program's instructions, with true
/// facts. In every run, over any lanes, whichever skips it takes, and at each place that it
/// reaches: if a register's node is known there, the register has the node's value in the lane of
/// each assignment. So it is at the end, which every run reaches.
pub fn skip_soundness()
    ensures reached { (facts : Facts) (program : ProgramShape) (parts : List Part)
        → AreTrue facts → IsTrue (is_program program)
        → AreValidParts facts program.instrs parts
        → (lanes : List Assignment) (place : ℕ) (state : State)
        → Reaches facts.columns lanes program place state
        → Hold facts lanes (known_before facts program.instrs parts place) state.registers }
    ensures end { (facts : Facts) (program : ProgramShape) (parts : List Part) → AreTrue facts
        → IsTrue (is_program program)
        → AreValidParts facts program.instrs parts → (lanes : List Assignment)
        → Hold facts lanes (known_before facts program.instrs parts (length program.instrs))
        (end_state facts.columns lanes program).registers }
{
    cited_nodes_have_stated_values();
}

/// A law: lines that are accepted are those of parts that satisfy their rules.
pub fn accepted_lines_are_valid()
    ensures { (facts : Facts) (instrs : List Instr) (end : ℕ) (lines : List BodyLine)
        (taken : WalkState)
        → check_lines facts instrs end lines ≡ Ok taken → Accepts facts instrs lines taken }
{}

/// A law: the lines of parts that satisfy their rules are accepted, with what is known at the end.
pub fn valid_lines_are_accepted()
    ensures { (facts : Facts) (instrs : List Instr) (parts : List Part) (end : ℕ)
        → AreValidParts facts instrs parts
        → check_lines facts instrs end (lines_of 0 parts)
        ≡ Ok (record { known = known_before facts instrs parts (length instrs); rest = [] }) }
{}

/// A law: lines of the same content are checked alike. The result is the same knowledge at the end,
/// followed by lines of the same content, or the same error.
pub fn lines_are_checked_by_their_fields()
    ensures { (facts : Facts) (instrs : List Instr) (end : ℕ) (lines others : List BodyLine)
        → map body_fields lines ≡ map body_fields others
        → line_fields (check_lines facts instrs end lines)
        ≡ line_fields (check_lines facts instrs end others) }
{}

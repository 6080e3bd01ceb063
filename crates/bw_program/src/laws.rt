//! Laws of the runs of the segment machine, and of program texts.
ghost use Rattle.std.specs.Prelude.{◌≡◌, ◌+◌, ◌<◌, ◌⊎◌, ℕ, List, Ok};
ghost use Rattle.bw_model.specs.declared.column.Column.{Column};
ghost use Rattle.bw_model.specs.Variable.{Assignment};
ghost use Rattle.bw_program.specs.Machine.{State, Reaches, FallsThrough, SkipsTo, start};
ghost use Rattle.bw_program.specs.Machine.{state_after, steps_from};
ghost use Rattle.bw_program.specs.Program.{ProgramShape};
ghost use Rattle.bw_program.specs.ProgramText.{IsProgramText, program_of};

/// A law: after no step a run is at its start, and a run of more steps continues from the state
/// after fewer.
pub fn runs_go_on()
    ensures begins { (columns : List Column) (lanes : List Assignment) (program : ProgramShape)
        → state_after columns lanes program 0 ≡ start lanes }
    ensures on { (columns : List Column) (lanes : List Assignment) (program : ProgramShape)
        (steps more : ℕ) → state_after columns lanes program (steps + more)
        ≡ steps_from columns lanes program (state_after columns lanes program steps) more }
{}

/// A law: every place but the first is reached by falling through from the place before it, or by a
/// skip to it that is taken.
pub fn places_are_reached()
    ensures { (columns : List Column) (lanes : List Assignment) (program : ProgramShape) (place : ℕ)
        (state : State) → Reaches columns lanes program place state → 0 < place
        → FallsThrough columns lanes program place state
        ⊎ SkipsTo columns lanes program place state }
{}

/// A law: a text is read as a program if and only if its lines spell it. So it spells at most one,
/// and then it has no error.
pub fn programs_are_read_as_spelled()
    ensures read { (columns : List Column) (text : List ℕ) (program : ProgramShape)
        → IsProgramText columns text program → program_of columns text ≡ Ok program }
    ensures spelled { (columns : List Column) (text : List ℕ) (program : ProgramShape)
        → program_of columns text ≡ Ok program → IsProgramText columns text program }
{}

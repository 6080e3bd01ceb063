//! Laws of the segment machine: where a run goes, and the bits of its registers at the places that
//! it reaches.
ghost use Rattle.std.specs.Prelude.{◌≡◌, ◌<◌, ◌≤◌, false, ℕ, IsTrue, List, Some, length, replicate};
ghost use Rattle.std.specs.Prelude.{slice_get};
ghost use Rattle.bw_model.specs.declared.column.Column.{Column};
ghost use Rattle.bw_model.specs.Variable.{Assignment};
ghost use Rattle.bw_program.specs.Machine.{FallsThrough, Reaches, SkipsTo, State, end_state, start};
ghost use Rattle.bw_program.specs.Machine.{step};
ghost use Rattle.bw_program.specs.Program.{ProgramShape, is_program};
ghost use Rattle.bw_program.specs.declared.instr.Instr.{Instr};
ghost use Rattle.bw_run.specs.Registers.{bits_written, written_by};

/// A law: each instruction of a program raises the place, at most to the end after the last
/// instruction. Every run ends there, over any lanes and whichever skips it takes.
pub fn runs_come_to_the_end()
    ensures raises { (columns : List Column) (lanes : List Assignment) (program : ProgramShape)
        (state : State) (instr : Instr)
        → IsTrue (is_program program) → slice_get program.instrs state.place ≡ Some instr
        → (state.place < (step columns lanes instr state).place)
        × ((step columns lanes instr state).place ≤ length program.instrs) }
    ensures ends { (columns : List Column) (lanes : List Assignment) (program : ProgramShape)
        → IsTrue (is_program program)
        → (end_state columns lanes program).place ≡ length program.instrs }
{}

/// A law: a run begins at place 0, where every register is 0 in every lane.
pub fn runs_begin_with_zeros()
    ensures begins { (columns : List Column) (lanes : List Assignment) (program : ProgramShape)
        → Reaches columns lanes program 0 (start lanes) }
    ensures zeros { (columns : List Column) (lanes : List Assignment) (program : ProgramShape)
        (state : State) (register : ℕ)
        → IsTrue (is_program program) → Reaches columns lanes program 0 state
        → state.registers register ≡ replicate (length lanes) false }
{}

/// A law: if a run reaches a place by falling through, the register that the instruction before it
/// writes has the bits that the instruction makes of the registers, and each other register has
/// what it had.
pub fn instructions_write_their_registers()
    ensures reached { (columns : List Column) (lanes : List Assignment) (program : ProgramShape)
        (place : ℕ) (state : State)
        → FallsThrough columns lanes program place state
        → Reaches columns lanes program place state }
    ensures written { (columns : List Column) (lanes : List Assignment) (program : ProgramShape)
        (place : ℕ) (state : State) (through : FallsThrough columns lanes program place state)
        (register : ℕ) → written_by through.instr ≡ Some register
        → state.registers register
        ≡ bits_written columns lanes through.instr through.before.registers }
    ensures others { (columns : List Column) (lanes : List Assignment) (program : ProgramShape)
        (place : ℕ) (state : State) (through : FallsThrough columns lanes program place state)
        (register : ℕ) → ¬ (written_by through.instr ≡ Some register)
        → state.registers register ≡ through.before.registers register }
{}

/// A law: if a run reaches a place by a skip, each register has what it had at the skip, and the
/// one that the skip tests is 0 in every lane.
pub fn skips_leave_registers()
    ensures reached { (columns : List Column) (lanes : List Assignment) (program : ProgramShape)
        (place : ℕ) (state : State)
        → SkipsTo columns lanes program place state → Reaches columns lanes program place state }
    ensures same { (columns : List Column) (lanes : List Assignment) (program : ProgramShape)
        (place : ℕ) (state : State) (skipped : SkipsTo columns lanes program place state)
        (register : ℕ) → state.registers register ≡ skipped.before.registers register }
    ensures zero { (columns : List Column) (lanes : List Assignment) (program : ProgramShape)
        (place : ℕ) (state : State) (skipped : SkipsTo columns lanes program place state)
        → state.registers skipped.register ≡ replicate (length lanes) false }
{}

/// A law: at each place that a run reaches, every register has a bit for each of the run's lanes.
pub fn registers_hold_all_lanes()
    ensures { (columns : List Column) (lanes : List Assignment) (program : ProgramShape)
        (place : ℕ) (state : State) (register : ℕ)
        → Reaches columns lanes program place state → length (state.registers register)
        ≡ length lanes }
{}

//! Program texts in their canonical form.
ghost use Rattle.std.specs.Prelude.{◌≡◌, ◌++◌, ◌∷◌, [], List, IfOk, OnOk, IsOkUnless, IsTrue};
ghost use Rattle.std.specs.Fmt.{decimal};
ghost use Rattle.std.specs.List.{list_all};
ghost use Rattle.bw_model.specs.declared.column.Column.{Column};
ghost use Rattle.bw_model.specs.Column.{names_of};
ghost use Rattle.bw_model.specs.Fault.{no_memory};
ghost use Rattle.bw_model.specs.Name.{is_name, are_apart};
ghost use Rattle.bw_text.specs.Opcode.{opcode_spelling};
ghost use Rattle.bw_text.specs.Printing.{line_text, printed_text};
ghost use Rattle.bw_text.specs.Register.{register_text};
ghost use Rattle.bw_program.specs.PrintText.{column_text, instr_words, lines_text, print_text};
ghost use Rattle.bw_program.specs.PrintText.{result_words};
ghost use Rattle.bw_program.specs.Program.{ProgramShape, is_program, fits};
ghost use Rattle.bw_program.specs.ProgramText.{IsProgramText};

use crate::instr::{ColumnIndex, Instr, Register, SliceIndex};
use crate::program::Program;
use bw_model::{Fault, Schema};
use bw_text::{Opcode, PrintedWord, push_line};
use std::alloc::{AllocError, Global};

impl Program {
    /// Returns the program's canonical text under a schema, which must have all that it names:
    /// capital keywords, single blanks, names in the schema's spelling, numbers without leading
    /// zeros, and one line feed after each line, of which the last is that of the result. The text
    /// spells the program. Errors: 801 if memory is refused.
    pub fn print(&self, alloc: Global, schema: &Schema) -> Result<Vec<u8>, Fault>
        requires { IsTrue (fits schema.now.columns.items self.now) }
        ensures text { IfOk result
            (λ text. text.items ≡ print_text schema.now.columns.items self.now) }
        ensures spelled { IfOk result
            (λ text. IsProgramText schema.now.columns.items text.items self.now) }
        ensures only_oom { IsOkUnless result no_memory }
    {
        schema.has_names_and_bounds();
        Ok(program_text(alloc, schema, &self.instrs, self.result)?)
    }
}

/// Returns the lines of instructions and of a result register under a schema. A column that the
/// schema lacks has no name there.
fn program_text(
    alloc: Global,
    schema: &Schema,
    instrs: &[Instr],
    answer: Register,
) -> Result<Vec<u8>, AllocError>
    ensures { IfOk result
        (λ text. text.items ≡ lines_text schema.now.columns.items instrs.now answer) }
{
    let mut text = Vec::new(alloc);
    for instr in instrs {
        put_instr(alloc, schema, *instr, &mut text)?;
    }
    put_result(alloc, answer, &mut text)?;
    Ok(text)
}

/// A law: the canonical text of a program spells it, if columns have different names and all that
/// the program names. So a printed program is read back as it was.
pub fn canonical_texts_spell_programs()
    ensures { (columns : List Column) (program : ProgramShape)
        → IsTrue (are_apart (names_of columns)) → IsTrue (list_all is_name (names_of columns))
        → IsTrue (is_program program) → IsTrue (fits columns program)
        → IsProgramText columns (print_text columns program) program }
{}

/// Appends an instruction's line.
fn put_instr(
    alloc: Global,
    schema: &Schema,
    instr: Instr,
    text: &mut Vec<u8>,
) -> Result<(), AllocError>
    ensures { OnOk result (text.new.items
        ≡ text.old.items ++ line_text (instr_words schema.now.columns.items instr)) }
{
    use PrintedWord::{Number, Register, Word};
    match instr {
        Instr::Load(r, col, bit) => {
            let (col, bit) = (Word(name_of(schema, col)), Number(bit as u64));
            let words = [word(Opcode::Load), Register(r), col, bit];
            push_line(alloc, &words, text)
        }
        Instr::Nulls(r, col) => {
            let col = Word(name_of(schema, col));
            push_line(alloc, &[word(Opcode::Nulls), Register(r), col], text)
        }
        Instr::Fill(r, bit) => {
            let bit = Number(bit as u64);
            push_line(alloc, &[word(Opcode::Fill), Register(r), bit], text)
        }
        Instr::And(r, x, y) => put_three(alloc, Opcode::And, (r, x, y), text),
        Instr::Or(r, x, y) => put_three(alloc, Opcode::Or, (r, x, y), text),
        Instr::Xor(r, x, y) => put_three(alloc, Opcode::Xor, (r, x, y), text),
        Instr::Not(r, x) => {
            let words = [word(Opcode::Not), Register(r), Register(x)];
            push_line(alloc, &words, text)
        }
        Instr::ByteLt(r, col, slice, k) => {
            put_byte(alloc, schema, Opcode::ByteLt, (r, col, slice, k), text)
        }
        Instr::ByteEq(r, col, slice, k) => {
            put_byte(alloc, schema, Opcode::ByteEq, (r, col, slice, k), text)
        }
        Instr::Skip(x, target) => {
            let target = Number(target as u64);
            push_line(alloc, &[word(Opcode::Skip), Register(x), target], text)
        }
    }
}

/// Appends the line of an instruction with three registers.
fn put_three(
    alloc: Global,
    opcode: Opcode,
    registers: (Register, Register, Register),
    text: &mut Vec<u8>,
) -> Result<(), AllocError>
    ensures { OnOk result (text.new.items ≡ text.old.items ++ line_text (opcode_spelling opcode
        ∷ register_text registers.0 ∷ register_text registers.1 ∷ register_text registers.2 ∷ [])) }
{
    use PrintedWord::Register;
    let (r, x, y) = registers;
    let words = [word(opcode), Register(r), Register(x), Register(y)];
    push_line(alloc, &words, text)
}

/// Appends the line of an instruction with a register, a column, a slice of its codes and a byte.
fn put_byte(
    alloc: Global,
    schema: &Schema,
    opcode: Opcode,
    operands: (Register, ColumnIndex, SliceIndex, u8),
    text: &mut Vec<u8>,
) -> Result<(), AllocError>
    ensures { OnOk result (text.new.items ≡ text.old.items ++ line_text (opcode_spelling opcode
        ∷ register_text operands.0 ∷ column_text schema.now.columns.items operands.1
        ∷ decimal operands.2 ∷ decimal operands.3 ∷ [])) }
{
    use PrintedWord::{Number, Register, Word};
    let (r, col, slice, k) = operands;
    let col = Word(name_of(schema, col));
    let (slice, k) = (Number(slice as u64), Number(k as u64));
    let words = [word(opcode), Register(r), col, slice, k];
    push_line(alloc, &words, text)
}

/// Appends the line of the result register.
fn put_result(alloc: Global, register: Register, text: &mut Vec<u8>) -> Result<(), AllocError>
    ensures { OnOk result (text.new.items ≡ text.old.items ++ line_text (result_words register)) }
{
    let words = [word(Opcode::Result), PrintedWord::Register(register)];
    push_line(alloc, &words, text)
}

/// Returns an opcode as the first word of a line.
fn word(opcode: Opcode) -> PrintedWord<'static>
    ensures { printed_text result ≡ opcode_spelling opcode }
{
    PrintedWord::Word(opcode.spelling())
}

/// Returns the name of the column of a number, or nothing if there is none.
fn name_of(schema: &Schema, column: ColumnIndex) -> &[u8]
    ensures { result.now ≡ column_text schema.now.columns.items column }
{
    match schema.columns.get(column as usize) {
        Some(column) => column.name.as_bytes(),
        None => &[],
    }
}

//! The instruction that a line of a program text spells.
ghost use Rattle.std.specs.Prelude.{◌≡◌, ◌<◌, List, Some, ℕ, map, drop, length, IfSome, IfOk};
ghost use Rattle.std.specs.Prelude.{IfErr};
ghost use Rattle.bw_text.specs.Lines.{line_of};
ghost use Rattle.bw_program.specs.ProgramText.{natural_on, register_on, column_on, load_on};
ghost use Rattle.bw_program.specs.ProgramText.{nulls_on, fill_on, three_on, not_on, byte_on};
ghost use Rattle.bw_program.specs.ProgramText.{skip_on, instr_after, instr_on, is_result_line};
ghost use Rattle.bw_program.specs.ProgramText.{result_after, IsProgramFault};

use crate::instr::{ColumnIndex, Instr, Register, SliceIndex};
use bw_model::{Fault, Schema, code};
use bw_text::{Line, Opcode, natural_number, register_of};

/// Returns the instruction of this number that a line spells, or the line's first error: its form
/// (501), a register (502), a column, bit or slice (503), a column without nulls (507), a skip that
/// doesn't go forward (504).
#[tactic(auto, unfolding(crate::specs::ProgramText::instr_on))]
pub(crate) fn instr_of(schema: &Schema, number: usize, line: &Line) -> Result<Instr, Fault>
    ensures parsed { result ≡ instr_on schema.now.columns.items number (line_of line.now) }
    ensures fault { IfErr result IsProgramFault }
{
    let words = line.words.as_slice();
    let Some((word, rest)) = words.split_first() else {
        return Err(Fault::at_line(code::PROGRAM_FORM, line.number));
    };
    let line = line.number;
    let Some(opcode) = Opcode::of(word) else {
        return Err(Fault::at_line(code::PROGRAM_FORM, line));
    };
    instr_after(schema, number, line, opcode, rest)
}

/// Returns the instruction of this number that the words after an opcode spell.
fn instr_after(
    schema: &Schema,
    number: usize,
    line: u64,
    opcode: Opcode,
    words: &[&[u8]],
) -> Result<Instr, Fault>
    ensures parsed { result ≡ instr_after schema.now.columns.items number line (Some opcode)
        (map (λ word. word.now) words.now) }
    ensures fault { IfErr result IsProgramFault }
{
    match opcode {
        Opcode::Load => load_of(schema, line, words),
        Opcode::Nulls => nulls_of(schema, line, words),
        Opcode::Fill => fill_of(line, words),
        Opcode::And => {
            let (r, x, y) = three_of(line, words)?;
            Ok(Instr::And(r, x, y))
        }
        Opcode::Or => {
            let (r, x, y) = three_of(line, words)?;
            Ok(Instr::Or(r, x, y))
        }
        Opcode::Xor => {
            let (r, x, y) = three_of(line, words)?;
            Ok(Instr::Xor(r, x, y))
        }
        Opcode::Not => not_of(line, words),
        Opcode::ByteLt => {
            let (r, col, slice, k) = byte_of(schema, line, words)?;
            Ok(Instr::ByteLt(r, col, slice, k))
        }
        Opcode::ByteEq => {
            let (r, col, slice, k) = byte_of(schema, line, words)?;
            Ok(Instr::ByteEq(r, col, slice, k))
        }
        Opcode::Skip => skip_of(number, line, words),
        Opcode::Result => Err(Fault::at_line(code::PROGRAM_FORM, line)),
    }
}

fn load_of(schema: &Schema, line: u64, words: &[&[u8]]) -> Result<Instr, Fault>
    ensures parsed { result ≡ load_on schema.now.columns.items line
        (map (λ word. word.now) words.now) }
    ensures fault { IfErr result IsProgramFault }
{
    let [r, c, b] = words else {
        return Err(Fault::at_line(code::PROGRAM_FORM, line));
    };
    let bit = natural_on(line, b)?;
    let to = register_on(line, r)?;
    let column = column_on(schema, line, c)?;
    if bit >= u64::from(schema.width(column)) {
        return Err(Fault::at_line(code::COLUMN_OR_BIT, line));
    }
    Ok(Instr::Load(to, column as u8, bit as u8))
}

/// Returns an unsigned number, or 501.
fn natural_on(line: u64, word: &[u8]) -> Result<u64, Fault>
    ensures parsed { result ≡ natural_on line word.now }
    ensures fault { IfErr result IsProgramFault }
{
    natural_number(word).ok_or(Fault::at_line(code::PROGRAM_FORM, line))
}

/// Returns a register, or 502.
fn register_on(line: u64, word: &[u8]) -> Result<Register, Fault>
    ensures register { result ≡ register_on line word.now }
    ensures below { IfOk result (λ register. register < 64) }
    ensures fault { IfErr result IsProgramFault }
{
    register_of(word).ok_or(Fault::at_line(code::REGISTER, line))
}

/// Returns a column's number, or 503.
fn column_on(schema: &Schema, line: u64, word: &[u8]) -> Result<usize, Fault>
    ensures column { result ≡ column_on schema.now.columns.items line word.now }
    ensures in_range { IfOk result (λ column. column < length schema.now.columns.items) }
    ensures fault { IfErr result IsProgramFault }
{
    schema
        .column_named(word)
        .ok_or(Fault::at_line(code::COLUMN_OR_BIT, line))
}

fn nulls_of(schema: &Schema, line: u64, words: &[&[u8]]) -> Result<Instr, Fault>
    ensures parsed { result ≡ nulls_on schema.now.columns.items line
        (map (λ word. word.now) words.now) }
    ensures fault { IfErr result IsProgramFault }
{
    let [r, c] = words else {
        return Err(Fault::at_line(code::PROGRAM_FORM, line));
    };
    let to = register_on(line, r)?;
    let column = column_on(schema, line, c)?;
    if !schema.columns[column].nullable {
        return Err(Fault::at_line(code::NO_NULLS, line));
    }
    Ok(Instr::Nulls(to, column as u8))
}

fn fill_of(line: u64, words: &[&[u8]]) -> Result<Instr, Fault>
    ensures parsed { result ≡ fill_on line (map (λ word. word.now) words.now) }
    ensures fault { IfErr result IsProgramFault }
{
    let [r, b] = words else {
        return Err(Fault::at_line(code::PROGRAM_FORM, line));
    };
    let bit = natural_on(line, b)?;
    if bit > 1 {
        return Err(Fault::at_line(code::PROGRAM_FORM, line));
    }
    let to = register_on(line, r)?;
    Ok(Instr::Fill(to, bit == 1))
}

/// Returns three registers.
fn three_of(line: u64, words: &[&[u8]]) -> Result<(Register, Register, Register), Fault>
    ensures parsed { result ≡ three_on line (map (λ word. word.now) words.now) }
    ensures fault { IfErr result IsProgramFault }
{
    let [r, x, y] = words else {
        return Err(Fault::at_line(code::PROGRAM_FORM, line));
    };
    let to = register_on(line, r)?;
    let left = register_on(line, x)?;
    let right = register_on(line, y)?;
    Ok((to, left, right))
}

fn not_of(line: u64, words: &[&[u8]]) -> Result<Instr, Fault>
    ensures parsed { result ≡ not_on line (map (λ word. word.now) words.now) }
    ensures fault { IfErr result IsProgramFault }
{
    let [r, x] = words else {
        return Err(Fault::at_line(code::PROGRAM_FORM, line));
    };
    let to = register_on(line, r)?;
    let from = register_on(line, x)?;
    Ok(Instr::Not(to, from))
}

/// Returns a register, a column, a slice of its codes, and a byte.
fn byte_of(
    schema: &Schema,
    line: u64,
    words: &[&[u8]],
) -> Result<(Register, ColumnIndex, SliceIndex, u8), Fault>
    ensures parsed { result ≡ byte_on schema.now.columns.items line
        (map (λ word. word.now) words.now) }
    ensures fault { IfErr result IsProgramFault }
{
    let [r, c, s, b] = words else {
        return Err(Fault::at_line(code::PROGRAM_FORM, line));
    };
    let slice = natural_on(line, s)?;
    let byte = natural_on(line, b)?;
    if byte > 255 {
        return Err(Fault::at_line(code::PROGRAM_FORM, line));
    }
    let to = register_on(line, r)?;
    let column = column_on(schema, line, c)?;
    if slice >= schema.slices(column) as u64 {
        return Err(Fault::at_line(code::COLUMN_OR_BIT, line));
    }
    Ok((to, column as u8, slice as u8, byte as u8))
}

fn skip_of(number: usize, line: u64, words: &[&[u8]]) -> Result<Instr, Fault>
    ensures parsed { result ≡ skip_on number line (map (λ word. word.now) words.now) }
    ensures fault { IfErr result IsProgramFault }
{
    let [x, l] = words else {
        return Err(Fault::at_line(code::PROGRAM_FORM, line));
    };
    let target = natural_on(line, l)?;
    let register = register_on(line, x)?;
    if target <= number as u64 {
        return Err(Fault::at_line(code::SKIP_TARGET, line));
    }
    Ok(Instr::Skip(register, target as usize))
}

/// Returns whether a line is that of the result.
pub(crate) fn is_result_line(line: &Line) -> bool
    ensures { result ≡ is_result_line (line_of line.now) }
{
    match line.words.first() {
        None => false,
        Some(word) => matches!(Opcode::of(word), Some(Opcode::Result)),
    }
}

/// Returns the register that the line of the result names.
pub(crate) fn result_of(line: &Line) -> Result<Register, Fault>
    ensures register { result ≡ result_after line.now.number (drop 1 (line_of line.now).words) }
    ensures below { IfOk result (λ register. register < 64) }
    ensures fault { IfErr result IsProgramFault }
{
    let [_, word] = line.words.as_slice() else {
        return Err(Fault::at_line(code::PROGRAM_FORM, line.number));
    };
    register_on(line.number, word)
}

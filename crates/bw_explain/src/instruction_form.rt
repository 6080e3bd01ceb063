//! What an instruction of a program text is: its words, registers, bits, bytes and skips.
use crate::program_file::first_word;
use crate::statement::put_columns;
use crate::text::{Text, name_text, put};
use bw_model::{Schema, code};
use bw_text::Opcode;

/// Appends what a line of a program may be that has an error of this number.
pub(crate) fn put_form(text: &mut Text, schema: &Schema, line: &[u8], code: u16) {
    match code {
        code::PROGRAM_FORM => put_words(text, line),
        code::REGISTER => text.put("registers are r0 to r63\n"),
        code::COLUMN_OR_BIT => put_column(text, schema, line),
        code::SKIP_TARGET => text.put(
            "SKIP names the number of a later instruction, from 0, or how many there are, the end\n",
        ),
        _ => {}
    }
}

/// Appends the words of an instruction that has this line's first word.
fn put_words(text: &mut Text, line: &[u8]) {
    let word = first_word(line);
    text.put(match Opcode::of(word) {
        Some(Opcode::Load) => "expected LOAD, a register, a column and a bit\n",
        Some(Opcode::Nulls) => "expected NULLS, a register and a column\n",
        Some(Opcode::Fill) => "expected FILL, a register, and 0 or 1\n",
        Some(Opcode::And | Opcode::Or | Opcode::Xor) =>
            "expected AND, OR or XOR, and three registers, the first for the result\n",
        Some(Opcode::Not) => "expected NOT and two registers, the first for the result\n",
        Some(Opcode::ByteLt | Opcode::ByteEq) =>
            "expected BYTELT or BYTEEQ, a register, a column, one of its bytes, from 0, the least, and 0 to 255\n",
        Some(Opcode::Skip) => "expected SKIP, a register, and the number of an instruction\n",
        Some(Opcode::Result) => "expected RESULT and a register, once, at the end\n",
        None if word.starts_with(b";") || word.starts_with(b"//") => "comments begin with #\n",
        None =>
            "an instruction is LOAD, NULLS, FILL, AND, OR, XOR, NOT, BYTELT, BYTEEQ or SKIP; RESULT ends them\n",
    });
}

/// Appends which columns there are, or which bits, bytes and codes the column of a line has.
fn put_column(text: &mut Text, schema: &Schema, line: &[u8]) {
    let word = word_at(line, 2);
    let Some(number) = schema.column_named(word) else {
        return put_columns(text, &schema.columns, word);
    };
    let Some(column) = schema.columns.get(number) else {
        return;
    };
    let name = name_text(column.name.as_bytes());
    let last = match Opcode::of(first_word(line)) {
        Some(Opcode::Load) => {
            put!(text; "the bits of ", name);
            (schema.width(number) as usize).saturating_sub(1)
        }
        _ => {
            put!(text; "the bytes of ", name);
            schema.slices(number).saturating_sub(1)
        }
    };
    put!(text; " are 0, the least, to ", last, "; its codes are 0 to ", column.hi.abs_diff(column.lo));
    put!(text; ", values less ", column.lo, "\n");
}

/// Returns the word of a line after so many others; the empty one, if it has none.
fn word_at(line: &[u8], before: usize) -> &[u8] {
    let mut rest = line;
    for _ in 0..before {
        rest = rest.trim_ascii_start();
        rest = rest.get(first_word(rest).len()..).unwrap_or(b"");
    }
    first_word(rest)
}

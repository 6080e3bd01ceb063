//! Explains a line of a program file.
use crate::instruction_form::put_form;
use crate::text::{Shown, Text, put};
use bw_cert::split_file;
use bw_model::{Fault, Place, Schema, code};
use bw_text::{LineKind, Lines, Opcode};

/// Appends the line of a program file's error, and what it may be, if it is one of the program. If
/// it is an instruction's line of the certificate, also appends the instruction.
pub(crate) fn put_program(text: &mut Text, schema: Option<&Schema>, file: &[u8], fault: &Fault) {
    let Place::Line(number) = fault.place else {
        return;
    };
    match line_at(file, number) {
        Some(line) => put!(text; "line ", number, ": ", Shown(line), "\n"),
        None => put!(text; "line ", number, " is past the last one\n"),
    }
    if matches!(fault.code, code::INSTRUCTION_LINE | code::REGISTER_UNKNOWN) {
        put_instruction(text, file, number);
    }
    if let (Some(schema), Some(line)) = (schema, line_at(file, number)) {
        put_form(text, schema, line, fault.code);
    }
}

/// Returns the line of a text with this number, from 1.
fn line_at(text: &[u8], number: u64) -> Option<&[u8]> {
    let mut lines = Lines::new(text);
    for _ in 1..number {
        lines.cut_line()?;
    }
    lines.cut_line()
}

/// Appends the instruction of which the line with this number should be.
fn put_instruction(text: &mut Text, file: &[u8], number: u64) {
    let parts = split_file(file);
    let mut lines = Lines::from_line(parts.first_line, parts.certificate);
    let mut instruction = 0u64;
    for _ in parts.first_line..number {
        let word = first_word(lines.cut_line().unwrap_or(b""));
        if matches!(LineKind::of(word), Some(LineKind::Instruction(_))) {
            instruction = instruction.saturating_add(1);
        }
    }
    if let Some(line) = instruction_line(parts.program, instruction) {
        put!(text; "expected for instruction ", instruction, ": ", Shown(line), "\n");
    }
}

/// Returns the line of a program text after so many instructions, if it is one.
fn instruction_line(program: &[u8], before: u64) -> Option<&[u8]> {
    let mut lines = Lines::new(program);
    let mut instruction = 0u64;
    for _ in 0..program.len() {
        let line = lines.cut_line()?;
        if !matches!(Opcode::of(first_word(line)), None | Some(Opcode::Result)) {
            if instruction == before {
                return Some(line);
            }
            instruction = instruction.saturating_add(1);
        }
    }
    None
}

/// Returns the number of the line of an instruction, from 0, or of the result after the last one.
pub(crate) fn line_of(program: &[u8], instruction: usize) -> u64 {
    let mut lines = Lines::new(program);
    let (mut number, mut before) = (1u64, 0usize);
    for _ in 0..program.len() {
        let Some(line) = lines.cut_line() else {
            break;
        };
        if Opcode::of(first_word(line)).is_some() {
            if before == instruction {
                break;
            }
            before = before.saturating_add(1);
        }
        number = number.saturating_add(1);
    }
    number
}

/// Returns the first word of a line; the empty one, if it has none.
pub(crate) fn first_word(line: &[u8]) -> &[u8] {
    let line = line.trim_ascii_start();
    let end = line.iter().position(|byte| byte.is_ascii_whitespace());
    line.get(..end.unwrap_or(line.len())).unwrap_or(line)
}

//! Programs with one instruction changed.
ghost use Rattle.std.specs.Prelude.{IfOk, IfSome, IsTrue, ◌<◌};
ghost use Rattle.bw_program.specs.Program.{fits};

use crate::case::Case;
use bw_model::Schema;
use bw_program::{Instr, Program};
use std::alloc::{AllocError, Global};
use std::process::Abort;
use std::test::Fail;

/// Returns another instruction in place of one.
fn change_operation(instr: Instr) -> Instr {
    match instr {
        Instr::Load(r, col, bit) => Instr::Load(r, col, bit ^ 1),
        Instr::Nulls(r, _) => Instr::Fill(r, false),
        Instr::Fill(r, bit) => Instr::Fill(r, !bit),
        Instr::And(r, x, y) => Instr::Or(r, x, y),
        Instr::Or(r, x, y) => Instr::Xor(r, x, y),
        Instr::Xor(r, x, y) => Instr::And(r, x, y),
        Instr::Not(r, x) => Instr::Or(r, x, x),
        Instr::ByteLt(r, col, slice, k) => Instr::ByteLt(r, col, slice, k ^ 1),
        Instr::ByteEq(r, col, slice, k) => Instr::ByteLt(r, col, slice, k),
        Instr::Skip(x, target) => Instr::Skip(x, target.saturating_add(1)),
    }
}

/// Returns another instruction in place of one, with another register if it has more than one.
fn change_register(instr: Instr) -> Instr {
    match instr {
        Instr::And(r, x, _) => Instr::And(r, x, x),
        Instr::Or(r, _, y) => Instr::Or(r, y, y),
        Instr::Xor(r, x, y) => Instr::Or(r, x, y),
        Instr::Not(r, _) => Instr::Not(r, r),
        Instr::Skip(x, target) => Instr::Skip(x, target.saturating_sub(1)),
        Instr::Load(r, col, bit) => Instr::Load(r ^ 1, col, bit),
        _ => change_operation(instr),
    }
}

/// Returns a copy of a program's instructions, of which the one of this number is changed.
fn with_change(
    alloc: Global,
    program: &Program,
    number: usize,
    misdirects: bool,
) -> Result<Vec<Instr>, AllocError> {
    let mut instrs = Vec::new(alloc);
    for place in 0..program.len() {
        let instr = program.instr(place);
        instrs.push(match misdirects {
            _ if place != number => instr,
            true => change_register(instr),
            false => change_operation(instr),
        })?;
    }
    Ok(instrs)
}

/// Returns a program with the instruction of this number changed, if it is a program then.
fn change(
    alloc: Global,
    schema: &Schema,
    program: &Program,
    number: usize,
    misdirects: bool,
) -> Result<Option<Program>, AllocError>
    ensures { IfOk result (λ made. IfSome made (λ program.
        IsTrue (fits schema.now.columns.items program))) }
{
    let instrs = with_change(alloc, program, number, misdirects)?;
    Program::new(alloc, schema, &instrs, program.result())
}

/// Checks a program with each of its instructions changed in turn.
pub(crate) fn assert_changes_checked(
    rt: &impl Abort,
    alloc: Global,
    case: Case<'_>,
    program: &Program,
) -> Result<(), Fail> {
    for number in 0..program.len() {
        for misdirects in [false, true] {
            if let Some(changed) = change(alloc, case.schema, program, number, misdirects)? {
                case.verdict(rt, alloc, changed)?;
            }
        }
    }
    Ok(())
}

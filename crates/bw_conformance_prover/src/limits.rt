//! Programs and conditions past a limit.
use crate::tables::NumberSource;
use bw_model::{Cond, Schema};
use bw_program::{Instr, Program};
use bw_prover::{Unproved, prove};
use std::alloc::{AllocError, Global};
use std::test::Fail;

/// Returns a table of 64 columns of 63 bits.
fn widest(alloc: Global) -> Result<Schema, Fail> {
    let mut text = String::from_str(alloc, "TABLE t\n")?;
    for column in 0..64 {
        let line = format!(in alloc; "COLUMN c{column} 0 9223372036854775806\n")?;
        text.push_str(line.as_str())?;
    }
    Ok(Schema::parse(alloc, text.as_bytes())?)
}

/// Returns 4,096 instructions, which load planes and combine any two registers.
fn longest(alloc: Global) -> Result<Vec<Instr>, AllocError> {
    let mut numbers = NumberSource::new(11);
    let mut instrs = Vec::new(alloc);
    for register in 0..64u8 {
        instrs.push(Instr::Load(register, register, register % 63))?;
    }
    for _ in 64..4096 {
        let to = numbers.below(64) as u8;
        let (x, y) = (numbers.below(64) as u8, numbers.below(64) as u8);
        instrs.push(match numbers.below(3) {
            0 => Instr::And(to, x, y),
            1 => Instr::Or(to, x, y),
            _ => Instr::Xor(to, x, y),
        })?;
    }
    Ok(instrs)
}

#[test]
fn the_longest_program_ends_at_a_limit(rt: HostRuntime) -> Result<(), Fail> {
    let alloc = rt.alloc();
    let schema = widest(alloc)?;
    let instrs = longest(alloc)?;
    let program = Program::new(alloc, &schema, &instrs, 0)?.ok_or("no program")?;
    for rows in [0, 1000, u32::MAX] {
        let made = prove(alloc, &schema, &Cond::Always, &program, rows);
        assert!(rt; matches!(made, Err(Unproved::Limit { .. })), "{rows} rows");
    }
    Ok(())
}

//! Refused memory: a call is repeated with a little more memory each time, until it has all that it
//! needs.
use crate::calls::{
    COUNT, COUNTED, Call, DUMP, INFO, LAYOUTS, Reads, SCHEMA, plan_file, table_file,
};
use crate::devices::ByteSink;
use bw_model::{Fault, code};
use std::alloc::Global;
use std::process::Abort;
use std::test::Fail;

/// The memory that is left in all, in bytes: several times what a call uses, since freed pieces
/// aren't all joined again.
pub const LEFT: usize = 512 * 1024;

/// The additional memory of each call, in bytes.
pub const STEP: usize = 16;

/// The maximal number of allocated blocks: the largest have 8 GiB, of an address space of 2^47
/// bytes.
const MAX_BLOCKS: usize = 32_768;

/// Allocates blocks of memory, the largest first, until nothing but a hole of this many bytes is
/// left.
pub fn take_all(alloc: Global, left: usize) -> Result<Vec<Vec<u8>>, Fail> {
    let mut blocks = Vec::with_capacity(alloc, MAX_BLOCKS)?;
    // The C library has blocks of the hole's size from the system, one by one, until the first is
    // given back; the next is of its own heap, and stays there for the calls.
    let given_back: Vec<u8> = Vec::with_capacity(alloc, left)?;
    drop(given_back);
    let hole: Vec<u8> = Vec::with_capacity(alloc, left)?;
    let mut size = 8 << 30;
    for _ in 0..MAX_BLOCKS {
        match Vec::with_capacity(alloc, size) {
            Ok(block) => blocks.push(block)?,
            Err(_) if size > 8 => size /= 2,
            Err(_) => break,
        }
    }
    drop(hole);
    Ok(blocks)
}

/// Checks that a call whose memory is refused returns that error and has written nothing, whichever
/// of its allocations it was. With enough memory it returns the result, by a program if that is
/// reported.
fn check_with_all_memory_taken(
    rt: &(impl Abort + AllocGlobal),
    call: Call<'_>,
    file: &[u8],
    answer: &[u8],
) -> Result<(), Fail> {
    // A call with all memory comes first: the stack can't grow once none is left.
    let mut sink = ByteSink::without_failures(Vec::with_capacity(rt.alloc(), 16_384)?);
    let first = call.make(rt.alloc(), Reads::WHOLE, file, &mut sink);
    assert_eq!(rt; first, Ok(call.served_by()));
    let mut output = sink.taken;
    output.clear();
    let blocks = take_all(rt.alloc(), LEFT)?;
    let mut refused = 0;
    let mut outcome = Err(Fault::new(code::OUT_OF_MEMORY));
    for step in 1..LEFT / STEP {
        let plug: Result<Vec<u8>, _> = Vec::with_capacity(rt.alloc(), LEFT - step * STEP);
        let mut sink = ByteSink::without_failures(output);
        outcome = call.make(rt.alloc(), Reads::WHOLE, file, &mut sink);
        output = sink.taken;
        drop(plug);
        if outcome.is_ok() {
            break;
        }
        refused = step;
        assert_eq!(rt;
            outcome,
            Err(Fault::new(code::OUT_OF_MEMORY)),
            "at step {step}"
        );
        assert!(rt; output.is_empty(), "at step {step}");
    }
    drop(blocks);
    assert_eq!(rt; outcome, Ok(call.served_by()));
    assert!(rt; refused > 8, "{refused} calls were refused");
    assert!(rt; output.as_slice() == answer, "{answer:?}");
    Ok(())
}

/// Statements and their results.
const STATEMENTS: [(&str, &str); 3] = [
    (COUNT, COUNTED),
    (
        "SELECT COUNT(*), COUNT(b), SUM(b), MIN(b) FROM t WHERE a = 7",
        "COUNT(*),COUNT(b),SUM(b),MIN(b)\n2,0,NULL,NULL\n",
    ),
    (
        "SELECT b, a FROM t WHERE a IN (7, 8) AND (b IS NULL OR b >= 0)",
        "b,a\nNULL,7\nNULL,7\n0,8\n",
    ),
];

#[test]
fn each_growth_of_an_answer_is_refused_in_turn(rt: HostRuntime) -> Result<(), Fail> {
    for (sql, answer) in STATEMENTS {
        check_with_all_memory_taken(&rt, Call::Direct(sql), b"", answer.as_bytes())?;
    }
    Ok(())
}

#[test]
fn each_growth_around_a_table_file_is_refused_in_turn(rt: HostRuntime) -> Result<(), Fail> {
    let file = table_file(rt.alloc(), LAYOUTS[0])?;
    check_with_all_memory_taken(&rt, Call::Infer, b"", SCHEMA.as_bytes())?;
    check_with_all_memory_taken(&rt, Call::Info, &file, INFO.as_bytes())
}

#[test]
fn each_growth_over_a_table_file_is_refused_in_turn(rt: HostRuntime) -> Result<(), Fail> {
    for layout in LAYOUTS {
        let file = table_file(rt.alloc(), layout)?;
        check_with_all_memory_taken(&rt, Call::Load(layout), b"", &file)?;
        check_with_all_memory_taken(&rt, Call::Dump, &file, DUMP.as_bytes())?;
        for (sql, answer) in STATEMENTS {
            let plan = plan_file(rt.alloc(), sql)?;
            let given = Call::Answer(sql, Some(&plan));
            check_with_all_memory_taken(&rt, given, &file, answer.as_bytes())?;
        }
    }
    Ok(())
}

#[test]
fn each_growth_of_the_planner_is_refused_in_turn(rt: HostRuntime) -> Result<(), Fail> {
    let file = table_file(rt.alloc(), LAYOUTS[0])?;
    for (sql, answer) in STATEMENTS {
        let plan = plan_file(rt.alloc(), sql)?;
        check_with_all_memory_taken(&rt, Call::Answer(sql, None), &file, answer.as_bytes())?;
        check_with_all_memory_taken(&rt, Call::Plan(sql), b"", &plan)?;
        check_with_all_memory_taken(&rt, Call::Check(sql, &plan), b"", b"")?;
    }
    Ok(())
}

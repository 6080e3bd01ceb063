//! Programs and what they select.
use crate::segments::{SCHEMA, TABLE, segment_of};
use bw_lanes::{Plane, count};
use bw_model::{Schema, Value};
use bw_planes::Planes;
use bw_program::Program;
use bw_run::{Counts, run_segment};
use bw_slices::Slices;
use std::process::Abort;
use std::test::Fail;

/// Runs a program over rows in planes and in slices, with the same result.
fn run(
    rt: &(impl Abort + AllocGlobal),
    table: &[[Value; 2]],
    text: &str,
) -> Result<(Plane, Counts), Fail> {
    let schema = Schema::parse(rt.alloc(), SCHEMA)?;
    let program = Program::parse(rt.alloc(), &schema, text.as_bytes())?;
    let planes = segment_of::<Planes>(rt, &schema, table)?;
    let (plane, counts) = run_segment(&program, &planes);
    let slices = segment_of::<Slices>(rt, &schema, table)?;
    let (other, others) = run_segment(&program, &slices);
    assert!(rt; plane == other, "{text}");
    assert_eq!(rt; counts.loads, others.loads, "{text}");
    assert_eq!(rt; counts.skips, others.skips, "{text}");
    Ok((plane, counts))
}

/// A name, rows, a program, and what it gives: the first word of the plane, and how many rows,
/// loads and skips.
type Run<'a> = (&'a str, &'a [[Value; 2]], &'a str, (u64, u32, usize, usize));

/// Ends the test unless each program gives what it must.
fn assert_runs(rt: &(impl Abort + AllocGlobal), runs: &[Run]) -> Result<(), Fail> {
    for (name, rows, text, (word, ones, loads, skips)) in runs {
        let (plane, counts) = run(rt, rows, text)?;
        assert_eq!(rt; plane[0], *word, "{name}");
        assert_eq!(rt; count(&plane), *ones, "{name}");
        assert_eq!(rt; counts.loads, *loads, "{name}");
        assert_eq!(rt; counts.skips, *skips, "{name}");
    }
    Ok(())
}

const FIVE: [Value; 2] = [Some(5), None];

const TWO_HUNDRED: [Value; 2] = [Some(200), None];

/// Selects all rows, if one has the top bit of a.
const FIRST_BIT: &str = "LOAD r0 a 7\nSKIP r0 3\nFILL r0 1\nRESULT r0\n";

const PROGRAMS: [Run<'static>; 9] = [
    (
        "every lane but one",
        &[FIVE],
        "NOT r0 r0\nRESULT r0\n",
        (1, 1, 0, 0),
    ),
    (
        "a skip that is taken",
        &[FIVE],
        "SKIP r5 2\nLOAD r0 a 7\nRESULT r0\n",
        (0, 0, 0, 1),
    ),
    (
        "one row keeps the run going for all",
        &[FIVE, TWO_HUNDRED],
        FIRST_BIT,
        (3, 2, 1, 0),
    ),
    ("the top bit nowhere", &[FIVE], FIRST_BIT, (0, 0, 1, 1)),
    (
        "the top bit in the only row",
        &[TWO_HUNDRED],
        FIRST_BIT,
        (1, 1, 1, 0),
    ),
    (
        "a byte below eight",
        &[FIVE, TWO_HUNDRED],
        "BYTELT r0 a 0 8\nRESULT r0\n",
        (1, 1, 1, 0),
    ),
    (
        "a byte below eight in the common table",
        &TABLE,
        "BYTELT r0 a 0 8\nRESULT r0\n",
        (0b01101, 3, 1, 0),
    ),
    (
        "a byte that is 200",
        &[FIVE, TWO_HUNDRED],
        "BYTEEQ r0 a 0 200\nRESULT r0\n",
        (2, 1, 1, 0),
    ),
    (
        "nulls",
        &[FIVE, [Some(1), Some(0)]],
        "NULLS r0 b\nRESULT r0\n",
        (1, 1, 1, 0),
    ),
];

#[test]
fn programs_select_rows(rt: HostRuntime) -> Result<(), Fail> {
    assert_runs(&rt, &PROGRAMS)
}

/// Instructions that one step carries out, two at a time, and such that it may not.
const PAIRS: [Run<'static>; 8] = [
    (
        "a skip between a load and a NOT of it",
        &[FIVE],
        "LOAD r0 a 7\nSKIP r0 3\nLOAD r1 a 0\nNOT r0 r1\nRESULT r0\n",
        (1, 1, 1, 1),
    ),
    (
        "a NOT of what was loaded",
        &[FIVE, TWO_HUNDRED],
        "LOAD r0 a 0\nNOT r1 r0\nRESULT r1\n",
        (2, 1, 1, 0),
    ),
    (
        "a NOT of another register",
        &[FIVE, TWO_HUNDRED],
        "LOAD r0 a 0\nNOT r0 r1\nRESULT r0\n",
        (3, 2, 1, 0),
    ),
    (
        "a skip by another register than the one loaded",
        &[FIVE],
        "LOAD r0 a 0\nSKIP r1 3\nFILL r0 0\nRESULT r0\n",
        (1, 1, 1, 1),
    ),
    (
        "an AND with what was loaded",
        &[FIVE, TWO_HUNDRED],
        "LOAD r0 a 7\nLOAD r1 a 6\nAND r2 r0 r1\nRESULT r2\n",
        (2, 1, 2, 0),
    ),
    (
        "an AND of what was loaded with itself",
        &[FIVE, TWO_HUNDRED],
        "LOAD r0 a 0\nAND r0 r0 r0\nRESULT r0\n",
        (1, 1, 1, 0),
    ),
    (
        "a skip by an AND that is 0",
        &[FIVE],
        "LOAD r0 a 0\nAND r2 r0 r1\nSKIP r2 4\nFILL r2 1\nRESULT r2\n",
        (0, 0, 1, 1),
    ),
    (
        "a skip by an AND that isn't",
        &[FIVE],
        "LOAD r0 a 0\nAND r2 r0 r0\nSKIP r2 4\nFILL r2 0\nRESULT r2\n",
        (0, 0, 1, 0),
    ),
];

#[test]
fn pairs_do_what_their_instructions_do(rt: HostRuntime) -> Result<(), Fail> {
    assert_runs(&rt, &PAIRS)
}

/// `a >= 192`: the top two bits of a.
const FROM_192: &str = "LOAD r0 a 7\nSKIP r0 4\nLOAD r1 a 6\nAND r0 r0 r1\nRESULT r0\n";

#[test]
fn whole_segments_stop_early(rt: HostRuntime) -> Result<(), Fail> {
    let low = [[Some(5), Some(0)]; 512];
    let mut mixed = low;
    for (i, row) in mixed.iter_mut().enumerate() {
        if i % 2 == 1 {
            *row = [Some(200), Some(0)];
        }
    }
    assert_runs(
        &rt,
        &[
            ("no row", &low, FROM_192, (0, 0, 1, 1)),
            (
                "every other row",
                &mixed,
                FROM_192,
                (0xAAAA_AAAA_AAAA_AAAA, 256, 2, 0),
            ),
        ],
    )
}

#[test]
fn rows_past_the_last_are_left_out(rt: HostRuntime) -> Result<(), Fail> {
    let low = [[Some(5), Some(0)]; 512];
    for rows in [1, 63, 64, 65, 511, 512] {
        let (plane, _) = run(&rt, &low[..rows], "NOT r0 r1\nRESULT r0\n")?;
        assert_eq!(rt; count(&plane) as usize, rows);
    }
    Ok(())
}

#[test]
fn each_register_can_be_the_last(rt: HostRuntime) -> Result<(), Fail> {
    let alloc = rt.alloc();
    let rows = [FIVE, TWO_HUNDRED];
    for last in 1..64 {
        let text = format!(in alloc;
            "NOT r{last} r{last}\nLOAD r0 a 7\nAND r0 r0 r{last}\nRESULT r0\n"
        )?;
        let (plane, _) = run(&rt, &rows, &text)?;
        assert_eq!(rt; plane[0], 2, "of r{last}");
        let text = format!(in alloc; "LOAD r0 a 7\nRESULT r{last}\n")?;
        let (plane, _) = run(&rt, &rows, &text)?;
        assert_eq!(rt; count(&plane), 0, "of r{last}");
    }
    Ok(())
}

//! Programs without a certificate, each with its reason.
use crate::case::{Case, Verdict, query_of};
use crate::tables::{SMALL, small_rows, table};
use bw_model::{Row, Schema};
use bw_program::Program;
use std::alloc::Global;
use std::process::Abort;
use std::test::Fail;

/// Conditions, programs, and what becomes of them.
const REASONS: [(&str, &str, Verdict); 9] = [
    ("a < 8", "BYTELT r0 a 0 8\nRESULT r0\n", Verdict::Certified),
    ("a < 8", "BYTELT r0 a 0 9\nRESULT r0\n", Verdict::Differs),
    // Null is stored as 0, which isn't less than 0.
    (
        "b >= 1",
        "BYTELT r0 b 0 1\nNOT r0 r0\nRESULT r0\n",
        Verdict::OnlyUnadmitted,
    ),
    ("a <= 11", "FILL r0 1\nRESULT r0\n", Verdict::OnlyUnadmitted),
    ("a < 8", "NOT r0 r1\nRESULT r0\n", Verdict::Unwritten),
    ("a < 8", "RESULT r0\n", Verdict::Unwritten),
    // The null plane is missing where the skip is taken.
    (
        "b IS NOT NULL OR a < 8",
        "BYTELT r0 a 0 8\nSKIP r0 4\nNULLS r1 b\nNOT r0 r1\nRESULT r0\n",
        Verdict::WrongBySkip,
    ),
    // The skip is always taken, so what it skips is never reached.
    (
        "a < 8",
        "BYTELT r0 a 0 8\nFILL r1 0\nSKIP r1 4\nFILL r0 1\nRESULT r0\n",
        Verdict::Unknown,
    ),
    (
        "a < b OR b < a",
        "FILL r0 0\nRESULT r0\n",
        Verdict::Unordered,
    ),
];

/// Ends the test unless a program has this verdict.
fn assert_verdict(
    rt: &impl Abort,
    alloc: Global,
    schema: &Schema,
    rows: &[Row],
    (text, program, wanted): (&str, &str, Verdict),
) -> Result<(), Fail> {
    let query = query_of(alloc, schema, text)?;
    let case = Case {
        schema,
        cond: &query.cond,
        rows,
    };
    let program = Program::parse(alloc, schema, program.as_bytes())?;
    let verdict = case.verdict(rt, alloc, program)?;
    assert_eq!(rt; verdict, wanted, "{text}");
    Ok(())
}

#[test]
fn programs_without_a_certificate_have_their_reason(rt: HostRuntime) -> Result<(), Fail> {
    let alloc = rt.alloc();
    let schema = table(alloc, SMALL)?;
    let rows = small_rows(alloc)?;
    for reason in REASONS {
        assert_verdict(&rt, alloc, &schema, &rows, reason)?;
    }
    Ok(())
}

/// Two columns of one bit.
const BITS: &str = "\
    TABLE t\n\
    COLUMN x 0 1 NOT NULL\n\
    COLUMN y 0 1 NOT NULL\n\
    ";

/// Programs of `x < y OR y < x`. The second comparison of the one has the bit of `x` first, and that
/// of the other the bit of `y`, as the condition has it.
const BOTH_WAYS: [(&str, Verdict); 2] = [
    (
        "LOAD r0 x 0\nLOAD r1 y 0\nNOT r2 r0\nAND r2 r2 r1\nNOT r3 r1\nAND r3 r0 r3\n\
        OR r2 r2 r3\nRESULT r2\n",
        Verdict::Unordered,
    ),
    (
        "LOAD r0 x 0\nLOAD r1 y 0\nNOT r2 r0\nAND r2 r2 r1\nNOT r3 r1\nAND r3 r3 r0\n\
        OR r2 r2 r3\nRESULT r2\n",
        Verdict::Certified,
    ),
];

/// Returns all rows of the two columns.
fn rows_of_bits(alloc: Global) -> Result<Vec<Row>, Fail> {
    let mut rows = Vec::new(alloc);
    for (x, y) in [(0, 0), (0, 1), (1, 0), (1, 1)] {
        let values = Vec::from_slice(alloc, &[Some(x), Some(y)])?;
        rows.push(Row { values })?;
    }
    Ok(rows)
}

#[test]
fn operands_order_variables(rt: HostRuntime) -> Result<(), Fail> {
    let alloc = rt.alloc();
    let schema = table(alloc, BITS)?;
    let rows = rows_of_bits(alloc)?;
    for (program, wanted) in BOTH_WAYS {
        let case = ("x < y OR y < x", program, wanted);
        assert_verdict(&rt, alloc, &schema, &rows, case)?;
    }
    Ok(())
}

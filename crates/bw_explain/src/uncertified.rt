//! Explains why a program has no certificate. Rows on which it is wrong are shown only if a run on
//! a segment shows that.
use crate::claim::Claim;
use crate::program_file::line_of;
use crate::samples::Samples;
use crate::text::{Text, name_text, put};
use crate::trial::wrong_rows;
use crate::turn::put_turn;
use bw_cert::split_file;
use bw_lanes::{LANES, lane};
use bw_model::{Cond, Row, Schema, Truth};
use bw_planes::PlaneSegment;
use bw_program::Program;
use bw_prover::{Counted, MAX_PRODUCTS, Unproved, Witness, prove};
use bw_run::run_segment;
use bw_segment::is_group;
use bw_sql::parse;
use std::alloc::Global;

/// Appends why the program of a file has no certificate for a statement's condition, and rows that
/// show it wrong, if some are found. Appends nothing if the statement or the program is rejected,
/// or if there is a certificate.
pub(crate) fn put_uncertified(text: &mut Text, schema: &Schema, sql: &[u8], file: &[u8]) {
    let query = parse(text.alloc, schema, sql);
    let parts = split_file(file);
    let program = Program::parse(text.alloc, schema, parts.program);
    if let (Ok(query), Ok(program)) = (&query, &program)
        && let Err(unproved) = prove(text.alloc, schema, &query.cond, program, MAX_PRODUCTS)
    {
        let claim = Claim {
            schema,
            cond: &query.cond,
            program,
        };
        put_reason(text, &claim, &unproved, parts.program);
        put_outcome(text, &claim, &unproved);
    }
}

/// Appends a reason, but a wrong row.
fn put_reason(text: &mut Text, claim: &Claim<'_>, unproved: &Unproved, program: &[u8]) {
    match unproved {
        Unproved::Differs { .. } => {}
        Unproved::Unwritten { register, .. } => {
            put!(text; "nothing is known of r", *register);
            text.put(": no instruction writes it before; put FILL first\n");
        }
        Unproved::Unknown {
            register,
            join,
            skip,
            ..
        } => {
            put!(text; "r", *register, " may have two values at instruction ", *join);
            put!(text; ", line ", line_of(program, *join), ": by the skip of instruction ", *skip);
            put!(text; ", line ", line_of(program, *skip), ", and without it\n");
        }
        Unproved::OnlyUnadmitted {
            column,
            is_null,
            code,
        } => {
            text.put(
                "the program is right on every row of the schema, but not on all bits that a column can store: ",
            );
            put_bits(text, claim.schema, *column, *is_null, *code);
        }
        Unproved::Unordered => {
            text.put(
                "columns are compared with one another in both directions, so that no one order of bits serves\n",
            );
            put_turn(text, claim.schema, claim.cond);
        }
        Unproved::Limit { counted, most } => {
            put!(text; "a certificate would have more than ", *most);
            text.put(match counted {
                Counted::Nodes => " nodes\n",
                Counted::Chains => " chains\n",
                Counted::Rows => " rows\n",
            });
        }
        Unproved::NoRule => text.put("no rule fits: columns of different minimums are compared\n"),
        Unproved::Memory => text.put("memory was refused\n"),
    }
}

/// Appends bits of a column that no row has.
fn put_bits(text: &mut Text, schema: &Schema, column: usize, is_null: bool, code: u64) {
    let Some(found) = schema.columns.get(column) else {
        return text.put("no table has them\n");
    };
    put!(text; name_text(found.name.as_bytes()), if is_null { ": NULL with code " } else { ": code " });
    put!(text; code, ", which no table has\n");
}

/// Appends rows that a program gets wrong, if some are found; else that this shows nothing, unless
/// the program is right on all rows.
fn put_outcome(text: &mut Text, claim: &Claim<'_>, unproved: &Unproved) {
    let is_shown = match unproved {
        Unproved::OnlyUnadmitted { .. } => return,
        Unproved::Differs { row } => put_wrong(text, claim, row, &[]),
        Unproved::Unknown {
            witness: Some(Witness { taken, through }),
            ..
        } => {
            put_wrong(text, claim, taken, &[])
                || put_wrong(text, claim, taken, &[through])
                || put_wrong(text, claim, through, &[taken])
        }
        _ => false,
    };
    let found = if is_shown {
        Some(true)
    } else {
        put_found(text, claim, unproved)
    };
    if found != Some(true) {
        text.put("no proof was found; this is no proof that the program is right\n");
    }
}

/// Appends rows that a program gets wrong, among samples and rows on which a register differs by a
/// skip. Returns whether there are some, if memory isn't refused.
fn put_found(text: &mut Text, claim: &Claim<'_>, unproved: &Unproved) -> Option<bool> {
    let bases = match unproved {
        Unproved::Unknown {
            witness: Some(Witness { taken, through }),
            ..
        } => [Some(taken), Some(through)],
        _ => [None, None],
    };
    let mut samples = Samples::new(text.alloc, claim).ok()?;
    for _ in 0..samples.segments() {
        let rows = samples.next(bases).ok()?;
        if put_from(text, claim, &rows)? {
            return Some(true);
        }
    }
    Some(false)
}

/// Appends rows of a segment that a program gets wrong. Returns whether there are some, if memory
/// isn't refused.
fn put_from(text: &mut Text, claim: &Claim<'_>, rows: &[Row]) -> Option<bool> {
    let places = places_in(text.alloc, claim, rows)?;
    let Some((first, others)) = places.split_first() else {
        return Some(false);
    };
    let mut beside = Vec::new(text.alloc);
    for place in others {
        beside.push(rows.get(*place)?).ok()?;
    }
    Some(put_wrong(text, claim, rows.get(*first)?, &beside))
}

/// Returns which rows of a segment show a program wrong, the one that it gets wrong first: none, if
/// none do, or if the schema doesn't admit them.
fn places_in(alloc: Global, claim: &Claim<'_>, rows: &[Row]) -> Option<Vec<usize>> {
    if !is_group(claim.schema, rows) {
        return Some(Vec::new(alloc));
    }
    let segment = PlaneSegment::build(alloc, claim.schema, rows).ok()?;
    wrong_rows(alloc, claim, &segment, rows).ok()
}

/// Appends a row, and what the program does with it in a segment of 512 rows, of which all are as
/// this one but one for each other row, if that is wrong. Returns whether it is.
fn put_wrong(text: &mut Text, claim: &Claim<'_>, row: &Row, beside: &[&Row]) -> bool {
    let Some(selected) = selects(text.alloc, claim, row, beside) else {
        return false;
    };
    let Some(truth) = claim.truth_on(row) else {
        return false;
    };
    if selected == (truth == Truth::Yes) {
        return false;
    }
    put_row(text, claim.schema, row);
    put!(text; ": the program ", if selected { "selects" } else { "omits" }, " this row");
    for other in beside {
        text.put(" beside ");
        put_row(text, claim.schema, other);
    }
    text.put(match truth {
        Truth::Yes => "; the condition is TRUE\n",
        Truth::No => "; the condition is FALSE\n",
        Truth::Unknown => "; the condition is UNKNOWN\n",
    });
    true
}

/// Appends a row, as equations of its columns.
fn put_row(text: &mut Text, schema: &Schema, row: &Row) {
    for (number, (column, value)) in schema.columns.iter().zip(&row.values).enumerate() {
        put!(text; if number == 0 { "" } else { ", " }, name_text(column.name.as_bytes()), " = ");
        match value {
            Some(n) => text.put(*n),
            None => text.put("NULL"),
        }
    }
}

/// Returns whether a program selects a row in a segment of copies of it and one of each other row;
/// none if the schema doesn't admit them, or memory is refused.
fn selects(alloc: Global, claim: &Claim<'_>, row: &Row, beside: &[&Row]) -> Option<bool> {
    let rows = rows_of(alloc, row, beside)?;
    if !is_group(claim.schema, &rows) {
        return None;
    }
    let segment = PlaneSegment::build(alloc, claim.schema, &rows).ok()?;
    Some(lane(&run_segment(claim.program, &segment).0, 0))
}

/// Returns 512 rows, which are copies of one, and then others.
fn rows_of(alloc: Global, row: &Row, beside: &[&Row]) -> Option<Vec<Row>> {
    let mut rows = Vec::new(alloc);
    for _ in beside.len()..LANES {
        rows.push(row.copy(alloc).ok()?).ok()?;
    }
    for other in beside {
        rows.push(other.copy(alloc).ok()?).ok()?;
    }
    Some(rows)
}

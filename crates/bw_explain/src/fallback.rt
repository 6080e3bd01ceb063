//! Explains why a query used the fallback.
use crate::text::{Text, name_text, put};
use bw_model::{Column, Cond, Op, Operand, Schema};
use bw_plan::{Unplanned, why_unplanned};
use bw_sql::parse;
use std::alloc::{AllocError, Global};

/// Returns why a statement's condition has no scan program: which of its comparisons no program can
/// have, or else what the planner lacks. The text is empty if there is no condition, or if the
/// statement is rejected.
pub fn explain_fallback(alloc: Global, schema: &Schema, sql: &[u8]) -> Result<String, AllocError> {
    let mut text = Text::new(alloc);
    put_unplanned(
        &mut text,
        Some(schema),
        sql,
        "the query used the fallback: ",
    );
    text.finish()
}

/// Appends why a statement's condition has no scan program, after some words.
pub(crate) fn put_unplanned(text: &mut Text, schema: Option<&Schema>, sql: &[u8], before: &str) {
    if let Some(schema) = schema
        && let Ok(query) = parse(text.alloc, schema, sql)
    {
        put_condition(text, schema, &query.cond, before);
    }
}

/// Appends why a condition has no scan program, after some words.
fn put_condition(text: &mut Text, schema: &Schema, cond: &Cond, before: &str) {
    if let Some(apart) = apart_in(cond, &schema.columns) {
        text.put(before);
        put_apart(text, &apart);
    } else if !matches!(cond, Cond::Always)
        && let Some(unplanned) = why_unplanned(text.alloc, schema, cond)
    {
        text.put(before);
        text.put("there is no scan program for the condition\n");
        text.put(match unplanned {
            Unplanned::Length =>
                "it takes more instructions or registers than a program may have\n",
            Unplanned::Limit =>
                "its certificate takes too many nodes, chains or rows, or a list is searched faster\n",
            Unplanned::Uncertified => "no certificate was found for its program\n",
            Unplanned::Memory => "memory was refused\n",
        });
    }
}

/// Two columns with different minimums, and how they are compared.
#[derive(Clone, Copy)]
struct Apart<'a> {
    one: &'a Column,
    op: Op,
    other: &'a Column,
}

/// Appends that no program can compare two columns, and why.
fn put_apart(text: &mut Text, apart: &Apart<'_>) {
    let one = name_text(apart.one.name.as_bytes());
    let other = name_text(apart.other.name.as_bytes());
    let sign = match apart.op {
        Op::Eq => " = ",
        Op::Ne => " <> ",
        Op::Lt => " < ",
        Op::Gt => " > ",
        Op::Le => " <= ",
        Op::Ge => " >= ",
    };
    text.put("there is no scan program for ");
    put!(text; one, sign, other);
    text.put("\nscan programs can compare two columns only if their minimums are equal: ");
    put!(text; one, " starts at ", apart.one.lo, ", ", other, " at ", apart.other.lo, "\n");
}

/// Returns the first comparison of columns with different minimums in a condition.
#[cycle(apart_in)]
fn apart_in<'a>(cond: &Cond, columns: &'a [Column]) -> Option<Apart<'a>> {
    match cond {
        Cond::And(parts) => apart_of(parts, columns),
        Cond::Or(parts) => apart_of(parts, columns),
        Cond::Not(part) => apart_in(part, columns),
        Cond::Test(part, _) => apart_in(part, columns),
        Cond::Cmp(op, x, y) => apart_among(*x, *op, &[*y], columns),
        Cond::Between(x, y, z) => {
            apart_among(*x, Op::Ge, &[*y], columns).or(apart_among(*x, Op::Le, &[*z], columns))
        }
        Cond::Among(x, items) => apart_among(*x, Op::Eq, items, columns),
        Cond::Always | Cond::IsNull(_) => None,
    }
}

/// Returns the first such comparison in some conditions.
#[cycle(apart_in)]
fn apart_of<'a>(conds: &[Cond], columns: &'a [Column]) -> Option<Apart<'a>> {
    for cond in conds {
        let found = apart_in(cond, columns);
        if found.is_some() {
            return found;
        }
    }
    None
}

/// Returns the first such comparison of an operand with others.
fn apart_among<'a>(
    x: Operand,
    op: Op,
    others: &[Operand],
    columns: &'a [Column],
) -> Option<Apart<'a>> {
    let one = column_of(x, columns)?;
    for other in others {
        if let Some(other) = column_of(*other, columns)
            && other.lo != one.lo
        {
            return Some(Apart { one, op, other });
        }
    }
    None
}

/// Returns the column that an operand names, if it names one.
fn column_of(operand: Operand, columns: &[Column]) -> Option<&Column> {
    match operand {
        Operand::Col(number) => columns.get(number),
        _ => None,
    }
}

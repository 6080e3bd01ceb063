//! Generated conditions. Columns are compared in one direction, so that one order of variables fits
//! all comparisons.
use crate::tables::NumberSource;
use std::alloc::{AllocError, Global};

const COMPARISONS: [&str; 6] = ["=", "<>", "<", ">", "<=", ">="];

/// Comparisons of two columns that ask for the left one's bits first.
const LEFT_FIRST: [&str; 4] = ["=", "<>", "<", ">="];

/// Draws one of some texts.
fn one_of<'a>(numbers: &mut NumberSource, texts: &[&'a str]) -> &'a str {
    let at = numbers.below(texts.len() as u64) as usize;
    texts.get(at).copied().unwrap_or("a")
}

/// Returns a literal, or at times NULL.
fn literal(alloc: Global, numbers: &mut NumberSource) -> Result<String, AllocError> {
    match numbers.below(12) {
        0 => String::from_str(alloc, "NULL"),
        1 => String::from_str(alloc, "300"),
        2 => String::from_str(alloc, "-1"),
        3 => String::from_str(alloc, "70000"),
        _ => numbers.below(14).to_string(alloc),
    }
}

/// Draws a predicate of any form.
fn predicate(alloc: Global, numbers: &mut NumberSource) -> Result<String, AllocError> {
    let column = one_of(numbers, &["a", "b", "c"]);
    let op = one_of(numbers, &COMPARISONS);
    let not = one_of(numbers, &["", "NOT "]);
    let first = literal(alloc, numbers)?;
    match numbers.below(7) {
        0 => {
            let second = literal(alloc, numbers)?;
            format!(in alloc; "{column} {not}BETWEEN {first} AND {second}")
        }
        1 => format!(in alloc; "{column} IS {not}NULL"),
        2 => {
            let second = literal(alloc, numbers)?;
            format!(in alloc; "{column} {not}IN ({first}, {second}, 3)")
        }
        3 => {
            let op = one_of(numbers, &LEFT_FIRST);
            format!(in alloc; "a {op} b")
        }
        4 => format!(in alloc; "{first} {op} {column}"),
        _ => format!(in alloc; "{column} {op} {first}"),
    }
}

/// Returns a condition whose parts nest this deep.
pub(crate) fn condition(
    alloc: Global,
    numbers: &mut NumberSource,
    depth: u32,
) -> Result<String, AllocError> {
    if depth == 0 || numbers.below(5) == 0 {
        return predicate(alloc, numbers);
    }
    let first = condition(alloc, numbers, depth - 1)?;
    match numbers.below(4) {
        0 => format!(in alloc; "NOT ({first})"),
        1 => {
            let not = one_of(numbers, &["", "NOT "]);
            let truth = one_of(numbers, &["TRUE", "FALSE", "UNKNOWN"]);
            format!(in alloc; "({first}) IS {not}{truth}")
        }
        _ => {
            let word = one_of(numbers, &["AND", "OR"]);
            let second = condition(alloc, numbers, depth - 1)?;
            format!(in alloc; "({first}) {word} ({second})")
        }
    }
}

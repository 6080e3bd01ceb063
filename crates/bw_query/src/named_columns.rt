//! The columns that a query and its program name.
ghost use Rattle.std.specs.Prelude.{◌≡◌, IfOk, IsOkUnless, map};
ghost use Rattle.std.specs.List.{list_any, range_with_len};
ghost use Rattle.bw_model.specs.Fault.{no_memory};
ghost use Rattle.bw_query.specs.NamedColumns.{cond_names, instr_names, is_read, item_names};
ghost use Rattle.bw_query.specs.NamedColumns.{operand_names, program_names, query_names};
ghost use Rattle.bw_query.specs.Scan.{program_of};

use crate::scan::Scan;
use bw_model::{Cond, Fault, Item, Operand, Query};
use bw_program::{Instr, Program};
use std::alloc::Global;

/// Returns for each of `count` columns whether a query or the program of its scan names it. Errors:
/// 801 if memory is refused.
pub(crate) fn columns_read(
    alloc: Global,
    query: &Query,
    scan: &Scan,
    count: usize,
) -> Result<Vec<bool>, Fault>
    ensures columns { IfOk result (λ read. read.items
        ≡ map (is_read (program_of scan.now) query.now) (range_with_len 0 count)) }
    ensures only_oom { IsOkUnless result no_memory }
{
    let mut read = Vec::with_capacity(alloc, count)?;
    for column in 0..count {
        read.push(is_read(query, scan, column))?;
    }
    Ok(read)
}

/// Returns whether a query or the program of its scan names a column.
fn is_read(query: &Query, scan: &Scan, column: usize) -> bool
    ensures { result ≡ is_read (program_of scan.now) query.now column }
{
    is_named(query, column) || scan_names(scan, column)
}

/// Returns whether an item or the condition of a query names a column.
pub(crate) fn is_named(query: &Query, column: usize) -> bool
    ensures { result ≡ query_names column query.now }
{
    items_name(&query.items, column) || cond_names(&query.cond, column)
}

/// Returns whether one of the items is the column, or a total of it.
fn items_name(items: &[Item], column: usize) -> bool
    ensures { result ≡ list_any (item_names column) items.now }
{
    items.iter().any(|item| item_names(*item, column))
}

/// Returns whether an item is the column, or a total of it.
fn item_names(item: Item, column: usize) -> bool
    ensures { result ≡ item_names column item }
{
    match item {
        Item::CountAll => false,
        Item::Plain(other)
        | Item::Count(other)
        | Item::Sum(other)
        | Item::Min(other)
        | Item::Max(other) => other == column,
    }
}

/// Returns whether a condition names a column.
#[tactic(auto, using(crate::proofs::NamingLemmas::names))]
#[cycle(cond_names)]
pub(crate) fn cond_names(cond: &Cond, column: usize) -> bool
    ensures { result ≡ cond_names column cond.now }
{
    match cond {
        Cond::Always => false,
        Cond::Cmp(_, x, y) => operand_names(*x, column) || operand_names(*y, column),
        Cond::Between(x, y, z) => {
            operand_names(*x, column) || operand_names(*y, column) || operand_names(*z, column)
        }
        Cond::Among(x, items) => operand_names(*x, column) || operands_name(items, column),
        Cond::IsNull(x) => operand_names(*x, column),
        Cond::And(parts) | Cond::Or(parts) => conds_name(parts, column),
        Cond::Not(part) | Cond::Test(part, _) => cond_names(part, column),
    }
}

/// Returns whether one of the conditions names a column.
#[cycle(cond_names)]
fn conds_name(parts: &[Cond], column: usize) -> bool
    ensures { result ≡ list_any (cond_names column) parts.now }
{
    for part in parts {
        if cond_names(part, column) {
            return true;
        }
    }
    false
}

/// Returns whether one of the operands is the column.
fn operands_name(items: &[Operand], column: usize) -> bool
    ensures { result ≡ list_any (operand_names column) items.now }
{
    items.iter().any(|item| operand_names(*item, column))
}

/// Returns whether an operand is the column.
fn operand_names(operand: Operand, column: usize) -> bool
    ensures { result ≡ operand_names column operand }
{
    match operand {
        Operand::Col(other) => other == column,
        Operand::Lit(_) | Operand::Null => false,
    }
}

/// Returns whether the program of a scan has an instruction that names a column.
fn scan_names(scan: &Scan, column: usize) -> bool
    ensures { result ≡ program_names column (program_of scan.now) }
{
    match scan {
        Scan::Program(certified) => instrs_name(certified.program(), column),
        Scan::Rows => false,
    }
}

/// Returns whether one of the instructions of a program names a column.
fn instrs_name(program: &Program, column: usize) -> bool
    ensures { result ≡ list_any (instr_names column) program.now.instrs }
{
    for number in 0..program.len() {
        if instr_names(program.instr(number), column) {
            return true;
        }
    }
    false
}

/// Returns whether an instruction loads a plane or a slice of a column.
fn instr_names(instr: Instr, column: usize) -> bool
    ensures { result ≡ instr_names column instr }
{
    match instr {
        Instr::Load(_, other, _)
        | Instr::Nulls(_, other)
        | Instr::ByteLt(_, other, _, _)
        | Instr::ByteEq(_, other, _, _) => other as usize == column,
        _ => false,
    }
}

//! The heading record of a result.
ghost use Rattle.std.specs.Prelude.{◌≡◌, ◌≤◌, ◌++◌, List, [], ℕ, IsTrue, IfOk, OnOk, length};
ghost use Rattle.std.specs.Prelude.{map, IsOkUnless};
ghost use Rattle.std.specs.List.{list_all};
ghost use Rattle.bw_model.specs.Column.{names_of};
ghost use Rattle.bw_model.specs.Fault.{no_memory};
ghost use Rattle.bw_model.specs.Total.{item_within};
ghost use Rattle.bw_answer.specs.Answer.{call_of, heading_of, record_text};
ghost use Rattle.bw_answer.specs.Draft.{Holds};
ghost use Rattle.bw_answer.specs.Field.{needs_no_quotes};

use crate::csv_text::CsvText;
use bw_model::{Column, Fault, Item};
use std::alloc::Global;

/// Returns the text of the heading record.
pub(crate) fn heading_text(
    alloc: Global,
    columns: &[Column],
    items: &[Item],
) -> Result<Vec<u8>, Fault>
    requires columns { IsTrue (list_all (item_within (length columns.now)) items.now) }
    requires nonempty { 1 ≤ length items.now }
    ensures heading { IfOk result (λ text. text.items ≡ record_text
        (map (heading_of (names_of columns.now)) items.now)) }
    ensures only_oom { IsOkUnless result no_memory }
{
    let mut text = CsvText::onto(Vec::new(alloc));
    push_heading(alloc, columns, items, &mut text)?;
    text.into_bytes()
}

/// Adds the heading record: columns in the schema's spelling, and aggregates as `SUM(a)` or
/// `COUNT(*)`.
fn push_heading(
    alloc: Global,
    columns: &[Column],
    items: &[Item],
    text: &mut CsvText,
) -> Result<(), Fault>
    requires columns { IsTrue (list_all (item_within (length columns.now)) items.now) }
    requires nonempty { 1 ≤ length items.now }
    ensures heading { OnOk result ((ended : List ℕ) → Holds text.old ended []
        → Holds text.new (ended ++ record_text (map (heading_of (names_of columns.now)) items.now))
        []) }
    ensures only_oom { IsOkUnless result no_memory }
{
    let mut heading = Vec::new(alloc);
    for item in items {
        put_heading(&mut heading, columns, *item)?;
        text.push_field(&heading)?;
    }
    text.end_record()
}

/// Writes the heading of an item in place of the previous one.
#[tactic(auto, using(crate::proofs::PlainNames::plain_headings), unfolding(crate::specs::Field::needs_no_quotes))]
fn put_heading(heading: &mut Vec<u8>, columns: &[Column], item: Item) -> Result<(), Fault>
    requires { IsTrue (item_within (length columns.now) item) }
    ensures heading { OnOk result (heading.new.items ≡ heading_of (names_of columns.now) item) }
    ensures plain { OnOk result (IsTrue (needs_no_quotes heading.new.items)) }
    ensures only_oom { IsOkUnless result no_memory }
{
    heading.clear();
    match item {
        Item::Plain(column) => heading.extend_from_slice(columns[column].name.as_bytes())?,
        Item::CountAll => heading.extend_from_slice(b"COUNT(*)")?,
        Item::Count(column) => put_call(heading, b"COUNT", &columns[column])?,
        Item::Sum(column) => put_call(heading, b"SUM", &columns[column])?,
        Item::Min(column) => put_call(heading, b"MIN", &columns[column])?,
        Item::Max(column) => put_call(heading, b"MAX", &columns[column])?,
    }
    Ok(())
}

/// Writes the call of a function on a column in place of the previous heading.
#[tactic(auto, using(crate::proofs::PlainNames::plain_call))]
fn put_call(heading: &mut Vec<u8>, function: &[u8], column: &Column) -> Result<(), Fault>
    requires { IsTrue (needs_no_quotes function.now) }
    ensures call { OnOk result (heading.new.items ≡ call_of function.now column.now.name) }
    ensures plain { OnOk result (IsTrue (needs_no_quotes heading.new.items)) }
    ensures only_oom { IsOkUnless result no_memory }
{
    heading.clear();
    heading.extend_from_slice(function)?;
    heading.extend_from_slice(b"(")?;
    heading.extend_from_slice(column.name.as_bytes())?;
    heading.extend_from_slice(b")")?;
    Ok(())
}

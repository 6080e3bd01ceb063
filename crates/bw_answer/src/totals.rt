//! The totals of a query.
ghost use Rattle.std.specs.Prelude.{◌≡◌, ◌≤◌, ◌+◌, ◌++◌, ◌∷◌, ℕ, List, [], IfOk};
ghost use Rattle.std.specs.Prelude.{OnOk, length, map, All, IsOkUnless};
ghost use Rattle.std.specs.List.{list_any};
ghost use Rattle.bw_model.specs.declared.query.Item.{Item};
ghost use Rattle.bw_model.specs.Fault.{no_memory};
ghost use Rattle.bw_model.specs.Limits.{most_rows};
ghost use Rattle.bw_rowwise.specs.Accumulator.{count_rows, tally_of};
ghost use Rattle.bw_answer.specs.Aggregates.{aggregates_of, answer_for, is_same};
ghost use Rattle.bw_answer.specs.Answer.{record_text, value_text};
ghost use Rattle.bw_answer.specs.Draft.{Holds};

use crate::csv_text::CsvText;
use bw_model::{Fault, Item};
use bw_rowwise::Accumulator;
use std::alloc::Global;

/// Returns the totals over no rows, one for each aggregate among the items, even if it occurs more
/// than once.
pub(crate) fn totals_of(alloc: Global, items: &[Item]) -> Result<Vec<Accumulator>, Fault>
    ensures totals { IfOk result (λ totals. totals.items ≡ map (λ item. tally_of item [])
        (aggregates_of items.now)) }
    ensures only_oom { IsOkUnless result no_memory }
{
    let mut totals = Vec::new(alloc);
    for item in items {
        include(&mut totals, *item)?;
    }
    Ok(totals)
}

/// Adds a total over no rows, if the item is an aggregate without a total.
fn include(totals: &mut Vec<Accumulator>, item: Item) -> Result<(), Fault>
    ensures totals { OnOk result ((items : List Item) → totals.old.items
        ≡ map (λ item. tally_of item []) (aggregates_of items)
        → totals.new.items ≡ map (λ item. tally_of item []) (aggregates_of (items ++ item ∷ []))) }
    ensures only_oom { IsOkUnless result no_memory }
{
    if let Item::Plain(_) = item {
        return Ok(());
    }
    if has_total(totals, item) {
        return Ok(());
    }
    totals.push(Accumulator::new(item))?;
    Ok(())
}

/// Returns whether an item has a total. There are at most 257 totals: COUNT(*), and four of each
/// column.
fn has_total(totals: &[Accumulator], item: Item) -> bool
    ensures { result ≡ list_any (λ tally. is_same tally.item item) totals.now }
{
    totals.iter().any(|total| total.item() == item)
}

/// Returns the total of an item, or null if it has none.
fn total_for(totals: &[Accumulator], item: Item) -> Option<i128>
    ensures { result ≡ answer_for totals.now item }
{
    for total in totals {
        if total.item() == item {
            return total.finish();
        }
    }
    None
}

/// Adds `count` rows, whatever their values, to each total, as to a count of rows.
pub(crate) fn add_count(totals: &mut [Accumulator], count: u32)
    requires { All (λ tally. tally.count + count ≤ most_rows) totals.old }
    ensures { totals.new ≡ map (λ tally. count_rows tally count) totals.old }
{
    for total in totals.iter_mut() {
        total.add_count(count);
    }
}

/// Returns the text with one record more: the total of each item.
pub(crate) fn with_totals(
    bytes: Vec<u8>,
    totals: &[Accumulator],
    items: &[Item],
) -> Result<Vec<u8>, Fault>
    requires { 1 ≤ length items.now }
    ensures record { IfOk result (λ text. text.items
        ≡ bytes.items ++ record_text
        (map (λ item. value_text (answer_for totals.now item)) items.now)) }
    ensures only_oom { IsOkUnless result no_memory }
{
    let mut text = CsvText::onto(bytes);
    push_totals(&mut text, totals, items)?;
    text.into_bytes()
}

/// Adds the total of each item to a text, as a record.
fn push_totals(text: &mut CsvText, totals: &[Accumulator], items: &[Item]) -> Result<(), Fault>
    requires { 1 ≤ length items.now }
    ensures record { OnOk result ((ended : List ℕ) → Holds text.old ended []
        → Holds text.new (ended ++ record_text
        (map (λ item. value_text (answer_for totals.now item)) items.now)) []) }
    ensures only_oom { IsOkUnless result no_memory }
{
    for item in items {
        text.push_number(total_for(totals, *item))?;
    }
    text.end_record()
}

//! The column names of a heading.
ghost use Rattle.std.specs.Prelude.{◌≡◌, ◌≤◌, IfOk, IfErr, length, true, false};
ghost use Rattle.std.specs.List.{list_any};
ghost use Rattle.bw_model.specs.Limits.{most_columns};
ghost use Rattle.bw_model.specs.Name.{are_apart};
ghost use Rattle.bw_text.specs.Text.{same_text};
ghost use Rattle.bw_csv.specs.Records.{fields_in};
ghost use Rattle.bw_csv.specs.Rows.{MatchesUnlessExempt, is_reader_fault};
ghost use Rattle.bw_csv_calls.specs.Heading.{heading_names};
ghost use Rattle.bw_csv_calls.specs.Infer.{is_inferring_fault};

use bw_csv::Records;
use bw_model::{Fault, MAX_COLUMNS, Name, code, is_name};
use std::alloc::Global;

/// Returns the names in the fields of the last record, without the spaces and tabs at their ends.
/// Errors, each at record 0 for the first field from the left: 105 for the 65th column, 102 for an
/// invalid name, 104 for the name of an earlier column, ignoring case.
#[tactic(auto, unfolding(crate::specs::Heading::heading_names))]
pub(crate) fn heading_names(alloc: Global, records: &Records<'_>) -> Result<Vec<Name>, Fault>
    ensures names { MatchesUnlessExempt (λ names. names.items) result
        (heading_names (fields_in records.now)) }
    ensures nonempty { IfOk result (λ names. 1 ≤ length names.items) }
    ensures within_limit { IfOk result (λ names. length names.items ≤ most_columns) }
    ensures apart { IfOk result (λ names. are_apart names.items ≡ true) }
    ensures fault { IfErr result (λ fault. is_inferring_fault fault ≡ true) }
    ensures not_reader { IfErr result (λ fault. is_reader_fault fault ≡ false) }
{
    let mut names: Vec<Name> = Vec::new(alloc);
    for i in 0..records.field_count() {
        let name = records.field(i);
        if names.len() >= MAX_COLUMNS {
            return Err(Fault::at_record(code::COLUMN_COUNT, 0));
        }
        if !is_name(name) {
            return Err(Fault::at_record(code::SCHEMA_NAME, 0));
        }
        if is_among(&names, name) {
            return Err(Fault::at_record(code::NAME_TWICE, 0));
        }
        names.push(Name::new(alloc, name)?)?;
    }
    if names.is_empty() {
        return Err(Fault::at_record(code::COLUMN_COUNT, 0));
    }
    Ok(names)
}

/// Returns whether one of the names is this one, ignoring case.
fn is_among(names: &[Name], name: &[u8]) -> bool
    ensures { result ≡ list_any (λ other. same_text other name.now) names.now }
{
    names.iter().any(|other| other.is(name))
}

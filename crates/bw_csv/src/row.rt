//! The row of a record.
ghost use Rattle.std.specs.Prelude.{◌≡◌, ◌≤◌, ℕ, List, [], ◌∷◌, true, false, length, Ok, Err, OnOk};
ghost use Rattle.std.specs.Prelude.{IfOk, IfErr, IsTrue};
ghost use Rattle.csv.specs.Records.{fields_of};
ghost use Rattle.bw_model.specs.Limits.{most_rows};
ghost use Rattle.bw_model.specs.Row.{values_of};
ghost use Rattle.bw_csv.specs.Records.{IsOpen, remaining_records};
ghost use Rattle.bw_csv.specs.Rule.{allow_values};
ghost use Rattle.bw_csv.specs.Rows.{is_exempt, is_heading, row_of_record, rows_after, rows_from};
ghost use Rattle.bw_csv.specs.Rows.{values_of_fields, MatchesUnlessExempt, IsRowsFault, located_at};

use crate::field::{value_of, without_blanks};
use crate::records::Records;
use crate::rule::FieldRule;
use bw_model::{Column, Fault, MAX_ROWS, Row, code};
use csv::ByteRecord;

/// Reads the heading, which is the first record. Errors: 201 if the text has no record, 202 if its
/// fields aren't the columns' names.
#[tactic(auto, using(crate::proofs::RowLemmas::after_heading, crate::proofs::LongerLemmas::rows_after_longer))]
pub(crate) fn read_heading(columns: &[Column], records: &mut Records<'_>) -> Result<(), Fault>
    requires { IsOpen records.old }
    ensures open { OnOk result (IsOpen records.new) }
    ensures heading_read { OnOk result ((heading : List (List ℕ))
        × (remaining_records records.old ≡ heading ∷ remaining_records records.new)
        × (is_heading columns.now heading ≡ true)) }
    ensures heading { IfErr result (λ fault. is_exempt fault ≡ false
        → rows_after columns.now (remaining_records records.old) ≡ Err fault) }
    ensures fault { IfErr result IsRowsFault }
    ensures place { IfErr result (λ fault. IsTrue (located_at 0 fault)) }
{
    if records.is_longer(columns.len()) {
        return Err(Fault::at_record(code::HEADING, 0));
    }
    if !records.next(0)? {
        return Err(Fault::at_record(code::NO_HEADING, 0));
    }
    if !is_heading(columns, &records.fields) {
        return Err(Fault::at_record(code::HEADING, 0));
    }
    Ok(())
}

/// Returns whether the fields of a record are the names of the columns in order, ignoring case.
fn is_heading(columns: &[Column], fields: &ByteRecord) -> bool
    ensures { result ≡ is_heading columns.now (fields_of fields.now) }
{
    for (i, column) in columns.iter().enumerate() {
        let Some(field) = fields.get(i) else {
            return false;
        };
        if !column.name.is(without_blanks(field)) {
            return false;
        }
    }
    fields.len() == columns.len()
}

/// Reads the next record, which has this number, and writes its row under the rules into `row`.
/// Returns whether there was a record.
///
/// Errors: the first of the record: the number of its fields (203), a row past 2^24 (207), and then
/// its fields from the left. 209 is an error of the reader's own; 801 if memory is refused.
#[tactic(auto, using(crate::proofs::RowLemmas::rows_of_records, crate::proofs::LongerLemmas::rows_from_longer))]
pub(crate) fn read_row(
    rules: &[FieldRule],
    records: &mut Records<'_>,
    number: u32,
    row: &mut Row,
) -> Result<bool, Fault>
    requires { IsOpen records.old }
    ensures nonempty { IfOk result (λ found. found ≡ true → (fields : List (List ℕ))
        × (remaining_records records.old ≡ fields ∷ remaining_records records.new)
        × (row_of_record number rules.now fields ≡ Ok (values_of row.new))) }
    ensures open { IfOk result (λ found. found ≡ true → IsOpen records.new × (number ≤ most_rows)
        × IsTrue (allow_values rules.now (values_of row.new))) }
    ensures none { IfOk result (λ found. found ≡ false
        → rows_from rules.now number (remaining_records records.old) ≡ Ok []) }
    ensures row { IfErr result (λ fault. is_exempt fault ≡ false
        → rows_from rules.now number (remaining_records records.old) ≡ Err fault) }
    ensures fault { IfErr result IsRowsFault }
    ensures place { IfErr result (λ fault. IsTrue (located_at number fault)) }
{
    if records.is_longer(rules.len()) {
        return Err(Fault::at_record(code::RECORD_LENGTH, number));
    }
    if !records.next(number)? {
        return Ok(false);
    }
    read_record(rules, &records.fields, number, row)?;
    Ok(true)
}

/// Writes the row of a record under the rules into `row`.
#[tactic(auto, unfolding(crate::specs::Rows::row_of_record))]
fn read_record(
    rules: &[FieldRule],
    fields: &ByteRecord,
    number: u32,
    row: &mut Row,
) -> Result<(), Fault>
    ensures row { OnOk result (row_of_record number rules.now (fields_of fields.now)
        ≡ Ok (values_of row.new)) }
    ensures first { IfErr result (λ fault. is_exempt fault ≡ false
        → row_of_record number rules.now (fields_of fields.now) ≡ Err fault) }
    ensures within { OnOk result (number ≤ most_rows) }
    ensures fault { IfErr result IsRowsFault }
    ensures place { IfErr result (λ fault. IsTrue (located_at number fault)) }
{
    if fields.len() != rules.len() {
        return Err(Fault::at_record(code::RECORD_LENGTH, number));
    }
    if number > MAX_ROWS {
        return Err(Fault::at_record(code::TOO_MANY_ROWS, number));
    }
    read_values(rules, fields, number, row)
}

/// Writes the values of the fields into `row`, one for each rule.
fn read_values(
    rules: &[FieldRule],
    fields: &ByteRecord,
    number: u32,
    row: &mut Row,
) -> Result<(), Fault>
    ensures values { MatchesUnlessExempt (λ _. values_of row.new) result
        (values_of_fields number rules.now (fields_of fields.now)) }
    ensures fault { IfErr result IsRowsFault }
    ensures place { IfErr result (λ fault. IsTrue (located_at number fault)) }
{
    row.values.clear();
    for (i, rule) in rules.iter().enumerate() {
        let Some(field) = fields.get(i) else {
            return Err(Fault::at_record(code::RECORD_LENGTH, number));
        };
        let value = value_of(rule, field, number)?;
        row.values.push(value)?;
    }
    Ok(())
}

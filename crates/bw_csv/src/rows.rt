//! The rows that a CSV text spells under a schema, one at a time.
//!
//! The first record is the heading: the names of the schema's columns in order, ignoring case. Each
//! record after it is a row. Spaces and tabs at both ends of a field are dropped. What is then
//! empty, or `NULL` in any case, is null; anything else must be an optional sign and at least one
//! digit. The `csv` crate cuts the bytes into records and fields, and drops one byte order mark at
//! the start.
ghost use Rattle.std.specs.Prelude.{◌≡◌, ◌+◌, ◌<◌, ◌≤◌, ℕ, List, [], ◌∷◌, ◌++◌, Bool, true, OnOk};
ghost use Rattle.std.specs.Prelude.{IfOk, Err, IfErr, IsTrue, length, map};
ghost use Rattle.std.specs.List.{list_all};
ghost use Rattle.bw_model.specs.Column.{admits_values};
ghost use Rattle.bw_model.specs.declared.column.Column.{Column};
ghost use Rattle.bw_model.specs.declared.fault.Fault.{Fault};
ghost use Rattle.bw_model.specs.Fault.{no_memory};
ghost use Rattle.bw_model.specs.Limits.{most_rows};
ghost use Rattle.bw_model.specs.Row.{Value, values_of};
ghost use Rattle.bw_model.specs.FaultPlaces.{StandsAsListed};
ghost use Rattle.bw_csv.specs.Rest.{IsReadable, to_come};
ghost use Rattle.bw_csv.specs.Bare.{bare_rows, records_of};
ghost use Rattle.bw_csv.specs.Rule.{allow_values, rule_of};
ghost use Rattle.bw_csv.specs.Rows.{rows_of, rows_from, is_reader_fault, DeliversRows, IsRowsFault};
ghost use Rattle.bw_csv.specs.Rows.{StopsAfter, StopsUnder, located_at, stands_after};

use crate::records::Records;
use crate::rest::Rest;
use crate::row::read_heading;
use crate::rule::{FieldRule, rules_of};
use bw_model::{Column, Fault, Row, RowConsumer, Schema, Value};
use std::alloc::Global;

/// Delivers the rows of a CSV text to a consumer, in order. The consumer must accept each row that
/// the columns admit.
///
/// Errors: the first wrong record, of which the heading is record 0.
///
/// - 201: a text without a record
/// - 202: a heading of other names
/// - then, for each row, 203: the number of its fields; 207: a row past 2^24
/// - and for its fields, from the left, 204: not a whole number; 206: a null in a column that isn't
///   nullable; 205: a number outside the column's bounds
/// - 209: any other error of the reader, at the record that it read
///
/// 801 if memory is refused.
pub fn read_rows<K: RowConsumer>(
    alloc: Global,
    schema: &Schema,
    text: &[u8],
    consumer: &mut K,
) -> Result<(), Fault>
    requires takes { (row : List Value) → IsTrue (admits_values schema.now.columns.items row)
        → IsTrue (K.takes consumer.old row) }
    requires fresh { K.rows consumer.old ≡ 0 }
    requires starts { K.led consumer.old [] consumer.old }
    ensures handed { DeliversRows K.led (rows_of schema.now.columns.items text.now) consumer.old
        consumer.new result }
    ensures fault { IfErr result IsRowsFault }
    ensures place { IfErr result (λ fault. IsTrue (stands_after (K.rows consumer.new) fault)) }
    // An error of the reader's own is at the heading, or at the record after those that have rows.
    ensures reader { IfErr result (λ fault. is_reader_fault fault ≡ true
        → StopsUnder schema.now.columns.items (records_of text.now) fault) }
{
    let mut records = Records::new(alloc, text);
    read_heading(&schema.columns, &mut records)?;
    let rules = rules_of(alloc, &schema.columns)?;
    let mut rest = Rest::new(alloc, text, records);
    let mut row = Row {
        values: Vec::with_capacity(alloc, schema.columns.len())?,
    };
    hand_rows(&rules, &mut rest, &mut row, consumer)
}

/// Delivers the rows of the unread records, the first of which has number 1, under the rules to
/// a consumer, in order.
#[tactic(auto, using(crate::proofs::RowLemmas::so_far))]
fn hand_rows<K: RowConsumer>(
    rules: &[FieldRule],
    rest: &mut Rest<'_>,
    row: &mut Row,
    consumer: &mut K,
) -> Result<(), Fault>
    requires readable { IsReadable rest.old }
    requires takes { (row : List Value) → IsTrue (allow_values rules.now row)
        → IsTrue (K.takes consumer.old row) }
    requires fresh { K.rows consumer.old ≡ 0 }
    requires starts { K.led consumer.old [] consumer.old }
    ensures handed { DeliversRows K.led (rows_from rules.now 1 (to_come rest.old)) consumer.old
        consumer.new result }
    ensures fault { IfErr result IsRowsFault }
    ensures place { IfErr result (λ fault. IsTrue (located_at (K.rows consumer.new + 1) fault)) }
    ensures reader { IfErr result (λ fault. is_reader_fault fault ≡ true
        → StopsAfter (rows_from rules.now) (to_come rest.old) fault) }
{
    let mut number = 1;
    'rows: while rest.next_row(rules, number, row)? {
        consumer.take(row)?;
        number += 1;
    }
    Ok(())
}

/// A law: columns admit each row of a text, and a text has at most 2^24 rows.
pub fn rows_are_admitted()
    ensures admitted { (columns : List Column) (text : List ℕ)
        → IfOk (rows_of columns text) (λ rows. IsTrue (list_all (admits_values columns) rows)) }
    ensures within_limit { (columns : List Column) (text : List ℕ) → IfOk (rows_of columns text)
        (λ rows. length rows ≤ most_rows) }
{}

/// A law: an error of a CSV text is where the table of errors lists it: at a record.
#[tactic(auto, using(crate::proofs::FaultPlaceLemmas::fault_listed))]
pub fn faults_stand_as_listed()
    ensures { (columns : List Column) (text : List ℕ) (fault : Fault) → rows_of columns text
        ≡ Err fault → StandsAsListed fault }
{}

/// A law: if columns admit the rows that are read without a schema, these are the rows of the same
/// records under the columns.
pub fn bare_rows_are_rows()
    ensures { (columns : List Column) (number : ℕ) (records : List (List (List ℕ)))
        (rows : List (List Value))
        → bare_rows (length columns) number records ≡ Ok rows
        → IsTrue (list_all (admits_values columns) rows)
        → rows_from (map rule_of columns) number records ≡ Ok rows }
{}

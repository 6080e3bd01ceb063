//! The rest of a text, which is still unread.
ghost use Rattle.std.specs.Prelude.{◌≡◌, ◌≤◌, ◌∷◌, ℕ, List, [], Ok, Err, true, false, IfOk, IfErr};
ghost use Rattle.std.specs.Prelude.{IsTrue};
ghost use Rattle.bw_model.specs.Limits.{most_rows};
ghost use Rattle.bw_model.specs.Row.{values_of};
ghost use Rattle.bw_csv.specs.Bare.{records_of};
ghost use Rattle.bw_csv.specs.Records.{remaining_records};
ghost use Rattle.bw_csv.specs.Rest.{IsReadable, to_come};
ghost use Rattle.bw_csv.specs.Rule.{allow_values};
ghost use Rattle.bw_csv.specs.Rows.{is_exempt, row_of_record, rows_from, IsRowsFault, located_at};

use crate::heading_end::{after_byte_order_mark, after_record};
use crate::plain_row::plain_row;
use crate::records::Records;
use crate::row::read_row;
use crate::rule::FieldRule;
use bw_model::{Fault, Row};
use std::alloc::Global;

/// The records of a text that are still unread. As long as they are plain, they are read from the
/// text itself. The csv reader reads the first one that isn't plain or has an error, and all after
/// it.
#[derive(Drop)]
pub struct Rest<'a> {
    alloc: Global,
    /// Whether records are read from the text itself, since each so far was plain.
    reads_text: bool,
    /// The unread text, as long as they are: it begins with a line's end, or is empty.
    text: &'a [u8],
    /// The reader of all records after that.
    records: Records<'a>,
}

impl<'a> Rest<'a> {
    /// Returns the records of a text after the first one, which `records` has read, and nothing
    /// else.
    pub fn new(alloc: Global, text: &'a [u8], records: Records<'a>) -> Self
        requires { (heading : List (List ℕ))
            × (records_of text.now ≡ heading ∷ remaining_records records) }
        ensures readable { IsReadable result }
        ensures to_come { to_come result ≡ remaining_records records.entry }
    {
        Rest {
            alloc,
            reads_text: true,
            text: after_record(after_byte_order_mark(text)),
            records,
        }
    }

    /// Reads the next record, which has this number, and writes its row under the rules, one for
    /// each field, into `row`. Returns whether there was a record. The rest must be readable, as it
    /// is until the first error.
    ///
    /// Errors: the first of the record: the number of its fields (203), a row past 2^24 (207), and
    /// then its fields from the left: 204, not a whole number; 206, a null that the rule doesn't
    /// allow; 205, a number that it doesn't allow. 209 is an error of the reader's own; 801 if
    /// memory is refused.
    #[inline(always)]
    pub fn next_row(
        &mut self,
        rules: &[FieldRule],
        number: u32,
        row: &mut Row,
    ) -> Result<bool, Fault>
        requires { IsReadable self.old }
        ensures nonempty { IfOk result (λ found. found ≡ true → (fields : List (List ℕ))
            × (to_come self.old ≡ fields ∷ to_come self.new)
            × (row_of_record number rules.now fields ≡ Ok (values_of row.new))) }
        ensures readable { IfOk result (λ found. found ≡ true → IsReadable self.new
            × (number ≤ most_rows) × IsTrue (allow_values rules.now (values_of row.new))) }
        ensures none { IfOk result (λ found. found ≡ false
            → rows_from rules.now number (to_come self.old) ≡ Ok []) }
        ensures row { IfErr result (λ fault. is_exempt fault ≡ false
            → rows_from rules.now number (to_come self.old) ≡ Err fault) }
        ensures fault { IfErr result IsRowsFault }
        ensures place { IfErr result (λ fault. IsTrue (located_at number fault)) }
    {
        if self.reads_text {
            if let Some(left) = plain_row(rules, self.text, number, row) {
                self.text = left;
                return Ok(true);
            }
        }
        self.turn_to_reader();
        read_row(rules, &mut self.records, number, row)
    }

    /// Lets the csv reader read the rest of the text, if it doesn't yet.
    fn turn_to_reader(&mut self)
        requires { IsReadable self.old }
        ensures reader { self.new.reads_text ≡ false }
        ensures readable { IsReadable self.new }
        ensures to_come { to_come self.new ≡ to_come self.old }
    {
        if self.reads_text {
            self.begin_reader();
        }
    }

    /// Lets the csv reader read the rest of the text. It stays out of the loop over rows, which
    /// would otherwise clear memory for a reader at each row.
    #[inline(never)]
    fn begin_reader(&mut self)
        requires text { self.old.reads_text ≡ true }
        requires readable { IsReadable self.old }
        ensures reader { self.new.reads_text ≡ false }
        ensures readable { IsReadable self.new }
        ensures to_come { to_come self.new ≡ to_come self.old }
    {
        self.records = Records::new(self.alloc, self.text);
        self.reads_text = false;
    }
}

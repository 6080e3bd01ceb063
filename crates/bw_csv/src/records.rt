//! The records of a text, one at a time.
ghost use Rattle.std.specs.Prelude.{◌≡◌, ◌<◌, ℕ, List, [], ◌∷◌, Some, true, false, length};
ghost use Rattle.std.specs.Prelude.{slice_index_or, IfOk, IfErr, IsTrue};
ghost use Rattle.csv.specs.Reading.{records, strip_bom, default_config, has_failed};
ghost use Rattle.csv.specs.Records.{fields_of};
ghost use Rattle.csv.specs.declared.parser.State.TheVariants as st;
ghost use Rattle.bw_csv.specs.Fields.{IsLonger};
ghost use Rattle.bw_csv.specs.Records.{IsOpen, IsOpenReader, remaining_records, fields_in, left_in};
ghost use Rattle.bw_csv.specs.Records.{has_stopped, records_in};
ghost use Rattle.bw_csv.specs.Rows.{IsRowsFault, is_exempt, located_at, without_blanks};

use crate::field::without_blanks;
use crate::heading_end::{after_byte_order_mark, after_record};
use crate::long_line::has_long_line;
use crate::many_fields::after_fields;
use bw_model::{Fault, code};
use csv::{ByteRecord, ErrorKind, Reader, ReaderBuilder};
use std::alloc::Global;

/// The records of a text, read one at a time.
#[derive(Drop)]
pub struct Records<'a> {
    reader: Reader<&'a [u8]>,
    /// The record that was read last.
    pub(crate) fields: ByteRecord,
    /// The text that the reader hasn't read yet, as long as `is_followed` is true: up to the first
    /// record, and further if a line is long.
    text: &'a [u8],
    is_followed: bool,
    has_long_line: bool,
}

impl<'a> Records<'a> {
    /// Returns the records of a whole text, without the byte order mark at its start, if it has
    /// one.
    #[tactic(auto, unfolding(crate::specs::Records::remaining_records, crate::specs::Records::IsOpen))]
    pub fn new(alloc: Global, text: &'a [u8]) -> Self
        ensures open { IsOpen result }
        ensures coming { remaining_records result ≡ records default_config (strip_bom text.now) }
    {
        Records {
            reader: reader_of(alloc, text),
            fields: ByteRecord::new(alloc),
            text: after_byte_order_mark(text),
            is_followed: true,
            has_long_line: has_long_line(text),
        }
    }

    /// Reads the next record, which has this number. Returns whether there was one. The records
    /// must be open, as they are until the first error.
    ///
    /// Errors: 209, an error of the csv reader's own; 801 if memory is refused. The reader then reads
    /// nothing more.
    #[tactic(auto, unfolding(crate::specs::Records::remaining_records))]
    pub fn next(&mut self, number: u32) -> Result<bool, Fault>
        requires { IsOpen self.old }
        ensures nonempty { IfOk result (λ found. found ≡ true → remaining_records self.old
            ≡ fields_in self.new ∷ remaining_records self.new) }
        ensures open { IfOk result (λ found. found ≡ true → IsOpen self.new) }
        ensures none { IfOk result (λ found. found ≡ false → remaining_records self.old ≡ []) }
        ensures aside { IfErr result (λ fault. is_exempt fault ≡ true) }
        ensures fault { IfErr result IsRowsFault }
        ensures place { IfErr result (λ fault. IsTrue (located_at number fault)) }
        // An error is one of the csv reader.
        ensures stopped { IfErr result (λ _. has_stopped self.new ≡ true) }
    {
        if !read_fields(&mut self.reader, &mut self.fields, number)? {
            return Ok(false);
        }
        self.text = text_after_record(self.is_followed, self.text);
        self.is_followed = goes_on(self.is_followed, self.has_long_line);
        Ok(true)
    }

    /// Returns true only if the next record has more than `most` fields, and always if it also is
    /// the first one or a line of 64 KiB. So a caller who rejects such a record allocates no memory
    /// for its fields.
    pub(crate) fn is_longer(&self, most: usize) -> bool
        requires { IsOpen self.now }
        ensures { result ≡ true → IsLonger most (remaining_records self.now) }
    {
        self.is_followed && after_fields(self.text, most).is_some()
    }

    /// Returns how many fields the last record has.
    pub fn field_count(&self) -> usize
        ensures { result ≡ length (fields_in self.now) }
    {
        self.fields.len()
    }

    /// Returns a field of the last record, without the spaces and tabs at both ends. The record
    /// must have it.
    pub fn field(&self, i: usize) -> &[u8]
        requires { i < length (fields_in self.now) }
        ensures { result.now ≡ without_blanks (slice_index_or (fields_in self.now) i []) }
    {
        match self.fields.get(i) {
            Some(field) => without_blanks(field),
            None => &[],
        }
    }
}

/// Returns a reader of a text. It gets a heading without fields: without one, a reader stores two
/// copies of the first record as its heading.
fn reader_of<'a>(alloc: Global, text: &'a [u8]) -> Reader<&'a [u8]>
    ensures open { IsOpenReader result }
    ensures left { left_in result ≡ records default_config (strip_bom text.now) }
{
    let mut reader = ReaderBuilder::new().flexible(true).from_reader(alloc, text);
    match reader.set_byte_headers(ByteRecord::new(alloc)) {
        Ok(()) => reader,
        Err(_) => other_reader_of(alloc, text),
    }
}

/// Returns a reader without a heading, if there is no memory for one.
fn other_reader_of<'a>(alloc: Global, text: &'a [u8]) -> Reader<&'a [u8]>
    ensures open { IsOpenReader result }
    ensures left { left_in result ≡ records default_config (strip_bom text.now) }
{
    ReaderBuilder::new()
        .has_headers(false)
        .flexible(true)
        .from_reader(alloc, text)
}

/// Returns the text after its first record, if the text is followed.
fn text_after_record(is_followed: bool, text: &[u8]) -> &[u8]
    ensures { is_followed ≡ true → (fields : List (List ℕ)) → (more : List (List (List ℕ)))
        → records_in st.StartRecord (Some text.now) ≡ fields ∷ more
        → records_in st.StartRecord (Some result.now) ≡ more }
{
    if is_followed {
        after_record(text)
    } else {
        text
    }
}

/// Returns whether the text is followed after a record too.
fn goes_on(is_followed: bool, has_long_line: bool) -> bool
    ensures { result ≡ true → is_followed ≡ true }
{
    is_followed && has_long_line
}

/// Reads the next record of a reader, which has this number, into `fields`. Returns whether there
/// was one.
#[tactic(auto, unfolding(crate::specs::Rows::is_any_record))]
fn read_fields(
    reader: &mut Reader<&[u8]>,
    fields: &mut ByteRecord,
    number: u32,
) -> Result<bool, Fault>
    requires { IsOpenReader reader.old }
    ensures nonempty { IfOk result (λ found. found ≡ true → left_in reader.old
        ≡ fields_of fields.new ∷ left_in reader.new) }
    ensures open { IfOk result (λ found. found ≡ true → IsOpenReader reader.new) }
    ensures none { IfOk result (λ found. found ≡ false → left_in reader.old ≡ []) }
    ensures aside { IfErr result (λ fault. is_exempt fault ≡ true) }
    ensures fault { IfErr result IsRowsFault }
    ensures place { IfErr result (λ fault. IsTrue (located_at number fault)) }
    ensures stopped { IfErr result (λ _. has_failed reader.new ≡ true) }
{
    match reader.read_byte_record(fields) {
        Ok(found) => Ok(found),
        Err(error) => match error.kind() {
            ErrorKind::OutOfMemory => Err(Fault::new(code::OUT_OF_MEMORY)),
            _ => Err(Fault::at_record(code::CSV_FAULT, number)),
        },
    }
}

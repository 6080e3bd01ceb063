//! A CSV text that is being written: fields joined by commas, each record ended by a line feed,
//! numbers in decimal and null as `NULL`.
ghost use Rattle.std.specs.Prelude.{◌≡◌, ℕ, [], ◌∷◌, ◌++◌, List, IsTrue, OnOk, IfOk, IsOkUnless};
ghost use Rattle.bw_model.specs.Fault.{no_memory};
ghost use Rattle.bw_answer.specs.Answer.{record_text, value_text};
ghost use Rattle.bw_answer.specs.Field.{needs_no_quotes};
ghost use Rattle.bw_answer.specs.Draft.{Drafts, Holds, is_begun};

use bw_model::{Fault, code};
use csv::{Error, Writer, WriterBuilder};
use itoa::Buffer;

/// The records so far, and the fields so far of the current one.
#[derive(Drop)]
pub struct CsvText {
    writer: Writer<Vec<u8>>,
}

impl CsvText {
    /// Returns a text that begins with the records of these bytes.
    pub fn onto(bytes: Vec<u8>) -> Self
        ensures { Holds result bytes.items [] }
    {
        CsvText {
            writer: WriterBuilder::new().flexible(true).from_writer(bytes),
        }
    }

    /// Adds a field to the current record.
    pub fn push_field(&mut self, field: &[u8]) -> Result<(), Fault>
        requires { IsTrue (needs_no_quotes field.now) }
        ensures field { OnOk result ((ended : List ℕ) → (fields : List (List ℕ))
            → Holds self.old ended fields → Holds self.new ended (fields ++ field.now ∷ [])) }
        ensures only_oom { IsOkUnless result no_memory }
    {
        write_field(&mut self.writer, field)
    }

    /// Adds a number, or null, to the current record.
    #[tactic(auto, using(crate::proofs::PlainFields::plain_numbers), unfolding(crate::specs::Field::needs_no_quotes))]
    pub fn push_number(&mut self, number: Option<i128>) -> Result<(), Fault>
        ensures field { OnOk result ((ended : List ℕ) → (fields : List (List ℕ))
            → Holds self.old ended fields
            → Holds self.new ended (fields ++ value_text number ∷ [])) }
        ensures only_oom { IsOkUnless result no_memory }
    {
        match number {
            None => write_field(&mut self.writer, b"NULL"),
            Some(n) => write_field(&mut self.writer, Buffer::new().format(n).as_bytes()),
        }
    }

    /// Ends the current record, which must have a field.
    pub fn end_record(&mut self) -> Result<(), Fault>
        ensures ended { OnOk result ((ended : List ℕ) → (fields : List (List ℕ))
            → IsTrue (is_begun fields)
            → Holds self.old ended fields → Holds self.new (ended ++ record_text fields) []) }
        ensures only_oom { IsOkUnless result no_memory }
    {
        match self.writer.end_record() {
            Ok(()) => Ok(()),
            Err(error) => Err(refusal(error)),
        }
    }

    /// Returns the text of the records.
    pub fn into_bytes(self) -> Result<Vec<u8>, Fault>
        ensures text { IfOk result (λ text. (ended : List ℕ) → Holds self ended []
            → text.items ≡ ended) }
        ensures only_oom { IsOkUnless result no_memory }
    {
        match self.writer.into_inner() {
            Ok(text) => Ok(text),
            Err(_) => Err(Fault::new(code::OUT_OF_MEMORY)),
        }
    }
}

/// Adds a field to the current record.
fn write_field(writer: &mut Writer<Vec<u8>>, field: &[u8]) -> Result<(), Fault>
    requires { IsTrue (needs_no_quotes field.now) }
    ensures field { OnOk result ((ended : List ℕ) → (fields : List (List ℕ))
        → Drafts writer.old ended fields → Drafts writer.new ended (fields ++ field.now ∷ [])) }
    ensures only_oom { IsOkUnless result no_memory }
{
    match writer.write_field(field) {
        Ok(()) => Ok(()),
        Err(error) => Err(refusal(error)),
    }
}

/// Only memory can fail, since the text is in memory and its records may differ in length.
fn refusal(_error: Error) -> Fault
    ensures { result ≡ no_memory }
{
    Fault::new(code::OUT_OF_MEMORY)
}

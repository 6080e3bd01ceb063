//! The end of a text's heading, quoted or not.
ghost use Rattle.std.specs.Prelude.{◌≡◌, ◌∷◌, ℕ, List, Some, true, false};
ghost use Rattle.csv.specs.Machine.{is_end, step};
ghost use Rattle.csv.specs.Reading.{default_config, is_bom, strip_bom};
ghost use Rattle.csv.specs.declared.parser.State.TheVariants as st;
ghost use Rattle.bw_csv.specs.Plain.{ends_line, is_line_end, state_of};
ghost use Rattle.bw_csv.specs.Records.{records_in};

use crate::marks::{ends_line, skip_bytes};

/// The place of a byte in a record: before the record, at the start of a field, in an unquoted
/// field, within quotation marks, or after a quotation mark that may be the last one.
#[derive(Clone, Copy)]
pub(crate) enum Inside {
    Before,
    Front,
    Bare,
    Quoted,
    Closed,
}

/// Returns a text without its first record; it begins with a line's end, or is empty.
pub(crate) fn after_record(text: &[u8]) -> &[u8]
    ensures rest { (fields : List (List ℕ)) → (more : List (List (List ℕ)))
        → records_in st.StartRecord (Some text.now) ≡ fields ∷ more
        → records_in st.StartRecord (Some result.now) ≡ more }
    ensures end { is_line_end result.now ≡ true }
{
    let mut inside = Inside::Before;
    for (i, c) in text.iter().enumerate() {
        if ends_record(inside, *c) {
            return skip_bytes(text, i);
        }
        inside = inside_after(inside, *c);
    }
    &[]
}

/// Returns whether a byte ends the record.
pub(crate) fn ends_record(inside: Inside, c: u8) -> bool
    ensures end { result ≡ is_end (step default_config (state_of inside) c).1 }
    ensures line { result ≡ true → ends_line c ≡ true }
{
    match inside {
        Inside::Before | Inside::Quoted => false,
        Inside::Front | Inside::Bare | Inside::Closed => ends_line(c),
    }
}

/// Returns the place of the byte that follows this one, which doesn't end the record.
pub(crate) fn inside_after(inside: Inside, c: u8) -> Inside
    requires { is_end (step default_config (state_of inside) c).1 ≡ false }
    ensures { state_of result ≡ (step default_config (state_of inside) c).0 }
{
    let is_mark = c == b'"';
    match inside {
        Inside::Quoted if is_mark => Inside::Closed,
        Inside::Quoted => Inside::Quoted,
        Inside::Before | Inside::Front | Inside::Closed if is_mark => Inside::Quoted,
        Inside::Before if ends_line(c) => Inside::Before,
        _ if c == b',' => Inside::Front,
        _ => Inside::Bare,
    }
}

/// Returns a text without the byte order mark at its start, if it has one.
#[tactic(auto, using(crate::proofs::HeadingLemmas::byte_order_marks))]
pub fn after_byte_order_mark(text: &[u8]) -> &[u8]
    ensures { result.now ≡ strip_bom text.now }
{
    if text.len() < 3 {
        return text;
    }
    if is_byte_order_mark(text[0], text[1], text[2]) {
        skip_bytes(text, 3)
    } else {
        text
    }
}

fn is_byte_order_mark(a: u8, b: u8, c: u8) -> bool
    ensures { result ≡ is_bom a b c }
{
    a == 0xEF && b == 0xBB && c == 0xBF
}

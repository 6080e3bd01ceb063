//! The end of the first fields of a text's first record, quoted or not.
ghost use Rattle.std.specs.Prelude.{◌≡◌, ◌≤◌, true, IfSome};
ghost use Rattle.csv.specs.Machine.{is_end, step};
ghost use Rattle.csv.specs.Reading.{default_config};
ghost use Rattle.bw_csv.specs.Fields.{HasMoreFields, IsCutAfter, is_field_closed};
ghost use Rattle.bw_csv.specs.Bare.{records_of};
ghost use Rattle.bw_csv.specs.Plain.{state_of};

use crate::heading_end::{Inside, after_byte_order_mark, ends_record, inside_after};

/// Returns a text whose first record has at most `most + 1` fields. If the text's first record has
/// more, it is the part up to the comma after the first `most`, whose first record has these fields
/// and an empty one. Any other text is returned as it is.
pub fn without_more_fields(text: &[u8], most: usize) -> &[u8]
    ensures { IsCutAfter most (records_of text.now) (records_of result.now) }
{
    let unmarked = after_byte_order_mark(text);
    match after_fields(unmarked, most) {
        Some(end) => &text[..text.len() - unmarked.len() + end],
        None => text,
    }
}

/// Returns the place after the comma that follows the first `count` fields of a text's first
/// record, if there is one.
pub(crate) fn after_fields(text: &[u8], count: usize) -> Option<usize>
    ensures { IfSome result (λ end. HasMoreFields count text.now end) }
{
    let mut inside = Inside::Before;
    let mut closed = 0;
    for (i, c) in text.iter().enumerate() {
        if ends_record(inside, *c) {
            return None;
        }
        if closes_field(inside, *c) {
            closed += 1;
            if closed == count {
                return Some(i + 1);
            }
        }
        inside = inside_after(inside, *c);
    }
    None
}

/// Returns whether a byte ends a field, and not the record.
fn closes_field(inside: Inside, c: u8) -> bool
    ensures { result ≡ is_field_closed (step default_config (state_of inside) c).1 }
{
    match inside {
        Inside::Quoted => false,
        Inside::Before | Inside::Front | Inside::Bare | Inside::Closed => c == b',',
    }
}

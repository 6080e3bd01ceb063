//! The records of a text, one at a time.
ghost use Rattle.std.specs.Prelude.{◌≡◌, ◌+◌, ℕ, List, [], ◌∷◌, Some, None, true, false, OnOk};
ghost use Rattle.std.specs.Prelude.{IfOk, ◌≤◌, ◌||◌, length, drop};
ghost use Rattle.std.specs.Option.{MatchOption};
ghost use Rattle.csv.specs.Machine.{fields_after, field_after, next_record, step};
ghost use Rattle.csv.specs.declared.parser.State.TheVariants as st;
ghost use Rattle.bw_encode.specs.Dialect.{config_of, loose_from, records_in};
ghost use Rattle.bw_encode.specs.Place.{action_of, state_of};
ghost use Rattle.std.specs.List.{prefix_len};
ghost use Rattle.bw_encode.specs.Records.{IsReadAs, HasNoRecord};
ghost use Rattle.bw_encode.specs.Run.{joins_bare, joins_quoted, run_length};

use crate::dialect::Dialect;
use crate::fields::Fields;
use crate::place::{
    Action, Place, ends_at_end, goes_on_bare, is_end, is_open, joins_bare, joins_quoted, step_of,
};
use std::alloc::AllocError;

/// What follows a record: the rest of the text, and the place of its first byte; and whether the
/// record has a loose quotation mark.
#[derive(Clone, Copy)]
pub(crate) struct After<'a> {
    pub(crate) text: &'a [u8],
    pub(crate) place: Place,
    pub(crate) is_loose: bool,
}

/// Reads the next record of a text into `fields`, which are empty. Returns what follows it, or None
/// if there is no record. Fails only if memory is refused.
pub(crate) fn read_record<'a>(
    dialect: Dialect,
    text: &'a [u8],
    place: Place,
    fields: &mut Fields,
    field: &mut Vec<u8>,
) -> Result<Option<After<'a>>, AllocError>
    ensures { IfOk result (λ found. MatchOption found
        (HasNoRecord dialect (state_of place) text.now)
        (λ after. IsReadAs dialect (state_of place) text.now fields.new after)) }
{
    fields.clear();
    field.clear();
    let mut at = place;
    let mut is_loose = false;
    let mut i = 0;
    'bytes: while i < text.len() {
        let c = text[i];
        i += 1;
        let step = step_of(dialect, at, c);
        take_byte(step.action, c, fields, field)?;
        is_loose = either(is_loose, goes_on_bare(at, step.next));
        at = step.next;
        if is_end(step.action) {
            return Ok(Some(After {
                text: skip_bytes(text, i),
                place: at,
                is_loose,
            }));
        }
        let rest = skip_bytes(text, i);
        let run = run_length(dialect, at, rest);
        field.extend_from_slice(&rest[..run])?;
        i += run;
    }
    if !ends_at_end(at) {
        return Ok(None);
    }
    fields.push(field)?;
    Ok(Some(After {
        text: &[],
        place: Place::Before,
        is_loose: either(is_loose, is_open(at)),
    }))
}

/// Returns how many bytes of a text join the field at hand, from a place in it on.
fn run_length(dialect: Dialect, place: Place, text: &[u8]) -> usize
    ensures is { result ≡ run_length dialect (state_of place) text.now }
    ensures within { result ≤ length text.now }
{
    match place {
        Place::Bare => bare_length(dialect.separator, text),
        Place::Quoted => quoted_length(dialect, text),
        _ => 0,
    }
}

/// Returns how many bytes of a text precede the end of an unquoted field.
pub(crate) fn bare_length(separator: u8, text: &[u8]) -> usize
    ensures is { result ≡ prefix_len (joins_bare separator) text.now }
    ensures within { result ≤ length text.now }
{
    text.iter()
        .take_while(|c| joins_bare(separator, **c))
        .count()
}

/// Returns how many bytes of a text precede a quotation mark or an escape.
pub(crate) fn quoted_length(dialect: Dialect, text: &[u8]) -> usize
    ensures is { result ≡ prefix_len (joins_quoted dialect) text.now }
    ensures within { result ≤ length text.now }
{
    text.iter()
        .take_while(|c| joins_quoted(dialect, **c))
        .count()
}

/// Does what a byte does. Fails only if memory is refused.
fn take_byte(
    action: Action,
    c: u8,
    fields: &mut Fields,
    field: &mut Vec<u8>,
) -> Result<(), AllocError>
    ensures fields { OnOk result (fields.new
        ≡ fields_after (action_of action) fields.old field.old.items) }
    ensures field { OnOk result (field.new.items
        ≡ field_after (action_of action) c field.old.items) }
{
    match action {
        Action::Joins => {
            field.push(c)?;
            Ok(())
        }
        Action::Skips => Ok(()),
        Action::EndsField | Action::EndsRecord => {
            fields.push(field)?;
            field.clear();
            Ok(())
        }
    }
}

/// Returns a text without its first `count` bytes.
pub(crate) fn skip_bytes(text: &[u8], count: usize) -> &[u8]
    requires { count ≤ length text.now }
    ensures { result.now ≡ drop count text.now }
{
    &text[count..]
}

/// Returns whether one of the two is true.
fn either(a: bool, b: bool) -> bool
    ensures { result ≡ a || b }
{
    a || b
}

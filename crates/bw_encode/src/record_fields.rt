//! The fields of a record.
ghost use Rattle.std.specs.Prelude.{IfSome};
ghost use Rattle.csv.specs.declared.parser.State.TheVariants.{AfterCr};
ghost use Rattle.bw_encode.specs.Cut.{StartsAt};
ghost use Rattle.bw_encode.specs.Place.{state_of};

use crate::cut::cut_record;
use crate::dialect::Dialect;
use crate::fields::Fields;
use crate::place::Place;
use crate::records::{After, read_record};
use std::alloc::{AllocError, Global};
use std::marker::Model;

/// The fields of a record, as parts of its text; or copies of them, if one isn't there as it is.
#[derive(Drop)]
pub(crate) struct RecordFields<'a> {
    parts: Vec<&'a [u8]>,
    fields: Fields,
    field: Vec<u8>,
    are_parts: bool,
}

impl<'a> Model for RecordFields<'a> {
    ghost use Rattle.std.specs.Prelude.{List, ℕ, if◌then◌else◌};
    ghost use Rattle.bw_encode.specs.Fields.{texts_under};

    ghost Value = { List (List ℕ) };

    ghost view = { λ fields. if fields.are_parts then texts_under fields.parts.items
        else fields.fields };
}

impl<'a> RecordFields<'a> {
    ghost use Rattle.std.specs.Prelude.{◌≡◌, [], IfOk, length, slice_index_or};
    ghost use Rattle.std.specs.Option.{MatchOption};
    ghost use Rattle.bw_encode.specs.Place.{state_of};
    ghost use Rattle.bw_encode.specs.Records.{IsReadAs, HasNoRecord};

    /// Returns no fields.
    pub(crate) fn new(alloc: Global) -> Self
        ensures { result ≡ [] }
    {
        RecordFields {
            parts: Vec::new(alloc),
            fields: Fields::new(alloc),
            field: Vec::new(alloc),
            are_parts: false,
        }
    }

    /// Returns how many fields there are.
    pub(crate) fn len(&self) -> usize
        ensures { result ≡ length self.now }
    {
        if self.are_parts {
            self.parts.len()
        } else {
            self.fields.len()
        }
    }

    /// Returns the field at a place, or an empty one if it isn't there.
    pub(crate) fn get_or_empty(&self, place: usize) -> &[u8]
        ensures { result.now ≡ slice_index_or self.now place [] }
    {
        if !self.are_parts {
            return self.fields.get_or_empty(place);
        }
        match self.parts.get(place) {
            Some(part) => part,
            None => &[],
        }
    }

    /// Reads the next record of a text. Returns what follows it, or None if there is no record. Fails
    /// only if memory is refused.
    pub(crate) fn read(
        &mut self,
        dialect: Dialect,
        text: &'a [u8],
        place: Place,
    ) -> Result<Option<After<'a>>, AllocError>
        ensures { IfOk result (λ found. MatchOption found
            (HasNoRecord dialect (state_of place) text.now)
            (λ after. IsReadAs dialect (state_of place) text.now self.new after)) }
    {
        if let Some(rest) = record_start(place, text) {
            if let Some(after) = cut_record(dialect, rest, &mut self.parts)? {
                self.are_parts = true;
                return Ok(Some(after));
            }
        }
        self.are_parts = false;
        read_record(dialect, text, place, &mut self.fields, &mut self.field)
    }
}

/// Returns the text from the start of its next record on, unless that is in a comment, or a record is
/// begun.
fn record_start(place: Place, text: &[u8]) -> Option<&[u8]>
    ensures { IfSome result (λ rest. StartsAt (state_of place) text.now rest.now) }
{
    match place {
        Place::Before => Some(text),
        Place::Returned => after_line_feed(text),
        _ => None,
    }
}

/// Returns what follows a line feed at the start of a text, if there is one.
fn after_line_feed(text: &[u8]) -> Option<&[u8]>
    ensures { IfSome result (λ rest. StartsAt AfterCr text.now rest.now) }
{
    match text {
        [b'\n', rest @ ..] => Some(rest),
        _ => None,
    }
}

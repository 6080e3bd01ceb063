//! The fields of a column.
ghost use Rattle.std.specs.Prelude.{◌≡◌, IfNone, IfSome, OnOk, map};
ghost use Rattle.bw_encode.specs.ColumnFields.{IsNext, IsNoNext};
ghost use Rattle.bw_encode.specs.Number.{value_text};

use crate::fields::Fields;
use crate::number::value_of;
use crate::seen::Seen;
use bw_model::{Value, is_range};
use itoa::Buffer;
use std::alloc::{AllocError, Global};
use std::marker::Model;

/// The fields of a column, one of each row. As long as they are empty or whole numbers that a column
/// can have, their values are stored, and then the fields themselves.
#[derive(Drop)]
pub(crate) struct ColumnFields {
    values: Vec<Value>,
    seen: Seen,
    fields: Fields,
    are_texts: bool,
}

/// The fields of a column: the values of all, and what is seen of these, or else the fields.
#[derive(Clone, Copy)]
pub(crate) enum Content<'a> {
    Numbers(&'a [Value], Seen),
    Texts(&'a Fields),
}

impl Model for ColumnFields {
    ghost use Rattle.std.specs.Prelude.{List, ℕ, map, if◌then◌else◌};
    ghost use Rattle.std.specs.Bool.{MatchBool};
    ghost use Rattle.bw_encode.specs.Column.{AreTexts};
    ghost use Rattle.bw_encode.specs.ColumnFields.{AreStored};
    ghost use Rattle.bw_encode.specs.Number.{value_text};

    ghost Value = { List (List ℕ) };

    ghost view = { λ column. if column.are_texts then column.fields
        else map value_text column.values.items };

    ghost invariant = { λ column. MatchBool column.are_texts (AreTexts column.fields)
        (AreStored column.values.items column.seen) };
}

impl ColumnFields {
    ghost use Rattle.std.specs.Prelude.{◌≡◌, ◌∷◌, ◌++◌, [], OnOk, length};
    ghost use Rattle.bw_encode.specs.ColumnFields.{IsContentOf};

    /// Returns no fields.
    pub(crate) fn new(alloc: Global) -> Self
        ensures { result ≡ [] }
    {
        ColumnFields {
            values: Vec::new(alloc),
            seen: Seen::new(),
            fields: Fields::new(alloc),
            are_texts: false,
        }
    }

    /// Returns how many fields there are.
    pub(crate) fn len(&self) -> usize
        ensures { result ≡ length self.now }
    {
        if self.are_texts {
            self.fields.len()
        } else {
            self.values.len()
        }
    }

    /// Returns what the fields are.
    pub(crate) fn content(&self) -> Content<'_>
        ensures { IsContentOf self.now result }
    {
        if self.are_texts {
            Content::Texts(&self.fields)
        } else {
            Content::Numbers(&self.values, self.seen)
        }
    }

    /// Adds a field. Fails only if memory is refused; what fields there are then is left open.
    #[tactic(auto, using(crate::proofs::NumberLemmas::stored_none))]
    pub(crate) fn push(&mut self, field: &[u8]) -> Result<(), AllocError>
        ensures { OnOk result (self.new ≡ self.old ++ field.now ∷ []) }
    {
        if !self.are_texts {
            if let Some(next) = next_value(self.seen, field) {
                self.values.push(next.value)?;
                self.seen = next.seen;
                return Ok(());
            }
            spell(&self.values, &mut self.fields)?;
        }
        if let Err(refused) = self.fields.push(field) {
            self.values.clear();
            self.seen = Seen::new();
            self.are_texts = false;
            return Err(refused);
        }
        self.are_texts = true;
        Ok(())
    }
}

/// A value, and what is seen of others and it.
#[derive(Clone, Copy)]
struct Next {
    value: Value,
    seen: Seen,
}

/// Returns the value that a field spells, if it spells one and a column can have it beside others, of
/// which this is seen.
fn next_value(seen: Seen, field: &[u8]) -> Option<Next>
    ensures value { IfSome result (IsNext seen field.now) }
    ensures text { IfNone result (IsNoNext seen field.now) }
{
    let Some(value) = value_of(field) else {
        return None;
    };
    let seen = seen.and(value);
    if is_range(seen.lo, seen.hi) {
        Some(Next { value, seen })
    } else {
        None
    }
}

/// Writes the texts of values into `fields`. Fails only if memory is refused.
fn spell(values: &[Value], fields: &mut Fields) -> Result<(), AllocError>
    ensures { OnOk result (fields.new ≡ map value_text values.now) }
{
    fields.clear();
    let mut buffer = Buffer::new();
    for value in values {
        match value {
            None => fields.push(&[])?,
            Some(n) => fields.push(buffer.format(*n).as_bytes())?,
        }
    }
    Ok(())
}

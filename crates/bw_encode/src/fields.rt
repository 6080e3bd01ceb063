//! Fields, one after another.
use csv::ByteRecord;
use std::alloc::{AllocError, Global};
use std::marker::Model;

/// The fields of a record, or those of a column, one of each row.
#[derive(Drop)]
pub(crate) struct Fields {
    record: ByteRecord,
}

impl Model for Fields {
    ghost use Rattle.std.specs.Prelude.{◌≡◌, List, ℕ, []};
    ghost use Rattle.csv.specs.Records.{fields_of, partial_of};

    ghost Value = { List (List ℕ) };

    ghost view = { λ fields. fields_of fields.record };

    ghost invariant = { λ fields. partial_of fields.record ≡ [] };
}

impl Fields {
    ghost use Rattle.std.specs.Prelude.{◌≡◌, ◌<◌, ◌∷◌, ◌++◌, [], OnOk, length, slice_index_or};

    /// Returns no fields.
    pub(crate) fn new(alloc: Global) -> Self
        ensures { result ≡ [] }
    {
        Fields {
            record: ByteRecord::new(alloc),
        }
    }

    /// Returns how many fields there are.
    pub(crate) fn len(&self) -> usize
        ensures { result ≡ length self.now }
    {
        self.record.len()
    }

    /// Returns the field at a place, which must be there.
    pub(crate) fn get(&self, place: usize) -> &[u8]
        requires { place < length self.now }
        ensures { result.now ≡ slice_index_or self.now place [] }
    {
        match self.record.get(place) {
            Some(field) => field,
            None => &[],
        }
    }

    /// Returns the field at a place, or an empty one if it isn't there.
    pub(crate) fn get_or_empty(&self, place: usize) -> &[u8]
        ensures { result.now ≡ slice_index_or self.now place [] }
    {
        if place < self.len() {
            self.get(place)
        } else {
            &[]
        }
    }

    /// Adds a field. Fails only if memory is refused; what fields there are then is left open.
    pub(crate) fn push(&mut self, field: &[u8]) -> Result<(), AllocError>
        ensures { OnOk result (self.new ≡ self.old ++ field.now ∷ []) }
    {
        if let Err(refused) = self.record.push_field(field) {
            self.record.clear();
            return Err(refused);
        }
        Ok(())
    }

    /// Removes all fields.
    pub(crate) fn clear(&mut self)
        ensures { self.new ≡ [] }
    {
        self.record.clear();
    }
}

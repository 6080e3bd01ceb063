//! Distinct fields, each found by its bytes.
use indexmap::IndexSet;
use std::alloc::{AllocError, Global};
use std::hash::{Hash, Hasher, RandomState};

/// The bytes of a field, which are hashed in one call.
#[derive(Clone, Copy)]
pub(crate) struct Key<'a> {
    pub(crate) bytes: &'a [u8],
}

impl PartialEq for Key<'_> {
    ghost use Rattle.std.specs.Str.{bytes_eq};
    ghost use Rattle.std.specs.Cmp.Lexicographic.{nat_list_eq_equiv};
    ghost use Rattle.std.specs.Cmp.Rules.{comparing};
    ghost use Rattle.std.proofs.Common.{rules};

    ghost eq = { λ a b. bytes_eq a.bytes.now b.bytes.now };

    ghost laws = { Prim.search (comparing, rules) };

    fn eq(&self, other: &Self) -> bool {
        self.bytes == other.bytes
    }
}

impl Eq for Key<'_> {
    ghost use Rattle.std.specs.Cmp.Rules.{comparing};
    ghost use Rattle.std.proofs.Common.{rules};

    ghost laws = { Prim.search (comparing, rules) };
}

impl Hash for Key<'_> {
    ghost use Rattle.std.specs.Prelude.{◌∷◌, []};
    ghost use Rattle.std.specs.Cmp.Rules.{hashing};
    ghost use Rattle.std.proofs.Common.{rules};

    ghost hash_input = { λ a. a.bytes.now ∷ [] };

    ghost respects_eq = { Prim.search (hashing, rules) };

    fn hash<H: Hasher>(&self, state: &mut H) {
        state.write(self.bytes);
    }
}

/// Distinct fields, in the order in which they were added.
#[derive(Drop)]
pub(crate) struct FieldSet<'a> {
    keys: IndexSet<Key<'a>, RandomState>,
}

impl<'a> FieldSet<'a> {
    ghost use Rattle.std.specs.Prelude.{◌≡◌, [], slice_get, OnOk, IfOk, Some};
    ghost use Rattle.std.specs.Str.{bytes_eq};
    ghost use Rattle.indexmap.specs.IndexSet.{insert_key};
    ghost use Rattle.bw_encode.specs.Fields.{texts_under};
    ghost use Rattle.bw_encode.specs.FieldSet.{fields_in, AreDistinct};

    /// Returns a set of no fields, with room for some, whose hashes depend on the hasher's keys. Fails
    /// only if memory is refused.
    pub(crate) fn new(
        alloc: Global,
        hasher: RandomState,
        capacity: usize,
    ) -> Result<Self, AllocError>
        ensures { IfOk result (λ set. fields_in set ≡ []) }
    {
        Ok(FieldSet {
            keys: IndexSet::with_capacity_and_hasher(alloc, capacity, hasher)?,
        })
    }

    /// Adds a field, unless the set has it. Returns its place. Fails only if memory is refused.
    pub(crate) fn insert(&mut self, field: &'a [u8]) -> Result<usize, AllocError>
        ensures fields { OnOk result (fields_in self.new
            ≡ insert_key bytes_eq (fields_in self.old) field.now) }
        ensures distinct { OnOk result (AreDistinct (fields_in self.new)) }
        ensures place { IfOk result (λ place. slice_get (fields_in self.new) place
            ≡ Some field.now) }
    {
        let (place, _) = self.keys.insert_full(Key { bytes: field })?;
        Ok(place)
    }

    /// Returns the fields in their order. Fails only if memory is refused.
    pub(crate) fn fields(&self, alloc: Global) -> Result<Vec<&'a [u8]>, AllocError>
        ensures { IfOk result (λ fields. texts_under fields.items ≡ fields_in self.now) }
    {
        let mut fields = Vec::with_capacity(alloc, self.keys.len())?;
        for key in self.keys.as_slice() {
            fields.push(key.bytes)?;
        }
        Ok(fields)
    }
}

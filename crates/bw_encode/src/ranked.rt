//! Distinct fields in the order of bytes.
ghost use Rattle.std.specs.Prelude.{◌≡◌, ◌≤◌, ◌<◌, All, IfOk, Some, length, map, slice_get};
ghost use Rattle.std.specs.List.Sorted.{IsPermutation};
ghost use Rattle.bw_model.specs.Limits.{most_rows};
ghost use Rattle.bw_encode.specs.Dictionary.{IsAscending};
ghost use Rattle.bw_encode.specs.Fields.{texts_under};
ghost use Rattle.bw_encode.specs.FieldSet.{AreDistinct};
ghost use Rattle.bw_encode.specs.Ranked.{ArePlaced, ArePrefixed, AreRanks, HasOwnPlaces};
ghost use Rattle.bw_encode.specs.Ranked.{IsPrefix, entries_bytes};

use std::alloc::{AllocError, Global};

/// A field with its place before sorting. Fields are compared by the number that their first bytes
/// are, and then by all their bytes.
#[derive(Clone, Copy, PartialEq, Eq, PartialOrd, Ord)]
pub(crate) struct Ranked<'a> {
    pub(crate) prefix: u64,
    pub(crate) bytes: &'a [u8],
    pub(crate) place: u32,
}

/// Fields in the order of bytes, and for each field, in its old order, its new place.
#[derive(Drop)]
pub(crate) struct SortedFields<'a> {
    pub(crate) fields: Vec<&'a [u8]>,
    pub(crate) ranks: Vec<u32>,
}

/// Sorts at most 2^24 distinct fields in the order of bytes. Fails only if memory is refused.
pub(crate) fn sort_fields<'a>(
    alloc: Global,
    fields: &[&'a [u8]],
) -> Result<SortedFields<'a>, AllocError>
    requires within { length fields.now ≤ most_rows }
    requires distinct { AreDistinct (texts_under fields.now) }
    ensures ascending { IfOk result (λ sorted. IsAscending (texts_under sorted.fields.items)) }
    ensures distinct { IfOk result (λ sorted. AreDistinct (texts_under sorted.fields.items)) }
    ensures same { IfOk result (λ sorted.
        IsPermutation (texts_under fields.now) (texts_under sorted.fields.items)) }
    ensures ranks { IfOk result (λ sorted.
        map (slice_get (texts_under sorted.fields.items)) sorted.ranks.items
        ≡ map Some (texts_under fields.now)) }
{
    let mut entries = place_fields(alloc, fields)?;
    entries.sort_unstable();
    let ranks = ranks_of(alloc, &entries)?;
    let fields = fields_of(alloc, &entries)?;
    Ok(SortedFields { fields, ranks })
}

/// Returns fields, of which there are at most 2^24, with their places. Fails only if memory is
/// refused.
fn place_fields<'a>(alloc: Global, fields: &[&'a [u8]]) -> Result<Vec<Ranked<'a>>, AllocError>
    requires { length fields.now ≤ most_rows }
    ensures bytes { IfOk result (λ entries. entries_bytes entries.items ≡ texts_under fields.now) }
    ensures placed { IfOk result (λ entries. ArePlaced entries.items) }
    ensures prefixed { IfOk result (λ entries. ArePrefixed entries.items) }
{
    let mut entries: Vec<Ranked<'a>> = Vec::with_capacity(alloc, fields.len())?;
    for (place, bytes) in fields.iter().enumerate() {
        entries.push(Ranked {
            prefix: prefix_of(bytes),
            bytes,
            place: place as u32,
        })?;
    }
    Ok(entries)
}

/// Returns the number that the first eight bytes of a text are, the first one being the highest. A
/// byte that isn't there counts as 0.
fn prefix_of(bytes: &[u8]) -> u64
    ensures { IsPrefix bytes.now result }
{
    let mut prefix: u64 = 0;
    for i in 0..8 {
        prefix = prefix * 256 + u64::from(bytes.get(i).copied().unwrap_or(0));
    }
    prefix
}

/// Returns for each place the index of the entry that has it. Fails only if memory is refused.
fn ranks_of(alloc: Global, entries: &[Ranked<'_>]) -> Result<Vec<u32>, AllocError>
    requires within { length entries.now ≤ most_rows }
    requires own { HasOwnPlaces entries.now }
    ensures { IfOk result (λ ranks. AreRanks entries.now (length entries.now) ranks.items) }
{
    let mut ranks: Vec<u32> = Vec::new(alloc);
    ranks.resize(entries.len(), 0)?;
    for (rank, entry) in entries.iter().enumerate() {
        ranks[entry.place as usize] = rank as u32;
    }
    Ok(ranks)
}

/// Returns the fields of entries. Fails only if memory is refused.
fn fields_of<'a>(alloc: Global, entries: &[Ranked<'a>]) -> Result<Vec<&'a [u8]>, AllocError>
    ensures { IfOk result (λ fields. texts_under fields.items ≡ entries_bytes entries.now) }
{
    let mut fields = Vec::with_capacity(alloc, entries.len())?;
    for entry in entries {
        fields.push(entry.bytes)?;
    }
    Ok(fields)
}

//! A column's fields as places in the list of its distinct fields.
ghost use Rattle.std.specs.Prelude.{◌≡◌, ◌≤◌, [], All, Contains, IfOk, OnOk, Some, length, map};
ghost use Rattle.std.specs.Prelude.{slice_get};
ghost use Rattle.bw_model.specs.Limits.{most_rows};
ghost use Rattle.bw_encode.specs.Dictionary.{IsEncoded};
ghost use Rattle.bw_encode.specs.Fields.{texts_under};
ghost use Rattle.bw_encode.specs.FieldSet.{fields_in, AreDistinct};

use crate::field_set::FieldSet;
use crate::fields::Fields;
use crate::ranked::{SortedFields, sort_fields};
use std::alloc::{AllocError, Global};
use std::hash::RandomState;

/// The distinct fields of a column in the order of bytes, how often each occurs, and the place
/// among them of each of the column's fields.
#[derive(Drop)]
pub(crate) struct Dictionary<'a> {
    pub(crate) fields: Vec<&'a [u8]>,
    pub(crate) counts: Vec<u32>,
    pub(crate) codes: Vec<u32>,
}

// At most so much room is made before the first field.
const MOST_FIELDS: usize = 1 << 20;

/// Returns the dictionary of a column of at most 2^24 rows. Fails only if memory is refused.
pub(crate) fn dictionary_of<'a>(
    alloc: Global,
    hasher: RandomState,
    column: &'a Fields,
) -> Result<Dictionary<'a>, AllocError>
    requires { length column.now ≤ most_rows }
    ensures short { IfOk result
        (λ dictionary. length dictionary.fields.items ≤ length column.now) }
    ensures encoded { IfOk result (λ dictionary. IsEncoded column.now
        (texts_under dictionary.fields.items) dictionary.counts.items dictionary.codes.items) }
{
    let mut set = set_for(alloc, hasher, column)?;
    let places = insert_fields(alloc, column, &mut set)?;
    let firsts = set.fields(alloc)?;
    let SortedFields { fields, ranks } = sort_fields(alloc, &firsts)?;
    let mut counts: Vec<u32> = Vec::new(alloc);
    counts.resize(fields.len(), 0)?;
    let mut codes: Vec<u32> = Vec::with_capacity(alloc, places.len())?;
    for row in 0..places.len() {
        let code = ranks[places[row] as usize];
        counts[code as usize] += 1;
        codes.push(code)?;
    }
    Ok(Dictionary {
        fields,
        counts,
        codes,
    })
}

/// Returns a set of no fields, with room for those of a column. Fails only if memory is refused.
fn set_for<'a>(
    alloc: Global,
    hasher: RandomState,
    column: &Fields,
) -> Result<FieldSet<'a>, AllocError>
    ensures { IfOk result (λ set. fields_in set ≡ []) }
{
    FieldSet::new(alloc, hasher, column.len().min(MOST_FIELDS))
}

/// Adds the fields of a column to a set, which is empty. Returns the place of each field in it.
/// Fails only if memory is refused.
fn insert_fields<'a>(
    alloc: Global,
    column: &'a Fields,
    set: &mut FieldSet<'a>,
) -> Result<Vec<u32>, AllocError>
    requires within { length column.now ≤ most_rows }
    requires empty { fields_in set.old ≡ [] }
    ensures distinct { OnOk result (AreDistinct (fields_in set.new)) }
    ensures used { OnOk result (All (Contains column.now) (fields_in set.new)) }
    ensures short { OnOk result (length (fields_in set.new) ≤ length column.now) }
    ensures places { IfOk result (λ places. map (slice_get (fields_in set.new)) places.items
        ≡ map Some column.now) }
{
    let mut places: Vec<u32> = Vec::with_capacity(alloc, column.len())?;
    for row in 0..column.len() {
        let place = set.insert(column.get(row))?;
        places.push(place as u32)?;
    }
    Ok(places)
}

//! The rows that a query lists, as records of its columns.
ghost use Rattle.std.specs.Prelude.{◌≡◌, ◌*◌, ◌<◌, ◌≤◌, ◌++◌, ◌∷◌, [], ℕ, All, List, IfOk};
ghost use Rattle.std.specs.Prelude.{OnOk, length, map, vec_len, IsOkUnless};
ghost use Rattle.bw_aggregate.specs.Selected.{IsWithin, selected_rows};
ghost use Rattle.bw_lanes.specs.Lanes.{lanes_of_words};
ghost use Rattle.bw_model.specs.Fault.{no_memory};
ghost use Rattle.bw_model.specs.Row.{Value, values_of};
ghost use Rattle.bw_model.specs.Selection.{positions_of, selected_items};
ghost use Rattle.bw_model.specs.declared.query.Item.{Item};
ghost use Rattle.bw_rowwise.specs.Columns.{HaveRows, numbers_of};
ghost use Rattle.bw_answer.specs.Answer.{csv_text};
ghost use Rattle.bw_answer.specs.Columns.{columns_of, fields_of};
ghost use Rattle.bw_answer.specs.LaneFields.{fields_in_lane};
ghost use Rattle.bw_answer.specs.Places.{AreAt};

use crate::record::FIELD;
use crate::records::push_records;
use bw_lanes::{LANES, Selection, is_zero};
use bw_model::{Fault, Item, Row, code};
use bw_rowwise::Columns;
use bw_segment::Segment;
use std::alloc::Global;

/// The fewest bytes of a field: a digit, and the comma or the line feed after it.
const SHORTEST: usize = 2;

/// The most bytes of records that are written at once, if one record has no more.
const DRAFT: usize = 32768;

/// The columns that a query lists, and memory for their values and their text, used again for each
/// segment.
#[derive(Drop)]
pub(crate) struct Listing {
    /// The columns of the items, each once, and their values in the current rows.
    columns: Columns,
    /// The place of each item's column, in the items' order.
    fields: Vec<usize>,
    /// Space for the records of some rows.
    draft: Vec<u8>,
    /// The number of these rows.
    at_once: usize,
    ghost within: { All (λ place. place < length columns.columns.items) fields.items },
    ghost rows: { (1 ≤ at_once) × (at_once ≤ 512) },
    ghost capacity: { 21 * vec_len fields * at_once ≤ vec_len draft },
}

impl Listing {
    ghost use Rattle.bw_answer.specs.Listing.{IsListing};

    /// Returns the listing of the items' columns.
    pub(crate) fn new(alloc: Global, items: &[Item]) -> Result<Self, Fault>
        ensures names { IfOk result (λ listing. IsListing listing items.now) }
        ensures empty { IfOk result (λ listing. HaveRows [] listing.columns) }
        ensures only_oom { IsOkUnless result no_memory }
    {
        let mut columns = Columns::new(alloc);
        let fields = fields_of(alloc, items, &mut columns)?;
        columns.clear();
        let at_once = rows_at_once(fields.len());
        Ok(Listing {
            columns,
            draft: room_for(alloc, fields.len(), at_once)?,
            fields,
            at_once,
        })
    }

    /// Reserves memory after a text for the records of `rows` rows, which have at least two bytes
    /// for each field.
    pub(crate) fn reserve(&self, text: &mut Vec<u8>, rows: u32) -> Result<(), Fault>
        ensures text { text.new.items ≡ text.old.items }
        ensures only_oom { IsOkUnless result no_memory }
    {
        let Some(size) = self.fields.len().checked_mul(SHORTEST * rows as usize) else {
            return Err(Fault::new(code::OUT_OF_MEMORY));
        };
        text.reserve_exact(size)?;
        Ok(())
    }

    /// Adds the records of the selected rows of a segment to a text. If none is selected, no row is
    /// read. It isn't compiled into its callers, whose queries may list no row: it needs much more
    /// of the stack than they do.
    #[inline(never)]
    pub(crate) fn push_selected<S: Segment>(
        &mut self,
        text: &mut Vec<u8>,
        segment: &S,
        selection: &Selection,
    ) -> Result<(), Fault>
        requires nonempty { 1 ≤ vec_len self.old.fields }
        requires selection { IsWithin (length (S.meaning segment.now).rows)
            (lanes_of_words selection.now) }
        ensures records { OnOk result ((listed : List ℕ)
            → AreAt (numbers_of self.old.columns) listed self.old.fields.items
            → text.new.items ≡ text.old.items ++ csv_text (map (fields_of listed)
            (selected_rows (S.meaning segment.now) (lanes_of_words selection.now)))) }
        ensures names { (items : List Item) → IsListing self.old items → IsListing self.new items }
        ensures fields { self.new.fields.items ≡ self.old.fields.items }
        ensures only_oom { IsOkUnless result no_memory }
    {
        if is_zero(selection) {
            return Ok(());
        }
        self.columns.unpack_selected(segment, selection);
        self.push(text, selection)
    }

    /// Adds the records of the selected rows among those that were gathered to a text.
    #[inline(never)]
    pub(crate) fn push_gathered(
        &mut self,
        text: &mut Vec<u8>,
        selection: &Selection,
    ) -> Result<(), Fault>
        requires { 1 ≤ vec_len self.old.fields }
        ensures records { OnOk result ((listed : List ℕ) (rows : List (List Value))
            → AreAt (numbers_of self.old.columns) listed self.old.fields.items
            → length rows ≤ 512 → HaveRows rows self.old.columns
            → IsWithin (length rows) (lanes_of_words selection.now)
            → text.new.items ≡ text.old.items ++ csv_text (map (fields_of listed)
            (selected_items (lanes_of_words selection.now) rows))) }
        ensures names { (items : List Item) → IsListing self.old items → IsListing self.new items }
        ensures only_oom { IsOkUnless result no_memory }
    {
        self.push(text, selection)
    }

    /// Adds the records of the rows in the selected lanes to a text.
    fn push(&mut self, text: &mut Vec<u8>, selection: &Selection) -> Result<(), Fault>
        requires { 1 ≤ vec_len self.old.fields }
        ensures records { OnOk result (text.new.items ≡ text.old.items
            ++ csv_text (map (fields_in_lane self.old.columns self.old.fields.items)
            (positions_of (lanes_of_words selection.now)))) }
        ensures columns { self.new.columns ≡ self.old.columns }
        ensures fields { self.new.fields.items ≡ self.old.fields.items }
        ensures only_oom { IsOkUnless result no_memory }
    {
        push_records(
            text,
            &mut self.draft,
            &self.columns,
            &self.fields,
            selection,
            self.at_once,
        )
    }

    /// Removes the rows that were gathered.
    pub(crate) fn clear(&mut self)
        ensures rows { HaveRows [] self.new.columns }
        ensures names { (items : List Item) → IsListing self.old items → IsListing self.new items }
    {
        self.columns.clear();
    }

    /// Gathers a row, after the `lane` rows that were gathered.
    pub(crate) fn put_row(&mut self, lane: usize, row: &Row)
        requires { lane < 512 }
        ensures rows { (rows : List (List Value)) → length rows ≡ lane
            → HaveRows rows self.old.columns
            → HaveRows (rows ++ values_of row.now ∷ []) self.new.columns }
        ensures names { (items : List Item) → IsListing self.old items → IsListing self.new items }
    {
        self.columns.put_row(lane, row);
    }
}

/// Returns the place of the column of each item that is one. Columns that aren't there are added.
fn fields_of(alloc: Global, items: &[Item], columns: &mut Columns) -> Result<Vec<usize>, Fault>
    ensures places { IfOk result (λ fields.
        AreAt (numbers_of columns.new) (columns_of items.now) fields.items) }
    ensures only_oom { IsOkUnless result no_memory }
{
    let mut fields = Vec::new(alloc);
    for item in items {
        if let Item::Plain(column) = item {
            fields.push(columns.place_of(*column)?)?;
        }
    }
    Ok(fields)
}

/// Returns how many rows' records, of this many fields, are written at once.
fn rows_at_once(columns: usize) -> usize
    ensures { (1 ≤ result) × (result ≤ 512) }
{
    (DRAFT / FIELD / columns.max(1)).max(1).min(LANES)
}

/// Returns space for the records of this many columns in this many rows.
fn room_for(alloc: Global, columns: usize, rows: usize) -> Result<Vec<u8>, Fault>
    requires { rows ≤ 512 }
    ensures capacity { IfOk result (λ room. 21 * columns * rows ≤ vec_len room) }
    ensures only_oom { IsOkUnless result no_memory }
{
    let Some(size) = (FIELD * rows).checked_mul(columns) else {
        return Err(Fault::new(code::OUT_OF_MEMORY));
    };
    let mut room = Vec::new(alloc);
    room.resize(size, 0)?;
    Ok(room)
}

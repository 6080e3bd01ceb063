//! Which rows and which fields of a text are encoded.
ghost use Rattle.std.specs.Prelude.{◌≡◌, nat_lt};
ghost use Rattle.std.specs.List.{list_all};
ghost use Rattle.bw_encode.specs.Selection.{are_there, count_in, is_past, has_length, place_at};

/// The rows and the fields of a CSV text that are encoded.
#[derive(Clone, Copy)]
pub struct Selection<'a> {
    /// How many rows are read, if not all.
    pub rows: Option<u32>,
    /// The fields of each record, from 0, that are the columns, if not all in their order.
    pub columns: Option<&'a [u32]>,
    /// Whether empty fields are added to a record that has fewer than the heading.
    pub is_filled: bool,
}

impl Selection<'_> {
    /// Returns how many columns there are, if the heading has `width` fields.
    pub(crate) fn count(self, width: usize) -> usize
        ensures { result ≡ count_in self.entry.columns width }
    {
        match self.columns {
            Some(places) => places.len(),
            None => width,
        }
    }

    /// Returns whether each column is one of the heading's `width` fields.
    pub(crate) fn are_there(self, width: usize) -> bool
        ensures { result ≡ are_there self.entry.columns width }
    {
        match self.columns {
            Some(places) => are_below(places, width),
            None => true,
        }
    }

    /// Returns which field of a record a column has.
    pub(crate) fn place(self, column: usize) -> usize
        ensures { result ≡ place_at self.entry.columns column }
    {
        match self.columns {
            Some(places) => places.get(column).copied().unwrap_or(0) as usize,
            None => column,
        }
    }

    /// Returns whether the row of this number, from 1, isn't read.
    pub(crate) fn is_past(self, number: u32) -> bool
        ensures { result ≡ is_past self.entry.rows number }
    {
        match self.rows {
            Some(rows) => number > rows,
            None => false,
        }
    }

    /// Returns whether a record may have `len` fields, if the heading has `width`.
    pub(crate) fn has_length(self, len: usize, width: usize) -> bool
        ensures { result ≡ has_length self.entry.is_filled len width }
    {
        if self.is_filled {
            len <= width
        } else {
            len == width
        }
    }
}

/// Returns whether each of some places is below a width.
fn are_below(places: &[u32], width: usize) -> bool
    ensures { result ≡ list_all (λ place. nat_lt place width) places.now }
{
    places.iter().all(|place| (*place as usize) < width)
}

//! A table's schema, with what each segment looks up in it.
ghost use Rattle.std.specs.Prelude.{All, ◌≡◌, ◌<◌, ◌≤◌, length, map};
ghost use Rattle.std.specs.List.{range_with_len};
ghost use Rattle.bw_model.specs.Code.{width_at};

use bw_model::Schema;

/// A schema, the widths of its columns' codes, and where the columns' blocks begin in a segment of
/// one layout. It is made once by [`Placement::of`], and all segments of a table share it by an
/// `Rc`. Only calls of that layout's segments may use the places of blocks.
#[derive(Drop)]
pub struct Placement {
    pub schema: Schema,
    /// The first byte of each column's block, then the number of bytes.
    pub starts: Vec<u32>,
    /// How many binary digits each column's codes have.
    pub(crate) widths: Vec<u32>,
    ghost same_width: { widths.items
        ≡ map (width_at schema.columns.items) (range_with_len 0 (length schema.columns.items)) },
    ghost bounded: { All (λ width. (1 ≤ width) × (width ≤ 63)) widths.items },
}

impl Placement {
    /// Returns how many binary digits a column's codes have, as the schema does, which computes it
    /// anew each time.
    #[inline(always)]
    pub(crate) fn width(&self, col: usize) -> u32
        requires { col < length self.now.schema.columns.items }
        ensures width { result ≡ width_at self.now.schema.columns.items col }
        ensures bounds { (1 ≤ result) × (result ≤ 63) }
    {
        self.widths[col]
    }
}

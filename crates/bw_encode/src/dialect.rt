//! How a text is cut into records and fields.

/// The marks of a CSV text.
#[derive(Clone, Copy)]
pub struct Dialect {
    /// The byte between two fields.
    pub separator: u8,
    /// The byte before and after a quoted field; two of them within one stand for one.
    pub quote: u8,
    /// The byte before a byte of a quoted field that stands for itself, if there is one.
    pub escape: Option<u8>,
    /// The first byte of a line that isn't a record, if there is one.
    pub comment: Option<u8>,
    /// Whether text may follow a closing quotation mark, and a quotation mark may be open at the
    /// text's end.
    pub is_lenient: bool,
}

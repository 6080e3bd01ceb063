//! A CSV text encoded: every column as numbers, or as codes for the texts of its fields.
//!
//! The contract that the crates above use is that of [`encode_text`]. It reads a CSV text of any
//! dialect, with any heading, and writes two texts. The second is a table of columns c1, c2, ..: a
//! column whose fields are all empty or whole numbers, as they are printed, has these numbers; any
//! other column has codes, the places of its fields in the list of its distinct fields in the order
//! of bytes. The first text has these lists, with how often each field occurs. A [`TableMaker`]
//! makes the table's bytes, so this crate doesn't depend on a file's format.
//!
//! Read `specs/Encode.antt` for what the call does, `specs/Selection.antt` and `specs/Rows.antt` for
//! the rows of a text and its first error, `specs/Rest.antt` for where a limit of rows stops,
//! `specs/Column.antt` and `specs/Dictionary.antt` for what encodes a column,
//! `specs/FieldsText.antt` and `specs/Table.antt` for what is written; then `encode_call.rt` and
//! `coded_table.rt`. [`TextColumns`] and [`CodedTable`] are the steps of the call.
#![tactic(auto)]

mod coded;
mod coded_table;
mod column_fields;
mod columns;
mod cut;
mod dialect;
mod dictionary;
mod encode_call;
mod field_set;
mod fields;
mod fields_text;
mod laws;
mod number;
mod place;
mod ranked;
mod record_fields;
mod records;
mod seen;
mod selection;
mod table;
mod table_maker;

pub use coded_table::{CodedTable, TextColumns};
pub use dialect::Dialect;
pub use encode_call::encode_text;
pub use laws::{a_column_has_one_encoding, a_text_goes_on_at_its_rest, codes_compare_as_fields};
pub use selection::Selection;
pub use table_maker::TableMaker;

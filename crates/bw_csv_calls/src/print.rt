//! A schema's text.
ghost use Rattle.std.specs.Prelude.{◌≡◌, ◌++◌, ◌≤◌, ℕ, List, IfOk, IsOkUnless, OnOk, length};
ghost use Rattle.bw_model.specs.Fault.{no_memory};
ghost use Rattle.bw_model.specs.SchemaText.{column_shape, schema_shape, IsSchemaText};
ghost use Rattle.bw_csv_calls.specs.PrintedSchema.{AreComments, column_line, most_comments};
ghost use Rattle.bw_csv_calls.specs.PrintedSchema.{schema_text, table_line};
ghost use Rattle.bw_text.specs.Printing.{line_text};

use bw_model::{Column, Fault, Name, Schema};
use bw_text::{PrintedWord, push_line};
use std::alloc::{AllocError, Global};

/// Returns the text of a schema: `TABLE` and its name, then for each column a line of `COLUMN`, its
/// name and its bounds, with `NOT NULL` if it isn't nullable. Words are one blank apart, names have
/// the schema's spelling, and each line ends with a line feed. The text spells the schema, also if
/// comment lines follow. Errors: 801 if memory is refused.
pub fn print_schema(alloc: Global, schema: &Schema) -> Result<Vec<u8>, Fault>
    ensures text { IfOk result (λ text. text.items ≡ schema_text (schema_shape schema.now)) }
    ensures spelled { IfOk result (λ text. IsSchemaText text.items (schema_shape schema.now)) }
    ensures commented { IfOk result (λ text. (comments : List ℕ) → AreComments comments
        → length comments ≤ most_comments
        → IsSchemaText (text.items ++ comments) (schema_shape schema.now)) }
    ensures only_oom { IsOkUnless result no_memory }
{
    schema.has_names_and_bounds();
    let mut text = Vec::new(alloc);
    put_table(alloc, &schema.name, &mut text)?;
    for column in &schema.columns {
        put_column(alloc, column, &mut text)?;
    }
    Ok(text)
}

/// Appends the line of a table.
fn put_table(alloc: Global, name: &Name, text: &mut Vec<u8>) -> Result<(), AllocError>
    ensures { OnOk result (text.new.items ≡ text.old.items ++ line_text (table_line name.now)) }
{
    let words = [
        PrintedWord::Word(b"TABLE"),
        PrintedWord::Word(name.as_bytes()),
    ];
    push_line(alloc, &words, text)
}

/// Appends the line of a column.
fn put_column(alloc: Global, column: &Column, text: &mut Vec<u8>) -> Result<(), AllocError>
    ensures { OnOk result (text.new.items ≡ text.old.items
        ++ line_text (column_line (column_shape column.now))) }
{
    use PrintedWord::{Signed, Word};
    let (name, lo, hi) = (column.name.as_bytes(), Signed(column.lo), Signed(column.hi));
    if column.nullable {
        let words = [Word(b"COLUMN"), Word(name), lo, hi];
        push_line(alloc, &words, text)
    } else {
        let words = [
            Word(b"COLUMN"),
            Word(name),
            lo,
            hi,
            Word(b"NOT"),
            Word(b"NULL"),
        ];
        push_line(alloc, &words, text)
    }
}

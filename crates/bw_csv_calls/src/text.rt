//! The text of a header.
ghost use Rattle.std.specs.Prelude.{◌≡◌, ◌++◌, IfOk, IsOkUnless, OnOk};
ghost use Rattle.bw_model.specs.Fault.{no_memory};
ghost use Rattle.bw_model.specs.SchemaText.{IsSchemaText, schema_shape};
ghost use Rattle.bw_csv_calls.specs.Info.{comment, info_text, layout_word};
ghost use Rattle.bw_text.specs.Printing.{printed_text};

use crate::print::print_schema;
use bw_file::Layout;
use bw_model::{Fault, Schema};
use bw_text::{PrintedWord, push_line};
use std::alloc::{AllocError, Global};

/// The numbers of a header, and the number of bytes of its file.
#[derive(Clone, Copy)]
pub(crate) struct Facts {
    pub(crate) version: u8,
    pub(crate) layout: Layout,
    pub(crate) rows: u32,
    pub(crate) size: u64,
}

/// Returns the text of a header.
pub(crate) fn info_text(alloc: Global, schema: &Schema, facts: Facts) -> Result<Vec<u8>, Fault>
    ensures text { IfOk result (λ text. text.items
        ≡ info_text facts.version facts.layout schema.now facts.rows facts.size) }
    ensures spelled { IfOk result
        (λ text. IsSchemaText text.items (schema_shape schema.now)) }
    ensures only_oom { IsOkUnless result no_memory }
{
    use PrintedWord::{Number, Word};
    let rows = u64::from(facts.rows);
    let segments = (rows + 511) / 512;
    let version = u64::from(facts.version);
    let mut text = print_schema(alloc, schema)?;
    put_fact(alloc, b"rows", Number(rows), &mut text)?;
    put_fact(alloc, b"segments", Number(segments), &mut text)?;
    put_fact(alloc, b"layout", Word(layout_word(facts.layout)), &mut text)?;
    put_fact(alloc, b"version", Number(version), &mut text)?;
    put_fact(alloc, b"bytes", Number(facts.size), &mut text)?;
    Ok(text)
}

fn layout_word(layout: Layout) -> &'static [u8]
    ensures { result.now ≡ layout_word layout }
{
    match layout {
        Layout::Planes => b"planes",
        Layout::Slices => b"slices",
    }
}

/// Appends a comment line of a word and a value.
fn put_fact<'a>(
    alloc: Global,
    word: &'a [u8],
    value: PrintedWord<'a>,
    text: &mut Vec<u8>,
) -> Result<(), AllocError>
    ensures { OnOk result (text.new.items ≡ text.old.items
        ++ comment word.now (printed_text value.entry)) }
{
    push_line(
        alloc,
        &[PrintedWord::Word(b"#"), PrintedWord::Word(word), value],
        text,
    )
}

//! Records whose fields are parts of their text.
ghost use Rattle.std.specs.Prelude.{◌≡◌, ◌<◌, ◌∷◌, false, IfOk, IfSome, length};
ghost use Rattle.csv.specs.declared.parser.State.TheVariants.{StartRecord};
ghost use Rattle.bw_encode.specs.Cut.{IsCut, starts_record, starts_with};
ghost use Rattle.bw_encode.specs.Fields.{texts_under};
ghost use Rattle.bw_encode.specs.Records.{IsReadAs};

use crate::dialect::Dialect;
use crate::place::{is_byte, joins_bare, place_after};
use crate::records::{After, bare_length, quoted_length, skip_bytes};
use std::alloc::AllocError;

/// A field that is a part of a text, the byte that ends it, and the text after that.
#[derive(Clone, Copy)]
pub(crate) struct Cut<'a> {
    pub(crate) field: &'a [u8],
    pub(crate) end: u8,
    pub(crate) rest: &'a [u8],
}

/// Reads the next record of a text, into `parts`, and returns what follows it, if each of its fields
/// is a part of the text and the last one ends with its line. Fails only if memory is refused.
pub(crate) fn cut_record<'a>(
    dialect: Dialect,
    text: &'a [u8],
    parts: &mut Vec<&'a [u8]>,
) -> Result<Option<After<'a>>, AllocError>
    ensures { IfOk result (λ found. IfSome found (λ after.
        IsReadAs dialect StartRecord text.now (texts_under parts.new.items) after)) }
{
    parts.clear();
    if !starts_record(dialect, text) {
        return Ok(None);
    }
    let mut rest = text;
    'fields: while let Some(cut) = cut_field(dialect, rest) {
        parts.push(cut.field)?;
        rest = cut.rest;
        if cut.end != dialect.separator {
            return Ok(Some(After {
                text: rest,
                place: place_after(cut.end),
                is_loose: false,
            }));
        }
    }
    Ok(None)
}

/// Returns whether a text starts with a byte of a record: there is one, and it neither ends a line nor
/// starts a comment.
fn starts_record(dialect: Dialect, text: &[u8]) -> bool
    ensures { result ≡ starts_record dialect text.now }
{
    match text {
        [c, ..] => !(*c == b'\r' || *c == b'\n' || is_byte(dialect.comment, *c)),
        _ => false,
    }
}

/// Returns the field at the start of a text, if it is a part of the text and a byte ends it.
fn cut_field<'a>(dialect: Dialect, text: &'a [u8]) -> Option<Cut<'a>>
    ensures cut { IfSome result (IsCut dialect text.now) }
    ensures shorter { IfSome result (λ cut. length cut.rest.now < length text.now) }
{
    match text {
        [c, inner @ ..] if *c == dialect.quote => cut_quoted(dialect, inner),
        _ => cut_bare(dialect, text),
    }
}

/// Returns the same of a text that starts with no quotation mark.
fn cut_bare<'a>(dialect: Dialect, text: &'a [u8]) -> Option<Cut<'a>>
    requires { starts_with text.now dialect.quote ≡ false }
    ensures cut { IfSome result (IsCut dialect text.now) }
    ensures shorter { IfSome result (λ cut. length cut.rest.now < length text.now) }
{
    let count = bare_length(dialect.separator, text);
    if count >= text.len() {
        return None;
    }
    Some(Cut {
        field: &text[..count],
        end: text[count],
        rest: skip_bytes(text, count + 1),
    })
}

/// Returns the same of a text that starts with a quotation mark, before an inner text.
fn cut_quoted<'a>(dialect: Dialect, inner: &'a [u8]) -> Option<Cut<'a>>
    ensures cut { IfSome result (IsCut dialect (dialect.quote ∷ inner.now)) }
    ensures shorter { IfSome result (λ cut. length cut.rest.now < length inner.now) }
{
    let count = quoted_length(dialect, inner);
    if inner.len() < count + 2 || inner[count] != dialect.quote {
        return None;
    }
    let end = inner[count + 1];
    if end == dialect.quote || joins_bare(dialect.separator, end) {
        return None;
    }
    Some(Cut {
        field: &inner[..count],
        end,
        rest: skip_bytes(inner, count + 2),
    })
}

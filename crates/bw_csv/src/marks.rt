//! The bytes that end unquoted fields and lines.
ghost use Rattle.std.specs.Prelude.{◌≡◌, ◌≤◌, length, drop};
ghost use Rattle.bw_csv.specs.Plain.{ends_field, ends_line, is_field_end, is_line_end, is_plain};

/// Returns a text without its first `count` bytes.
#[inline(always)]
pub(crate) fn skip_bytes(text: &[u8], count: usize) -> &[u8]
    requires { count ≤ length text.now }
    ensures { result.now ≡ drop count text.now }
{
    &text[count..]
}

/// Returns whether a field ends here.
#[inline(always)]
pub(crate) fn is_field_end(text: &[u8]) -> bool
    ensures { result ≡ is_field_end text.now }
{
    text.is_empty() || ends_field(text[0])
}

/// Returns whether a line ends here.
#[inline(always)]
pub(crate) fn is_line_end(text: &[u8]) -> bool
    ensures { result ≡ is_line_end text.now }
{
    text.is_empty() || ends_line(text[0])
}

/// Returns whether an unquoted byte ends a line.
#[inline(always)]
pub(crate) fn ends_line(c: u8) -> bool
    ensures { result ≡ ends_line c }
{
    c == b'\r' || c == b'\n'
}

/// Returns whether an unquoted byte ends a field.
#[inline(always)]
fn ends_field(c: u8) -> bool
    ensures { result ≡ ends_field c }
{
    c == b',' || ends_line(c)
}

/// Returns whether a byte is part of a plain field.
pub(crate) fn is_plain(c: u8) -> bool
    ensures { result ≡ is_plain c }
{
    !(ends_field(c) || c == b'"')
}

//! The lines of an explanation, and how names and bytes of a file are shown in them.
use std::alloc::{AllocError, Global};
use std::fmt::{self, Display, Write};

/// At most so many bytes of a field are shown.
const MOST: usize = 40;

/// Appends values to a [`Text`], one after another.
macro_rules! put {
    ($text:expr; $($part:expr),+) => {{ $($text.put($part);)+ }};
}

pub(crate) use put;

/// The lines of an explanation. It records a refusal of memory, so that no call that appends
/// returns one.
#[derive(Drop)]
pub(crate) struct Text {
    pub(crate) alloc: Global,
    lines: String,
    refused: Result<(), AllocError>,
}

impl Text {
    /// Returns a text without lines.
    pub(crate) fn new(alloc: Global) -> Self {
        Text {
            alloc,
            lines: String::new(alloc),
            refused: Ok(()),
        }
    }

    /// Appends a value.
    pub(crate) fn put<D: Display + Drop>(&mut self, part: D) {
        if let Err(error) = write!(self.lines, "{part}") {
            self.refused = Err(error);
        }
    }

    /// Returns the lines, unless memory was refused for one of them.
    pub(crate) fn finish(self) -> Result<String, AllocError> {
        self.refused?;
        Ok(self.lines)
    }
}

/// Bytes in quotation marks, cut after the first 40. Anything but a visible character is escaped.
#[derive(Clone, Copy)]
pub(crate) struct Shown<'a>(pub(crate) &'a [u8]);

impl Display for Shown<'_> {
    fn fmt<W: fmt::Write>(&self, f: &mut fmt::Formatter<W>) -> fmt::Result {
        let part = first_bytes(self.0);
        f.write_char('"')?;
        match std::str::from_utf8(part) {
            Ok(text) => show_text(text, f)?,
            Err(_) => part.escape_ascii().fmt(f)?,
        }
        let is_cut = part.len() < self.0.len();
        f.write_str(if is_cut { "...\"" } else { "\"" })
    }
}

/// Returns at most the first 40 bytes, without a part of a UTF-8 character.
fn first_bytes(bytes: &[u8]) -> &[u8] {
    for end in (0..=MOST).rev() {
        match bytes.get(end) {
            None => return bytes,
            Some(byte) if byte & 0xc0 != 0x80 => return &bytes[..end],
            Some(_) => {}
        }
    }
    &[]
}

/// Shows each character of a text, escaped as Rust does, but apostrophes as they are.
fn show_text<W: fmt::Write>(text: &str, f: &mut fmt::Formatter<W>) -> fmt::Result {
    for character in text.chars() {
        match character {
            '\'' => f.write_char('\'')?,
            _ => character.escape_debug().fmt(f)?,
        }
    }
    Ok(())
}

/// Returns a name as text.
pub(crate) fn name_text(name: &[u8]) -> &str {
    std::str::from_utf8(name).unwrap_or("?")
}

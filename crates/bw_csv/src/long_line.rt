//! Whether a text has a line so long that its record's fields are counted before they are read.
use crate::marks::ends_line;

/// The records of lines up to twice this many bytes are read without counting their fields first,
/// since these take little memory.
const LONG: usize = 32_768;

/// Returns true only if a line of the text is longer than `LONG` bytes, and always if one is longer
/// than twice that. Reads few bytes of a text of short lines.
pub(crate) fn has_long_line(text: &[u8]) -> bool {
    for part in text.chunks_exact(LONG) {
        if !has_line_end(part) {
            return true;
        }
    }
    false
}

/// Returns whether a line ends in this part of a text. The search begins at the part's end.
fn has_line_end(part: &[u8]) -> bool {
    for i in 0..part.len() {
        if ends_line(part[part.len() - 1 - i]) {
            return true;
        }
    }
    false
}

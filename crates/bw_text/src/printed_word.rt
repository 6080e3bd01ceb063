//! Lines of words, written.
ghost use Rattle.std.specs.Prelude.{◌≡◌, ◌++◌, OnOk, map};
ghost use Rattle.std.specs.Fmt.{decimal};
ghost use Rattle.bw_text.specs.Printing.{line_text, printed_text, spaced_words};

use std::alloc::{AllocError, Global};

/// One word of a line to write: a text as it is, a number in decimal, or a register, as `r7`.
#[derive(Clone, Copy)]
pub enum PrintedWord<'a> {
    Word(&'a [u8]),
    Number(u64),
    Signed(i64),
    Register(u8),
}

/// Appends a line to a text: its words, one blank apart, and a line feed. Fails only if memory is
/// refused; a part of the line may have been appended then.
pub fn push_line(
    alloc: Global,
    words: &[PrintedWord<'_>],
    text: &mut Vec<u8>,
) -> Result<(), AllocError>
    ensures { OnOk result (text.new.items ≡ text.old.items
        ++ line_text (map printed_text words.now)) }
{
    if let Some((first, more)) = words.split_first() {
        push_word(alloc, *first, text)?;
        push_spaced(alloc, more, text)?;
    }
    text.push(b'\n')?;
    Ok(())
}

/// Appends more words of a line, each after a blank. Fails only if memory is refused; a part of
/// them may have been appended then.
pub fn push_spaced(
    alloc: Global,
    words: &[PrintedWord<'_>],
    text: &mut Vec<u8>,
) -> Result<(), AllocError>
    ensures { OnOk result
        (text.new.items ≡ text.old.items ++ spaced_words (map printed_text words.now)) }
{
    for word in words {
        text.push(b' ')?;
        push_word(alloc, *word, text)?;
    }
    Ok(())
}

/// Appends a word.
fn push_word(alloc: Global, word: PrintedWord<'_>, text: &mut Vec<u8>) -> Result<(), AllocError>
    ensures { OnOk result (text.new.items ≡ text.old.items ++ printed_text word.entry) }
{
    match word {
        PrintedWord::Word(bytes) => text.extend_from_slice(bytes),
        PrintedWord::Number(number) => push_number(alloc, number, text),
        PrintedWord::Signed(number) => {
            let digits = number.to_string(alloc)?;
            text.extend_from_slice(digits.as_bytes())
        }
        PrintedWord::Register(register) => {
            text.push(b'r')?;
            push_number(alloc, register as u64, text)
        }
    }
}

/// Appends a number's decimal digits.
fn push_number(alloc: Global, number: u64, text: &mut Vec<u8>) -> Result<(), AllocError>
    ensures { OnOk result (text.new.items ≡ text.old.items ++ decimal number) }
{
    let digits = number.to_string(alloc)?;
    text.extend_from_slice(digits.as_bytes())
}

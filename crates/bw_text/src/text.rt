//! Texts compared ignoring case, and the words of which names consist.
ghost use Rattle.std.specs.Prelude.{◌≡◌};
ghost use Rattle.std.specs.List.{list_all};
ghost use Rattle.bw_text.specs.Text.{same_text, is_word, begins_word, goes_on_in_word};

/// Returns whether two texts are the same, ignoring the case of ASCII letters.
pub fn is_same_text(a: &[u8], b: &[u8]) -> bool
    ensures { result ≡ same_text a.now b.now }
{
    a.eq_ignore_ascii_case(b)
}

/// Returns whether a text is a letter or `_`, followed by letters, digits and `_`.
pub fn is_word(text: &[u8]) -> bool
    ensures { result ≡ is_word text.now }
{
    match text.split_first() {
        None => false,
        Some((first, rest)) => begins_word(*first) && goes_on(rest),
    }
}

/// Returns whether a byte can be the first of a word: a letter or `_`.
pub fn begins_word(c: u8) -> bool
    ensures { result ≡ begins_word c }
{
    c.is_ascii_alphabetic() || c == b'_'
}

/// Returns whether a byte can be a later one of a word: a letter, a digit or `_`.
pub fn goes_on_in_word(c: u8) -> bool
    ensures { result ≡ goes_on_in_word c }
{
    c.is_ascii_alphanumeric() || c == b'_'
}

fn goes_on(rest: &[u8]) -> bool
    ensures { result ≡ list_all goes_on_in_word rest.now }
{
    rest.iter().all(|c| goes_on_in_word(*c))
}

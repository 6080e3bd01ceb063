//! Names of tables and columns.
ghost use Rattle.std.specs.Prelude.{◌≡◌, false, IfErr, IfOk, IsTrue};
ghost use Rattle.bw_model.specs.Name.{is_name};
ghost use Rattle.bw_text.specs.Text.{same_text};

use bw_text::{Keyword, is_same_text, is_word};
use std::alloc::{AllocError, Global};
use std::marker::Model;

/// The name of a table or a column, as it was spelled: a letter or `_`, followed by letters, digits
/// and `_`, at most 63 bytes. It is no reserved word of the query language.
#[derive(Drop)]
pub struct Name {
    bytes: Vec<u8>,
}

impl Model for Name {
    ghost use Rattle.std.specs.Prelude.{List, ℕ, IsTrue};
    ghost use Rattle.bw_model.specs.Name.{is_name};

    ghost Value = { List ℕ };

    ghost view = { λ name. name.bytes.items };

    ghost invariant = { λ name. IsTrue (is_name name.bytes.items) };
}

impl Name {
    /// Returns the name spelled so. Fails only if memory is refused.
    pub fn new(alloc: Global, bytes: &[u8]) -> Result<Self, AllocError>
        requires { IsTrue (is_name bytes.now) }
        ensures { IfOk result (λ name. name ≡ bytes.now) }
    {
        Ok(Name {
            bytes: Vec::from_slice(alloc, bytes)?,
        })
    }

    /// Returns the name spelled so, in the same memory, or the bytes themselves if they aren't a
    /// valid name. Allocates no memory.
    pub fn from_bytes(bytes: Vec<u8>) -> Result<Self, Vec<u8>>
        ensures name { IfOk result (λ name. (name ≡ bytes.items) × IsTrue (is_name bytes.items)) }
        ensures no_name { IfErr result (λ back. (back.items ≡ bytes.items)
            × (is_name bytes.items ≡ false)) }
    {
        if is_name(&bytes) {
            Ok(Name { bytes })
        } else {
            Err(bytes)
        }
    }

    /// Returns its spelling, in the same memory.
    pub fn into_bytes(self) -> Vec<u8>
        ensures spelling { result.items ≡ self }
        ensures name { IsTrue (is_name result.items) }
    {
        self.bytes
    }

    /// Returns its spelling.
    pub fn as_bytes(&self) -> &[u8]
        ensures spelling { result.now ≡ self.now }
        ensures name { IsTrue (is_name result.now) }
    {
        self.bytes.as_slice()
    }

    /// Returns whether the text is this name, ignoring the case of ASCII letters.
    pub fn is(&self, text: &[u8]) -> bool
        ensures { result ≡ same_text self.now text.now }
    {
        is_same_text(self.as_bytes(), text)
    }
}

/// Returns whether the text is a valid name: a word of at most 63 bytes that isn't reserved.
#[tactic(auto, unfolding(crate::specs::Name::is_name))]
pub fn is_name(text: &[u8]) -> bool
    ensures { result ≡ is_name text.now }
{
    is_word(text) && text.len() <= 63 && Keyword::of(text).is_none()
}

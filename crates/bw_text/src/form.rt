//! The words for the comparison of a chain, in a certificate text.
ghost use Rattle.std.specs.Prelude.{◌≡◌, Some};
ghost use Rattle.bw_text.specs.Form.{form_spelling, form_of};

use crate::text::is_same_text;

/// The comparison of a chain, and its operands: a column and a number, or two columns.
#[derive(Clone, Copy)]
pub enum Form {
    Less,
    Equal,
    LessTwo,
    EqualTwo,
}

/// All forms of a chain.
const FORMS: [Form; 4] = [Form::Less, Form::Equal, Form::LessTwo, Form::EqualTwo];

impl Form {
    /// Returns its word in capitals.
    pub fn spelling(self) -> &'static [u8]
        ensures { result.now ≡ form_spelling self }
    {
        match self {
            Form::Less => b"LT",
            Form::Equal => b"EQ",
            Form::LessTwo => b"LT2",
            Form::EqualTwo => b"EQ2",
        }
    }

    /// Returns the form that a word spells, ignoring case.
    #[tactic(auto, unfolding(crate::specs::Form::form_of))]
    pub fn of(word: &[u8]) -> Option<Form>
        ensures { result ≡ form_of word.now }
    {
        FORMS
            .iter()
            .copied()
            .find(|form| is_same_text(form.spelling(), word))
    }

    /// A law: each form is the one that its word spells.
    pub fn is_of_its_spelling(self)
        ensures { form_of (form_spelling self) ≡ Some self }
    {}
}

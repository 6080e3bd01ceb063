//! The forms of the lines after the product rows, without their numbers.
ghost use Rattle.std.specs.Prelude.{◌≡◌, ◌<◌};

/// The form of a line. If a number may be `-`, a flag states whether there is one.
#[derive(Clone, Copy)]
pub(crate) enum StoredForm {
    Compare {
        chain: bool,
        value: bool,
    },
    CompareColumns {
        chain: bool,
        left: bool,
        right: bool,
    },
    Fixed,
    NullTest,
    And,
    Or,
    Not,
    Is,
    IsUnknown,
    Load,
    Fill,
    Op,
    Byte {
        chain: bool,
    },
    Skip,
    Join,
    Keep(KeptRegister),
}

/// The register of a line KEEP.
#[derive(Clone, Copy)]
pub(crate) struct KeptRegister {
    pub(crate) register: u8,
    pub ghost in_range: { register < 64 },
}

impl StoredForm {
    ghost use Rattle.bw_cert_text.specs.StoredLines.{size};

    /// Returns how many numbers such a line has, the first of which is the line's own.
    pub(crate) fn size(self) -> usize
        ensures { result ≡ size self }
    {
        match self {
            StoredForm::Fixed | StoredForm::Not | StoredForm::Fill | StoredForm::Skip => 1,
            StoredForm::NullTest
            | StoredForm::Is
            | StoredForm::Load
            | StoredForm::Op
            | StoredForm::Byte { .. }
            | StoredForm::Join => 2,
            StoredForm::And | StoredForm::Or | StoredForm::IsUnknown => 3,
            StoredForm::Keep(_) => 4,
            StoredForm::Compare { .. } => 5,
            StoredForm::CompareColumns { .. } => 7,
        }
    }
}

//! The state of a statement while its bytes are read.
ghost use Rattle.std.specs.Prelude.{◌≡◌};
ghost use Rattle.bw_session.specs.StatementState.{after, is_ended};

/// The state of a statement after the bytes that were read so far.
#[derive(Clone, Copy)]
pub(crate) enum StatementState {
    /// In a line that has only spaces and tabs so far.
    Blank,
    Text,
    /// After a dash, which may begin a comment.
    Dash,
    Comment,
    /// It ended with the last byte.
    Ended,
}

impl StatementState {
    /// Returns the state after one more byte.
    pub(crate) fn after(self, byte: u8) -> Self
        ensures { result ≡ after self byte }
    {
        match (self, byte) {
            (StatementState::Ended, _) => StatementState::Ended,
            (StatementState::Comment, b'\n') => StatementState::Blank,
            (StatementState::Comment, _) => StatementState::Comment,
            (StatementState::Blank, b'\n') => StatementState::Ended,
            (StatementState::Blank, b' ' | b'\t' | b'\r') => StatementState::Blank,
            (StatementState::Dash, b'-') => StatementState::Comment,
            (_, b'\n') => StatementState::Blank,
            (_, b';') => StatementState::Ended,
            (_, b'-') => StatementState::Dash,
            _ => StatementState::Text,
        }
    }
    /// Returns whether the statement has ended.
    pub(crate) fn is_ended(self) -> bool
        ensures { result ≡ is_ended self }
    {
        matches!(self, StatementState::Ended)
    }
}

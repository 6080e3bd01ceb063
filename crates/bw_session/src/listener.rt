//! Reports what a session does.
ghost use Rattle.std.specs.Prelude.{[], ◌∷◌, List, Option};
ghost use Rattle.bw_session.specs.Note.{Hears, Note, answered, rejected, settled};

use bw_model::Fault;
use bw_report::Served;

/// Receives what a session does, beside what it writes. No result depends on it.
pub trait Listener {
    /// What it was told of statements, if it states it.
    ghost told: { Self → Option (List Note) };

    /// The session waits for a statement, of which nothing was read.
    fn wait(&mut self)
        ensures { Hears (told self.old) (told self.new) [] };

    /// A statement was run, and this is how it was served.
    fn note_answer(&mut self, served: &Served)
        ensures { Hears (told self.old) (told self.new) (answered served.now ∷ []) };

    /// This many segments weren't scanned for the statement that was run, since the ranges of their
    /// values settle how many of their rows match. It isn't called if there are none.
    fn note_settled(&mut self, segments: u32)
        ensures { Hears (told self.old) (told self.new) (settled segments ∷ []) };

    /// A statement was rejected.
    fn note_refusal(&mut self, statement: &[u8], fault: &Fault)
        ensures { Hears (told self.old) (told self.new) (rejected statement.now fault.now ∷ []) };
}

//! The reader beneath a source. Nothing here can read it but the call that is handed in.

ghost use Rattle.std.specs.Prelude.{◌≡◌, ◌++◌, [], ◌∷◌};
ghost use Rattle.rip_log.specs.Asked.{GivesAtMost, IsRead};
ghost use Rattle.rip_log.specs.Outcomes.{outcome_of};

use crate::device::Failed;
use crate::history::History;
use std::io;

/// A reader, and the history of its reads.
#[derive(Drop)]
pub struct NotedReader<R> {
    reader: R,
    history: History,
}

impl<R> NotedReader<R> {
    /// A reader that was not asked yet.
    pub fn new(reader: R) -> NotedReader<R>
        ensures reader { result.reader ≡ reader }
        ensures history { result.history.outcomes ≡ [] }
    {
        NotedReader {
            reader,
            history: History::new(),
        }
    }

    /// The reader, as it stands.
    pub fn into_reader(self) -> R
        ensures { result ≡ self.reader }
    {
        self.reader
    }

    /// The history of its reads, over another reader that was not asked.
    pub fn over<S>(self, reader: S) -> NotedReader<S>
    where
        R: Drop,
        ensures reader { result.reader ≡ reader }
        ensures history { result.history.outcomes ≡ self.history.outcomes }
    {
        NotedReader {
            reader,
            history: self.history,
        }
    }

    /// Asks the reader once, by this call of it, and notes what came, or that it failed.
    pub fn ask<F: FnOnce(&mut R, &mut [u8]) -> io::Result<usize>>(
        &mut self,
        read: F,
        buffer: &mut [u8],
    ) -> Result<usize, Failed>
        requires callable { F.IsAlwaysCallable read }
        requires bound { GivesAtMost F.FnOnce read }
        ensures asked { IsRead F.FnOnce read self.old.reader self.new.reader
            buffer.old buffer.new result }
        ensures noted { self.new.history.outcomes
            ≡ self.old.history.outcomes ++ outcome_of result buffer.new ∷ [] }
    {
        match read(&mut self.reader, buffer) {
            Ok(count) => {
                self.history.note(&buffer[..count]);
                Ok(count)
            }
            Err(_) => {
                self.history.note_failure();
                Err(Failed)
            }
        }
    }
}

//! The writer beneath a sink. Nothing here can write to it but the call that is handed in.

ghost use Rattle.std.specs.Prelude.{◌≡◌, ◌++◌, [], ◌∷◌};
ghost use Rattle.rip_log.specs.Asked.{IsWritten, TakesAtMost};
ghost use Rattle.rip_log.specs.Outcomes.{outcome_of};

use crate::device::Failed;
use crate::history::History;
use std::io;

/// A writer, and the history of its writes.
#[derive(Drop)]
pub struct NotedWriter<W> {
    writer: W,
    history: History,
}

impl<W> NotedWriter<W> {
    /// A writer that was not asked yet.
    pub fn new(writer: W) -> NotedWriter<W>
        ensures writer { result.writer ≡ writer }
        ensures history { result.history.outcomes ≡ [] }
    {
        NotedWriter {
            writer,
            history: History::new(),
        }
    }

    /// The writer, as it stands.
    pub fn into_writer(self) -> W
        ensures { result ≡ self.writer }
    {
        self.writer
    }

    /// Asks the writer once, by this call of it, and notes what it took, or that it failed.
    pub fn ask<F: FnOnce(&mut W, &[u8]) -> io::Result<usize>>(
        &mut self,
        write: F,
        bytes: &[u8],
    ) -> Result<usize, Failed>
        requires callable { F.IsAlwaysCallable write }
        requires bound { TakesAtMost F.FnOnce write }
        ensures asked { IsWritten F.FnOnce write self.old.writer self.new.writer bytes.now result }
        ensures noted { self.new.history.outcomes
            ≡ self.old.history.outcomes ++ outcome_of result bytes.now ∷ [] }
    {
        match write(&mut self.writer, bytes) {
            Ok(count) => {
                self.history.note(&bytes[..count]);
                Ok(count)
            }
            Err(_) => {
                self.history.note_failure();
                Err(Failed)
            }
        }
    }
}

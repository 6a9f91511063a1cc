//! Devices that take bytes, and keep a mark of their failure.

ghost use Rattle.std.specs.Prelude.{◌≡◌, ◌<◌, [], Bool, false, length, true, IfOk, is_err};
ghost use Rattle.std.specs.Io.{WritesAtMost};
ghost use Rattle.rip_log.specs.Marks.{is_written};
ghost use Rattle.rip_log.specs.Taken.{Pushed, Taken};

use crate::device::Failed;
use crate::noted_writer::NotedWriter;
use std::io::Write;

/// A device that takes bytes. Once it has failed it takes no more, and what lies beneath it is left
/// alone.
pub trait Sink {
    // The bytes that it has taken, and the contents of what lies beneath it, where these are
    // modelled.
    ghost taken: { Self → Taken };

    // Whether it has failed.
    ghost broken: { Self → Bool };

    /// Gives bytes to the device, and answers how many of them it took, of a nonempty slice at
    /// least one. An error says that the device has failed, then or before.
    fn push(&mut self, bytes: &[u8]) -> Result<usize, Failed>
        ensures bound { WritesAtMost result bytes.now }
        // The bytes that it took follow those that it had taken, and what lay beneath. Where it
        // fails, it took none.
        ensures took { Pushed (taken self.old) (taken self.new) result bytes.now }
        ensures some { 0 < length bytes.now → IfOk result (λ n. 0 < n) }

        // An error comes exactly where the device has failed, then or before.
        ensures failed { is_err result ≡ broken self.new }
        ensures fails_on { broken self.old ≡ true → broken self.new ≡ true }

        // Once it has failed, a push changes nothing.
        ensures rests_failed { broken self.old ≡ true → self.new ≡ self.old };

    /// Whether the device has failed.
    fn failed(&self) -> bool
        ensures { result ≡ broken self.now };
}

/// A sink over a writer. Any error of the writer is a failure, an interruption too, and so is a
/// write that takes nothing. What each write came to is noted, for proofs alone.
#[derive(Drop)]
pub struct IntoWrite<W> {
    noted: NotedWriter<W>,
    failed: bool,
    ghost marked: { is_written failed noted.history.outcomes ≡ true },
}

impl<W: Write> IntoWrite<W> {
    ghost use Rattle.std.specs.Prelude.{[]};
    ghost use Rattle.rip_log.specs.Marks.{takes_none};
    ghost use Rattle.rip_log.specs.Outcomes.{AllMoved, EndIn};
    ghost use Rattle.rip_log.specs.Writers.{has_failed, writer_of, writes_of};

    /// A sink over a writer that was not asked yet.
    pub fn new(writer: W) -> IntoWrite<W>
        ensures writer { writer_of result ≡ writer }
        ensures writes { writes_of result ≡ [] }
        ensures unbroken { has_failed result ≡ false }
    {
        IntoWrite {
            noted: NotedWriter::new(writer),
            failed: false,
        }
    }

    /// What its writes came to: each took some bytes, but for the last one where the sink has
    /// failed, which failed or took none. Does nothing.
    pub fn lawful(&self)
        ensures open { has_failed self.now ≡ false → AllMoved (writes_of self.now) }
        ensures failed { has_failed self.now ≡ true → EndIn takes_none (writes_of self.now) }
    {
        let _ = &self.failed;
    }

    /// The writer, as it stands.
    pub fn into_writer(self) -> W
        ensures { result ≡ writer_of self }
    {
        self.noted.into_writer()
    }
}

impl<W: Write> NotedWriter<W> {
    ghost use Rattle.std.specs.Prelude.{◌++◌, ◌∷◌};
    ghost use Rattle.std.specs.Io.KnownBytes.{WriteAppends};
    ghost use Rattle.rip_log.specs.Outcomes.{outcome_of};

    /// Writes some bytes once, and notes what was taken, or that the write failed.
    fn write(&mut self, bytes: &[u8]) -> Result<usize, Failed>
        requires some { 0 < length bytes.now }
        ensures noted { self.new.history.outcomes
            ≡ self.old.history.outcomes ++ outcome_of result bytes.now ∷ [] }
        ensures bound { WritesAtMost result bytes.now }
        ensures bytes { WriteAppends (W.contents self.old.writer) (W.contents self.new.writer)
            result bytes.now }
    {
        self.ask(W::write, bytes)
    }
}

impl<W: Write> Sink for IntoWrite<W> {
    ghost use Rattle.rip_log.specs.Outcomes.{AtMostOnce};
    ghost use Rattle.rip_log.specs.Writers.{has_failed, taken_by, writes_of};

    ghost taken = { taken_by W.contents };

    ghost broken = { has_failed };

    fn push(&mut self, bytes: &[u8]) -> Result<usize, Failed>
        // It writes at most once.
        ensures once { AtMostOnce (writes_of self.old) (writes_of self.new) }

        // As every sink.
        ensures bound { WritesAtMost result bytes.now }
        ensures took { Pushed (taken_by W.contents self.old) (taken_by W.contents self.new) result
            bytes.now }
        ensures some { 0 < length bytes.now → IfOk result (λ n. 0 < n) }
        ensures failed { is_err result ≡ has_failed self.new }
        ensures fails_on { has_failed self.old ≡ true → has_failed self.new ≡ true }
        ensures rests_failed { has_failed self.old ≡ true → self.new ≡ self.old }
    {
        if self.failed {
            return Err(Failed);
        }
        if bytes.is_empty() {
            return Ok(0);
        }
        match self.noted.write(bytes) {
            Ok(count) if count > 0 => Ok(count),
            _ => {
                self.failed = true;
                Err(Failed)
            }
        }
    }

    fn failed(&self) -> bool {
        self.failed
    }
}

//! Devices that give bytes, and keep marks of their failure and of their end.

ghost use Rattle.std.specs.Prelude.{◌≡◌, ◌<◌, ◌↔◌, ℕ, List, Bool, true, false, Option, length, Ok, is_err};
ghost use Rattle.std.specs.Io.{ReadsAtMost};
ghost use Rattle.std.specs.Io.KnownBytes.{IsAtEnd, ReadConsumes};
ghost use Rattle.rip_log.specs.Gave.{Gave};
ghost use Rattle.rip_log.specs.Marks.{is_marked};

use crate::device::Failed;
use crate::noted_reader::NotedReader;
use std::io::Read;

/// A device that gives bytes. Once it has failed, or come to its end, it gives no more, and asking
/// it again changes nothing: what lies beneath it is left alone.
pub trait Source {
    // The bytes that it has given.
    ghost given: { Self → List ℕ };

    // The bytes still to come, where they are modelled.
    ghost coming: { Self → Option (List ℕ) };

    // Whether it has failed.
    ghost broken: { Self → Bool };

    // Whether it has come to its end.
    ghost at_end: { Self → Bool };

    /// Takes bytes from the device into the buffer, and answers how many came: 0 into a nonempty
    /// one at the end. An error says that the device has failed, then or before.
    fn pull(&mut self, buffer: &mut [u8]) -> Result<usize, Failed>
        ensures bound { ReadsAtMost result buffer.new }
        // The bytes that came follow those that it had given. Where it fails, none came.
        ensures gave { Gave (given self.old) (given self.new) result buffer.new }
        // They were the next to come, where these are modelled.
        ensures bytes { ReadConsumes (coming self.old) (coming self.new) result buffer.new }

        // An error comes exactly where the device has failed, then or before.
        ensures failed { is_err result ≡ broken self.new }
        ensures fails_on { broken self.old ≡ true → broken self.new ≡ true }

        // A buffer that is not empty gets no bytes exactly where the end is reached.
        ensures ended { 0 < length buffer.new → (at_end self.new ≡ true) ↔ (result ≡ Ok 0) }
        ensures ends_on { at_end self.old ≡ true → (at_end self.new ≡ true) × (result ≡ Ok 0) }

        // Past its end, and once it has failed, a pull changes nothing.
        ensures rests_ended { at_end self.old ≡ true → self.new ≡ self.old }
        ensures rests_failed { broken self.old ≡ true → self.new ≡ self.old };

    /// Whether the device has failed.
    fn failed(&self) -> bool
        ensures { result ≡ broken self.now };

    /// Whether the device has come to its end.
    fn ended(&self) -> bool
        ensures { result ≡ at_end self.now };

    // At the end no byte is left, where those to come are modelled.
    ghost nothing_left: { (s : Self) → at_end s ≡ true → IsAtEnd (coming s) };
}

/// What a source over a reader has come to.
#[derive(Clone, Copy)]
enum Mark {
    Open,
    Ended,
    Broken,
}

/// A source over a reader. Any error of the reader is a failure, an interruption too. What each
/// read came to is noted, for proofs alone.
#[derive(Drop)]
pub struct FromRead<R> {
    noted: NotedReader<R>,
    mark: Mark,
    ghost marked: { is_marked mark noted.history.outcomes ≡ true },
}

impl<R: Read> FromRead<R> {
    ghost use Rattle.std.specs.Prelude.{[]};
    ghost use Rattle.rip_log.specs.Outcomes.{AllMoved, EndIn, is_failure, is_no_bytes};
    ghost use Rattle.rip_log.specs.Readers.{has_ended, has_failed, left_of, reader_of, reads_of};

    /// A source over a reader that was not asked yet.
    pub fn new(reader: R) -> FromRead<R>
        ensures reader { reader_of result ≡ reader }
        ensures reads { reads_of result ≡ [] }
        ensures left { left_of R.remaining result ≡ R.remaining reader }
        ensures unbroken { has_failed result ≡ false }
        ensures running { has_ended result ≡ false }
    {
        FromRead {
            noted: NotedReader::new(reader),
            mark: Mark::Open,
        }
    }

    /// What its reads came to: each gave some bytes, but for the last one where the source has
    /// ended, which gave none, or has failed, which failed. Does nothing.
    pub fn lawful(&self)
        ensures open { has_ended self.now ≡ false → has_failed self.now ≡ false →
            AllMoved (reads_of self.now) }
        ensures ended { has_ended self.now ≡ true → EndIn is_no_bytes (reads_of self.now) }
        ensures failed { has_failed self.now ≡ true → EndIn is_failure (reads_of self.now) }
    {
        let _ = &self.mark;
    }

    /// The reader, as it stands.
    pub fn into_reader(self) -> R
        ensures { result ≡ reader_of self }
    {
        self.noted.into_reader()
    }

    /// The source without its reader, which is closed: what its reads came to stays, and its marks.
    pub fn close(self) -> FromRead<&'static [u8]>
    where
        R: Drop,
        ensures reads { reads_of result ≡ reads_of self }
        ensures broken { has_failed result ≡ has_failed self }
        ensures ended { has_ended result ≡ has_ended self }
    {
        FromRead {
            noted: self.noted.over(b"".as_slice()),
            mark: self.mark,
        }
    }
}

impl<R: Read> NotedReader<R> {
    ghost use Rattle.std.specs.Prelude.{◌++◌, [], ◌∷◌};
    ghost use Rattle.rip_log.specs.Outcomes.{outcome_of};

    /// Reads once into room for some bytes, and notes what came, or that the read failed. Without
    /// room nothing would come, whether it is the end or not.
    fn read(&mut self, buffer: &mut [u8]) -> Result<usize, Failed>
        requires room { 0 < length buffer.old }
        ensures noted { self.new.history.outcomes
            ≡ self.old.history.outcomes ++ outcome_of result buffer.new ∷ [] }
        ensures bound { ReadsAtMost result buffer.new }
        ensures bytes { ReadConsumes (R.remaining self.old.reader) (R.remaining self.new.reader)
            result buffer.new }
    {
        self.ask(R::read, buffer)
    }
}

impl<R: Read> Source for FromRead<R> {
    ghost use Rattle.rip_log.specs.Outcomes.{AtMostOnce};
    ghost use Rattle.rip_log.specs.Readers.{given_by, has_ended, has_failed, left_of, reads_of};
    ghost use Rattle.rip_log.specs.Marks.{nothing_left};

    ghost given = { given_by };

    ghost coming = { left_of R.remaining };

    ghost broken = { has_failed };

    ghost at_end = { has_ended };

    ghost nothing_left = { λ s. nothing_left s.mark (R.remaining s.noted.reader) };

    fn pull(&mut self, buffer: &mut [u8]) -> Result<usize, Failed>
        // It reads at most once.
        ensures once { AtMostOnce (reads_of self.old) (reads_of self.new) }

        // As every source.
        ensures bound { ReadsAtMost result buffer.new }
        ensures gave { Gave (given_by self.old) (given_by self.new) result buffer.new }
        ensures bytes { ReadConsumes (left_of R.remaining self.old) (left_of R.remaining self.new)
            result buffer.new }
        ensures failed { is_err result ≡ has_failed self.new }
        ensures fails_on { has_failed self.old ≡ true → has_failed self.new ≡ true }
        ensures ended { 0 < length buffer.new → (has_ended self.new ≡ true) ↔ (result ≡ Ok 0) }
        ensures ends_on { has_ended self.old ≡ true →
            (has_ended self.new ≡ true) × (result ≡ Ok 0) }
        ensures rests_ended { has_ended self.old ≡ true → self.new ≡ self.old }
        ensures rests_failed { has_failed self.old ≡ true → self.new ≡ self.old }
    {
        match self.mark {
            Mark::Broken => return Err(Failed),
            Mark::Ended => return Ok(0),
            Mark::Open => {}
        }
        if buffer.is_empty() {
            return Ok(0);
        }
        let read = self.noted.read(buffer);
        match read {
            Ok(0) => self.mark = Mark::Ended,
            Ok(_) => {}
            Err(Failed) => self.mark = Mark::Broken,
        }
        read
    }

    fn failed(&self) -> bool {
        matches!(self.mark, Mark::Broken)
    }

    fn ended(&self) -> bool {
        matches!(self.mark, Mark::Ended)
    }
}

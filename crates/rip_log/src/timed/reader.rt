//! The reader of the lines of a log with times.

ghost use Rattle.std.specs.Prelude.{◌≡◌, ◌⊎◌, ◌<◌, ◌≤◌, ℕ, List, Option, IfErr, IfOk, IfSome, OnErr, OnOk, Ok, None, length, true};
ghost use Rattle.std.specs.Borrow.{sem};
ghost use Rattle.std.specs.Io.BufRead.{Rests};
ghost use Rattle.rip_log.specs.declared.limits.TheConstants.{MOST_HELD_BYTES};

use crate::device::Failed;
use crate::error::LogCode;
use crate::limits::MOST_HELD_BYTES;
use crate::reader::name_text;
use crate::source::Source;
use crate::span::Span;
use crate::timed::line::{Judged, judge_timed};
use crate::window::{RawLine, Window};
use rip_wire::{Address, Datagram, MOST_BYTES};
use std::alloc::{AllocError, Global};

/// A captured datagram, with its time.
#[derive(Debug, Drop)]
pub struct TimedRecord<'a> {
    /// The number of the line, from 1 on.
    pub line: u64,
    /// Its time: the millionths of a second since 1970-01-01T00:00:00Z.
    pub micros: u64,
    /// The name of the link that it was captured on.
    pub link: &'a str,
    /// The datagram, a request or a response (RFC 2453, section 3.6).
    pub datagram: Datagram<'a>,
    // The number of the sender's address.
    sender: u32,
}

impl TimedRecord<'_> {
    ghost use Rattle.rip_log.specs.TimedCall.{timed_capture};

    /// The address that sent it.
    pub fn sender(&self) -> Address
        ensures { result ≡ (timed_capture self.now).sender }
    {
        Address::new(self.sender)
    }
}

/// A line of a log with times that is bad.
#[derive(Clone, Copy, Debug)]
pub struct TimedFault {
    /// The number of the line, from 1 on.
    pub line: u64,
    /// Its time, in micros, unless it is bad by `LongLine` or `Fields`.
    pub micros: Option<u64>,
    /// Why it is bad: one of `LongLine`, `Fields`, `LinkName`, `Sender`, `Hex`, `LongDatagram` and
    /// `Wire`.
    pub code: LogCode,
}

/// What a line of a log with times says.
#[derive(Debug, Drop)]
pub enum TimedLine<'a> {
    /// It is blank, or a comment.
    Skipped,
    /// It is a captured datagram.
    Record(TimedRecord<'a>),
    /// It is bad.
    Bad(TimedFault),
}

/// Where a line lies in the window's buffer, and what was found of it; of one that is too long
/// nothing is held.
#[derive(Clone, Copy)]
enum FoundTimed {
    Line(Span, Judged),
    Long,
}

/// A reader of the lines of a log with times: each of at most 2,048 bytes, and however many. A line
/// is that of a log, with a time and a blank in front: exactly four fields, of which the first is a
/// time as `write_time` writes it. A bad line ends nothing.
#[derive(Drop)]
pub struct TimedReader<R> {
    window: Window<R>,
    room: [u8; MOST_BYTES],
    lines: u64,
}

impl<R: Source> TimedReader<R> {
    ghost use Rattle.rip_log.specs.contracts.timed.reader.TimedReader.{the_row};
    ghost use Rattle.rip_log.specs.Cuts.{IsEndless};
    ghost use Rattle.rip_log.specs.Held.{ended_lines};
    ghost use Rattle.rip_log.specs.Wholes.{OfWhole, Went};
    ghost use Rattle.rip_log.specs.TimedText.{IsEarly};
    ghost use Rattle.rip_log.specs.TimedCall.{IsGoodTimed, TakesTimed, TimedCall, found_said, timed_held, timed_lines, timed_number, timed_said_of, timed_source, timed_text};

    /// A reader at the front of the source's text. It allocates its buffer, and pulls nothing yet.
    /// Where memory is refused, the source comes back.
    pub fn new(alloc: Global, source: R) -> Result<TimedReader<R>, (AllocError, R)>
        ensures source { IfOk result (λ r. timed_source r ≡ source) }
        ensures text { IfOk result (λ r. (coming : R → Option (List ℕ)) →
            timed_text coming r ≡ coming source) }
        ensures front { IfOk result (λ r. timed_lines r ≡ 0) }
        ensures refused { IfErr result (λ e. e.1 ≡ source) }
    {
        match Window::new(alloc, source) {
            Ok(window) => Ok(TimedReader {
                window,
                room: [0; MOST_BYTES],
                lines: 0,
            }),
            Err((error, source)) => Err((error, source)),
        }
    }

    /// Takes the next line, of which bytes are held. Of one that is too long nothing is kept.
    fn take_line(&mut self) -> Result<FoundTimed, Failed>
        requires { 0 < length (timed_held self.old) }
        ensures says { IfOk result (λ found. OfWhole R.given R.at_end (timed_source self.new)
            (λ coming. TakesTimed (timed_text coming self.old) (timed_text coming self.new)
            (found_said self.new found))) }
        ensures good { IfOk result (IsGoodTimed self.new) }
        ensures early { IfOk result (λ found. IsEarly (found_said self.new found)) }
        ensures failed { OnErr result (OfWhole R.given R.at_end (timed_source self.new)
            (λ coming. (R.broken (timed_source self.new) ≡ true)
            ⊎ IsEndless (timed_text coming self.old))) }
        ensures marks { OnOk result
            (R.broken (timed_source self.new) ≡ R.broken (timed_source self.old)) }
        ensures lines { timed_lines self.new ≡ timed_lines self.old }
        ensures went { Went R.given R.coming R.at_end (timed_source self.old)
            (timed_source self.new) }
        ensures unpulled { R.at_end (timed_source self.old) ≡ true →
            timed_source self.new ≡ timed_source self.old }
        ensures ready { 0 < ended_lines (timed_held self.old) →
            timed_source self.new ≡ timed_source self.old }
    {
        match self.window.take_line() {
            Err(Failed) => Err(Failed),
            Ok(RawLine::Line(line)) => {
                let judged = judge_timed(self.window.range(line), &mut self.room);
                Ok(FoundTimed::Line(line, judged))
            }
            Ok(RawLine::Long) => match self.window.pass_line() {
                Err(Failed) => Err(Failed),
                Ok(()) => Ok(FoundTimed::Long),
            },
        }
    }

    /// Takes the next line, if there is one, and says where it lies.
    fn advance(&mut self) -> Result<Option<FoundTimed>, Failed>
        ensures call { TimedCall R.given R.coming R.broken R.at_end (found_said self.new)
            (λ _. Some (timed_lines self.new)) self.old self.new result }
        ensures good { IfOk result (λ found. IfSome found (IsGoodTimed self.new)) }
    {
        match self.window.has_line() {
            Err(Failed) => return Err(Failed),
            Ok(false) => return Ok(None),
            Ok(true) => {}
        }
        let Some(lines) = self.lines.checked_add(1) else {
            return Err(Failed);
        };
        self.lines = lines;
        match self.take_line() {
            Err(Failed) => Err(Failed),
            Ok(found) => Ok(Some(found)),
        }
    }

    /// A line that was found, borrowed.
    fn line(&self, found: FoundTimed) -> TimedLine<'_>
        requires { IsGoodTimed self.now found }
        ensures said { timed_said_of result ≡ found_said self.now found }
        ensures number { IfSome (timed_number result) (λ n. n ≡ timed_lines self.now) }
    {
        let line = self.lines;
        match found {
            FoundTimed::Line(_, Judged::Skipped) => TimedLine::Skipped,
            FoundTimed::Line(_, Judged::Untimed) => TimedLine::Bad(TimedFault {
                line,
                micros: None,
                code: LogCode::Fields,
            }),
            FoundTimed::Line(_, Judged::Bad(micros, why)) => TimedLine::Bad(TimedFault {
                line,
                micros: Some(micros),
                code: why.code(),
            }),
            FoundTimed::Line(span, Judged::Record(micros, parts)) => {
                let bytes = self.window.range(span);
                TimedLine::Record(TimedRecord {
                    line,
                    micros,
                    link: name_text(&bytes[parts.link.from..parts.link.to]),
                    datagram: Datagram::of_bytes(&self.room[..parts.count]),
                    sender: parts.sender.get(),
                })
            }
            FoundTimed::Long => TimedLine::Bad(TimedFault {
                line,
                micros: None,
                code: LogCode::LongLine,
            }),
        }
    }

    /// The next line, which borrows the reader's buffers, or None at the end of the text. It
    /// allocates nothing. A bad line ends nothing: the next call goes on behind it, and of one that
    /// is too long the rest is skipped. It fails where the source does (or where a line has more
    /// than `u64::MAX` bytes, or the text more lines); then reading is over. It pulls nothing where
    /// it holds the line with its line feed.
    pub fn next(&mut self) -> Result<Option<TimedLine<'_>>, Failed>
        // Once the line that it lends is let go, the reader is as `TimedCall` says.
        ensures* leaves { sem 𝓛 (Rests (the_row R.row) self.entry (λ new.
            TimedCall R.given R.coming R.broken R.at_end timed_said_of timed_number self.old new
            result)) }
    {
        match self.advance() {
            Err(error) => Err(error),
            Ok(None) => Ok(None),
            Ok(Some(found)) => Ok(Some(self.line(found))),
        }
    }

    /// What it holds of its source is no more than its buffer has room for. Does nothing.
    pub fn lawful(&self)
        ensures { length (timed_held self.now) ≤ MOST_HELD_BYTES }
    {
        let _ = &self.window;
    }

    /// The source, as it stands.
    pub fn into_source(self) -> R
        ensures { result ≡ timed_source self }
    {
        self.window.feed.into_source()
    }
}

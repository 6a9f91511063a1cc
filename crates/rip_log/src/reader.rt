//! The records of a log, one after the other.

ghost use Rattle.std.specs.Prelude.{◌≡◌, ◌≢◌, ◌+◌, ◌≤◌, ◌<◌, ℕ, List, Option, None, true, false, length, IfErr, IfOk, IfSome};
ghost use Rattle.std.specs.Borrow.{sem};
ghost use Rattle.std.specs.Io.BufRead.{Rests};
ghost use Rattle.rip_wire.specs.Name.{is_name};
ghost use Rattle.rip_log.specs.declared.limits.TheConstants.{MOST_HELD_BYTES, MOST_LINES};

mod lines;

pub use self::lines::{BadLine, Line, Origin};
use crate::device::Failed;
use crate::error::{LogCode, LogError};
use crate::limits::{MOST_HELD_BYTES, MOST_LINES};
use crate::line::{Fault, Parts, judge_line};
use crate::progress::Progress;
use crate::source::Source;
use crate::span::Span;
use crate::window::{RawLine, Window};
use rip_wire::{Address, Datagram, MOST_BYTES, laws};
use std::alloc::Global;

/// A captured datagram: a line of the log that is neither blank nor a comment.
#[derive(Debug, Drop)]
pub struct Record<'a> {
    /// The number of the line, from 1 on.
    pub line: u32,
    /// The name of the link that it was captured on.
    pub link: &'a str,
    /// The datagram, a request or a response (RFC 2453, section 3.6).
    pub datagram: Datagram<'a>,
    // The number of the sender's address.
    sender: u32,
}

impl Record<'_> {
    ghost use Rattle.rip_log.specs.NextCall.{capture_of};

    /// The address that sent it.
    pub fn sender(&self) -> Address
        ensures { result ≡ (capture_of self.now).sender }
    {
        Address::new(self.sender)
    }
}

/// Where the parts of a record lie: its line in the window's buffer, and the parts in that.
#[derive(Clone, Copy)]
struct FoundRecord {
    line: Span,
    parts: Parts,
}

/// Where a bad line lies in the window's buffer, and why it is bad.
#[derive(Clone, Copy)]
struct FoundFault {
    line: Span,
    fault: Fault,
}

/// Where a line that says something lies in the window's buffer; of one that is too long nothing is
/// held.
#[derive(Clone, Copy)]
enum FoundLine {
    Record(FoundRecord),
    Bad(FoundFault),
    Long,
}

/// What a step comes to: a line that says nothing, or the next that says something, or the end.
#[derive(Clone, Copy)]
enum Step {
    Skipped,
    Next(Option<FoundLine>),
}

/// A name, as text.
pub fn name_text(name: &[u8]) -> &str
    requires { is_name name.now ≡ true }
    ensures { result.now ≡ name.now }
{
    laws::names();
    // To test these bytes again takes a twentieth of the instructions of a line of one entry.
    // SAFETY: a name is ASCII (`laws::names`), so it is UTF-8, as this call's proved `requires`
    // asks.
    unsafe { str::from_utf8_unchecked(name) }
}

/// A reader of a log's records: one a line, of at most 1,000,000 lines of at most 2,048 bytes.
/// After an error there are no more.
#[derive(Drop)]
pub struct LogReader<R> {
    window: Window<R>,
    room: [u8; MOST_BYTES],
    progress: Progress,
}

impl<R: Source> LogReader<R> {
    ghost use Rattle.rip_log.specs.contracts.reader.LogReader.{the_row};
    ghost use Rattle.rip_log.specs.NextCall.{Answers, IsOver, KeepsMarks, NextCall, Pulls, capture_of, has_stopped, held_by, line_of, lines_behind, log_to_come, source_of, text};
    ghost use Rattle.rip_log.specs.Logs.{log_in};
    ghost use Rattle.rip_log.specs.Advances.{Advances};
    ghost use Rattle.rip_log.specs.Steps.{FoundIsGood, IsGood, LineSays, Moves, StepsOn, capture_at};
    ghost use Rattle.rip_log.specs.Feeds.{held};
    ghost use Rattle.rip_log.specs.Wholes.{OfWhole};

    /// The error at the line that is being read. From now on there are no more records.
    fn stop(&mut self, code: LogCode) -> LogError
        ensures window { self.new.window ≡ self.old.window }
        ensures lines { lines_behind self.new ≡ lines_behind self.old }
        ensures stopped { has_stopped self.new ≡ true }
        ensures code { result.code ≡ code }
        ensures line { result.line ≡ lines_behind self.old + 1 }
    {
        self.progress.stop(code)
    }

    /// Takes a line that there is, or leaves one that is too long.
    fn read_line(&mut self) -> Result<Step, LogError>
        requires running { has_stopped self.old ≡ false }
        requires few { lines_behind self.old < MOST_LINES }
        requires held { 0 < length (held self.old.window.feed) }
        ensures says { OfWhole R.given R.at_end (source_of self.new) (λ coming.
            LineSays coming self.old self.new result) }
        ensures good { FoundIsGood self.new result }
        ensures moves { Moves R.given R.coming R.broken R.at_end self.old self.new result }
        ensures steps { StepsOn self.old self.new result }
        ensures some { result ≢ Ok (Step.Next None) }
    {
        let line = match self.window.take_line() {
            Err(Failed) => return Err(self.stop(LogCode::Read)),
            Ok(RawLine::Long) => return Ok(Step::Next(Some(FoundLine::Long))),
            Ok(RawLine::Line(line)) => line,
        };
        match judge_line(self.window.range(line), &mut self.room) {
            Err(fault) => Ok(Step::Next(Some(FoundLine::Bad(FoundFault { line, fault })))),
            Ok(None) => {
                self.progress.lines += 1;
                Ok(Step::Skipped)
            }
            Ok(Some(parts)) => {
                self.progress.lines += 1;
                Ok(Step::Next(Some(FoundLine::Record(FoundRecord { line, parts }))))
            }
        }
    }

    /// Takes the next line, if there is one, or leaves one that is too long.
    fn step(&mut self) -> Result<Step, LogError>
        requires { has_stopped self.old ≡ false }
        ensures says { OfWhole R.given R.at_end (source_of self.new) (λ coming.
            LineSays coming self.old self.new result) }
        ensures good { FoundIsGood self.new result }
        ensures moves { Moves R.given R.coming R.broken R.at_end self.old self.new result }
        ensures steps { StepsOn self.old self.new result }
        ensures over { result ≡ Ok (Step.Next None) → IsOver R.at_end self.new }
        ensures stays_over { IsOver R.at_end self.old → result ≡ Ok (Step.Next None) }
    {
        match self.window.has_line() {
            Err(Failed) => return Err(self.stop(LogCode::Read)),
            Ok(false) => return Ok(Step::Next(None)),
            Ok(true) => {}
        }
        if self.progress.lines >= MOST_LINES {
            return Err(self.stop(LogCode::TooManyLines));
        }
        self.read_line()
    }

    /// Reads up to the next line that says something, and says where it lies. A bad line is not yet
    /// behind, and one that is too long not yet skipped.
    fn advance(&mut self) -> Result<Option<FoundLine>, LogError>
        requires { has_stopped self.old ≡ false }
        ensures comes { Advances R.given R.coming R.broken R.at_end self.old self.new result }
    {
        'lines: loop {
            match self.step() {
                Ok(Step::Skipped) => {}
                Ok(Step::Next(next)) => return Ok(next),
                Err(error) => return Err(error),
            }
        }
    }

    /// Reads up to the next record, and says where it lies. A bad line ends the reading.
    fn advance_record(&mut self) -> Result<Option<FoundRecord>, LogError>
        ensures answers { Answers R.given R.at_end (capture_at self.new)
            (λ _. lines_behind self.new) self.old self.new result }
        ensures marks { KeepsMarks R.broken R.at_end self.old self.new result }
        ensures pulls { Pulls R.given R.coming R.at_end (λ _. lines_behind self.new)
            self.old self.new result }
        ensures good { IfOk result (λ found. IfSome found (IsGood self.new)) }
    {
        if self.progress.is_stopped {
            return Err(self.stop(LogCode::Ended));
        }
        match self.advance() {
            Ok(Some(FoundLine::Record(found))) => Ok(Some(found)),
            Ok(Some(FoundLine::Bad(found))) => Err(self.stop(found.fault.why.code())),
            Ok(Some(FoundLine::Long)) => Err(self.stop(LogCode::LongLine)),
            Ok(None) => Ok(None),
            Err(error) => Err(error),
        }
    }

    /// A record that was found, borrowed.
    fn record(&self, found: FoundRecord) -> Record<'_>
        requires { IsGood self.now found }
        ensures capture { capture_of result ≡ capture_at self.now found }
        ensures line { result.line ≡ lines_behind self.now }
    {
        let line = self.window.range(found.line);
        Record {
            line: self.progress.lines,
            link: name_text(&line[found.parts.link.from..found.parts.link.to]),
            datagram: Datagram::of_bytes(&self.room[..found.parts.count]),
            sender: found.parts.sender.get(),
        }
    }

    /// A reader at the front of the source's text. It allocates its buffer, and pulls nothing yet.
    /// Where memory is refused, the error is Memory at line 0, and the source comes back.
    pub fn new(alloc: Global, source: R) -> Result<LogReader<R>, (LogError, R)>
        ensures source { IfOk result (λ r. source_of r ≡ source) }
        ensures text { IfOk result (λ r. (coming : R → Option (List ℕ)) →
            text coming r ≡ coming source) }
        ensures to_come { IfOk result (λ r. (coming : R → Option (List ℕ)) →
            log_to_come coming r ≡ log_in (coming source)) }
        ensures front { IfOk result (λ r. (lines_behind r ≡ 0) × (has_stopped r ≡ false)) }
        ensures refused { IfErr result
            (λ e. (e.1 ≡ source) × (e.0 ≡ record { code = LogCode.Memory; line = 0 })) }
    {
        match Window::new(alloc, source) {
            Ok(window) => Ok(LogReader {
                window,
                room: [0; MOST_BYTES],
                progress: Progress::front(),
            }),
            Err((_, source)) => Err((
                LogError {
                    code: LogCode::Memory,
                    line: 0,
                },
                source,
            )),
        }
    }

    /// The next record, which borrows the reader's buffers, or None at the end of the text. It
    /// allocates nothing. An error is the fault of the first bad line, or Read where the source
    /// failed while a line was read; after an error each call answers Ended at the same line. It
    /// pulls nothing where it holds each line that it comes to: whole, or more bytes of it than a
    /// line may have.
    pub fn next(&mut self) -> Result<Option<Record<'_>>, LogError>
        // Once the record that it lends is let go, the reader is as `NextCall` says.
        ensures* leaves { sem 𝓛 (Rests (the_row R.row) self.entry (λ new.
            NextCall R.given R.coming R.broken R.at_end capture_of line_of self.old new result)) }
    {
        match self.advance_record() {
            Err(error) => Err(error),
            Ok(None) => Ok(None),
            Ok(Some(found)) => Ok(Some(self.record(found))),
        }
    }

    /// What it holds of its source is no more than its buffer has room for. Does nothing.
    pub fn lawful(&self)
        ensures { length (held_by self.now) ≤ MOST_HELD_BYTES }
    {
        let _ = &self.window;
    }

    /// The source, as it stands.
    pub fn into_source(self) -> R
        ensures { result ≡ source_of self }
    {
        self.window.feed.into_source()
    }
}

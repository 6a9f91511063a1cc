//! The lines of a log, good and bad, one after the other.

ghost use Rattle.std.specs.Prelude.{◌≡◌, ◌+◌, ◌<◌, ◌⊎◌, true, false, length, is_err, IfErr, IfOk, IfSome, OnErr, OnOk, Ok};
ghost use Rattle.std.specs.Option.{option_map};
ghost use Rattle.std.specs.Borrow.{sem};
ghost use Rattle.std.specs.Io.BufRead.{Rests};
ghost use Rattle.rip_log.specs.declared.limits.TheConstants.{MOST_LINES};

use super::{FoundFault, FoundLine, LogReader, Record, name_text};
use crate::device::Failed;
use crate::error::{LogCode, LogError};
use crate::source::Source;
use rip_wire::Address;

/// Where a datagram came from.
#[derive(Debug, Drop)]
pub struct Origin<'a> {
    /// The name of the link that it was captured on.
    pub link: &'a str,
    // The number of the sender's address.
    sender: u32,
}

impl Origin<'_> {
    ghost use Rattle.rip_log.specs.NextLineCall.{origin_lent};

    /// The address that sent it.
    pub fn sender(&self) -> Address
        ensures { result ≡ (origin_lent self.now).sender }
    {
        Address::new(self.sender)
    }
}

/// A line of a log that is bad.
#[derive(Debug, Drop)]
pub struct BadLine<'a> {
    /// The number of the line, from 1 on.
    pub line: u32,
    /// Why it is bad: one of `LongLine`, `Fields`, `LinkName`, `Sender`, `Hex`, `LongDatagram` and
    /// `Wire`.
    pub code: LogCode,
    /// For `LongDatagram` and `Wire`, where its datagram came from.
    pub origin: Option<Origin<'a>>,
}

/// What a line of a log says that is neither blank nor a comment.
#[derive(Debug, Drop)]
pub enum Line<'a> {
    /// It is a captured datagram.
    Record(Record<'a>),
    /// It is bad.
    Bad(BadLine<'a>),
}

impl<R: Source> LogReader<R> {
    ghost use Rattle.rip_log.specs.contracts.reader.LogReader.{the_row};
    ghost use Rattle.rip_log.specs.Cuts.{DropsFirst, IsEndless};
    ghost use Rattle.rip_log.specs.Feeds.{held};
    ghost use Rattle.rip_log.specs.Held.{ended_lines};
    ghost use Rattle.rip_log.specs.NextCall.{has_stopped, lines_behind, source_of, text};
    ghost use Rattle.rip_log.specs.NextLineCall.{AnswersLine, KeepsLineMarks, NextLineCall, PullsLine, last_ended, number_of, origin_lent, said_of};
    ghost use Rattle.rip_log.specs.FoundLines.{IsGoodLine, said_found};
    ghost use Rattle.rip_log.specs.Steps.{IsGoodFault, origin_found};
    ghost use Rattle.rip_log.specs.Wholes.{OfWhole, Went};

    /// Skips the rest of a line that is too long.
    fn pass_long(&mut self) -> Result<(), LogError>
        requires running { has_stopped self.old ≡ false }
        requires few { lines_behind self.old < MOST_LINES }
        requires held { 0 < length (held self.old.window.feed) }
        ensures passed { OnOk result (OfWhole R.given R.at_end (source_of self.new) (λ coming.
            DropsFirst (text coming self.old) (text coming self.new))) }
        ensures failed { OnErr result (OfWhole R.given R.at_end (source_of self.new) (λ coming.
            (R.broken (source_of self.new) ≡ true) ⊎ IsEndless (text coming self.old))) }
        ensures went { Went R.given R.coming R.at_end (source_of self.old) (source_of self.new) }
        ensures ok { OnOk result
            (R.broken (source_of self.new) ≡ R.broken (source_of self.old)) }
        ensures behind { OnOk result (lines_behind self.new ≡ lines_behind self.old + 1) }
        ensures err { IfErr result (λ e. (e.code ≡ LogCode.Read)
            × (e.line ≡ lines_behind self.old + 1)
            × (lines_behind self.new ≡ lines_behind self.old)) }
        ensures stopped { has_stopped self.new ≡ is_err result }
        ensures unpulled { R.at_end (source_of self.old) ≡ true →
            source_of self.new ≡ source_of self.old }
        ensures ended { 0 < ended_lines (held self.old.window.feed) →
            (result ≡ Ok tt) × (source_of self.new ≡ source_of self.old)
            × (last_ended self.new ≡ last_ended self.old) }
    {
        match self.window.pass_line() {
            Err(Failed) => Err(self.stop(LogCode::Read)),
            Ok(()) => {
                self.progress.lines += 1;
                Ok(())
            }
        }
    }

    /// Reads up to the next line that says something, good or bad, and says where it lies.
    fn advance_line(&mut self) -> Result<Option<FoundLine>, LogError>
        ensures answers { AnswersLine R.given R.broken R.at_end (said_found self.new)
            (λ _. lines_behind self.new) self.old self.new result }
        ensures marks { KeepsLineMarks R.broken R.at_end self.old self.new result }
        ensures pulls { PullsLine R.given R.coming R.at_end (λ _. lines_behind self.new)
            self.old self.new result }
        ensures good { IfOk result (λ found. IfSome found (IsGoodLine self.new)) }
    {
        if self.progress.is_stopped {
            return Err(self.stop(LogCode::Ended));
        }
        match self.advance() {
            Ok(Some(FoundLine::Record(found))) => Ok(Some(FoundLine::Record(found))),
            Ok(Some(FoundLine::Bad(found))) => {
                self.progress.lines += 1;
                Ok(Some(FoundLine::Bad(found)))
            }
            Ok(Some(FoundLine::Long)) => match self.pass_long() {
                Ok(()) => Ok(Some(FoundLine::Long)),
                Err(error) => Err(error),
            },
            Ok(None) => Ok(None),
            Err(error) => Err(error),
        }
    }

    /// The origin of a bad line that was found, borrowed.
    fn origin(&self, found: FoundFault) -> Option<Origin<'_>>
        requires { IsGoodFault self.now found }
        ensures { option_map origin_lent result ≡ origin_found self.now found }
    {
        let front = found.fault.front?;
        let line = self.window.range(found.line);
        Some(Origin {
            link: name_text(&line[front.link.from..front.link.to]),
            sender: front.sender.get(),
        })
    }

    /// A line that was found, borrowed.
    fn line(&self, found: FoundLine) -> Line<'_>
        requires { IsGoodLine self.now found }
        ensures said { said_of result ≡ said_found self.now found }
        ensures number { number_of result ≡ lines_behind self.now }
    {
        match found {
            FoundLine::Record(found) => Line::Record(self.record(found)),
            FoundLine::Bad(found) => Line::Bad(BadLine {
                line: self.progress.lines,
                code: found.fault.why.code(),
                origin: self.origin(found),
            }),
            FoundLine::Long => Line::Bad(BadLine {
                line: self.progress.lines,
                code: LogCode::LongLine,
                origin: None,
            }),
        }
    }

    /// The next line that is neither blank nor a comment, good or bad, which borrows the reader's
    /// buffers, or None at the end of the text. It allocates nothing. A bad line ends nothing: the
    /// next call goes on behind it, and of one that is too long the rest is skipped. An error is
    /// TooManyLines at line 1,000,001, or Read where the source failed while a line was read (or a
    /// line has more than `u64::MAX` bytes); after an error each call answers Ended at the same
    /// line. It pulls nothing where it holds each line that it comes to, with its line feed.
    pub fn next_line(&mut self) -> Result<Option<Line<'_>>, LogError>
        // Once the line that it lends is let go, the reader is as `NextLineCall` says.
        ensures* leaves { sem 𝓛 (Rests (the_row R.row) self.entry (λ new.
            NextLineCall R.given R.coming R.broken R.at_end said_of number_of self.old new
            result)) }
    {
        match self.advance_line() {
            Err(error) => Err(error),
            Ok(None) => Ok(None),
            Ok(Some(found)) => Ok(Some(self.line(found))),
        }
    }
}

//! The reader of the lines of a text.

ghost use Rattle.std.specs.Prelude.{◌≡◌, ◌≤◌, ℕ, List, Option, IfErr, IfOk, IfSome, false, length};
ghost use Rattle.std.specs.Borrow.{sem};
ghost use Rattle.std.specs.Io.BufRead.{Rests, strip_last};
ghost use Rattle.rip_log.specs.declared.limits.TheConstants.{MOST_HELD_BYTES};

use crate::device::Failed;
use crate::error::{LogCode, LogError};
use crate::limits::{MOST_HELD_BYTES, MOST_LINES};
use crate::line::without_return;
use crate::progress::Progress;
use crate::source::Source;
use crate::span::Span;
use crate::window::{RawLine, Window};
use std::alloc::Global;

/// A line of a text.
#[derive(Debug, Drop)]
pub struct TextLine<'a> {
    /// The number of the line, from 1 on.
    pub line: u32,
    /// Its bytes, without its line feed and a carriage return before that.
    pub bytes: &'a [u8],
}

/// A reader of the lines of a text, whatever they say: at most 1,000,000, each of at most 2,048
/// bytes. After an error there are no more.
#[derive(Drop)]
pub struct TextReader<R> {
    window: Window<R>,
    progress: Progress,
}

impl<R: Source> TextReader<R> {
    ghost use Rattle.rip_log.specs.contracts.text.TextReader.{the_row};
    ghost use Rattle.rip_log.specs.Feeds.{room};
    ghost use Rattle.rip_log.specs.Spans.{IsWithin, slice_of};
    ghost use Rattle.rip_log.specs.TextCall.{TextCall, text_bytes, text_held, text_lines, text_number, text_source, text_stopped, text_to_come};

    /// A reader at the front of the source's text. It allocates its buffer, and pulls nothing yet.
    /// Where memory is refused, the error is Memory at line 0, and the source comes back.
    pub fn new(alloc: Global, source: R) -> Result<TextReader<R>, (LogError, R)>
        ensures source { IfOk result (λ r. text_source r ≡ source) }
        ensures text { IfOk result (λ r. (coming : R → Option (List ℕ)) →
            text_to_come coming r ≡ coming source) }
        ensures front { IfOk result (λ r. (text_lines r ≡ 0) × (text_stopped r ≡ false)) }
        ensures refused { IfErr result
            (λ e. (e.1 ≡ source) × (e.0 ≡ record { code = LogCode.Memory; line = 0 })) }
    {
        match Window::new(alloc, source) {
            Ok(window) => Ok(TextReader {
                window,
                progress: Progress::front(),
            }),
            Err((_, source)) => Err((
                LogError {
                    code: LogCode::Memory,
                    line: 0,
                },
                source,
            )),
        }
    }

    /// Takes the next line, if there is one, and says where it lies.
    fn advance(&mut self) -> Result<Option<Span>, LogError>
        ensures call { TextCall R.given R.coming R.broken R.at_end
            (λ span. strip_last 13 (slice_of self.new.window.feed.buffer.items span))
            (λ _. text_lines self.new) self.old self.new result }
        ensures good { IfOk result (λ found. IfSome found
            (IsWithin (room self.new.window.feed))) }
    {
        if self.progress.is_stopped {
            return Err(self.progress.stop(LogCode::Ended));
        }
        match self.window.has_line() {
            Err(Failed) => return Err(self.progress.stop(LogCode::Read)),
            Ok(false) => return Ok(None),
            Ok(true) => {}
        }
        if self.progress.lines >= MOST_LINES {
            return Err(self.progress.stop(LogCode::TooManyLines));
        }
        match self.window.take_line() {
            Err(Failed) => Err(self.progress.stop(LogCode::Read)),
            Ok(RawLine::Long) => Err(self.progress.stop(LogCode::LongLine)),
            Ok(RawLine::Line(line)) => {
                self.progress.lines += 1;
                Ok(Some(line))
            }
        }
    }

    /// A line that was found, borrowed.
    fn line(&self, found: Span) -> TextLine<'_>
        requires { IsWithin (room self.now.window.feed) found }
        ensures bytes { text_bytes result
            ≡ strip_last 13 (slice_of self.now.window.feed.buffer.items found) }
        ensures number { text_number result ≡ text_lines self.now }
    {
        TextLine {
            line: self.progress.lines,
            bytes: without_return(self.window.range(found)),
        }
    }

    /// The next line, which borrows the reader's buffer, or None at the end of the text. It
    /// allocates nothing. An error is LongLine or TooManyLines, or Read where the source failed
    /// while a line was read; after an error each call answers Ended at the same line. It pulls
    /// nothing where it holds the line: whole, or more bytes of it than a line may have.
    pub fn next(&mut self) -> Result<Option<TextLine<'_>>, LogError>
        // Once the line that it lends is let go, the reader is as `TextCall` says.
        ensures* leaves { sem 𝓛 (Rests (the_row R.row) self.entry (λ new.
            TextCall R.given R.coming R.broken R.at_end text_bytes text_number self.old new
            result)) }
    {
        match self.advance() {
            Err(error) => Err(error),
            Ok(None) => Ok(None),
            Ok(Some(found)) => Ok(Some(self.line(found))),
        }
    }

    /// What it holds of its source is no more than its buffer has room for. Does nothing.
    pub fn lawful(&self)
        ensures { length (text_held self.now) ≤ MOST_HELD_BYTES }
    {
        let _ = &self.window;
    }

    /// The source, as it stands.
    pub fn into_source(self) -> R
        ensures { result ≡ text_source self }
    {
        self.window.feed.into_source()
    }
}

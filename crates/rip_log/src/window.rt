//! The bytes between a source and its lines.

ghost use Rattle.std.specs.Prelude.{◌≡◌, ◌+◌, ◌<◌, ◌≤◌, ◌⊎◌, [], true, false, Ok, length, IfOk, IfErr, OnOk, OnErr, MatchOption};
ghost use Rattle.std.specs.Io.KnownBytes.{Keeps};
ghost use Rattle.rip_log.specs.Feeds.{held, room, text};
ghost use Rattle.rip_log.specs.Wholes.{OfWhole, Went};
ghost use Rattle.rip_log.specs.declared.window.RawLine.{RawLine};
ghost use Rattle.rip_log.specs.declared.limits.TheConstants.{MOST_HELD_BYTES};

use crate::device::Failed;
use crate::feed::Feed;
use crate::limits::{MOST_HELD_BYTES, MOST_LINE_BYTES};
use crate::source::Source;
use crate::span::Span;
use memchr::memchr;
use std::alloc::{AllocError, Global};

/// Where the first line of what is held ends: at a line feed, with the text, or too late.
#[derive(Clone, Copy)]
pub enum LineEnd {
    Feed(usize),
    Last,
    Long,
}

/// The first line, where it lies in the buffer, or that it is too long.
#[derive(Clone, Copy)]
pub enum RawLine {
    Line(Span),
    Long,
}

/// A log that is read: its source, and the bytes that it gave and no line has taken.
#[derive(Drop)]
pub struct Window<R> {
    pub feed: Feed<R>,
    ghost size: { room feed ≡ MOST_HELD_BYTES },
}

impl<R: Source> Window<R> {
    ghost use Rattle.rip_log.specs.Held.{ended_lines, ready_lines};
    ghost use Rattle.rip_log.specs.Ends.{NoFeedBelow, FirstFeed, Ends};
    ghost use Rattle.rip_log.specs.Spans.{IsWithin, slice_of};
    ghost use Rattle.rip_log.specs.Cuts.{Cuts, DropsFirst, HasLine, IsEndless, LiesWithin, TakesEnded, TakesReady};

    /// A window that holds nothing yet.
    pub fn new(alloc: Global, source: R) -> Result<Window<R>, (AllocError, R)>
        ensures ok { IfOk result (λ w. (w.feed.source ≡ source) × (held w.feed ≡ [])) }
        ensures err { IfErr result (λ e. e.1 ≡ source) }
    {
        match Feed::new(alloc, source, MOST_HELD_BYTES) {
            Ok(feed) => Ok(Window { feed }),
            Err((error, source)) => Err((error, source)),
        }
    }

    /// Whether there is another line. Pulls at most once, and only where nothing is held.
    pub fn has_line(&mut self) -> Result<bool, Failed>
        ensures text { OfWhole R.given R.at_end self.new.feed.source (λ coming.
            Keeps (text coming self.old.feed) (text coming self.new.feed)) }
        ensures went { Went R.given R.coming R.at_end self.old.feed.source self.new.feed.source }
        ensures some { IfOk result (λ some. OfWhole R.given R.at_end self.new.feed.source (λ coming.
            HasLine (text coming self.new.feed) some)) }
        ensures at_end { result ≡ Ok false →
            (held self.new.feed ≡ []) × (R.at_end self.new.feed.source ≡ true) }
        ensures stays { held self.old.feed ≡ [] → R.at_end self.old.feed.source ≡ true →
            (result ≡ Ok false) × (held self.new.feed ≡ [])
            × (R.at_end self.new.feed.source ≡ true) }
        ensures held { result ≡ Ok true → 0 < length (held self.new.feed) }
        ensures ok { OnOk result (R.broken self.new.feed.source ≡ R.broken self.old.feed.source) }
        ensures err { OnErr result (R.broken self.new.feed.source ≡ true) }
        ensures unpulled { R.at_end self.old.feed.source ≡ true →
            self.new.feed.source ≡ self.old.feed.source }
        ensures unchanged { 0 < length (held self.old.feed) →
            (result ≡ Ok true) × (self.new ≡ self.old) }
    {
        if !self.feed.held().is_empty() {
            return Ok(true);
        }
        if self.feed.ended() {
            return Ok(false);
        }
        let count = self.feed.refill()?;
        Ok(count > 0)
    }

    /// The first line feed, where none is below `seen`.
    fn feed_from(&self, seen: usize) -> Option<usize>
        requires within { seen ≤ length (held self.now.feed) }
        requires before { NoFeedBelow (held self.now.feed) seen }
        ensures { MatchOption result
            (NoFeedBelow (held self.now.feed) (length (held self.now.feed)))
            (FirstFeed (held self.now.feed)) }
    {
        let held = self.feed.held();
        match memchr(b'\n', &held[seen..]) {
            None => None,
            Some(found) => Some(seen + found),
        }
    }

    /// Pulls until the end of the first line is known, or that it is too long.
    fn find_end(&mut self) -> Result<LineEnd, Failed>
        ensures text { OfWhole R.given R.at_end self.new.feed.source (λ coming.
            Keeps (text coming self.old.feed) (text coming self.new.feed)) }
        ensures went { Went R.given R.coming R.at_end self.old.feed.source self.new.feed.source }
        ensures end { IfOk result (Ends (held self.new.feed) (R.at_end self.new.feed.source)) }
        ensures more { OnOk result (length (held self.old.feed) ≤ length (held self.new.feed)) }
        ensures ok { OnOk result (R.broken self.new.feed.source ≡ R.broken self.old.feed.source) }
        ensures err { OnErr result (R.broken self.new.feed.source ≡ true) }
        ensures unpulled { R.at_end self.old.feed.source ≡ true →
            self.new.feed.source ≡ self.old.feed.source }
        ensures unchanged { 0 < ready_lines (held self.old.feed) → self.new ≡ self.old }
    {
        let mut seen = 0;
        loop {
            if let Some(at) = self.feed_from(seen) {
                return Ok(if at <= MOST_LINE_BYTES {
                    LineEnd::Feed(at)
                } else {
                    LineEnd::Long
                });
            }
            seen = self.feed.held().len();
            if seen > MOST_LINE_BYTES {
                return Ok(LineEnd::Long);
            }
            if self.feed.ended() || self.feed.refill()? == 0 {
                return Ok(LineEnd::Last);
            }
        }
    }

    /// Takes the first line off the text, where bytes of it are held. Pulls nothing where a whole
    /// line is held, or more bytes than a line may have.
    pub fn take_line(&mut self) -> Result<RawLine, Failed>
        requires { 0 < length (held self.old.feed) }
        ensures cut { IfOk result (λ line. OfWhole R.given R.at_end self.new.feed.source (λ coming.
            Cuts (text coming self.old.feed) (text coming self.new.feed)
            self.new.feed.buffer.items line)) }
        ensures kept { OnErr result (OfWhole R.given R.at_end self.new.feed.source (λ coming.
            Keeps (text coming self.old.feed) (text coming self.new.feed))) }
        ensures went { Went R.given R.coming R.at_end self.old.feed.source self.new.feed.source }
        ensures within { IfOk result (LiesWithin (room self.new.feed)) }
        ensures ok { OnOk result (R.broken self.new.feed.source ≡ R.broken self.old.feed.source) }
        ensures err { OnErr result (R.broken self.new.feed.source ≡ true) }
        ensures unpulled { R.at_end self.old.feed.source ≡ true →
            self.new.feed.source ≡ self.old.feed.source }
        ensures ready { 0 < ready_lines (held self.old.feed) →
            self.new.feed.source ≡ self.old.feed.source }
        ensures others { 0 < ready_lines (held self.old.feed) →
            IfOk result (TakesReady (held self.old.feed) (held self.new.feed)) }
        ensures ended { 0 < ended_lines (held self.old.feed) →
            self.new.feed.source ≡ self.old.feed.source }
        ensures ended_others { 0 < ended_lines (held self.old.feed) →
            IfOk result (TakesEnded (held self.old.feed) (held self.new.feed)) }
        ensures long { result ≡ Ok RawLine.Long → 0 < length (held self.new.feed) }
    {
        match self.find_end()? {
            LineEnd::Feed(at) => {
                let line = self.feed.take(at);
                self.feed.take(1);
                Ok(RawLine::Line(line))
            }
            LineEnd::Last => {
                let all = self.feed.held().len();
                Ok(RawLine::Line(self.feed.take(all)))
            }
            LineEnd::Long => Ok(RawLine::Long),
        }
    }

    /// Skips the first line, where bytes of it are held. Pulls nothing where its end is held. It
    /// fails where the source does, and may fail at a line of more than `MOST_PASSED_BYTES` bytes.
    pub fn pass_line(&mut self) -> Result<(), Failed>
        requires { 0 < length (held self.old.feed) }
        ensures passed { OnOk result (OfWhole R.given R.at_end self.new.feed.source (λ coming.
            DropsFirst (text coming self.old.feed) (text coming self.new.feed))) }
        ensures failed { OnErr result (OfWhole R.given R.at_end self.new.feed.source (λ coming.
            (R.broken self.new.feed.source ≡ true) ⊎ IsEndless (text coming self.old.feed))) }
        ensures went { Went R.given R.coming R.at_end self.old.feed.source self.new.feed.source }
        ensures ok { OnOk result (R.broken self.new.feed.source ≡ R.broken self.old.feed.source) }
        ensures unpulled { R.at_end self.old.feed.source ≡ true →
            self.new.feed.source ≡ self.old.feed.source }
        ensures ended { 0 < ended_lines (held self.old.feed) →
            self.new.feed.source ≡ self.old.feed.source }
        ensures ended_others { 0 < ended_lines (held self.old.feed) →
            (result ≡ Ok tt)
            × (ended_lines (held self.old.feed) ≡ ended_lines (held self.new.feed) + 1) }
    {
        let mut passed = 0u64;
        'pulls: loop {
            if let Some(at) = self.feed_from(0) {
                self.feed.take(at + 1);
                return Ok(());
            }
            let all = self.feed.held().len();
            let Some(more) = passed.checked_add(all as u64) else {
                return Err(Failed);
            };
            passed = more;
            self.feed.take(all);
            if !self.has_line()? {
                return Ok(());
            }
        }
    }

    /// A part of the buffer.
    pub fn range(&self, span: Span) -> &[u8]
        requires { IsWithin (room self.now.feed) span }
        ensures { result.now ≡ slice_of self.now.feed.buffer.items span }
    {
        self.feed.range(span)
    }
}

//! The bytes of a source, taken in parts of known size.

ghost use Rattle.std.specs.Prelude.{◌≡◌, ◌<◌, ◌≤◌, ◌+◌, ℕ, List, [], Ok, true, false, take, drop, length, IfOk, IfErr};
ghost use Rattle.rip_log.specs.Feeds.{held, room};
ghost use Rattle.rip_log.specs.Spans.{IsWithin, slice_of};
ghost use Rattle.rip_log.specs.Wholes.{Went};
ghost use Rattle.rip_capture.specs.declared.error.CaptureCode.TheVariants.{Cut};
ghost use Rattle.rip_capture.specs.declared.parts.TheConstants.{BUFFER_LEN};

use crate::error::CaptureCode;
use rip_log::{Failed, Feed, Source, Span};
use std::alloc::{AllocError, Global};

/// The bytes of the buffer, which holds each part whole.
pub(crate) const BUFFER_LEN: usize = 524_288;

/// A file that is read: its source, and the bytes that it gave and no part has taken.
#[derive(Drop)]
pub struct Parts<R> {
    pub feed: Feed<R>,
    ghost size: { room feed ≡ BUFFER_LEN },
}

impl<R: Source> Parts<R> {
    ghost use Rattle.rip_capture.specs.Codes.{is_unread};
    ghost use Rattle.rip_capture.specs.Feeds.{Extends, IsShort, Keeps, Skips, SkipsSo, Takes};

    /// Parts of a source of which nothing is held yet.
    pub fn new(alloc: Global, source: R) -> Result<Parts<R>, (AllocError, R)>
        ensures ok { IfOk result (λ p. (p.feed.source ≡ source) × (held p.feed ≡ [])) }
        ensures err { IfErr result (λ e. e.1 ≡ source) }
    {
        match Feed::new(alloc, source, BUFFER_LEN) {
            Ok(feed) => Ok(Parts { feed }),
            Err((error, source)) => Err((error, source)),
        }
    }

    /// Holds so many bytes: Cut where the source ends before them, and Read where it fails.
    pub fn hold(&mut self, count: usize) -> Result<(), CaptureCode>
        requires { count ≤ BUFFER_LEN }
        ensures keeps { Keeps R.given self.old.feed self.new.feed }
        ensures went { Went R.given R.coming R.at_end self.old.feed.source self.new.feed.source }
        ensures held { Extends (held self.old.feed) (held self.new.feed) }
        ensures some { IfOk result (λ done. count ≤ length (held self.new.feed)) }
        ensures short { IfErr result
            (IsShort count (held self.new.feed) (R.at_end self.new.feed.source)) }
        ensures stays { R.at_end self.old.feed.source ≡ true →
            (held self.new.feed ≡ held self.old.feed) × (is_unread result ≡ false) }
        ensures failed { is_unread result ≡ true → R.broken self.new.feed.source ≡ true }
        ensures marks { is_unread result ≡ false →
            R.broken self.new.feed.source ≡ R.broken self.old.feed.source }
        ensures ready { count ≤ length (held self.old.feed) → self.new.feed ≡ self.old.feed }
    {
        'pulls: while self.feed.held().len() < count {
            if self.feed.ended() {
                return Err(CaptureCode::Cut);
            }
            match self.feed.refill() {
                Ok(0) => return Err(CaptureCode::Cut),
                Ok(_) => {}
                Err(Failed) => return Err(CaptureCode::Read),
            }
        }
        Ok(())
    }

    /// Holds so many bytes of the next part, or answers false where the source ends before it.
    pub fn hold_next(&mut self, count: usize) -> Result<bool, CaptureCode>
        requires { count ≤ BUFFER_LEN }
        ensures keeps { Keeps R.given self.old.feed self.new.feed }
        ensures went { Went R.given R.coming R.at_end self.old.feed.source self.new.feed.source }
        ensures held { Extends (held self.old.feed) (held self.new.feed) }
        ensures some { result ≡ Ok true → count ≤ length (held self.new.feed) }
        ensures none { result ≡ Ok false →
            (held self.new.feed ≡ []) × (R.at_end self.new.feed.source ≡ true) }
        ensures short { IfErr result
            (IsShort count (held self.new.feed) (R.at_end self.new.feed.source)) }
        ensures begun { IfErr result (λ code. code ≡ Cut → 0 < length (held self.new.feed)) }
        ensures failed { is_unread result ≡ true → R.broken self.new.feed.source ≡ true }
        ensures marks { is_unread result ≡ false →
            R.broken self.new.feed.source ≡ R.broken self.old.feed.source }
        ensures over { held self.old.feed ≡ [] → R.at_end self.old.feed.source ≡ true → 0 < count →
            result ≡ Ok false }
        ensures ready { count ≤ length (held self.old.feed) → self.new.feed ≡ self.old.feed }
    {
        match self.hold(count) {
            Ok(()) => Ok(true),
            Err(CaptureCode::Cut) if self.feed.held().is_empty() => Ok(false),
            Err(code) => Err(code),
        }
    }

    /// Takes bytes that are held, and answers where they lie in the buffer.
    pub fn take(&mut self, count: usize) -> Span
        requires { count ≤ length (held self.old.feed) }
        ensures takes { Takes R.given self.old.feed self.new.feed
            (take count (held self.old.feed)) }
        ensures left { held self.new.feed ≡ drop count (held self.old.feed) }
        ensures source { self.new.feed.source ≡ self.old.feed.source }
        ensures within { IsWithin (room self.new.feed) result }
        ensures size { result.to ≡ result.from + count }
        ensures lies { slice_of self.new.feed.buffer.items result
            ≡ take count (held self.old.feed) }
    {
        self.feed.take(count)
    }

    /// Takes so many bytes, whether they are held or come: Cut where the source ends before them,
    /// and Read where it fails.
    pub fn skip(&mut self, count: usize) -> Result<(), CaptureCode>
        ensures skips { (bytes : List ℕ) × Skips R.given self.old.feed self.new.feed bytes
            × SkipsSo count bytes (held self.new.feed) (R.at_end self.new.feed.source) result }
        ensures went { Went R.given R.coming R.at_end self.old.feed.source self.new.feed.source }
        ensures failed { is_unread result ≡ true → R.broken self.new.feed.source ≡ true }
        ensures marks { is_unread result ≡ false →
            R.broken self.new.feed.source ≡ R.broken self.old.feed.source }
    {
        let mut left = count;
        'parts: while left > 0 {
            self.hold(1)?;
            let part = left.min(self.feed.held().len());
            self.take(part);
            left -= part;
        }
        Ok(())
    }
}

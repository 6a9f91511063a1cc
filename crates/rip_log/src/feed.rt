//! The bytes that a source gave and nobody has taken.

ghost use Rattle.std.specs.Prelude.{◌≡◌, ◌+◌, ◌<◌, ◌≤◌, ◌↔◌, ◌++◌, ℕ, List, [], true, Ok, length, take, drop, is_err, vec_len, IfOk, IfErr, OnErr};
ghost use Rattle.rip_log.specs.Wholes.{Went};

use crate::device::Failed;
use crate::source::Source;
use crate::span::Span;
use std::alloc::{AllocError, Global};

/// A source, and the bytes that it gave and nobody has taken yet, in a buffer of a fixed size.
#[derive(Drop)]
pub struct Feed<R> {
    source: R,
    buffer: Vec<u8>,
    start: usize,
    end: usize,
    ghost ordered: { start ≤ end },
    ghost within: { end ≤ vec_len buffer },
}

/// Pulls once into what lies behind the first `len` bytes.
fn pull_behind<R: Source>(source: &mut R, buffer: &mut Vec<u8>, len: usize) -> Result<usize, Failed>
    requires { len < vec_len buffer.old }
    ensures size { vec_len buffer.new ≡ vec_len buffer.old }
    ensures front { take len buffer.new.items ≡ take len buffer.old.items }
    ensures bound { IfOk result (λ n. len + n ≤ vec_len buffer.new) }
    ensures ok { IfOk result (λ n.
        R.given source.new ≡ R.given source.old ++ take n (drop len buffer.new.items)) }
    ensures err { OnErr result (R.given source.new ≡ R.given source.old) }
    ensures went { Went R.given R.coming R.at_end source.old source.new }
    ensures failed { is_err result ≡ R.broken source.new }
    ensures fails_on { R.broken source.old ≡ true → R.broken source.new ≡ true }
    ensures ended { R.at_end source.new ≡ true ↔ result ≡ Ok 0 }
{
    source.pull(&mut buffer.as_mut_slice()[len..])
}

impl<R: Source> Feed<R> {
    ghost use Rattle.rip_log.specs.Feeds.{held, room};
    ghost use Rattle.rip_log.specs.Spans.{IsWithin, slice_of};

    /// A feed that holds nothing yet, with room for so many bytes.
    pub fn new(alloc: Global, source: R, size: usize) -> Result<Feed<R>, (AllocError, R)>
        ensures ok { IfOk result (λ f. (f.source ≡ source) × (held f ≡ []) × (room f ≡ size)) }
        ensures err { IfErr result (λ e. e.1 ≡ source) }
    {
        match vec![in alloc; 0u8; size] {
            Ok(buffer) => Ok(Feed {
                source,
                buffer,
                start: 0,
                end: 0,
            }),
            Err(error) => Err((error, source)),
        }
    }

    /// The source, as it stands.
    pub fn into_source(self) -> R
        ensures { result ≡ self.source }
    {
        self.source
    }

    /// Whether the source has come to its end.
    pub fn ended(&self) -> bool
        ensures { result ≡ R.at_end self.now.source }
    {
        self.source.ended()
    }

    /// Moves what is held to the front of the buffer.
    fn compact(&mut self)
        ensures held { held self.new ≡ held self.old }
        ensures start { self.new.start ≡ 0 }
        ensures source { self.new.source ≡ self.old.source }
        ensures room { room self.new ≡ room self.old }
    {
        if self.start > 0 {
            let len = self.end - self.start;
            self.buffer.copy_within(self.start..self.end, 0);
            self.start = 0;
            self.end = len;
        }
    }

    /// Pulls once behind what is held, and answers how many bytes came.
    pub fn refill(&mut self) -> Result<usize, Failed>
        requires { length (held self.old) < room self.old }
        // What the source gave is held, behind what was.
        ensures pulled { (more : List ℕ)
            × (R.given self.new.source ≡ R.given self.old.source ++ more)
            × (held self.new ≡ held self.old ++ more) }
        ensures more { IfOk result (λ n. length (held self.new) ≡ length (held self.old) + n) }
        ensures err { OnErr result (held self.new ≡ held self.old) }
        ensures room { room self.new ≡ room self.old }
        ensures went { Went R.given R.coming R.at_end self.old.source self.new.source }
        ensures failed { is_err result ≡ R.broken self.new.source }
        ensures fails_on { R.broken self.old.source ≡ true → R.broken self.new.source ≡ true }
        ensures ended { R.at_end self.new.source ≡ true ↔ result ≡ Ok 0 }
    {
        self.compact();
        let len = self.end;
        let count = pull_behind(&mut self.source, &mut self.buffer, len)?;
        self.end = len + count;
        Ok(count)
    }

    /// What is held.
    pub fn held(&self) -> &[u8]
        ensures { result.now ≡ held self.now }
    {
        &self.buffer.as_slice()[self.start..self.end]
    }

    /// Takes bytes that are held, and answers where they lie in the buffer.
    pub fn take(&mut self, count: usize) -> Span
        requires { count ≤ length (held self.old) }
        ensures left { held self.new ≡ drop count (held self.old) }
        ensures source { self.new.source ≡ self.old.source }
        ensures buffer { self.new.buffer ≡ self.old.buffer }
        ensures within { IsWithin (room self.new) result }
        ensures size { result.to ≡ result.from + count }
        ensures lies { slice_of self.new.buffer.items result ≡ take count (held self.old) }
    {
        let from = self.start;
        let to = from + count;
        self.start = to;
        Span { from, to }
    }

    /// A part of the buffer.
    pub fn range(&self, span: Span) -> &[u8]
        requires { IsWithin (room self.now) span }
        ensures { result.now ≡ slice_of self.now.buffer.items span }
    {
        &self.buffer.as_slice()[span.from..span.to]
    }
}

//! Writing text to a sink.

ghost use Rattle.std.specs.Prelude.{◌≡◌, ◌+◌, ◌≤◌, ◌++◌, [], ℕ, List, length};
ghost use Rattle.rip_report.specs.declared.page.TheConstants.{PAGE_BYTES};
ghost use Rattle.rip_report.specs.Outs.{TakesMore};
ghost use Rattle.rip_report.specs.Sent.{SinkState, Writes, sink_state};

use rip_log::{Failed, Sink};

/// The bytes of a page.
const PAGE_BYTES: usize = 4_096;

/// Writes all bytes. Where the sink fails, a beginning of them is out.
pub(crate) fn write_all<K: Sink>(out: &mut K, bytes: &[u8]) -> Result<(), Failed>
    ensures { Writes (sink_state K.taken K.broken out.old) (sink_state K.taken K.broken out.new)
        result bytes.now [] }
{
    let mut at = 0;
    'pieces: while at < bytes.len() {
        at += out.push(&bytes[at..])?;
    }
    Ok(())
}

/// Writes all bytes, unless a write before has failed.
fn send<K: Sink>(out: &mut K, wrote: &mut Result<(), Failed>, bytes: &[u8])
    ensures { TakesMore (sink_state K.taken K.broken out.old) wrote.old []
        (sink_state K.taken K.broken out.new) wrote.new [] bytes.now }
{
    if wrote.is_ok() {
        *wrote = write_all(out, bytes);
    }
}

/// Text that has not gone out yet.
#[derive(Drop)]
pub(crate) struct Page {
    bytes: [u8; PAGE_BYTES],
    used: usize,
    ghost within: { used ≤ PAGE_BYTES },
}

impl Page {
    ghost use Rattle.rip_report.specs.Held.{held};

    /// An empty page.
    pub(crate) fn new() -> Page
        ensures { held result ≡ [] }
    {
        Page {
            bytes: [0; PAGE_BYTES],
            used: 0,
        }
    }

    /// Adds bytes that there is room for.
    fn add(&mut self, bytes: &[u8])
        requires { self.old.used + length bytes.now ≤ PAGE_BYTES }
        ensures held { held self.new ≡ held self.old ++ bytes.now }
        ensures used { self.new.used ≡ self.old.used + length bytes.now }
    {
        let end = self.used + bytes.len();
        self.bytes[self.used..end].copy_from_slice(bytes);
        self.used = end;
    }

    /// Sends what the page holds.
    pub(crate) fn flush<K: Sink>(&mut self, out: &mut K) -> Result<(), Failed>
        ensures writes { Writes (sink_state K.taken K.broken out.old)
            (sink_state K.taken K.broken out.new) result (held self.old) [] }
        ensures empty { held self.new ≡ [] }
        ensures room { self.new.used ≡ 0 }
    {
        let used = self.used;
        self.used = 0;
        write_all(out, &self.bytes[..used])
    }

    /// Sends what the page holds, unless a write before has failed: then it is lost.
    pub(crate) fn clear<K: Sink>(&mut self, out: &mut K, wrote: &mut Result<(), Failed>)
        ensures writes { (start : SinkState) (text : List ℕ) →
            Writes start (sink_state K.taken K.broken out.old) wrote.old text (held self.old) →
            Writes start (sink_state K.taken K.broken out.new) wrote.new text [] }
        ensures empty { held self.new ≡ [] }
        ensures room { self.new.used ≡ 0 }
    {
        if wrote.is_ok() {
            *wrote = self.flush(out);
        } else {
            self.used = 0;
        }
    }

    /// Sends what the page holds, unless there is room for so many bytes behind it.
    pub(crate) fn make_room<K: Sink>(
        &mut self,
        out: &mut K,
        wrote: &mut Result<(), Failed>,
        count: usize,
    )
        ensures writes { (start : SinkState) (text : List ℕ) →
            Writes start (sink_state K.taken K.broken out.old) wrote.old text (held self.old) →
            Writes start (sink_state K.taken K.broken out.new) wrote.new text (held self.new) }
        ensures room { count ≤ PAGE_BYTES → self.new.used + count ≤ PAGE_BYTES }
    {
        if count > PAGE_BYTES - self.used {
            self.clear(out, wrote);
        }
    }

    /// Adds bytes that there is no room for: sends what the page holds before them.
    #[inline(never)]
    fn push_behind<K: Sink>(&mut self, out: &mut K, wrote: &mut Result<(), Failed>, bytes: &[u8])
        ensures { TakesMore (sink_state K.taken K.broken out.old) wrote.old (held self.old)
            (sink_state K.taken K.broken out.new) wrote.new (held self.new) bytes.now }
    {
        self.clear(out, wrote);
        if bytes.len() > PAGE_BYTES {
            send(out, wrote, bytes);
        } else {
            self.add(bytes);
        }
    }

    /// Adds bytes, and sends what the page has no room for.
    #[inline(always)]
    pub(crate) fn push<K: Sink>(
        &mut self,
        out: &mut K,
        wrote: &mut Result<(), Failed>,
        bytes: &[u8],
    )
        ensures { TakesMore (sink_state K.taken K.broken out.old) wrote.old (held self.old)
            (sink_state K.taken K.broken out.new) wrote.new (held self.new) bytes.now }
    {
        if bytes.len() > PAGE_BYTES - self.used {
            self.push_behind(out, wrote, bytes);
        } else {
            self.add(bytes);
        }
    }

    /// Adds three parts, at once where the page has room, for a loop that adds very many.
    pub(crate) fn push_parts<K: Sink>(
        &mut self,
        out: &mut K,
        wrote: &mut Result<(), Failed>,
        front: &[u8],
        middle: &[u8],
        end: &[u8],
    )
        ensures { TakesMore (sink_state K.taken K.broken out.old) wrote.old (held self.old)
            (sink_state K.taken K.broken out.new) wrote.new (held self.new)
            (front.now ++ (middle.now ++ end.now)) }
    {
        if front.len() > PAGE_BYTES
            || middle.len() > PAGE_BYTES
            || end.len() > PAGE_BYTES
            || front.len() + middle.len() + end.len() > PAGE_BYTES - self.used
        {
            self.push(out, wrote, front);
            self.push(out, wrote, middle);
            self.push(out, wrote, end);
            return;
        }
        self.add(front);
        self.add(middle);
        self.add(end);
    }
}

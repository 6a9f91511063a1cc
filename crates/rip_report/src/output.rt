//! Text on its way to a sink.

ghost use Rattle.std.specs.Prelude.{◌≡◌, ◌≢◌, ◌∷◌, ◌++◌, [], true, false, decimal, is_err, Err};
ghost use Rattle.rip_report.specs.Finished.{Answers, EndsWith};
ghost use Rattle.rip_report.specs.Names.{numbered};
ghost use Rattle.rip_report.specs.Outs.{Adds, HasGoneOut, IsOnItsWay};
ghost use Rattle.rip_report.specs.Sent.{Writes, sink_state};
ghost use Rattle.rip_wire.specs.Address.{address_text};
ghost use Rattle.rip_wire.specs.Prefix.{prefix_text};

use crate::page::Page;
use crate::seen::Seen;
use crate::status::{RunError, Status};
use itoa::Buffer;
use rip_log::{Failed, History, Sink};
use rip_wire::{Address, Metric, Prefix};
use std::alloc::AllocError;
use std::marker::Model;

/// Room for the text of an address.
const ADDRESS_BYTES: usize = "255.255.255.255".len();

/// Room for the text of a prefix.
pub(crate) const PREFIX_BYTES: usize = "255.255.255.255/32".len();

/// Text on its way to a sink. After a failed write more text may be added, which is not written:
/// what went out is a beginning of all text that was added.
#[derive(Drop)]
pub(crate) struct Out<K: Sink> {
    sink: K,
    page: Page,
    wrote: Result<(), Failed>,
    // For proofs alone: all text that was added, and the sink as it stood before it.
    added: History,
    start: Seen<K>,
}

impl<K: Sink> Model for Out<K> {
    ghost use Rattle.std.specs.Prelude.{is_err};
    ghost use Rattle.rip_report.specs.Held.{held};
    ghost use Rattle.rip_report.specs.Outs.{Progress, noted};
    ghost use Rattle.rip_report.specs.Sent.{Writes, sink_state};

    ghost Value = { Progress };

    ghost view = { λ o. record {
      start = sink_state K.taken K.broken o.start.value;
      sink = sink_state K.taken K.broken o.sink;
      text = noted o.added.outcomes;
      failed = is_err o.wrote;
    } };

    ghost invariant = { λ o. Writes (sink_state K.taken K.broken o.start.value)
        (sink_state K.taken K.broken o.sink) o.wrote (noted o.added.outcomes) (held o.page) };
}

impl<K: Sink> Out<K> {
    /// No text yet, on its way to this sink.
    pub(crate) fn new(sink: K) -> Out<K>
        ensures start { result.start ≡ sink_state K.taken K.broken sink }
        ensures sink { result.sink ≡ sink_state K.taken K.broken sink }
        ensures text { result.text ≡ [] }
        ensures failed { result.failed ≡ false }
        ensures way { IsOnItsWay K.taken K.broken result.start [] }
    {
        let start = Seen::of(&sink);
        Out {
            sink,
            page: Page::new(),
            wrote: Ok(()),
            added: History::new(),
            start,
        }
    }

    /// Adds bytes.
    pub(crate) fn push_bytes(&mut self, bytes: &[u8])
        ensures { Adds self.old self.new bytes.now }
    {
        self.added.note(bytes);
        self.page.push(&mut self.sink, &mut self.wrote, bytes);
    }

    /// Adds three parts, at once where the page has room, for a loop that adds very many.
    pub(crate) fn push_parts(&mut self, front: &[u8], middle: &[u8], end: &[u8])
        ensures { Adds self.old self.new (front.now ++ (middle.now ++ end.now)) }
    {
        self.added.note(front);
        self.added.note(middle);
        self.added.note(end);
        self.page
            .push_parts(&mut self.sink, &mut self.wrote, front, middle, end);
    }

    /// Adds text.
    pub(crate) fn push(&mut self, text: &str)
        ensures { Adds self.old self.new text.now }
    {
        self.push_bytes(text.as_bytes());
    }

    /// Adds a number in decimal digits.
    pub(crate) fn push_number(&mut self, number: u64)
        ensures { Adds self.old self.new (decimal number) }
    {
        self.push(Buffer::new().format(number));
    }

    /// Adds a word and a number.
    pub(crate) fn push_numbered(&mut self, word: &str, number: usize)
        ensures { Adds self.old self.new (numbered word.now number) }
    {
        self.push(word);
        self.push_number(number as u64);
    }

    /// Adds a metric.
    pub(crate) fn push_metric(&mut self, metric: Metric)
        ensures { Adds self.old self.new (decimal metric) }
    {
        self.push_number(u64::from(metric.get()));
    }

    /// Adds an address.
    pub(crate) fn push_address(&mut self, address: Address)
        ensures { Adds self.old self.new (address_text address) }
    {
        self.push(address.encode(&mut [0; ADDRESS_BYTES]));
    }

    /// Adds a prefix.
    pub(crate) fn push_prefix(&mut self, prefix: Prefix)
        ensures { Adds self.old self.new (prefix_text prefix) }
    {
        self.push(prefix.encode(&mut [0; PREFIX_BYTES]));
    }

    /// Ends the line.
    pub(crate) fn end(&mut self)
        ensures { Adds self.old self.new (10 ∷ []) }
    {
        self.push("\n");
    }

    /// Sends what has not gone out yet, so that it need not wait for more.
    pub(crate) fn send(&mut self)
        ensures adds { Adds self.old self.new [] }
        ensures sent { HasGoneOut self.new }
    {
        self.page.clear(&mut self.sink, &mut self.wrote);
    }

    /// Sends what has not gone out yet, unless there is room for so many bytes behind it: a text
    /// that is no longer then goes out at once.
    pub(crate) fn make_room(&mut self, count: usize)
        ensures { Adds self.old self.new [] }
    {
        self.page.make_room(&mut self.sink, &mut self.wrote, count);
    }

    /// Whether a write has failed, so that a loop may stop early.
    pub(crate) fn has_failed(&self) -> bool
        ensures failed { result ≡ self.now.failed }
        ensures way { result ≡ false →
            IsOnItsWay K.taken K.broken self.now.start self.now.text }
    {
        self.wrote.is_err()
    }

    /// Sends what is left. The sink comes back, and whether all text went out.
    pub(crate) fn finish(self) -> (K, Result<(), Failed>)
        ensures writes { Writes self.start (sink_state K.taken K.broken result.0) result.1
            self.text [] }
        ensures failed { self.failed ≡ true → is_err result.1 ≡ true }
    {
        let Out {
            mut sink,
            mut page,
            wrote,
            ..
        } = self;
        match wrote {
            Ok(()) => {
                let sent = page.flush(&mut sink);
                (sink, sent)
            }
            Err(Failed) => (sink, Err(Failed)),
        }
    }

    /// Sends what is left, and ends a run with this answer, or with Write where the sink has
    /// failed: Write is the answer of a run that stopped there.
    pub(crate) fn finish_with(
        self,
        answer: Result<Status, RunError>,
    ) -> (K, Result<Status, RunError>)
        requires { answer ≡ Err RunError.Write → self.failed ≡ true }
        ensures { EndsWith self.start (sink_state K.taken K.broken result.0) self.text answer
            result.1 }
    {
        match self.finish() {
            (sink, Ok(())) => (sink, answer),
            (sink, Err(Failed)) => (sink, Err(RunError::Write)),
        }
    }

    /// The sink, where no text is to go out.
    fn take_back(self) -> K
        ensures { sink_state K.taken K.broken result ≡ self.sink }
    {
        self.sink
    }

    /// Ends a run by what a command has added: with its status, or with Memory where it added
    /// nothing.
    pub(crate) fn answer(self, added: Result<Status, AllocError>) -> (K, Result<Status, RunError>)
        ensures { Answers self added (sink_state K.taken K.broken result.0) result.1 }
    {
        match added {
            Ok(status) => self.finish_with(Ok(status)),
            Err(_) => (self.take_back(), Err(RunError::Memory)),
        }
    }
}

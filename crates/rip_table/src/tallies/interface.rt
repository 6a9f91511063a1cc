//! What an interface sent, counted.

ghost use Rattle.std.specs.Prelude.{◌≡◌, ◌<◌, ◌≤◌, ◌++◌, ◌∷◌, [], ℕ, List, Option, Some, None, IsSome};
ghost use Rattle.rip_table.specs.Events.{EventAt, joined, refused, request, bad};
ghost use Rattle.rip_table.specs.Tallies.{IsAtMost, sent_event, with_event};
ghost use Rattle.rip_log.specs.Said.{Origin};
ghost use Rattle.rip_table.specs.declared.error.TableError.{TableError};
ghost use Rattle.rip_log.specs.declared.limits.TheConstants.{MOST_LINES};

use super::lines::Lines;
use crate::error::TableError;
use rip_log::LogCode;
use rip_wire::Address;

/// Why a response is refused, and of code 2 the next hop of the bad entry.
#[derive(Clone, Copy, Debug, PartialEq, Eq)]
pub struct Refusal {
    /// Why.
    pub error: TableError,
    /// The next hop that the bad entry has, where that is what is wrong.
    pub next_hop: Option<Address>,
}

/// What came of a line of an interface: of a response, of a line that is bad by its datagram, or of
/// a request.
#[derive(Clone, Copy)]
pub(crate) enum Sent {
    Joined,
    Refused(Refusal),
    Bad(LogCode),
    Asked,
}

/// What an interface sent.
#[derive(Clone, Copy, Debug, PartialEq, Eq)]
pub struct InterfaceTally {
    /// Its responses that were joined.
    pub joined: Lines,
    /// Its responses that were refused.
    pub refused: Lines,
    /// How many of these came first, or after one that was joined.
    pub runs: u32,
    /// Why the first of these was refused.
    pub first_refusal: Option<Refusal>,
    /// Its lines that are bad by their datagram.
    pub bad: Lines,
    /// Why the first of these is bad.
    pub first_bad: Option<LogCode>,
    /// Its requests.
    pub requests: Lines,
    // Whether its last response was joined, or there was none.
    in_order: bool,
}

impl InterfaceTally {
    /// Of an interface that sent nothing.
    pub(crate) const NONE: InterfaceTally = InterfaceTally {
        joined: Lines::NONE,
        refused: Lines::NONE,
        runs: 0,
        first_refusal: None,
        bad: Lines::NONE,
        first_bad: None,
        requests: Lines::NONE,
        in_order: true,
    };

    /// A response was joined.
    fn join(&mut self, line: u32)
        requires { self.old.joined.count ≤ MOST_LINES }
        ensures { (i : ℕ) → self.new ≡ with_event i self.old
            (record { line = line; event = joined i }) }
    {
        self.joined.add(line);
        self.in_order = true;
    }

    /// A response was refused, and one before it too.
    pub(crate) fn refuse_again(&mut self, line: u32)
        requires refused { self.old.refused.count ≤ MOST_LINES }
        requires runs { self.old.runs ≤ MOST_LINES }
        requires again { IsSome self.old.first_refusal }
        ensures { (i : ℕ) (error : TableError) (hop : Option ℕ) → self.new ≡ with_event i self.old
            (record { line = line; event = refused i error hop }) }
    {
        self.refused.add(line);
        if self.in_order {
            self.runs += 1;
        }
        self.in_order = false;
    }

    /// A response was refused.
    fn refuse(&mut self, line: u32, refusal: Refusal)
        requires refused { self.old.refused.count ≤ MOST_LINES }
        requires runs { self.old.runs ≤ MOST_LINES }
        ensures { (i : ℕ) → self.new ≡ with_event i self.old
            (record { line = line; event = refused i refusal.error refusal.next_hop }) }
    {
        if self.first_refusal.is_none() {
            self.first_refusal = Some(refusal);
        }
        self.refuse_again(line);
    }

    /// A line is bad by its datagram.
    fn add_bad(&mut self, line: u32, code: LogCode)
        requires { self.old.bad.count ≤ MOST_LINES }
        ensures { (i : ℕ) (origin : Option Origin) → self.new ≡ with_event i self.old
            (record { line = line; event = bad code origin (Some i) }) }
    {
        if self.first_bad.is_none() {
            self.first_bad = Some(code);
        }
        self.bad.add(line);
    }

    /// Counts a request.
    fn ask(&mut self, line: u32)
        requires { self.old.requests.count ≤ MOST_LINES }
        ensures { (i : ℕ) → self.new ≡ with_event i self.old
            (record { line = line; event = request (Some i) }) }
    {
        self.requests.add(line);
    }

    /// One thing more that it sent, on a later line.
    pub(crate) fn add(&mut self, line: u32, sent: Sent)
        requires { IsAtMost MOST_LINES self.old }
        ensures { (i : ℕ) (origin : Option Origin) → self.new ≡ with_event i self.old
            (record { line = line; event = sent_event i origin sent }) }
    {
        match sent {
            Sent::Joined => self.join(line),
            Sent::Refused(refusal) => self.refuse(line, refusal),
            Sent::Bad(code) => self.add_bad(line, code),
            Sent::Asked => self.ask(line),
        }
    }
}

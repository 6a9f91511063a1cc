//! How many lines came to what.

ghost use Rattle.std.specs.Prelude.{◌≡◌, [], ℕ, Option};
ghost use Rattle.rip_log.specs.Said.{Origin};
ghost use Rattle.rip_log.specs.declared.error.LogCode.{LogCode};
ghost use Rattle.rip_log.specs.declared.limits.TheConstants.{MOST_LINES};
ghost use Rattle.rip_table.specs.declared.error.TableError.{TableError};
ghost use Rattle.rip_table.specs.Events.{bad, refused};
ghost use Rattle.rip_table.specs.Tallies.{AreAtMost, counts_of, counts_with, sent_event, stranger_event};

use super::interface::Sent;
use crate::events::Event;
use crate::listener::Listener;
use rip_log::LogCode;
use rip_plan::Plan;
use std::alloc::AllocError;

/// How many responses were joined, how many were refused, how many came from strangers, and how
/// many lines are bad.
#[derive(Clone, Copy, Debug, PartialEq, Eq)]
pub struct Counts {
    /// The responses that were joined.
    pub joined: u32,
    /// The responses of interfaces that were refused.
    pub refused: u32,
    /// The responses of strangers.
    pub strangers: u32,
    /// The bad lines.
    pub bad: u32,
}

impl Counts {
    /// Of no lines.
    pub(crate) const NONE: Counts = Counts {
        joined: 0,
        refused: 0,
        strangers: 0,
        bad: 0,
    };

    /// Before any line.
    pub fn new() -> Counts
        ensures { result ≡ counts_of [] }
    {
        Counts::NONE
    }

    /// Counts what an interface sent.
    pub(crate) fn add_sent(&mut self, sent: &Sent)
        requires { AreAtMost MOST_LINES self.old }
        ensures { (i : ℕ) (origin : Option Origin) →
            self.new ≡ counts_with self.old (sent_event i origin sent.now) }
    {
        match sent {
            Sent::Joined => self.joined += 1,
            Sent::Refused(_) => self.refused += 1,
            Sent::Bad(_) => self.bad += 1,
            Sent::Asked => {}
        }
    }

    /// Counts a response that was refused.
    pub(crate) fn add_refused(&mut self)
        requires { AreAtMost MOST_LINES self.old }
        ensures { (i : ℕ) (error : TableError) (hop : Option ℕ) →
            self.new ≡ counts_with self.old (refused i error hop) }
    {
        self.refused += 1;
    }

    /// Counts a line of a stranger: a response, or a line that is bad by this code.
    pub(crate) fn add_stranger(&mut self, bad: Option<LogCode>)
        requires { AreAtMost MOST_LINES self.old }
        ensures { (o : Origin) → self.new ≡ counts_with self.old (stranger_event o bad) }
    {
        match bad {
            None => self.strangers += 1,
            Some(_) => self.bad += 1,
        }
    }

    /// Counts a bad line.
    pub(crate) fn add_bad(&mut self)
        requires { AreAtMost MOST_LINES self.old }
        ensures { (code : LogCode) (origin : Option Origin) (i : Option ℕ) →
            self.new ≡ counts_with self.old (bad code origin i) }
    {
        self.bad += 1;
    }
}

impl Listener for Counts {
    ghost use Rattle.std.specs.Prelude.{◌≡◌, ⊤};

    ghost holds = { λ counts events. counts ≡ counts_of events };

    ghost suits = { λ _ _. ⊤ };

    ghost may_allocate = { λ _. ⊥ };

    fn hear(&mut self, _plan: &Plan, _line: u32, event: &Event<'_>) -> Result<(), AllocError> {
        match event {
            Event::Joined(_) => self.add_sent(&Sent::Joined),
            Event::Refused(_) => self.add_refused(),
            Event::Stranger(_) => self.add_stranger(None),
            Event::Request(_) => {}
            Event::Bad(_) => self.add_bad(),
        }
        Ok(())
    }
}

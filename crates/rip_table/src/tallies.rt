//! Who spoke in a log, counted.

ghost use Rattle.std.specs.Prelude.{◌≡◌, ◌<◌, ◌≤◌, ◌++◌, ◌∷◌, [], ℕ, List, Option, Some, None, IfOk, IfSome, IsSome, OnErr, OnOk, length, slice_get};
ghost use Rattle.rip_log.specs.Said.{Origin};
ghost use Rattle.rip_log.specs.declared.limits.TheConstants.{MOST_LINES};
ghost use Rattle.rip_table.specs.Events.{EventAt, bad, refused, request};
ghost use Rattle.rip_table.specs.CollectsAll.{IsPlanned, event_told};
ghost use Rattle.rip_table.specs.declared.error.TableError.{TableError};
ghost use Rattle.rip_table.specs.declared.events.Event.TheVariants as told;
ghost use Rattle.rip_table.specs.declared.tallies.interface.InterfaceTally.{InterfaceTally};
ghost use Rattle.rip_table.specs.Tallies.{HasHeard, HasRoom, IsOfStranger, counts_of, if_line, interface_tally, interfaces_of, is_of_others, is_other_request, is_plain_bad, lines_in, lines_where, origin_of, plain_code, sent_event, stranger_line, stranger_tally, strangers_told, told_after};
ghost use Rattle.rip_table.specs.declared.tallies.lines.Lines.{Lines};

pub mod counts;
pub mod interface;
pub mod lines;
pub mod strangers;

use self::counts::Counts;
use self::interface::{InterfaceTally, Refusal, Sent};
use self::lines::Lines;
use self::strangers::{StrangerTally, Strangers};
use crate::events::{Bad, Event, Refused};
use crate::listener::Listener;
use rip_log::LogCode;
use rip_plan::Plan;
use rip_wire::Address;
use std::alloc::{AllocError, Global};
use std::hash::BuildHasher;

/// How many codes say nothing of where a line came from: 1 to 5, and 8.
const PLAIN_CODES: usize = 6;

/// Who spoke in a log: how many responses came to what, what each interface and each stranger sent,
/// and the lines of nobody.
#[derive(Drop)]
pub struct Tallies<S: BuildHasher> {
    counts: Counts,
    interfaces: Vec<InterfaceTally>,
    strangers: Strangers<S>,
    plain: [Lines; PLAIN_CODES],
    other_requests: Lines,
}

/// The number of a code among those of lines that say nothing of where they came from.
fn number_of(code: LogCode) -> Option<usize>
    ensures value { result ≡ plain_code code }
    ensures below { IfSome result (λ k. k < 6) }
{
    match code {
        LogCode::LongLine => Some(0),
        LogCode::Fields => Some(1),
        LogCode::LinkName => Some(2),
        LogCode::Sender => Some(3),
        LogCode::Hex => Some(4),
        LogCode::TooManyLines => Some(5),
        _ => None,
    }
}

/// Adds a bad line of nobody to those of its code.
fn add_plain(plain: &mut [Lines; PLAIN_CODES], line: u32, code: LogCode)
    requires { (k : ℕ) (l : Lines) → slice_get plain.old k ≡ Some l → l.count ≤ MOST_LINES }
    ensures size { length plain.new ≡ length plain.old }
    ensures lines { (k : ℕ) (l : Lines) → slice_get plain.new k ≡ Some l →
        (was : Lines) × (slice_get plain.old k ≡ Some was)
        × (l ≡ if_line (is_plain_bad k (bad code None None)) was line) }
{
    if let Some(k) = number_of(code) {
        plain[k].add(line);
    }
}

impl<S: BuildHasher + Drop> Tallies<S> {
    /// Before any line. It finds strangers by hashing with `hasher`; since they choose their names,
    /// a program hands in one that is seeded at random.
    pub fn with_hasher(alloc: Global, plan: &Plan, hasher: S) -> Result<Tallies<S>, AllocError>
        ensures heard { IfOk result (λ t. HasHeard t []) }
        ensures interfaces { IfOk result (λ t.
            interfaces_of t ≡ length plan.now.interfaces) }
    {
        plan.lawful();
        Ok(Tallies {
            counts: Counts::NONE,
            interfaces: vec![in alloc; InterfaceTally::NONE; plan.interfaces()]?,
            strangers: Strangers::with_hasher(alloc, hasher),
            plain: [Lines::NONE; PLAIN_CODES],
            other_requests: Lines::NONE,
        })
    }

    /// What an interface sent, on a line after others.
    pub(crate) fn add_sent(&mut self, interface: usize, line: u32, sent: Sent)
        requires interface { interface < interfaces_of self.old }
        requires room { HasRoom self.old }
        ensures heard { (events : List EventAt) (origin : Option Origin) →
            HasHeard self.old events → HasHeard self.new (events
            ++ (record { line = line; event = sent_event interface origin sent }) ∷ []) }
        ensures interfaces { interfaces_of self.new ≡ interfaces_of self.old }
    {
        self.counts.add_sent(&sent);
        self.interfaces[interface].add(line, sent);
    }

    /// Counts one more refused response of an interface that had one refused on an earlier line.
    fn add_refused_again(&mut self, interface: usize, line: u32)
        requires interface { interface < interfaces_of self.old }
        requires room { HasRoom self.old }
        requires again { (t : InterfaceTally) →
            slice_get self.old.interfaces.items interface ≡ Some t → IsSome t.first_refusal }
        ensures heard { (events : List EventAt) (error : TableError) (hop : Option ℕ) →
            HasHeard self.old events → HasHeard self.new (events
            ++ (record { line = line; event = refused interface error hop }) ∷ []) }
        ensures interfaces { interfaces_of self.new ≡ interfaces_of self.old }
    {
        self.counts.add_refused();
        self.interfaces[interface].refuse_again(line);
    }

    /// What a stranger sent: a response, or a line that is bad by this code. Where memory fails
    /// nothing is counted.
    pub(crate) fn add_stranger(
        &mut self,
        link: &str,
        address: Address,
        line: u32,
        bad: Option<LogCode>,
    ) -> Result<(), AllocError>
        requires room { HasRoom self.old }
        ensures heard { OnOk result ((events : List EventAt) → HasHeard self.old events →
            HasHeard self.new (events
            ++ stranger_line (origin_of link.now address) line bad ∷ [])) }
        ensures kept { OnErr result ((events : List EventAt) → HasHeard self.old events →
            HasHeard self.new events) }
        ensures interfaces { interfaces_of self.new ≡ interfaces_of self.old }
    {
        self.strangers.add(link, address, line, bad)?;
        self.counts.add_stranger(bad);
        Ok(())
    }

    /// A request of nobody that is planned, on a line after others.
    pub(crate) fn add_request(&mut self, line: u32)
        requires room { HasRoom self.old }
        ensures heard { (events : List EventAt) → HasHeard self.old events →
            HasHeard self.new (events ++ (record { line = line; event = request None }) ∷ []) }
        ensures interfaces { interfaces_of self.new ≡ interfaces_of self.old }
    {
        self.other_requests.add(line);
    }

    /// A bad line of nobody, after others.
    pub(crate) fn add_bad(&mut self, line: u32, code: LogCode)
        requires room { HasRoom self.old }
        ensures heard { (events : List EventAt) → HasHeard self.old events →
            HasHeard self.new (events
            ++ (record { line = line; event = bad code None None }) ∷ []) }
        ensures interfaces { interfaces_of self.new ≡ interfaces_of self.old }
    {
        self.counts.add_bad();
        add_plain(&mut self.plain, line, code);
    }

    /// How many lines came to what.
    pub fn counts(&self) -> Counts
        ensures { (events : List EventAt) → HasHeard self.now events → result ≡ counts_of events }
    {
        self.counts
    }

    /// What an interface sent.
    pub fn interface(&self, i: usize) -> InterfaceTally
        requires { i < interfaces_of self.now }
        ensures { (events : List EventAt) → HasHeard self.now events →
            result ≡ interface_tally i events }
    {
        self.interfaces[i]
    }

    /// How many strangers are told: all, but no more than 256.
    pub fn strangers(&self) -> usize
        ensures told { (events : List EventAt) → HasHeard self.now events →
            result ≡ length (told_after [] events) }
        ensures count { result ≡ strangers_told self.now }
    {
        self.strangers.count()
    }

    /// The name of the link on which a stranger that is told spoke.
    pub fn stranger_link(&self, k: usize) -> &str
        requires { k < strangers_told self.now }
        ensures { (events : List EventAt) (o : Origin) → HasHeard self.now events →
            slice_get (told_after [] events) k ≡ Some o → result.now ≡ o.link }
    {
        self.strangers.link(k)
    }

    /// The address of a stranger that is told.
    pub fn stranger_address(&self, k: usize) -> Address
        requires { k < strangers_told self.now }
        ensures { (events : List EventAt) (o : Origin) → HasHeard self.now events →
            slice_get (told_after [] events) k ≡ Some o → result ≡ o.sender }
    {
        self.strangers.address(k)
    }

    /// What a stranger that is told sent.
    pub fn stranger(&self, k: usize) -> StrangerTally
        requires { k < strangers_told self.now }
        ensures { (events : List EventAt) (o : Origin) → HasHeard self.now events →
            slice_get (told_after [] events) k ≡ Some o → result ≡ stranger_tally o events }
    {
        self.strangers.tally(k)
    }

    /// The lines of the strangers that are not told.
    pub fn other_strangers(&self) -> Lines
        ensures { (events : List EventAt) → HasHeard self.now events →
            result ≡ lines_in (lines_where (is_of_others (told_after [] events)) events) }
    {
        self.strangers.others()
    }

    /// The lines that are bad by a code that says nothing of where they came from: 1 to 5, or 8.
    pub fn bad(&self, code: LogCode) -> Lines
        requires { IsSome (plain_code code) }
        ensures { (events : List EventAt) (k : ℕ) → HasHeard self.now events →
            plain_code code ≡ Some k → result ≡ lines_in (lines_where (is_plain_bad k) events) }
    {
        match number_of(code) {
            Some(k) => self.plain[k],
            None => unreachable!(),
        }
    }

    /// The requests of those that are not planned.
    pub fn other_requests(&self) -> Lines
        ensures { (events : List EventAt) → HasHeard self.now events →
            result ≡ lines_in (lines_where is_other_request events) }
    {
        self.other_requests
    }
}

impl<S: BuildHasher + Drop> Tallies<S> {
    /// Hears of a response that was refused. Only of the first of its interface the next hop is
    /// sought.
    fn hear_refused(&mut self, plan: &Plan, line: u32, refused: &Refused<'_>)
        requires interface { refused.now.interface < length plan.now.interfaces }
        requires suits { interfaces_of self.old ≡ length plan.now.interfaces }
        requires room { HasRoom self.old }
        ensures heard { (events : List EventAt) → HasHeard self.old events →
            HasHeard self.new (events ++ (record {
              line = line;
              event = event_told plan.now (told.Refused refused.now);
            }) ∷ []) }
        ensures interfaces { interfaces_of self.new ≡ interfaces_of self.old }
    {
        if self.interfaces[refused.interface].first_refusal.is_some() {
            self.add_refused_again(refused.interface, line);
            return;
        }
        let refusal = Refusal {
            error: refused.error,
            next_hop: refused.next_hop(plan),
        };
        self.add_sent(refused.interface, line, Sent::Refused(refusal));
    }

    /// Hears of a request, of an interface or of nobody that is planned.
    fn hear_request(&mut self, line: u32, interface: Option<usize>)
        requires planned { IfSome interface (λ i. i < interfaces_of self.old) }
        requires room { HasRoom self.old }
        ensures heard { (events : List EventAt) → HasHeard self.old events →
            HasHeard self.new (events ++ (record { line = line; event = request interface }) ∷ []) }
        ensures interfaces { interfaces_of self.new ≡ interfaces_of self.old }
    {
        match interface {
            Some(interface) => self.add_sent(interface, line, Sent::Asked),
            None => self.add_request(line),
        }
    }

    /// Hears of a bad line.
    fn hear_bad(&mut self, plan: &Plan, line: u32, bad: &Bad<'_>) -> Result<(), AllocError>
        requires planned { IsPlanned plan.now (event_told plan.now (told.Bad bad.now)) }
        requires suits { interfaces_of self.old ≡ length plan.now.interfaces }
        requires room { HasRoom self.old }
        ensures heard { OnOk result ((events : List EventAt) → HasHeard self.old events →
            HasHeard self.new (events ++ (record {
              line = line;
              event = event_told plan.now (told.Bad bad.now);
            }) ∷ [])) }
        ensures allocates { OnErr result (IsOfStranger (event_told plan.now (told.Bad bad.now))) }
        ensures interfaces { interfaces_of self.new ≡ interfaces_of self.old }
    {
        if let Some(interface) = bad.interface {
            self.add_sent(interface, line, Sent::Bad(bad.code));
            return Ok(());
        }
        match &bad.origin {
            Some(sender) => self.add_stranger(sender.link, sender.address, line, Some(bad.code)),
            None => {
                self.add_bad(line, bad.code);
                Ok(())
            }
        }
    }
}

impl<S: BuildHasher + Drop> Listener for Tallies<S> {
    ghost holds = { HasHeard };

    ghost suits = { λ n t. interfaces_of t ≡ length n.interfaces };

    ghost may_allocate = { IsOfStranger };

    fn hear(&mut self, plan: &Plan, line: u32, event: &Event<'_>) -> Result<(), AllocError> {
        match event {
            Event::Joined(interface) => self.add_sent(*interface, line, Sent::Joined),
            Event::Refused(refused) => self.hear_refused(plan, line, refused),
            Event::Stranger(sender) => {
                self.add_stranger(sender.link, sender.address, line, None)?;
            }
            Event::Request(interface) => self.hear_request(line, *interface),
            Event::Bad(bad) => self.hear_bad(plan, line, bad)?,
        }
        Ok(())
    }
}

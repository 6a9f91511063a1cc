//! Laws of the definitions alone: functions that do nothing, whose contracts hold of every plan and
//! every log.

ghost use Rattle.std.specs.Prelude.{◌≡◌, ◌≢◌, ◌≤◌, ◌↔◌, ◌+◌, ℕ, true, List, [], ◌∷◌, ◌++◌, Option, None, Some, Ok, Err, length, slice_get};
ghost use Rattle.rip_wire.specs.Message.{request, response, message_in};
ghost use Rattle.rip_wire.specs.declared.entry.Entry.{Entry};
ghost use Rattle.rip_plan.specs.Network.{Network, found_at};
ghost use Rattle.rip_plan.specs.Relations.{IsAt, IsLawful};
ghost use Rattle.rip_log.specs.Lines.{Capture};
ghost use Rattle.rip_log.specs.Said.{AllSaid, SaidAt, said_at};
ghost use Rattle.rip_log.specs.Logs.{Log, Numbered, log_at};
ghost use Rattle.rip_log.specs.declared.limits.TheConstants.{MOST_LINES};
ghost use Rattle.rip_table.specs.State.{AreDistinct, Fits, IsState, State, new_state};
ghost use Rattle.rip_table.specs.Joined.{brings_pair, joined_capture, joined_entries, joined_message, joined_records, outcome, refused_at};
ghost use Rattle.rip_table.specs.Events.{AreCalm, ComeTo, EventAt, all_events, events_of, state_after};
ghost use Rattle.rip_table.specs.Firsts.{IsUpToRefusal};
ghost use Rattle.rip_table.specs.Tallies.{counts_of};
ghost use Rattle.rip_table.specs.LogJoin.{AreJoined, HasBadEntry, IsFirstRefused, IsJoin, IsJoined, IsListed, IsOutcome, IsResponse};
ghost use Rattle.rip_table.specs.Window.{Window, forgotten, new_window, passed, shown, told_message};
ghost use Rattle.rip_log.specs.TimedText.{AreCaptured, LineSaid, TimedSaid};
ghost use Rattle.rip_table.specs.Remembered.{Remembers, Taken};
ghost use Rattle.rip_table.specs.Scenes.{LastsFor, View, after_said, closed_view, new_view, passed_view};
ghost use Rattle.rip_table.specs.Seconds.{AreWithin, EndsShowing, log_seconds};
ghost use Rattle.rip_table.specs.Seen.{BeginsIn, EndsIn, IsSeen};
ghost use Rattle.rip_table.specs.declared.error.CollectCause.{CollectCause};
ghost use Rattle.rip_table.specs.declared.error.CollectCause.TheVariants.{Table};
ghost use Rattle.rip_table.specs.declared.error.TableError.{TableError};
ghost use Rattle.rip_table.specs.declared.error.TableError.TheVariants.{Changed};
ghost use Rattle.rip_table.specs.declared.error.CollectError.{CollectError};

use crate::limits::{MOST_PREFIXES, MOST_WINDOW};
use crate::tallies::strangers::MOST_STRANGERS;
use rip_wire::laws;

pub mod examples;

/// The limits of a table, of a window, and of the strangers that are told of.
pub fn limits()
    ensures prefixes { MOST_PREFIXES ≡ 2048 }
    ensures window { MOST_WINDOW ≡ 86400 }
    ensures strangers { MOST_STRANGERS ≡ 256 }
{}

/// The table of a plan in which nothing was heard is a table, and fits the plan.
pub fn new_states()
    ensures { (n : Network) → IsLawful n → IsState (new_state n) × Fits n (new_state n) }
{}

/// A log is joined exactly where no record is refused, and then into the table that it makes: the
/// metrics that it tells, the interfaces that were heard, and prefixes in the order of their first
/// appearance.
pub fn joined_logs()
    ensures join { (n : Network) (old new : State) (log : List Numbered) →
        IsLawful n → IsState old → Fits n old →
        (joined_records n old log ≡ Ok new) ↔ IsJoined n old log new }
    ensures fits { (n : Network) (old new : State) (log : List Numbered) →
        Fits n old → joined_records n old log ≡ Ok new → Fits n new }
{
    laws::response_fields();
    rip_plan::laws::senders();
}

/// The first entries of a response are joined exactly where none of them is bad, and then into the
/// table that they make.
pub fn joined_responses()
    ensures { (n : Network) (old new : State) (c : Capture) (i : ℕ) (front rest : List Entry) →
        IsState old → Fits n old → IsResponse n c i (front ++ rest) →
        (joined_entries n i old front ≡ Ok new) ↔ AreJoined n i old front new }
{}

/// A log joined into a table gives one table: two joins of the same log into the same table, with
/// each prefix once, are equal, the order of prefixes included.
pub fn one_join()
    ensures { (n : Network) (old s t : State) (log : List Numbered) →
        AreDistinct s.prefixes → AreDistinct t.prefixes →
        IsJoin n old log s → IsJoin n old log t → s ≡ t }
{}

/// A log is refused exactly by its first record that is refused, and its line is that record's;
/// else by the log's own fault.
pub fn refused_logs()
    ensures records { (n : Network) (old : State) (log : List Numbered) (cause : CollectCause) →
        IsLawful n → IsState old → Fits n old →
        (joined_records n old log ≡ Err cause)
        ↔ ((s : State) × (line : ℕ) × IsFirstRefused n old log s line cause) }
    ensures outcome { (n : Network) (old s : State) (log : Log) (fault : Option CollectError) →
        IsLawful n → IsState old → Fits n old →
        (outcome n old log ≡ record { state = s; fault = fault }) ↔ IsOutcome n old log s fault }
{
    laws::response_fields();
    rip_plan::laws::senders();
}

/// What lines come to is what the words say: each comes to one event, by the table that those
/// before it leave.
pub fn lines_come_to()
    ensures { (n : Network) (old new : State) (said : List SaidAt) (events : List EventAt) →
        IsLawful n → IsState old → Fits n old →
        ((events_of n old said ≡ events) × (state_after n old said ≡ new))
        ↔ ComeTo n old said events new }
{
    laws::response_fields();
    rip_plan::laws::senders();
}

/// Nothing is refused, a stranger's or bad exactly where the log is accepted, and the table is then
/// the one that the log makes.
pub fn calm_logs()
    ensures { (n : Network) (old new : State) (k : ℕ) (text : List ℕ) (log : Log) (all : AllSaid) →
        IsLawful n → IsState old → Fits n old →
        log_at k (Some text) ≡ Some log → said_at k (Some text) ≡ Some all →
        IsOutcome n old log new None
        ↔ (AreCalm (all_events n old all) × (state_after n old all.said ≡ new)) }
{
    rip_log::laws::good_lines();
    joined_logs();
}

/// Nothing is refused, a stranger's or bad exactly where the counts of these are 0.
pub fn calm_counts()
    ensures { (events : List EventAt) → AreCalm events
        ↔ (((counts_of events).refused ≡ 0) × ((counts_of events).strangers ≡ 0)
        × ((counts_of events).bad ≡ 0)) }
{}

/// A log is refused by the first event of its lines that refuses, and the table is then the one
/// that the lines before it leave. So the reading that ends there and the one that goes on agree up
/// to it.
pub fn first_refusals()
    ensures { (n : Network) (old : State) (k : ℕ) (text : List ℕ) (log : Log) (all : AllSaid) →
        k ≤ MOST_LINES → log_at k (Some text) ≡ Some log → said_at k (Some text) ≡ Some all →
        IsUpToRefusal n old all (outcome n old log).state (outcome n old log).fault }
{
    rip_log::laws::logs_said();
}

/// A response of an interface is refused exactly by its first bad entry.
pub fn refused_responses()
    ensures { (n : Network) (s : State) (c : Capture) (i : ℕ) (entries : List Entry)
        (error : TableError) → IsLawful n → IsState s → Fits n s → IsResponse n c i entries →
        (joined_message n i s (response entries) ≡ Err error) ↔ HasBadEntry n s c error }
{
    laws::response_fields();
    rip_plan::laws::senders();
}

/// A response brings a pair of interface and prefix, for which a table may allocate, exactly where
/// an entry is of a prefix that its interface did not show.
pub fn new_pairs()
    ensures { (i : ℕ) (s : State) (entries : List Entry) →
        (brings_pair i s (response entries) ≡ true)
        ↔ ((k : ℕ) × (e : Entry) × (slice_get entries k ≡ Some e) × (s.shows i e.prefix ≡ None)) }
{}

/// A request changes nothing, whoever sent it.
pub fn kept_requests()
    ensures { (n : Network) (s : State) (c : Capture) →
        message_in c.datagram ≡ Ok request → joined_capture n s c ≡ Ok s }
{}

/// A table that forgets shows in each second what the responses of the last so many seconds told
/// last, however it got there: new, told, a second later, or without the prefixes that nobody shows.
pub fn windows()
    ensures new { (n : Network) (seconds second : ℕ) → Remembers seconds second [] (new_window n) }
    ensures told { (n : Network) (seconds second i : ℕ) (old new : Window) (c : Capture)
        (entries : List Entry) (taken : List Taken) →
        1 ≤ seconds → IsState (shown old) → Fits n (shown old) → IsResponse n c i entries →
        told_message n seconds i old (response entries) ≡ Ok new →
        Remembers seconds second taken old →
        Remembers seconds second
        (taken ++ (record { second = second; interface = i; entries = entries }) ∷ []) new }
    ensures passed { (seconds second : ℕ) (taken : List Taken) (w : Window) →
        Remembers seconds second taken w → Remembers seconds (second + 1) taken (passed w) }
    ensures forgotten { (n : Network) (seconds second : ℕ) (taken : List Taken) (w : Window) →
        Remembers seconds second taken w → Remembers seconds second taken (forgotten n w) }
{
    laws::response_fields();
}

/// Nothing in a scene lasts for longer than a window: so many seconds after the last line nothing is
/// left, and each later second is as the one before.
pub fn lasting_scenes()
    ensures new { (n : Network) (seconds : ℕ) → LastsFor seconds (new_view n) }
    ensures said { (n : Network) (seconds line : ℕ) (said : TimedSaid) (v : View) → 1 ≤ seconds →
        LastsFor seconds v → LastsFor seconds (after_said n seconds line said v) }
    ensures passed { (seconds : ℕ) (v : View) →
        LastsFor (seconds + 1) v → LastsFor seconds (passed_view v) }
    ensures closed { (n : Network) (seconds : ℕ) (v : View) →
        LastsFor seconds v → LastsFor seconds (closed_view n v) }
    ensures over { (v : View) → LastsFor 0 v → passed_view v ≡ v }
    ensures once { (n : Network) (v : View) → closed_view n (closed_view n v) ≡ closed_view n v }
{}

/// A log that lies within a window and is joined ends with the table that it makes: in its last
/// second is no episode, and what is shown then is what the log makes of a table without its times.
pub fn last_seconds()
    ensures { (n : Network) (window : ℕ) (said : List LineSaid) (records : List Numbered)
        (s : State) → IsLawful n → AreWithin window said → AreCaptured said records →
        IsJoined n (new_state n) records s → EndsShowing (log_seconds n window said) s }
{
    new_states();
    joined_logs();
    rip_plan::laws::senders();
}

/// The seconds of a log run from that of its first line to the last that a line has, one by one.
pub fn running_seconds()
    ensures number { (n : Network) (window k first second : ℕ) (said : List LineSaid) (v : View) →
        BeginsIn said first → slice_get (log_seconds n window said) k ≡ Some (second, v) →
        second ≡ first + k }
    ensures count { (n : Network) (window first last : ℕ) (said : List LineSaid) →
        BeginsIn said first → EndsIn said last →
        first + length (log_seconds n window said) ≡ last + 1 }
{}

/// What is to be seen at the end of each second of a log is what the words say: what the responses
/// that were taken up to it told last, the prefixes as they came since they were last forgotten, and
/// the episode of the lines that were refused up to it.
pub fn seen_seconds()
    ensures { (n : Network) (window k second : ℕ) (said : List LineSaid) (v : View) →
        IsLawful n → 1 ≤ window → slice_get (log_seconds n window said) k ≡ Some (second, v) →
        IsSeen n window said second v }
{
    windows();
    laws::response_fields();
    rip_plan::laws::senders();
}

/// The interface that is found for a link and a sender is the one that has the address there.
pub fn found_interfaces()
    ensures { (n : Network) (name : List ℕ) (a i : ℕ) →
        IsLawful n → (found_at n name a ≡ Some i) ↔ IsAt n name a i }
{
    rip_plan::laws::senders();
}

/// A response with one entry, whose prefix is new, puts the prefix last in the list and shows its
/// metric.
pub fn new_prefixes()
    ensures { (n : Network) (old new : State) (r : Numbered) (i : ℕ) (e : Entry) →
        IsState new → IsJoin n old (r ∷ []) new →
        IsResponse n r.capture i (e ∷ []) → ¬ IsListed old e.prefix →
        (new.prefixes ≡ old.prefixes ++ e.prefix ∷ [])
        × (new.shows i e.prefix ≡ Some e.metric)
        × (new.heard i ≡ true) }
{
    laws::response_fields();
}

/// A response with one entry that gives a prefix another metric than the one before is refused on
/// its line, whatever follows.
pub fn changed_metrics()
    ensures { (n : Network) (old s : State) (first second : Numbered) (log : Log)
        (rest : List Numbered) (i : ℕ) (e f : Entry) →
        IsLawful n → IsState old → Fits n old →
        log.records ≡ first ∷ second ∷ rest → joined_records n old (first ∷ []) ≡ Ok s →
        IsResponse n first.capture i (e ∷ []) → IsResponse n second.capture i (f ∷ []) →
        e.prefix ≡ f.prefix → e.metric ≢ f.metric →
        outcome n old log
        ≡ refused_at s second.line (Table (Changed f.prefix e.metric f.metric)) }
{
    laws::response_fields();
    rip_plan::laws::senders();
}

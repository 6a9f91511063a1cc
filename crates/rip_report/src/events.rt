//! Reports on a log that is read to its end: what `heard` and the commands with `--anyway` share.

ghost use Rattle.std.specs.Prelude.{◌≡◌, ◌≢◌, [], ℕ, Err, IfOk, List};
ghost use Rattle.rip_plan.specs.Network.{Network};
ghost use Rattle.rip_table.specs.Events.{EventAt};
ghost use Rattle.rip_table.specs.State.{Fits, State, new_state};
ghost use Rattle.rip_report.specs.Finished.{AddsWritten};
ghost use Rattle.rip_report.specs.Given.{IsGiven};
ghost use Rattle.rip_report.specs.Hearings.{EventsOf, OfAccepted};
ghost use Rattle.rip_report.specs.ReportText.{IsAccepted};
ghost use Rattle.rip_report.specs.Runs.{ReadsOn, RunsToEnd};
ghost use Rattle.rip_report.specs.Sent.{Prints, WentOut};
ghost use Rattle.rip_report.specs.Written.{Written};

use crate::laws::accepted_logs;
use crate::log::hear_log;
use crate::output::Out;
use crate::refusal::refuse_plan;
use crate::status::{RunError, Status};
use rip_log::{Sink, Source};
use rip_plan::Plan;
use rip_plan::laws::{one_plan, well_formed_texts};
use rip_table::{Counts, GridTable, Listener, MetricTable, Table};
use std::alloc::{AllocError, Global};
use std::hash::BuildHasher;

/// A command that reads a plan and a log to its end: what it tells of the table, and of what a
/// listener has heard.
pub(crate) trait EventReport<L: Listener> {
    // The texts that it may tell where the lines of a log come to these events and this table.
    ghost is_text: { Self → Network → List EventAt → State → Written → Type 0 };

    /// Adds what there is to say of a table, and of what a listener has heard; or nothing where a
    /// growth is refused.
    fn add<T: Table, K: Sink>(
        &self,
        alloc: Global,
        out: &mut Out<K>,
        plan: &Plan,
        table: &T,
        listener: &L,
    ) -> Result<Status, AllocError>
        requires fits { Fits plan.now (T.state table.now) }
        requires suits { L.suits plan.now listener.now }
        ensures { (events : List EventAt) → L.holds listener.now events →
            AddsWritten out.old out.new result
            (is_text self.now plan.now events (T.state table.now)) };
}

/// Writes what a command tells of a table, and of what a listener has heard.
fn write_events<C: EventReport<L>, L: Listener, T: Table, K: Sink>(
    alloc: Global,
    command: &C,
    plan: &Plan,
    table: &T,
    listener: &L,
    out: K,
) -> (K, Result<Status, RunError>)
    requires fits { Fits plan.now (T.state table.now) }
    requires suits { L.suits plan.now listener.now }
    ensures prints { (events : List EventAt) → L.holds listener.now events →
        Prints K.taken K.broken out result.0 result.1
        (C.is_text command.now plan.now events (T.state table.now)) }
    ensures read { result.1 ≢ Err RunError.Read }
{
    let mut text = Out::new(out);
    let added = command.add(alloc, &mut text, plan, table, listener);
    text.answer(added)
}

/// Writes the report on a log by its plan. The table is new, and the listener has heard nothing.
/// (Why so many arguments: DECISIONS.md.)
fn report_to<C: EventReport<L>, L: Listener, R: Source, K: Sink, T: MetricTable>(
    alloc: Global,
    command: &C,
    plan: &Plan,
    log: R,
    table: &mut T,
    listener: &mut L,
    out: K,
) -> (R, K, Result<Status, RunError>)
    requires table { T.state table.old ≡ new_state plan.now }
    requires suits { L.suits plan.now listener.old }
    requires new { L.holds listener.old [] }
    ensures prints { (text : List ℕ) → IsGiven R.given R.at_end log result.0 text →
        Prints K.taken K.broken out result.1 result.2
        (EventsOf (C.is_text command.now plan.now) plan.now text) }
    ensures reads { ReadsOn R.given R.coming R.broken R.at_end log result.0 result.2 }
{
    let (source, heard) = hear_log(alloc, plan, log, table, listener);
    match heard {
        Ok(()) => {
            let (out, answer) = write_events(alloc, command, plan, table, listener, out);
            (source, out, answer)
        }
        Err(error) => (source, out, Err(error)),
    }
}

/// Writes the report on a log by its plan, for a listener that has heard nothing. The source and
/// the sink come back. The log chooses the prefixes, so the hasher should be seeded at random. (Why
/// so many arguments: DECISIONS.md.)
pub(crate) fn report_events<
    C: EventReport<L>,
    L: Listener,
    R: Source,
    K: Sink,
    S: BuildHasher + Drop,
>(
    alloc: Global,
    command: &C,
    plan: &Plan,
    log: R,
    listener: &mut L,
    out: K,
    hasher: S,
) -> (R, K, Result<Status, RunError>)
    requires suits { L.suits plan.now listener.old }
    requires new { L.holds listener.old [] }
    ensures prints { (text : List ℕ) → IsGiven R.given R.at_end log result.0 text →
        Prints K.taken K.broken out result.1 result.2
        (EventsOf (C.is_text command.now plan.now) plan.now text) }
    ensures reads { ReadsOn R.given R.coming R.broken R.at_end log result.0 result.2 }
{
    match GridTable::with_hasher(alloc, plan, hasher) {
        Ok(mut table) => report_to(alloc, command, plan, log, &mut table, listener, out),
        Err(_) => (log, out, Err(RunError::Memory)),
    }
}

/// Writes the report on a log, of which it is counted what is left out, for the plan that the bytes
/// of a TOML document are, or what refuses the plan. The source and the sink come back.
pub(crate) fn run_counted<C: EventReport<Counts>, R: Source, K: Sink, S: BuildHasher + Drop>(
    alloc: Global,
    command: &C,
    plan: &[u8],
    log: R,
    out: K,
    hasher: S,
) -> (R, K, Result<Status, RunError>)
    ensures runs { RunsToEnd R.Source K.Sink (C.is_text command.now) plan.now log out result }
    // Of a log that is accepted nothing is left out.
    ensures accepted { (text : List ℕ) → IsGiven R.given R.at_end log result.0 text →
        (n : Network) (s : State) → IsAccepted plan.now text n s → IfOk result.2
        (WentOut (OfAccepted (C.is_text command.now) n s) (K.taken out) (K.taken result.1)) }
{
    one_plan();
    well_formed_texts();
    accepted_logs();
    match Plan::read(alloc, plan) {
        Ok(plan) => report_events(alloc, command, &plan, log, &mut Counts::new(), out, hasher),
        Err(error) => {
            let (out, answer) = refuse_plan(error, out);
            (log, out, answer)
        }
    }
}

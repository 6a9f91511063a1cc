//! Reports on a plan, and on the table of a log: what the commands share that read them.

ghost use Rattle.std.specs.Prelude.{◌≡◌, ◌≢◌, Err, IfOk, ℕ, List, Some};
ghost use Rattle.rip_plan.specs.Network.{Network};
ghost use Rattle.rip_report.specs.Finished.{AddsWritten};
ghost use Rattle.rip_report.specs.Given.{IsGiven};
ghost use Rattle.rip_table.specs.State.{Fits, State, new_state};
ghost use Rattle.rip_table.specs.declared.error.CollectError.{CollectError};
ghost use Rattle.rip_report.specs.ReportText.{AreRead, IsAccepted, IsTable, LogMakes, ReportOf};
ghost use Rattle.rip_report.specs.Runs.{PullsLittleBehind, Reads, RunsOnLog, RunsOnPlan};
ghost use Rattle.rip_report.specs.Sent.{Prints, WentOut};
ghost use Rattle.rip_report.specs.Written.{Written};

use crate::log::read_log;
use crate::output::Out;
use crate::refusal::{refuse_log, refuse_plan};
use crate::status::{RunError, Status};
use rip_log::laws::log_texts;
use rip_log::{Sink, Source};
use rip_plan::Plan;
use rip_plan::laws::{one_plan, well_formed_texts};
use rip_table::laws::{new_states, one_join, refused_logs};
use rip_table::{GridTable, MetricTable, Table};
use std::alloc::{AllocError, Global};
use std::hash::BuildHasher;

/// A command that reads a plan: what it tells of it.
pub(crate) trait PlanReport {
    // The texts that it may tell of a plan, each with its status.
    ghost is_text: { Self → Network → Written → Type 0 };

    /// Adds what there is to say of a plan, or nothing where a growth is refused.
    fn add<K: Sink>(
        &self,
        alloc: Global,
        out: &mut Out<K>,
        plan: &Plan,
    ) -> Result<Status, AllocError>
        ensures { AddsWritten out.old out.new result (is_text self.now plan.now) };
}

/// Writes the report on the plan in a TOML document, or why it is refused. The sink comes back.
pub(crate) fn run_plan_report<C: PlanReport, K: Sink>(
    alloc: Global,
    command: &C,
    plan: &[u8],
    out: K,
) -> (K, Result<Status, RunError>)
    ensures runs { RunsOnPlan K.Sink (C.is_text command.now) plan.now out result }
{
    match Plan::read(alloc, plan) {
        Ok(plan) => {
            let mut text = Out::new(out);
            let added = command.add(alloc, &mut text, &plan);
            text.answer(added)
        }
        Err(error) => refuse_plan(error, out),
    }
}

/// A command that reads a plan and a log: what it tells of the log's table.
pub(crate) trait Report {
    ghost use Rattle.rip_report.specs.declared.status.Status.{Status};

    // The texts that it may tell of a table, each with its status.
    ghost is_text: { Self → Network → State → Written → Type 0 };

    // What its status says of the table, beside its text, where it says more.
    ghost means: { Self → Network → State → Status → Type 0 } = { λ _ _ _ _. Unit {0} };

    /// Adds what there is to say of a table, or nothing where a growth is refused.
    fn add<T: Table, K: Sink>(
        &self,
        alloc: Global,
        out: &mut Out<K>,
        plan: &Plan,
        table: &T,
    ) -> Result<Status, AllocError>
        requires { Fits plan.now (T.state table.now) }
        ensures adds { AddsWritten out.old out.new result
            (is_text self.now plan.now (T.state table.now)) }
        ensures meaning { IfOk result (means self.now plan.now (T.state table.now)) };
}

/// Writes what a command tells of a table.
fn write_report<C: Report, T: Table, K: Sink>(
    alloc: Global,
    command: &C,
    plan: &Plan,
    table: &T,
    out: K,
) -> (K, Result<Status, RunError>)
    requires { Fits plan.now (T.state table.now) }
    ensures prints { Prints K.taken K.broken out result.0 result.1
        (C.is_text command.now plan.now (T.state table.now)) }
    ensures meaning { IfOk result.1 (C.means command.now plan.now (T.state table.now)) }
    ensures read { result.1 ≢ Err RunError.Read }
{
    let mut text = Out::new(out);
    let added = command.add(alloc, &mut text, plan, table);
    text.answer(added)
}

/// Writes the report on a log by its plan, or what refuses the log. The table is new.
fn report_log<C: Report, R: Source, K: Sink, T: MetricTable>(
    alloc: Global,
    command: &C,
    plan: &Plan,
    log: R,
    table: &mut T,
    out: K,
) -> (R, K, Result<Status, RunError>)
    requires { T.state table.old ≡ new_state plan.now }
    ensures prints { (text : List ℕ) → IsGiven R.given R.at_end log result.0 text →
        Prints K.taken K.broken out result.1 result.2
        (ReportOf (C.is_text command.now plan.now) plan.now text) }
    ensures reads { Reads R.given R.coming R.broken R.at_end log result.0 result.2 }
    ensures told { (text : List ℕ) → IsGiven R.given R.at_end log result.0 text →
        (s : State) → IsTable plan.now text s → IfOk result.2
        (WentOut (C.is_text command.now plan.now s) (K.taken out) (K.taken result.1)) }
    ensures meaning { (text : List ℕ) → IsGiven R.given R.at_end log result.0 text →
        (s : State) → IsTable plan.now text s →
        IfOk result.2 (C.means command.now plan.now s) }
    ensures stops { (text : List ℕ) → IsGiven R.given R.at_end log result.0 text →
        (s : State) (e : CollectError) → LogMakes plan.now text s (Some e) →
        IfOk result.2 (λ status. PullsLittleBehind R.given log result.0 e.line) }
{
    log_texts();
    one_join();
    refused_logs();
    new_states();
    plan.lawful();
    let (source, read) = read_log(alloc, plan, log, table);
    match read {
        Ok(None) => {
            let (out, answer) = write_report(alloc, command, plan, table, out);
            (source, out, answer)
        }
        Ok(Some(error)) => {
            let (out, answer) = refuse_log(error, out);
            (source, out, answer)
        }
        Err(error) => (source, out, Err(error)),
    }
}

/// Writes the report on a log by the plan in a TOML document, or why the plan or the log is
/// refused. The source and the sink come back. The log chooses the prefixes, so the hasher should be seeded at
/// random.
pub(crate) fn run_report<C: Report, R: Source, K: Sink, S: BuildHasher + Drop>(
    alloc: Global,
    command: &C,
    plan: &[u8],
    log: R,
    out: K,
    hasher: S,
) -> (R, K, Result<Status, RunError>)
    ensures runs { RunsOnLog R.Source K.Sink (C.is_text command.now) plan.now log out result }
    ensures meaning { (text : List ℕ) → IsGiven R.given R.at_end log result.0 text →
        (n : Network) (s : State) → IsAccepted plan.now text n s →
        IfOk result.2 (C.means command.now n s) }
    // What is not accepted gets no other answer than Refused.
    ensures accepted { (text : List ℕ) → IsGiven R.given R.at_end log result.0 text →
        (n : Network) (s : State) → AreRead plan.now text n s →
        IfOk result.2 (λ status. status ≢ Status.Refused → IsAccepted plan.now text n s) }
{
    one_plan();
    well_formed_texts();
    log_texts();
    one_join();
    let plan = match Plan::read(alloc, plan) {
        Ok(plan) => plan,
        Err(error) => {
            let (out, answer) = refuse_plan(error, out);
            return (log, out, answer);
        }
    };
    match GridTable::with_hasher(alloc, &plan, hasher) {
        Ok(mut table) => report_log(alloc, command, &plan, log, &mut table, out),
        Err(_) => (log, out, Err(RunError::Memory)),
    }
}

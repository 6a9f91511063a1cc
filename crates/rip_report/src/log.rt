//! From a log to a table.

ghost use Rattle.std.specs.Prelude.{◌≡◌, ◌≢◌, true, IfOk, IfSome, OnOk, Ok, Err, None, [], ℕ, List, Some};
ghost use Rattle.rip_report.specs.Given.{IsGiven};
ghost use Rattle.rip_log.specs.Wholes.{Went};
ghost use Rattle.rip_table.specs.State.{Fits, new_state};
ghost use Rattle.rip_table.specs.Events.{EventAt};
ghost use Rattle.rip_report.specs.Hearings.{IsUnread, LogComesTo, heard_in};
ghost use Rattle.rip_report.specs.LogRefusals.{refusal_in};
ghost use Rattle.rip_report.specs.ReportText.{LogMakes};
ghost use Rattle.rip_report.specs.Runs.{PullsLittleBehind};

use crate::status::RunError;
use rip_log::laws::{log_texts, said_lines};
use rip_log::{LogCode, LogError, LogReader, Source};
use rip_plan::Plan;
use rip_table::{
    CollectAllError, CollectCause, CollectError, Listener, MetricTable, TableError, collect,
    collect_all,
};
use std::alloc::Global;

/// What refuses a log, if anything does, or why it could not be read.
fn refusal(collected: Result<(), CollectError>) -> Result<Option<CollectError>, RunError>
    ensures { result ≡ refusal_in collected }
{
    match collected {
        Ok(()) => Ok(None),
        Err(error) => match error.cause {
            CollectCause::Table(TableError::Memory) => Err(RunError::Memory),
            CollectCause::Log(
                LogError {
                    code: LogCode::Read,
                    ..
                },
            ) => Err(RunError::Read),
            _ => Ok(Some(error)),
        },
    }
}

/// Joins a log into a new table of the plan, and answers what refuses it, if anything does; the
/// table then holds what the lines before gave. The source comes back.
pub(crate) fn read_log<R: Source, T: MetricTable>(
    alloc: Global,
    plan: &Plan,
    log: R,
    table: &mut T,
) -> (R, Result<Option<CollectError>, RunError>)
    requires { T.state table.old ≡ new_state plan.now }
    ensures told { (text : List ℕ) → IsGiven R.given R.at_end log result.0 text →
        IfOk result.1 (LogMakes plan.now text (T.state table.new)) }
    ensures went { Went R.given R.coming R.at_end log result.0 }
    ensures fits { Fits plan.now (T.state table.new) }
    ensures read { result.1 ≡ Err RunError.Read → R.broken result.0 ≡ true }
    ensures write { result.1 ≢ Err RunError.Write }
    ensures mark { result.1 ≢ Err RunError.Read → R.broken result.0 ≡ R.broken log }
    ensures ended { result.1 ≡ Ok None → R.at_end result.0 ≡ true }
    // Behind a refused line no more is pulled than a reader holds.
    ensures stops { IfOk result.1 (λ refusal. IfSome refusal (λ e.
        PullsLittleBehind R.given log result.0 e.line)) }
{
    log_texts();
    match LogReader::new(alloc, log) {
        Err((_, source)) => (source, Err(RunError::Memory)),
        Ok(mut reader) => {
            let collected = collect(plan, &mut reader, table);
            reader.lawful();
            (reader.into_source(), refusal(collected))
        }
    }
}

/// Why a run gives up where a log was not read to its end.
fn failure(collected: Result<(), CollectAllError>) -> Result<(), RunError>
    ensures { result ≡ heard_in collected }
{
    match collected {
        Ok(()) => Ok(()),
        Err(CollectAllError::Log(_)) => Err(RunError::Read),
        Err(CollectAllError::Memory) => Err(RunError::Memory),
    }
}

/// Joins what is not refused of a log into a new table of the plan, and tells a listener, which has
/// heard nothing, what each line came to. The source comes back.
pub(crate) fn hear_log<R: Source, T: MetricTable, L: Listener>(
    alloc: Global,
    plan: &Plan,
    log: R,
    table: &mut T,
    listener: &mut L,
) -> (R, Result<(), RunError>)
    requires table { T.state table.old ≡ new_state plan.now }
    requires suits { L.suits plan.now listener.old }
    requires new { L.holds listener.old [] }
    ensures told { (text : List ℕ) → IsGiven R.given R.at_end log result.0 text →
        OnOk result.1 ((events : List EventAt) × L.holds listener.new events
        × LogComesTo plan.now text events (T.state table.new)) }
    ensures went { Went R.given R.coming R.at_end log result.0 }
    ensures fits { Fits plan.now (T.state table.new) }
    ensures suits { L.suits plan.now listener.new }
    ensures read { (text : List ℕ) → IsGiven R.given R.at_end log result.0 text →
        result.1 ≡ Err RunError.Read → IsUnread (R.broken result.0) text }
    ensures write { result.1 ≢ Err RunError.Write }
    ensures mark { result.1 ≢ Err RunError.Read → R.broken result.0 ≡ R.broken log }
{
    said_lines();
    match LogReader::new(alloc, log) {
        Err((_, source)) => (source, Err(RunError::Memory)),
        Ok(mut reader) => {
            let collected = collect_all(plan, &mut reader, table, listener);
            (reader.into_source(), failure(collected))
        }
    }
}

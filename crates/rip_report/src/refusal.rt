//! What is printed where a plan or a log is refused.

mod plan;
mod wire;

ghost use Rattle.std.specs.Prelude.{◌≡◌, ◌≢◌, Err, IfOk};
ghost use Rattle.rip_report.specs.Outs.{Adds};
ghost use Rattle.rip_report.specs.Sent.{Prints};
ghost use Rattle.rip_report.specs.RefusalText.{at_line, cause_text, change_text, log_code_text, prefix_part, refusal_line, refused_log, table_error_text};

use crate::output::Out;
use crate::status::{RunError, Status};
pub(crate) use plan::refuse_plan;
use rip_log::{LogCode, Sink};
use rip_table::{CollectError, LineCause, TableError};
use rip_wire::{Metric, Prefix};
pub(crate) use wire::push_wire_fault;

/// Adds the number and the word of a code of a log.
#[tactic(auto, unfolding(crate::specs::RefusalText::log_code_text))]
pub(crate) fn push_log_code<K: Sink>(out: &mut Out<K>, code: LogCode)
    ensures { Adds out.old out.new (log_code_text code) }
{
    match code {
        LogCode::LongLine => out.push("1 LongLine"),
        LogCode::Fields => out.push("2 Fields"),
        LogCode::LinkName => out.push("3 LinkName"),
        LogCode::Sender => out.push("4 Sender"),
        LogCode::Hex => out.push("5 Hex"),
        LogCode::LongDatagram => out.push("6 LongDatagram"),
        LogCode::Wire(error) => {
            out.push("7 Wire ");
            push_wire_fault(out, error);
        }
        LogCode::TooManyLines => out.push("8 TooManyLines"),
        LogCode::Read => out.push("9 Read"),
        LogCode::Ended => out.push("10 Ended"),
        LogCode::Memory => out.push("11 Memory"),
    }
}

/// Adds a prefix, after its word.
pub(crate) fn push_prefix_part<K: Sink>(out: &mut Out<K>, prefix: Prefix)
    ensures { Adds out.old out.new (prefix_part prefix) }
{
    out.push(" prefix ");
    out.push_prefix(prefix);
}

/// Adds from which metric to which.
pub(crate) fn push_change<K: Sink>(out: &mut Out<K>, old: Metric, new: Metric)
    ensures { Adds out.old out.new (change_text old new) }
{
    out.push(" from ");
    out.push_metric(old);
    out.push(" to ");
    out.push_metric(new);
}

/// Adds the number and the word of what a table refuses.
#[tactic(auto, unfolding(crate::specs::RefusalText::table_error_text))]
pub(crate) fn push_table_error<K: Sink>(out: &mut Out<K>, error: TableError)
    ensures { Adds out.old out.new (table_error_text error) }
{
    match error {
        TableError::Changed { prefix, old, new } => {
            out.push("1 Changed");
            push_prefix_part(out, prefix);
            push_change(out, old, new);
        }
        TableError::NextHop { prefix } => {
            out.push("2 NextHop");
            push_prefix_part(out, prefix);
        }
        TableError::TooManyPrefixes => out.push("3 TooManyPrefixes"),
        TableError::Memory => out.push("4 Memory"),
    }
}

/// Adds a line of the log, after its word.
pub(crate) fn push_line<K: Sink>(out: &mut Out<K>, word: &str, line: u64)
    ensures { Adds out.old out.new (at_line word.now line) }
{
    out.push_numbered(word, line as usize);
    out.push(": ");
}

/// Adds a line of the log and what refuses it.
fn push_cause<K: Sink>(out: &mut Out<K>, line: u64, cause: LineCause)
    ensures { Adds out.old out.new (cause_text line cause) }
{
    match cause {
        LineCause::Log(code) => {
            push_line(out, "log line ", line);
            push_log_code(out, code);
        }
        LineCause::Table(error) => {
            push_line(out, "table line ", line);
            push_table_error(out, error);
        }
        LineCause::UnknownSender => {
            push_line(out, "table line ", line);
            out.push("5 UnknownSender");
        }
    }
}

/// Adds the line of a refusal.
pub(crate) fn push_refusal_line<K: Sink>(out: &mut Out<K>, line: u64, cause: LineCause)
    ensures { Adds out.old out.new (refusal_line line cause) }
{
    out.push("refused: ");
    push_cause(out, line, cause);
    out.end();
}

/// Ends a run whose log is refused.
pub(crate) fn refuse_log<K: Sink>(error: CollectError, out: K) -> (K, Result<Status, RunError>)
    ensures prints { Prints K.taken K.broken out result.0 result.1 (λ w. w ≡ refused_log error) }
    ensures status { IfOk result.1 (λ status. status ≡ Status.Refused) }
    ensures read { result.1 ≢ Err RunError.Read }
{
    let mut text = Out::new(out);
    push_refusal_line(&mut text, u64::from(error.line), LineCause::of(error.cause));
    text.finish_with(Ok(Status::Refused))
}

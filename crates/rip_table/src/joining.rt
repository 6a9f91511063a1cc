//! The loop over the records of a log.

ghost use Rattle.rip_log.specs.NextCall.{capture_of};
ghost use Rattle.rip_table.specs.Collects.{Collects};
ghost use Rattle.rip_table.specs.Joined.{Joins};
ghost use Rattle.rip_table.specs.State.{Fits};

use crate::error::{CollectCause, CollectError};
use crate::laws;
use crate::recent::Recent;
use crate::table::MetricTable;
use rip_log::{LogReader, Record, Source};
use rip_plan::Plan;
use rip_wire::Kind;

/// Joins one record into a table.
fn join<T: MetricTable>(
    plan: &Plan,
    recent: &mut Recent,
    table: &mut T,
    found: &Record<'_>,
) -> Result<(), CollectCause>
    requires { Fits plan.now (T.state table.old) }
    ensures { Joins plan.now (T.state table.old) (capture_of found.now) (T.state table.new) result }
{
    match recent.find(plan, found.link, found.sender()) {
        None => match found.datagram.kind() {
            Kind::Request => Ok(()),
            Kind::Response => Err(CollectCause::UnknownSender),
        },
        Some(interface) => match table.take(plan, interface, &found.datagram) {
            Ok(()) => Ok(()),
            Err(error) => Err(CollectCause::Table(error)),
        },
    }
}

/// Joins the records to come of a log into a table that fits the plan. The error is that of the
/// first line that is refused; the table then holds what the lines before it gave. Memory comes
/// only at a response that brings a pair of interface and prefix; the reader then stands behind its
/// line.
pub fn collect<R: Source, T: MetricTable>(
    plan: &Plan,
    reader: &mut LogReader<R>,
    table: &mut T,
) -> Result<(), CollectError>
    requires { Fits plan.now (T.state table.old) }
    ensures { Collects R.given R.coming R.broken R.at_end plan.now (T.state table.old)
        (T.state table.new) reader.old reader.new result }
{
    plan.lawful();
    laws::refused_logs();
    let mut recent = Recent::new();
    'records: loop {
        match reader.next() {
            Ok(Some(record)) => {
                let line = record.line;
                match join(plan, &mut recent, table, &record) {
                    Ok(()) => {}
                    Err(cause) => return Err(CollectError { line, cause }),
                }
            }
            Ok(None) => return Ok(()),
            Err(error) => {
                return Err(CollectError {
                    line: error.line,
                    cause: CollectCause::Log(error),
                });
            }
        }
    }
}

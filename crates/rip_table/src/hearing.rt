//! The loop over all lines of a log, good and bad.

ghost use Rattle.std.specs.Prelude.{◌≡◌, [], ◌∷◌, None, MatchResult, OnErr};
ghost use Rattle.std.specs.Option.{option_map};
ghost use Rattle.rip_log.specs.Said.{captured, bad as bad_line};
ghost use Rattle.rip_log.specs.NextCall.{capture_of};
ghost use Rattle.rip_log.specs.NextLineCall.{number_of, origin_lent, said_of};
ghost use Rattle.rip_table.specs.Events.{bad};
ghost use Rattle.rip_table.specs.CollectsAll.{CollectsAll, HasRoom, HoldsMore, Hears};
ghost use Rattle.rip_table.specs.State.{Fits, State};

use crate::error::{CollectAllError, TableError};
use crate::events::{Bad, Event, Refused, Sender};
use crate::laws;
use crate::listener::Listener;
use crate::recent::Recent;
use crate::table::MetricTable;
use rip_log::{BadLine, Line, LogCode, LogReader, Record, Source};
use rip_plan::Plan;
use rip_wire::Kind;

/// Joins a record into a table if it is a response of an interface that is not refused, and tells
/// what became of it.
fn hear_record<T: MetricTable, L: Listener>(
    plan: &Plan,
    recent: &mut Recent,
    table: &mut T,
    listener: &mut L,
    found: &Record<'_>,
) -> Result<(), CollectAllError>
    requires fits { Fits plan.now (T.state table.old) }
    requires suits { L.suits plan.now listener.old }
    requires room { HasRoom (L.holds listener.old) }
    ensures hears { Hears L.may_allocate plan.now (T.state table.old)
        (captured (capture_of found.now)) found.now.line (T.state table.new)
        (L.holds listener.old) (L.holds listener.new) result }
    ensures fits { Fits plan.now (T.state table.new) }
    ensures suits { L.suits plan.now listener.new }
{
    let interface = recent.find(plan, found.link, found.sender());
    let event = match (found.datagram.kind(), interface) {
        (Kind::Request, _) => Event::Request(interface),
        (Kind::Response, None) => Event::Stranger(Sender {
            link: found.link,
            address: found.sender(),
        }),
        (Kind::Response, Some(interface)) => {
            match table.take(plan, interface, &found.datagram) {
                Ok(()) => Event::Joined(interface),
                Err(TableError::Memory) => return Err(CollectAllError::Memory),
                Err(error) => Event::Refused(Refused {
                    interface,
                    error,
                    datagram: &found.datagram,
                }),
            }
        }
    };
    listener.hear(plan, found.line, &event)?;
    Ok(())
}

/// Tells of a bad line.
fn hear_bad<L: Listener>(
    plan: &Plan,
    recent: &mut Recent,
    listener: &mut L,
    line: &BadLine<'_>,
) -> Result<(), CollectAllError>
    requires suits { L.suits plan.now listener.old }
    requires room { HasRoom (L.holds listener.old) }
    ensures hears { (s : State) →
        Hears L.may_allocate plan.now s
        (bad_line line.now.code (option_map origin_lent line.now.origin))
        line.now.line s (L.holds listener.old) (L.holds listener.new) result }
    ensures suits { L.suits plan.now listener.new }
{
    let event = match &line.origin {
        None => Event::Bad(Bad {
            code: line.code,
            origin: None,
            interface: None,
        }),
        Some(origin) => {
            let address = origin.sender();
            Event::Bad(Bad {
                code: line.code,
                origin: Some(Sender {
                    link: origin.link,
                    address,
                }),
                interface: recent.find(plan, origin.link, address),
            })
        }
    };
    listener.hear(plan, line.line, &event)?;
    Ok(())
}

/// Joins and tells of a line, good or bad.
fn hear_line<T: MetricTable, L: Listener>(
    plan: &Plan,
    recent: &mut Recent,
    table: &mut T,
    listener: &mut L,
    line: &Line<'_>,
) -> Result<(), CollectAllError>
    requires fits { Fits plan.now (T.state table.old) }
    requires suits { L.suits plan.now listener.old }
    requires room { HasRoom (L.holds listener.old) }
    ensures hears { Hears L.may_allocate plan.now (T.state table.old) (said_of line.now)
        (number_of line.now) (T.state table.new)
        (L.holds listener.old) (L.holds listener.new) result }
    ensures fits { Fits plan.now (T.state table.new) }
    ensures suits { L.suits plan.now listener.new }
{
    match line {
        Line::Record(record) => hear_record(plan, recent, table, listener, record),
        Line::Bad(line) => hear_bad(plan, recent, listener, line),
    }
}

/// Tells of the line too many, which ends the reading.
fn hear_last<L: Listener>(plan: &Plan, listener: &mut L, line: u32) -> Result<(), CollectAllError>
    requires suits { L.suits plan.now listener.old }
    requires room { HasRoom (L.holds listener.old) }
    ensures last { MatchResult result
        (λ _. HoldsMore (L.holds listener.old) (L.holds listener.new)
        ((record { line = line; event = bad LogCode.TooManyLines None None }) ∷ []))
        (λ e. e ≡ CollectAllError.Memory) }
    ensures allocates { OnErr result (L.may_allocate (bad LogCode.TooManyLines None None)) }
    ensures suits { L.suits plan.now listener.new }
{
    let event = Event::Bad(Bad {
        code: LogCode::TooManyLines,
        origin: None,
        interface: None,
    });
    listener.hear(plan, line, &event)?;
    Ok(())
}

/// Joins all responses to come of a log that are not refused into a table that fits the plan, in
/// order, each judged against the table of those before it, and tells a listener what became of
/// each line that is neither blank nor a comment. Line 1,000,001 is the last that is told, as bad,
/// and ends the reading.
///
/// The error `Log` is Read where the source failed while a line was read, or that line has more
/// than `u64::MAX` bytes; table and listener then have what the lines before it came to. It is
/// Ended where the reader had stopped before, and then they are as they were. `Memory` comes at a
/// line that was read, where it was refused to the table, for a response that brings a pair of
/// interface and prefix, or to the listener, at an event at which it may allocate. The table then
/// has what the lines before it came to, and where it was the listener, what this line comes to as
/// well; what such a listener holds is not known.
pub fn collect_all<R: Source, T: MetricTable, L: Listener>(
    plan: &Plan,
    reader: &mut LogReader<R>,
    table: &mut T,
    listener: &mut L,
) -> Result<(), CollectAllError>
    requires fits { Fits plan.now (T.state table.old) }
    requires suits { L.suits plan.now listener.old }
    // The listener has heard nothing.
    requires new { L.holds listener.old [] }
    ensures collects { CollectsAll R.given R.coming R.broken R.at_end plan.now (T.state table.old)
        (T.state table.new) reader.old reader.new L.may_allocate (L.holds listener.old)
        (L.holds listener.new) result }
    ensures suits { L.suits plan.now listener.new }
{
    plan.lawful();
    laws::lines_come_to();
    let mut recent = Recent::new();
    'lines: loop {
        match reader.next_line() {
            Ok(Some(line)) => match hear_line(plan, &mut recent, table, listener, &line) {
                Ok(()) => {}
                Err(error) => return Err(error),
            },
            Ok(None) => return Ok(()),
            Err(error) => match error.code {
                LogCode::TooManyLines => return hear_last(plan, listener, error.line),
                _ => return Err(CollectAllError::Log(error)),
            },
        }
    }
}

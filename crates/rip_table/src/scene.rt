//! What is to be seen of a network in a second, by the lines of a log with times.

ghost use Rattle.std.specs.Prelude.{◌≡◌, IfErr, OnErr, OnOk, None, option_map};
ghost use Rattle.rip_log.specs.TimedCall.{timed_capture};
ghost use Rattle.rip_log.specs.TimedText.{captured};
ghost use Rattle.rip_plan.specs.Network.{Network};
ghost use Rattle.rip_table.specs.State.{Fits};
ghost use Rattle.rip_table.specs.Window.{shown};
ghost use Rattle.rip_table.specs.Scenes.{MayGrowAt, MayGrowFor, after_line, after_said, closed_view, passed_view, with_refusal};

use crate::error::{CollectCause, TableError};
use crate::recent::Recent;
use crate::window_length::WindowLength;
use crate::window_table::WindowTable;
use rip_log::{LogCode, TimedLine, TimedRecord};
use rip_plan::Plan;
use rip_wire::Kind;

/// Why a line of a log with times is refused.
#[derive(Clone, Copy, Debug, PartialEq, Eq)]
pub enum LineCause {
    /// The line is bad.
    Log(LogCode),
    /// The table refuses the response.
    Table(TableError),
    /// A response whose link and sender no interface of the plan has.
    UnknownSender,
}

impl LineCause {
    ghost use Rattle.rip_table.specs.Scenes.{line_cause};

    /// The cause for which a log is refused, without the number of its line.
    pub fn of(cause: CollectCause) -> LineCause
        ensures { result ≡ line_cause cause }
    {
        match cause {
            CollectCause::Log(error) => LineCause::Log(error.code),
            CollectCause::Table(error) => LineCause::Table(error),
            CollectCause::UnknownSender => LineCause::UnknownSender,
        }
    }
}

/// A line that is refused.
#[derive(Clone, Copy, Debug, PartialEq, Eq)]
pub struct LineRefusal {
    /// The number of the line, from 1 on.
    pub line: u64,
    /// Why it is refused.
    pub cause: LineCause,
}

/// An episode of lines that are refused.
#[derive(Clone, Copy, Debug)]
pub struct Episode {
    /// The first of them.
    pub first: LineRefusal,
    /// For how many seconds it lasts, the present one with them.
    pub left: u32,
}

/// What is to be seen of a network in the present second: what its interfaces showed last, and
/// whether lines are refused. It knows no time: what a line says is of the present second, and a
/// second passes where the caller says so.
#[derive(Drop)]
pub struct Scene<T> {
    table: T,
    episode: Option<Episode>,
    recent: Recent,
}

impl<T: WindowTable> Scene<T> {
    ghost use Rattle.rip_table.specs.SceneViews.{view_of};

    /// The scene of a table, in which no line was refused.
    pub fn new(table: T) -> Scene<T>
        ensures { view_of T.window result ≡ record { window = T.window table; episode = None } }
    {
        Scene {
            table,
            episode: None,
            recent: Recent::new(),
        }
    }

    /// The table.
    pub fn table(&self) -> &T
        ensures { T.window result.now ≡ (view_of T.window self.now).window }
    {
        &self.table
    }

    /// The first refused line of the episode, if there is one.
    pub fn refusal(&self) -> Option<LineRefusal>
        ensures { result ≡ option_map (λ e. e.first) (view_of T.window self.now).episode }
    {
        match self.episode {
            None => None,
            Some(episode) => Some(episode.first),
        }
    }

    /// Refuses a line.
    fn refuse(&mut self, length: WindowLength, line: u64, cause: LineCause)
        ensures { view_of T.window self.new
            ≡ with_refusal length line cause (view_of T.window self.old) }
    {
        let first = match self.episode {
            None => LineRefusal { line, cause },
            Some(episode) => episode.first,
        };
        self.episode = Some(Episode {
            first,
            left: length.get(),
        });
    }

    /// Takes in a captured datagram.
    fn hear_record(
        &mut self,
        plan: &Plan,
        length: WindowLength,
        found: &TimedRecord<'_>,
    ) -> Result<(), TableError>
        requires { Fits plan.now (shown (view_of T.window self.old).window) }
        ensures hears { OnOk result (view_of T.window self.new
            ≡ after_said plan.now length found.now.line
            (captured found.now.micros (timed_capture found.now)) (view_of T.window self.old)) }
        ensures kept { OnErr result (view_of T.window self.new ≡ view_of T.window self.old) }
        ensures memory { IfErr result (λ error. error ≡ TableError.Memory) }
        ensures allocates { OnErr result (MayGrowFor plan.now length (timed_capture found.now)
            (view_of T.window self.old).window) }
        ensures fits { Fits plan.now (shown (view_of T.window self.new).window) }
    {
        let interface = self.recent.find(plan, found.link, found.sender());
        match (found.datagram.kind(), interface) {
            (Kind::Request, _) => Ok(()),
            (Kind::Response, None) => {
                self.refuse(length, found.line, LineCause::UnknownSender);
                Ok(())
            }
            (Kind::Response, Some(interface)) => {
                match self.table.tell(plan, length, interface, &found.datagram) {
                    Ok(()) => Ok(()),
                    Err(TableError::Memory) => Err(TableError::Memory),
                    Err(error) => {
                        self.refuse(length, found.line, LineCause::Table(error));
                        Ok(())
                    }
                }
            }
        }
    }

    /// Takes in a line of the present second. What it shows lasts for a window's length, and so does
    /// an episode behind the last line that is refused. Memory comes only for a response without a
    /// bad entry that brings a prefix, and changes nothing.
    pub fn hear(
        &mut self,
        plan: &Plan,
        length: WindowLength,
        line: &TimedLine<'_>,
    ) -> Result<(), TableError>
        requires { Fits plan.now (shown (view_of T.window self.old).window) }
        ensures hears { OnOk result (view_of T.window self.new
            ≡ after_line plan.now length line.now (view_of T.window self.old)) }
        ensures kept { OnErr result (view_of T.window self.new ≡ view_of T.window self.old) }
        ensures memory { IfErr result (λ error. error ≡ TableError.Memory) }
        ensures allocates { OnErr result (MayGrowAt plan.now length line.now
            (view_of T.window self.old).window) }
        ensures fits { Fits plan.now (shown (view_of T.window self.new).window) }
    {
        match line {
            TimedLine::Skipped => Ok(()),
            TimedLine::Record(record) => self.hear_record(plan, length, record),
            TimedLine::Bad(fault) => {
                self.refuse(length, fault.line, LineCause::Log(fault.code));
                Ok(())
            }
        }
    }

    /// A second passes.
    pub fn pass(&mut self)
        ensures view { view_of T.window self.new ≡ passed_view (view_of T.window self.old) }
        ensures fits { (n : Network) → Fits n (shown (view_of T.window self.old).window) →
            Fits n (shown (view_of T.window self.new).window) }
    {
        self.table.pass();
        self.episode = match self.episode {
            Some(Episode { first, left }) if left > 1 => Some(Episode {
                first,
                left: left - 1,
            }),
            _ => None,
        };
    }

    /// Ends a second: forgets the prefixes beside the plan's that nobody shows any more.
    pub fn close(&mut self, plan: &Plan)
        requires { Fits plan.now (shown (view_of T.window self.old).window) }
        ensures view { view_of T.window self.new
            ≡ closed_view plan.now (view_of T.window self.old) }
        ensures fits { Fits plan.now (shown (view_of T.window self.new).window) }
    {
        self.table.forget(plan);
    }
}

//! What became of a line of a log.

ghost use Rattle.std.specs.Prelude.{◌≡◌, ◌≢◌, ◌<◌, length};
ghost use Rattle.rip_wire.specs.Datagram.{entries_of, kind_of, message_of};
ghost use Rattle.rip_wire.specs.declared.datagram.Kind.{Kind};
ghost use Rattle.rip_table.specs.Events.{hop_of};
ghost use Rattle.rip_table.specs.declared.error.TableError.{TableError};

use crate::error::TableError;
use crate::judging::is_elsewhere;
use rip_log::LogCode;
use rip_plan::Plan;
use rip_wire::{Address, Datagram};

/// Who sent a datagram: the name of the link on which it was captured, and the address.
#[derive(Debug, Drop)]
pub struct Sender<'a> {
    /// The link's name, as it stands in the log.
    pub link: &'a str,
    /// The sender's address, as it stands in the log.
    pub address: Address,
}

/// A response of an interface that the table refuses.
#[derive(Debug, Drop)]
pub struct Refused<'a> {
    /// The number of the interface in the plan.
    pub interface: usize,
    /// Why it is refused; never `Memory`.
    pub error: TableError,
    /// The response, of which nothing was joined.
    pub datagram: &'a Datagram<'a>,
    ghost response: { kind_of (message_of datagram.now) ≡ Kind.Response },
    ghost refused: { error ≢ TableError.Memory },
}

/// A bad line.
#[derive(Debug, Drop)]
pub struct Bad<'a> {
    /// Why it is bad; at line 1,000,001 `TooManyLines`, which ends the reading.
    pub code: LogCode,
    /// For `LongDatagram` and `Wire`, who sent it.
    pub origin: Option<Sender<'a>>,
    /// The number of the interface that has the origin, if one is known.
    pub interface: Option<usize>,
}

/// What became of a line of a log that is neither blank nor a comment.
#[derive(Debug, Drop)]
pub enum Event<'a> {
    /// A response of the interface of this number is joined into the table.
    Joined(usize),
    /// A response of an interface is refused, and the table is as it was.
    Refused(Refused<'a>),
    /// A response of somebody who is not in the plan.
    Stranger(Sender<'a>),
    /// A request of the interface of this number, or of somebody who is not in the plan.
    Request(Option<usize>),
    /// A line that is bad.
    Bad(Bad<'a>),
}

impl Refused<'_> {
    /// For `NextHop`, the next hop of the first entry of its prefix whose metric is below 16 and
    /// whose next hop the interface may not tell; the response is searched for it again.
    pub fn next_hop(&self, plan: &Plan) -> Option<Address>
        requires { self.now.interface < length plan.now.interfaces }
        ensures { result ≡ hop_of plan.now self.now.interface self.now.error
            (entries_of (message_of self.now.datagram.now)) }
    {
        let TableError::NextHop { prefix } = self.error else {
            return None;
        };
        'entries: for k in 0..self.datagram.len() {
            let entry = self.datagram.entry(k);
            if entry.prefix == prefix && is_elsewhere(plan, self.interface, &entry) {
                return Some(entry.next_hop);
            }
        }
        None
    }
}

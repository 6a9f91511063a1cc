//! What refuses a log.

ghost use Rattle.std.specs.Prelude.{◌≡◌};

use rip_log::LogError;
use rip_wire::{Metric, Prefix};
use std::alloc::{AllocError, AllocFailed};

/// Why a response is refused, in the numbering that is printed.
#[derive(Clone, Copy, Debug, PartialEq, Eq)]
pub enum TableError {
    /// The interface gave the prefix another metric before, or earlier in the datagram.
    Changed {
        /// The prefix of the entry.
        prefix: Prefix,
        /// The metric that stands in the table, or of an earlier entry.
        old: Metric,
        /// The metric of the entry.
        new: Metric,
    },
    /// The metric is below 16, and the next hop is neither 0.0.0.0, nor an address of the sender,
    /// nor a gateway that the plan gives its router for the prefix.
    NextHop {
        /// The prefix of the entry.
        prefix: Prefix,
    },
    /// The prefix is new, and the table has 2,048.
    TooManyPrefixes,
    /// A growth was refused.
    Memory,
}

impl From<AllocError> for TableError {
    ghost use Rattle.rip_table.specs.declared.error.TableError.TheVariants.{Memory};

    ghost from_gives = { λ _ error. error ≡ Memory };

    fn from(_refused: AllocError) -> TableError {
        TableError::Memory
    }
}

impl<T: Drop> From<AllocFailed<T>> for TableError {
    ghost use Rattle.rip_table.specs.declared.error.TableError.TheVariants.{Memory};

    ghost from_gives = { λ _ error. error ≡ Memory };

    fn from(_refused: AllocFailed<T>) -> TableError {
        TableError::Memory
    }
}

/// Why a line of a log is refused.
#[derive(Clone, Copy, Debug, PartialEq, Eq)]
pub enum CollectCause {
    /// The line is bad, or could not be read.
    Log(LogError),
    /// The table refuses the response.
    Table(TableError),
    /// A response whose link and sender no interface of the plan has.
    UnknownSender,
}

/// The first refusal of a log, and its line.
#[derive(Clone, Copy, Debug, PartialEq, Eq)]
pub struct CollectError {
    /// The number of the line, from 1 on.
    pub line: u32,
    /// Why it is refused.
    pub cause: CollectCause,
}

/// Why a log was not read to its end.
#[derive(Clone, Copy, Debug, PartialEq, Eq)]
pub enum CollectAllError {
    /// The reader failed, by Read, or had stopped before.
    Log(LogError),
    /// The table or the listener was refused memory.
    Memory,
}

impl From<AllocError> for CollectAllError {
    ghost use Rattle.rip_table.specs.declared.error.CollectAllError.TheVariants.{Memory};

    ghost from_gives = { λ _ error. error ≡ Memory };

    fn from(_refused: AllocError) -> CollectAllError {
        CollectAllError::Memory
    }
}

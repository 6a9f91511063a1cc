//! Tables of what interfaces show.

ghost use Rattle.std.specs.Prelude.{◌≡◌, ℕ, ◌<◌, Some, IfOk, false, length, replicate, slice_get};
ghost use Rattle.rip_wire.specs.Prefix.{Block};
ghost use Rattle.rip_wire.specs.Datagram.{message_of};
ghost use Rattle.rip_table.specs.Joined.{Takes};
ghost use Rattle.rip_table.specs.State.{Fits, IsState, State};

use crate::error::TableError;
use rip_plan::Plan;
use rip_wire::{Datagram, Metric, Prefix};
use std::alloc::{AllocError, Global};

/// What the interfaces of a plan show: for each interface and prefix a metric or nothing, and which
/// interfaces are heard. Prefixes are those of the plan, and then others in the order in which they
/// came.
pub trait Table {
    // What it means.
    ghost state: { Self → State };

    // Its prefixes differ, there are at most `MOST_PREFIXES`, and what is shown is a metric.
    ghost is_state: { (t : Self) → IsState (state t) };

    /// How many interfaces it has.
    fn interface_count(&self) -> usize
        ensures { result ≡ (state self.now).interfaces };

    /// How many prefixes it has.
    fn prefix_count(&self) -> usize
        ensures { result ≡ length (state self.now).prefixes };

    /// A prefix, by its number.
    fn prefix(&self, k: usize) -> Prefix
        requires { k < length (state self.now).prefixes }
        ensures { slice_get (state self.now).prefixes k ≡ Some result };

    /// The metric, if any, that an interface shows for the prefix of a number.
    fn metric(&self, interface: usize, k: usize) -> Option<Metric>
        requires interface { interface < (state self.now).interfaces }
        requires prefix { k < length (state self.now).prefixes }
        ensures { (p : Block) → slice_get (state self.now).prefixes k ≡ Some p →
            result ≡ (state self.now).shows interface p };

    /// Whether an interface is heard: whether a response of it was taken, by a table that forgets in
    /// one of the last so many seconds.
    fn heard(&self, interface: usize) -> bool
        requires { interface < (state self.now).interfaces }
        ensures { result ≡ (state self.now).heard interface };
}

/// A table that joins what it is told.
pub trait MetricTable: Table {
    /// Takes in a datagram of an interface. A request changes nothing. A response adds the metric
    /// of each entry, or is refused by its first bad entry, and then changes nothing; Memory comes
    /// only for one without a bad entry that brings a pair of interface and prefix.
    fn take(
        &mut self,
        plan: &Plan,
        interface: usize,
        datagram: &Datagram<'_>,
    ) -> Result<(), TableError>
        requires fits { Fits plan.now (Self.state self.old) }
        requires interface { interface < length plan.now.interfaces }
        ensures takes { Takes plan.now interface (Self.state self.old) (message_of datagram.now)
            (Self.state self.new) result }
        // It still fits the plan.
        ensures fits { Fits plan.now (Self.state self.new) };
}

/// The marks of interfaces of which none was heard.
pub(crate) fn none_heard(alloc: Global, count: usize) -> Result<Vec<bool>, AllocError>
    ensures { IfOk result (λ heard. heard.items ≡ replicate count false) }
{
    vec![in alloc; false; count]
}

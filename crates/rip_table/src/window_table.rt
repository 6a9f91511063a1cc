//! Tables that forget.

ghost use Rattle.std.specs.Prelude.{◌≡◌, ◌<◌, length};
ghost use Rattle.rip_wire.specs.Datagram.{message_of};
ghost use Rattle.rip_plan.specs.Network.{Network};
ghost use Rattle.rip_table.specs.State.{Fits};
ghost use Rattle.rip_table.specs.Window.{Tells, Window, forgotten, passed, shown};

use crate::error::TableError;
use crate::table::Table;
use crate::window_length::WindowLength;
use rip_plan::Plan;
use rip_wire::Datagram;

/// A table that shows for so many seconds what each interface showed last of each prefix, and then
/// forgets it. Prefixes beside the plan's stand in the order in which they came.
pub trait WindowTable: Table {
    // What it means.
    ghost window: { Self → Window };

    /// Takes in a datagram of an interface. A request changes nothing. What a response shows is
    /// shown for so many seconds, in place of what the interface showed before; or the response is
    /// refused by its first bad entry, and then changes nothing. Memory comes only for one without
    /// a bad entry.
    fn tell(
        &mut self,
        plan: &Plan,
        term: WindowLength,
        interface: usize,
        datagram: &Datagram<'_>,
    ) -> Result<(), TableError>
        requires fits { Fits plan.now (shown (window self.old)) }
        requires interface { interface < length plan.now.interfaces }
        ensures tells { Tells plan.now term interface (window self.old) (message_of datagram.now)
            (window self.new) result }
        // It still fits the plan.
        ensures fits { Fits plan.now (shown (window self.new)) };

    /// A second passes.
    fn pass(&mut self)
        ensures window { window self.new ≡ passed (window self.old) }
        ensures fits { (n : Network) → Fits n (shown (window self.old)) →
            Fits n (shown (window self.new)) };

    /// Forgets the prefixes beside the plan's that nobody shows any more.
    fn forget(&mut self, plan: &Plan)
        requires { Fits plan.now (shown (window self.old)) }
        ensures window { window self.new ≡ forgotten plan.now (window self.old) }
        ensures fits { Fits plan.now (shown (window self.new)) };

    // What it shows.
    ghost shows: { (t : Self) → Self.state t ≡ shown (window t) };
}

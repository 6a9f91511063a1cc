//! Who is told what becomes of the lines of a log.

ghost use Rattle.std.specs.Prelude.{[], ◌∷◌, List, OnErr, OnOk};
ghost use Rattle.rip_plan.specs.Network.{Network};
ghost use Rattle.rip_table.specs.Events.{Event as EventMade, EventAt};
ghost use Rattle.rip_table.specs.CollectsAll.{HasRoom, HoldsMore, IsPlanned, event_told};

use crate::events::Event;
use rip_plan::Plan;
use std::alloc::AllocError;

/// Who is told what becomes of the lines of a log.
pub trait Listener {
    // It has heard these events, and holds what they come to.
    ghost holds: { Self → List EventAt → Type 0 };

    // It fits a plan.
    ghost suits: { Network → Self → Type 0 };

    // It may be refused memory at such an event.
    ghost may_allocate: { EventMade → Type 0 };

    /// Hears of a line, by its number and what became of it. It is refused memory only where it may
    /// allocate.
    fn hear(&mut self, plan: &Plan, line: u32, event: &Event<'_>) -> Result<(), AllocError>
        requires suits { suits plan.now self.old }
        // It has not heard of more events than a log has lines.
        requires room { HasRoom (holds self.old) }
        requires planned { IsPlanned plan.now (event_told plan.now event.now) }
        ensures heard { OnOk result (HoldsMore (holds self.old) (holds self.new)
            ((record { line = line; event = event_told plan.now event.now }) ∷ [])) }
        ensures allocates { OnErr result (may_allocate (event_told plan.now event.now)) }
        ensures suits { suits plan.now self.new };
}

//! Who sent of late.

ghost use Rattle.std.specs.Prelude.{◌≡◌, ◌<◌, IfSome, true, length};
ghost use Rattle.rip_plan.specs.Network.{found_at};
ghost use Rattle.rip_plan.specs.Relations.{IsAt};
ghost use Rattle.rip_table.specs.Guesses.{kept_number};

use crate::guesses::{SLOTS, guess, remember};
use rip_plan::Plan;
use rip_plan::laws::senders;
use rip_wire::Address;

/// The interfaces that were found last. A sender is first compared with the interface in the slot
/// of its address, and looked up in the plan only where that is not its own.
#[derive(Drop)]
pub(crate) struct Recent {
    slots: [u16; SLOTS],
}

/// Whether an interface is on the link of this name and sends from this address, its own.
fn is_at(plan: &Plan, i: usize, link_name: &str, address: Address) -> bool
    requires { i < length plan.now.interfaces }
    ensures { result ≡ true → IsAt plan.now link_name.now address i }
{
    plan.lawful();
    let interface = plan.interface(i);
    interface.address == address && plan.link_name(interface.link) == link_name
}

impl Recent {
    /// Nobody has sent.
    pub fn new() -> Recent {
        Recent { slots: [0; SLOTS] }
    }

    /// The interface on the link of this name with this address, as `Plan::find` answers it.
    pub fn find(&mut self, plan: &Plan, link_name: &str, address: Address) -> Option<usize>
        ensures below { IfSome result (λ i. i < length plan.now.interfaces) }
        ensures value { result ≡ found_at plan.now link_name.now address }
        ensures kept { IfSome result (λ i. kept_number self.new.slots address ≡ i) }
    {
        plan.lawful();
        senders();
        let likely = guess(&self.slots, address.get());
        if likely < plan.interfaces() && is_at(plan, likely, link_name, address) {
            return Some(likely);
        }
        let i = plan.find(link_name, address)?;
        remember(&mut self.slots, address.get(), i);
        Some(i)
    }
}

//! The caller of `rip_plan`.

ghost use Rattle.std.specs.Prelude.{◌≡◌, ◌↔◌, ℕ, Some};
ghost use Rattle.rip_plan.specs.Relations.{IsAt, IsDirect, IsInterface, IsPrefix};

use crate::examples::TRIANGLE;
use crate::fixtures::plan_of;
use rip_plan::Plan;
use rip_wire::{Address, Prefix};

/// The cost at which the router with this address on the link has the prefix itself.
fn cost_from(plan: &Plan, link: &str, address: Address, prefix: Prefix) -> Option<u8>
    ensures { (i r l c k cost : ℕ) → IsAt plan.now link.now address i
        → IsInterface plan.now i r l c → IsPrefix plan.now k prefix
        → (result ≡ Some cost) ↔ IsDirect plan.now r k cost }
{
    let number = plan.find(link, address)?;
    plan.direct(plan.interface(number).router, prefix)
}

#[test]
fn a_plan_is_asked(rt: HostRuntime) {
    let plan = plan_of(&rt, rt.alloc(), TRIANGLE);
    let address = Address::parse("10.1.0.2").expect(&rt, "an address");
    let prefix = Prefix::parse("10.2.0.0/16").expect(&rt, "a prefix");
    assert!(rt; cost_from(&plan, "a", address, prefix) == Some(1));
    assert!(rt; plan.carries(1, prefix) && plan.prefixes() == 3);
}

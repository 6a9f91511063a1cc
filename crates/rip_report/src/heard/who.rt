//! Who has an address.

ghost use Rattle.std.specs.Prelude.{ℕ, Decides, IfNone, IfSome};
ghost use Rattle.rip_plan.specs.Relations.{HasAddress};
ghost use Rattle.rip_table.specs.Tallies.{origin_of};
ghost use Rattle.rip_report.specs.HeardText.{IsFirstHolder, IsPlanned, StrangerWho, WhoText};
ghost use Rattle.rip_report.specs.Outs.{AddsOne};

use crate::names::{push_link, push_router};
use crate::output::Out;
use rip_log::Sink;
use rip_plan::{Interface, Plan};
use rip_wire::Address;

/// The first interface of the plan that has an address.
fn first_holder(plan: &Plan, address: Address) -> Option<Interface>
    ensures some { IfSome result (λ x. (i : ℕ) × IsFirstHolder plan.now address i x) }
    ensures none { IfNone result ((i l : ℕ) → HasAddress plan.now i l address → ⊥) }
{
    for i in 0..plan.interfaces() {
        if plan.has_address(i, address) {
            return Some(plan.interface(i));
        }
    }
    None
}

/// Adds who has an address.
pub(super) fn add_who<K: Sink>(out: &mut Out<K>, plan: &Plan, address: Address)
    ensures { AddsOne out.old out.new (WhoText plan.now address) }
{
    plan.lawful();
    match first_holder(plan, address) {
        Some(interface) => {
            push_router(out, plan, interface.router);
            out.push(" has the address on ");
            push_link(out, plan, interface.link);
        }
        None => out.push("nobody has the address"),
    }
}

/// Whether a link of the plan has this name.
fn is_planned(plan: &Plan, name: &str) -> bool
    ensures { Decides result (IsPlanned plan.now name.now) }
{
    for link in 0..plan.links() {
        if plan.link_name(link) == name {
            return true;
        }
    }
    false
}

/// Adds who has a stranger's address, after a note where its link is not in the plan.
pub(super) fn add_stranger_who<K: Sink>(out: &mut Out<K>, plan: &Plan, link: &str, address: Address)
    ensures { AddsOne out.old out.new (StrangerWho plan.now (origin_of link.now address)) }
{
    if !is_planned(plan, link) {
        out.push("no link of that name, ");
    }
    add_who(out, plan, address);
}

//! The command `plan`: the parts of a plan.

ghost use Rattle.std.specs.Prelude.{◌<◌, IfSome, length};
ghost use Rattle.std.specs.List.{flat_map};
ghost use Rattle.rip_report.specs.Outs.{Adds};
ghost use Rattle.rip_report.specs.PlanText.{IsSeat, PlanText, address_part, also_text, attached_text, counts_line, direct_text, gateway_text, interface_line, interface_lines, interface_text, item_text, kept_text, line_of_link, only_line, only_lines, place_line, poison_text, seat_text, shown_plan};
ghost use Rattle.rip_report.specs.Runs.{RunsOnPlan};

use crate::names::{push_link, push_router};
use crate::output::Out;
use crate::report::{PlanReport, run_plan_report};
use crate::status::{RunError, Status};
use rip_log::Sink;
use rip_plan::{Interface, Listed, Place, Plan, Seat};
use rip_wire::Address;
use std::alloc::{AllocError, Global};

/// Adds the line of the counts.
#[tactic(auto, unfolding(crate::specs::PlanText::counts_line))]
fn push_counts_line<K: Sink>(out: &mut Out<K>, plan: &Plan)
    ensures { Adds out.old out.new (counts_line plan.now) }
{
    out.push("plan: ");
    out.push_number(plan.routers() as u64);
    out.push(" routers, ");
    out.push_number(plan.links() as u64);
    out.push(" links, ");
    out.push_number(plan.interfaces() as u64);
    out.push(" interfaces, ");
    out.push_number(plan.prefixes() as u64);
    out.push(" prefixes");
    out.end();
}

/// Adds the metric at which a router has the prefixes of a link, where it is not the cost.
fn push_direct<K: Sink>(out: &mut Out<K>, interface: Interface)
    ensures { Adds out.old out.new (direct_text interface) }
{
    if interface.direct != interface.cost {
        out.push(" direct ");
        out.push_number(u64::from(interface.direct));
    }
}

/// Adds that an interface does not poison, where that is so.
fn push_poison<K: Sink>(out: &mut Out<K>, poison: bool)
    ensures { Adds out.old out.new (poison_text poison) }
{
    if !poison {
        out.push(" poison false");
    }
}

/// Adds the line of an interface, as far as its further addresses.
#[tactic(auto, unfolding(crate::specs::PlanText::interface_text))]
fn push_interface_text<K: Sink>(out: &mut Out<K>, plan: &Plan, interface: Interface)
    requires router { interface.router < length plan.now.routers }
    requires link { interface.link < length plan.now.links }
    ensures { Adds out.old out.new (interface_text plan.now interface) }
{
    out.push("interface ");
    push_router(out, plan, interface.router);
    out.push(" ");
    push_link(out, plan, interface.link);
    out.push(" ");
    out.push_address(interface.address);
    out.push(" cost ");
    out.push_number(u64::from(interface.cost));
    let poison = interface.poison;
    push_direct(out, interface);
    push_poison(out, poison);
}

/// A further address and the blank before it.
fn push_address_part<K: Sink>(out: &mut Out<K>, address: Address)
    ensures { Adds out.old out.new (address_part address) }
{
    out.push(" ");
    out.push_address(address);
}

/// Adds addresses, each after a blank.
fn push_addresses<K: Sink>(out: &mut Out<K>, addresses: &[Address])
    ensures { Adds out.old out.new (flat_map address_part addresses.now) }
{
    for address in addresses {
        push_address_part(out, *address);
    }
}

/// Adds the further addresses of an interface.
fn push_also<K: Sink>(out: &mut Out<K>, also: &[Address])
    ensures { Adds out.old out.new (also_text also.now) }
{
    if !also.is_empty() {
        out.push(" also");
        push_addresses(out, also);
    }
}

/// Adds the line of an interface.
#[tactic(auto, unfolding(crate::specs::PlanText::interface_line))]
fn push_interface_line<K: Sink>(
    out: &mut Out<K>,
    plan: &Plan,
    interface: Interface,
    also: &[Address],
)
    requires router { interface.router < length plan.now.routers }
    requires link { interface.link < length plan.now.links }
    ensures { Adds out.old out.new (interface_line plan.now interface also.now) }
{
    push_interface_text(out, plan, interface);
    push_also(out, also);
    out.end();
}

/// Adds the lines of the interfaces.
fn push_interfaces<K: Sink>(out: &mut Out<K>, plan: &Plan)
    ensures { Adds out.old out.new (interface_lines plan.now) }
{
    plan.lawful();
    for i in 0..plan.interfaces() {
        push_interface_line(out, plan, plan.interface(i), plan.also(i));
    }
}

/// Adds an item, after a blank, where it stands in the list of a link.
fn push_item<K: Sink>(out: &mut Out<K>, link: usize, item: Listed)
    ensures { Adds out.old out.new (item_text link item) }
{
    if item.link == link {
        out.push(" ");
        out.push_prefix(item.prefix);
    }
}

/// Adds the items of the list of a link.
fn push_items<K: Sink>(out: &mut Out<K>, link: usize, listed: &[Listed])
    ensures { Adds out.old out.new (flat_map (item_text link) listed.now) }
{
    for item in listed {
        push_item(out, link, *item);
    }
}

/// Adds the line of what a link exchanges.
#[tactic(auto, unfolding(crate::specs::PlanText::only_line))]
fn push_only_line<K: Sink>(out: &mut Out<K>, plan: &Plan, link: usize)
    requires { link < length plan.now.links }
    ensures { Adds out.old out.new (only_line plan.now link) }
{
    out.push("link ");
    push_link(out, plan, link);
    out.push(" only");
    push_items(out, link, plan.listed());
    out.end();
}

/// Adds the line of what a link exchanges, if it has a list.
fn push_only<K: Sink>(out: &mut Out<K>, plan: &Plan, link: usize, has: bool)
    requires { link < length plan.now.links }
    ensures { Adds out.old out.new (line_of_link plan.now (link, has)) }
{
    if has {
        push_only_line(out, plan, link);
    }
}

/// Adds the lines of what links exchange.
fn push_lists<K: Sink>(out: &mut Out<K>, plan: &Plan)
    ensures { Adds out.old out.new (only_lines plan.now) }
{
    plan.lawful();
    for link in 0..plan.links() {
        push_only(out, plan, link, plan.has_list(link));
    }
}

/// Adds that a router keeps a prefix of its own, where the plan says so.
fn push_kept<K: Sink>(out: &mut Out<K>, kept: bool)
    ensures { Adds out.old out.new (kept_text kept) }
{
    if kept {
        out.push(" kept");
    }
}

/// Adds the link to which a prefix is attached, if it is.
fn push_attached<K: Sink>(out: &mut Out<K>, plan: &Plan, link: Option<usize>)
    requires known { IfSome link (λ l. l < length plan.now.links) }
    ensures { Adds out.old out.new (attached_text plan.now link) }
{
    if let Some(link) = link {
        out.push(" link ");
        push_link(out, plan, link);
    }
}

/// Adds the gateway of a prefix, if it has one.
fn push_gateway<K: Sink>(out: &mut Out<K>, via: Option<Address>)
    ensures { Adds out.old out.new (gateway_text via) }
{
    if let Some(gateway) = via {
        out.push(" via ");
        out.push_address(gateway);
    }
}

/// Adds the seat of a place.
fn push_seat<K: Sink>(out: &mut Out<K>, plan: &Plan, seat: Seat)
    requires known { IsSeat plan.now seat }
    ensures { Adds out.old out.new (seat_text plan.now seat) }
{
    match seat {
        Seat::Link(link) => {
            out.push(" link ");
            push_link(out, plan, link);
        }
        Seat::Own(own) => {
            out.push(" router ");
            push_router(out, plan, own.router);
            out.push(" cost ");
            out.push_number(u64::from(own.cost));
            push_kept(out, own.kept);
            push_attached(out, plan, own.link);
            push_gateway(out, own.via);
        }
    }
}

/// Adds the line of a place.
#[tactic(auto, unfolding(crate::specs::PlanText::place_line))]
fn push_place_line<K: Sink>(out: &mut Out<K>, plan: &Plan, place: Place)
    requires prefix { place.prefix < length plan.now.prefixes }
    requires seat { IsSeat plan.now place.seat }
    ensures { Adds out.old out.new (place_line plan.now place) }
{
    out.push("prefix ");
    out.push_prefix(plan.prefix(place.prefix));
    push_seat(out, plan, place.seat);
    out.end();
}

/// Adds the lines of the places.
fn push_places<K: Sink>(out: &mut Out<K>, plan: &Plan)
    ensures { Adds out.old out.new (flat_map (place_line plan.now) plan.now.places) }
{
    plan.lawful();
    for k in 0..plan.places() {
        push_place_line(out, plan, plan.place(k));
    }
}

/// Adds a plan: its counts, its interfaces, its lists and its places.
fn push_plan<K: Sink>(out: &mut Out<K>, plan: &Plan)
    ensures { Adds out.old out.new (shown_plan plan.now).text }
{
    push_counts_line(out, plan);
    push_interfaces(out, plan);
    push_lists(out, plan);
    push_places(out, plan);
}

/// The command `plan`.
#[derive(Clone, Copy)]
struct ShowPlan;

impl PlanReport for ShowPlan {
    ghost is_text = { λ _. PlanText };

    fn add<K: Sink>(&self, _: Global, out: &mut Out<K>, plan: &Plan) -> Result<Status, AllocError> {
        push_plan(out, plan);
        Ok(Status::Done)
    }
}

/// Prints the plan in a TOML document, or the document's first fault. The sink comes back.
pub fn run_plan<K: Sink>(alloc: Global, plan: &[u8], out: K) -> (K, Result<Status, RunError>)
    ensures runs { RunsOnPlan K.Sink PlanText plan.now out result }
{
    run_plan_report(alloc, &ShowPlan, plan, out)
}

//! What each interface sent.

ghost use Rattle.std.specs.Prelude.{◌≡◌, ◌<◌, List, length};
ghost use Rattle.rip_table.specs.Events.{EventAt};
ghost use Rattle.rip_table.specs.Tallies.{HasHeard, interfaces_of};
ghost use Rattle.rip_report.specs.HeardText.{InterfaceLines, RefusalPart, RefusedLine, SentLines, joined_line, refused_front};
ghost use Rattle.rip_report.specs.Listings.{TextsBelow};
ghost use Rattle.rip_report.specs.Outs.{Adds, AddsOne};

use crate::heard::lines::{push_bad_line, push_counted_line, push_lines, push_responses};
use crate::heard::who::add_who;
use crate::lines::{push_interface, push_unheard_line};
use crate::output::Out;
use crate::refusal::push_table_error;
use rip_log::Sink;
use rip_plan::{Interface, Plan};
use rip_table::{InterfaceTally, Lines, Refusal, Tallies};
use std::hash::BuildHasher;

/// Adds the line of an interface's responses that were joined, or that it was not heard.
#[tactic(auto, unfolding(crate::specs::HeardText::joined_line))]
fn push_joined_line<K: Sink>(out: &mut Out<K>, plan: &Plan, interface: Interface, joined: Lines)
    requires router { interface.router < length plan.now.routers }
    requires link { interface.link < length plan.now.links }
    ensures { Adds out.old out.new (joined_line plan.now interface joined) }
{
    if joined.count == 0 {
        push_unheard_line(out, plan, interface);
    } else {
        push_interface(out, plan, interface);
        out.push(" ");
        push_responses(out, joined);
        out.end();
    }
}

/// Adds the front of the line of responses that are refused.
#[tactic(auto, unfolding(crate::specs::HeardText::refused_front))]
fn push_refused_front<K: Sink>(out: &mut Out<K>, tally: &InterfaceTally)
    ensures { Adds out.old out.new (refused_front tally.now) }
{
    out.push("  refused ");
    out.push_number(u64::from(tally.refused.count));
    out.push(" in ");
    out.push_number(u64::from(tally.runs));
    out.push(" runs");
    push_lines(out, tally.refused);
    out.push(", first ");
}

/// Adds why a response is refused, and who has its next hop where that is why.
fn add_refusal<K: Sink>(out: &mut Out<K>, plan: &Plan, refusal: Refusal)
    ensures { AddsOne out.old out.new (RefusalPart plan.now refusal) }
{
    push_table_error(out, refusal.error);
    if let Some(address) = refusal.next_hop {
        out.push(" by ");
        out.push_address(address);
        out.push(": ");
        add_who(out, plan, address);
    }
}

/// Adds the line of responses that are refused, where there are any.
fn add_refused<K: Sink>(out: &mut Out<K>, plan: &Plan, tally: &InterfaceTally)
    ensures { AddsOne out.old out.new (RefusedLine plan.now tally.now) }
{
    if let Some(refusal) = tally.first_refusal {
        push_refused_front(out, tally);
        add_refusal(out, plan, refusal);
        out.end();
    }
}

/// Adds the lines of an interface that sent this.
fn add_sent<K: Sink>(out: &mut Out<K>, plan: &Plan, interface: Interface, tally: &InterfaceTally)
    requires router { interface.router < length plan.now.routers }
    requires link { interface.link < length plan.now.links }
    ensures { AddsOne out.old out.new (SentLines plan.now interface tally.now) }
{
    push_joined_line(out, plan, interface, tally.joined);
    add_refused(out, plan, tally);
    push_bad_line(out, tally.bad, tally.first_bad);
    push_counted_line(out, "  requests ", tally.requests);
}

/// Adds the lines of all interfaces.
pub(super) fn add_interfaces<S: BuildHasher + Drop, K: Sink>(
    out: &mut Out<K>,
    plan: &Plan,
    tallies: &Tallies<S>,
)
    requires { interfaces_of tallies.now ≡ length plan.now.interfaces }
    ensures { (events : List EventAt) → HasHeard tallies.now events → AddsOne out.old out.new
        (TextsBelow (InterfaceLines plan.now events) (length plan.now.interfaces)) }
{
    plan.lawful();
    for i in 0..plan.interfaces() {
        let tally = tallies.interface(i);
        add_sent(out, plan, plan.interface(i), &tally);
    }
}

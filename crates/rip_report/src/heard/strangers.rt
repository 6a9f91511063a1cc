//! What each stranger sent.

ghost use Rattle.std.specs.Prelude.{[], List, length};
ghost use Rattle.rip_table.specs.Events.{EventAt};
ghost use Rattle.rip_table.specs.Tallies.{HasHeard, origin_of, told_after};
ghost use Rattle.rip_report.specs.HeardText.{StrangerLines, ToldLines, any_responses_part, stranger_part};
ghost use Rattle.rip_report.specs.Listings.{TextsBelow};
ghost use Rattle.rip_report.specs.Outs.{Adds, AddsOne};

use crate::heard::lines::{push_bad_line, push_responses};
use crate::heard::who::add_stranger_who;
use crate::output::Out;
use rip_log::Sink;
use rip_plan::Plan;
use rip_table::{Lines, StrangerTally, Tallies};
use rip_wire::Address;
use std::hash::BuildHasher;

/// Adds how many responses there are, and their lines, or that there are none.
fn push_any_responses<K: Sink>(out: &mut Out<K>, lines: Lines)
    ensures { Adds out.old out.new (any_responses_part lines) }
{
    if lines.count == 0 {
        out.push("no responses");
    } else {
        push_responses(out, lines);
    }
}

/// Adds how much a stranger sent, behind the name of its link.
#[tactic(auto, unfolding(crate::specs::HeardText::stranger_part))]
fn push_stranger_part<K: Sink>(out: &mut Out<K>, address: Address, responses: Lines)
    ensures { Adds out.old out.new (stranger_part address responses) }
{
    out.push(" ");
    out.push_address(address);
    out.push(" ");
    push_any_responses(out, responses);
    out.push(": ");
}

/// Adds the lines of a stranger that sent this.
fn add_stranger<K: Sink>(
    out: &mut Out<K>,
    plan: &Plan,
    link: &str,
    address: Address,
    tally: StrangerTally,
)
    ensures { AddsOne out.old out.new (StrangerLines plan.now (origin_of link.now address) tally) }
{
    out.push("stranger ");
    out.push(link);
    push_stranger_part(out, address, tally.responses);
    add_stranger_who(out, plan, link, address);
    out.end();
    push_bad_line(out, tally.bad, tally.first_bad);
}

/// Adds the lines of all strangers that are told.
pub(super) fn add_strangers<S: BuildHasher + Drop, K: Sink>(
    out: &mut Out<K>,
    plan: &Plan,
    tallies: &Tallies<S>,
)
    ensures { (events : List EventAt) → HasHeard tallies.now events → AddsOne out.old out.new
        (TextsBelow (ToldLines plan.now events) (length (told_after [] events))) }
{
    for k in 0..tallies.strangers() {
        let link = tallies.stranger_link(k);
        let address = tallies.stranger_address(k);
        add_stranger(out, plan, link, address, tallies.stranger(k));
    }
}

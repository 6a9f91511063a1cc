//! What `heard` prints: who is in a log, and all that is refused.

mod interfaces;
mod lines;
mod nobody;
mod strangers;
mod who;

ghost use Rattle.std.specs.Prelude.{◌≡◌, List, length};
ghost use Rattle.rip_report.specs.Hearings.{HeardOf};
ghost use Rattle.rip_table.specs.Events.{EventAt};
ghost use Rattle.rip_table.specs.Tallies.{HasHeard, interfaces_of};
ghost use Rattle.rip_report.specs.HeardText.{HeardLines, HeardText, heard_line, heard_of, heard_status};
ghost use Rattle.rip_report.specs.Outs.{Adds, AddsOne};
ghost use Rattle.rip_report.specs.Runs.{RunsToEnd};

use crate::events::{EventReport, report_events};
use crate::heard::interfaces::add_interfaces;
use crate::heard::lines::push_counted_line;
use crate::heard::nobody::push_plain_bad;
use crate::heard::strangers::add_strangers;
use crate::left_out::{is_all_joined, push_left_out};
use crate::output::Out;
use crate::refusal::refuse_plan;
use crate::status::{RunError, Status};
use rip_log::{Sink, Source};
use rip_plan::Plan;
use rip_table::{Counts, Table, Tallies};
use std::alloc::{AllocError, Global};
use std::hash::BuildHasher;

/// How many interfaces were heard.
fn count_heard<S: BuildHasher + Drop>(plan: &Plan, tallies: &Tallies<S>) -> usize
    requires { interfaces_of tallies.now ≡ length plan.now.interfaces }
    ensures { (events : List EventAt) → HasHeard tallies.now events →
        result ≡ heard_of plan.now events }
{
    let mut heard = 0;
    for i in 0..plan.interfaces() {
        if tallies.interface(i).joined.count > 0 {
            heard += 1;
        }
    }
    heard
}

/// The status: well where every interface was heard and all was joined.
fn status_of(heard: usize, interfaces: usize, counts: Counts) -> Status
    ensures { result ≡ heard_status heard interfaces counts }
{
    if heard == interfaces && is_all_joined(counts) {
        Status::Done
    } else {
        Status::Unclear
    }
}

/// Adds the first line: how many interfaces were heard, and how many lines came to what.
#[tactic(auto, unfolding(crate::specs::HeardText::heard_line))]
fn push_heard_line<K: Sink>(out: &mut Out<K>, heard: usize, interfaces: usize, counts: Counts)
    ensures { Adds out.old out.new (heard_line heard interfaces counts) }
{
    out.push("heard: ");
    out.push_number(heard as u64);
    out.push(" of ");
    out.push_number(interfaces as u64);
    out.push(" interfaces, ");
    out.push_number(u64::from(counts.joined));
    out.push(" responses");
    push_left_out(out, counts);
    out.end();
}

/// Adds the lines, of which the first tells that so many interfaces were heard.
fn add_lines<S: BuildHasher + Drop, K: Sink>(
    out: &mut Out<K>,
    plan: &Plan,
    tallies: &Tallies<S>,
    heard: usize,
)
    requires { interfaces_of tallies.now ≡ length plan.now.interfaces }
    ensures { (events : List EventAt) → HasHeard tallies.now events →
        AddsOne out.old out.new (HeardLines plan.now events heard) }
{
    push_heard_line(out, heard, plan.interfaces(), tallies.counts());
    add_interfaces(out, plan, tallies);
    add_strangers(out, plan, tallies);
    push_counted_line(out, "other strangers ", tallies.other_strangers());
    push_plain_bad(out, tallies);
    push_counted_line(out, "other requests ", tallies.other_requests());
}

/// Adds who is in a log, and all that is refused, by what its lines came to.
fn add_heard<S: BuildHasher + Drop, K: Sink>(
    out: &mut Out<K>,
    plan: &Plan,
    tallies: &Tallies<S>,
) -> Status
    requires { interfaces_of tallies.now ≡ length plan.now.interfaces }
    ensures { (events : List EventAt) → HasHeard tallies.now events → AddsOne out.old out.new
        (λ text. HeardText plan.now events (record { text = text; status = result })) }
{
    let heard = count_heard(plan, tallies);
    add_lines(out, plan, tallies, heard);
    status_of(heard, plan.interfaces(), tallies.counts())
}

/// The command `heard`.
#[derive(Clone, Copy)]
struct Heard;

impl<S: BuildHasher + Drop> EventReport<Tallies<S>> for Heard {
    ghost is_text = { λ _. HeardOf };

    fn add<T: Table, K: Sink>(
        &self,
        _: Global,
        out: &mut Out<K>,
        plan: &Plan,
        _: &T,
        tallies: &Tallies<S>,
    ) -> Result<Status, AllocError> {
        Ok(add_heard(out, plan, tallies))
    }
}

/// Writes who is in a log, good or bad, and all that is refused in it, counted, by the plan that
/// the bytes of a TOML document are; or what refuses the plan. The log is read to its end, whatever
/// its lines say, up to line 1,000,001. The source and the sink come back. The hashers are for the
/// prefixes and for the strangers of the log, who choose their names, so a program hands in two
/// that are seeded at random. `Done` where every interface was heard and nothing is refused, a
/// stranger's or bad, and else `Unclear`.
pub fn run_heard<R: Source, K: Sink, S: BuildHasher + Drop>(
    alloc: Global,
    plan: &[u8],
    log: R,
    out: K,
    prefixes: S,
    strangers: S,
) -> (R, K, Result<Status, RunError>)
    ensures runs { RunsToEnd R.Source K.Sink HeardOf plan.now log out result }
{
    let plan = match Plan::read(alloc, plan) {
        Ok(plan) => plan,
        Err(error) => {
            let (out, answer) = refuse_plan(error, out);
            return (log, out, answer);
        }
    };
    match Tallies::with_hasher(alloc, &plan, strangers) {
        Ok(mut tallies) => report_events(alloc, &Heard, &plan, log, &mut tallies, out, prefixes),
        Err(_) => (log, out, Err(RunError::Memory)),
    }
}

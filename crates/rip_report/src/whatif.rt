//! The command `whatif`: what the failure of each link and of each router would cost.

ghost use Rattle.std.specs.Prelude.{◌≡◌, ◌+◌, ◌<◌, Decides, length};
ghost use Rattle.rip_check.specs.Expected.{AreExpected, IsCount};
ghost use Rattle.rip_check.specs.Failures.{IsKnown};
ghost use Rattle.rip_check.specs.Impacts.{HasRoom};
ghost use Rattle.rip_check.specs.Losses.{Loses};
ghost use Rattle.rip_check.specs.Scenarios.{AreLosses};
ghost use Rattle.rip_report.specs.Listings.{TextsBelow};
ghost use Rattle.rip_report.specs.Outs.{Adds, AddsOne};
ghost use Rattle.rip_report.specs.Runs.{RunsOnPlan};
ghost use Rattle.rip_report.specs.WhatifText.{FailureText, FailureTexts, LineOfGone, LineOfLost, LinesOfLost, LosesOne, OneText, UnderText, count_of, failed_part, failure_line, failure_of, failures_part, farthest_part, gone_line, hit_part, losing_line, lost_line, whatif_line};

use crate::loops::{NumberText, add_below};
use crate::names::{push_link, push_router};
use crate::output::Out;
use crate::report::{PlanReport, run_plan_report};
use crate::status::{RunError, Status};
use rip_check::{Aftermath, Expected, Failure, Impact, Losses};
use rip_log::Sink;
use rip_plan::Plan;
use std::alloc::{AllocError, Global};

/// Adds how many links and routers there are.
fn push_failures<K: Sink>(out: &mut Out<K>, links: usize, routers: usize)
    ensures { Adds out.old out.new (failures_part links routers) }
{
    out.push_number(links as u64);
    out.push(" links, ");
    out.push_number(routers as u64);
    out.push(" routers");
}

/// Adds the line of the counts.
#[tactic(auto, unfolding(crate::specs::WhatifText::whatif_line))]
fn push_counts_line<K: Sink>(out: &mut Out<K>, plan: &Plan)
    ensures { Adds out.old out.new (whatif_line plan.now) }
{
    out.push("whatif: ");
    push_failures(out, plan.links(), plan.routers());
    out.end();
}

/// The last line: how many links and routers lose something where they fail.
#[tactic(auto, unfolding(crate::specs::WhatifText::losing_line))]
fn push_losing_line<K: Sink>(out: &mut Out<K>, links: usize, routers: usize)
    ensures { Adds out.old out.new (losing_line links routers) }
{
    out.push("losing: ");
    push_failures(out, links, routers);
    out.end();
}

/// Adds what has failed.
fn push_failed<K: Sink>(out: &mut Out<K>, plan: &Plan, failure: Failure)
    requires known { IsKnown plan.now failure }
    ensures { Adds out.old out.new (failed_part plan.now failure) }
{
    match failure {
        Failure::Link(link) => {
            out.push("link ");
            push_link(out, plan, link);
        }
        Failure::Router(router) => {
            out.push("router ");
            push_router(out, plan, router);
        }
    }
}

/// Adds the greatest metric of the longer ways, where there are some.
fn push_farthest<K: Sink>(out: &mut Out<K>, impact: Impact)
    ensures { Adds out.old out.new (farthest_part impact) }
{
    if impact.longer > 0 {
        out.push(", up to ");
        out.push_number(u64::from(impact.farthest));
    }
}

/// Adds which router loses most, where something is lost.
fn push_hit<K: Sink>(out: &mut Out<K>, plan: &Plan, impact: Impact)
    requires known { impact.hardest_hit < length plan.now.routers }
    ensures { Adds out.old out.new (hit_part plan.now impact) }
{
    if impact.lost > 0 {
        out.push(", most lost by ");
        push_router(out, plan, impact.hardest_hit);
        out.push(", ");
        out.push_number(impact.most_lost as u64);
    }
}

/// Adds the line of a failure.
#[tactic(auto, unfolding(crate::specs::WhatifText::failure_line))]
fn push_failure_line<K: Sink>(out: &mut Out<K>, plan: &Plan, failure: Failure, impact: Impact)
    requires known { IsKnown plan.now failure }
    requires hit { impact.hardest_hit < length plan.now.routers }
    ensures { Adds out.old out.new (failure_line plan.now failure impact) }
{
    push_failed(out, plan, failure);
    out.push(": ");
    out.push_number(impact.lost as u64);
    out.push(" lost, ");
    out.push_number(impact.gone as u64);
    out.push(" gone, ");
    out.push_number(impact.longer as u64);
    out.push(" longer");
    push_farthest(out, impact);
    push_hit(out, plan, impact);
    out.end();
}

/// Adds the line of a router and a prefix that it loses.
#[tactic(auto, unfolding(crate::specs::WhatifText::lost_line))]
fn push_lost_line<K: Sink>(out: &mut Out<K>, plan: &Plan, router: usize, prefix: usize)
    requires router { router < length plan.now.routers }
    requires prefix { prefix < length plan.now.prefixes }
    ensures { Adds out.old out.new (lost_line plan.now router prefix) }
{
    out.push("  lost ");
    push_router(out, plan, router);
    out.push(" ");
    out.push_prefix(plan.prefix(prefix));
    out.end();
}

/// Adds the line of a prefix that is gone.
#[tactic(auto, unfolding(crate::specs::WhatifText::gone_line))]
fn push_gone_line<K: Sink>(out: &mut Out<K>, plan: &Plan, prefix: usize)
    requires prefix { prefix < length plan.now.prefixes }
    ensures { Adds out.old out.new (gone_line plan.now prefix) }
{
    out.push("  gone ");
    out.push_prefix(plan.prefix(prefix));
    out.end();
}

/// The prefixes that a router loses.
#[derive(Clone, Copy)]
struct LostBy<'a> {
    losses: &'a Losses<'a>,
    router: usize,
}

impl NumberText for LostBy<'_> {
    ghost is_for = { λ by p. AreLosses by.losses.now
        × (by.router < length by.losses.now.plan.now.routers)
        × (p < length by.losses.now.plan.now.prefixes) };

    ghost is_text = { λ by p. LineOfLost by.losses.now by.router p };

    fn add<K: Sink>(&self, out: &mut Out<K>, prefix: usize) {
        if self.losses.is_lost(self.router, prefix) {
            push_lost_line(out, self.losses.plan, self.router, prefix);
        }
    }
}

/// What routers lose.
#[derive(Clone, Copy)]
struct Lost<'a> {
    losses: &'a Losses<'a>,
}

impl NumberText for Lost<'_> {
    ghost is_for = { λ lost r. AreLosses lost.losses.now
        × (r < length lost.losses.now.plan.now.routers) };

    ghost is_text = { λ lost r. LinesOfLost lost.losses.now r };

    fn add<K: Sink>(&self, out: &mut Out<K>, router: usize) {
        let losses = self.losses;
        add_below(out, &LostBy { losses, router }, losses.plan.prefixes());
    }
}

/// The prefixes that are gone.
#[derive(Clone, Copy)]
struct Gone<'a> {
    losses: &'a Losses<'a>,
}

impl NumberText for Gone<'_> {
    ghost is_for = { λ gone p. AreLosses gone.losses.now
        × (p < length gone.losses.now.plan.now.prefixes) };

    ghost is_text = { λ gone p. LineOfGone gone.losses.now p };

    fn add<K: Sink>(&self, out: &mut Out<K>, prefix: usize) {
        if self.losses.is_gone(prefix) {
            push_gone_line(out, self.losses.plan, prefix);
        }
    }
}

/// Adds what stands under the line of a failure, where all is asked for.
fn add_under<K: Sink>(out: &mut Out<K>, losses: &Losses<'_>, all: bool)
    requires { AreLosses losses.now }
    ensures { AddsOne out.old out.new (UnderText losses.now.plan.now losses.now.failure all) }
{
    if all {
        add_below(out, &Lost { losses }, losses.plan.routers());
        add_below(out, &Gone { losses }, losses.plan.prefixes());
    }
}

/// Adds the lines of a failure, and tells whether it loses something.
fn add_failure<K: Sink>(
    out: &mut Out<K>,
    plan: &Plan,
    expected: &Expected,
    aftermath: &mut Aftermath,
    failure: Failure,
    all: bool,
) -> bool
    requires expected { AreExpected plan.now expected.now }
    requires room { HasRoom plan.now aftermath.old }
    requires known { IsKnown plan.now failure }
    ensures room { HasRoom plan.now aftermath.new }
    ensures loses { Decides result (Loses plan.now failure) }
    ensures text { AddsOne out.old out.new (FailureText plan.now all failure) }
{
    aftermath.find(plan, expected, failure);
    let losses = Losses {
        plan,
        before: expected,
        failure,
        after: aftermath,
    };
    let impact = losses.impact();
    push_failure_line(out, plan, failure, impact);
    add_under(out, &losses, all);
    impact.lost > 0
}

/// What fails: links or routers.
#[derive(Clone, Copy)]
enum Kind {
    Links,
    Routers,
}

/// How many there are of a kind.
fn count_of(plan: &Plan, kind: Kind) -> usize
    ensures { result ≡ count_of plan.now kind }
{
    match kind {
        Kind::Links => plan.links(),
        Kind::Routers => plan.routers(),
    }
}

/// The failure of one of a kind, by its number.
fn failure_of(kind: Kind, number: usize) -> Failure
    ensures { result ≡ failure_of kind number }
{
    match kind {
        Kind::Links => Failure::Link(number),
        Kind::Routers => Failure::Router(number),
    }
}

/// Adds the lines of the failures of a kind, and counts those that lose something.
fn add_kind<K: Sink>(
    out: &mut Out<K>,
    plan: &Plan,
    expected: &Expected,
    aftermath: &mut Aftermath,
    kind: Kind,
    all: bool,
) -> usize
    requires expected { AreExpected plan.now expected.now }
    requires room { HasRoom plan.now aftermath.old }
    ensures room { HasRoom plan.now aftermath.new }
    ensures count { IsCount (LosesOne plan.now kind) (count_of plan.now kind) result }
    ensures text { AddsOne out.old out.new
        (TextsBelow (OneText plan.now all kind) (count_of plan.now kind)) }
{
    let mut count = 0;
    for number in 0..count_of(plan, kind) {
        let failure = failure_of(kind, number);
        if add_failure(out, plan, expected, aftermath, failure, all) {
            count += 1;
        }
    }
    count
}

/// The command `whatif`, for what each failure costs in all, or for each that is lost or gone.
#[derive(Clone, Copy)]
struct WhatIf {
    all: bool,
}

impl PlanReport for WhatIf {
    ghost is_text = { λ whatif. FailureTexts whatif.all };

    fn add<K: Sink>(
        &self,
        alloc: Global,
        out: &mut Out<K>,
        plan: &Plan,
    ) -> Result<Status, AllocError> {
        let expected = Expected::find(alloc, plan)?;
        let mut aftermath = Aftermath::new(alloc, plan)?;
        push_counts_line(out, plan);
        let links = add_kind(out, plan, &expected, &mut aftermath, Kind::Links, self.all);
        let routers = add_kind(
            out,
            plan,
            &expected,
            &mut aftermath,
            Kind::Routers,
            self.all,
        );
        push_losing_line(out, links, routers);
        Ok(Status::Done)
    }
}

/// Prints what the failure of each link and router would cost in the plan that a TOML document
/// describes, or the document's first fault: how many pairs of a router and a prefix are lost, and
/// how many go a longer way; with `all` each pair that is lost, and each prefix that is gone. The
/// sink comes back. Beside the plan it allocates two bytes for each router and prefix, and one for
/// each prefix.
pub fn run_whatif<K: Sink>(
    alloc: Global,
    plan: &[u8],
    out: K,
    all: bool,
) -> (K, Result<Status, RunError>)
    ensures runs { RunsOnPlan K.Sink (FailureTexts all) plan.now out result }
{
    run_plan_report(alloc, &WhatIf { all }, plan, out)
}

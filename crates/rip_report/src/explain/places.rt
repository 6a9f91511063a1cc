//! What a place that does not hold comes from.

ghost use Rattle.std.specs.Prelude.{◌<◌, Some, length, ℕ};
ghost use Rattle.rip_table.specs.State.{Fits};
ghost use Rattle.rip_check.specs.Expected.{AreExpected};
ghost use Rattle.rip_check.specs.Marks.{AreUnsettled};
ghost use Rattle.rip_check.specs.Networks.{network_at};
ghost use Rattle.rip_check.specs.Paths.{IsLeast};
ghost use Rattle.rip_check.specs.Told.{told};
ghost use Rattle.rip_check.specs.Cases.{block_of, plan_of, state_of};
ghost use Rattle.rip_report.specs.AuditText.{AreKnown, FailingText};
ghost use Rattle.rip_report.specs.ExplainText.{DirectLine, OfferLine, OfferLines, OffersOver, PlaceLines, ShownLine, ShownLines};
ghost use Rattle.rip_report.specs.Outs.{AddsOne};

use crate::explain::lines::{
    push_direct_line, push_least_line, push_offer_line, push_read_route_line, push_shown_line,
};
use crate::lines::verdicts::push_unsettled_line;
use crate::loops::{NumberText, PairText, add_listed};
use crate::output::Out;
use rip_check::{Case, Expected, Place2, Unsettled};
use rip_log::Sink;
use rip_plan::{Interface, Plan};
use rip_table::Table;
use rip_wire::Metric;

/// What the interfaces show of the prefix of a case.
#[derive(Drop)]
struct Shown<'a, T: Table> {
    case: &'a Case<'a, T>,
}

impl<T: Table> NumberText for Shown<'_, T> {
    ghost is_for = { λ texts i. i < length (plan_of texts.case.now).interfaces };

    ghost is_text = { λ texts i.
        ShownLine (plan_of texts.case.now) (state_of texts.case.now) texts.case.now.prefix i };

    fn add<K: Sink>(&self, out: &mut Out<K>, number: usize) {
        let plan = self.case.plan;
        plan.lawful();
        let link = plan.interface(number).link;
        let shown = self.case.table.metric(number, self.case.prefix);
        push_shown_line(out, plan, link, shown);
    }
}

/// Adds what each interface of a router shows of the prefix.
pub(crate) fn add_shown<T: Table, K: Sink>(out: &mut Out<K>, case: &Case<'_, T>, router: usize)
    requires { router < length (plan_of case.now).routers }
    ensures { AddsOne out.old out.new
        (ShownLines (plan_of case.now) (state_of case.now) router case.now.prefix) }
{
    let numbers = case.plan.of_router(router);
    add_listed(out, &Shown { case }, numbers);
}

/// What is offered to a router over the link of its interface, by the router of another interface
/// there.
#[derive(Drop)]
struct OfferTo<'a, T: Table> {
    case: &'a Case<'a, T>,
    own: Interface,
}

impl<T: Table> NumberText for OfferTo<'_, T> {
    ghost use Rattle.rip_plan.specs.Relations.{Exchanges, HasCost, IsInterface};

    ghost is_for = { λ texts j.
        Exchanges (plan_of texts.case.now) texts.own.link (block_of texts.case.now)
        × HasCost (plan_of texts.case.now) texts.own.router texts.own.link texts.own.cost
        × ((r c : ℕ) × IsInterface (plan_of texts.case.now) j r texts.own.link c) };

    ghost is_text = { λ texts j. OfferLine (plan_of texts.case.now) (state_of texts.case.now)
        texts.own texts.case.now.prefix j };

    fn add<K: Sink>(&self, out: &mut Out<K>, number: usize) {
        let plan = self.case.plan;
        plan.lawful();
        let router = plan.interface(number).router;
        if router != self.own.router {
            let shown = self.case.table.metric(number, self.case.prefix);
            let value = self.case.offer(self.own, number);
            push_offer_line(out, plan, &self.own, router, shown, value);
        }
    }
}

/// What is offered over the link of a router's interface.
#[derive(Drop)]
struct OffersOverLink<'a, T: Table> {
    case: &'a Case<'a, T>,
}

impl<T: Table> NumberText for OffersOverLink<'_, T> {
    ghost is_for = { λ texts i. i < length (plan_of texts.case.now).interfaces };

    ghost is_text = { λ texts i.
        OffersOver (plan_of texts.case.now) (state_of texts.case.now) texts.case.now.prefix i };

    fn add<K: Sink>(&self, out: &mut Out<K>, number: usize) {
        let case = self.case;
        case.plan.lawful();
        let own = case.plan.interface(number);
        if case.exchanges(own.link) {
            let numbers = case.plan.on_link(own.link);
            add_listed(out, &OfferTo { case, own }, numbers);
        }
    }
}

/// Adds all that is offered to a router.
pub(crate) fn add_offers<T: Table, K: Sink>(out: &mut Out<K>, case: &Case<'_, T>, router: usize)
    requires { router < length (plan_of case.now).routers }
    ensures { AddsOne out.old out.new
        (OfferLines (plan_of case.now) (state_of case.now) router case.now.prefix) }
{
    let numbers = case.plan.of_router(router);
    add_listed(out, &OffersOverLink { case }, numbers);
}

/// Adds the cost at which a router has a prefix itself, if it does.
pub(crate) fn add_direct<K: Sink>(out: &mut Out<K>, plan: &Plan, router: usize, prefix: usize)
    ensures { AddsOne out.old out.new (DirectLine plan.now router prefix) }
{
    if let Some(cost) = plan.direct_cost(router, prefix) {
        let is_kept = plan.keeps(router, prefix);
        push_direct_line(out, cost, is_kept);
    }
}

/// Adds the line of a place that does not hold, and what the place comes from.
pub(crate) fn add_place<T: Table, K: Sink>(
    out: &mut Out<K>,
    plan: &Plan,
    table: &T,
    place: &Place2,
    least: Metric,
)
    requires fits { Fits plan.now (T.state table.now) }
    requires place { AreKnown plan.now (T.state table.now) place.now }
    requires least { IsLeast (network_at plan.now plan.now.prefixes place.now.prefix)
        place.now.prefix place.now.router least }
    ensures { AddsOne out.old out.new (PlaceLines plan.now (T.state table.now) place.now) }
{
    let case = Case::new(plan, table, place.prefix);
    push_unsettled_line(out, plan, table, place);
    add_shown(out, &case, place.router);
    push_read_route_line(out, plan, place);
    add_direct(out, plan, place.router, place.prefix);
    add_offers(out, &case, place.router);
    push_least_line(out, plan, place.prefix, least);
}

/// The places that do not hold, and what they come from.
#[derive(Drop)]
pub(crate) struct FailingPlaces {
    /// Which places do not hold.
    pub places: Unsettled,
    /// The least metrics of the plan.
    pub expected: Expected,
}

impl PairText for FailingPlaces {
    ghost fits = { λ texts n s. AreUnsettled n (told n s) texts.places
        × AreExpected n texts.expected };

    ghost is_text = { λ _ n s. FailingText n s (PlaceLines n s) };

    fn add<T: Table, K: Sink>(&self, out: &mut Out<K>, case: &Case<'_, T>, router: usize) {
        case.plan.lawful();
        if let Some(place) = self.places.at(case, router) {
            let least = self.expected.least(case.plan, router, case.prefix);
            add_place(out, case.plan, case.table, &place, least);
        }
    }
}

//! The command `explain --routes`: the verdict on the routers' own tables, and what it comes from.

ghost use Rattle.std.specs.Prelude.{◌≡◌, ◌<◌, Bool, IfOk, ℕ, List, length};
ghost use Rattle.rip_plan.specs.Network.{Network};
ghost use Rattle.rip_table.specs.State.{Fits};
ghost use Rattle.rip_routes.specs.OwnTables.{FitsOwn, OwnTables};
ghost use Rattle.rip_check.specs.Expected.{AreExpected};
ghost use Rattle.rip_check.specs.Marks.{AreWrong};
ghost use Rattle.rip_check.specs.OwnSettled.{AreRightTables};
ghost use Rattle.rip_check.specs.OwnTells.{IsToldBy};
ghost use Rattle.rip_check.specs.OwnVerdicts.{IsOwnVerdict};
ghost use Rattle.rip_check.specs.Networks.{network_at};
ghost use Rattle.rip_check.specs.Paths.{IsLeast};
ghost use Rattle.rip_report.specs.Finished.{AddsWritten};
ghost use Rattle.rip_report.specs.Given.{IsGiven};
ghost use Rattle.rip_report.specs.Outs.{AddsOne};
ghost use Rattle.rip_report.specs.OwnRuns.{RunsOnRoutes};
ghost use Rattle.rip_report.specs.OwnText.{AreTold, IsKnownOwn, JudgesRightly, OwnExplainText, OwnFailingText, OwnPlaceLines, UnlistedLine, UnlistedText};

use crate::explain::Unreachable;
use crate::explain::lines::push_least_line;
use crate::explain::places::{add_direct, add_offers};
use crate::loops::{NumberText, PairText, add_below, add_pairs};
use crate::output::Out;
use crate::own::lines::{
    push_has_lines, push_own_settled_line, push_own_unsettled_line, push_unlisted_line,
};
use crate::own::{OwnReport, run_own_report};
use crate::status::{RunError, Status};
use rip_check::{Case, Expected, OwnPlace, OwnVerdict, WrongPlaces, judge_own, least_metric};
use rip_log::{Sink, Source};
use rip_plan::Plan;
use rip_routes::RouteTables;
use rip_table::Table;
use rip_wire::Metric;
use std::alloc::{AllocError, Global};
use std::hash::BuildHasher;

/// Adds the line of a place that does not hold, and what the place comes from.
fn add_own_place<T: Table, G: RouteTables, K: Sink>(
    out: &mut Out<K>,
    plan: &Plan,
    tables: &G,
    table: &T,
    place: &OwnPlace,
    least: Metric,
)
    requires fits { Fits plan.now (T.state table.now) }
    requires own { FitsOwn plan.now (G.tables tables.now) }
    requires told { IsToldBy plan.now (G.tables tables.now) (T.state table.now) }
    requires place { IsKnownOwn plan.now (T.state table.now) place.now }
    requires least { IsLeast (network_at plan.now plan.now.prefixes place.now.prefix)
        place.now.prefix place.now.router least }
    ensures { AddsOne out.old out.new
        (OwnPlaceLines plan.now (G.tables tables.now) (T.state table.now) place.now) }
{
    plan.lawful();
    let case = Case::new(plan, table, place.prefix);
    push_own_unsettled_line(out, plan, table, place);
    push_has_lines(out, plan, tables, place.router, place.prefix);
    add_direct(out, plan, place.router, place.prefix);
    add_offers(out, &case, place.router);
    push_least_line(out, plan, place.prefix, least);
}

/// The places of the routers' own tables that do not hold, and what they come from.
#[derive(Drop)]
struct ExplainedPlaces<'a, G: RouteTables> {
    tables: &'a G,
    places: WrongPlaces,
    expected: Expected,
}

impl<G: RouteTables> PairText for ExplainedPlaces<'_, G> {
    ghost fits = { λ texts n s. FitsOwn n (G.tables texts.tables.now)
        × IsToldBy n (G.tables texts.tables.now) s × AreExpected n texts.expected
        × AreWrong n s (G.tables texts.tables.now) texts.places };

    ghost is_text = { λ texts n s. OwnFailingText n (G.tables texts.tables.now) s
        (OwnPlaceLines n (G.tables texts.tables.now) s) };

    fn add<T: Table, K: Sink>(&self, out: &mut Out<K>, case: &Case<'_, T>, router: usize) {
        case.plan.lawful();
        match self.places.at(case, self.tables, router) {
            Some(place) => {
                let least = self.expected.least(case.plan, router, case.prefix);
                add_own_place(out, case.plan, self.tables, case.table, &place, least);
            }
            None => {}
        }
    }
}

/// The routers of which nothing is told.
#[derive(Drop)]
struct Unlisted<'a, G: RouteTables> {
    plan: &'a Plan,
    tables: &'a G,
}

impl<G: RouteTables> NumberText for Unlisted<'_, G> {
    ghost is_for = { λ texts r. r < length texts.plan.now.routers };

    ghost is_text = { λ texts r. UnlistedLine texts.plan.now (G.tables texts.tables.now) r };

    fn add<K: Sink>(&self, out: &mut Out<K>, number: usize) {
        if !self.tables.is_listed(number) {
            push_unlisted_line(out, self.plan, number);
        }
    }
}

/// Adds that a network has settled, and which planned prefixes its routers cannot reach.
fn add_own_settled<T: Table, G: RouteTables, K: Sink>(
    alloc: Global,
    out: &mut Out<K>,
    plan: &Plan,
    tables: &G,
    table: &T,
) -> Result<Status, AllocError>
    requires fits { Fits plan.now (T.state table.now) }
    requires right { AreRightTables plan.now (G.tables tables.now) }
    ensures adds { (all : Bool) → AddsWritten out.old out.new result
        (OwnExplainText plan.now all (G.tables tables.now) (T.state table.now)) }
    ensures status { IfOk result (λ status. status ≡ Status.Settled) }
{
    let expected = Expected::find(alloc, plan)?;
    push_own_settled_line(out, plan, table);
    add_pairs(out, &Unreachable { expected }, plan, table);
    Ok(Status::Settled)
}

/// Adds the first place that does not hold, or all, and what they come from.
fn add_own_unsettled<T: Table, G: RouteTables, K: Sink>(
    alloc: Global,
    out: &mut Out<K>,
    plan: &Plan,
    tables: &G,
    table: &T,
    all: bool,
    place: &OwnPlace,
) -> Result<Status, AllocError>
    requires fits { Fits plan.now (T.state table.now) }
    requires own { FitsOwn plan.now (G.tables tables.now) }
    requires told { IsToldBy plan.now (G.tables tables.now) (T.state table.now) }
    requires verdict { IsOwnVerdict plan.now (T.state table.now) (G.tables tables.now)
        (OwnVerdict.Unsettled place.now) }
    ensures adds { AddsWritten out.old out.new result
        (OwnExplainText plan.now all (G.tables tables.now) (T.state table.now)) }
    ensures status { IfOk result (λ status. status ≡ Status.Unsettled) }
{
    plan.lawful();
    if all {
        let places = WrongPlaces::find(alloc, plan, tables, table)?;
        let expected = Expected::find(alloc, plan)?;
        let explained = ExplainedPlaces {
            tables,
            places,
            expected,
        };
        add_pairs(out, &explained, plan, table);
        return Ok(Status::Unsettled);
    }
    let least = least_metric(plan, place.router, place.prefix);
    add_own_place(out, plan, tables, table, place, least);
    Ok(Status::Unsettled)
}

/// Adds the first router of which nothing is told, or all.
fn add_unlisted<G: RouteTables, K: Sink>(
    out: &mut Out<K>,
    plan: &Plan,
    tables: &G,
    all: bool,
    router: usize,
)
    requires { router < length plan.now.routers }
    ensures { AddsOne out.old out.new (UnlistedText plan.now (G.tables tables.now) all router) }
{
    if all {
        add_below(out, &Unlisted { plan, tables }, plan.routers());
    } else {
        push_unlisted_line(out, plan, router);
    }
}

/// The command `explain --routes`, for the first place or router, or for all.
#[derive(Clone, Copy)]
struct ExplainRoutes {
    all: bool,
}

impl OwnReport for ExplainRoutes {
    ghost is_text = { λ explain n t s. OwnExplainText n explain.all t s };

    fn add<T: Table, G: RouteTables, K: Sink>(
        &self,
        alloc: Global,
        out: &mut Out<K>,
        plan: &Plan,
        tables: &G,
        table: &T,
    ) -> Result<Status, AllocError> {
        plan.lawful();
        match judge_own(plan, tables, table) {
            OwnVerdict::Settled => add_own_settled(alloc, out, plan, tables, table),
            OwnVerdict::Unsettled(place) => {
                add_own_unsettled(alloc, out, plan, tables, table, self.all, &place)
            }
            OwnVerdict::NoRoutes(router) => {
                add_unlisted(out, plan, tables, self.all, router);
                Ok(Status::Unclear)
            }
        }
    }
}

/// Prints the verdict on the routers' own tables and what it comes from, by the plan in a TOML
/// document, or why the plan or the text of routes is refused. Under a settled network's line are
/// the planned prefixes that its routers cannot reach; under that of a place that does not hold,
/// the route as its router tells it, its direct cost, each neighbour's offer, and the least metric
/// of the plan. With `all` each place that does not hold is told of, or each router without a line.
/// The source and the sink come back. The text chooses prefixes and next hops, so the hashers, one
/// for prefixes and one for ways, should be seeded at random.
pub fn run_explain_routes<R: Source, K: Sink, S: BuildHasher + Drop>(
    alloc: Global,
    plan: &[u8],
    routes: R,
    out: K,
    all: bool,
    prefixes: S,
    ways: S,
) -> (R, K, Result<Status, RunError>)
    // Settled is answered exactly where each router's table is told and the tables are right, and
    // then packets arrive, over any choice of the ways.
    ensures headline { (text : List ℕ) → IsGiven R.given R.at_end routes result.0 text →
        (n : Network) (t : OwnTables) → AreTold plan.now text n t →
        IfOk result.2 (JudgesRightly n t) }
    // What it prints and leaves, by the text of the verdict and what it comes from.
    ensures runs { RunsOnRoutes R.Source K.Sink (λ n t s. OwnExplainText n all t s) plan.now
        routes out result }
{
    run_own_report(
        alloc,
        &ExplainRoutes { all },
        plan,
        routes,
        out,
        prefixes,
        ways,
    )
}

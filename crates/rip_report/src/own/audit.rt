//! The command `audit --routes`: whether the routers' own tables are right.

ghost use Rattle.std.specs.Prelude.{◌≡◌, IfOk, ℕ, List, None};
ghost use Rattle.rip_plan.specs.Network.{Network};
ghost use Rattle.rip_table.specs.State.{Fits};
ghost use Rattle.rip_routes.specs.OwnTables.{FitsOwn, OwnTables};
ghost use Rattle.rip_check.specs.Marks.{AreWrong};
ghost use Rattle.rip_check.specs.OwnTells.{IsToldBy};
ghost use Rattle.rip_check.specs.OwnVerdicts.{IsOwnVerdict};
ghost use Rattle.rip_report.specs.Finished.{AddsWritten};
ghost use Rattle.rip_report.specs.Given.{IsGiven};
ghost use Rattle.rip_report.specs.OwnRuns.{RunsOnRoutes};
ghost use Rattle.rip_report.specs.OwnText.{AreTold, JudgesRightly, OwnFailingText, OwnUnsettledLine, OwnVerdictText};

use crate::loops::{PairText, add_pairs};
use crate::output::Out;
use crate::own::lines::{push_own_settled_line, push_own_unsettled_line, push_unlisted_line};
use crate::own::{OwnReport, run_own_report};
use crate::status::{RunError, Status};
use rip_check::{Case, OwnPlace, OwnVerdict, WrongPlaces, judge_own};
use rip_log::{Sink, Source};
use rip_plan::Plan;
use rip_routes::RouteTables;
use rip_table::Table;
use std::alloc::{AllocError, Global};
use std::hash::BuildHasher;

/// A line of each place of the routers' own tables that does not hold.
#[derive(Drop)]
struct WrongLines<'a, G: RouteTables> {
    tables: &'a G,
    places: WrongPlaces,
}

impl<G: RouteTables> PairText for WrongLines<'_, G> {
    ghost fits = { λ texts n s. FitsOwn n (G.tables texts.tables.now)
        × IsToldBy n (G.tables texts.tables.now) s
        × AreWrong n s (G.tables texts.tables.now) texts.places };

    ghost is_text = { λ texts n s.
        OwnFailingText n (G.tables texts.tables.now) s (OwnUnsettledLine n s) };

    fn add<T: Table, K: Sink>(&self, out: &mut Out<K>, case: &Case<'_, T>, router: usize) {
        case.plan.lawful();
        match self.places.at(case, self.tables, router) {
            Some(place) => push_own_unsettled_line(out, case.plan, case.table, &place),
            None => {}
        }
    }
}

/// Adds the line of the first place that does not hold, or those of all.
fn add_wrong<T: Table, G: RouteTables, K: Sink>(
    alloc: Global,
    out: &mut Out<K>,
    plan: &Plan,
    tables: &G,
    table: &T,
    all: bool,
    place: &OwnPlace,
) -> Result<Status, AllocError>
    requires fits { Fits plan.now (T.state table.now) }
    requires own { FitsOwn plan.now (G.tables tables.now) }
    requires told { IsToldBy plan.now (G.tables tables.now) (T.state table.now) }
    requires verdict { IsOwnVerdict plan.now (T.state table.now) (G.tables tables.now)
        (OwnVerdict.Unsettled place.now) }
    ensures adds { AddsWritten out.old out.new result
        (OwnVerdictText plan.now all (G.tables tables.now) (T.state table.now)) }
    ensures status { IfOk result (λ status. status ≡ Status.Unsettled) }
{
    plan.lawful();
    if all {
        let places = WrongPlaces::find(alloc, plan, tables, table)?;
        add_pairs(out, &WrongLines { tables, places }, plan, table);
        return Ok(Status::Unsettled);
    }
    push_own_unsettled_line(out, plan, table, place);
    Ok(Status::Unsettled)
}

/// The command `audit --routes`, for the first place that does not hold or for all.
#[derive(Clone, Copy)]
struct AuditRoutes {
    all: bool,
}

impl OwnReport for AuditRoutes {
    ghost is_text = { λ audit n t s. OwnVerdictText n audit.all t s };

    fn add<T: Table, G: RouteTables, K: Sink>(
        &self,
        alloc: Global,
        out: &mut Out<K>,
        plan: &Plan,
        tables: &G,
        table: &T,
    ) -> Result<Status, AllocError> {
        plan.lawful();
        match judge_own(plan, tables, table) {
            OwnVerdict::Settled => {
                push_own_settled_line(out, plan, table);
                Ok(Status::Settled)
            }
            OwnVerdict::Unsettled(place) => {
                add_wrong(alloc, out, plan, tables, table, self.all, &place)
            }
            OwnVerdict::NoRoutes(router) => {
                push_unlisted_line(out, plan, router);
                Ok(Status::Unclear)
            }
        }
    }
}

/// Prints the verdict on the routers' own tables by the plan in a TOML document, or why the plan or
/// the text of routes is refused. With `all` an unsettled network has one line for each place that
/// does not hold. The source and the sink come back. The text chooses prefixes and next hops, so
/// the hashers, one for prefixes and one for ways, should be seeded at random.
pub fn run_audit_routes<R: Source, K: Sink, S: BuildHasher + Drop>(
    alloc: Global,
    plan: &[u8],
    routes: R,
    out: K,
    all: bool,
    prefixes: S,
    ways: S,
) -> (R, K, Result<Status, RunError>)
    // Settled is answered exactly where each router's table is told and the tables are right, and
    // then packets arrive, over any choice of the ways.
    ensures headline { (text : List ℕ) → IsGiven R.given R.at_end routes result.0 text →
        (n : Network) (t : OwnTables) → AreTold plan.now text n t →
        IfOk result.2 (JudgesRightly n t) }
    // What it prints and leaves, by the text of the verdict.
    ensures runs { RunsOnRoutes R.Source K.Sink (λ n t s. OwnVerdictText n all t s) plan.now
        routes out result }
{
    run_own_report(
        alloc,
        &AuditRoutes { all },
        plan,
        routes,
        out,
        prefixes,
        ways,
    )
}

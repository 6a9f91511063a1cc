//! Reports on the routers' own tables, as they tell them.

mod audit;
mod explain;
mod lines;
mod reading;

ghost use Rattle.std.specs.Prelude.{◌≡◌, ◌≢◌, Ok, Err, IfOk, ℕ, List};
ghost use Rattle.rip_plan.specs.Network.{Network};
ghost use Rattle.rip_table.specs.State.{Fits, State};
ghost use Rattle.rip_routes.specs.OwnTables.{FitsOwn, OwnTables};
ghost use Rattle.rip_routes.specs.RouteText.{RefusesText, TellTables};
ghost use Rattle.rip_routes.specs.declared.error.RoutesError.{RoutesError};
ghost use Rattle.rip_check.specs.OwnTells.{IsToldBy};
ghost use Rattle.rip_report.specs.Finished.{AddsWritten};
ghost use Rattle.rip_report.specs.Given.{IsGiven};
ghost use Rattle.rip_report.specs.OwnRuns.{RunsOnRoutes};
ghost use Rattle.rip_report.specs.OwnText.{AreTold, IsOwnJudged, JudgesRightly, RoutesReport};
ghost use Rattle.rip_report.specs.Runs.{PullsLittleBehind, Reads};
ghost use Rattle.rip_report.specs.Sent.{Prints};
ghost use Rattle.rip_report.specs.Written.{Written};

use crate::output::Out;
use crate::own::lines::refuse_routes;
use crate::own::reading::read_routes;
use crate::refusal::refuse_plan;
use crate::status::{RunError, Status};
pub use audit::run_audit_routes;
pub use explain::run_explain_routes;
use rip_check::ToldTable;
use rip_log::{Sink, Source};
use rip_plan::Plan;
use rip_plan::laws::one_plan;
use rip_routes::RouteTables;
use rip_routes::laws::{refused_texts, told_texts};
use rip_table::Table;
use std::alloc::{AllocError, Global};
use std::hash::BuildHasher;

/// A command that reads a plan and the routers' own tables: what it tells of them.
pub(crate) trait OwnReport {
    // The texts that it may tell of tables and of what they tell to neighbours, each with its
    // status.
    ghost is_text: { Self → Network → OwnTables → State → Written → Type 0 };

    /// Adds what there is to say of tables, by what they tell to neighbours, or nothing where a
    /// growth is refused.
    fn add<T: Table, G: RouteTables, K: Sink>(
        &self,
        alloc: Global,
        out: &mut Out<K>,
        plan: &Plan,
        tables: &G,
        table: &T,
    ) -> Result<Status, AllocError>
        requires fits { Fits plan.now (T.state table.now) }
        requires own { FitsOwn plan.now (G.tables tables.now) }
        requires told { IsToldBy plan.now (G.tables tables.now) (T.state table.now) }
        ensures adds { AddsWritten out.old out.new result
            (is_text self.now plan.now (G.tables tables.now) (T.state table.now)) }
        ensures judged { IfOk result (IsOwnJudged plan.now (G.tables tables.now)) };
}

/// Writes what a command tells of tables.
fn write_own_report<C: OwnReport, T: Table, G: RouteTables, K: Sink>(
    alloc: Global,
    command: &C,
    plan: &Plan,
    tables: &G,
    table: &T,
    out: K,
) -> (K, Result<Status, RunError>)
    requires fits { Fits plan.now (T.state table.now) }
    requires own { FitsOwn plan.now (G.tables tables.now) }
    requires told { IsToldBy plan.now (G.tables tables.now) (T.state table.now) }
    ensures prints { Prints K.taken K.broken out result.0 result.1
        (C.is_text command.now plan.now (G.tables tables.now) (T.state table.now)) }
    ensures judged { IfOk result.1 (IsOwnJudged plan.now (G.tables tables.now)) }
    ensures read { result.1 ≢ Err RunError.Read }
{
    let mut text = Out::new(out);
    let added = command.add(alloc, &mut text, plan, tables, table);
    text.answer(added)
}

/// Writes the report on tables, by what they tell to neighbours.
fn report_tables<C: OwnReport, G: RouteTables, K: Sink>(
    alloc: Global,
    command: &C,
    plan: &Plan,
    tables: &G,
    out: K,
) -> (K, Result<Status, RunError>)
    requires { FitsOwn plan.now (G.tables tables.now) }
    ensures prints { Prints K.taken K.broken out result.0 result.1 (λ w. (s : State)
        × IsToldBy plan.now (G.tables tables.now) s
        × C.is_text command.now plan.now (G.tables tables.now) s w) }
    ensures judged { IfOk result.1 (IsOwnJudged plan.now (G.tables tables.now)) }
    ensures read { result.1 ≢ Err RunError.Read }
{
    match ToldTable::find(alloc, plan, tables) {
        Ok(table) => write_own_report(alloc, command, plan, tables, &table, out),
        Err(_) => (out, Err(RunError::Memory)),
    }
}

/// Writes the report on a text of routes by its plan, or what refuses the text.
fn report_routes<C: OwnReport, R: Source, K: Sink, S: BuildHasher + Drop>(
    alloc: Global,
    command: &C,
    plan: &Plan,
    routes: R,
    out: K,
    prefixes: S,
    ways: S,
) -> (R, K, Result<Status, RunError>)
    ensures prints { (text : List ℕ) → IsGiven R.given R.at_end routes result.0 text →
        Prints K.taken K.broken out result.1 result.2
        (RoutesReport (C.is_text command.now plan.now) plan.now text) }
    ensures reads { Reads R.given R.coming R.broken R.at_end routes result.0 result.2 }
    ensures judged { (text : List ℕ) → IsGiven R.given R.at_end routes result.0 text →
        (t : OwnTables) → TellTables plan.now text t →
        IfOk result.2 (JudgesRightly plan.now t) }
    ensures stops { (text : List ℕ) → IsGiven R.given R.at_end routes result.0 text →
        (e : RoutesError) → RefusesText plan.now text e →
        IfOk result.2 (λ status. PullsLittleBehind R.given routes result.0 e.line) }
{
    plan.lawful();
    told_texts();
    refused_texts();
    let (source, read) = read_routes(alloc, plan, routes, prefixes, ways);
    match read {
        Ok(Ok(tables)) => {
            let (out, answer) = report_tables(alloc, command, plan, &tables, out);
            (source, out, answer)
        }
        Ok(Err(error)) => {
            let (out, answer) = refuse_routes(error, out);
            (source, out, answer)
        }
        Err(error) => (source, out, Err(error)),
    }
}

/// Writes the report on a text of routes by the plan in a TOML document, or why the plan or the
/// text is refused. The source and the sink come back. The text chooses prefixes and next hops, so
/// the hashers should be seeded at random.
pub(crate) fn run_own_report<C: OwnReport, R: Source, K: Sink, S: BuildHasher + Drop>(
    alloc: Global,
    command: &C,
    plan: &[u8],
    routes: R,
    out: K,
    prefixes: S,
    ways: S,
) -> (R, K, Result<Status, RunError>)
    ensures headline { (text : List ℕ) → IsGiven R.given R.at_end routes result.0 text →
        (n : Network) (t : OwnTables) → AreTold plan.now text n t →
        IfOk result.2 (JudgesRightly n t) }
    ensures runs { RunsOnRoutes R.Source K.Sink (C.is_text command.now) plan.now routes out result }
{
    one_plan();
    match Plan::read(alloc, plan) {
        Ok(plan) => report_routes(alloc, command, &plan, routes, out, prefixes, ways),
        Err(error) => {
            let (out, answer) = refuse_plan(error, out);
            (routes, out, answer)
        }
    }
}

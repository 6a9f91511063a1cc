//! From a text of routes to tables.

ghost use Rattle.std.specs.Prelude.{◌≡◌, ◌≢◌, Ok, Err, IfErr, IfOk, OnOk, is_ok, true, ℕ, List};
ghost use Rattle.rip_log.specs.Wholes.{Went};
ghost use Rattle.rip_routes.specs.OwnTables.{FitsOwn};
ghost use Rattle.rip_report.specs.Given.{IsGiven};
ghost use Rattle.rip_report.specs.OwnRuns.{TellsOrRefuses, read_of};
ghost use Rattle.rip_report.specs.Runs.{PullsLittleBehind};

use crate::status::RunError;
use rip_log::{Source, TextReader};
use rip_plan::Plan;
use rip_routes::laws::{refused_texts, told_texts};
use rip_routes::{GridRoutes, RouteTables, RoutesCause, RoutesError, collect_routes};
use std::alloc::Global;
use std::hash::BuildHasher;

/// What refuses a text, if anything does, or why it could not be read.
fn outcome<S: BuildHasher>(
    collected: Result<GridRoutes<S>, RoutesError>,
) -> Result<Result<GridRoutes<S>, RoutesError>, RunError>
    ensures { result ≡ read_of collected }
{
    match collected {
        Ok(tables) => Ok(Ok(tables)),
        Err(error) => match error.cause {
            RoutesCause::Memory => Err(RunError::Memory),
            RoutesCause::Read => Err(RunError::Read),
            _ => Ok(Err(error)),
        },
    }
}

/// Reads the routers' own tables, or what refuses them. The source comes back.
pub(crate) fn read_routes<R: Source, S: BuildHasher + Drop>(
    alloc: Global,
    plan: &Plan,
    routes: R,
    prefixes: S,
    ways: S,
) -> (R, Result<Result<GridRoutes<S>, RoutesError>, RunError>)
    ensures told { (text : List ℕ) → IsGiven R.given R.at_end routes result.0 text →
        IfOk result.1 (TellsOrRefuses (⟦<GridRoutes<S> as RouteTables>⟧.tables) plan.now text) }
    ensures fits { IfOk result.1 (λ read.
        IfOk read (λ g. FitsOwn plan.now (⟦<GridRoutes<S> as RouteTables>⟧.tables g))) }
    ensures went { Went R.given R.coming R.at_end routes result.0 }
    ensures read { result.1 ≡ Err RunError.Read → R.broken result.0 ≡ true }
    ensures write { result.1 ≢ Err RunError.Write }
    ensures mark { result.1 ≢ Err RunError.Read → R.broken result.0 ≡ R.broken routes }
    ensures ended { IfOk result.1 (λ read. OnOk read (R.at_end result.0 ≡ true)) }
    // Behind a refused line no more is pulled than a reader holds.
    ensures stops { IfOk result.1 (λ read. IfErr read (λ e.
        PullsLittleBehind R.given routes result.0 e.line)) }
{
    plan.lawful();
    told_texts();
    refused_texts();
    match TextReader::new(alloc, routes) {
        Err((_, source)) => (source, Err(RunError::Memory)),
        Ok(mut reader) => {
            let collected = collect_routes(alloc, plan, &mut reader, prefixes, ways);
            reader.lawful();
            (reader.into_source(), outcome(collected))
        }
    }
}

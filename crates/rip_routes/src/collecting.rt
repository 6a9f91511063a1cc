//! The loop over the lines of what routers tell.

ghost use Rattle.std.specs.Prelude.{◌≡◌, OnOk, false, length};
ghost use Rattle.rip_log.specs.TextCall.{text_lines, text_stopped};
ghost use Rattle.rip_table.specs.Rows.{rows_of};
ghost use Rattle.rip_routes.specs.CollectsRoutes.{CollectsRoutes, TellsLine, cause_of};
ghost use Rattle.rip_routes.specs.Judging.{grid_tables};
ghost use Rattle.rip_routes.specs.Ways.{AreWays};

use crate::error::{RoutesCause, RoutesError};
use crate::grid::GridRoutes;
use crate::line::told_by_line;
use crate::route_tables::RouteTables;
use rip_log::{LogCode, Source, TextReader};
use rip_plan::Plan;
use std::alloc::Global;
use std::hash::BuildHasher;

/// The cause of a reader's error.
fn cause_of(code: LogCode) -> RoutesCause
    ensures { result ≡ cause_of code }
{
    match code {
        LogCode::LongLine => RoutesCause::LongLine,
        LogCode::TooManyLines => RoutesCause::TooManyLines,
        _ => RoutesCause::Read,
    }
}

/// Adds what a line tells to the tables.
fn tell<S: BuildHasher + Drop>(
    plan: &Plan,
    grid: &mut GridRoutes<S>,
    line: &[u8],
) -> Result<(), RoutesCause>
    requires width { length grid.old.listed.items ≡ length plan.now.routers }
    requires ways { AreWays grid.old.ways.keys (rows_of grid.old.rows.entries) }
    ensures tells { TellsLine plan.now
        (grid_tables grid.old.listed.items (rows_of grid.old.rows.entries)) line.now
        (grid_tables grid.new.listed.items (rows_of grid.new.rows.entries)) result }
    ensures ways { OnOk result (AreWays grid.new.ways.keys (rows_of grid.new.rows.entries)) }
    ensures width { length grid.new.listed.items ≡ length grid.old.listed.items }
{
    match told_by_line(plan, line) {
        Ok(None) => Ok(()),
        Ok(Some(told)) => grid.take(&told),
        Err(cause) => Err(cause),
    }
}

/// Reads what routers tell of their own tables: the text to come of a reader at its front. The
/// error is that of the first bad line, or Read where the source failed; Memory comes only before
/// the first line, or at a line that tells a prefix or a next hop that is new. The text chooses
/// prefixes and next hops, so the hashers, one for prefixes and one for ways, should be seeded at
/// random.
pub fn collect_routes<R: Source, S: BuildHasher + Drop>(
    alloc: Global,
    plan: &Plan,
    reader: &mut TextReader<R>,
    prefixes: S,
    ways: S,
) -> Result<GridRoutes<S>, RoutesError>
    requires { (text_lines reader.old ≡ 0) × (text_stopped reader.old ≡ false) }
    ensures { CollectsRoutes R.given R.coming R.broken R.at_end
        (⟦<GridRoutes<S> as RouteTables>⟧.tables) plan.now reader.old reader.new result }
{
    plan.lawful();
    let Ok(mut grid) = GridRoutes::with_hashers(alloc, plan, prefixes, ways) else {
        return Err(RoutesError {
            line: 0,
            cause: RoutesCause::Memory,
        });
    };
    'lines: loop {
        match reader.next() {
            Ok(Some(found)) => {
                let line = found.line;
                match tell(plan, &mut grid, found.bytes) {
                    Ok(()) => {}
                    Err(cause) => return Err(RoutesError { line, cause }),
                }
            }
            Ok(None) => return Ok(grid),
            Err(error) => {
                return Err(RoutesError {
                    line: error.line,
                    cause: cause_of(error.code),
                });
            }
        }
    }
}

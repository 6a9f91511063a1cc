//! Rows of places, one for each prefix, in a hashed map that keeps their order.

ghost use Rattle.std.specs.Prelude.{◌≡◌, ◌<◌, ℕ, [], None, Some, false, length, IfOk, OnErr, OnOk, unwrap_or};
ghost use Rattle.rip_plan.specs.Network.{number_of_prefix};
ghost use Rattle.rip_table.specs.State.{is_among};
ghost use Rattle.rip_table.specs.Rows.{IsGrid, cell, heads, planned_rows, rows_of, with_cell, with_row};
ghost use Rattle.rip_routes.specs.Cells.{IsNewHop, added};
ghost use Rattle.rip_routes.specs.Telling.{first_route};
ghost use Rattle.rip_routes.specs.Judging.{IsJudged};

use crate::cell::{Cell, blank_row};
use crate::error::RoutesCause;
use crate::told::Told;
use indexmap::IndexMap;
use rip_plan::Plan;
use rip_table::MOST_PREFIXES;
use rip_wire::Prefix;
use std::alloc::{AllocError, Global};
use std::hash::BuildHasher;

/// A row for each prefix, with a cell for each router.
pub(crate) type Rows<S> = IndexMap<Prefix, Vec<Cell>, S>;

/// The number of a prefix's row, which is added at the end where there is none.
pub(crate) fn row_at<S: BuildHasher>(
    alloc: Global,
    rows: &mut Rows<S>,
    width: usize,
    prefix: Prefix,
) -> Result<usize, AllocError>
    ensures ok { OnOk result (rows_of rows.new.entries
        ≡ with_row None width (rows_of rows.old.entries) prefix) }
    ensures number { IfOk result (λ k.
        number_of_prefix prefix (heads (rows_of rows.new.entries)) ≡ Some k) }
    ensures err { OnErr result (rows.new.entries ≡ rows.old.entries) }
    ensures allocates { OnErr result
        (is_among prefix (heads (rows_of rows.old.entries)) ≡ false) }
{
    if let Some(k) = rows.get_index_of(&prefix) {
        return Ok(k);
    }
    let k = rows.len();
    let row = blank_row(alloc, width)?;
    rows.insert(prefix, row)?;
    Ok(k)
}

/// Adds a row for each prefix of a plan.
pub(crate) fn add_planned<S: BuildHasher>(
    alloc: Global,
    rows: &mut Rows<S>,
    plan: &Plan,
) -> Result<(), AllocError>
    requires { rows.old.entries ≡ [] }
    ensures ok { OnOk result (rows_of rows.new.entries
        ≡ planned_rows None (length plan.now.routers) plan.now.prefixes) }
{
    plan.lawful();
    for k in 0..plan.prefixes() {
        row_at(alloc, rows, plan.routers(), plan.prefix(k))?;
    }
    Ok(())
}

/// Adds what a line tells to the place, or leaves the rows as they were.
pub(crate) fn add_to<S: BuildHasher>(
    rows: &mut Rows<S>,
    width: usize,
    k: usize,
    told: &Told,
    is_new: bool,
) -> Result<(), AllocError>
    requires grid { IsGrid width (rows_of rows.old.entries) }
    requires row { number_of_prefix told.now.prefix (heads (rows_of rows.old.entries)) ≡ Some k }
    requires cell { told.now.router < width }
    ensures ok { OnOk result (rows_of rows.new.entries
        ≡ with_cell (rows_of rows.old.entries) k told.now.router (Some (added (unwrap_or
        (cell None (rows_of rows.old.entries) told.now.router told.now.prefix)
        (first_route told.now.metric)) told.now.way is_new))) }
    ensures err { OnErr result (rows_of rows.new.entries ≡ rows_of rows.old.entries) }
    ensures allocates { OnErr result (IsNewHop told.now.way is_new) }
{
    let row = &mut rows[k];
    row[told.router].add(told.metric, &told.way, is_new)
}

/// Why a line's route is refused, if it is.
pub(crate) fn judge<S: BuildHasher>(rows: &Rows<S>, told: &Told) -> Result<(), RoutesCause>
    requires { (width : ℕ) × IsGrid width (rows_of rows.now.entries) × (told.now.router < width) }
    ensures { IsJudged (rows_of rows.now.entries) told.now result }
{
    let Some(k) = rows.get_index_of(&told.prefix) else {
        return if rows.len() >= MOST_PREFIXES {
            Err(RoutesCause::TooManyPrefixes)
        } else {
            Ok(())
        };
    };
    match rows[k][told.router].metric() {
        None => Ok(()),
        Some(old) if old == told.metric => Ok(()),
        Some(old) => Err(RoutesCause::Changed {
            prefix: told.prefix,
            old,
            new: told.metric,
        }),
    }
}

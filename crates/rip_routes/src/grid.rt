//! The routers' tables that the program uses: a grid of places, by prefix and router.

ghost use Rattle.std.specs.Prelude.{◌≡◌, ◌<◌, false, IfOk, OnOk, length, replicate};
ghost use Rattle.rip_plan.specs.Network.{Network};
ghost use Rattle.rip_table.specs.Rows.{IsGrid, rows_of};
ghost use Rattle.rip_routes.specs.Judging.{grid_tables};
ghost use Rattle.rip_routes.specs.TableFacts.{AreGood};
ghost use Rattle.rip_routes.specs.Takes.{Takes};
ghost use Rattle.rip_routes.specs.Telling.{new_tables};
ghost use Rattle.rip_routes.specs.Tolds.{IsTold};
ghost use Rattle.rip_routes.specs.Ways.{AreWays};

use crate::error::RoutesCause;
use crate::next_hop::NextHop;
use crate::route_tables::RouteTables;
use crate::rows::{Rows, add_planned, add_to, judge, row_at};
use crate::told::Told;
use crate::ways::{Ways, note};
use indexmap::IndexMap;
use rip_plan::Plan;
use rip_wire::{Metric, Prefix};
use std::alloc::{AllocError, Global};
use std::collections::HashSet;
use std::hash::BuildHasher;

/// The metric of a place of which nothing is told.
fn infinity() -> Metric
    ensures { result ≡ 16 }
{
    Metric::new(16).unwrap()
}

/// The routers' tables in a hashed map, from each prefix to a row with a cell for each router. The
/// ways by next hops stand in a hashed set too, so that one told again is found at once.
#[derive(Drop)]
pub struct GridRoutes<S: BuildHasher> {
    alloc: Global,
    rows: Rows<S>,
    listed: Vec<bool>,
    ways: Ways<S>,
    ghost valid: { AreGood (grid_tables listed.items (rows_of rows.entries)) },
    ghost grid: { IsGrid (length listed.items) (rows_of rows.entries) },
}

impl<S: BuildHasher> RouteTables for GridRoutes<S> {
    ghost use Rattle.rip_routes.specs.TableFacts.{AreOwnTables-good};

    ghost tables = { λ t. grid_tables t.listed.items (rows_of t.rows.entries) };

    ghost are_tables = { λ t. AreOwnTables-good (grid_tables t.listed.items (rows_of t.rows.entries))
        t.valid };

    fn prefix_count(&self) -> usize {
        self.rows.len()
    }

    fn prefix(&self, k: usize) -> Prefix {
        *self.rows.get_index(k).unwrap().0
    }

    fn is_listed(&self, router: usize) -> bool {
        router < self.listed.len() && self.listed[router]
    }

    fn metric(&self, router: usize, k: usize) -> Metric {
        if router >= self.listed.len() {
            return infinity();
        }
        match self.rows[k][router].metric() {
            Some(metric) => metric,
            None => infinity(),
        }
    }

    fn is_here(&self, router: usize, k: usize) -> bool {
        router < self.listed.len() && self.rows[k][router].is_here()
    }

    fn next_hops(&self, router: usize, k: usize) -> &[NextHop] {
        if router >= self.listed.len() {
            return &[];
        }
        self.rows[k][router].hops()
    }
}

/// No router is listed.
fn none_listed(alloc: Global, count: usize) -> Result<Vec<bool>, AllocError>
    ensures { IfOk result (λ listed. listed.items ≡ replicate count false) }
{
    vec![in alloc; false; count]
}

impl<S: BuildHasher + Drop> GridRoutes<S> {
    /// The tables of a plan's routers of which nothing is told. The first hasher is for prefixes,
    /// and the other for ways.
    pub(crate) fn with_hashers(
        alloc: Global,
        plan: &Plan,
        prefixes: S,
        ways: S,
    ) -> Result<GridRoutes<S>, AllocError>
        ensures tables { IfOk result (λ grid.
            grid_tables grid.listed.items (rows_of grid.rows.entries) ≡ new_tables plan.now) }
        ensures ways { IfOk result (λ grid. AreWays grid.ways.keys (rows_of grid.rows.entries)) }
        ensures width { IfOk result (λ grid.
            length grid.listed.items ≡ length plan.now.routers) }
    {
        let listed = none_listed(alloc, plan.routers())?;
        let mut rows = IndexMap::with_hasher(alloc, prefixes);
        add_planned(alloc, &mut rows, plan)?;
        plan.lawful();
        Ok(GridRoutes {
            alloc,
            rows,
            listed,
            ways: HashSet::with_hasher(alloc, ways),
        })
    }

    /// Adds what a line tells. Where memory is refused, the tables are done with.
    pub(crate) fn take(&mut self, told: &Told) -> Result<(), RoutesCause>
        requires told { (n : Network) × IsTold n told.now }
        requires router { told.now.router < length self.old.listed.items }
        requires ways { AreWays self.old.ways.keys (rows_of self.old.rows.entries) }
        ensures takes { Takes (grid_tables self.old.listed.items (rows_of self.old.rows.entries))
            told.now (grid_tables self.new.listed.items (rows_of self.new.rows.entries)) result }
        ensures ways { OnOk result
            (AreWays self.new.ways.keys (rows_of self.new.rows.entries)) }
        ensures width { length self.new.listed.items ≡ length self.old.listed.items }
    {
        judge(&self.rows, told)?;
        let width = self.listed.len();
        let k = row_at(self.alloc, &mut self.rows, width, told.prefix)?;
        let is_new = note(&mut self.ways, told, k)?;
        add_to(&mut self.rows, width, k, told, is_new)?;
        self.listed[told.router] = true;
        Ok(())
    }
}

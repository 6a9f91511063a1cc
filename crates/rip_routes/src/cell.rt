//! What is told of a place.

ghost use Rattle.std.specs.Prelude.{◌≡◌, [], false, None, Some, IfOk, OnErr, OnOk, option_map, replicate, unwrap_or};
ghost use Rattle.std.specs.Option.{option_map_or};
ghost use Rattle.rip_routes.specs.Telling.{first_route};
ghost use Rattle.rip_routes.specs.Cells.{IsNewHop, added};

use crate::next_hop::NextHop;
use crate::told::Way;
use rip_wire::Metric;
use std::alloc::{AllocError, Global};
use std::marker::Model;

/// The route that is told of a place, if one is. Where none is, the number of its metric is 0.
#[derive(Drop)]
pub(crate) struct Cell {
    number: u8,
    here: bool,
    hops: Vec<NextHop>,
}

impl Model for Cell {
    ghost use Rattle.std.specs.Prelude.{Option};
    ghost use Rattle.rip_routes.specs.OwnTables.{OwnRoute};
    ghost use Rattle.rip_routes.specs.CellViews.{IsCell, route_of};

    ghost Value = { Option OwnRoute };

    ghost view = { route_of };

    ghost invariant = { IsCell };
}

impl Cell {
    /// A place of which nothing is told.
    fn blank(alloc: Global) -> Cell
        ensures { result ≡ None }
    {
        Cell {
            number: 0,
            here: false,
            hops: Vec::new(alloc),
        }
    }

    /// The metric, if a route is told.
    pub(crate) fn metric(&self) -> Option<Metric>
        ensures { result ≡ option_map (λ route. route.metric) self.now }
    {
        Metric::new(u32::from(self.number))
    }

    /// Whether the route is the router's own.
    pub(crate) fn is_here(&self) -> bool
        ensures { result ≡ option_map_or (λ route. route.here) self.now false }
    {
        self.here
    }

    /// The next hops.
    pub(crate) fn hops(&self) -> &[NextHop]
        ensures { result.now ≡ option_map_or (λ route. route.hops) self.now [] }
    {
        self.hops.as_slice()
    }

    /// Adds a way, if it is new, to the route, which begins with this metric where there is none.
    pub(crate) fn add(
        &mut self,
        metric: Metric,
        way: &Option<Way>,
        is_new: bool,
    ) -> Result<(), AllocError>
        ensures ok { OnOk result
            (self.new ≡ Some (added (unwrap_or self.old (first_route metric)) way.now is_new)) }
        ensures err { OnErr result (self.new ≡ self.old) }
        ensures allocates { OnErr result (IsNewHop way.now is_new) }
    {
        match way {
            Some(Way::To(hop)) => {
                if is_new {
                    self.hops.push(*hop)?;
                }
            }
            Some(Way::Here) => self.here = true,
            None => {}
        }
        if self.number == 0 {
            self.number = metric.get() as u8;
        }
        Ok(())
    }
}

/// So many places of which nothing is told.
pub(crate) fn blank_row(alloc: Global, width: usize) -> Result<Vec<Cell>, AllocError>
    ensures { IfOk result (λ row. row.items ≡ replicate width None) }
{
    let mut row = Vec::new(alloc);
    for _ in 0..width {
        row.push(Cell::blank(alloc))?;
    }
    Ok(row)
}

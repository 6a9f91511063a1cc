//! All places that do not hold, found at once.

ghost use Rattle.std.specs.Prelude.{◌≡◌, ◌<◌, IfNone, IfOk, IfSome, length};
ghost use Rattle.rip_plan.specs.Network.{Network};
ghost use Rattle.rip_table.specs.State.{Fits, State};
ghost use Rattle.rip_check.specs.Marks.{AreUnsettled, IsMark};
ghost use Rattle.rip_check.specs.Cases.{ByPlan, network_of, plan_of, state_of, told_in};
ghost use Rattle.rip_check.specs.Verdicts.{IsFailing, IsSound};
ghost use Rattle.rip_check.specs.Told.{told};

use crate::case::Case;
use crate::marks::{Marking, mark_at, marks_of};
use crate::places::place_of;
use crate::routes::read;
use crate::verdict::Place2;
use rip_plan::Plan;
use rip_table::Table;
use std::alloc::{AllocError, Global};

/// The places of a plan and a table that do not hold.
#[derive(Drop)]
pub struct Unsettled {
    // Router by router a mark for each prefix: what the equation of a place gives that does not
    // hold.
    marks: Vec<Option<u8>>,
}

/// A place is marked where it can be read and does not hold.
#[derive(Clone, Copy)]
struct ByRoute;

impl Marking for ByRoute {
    ghost fits = { λ _ n s. Fits n s };

    ghost is_mark = { λ _ n s. IsMark n (told n s) };

    fn mark<T: Table>(&self, case: &Case<'_, T>, router: usize) -> Option<u8> {
        match case.failing(router) {
            Some(place) => Some(place.equation.get() as u8),
            None => None,
        }
    }
}

impl Unsettled {
    /// Finds the places that do not hold. The two least metrics of each link are found once for all
    /// routers.
    pub fn find<T: Table>(alloc: Global, plan: &Plan, table: &T) -> Result<Unsettled, AllocError>
        requires { Fits plan.now (T.state table.now) }
        ensures { IfOk result (λ unsettled.
            AreUnsettled plan.now (told plan.now (T.state table.now)) unsettled) }
    {
        let marks = marks_of(alloc, &ByRoute, plan, table)?;
        Ok(Unsettled { marks })
    }

    /// The place of a router and the prefix of a case, if it can be read and does not hold.
    pub fn at<T: Table>(&self, case: &Case<'_, T>, router: usize) -> Option<Place2>
        requires places { AreUnsettled (plan_of case.now) (told_in case.now) self.now }
        requires router { router < length (network_of case.now).routers }
        ensures some { IfSome result (λ f. (f.router ≡ router) × (f.prefix ≡ case.now.prefix)
            × IsFailing (plan_of case.now) (told_in case.now) f) }
        ensures none { IfNone result (ByPlan case.now IsSound router) }
    {
        case.lawful();
        let Some(equation) = mark_at(case, self.marks.as_slice(), router) else {
            return None;
        };
        let route = read(case, router).unwrap();
        Some(place_of(router, case.prefix, route, u32::from(equation)))
    }
}

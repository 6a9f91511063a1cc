//! All places of the routers' own tables that do not hold, found at once.

ghost use Rattle.std.specs.Prelude.{◌≡◌, ◌<◌, IfNone, IfOk, IfSome, length};
ghost use Rattle.rip_plan.specs.Network.{Network};
ghost use Rattle.rip_table.specs.State.{Fits, State};
ghost use Rattle.rip_check.specs.Cases.{plan_of, state_of};
ghost use Rattle.rip_check.specs.Marks.{AreWrong, IsOwnMark};
ghost use Rattle.rip_check.specs.OwnTells.{IsToldBy};
ghost use Rattle.rip_check.specs.OwnVerdicts.{IsOwnFailing, IsOwnSound};

use crate::case::Case;
use crate::marks::{Marking, mark_at, marks_of};
use crate::offers::least_choice;
use crate::own_audit::{own_place, wrong_by};
use crate::own_verdict::OwnPlace;
use rip_plan::Plan;
use rip_routes::RouteTables;
use rip_table::Table;
use std::alloc::{AllocError, Global};

/// The places of the routers' own tables that do not hold, found at once.
#[derive(Drop)]
pub struct WrongPlaces {
    // Router by router a mark for each prefix: what the equation of a place gives that does not
    // hold.
    marks: Vec<Option<u8>>,
}

/// A place is marked where the routers' own tables do not hold.
#[derive(Drop)]
struct ByTables<'a, G: RouteTables> {
    tables: &'a G,
}

impl<G: RouteTables> Marking for ByTables<'_, G> {
    ghost fits = { λ marking n s. IsToldBy n (G.tables marking.tables.now) s };

    ghost is_mark = { λ marking n s. IsOwnMark n s (G.tables marking.tables.now) };

    fn mark<T: Table>(&self, case: &Case<'_, T>, router: usize) -> Option<u8> {
        case.lawful();
        let keeps = case.keeps(router);
        let equation = least_choice(case, router, keeps);
        match wrong_by(case, self.tables, router, keeps, equation) {
            Some(_) => Some(equation as u8),
            None => None,
        }
    }
}

impl WrongPlaces {
    /// Finds the places that do not hold. Each equation is asked once, and the two least metrics of
    /// each link are found once for all routers.
    pub fn find<T: Table, G: RouteTables>(
        alloc: Global,
        plan: &Plan,
        tables: &G,
        table: &T,
    ) -> Result<WrongPlaces, AllocError>
        requires fits { Fits plan.now (T.state table.now) }
        requires told { IsToldBy plan.now (G.tables tables.now) (T.state table.now) }
        ensures { IfOk result (λ wrong.
            AreWrong plan.now (T.state table.now) (G.tables tables.now) wrong) }
    {
        let marks = marks_of(alloc, &ByTables { tables }, plan, table)?;
        Ok(WrongPlaces { marks })
    }

    /// The place of a router and the prefix of a case, and what is wrong there, if it does not
    /// hold.
    pub fn at<T: Table, G: RouteTables>(
        &self,
        case: &Case<'_, T>,
        tables: &G,
        router: usize,
    ) -> Option<OwnPlace>
        requires told { IsToldBy (plan_of case.now) (G.tables tables.now) (state_of case.now) }
        requires places { AreWrong (plan_of case.now) (state_of case.now) (G.tables tables.now)
            self.now }
        requires router { router < length (plan_of case.now).routers }
        ensures some { IfSome result (λ place. (place.router ≡ router)
            × (place.prefix ≡ case.now.prefix)
            × IsOwnFailing (plan_of case.now) (state_of case.now) (G.tables tables.now) place) }
        ensures none { IfNone result
            (IsOwnSound (plan_of case.now) (state_of case.now) (G.tables tables.now) router
            case.now.prefix) }
    {
        let Some(equation) = mark_at(case, self.marks.as_slice(), router) else {
            return None;
        };
        let keeps = case.keeps(router);
        let wrong = wrong_by(case, tables, router, keeps, u32::from(equation));
        own_place(case, tables, router, wrong)
    }
}

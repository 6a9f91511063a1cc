//! The verdict on a table.

ghost use Rattle.std.specs.Prelude.{◌≡◌, ◌↔◌, ℕ, ◌+◌, ◌≤◌, ◌<◌, IfErr, IfNone, IfOk, IfSome, None, Some, length};
ghost use Rattle.rip_table.specs.State.{Fits};
ghost use Rattle.rip_check.specs.Tables.{IsHeard};
ghost use Rattle.rip_check.specs.Firsts.{AreHeardOf, CanBeRead, IsFirstOf, IsFirstUnheard, IsFirstUnheardOf, IsFirstTrouble};
ghost use Rattle.rip_check.specs.Cases.{ByPlan, network_of, plan_of, state_of, told_in};
ghost use Rattle.rip_check.specs.Verdicts.{IsFirstPlace, IsRowFirst, IsSound, IsVerdict, ShowsTables, IsNextUnsettled, HoldsAfter, IsKnownPlace};
ghost use Rattle.rip_check.specs.Laws.{ShowsRightTables, EachPlaceHolds};
ghost use Rattle.rip_check.specs.Walks.{PacketsArrive};
ghost use Rattle.rip_check.specs.Told.{told};

use crate::case::Case;
use crate::links::{NOTHING, fill};
use crate::places::failing_equation;
use crate::routes::{read, reason};
use crate::verdict::{Place2, Unclear, Verdict};
use rip_plan::{Interface, MOST_LINKS, Plan};
use rip_table::Table;

/// The first interface that was not heard.
fn first_unheard<T: Table>(plan: &Plan, table: &T) -> Option<Interface>
    requires { Fits plan.now (T.state table.now) }
    ensures some { IfSome result (λ x.
        IsFirstUnheard plan.now (T.state table.now) x.router x.link) }
    ensures none { IfNone result (IsHeard plan.now (T.state table.now)) }
{
    for i in 0..plan.interfaces() {
        if !table.heard(i) {
            return Some(plan.interface(i));
        }
    }
    None
}

impl<T: Table> Case<'_, T> {
    /// The link of a router's first interface that was not heard, of those on links that exchange the
    /// prefix.
    pub fn unheard_link(&self, router: usize) -> Option<usize>
        requires { router < length (plan_of self.now).routers }
        ensures some { IfSome result
            (IsFirstUnheardOf (network_of self.now) (state_of self.now) router) }
        ensures none { IfNone result
            (AreHeardOf (network_of self.now) (state_of self.now) router) }
    {
        self.lawful();
        let numbers = self.plan.of_router(router);
        for i in numbers {
            let own = self.plan.interface(*i);
            if self.exchanges(own.link) && !self.table.heard(*i) {
                return Some(own.link);
            }
        }
        None
    }
}

/// The first place of a router, from a prefix on, that does not hold.
fn first_in_row<T: Table>(plan: &Plan, table: &T, router: usize, from: usize) -> Option<Place2>
    requires fits { Fits plan.now (T.state table.now) }
    requires router { router < length plan.now.routers }
    ensures some { IfSome result
        (IsRowFirst plan.now (told plan.now (T.state table.now)) router from) }
    ensures none { IfNone result ((q : ℕ) → from ≤ q → q < length (T.state table.now).prefixes →
        IsSound plan.now (told plan.now (T.state table.now)) router q) }
{
    for prefix in from..table.prefix_count() {
        if let Some(found) = Case::new(plan, table, prefix).failing(router) {
            return Some(found);
        }
    }
    None
}

/// The first place after the given one, by router and then by prefix, whose route can be read and
/// that does not hold. The given place, if there is one, has a prefix of the table.
pub fn next_unsettled<T: Table>(
    plan: &Plan,
    table: &T,
    after: Option<(usize, usize)>,
) -> Option<Place2>
    requires fits { Fits plan.now (T.state table.now) }
    requires known { IsKnownPlace (T.state table.now) after }
    ensures some { IfSome result (λ place.
        IsNextUnsettled plan.now (told plan.now (T.state table.now)) after place) }
    ensures none { IfNone result (HoldsAfter plan.now (told plan.now (T.state table.now)) after) }
{
    let (row, start) = match after {
        None => (0, 0),
        Some((router, prefix)) => (router, prefix + 1),
    };
    let mut from = start;
    for router in row..plan.routers() {
        if let Some(found) = first_in_row(plan, table, router, from) {
            return Some(found);
        }
        from = 0;
    }
    None
}

/// The first router below a bound whose place can't be read.
fn first_unreadable<T: Table>(case: &Case<'_, T>, below: usize) -> Option<usize>
    requires { below ≤ length (network_of case.now).routers }
    ensures { IsFirstOf below (ByPlan case.now CanBeRead) result }
{
    case.plan.lawful();
    for router in 0..below {
        if read(case, router).is_none() {
            return Some(router);
        }
    }
    None
}

/// The first router below a bound whose place does not hold. If any router's place can't be read,
/// the error is the first such router of all, and it does not matter which places hold.
fn first_failing<T: Table>(case: &Case<'_, T>, below: usize) -> Result<Option<usize>, usize>
    requires { below ≤ length (network_of case.now).routers }
    ensures unreadable { IfErr result (λ r. IsFirstOf (length (network_of case.now).routers)
        (ByPlan case.now CanBeRead) (Some r)) }
    ensures readable { IfOk result (λ _. IsFirstOf (length (network_of case.now).routers)
        (ByPlan case.now CanBeRead) None) }
    ensures failing { IfOk result (IsFirstOf below (ByPlan case.now IsSound)) }
{
    case.plan.lawful();
    let mut first = None;
    for router in 0..case.plan.routers() {
        let Some(route) = read(case, router) else {
            return Err(router);
        };
        if first.is_none() && router < below && failing_equation(case, router, route).is_some() {
            first = Some(router);
        }
    }
    Ok(first)
}

/// The first place that can't be read, as the error, or else the first that does not hold, if there
/// is one: a router and a prefix, by router and then by prefix.
type FirstPlace = Result<Option<(usize, usize)>, (usize, usize)>;

/// The first place, with the places of the next prefix.
fn with_prefix<T: Table>(case: &Case<'_, T>, found: FirstPlace) -> FirstPlace
    requires { IsFirstPlace (plan_of case.now) (told_in case.now) case.now.prefix found }
    ensures { IsFirstPlace (plan_of case.now) (told_in case.now) (case.now.prefix + 1) result }
{
    match found {
        Err((router, first)) => {
            match first_unreadable(case, router) {
                Some(sooner) => Err((sooner, case.prefix)),
                None => Err((router, first)),
            }
        }
        Ok(failing) => {
            let below = match failing {
                Some((router, _)) => router,
                None => case.plan.routers(),
            };
            match first_failing(case, below) {
                Err(router) => Err((router, case.prefix)),
                Ok(Some(router)) => Ok(Some((router, case.prefix))),
                Ok(None) => Ok(failing),
            }
        }
    }
}

/// The first place of a table. This goes prefix by prefix, so that the two least metrics of each
/// link are found once for all routers.
fn first_place<T: Table>(plan: &Plan, table: &T) -> FirstPlace
    requires { Fits plan.now (T.state table.now) }
    ensures { IsFirstPlace plan.now (told plan.now (T.state table.now))
        (length (T.state table.now).prefixes) result }
{
    plan.lawful();
    let mut room = [NOTHING; MOST_LINKS];
    let links = &mut room[..plan.links()];
    let mut found = Ok(None);
    for prefix in 0..table.prefix_count() {
        let case = Case::new(plan, table, prefix);
        fill(&case, links);
        found = with_prefix(&case.with_links(links), found);
    }
    found
}

/// The verdict, by its definition.
fn decide<T: Table>(plan: &Plan, table: &T) -> Verdict
    requires { Fits plan.now (T.state table.now) }
    ensures { IsVerdict plan.now (told plan.now (T.state table.now)) result }
{
    plan.lawful();
    if let Some(own) = first_unheard(plan, table) {
        return Verdict::Unclear(Unclear::NotHeard {
            router: own.router,
            link: own.link,
        });
    }
    match first_place(plan, table) {
        Err((router, prefix)) => {
            Verdict::Unclear(reason(&Case::new(plan, table, prefix), router))
        }
        Ok(Some((router, prefix))) => {
            let place = Case::new(plan, table, prefix).failing(router);
            Verdict::Unsettled(place.unwrap())
        }
        Ok(None) => Verdict::Settled,
    }
}

/// The verdict on a table that fits a plan, by what its interfaces tell: the metric that is shown,
/// and where nothing is, 16 of an interface that does not poison. Settled is answered exactly where
/// right tables are told; then what follows them arrives. Unsettled names the first place that does
/// not hold, by router and then by prefix, and Unclear the first reason why no tables are told.
pub fn judge<T: Table>(plan: &Plan, table: &T) -> Verdict
    requires { Fits plan.now (T.state table.now) }
    ensures settled { (result ≡ Verdict.Settled)
        ↔ ShowsRightTables plan.now (told plan.now (T.state table.now)) }
    ensures places { (result ≡ Verdict.Settled)
        ↔ EachPlaceHolds plan.now (told plan.now (T.state table.now)) }
    ensures unsettled { (place : Place2) →
        (result ≡ Verdict.Unsettled place)
        ↔ (ShowsTables plan.now (told plan.now (T.state table.now))
        × IsNextUnsettled plan.now (told plan.now (T.state table.now)) None place) }
    ensures unclear { (trouble : Unclear) →
        (result ≡ Verdict.Unclear trouble)
        ↔ IsFirstTrouble plan.now (told plan.now (T.state table.now)) trouble }
    ensures no_tables { ((trouble : Unclear) × (result ≡ Verdict.Unclear trouble))
        ↔ (ShowsTables plan.now (told plan.now (T.state table.now)) → ⊥) }
    ensures arrive { result ≡ Verdict.Settled →
        PacketsArrive plan.now (told plan.now (T.state table.now)) }
{
    plan.lawful();
    decide(plan, table)
}

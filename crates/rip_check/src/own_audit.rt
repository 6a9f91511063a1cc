//! The verdict on the routers' own tables.

ghost use Rattle.std.specs.Prelude.{◌≡◌, ◌↔◌, ℕ, ◌+◌, ◌≤◌, ◌<◌, Decides, IfNone, Contains, IfSome, None, Some, length, min, true, unwrap_or};
ghost use Rattle.rip_plan.specs.Relations.{HasCost, IsKept};
ghost use Rattle.rip_table.specs.State.{Fits};
ghost use Rattle.rip_routes.specs.OwnTables.{route_at};
ghost use Rattle.rip_check.specs.Cases.{At, ByPlan, network_of, plan_of, state_of, told_in};
ghost use Rattle.rip_check.specs.Firsts.{IsFirstAt, IsFirstOf};
ghost use Rattle.rip_check.specs.Metrics.{metric_at};
ghost use Rattle.rip_check.specs.OwnSettled.{AreRightTables, DoHoldersOffer, EachOwnHolds, IsAddressGiven, IsHopGiven, OffersAsHolder, OwnHolds};
ghost use Rattle.rip_check.specs.OwnTells.{HasHop, IsHolder, IsToldBy};
ghost use Rattle.rip_check.specs.OwnVerdicts.{IsFirstHad, IsFirstLacking, IsFirstWrongHop, IsNextUnlisted, IsOwnFailing, IsOwnSound, IsOwnVerdict, IsWrong, IsWrongAddress, IsWrongHop};
ghost use Rattle.rip_check.specs.OwnWalks.{OwnPacketsArrive};
ghost use Rattle.rip_check.specs.Settled.{IsChoice, IsLeastChoice};
ghost use Rattle.rip_check.specs.Tables.{Offers};
ghost use Rattle.rip_check.specs.Told.{told};
ghost use Rattle.rip_check.specs.ToldCells.{AreMarks, IsOneHolder};

use crate::case::Case;
use crate::links::{NOTHING, fill, seen_at};
use crate::lookup::metric_of;
use crate::offers::least_choice;
use crate::own_verdict::{OwnPlace, OwnVerdict, Wrong};
use crate::places::{is_direct, is_offered};
use crate::told_table::{first_across, holder_across, owner_across};
use rip_plan::{Interface, MOST_LINKS, MOST_ROUTERS, Plan};
use rip_routes::{NextHop, RouteTables};
use rip_table::Table;
use rip_wire::Address;

/// The first neighbour of a router that has an address for a prefix: the link and the neighbour, by
/// the router's interfaces, and then by those of the link.
fn first_had(plan: &Plan, router: usize, address: Address, prefix: usize) -> Option<(usize, usize)>
    requires { router < length plan.now.routers }
    ensures some { IfSome result (λ had.
        IsFirstHad plan.now router prefix address had.0 had.1) }
    ensures none { IfNone result ((l s : ℕ) → HasHop plan.now router l s prefix address → ⊥) }
{
    let numbers = plan.of_router(router);
    for i in numbers {
        let own = plan.interface(*i);
        let link = own.link;
        match first_across(plan, own, address, prefix) {
            Some(across) => {
                let neighbour = plan.interface(across).router;
                return Some((link, neighbour));
            }
            None => {}
        }
    }
    None
}

/// Whether an interface across, if there is one, offers a metric over an interface of this cost.
fn is_offered_from<T: Table>(
    case: &Case<'_, T>,
    cost: u8,
    across: Option<usize>,
    metric: u32,
) -> bool
    requires { IfSome across (λ j. j < length (plan_of case.now).interfaces) }
    ensures { Decides result ((j : ℕ) × (across ≡ Some j)
        × (metric ≡ min 16 (cost + unwrap_or
        (metric_at (told_in case.now) j case.now.prefix) 16))) }
{
    match across {
        Some(j) => (u32::from(cost) + seen_at(case, j)).min(16) == metric,
        None => false,
    }
}

/// Whether a neighbour on the link of an interface has an address and offers a metric.
fn is_offered_across<T: Table>(
    case: &Case<'_, T>,
    own: Interface,
    address: Address,
    metric: u32,
) -> bool
    requires router { own.router < length (network_of case.now).routers }
    requires own { HasCost (network_of case.now) own.router own.link own.cost }
    ensures { Decides result ((s : ℕ)
        × HasHop (network_of case.now) own.router own.link s case.now.prefix address
        × Offers (network_of case.now) (told_in case.now) own.router own.link s case.now.prefix
        metric) }
{
    case.lawful();
    let holder = holder_across(case.plan, &own, address);
    if is_offered_from(case, own.cost, holder, metric) {
        return true;
    }
    let places = case.plan.gateway_places(case.prefix);
    for k in places {
        let owner = owner_across(case.plan, &own, address, *k);
        if is_offered_from(case, own.cost, owner, metric) {
            return true;
        }
    }
    false
}

/// Whether a neighbour that has an address offers a metric.
fn is_offered_by<T: Table>(case: &Case<'_, T>, router: usize, address: Address, metric: u32) -> bool
    requires { router < length (network_of case.now).routers }
    ensures { Decides result ((l s : ℕ)
        × HasHop (network_of case.now) router l s case.now.prefix address
        × Offers (network_of case.now) (told_in case.now) router l s case.now.prefix metric) }
{
    case.lawful();
    let numbers = case.plan.of_router(router);
    for i in numbers {
        let own = case.plan.interface(*i);
        if case.exchanges(own.link) && is_offered_across(case, own, address, metric) {
            return true;
        }
    }
    false
}

/// The neighbour on the link of an interface whose own address this is, if there is one, and
/// whether it offers a metric there. A link that does not exchange the prefix has none.
fn holder_over<T: Table>(
    case: &Case<'_, T>,
    own: Interface,
    address: Address,
    metric: u32,
) -> Option<(usize, bool)>
    requires router { own.router < length (network_of case.now).routers }
    requires own { HasCost (plan_of case.now) own.router own.link own.cost }
    ensures some { IfSome result (λ h.
        IsOneHolder (network_of case.now) own.router own.link address h.0
        × Decides h.1 (Offers (network_of case.now) (told_in case.now) own.router own.link h.0
        case.now.prefix metric)) }
    ensures none { IfNone result ((s : ℕ) →
        IsHolder (network_of case.now) own.router own.link s address → ⊥) }
{
    case.lawful();
    if !case.exchanges(own.link) {
        return None;
    }
    match holder_across(case.plan, &own, address) {
        Some(across) => {
            let neighbour = case.plan.interface(across).router;
            Some((
                neighbour,
                is_offered_from(case, own.cost, Some(across), metric),
            ))
        }
        None => None,
    }
}

/// Marks the neighbours that offer a metric on a link on which an address is their own, and answers
/// whether each whose own it is offers the metric on each such link. None is marked before.
fn mark_holders<T: Table>(
    case: &Case<'_, T>,
    router: usize,
    address: Address,
    metric: u32,
    marks: &mut [bool],
) -> bool
    requires router { router < length (network_of case.now).routers }
    requires size { length (plan_of case.now).routers ≤ length marks.old }
    requires blank { AreMarks (λ s. ⊥) marks.old }
    ensures marks { AreMarks (λ s. OffersAsHolder (network_of case.now) (told_in case.now) router s
        case.now.prefix metric address) marks.new }
    ensures each { result ≡ true → At case.now DoHoldersOffer router metric address }
{
    case.lawful();
    let mut each = true;
    let numbers = case.plan.of_router(router);
    for i in numbers {
        let own = case.plan.interface(*i);
        match holder_over(case, own, address, metric) {
            Some((neighbour, offers)) => {
                if offers {
                    marks[neighbour] = true;
                } else {
                    each = false;
                }
            }
            None => {}
        }
    }
    each
}

/// The first neighbour whose own address this is and that is not marked as offering a metric: the
/// link and the neighbour, by the router's interfaces.
fn first_unmarked<T: Table>(
    case: &Case<'_, T>,
    router: usize,
    address: Address,
    metric: u32,
    marks: &[bool],
) -> Option<(usize, usize)>
    requires router { router < length (network_of case.now).routers }
    requires size { length (plan_of case.now).routers ≤ length marks.now }
    requires marks { AreMarks (λ s. OffersAsHolder (network_of case.now) (told_in case.now) router s
        case.now.prefix metric address) marks.now }
    ensures some { IfSome result (λ found.
        At case.now IsFirstLacking router metric address found.0 found.1) }
    ensures none { IfNone result (At case.now DoHoldersOffer router metric address) }
{
    case.lawful();
    let numbers = case.plan.of_router(router);
    for i in numbers {
        let own = case.plan.interface(*i);
        let link = own.link;
        match holder_over(case, own, address, metric) {
            Some((neighbour, _)) => {
                if !marks[neighbour] {
                    return Some((link, neighbour));
                }
            }
            None => {}
        }
    }
    None
}

/// The first neighbour whose own address this is that does not offer a metric on any link on which
/// it is: the link and the neighbour, by the router's interfaces.
fn first_lacking<T: Table>(
    case: &Case<'_, T>,
    router: usize,
    address: Address,
    metric: u32,
) -> Option<(usize, usize)>
    requires router { router < length (network_of case.now).routers }
    ensures some { IfSome result (λ found.
        At case.now IsFirstLacking router metric address found.0 found.1) }
    ensures none { IfNone result (At case.now DoHoldersOffer router metric address) }
{
    case.lawful();
    let mut marks = [false; MOST_ROUTERS];
    if mark_holders(case, router, address, metric, &mut marks) {
        return None;
    }
    first_unmarked(case, router, address, metric, &marks)
}

/// Whether next hop `address` gives a metric to a router that does not keep the prefix.
fn is_address_given<T: Table>(
    case: &Case<'_, T>,
    router: usize,
    address: Address,
    metric: u32,
) -> bool
    requires router { router < length (network_of case.now).routers }
    requires takes { IsKept (network_of case.now) router case.now.prefix → ⊥ }
    ensures { Decides result (At case.now IsAddressGiven router metric address) }
{
    match first_lacking(case, router, address, metric) {
        Some(_) => false,
        None => is_offered_by(case, router, address, metric),
    }
}

/// What is wrong with next hop `address`, where it does not give its metric.
fn wrong_address<T: Table>(
    case: &Case<'_, T>,
    router: usize,
    metric: u32,
    address: Address,
) -> Wrong
    requires { router < length (network_of case.now).routers }
    ensures { ByPlan case.now IsWrongAddress router metric address result }
{
    if let Some((link, neighbour)) = first_lacking(case, router, address, metric) {
        return Wrong::Neighbour {
            router: neighbour,
            link,
        };
    }
    match first_had(case.plan, router, address, case.prefix) {
        Some((link, neighbour)) => Wrong::Neighbour {
            router: neighbour,
            link,
        },
        None => Wrong::Nobody(address),
    }
}

/// What is wrong with a next hop that does not give its metric.
fn wrong_hop<T: Table>(case: &Case<'_, T>, router: usize, metric: u32, hop: &NextHop) -> Wrong
    requires { router < length (network_of case.now).routers }
    ensures { ByPlan case.now IsWrongHop router metric hop.now result }
{
    match hop {
        NextHop::Over(link) => Wrong::Over(*link),
        NextHop::Via(address) => wrong_address(case, router, metric, *address),
    }
}

/// Whether a next hop gives a metric, the least choice of a router that does not keep the prefix.
fn is_hop_given<T: Table>(
    case: &Case<'_, T>,
    router: usize,
    keeps: bool,
    metric: u32,
    hop: &NextHop,
) -> bool
    requires router { router < length (network_of case.now).routers }
    requires keeps { Decides keeps (IsKept (network_of case.now) router case.now.prefix) }
    requires small { metric < 16 }
    requires least { (v : ℕ) → At case.now IsChoice router v → metric ≤ v }
    ensures { Decides result (At case.now IsHopGiven router metric hop.now) }
{
    if keeps {
        return false;
    }
    match hop {
        NextHop::Over(link) => is_offered(case, router, metric, *link),
        NextHop::Via(address) => is_address_given(case, router, *address, metric),
    }
}

/// What is wrong with the first next hop of a router that does not give its metric, the least
/// choice.
fn first_wrong_hop<T: Table, G: RouteTables>(
    case: &Case<'_, T>,
    tables: &G,
    router: usize,
    keeps: bool,
    metric: u32,
) -> Option<Wrong>
    requires router { router < length (network_of case.now).routers }
    requires prefix { case.now.prefix < length (G.tables tables.now).prefixes }
    requires keeps { Decides keeps (IsKept (network_of case.now) router case.now.prefix) }
    requires metric { metric ≡ (route_at (G.tables tables.now) router case.now.prefix).metric }
    requires least { (v : ℕ) → At case.now IsChoice router v → metric ≤ v }
    ensures some { IfSome result (ByPlan case.now IsFirstWrongHop router
        (route_at (G.tables tables.now) router case.now.prefix)) }
    ensures none { IfNone result ((h : NextHop) →
        Contains (route_at (G.tables tables.now) router case.now.prefix).hops h →
        At case.now IsHopGiven router metric h) }
{
    let hops = tables.next_hops(router, case.prefix);
    for hop in hops {
        if !is_hop_given(case, router, keeps, metric, hop) {
            return Some(wrong_hop(case, router, metric, hop));
        }
    }
    None
}

/// What is wrong with the route of a router by its equation, if it does not hold.
pub(crate) fn wrong_by<T: Table, G: RouteTables>(
    case: &Case<'_, T>,
    tables: &G,
    router: usize,
    keeps: bool,
    equation: u32,
) -> Option<Wrong>
    requires router { router < length (network_of case.now).routers }
    requires prefix { case.now.prefix < length (G.tables tables.now).prefixes }
    requires keeps { Decides keeps (IsKept (network_of case.now) router case.now.prefix) }
    requires equation { At case.now IsLeastChoice router equation }
    ensures some { IfSome result (ByPlan case.now IsWrong router
        (route_at (G.tables tables.now) router case.now.prefix)) }
    ensures none { IfNone result (At case.now OwnHolds router
        (route_at (G.tables tables.now) router case.now.prefix)) }
{
    case.lawful();
    let metric = tables.metric(router, case.prefix).get();
    if metric != equation {
        return Some(Wrong::Metric(metric_of(equation)));
    }
    if tables.is_here(router, case.prefix) && !is_direct(case.plan, router, case.prefix, metric) {
        return Some(Wrong::Here);
    }
    first_wrong_hop(case, tables, router, keeps, metric)
}

/// What is wrong with the route of a router, if it does not hold.
fn wrong_at<T: Table, G: RouteTables>(
    case: &Case<'_, T>,
    tables: &G,
    router: usize,
) -> Option<Wrong>
    requires router { router < length (network_of case.now).routers }
    requires prefix { case.now.prefix < length (G.tables tables.now).prefixes }
    ensures some { IfSome result (ByPlan case.now IsWrong router
        (route_at (G.tables tables.now) router case.now.prefix)) }
    ensures none { IfNone result (At case.now OwnHolds router
        (route_at (G.tables tables.now) router case.now.prefix)) }
{
    case.lawful();
    let keeps = case.keeps(router);
    let equation = least_choice(case, router, keeps);
    wrong_by(case, tables, router, keeps, equation)
}

/// The first router below a bound whose route of the prefix does not hold.
fn first_wrong_router<T: Table, G: RouteTables>(
    case: &Case<'_, T>,
    tables: &G,
    below: usize,
) -> Option<usize>
    requires below { below ≤ length (network_of case.now).routers }
    requires prefix { case.now.prefix < length (G.tables tables.now).prefixes }
    ensures { IsFirstOf below (λ r. At case.now OwnHolds r
        (route_at (G.tables tables.now) r case.now.prefix)) result }
{
    for router in 0..below {
        match wrong_at(case, tables, router) {
            Some(_) => return Some(router),
            None => {}
        }
    }
    None
}

/// The first place that does not hold, if there is one: a router and a prefix, by router and then
/// by prefix.
type WrongPlace = Option<(usize, usize)>;

/// The first place that does not hold, with the places of the next prefix.
fn with_prefix<T: Table, G: RouteTables>(
    case: &Case<'_, T>,
    tables: &G,
    found: WrongPlace,
) -> WrongPlace
    requires prefixes { (state_of case.now).prefixes ≡ (G.tables tables.now).prefixes }
    requires prefix { case.now.prefix < length (G.tables tables.now).prefixes }
    requires found { IsFirstAt (plan_of case.now) case.now.prefix
        (IsOwnSound (plan_of case.now) (told_in case.now) (G.tables tables.now)) found }
    ensures { IsFirstAt (plan_of case.now) (case.now.prefix + 1)
        (IsOwnSound (plan_of case.now) (told_in case.now) (G.tables tables.now)) result }
{
    case.plan.lawful();
    let below = match found {
        Some((router, _)) => router,
        None => case.plan.routers(),
    };
    match first_wrong_router(case, tables, below) {
        Some(router) => Some((router, case.prefix)),
        None => found,
    }
}

/// The first place that does not hold. This goes prefix by prefix, so that the two least metrics of
/// each link are found once for all routers.
fn first_wrong_place<T: Table, G: RouteTables>(plan: &Plan, tables: &G, table: &T) -> WrongPlace
    requires fits { Fits plan.now (T.state table.now) }
    requires prefixes { (T.state table.now).prefixes ≡ (G.tables tables.now).prefixes }
    ensures { IsFirstAt plan.now (length (G.tables tables.now).prefixes)
        (IsOwnSound plan.now (told plan.now (T.state table.now)) (G.tables tables.now)) result }
{
    plan.lawful();
    let mut room = [NOTHING; MOST_LINKS];
    let links = &mut room[..plan.links()];
    let mut found = None;
    for prefix in 0..table.prefix_count() {
        let case = Case::new(plan, table, prefix);
        fill(&case, links);
        found = with_prefix(&case.with_links(links), tables, found);
    }
    found
}

/// The first router from one on of whose table nothing is told.
pub fn next_unlisted<G: RouteTables>(plan: &Plan, tables: &G, from: usize) -> Option<usize>
    ensures some { IfSome result (IsNextUnlisted plan.now (G.tables tables.now) from) }
    ensures none { IfNone result ((r : ℕ) → from ≤ r → r < length plan.now.routers →
        (G.tables tables.now).listed r ≡ true) }
{
    for router in from..plan.routers() {
        if !tables.is_listed(router) {
            return Some(router);
        }
    }
    None
}

/// A place of the routers' own tables, and what is wrong there, if anything is.
pub(crate) fn own_place<T: Table, G: RouteTables>(
    case: &Case<'_, T>,
    tables: &G,
    router: usize,
    wrong: Option<Wrong>,
) -> Option<OwnPlace>
    requires told { IsToldBy (plan_of case.now) (G.tables tables.now) (state_of case.now) }
    requires router { router < length (network_of case.now).routers }
    requires some { IfSome wrong (ByPlan case.now IsWrong router
        (route_at (G.tables tables.now) router case.now.prefix)) }
    requires none { IfNone wrong (At case.now OwnHolds router
        (route_at (G.tables tables.now) router case.now.prefix)) }
    ensures some { IfSome result (λ place. (place.router ≡ router)
        × (place.prefix ≡ case.now.prefix)
        × IsOwnFailing (plan_of case.now) (state_of case.now) (G.tables tables.now) place) }
    ensures none { IfNone result
        (IsOwnSound (plan_of case.now) (state_of case.now) (G.tables tables.now) router
        case.now.prefix) }
{
    match wrong {
        Some(wrong) => Some(OwnPlace {
            router,
            prefix: case.prefix,
            metric: tables.metric(router, case.prefix),
            wrong,
        }),
        None => None,
    }
}

impl<T: Table> Case<'_, T> {
    /// The place of a router in the routers' own tables, and what is wrong there, if it does not
    /// hold. The table of the case is that of what the routers tell.
    pub fn wrong<G: RouteTables>(&self, tables: &G, router: usize) -> Option<OwnPlace>
        requires told { IsToldBy (plan_of self.now) (G.tables tables.now) (state_of self.now) }
        requires router { router < length (network_of self.now).routers }
        ensures some { IfSome result (λ place. (place.router ≡ router)
            × (place.prefix ≡ self.now.prefix)
            × IsOwnFailing (plan_of self.now) (state_of self.now) (G.tables tables.now) place) }
        ensures none { IfNone result
            (IsOwnSound (plan_of self.now) (state_of self.now) (G.tables tables.now) router
            self.now.prefix) }
    {
        let wrong = wrong_at(self, tables, router);
        own_place(self, tables, router, wrong)
    }
}

/// The verdict on the routers' own tables, by what they tell. Settled is answered exactly where
/// something is told of each router, every metric is the least cost of a path, or 16, and each way
/// goes over a least path; then what follows them arrives, over any choice of the ways. Unsettled
/// names the first place that does not hold, by router and then by prefix, and NoRoutes the first
/// router of which nothing is told.
pub fn judge_own<T: Table, G: RouteTables>(plan: &Plan, tables: &G, table: &T) -> OwnVerdict
    requires fits { Fits plan.now (T.state table.now) }
    requires told { IsToldBy plan.now (G.tables tables.now) (T.state table.now) }
    ensures settled { (result ≡ OwnVerdict.Settled)
        ↔ AreRightTables plan.now (G.tables tables.now) }
    ensures places { (result ≡ OwnVerdict.Settled)
        ↔ EachOwnHolds plan.now (T.state table.now) (G.tables tables.now) }
    ensures verdict { IsOwnVerdict plan.now (T.state table.now) (G.tables tables.now) result }
    ensures arrive { result ≡ OwnVerdict.Settled →
        OwnPacketsArrive plan.now (T.state table.now) (G.tables tables.now) }
{
    plan.lawful();
    if let Some(router) = next_unlisted(plan, tables, 0) {
        return OwnVerdict::NoRoutes(router);
    }
    match first_wrong_place(plan, tables, table) {
        Some((router, prefix)) => {
            let place = Case::new(plan, table, prefix).wrong(tables, router);
            OwnVerdict::Unsettled(place.unwrap())
        }
        None => OwnVerdict::Settled,
    }
}

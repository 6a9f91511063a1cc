//! Whether a place holds.

ghost use Rattle.std.specs.Prelude.{◌≡◌, ℕ, ◌<◌, ◌≤◌, ◌⊎◌, ◌↔◌, Decides, IfErr, IfNone, IfOk, IfSome, IsTrue, is_ok, length};
ghost use Rattle.rip_plan.specs.Relations.{IsDirect, IsKept};
ghost use Rattle.rip_table.specs.State.{Fits};
ghost use Rattle.rip_check.specs.Cases.{At, ByPlan, network_of, plan_of, told_in};
ghost use Rattle.rip_check.specs.Networks.{network_at};
ghost use Rattle.rip_check.specs.Settled.{Holds, IsChoice, IsGiven, IsLeastChoice};
ghost use Rattle.rip_check.specs.Tables.{IsOnlyRoute, FitsShown, FitsThere, FitsWay, Offers};
ghost use Rattle.rip_check.specs.Verdicts.{IsFailing, IsSound, route_of, IsHidden};
ghost use Rattle.rip_check.specs.Firsts.{CanBeRead, IsCause};
ghost use Rattle.rip_check.specs.Told.{told};

use crate::case::Case;
use crate::lookup::metric_of;
use crate::offers::{best_over, least_choice};
use crate::routes::{ReadRoute, read, reason};
use crate::verdict::{Place2, Route, Unclear};
use crate::way::Way;
use rip_plan::Plan;
use rip_table::Table;
use rip_wire::Metric;

/// Whether a router has a prefix itself at this cost.
pub(crate) fn is_direct(plan: &Plan, router: usize, prefix: usize, metric: u32) -> bool
    ensures { Decides result (IsDirect plan.now router prefix metric) }
{
    match plan.direct_cost(router, prefix) {
        Some(cost) => u32::from(cost) == metric,
        None => false,
    }
}

/// Whether a neighbour on the link offers this metric, the least choice of a router that does not
/// keep the prefix.
pub(crate) fn is_offered<T: Table>(
    case: &Case<'_, T>,
    router: usize,
    metric: u32,
    link: usize,
) -> bool
    requires router { router < length (network_of case.now).routers }
    requires takes { IsKept (network_of case.now) router case.now.prefix → ⊥ }
    requires small { metric < 16 }
    requires least { (v : ℕ) → At case.now IsChoice router v → metric ≤ v }
    ensures { Decides result ((s : ℕ) × Offers (network_of case.now) (told_in case.now)
        router link s case.now.prefix metric) }
{
    case.lawful();
    match case.plan.interface_on(router, link) {
        Some(own) => best_over(case, own, 16) == metric,
        None => false,
    }
}

/// Whether the way of a route gives its metric, which is the least choice of the router.
fn is_given<T: Table>(case: &Case<'_, T>, router: usize, keeps: bool, route: ReadRoute) -> bool
    requires router { router < length (network_of case.now).routers }
    requires keeps { Decides keeps (IsKept (network_of case.now) router case.now.prefix) }
    requires way { FitsWay (network_of case.now) router case.now.prefix route.metric route.way }
    requires least { (v : ℕ) → At case.now IsChoice router v → route.metric ≤ v }
    ensures { Decides result (At case.now IsGiven router route.metric route.way) }
{
    case.lawful();
    match route.way {
        Way::Unreachable => true,
        Way::Here => is_direct(case.plan, router, case.prefix, route.metric),
        Way::Over(link) => !keeps && is_offered(case, router, route.metric, link),
    }
}

/// What the equation of a place gives, if the route that was read there does not hold.
pub(crate) fn failing_equation<T: Table>(
    case: &Case<'_, T>,
    router: usize,
    route: ReadRoute,
) -> Option<u32>
    requires router { router < length (network_of case.now).routers }
    requires route { At case.now FitsShown router (route_of route) }
    ensures holds { IfNone result (At case.now Holds router (route_of route)) }
    ensures fails { IfSome result (λ _. At case.now Holds router (route_of route) → ⊥) }
    ensures equation { IfSome result (λ v. (1 ≤ v) × (v ≤ 16)
        × At case.now IsLeastChoice router v) }
{
    case.lawful();
    let keeps = case.keeps(router);
    let equation = least_choice(case, router, keeps);
    if route.metric == equation && is_given(case, router, keeps, route) {
        return None;
    }
    Some(equation)
}

/// A place with its values.
pub(crate) fn place_of(router: usize, prefix: usize, route: ReadRoute, equation: u32) -> Place2
    requires metric { (1 ≤ route.metric) × (route.metric ≤ 16) }
    requires equation { (1 ≤ equation) × (equation ≤ 16) }
    ensures { result ≡ record {
      router = router;
      prefix = prefix;
      metric = route.metric;
      equation = equation;
      way = route.way;
      hidden = route.hidden;
    } }
{
    Place2 {
        router,
        prefix,
        metric: metric_of(route.metric),
        equation: metric_of(equation),
        way: route.way,
        hidden: route.hidden,
    }
}

impl<T: Table> Case<'_, T> {
    /// The place of a router with its values, if its route can be read and does not hold.
    pub fn failing(&self, router: usize) -> Option<Place2>
        requires { router < length (network_of self.now).routers }
        ensures some { IfSome result (λ f. (f.router ≡ router) × (f.prefix ≡ self.now.prefix)
            × IsFailing (plan_of self.now) (told_in self.now) f) }
        ensures none { IfNone result (ByPlan self.now IsSound router) }
    {
        self.lawful();
        let Some(route) = read(self, router) else {
            return None;
        };
        match failing_equation(self, router, route) {
            Some(equation) => Some(place_of(router, self.prefix, route, equation)),
            None => None,
        }
    }

    /// The route of a router, or why none can be read. At a place of a leaf that is hidden, several
    /// routes may fit what is shown; the answer is then the defined one.
    pub fn route(&self, router: usize) -> Result<Route, Unclear>
        requires { router < length (network_of self.now).routers }
        ensures exact { IsTrue (is_ok result) ↔ ByPlan self.now CanBeRead router }
        ensures fits { IfOk result (λ t. ByPlan self.now FitsThere router
            (record { metric = t.metric; way = t.way })) }
        ensures one { IfOk result (λ t. IsTrue t.hidden ⊎ At self.now IsOnlyRoute router
            (record { metric = t.metric; way = t.way })) }
        ensures hidden { IfOk result (λ t. Decides t.hidden (At self.now IsHidden router)) }
        ensures unclear { IfErr result (ByPlan self.now IsCause router) }
    {
        self.lawful();
        match read(self, router) {
            None => Err(reason(self, router)),
            Some(route) => Ok(Route {
                metric: metric_of(route.metric),
                way: route.way,
                hidden: route.hidden,
            }),
        }
    }

    /// The least of 16, of the metric at which a router has the prefix itself, and of what its
    /// neighbours offer (RFC 2453, section 3.9.2); its own metric where it keeps the prefix.
    pub fn equation(&self, router: usize) -> Metric
        requires { router < length (network_of self.now).routers }
        ensures { At self.now IsLeastChoice router result }
    {
        self.lawful();
        let keeps = self.keeps(router);
        metric_of(least_choice(self, router, keeps))
    }
}

/// The route of a router for a prefix, both by their numbers, or why none can be read. At a place
/// of a leaf that is hidden, several routes may fit what is shown; the answer is then the defined
/// one.
pub fn route<T: Table>(
    plan: &Plan,
    table: &T,
    router: usize,
    prefix: usize,
) -> Result<Route, Unclear>
    requires fits { Fits plan.now (T.state table.now) }
    requires router { router < length plan.now.routers }
    requires prefix { prefix < length (T.state table.now).prefixes }
    ensures exact { IsTrue (is_ok result)
        ↔ CanBeRead plan.now (told plan.now (T.state table.now)) router prefix }
    ensures fits { IfOk result (λ t.
        FitsThere plan.now (told plan.now (T.state table.now)) router prefix
        (record { metric = t.metric; way = t.way })) }
    ensures one { IfOk result (λ t. IsTrue t.hidden
        ⊎ IsOnlyRoute (network_at plan.now (T.state table.now).prefixes prefix)
        (told plan.now (T.state table.now)) router prefix
        (record { metric = t.metric; way = t.way })) }
    ensures hidden { IfOk result (λ t. Decides t.hidden
        (IsHidden (network_at plan.now (T.state table.now).prefixes prefix)
        (told plan.now (T.state table.now)) router prefix)) }
    ensures unclear { IfErr result (λ trouble.
        IsCause plan.now (told plan.now (T.state table.now)) router prefix trouble) }
{
    Case::new(plan, table, prefix).route(router)
}

/// The least of 16, of the metric at which a router has a prefix itself, and of what its neighbours
/// offer (RFC 2453, section 3.9.2); its own metric where it keeps the prefix.
pub fn equation<T: Table>(plan: &Plan, table: &T, router: usize, prefix: usize) -> Metric
    requires fits { Fits plan.now (T.state table.now) }
    requires router { router < length plan.now.routers }
    requires prefix { prefix < length (T.state table.now).prefixes }
    ensures { IsLeastChoice (network_at plan.now (T.state table.now).prefixes prefix)
        (told plan.now (T.state table.now)) router prefix result }
{
    Case::new(plan, table, prefix).equation(router)
}

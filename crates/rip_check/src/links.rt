//! The two least metrics that are shown on each link: they serve every router there.

ghost use Rattle.std.specs.Prelude.{◌≡◌, ◌≢◌, ℕ, ◌+◌, ◌<◌, ◌≤◌, Decides, length, unwrap_or};
ghost use Rattle.rip_plan.specs.Network.{Network};
ghost use Rattle.rip_plan.specs.Relations.{IsInterface};
ghost use Rattle.rip_table.specs.State.{State};
ghost use Rattle.rip_check.specs.Networks.{block_at};
ghost use Rattle.rip_check.specs.Cases.{plan_of, told_in};
ghost use Rattle.rip_check.specs.TwoLeasts.{AreFree, AreLeastShown, AreTwoLeast, AreTwoLeastBefore, IsClosed, IsSeen, IsTwoLeast, shown_of};
ghost use Rattle.rip_check.specs.Metrics.{metric_at};

use crate::case::Case;
use crate::lookup::told_at;
use rip_plan::Plan;
use rip_table::Table;
use rip_wire::Prefix;

/// The least metric on a link, whose it is, and the least of the other routers'. A plan has at most
/// 128 routers, so that bytes serve.
#[derive(Clone, Copy)]
pub(crate) struct TwoLeast {
    pub least: u8,
    pub by: u8,
    pub next: u8,
}

/// Of a link on which no metric is below 16.
pub(crate) const NOTHING: TwoLeast = TwoLeast {
    least: 16,
    by: 0,
    next: 16,
};

/// Of a link that is closed: it does not exchange the prefix. 255 is no router's number.
const CLOSED: TwoLeast = TwoLeast {
    least: 16,
    by: 255,
    next: 16,
};

impl TwoLeast {
    /// Whether the link is closed.
    #[inline(always)]
    pub(crate) fn is_closed(self) -> bool
        ensures { Decides result (IsClosed self) }
    {
        self.by == 255
    }
}

/// What an interface tells, 16 where it tells nothing.
pub(crate) fn seen_at<T: Table>(case: &Case<'_, T>, interface: usize) -> u32
    requires { interface < length (plan_of case.now).interfaces }
    ensures value { result
        ≡ unwrap_or (metric_at (told_in case.now) interface case.now.prefix) 16 }
    ensures most { result ≤ 16 }
{
    match told_at(case, interface) {
        Some(metric) => metric,
        None => 16,
    }
}

/// The two least metrics with that of one more interface of the link.
fn with_metric(two: TwoLeast, router: u8, metric: u8) -> TwoLeast
    ensures free { router ≢ 255 → (IsClosed two → ⊥) → IsClosed result → ⊥ }
    ensures least { (n : Network) (seen : ℕ → ℕ → ℕ → ℕ) (l j : ℕ) →
        IsTwoLeast n seen l j two → IsSeen n seen l j router metric →
        IsTwoLeast n seen l (j + 1) result }
{
    if router == two.by {
        return TwoLeast {
            least: if metric < two.least {
                metric
            } else {
                two.least
            },
            by: two.by,
            next: two.next,
        };
    }
    if metric < two.least {
        return TwoLeast {
            least: metric,
            by: router,
            next: two.least,
        };
    }
    TwoLeast {
        least: two.least,
        by: two.by,
        next: if metric < two.next { metric } else { two.next },
    }
}

/// Writes what holds of each link before any interface.
fn reset(links: &mut [TwoLeast])
    ensures free { AreFree links.new }
    ensures nothing { (n : Network) (seen : ℕ → ℕ → ℕ → ℕ) → AreTwoLeastBefore n seen 0 links.new }
{
    let none = NOTHING;
    for k in 0..links.len() {
        links[k] = none;
    }
}

/// Adds an interface, which has this metric, to the two least metrics of its link.
fn add_interface(plan: &Plan, interface: usize, metric: u32, links: &mut [TwoLeast])
    requires interface { interface < length plan.now.interfaces }
    requires size { length plan.now.links ≤ length links.old }
    ensures free { AreFree links.old → AreFree links.new }
    ensures least { (seen : ℕ → ℕ → ℕ → ℕ) →
        ((s l c : ℕ) → IsInterface plan.now interface s l c → metric ≡ seen l interface s) →
        AreTwoLeastBefore plan.now seen interface links.old →
        AreTwoLeastBefore plan.now seen (interface + 1) links.new }
{
    plan.lawful();
    let own = plan.interface(interface);
    if metric < 16 {
        links[own.link] = with_metric(links[own.link], own.router as u8, metric as u8);
    }
}

/// Writes the two least metrics that are told on each link, whether it exchanges the prefix or not.
/// 16 is there to begin with.
#[inline(always)]
fn fill_all<T: Table>(case: &Case<'_, T>, links: &mut [TwoLeast])
    requires { length links.old ≡ length (plan_of case.now).links }
    ensures free { AreFree links.new }
    ensures least { AreTwoLeast (plan_of case.now)
        (shown_of (told_in case.now) case.now.prefix) links.new }
{
    reset(links);
    for i in 0..case.plan.interfaces() {
        let metric = seen_at(case, i);
        add_interface(case.plan, i, metric, links);
    }
}

/// Closes the links that do not exchange a prefix.
#[inline(never)]
fn close(plan: &Plan, prefix: Prefix, links: &mut [TwoLeast])
    requires { length links.old ≡ length plan.now.links }
    ensures { (shown : State) (p : ℕ) → block_at shown.prefixes p ≡ prefix → AreFree links.old →
        AreTwoLeast plan.now (shown_of shown p) links.old →
        AreLeastShown plan.now shown p links.new }
{
    plan.lawful();
    for k in 0..links.len() {
        if !plan.exchanges(k, prefix) {
            links[k] = CLOSED;
        }
    }
}

/// Writes the two least metrics that are told on each link that exchanges the prefix, and closes the
/// others. It stands in the loop over all prefixes.
#[inline(always)]
pub(crate) fn fill<T: Table>(case: &Case<'_, T>, links: &mut [TwoLeast])
    requires { length links.old ≡ length (plan_of case.now).links }
    ensures { AreLeastShown (plan_of case.now) (told_in case.now) case.now.prefix links.new }
{
    case.lawful();
    fill_all(case, links);
    if case.plan.has_lists() {
        close(case.plan, case.table.prefix(case.prefix), links);
    }
}

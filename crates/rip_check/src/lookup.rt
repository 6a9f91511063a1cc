//! What a plan and a table say of a prefix by its number in the table.

ghost use Rattle.std.specs.Prelude.{◌≡◌, ◌||◌, ◌↔◌, ℕ, ◌<◌, ◌≤◌, Decides, IfSome, Some, length, not};
ghost use Rattle.rip_plan.specs.Relations.{IsAttached};
ghost use Rattle.rip_check.specs.Cases.{network_of, plan_of, told_in};
ghost use Rattle.rip_check.specs.Metrics.{metric_at};
ghost use Rattle.rip_check.specs.Tables.{MayHoldBack};
ghost use Rattle.rip_check.specs.Told.{poisons};

use crate::case::Case;
use rip_table::Table;
use rip_wire::Metric;

/// The metric with this number.
pub(crate) fn metric_of(number: u32) -> Metric
    requires low { 1 ≤ number }
    requires high { number ≤ 16 }
    ensures { result ≡ number }
{
    Metric::new(number).unwrap()
}

/// The metric that an interface shows.
fn shown_at<T: Table>(case: &Case<'_, T>, interface: usize) -> Option<u32>
    requires { interface < length (plan_of case.now).interfaces }
    ensures metric { result
        ≡ metric_at (T.state case.now.table.now) interface case.now.prefix }
    ensures range { IfSome result (λ m. (1 ≤ m) × (m ≤ 16)) }
{
    match case.table.metric(interface, case.prefix) {
        Some(metric) => Some(metric.get()),
        None => None,
    }
}

/// Whether the silence of an interface tells nothing: it poisons, or was not heard.
fn is_mute<T: Table>(case: &Case<'_, T>, interface: usize) -> bool
    requires { interface < length (plan_of case.now).interfaces }
    ensures { result ≡ (poisons (plan_of case.now) interface
        || not ((T.state case.now.table.now).heard interface)) }
{
    case.plan.interface(interface).poison || !case.table.heard(interface)
}

/// The metric that an interface tells: what it shows, or 16 where it was heard, shows nothing and
/// does not poison.
pub(crate) fn told_at<T: Table>(case: &Case<'_, T>, interface: usize) -> Option<u32>
    requires { interface < length (plan_of case.now).interfaces }
    ensures metric { result ≡ metric_at (told_in case.now) interface case.now.prefix }
    ensures range { IfSome result (λ m. (1 ≤ m) × (m ≤ 16)) }
{
    match shown_at(case, interface) {
        Some(metric) => Some(metric),
        None => {
            if is_mute(case, interface) {
                None
            } else {
                Some(16)
            }
        }
    }
}

/// Whether a router may hold back its own route for a prefix on a link, by the link to which it has
/// the prefix attached.
pub(crate) fn may_hold_back<T: Table>(
    case: &Case<'_, T>,
    attached: Option<usize>,
    link: usize,
) -> bool
    ensures { (r : ℕ) →
        ((l : ℕ) → (attached ≡ Some l) ↔ IsAttached (network_of case.now) r case.now.prefix l) →
        Decides result (MayHoldBack (network_of case.now) r case.now.prefix link) }
{
    attached == Some(link) || case.plan.is_place(link, case.prefix)
}

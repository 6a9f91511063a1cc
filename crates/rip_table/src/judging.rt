//! What both tables do with a response before they change: they judge its entries.

ghost use Rattle.std.specs.Prelude.{◌≡◌, ◌||◌, ℕ, ◌<◌, ◌≤◌, Decides, false, length, not, slice_get, take, Some, None};
ghost use Rattle.std.specs.Option.{option_or};
ghost use Rattle.rip_wire.specs.Prefix.{Block};
ghost use Rattle.rip_wire.specs.declared.entry.Entry.{Entry};
ghost use Rattle.rip_plan.specs.Network.{number_of_prefix};
ghost use Rattle.rip_plan.specs.Relations.{IsGateway, IsPrefix};
ghost use Rattle.rip_table.specs.Joined.{holds_address, is_foreign, knows_gateway};
ghost use Rattle.rip_table.specs.Numbers.{AreNumbers, IsChecked, counted, judged, metric_among};

use crate::error::TableError;
use crate::limits::MOST_PREFIXES;
use crate::noted::Noted;
use crate::table::Table;
use rip_plan::Plan;
use rip_wire::{Address, Entry, MOST_ENTRIES, Metric, Prefix};

/// For each entry of a response the number, if any, of its prefix.
pub(crate) type Numbers = [Option<usize>; MOST_ENTRIES];

/// What an interface showed of the prefix of a number, if it has one.
fn shown<T: Table>(table: &T, interface: usize, number: Option<usize>) -> Option<Metric>
    requires interface { interface < (T.state table.now).interfaces }
    requires number { (k : ℕ) → number ≡ Some k → k < length (T.state table.now).prefixes }
    ensures { (p : Block) → number ≡ number_of_prefix p (T.state table.now).prefixes →
        result ≡ (T.state table.now).shows interface p }
{
    match number {
        Some(k) => table.metric(interface, k),
        None => None,
    }
}

/// The metric of the first of these entries that has the prefix.
fn earlier(entries: &[Entry], prefix: Prefix) -> Option<Metric>
    ensures { result ≡ metric_among prefix entries.now }
{
    for j in 0..entries.len() {
        let entry = entries[j];
        if prefix == entry.prefix {
            return Some(entry.metric);
        }
    }
    None
}

/// The metric that is known of an entry's prefix: what its interface showed, if anything, or else
/// what an earlier entry gives, searched for only where one may have the prefix.
fn known(shown: Option<Metric>, may_repeat: bool, entries: &[Entry], j: usize) -> Option<Metric>
    requires within { j < length entries.now }
    requires new { may_repeat ≡ false → (e : Entry) → slice_get entries.now j ≡ Some e →
        metric_among e.prefix (take j entries.now) ≡ None }
    ensures { (e : Entry) → slice_get entries.now j ≡ Some e →
        result ≡ option_or shown (metric_among e.prefix (take j entries.now)) }
{
    match shown {
        Some(metric) => Some(metric),
        None if may_repeat => {
            let entry = entries[j];
            earlier(&entries[..j], entry.prefix)
        }
        None => None,
    }
}

/// How many prefixes there are with that of an entry, which is new where it has no number and
/// nothing is known of it.
fn count_with(count: usize, number: Option<usize>, is_known: bool) -> usize
    requires { count ≤ MOST_PREFIXES }
    ensures { result ≡ counted count number is_known }
{
    if number.is_none() && !is_known {
        count + 1
    } else {
        count
    }
}

/// Whether a hop is the gateway that the plan gives a router for a prefix.
fn is_gateway(plan: &Plan, router: usize, prefix: Prefix, hop: Address) -> bool
    ensures planned { (k : ℕ) → IsPrefix plan.now k prefix →
        Decides result (IsGateway plan.now router k hop) }
    ensures unplanned { ((k : ℕ) → IsPrefix plan.now k prefix → ⊥) → result ≡ false }
{
    match plan.gateway(router, prefix) {
        Some(gateway) => gateway == hop,
        None => false,
    }
}

/// Whether a next hop for a prefix is neither an address of the interface that sends it, nor a
/// gateway of its router for the prefix. Most entries have 0.0.0.0, so this stays out of the loop
/// over them.
#[inline(never)]
fn is_unknown_hop(plan: &Plan, interface: usize, prefix: Prefix, hop: Address) -> bool
    requires { interface < length plan.now.interfaces }
    ensures { result ≡ not (holds_address plan.now interface hop
        || knows_gateway plan.now interface prefix hop) }
{
    let own = plan.interface(interface);
    !plan.has_address(interface, hop) && !is_gateway(plan, own.router, prefix, hop)
}

/// Whether an entry that an interface sends below 16 has a next hop that is neither 0.0.0.0, nor an
/// address of the interface, nor a gateway of its router for the prefix (RFC 2453, section 4.4).
pub(crate) fn is_elsewhere(plan: &Plan, interface: usize, entry: &Entry) -> bool
    requires { interface < length plan.now.interfaces }
    ensures { result ≡ is_foreign plan.now interface entry.now }
{
    let hop = entry.next_hop;
    hop.get() != 0 && entry.metric.get() < 16 && is_unknown_hop(plan, interface, entry.prefix, hop)
}

/// Judges an entry that an interface sends. Its prefix had this metric or none, and with it there
/// are so many prefixes.
fn judge(
    plan: &Plan,
    interface: usize,
    entry: &Entry,
    known: Option<Metric>,
    count: usize,
) -> Result<(), TableError>
    requires { interface < length plan.now.interfaces }
    ensures fault { result
        ≡ judged (is_foreign plan.now interface entry.now) entry.now known count }
    ensures low { 1 ≤ entry.now.metric }
    ensures high { entry.now.metric ≤ 16 }
{
    let _metric = entry.metric.get();
    if let Some(old) = known {
        if old != entry.metric {
            return Err(TableError::Changed {
                prefix: entry.prefix,
                old,
                new: entry.metric,
            });
        }
    }
    if is_elsewhere(plan, interface, entry) {
        return Err(TableError::NextHop {
            prefix: entry.prefix,
        });
    }
    if count > MOST_PREFIXES {
        return Err(TableError::TooManyPrefixes);
    }
    Ok(())
}

/// Judges the entries of a response, and answers the first fault; without one, whether some entry
/// is of a prefix that the interface did not show.
pub(crate) fn check<T: Table>(
    plan: &Plan,
    table: &T,
    numbers: &Numbers,
    interface: usize,
    entries: &[Entry],
) -> Result<bool, TableError>
    requires few { length entries.now ≤ MOST_ENTRIES }
    requires plan { interface < length plan.now.interfaces }
    requires interface { interface < (T.state table.now).interfaces }
    requires numbers { AreNumbers (T.state table.now).prefixes entries.now numbers.now }
    ensures { IsChecked plan.now interface (T.state table.now) entries.now result }
{
    let mut count = table.prefix_count();
    let mut brings = false;
    let mut noted = Noted::new();
    for j in 0..entries.len() {
        let entry = entries[j];
        let number = numbers[j];
        let shown = shown(table, interface, number);
        brings |= shown.is_none();
        let may_repeat = noted.note(number);
        let known = known(shown, may_repeat, entries, j);
        count = count_with(count, number, known.is_some());
        judge(plan, interface, &entry, known, count)?;
    }
    Ok(brings)
}

//! What routers tell their neighbours, by their own tables.

ghost use Rattle.std.specs.Prelude.{◌≡◌, ◌≢◌, ℕ, ◌<◌, ◌≤◌, ◌⊎◌, ◌↔◌, ◌+◌, Decides, IfOk, List, None, Some, if◌then◌else◌, length, slice_get, slice_index, slice_index_or, false, true};
ghost use Rattle.rip_plan.specs.Relations.{Exchanges, HasCost, IsInterface};
ghost use Rattle.rip_plan.specs.PrefixNetworks.{network_for};
ghost use Rattle.rip_table.specs.State.{Fits, IsState};
ghost use Rattle.rip_routes.specs.OwnTables.{FitsOwn};
ghost use Rattle.rip_check.specs.Firsts.{IsLeastOf};
ghost use Rattle.rip_check.specs.Networks.{network_at};
ghost use Rattle.rip_check.specs.OwnTells.{IsHadOn, IsOver, IsToldBy, SendsOver};
ghost use Rattle.rip_check.specs.ToldCells.{AreMarks, HasAddressAcross, HasGatewayAcross, HasHopAcross, IsHereOn, IsRowBelow, IsToldRow, rows_of, told_state};

use crate::lookup::metric_of;
use rip_plan::{Interface, MOST_LINKS, Plan, Seat};
use rip_routes::{NextHop, RouteTables};
use rip_table::Table;
use rip_wire::{Address, Metric, Prefix};
use std::alloc::{AllocError, Global};

/// The number of another router's interface on the link of `own` that has an address itself, if
/// there is one.
pub(crate) fn holder_across(plan: &Plan, own: &Interface, address: Address) -> Option<usize>
    ensures { (j : ℕ) → (result ≡ Some j)
        ↔ HasAddressAcross plan.now own.now.router own.now.link address j }
{
    let Some(across) = plan.holder(own.link, address) else {
        return None;
    };
    if plan.interface(across).router == own.router {
        return None;
    }
    Some(across)
}

/// The number of another router's interface on the link of `own`, where that router has an address
/// as gateway for its own prefix at a place.
pub(crate) fn owner_across(
    plan: &Plan,
    own: &Interface,
    address: Address,
    place: usize,
) -> Option<usize>
    requires { place < length plan.now.places }
    ensures { (j : ℕ) → (result ≡ Some j)
        ↔ HasGatewayAcross plan.now own.now.router own.now.link address place j }
{
    plan.lawful();
    let seat = plan.place(place).seat;
    match seat {
        Seat::Own(its) if its.via == Some(address) && its.router != own.router => {
            plan.number_on(its.router, own.link)
        }
        _ => None,
    }
}

/// The lesser of two numbers, or the one that there is, if there is one.
fn lesser(one: Option<usize>, other: Option<usize>) -> Option<usize>
    ensures { IsLeastOf (λ j. (one ≡ Some j) ⊎ (other ≡ Some j)) result }
{
    match (one, other) {
        (Some(i), Some(j)) => Some(i.min(j)),
        (Some(i), None) => Some(i),
        (None, _) => other,
    }
}

/// The number of the first of other routers' interfaces on the link of `own` that has an address for
/// a prefix, if there is one.
pub(crate) fn first_across(
    plan: &Plan,
    own: Interface,
    address: Address,
    prefix: usize,
) -> Option<usize>
    ensures { IsLeastOf (HasHopAcross plan.now own.router own.link prefix address) result }
{
    let mut first = holder_across(plan, &own, address);
    let places = plan.gateway_places(prefix);
    for k in places {
        first = lesser(first, owner_across(plan, &own, address, *k));
    }
    first
}

/// Whether a neighbour on the link of an interface has an address for a prefix.
fn is_had_over(plan: &Plan, own: Interface, address: Address, prefix: usize) -> bool
    requires { HasCost plan.now own.router own.link own.cost }
    ensures { Decides result (IsHadOn plan.now own.router prefix address own.link) }
{
    match first_across(plan, own, address, prefix) {
        Some(_) => true,
        None => false,
    }
}

/// The one link on which neighbours have an address for a prefix, of those that exchange it.
fn only_link_with(
    plan: &Plan,
    router: usize,
    address: Address,
    prefix: usize,
    block: Prefix,
) -> Option<usize>
    requires { router < length plan.now.routers }
    ensures { (l : ℕ) → (result ≡ Some l)
        ↔ (IsHadOn (network_for plan.now block) router prefix address l
        × ((k : ℕ) → IsHadOn (network_for plan.now block) router prefix address k → k ≡ l)) }
{
    plan.lawful();
    let mut found = None;
    let numbers = plan.of_router(router);
    for i in numbers {
        let own = plan.interface(*i);
        let link = own.link;
        if plan.exchanges(link, block) && is_had_over(plan, own, address, prefix) {
            if found.is_some() {
                return None;
            }
            found = Some(link);
        }
    }
    found
}

/// The link over which a next hop goes.
fn link_of(plan: &Plan, router: usize, hop: &NextHop, prefix: usize, block: Prefix) -> Option<usize>
    requires { router < length plan.now.routers }
    ensures { (l : ℕ) → (result ≡ Some l)
        ↔ IsOver (network_for plan.now block) router prefix hop.now l }
{
    match hop {
        NextHop::Over(link) => Some(*link),
        NextHop::Via(address) => only_link_with(plan, router, *address, prefix, block),
    }
}

/// Marks the links over which a router sends. None is marked before.
fn mark_hops<G: RouteTables>(
    plan: &Plan,
    tables: &G,
    router: usize,
    prefix: usize,
    marks: &mut [bool],
)
    requires fits { FitsOwn plan.now (G.tables tables.now) }
    requires router { router < length plan.now.routers }
    requires prefix { prefix < length (G.tables tables.now).prefixes }
    requires size { length plan.now.links ≤ length marks.old }
    requires blank { AreMarks (λ l. ⊥) marks.old }
    ensures { AreMarks (λ l. SendsOver (network_at plan.now (G.tables tables.now).prefixes prefix)
        (G.tables tables.now) router l prefix) marks.new }
{
    plan.lawful();
    let block = tables.prefix(prefix);
    let hops = tables.next_hops(router, prefix);
    for hop in hops {
        match link_of(plan, router, hop, prefix, block) {
            Some(link) => marks[link] = true,
            None => {}
        }
    }
}

/// Marks the link to which a router has the prefix attached, if that exchanges the prefix and the
/// router is its own way.
fn mark_attached<G: RouteTables>(
    plan: &Plan,
    tables: &G,
    router: usize,
    prefix: usize,
    marks: &mut [bool],
)
    requires prefix { prefix < length (G.tables tables.now).prefixes }
    requires size { length plan.now.links ≤ length marks.old }
    requires marks { AreMarks (λ l.
        SendsOver (network_at plan.now (G.tables tables.now).prefixes prefix)
        (G.tables tables.now) router l prefix) marks.old }
    ensures { AreMarks (λ l. SendsOver (network_at plan.now (G.tables tables.now).prefixes prefix)
        (G.tables tables.now) router l prefix
        ⊎ IsHereOn (network_at plan.now (G.tables tables.now).prefixes prefix)
        (G.tables tables.now) router prefix l) marks.new }
{
    plan.lawful();
    if tables.is_here(router, prefix) {
        match plan.attached_link(router, prefix) {
            Some(link) => {
                if plan.exchanges(link, tables.prefix(prefix)) {
                    marks[link] = true;
                }
            }
            None => {}
        }
    }
}

/// What is shown on a link: 0 where it is marked, else the metric.
fn shown_on(marks: &[bool], link: usize, metric: u8) -> u8
    requires { link < length marks.now }
    ensures { result ≡ (if slice_index_or marks.now link false then 0 else metric) }
{
    if marks[link] { 0 } else { metric }
}

/// Writes a metric to the cells of a router's interfaces, and 0 where the link is marked or does
/// not exchange the prefix.
fn write_cells(
    plan: &Plan,
    router: usize,
    block: Prefix,
    metric: u8,
    marks: &[bool],
    row: &mut [u8],
)
    requires router { router < length plan.now.routers }
    requires marks { length plan.now.links ≤ length marks.now }
    requires row { length row.old ≡ length plan.now.interfaces }
    ensures own { (i l c : ℕ) → IsInterface (network_for plan.now block) i router l c →
        slice_index row.new i ≡ (if slice_index_or marks.now l false then 0 else metric) }
    ensures closed { (i l c : ℕ) → IsInterface plan.now i router l c →
        (Exchanges plan.now l block → ⊥) → slice_index row.new i ≡ 0 }
    ensures others { (i s l c : ℕ) → IsInterface plan.now i s l c → s ≢ router →
        slice_index row.new i ≡ slice_index row.old i }
{
    plan.lawful();
    let numbers = plan.of_router(router);
    for i in numbers {
        let own = plan.interface(*i);
        row[*i] = if plan.exchanges(own.link, block) {
            shown_on(marks, own.link, metric)
        } else {
            0
        };
    }
}

/// Writes what a router tells of a prefix to the cells of its interfaces.
fn write_router<G: RouteTables>(
    plan: &Plan,
    tables: &G,
    router: usize,
    prefix: usize,
    row: &mut [u8],
)
    requires fits { FitsOwn plan.now (G.tables tables.now) }
    requires router { router < length plan.now.routers }
    requires prefix { prefix < length (G.tables tables.now).prefixes }
    requires row { IsRowBelow plan.now (G.tables tables.now) prefix router row.old }
    ensures { IsRowBelow plan.now (G.tables tables.now) prefix (router + 1) row.new }
{
    plan.lawful();
    let metric = tables.metric(router, prefix).get();
    let mut marks = [false; MOST_LINKS];
    mark_hops(plan, tables, router, prefix, &mut marks);
    mark_attached(plan, tables, router, prefix, &mut marks);
    let shown = if metric < 16 { metric as u8 } else { 0 };
    write_cells(plan, router, tables.prefix(prefix), shown, &marks, row);
}

/// Writes what all routers tell of a prefix.
fn write_row<G: RouteTables>(plan: &Plan, tables: &G, prefix: usize, row: &mut [u8])
    requires fits { FitsOwn plan.now (G.tables tables.now) }
    requires prefix { prefix < length (G.tables tables.now).prefixes }
    requires row { length row.old ≡ length plan.now.interfaces }
    ensures { IsToldRow plan.now (G.tables tables.now) prefix row.new }
{
    for router in 0..plan.routers() {
        write_router(plan, tables, router, prefix, row);
    }
}

/// What all routers tell of a prefix, by interface.
fn told_row<G: RouteTables>(
    alloc: Global,
    plan: &Plan,
    tables: &G,
    prefix: usize,
) -> Result<Vec<u8>, AllocError>
    requires fits { FitsOwn plan.now (G.tables tables.now) }
    requires prefix { prefix < length (G.tables tables.now).prefixes }
    ensures { IfOk result (λ row. IsToldRow plan.now (G.tables tables.now) prefix row.items) }
{
    let mut row = vec![in alloc; 0u8; plan.interfaces()]?;
    write_row(plan, tables, prefix, row.as_mut_slice());
    Ok(row)
}

/// The table of what the routers of a plan tell each other, by their own tables: split horizon, by
/// link. No interface counts as heard, so that nothing is nothing, whether an interface poisons or
/// not.
#[derive(Drop)]
pub struct ToldTable<'a, G: RouteTables> {
    tables: &'a G,
    count: usize,
    // Prefix by prefix a byte for each interface: 0 for nothing, or a metric.
    rows: Vec<Vec<u8>>,
    ghost size: { length rows.items ≡ length (G.tables tables.now).prefixes },
    ghost widths: { (k : ℕ) (row : List ℕ) → slice_get (rows_of rows.items) k ≡ Some row →
        length row ≡ count },
    ghost valid: { IsState (told_state count (G.tables tables.now).prefixes
        (rows_of rows.items)) },
}

impl<G: RouteTables> Table for ToldTable<'_, G> {
    ghost state = { λ t. told_state t.count (G.tables t.tables.now).prefixes
        (rows_of t.rows.items) };

    ghost is_state = { λ t. t.valid };

    fn interface_count(&self) -> usize {
        self.count
    }

    fn prefix_count(&self) -> usize {
        self.tables.prefix_count()
    }

    fn prefix(&self, k: usize) -> Prefix {
        self.tables.prefix(k)
    }

    fn metric(&self, interface: usize, k: usize) -> Option<Metric> {
        let shown = self.rows[k][interface];
        if shown == 0 {
            None
        } else {
            Some(metric_of(u32::from(shown)))
        }
    }

    fn heard(&self, _interface: usize) -> bool {
        false
    }
}

impl<'a, G: RouteTables> ToldTable<'a, G> {
    /// Finds what the routers tell. It fails where there is no memory for a byte for each interface
    /// and prefix.
    pub fn find(alloc: Global, plan: &Plan, tables: &'a G) -> Result<ToldTable<'a, G>, AllocError>
        requires { FitsOwn plan.now (G.tables tables.now) }
        ensures tables { IfOk result (λ t. t.tables.now ≡ tables.now) }
        ensures told { IfOk result (λ t. IsToldBy plan.now (G.tables tables.now)
            (⟦<ToldTable<'a, G> as Table>⟧.state t)) }
        ensures fits { IfOk result (λ t. Fits plan.now (⟦<ToldTable<'a, G> as Table>⟧.state t)) }
    {
        plan.lawful();
        let mut rows = Vec::with_capacity(alloc, tables.prefix_count())?;
        for prefix in 0..tables.prefix_count() {
            rows.push_reserved(told_row(alloc, plan, tables, prefix)?);
        }
        Ok(ToldTable {
            tables,
            count: plan.interfaces(),
            rows,
        })
    }
}

//! What a plan keeps beside its parts, to find them.

ghost use Rattle.std.specs.Prelude.{◌≡◌, ◌==◌, ◌+◌, ◌*◌, ◌<◌, ◌≤◌, ℕ, [], List, length, map, IfOk, string_bytes};
ghost use Rattle.std.specs.List.{All, list_any};
ghost use Rattle.std.specs.HashMap.{get, get_by_text};
ghost use Rattle.std.specs.HashSet.{contains};
ghost use Rattle.rip_plan.specs.Network.{cost_at, each_below, has_gateway, is_item, is_of, is_on, numbers_where, pair_eq, same_item};
ghost use Rattle.rip_plan.specs.Addresses.{holder_at};
ghost use Rattle.rip_plan.specs.Names.{number_of_name};
ghost use Rattle.rip_plan.specs.Seats.{is_kept};
ghost use Rattle.rip_wire.specs.Prefix.{Block};
ghost use Rattle.rip_plan.specs.Rows.{AreCosts, AreFlags, AreOnLinks, AreOwners, IsLinkBelow, IsOwnerBelow, IsOwnerWithin, WritesCosts, cost_among};

use crate::addresses::Held;
use crate::limits::{MOST_LINKS, MOST_PLACES, MOST_ROUTERS};
use crate::parts::{Interface, Listed, Place, Seat};
use rip_wire::Prefix;
use std::alloc::{AllocError, Global};
use std::collections::{HashMap, HashSet};

/// The number of the interface at each link and address, of the first there.
pub(crate) fn numbers_of_addresses(
    alloc: Global,
    held: &[Held],
) -> Result<HashMap<(usize, u32), usize>, AllocError>
    ensures { IfOk result (λ m. (l a : ℕ) → get pair_eq m (l, a) ≡ holder_at l a held.now) }
{
    let mut numbers = HashMap::new(alloc);
    for k in (0..held.len()).rev() {
        let here = held[k];
        numbers.insert((here.link, here.address.get()), here.interface)?;
    }
    Ok(numbers)
}

/// The number of each name, of the first that is so.
pub(crate) fn numbers_of_names(
    alloc: Global,
    names: &[String],
) -> Result<HashMap<String, usize>, AllocError>
    ensures { IfOk result (λ m. (name : List ℕ) →
        get_by_text m name ≡ number_of_name name (map string_bytes names.now)) }
{
    let mut numbers = HashMap::new(alloc);
    for k in (0..names.len()).rev() {
        let name = String::from_str(alloc, names[k].as_str())?;
        numbers.insert(name, k)?;
    }
    Ok(numbers)
}

/// So many empty lists.
fn empty_lists(alloc: Global, count: usize) -> Result<Vec<Vec<usize>>, AllocError>
    ensures { IfOk result (λ v. map (λ w. w.items) v.items ≡ each_below count (λ _. [])) }
{
    let mut lists = Vec::new(alloc);
    for _ in 0..count {
        lists.push(Vec::new(alloc))?;
    }
    Ok(lists)
}

/// The numbers of the interfaces on each link, ascending.
pub(crate) fn all_on(
    alloc: Global,
    interfaces: &[Interface],
    links: usize,
) -> Result<Vec<Vec<usize>>, AllocError>
    requires { All (λ i. i.link < links) interfaces.now }
    ensures { IfOk result (λ v. map (λ w. w.items) v.items
        ≡ each_below links (λ l. numbers_where (is_on l) 0 interfaces.now)) }
{
    let mut all = empty_lists(alloc, links)?;
    for i in 0..interfaces.len() {
        let interface = interfaces[i];
        all[interface.link].push(i)?;
    }
    Ok(all)
}

/// The numbers of the interfaces of each router, ascending.
pub(crate) fn all_of(
    alloc: Global,
    interfaces: &[Interface],
    routers: usize,
) -> Result<Vec<Vec<usize>>, AllocError>
    requires { All (λ i. i.router < routers) interfaces.now }
    ensures { IfOk result (λ v. map (λ w. w.items) v.items
        ≡ each_below routers (λ r. numbers_where (is_of r) 0 interfaces.now)) }
{
    let mut all = empty_lists(alloc, routers)?;
    for i in 0..interfaces.len() {
        let interface = interfaces[i];
        all[interface.router].push(i)?;
    }
    Ok(all)
}

/// The numbers of the places of each prefix that have a gateway, ascending.
pub(crate) fn gateway_places_of(
    alloc: Global,
    places: &[Place],
    prefixes: usize,
) -> Result<Vec<Vec<usize>>, AllocError>
    requires { All (λ q. q.prefix < prefixes) places.now }
    ensures { IfOk result (λ v. map (λ w. w.items) v.items
        ≡ each_below prefixes (λ k. numbers_where (has_gateway k) 0 places.now)) }
{
    let mut all = empty_lists(alloc, prefixes)?;
    for i in 0..places.len() {
        let place = places[i];
        if place.seat.gateway().is_some() {
            all[place.prefix].push(i)?;
        }
    }
    Ok(all)
}

/// Whether each link has each prefix: a flag for each prefix in a row for each link.
pub(crate) fn carriers_of(
    alloc: Global,
    places: &[Place],
    links: usize,
    prefixes: usize,
) -> Result<Vec<bool>, AllocError>
    requires few_links { links ≤ MOST_LINKS }
    requires few_prefixes { prefixes ≤ MOST_PLACES }
    requires prefixes { All (λ q. q.prefix < prefixes) places.now }
    requires seats { All (λ q. IsLinkBelow links q.seat) places.now }
    ensures room { IfOk result (λ v. length v.items ≡ links * prefixes) }
    ensures flags { IfOk result (λ v. AreFlags prefixes places.now v.items) }
{
    let mut carriers = vec![in alloc; false; links * prefixes]?;
    for i in 0..places.len() {
        let place = places[i];
        if let Seat::Link(link) = place.seat {
            carriers[link * prefixes + place.prefix] = true;
        }
    }
    Ok(carriers)
}

/// Writes the metric at which each router has the prefix by its first interface among the numbers.
/// It goes backwards, so that the first one is written last.
fn write_costs_on(
    costs: &mut [u8],
    interfaces: &[Interface],
    numbers: &[usize],
    prefix: usize,
    prefixes: usize,
)
    requires column { prefix < prefixes }
    requires cells { All (λ i. i.router * prefixes + prefix < length costs.old) interfaces.now }
    requires numbers { All (λ n. n < length interfaces.now) numbers.now }
    ensures { WritesCosts prefixes prefix (λ r. cost_among r interfaces.now numbers.now) costs.old
        costs.new }
{
    for j in (0..numbers.len()).rev() {
        let interface = interfaces[numbers[j]];
        costs[interface.router * prefixes + prefix] = interface.direct;
    }
}

/// Writes the metric at which each router has the prefix at the place.
fn write_costs_at(
    costs: &mut [u8],
    interfaces: &[Interface],
    on_link: &[Vec<usize>],
    place: Place,
    prefixes: usize,
)
    requires column { place.prefix < prefixes }
    requires cells { All (λ i. i.router * prefixes + place.prefix < length costs.old)
        interfaces.now }
    requires lists { AreOnLinks interfaces.now (map (λ w. w.items) on_link.now) }
    requires link { IsLinkBelow (length on_link.now) place.seat }
    requires owner { IsOwnerWithin prefixes place.prefix (length costs.old) place.seat }
    ensures { WritesCosts prefixes place.prefix (λ r. cost_at r interfaces.now place.seat) costs.old
        costs.new }
{
    // (The borrow checker does not cover a match on the field itself.)
    let seat = place.seat;
    match seat {
        Seat::Link(link) => {
            let numbers = on_link[link].as_slice();
            write_costs_on(costs, interfaces, numbers, place.prefix, prefixes);
        }
        Seat::Own(own) => costs[own.router * prefixes + place.prefix] = own.cost,
    }
}

/// The metric at which each router has each prefix on its own link or as its own, or 0: a byte for
/// each prefix in a row for each router. It goes backwards, so that a prefix's first place is
/// written last.
pub(crate) fn costs_of(
    alloc: Global,
    interfaces: &[Interface],
    on_link: &[Vec<usize>],
    places: &[Place],
    routers: usize,
    prefixes: usize,
) -> Result<Vec<u8>, AllocError>
    requires few_routers { routers ≤ MOST_ROUTERS }
    requires few_prefixes { prefixes ≤ MOST_PLACES }
    requires routers { All (λ i. i.router < routers) interfaces.now }
    requires lists { AreOnLinks interfaces.now (map (λ w. w.items) on_link.now) }
    requires prefixes { All (λ q. q.prefix < prefixes) places.now }
    requires links { All (λ q. IsLinkBelow (length on_link.now) q.seat) places.now }
    requires owners { All (λ q. IsOwnerBelow routers q.seat) places.now }
    ensures room { IfOk result (λ v. length v.items ≡ routers * prefixes) }
    ensures costs { IfOk result (λ v. AreCosts prefixes interfaces.now places.now v.items) }
{
    let mut costs = vec![in alloc; 0u8; routers * prefixes]?;
    for i in (0..places.len()).rev() {
        write_costs_at(
            costs.as_mut_slice(),
            interfaces,
            on_link,
            places[i],
            prefixes,
        );
    }
    Ok(costs)
}

/// The number of the place at which each router has each prefix as its own: a cell for each prefix
/// in a row for each router. It goes backwards, so that a prefix's first place is written last.
pub(crate) fn owners_of(
    alloc: Global,
    places: &[Place],
    routers: usize,
    prefixes: usize,
) -> Result<Vec<Option<u16>>, AllocError>
    requires few_routers { routers ≤ MOST_ROUTERS }
    requires few_prefixes { prefixes ≤ MOST_PLACES }
    requires few_places { length places.now ≤ MOST_PLACES }
    requires prefixes { All (λ q. q.prefix < prefixes) places.now }
    requires owners { All (λ q. IsOwnerBelow routers q.seat) places.now }
    ensures room { IfOk result (λ v. length v.items ≡ routers * prefixes) }
    ensures owners { IfOk result (λ v. AreOwners prefixes places.now v.items) }
{
    let mut owners = vec![in alloc; None; routers * prefixes]?;
    for i in (0..places.len()).rev() {
        let place = places[i];
        let seat = place.seat;
        if let Seat::Own(own) = seat {
            owners[own.router * prefixes + place.prefix] = Some(i as u16);
        }
    }
    Ok(owners)
}

/// What stands in the lists of links, by link and prefix.
pub(crate) fn exchanged_of(
    alloc: Global,
    listed: &[Listed],
) -> Result<HashSet<(usize, Prefix)>, AllocError>
    ensures { IfOk result (λ s. (l : ℕ) (b : Block) →
        contains same_item s (l, b) ≡ list_any (is_item l b) listed.now) }
{
    let mut exchanged = HashSet::new(alloc);
    for k in 0..listed.len() {
        let item = listed[k];
        exchanged.insert((item.link, item.prefix))?;
    }
    Ok(exchanged)
}

/// Whether any link has a list.
pub(crate) fn any_list(lists: &[bool]) -> bool
    ensures { result ≡ list_any (λ has_list. has_list) lists.now }
{
    lists.iter().any(|has_list| *has_list)
}

/// Whether any router keeps a prefix.
pub(crate) fn any_kept(places: &[Place]) -> bool
    ensures { result ≡ list_any (λ q. is_kept q.seat) places.now }
{
    places.iter().any(|place| place.seat.is_kept())
}

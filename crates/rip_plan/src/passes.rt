//! The passes over what was read of a plan: what clashes with something earlier.

ghost use Rattle.std.specs.Prelude.{◌≡◌, ◌==◌, ◌+◌, ℕ, [], ◌∷◌, ◌++◌, if◌then◌else◌, find, length, map, nat_eq, IfOk, option_and_then, option_map};
ghost use Rattle.std.specs.List.{list_any};
ghost use Rattle.rip_wire.specs.Prefix.{Block};
ghost use Rattle.rip_plan.specs.Draft.{sketch};
ghost use Rattle.rip_plan.specs.Fault.{Gives};
ghost use Rattle.rip_plan.specs.Passes.{address_passes, astray_in, bare_in, duplicate_in, first_clash, have_common, none_found, same_prefix, second_passes, touched, twice_in};
ghost use Rattle.rip_plan.specs.Passes as spec;
ghost use Rattle.rip_plan.specs.Addresses.{have_one_address};
ghost use Rattle.rip_plan.specs.Touches.{listed, seats_meet, touched_by};

use crate::addresses::{Held, all_addresses};
use crate::draft::{Draft, DraftInterface, DraftPlace};
use crate::error::{At, PlanCode, ReadError, fault};
use crate::numbers::interfaces_of;
use crate::parts::Seat;
use rip_wire::{Address, Prefix};
use std::alloc::{AllocError, Global};
use std::collections::{HashMap, HashSet};

/// The routers with an interface on each link that has any.
fn routers_on_links(
    alloc: Global,
    interfaces: &[DraftInterface],
) -> Result<HashMap<usize, Vec<usize>>, AllocError>
    ensures { IfOk result (λ m. (l : ℕ) →
        listed nat_eq m l ≡ touched interfaces.now (Seat.Link l)) }
{
    let mut routers = HashMap::new(alloc);
    for i in 0..interfaces.len() {
        let interface = interfaces[i].interface;
        let on_link: &mut Vec<usize> = routers.entry(interface.link)?.or_default();
        on_link.push(interface.router)?;
    }
    Ok(routers)
}

/// The routers that a seat touches.
fn routers_touched<'a>(on_links: &'a HashMap<usize, Vec<usize>>, seat: &'a Seat) -> &'a [usize]
    ensures { result.now ≡ touched_by on_links.now seat.now }
{
    match seat {
        Seat::Link(link) => match on_links.get(link) {
            Some(routers) => routers.as_slice(),
            None => &[],
        },
        Seat::Own(own) => std::slice::from_ref(&own.router),
    }
}

fn is_same_link(seat: Seat, other: Seat) -> bool
    ensures { result ≡ spec.is_same_link seat other }
{
    match (seat, other) {
        (Seat::Link(link), Seat::Link(same)) => link == same,
        _ => false,
    }
}

fn has_router(routers: &[usize], router: usize) -> bool
    ensures { result ≡ list_any (λ r. r == router) routers.now }
{
    routers.iter().any(|r| *r == router)
}

fn share_router(routers: &[usize], others: &[usize]) -> bool
    ensures { result ≡ have_common routers.now others.now }
{
    others.iter().any(|router| has_router(routers, *router))
}

/// Whether two places of one prefix meet at these seats.
fn meet(on_links: &HashMap<usize, Vec<usize>>, seat: &Seat, other: &Seat) -> bool
    ensures { result ≡ seats_meet (touched_by on_links.now) seat.now other.now }
{
    is_same_link(*seat, *other)
        || share_router(
            routers_touched(on_links, seat),
            routers_touched(on_links, other),
        )
}

fn meets_one_of(on_links: &HashMap<usize, Vec<usize>>, seat: &Seat, earlier: &[Seat]) -> bool
    ensures { result ≡ list_any (λ other. seats_meet (touched_by on_links.now) other seat.now)
        earlier.now }
{
    earlier.iter().any(|other| meet(on_links, other, seat))
}

/// Whether a place meets one of those whose seats stand at its prefix.
fn meets_earlier(
    on_links: &HashMap<usize, Vec<usize>>,
    place: &DraftPlace,
    earlier: &HashMap<Prefix, Vec<Seat>>,
) -> bool
    ensures { result ≡ list_any (λ other. seats_meet (touched_by on_links.now) other place.now.seat)
        (listed same_prefix earlier.now place.now.prefix) }
{
    match earlier.get(&place.prefix) {
        Some(seats) => meets_one_of(on_links, &place.seat, seats.as_slice()),
        None => false,
    }
}

/// Adds a value to those at a prefix. (Generic, since the check does not find the type of an enum
/// with a struct in it behind a map.)
fn add_at<V: Drop>(
    alloc: Global,
    all: &mut HashMap<Prefix, Vec<V>>,
    prefix: Prefix,
    value: V,
) -> Result<(), AllocError>
    ensures { IfOk result (λ done. (b : Block) → listed same_prefix all.new b
        ≡ (if same_prefix prefix b then listed same_prefix all.old b ++ value ∷ []
        else listed same_prefix all.old b)) }
{
    let mut values = match all.remove(&prefix) {
        Some(values) => values,
        None => Vec::new(alloc),
    };
    values.push(value)?;
    all.insert(prefix, values)?;
    Ok(())
}

/// Where in the text the first place stands that meets an earlier one of its prefix.
fn first_duplicate(
    alloc: Global,
    interfaces: &[DraftInterface],
    places: &[DraftPlace],
) -> Result<Option<At>, AllocError>
    ensures { IfOk result (λ found. found ≡ duplicate_in interfaces.now places.now) }
{
    let on_links = routers_on_links(alloc, interfaces)?;
    let mut earlier = HashMap::new(alloc);
    for k in 0..places.len() {
        let place = places[k];
        if meets_earlier(&on_links, &place, &earlier) {
            return Ok(Some(place.at));
        }
        add_at(alloc, &mut earlier, place.prefix, place.seat)?;
    }
    Ok(None)
}

/// Where the first interface stands whose router has an earlier one on the link.
fn first_twice(alloc: Global, interfaces: &[DraftInterface]) -> Result<Option<At>, AllocError>
    ensures { IfOk result (λ found. found ≡ twice_in interfaces.now) }
{
    let mut seen = HashSet::new(alloc);
    for k in 0..interfaces.len() {
        let draft = interfaces[k];
        let interface = draft.interface;
        if !seen.insert((interface.router, interface.link))? {
            return Ok(Some(draft.at));
        }
    }
    Ok(None)
}

/// The first address that stands earlier on the same link too.
fn first_taken(alloc: Global, held: &[Held]) -> Result<Option<Held>, AllocError>
    ensures { IfOk result (λ found. found ≡ first_clash have_one_address [] held.now) }
{
    let mut seen = HashSet::new(alloc);
    for k in 0..held.len() {
        let here = held[k];
        if !seen.insert((here.link, here.address.get()))? {
            return Ok(Some(here));
        }
    }
    Ok(None)
}

/// The addresses of all interfaces, with the further ones of each.
fn held_by_all(
    alloc: Global,
    interfaces: &[DraftInterface],
    also: &[Vec<Address>],
) -> Result<Vec<Held>, AllocError>
    requires { length also.now ≡ length interfaces.now }
    ensures { IfOk result (λ v. v.items ≡ spec.held interfaces.now (map (λ w. w.items) also.now)) }
{
    let parts = interfaces_of(alloc, interfaces)?;
    all_addresses(alloc, parts.as_slice(), also)
}

/// Where the first interface stands that has an address a second time on its link.
fn first_taken_address(
    alloc: Global,
    interfaces: &[DraftInterface],
    held: &[Held],
) -> Result<Option<At>, AllocError>
    ensures { IfOk result (λ found. found
        ≡ option_and_then (λ h. spec.spot_of interfaces.now h.interface)
        (first_clash have_one_address [] held.now)) }
{
    match first_taken(alloc, held)? {
        Some(taken) => Ok(spot_of(interfaces, taken.interface)),
        None => Ok(None),
    }
}

/// Where an interface stands in the text.
fn spot_of(interfaces: &[DraftInterface], number: usize) -> Option<At>
    ensures { result ≡ spec.spot_of interfaces.now number }
{
    match interfaces.get(number) {
        Some(draft) => Some(draft.at),
        None => None,
    }
}

fn has_interface(interfaces: &[DraftInterface], router: usize) -> bool
    ensures { result ≡ list_any (λ i. i.interface.router == router) interfaces.now }
{
    interfaces.iter().any(|i| i.interface.router == router)
}

/// Where the first router without an interface stands.
fn first_without_interface(interfaces: &[DraftInterface], routers: usize) -> Option<At>
    ensures { result ≡ bare_in interfaces.now routers }
{
    for r in 0..routers {
        if !has_interface(interfaces, r) {
            return Some(At::Router(r + 1));
        }
    }
    None
}

fn is_there(interfaces: &[DraftInterface], router: usize, link: usize) -> bool
    ensures { result ≡ spec.is_there interfaces.now router link }
{
    interfaces.iter().any(|i| i.interface.router == router && i.interface.link == link)
}

/// Whether a seat is a router's own prefix, attached to a link on which the router is not.
fn is_astray(interfaces: &[DraftInterface], seat: Seat) -> bool
    ensures { result ≡ spec.is_astray interfaces.now seat }
{
    match seat {
        Seat::Link(_) => false,
        Seat::Own(own) => match own.link {
            Some(link) => !is_there(interfaces, own.router, link),
            None => false,
        },
    }
}

/// Where the first own prefix stands that is attached to a link on which its router is not.
fn first_astray(interfaces: &[DraftInterface], places: &[DraftPlace]) -> Option<At>
    ensures { result ≡ astray_in interfaces.now places.now }
{
    for k in 0..places.len() {
        let place = places[k];
        if is_astray(interfaces, place.seat) {
            return Some(place.at);
        }
    }
    None
}

/// Whether an address is this one, and is another router's than the given one, on a link on which
/// the given one has an interface.
fn is_neighbours(interfaces: &[DraftInterface], router: usize, address: Address, held: Held) -> bool
    ensures { result ≡ spec.is_neighbours interfaces.now router address held }
{
    let holder = match interfaces.get(held.interface) {
        Some(draft) => draft.interface.router,
        None => return false,
    };
    held.address == address && holder != router && is_there(interfaces, router, held.link)
}

/// Whether one of these addresses is this one, and is another router's than the given one, on a
/// link on which the given one has an interface.
fn is_a_neighbours(
    interfaces: &[DraftInterface],
    router: usize,
    address: Address,
    held: &[Held],
) -> bool
    ensures { result ≡ list_any (λ h. spec.is_neighbours interfaces.now router address h) held.now }
{
    held.iter()
        .any(|h| is_neighbours(interfaces, router, address, *h))
}

/// Whether a seat is a router's own prefix whose gateway is a neighbour's address.
fn has_neighbours_gateway(interfaces: &[DraftInterface], held: &[Held], seat: Seat) -> bool
    ensures { result ≡ spec.has_neighbours_gateway interfaces.now held.now seat }
{
    match seat {
        Seat::Link(_) => false,
        Seat::Own(own) => match own.via {
            Some(gateway) => is_a_neighbours(interfaces, own.router, gateway, held),
            None => false,
        },
    }
}

/// Where the first own prefix stands whose gateway is a neighbour's address.
fn first_neighbours_gateway(
    interfaces: &[DraftInterface],
    held: &[Held],
    places: &[DraftPlace],
) -> Option<At>
    ensures { result ≡ option_map (λ p. p.at)
        (find (λ p. spec.has_neighbours_gateway interfaces.now held.now p.seat) places.now) }
{
    for k in 0..places.len() {
        let place = places[k];
        if has_neighbours_gateway(interfaces, held, place.seat) {
            return Some(place.at);
        }
    }
    None
}

/// The fault of a code where something was found.
fn expect_none(code: PlanCode, found: Option<At>) -> Result<(), ReadError>
    ensures { Gives (λ done. done) result (none_found code found) }
{
    match found {
        None => Ok(()),
        Some(at) => Err(fault(code, at)),
    }
}

/// The first fault of an address, if any: of an interface's, and then of a gateway.
fn check_addresses(alloc: Global, draft: &Draft) -> Result<(), ReadError>
    ensures { Gives (λ done. done) result (address_passes (sketch draft.now)) }
{
    let interfaces = draft.interfaces.as_slice();
    let held = held_by_all(alloc, interfaces, draft.also.as_slice())?;
    let taken = first_taken_address(alloc, interfaces, held.as_slice())?;
    expect_none(PlanCode::DuplicateAddress, taken)?;
    let gateway = first_neighbours_gateway(interfaces, held.as_slice(), draft.places.as_slice());
    expect_none(PlanCode::DuplicateAddress, gateway)
}

/// The first fault that the second passes find, if any.
#[tactic(auto, unfolding(crate::specs::Passes::second_passes))]
pub(crate) fn check_passes(alloc: Global, draft: &Draft) -> Result<(), ReadError>
    ensures { Gives (λ done. done) result (second_passes (sketch draft.now)) }
{
    let interfaces = draft.interfaces.as_slice();
    let duplicate = first_duplicate(alloc, interfaces, draft.places.as_slice())?;
    expect_none(PlanCode::DuplicatePrefix, duplicate)?;
    expect_none(PlanCode::TwiceOnLink, first_twice(alloc, interfaces)?)?;
    check_addresses(alloc, draft)?;
    let bare = first_without_interface(interfaces, draft.routers.len());
    expect_none(PlanCode::NoInterface, bare)?;
    let astray = first_astray(interfaces, draft.places.as_slice());
    expect_none(PlanCode::UnknownLink, astray)
}

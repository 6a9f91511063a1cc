//! A plan, and what it answers.

ghost use Rattle.std.specs.Prelude.{◌≡◌, ◌==◌, ◌<◌, ◌≤◌, ◌↔◌, ◌⊎◌, ℕ, Contains, Decides, IfErr, IfNone, IfOk, IfSome, IsErrOf, None, Some, false, is_some, length, not, option_and_then, slice_get};
ghost use Rattle.std.specs.Str.{is_utf8};
ghost use Rattle.std.specs.List.Sorted.{IsStrictlyIncreasing};
ghost use Rattle.rip_plan.specs.Answers.{out_of_memory};
ghost use Rattle.rip_plan.specs.PlanFaults.{IsFault, PlanFault};
ghost use Rattle.rip_plan.specs.PlanOf.{IsPlanOfText};
ghost use Rattle.rip_plan.specs.Fault.{Gives};
ghost use Rattle.rip_plan.specs.Addresses.{holder_at};
ghost use Rattle.rip_plan.specs.Names.{number_of_name};
ghost use Rattle.rip_plan.specs.Network.{addresses_of, direct_at, first_carrying, found_at, is_of, is_on, network_in, network_of_sketch, number_of_prefix, numbers_where, own_seat};
ghost use Rattle.rip_plan.specs.Draft.{sketch};
ghost use Rattle.rip_plan.specs.Seats.{gateway_of};
ghost use Rattle.rip_plan.specs.Relations.{Carries, Exchanges, HasAddress, HasCost, HasList, HasTwoInterfaces, IsAt, IsAttached, IsConnected, IsDirect, IsGateway, IsGatewayAt, IsInterface, IsKept, IsLawful, IsLeaf, IsLinkName, IsListed, IsOn, IsPlace, IsPrefix, IsRouterName, Poisons};

use crate::addresses::all_addresses;
use crate::draft::Draft;
use crate::error::{At, PlanCode, PlanError, ReadError};
use crate::index;
use crate::laws::first_faults;
use crate::limits::MOST_PLAN_BYTES;
use crate::numbers::{interfaces_of, with_numbers};
use crate::parts::{Interface, Listed, Place, Seat};
use crate::reading::read_draft;
use rip_wire::{Address, Prefix, laws};
use std::alloc::{AllocError, Global};
use std::collections::{HashMap, HashSet};
use std::marker::Model;

/// The plan of a RIP-2 network. Its links, routers and interfaces are numbered from 0 in the order
/// of the plan's text, its places likewise, those of links before those of routers, and its
/// prefixes in the order of their first place.
#[derive(Drop)]
pub struct Plan {
    links: Vec<String>,
    lists: Vec<bool>,
    listed: Vec<Listed>,
    routers: Vec<String>,
    interfaces: Vec<Interface>,
    also: Vec<Vec<Address>>,
    prefixes: Vec<Prefix>,
    places: Vec<Place>,
    // Look-ups, so that no answer walks over the parts: the interfaces of each link and router, the
    // places of each prefix that have a gateway, links and routers by name, interfaces by link and
    // address, prefixes, in rows one after another whether each link has each prefix, at which
    // metric each router has it, and at which place as its own, and whether any router keeps a
    // prefix; what stands in the lists of links, by link and prefix, and whether any link has a list.
    on_link: Vec<Vec<usize>>,
    of_router: Vec<Vec<usize>>,
    gateway_places: Vec<Vec<usize>>,
    names: HashMap<String, usize>,
    router_names: HashMap<String, usize>,
    addresses: HashMap<(usize, u32), usize>,
    numbers: HashMap<Prefix, usize>,
    carriers: Vec<bool>,
    costs: Vec<u8>,
    owners: Vec<Option<u16>>,
    any_kept: bool,
    exchanged: HashSet<(usize, Prefix)>,
    any_list: bool,
}

impl Model for Plan {
    ghost use Rattle.rip_plan.specs.Network.{Network};

    ghost Value = { Network };

    ghost use Rattle.rip_plan.specs.Indexed.{IsIndexed, network_of};

    ghost view = { network_of };

    ghost invariant = { IsIndexed };
}

/// The plan of what was read.
fn plan_of(alloc: Global, draft: Draft) -> Result<Plan, AllocError>
    requires { IsLawful (network_of_sketch (sketch draft)) }
    ensures { IfOk result (λ plan. plan ≡ network_of_sketch (sketch draft)) }
{
    let interfaces = interfaces_of(alloc, draft.interfaces.as_slice())?;
    let (prefixes, numbers, places) = with_numbers(alloc, draft.places.as_slice())?;
    let on_link = index::all_on(alloc, interfaces.as_slice(), draft.links.len())?;
    let routers = draft.routers.len();
    let of_router = index::all_of(alloc, interfaces.as_slice(), routers)?;
    let gateway_places = index::gateway_places_of(alloc, places.as_slice(), prefixes.len())?;
    let held = all_addresses(alloc, interfaces.as_slice(), draft.also.as_slice())?;
    let addresses = index::numbers_of_addresses(alloc, held.as_slice())?;
    let carriers = index::carriers_of(alloc, places.as_slice(), draft.links.len(), prefixes.len())?;
    let costs = index::costs_of(
        alloc,
        interfaces.as_slice(),
        on_link.as_slice(),
        places.as_slice(),
        routers,
        prefixes.len(),
    )?;
    let owners = index::owners_of(alloc, places.as_slice(), routers, prefixes.len())?;
    let any_kept = index::any_kept(places.as_slice());
    let router_names = index::numbers_of_names(alloc, draft.routers.as_slice())?;
    let exchanged = index::exchanged_of(alloc, draft.listed.as_slice())?;
    let any_list = index::any_list(draft.lists.as_slice());
    Ok(Plan {
        links: draft.links,
        lists: draft.lists,
        listed: draft.listed,
        routers: draft.routers,
        interfaces,
        also: draft.also,
        prefixes,
        places,
        on_link,
        of_router,
        gateway_places,
        names: draft.numbers,
        router_names,
        addresses,
        numbers,
        carriers,
        costs,
        owners,
        any_kept,
        exchanged,
        any_list,
    })
}

/// The plan that the bytes are, a fault, or that memory was refused.
fn read_plan(alloc: Global, bytes: &[u8]) -> Result<Plan, ReadError>
    ensures gives { Gives (λ plan. plan) result (network_in bytes.now) }
    ensures long { MOST_PLAN_BYTES < length bytes.now
        → IsErrOf result (ReadError.Fault (record { code = PlanCode.Limit; place = At.Text })) }
    ensures not_utf8 { length bytes.now ≤ MOST_PLAN_BYTES → is_utf8 bytes.now ≡ false
        → IsErrOf result (ReadError.Fault (record { code = PlanCode.Syntax; place = At.Text })) }
{
    laws::names();
    laws::address_texts();
    laws::prefix_texts();
    let draft = read_draft(alloc, bytes)?;
    Ok(plan_of(alloc, draft)?)
}

impl Plan {
    /// Reads the text of a plan: a TOML document of at most 1,048,576 bytes. The answer is the plan
    /// of the document where the text has no fault; else the first fault with its place, or Memory
    /// at the text where a growth was refused. A text that is too long or not UTF-8 is refused as
    /// such, and never with Memory.
    pub fn read(alloc: Global, bytes: &[u8]) -> Result<Plan, PlanError>
        ensures plan { IfOk result (λ plan. IsPlanOfText bytes.now plan) }
        ensures told { IfErr result (λ e. (e ≡ out_of_memory) ⊎ PlanFault bytes.now e) }
        ensures no_fault { IfOk result (λ plan. (e : PlanError) → IsFault bytes.now e → ⊥) }
        ensures long { MOST_PLAN_BYTES < length bytes.now
            → IsErrOf result (record { code = PlanCode.Limit; place = At.Text }) }
        ensures not_utf8 { length bytes.now ≤ MOST_PLAN_BYTES → is_utf8 bytes.now ≡ false
            → IsErrOf result (record { code = PlanCode.Syntax; place = At.Text }) }
    {
        first_faults();
        laws::names();
        laws::address_texts();
        laws::prefix_texts();
        match read_plan(alloc, bytes) {
            Ok(plan) => Ok(plan),
            Err(ReadError::Fault(fault)) => Err(fault),
            Err(ReadError::OutOfMemory) => Err(PlanError {
                code: PlanCode::Memory,
                place: At::Text,
            }),
        }
    }

    /// A plan keeps the laws, since reading refuses any other. This does nothing when it runs.
    pub fn lawful(&self)
        ensures { IsLawful self.now }
    {
        let _ = &self.links;
    }

    /// How many routers the plan has.
    pub fn routers(&self) -> usize
        ensures { result ≡ length self.now.routers }
    {
        self.routers.len()
    }

    /// How many links the plan has.
    pub fn links(&self) -> usize
        ensures { result ≡ length self.now.links }
    {
        self.links.len()
    }

    /// How many interfaces the plan has.
    pub fn interfaces(&self) -> usize
        ensures { result ≡ length self.now.interfaces }
    {
        self.interfaces.len()
    }

    /// How many prefixes the plan has.
    pub fn prefixes(&self) -> usize
        ensures { result ≡ length self.now.prefixes }
    {
        self.prefixes.len()
    }

    /// How many places of prefixes the plan has.
    pub fn places(&self) -> usize
        ensures { result ≡ length self.now.places }
    {
        self.places.len()
    }

    /// The name of the router with this number.
    pub fn router_name(&self, router: usize) -> &str
        requires { router < length self.now.routers }
        ensures { IsRouterName self.now router result.now }
    {
        self.routers[router].as_str()
    }

    /// The name of the link with this number.
    pub fn link_name(&self, link: usize) -> &str
        requires { link < length self.now.links }
        ensures { IsLinkName self.now link result.now }
    {
        self.links[link].as_str()
    }

    /// The number of the router of this name, by the look-ups.
    fn router_number(&self, name: &str) -> Option<usize>
        ensures { result ≡ number_of_name name.now self.now.routers }
    {
        self.router_names.get(name).copied()
    }

    /// The number of the router of this name, if there is one.
    pub fn router_named(&self, name: &str) -> Option<usize>
        ensures { (r : ℕ) → (result ≡ Some r) ↔ IsRouterName self.now r name.now }
    {
        self.lawful();
        self.router_number(name)
    }

    /// The number of the link of this name, by the look-ups.
    fn link_number(&self, name: &str) -> Option<usize>
        ensures { result ≡ number_of_name name.now self.now.links }
    {
        self.names.get(name).copied()
    }

    /// The number of the link of this name, if there is one.
    pub fn link_named(&self, name: &str) -> Option<usize>
        ensures { (l : ℕ) → (result ≡ Some l) ↔ IsLinkName self.now l name.now }
    {
        self.lawful();
        self.link_number(name)
    }

    /// The prefix with this number.
    pub fn prefix(&self, k: usize) -> Prefix
        requires { k < length self.now.prefixes }
        ensures { IsPrefix self.now k result }
    {
        self.prefixes[k]
    }

    /// The interface with this number.
    pub fn interface(&self, i: usize) -> Interface
        requires { i < length self.now.interfaces }
        ensures exact { slice_get self.now.interfaces i ≡ Some result }
        ensures is { IsInterface self.now i result.router result.link result.cost }
        ensures connected { IsConnected self.now i result.router result.link result.direct }
        ensures poisons { Decides result.poison (Poisons self.now i) }
    {
        self.interfaces[i]
    }

    /// The further addresses of an interface, from which the router sends on the link too, in the
    /// order of the plan.
    pub fn also(&self, i: usize) -> &[Address]
        requires { i < length self.now.interfaces }
        ensures { slice_get self.now.also i ≡ Some result.now }
    {
        self.lawful();
        self.also[i].as_slice()
    }

    /// The place with this number.
    pub fn place(&self, k: usize) -> Place
        requires { k < length self.now.places }
        ensures { IsPlace self.now k result.prefix result.seat }
    {
        self.places[k]
    }

    /// The numbers of the interfaces on a link, ascending.
    pub fn on_link(&self, link: usize) -> &[usize]
        requires { link < length self.now.links }
        ensures exact { (i : ℕ) →
            Contains result.now i ↔ ((r c : ℕ) × IsInterface self.now i r link c) }
        ensures ascending { IsStrictlyIncreasing result.now }
        ensures value { result.now ≡ numbers_where (is_on link) 0 self.now.interfaces }
    {
        self.on_link[link].as_slice()
    }

    /// The numbers of the interfaces of a router, ascending.
    pub fn of_router(&self, router: usize) -> &[usize]
        requires { router < length self.now.routers }
        ensures exact { (i : ℕ) →
            Contains result.now i ↔ ((l c : ℕ) × IsInterface self.now i router l c) }
        ensures ascending { IsStrictlyIncreasing result.now }
        ensures value { result.now ≡ numbers_where (is_of router) 0 self.now.interfaces }
    {
        self.of_router[router].as_slice()
    }

    /// The numbers of the places at which a router has a gateway for a prefix, ascending; none where
    /// the plan has no prefix of this number.
    pub fn gateway_places(&self, prefix: usize) -> &[usize]
        ensures exact { (k : ℕ) →
            Contains result.now k ↔ ((r a : ℕ) × IsGatewayAt self.now k prefix r a) }
        ensures ascending { IsStrictlyIncreasing result.now }
    {
        self.lawful();
        match self.gateway_places.get(prefix) {
            Some(numbers) => numbers.as_slice(),
            None => &[],
        }
    }

    /// The number of the interface of a router on a link, if it has one.
    pub fn number_on(&self, router: usize, link: usize) -> Option<usize>
        requires { router < length self.now.routers }
        ensures { (i : ℕ) → (result ≡ Some i) ↔ ((c : ℕ) × IsInterface self.now i router link c) }
    {
        self.lawful();
        let numbers = self.of_router(router);
        for j in 0..numbers.len() {
            let own = self.interface(numbers[j]);
            if own.link == link {
                return Some(numbers[j]);
            }
        }
        None
    }

    /// The interface of a router on a link, if it has one.
    pub fn interface_on(&self, router: usize, link: usize) -> Option<Interface>
        requires { router < length self.now.routers }
        ensures some { IfSome result (λ own. (own.router ≡ router) × (own.link ≡ link)
            × HasCost self.now own.router own.link own.cost) }
        ensures none { IfNone result (IsOn self.now router link → ⊥) }
        ensures is { IfSome result (λ own.
            (i : ℕ) × (slice_get self.now.interfaces i ≡ Some own)) }
    {
        match self.number_on(router, link) {
            Some(number) => Some(self.interface(number)),
            None => None,
        }
    }

    /// Whether a router is on a link.
    pub fn is_on(&self, router: usize, link: usize) -> bool
        requires { router < length self.now.routers }
        ensures { Decides result (IsOn self.now router link) }
    {
        match self.interface_on(router, link) {
            Some(_) => true,
            None => false,
        }
    }

    /// The number of the interface that has an address on a link, by the look-ups.
    fn number_with(&self, link: usize, address: Address) -> Option<usize>
        ensures { result ≡ holder_at link address (addresses_of self.now) }
    {
        match self.addresses.get(&(link, address.get())) {
            Some(number) => Some(*number),
            None => None,
        }
    }

    /// The number of the interface that has an address on a link, its own or a further one, if there
    /// is one.
    pub fn holder(&self, link: usize, address: Address) -> Option<usize>
        ensures { (i : ℕ) → (result ≡ Some i) ↔ HasAddress self.now i link address }
    {
        self.lawful();
        self.number_with(link, address)
    }

    /// The number of the interface on the link of this name with this address, by the look-ups.
    fn number_at(&self, link_name: &str, address: Address) -> Option<usize>
        ensures { result ≡ found_at self.now link_name.now address }
    {
        match self.names.get(link_name) {
            None => None,
            Some(link) => self.number_with(*link, address),
        }
    }

    /// Whether an interface has an address: its own, or a further one.
    pub fn has_address(&self, i: usize, address: Address) -> bool
        requires { i < length self.now.interfaces }
        ensures { (r l c : ℕ) → IsInterface self.now i r l c →
            Decides result (HasAddress self.now i l address) }
    {
        self.lawful();
        let link = self.interface(i).link;
        match self.number_with(link, address) {
            Some(number) => number == i,
            None => false,
        }
    }

    /// The number of the interface on the link of this name with this address, its own or a further
    /// one, if there is one.
    pub fn find(&self, link_name: &str, address: Address) -> Option<usize>
        ensures exact { (i : ℕ) → (result ≡ Some i) ↔ IsAt self.now link_name.now address i }
        ensures below { IfSome result (λ i. i < length self.now.interfaces) }
        ensures value { result ≡ found_at self.now link_name.now address }
    {
        self.lawful();
        self.number_at(link_name, address)
    }

    /// Whether a router is a leaf: it has one interface alone.
    pub fn leaf(&self, router: usize) -> bool
        requires { router < length self.now.routers }
        ensures one { Decides result ((i l c : ℕ) × IsLeaf self.now router i l c) }
        ensures more { Decides (not result) (HasTwoInterfaces self.now router) }
        ensures count { result
            ≡ (length (numbers_where (is_of router) 0 self.now.interfaces) == 1) }
    {
        self.lawful();
        self.of_router(router).len() == 1
    }

    /// The metric at which a router has the prefix of a number, by the look-ups.
    fn cost_at(&self, router: usize, prefix: usize) -> Option<u8>
        ensures { result ≡ direct_at router prefix self.now.interfaces self.now.places }
    {
        if self.routers.len() <= router || self.prefixes.len() <= prefix {
            return None;
        }
        match self.costs[router * self.prefixes.len() + prefix] {
            0 => None,
            cost => Some(cost),
        }
    }

    /// The metric at which a router has a prefix of the plan, both by their numbers: on a link of
    /// its own, or as its own prefix. `None` also where the plan has no such number.
    pub fn direct_cost(&self, router: usize, prefix: usize) -> Option<u8>
        ensures { (c : ℕ) → (result ≡ Some c) ↔ IsDirect self.now router prefix c }
    {
        self.lawful();
        self.cost_at(router, prefix)
    }

    /// The metric at which a router has a prefix, by the look-ups.
    fn cost_of(&self, router: usize, prefix: Prefix) -> Option<u8>
        ensures { result
            ≡ option_and_then (λ k. direct_at router k self.now.interfaces self.now.places)
            (number_of_prefix prefix self.now.prefixes) }
    {
        let number = self.numbers.get(&prefix)?;
        self.cost_at(router, *number)
    }

    /// The metric at which a router has a prefix on a link of its own, or as its own prefix.
    pub fn direct(&self, router: usize, prefix: Prefix) -> Option<u8>
        ensures planned { (k c : ℕ) → IsPrefix self.now k prefix →
            (result ≡ Some c) ↔ IsDirect self.now router k c }
        ensures unplanned { ((k : ℕ) → IsPrefix self.now k prefix → ⊥) → result ≡ None }
    {
        self.lawful();
        self.cost_of(router, prefix)
    }

    /// The seat at which a router has a prefix as its own, by the look-ups.
    fn own_seat(&self, router: usize, prefix: usize) -> Option<Seat>
        ensures { result ≡ own_seat router prefix self.now.places }
    {
        if self.routers.len() <= router || self.prefixes.len() <= prefix {
            return None;
        }
        match self.owners[router * self.prefixes.len() + prefix] {
            Some(place) => Some(self.places[usize::from(place)].seat),
            None => None,
        }
    }

    /// Whether a router keeps a prefix of the plan, both by their numbers: it has it as its own and
    /// never gives it up for an offer. `false` also where the plan has no such number.
    pub fn keeps(&self, router: usize, prefix: usize) -> bool
        ensures { Decides result (IsKept self.now router prefix) }
    {
        self.lawful();
        if !self.any_kept {
            return false;
        }
        match self.own_seat(router, prefix) {
            Some(seat) => seat.is_kept(),
            None => false,
        }
    }

    /// The link to which a prefix of a router's own is attached, both by their numbers. `None` also
    /// where the plan has no such number.
    pub fn attached_link(&self, router: usize, prefix: usize) -> Option<usize>
        ensures { (l : ℕ) → (result ≡ Some l) ↔ IsAttached self.now router prefix l }
    {
        self.lawful();
        if !self.any_kept {
            return None;
        }
        match self.own_seat(router, prefix) {
            Some(seat) => seat.attached_link(),
            None => None,
        }
    }

    /// The gateway outside of the plan that a router may tell as next hop of a prefix.
    pub fn gateway(&self, router: usize, prefix: Prefix) -> Option<Address>
        ensures planned { (k a : ℕ) → IsPrefix self.now k prefix →
            (result ≡ Some a) ↔ IsGateway self.now router k a }
        ensures unplanned { ((k : ℕ) → IsPrefix self.now k prefix → ⊥) → result ≡ None }
    {
        self.lawful();
        self.gateway_of(router, prefix)
    }

    /// The gateway of a router for a prefix, by the look-ups.
    fn gateway_of(&self, router: usize, prefix: Prefix) -> Option<Address>
        ensures { result
            ≡ option_and_then (λ k. option_and_then gateway_of (own_seat router k self.now.places))
            (number_of_prefix prefix self.now.prefixes) }
    {
        let number = self.numbers.get(&prefix)?;
        match self.own_seat(router, *number) {
            Some(seat) => seat.gateway(),
            None => None,
        }
    }

    /// Whether a link has the prefix of a number, by the look-ups.
    fn is_carrier(&self, link: usize, prefix: usize) -> bool
        ensures { result ≡ is_some (first_carrying link prefix 0 self.now.places) }
    {
        if self.links.len() <= link || self.prefixes.len() <= prefix {
            return false;
        }
        self.carriers[link * self.prefixes.len() + prefix]
    }

    /// Whether a link is a place of a prefix of the plan, both by their numbers; `false` also where
    /// the plan has no such number.
    pub fn is_place(&self, link: usize, prefix: usize) -> bool
        ensures { Decides result (Carries self.now link prefix) }
    {
        self.is_carrier(link, prefix)
    }

    /// Whether a link has a prefix, by the look-ups.
    fn is_carrier_of(&self, link: usize, prefix: Prefix) -> bool
        ensures { result
            ≡ is_some (option_and_then (λ k. first_carrying link k 0 self.now.places)
            (number_of_prefix prefix self.now.prefixes)) }
    {
        match self.numbers.get(&prefix) {
            Some(number) => self.is_carrier(link, *number),
            None => false,
        }
    }

    /// Whether any link has a list of the prefixes that are exchanged over it.
    pub fn has_lists(&self) -> bool
        ensures { Decides result ((l : ℕ) × HasList self.now l) }
    {
        self.any_list
    }

    /// Whether a link has a list of the prefixes that are exchanged over it.
    pub fn has_list(&self, link: usize) -> bool
        requires { link < length self.now.links }
        ensures exact { slice_get self.now.lists link ≡ Some result }
        ensures has { Decides result (HasList self.now link) }
    {
        self.lawful();
        self.lists[link]
    }

    /// What stands in the lists of links, link by link, in the order of the plan.
    pub fn listed(&self) -> &[Listed]
        ensures { result.now ≡ self.now.listed }
    {
        self.listed.as_slice()
    }

    /// Whether a prefix stands in the list of a link.
    fn is_listed(&self, link: usize, prefix: Prefix) -> bool
        ensures { Decides result (IsListed self.now link prefix) }
    {
        self.exchanged.contains(&(link, prefix))
    }

    /// Whether routers exchange a prefix over a link: it has no list, or the prefix stands in it,
    /// or is the link's own.
    pub fn exchanges(&self, link: usize, prefix: Prefix) -> bool
        requires { link < length self.now.links }
        ensures { Decides result (Exchanges self.now link prefix) }
    {
        self.lawful();
        if !self.has_list(link) {
            return true;
        }
        self.is_listed(link, prefix) || self.carries(link, prefix)
    }

    /// Whether a link is a place of a prefix.
    pub fn carries(&self, link: usize, prefix: Prefix) -> bool
        ensures planned { (k : ℕ) → IsPrefix self.now k prefix →
            Decides result (Carries self.now link k) }
        ensures unplanned { ((k : ℕ) → IsPrefix self.now k prefix → ⊥) → result ≡ false }
    {
        self.lawful();
        self.is_carrier_of(link, prefix)
    }
}

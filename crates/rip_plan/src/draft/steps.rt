//! The steps of the first pass over the text of a plan.

ghost use Rattle.std.specs.Prelude.{◌≡◌, ◌==◌, ◌≤◌, ◌++◌, ◌∷◌, ℕ, [], IfErr, IfOk, false, if◌then◌else◌, map, nat_eq, option_copied, option_map, string_bytes};
ghost use Rattle.std.specs.List.{list_any};
ghost use Rattle.toml.specs.View.{view};
ghost use Rattle.rip_plan.specs.Draft.{Steps, has_address, interface_step, is_full, is_outside, link_step, listed_step, own_step, prefix_step, router_step, sketch, with_interface, with_link, with_place};
ghost use Rattle.rip_plan.specs.Fields as fields_spec;
ghost use Rattle.rip_plan.specs.Fields.{addresses_in};
ghost use Rattle.rip_plan.specs.Fault.{steps};
ghost use Rattle.rip_plan.specs.Names.{is_one_of, number_of_name};
ghost use Rattle.rip_plan.specs.Touches.{listed};

use crate::draft::{Draft, DraftInterface, DraftPlace};
use crate::error::{At, PlanCode, ReadError, fault};
use crate::fields;
use crate::limits::{MOST_ALSO, MOST_INTERFACES, MOST_LISTED, MOST_PLACES};
use crate::parts::{Interface, Listed, OwnPrefix, Seat};
use rip_wire::{Address, Prefix, is_name};
use std::alloc::{AllocError, Global};
use std::collections::HashMap;
use toml::Value;

fn is_name_taken(name: &str, names: &[String]) -> bool
    ensures { result ≡ is_one_of name.now (map string_bytes names.now) }
{
    names.iter().any(|other| other.as_str() == name)
}

/// The number of the link of a name.
fn number_of(draft: &Draft, name: &str) -> Option<usize>
    ensures { result ≡ number_of_name name.now (sketch draft.now).links }
{
    draft.numbers.get(name).copied()
}

fn is_link_named(draft: &Draft, name: &str) -> bool
    ensures { result ≡ is_one_of name.now (sketch draft.now).links }
{
    number_of(draft, name).is_some()
}

/// Adds a link: its name, which no earlier link has, and whether it has a list.
fn add_link_name(
    draft: &mut Draft,
    alloc: Global,
    name: &str,
    has_list: bool,
) -> Result<(), ReadError>
    requires { is_one_of name.now (sketch draft.old).links ≡ false }
    ensures { Steps (sketch draft.old) (sketch draft.new) result
        (λ s. Ok (with_link name.now has_list s)) }
{
    let key = String::from_str(alloc, name)?;
    let kept = String::from_str(alloc, name)?;
    // With room for the name nothing fails after its number is kept.
    draft.links.reserve(1)?;
    draft.lists.push(has_list)?;
    draft.numbers.insert(key, draft.links.len())?;
    draft.links.push(kept)?;
    Ok(())
}

/// Whether the link has prefixes, and none contains the address.
fn is_out_of_link(draft: &Draft, link: usize, address: Address) -> bool
    ensures { result ≡ is_outside link address (sketch draft.now).places }
{
    match draft.blocks.get(&link) {
        Some(prefixes) => !prefixes.is_empty() && !has_address_in(address, prefixes.as_slice()),
        None => false,
    }
}

fn contains(prefix: Prefix, address: Address) -> bool
    ensures { result ≡ has_address prefix address }
{
    prefix.contains(address)
}

fn has_address_in(address: Address, blocks: &[Prefix]) -> bool
    ensures { result ≡ list_any (λ b. has_address b address) blocks.now }
{
    blocks.iter().any(|block| contains(*block, address))
}

/// Adds a prefix to those on a link.
fn add_block(
    blocks: &mut HashMap<usize, Vec<Prefix>>,
    link: usize,
    prefix: Prefix,
) -> Result<(), AllocError>
    ensures ok { IfOk result (λ done. (l : ℕ) → listed nat_eq blocks.new l
        ≡ (if link == l then listed nat_eq blocks.old l ++ prefix ∷ []
        else listed nat_eq blocks.old l)) }
    ensures err { IfErr result (λ e. (l : ℕ) → listed nat_eq blocks.new l
        ≡ listed nat_eq blocks.old l) }
{
    let on_link: &mut Vec<Prefix> = blocks.entry(link)?.or_default();
    on_link.push(prefix)?;
    Ok(())
}

/// Adds a place of a prefix, unless there are as many as a plan may have.
fn add_place(draft: &mut Draft, at: At, prefix: Prefix, seat: Seat) -> Result<(), ReadError>
    ensures { Steps (sketch draft.old) (sketch draft.new) result (with_place at prefix seat) }
{
    if MOST_PLACES <= draft.places.len() {
        return Err(fault(PlanCode::Limit, at));
    }
    // With room for the place nothing fails after its prefix is kept.
    draft.places.reserve(1)?;
    if let Seat::Link(link) = seat {
        add_block(&mut draft.blocks, link, prefix)?;
    }
    draft.places.push(DraftPlace { prefix, seat, at })?;
    Ok(())
}

#[tactic(auto, unfolding(crate::specs::Draft::prefix_step))]
fn add_prefix(draft: &mut Draft, i: usize, j: usize, item: &Value) -> Result<(), ReadError>
    requires { 1 ≤ i }
    ensures { Steps (sketch draft.old) (sketch draft.new) result (prefix_step i j (view item.now)) }
{
    let at = At::LinkPrefix(i, j);
    let Some(text) = item.as_str() else {
        return Err(fault(PlanCode::Key, at));
    };
    let Some(prefix) = Prefix::parse(text) else {
        return Err(fault(PlanCode::Prefix, at));
    };
    add_place(draft, at, prefix, Seat::Link(i - 1))
}

fn add_prefixes(draft: &mut Draft, i: usize, items: &[Value]) -> Result<(), ReadError>
    requires { 1 ≤ i }
    ensures { Steps (sketch draft.old) (sketch draft.new) result
        (steps (prefix_step i) 1 (map view items.now)) }
{
    for (j, item) in items.iter().enumerate() {
        add_prefix(draft, i, j + 1, item)?;
    }
    Ok(())
}

/// Adds a prefix to the list of a link, unless there are as many as a plan may have.
#[tactic(auto, unfolding(crate::specs::Draft::listed_step))]
fn add_listed(draft: &mut Draft, i: usize, j: usize, item: &Value) -> Result<(), ReadError>
    requires { 1 ≤ i }
    ensures { Steps (sketch draft.old) (sketch draft.new) result (listed_step i j (view item.now)) }
{
    let at = At::LinkOnly(i, j);
    let Some(text) = item.as_str() else {
        return Err(fault(PlanCode::Key, at));
    };
    let Some(prefix) = Prefix::parse(text) else {
        return Err(fault(PlanCode::Prefix, at));
    };
    if MOST_LISTED <= draft.listed.len() {
        return Err(fault(PlanCode::Limit, at));
    }
    draft.listed.push(Listed {
        link: i - 1,
        prefix,
    })?;
    Ok(())
}

fn add_list(draft: &mut Draft, i: usize, items: &[Value]) -> Result<(), ReadError>
    requires { 1 ≤ i }
    ensures { Steps (sketch draft.old) (sketch draft.new) result
        (steps (listed_step i) 1 (map view items.now)) }
{
    for (j, item) in items.iter().enumerate() {
        add_listed(draft, i, j + 1, item)?;
    }
    Ok(())
}

#[tactic(auto, unfolding(crate::specs::Draft::link_step))]
fn add_link(draft: &mut Draft, alloc: Global, i: usize, item: &Value) -> Result<(), ReadError>
    requires { 1 ≤ i }
    ensures { Steps (sketch draft.old) (sketch draft.new) result (link_step i (view item.now)) }
{
    let at = At::Link(i);
    let Some(table) = item.as_table() else {
        return Err(fault(PlanCode::Key, at));
    };
    let Some(given) = fields::fields_of_link(table) else {
        return Err(fault(PlanCode::Key, at));
    };
    if !is_name(given.name.as_bytes()) {
        return Err(fault(PlanCode::Name, at));
    }
    if is_link_named(draft, given.name) {
        return Err(fault(PlanCode::DuplicateName, at));
    }
    add_link_name(draft, alloc, given.name, given.only.is_some())?;
    add_prefixes(draft, i, given.prefixes)?;
    match given.only {
        Some(items) => add_list(draft, i, items),
        None => Ok(()),
    }
}

/// The addresses of these texts, if each is one.
fn addresses_of(alloc: Global, items: &[Value]) -> Result<Option<Vec<Address>>, AllocError>
    ensures { IfOk result (λ o.
        option_map (λ v. v.items) o ≡ addresses_in (map view items.now)) }
{
    let mut addresses = Vec::new(alloc);
    for item in items {
        let Some(text) = item.as_str() else {
            return Ok(None);
        };
        let Some(address) = Address::parse(text) else {
            return Ok(None);
        };
        addresses.push(address)?;
    }
    Ok(Some(addresses))
}

/// Whether the draft has no room for one more interface with these further addresses.
fn is_full_with(draft: &Draft, also: &[Address]) -> bool
    ensures { result ≡ is_full (sketch draft.now) also.now }
{
    MOST_INTERFACES <= draft.interfaces.len() || MOST_ALSO < draft.also_count + also.len()
}

/// Adds an interface with its further addresses.
fn keep_interface(
    draft: &mut Draft,
    interface: DraftInterface,
    also: Vec<Address>,
) -> Result<(), AllocError>
    requires { is_full (sketch draft.old) also.items ≡ false }
    ensures ok { IfOk result (λ done. sketch draft.new ≡ with_interface interface also.items
        (sketch draft.old)) }
{
    // With room for both nothing fails after the first is kept.
    draft.interfaces.reserve(1)?;
    draft.also.reserve(1)?;
    draft.also_count += also.len();
    draft.interfaces.push(interface)?;
    draft.also.push(also)?;
    Ok(())
}

#[tactic(auto, unfolding(crate::specs::Draft::interface_step))]
fn add_interface(
    draft: &mut Draft,
    alloc: Global,
    r: usize,
    j: usize,
    item: &Value,
) -> Result<(), ReadError>
    requires { 1 ≤ r }
    ensures { Steps (sketch draft.old) (sketch draft.new) result
        (interface_step r j (view item.now)) }
{
    let at = At::RouterInterface(r, j);
    let Some(table) = item.as_table() else {
        return Err(fault(PlanCode::Key, at));
    };
    let Some(given) = fields::fields_of_interface(table) else {
        return Err(fault(PlanCode::Key, at));
    };
    let Some(address) = Address::parse(given.address) else {
        return Err(fault(PlanCode::Address, at));
    };
    let Some(also) = addresses_of(alloc, given.also)? else {
        return Err(fault(PlanCode::Address, at));
    };
    let Some(cost) = fields::cost_of(given.cost) else {
        return Err(fault(PlanCode::Cost, at));
    };
    let Some(direct) = fields::direct_of(cost, given.direct) else {
        return Err(fault(PlanCode::Cost, at));
    };
    let Some(link) = number_of(draft, given.link) else {
        return Err(fault(PlanCode::UnknownLink, at));
    };
    if is_out_of_link(draft, link, address) {
        return Err(fault(PlanCode::OutsidePrefix, at));
    }
    if is_full_with(draft, also.as_slice()) {
        return Err(fault(PlanCode::Limit, at));
    }
    let interface = Interface {
        router: r - 1,
        link,
        address,
        cost,
        direct,
        poison: given.poison.unwrap_or(draft.poison),
    };
    Ok(keep_interface(draft, DraftInterface { interface, at }, also)?)
}

fn add_interfaces(
    draft: &mut Draft,
    alloc: Global,
    r: usize,
    items: &[Value],
) -> Result<(), ReadError>
    requires { 1 ≤ r }
    ensures { Steps (sketch draft.old) (sketch draft.new) result
        (steps (interface_step r) 1 (map view items.now)) }
{
    for (j, item) in items.iter().enumerate() {
        add_interface(draft, alloc, r, j + 1, item)?;
    }
    Ok(())
}

/// The address of a text, if one is given; `None` where it is no address.
fn address_if(text: Option<&str>) -> Option<Option<Address>>
    ensures { result ≡ fields_spec.address_if (option_copied text.entry) }
{
    match text {
        None => Some(None),
        Some(text) => match Address::parse(text) {
            Some(address) => Some(Some(address)),
            None => None,
        },
    }
}

/// The number of the link of a name, if one is given; `None` where no link has it.
fn link_if(draft: &Draft, name: Option<&str>) -> Option<Option<usize>>
    ensures { result ≡ fields_spec.link_if (option_copied name.entry) (sketch draft.now).links }
{
    match name {
        None => Some(None),
        Some(name) => match number_of(draft, name) {
            Some(link) => Some(Some(link)),
            None => None,
        },
    }
}

#[tactic(auto, unfolding(crate::specs::Draft::own_step))]
fn add_own(draft: &mut Draft, r: usize, j: usize, item: &Value) -> Result<(), ReadError>
    requires { 1 ≤ r }
    ensures { Steps (sketch draft.old) (sketch draft.new) result (own_step r j (view item.now)) }
{
    let at = At::RouterOwn(r, j);
    let Some(table) = item.as_table() else {
        return Err(fault(PlanCode::Key, at));
    };
    let Some(given) = fields::fields_of_own(table) else {
        return Err(fault(PlanCode::Key, at));
    };
    let Some(via) = address_if(given.via) else {
        return Err(fault(PlanCode::Address, at));
    };
    let Some(prefix) = Prefix::parse(given.prefix) else {
        return Err(fault(PlanCode::Prefix, at));
    };
    let Some(cost) = fields::cost_of(given.cost) else {
        return Err(fault(PlanCode::Cost, at));
    };
    let Some(link) = link_if(draft, given.link) else {
        return Err(fault(PlanCode::UnknownLink, at));
    };
    let own = OwnPrefix {
        router: r - 1,
        cost,
        kept: given.kept,
        link,
        via,
    };
    add_place(draft, at, prefix, Seat::Own(own))
}

fn add_owns(draft: &mut Draft, r: usize, items: &[Value]) -> Result<(), ReadError>
    requires { 1 ≤ r }
    ensures { Steps (sketch draft.old) (sketch draft.new) result
        (steps (own_step r) 1 (map view items.now)) }
{
    for (j, item) in items.iter().enumerate() {
        add_own(draft, r, j + 1, item)?;
    }
    Ok(())
}

#[tactic(auto, unfolding(crate::specs::Draft::router_step))]
fn add_router(draft: &mut Draft, alloc: Global, r: usize, item: &Value) -> Result<(), ReadError>
    requires { 1 ≤ r }
    ensures { Steps (sketch draft.old) (sketch draft.new) result (router_step r (view item.now)) }
{
    let at = At::Router(r);
    let Some(table) = item.as_table() else {
        return Err(fault(PlanCode::Key, at));
    };
    let Some((name, interfaces, owns)) = fields::fields_of_router(table) else {
        return Err(fault(PlanCode::Key, at));
    };
    if !is_name(name.as_bytes()) {
        return Err(fault(PlanCode::Name, at));
    }
    if is_name_taken(name, draft.routers.as_slice()) {
        return Err(fault(PlanCode::DuplicateName, at));
    }
    draft.routers.push(String::from_str(alloc, name)?)?;
    add_interfaces(draft, alloc, r, interfaces)?;
    add_owns(draft, r, owns)
}

pub(crate) fn add_links(draft: &mut Draft, alloc: Global, items: &[Value]) -> Result<(), ReadError>
    ensures { Steps (sketch draft.old) (sketch draft.new) result
        (steps link_step 1 (map view items.now)) }
{
    for (i, item) in items.iter().enumerate() {
        add_link(draft, alloc, i + 1, item)?;
    }
    Ok(())
}

pub(crate) fn add_routers(
    draft: &mut Draft,
    alloc: Global,
    items: &[Value],
) -> Result<(), ReadError>
    ensures { Steps (sketch draft.old) (sketch draft.new) result
        (steps router_step 1 (map view items.now)) }
{
    for (i, item) in items.iter().enumerate() {
        add_router(draft, alloc, i + 1, item)?;
    }
    Ok(())
}

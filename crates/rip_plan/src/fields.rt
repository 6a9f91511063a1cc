//! The tables of a plan's document, by their keys.

ghost use Rattle.std.specs.Prelude.{map, codes, ◌≡◌, Some, None, option_map, option_and_then, option_copied, IsTrue, is_some};
ghost use Rattle.toml.specs.Data.{as_str, as_integer, get_member};
ghost use Rattle.toml.specs.View.{view, table_view, array_view};
ghost use Rattle.rip_plan.specs.Fields as spec;
ghost use Rattle.rip_plan.specs.Given.{seen_interface, seen_link, seen_own};
ghost use Rattle.rip_plan.specs.Fields.{flag_if, integer_if, interface_fields, is_version, items_at, items_if, link_fields, own_fields, root_fields, router_fields, texts_of};
ghost use Rattle.rip_plan.specs.Names.{is_one_of};

use crate::limits::{DEFAULT_COST, DEFAULT_KEPT, DEFAULT_POISON, MOST_COST};
use toml::{Table, Value};

/// What a table holds at a key.
fn member<'a>(table: &'a Table, key: &str) -> Option<&'a Value>
    ensures { option_map (λ v. view v.now) result ≡ get_member key.now (table_view table.now) }
{
    table.get(key)
}

/// The text at a key.
fn text_at<'a>(table: &'a Table, key: &str) -> Option<&'a str>
    ensures { option_copied result
        ≡ option_and_then as_str (get_member key.now (table_view table.now)) }
{
    match member(table, key) {
        Some(value) => value.as_str(),
        None => None,
    }
}

/// The items of the list at a key.
#[tactic(auto, using(crate::proofs::KeyLemmas::list_of_items))]
fn list_at<'a>(table: &'a Table, key: &str) -> Option<&'a [Value]>
    ensures { option_map (λ v. map view v.now) result ≡ items_at key.now (table_view table.now) }
{
    match member(table, key) {
        Some(value) => match value.as_array() {
            Some(array) => Some(array.as_slice()),
            None => None,
        },
        None => None,
    }
}

/// The items of the list at a key, and none where nothing is there; `None` where it is no list.
#[tactic(auto, using(crate::proofs::KeyLemmas::list_of_items))]
fn list_if<'a>(table: &'a Table, key: &str) -> Option<&'a [Value]>
    ensures { option_map (λ v. map view v.now) result
        ≡ items_if (get_member key.now (table_view table.now)) }
{
    match member(table, key) {
        None => Some(&[]),
        Some(value) => match value.as_array() {
            Some(array) => Some(array.as_slice()),
            None => None,
        },
    }
}

/// The items of the list at a key, if anything is there; `None` where it is of another kind.
#[tactic(auto, using(crate::proofs::KeyLemmas::list_of_items))]
fn list_given<'a>(table: &'a Table, key: &str) -> Option<Option<&'a [Value]>>
    ensures { option_map (option_map (λ v. map view v.now)) result
        ≡ spec.list_given (get_member key.now (table_view table.now)) }
{
    match member(table, key) {
        None => Some(None),
        Some(value) => match value.as_array() {
            Some(array) => Some(Some(array.as_slice())),
            None => None,
        },
    }
}

/// The integer at a key, if anything is there; `None` where it is of another kind.
fn integer_at(table: &Table, key: &str) -> Option<Option<i64>>
    ensures { result ≡ integer_if (get_member key.now (table_view table.now)) }
{
    match member(table, key) {
        None => Some(None),
        Some(value) => match value.as_integer() {
            Some(number) => Some(Some(number)),
            None => None,
        },
    }
}

/// The flag at a key, if anything is there; `None` where it is of another kind.
fn flag_at(table: &Table, key: &str) -> Option<Option<bool>>
    ensures { result ≡ flag_if (get_member key.now (table_view table.now)) }
{
    match member(table, key) {
        None => Some(None),
        Some(value) => match value.as_bool() {
            Some(flag) => Some(Some(flag)),
            None => None,
        },
    }
}

/// Whether a key is one of these.
fn is_key_of(key: &str, known: &[&str]) -> bool
    ensures { result ≡ is_one_of key.now (map (λ k. k.now) known.now) }
{
    known.iter().any(|other| *other == key)
}

/// Whether every key of a table is one of these.
fn has_only(table: &Table, known: &[&str]) -> bool
    ensures { result ≡ spec.has_only (map (λ k. k.now) known.now) (table_view table.now) }
{
    table.keys().all(|key| is_key_of(key.as_str(), known))
}

/// What a link's table gives.
#[derive(Clone, Copy)]
pub(crate) struct LinkFields<'a> {
    pub name: &'a str,
    pub prefixes: &'a [Value],
    pub only: Option<&'a [Value]>,
}

/// The name and the prefixes of a link's table, and its list, if it has one.
#[tactic(auto, unfolding(crate::specs::Fields::link_fields))]
pub(crate) fn fields_of_link<'a>(table: &'a Table) -> Option<LinkFields<'a>>
    ensures { option_map seen_link result ≡ link_fields (table_view table.now) }
{
    if !has_only(table, &["name", "prefixes", "only"]) {
        return None;
    }
    let name = text_at(table, "name")?;
    let prefixes = list_at(table, "prefixes")?;
    let only = list_given(table, "only")?;
    Some(LinkFields {
        name,
        prefixes,
        only,
    })
}

/// The items of a list that are all texts.
fn all_texts<'a>(items: &'a [Value]) -> Option<&'a [Value]>
    ensures { option_map (λ v. map view v.now) result ≡ texts_of (map view items.now) }
{
    if items.iter().all(|item| item.as_str().is_some()) {
        Some(items)
    } else {
        None
    }
}

/// What an interface's table gives.
#[derive(Clone, Copy)]
pub(crate) struct InterfaceFields<'a> {
    pub link: &'a str,
    pub address: &'a str,
    pub cost: Option<i64>,
    pub direct: Option<i64>,
    pub also: &'a [Value],
    pub poison: Option<bool>,
}

/// The link, the address, the cost, the direct metric and the further addresses of an interface's
/// table, and whether it poisons.
#[tactic(auto, unfolding(crate::specs::Fields::interface_fields))]
pub(crate) fn fields_of_interface<'a>(table: &'a Table) -> Option<InterfaceFields<'a>>
    ensures { option_map seen_interface result ≡ interface_fields (table_view table.now) }
{
    if !has_only(
        table,
        &["link", "address", "cost", "direct", "also", "poison"],
    ) {
        return None;
    }
    let link = text_at(table, "link")?;
    let address = text_at(table, "address")?;
    let cost = integer_at(table, "cost")?;
    let direct = integer_at(table, "direct")?;
    let also = all_texts(list_if(table, "also")?)?;
    let poison = flag_at(table, "poison")?;
    Some(InterfaceFields {
        link,
        address,
        cost,
        direct,
        also,
        poison,
    })
}

/// The cost of an interface or an own prefix, the default where none is given.
pub(crate) fn cost_of(given: Option<i64>) -> Option<u8>
    ensures { result ≡ spec.cost_of given }
{
    match given {
        None => Some(DEFAULT_COST),
        Some(number) => {
            if 1 <= number && number <= i64::from(MOST_COST) {
                Some(number as u8)
            } else {
                None
            }
        }
    }
}

/// The direct metric of an interface of this cost, the cost where none is given.
pub(crate) fn direct_of(cost: u8, given: Option<i64>) -> Option<u8>
    ensures { result ≡ spec.direct_of cost given }
{
    match given {
        None => Some(cost),
        Some(number) => {
            if 1 <= number && number <= i64::from(cost) {
                Some(number as u8)
            } else {
                None
            }
        }
    }
}

/// The text at a key, if anything is there; `None` where it is of another kind.
fn text_if<'a>(table: &'a Table, key: &str) -> Option<Option<&'a str>>
    ensures { option_map option_copied result
        ≡ spec.text_if (get_member key.now (table_view table.now)) }
{
    match member(table, key) {
        None => Some(None),
        Some(value) => match value.as_str() {
            Some(text) => Some(Some(text)),
            None => None,
        },
    }
}

/// What an own prefix's table gives.
#[derive(Clone, Copy)]
pub(crate) struct OwnFields<'a> {
    pub prefix: &'a str,
    pub cost: Option<i64>,
    pub kept: bool,
    pub link: Option<&'a str>,
    pub via: Option<&'a str>,
}

/// The prefix, the cost, whether it is kept, the link and the gateway of an own prefix's table.
#[tactic(auto, unfolding(crate::specs::Fields::own_fields))]
pub(crate) fn fields_of_own<'a>(table: &'a Table) -> Option<OwnFields<'a>>
    ensures { option_map seen_own result ≡ own_fields (table_view table.now) }
{
    if !has_only(table, &["prefix", "cost", "kept", "link", "via"]) {
        return None;
    }
    let prefix = text_at(table, "prefix")?;
    let cost = integer_at(table, "cost")?;
    let kept = flag_at(table, "kept")?.unwrap_or(DEFAULT_KEPT);
    let link = text_if(table, "link")?;
    let via = text_if(table, "via")?;
    Some(OwnFields {
        prefix,
        cost,
        kept,
        link,
        via,
    })
}

/// The name, the interfaces and the own prefixes of a router's table.
#[tactic(auto, unfolding(crate::specs::Fields::router_fields))]
pub(crate) fn fields_of_router<'a>(table: &'a Table) -> Option<(&'a str, &'a [Value], &'a [Value])>
    ensures { option_map (λ f. (f.0.now, map view f.1.now, map view f.2.now)) result
        ≡ router_fields (table_view table.now) }
{
    if !has_only(table, &["name", "interface", "own"]) {
        return None;
    }
    let name = text_at(table, "name")?;
    let interfaces = list_at(table, "interface")?;
    let owns = list_if(table, "own")?;
    Some((name, interfaces, owns))
}

/// The links and the routers of the document, at least one of each, and whether interfaces poison
/// that do not say it.
#[tactic(auto, unfolding(crate::specs::Fields::root_fields))]
pub(crate) fn fields_of_root<'a>(table: &'a Table) -> Option<(&'a [Value], &'a [Value], bool)>
    ensures { option_map (λ f. (map view f.0.now, map view f.1.now, f.2)) result
        ≡ root_fields (table_view table.now) }
{
    if !has_only(table, &["version", "link", "router", "poison"]) {
        return None;
    }
    let links = list_at(table, "link")?;
    if links.is_empty() {
        return None;
    }
    let routers = list_at(table, "router")?;
    if routers.is_empty() {
        return None;
    }
    let poison = flag_at(table, "poison")?.unwrap_or(DEFAULT_POISON);
    Some((links, routers, poison))
}

/// Whether the document's version is 1.
pub(crate) fn is_version_one(table: &Table) -> bool
    ensures { result ≡ is_version (get_member (codes "version") (table_view table.now)) }
{
    match member(table, "version") {
        Some(Value::Integer(1)) => true,
        _ => false,
    }
}

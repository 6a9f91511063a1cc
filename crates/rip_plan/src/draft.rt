//! What was read of a plan so far, and the steps of the first pass over its text.

ghost use Rattle.std.specs.Prelude.{◌≡◌, ◌≤◌, ℕ, [], List, filter, length, map, nat_eq, string_bytes};
ghost use Rattle.std.specs.List.{sum_by};
ghost use Rattle.std.specs.HashMap.{get, get_by_text};
ghost use Rattle.std.specs.Option.{option_map_or};
ghost use Rattle.rip_plan.specs.declared.limits.TheConstants.{MOST_ALSO};
ghost use Rattle.rip_plan.specs.Names.{number_of_name};
ghost use Rattle.rip_plan.specs.Seats.{is_on};

use crate::error::At;
use crate::parts::{Interface, Listed, Seat};
use rip_wire::{Address, Prefix};
use std::collections::HashMap;

/// An interface, and where it stands in the text.
#[derive(Clone, Copy, Debug)]
pub(crate) struct DraftInterface {
    pub interface: Interface,
    pub at: At,
}

/// A place of a prefix, and where it stands in the text.
#[derive(Clone, Copy, Debug)]
pub(crate) struct DraftPlace {
    pub prefix: Prefix,
    pub seat: Seat,
    pub at: At,
}

/// What was read of a plan so far, and whether interfaces poison that do not say it. Beside the
/// interfaces stand the further addresses of each and how many these are; beside the links whether
/// each has a list, the numbers of their names and, by link, the prefixes on them.
#[derive(Drop)]
pub(crate) struct Draft {
    pub links: Vec<String>,
    pub lists: Vec<bool>,
    pub listed: Vec<Listed>,
    pub routers: Vec<String>,
    pub poison: bool,
    pub interfaces: Vec<DraftInterface>,
    pub also: Vec<Vec<Address>>,
    pub also_count: usize,
    pub places: Vec<DraftPlace>,
    pub numbers: HashMap<String, usize>,
    pub blocks: HashMap<usize, Vec<Prefix>>,
    ghost paired: { length also.items ≡ length interfaces.items },
    ghost counted: { also_count ≡ sum_by length (map (λ w. w.items) also.items) },
    ghost few: { also_count ≤ MOST_ALSO },
    ghost numbered: { (name : List ℕ) → get_by_text numbers name
        ≡ number_of_name name (map string_bytes links.items) },
    ghost blocked: { (l : ℕ) → option_map_or (λ v. v.items) (get nat_eq blocks l) []
        ≡ map (λ p. p.prefix) (filter (λ p. is_on l p.seat) places.items) },
}

mod steps;

pub(crate) use steps::{add_links, add_routers};

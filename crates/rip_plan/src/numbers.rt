//! The numbers of prefixes.

ghost use Rattle.std.specs.Prelude.{◌≡◌, ◌≤◌, [], length, map, IfOk};
ghost use Rattle.std.specs.HashMap.{get};
ghost use Rattle.rip_wire.specs.Prefix.{Block};
ghost use Rattle.rip_plan.specs.Passes.{same_prefix};
ghost use Rattle.rip_plan.specs.Network.{number_of_prefix, numbered};

use crate::draft::{DraftInterface, DraftPlace};
use crate::parts::{Interface, Place};
use rip_wire::Prefix;
use std::alloc::{AllocError, Global};
use std::collections::HashMap;

/// The interfaces, without where they stand in the text.
pub(crate) fn interfaces_of(
    alloc: Global,
    interfaces: &[DraftInterface],
) -> Result<Vec<Interface>, AllocError>
    ensures { IfOk result (λ v. v.items ≡ map (λ i. i.interface) interfaces.now) }
{
    interfaces.iter().map(|i| i.interface).collect(alloc)
}

/// The prefixes, each once in the order of its first place, their numbers, and the places with
/// them.
pub(crate) fn with_numbers(
    alloc: Global,
    places: &[DraftPlace],
) -> Result<(Vec<Prefix>, HashMap<Prefix, usize>, Vec<Place>), AllocError>
    ensures parts { IfOk result (λ r. (r.0.items, r.2.items) ≡ numbered [] [] places.now) }
    ensures numbers { IfOk result (λ r. (p : Block) →
        get same_prefix r.1 p ≡ number_of_prefix p r.0.items) }
    ensures few { IfOk result (λ r. length r.0.items ≤ length places.now) }
{
    let mut prefixes = Vec::new(alloc);
    let mut numbers = HashMap::new(alloc);
    let mut numbered = Vec::new(alloc);
    for place in places {
        let prefix = match numbers.get(&place.prefix) {
            Some(k) => *k,
            None => {
                let k = prefixes.len();
                prefixes.push(place.prefix)?;
                numbers.insert(place.prefix, k)?;
                k
            }
        };
        numbered.push(Place {
            prefix,
            seat: place.seat,
        })?;
    }
    Ok((prefixes, numbers, numbered))
}

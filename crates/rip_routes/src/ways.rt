//! The ways that were told.

ghost use Rattle.std.specs.Prelude.{◌≡◌, false, not, IfOk, OnErr, OnOk};
ghost use Rattle.rip_routes.specs.Ways.{IsFreshWay, IsNewWay, IsNoted, IsWithWay, has_way};

use crate::next_hop::NextHop;
use crate::told::{Told, Way};
use std::alloc::AllocError;
use std::collections::HashSet;
use std::hash::BuildHasher;

/// Each way that was told by a next hop: a router, the number of a prefix, and the next hop.
pub(crate) type Ways<S> = HashSet<(usize, usize, NextHop), S>;

/// Notes a way by a next hop, and answers whether it is new.
fn note_hop<S: BuildHasher>(
    ways: &mut Ways<S>,
    router: usize,
    k: usize,
    hop: &NextHop,
) -> Result<bool, AllocError>
    ensures is_new { IfOk result (λ is_new.
        is_new ≡ not (has_way (router, k, hop.now) ways.old.keys)) }
    ensures noted { OnOk result (IsWithWay ways.old.keys (router, k, hop.now) ways.new.keys) }
    ensures fresh { OnErr result (has_way (router, k, hop.now) ways.old.keys ≡ false) }
    ensures err { OnErr result (ways.new.keys ≡ ways.old.keys) }
{
    Ok(ways.insert((router, k, *hop))?)
}

/// Notes the way that a line tells of the prefix of a number, and answers whether it is a next hop
/// that is new.
pub(crate) fn note<S: BuildHasher>(
    ways: &mut Ways<S>,
    told: &Told,
    k: usize,
) -> Result<bool, AllocError>
    ensures is_new { IfOk result (IsNewWay ways.old.keys told.now.router k told.now.way) }
    ensures noted { OnOk result
        (IsNoted ways.old.keys told.now.router k told.now.way ways.new.keys) }
    ensures fresh { OnErr result (IsFreshWay ways.old.keys told.now.router k told.now.way) }
    ensures err { OnErr result (ways.new.keys ≡ ways.old.keys) }
{
    let way = told.way;
    match way {
        Some(Way::To(hop)) => note_hop(ways, told.router, k, &hop),
        _ => Ok(false),
    }
}

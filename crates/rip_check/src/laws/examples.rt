//! Worked examples: what the definitions say of small networks. Functions that do nothing, whose
//! contracts are facts, like the laws.

ghost use Rattle.std.specs.Prelude.{[], ◌∷◌, None, Some};
ghost use Rattle.rip_check.specs.Examples as net;
ghost use Rattle.rip_check.specs.Examples.{IsSettledNetwork, IsUnsettledNetwork, chain, chain_shown, chain_tables, down_from, hub_shown, hub_tables, keeper_shown, keeper_tables, leaf_shown, leaf_tables, nowhere_shown, octets, phantom_shown, phantom_tables, route, second_shown, second_tables, slope_shown, slope_tables, triangle_tables, two_exits_shown, two_exits_tables, two_holders_told, with_leaf};
ghost use Rattle.rip_check.specs.Networks.{network_at};
ghost use Rattle.rip_check.specs.OwnSettled.{IsAddressGiven};
ghost use Rattle.rip_check.specs.OwnVerdicts.{IsLackingAt};
ghost use Rattle.rip_check.specs.Paths.{IsLeast, IsPath};
ghost use Rattle.rip_check.specs.Settled.{Holds};
ghost use Rattle.rip_check.specs.Tables.{FitsShown, Offers};
ghost use Rattle.rip_check.specs.Walks.{IsWalk};
ghost use Rattle.rip_check.specs.declared.way.Way.TheVariants.{Here, Over, Unreachable};

/// A prefix that nobody has, which each router believes to be behind the next one at metric 2: it
/// should be 16 everywhere. What a router is offered is 3.
pub fn phantom_prefix()
    ensures unsettled { IsUnsettledNetwork net.triangle phantom_shown phantom_tables }
    ensures least { IsLeast net.triangle 3 0 16 }
    ensures nowhere { IsSettledNetwork net.triangle nowhere_shown triangle_tables }
    ensures offered { Holds net.triangle phantom_shown 0 3 (route 3 (Over 0)) }
{
    rip_wire::laws::names();
}

/// A prefix at two places: each router has it from the nearer one.
pub fn two_exits()
    ensures { IsSettledNetwork net.two_exits two_exits_shown two_exits_tables }
{
    rip_wire::laws::names();
}

/// A router that keeps a default route for which it is offered less: it is settled with its own,
/// and not with the better one.
pub fn keeper()
    ensures settled { IsSettledNetwork net.keeper (keeper_shown 5 5)
        (keeper_tables (route 5 Here)) }
    ensures unsettled { IsUnsettledNetwork net.keeper (keeper_shown 2 16)
        (keeper_tables (route 2 (Over 2))) }
{
    rip_wire::laws::names();
}

/// A prefix that one router alone has on a wire: whether it is silent of it there or shows 16, its
/// neighbour on the wire goes round.
pub fn second_prefix()
    ensures silent { IsSettledNetwork net.second_prefix (second_shown None) second_tables }
    ensures poisoned { IsSettledNetwork net.second_prefix (second_shown (Some 16)) second_tables }
{
    rip_wire::laws::names();
}

/// A leaf, which can only show 16 of what it learned: its route is what it is offered, and no
/// other.
pub fn leaf()
    ensures settled { IsSettledNetwork with_leaf leaf_shown leaf_tables }
    ensures hidden { FitsShown with_leaf leaf_shown 3 0 (route 2 (Over 1)) }
    ensures reachable { FitsShown with_leaf leaf_shown 3 0 (route 16 Unreachable) → ⊥ }
{
    rip_wire::laws::names();
}

/// A link that costs its two routers differently: the cost of the interface on which a datagram
/// comes in counts.
pub fn slope()
    ensures settled { IsSettledNetwork net.slope (slope_shown 6) (slope_tables 6) }
    ensures unsettled { IsUnsettledNetwork net.slope (slope_shown 2) (slope_tables 2) }
    ensures path { IsPath net.slope 1 0 (record { link = 1; to = 1 } ∷ []) 6 }
{
    rip_wire::laws::names();
}

/// Routers in a row, the first of which has a prefix: the fifteenth has metric 15, the sixteenth
/// 16.
pub fn chains()
    ensures fifteen { IsSettledNetwork (chain 15) (chain_shown 15) chain_tables }
    ensures metric_15 { IsLeast (chain 15) 0 14 15 }
    ensures sixteen { IsSettledNetwork (chain 16) (chain_shown 16) chain_tables }
    ensures metric_16 { IsLeast (chain 16) 0 15 16 }
    // A packet of the fifteenth for that prefix goes over all fifteen.
    ensures walk { IsWalk (chain 15) (chain_shown 15) chain_tables 0 (down_from 14) }
{
    rip_wire::laws::names();
}

/// A hub that exchanges with each branch the default route and the branch's own prefix alone: it is
/// settled, and the branches do not reach each other's prefixes.
pub fn hub()
    ensures settled { IsSettledNetwork net.hub hub_shown hub_tables }
    ensures apart { IsLeast (network_at net.hub net.hub.prefixes 4) 4 1 16 }
{
    rip_wire::laws::names();
}

/// A next hop by an address that two neighbours have, each on another link. The second offers the
/// metric, but a packet may go to the first as well, which does not. So the address does not give
/// the metric, and the first is at fault.
pub fn two_holders()
    ensures offered { Offers net.two_holders two_holders_told 0 1 2 0 2 }
    ensures lacks { IsLackingAt net.two_holders two_holders_told 0 0 2 (octets 10 5 0 1) 0 0 1 }
    ensures refused { ¬ IsAddressGiven net.two_holders two_holders_told 0 0 2 (octets 10 5 0 1) }
{}

//! Laws of the routers' own tables.

ghost use Rattle.std.specs.Prelude.{◌↔◌};
ghost use Rattle.rip_plan.specs.Network.{Network};
ghost use Rattle.rip_plan.specs.Relations.{IsLawful};
ghost use Rattle.rip_routes.specs.OwnTables.{AreOwnTables, OwnTables};
ghost use Rattle.rip_table.specs.State.{State};
ghost use Rattle.rip_check.specs.OwnLaws.{AreExpectedTables, AreRightAlike, HaveOneEquation, HoldAlike, NameAlike, RoundTrip};
ghost use Rattle.rip_check.specs.OwnSettled.{AreRightTables, EachOwnHolds, OwnAllRight, OwnHoldsAll};
ghost use Rattle.rip_check.specs.OwnTells.{IsToldBy};
ghost use Rattle.rip_check.specs.OwnWalks.{OwnPacketsArrive};

/// The equations of the routers' own tables have one solution, the least paths: every place holds
/// exactly where the tables are right, although a router is mute where it sends over a link.
pub fn own_settled_is_right()
    ensures { (n : Network) (told : State) (t : OwnTables) → IsLawful n → AreOwnTables t →
        IsToldBy n t told → OwnHoldsAll n told t ↔ OwnAllRight n t }
{}

/// A packet that follows the routers' own tables, over any choice of their ways, comes nearer with
/// each router, and arrives after at most fifteen.
pub fn own_walks_arrive()
    ensures { (n : Network) (told : State) (t : OwnTables) → IsLawful n → AreOwnTables t →
        IsToldBy n t told → OwnHoldsAll n told t → OwnPacketsArrive n told t }
{}

/// Routes that a log shows, told as the routers' own tables, are judged as the log is: each place
/// has the same equation, the same places hold, the same is wrong at those that do not, and the
/// tables are right exactly where the log shows right ones. What a router holds back of its own
/// route on a link of the prefix is no better for who hears it, since all on the link have the
/// prefix themselves.
pub fn own_tables_agree()
    ensures equation { (k : RoundTrip) → HaveOneEquation k }
    ensures holds { (k : RoundTrip) → HoldAlike k }
    ensures names { (k : RoundTrip) → NameAlike k }
    ensures right { (k : RoundTrip) → AreRightAlike k }
{}

/// Expected tables settle: where each router tells, of the plan's prefixes, the least metrics and
/// some of the ways of expected routes, the tables are right, and every place holds.
pub fn expected_tables_settle()
    ensures right { (n : Network) (t : OwnTables) → AreExpectedTables n t → AreRightTables n t }
    ensures settle { (n : Network) (told : State) (t : OwnTables) → IsLawful n → AreOwnTables t →
        IsToldBy n t told → AreExpectedTables n t → EachOwnHolds n told t }
{}

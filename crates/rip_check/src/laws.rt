//! Laws of settled tables: functions that do nothing, whose contracts hold of every plan and every
//! table.

ghost use Rattle.std.specs.Prelude.{◌≡◌, ℕ, ◌↔◌, ◌<◌, ◌≤◌, List, Option, Some, length};
ghost use Rattle.rip_plan.specs.Network.{Network};
ghost use Rattle.rip_log.specs.Logs.{Log};
ghost use Rattle.rip_wire.specs.Prefix.{Block};
ghost use Rattle.rip_plan.specs.PrefixNetworks.{IsNetwork};
ghost use Rattle.rip_plan.specs.Relations.{Exchanges, HasList, HasTwoInterfaces, IsAttached, IsInterface, IsLawful, IsPlain};
ghost use Rattle.rip_table.specs.LogJoin.{IsOutcome};
ghost use Rattle.rip_table.specs.State.{State, new_state};
ghost use Rattle.rip_table.specs.declared.error.CollectError.{CollectError};
ghost use Rattle.rip_check.specs.Expected.{IsExpected};
ghost use Rattle.rip_check.specs.Failures.{left_to, network_after};
ghost use Rattle.rip_check.specs.Firsts.{CanBeRead, IsReadable, IsReason, ShowsTwoWays};
ghost use Rattle.rip_check.specs.Laws.{Case, EachIsExpected, EachPlaceHolds, GiversAreNear, HasRightTables, IsSettled, MetricsAreReached, NoPathIsCheaper, OneIsShown, OneRouteFits, PoisonHidesNothing, ShowsRightTables, SilenceIsShared, WalksFall};
ghost use Rattle.rip_check.specs.Metrics.{IsInRange, metric_at};
ghost use Rattle.rip_check.specs.Networks.{block_at, network_at};
ghost use Rattle.rip_check.specs.Paths.{HasPathOver, Hop, IsLeast, IsPath, IsPlainPath};
ghost use Rattle.rip_check.specs.Settled.{AllRight, IsPlainRight, IsRight};
ghost use Rattle.rip_check.specs.Tables.{FitsShown, FitsThere, IsHeard, IsSilent, MayHoldBack, Offers, Route, Shows, Tables};
ghost use Rattle.rip_check.specs.Told.{AreAlike, EachPoisons, HasLessPoison, TellsMetric, poisons, told, told_where};
ghost use Rattle.rip_check.specs.Verdicts.{IsVerdict};
ghost use Rattle.rip_check.specs.Walks.{EachCanGoOn, EachEndsThere, EachIsShort};
ghost use Rattle.rip_check.specs.declared.failures.Failure.{Failure};
ghost use Rattle.rip_check.specs.declared.verdict.Unclear.TheVariants.{TwoWays};
ghost use Rattle.rip_check.specs.declared.verdict.Verdict.{Verdict};
ghost use Rattle.rip_check.specs.declared.way.Way.{Way};

pub mod examples;
pub mod own;

/// Poison hides no better route: where every place holds, no neighbour is nearer to a prefix than a
/// router by more than the link costs, though what it shows there may be 16 (RFC 2453, section
/// 3.4.3).
pub fn poison_hides_nothing()
    ensures { (k : Case) → IsSettled k → PoisonHidesNothing k }
{}

/// What a neighbour may hide behind a 16 is no better for the router: where the neighbour goes over
/// their link, a router gives it its metric there, and each that does is the router itself or
/// offers it less; where the neighbour has the prefix itself, on that link, so has the router, at
/// no more than the link costs it.
pub fn poisoned_is_no_better()
    ensures over { (k : Case) → IsSettled k → GiversAreNear k }
    ensures here { (k : Case) → SilenceIsShared k }
{}

/// Where every equation holds, the metrics are the least costs of paths that begin as the routes
/// say.
pub fn equations_give_least_paths()
    ensures reached { (k : Case) → IsSettled k → MetricsAreReached k }
    ensures least { (k : Case) → IsSettled k → NoPathIsCheaper k }
{}

/// Right tables satisfy every equation, although routes are poisoned.
pub fn least_paths_satisfy_equations()
    ensures { (k : Case) → HasRightTables k → IsSettled k }
{}

/// The equations have one solution, the least paths: for a log that shows tables every place holds
/// exactly where the tables are right.
pub fn settled_is_right()
    ensures { (k : Case) → IsSettled k ↔ HasRightTables k }
{}

/// No two routes fit what a router shows, those of leaves included, so that a log never shows two
/// sets of tables.
pub fn one_set_of_tables()
    ensures route { (n : Network) (shown : State) → IsLawful n → OneRouteFits n shown }
    ensures tables { (n : Network) (shown : State) → IsLawful n → OneIsShown n shown }
{}

/// Every interface was heard and each place has a route that fits and holds exactly where the log
/// shows right tables.
pub fn settled_places()
    ensures { (n : Network) (shown : State) → IsLawful n →
        EachPlaceHolds n shown ↔ ShowsRightTables n shown }
{}

/// A packet that follows the tables comes nearer with each router, and arrives after at most
/// fifteen: one that has not arrived has a next router, and where it arrives the router has the
/// prefix.
pub fn walks_arrive()
    ensures fall { (k : Case) → WalksFall k }
    ensures end { (k : Case) → EachIsShort k.net k.shown k.tables }
    ensures go_on { (k : Case) → IsSettled k → EachCanGoOn k.net k.shown k.tables }
    ensures there { (k : Case) → IsSettled k → EachEndsThere k.net k.shown k.tables }
{}

/// Where a log shows tables, they are right exactly where each planned prefix's route is an
/// expected one and each other prefix is unreachable at every router.
pub fn expected_routes()
    ensures { (k : Case) → HasRightTables k ↔ EachIsExpected k }
{}

/// No least path of a prefix begins over a link that carries the prefix, since the router is nearer
/// itself, or to which the router has it attached, since it keeps it then.
pub fn no_way_back()
    ensures { (n : Network) (r p l m : ℕ) → IsNetwork n → IsLeast n p r m →
        HasPathOver n p r l m → ¬ MayHoldBack n r p l }
{}

/// At each place some way is right for the least metric.
pub fn some_route()
    ensures { (n : Network) (r p m : ℕ) → IsNetwork n → IsLeast n p r m →
        (way : Way) × IsExpected n r p (record { metric = m; way = way }) }
{}

/// Where the plan says nothing beside what RFC 2453 does, a path goes over any neighbours, and its
/// last router has the prefix at the cost of its interface: right routes are those of the least
/// sums of costs.
pub fn plain_paths()
    ensures paths { (n : Network) (p r : ℕ) (hops : List Hop) (v : ℕ) → IsPlain n →
        IsPath n p r hops v ↔ IsPlainPath n p r hops v }
    ensures routes { (n : Network) (r p : ℕ) (route : Route) → IsPlain n →
        IsRight n r p route ↔ IsPlainRight n r p route }
{}

/// In a plan in which no prefix is attached to a link no metric is smaller after a failure, since
/// each path after it is one before it. Where one is attached, its router may keep it no longer,
/// and so go a shorter way.
pub fn failures_bring_nothing_nearer()
    ensures whole { (n : Network) (f : Failure) (p r v w : ℕ) →
        ((s q l : ℕ) → IsAttached n s q l → ⊥) → IsLeast n p r v →
        IsLeast (network_after n f) p r w → v ≤ w }
    ensures prefix { (n : Network) (f : Failure) (p r v w : ℕ) → IsLawful n →
        ((s q l : ℕ) → IsAttached n s q l → ⊥) → r < length n.routers →
        IsLeast (network_at n n.prefixes p) p r v → IsLeast (left_to n (Some f) p) p r w → v ≤ w }
{}

/// In a plan in which no link has a list the network of each prefix is the whole one, so that what
/// fits, what can be read, what holds and what is right is asked of that.
pub fn plans_without_lists()
    ensures network { (n : Network) (prefixes : List Block) (p : ℕ) →
        ((l : ℕ) → HasList n l → ⊥) → network_at n prefixes p ≡ n }
    ensures fits { (n : Network) (shown : State) (r p : ℕ) (t : Route) →
        ((l : ℕ) → HasList n l → ⊥) → FitsThere n shown r p t ↔ FitsShown n shown r p t }
    ensures read { (n : Network) (shown : State) (r p : ℕ) →
        ((l : ℕ) → HasList n l → ⊥) → CanBeRead n shown r p ↔ IsReadable n shown r p }
{}

/// Where right tables are shown, no router of the plan shows a metric below 16 on a link that does
/// not exchange the prefix.
pub fn lists_are_kept()
    ensures { (n : Network) (s : State) (i r l c p : ℕ) → ShowsRightTables n (told n s) →
        IsInterface n i r l c → r < length n.routers → p < length s.prefixes →
        (Exchanges n l (block_at s.prefixes p) → ⊥) → IsSilent (metric_at s i p) }
{}

/// What an interface tells is the metric that it shows, or 16, where it was heard, shows nothing and
/// does not poison.
pub fn told_metrics()
    ensures { (n : Network) (s : State) (i r l c p m : ℕ) → IsInterface n i r l c →
        p < length s.prefixes → (metric_at (told n s) i p ≡ Some m) ↔ TellsMetric n s i p m }
{}

/// In a plan in which each interface poisons, what is told is what is shown.
pub fn told_is_shown()
    ensures { (n : Network) (s : State) → EachPoisons n → told n s ≡ s }
{}

/// Where an interface was not heard, no verdict asks what it tells: it is named itself. So each
/// verdict is the same as if silence were 16 of each interface that does not poison, heard or not.
pub fn unheard_silence()
    ensures heard { (n : Network) (s : State) → IsHeard n s → told n s ≡ told_where (poisons n) s }
    ensures verdict { (n : Network) (s : State) (verdict : Verdict) →
        IsVerdict n (told n s) verdict ↔ IsVerdict n (told_where (poisons n) s) verdict }
{}

/// A route below 16 of a router with two interfaces is shown: one of them shows its metric.
pub fn shown_metrics()
    ensures { (n : Network) (s : State) (r p : ℕ) (route : Route) → IsNetwork n →
        HasTwoInterfaces n r → p < length s.prefixes → FitsShown n (told n s) r p route →
        route.metric < 16 →
        (i l c : ℕ) × IsInterface n i r l c × (metric_at s i p ≡ Some route.metric) }
{}

/// Which interfaces poison says nothing of the table that a log makes, nor of what refuses a log.
pub fn tables_without_poison()
    ensures new { (n m : Network) → AreAlike n m → new_state n ≡ new_state m }
    ensures outcome { (n m : Network) (old s : State) (log : Log)
        (refusal : Option CollectError) → AreAlike n m →
        IsOutcome n old log s refusal → IsOutcome m old log s refusal }
{}

/// Less poison takes nothing away: where a table shows right routes by a plan, it shows the same
/// ones, as right, by the plan with less poison. So a plan that says less poison keeps `Settled`.
pub fn less_poison()
    ensures shows { (n m : Network) (s : State) (T : Tables) → IsLawful n → HasLessPoison n m →
        Shows n (told n s) T → AllRight n s.prefixes T → Shows m (told m s) T }
    ensures right { (n m : Network) (prefixes : List Block) (T : Tables) → HasLessPoison n m →
        AllRight n prefixes T → AllRight m prefixes T }
    ensures settled { (n m : Network) (s : State) → IsLawful n → HasLessPoison n m →
        ShowsRightTables n (told n s) → ShowsRightTables m (told m s) }
{}

/// What a neighbour offers is the same by what is told and by what is shown.
pub fn told_offers()
    ensures { (n : Network) (s : State) (r l t p v : ℕ) → p < length s.prefixes →
        Offers n (told n s) r l t p v ↔ Offers n s r l t p v }
{}

/// Where `two ways` is the reason why no route can be read, the router shows 16 on two of its
/// interfaces and a metric below 16 on another.
pub fn two_ways()
    ensures { (n : Network) (shown : State) (r p : ℕ) → IsNetwork n → IsInRange n shown →
        r < length n.routers → IsReason n shown r p (TwoWays r p) →
        (IsReadable n shown r p → ⊥) → ShowsTwoWays n shown r p }
{}

//! The command `explain`: the verdict on a log, and what it comes from.

pub(crate) mod lines;
pub(crate) mod places;
mod troubles;

ghost use Rattle.std.specs.Prelude.{◌≡◌, ◌↔◌, ℕ, Bool, List, IfOk, None, false, true, Some};
ghost use Rattle.rip_plan.specs.Network.{Network};
ghost use Rattle.rip_plan.specs.Relations.{IsPlain};
ghost use Rattle.rip_report.specs.Finished.{AddsWritten};
ghost use Rattle.rip_report.specs.Given.{IsGiven};
ghost use Rattle.rip_table.specs.State.{Fits, State};
ghost use Rattle.rip_check.specs.Expected.{AreExpected};
ghost use Rattle.rip_check.specs.Firsts.{IsFirstTrouble};
ghost use Rattle.rip_check.specs.Laws.{OneIsShown, ShowsRightTables};
ghost use Rattle.rip_check.specs.Verdicts.{IsNextUnsettled, ShowsTables};
ghost use Rattle.rip_check.specs.Told.{told};
ghost use Rattle.rip_report.specs.AuditText.{AllFailing, AnswersRightly, IsJudged, ShowsPlainRightTables};
ghost use Rattle.rip_report.specs.ExplainText.{BeginsWithVerdict, ExplainText, ExplainsAll, PlaceLines, UnreachableLine};
ghost use Rattle.rip_report.specs.Outs.{AddsOne};
ghost use Rattle.rip_report.specs.ReportText.{AreRead, IsAccepted};
ghost use Rattle.rip_report.specs.Runs.{RunsOnLog};
ghost use Rattle.rip_report.specs.Sent.{WentOut};

use crate::laws::accepted_tables;
use crate::lines::verdicts::push_settled_line;
use crate::loops::{PairText, add_pairs};
use crate::output::Out;
use crate::report::{Report, run_report};
use crate::status::{RunError, Status};
use lines::push_unreachable_line;
use places::{FailingPlaces, add_place};
use rip_check::laws::plain_paths;
use rip_check::{Case, Expected, Place2, Unclear, Unsettled, Verdict, judge, least_metric};
use rip_log::{Sink, Source};
use rip_plan::Plan;
use rip_table::Table;
use std::alloc::{AllocError, Global};
use std::hash::BuildHasher;
use troubles::add_unclear;

/// The planned prefixes that routers cannot reach.
#[derive(Drop)]
pub(crate) struct Unreachable {
    /// The least metrics of the plan.
    pub expected: Expected,
}

impl PairText for Unreachable {
    ghost fits = { λ pair n _. AreExpected n pair.expected };

    ghost is_text = { λ _ n s r p. UnreachableLine n s r p };

    fn add<T: Table, K: Sink>(&self, out: &mut Out<K>, case: &Case<'_, T>, router: usize) {
        if case.prefix < case.plan.prefixes()
            && self.expected.metric(case.plan, router, case.prefix).get() == 16
        {
            push_unreachable_line(out, case, router);
        }
    }
}

/// Adds that a network has settled, and which planned prefixes its routers cannot reach.
fn add_settled<T: Table, K: Sink>(
    alloc: Global,
    out: &mut Out<K>,
    plan: &Plan,
    table: &T,
) -> Result<Status, AllocError>
    requires fits { Fits plan.now (T.state table.now) }
    requires right { ShowsRightTables plan.now (told plan.now (T.state table.now)) }
    ensures { (all : Bool) →
        AddsWritten out.old out.new result (ExplainText plan.now (T.state table.now) all) }
{
    let expected = Expected::find(alloc, plan)?;
    push_settled_line(out, plan, table);
    add_pairs(out, &Unreachable { expected }, plan, table);
    Ok(Status::Settled)
}

/// Adds the first place that does not hold, and what it comes from.
fn add_first_place<T: Table, K: Sink>(out: &mut Out<K>, plan: &Plan, table: &T, place: &Place2)
    requires fits { Fits plan.now (T.state table.now) }
    requires first { IsNextUnsettled plan.now (told plan.now (T.state table.now)) None place.now }
    ensures { AddsOne out.old out.new (PlaceLines plan.now (T.state table.now) place.now) }
{
    plan.lawful();
    let least = least_metric(plan, place.router, place.prefix);
    add_place(out, plan, table, place, least);
}

/// Adds all places that do not hold, and what they come from.
fn add_places<T: Table, K: Sink>(
    alloc: Global,
    out: &mut Out<K>,
    plan: &Plan,
    table: &T,
) -> Result<Status, AllocError>
    requires { Fits plan.now (T.state table.now) }
    ensures { AddsWritten out.old out.new result (λ w.
        AllFailing plan.now (T.state table.now) (PlaceLines plan.now (T.state table.now)) w.text
        × (w.status ≡ Status.Unsettled)) }
{
    let places = Unsettled::find(alloc, plan, table)?;
    let expected = Expected::find(alloc, plan)?;
    add_pairs(out, &FailingPlaces { places, expected }, plan, table);
    Ok(Status::Unsettled)
}

/// Adds the first place that does not hold, or all, and what they come from.
fn add_unsettled<T: Table, K: Sink>(
    alloc: Global,
    out: &mut Out<K>,
    plan: &Plan,
    table: &T,
    all: bool,
    first: &Place2,
) -> Result<Status, AllocError>
    requires fits { Fits plan.now (T.state table.now) }
    requires shows { ShowsTables plan.now (told plan.now (T.state table.now)) }
    requires first { IsNextUnsettled plan.now (told plan.now (T.state table.now)) None first.now }
    ensures { AddsWritten out.old out.new result (ExplainText plan.now (T.state table.now) all) }
{
    if all {
        return add_places(alloc, out, plan, table);
    }
    add_first_place(out, plan, table, first);
    Ok(Status::Unsettled)
}

/// Judges a table, and adds the verdict and what it comes from.
fn add_explained<T: Table, K: Sink>(
    alloc: Global,
    out: &mut Out<K>,
    plan: &Plan,
    table: &T,
    all: bool,
) -> Result<Status, AllocError>
    requires { Fits plan.now (T.state table.now) }
    ensures adds { AddsWritten out.old out.new result
        (ExplainText plan.now (T.state table.now) all) }
    ensures judged { IfOk result (IsJudged plan.now (T.state table.now)) }
{
    plan.lawful();
    match judge(plan, table) {
        Verdict::Settled => add_settled(alloc, out, plan, table),
        Verdict::Unsettled(place) => add_unsettled(alloc, out, plan, table, all, &place),
        Verdict::Unclear(trouble) => {
            add_unclear(out, plan, table, all, &trouble);
            Ok(Status::Unclear)
        }
    }
}

/// The command `explain`, for the first place or trouble, or for all.
#[derive(Clone, Copy)]
struct Explain {
    all: bool,
}

impl Report for Explain {
    ghost is_text = { λ explain n s. ExplainText n s explain.all };

    ghost means = { λ explain n s. IsJudged n s };

    fn add<T: Table, K: Sink>(
        &self,
        alloc: Global,
        out: &mut Out<K>,
        plan: &Plan,
        table: &T,
    ) -> Result<Status, AllocError> {
        add_explained(alloc, out, plan, table, self.all)
    }
}

/// Prints the verdict on a log and what it comes from, by the plan in a TOML document, or why the
/// plan or the log is refused. Under a settled network's line are the planned prefixes that its
/// routers cannot reach; under that of a place that does not hold, what the router shows, its
/// route, its direct cost, each neighbour's offer, and the least metric of the plan; under that of
/// a trouble, what was heard or shown there. With `all` each place that does not hold is told of,
/// or each trouble of the kind of the first. The source and the sink come back. The log chooses the
/// prefixes, so the hasher should be seeded at random.
pub fn run_explain<R: Source, K: Sink, S: BuildHasher + Drop>(
    alloc: Global,
    plan: &[u8],
    log: R,
    out: K,
    all: bool,
    hasher: S,
) -> (R, K, Result<Status, RunError>)
    // Settled is answered exactly where the log shows right tables, and then packets arrive.
    ensures headline { (text : List ℕ) → IsGiven R.given R.at_end log result.0 text →
        (n : Network) (s : State) → AreRead plan.now text n s →
        IfOk result.2 (AnswersRightly n s) }
    // The same of all the text that was to come, where its bytes are modelled.
    ensures known { (text : List ℕ) → R.coming log ≡ Some text →
        (n : Network) (s : State) → AreRead plan.now text n s →
        IfOk result.2 (AnswersRightly n s) }
    // Of a plan that says nothing beside RFC 2453 the paths go over any neighbours.
    ensures plain { (text : List ℕ) → IsGiven R.given R.at_end log result.0 text →
        (n : Network) (s : State) → IsAccepted plan.now text n s → IsPlain n →
        IfOk result.2 (λ status. (status ≡ Status.Settled) ↔ ShowsPlainRightTables n s) }
    // No two sets of tables are shown.
    ensures one_set { (text : List ℕ) → IsGiven R.given R.at_end log result.0 text →
        (n : Network) (s : State) → IsAccepted plan.now text n s →
        OneIsShown n (told n s) }
    // What each verdict is answered for.
    ensures judged { (text : List ℕ) → IsGiven R.given R.at_end log result.0 text →
        (n : Network) (s : State) → IsAccepted plan.now text n s →
        IfOk result.2 (IsJudged n s) }
    // Without `all` the first line is that of `audit`.
    ensures verdict { all ≡ false → (text : List ℕ) → IsGiven R.given R.at_end log result.0 text →
        (n : Network) (s : State) → IsAccepted plan.now text n s →
        IfOk result.2 (WentOut (BeginsWithVerdict n s) (K.taken out) (K.taken result.1)) }
    // With `all` the places that do not hold are those that `audit` names with `all`.
    ensures places { all ≡ true → (text : List ℕ) → IsGiven R.given R.at_end log result.0 text →
        (n : Network) (s : State) → IsAccepted plan.now text n s →
        IfOk result.2 (WentOut (ExplainsAll n s) (K.taken out) (K.taken result.1)) }
    ensures runs { RunsOnLog R.Source K.Sink (λ n s. ExplainText n s all) plan.now log out result }
{
    accepted_tables();
    plain_paths();
    run_report(alloc, &Explain { all }, plan, log, out, hasher)
}

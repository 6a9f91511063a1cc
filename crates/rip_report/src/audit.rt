//! The command `audit`: whether the tables that a log shows are right.

ghost use Rattle.std.specs.Prelude.{◌≡◌, ◌↔◌, ℕ, List, IfOk, IfSome, None, is_err, is_some, true, Some};
ghost use Rattle.rip_plan.specs.Network.{Network};
ghost use Rattle.rip_plan.specs.Relations.{IsPlain};
ghost use Rattle.rip_table.specs.State.{Fits, State};
ghost use Rattle.rip_check.specs.Marks.{AreUnsettled};
ghost use Rattle.rip_check.specs.Verdicts.{IsVerdict, IsNextUnsettled};
ghost use Rattle.rip_report.specs.AuditText.{AnswersRightly, FailingText, IsJudged, ShowsPlainRightTables, UnsettledLine, UnsettledLines, VerdictText, verdict_status};
ghost use Rattle.rip_report.specs.Finished.{AddsWritten};
ghost use Rattle.rip_report.specs.Given.{IsGiven};
ghost use Rattle.rip_report.specs.Outs.{AddsOne};
ghost use Rattle.rip_report.specs.ReportText.{AreRead, IsAccepted};
ghost use Rattle.rip_report.specs.Runs.{RunsOnLog};
ghost use Rattle.rip_check.specs.Laws.{OneIsShown};
ghost use Rattle.rip_check.specs.Told.{told};

use crate::laws::accepted_tables;
use crate::lines::verdicts::{push_settled_line, push_unclear_line, push_unsettled_line};
use crate::loops::{PairText, add_pairs};
use crate::output::Out;
use crate::report::{Report, run_report};
use crate::status::{RunError, Status};
use rip_check::laws::plain_paths;
use rip_check::{Case, Place2, Unsettled, Verdict, judge};
use rip_log::{Sink, Source};
use rip_plan::Plan;
use rip_table::Table;
use std::alloc::{AllocError, Global};
use std::hash::BuildHasher;

impl PairText for Unsettled {
    ghost fits = { λ places n s. AreUnsettled n (told n s) places };

    ghost is_text = { λ _ n s. FailingText n s (UnsettledLine n s) };

    fn add<T: Table, K: Sink>(&self, out: &mut Out<K>, case: &Case<'_, T>, router: usize) {
        case.plan.lawful();
        if let Some(place) = self.at(case, router) {
            push_unsettled_line(out, case.plan, case.table, &place);
        }
    }
}

/// Adds the lines of an unsettled network: those of all places that do not hold, where they were
/// found, or that of the first. The contract names `all`, and the code sees it by `places`.
fn add_unsettled<T: Table, K: Sink>(
    out: &mut Out<K>,
    plan: &Plan,
    table: &T,
    all: bool,
    places: &Option<Unsettled>,
    place: &Place2,
)
    requires fits { Fits plan.now (T.state table.now) }
    requires places { IfSome places.now
        (AreUnsettled plan.now (told plan.now (T.state table.now))) }
    requires all { is_some places.now ≡ all }
    requires first { IsNextUnsettled plan.now (told plan.now (T.state table.now)) None place.now }
    ensures { AddsOne out.old out.new (UnsettledLines plan.now (T.state table.now) all place.now) }
{
    plan.lawful();
    match places {
        Some(places) => add_pairs(out, places, plan, table),
        None => push_unsettled_line(out, plan, table, place),
    }
}

/// The status of a verdict.
fn status_of(verdict: &Verdict) -> Status
    ensures { result ≡ verdict_status verdict.now }
{
    match verdict {
        Verdict::Settled => Status::Settled,
        Verdict::Unsettled(_) => Status::Unsettled,
        Verdict::Unclear(_) => Status::Unclear,
    }
}

/// Adds the text of a verdict.
fn add_verdict<T: Table, K: Sink>(
    out: &mut Out<K>,
    plan: &Plan,
    table: &T,
    all: bool,
    places: &Option<Unsettled>,
    verdict: &Verdict,
)
    requires fits { Fits plan.now (T.state table.now) }
    requires places { IfSome places.now
        (AreUnsettled plan.now (told plan.now (T.state table.now))) }
    requires all { (place : Place2) → verdict.now ≡ Verdict.Unsettled place →
        is_some places.now ≡ all }
    requires verdict { IsVerdict plan.now (told plan.now (T.state table.now)) verdict.now }
    ensures { AddsOne out.old out.new (λ text. VerdictText plan.now (T.state table.now) all
        (record { text = text; status = verdict_status verdict.now })) }
{
    plan.lawful();
    match verdict {
        Verdict::Settled => push_settled_line(out, plan, table),
        Verdict::Unsettled(place) => add_unsettled(out, plan, table, all, places, place),
        Verdict::Unclear(trouble) => push_unclear_line(out, plan, table, trouble),
    }
}

/// The places that do not hold, where all of them are to be written: the verdict is Unsettled, and
/// `all` is asked for.
fn places_of<T: Table>(
    alloc: Global,
    plan: &Plan,
    table: &T,
    all: bool,
    verdict: &Verdict,
) -> Result<Option<Unsettled>, AllocError>
    requires { Fits plan.now (T.state table.now) }
    ensures places { IfOk result (λ places.
        IfSome places (AreUnsettled plan.now (told plan.now (T.state table.now)))) }
    ensures all { IfOk result (λ places. (place : Place2) → verdict.now ≡ Verdict.Unsettled place →
        is_some places ≡ all) }
    ensures memory { is_err result ≡ true →
        (all ≡ true) × (verdict_status verdict.now ≡ Status.Unsettled) }
{
    match verdict {
        Verdict::Unsettled(_) if all => Unsettled::find(alloc, plan, table).map(Some),
        _ => Ok(None),
    }
}

/// Judges a table and adds the verdict.
pub(crate) fn add_audit<T: Table, K: Sink>(
    alloc: Global,
    out: &mut Out<K>,
    plan: &Plan,
    table: &T,
    all: bool,
) -> Result<Status, AllocError>
    requires { Fits plan.now (T.state table.now) }
    ensures adds { AddsWritten out.old out.new result
        (VerdictText plan.now (T.state table.now) all) }
    ensures memory { is_err result ≡ true →
        (all ≡ true) × IsJudged plan.now (T.state table.now) Status.Unsettled }
    ensures judged { IfOk result (IsJudged plan.now (T.state table.now)) }
{
    let verdict = judge(plan, table);
    let places = places_of(alloc, plan, table, all, &verdict)?;
    add_verdict(out, plan, table, all, &places, &verdict);
    Ok(status_of(&verdict))
}

/// The command `audit`, for the first place that does not hold or for all.
#[derive(Clone, Copy)]
struct Audit {
    all: bool,
}

impl Report for Audit {
    ghost is_text = { λ audit n s. VerdictText n s audit.all };

    ghost means = { λ audit n s. IsJudged n s };

    fn add<T: Table, K: Sink>(
        &self,
        alloc: Global,
        out: &mut Out<K>,
        plan: &Plan,
        table: &T,
    ) -> Result<Status, AllocError> {
        add_audit(alloc, out, plan, table, self.all)
    }
}

/// Prints the verdict on a log by the plan in a TOML document, or why the plan or the log is
/// refused. With `all` an unsettled network has one line for each place that does not hold. The
/// source and the sink come back. The log chooses the prefixes, so the hasher should be seeded at
/// random.
pub fn run_audit<R: Source, K: Sink, S: BuildHasher + Drop>(
    alloc: Global,
    plan: &[u8],
    log: R,
    out: K,
    all: bool,
    hasher: S,
) -> (R, K, Result<Status, RunError>)
    // Settled is answered exactly where the log shows right tables, and then packets arrive.
    ensures headline { (text : List ℕ) → IsGiven R.given R.at_end log result.0 text →
        (n : Network) (s : State) → AreRead plan.now text n s →
        IfOk result.2 (AnswersRightly n s) }
    // The same of all the text that was to come, where its bytes are modelled.
    ensures known { (text : List ℕ) → R.coming log ≡ Some text →
        (n : Network) (s : State) → AreRead plan.now text n s →
        IfOk result.2 (AnswersRightly n s) }
    // Of a plan that says nothing beside RFC 2453 the paths go over any neighbours.
    ensures plain { (text : List ℕ) → IsGiven R.given R.at_end log result.0 text →
        (n : Network) (s : State) → IsAccepted plan.now text n s → IsPlain n →
        IfOk result.2 (λ status. (status ≡ Status.Settled) ↔ ShowsPlainRightTables n s) }
    // No two sets of tables are shown.
    ensures one_set { (text : List ℕ) → IsGiven R.given R.at_end log result.0 text →
        (n : Network) (s : State) → IsAccepted plan.now text n s →
        OneIsShown n (told n s) }
    // What each verdict is answered for.
    ensures judged { (text : List ℕ) → IsGiven R.given R.at_end log result.0 text →
        (n : Network) (s : State) → IsAccepted plan.now text n s →
        IfOk result.2 (IsJudged n s) }
    // What it prints and leaves, by the text of the verdict.
    ensures runs { RunsOnLog R.Source K.Sink (λ n s. VerdictText n s all) plan.now log out result }
{
    accepted_tables();
    plain_paths();
    run_report(alloc, &Audit { all }, plan, log, out, hasher)
}

//! The command `watch`: the verdict on a network in each second of a log with times.

mod film;

ghost use Rattle.std.specs.Prelude.{◌≡◌, ◌≢◌, ◌↔◌, ◌≤◌, ℕ, Bool, List, [], IfOk, IfSome, None, Ok, Err, Some, false, true};
ghost use Rattle.rip_log.specs.TimedCall.{timed_lines, timed_said_of, timed_source, timed_text};
ghost use Rattle.rip_log.specs.TimedText.{IsEarly, LineSaid, TextSays};
ghost use Rattle.rip_log.specs.Wholes.{OfWhole, Went};
ghost use Rattle.rip_log.specs.declared.limits.TheConstants.{MOST_SECONDS};
ghost use Rattle.rip_plan.specs.Network.{Network};
ghost use Rattle.rip_plan.specs.PlanOf.{IsPlanOfText};
ghost use Rattle.rip_plan.specs.WellFormed.{IsWellFormed};
ghost use Rattle.rip_table.specs.State.{Fits, State};
ghost use Rattle.rip_table.specs.Window.{new_window, shown};
ghost use Rattle.rip_report.specs.Films.{EndsFilm, IsEnd, IsInStep, IsNew, IsNotTimed, IsStage, IsUnreadTo, ShowsText, TakesLine, line_second, stage_of};
ghost use Rattle.rip_report.specs.Given.{IsGiven};
ghost use Rattle.rip_report.specs.Outs.{AddsOne, HasGoneOut, IsOnItsWay};
ghost use Rattle.rip_report.specs.ReportText.{IsAccepted};
ghost use Rattle.rip_report.specs.Runs.{RunsOnTimes, StaysInStep, Watches};
ghost use Rattle.rip_report.specs.WatchText.{EndsRight, IsVerdictStatus, LiesWithin};

use crate::output::Out;
use crate::refusal::{push_refusal_line, refuse_plan};
use crate::status::{RunError, Status};
use film::{Film, second_of};
use rip_log::laws::{timed_records, timed_texts};
use rip_log::{Failed, Sink, Source, TimedLine, TimedReader};
use rip_plan::Plan;
use rip_plan::laws::{one_plan, well_formed_texts};
use rip_table::laws::{last_seconds, lasting_scenes};
use rip_table::{GridWindow, LineCause, Scene, WindowLength, WindowTable};
use std::alloc::{AllocError, Global};
use std::hash::BuildHasher;

/// How to watch.
#[derive(Clone, Copy, Debug)]
pub struct Watching {
    /// For how long what an interface says is shown.
    pub length: WindowLength,
    /// Whether the first settled second ends it.
    pub until_settled: bool,
}

/// Adds the refusal of a first line that says something without a time, and answers the status with
/// which it ends the film, if it does.
fn refuse_untimed<K: Sink>(out: &mut Out<K>, line: &TimedLine<'_>) -> Option<Status>
    requires { line_second line.now ≡ None }
    ensures { IsNotTimed line.now out.old out.new result }
{
    match line {
        TimedLine::Bad(fault) => {
            push_refusal_line(out, fault.line, LineCause::Log(fault.code));
            Some(Status::Refused)
        }
        _ => None,
    }
}

/// A film, and whether it has begun: it begins in the second of the first line that says something.
#[derive(Drop)]
struct Watch<T> {
    film: Film<T>,
    begun: bool,
}

impl<T: WindowTable> Watch<T> {
    /// The film of a table, of which nothing is shown yet.
    fn new(alloc: Global, table: T) -> Watch<T>
        ensures new { (n : Network) → T.window table ≡ new_window n →
            IsNew n (stage_of T.window result) }
        ensures second { (stage_of T.window result).second ≡ 0 }
    {
        Watch {
            film: Film {
                scene: Scene::new(table),
                second: 0,
                last: Vec::new(alloc),
            },
            begun: false,
        }
    }

    /// Takes in a line of a film that has begun.
    fn take_on<K: Sink>(
        &mut self,
        alloc: Global,
        plan: &Plan,
        watching: &Watching,
        line: &TimedLine<'_>,
        out: &mut Out<K>,
    ) -> Result<Option<Status>, AllocError>
        requires begun { self.old.begun ≡ true }
        requires stage { IsStage plan.now watching.now.length (stage_of T.window self.old) }
        requires early { IsEarly (timed_said_of line.now) }
        ensures takes { TakesLine plan.now watching.now.length watching.now.until_settled line.now
            (stage_of T.window self.old) (stage_of T.window self.new) out.old out.new result }
        ensures stage { result ≡ Ok None →
            IsStage plan.now watching.now.length (stage_of T.window self.new) }
        ensures ends { IfOk result (λ end. IfSome end (IsEnd watching.now.until_settled)) }
        ensures sent { HasGoneOut out.old → HasGoneOut out.new }
    {
        match self.film.take(alloc, plan, watching, line, out) {
            Ok(true) => Ok(Some(Status::Settled)),
            Ok(false) => Ok(None),
            Err(error) => Err(error),
        }
    }

    /// Takes in a line of a film that has not begun: its first that says something begins it.
    fn take_first<K: Sink>(
        &mut self,
        alloc: Global,
        plan: &Plan,
        watching: &Watching,
        line: &TimedLine<'_>,
        out: &mut Out<K>,
    ) -> Result<Option<Status>, AllocError>
        requires begun { self.old.begun ≡ false }
        requires stage { IsStage plan.now watching.now.length (stage_of T.window self.old) }
        requires early { IsEarly (timed_said_of line.now) }
        ensures takes { TakesLine plan.now watching.now.length watching.now.until_settled line.now
            (stage_of T.window self.old) (stage_of T.window self.new) out.old out.new result }
        ensures stage { result ≡ Ok None →
            IsStage plan.now watching.now.length (stage_of T.window self.new) }
        ensures ends { IfOk result (λ end. IfSome end (IsEnd watching.now.until_settled)) }
        ensures sent { result ≡ Ok None → HasGoneOut out.old → HasGoneOut out.new }
    {
        match second_of(line) {
            None => Ok(refuse_untimed(out, line)),
            Some(second) => {
                self.film.second = second;
                self.begun = true;
                self.take_on(alloc, plan, watching, line, out)
            }
        }
    }

    /// Takes in the next line, and answers the status with which it ends the film, if it does: that
    /// of the first line that says something, if it has no time, or of a settled second before this
    /// line. Then the line is left out.
    fn take<K: Sink>(
        &mut self,
        alloc: Global,
        plan: &Plan,
        watching: &Watching,
        line: &TimedLine<'_>,
        out: &mut Out<K>,
    ) -> Result<Option<Status>, AllocError>
        requires stage { IsStage plan.now watching.now.length (stage_of T.window self.old) }
        requires early { IsEarly (timed_said_of line.now) }
        ensures takes { TakesLine plan.now watching.now.length watching.now.until_settled line.now
            (stage_of T.window self.old) (stage_of T.window self.new) out.old out.new result }
        ensures stage { result ≡ Ok None →
            IsStage plan.now watching.now.length (stage_of T.window self.new) }
        ensures ends { IfOk result (λ end. IfSome end (IsEnd watching.now.until_settled)) }
        ensures sent { result ≡ Ok None → HasGoneOut out.old → HasGoneOut out.new }
    {
        if self.begun {
            self.take_on(alloc, plan, watching, line, out)
        } else {
            self.take_first(alloc, plan, watching, line, out)
        }
    }

    /// Ends a film behind the last line: its present second is the last. The status is that of its
    /// verdict, or Unclear where no line said anything.
    fn end<K: Sink>(
        &mut self,
        alloc: Global,
        plan: &Plan,
        out: &mut Out<K>,
    ) -> Result<Status, AllocError>
        requires fits { Fits plan.now (shown (stage_of T.window self.old).view.window) }
        requires second { (stage_of T.window self.old).second ≤ MOST_SECONDS }
        ensures { (window : ℕ) (until : Bool) → EndsFilm plan.now window until
            (stage_of T.window self.old) out.old out.new result }
    {
        if self.begun {
            self.film.show(alloc, plan, out)
        } else {
            Ok(Status::Unclear)
        }
    }
}

/// Prints a film of the lines to come. Where a write has failed it stops, and answers Write.
fn watch_lines<R: Source, T: WindowTable, K: Sink>(
    alloc: Global,
    plan: &Plan,
    watching: &Watching,
    reader: &mut TimedReader<R>,
    watch: &mut Watch<T>,
    out: &mut Out<K>,
) -> Result<Status, RunError>
    requires front { timed_lines reader.old ≡ 0 }
    requires stage { IsStage plan.now watching.now.length (stage_of T.window watch.old) }
    requires nothing { IsNew plan.now (stage_of T.window watch.old) }
    ensures shows { OfWhole R.given R.at_end (timed_source reader.new) (λ coming.
        AddsOne out.old out.new (ShowsText plan.now watching.now.length watching.now.until_settled
        (timed_text coming reader.old) result)) }
    ensures went { Went R.given R.coming R.at_end (timed_source reader.old)
        (timed_source reader.new) }
    ensures read { result ≡ Err RunError.Read → OfWhole R.given R.at_end
        (timed_source reader.new) (λ coming. IsUnreadTo (R.broken (timed_source reader.new))
        (timed_text coming reader.old)) }
    ensures marks { result ≢ Err RunError.Read →
        R.broken (timed_source reader.new) ≡ R.broken (timed_source reader.old) }
    ensures write { result ≡ Err RunError.Write → out.new.failed ≡ true }
    ensures ended { IfOk result (λ status. (watching.now.until_settled ≡ true →
        status ≢ Status.Settled) → status ≢ Status.Refused →
        R.at_end (timed_source reader.new) ≡ true) }
    ensures stops { out.old.failed ≡ false →
        IsOnItsWay K.taken K.broken out.old.start out.old.text → result ≢ Err RunError.Read →
        OfWhole R.given R.at_end (timed_source reader.new) (λ coming. IsInStep K.taken K.broken
        plan.now watching.now.length watching.now.until_settled out.old
        (timed_text coming reader.old) (timed_text coming reader.new)) }
{
    timed_texts();
    'lines: loop {
        match reader.next() {
            Err(Failed) => return Err(RunError::Read),
            Ok(None) => return match watch.end(alloc, plan, out) {
                Ok(status) => Ok(status),
                Err(_) => Err(RunError::Memory),
            },
            Ok(Some(line)) => match watch.take(alloc, plan, watching, &line, out) {
                Ok(None) => {}
                Ok(Some(status)) => return Ok(status),
                Err(_) => return Err(RunError::Memory),
            },
        }
        if out.has_failed() {
            return Err(RunError::Write);
        }
    }
}

/// Watches a log by its plan and a table in which nothing was heard. The source and the sink come
/// back.
fn watch_by<R: Source, T: WindowTable + Drop, K: Sink>(
    alloc: Global,
    plan: &Plan,
    watching: &Watching,
    table: T,
    log: R,
    out: K,
) -> (R, K, Result<Status, RunError>)
    requires new { T.window table ≡ new_window plan.now }
    requires fits { Fits plan.now (T.state table) }
    ensures watches { Watches R.Source K.Sink watching.now.length watching.now.until_settled
        plan.now log out result }
    ensures stops { StaysInStep R.Source K.Sink watching.now.length watching.now.until_settled
        plan.now log result.0 out }
{
    lasting_scenes();
    last_seconds();
    timed_records();
    timed_texts();
    plan.lawful();
    let mut reader = match TimedReader::new(alloc, log) {
        Ok(reader) => reader,
        Err((_, log)) => return (log, out, Err(RunError::Memory)),
    };
    let mut watch = Watch::new(alloc, table);
    let mut text = Out::new(out);
    let ended = watch_lines(alloc, plan, watching, &mut reader, &mut watch, &mut text);
    reader.lawful();
    let (out, answer) = text.finish_with(ended);
    (reader.into_source(), out, answer)
}

/// Watches a log by its plan. The source and the sink come back.
fn watch_log<R: Source, K: Sink, S: BuildHasher + Drop>(
    alloc: Global,
    plan: &Plan,
    watching: &Watching,
    log: R,
    out: K,
    hasher: S,
) -> (R, K, Result<Status, RunError>)
    ensures watches { Watches R.Source K.Sink watching.now.length watching.now.until_settled
        plan.now log out result }
    ensures stops { StaysInStep R.Source K.Sink watching.now.length watching.now.until_settled
        plan.now log result.0 out }
{
    match GridWindow::with_hasher(alloc, plan, hasher) {
        Ok(table) => watch_by(alloc, plan, watching, table, log, out),
        Err(_) => (log, out, Err(RunError::Memory)),
    }
}

/// Prints the verdict on a network in each second of a log with times in which it changed, as soon
/// as a line of a later second has come, or why the plan is refused. What an interface says is
/// shown for `watching.length`. Refused lines, each less than that behind the one before, are an
/// episode, in which the verdict is the refusal of the first. The status is that of the last
/// verdict; with `until_settled` the first settled second ends the run. The source and the sink
/// come back. The log chooses the prefixes, so the hasher should be seeded at random.
pub fn run_watch<R: Source, K: Sink, S: BuildHasher + Drop>(
    alloc: Global,
    plan: &[u8],
    log: R,
    out: K,
    watching: Watching,
    hasher: S,
) -> (R, K, Result<Status, RunError>)
    // What it prints and leaves.
    ensures runs { RunsOnTimes R.Source K.Sink watching.length watching.until_settled plan.now log
        out result }
    // Of a plan without a fault Settled is answered exactly where the last second is right; or,
    // with `until_settled`, where any is. Each second is printed as settled exactly where it is
    // right, as `WatchText` says.
    ensures settled { (text : List ℕ) → IsGiven R.given R.at_end log result.0 text →
        (n : Network) (said : List LineSaid) → IsWellFormed plan.now → IsPlanOfText plan.now n →
        TextSays text said → IfOk result.2 (λ status. (status ≡ Status.Settled)
        ↔ EndsRight n watching.length watching.until_settled said) }
    // Of a log that lies within a window, and that `audit` does not refuse without its times, the
    // status is that of the verdict of `audit`.
    ensures film { (text plain : List ℕ) → IsGiven R.given R.at_end log result.0 text →
        LiesWithin watching.length text plain → watching.until_settled ≡ false →
        (n : Network) (s : State) → IsAccepted plan.now plain n s →
        IfOk result.2 (IsVerdictStatus n s) }
{
    one_plan();
    well_formed_texts();
    match Plan::read(alloc, plan) {
        Ok(plan) => watch_log(alloc, &plan, &watching, log, out, hasher),
        Err(error) => {
            let (out, answer) = refuse_plan(error, out);
            (log, out, answer)
        }
    }
}

//! A film: the verdict on a network in each second of a log with times, behind the lines of which
//! it stands.

ghost use Rattle.std.specs.Prelude.{◌≡◌, ◌≢◌, ◌+◌, ◌-◌, ◌≤◌, false, true, IfOk, IfSome, OnErr, Ok};
ghost use Rattle.rip_log.specs.TimedCall.{timed_said_of};
ghost use Rattle.rip_log.specs.TimedText.{IsEarly};
ghost use Rattle.rip_log.specs.declared.limits.TheConstants.{MOST_SECONDS};
ghost use Rattle.rip_table.specs.State.{Fits};
ghost use Rattle.rip_table.specs.Window.{shown};
ghost use Rattle.rip_table.specs.Scenes.{LastsFor, after_line, closed_view};
ghost use Rattle.rip_table.specs.SceneViews.{view_of};
ghost use Rattle.rip_table.specs.Seconds.{after_quiet, later_second};
ghost use Rattle.rip_report.specs.Finished.{AddsWritten};
ghost use Rattle.rip_report.specs.Outs.{AddsOne, HasGoneOut};
ghost use Rattle.rip_report.specs.Films.{LineBegun, QuietBegun, QuietFilm, line_second, seconds_before};
ghost use Rattle.rip_report.specs.WatchText.{IsShot, SceneText, SettlesRightly};

use crate::audit::add_audit;
use crate::output::Out;
use crate::refusal::push_refusal_line;
use crate::status::Status;
use crate::watch::Watching;
use rip_log::{Failed, IntoWrite, Sink, TimedLine, write_second};
use rip_plan::Plan;
use rip_table::laws::lasting_scenes;
use rip_table::{Scene, WindowTable};
use std::alloc::{AllocError, Global};

/// Adds the verdict of a scene: the line of the first refusal, or the verdict on what is shown.
fn add_scene<T: WindowTable, K: Sink>(
    alloc: Global,
    out: &mut Out<K>,
    plan: &Plan,
    scene: &Scene<T>,
) -> Result<Status, AllocError>
    requires { Fits plan.now (shown (view_of T.window scene.now).window) }
    ensures adds { AddsWritten out.old out.new result
        (SceneText plan.now (view_of T.window scene.now)) }
    ensures settles { IfOk result (SettlesRightly plan.now (view_of T.window scene.now)) }
{
    match scene.refusal() {
        Some(refusal) => {
            push_refusal_line(out, refusal.line, refusal.cause);
            Ok(Status::Refused)
        }
        None => add_audit(alloc, out, plan, scene.table(), false),
    }
}

/// The text of the verdict of a scene, and its status.
fn scene_text<T: WindowTable>(
    alloc: Global,
    plan: &Plan,
    scene: &Scene<T>,
) -> Result<(Vec<u8>, Status), AllocError>
    requires { Fits plan.now (shown (view_of T.window scene.now).window) }
    ensures text { IfOk result (λ made. SceneText plan.now (view_of T.window scene.now)
        (record { text = made.0.items; status = made.1 })) }
    ensures settles { IfOk result (λ made.
        SettlesRightly plan.now (view_of T.window scene.now) made.1) }
{
    let mut text = Out::new(IntoWrite::new(Vec::new(alloc)));
    let status = add_scene(alloc, &mut text, plan, scene)?;
    match text.finish() {
        (sink, Ok(())) => Ok((sink.into_writer(), status)),
        (_, Err(Failed)) => Err(AllocError),
    }
}

/// Whether a film ends with this status.
fn is_end(until_settled: bool, status: Status) -> bool
    ensures ends { result ≡ true → (until_settled ≡ true) × (status ≡ Status.Settled) }
    ensures goes_on { result ≡ false → until_settled ≡ true → status ≢ Status.Settled }
{
    until_settled && status == Status::Settled
}

/// The second of a line's time, if it has one.
pub(crate) fn second_of(line: &TimedLine<'_>) -> Option<u64>
    requires { IsEarly (timed_said_of line.now) }
    ensures second { result ≡ line_second line.now }
    ensures most { IfSome result (λ second. second ≤ MOST_SECONDS) }
{
    match line {
        TimedLine::Skipped => None,
        TimedLine::Record(record) => Some(record.micros / 1_000_000),
        TimedLine::Bad(fault) => match fault.micros {
            None => None,
            Some(micros) => Some(micros / 1_000_000),
        },
    }
}

/// The second of a line behind others: its own, or the one before, whichever is later.
fn second_with(second: u64, line: &TimedLine<'_>) -> u64
    requires second { second ≤ MOST_SECONDS }
    requires early { IsEarly (timed_said_of line.now) }
    ensures later { result ≡ later_second second (line_second line.now) }
    ensures low { second ≤ result }
    ensures most { result ≤ MOST_SECONDS }
{
    match second_of(line) {
        Some(own) if second < own => own,
        _ => second,
    }
}

/// How far a film has come: the scene of the present second, and the verdict of the second before.
#[derive(Drop)]
pub(crate) struct Film<T> {
    pub(crate) scene: Scene<T>,
    pub(crate) second: u64,
    pub(crate) last: Vec<u8>,
}

impl<T: WindowTable> Film<T> {
    /// Ends the present second: prints its time and its verdict, at once, unless the verdict is
    /// that of the second before.
    pub(crate) fn show<K: Sink>(
        &mut self,
        alloc: Global,
        plan: &Plan,
        out: &mut Out<K>,
    ) -> Result<Status, AllocError>
        requires fits { Fits plan.now (shown (view_of T.window self.old.scene).window) }
        requires second { self.old.second ≤ MOST_SECONDS }
        ensures shot { IfOk result (λ status. AddsOne out.old out.new
            (IsShot plan.now self.old.second (view_of T.window self.new.scene) self.old.last.items
            (record { text = self.new.last.items; status = status }))) }
        ensures nothing { OnErr result (out.new ≡ out.old) }
        ensures sent { HasGoneOut out.old → HasGoneOut out.new }
        ensures view { view_of T.window self.new.scene
            ≡ closed_view plan.now (view_of T.window self.old.scene) }
        ensures second { self.new.second ≡ self.old.second }
        ensures fits { Fits plan.now (shown (view_of T.window self.new.scene).window) }
    {
        self.scene.close(plan);
        let (text, status) = scene_text(alloc, plan, &self.scene)?;
        if text.as_slice() != self.last.as_slice() {
            out.push_bytes(&write_second(self.second));
            out.push(" ");
            out.push_bytes(&text);
            out.send();
            self.last = text;
        }
        Ok(status)
    }

    /// Lets so many seconds pass in which no line comes. Where it is to end at a settled second, it
    /// stops there, and answers that it did.
    fn pass_quiet<K: Sink>(
        &mut self,
        alloc: Global,
        plan: &Plan,
        until_settled: bool,
        count: u64,
        out: &mut Out<K>,
    ) -> Result<bool, AllocError>
        requires fits { Fits plan.now (shown (view_of T.window self.old.scene).window) }
        requires second { self.old.second + count ≤ MOST_SECONDS + 1 }
        ensures film { IfOk result (λ settled. AddsOne out.old out.new (QuietFilm plan.now
            until_settled self.old.last.items self.old.second (view_of T.window self.old.scene)
            count settled self.new.last.items)) }
        ensures begun { OnErr result (AddsOne out.old out.new (QuietBegun plan.now until_settled
            self.old.last.items self.old.second (view_of T.window self.old.scene) count)) }
        ensures sent { HasGoneOut out.old → HasGoneOut out.new }
        ensures view { result ≡ Ok false → view_of T.window self.new.scene
            ≡ after_quiet plan.now count (view_of T.window self.old.scene) }
        ensures second { result ≡ Ok false → self.new.second ≡ self.old.second + count }
        ensures fits { Fits plan.now (shown (view_of T.window self.new.scene).window) }
    {
        for _ in 0..count {
            let status = self.show(alloc, plan, out)?;
            if is_end(until_settled, status) {
                return Ok(true);
            }
            self.scene.pass();
            self.second += 1;
        }
        Ok(false)
    }

    /// Goes on to a second, where no line came since the present one. Of the seconds before it only
    /// those of one window are judged, and one more: by then nothing is left, and nothing changes.
    fn advance<K: Sink>(
        &mut self,
        alloc: Global,
        plan: &Plan,
        watching: &Watching,
        to: u64,
        out: &mut Out<K>,
    ) -> Result<bool, AllocError>
        requires fits { Fits plan.now (shown (view_of T.window self.old.scene).window) }
        requires second { self.old.second ≤ to }
        requires most { to ≤ MOST_SECONDS }
        requires lasts { LastsFor watching.now.length (view_of T.window self.old.scene) }
        ensures film { IfOk result (λ settled. AddsOne out.old out.new (QuietFilm plan.now
            watching.now.until_settled self.old.last.items self.old.second
            (view_of T.window self.old.scene) (to - self.old.second) settled
            self.new.last.items)) }
        ensures begun { OnErr result (AddsOne out.old out.new (QuietBegun plan.now
            watching.now.until_settled self.old.last.items self.old.second
            (view_of T.window self.old.scene) (to - self.old.second))) }
        ensures sent { HasGoneOut out.old → HasGoneOut out.new }
        ensures view { result ≡ Ok false → view_of T.window self.new.scene
            ≡ after_quiet plan.now (to - self.old.second) (view_of T.window self.old.scene) }
        ensures second { result ≡ Ok false → self.new.second ≡ to }
        ensures fits { Fits plan.now (shown (view_of T.window self.new.scene).window) }
    {
        lasting_scenes();
        let quiet = to - self.second;
        let judged = quiet.min(u64::from(watching.length.get()) + 1);
        let settled = self.pass_quiet(alloc, plan, watching.until_settled, judged, out)?;
        if !settled {
            self.second = to;
        }
        Ok(settled)
    }

    /// Takes in a line, behind the seconds before its own. Where a settled second among these ends
    /// the film, the line is left out, and the answer is that it did.
    pub(crate) fn take<K: Sink>(
        &mut self,
        alloc: Global,
        plan: &Plan,
        watching: &Watching,
        line: &TimedLine<'_>,
        out: &mut Out<K>,
    ) -> Result<bool, AllocError>
        requires fits { Fits plan.now (shown (view_of T.window self.old.scene).window) }
        requires second { self.old.second ≤ MOST_SECONDS }
        requires early { IsEarly (timed_said_of line.now) }
        requires lasts { LastsFor watching.now.length (view_of T.window self.old.scene) }
        ensures film { IfOk result (λ settled. AddsOne out.old out.new (QuietFilm plan.now
            watching.now.until_settled self.old.last.items self.old.second
            (view_of T.window self.old.scene) (seconds_before self.old.second line.now) settled
            self.new.last.items)) }
        ensures begun { OnErr result (AddsOne out.old out.new (LineBegun plan.now
            watching.now.until_settled self.old.last.items self.old.second
            (view_of T.window self.old.scene) (seconds_before self.old.second line.now))) }
        ensures sent { HasGoneOut out.old → HasGoneOut out.new }
        ensures view { result ≡ Ok false → view_of T.window self.new.scene
            ≡ after_line plan.now watching.now.length line.now (after_quiet plan.now
            (seconds_before self.old.second line.now) (view_of T.window self.old.scene)) }
        ensures second { result ≡ Ok false → self.new.second
            ≡ self.old.second + seconds_before self.old.second line.now }
        ensures most { result ≡ Ok false → self.new.second ≤ MOST_SECONDS }
        ensures lasts { result ≡ Ok false →
            LastsFor watching.now.length (view_of T.window self.new.scene) }
        ensures fits { Fits plan.now (shown (view_of T.window self.new.scene).window) }
    {
        lasting_scenes();
        let length = watching.length;
        length.lawful();
        let to = second_with(self.second, line);
        if self.advance(alloc, plan, watching, to, out)? {
            return Ok(true);
        }
        match self.scene.hear(plan, length, line) {
            Ok(()) => Ok(false),
            Err(_) => Err(AllocError),
        }
    }
}

//! Laws of the definitions alone: functions that do nothing, whose contracts hold of every plan and
//! every log.

pub mod examples;

ghost use Rattle.std.specs.Prelude.{◌≡◌, ◌≢◌, ◌↔◌, ◌⊎◌, ◌+◌, ◌≤◌, ◌++◌, ℕ, Bool, true, false, List, Ok, Result, is_err, length, map};
ghost use Rattle.std.specs.List.{AllByRecursion};
ghost use Rattle.rip_log.specs.Logs.{Numbered};
ghost use Rattle.rip_log.specs.LogText.{EndsLine, LogText};
ghost use Rattle.rip_log.specs.TimedText.{LineSaid, TextSays};
ghost use Rattle.rip_report.specs.CaptureText.{count_of, is_cut, is_datagram, is_elsewhere, is_fragment, is_long, is_malformed, is_other, mixed_count};
ghost use Rattle.rip_report.specs.Selections.{Carrier, Part};
ghost use Rattle.rip_report.specs.CaptureText.{counts_of as counts_of_packets};
ghost use Rattle.rip_report.specs.CaptureLogs.{File, FileText, HasDatagrams, HaveDatagrams, IsFile, LogOf};
ghost use Rattle.rip_report.specs.declared.captures.authentication.Authentication.{Authentication};
ghost use Rattle.rip_report.specs.declared.captures.manner.Manner.{Manner};
ghost use Rattle.rip_report.specs.declared.status.RunError.{RunError};
ghost use Rattle.rip_report.specs.declared.status.Status.{Status};
ghost use Rattle.rip_plan.specs.Network.{Network};
ghost use Rattle.rip_plan.specs.Relations.{IsLawful};
ghost use Rattle.rip_check.specs.Laws.{OneIsShown};
ghost use Rattle.rip_check.specs.Told.{told};
ghost use Rattle.rip_table.specs.Events.{EventAt};
ghost use Rattle.rip_table.specs.LogJoin.{IsJoined};
ghost use Rattle.rip_table.specs.Seconds.{log_seconds};
ghost use Rattle.rip_table.specs.State.{State, new_state};
ghost use Rattle.rip_table.specs.Tallies.{counts_of};
ghost use Rattle.rip_report.specs.Hearings.{LogComesTo};
ghost use Rattle.rip_report.specs.LeftOut.{is_all_joined};
ghost use Rattle.rip_report.specs.AuditText.{AuditText, VerdictText};
ghost use Rattle.rip_report.specs.ExplainText.{ExplainText};
ghost use Rattle.rip_report.specs.ReportText.{AreRead, IsAccepted, IsTable, ReportText};
ghost use Rattle.rip_report.specs.Sent.{WentOut};
ghost use Rattle.rip_report.specs.WatchText.{EndsAsJudged, LiesWithin};
ghost use Rattle.rip_log.specs.Taken.{Taken};

use rip_capture::laws::{one_origin, packet_bytes};
use rip_check::laws::one_set_of_tables;
use rip_log::laws::{log_texts, timed_records, timed_texts};
use rip_plan::laws::{one_plan, well_formed_texts};
use rip_table::laws::{calm_counts, calm_logs, last_seconds, lines_come_to, new_states, one_join};

/// Nothing is refused, a stranger's or bad exactly where the log is accepted, and the table of what
/// is not refused is then the one that is judged.
pub fn accepted_logs()
    ensures accepted { (n : Network) (text : List ℕ) (events : List EventAt) (s : State) →
        IsLawful n → LogComesTo n text events s →
        (is_all_joined (counts_of events) ≡ true) ↔ IsTable n text s }
    ensures table { (n : Network) (text : List ℕ) (events : List EventAt) (s t : State) →
        IsLawful n → LogComesTo n text events s → IsTable n text t → s ≡ t }
{
    log_texts();
    rip_log::laws::said_lines();
    new_states();
    lines_come_to();
    calm_logs();
    calm_counts();
}

/// Of a plan and a log that are accepted no two sets of tables are shown.
pub fn accepted_tables()
    ensures { (plan text : List ℕ) (n : Network) (s : State) →
        IsAccepted plan text n s → OneIsShown n (told n s) }
{
    one_set_of_tables();
}

/// Where a plan and a log are accepted, the headline of `audit` and of `explain` speaks of them,
/// the answer is not Refused, and what is printed is the text of the verdict, or of its
/// explanation.
pub fn accepted_answers()
    ensures read { (plan text : List ℕ) (n : Network) (s : State) →
        IsAccepted plan text n s → AreRead plan text n s }
    ensures audit { (plan text : List ℕ) (all : Bool) (n : Network) (s : State)
        (old new : Taken) (status : Status) → IsAccepted plan text n s →
        WentOut (AuditText plan text all) old new status →
        (status ≢ Status.Refused) × WentOut (VerdictText n s all) old new status }
    ensures explain { (plan text : List ℕ) (all : Bool) (n : Network) (s : State)
        (old new : Taken) (status : Status) → IsAccepted plan text n s →
        WentOut (ReportText (λ n s. ExplainText n s all) plan text) old new status →
        (status ≢ Status.Refused) × WentOut (ExplainText n s all) old new status }
{
    log_texts();
    one_plan();
    one_join();
    well_formed_texts();
}

/// Of a log with times that lies within a window, and that `audit` accepts with the plan where it
/// has no times, the verdict on the last second is that of `audit`.
pub fn last_verdicts()
    ensures { (plan text plain : List ℕ) (window : ℕ) (n : Network) (s : State)
        (said : List LineSaid) → IsAccepted plan plain n s → LiesWithin window text plain →
        TextSays text said → EndsAsJudged n (log_seconds n window said) s }
{
    timed_texts();
    timed_records();
    last_seconds();
}

/// Each packet of a file is counted as one thing, and passwords and authentication are left out of
/// whole datagrams alone.
pub fn counted_packets()
    ensures kinds { (carriers : List Carrier) → length carriers
        ≡ count_of is_datagram carriers + count_of is_cut carriers + count_of is_fragment carriers
        + count_of is_malformed carriers + count_of is_long carriers + mixed_count carriers
        + count_of is_elsewhere carriers + count_of is_other carriers }
    ensures passwords { (how : Manner) (carriers : List Carrier) →
        (counts_of_packets how carriers).passwords
        ≤ (counts_of_packets how carriers).datagrams }
    ensures authentication { (how : Manner) (carriers : List Carrier) →
        (counts_of_packets how carriers).without_authentication
        ≤ (counts_of_packets how carriers).datagrams }
    // None is taken off where that was not asked for.
    ensures as_sent { (how : Manner) (carriers : List Carrier) →
        how.authentication ≡ Authentication.AsSent →
        (counts_of_packets how carriers).without_authentication ≡ 0 }
{}

/// What a log has of a capture file ends a line; and if no line of it is bad, the file is a
/// capture, all its datagrams to 224.0.0.9 are there whole, and they are the records of these
/// lines.
pub fn logged_files()
    ensures ends { (how : Manner) (number lines after : ℕ) (part : Part) (bytes text : List ℕ)
        (answer : Result Status RunError) →
        FileText how number lines part bytes text after answer → EndsLine text }
    ensures says { (how : Manner) (number lines after : ℕ) (file : File) (text : List ℕ)
        (answer : Result Status RunError) (records : List Numbered) → how.times ≡ false →
        IsFile file →
        FileText how number lines file.part file.bytes text after answer → LogText text records →
        (answer ≡ Ok Status.Done) × HasDatagrams how file (map (λ r. r.capture) records) }
{
    log_texts();
    packet_bytes();
    one_origin();
    rip_wire::laws::names();
    rip_wire::laws::address_texts();
}

/// A log that a file has ended is the log of its files and of any more.
pub fn stopped_logs()
    ensures { (how : Manner) (files more : List File) (text : List ℕ)
        (answer : Result Status RunError) → LogOf how files text answer →
        (answer ≡ Ok Status.Refused) ⊎ (is_err answer ≡ true) →
        LogOf how (files ++ more) text answer }
{}

/// Where a log of capture files has no bad line, each file is a capture, all its datagrams to
/// 224.0.0.9 are there whole, and they are the records of the log, in order, and nothing else is:
/// with zeros for a password, and without their authentication where that was asked for and it
/// fits.
pub fn captured_logs()
    ensures says { (how : Manner) (files : List File) (text : List ℕ)
        (answer : Result Status RunError) (records : List Numbered) → how.times ≡ false →
        LogOf how files text answer →
        AllByRecursion IsFile files → LogText text records →
        (answer ≡ Ok Status.Done) × HaveDatagrams how files (map (λ r. r.capture) records) }
    // The table of such a log, as the commands take it, is the join of just these datagrams.
    ensures joined { (how : Manner) (files : List File) (text : List ℕ)
        (answer : Result Status RunError) (n : Network) (s : State) → how.times ≡ false →
        LogOf how files text answer → AllByRecursion IsFile files → IsTable n text s →
        (records : List Numbered)
        × HaveDatagrams how files (map (λ r. r.capture) records)
        × IsJoined n (new_state n) records s }
{
    log_texts();
    packet_bytes();
    one_origin();
    rip_wire::laws::names();
    rip_wire::laws::address_texts();
}

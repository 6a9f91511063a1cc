//! The command `log`: a log of the datagrams in capture files.

mod authentication;
mod counts;
mod ending;
mod lines;
mod log;
mod logged;
mod manner;
mod packets;
mod part;
mod selection;
mod tally;
mod times;

ghost use Rattle.std.specs.Prelude.{◌≡◌, ◌≢◌, ◌⊎◌, ◌+◌, ◌^◌, ◌<◌, ◌≤◌, ◌++◌, ◌∷◌, [], ℕ, List, Some, None, Err, Ok, IfErr, IfOk, length, true};
ghost use Rattle.rip_capture.specs.NextCall.{Stands, refusal_of, source_of};
ghost use Rattle.rip_capture.specs.Origins.{origin_in};
ghost use Rattle.rip_report.specs.Selections.{part_of};
ghost use Rattle.rip_report.specs.Finished.{EndsWith};
ghost use Rattle.rip_report.specs.CaptureLogs.{AddsFile, AddsUnread, File, GoesOn, IsLogOf, LogOf, SaysFiles, answer_so_far, manner_of, status_of, worse};
ghost use Rattle.rip_log.specs.declared.limits.TheConstants.{MOST_LINES};
ghost use Rattle.rip_report.specs.CapturePackets.{ClosesFile};
ghost use Rattle.rip_log.specs.Taken.{Took};
ghost use Rattle.rip_log.specs.Wholes.{Went};
ghost use Rattle.rip_wire.specs.Name.{IsName};
ghost use Rattle.rip_report.specs.Given.{IsGiven};
ghost use Rattle.rip_report.specs.Sent.{sink_state};
ghost use Rattle.rip_report.specs.Statuses.{fault_line_of};
ghost use Rattle.rip_report.specs.Written.{line};
ghost use Rattle.rip_report.specs.declared.captures.manner.Manner.{Manner};
ghost use Rattle.rip_report.specs.LineTimes.{FitsSpan};
ghost use Rattle.rip_report.specs.declared.captures.log.CaptureLog.{CaptureLog};
ghost use Rattle.rip_report.specs.declared.captures.tally.Tally.{Tally};
ghost use Rattle.rip_report.specs.declared.status.Status.{Status};

pub use crate::captures::authentication::Authentication;
use crate::captures::ending::Ending;
use crate::captures::lines::{push_comment, push_file_refusal_line};
pub use crate::captures::log::CaptureLog;
pub use crate::captures::manner::Manner;
use crate::captures::packets::log_packets;
pub use crate::captures::part::{FilePart, Selection};
use crate::captures::tally::Tally;
use crate::laws::logged_files;
use crate::output::Out;
use crate::status::{RunError, Status, fault_line};
use rip_capture::laws::{early_faults, long_captures, read_captures};
use rip_capture::{CaptureReader, FirstOrigin};
use rip_log::laws::two_texts;
use rip_log::{Failed, MOST_LINES, Sink, Source};
use std::alloc::Global;

/// This status, or Unclear where that of the files before is.
fn worse(before: Status, status: Status) -> Status
    ensures { result ≡ worse before status }
{
    match before {
        Status::Done => status,
        other => other,
    }
}

/// Adds the comment of a file, and tells the log of it.
fn close_whole<K: Sink>(
    log: &mut CaptureLog,
    link: &str,
    tally: Tally,
    mut out: Out<K>,
) -> (K, Result<Status, RunError>)
    requires later { log.old.lines ≤ tally.lines }
    requires room { tally.lines < MOST_LINES }
    requires span { FitsSpan tally.span }
    ensures closes { ClosesFile out.start (sink_state K.taken K.broken result.0) log.old log.new
        link.now out.text (Ending.Whole tally) result.1 }
    ensures manner { manner_of log.new ≡ manner_of log.old }
{
    let number = log.files + 1;
    push_comment(&mut out, number, link, &tally);
    let (sink, answer) = out.finish_with(Ok(tally.counts.status()));
    if let Ok(status) = answer {
        *log = CaptureLog {
            manner: log.manner,
            files: number,
            lines: tally.lines + 1,
            status: worse(log.status, status),
        };
    }
    (sink, answer)
}

/// Adds the last line of a file, and tells the log of it.
fn close_file<K: Sink>(
    log: &mut CaptureLog,
    link: &str,
    ending: Ending,
    mut out: Out<K>,
) -> (K, Result<Status, RunError>)
    requires whole { (tally : Tally) → ending ≡ Ending.Whole tally →
        (log.old.lines ≤ tally.lines) × (tally.lines < MOST_LINES) }
    requires span { (tally : Tally) → ending ≡ Ending.Whole tally → FitsSpan tally.span }
    requires unwritten { ending ≡ Ending.Unwritten → out.failed ≡ true }
    ensures closes { ClosesFile out.start (sink_state K.taken K.broken result.0) log.old log.new
        link.now out.text ending result.1 }
    ensures manner { manner_of log.new ≡ manner_of log.old }
{
    match ending {
        Ending::Whole(tally) => close_whole(log, link, tally, out),
        Ending::Refused { code, at } => {
            push_file_refusal_line(&mut out, log.files + 1, link, code, at);
            out.finish_with(Ok(Status::Refused))
        }
        Ending::Unread => {
            out.push("failed: read\n");
            out.finish_with(Err(RunError::Read))
        }
        Ending::Unwritten => {
            let (sink, _) = out.finish();
            (sink, Err(RunError::Write))
        }
    }
}

/// Writes the line of a failure as the last one of a log, so that nobody takes the log for a whole
/// one: a file could not be opened, or there is no memory for one. The sink comes back.
pub fn log_failure<K: Sink>(error: RunError, out: K) -> (K, Result<Status, RunError>)
    requires { error ≢ RunError.Write }
    ensures ends { EndsWith (sink_state K.taken K.broken out) (sink_state K.taken K.broken result.0)
        (line (fault_line_of error)) (Err error) result.1 }
    // Behind a log of files it makes the log that ends with one more, whatever that is.
    ensures goes_on { (log : CaptureLog) (files : List File) (text : List ℕ) (file : File) →
        IsLogOf log files text → result.1 ≢ Err RunError.Write → (part : List ℕ)
        × Took (K.taken out) (K.taken result.0) part
        × LogOf (manner_of log) (files ++ file ∷ []) (text ++ part) result.1 }
    // A log with this line has a bad line.
    ensures says { (how : Manner) (files : List File) (text : List ℕ) (status : Status)
        (file : File) → SaysFiles how files text (Ok status) →
        result.1 ≢ Err RunError.Write → (part : List ℕ)
        × Took (K.taken out) (K.taken result.0) part
        × SaysFiles how (files ++ file ∷ []) (text ++ part) result.1 }
{
    logged_files();
    two_texts();
    let mut text = Out::new(out);
    text.push(fault_line(&error));
    text.end();
    text.finish_with(Err(error))
}

/// A reader of a capture file, and what is known of the first packet whose sender is known: nothing
/// yet. Where memory is refused, the file comes back.
fn open<R: Source>(alloc: Global, file: R) -> Result<(CaptureReader<R>, FirstOrigin), R>
    ensures source { IfOk result (λ o. source_of o.0 ≡ file) }
    ensures front { IfOk result (λ o. Stands R.given (R.given file) o.0 [] []) }
    ensures running { IfOk result (λ o. refusal_of o.0 ≡ None) }
    ensures first { IfOk result (λ o. origin_in o.1 ≡ None) }
    ensures refused { IfErr result (λ source. source ≡ file) }
{
    let Ok(first) = FirstOrigin::new(alloc) else {
        return Err(file);
    };
    match CaptureReader::new(alloc, file) {
        Ok(reader) => Ok((reader, first)),
        Err((_, file)) => Err(file),
    }
}

/// Writes what a log has of the part of a capture file that is a link's, behind the files that were
/// written before: a line for each packet that carries a RIP datagram to 224.0.0.9, and a comment
/// that counts all packets. Where the file is refused or cannot be read, the last line says so, no
/// comment follows, and no file should. The source and the sink come back. It allocates two
/// buffers, of the same size for every file.
pub fn run_log<R: Source, K: Sink>(
    alloc: Global,
    log: &mut CaptureLog,
    part: &FilePart<'_>,
    file: R,
    out: K,
) -> (R, K, Result<Status, RunError>)
    requires { IsName part.now.link.now }
    // The whole text went out, or a beginning where the sink failed.
    ensures prints { (bytes : List ℕ) → IsGiven R.given R.at_end file result.0 bytes →
        AddsFile K.taken K.broken out result.1 log.old log.new (part_of part.now) bytes result.2 }
    // Where the source failed, no packet is left out that it gave whole.
    ensures unread { (bytes : List ℕ) → R.given result.0 ≡ R.given file ++ bytes →
        result.2 ≡ Err RunError.Read →
        AddsUnread K.taken out result.1 (manner_of log.old) (part_of part.now) bytes }
    // Where there is no memory, the file comes back as it was.
    ensures untouched { result.2 ≡ Err RunError.Memory → result.0 ≡ file }
    // Behind a log of files that are captures it has the log of one more, or one that ends with it.
    ensures goes_on { (bytes : List ℕ) → IsGiven R.given R.at_end file result.0 bytes →
        (files : List File) (text : List ℕ) → IsLogOf log.old files text →
        result.2 ≢ Err RunError.Write → (more : List ℕ)
        × Took (K.taken out) (K.taken result.1) more
        × GoesOn log.new (files ++ record { part = part_of part.now; bytes = bytes } ∷ [])
        (text ++ more) result.2 }
    // Behind a log that says the datagrams of some files, and nothing else, it says those of this
    // one too, or has a bad line.
    ensures says { (bytes : List ℕ) → IsGiven R.given R.at_end file result.0 bytes →
        (files : List File) (text : List ℕ) →
        SaysFiles (manner_of log.old) files text (Ok (status_of log.old)) →
        result.2 ≢ Err RunError.Write → (more : List ℕ)
        × Took (K.taken out) (K.taken result.1) more
        × SaysFiles (manner_of log.old)
        (files ++ record { part = part_of part.now; bytes = bytes } ∷ []) (text ++ more)
        (answer_so_far log.new result.2) }
    // How it is written stays.
    ensures manner { manner_of log.new ≡ manner_of log.old }
    // The bytes given are the first of those to come, where these are modelled.
    ensures went { Went R.given R.coming R.at_end file result.0 }
    ensures to_come { (bytes : List ℕ) → R.coming file ≡ Some bytes →
        IsGiven R.given R.at_end file result.0 bytes }
    // Read only where the source has failed, or a file has 2^64 - 2^32 bytes or more.
    ensures read { (bytes : List ℕ) → IsGiven R.given R.at_end file result.0 bytes →
        result.2 ≡ Err RunError.Read →
        (R.broken result.0 ≡ true) ⊎ (2 ^ 64 ≤ length bytes + 2 ^ 32) }
    // Every other answer but Write leaves the source's mark as it was.
    ensures source { result.2 ≢ Err RunError.Read → result.2 ≢ Err RunError.Write →
        R.broken result.0 ≡ R.broken file }
{
    long_captures();
    early_faults();
    read_captures();
    logged_files();
    two_texts();
    match open(alloc, file) {
        Err(file) => {
            let (out, answer) = log_failure(RunError::Memory, out);
            (file, out, answer)
        }
        Ok((mut reader, mut first)) => {
            let mut text = Out::new(out);
            let manner = log.manner;
            let lines = log.lines;
            let ending = log_packets(&mut reader, part, manner, lines, &mut first, &mut text);
            let (out, answer) = close_file(log, part.link, ending, text);
            (reader.into_source(), out, answer)
        }
    }
}

//! The files of `log`: opened one after the other, and added to a log.

ghost use Rattle.std.specs.Prelude.{◌≡◌, ◌≢◌, ◌+◌, ◌∷◌, ◌++◌, ◌<◌, [], ℕ, List, Err, true, false, IfNone, IfOk, IfSome, IsSome, Ok, length, map, vec_capacity, vec_len};
ghost use Rattle.std.specs.List.{AllByRecursion};
ghost use Rattle.rip_wire.specs.Name.{IsName};
ghost use Rattle.rip_log.specs.LogText.{LogText};
ghost use Rattle.rip_log.specs.Logs.{Numbered};
ghost use Rattle.rip_log.specs.Taken.{Took};
ghost use Rattle.rip_report.specs.CaptureLogs.{File, GoesOn, HaveDatagrams, IsFile, IsLogOf, LogOf, manner_of};
ghost use Rattle.rip_report.specs.declared.status.RunError.{RunError};
ghost use Rattle.rip_report.specs.declared.status.Status.{Status};
ghost use Rattle.ripaudit.specs.CaptureFiles.{AreFilesOf, ClosedSource, HasGiven, HasGivenAt, HasGivenIf, NamesFile, ends_log};
ghost use Rattle.rip_report.specs.Selections.{part_of};
ghost use Rattle.ripaudit.specs.CaptureWords.{AreFineWords, part_in};

use crate::command_line::{read_failure, told_input};
use crate::words::{CaptureWord, capture_word};
use rip_log::{FromRead, Sink};
use rip_report::laws::{captured_logs, stopped_logs};
use rip_report::{CaptureLog, FilePart, Manner, RunError, Status, log_failure, run_log};
use std::alloc::Global;
use std::fs;
use std::io::{IsTerminal, Read};
use std::rt::Files;

/// A source whose reader is closed.
type Closed = FromRead<&'static [u8]>;

/// Adds a capture file of a link to a log, as a reader gives it. Its source comes back, closed, and
/// the sink.
fn log_reader<L: Read + Drop, K: Sink>(
    alloc: Global,
    log: &mut CaptureLog,
    part: &FilePart<'_>,
    reader: L,
    out: K,
) -> (Closed, K, Result<Status, RunError>)
    requires { IsName part.now.link.now }
    ensures goes_on { (bytes : List ℕ) → HasGiven result.0 bytes →
        (files : List File) (text : List ℕ) → IsLogOf log.old files text →
        result.2 ≢ Err RunError.Write → (more : List ℕ)
        × Took (K.taken out) (K.taken result.1) more
        × GoesOn log.new (files ++ record { part = part_of part.now; bytes = bytes } ∷ [])
        (text ++ more) result.2 }
    ensures write { result.2 ≡ Err RunError.Write → K.broken result.1 ≡ true }
    ensures manner { manner_of log.new ≡ manner_of log.old }
{
    let (source, out, answer) = run_log(alloc, log, part, FromRead::new(reader), out);
    (source.close(), out, answer)
}

/// Adds the capture file of a word to a log. Its source comes back, closed, if it was opened.
fn log_file<R: Files + AllocGlobal + Input + Eprint, K: Sink>(
    rt: &R,
    log: &mut CaptureLog,
    word: &CaptureWord<'_>,
    out: K,
) -> (Option<Closed>, K, Result<Status, RunError>)
where
    R::Reader: IsTerminal,
    requires { IsName word.now.link.now }
    ensures goes_on { (bytes : List ℕ) → HasGivenIf result.0 bytes →
        (files : List File) (text : List ℕ) → IsLogOf log.old files text →
        result.2 ≢ Err RunError.Write → (more : List ℕ)
        × Took (K.taken out) (K.taken result.1) more
        × GoesOn log.new (files ++ record { part = part_in word.now; bytes = bytes } ∷ [])
        (text ++ more) result.2 }
    ensures opened { IfOk result.2 (λ _. IsSome result.0) }
    ensures write { result.2 ≡ Err RunError.Write → K.broken result.1 ≡ true }
    ensures manner { manner_of log.new ≡ manner_of log.old }
{
    let alloc = rt.alloc();
    let part = word.part();
    if word.is_input() {
        let input = told_input(rt, "reading the capture from standard input");
        let (source, out, answer) = log_reader(alloc, log, &part, input, out);
        return (Some(source), out, answer);
    }
    match fs::open(rt, word.path) {
        Ok(file) => {
            let (source, out, answer) = log_reader(alloc, log, &part, file, out);
            (Some(source), out, answer)
        }
        Err(error) => {
            let (out, answer) = log_failure(read_failure(&error), out);
            (None, out, answer)
        }
    }
}

/// Puts a source behind the others, if there is one.
fn keep(sources: &mut Vec<Closed>, source: Option<Closed>)
    requires room { vec_len sources.old < vec_capacity sources.old }
    ensures some { IfSome source.entry (λ s. sources.new.items ≡ sources.old.items ++ s ∷ []) }
    ensures none { IfNone source.entry (sources.new.items ≡ sources.old.items) }
{
    if let Some(source) = source {
        let _ = sources.push(source);
    }
}

/// Adds the capture file that a word names to a log. Its source comes behind the others, closed, if
/// it was opened.
fn log_word<R: Files + AllocGlobal + Input + Eprint, K: Sink>(
    rt: &R,
    log: &mut CaptureLog,
    word: &str,
    sources: &mut Vec<Closed>,
    out: K,
) -> (K, Result<Status, RunError>)
where
    R::Reader: IsTerminal,
    requires { (file : File) × NamesFile word.now file }
    ensures goes_on { (file : File) → NamesFile word.now file →
        HasGivenAt sources.new.items (length sources.old.items) file.bytes →
        (files : List File) (text : List ℕ) → IsLogOf log.old files text →
        result.1 ≢ Err RunError.Write → (part : List ℕ)
        × Took (K.taken out) (K.taken result.0) part
        × GoesOn log.new (files ++ file ∷ []) (text ++ part) result.1 }
    ensures kept { (more : List ClosedSource) × (sources.new.items ≡ sources.old.items ++ more) }
    ensures read { IfOk result.1
        (λ _. length sources.new.items ≡ length sources.old.items + 1) }
    ensures write { result.1 ≡ Err RunError.Write → K.broken result.0 ≡ true }
    ensures manner { manner_of log.new ≡ manner_of log.old }
{
    let Some(word) = capture_word(word) else {
        unreachable!();
    };
    if sources.reserve(1).is_err() {
        return log_failure(RunError::Memory, out);
    }
    let (source, out, answer) = log_file(rt, log, &word, out);
    keep(sources, source);
    (out, answer)
}

/// Whether the answer of a file ends a log.
fn ends_log(answer: &Result<Status, RunError>) -> bool
    ensures { result ≡ ends_log answer.now }
{
    matches!(answer, Ok(Status::Refused) | Err(_))
}

/// Adds the capture files of all words to a log, up to one that is refused or that cannot be read.
/// The sources of those that were opened come back, closed.
pub(crate) fn log_files<R: Files + AllocGlobal + Input + Eprint, K: Sink>(
    rt: &R,
    manner: Manner,
    words: &[&str],
    out: K,
) -> (Vec<Closed>, K, Result<Status, RunError>)
where
    R::Reader: IsTerminal,
    requires fine { AreFineWords (map (λ w. w.now) words.now) }
    // What went out is the log of these files, whole or up to the one that ends it.
    ensures log { (files : List File) →
        AreFilesOf (map (λ w. w.now) words.now) result.0.items files →
        result.2 ≢ Err RunError.Write → (text : List ℕ)
        × Took (K.taken out) (K.taken result.1) text
        × LogOf manner files text result.2 }
    // If it is without times, and no line of it is bad, each file is a capture, and it has just
    // their datagrams.
    ensures says { manner.times ≡ false → (files : List File) →
        AreFilesOf (map (λ w. w.now) words.now) result.0.items files →
        AllByRecursion IsFile files → result.2 ≢ Err RunError.Write → (text : List ℕ)
        × Took (K.taken out) (K.taken result.1) text
        × ((records : List Numbered) → LogText text records → (result.2 ≡ Ok Status.Done)
        × HaveDatagrams manner files (map (λ r. r.capture) records)) }
    // Write only where the sink has failed.
    ensures write { result.2 ≡ Err RunError.Write → K.broken result.1 ≡ true }
{
    captured_logs();
    stopped_logs();
    let mut log = CaptureLog::new(manner);
    let mut sources = Vec::new(rt.alloc());
    let mut out = out;
    for i in 0..words.len() {
        let (back, answer) = log_word(rt, &mut log, words[i], &mut sources, out);
        out = back;
        if ends_log(&answer) {
            return (sources, out, answer);
        }
    }
    (sources, out, Ok(log.status()))
}

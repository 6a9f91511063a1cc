//! Laws of the definitions alone: functions that do nothing, whose contracts hold of every text,
//! every log and every time.

ghost use Rattle.std.specs.Prelude.{◌≡◌, ◌⊎◌, ◌↔◌, ◌+◌, ◌/◌, ◌^◌, ◌≤◌, ℕ, List, [], ◌∷◌, ◌++◌, codes, length, map, take, Option, Some, None, Result, Ok, Err, false, true};
ghost use Rattle.std.specs.Cmp.Lexicographic.{slice_cmp};
ghost use Rattle.std.specs.Option.{option_map};
ghost use Rattle.std.specs.Ordering.{nat_cmp};
ghost use Rattle.rip_log.specs.Codes.{is_read};
ghost use Rattle.rip_log.specs.Cuts.{PassesLines};
ghost use Rattle.rip_log.specs.Said.{AllSaid, AreAllSaid, HasNoFault, all_said, captured_all, log_said, said_at};
ghost use Rattle.rip_log.specs.NextCall.{capture_of, line_of};
ghost use Rattle.rip_log.specs.Lines.{Capture, judge, lines_of};
ghost use Rattle.rip_log.specs.Logs.{Gives, Log, Numbered, log_at, log_in};
ghost use Rattle.rip_log.specs.LogText.{AreLines, AreRecords, EndsLine, IsLineJudged, LogFailed, LogFault, LogText};
ghost use Rattle.rip_log.specs.Runs.{IsTaken, numbered};
ghost use Rattle.rip_log.specs.TimedText.{AreCaptured, AreTimedOf, AreTimedSaid, IsTimedLine, LineSaid, TimedSaid};
ghost use Rattle.rip_log.specs.Times.{IsSecondText, IsTimeText};
ghost use Rattle.rip_log.specs.declared.error.LogCode.{LogCode};
ghost use Rattle.rip_log.specs.declared.error.LogError.{LogError};
ghost use Rattle.rip_log.specs.declared.reader.Record.{Record};

use crate::limits::{
    MOST_HELD_BYTES, MOST_LINE_BYTES, MOST_LINE_NUMBER, MOST_LINES, MOST_MICROS, MOST_PASSED_BYTES,
    MOST_SECONDS,
};
use rip_wire::laws;

/// The limits of a log, and of times in text.
pub fn limits()
    ensures bytes { MOST_LINE_BYTES ≡ 2048 }
    ensures lines { MOST_LINES ≡ 1000000 }
    ensures passed { MOST_PASSED_BYTES + 1 ≡ 2 ^ 64 }
    ensures number { MOST_LINE_NUMBER + 1 ≡ 2 ^ 64 }
    ensures held { MOST_HELD_BYTES ≡ 32768 }
    ensures micros { MOST_MICROS ≡ 253402300799999999 }
    ensures seconds { MOST_SECONDS ≡ 253402300799 }
{}

/// What is computed of a line is what the words of the format say: it is skipped, or is a record,
/// or is bad by the first of its faults.
pub fn judged_lines()
    ensures { (line : List ℕ) (judged : Result (Option Capture) LogCode) →
        (judge line ≡ judged) ↔ IsLineJudged line judged }
{
    laws::names();
    laws::address_texts();
    laws::first_faults();
}

/// What a reader has to come at the front of a text is what the words of the format say: its
/// records, and its first fault.
pub fn log_texts()
    ensures text { (text : List ℕ) (records : List Numbered) →
        (log_in (Some text) ≡ Some (record { records = records; fault = None }))
        ↔ LogText text records }
    ensures fault { (text : List ℕ) (records : List Numbered) (e : LogError) →
        (log_in (Some text) ≡ Some (record { records = records; fault = Some e }))
        ↔ LogFault text records e.line e.code }
{
    judged_lines();
}

/// A log of two texts, of which the first ends a line, has the records of both: if no line of it is
/// bad, none of theirs is. Only the numbers of lines differ.
pub fn two_texts()
    ensures { (text more : List ℕ) (records : List Numbered) → EndsLine text →
        LogText (text ++ more) records → (first second : List Numbered)
        × LogText text first × LogText more second
        × (map (λ r. r.capture) records
        ≡ map (λ r. r.capture) first ++ map (λ r. r.capture) second) }
{
    log_texts();
}

/// What all lines of a text say is what the words of the format say: each that is not skipped is a
/// record, or is bad, and of a bad datagram its link and sender are told.
pub fn said_lines()
    ensures { (text : List ℕ) (all : AllSaid) → (all_said text ≡ all) ↔ AreAllSaid text all }
{
    judged_lines();
    laws::address_texts();
}

/// A log is what its lines say, up to the first that is bad.
pub fn logs_said()
    ensures { (n : ℕ) (text : Option (List ℕ)) → n ≤ MOST_LINES →
        log_at n text ≡ option_map log_said (said_at n text) }
{}

/// Lines say records alone, and are not too many, exactly where they are a log without a fault, and
/// then its records.
pub fn good_lines()
    ensures log { (n : ℕ) (text : List ℕ) (records : List Numbered) →
        (log_at n (Some text) ≡ Some (record { records = records; fault = None }))
        ↔ (said_at n (Some text)
        ≡ Some (record { said = captured_all records; too_many = false })) }
    ensures records { (all : AllSaid) → HasNoFault all
        ↔ ((records : List Numbered)
        × (all ≡ record { said = captured_all records; too_many = false })) }
{}

/// A line's fault is the same whatever follows the line, and that of a line that is too long, or
/// one too many, whatever else follows.
pub fn early_faults()
    ensures ended { (text more others : List ℕ) (lines : List (List ℕ)) (records : List Numbered)
        (line : ℕ) (code : LogCode) → AreLines (text ++ 10 ∷ []) lines → line ≤ length lines →
        LogFault (text ++ 10 ∷ more) records line code →
        LogFault (text ++ 10 ∷ others) records line code }
    ensures at_once { (text more : List ℕ) (records : List Numbered) (line : ℕ) (code : LogCode) →
        (code ≡ LogCode.LongLine) ⊎ (code ≡ LogCode.TooManyLines) →
        LogFault text records line code → LogFault (text ++ more) records line code }
{
    judged_lines();
}

/// The records of a whole run: from the front of a log each call adds its record to those that were
/// taken, and at the end, or at a fault, these are all the log's records.
pub fn whole_runs()
    ensures none { (log : Log) → IsTaken [] log log }
    ensures more { (taken : List Numbered) (log rest : Log) (new : Option Log) (r : Record) →
        IsTaken taken log rest → Gives capture_of line_of (Some rest) new (Ok (Some r)) →
        (later : Log) × (new ≡ Some later) × IsTaken (taken ++ numbered r ∷ []) log later }
    ensures end { (taken : List Numbered) (log rest : Log) (new : Option Log) →
        IsTaken taken log rest → Gives capture_of line_of (Some rest) new (Ok None) →
        log ≡ record { records = taken; fault = None } }
    ensures fault { (taken : List Numbered) (log rest : Log) (new : Option Log) (e : LogError) →
        IsTaken taken log rest → is_read e.code ≡ false →
        Gives capture_of line_of (Some rest) new (Err e) →
        log ≡ record { records = taken; fault = Some e } }
{}

/// The lines of a whole run: from the front of a text each call adds those that it passed, and
/// where the source fails, the records that were taken are those of these lines, and the line that
/// was being read is the next.
pub fn lines_of_runs()
    ensures none { (text : List ℕ) → PassesLines (Some text) 0 (Some text) 0 }
    ensures more { (text left new : Option (List ℕ)) (n behind after : ℕ) →
        PassesLines text n left behind → PassesLines left behind new after →
        PassesLines text n new after }
    ensures read { (text left : List ℕ) (taken : List Numbered) (log rest : Log) (n : ℕ)
        (e : LogError) → log_in (Some text) ≡ Some log → IsTaken taken log rest →
        is_read e.code ≡ true →
        Gives capture_of line_of (Some rest) (log_at n (Some left)) (Err e) →
        PassesLines (Some text) 0 (Some left) n → n ≤ MOST_LINES →
        LogFailed text left taken (n + 1) }
{
    judged_lines();
}

/// A time has one text, and a text is that of one time.
pub fn time_texts()
    ensures text { (micros : ℕ) (a b : List ℕ) → IsTimeText micros a → IsTimeText micros b →
        a ≡ b }
    ensures time { (m n : ℕ) (text : List ℕ) → IsTimeText m text → IsTimeText n text → m ≡ n }
{}

/// A line of a log with times says one thing.
pub fn timed_lines()
    ensures { (line : List ℕ) (a b : Option TimedSaid) → IsTimedLine line a → IsTimedLine line b →
        a ≡ b }
{
    laws::names();
    laws::address_texts();
    laws::first_faults();
}

/// The lines of a text are those that are computed. Any lines say something, as those of a log with
/// times, and one thing.
pub fn timed_texts()
    ensures lines { (text : List ℕ) (lines : List (List ℕ)) → AreLines text lines
        ↔ (lines ≡ lines_of text) }
    ensures exists { (n : ℕ) (lines : List (List ℕ)) →
        (said : List LineSaid) × AreTimedSaid n lines said }
    ensures one { (n : ℕ) (lines : List (List ℕ)) (a b : List LineSaid) → AreTimedSaid n lines a →
        AreTimedSaid n lines b → a ≡ b }
{
    timed_lines();
    laws::names();
    laws::address_texts();
    laws::first_faults();
}

/// The lines of a log with times say the captures of the records of the log without them.
pub fn timed_records()
    ensures { (m n : ℕ) (lines bares : List (List ℕ)) (said : List LineSaid)
        (records : List Numbered) → AreTimedOf lines bares → AreRecords m bares records →
        AreTimedSaid n lines said → AreCaptured said records }
{
    timed_lines();
}

/// Texts come in the order of their times, where bytes are compared from the left.
pub fn time_order()
    ensures { (m n : ℕ) (a b : List ℕ) → IsTimeText m a → IsTimeText n b →
        slice_cmp nat_cmp a b ≡ nat_cmp m n }
{}

/// A second has one text: the first 19 bytes of the text of each time in it, and a Z.
pub fn second_texts()
    ensures text { (second : ℕ) (a b : List ℕ) → IsSecondText second a → IsSecondText second b →
        a ≡ b }
    ensures front { (micros : ℕ) (text : List ℕ) → IsTimeText micros text →
        IsSecondText (micros / 1_000_000) (take 19 text ++ codes "Z") }
{}

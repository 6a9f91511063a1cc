//! Lines, and parts of lines, that tell who is in a log.

ghost use Rattle.rip_report.specs.HeardText.{bad_line, counted_line, counted_part, datagram_part, lines_part, responses_part};
ghost use Rattle.rip_report.specs.Outs.{Adds};

use crate::output::Out;
use crate::refusal::{push_log_code, push_wire_fault};
use rip_log::{LogCode, Sink};
use rip_table::Lines;

/// Adds the first and the last line of a kind.
pub(super) fn push_lines<K: Sink>(out: &mut Out<K>, lines: Lines)
    ensures { Adds out.old out.new (lines_part lines) }
{
    out.push(", lines ");
    out.push_number(u64::from(lines.first));
    out.push(" to ");
    out.push_number(u64::from(lines.last));
}

/// Adds how many lines of a kind there are, and these.
pub(super) fn push_counted<K: Sink>(out: &mut Out<K>, lines: Lines)
    ensures { Adds out.old out.new (counted_part lines) }
{
    out.push_number(u64::from(lines.count));
    push_lines(out, lines);
}

/// Adds how many responses there are, and their lines.
pub(super) fn push_responses<K: Sink>(out: &mut Out<K>, lines: Lines)
    ensures { Adds out.old out.new (responses_part lines) }
{
    out.push_number(u64::from(lines.count));
    out.push(" responses");
    push_lines(out, lines);
}

/// Adds the line of a word and of lines, where there are any.
#[tactic(auto, unfolding(crate::specs::HeardText::counted_line))]
pub(super) fn push_counted_line<K: Sink>(out: &mut Out<K>, word: &str, lines: Lines)
    ensures { Adds out.old out.new (counted_line word.now lines) }
{
    if lines.count != 0 {
        out.push(word);
        push_counted(out, lines);
        out.end();
    }
}

/// Adds why a line is bad by its datagram.
fn push_datagram_code<K: Sink>(out: &mut Out<K>, code: LogCode)
    ensures { Adds out.old out.new (datagram_part code) }
{
    match code {
        LogCode::Wire(error) => push_wire_fault(out, error),
        other => push_log_code(out, other),
    }
}

/// Adds the line of those that are bad by their datagram, where there are any.
#[tactic(auto, unfolding(crate::specs::HeardText::bad_line))]
pub(super) fn push_bad_line<K: Sink>(out: &mut Out<K>, bad: Lines, first: Option<LogCode>)
    ensures { Adds out.old out.new (bad_line bad first) }
{
    if let Some(code) = first {
        out.push("  bad ");
        push_counted(out, bad);
        out.push(", first ");
        push_datagram_code(out, code);
        out.end();
    }
}

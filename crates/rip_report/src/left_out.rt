//! What is left out of a table.

ghost use Rattle.std.specs.Prelude.{◌≡◌};
ghost use Rattle.rip_report.specs.LeftOut.{anyway_status, count_part, is_all_joined, left_out_line, left_out_part, separator};
ghost use Rattle.rip_report.specs.Outs.{Adds};

use crate::output::Out;
use crate::status::Status;
use rip_log::Sink;
use rip_table::Counts;

/// Whether nothing is refused, a stranger's or bad.
pub(crate) fn is_all_joined(counts: Counts) -> bool
    ensures { result ≡ is_all_joined counts }
{
    counts.refused == 0 && counts.strangers == 0 && counts.bad == 0
}

/// Adds a count and its word after a separator, where it is not 0.
pub(crate) fn push_count<K: Sink>(out: &mut Out<K>, separator: &str, count: u64, word: &str)
    ensures { Adds out.old out.new (count_part separator.now count word.now) }
{
    if count > 0 {
        out.push(separator);
        out.push_number(count);
        out.push(word);
    }
}

/// Adds how much of a kind is left out, as a count.
fn push_left<K: Sink>(out: &mut Out<K>, separator: &str, count: u32, word: &str)
    ensures { Adds out.old out.new (count_part separator.now count word.now) }
{
    push_count(out, separator, u64::from(count), word);
}

/// Adds how much is left out, after other counts.
#[tactic(auto, unfolding(crate::specs::LeftOut::left_out_part))]
pub(crate) fn push_left_out<K: Sink>(out: &mut Out<K>, counts: Counts)
    ensures { Adds out.old out.new (left_out_part counts) }
{
    push_left(out, ", ", counts.refused, " refused");
    push_left(out, ", ", counts.strangers, " of strangers");
    push_left(out, ", ", counts.bad, " bad");
}

/// A colon before the first count, a comma before the others.
fn separator(is_first: bool) -> &'static str
    ensures { result.now ≡ separator is_first }
{
    if is_first { ": " } else { ", " }
}

/// Adds the line of what is left out, where anything is.
#[tactic(auto, unfolding(crate::specs::LeftOut::left_out_line))]
pub(crate) fn push_left_out_line<K: Sink>(out: &mut Out<K>, counts: Counts)
    ensures { Adds out.old out.new (left_out_line counts) }
{
    if is_all_joined(counts) {
        return;
    }
    let none_refused = counts.refused == 0;
    out.push("left out");
    push_left(out, ": ", counts.refused, " refused");
    push_left(
        out,
        separator(none_refused),
        counts.strangers,
        " of strangers",
    );
    let is_first = none_refused && counts.strangers == 0;
    push_left(out, separator(is_first), counts.bad, " bad");
    out.end();
}

/// This status, or Refused where anything is left out.
pub(crate) fn anyway_status(counts: Counts, status: Status) -> Status
    ensures { result ≡ anyway_status counts status }
{
    if is_all_joined(counts) {
        status
    } else {
        Status::Refused
    }
}

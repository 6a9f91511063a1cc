//! The bad lines of nobody.

ghost use Rattle.std.specs.Prelude.{◌≡◌, IsSome, List, Some, ℕ};
ghost use Rattle.rip_table.specs.Events.{EventAt};
ghost use Rattle.rip_table.specs.Tallies.{HasHeard, plain_code};
ghost use Rattle.rip_report.specs.HeardText.{plain_bad_line, plain_bad_lines, plain_lines};
ghost use Rattle.rip_report.specs.Outs.{Adds};

use crate::heard::lines::push_counted;
use crate::output::Out;
use crate::refusal::push_log_code;
use rip_log::{LogCode, Sink};
use rip_table::{Lines, Tallies};
use std::hash::BuildHasher;

/// Adds the line of those that are bad by a code that says nothing of where they came from, where
/// there are any.
#[tactic(auto, unfolding(crate::specs::HeardText::plain_bad_line))]
fn push_plain_bad_line<K: Sink>(out: &mut Out<K>, code: LogCode, lines: Lines)
    ensures { Adds out.old out.new (plain_bad_line code lines) }
{
    if lines.count != 0 {
        out.push("bad ");
        push_log_code(out, code);
        out.push(" ");
        push_counted(out, lines);
        out.end();
    }
}

/// Adds the line of those that are bad by such a code in a log.
fn push_bad_by<S: BuildHasher + Drop, K: Sink>(
    out: &mut Out<K>,
    tallies: &Tallies<S>,
    code: LogCode,
)
    requires { IsSome (plain_code code) }
    ensures { (events : List EventAt) (k : ℕ) → HasHeard tallies.now events →
        plain_code code ≡ Some k →
        Adds out.old out.new (plain_bad_line code (plain_lines k events)) }
{
    push_plain_bad_line(out, code, tallies.bad(code));
}

/// Adds the lines of the codes that say nothing of where a line came from.
pub(super) fn push_plain_bad<S: BuildHasher + Drop, K: Sink>(out: &mut Out<K>, tallies: &Tallies<S>)
    ensures { (events : List EventAt) → HasHeard tallies.now events →
        Adds out.old out.new (plain_bad_lines events) }
{
    push_bad_by(out, tallies, LogCode::LongLine);
    push_bad_by(out, tallies, LogCode::Fields);
    push_bad_by(out, tallies, LogCode::LinkName);
    push_bad_by(out, tallies, LogCode::Sender);
    push_bad_by(out, tallies, LogCode::Hex);
    push_bad_by(out, tallies, LogCode::TooManyLines);
}

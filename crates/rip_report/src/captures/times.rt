//! The times in front of the lines of a log.

ghost use Rattle.std.specs.Prelude.{◌≡◌, ◌≤◌, IfSome, Option};
ghost use Rattle.rip_capture.specs.NextCall.{frame_of};
ghost use Rattle.rip_log.specs.declared.limits.TheConstants.{MOST_MICROS};
ghost use Rattle.rip_log.specs.declared.time.date_time.DateTime.{DateTime};
ghost use Rattle.rip_report.specs.CaptureText.{is_timed};
ghost use Rattle.rip_report.specs.LineTimes.{AreShown, FindsTime, FitsSpan, IsShown, noted_span, span_part, time_part};
ghost use Rattle.rip_report.specs.Outs.{Adds};

use crate::captures::ending::RefusalCode;
use crate::captures::lines::has_line;
use crate::captures::logged::Logged;
use crate::captures::manner::Manner;
use crate::output::Out;
use rip_capture::Packet;
use rip_log::laws::second_texts;
use rip_log::{Sink, write_second, write_time};

/// The micros of a second.
const MICROS: u64 = 1_000_000;

/// Whether a packet has a line, which begins with a time.
pub(crate) fn is_timed(manner: Manner, logged: Logged) -> bool
    ensures { result ≡ is_timed manner logged }
{
    manner.times && has_line(logged)
}

/// The time of a packet's line in micros, where there has to be one.
pub(crate) fn line_time(packet: &Packet<'_>, asked: bool) -> Result<Option<u64>, RefusalCode>
    ensures { FindsTime asked (frame_of packet.now) result }
{
    if !asked {
        return Ok(None);
    }
    let Some(time) = packet.time else {
        return Err(RefusalCode::Time);
    };
    match time.micros() {
        Some(micros) => Ok(Some(micros)),
        None => Err(RefusalCode::Time),
    }
}

/// Room for a line with a time and a last line behind it: 27 bytes of time, 32 of a name, 15 of an
/// address, and 1,998 digits of a payload, of which none has more than 999 bytes, and what is
/// between them.
const LINE_BYTES: usize = 2_300;

/// Adds a time and a blank, if there is one. Then the line goes out in one piece, so that in one
/// pipe the lines of several processes are whole.
pub(crate) fn push_time<K: Sink>(out: &mut Out<K>, micros: Option<u64>)
    requires { IfSome micros (λ n. n ≤ MOST_MICROS) }
    ensures { (time : Option DateTime) × IsShown micros time
        × Adds out.old out.new (time_part time) }
{
    if let Some(micros) = micros {
        out.make_room(LINE_BYTES);
        out.push_bytes(&write_time(micros));
        out.push(" ");
    }
}

/// The first and the last time, behind one line more.
pub(crate) fn noted_span(span: Option<(u64, u64)>, micros: Option<u64>) -> Option<(u64, u64)>
    ensures { result ≡ noted_span span micros }
{
    let Some(last) = micros else {
        return span;
    };
    match span {
        None => Some((last, last)),
        Some((first, _)) => Some((first, last)),
    }
}

/// Adds the seconds of the first and of the last time, if there are any.
#[tactic(auto, unfolding(crate::specs::LineTimes::span_part))]
pub(crate) fn push_span<K: Sink>(out: &mut Out<K>, span: Option<(u64, u64)>)
    requires { FitsSpan span }
    ensures { (times : Option (DateTime × DateTime)) → AreShown span times →
        Adds out.old out.new (span_part times) }
{
    second_texts();
    if let Some((first, last)) = span {
        out.push(", ");
        out.push_bytes(&write_second(first / MICROS));
        out.push(" to ");
        out.push_bytes(&write_second(last / MICROS));
    }
}

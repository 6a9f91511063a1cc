//! From the packets of a capture file to the lines of a log.

ghost use Rattle.std.specs.Prelude.{◌≡◌, ◌≤◌, [], None, Option, length};
ghost use Rattle.rip_capture.specs.NextCall.{IsReady, Stands, frame_of, refusal_of, source_of};
ghost use Rattle.rip_capture.specs.Origins.{origin_in};
ghost use Rattle.rip_capture.specs.Pcap.{Frame};
ghost use Rattle.rip_capture.specs.declared.limits.TheConstants.{MOST_CAPTURED};
ghost use Rattle.rip_log.specs.declared.limits.TheConstants.{MOST_LINES};
ghost use Rattle.rip_report.specs.CapturePackets.{KeepsFirst, LogsPacket, LogsPackets, ended_at, ended_by};
ghost use Rattle.rip_report.specs.CaptureText.{HasRoom};
ghost use Rattle.rip_report.specs.Outs.{Adds, HasGoneOut};
ghost use Rattle.rip_report.specs.Selections.{part_of};

use crate::captures::counts::PacketCounts;
use crate::captures::ending::{Ending, RefusalCode};
use crate::captures::lines::{has_line, push_line};
use crate::captures::manner::Manner;
use crate::captures::part::FilePart;
use crate::captures::selection::logged;
use crate::captures::tally::Tally;
use crate::captures::times::{is_timed, line_time, noted_span, push_time};
use crate::output::Out;
use rip_capture::laws::{long_captures, read_captures, short_packets};
use rip_capture::{CaptureCode, CaptureError, CaptureReader, FirstOrigin, Packet, read_frame};
use rip_log::{MOST_LINES, Sink, Source};

/// Adds the line of a packet, if it has one, and counts it. Time where it has none that can be
/// written, but has to; TooManyLines where the log has no room for the line.
fn log_packet<K: Sink>(
    packet: &Packet<'_>,
    part: &FilePart<'_>,
    manner: Manner,
    first: &mut FirstOrigin,
    tally: &mut Tally,
    out: &mut Out<K>,
) -> Result<(), RefusalCode>
    requires room { HasRoom tally.old.counts }
    requires lines { tally.old.lines ≤ MOST_LINES }
    requires short { length packet.now.bytes.now ≤ MOST_CAPTURED }
    ensures { (seen : Option Frame) → KeepsFirst seen (origin_in first.old) →
        LogsPacket manner (part_of part.now) seen (frame_of packet.now)
        (origin_in first.new) tally.old tally.new out.old out.new result }
{
    let carried = read_frame(packet.link_type, packet.bytes);
    let logged = logged(&part.selection, first, packet, carried);
    let time = match line_time(packet, is_timed(manner, logged)) {
        Ok(time) => time,
        Err(code) => return Err(code),
    };
    if has_line(logged) {
        if tally.lines >= MOST_LINES {
            return Err(RefusalCode::TooManyLines);
        }
        tally.lines += 1;
    }
    push_time(out, time);
    let omitted = push_line(out, part.link, manner.authentication, packet.bytes, &logged);
    tally.span = noted_span(tally.span, time);
    tally.counts.add(logged, omitted);
    Ok(())
}

/// Sends what was added to a log, where the next packet may keep it waiting, and only there: a file
/// goes out by whole pages.
fn send_before_wait<R: Source, K: Sink>(reader: &CaptureReader<R>, out: &mut Out<K>)
    ensures adds { Adds out.old out.new [] }
    ensures sent { ¬ IsReady reader.now → HasGoneOut out.new }
    ensures kept { IsReady reader.now → out.new ≡ out.old }
{
    if !reader.is_ready() {
        out.send();
    }
}

/// How the reading of a file ends at this error.
fn ended_by(error: CaptureError) -> Ending
    ensures { result ≡ ended_by error }
{
    match error.code {
        CaptureCode::Read => Ending::Unread,
        code => Ending::Refused {
            code: RefusalCode::Capture(code),
            at: error.at,
        },
    }
}

/// How the reading of a file ends at its end, after so many bytes: the log may have no room for the
/// comment.
fn ended_at(tally: Tally, at: u64) -> Ending
    ensures { result ≡ ended_at tally at }
{
    if tally.lines == MOST_LINES {
        let code = RefusalCode::TooManyLines;
        Ending::Refused { code, at }
    } else {
        Ending::Whole(tally)
    }
}

/// Adds the lines of the packets of a file, of a log of so many lines, and counts them.
pub(crate) fn log_packets<R: Source, K: Sink>(
    reader: &mut CaptureReader<R>,
    part: &FilePart<'_>,
    manner: Manner,
    lines: u32,
    first: &mut FirstOrigin,
    out: &mut Out<K>,
) -> Ending
    requires front { Stands R.given (R.given (source_of reader.old)) reader.old [] [] }
    requires running { refusal_of reader.old ≡ None }
    requires lines { lines ≤ MOST_LINES }
    requires first { origin_in first.old ≡ None }
    ensures { LogsPackets K.taken K.broken R.given R.coming R.broken R.at_end
        manner (part_of part.now) lines reader.old reader.new out.old out.new result }
{
    long_captures();
    read_captures();
    short_packets();
    let mut tally = Tally {
        counts: PacketCounts::new(),
        lines,
        span: None,
    };
    'packets: while tally.counts.packets < u64::MAX {
        send_before_wait(reader, out);
        if out.has_failed() {
            return Ending::Unwritten;
        }
        match reader.next() {
            Ok(Some(packet)) => {
                let at = packet.at;
                match log_packet(&packet, part, manner, first, &mut tally, out) {
                    Ok(()) => {}
                    Err(code) => return Ending::Refused { code, at },
                }
                if out.has_failed() {
                    return Ending::Unwritten;
                }
            }
            Ok(None) => return ended_at(tally, reader.position()),
            Err(error) => return ended_by(error),
        }
    }
    // Only a file of more than 2^64 bytes has so many packets.
    Ending::Unread
}

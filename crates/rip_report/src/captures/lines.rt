//! The lines of a log of capture files.

ghost use Rattle.std.specs.Prelude.{◌≡◌, ◌+◌, ◌≤◌, ◌++◌, Option, codes, length, take};
ghost use Rattle.hex.specs.Hex.{encode_lower};
ghost use Rattle.rip_capture.specs.Passwords.{has_password, without_password};
ghost use Rattle.rip_log.specs.Spans.{IsWithin, slice_of};
ghost use Rattle.rip_capture.specs.declared.limits.TheConstants.{MOST_PAYLOAD};
ghost use Rattle.rip_report.specs.CaptureText.{carried_line, comment_front, comment_line, file_part, file_refusal_line, LogLiesWithin, has_line, lacking_part, logged_line, omitted_of, other_part, refusal_code_text, sender_part};
ghost use Rattle.rip_log.specs.declared.time.date_time.DateTime.{DateTime};
ghost use Rattle.rip_report.specs.LineTimes.{AreShown, FitsSpan};
ghost use Rattle.rip_report.specs.LoggedDatagrams.{logged_datagram, omitted_from};
ghost use Rattle.rip_report.specs.Outs.{Adds};
ghost use Rattle.rip_report.specs.Written.{line};
ghost use Rattle.rip_wire.specs.declared.limits.TheConstants.{HEADER_LEN};

use crate::captures::authentication::{Authentication, Omitted};
use crate::captures::counts::PacketCounts;
use crate::captures::ending::RefusalCode;
use crate::captures::logged::Logged;
use crate::captures::tally::Tally;
use crate::captures::times::push_span;
use crate::left_out::push_count;
use crate::output::Out;
use hex::encode_to_slice;
use rip_capture::{CaptureCode, Carried, MOST_PAYLOAD, Span, entries_in, password_in};
use rip_log::Sink;
use rip_wire::{Address, HEADER_LEN};

/// The most digits of a datagram.
const DIGITS: usize = 2 * MOST_PAYLOAD;

/// The most bytes of a password.
const MOST_PASSWORD: usize = 16;

/// Whether a log has a line of a packet.
pub(crate) fn has_line(logged: Logged) -> bool
    ensures { result ≡ has_line logged }
{
    !matches!(logged, Logged::As(Carried::Elsewhere | Carried::Others))
}

/// Adds the front of a line of a link and a sender.
fn push_sender<K: Sink>(out: &mut Out<K>, link: &str, sender: Address)
    ensures { Adds out.old out.new (sender_part link.now sender) }
{
    out.push(link);
    out.push(" ");
    out.push_address(sender);
    out.push(" ");
}

/// Adds the line of a sender and a word.
fn push_word_line<K: Sink>(out: &mut Out<K>, link: &str, sender: Address, word: &str)
    ensures { Adds out.old out.new (line (sender_part link.now sender ++ word.now)) }
{
    push_sender(out, link, sender);
    out.push(word);
    out.end();
}

/// Adds the line of a packet of which not even the sender is known.
fn push_unknown_line<K: Sink>(out: &mut Out<K>, link: &str)
    ensures { Adds out.old out.new (line (link.now ++ codes " unknown cut")) }
{
    out.push(link);
    out.push(" unknown cut");
    out.end();
}

/// Adds bytes in hexadecimal digits.
fn push_digits<K: Sink>(out: &mut Out<K>, bytes: &[u8])
    requires { length bytes.now ≤ MOST_PAYLOAD }
    ensures { Adds out.old out.new (encode_lower bytes.now) }
{
    let mut digits = [0; DIGITS];
    let end = 2 * bytes.len();
    match encode_to_slice(bytes, &mut digits[..end]) {
        Ok(()) => out.push_bytes(&digits[..end]),
        Err(_) => unreachable!(),
    }
}

/// Adds the digits of a datagram, with zeros for its password if it has one, and tells whether it
/// has.
fn push_blanked<K: Sink>(out: &mut Out<K>, datagram: &[u8]) -> bool
    requires { length datagram.now ≤ MOST_PAYLOAD }
    ensures adds { Adds out.old out.new (encode_lower (without_password datagram.now)) }
    ensures password { result ≡ has_password datagram.now }
{
    match password_in(datagram) {
        None => {
            push_digits(out, datagram);
            false
        }
        Some(span) => {
            push_digits(out, &datagram[..span.from]);
            push_digits(out, &[0; MOST_PASSWORD][..span.to - span.from]);
            push_digits(out, &datagram[span.to..]);
            true
        }
    }
}

/// Writes bytes behind so many of a buffer.
fn write_at(buffer: &mut [u8], at: usize, bytes: &[u8])
    requires { at + length bytes.now ≤ length buffer.old }
    ensures bytes { take (at + length bytes.now) buffer.new ≡ take at buffer.old ++ bytes.now }
    ensures len { length buffer.new ≡ length buffer.old }
{
    buffer[at..at + bytes.len()].copy_from_slice(bytes);
}

/// Adds the digits of a datagram of which nothing is left but its header and these entries, with
/// zeros for a password if it still has one.
fn push_stripped<K: Sink>(out: &mut Out<K>, datagram: &[u8], entries: Span) -> bool
    requires few { length datagram.now ≤ MOST_PAYLOAD }
    requires header { HEADER_LEN ≤ entries.from }
    requires within { IsWithin (length datagram.now) entries }
    ensures adds { Adds out.old out.new
        (encode_lower (without_password
        (take HEADER_LEN datagram.now ++ slice_of datagram.now entries))) }
    ensures password { result
        ≡ has_password (take HEADER_LEN datagram.now ++ slice_of datagram.now entries) }
{
    let mut stripped = [0; MOST_PAYLOAD];
    let len = HEADER_LEN + (entries.to - entries.from);
    write_at(&mut stripped, 0, &datagram[..HEADER_LEN]);
    write_at(
        &mut stripped,
        HEADER_LEN,
        &datagram[entries.from..entries.to],
    );
    push_blanked(out, &stripped[..len])
}

/// Adds the digits of a datagram as a log has it, and tells what was left out.
fn push_datagram<K: Sink>(
    out: &mut Out<K>,
    authentication: Authentication,
    datagram: &[u8],
) -> Omitted
    requires { length datagram.now ≤ MOST_PAYLOAD }
    ensures adds { Adds out.old out.new
        (encode_lower (logged_datagram authentication datagram.now)) }
    ensures omitted { result ≡ omitted_from authentication datagram.now }
{
    let entries = match authentication {
        Authentication::AsSent => None,
        Authentication::Removed => entries_in(datagram),
    };
    match entries {
        None => Omitted {
            password: push_blanked(out, datagram),
            authentication: false,
        },
        Some(entries) => Omitted {
            password: push_stripped(out, datagram, entries),
            authentication: true,
        },
    }
}

/// Adds the line of a datagram, and tells what was left out of it.
fn push_datagram_line<K: Sink>(
    out: &mut Out<K>,
    link: &str,
    sender: Address,
    authentication: Authentication,
    datagram: &[u8],
) -> Omitted
    requires few { length datagram.now ≤ MOST_PAYLOAD }
    ensures adds { Adds out.old out.new
        (line (sender_part link.now sender
        ++ encode_lower (logged_datagram authentication datagram.now))) }
    ensures omitted { result ≡ omitted_from authentication datagram.now }
{
    push_sender(out, link, sender);
    let omitted = push_datagram(out, authentication, datagram);
    out.end();
    omitted
}

/// Adds the line of what a log has of a frame, if that has one, and tells what was left out of its
/// datagram.
#[tactic(auto, unfolding(crate::specs::CaptureText::carried_line))]
pub(crate) fn push_line<K: Sink>(
    out: &mut Out<K>,
    link: &str,
    authentication: Authentication,
    frame: &[u8],
    logged: &Logged,
) -> Omitted
    requires lies { LogLiesWithin (length frame.now) logged.now }
    ensures adds { Adds out.old out.new
        (logged_line authentication link.now frame.now logged.now) }
    ensures omitted { result ≡ omitted_of authentication frame.now logged.now }
{
    match logged {
        Logged::As(Carried::Datagram(sender, span)) => {
            let datagram = &frame[span.from..span.to];
            return push_datagram_line(out, link, *sender, authentication, datagram);
        }
        Logged::As(Carried::Cut(sender)) => push_word_line(out, link, *sender, "cut"),
        Logged::As(Carried::Fragment(sender)) => push_word_line(out, link, *sender, "fragment"),
        Logged::As(Carried::Malformed(sender)) => push_word_line(out, link, *sender, "malformed"),
        Logged::As(Carried::Long(sender)) => push_word_line(out, link, *sender, "long"),
        Logged::As(Carried::Unknown) => push_unknown_line(out, link),
        Logged::Mixed(sender) => push_word_line(out, link, *sender, "mixed"),
        Logged::As(Carried::Elsewhere | Carried::Others) => {}
    }
    Omitted::nothing()
}

/// Adds the number of a file and its link.
fn push_file<K: Sink>(out: &mut Out<K>, number: u32, link: &str)
    ensures { Adds out.old out.new (file_part number link.now) }
{
    out.push("file ");
    out.push_number(u64::from(number));
    out.push(" link ");
    out.push(link);
}

/// Adds the front of the comment behind the lines of a file.
#[tactic(auto, unfolding(crate::specs::CaptureText::comment_front))]
fn push_comment_front<K: Sink>(out: &mut Out<K>, number: u32, link: &str, counts: &PacketCounts)
    ensures { Adds out.old out.new (comment_front number link.now counts.now) }
{
    out.push("# ");
    push_file(out, number, link);
    out.push(": ");
    out.push_number(counts.packets);
    out.push(" packets, ");
    out.push_number(counts.datagrams);
    out.push(" datagrams");
}

/// Adds the counts of what is not there whole, or mixed in, where they are not 0.
#[tactic(auto, unfolding(crate::specs::CaptureText::lacking_part))]
fn push_lacking<K: Sink>(out: &mut Out<K>, counts: &PacketCounts)
    ensures { Adds out.old out.new (lacking_part counts.now) }
{
    push_count(out, ", ", counts.cut, " cut");
    push_count(out, ", ", counts.fragments, " fragments");
    push_count(out, ", ", counts.malformed, " malformed");
    push_count(out, ", ", counts.long, " long");
    push_count(out, ", ", counts.mixed, " mixed");
}

/// Adds the other counts, where they are not 0.
#[tactic(auto, unfolding(crate::specs::CaptureText::other_part))]
fn push_others<K: Sink>(out: &mut Out<K>, counts: &PacketCounts)
    ensures { Adds out.old out.new (other_part counts.now) }
{
    push_count(out, ", ", counts.passwords, " passwords");
    push_count(
        out,
        ", ",
        counts.without_authentication,
        " without authentication",
    );
    push_count(out, ", ", counts.elsewhere, " elsewhere");
    push_count(out, ", ", counts.others, " others");
}

/// Adds the comment behind the lines of a file.
pub(crate) fn push_comment<K: Sink>(out: &mut Out<K>, number: u32, link: &str, tally: &Tally)
    requires { FitsSpan tally.now.span }
    ensures { (span : Option (DateTime × DateTime)) → AreShown tally.now.span span →
        Adds out.old out.new (comment_line number link.now tally.now.counts span) }
{
    push_comment_front(out, number, link, &tally.counts);
    push_lacking(out, &tally.counts);
    push_others(out, &tally.counts);
    push_span(out, tally.span);
    out.end();
}

/// The number and the word of a code.
#[tactic(auto, unfolding(crate::specs::CaptureText::refusal_code_text))]
fn code_text(code: RefusalCode) -> &'static str
    ensures { result.now ≡ refusal_code_text code }
{
    match code {
        RefusalCode::Capture(CaptureCode::Magic) => "1 Magic",
        RefusalCode::Capture(CaptureCode::Cut) => "2 Cut",
        RefusalCode::Capture(CaptureCode::Version) => "3 Version",
        RefusalCode::Capture(CaptureCode::LinkType) => "4 LinkType",
        RefusalCode::Capture(CaptureCode::Length) => "5 Length",
        RefusalCode::Capture(CaptureCode::Interface) => "6 Interface",
        RefusalCode::Capture(CaptureCode::OldPacket) => "7 OldPacket",
        RefusalCode::Capture(CaptureCode::Read) => "Read",
        RefusalCode::TooManyLines => "8 TooManyLines",
        RefusalCode::Time => "9 Time",
    }
}

/// Adds the line that refuses a file.
#[tactic(auto, unfolding(crate::specs::CaptureText::file_refusal_line))]
pub(crate) fn push_file_refusal_line<K: Sink>(
    out: &mut Out<K>,
    number: u32,
    link: &str,
    code: RefusalCode,
    at: u64,
)
    ensures { Adds out.old out.new (file_refusal_line number link.now code at) }
{
    out.push("refused: ");
    push_file(out, number, link);
    out.push(": ");
    out.push(code_text(code));
    out.push(" at ");
    out.push_number(at);
    out.end();
}

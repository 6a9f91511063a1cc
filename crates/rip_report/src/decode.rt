//! The command `decode`: one datagram in hexadecimal digits.

ghost use Rattle.std.specs.Prelude.{◌≡◌, ◌+◌, ◌%◌, ◌↔◌, ◌++◌, ℕ, List, Ok, decimal, length, take, IfErr, IsTrue, MatchOption};
ghost use Rattle.std.specs.List.{AllPass};
ghost use Rattle.hex.specs.Hex.{decode_of, is_hex_digit};
ghost use Rattle.rip_wire.specs.Datagram.{datagram_bytes, entries_of, kind_of, message_of};
ghost use Rattle.rip_report.specs.DecodeText.{DecodeText, entry_line, entry_lines, refused_wire, shown};
ghost use Rattle.rip_report.specs.Outs.{Adds};
ghost use Rattle.rip_report.specs.Sent.{Prints};
ghost use Rattle.rip_report.specs.Written.{line};

use crate::output::Out;
use crate::refusal::push_wire_fault;
use crate::status::{RunError, Status};
use rip_log::{Sink, decode_digits};
use rip_wire::{Datagram, Entry, Kind, MOST_BYTES, WireError, read};

/// How many bytes are looked at: one more than a datagram can have.
const KEPT_BYTES: usize = MOST_BYTES + 1;

/// Whether the word is an even number of hexadecimal digits.
fn is_hex(word: &[u8]) -> bool
    ensures { IsTrue result ↔ (length word.now % 2 ≡ 0) × AllPass is_hex_digit word.now }
{
    word.len() % 2 == 0 && word.iter().all(|digit| digit.is_ascii_hexdigit())
}

/// The bytes that a word spells in hexadecimal digits, or the first 505 of them. There are none
/// where the number of digits is odd, or where a byte is no digit.
fn bytes_of_hex<'a>(word: &[u8], room: &'a mut [u8; KEPT_BYTES]) -> Option<&'a [u8]>
    ensures { MatchOption result ((bytes : List ℕ) → decode_of word.now ≡ Ok bytes → ⊥)
        (λ front. (bytes : List ℕ) × (decode_of word.now ≡ Ok bytes)
        × (front.now ≡ take KEPT_BYTES bytes)) }
{
    if !is_hex(word) {
        return None;
    }
    let count = (word.len() / 2).min(KEPT_BYTES);
    if decode_digits(&word[..2 * count], room) {
        Some(&room[..count])
    } else {
        unreachable!()
    }
}

/// Adds the line of a fault.
fn push_fault_line<K: Sink>(out: &mut Out<K>, error: WireError)
    ensures { Adds out.old out.new ((refused_wire error.code error.at).text) }
{
    out.push("refused: wire ");
    push_wire_fault(out, error);
    out.end();
}

/// Adds the line of an entry.
#[tactic(auto, unfolding(crate::specs::DecodeText::entry_line))]
fn push_entry_line<K: Sink>(out: &mut Out<K>, entry: Entry)
    ensures { Adds out.old out.new (entry_line entry) }
{
    out.push_prefix(entry.prefix);
    out.push(" tag ");
    out.push_number(u64::from(entry.tag));
    out.push(" next ");
    out.push_address(entry.next_hop);
    out.push(" metric ");
    out.push_metric(entry.metric);
    out.end();
}

/// Adds the line of a kind and a number of entries.
fn push_kind_line<K: Sink>(out: &mut Out<K>, kind: &str, count: usize)
    ensures { Adds out.old out.new (line (kind.now ++ decimal count)) }
{
    out.push(kind);
    out.push_number(count as u64);
    out.end();
}

/// Adds the lines of the entries of a response.
fn push_entries<K: Sink>(out: &mut Out<K>, datagram: &Datagram<'_>)
    requires { kind_of (message_of datagram.now) ≡ Kind.Response }
    ensures { Adds out.old out.new (entry_lines (entries_of (message_of datagram.now))) }
{
    for i in 0..datagram.len() {
        push_entry_line(out, datagram.entry(i));
    }
}

/// Adds a datagram: its kind and its number of entries, and the entries of a response.
fn push_datagram<K: Sink>(out: &mut Out<K>, datagram: &Datagram<'_>)
    ensures { Adds out.old out.new
        (shown (datagram_bytes datagram.now) (message_of datagram.now)).text }
{
    match datagram.kind() {
        Kind::Request => push_kind_line(out, "request ", datagram.len()),
        Kind::Response => {
            push_kind_line(out, "response ", datagram.len());
            push_entries(out, datagram);
        }
    }
}

/// Prints the datagram that a word spells in hexadecimal digits of either case, or what is wrong
/// with it. A word of any length is judged. It allocates nothing. The sink comes back.
pub fn run_decode<K: Sink>(hex: &str, out: K) -> (K, Result<Status, RunError>)
    // The whole text went out, or a beginning where the sink failed.
    ensures prints { Prints K.taken K.broken out result.0 result.1 (DecodeText hex.now) }
    ensures write { IfErr result.1 (λ e. e ≡ RunError.Write) }
{
    let mut text = Out::new(out);
    let mut room = [0; KEPT_BYTES];
    match bytes_of_hex(hex.as_bytes(), &mut room) {
        None => {
            text.push("refused: hex\n");
            text.finish_with(Ok(Status::Refused))
        }
        Some(bytes) => match read(bytes) {
            Ok(datagram) => {
                push_datagram(&mut text, &datagram);
                text.finish_with(Ok(Status::Done))
            }
            Err(error) => {
                push_fault_line(&mut text, error);
                text.finish_with(Ok(Status::Refused))
            }
        },
    }
}

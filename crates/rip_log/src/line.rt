//! What one line says.

ghost use Rattle.std.specs.Prelude.{◌≡◌, ◌≤◌, [], ◌∷◌, length, Some, None, if◌then◌else◌};
ghost use Rattle.std.specs.Io.BufRead.{strip_last};
ghost use Rattle.rip_log.specs.Codes.{code_of};
ghost use Rattle.rip_log.specs.Fields.{fields_of};
ghost use Rattle.rip_log.specs.Said.{is_of_datagram, origin_by, origin_of};
ghost use Rattle.rip_log.specs.Lines.{judge, three_fields, unless_skipped};
ghost use Rattle.rip_log.specs.Parts.{AreThreeSaid, IsSaid};
ghost use Rattle.rip_log.specs.Spans.{IsWithin, slice_of};

use crate::digits::decode;
use crate::error::LineFault;
use crate::fields::{Fields, is_field, split};
use crate::limits::MOST_LINE_BYTES;
use crate::span::Span;
use rip_wire::{Address, MOST_BYTES, is_name, read};

/// The parts of a record: where the link's name lies in the line, the sender, and how many bytes of
/// the room the datagram takes.
#[derive(Clone, Copy)]
pub struct Parts {
    pub link: Span,
    pub sender: Address,
    pub count: usize,
}

/// The front of a line whose first two fields are good: where the link's name lies, and the sender.
#[derive(Clone, Copy)]
pub struct Front {
    pub link: Span,
    pub sender: Address,
}

/// Why a line is bad, and its front where that is by its datagram alone.
#[derive(Clone, Copy)]
pub struct Fault {
    pub why: LineFault,
    pub front: Option<Front>,
}

impl From<LineFault> for Fault {
    ghost from_gives = { λ why fault. fault ≡ record { why = why; front = None } };

    /// A fault before the datagram.
    fn from(why: LineFault) -> Fault {
        Fault { why, front: None }
    }
}

impl Fault {
    /// A fault after a good front, which is kept only if the datagram is at fault.
    fn behind(front: Front, why: LineFault) -> Fault
        ensures { result ≡ record {
          why = why;
          front = if is_of_datagram (code_of why) then Some front else None;
        } }
    {
        match why {
            LineFault::LongDatagram | LineFault::Wire(_) => Fault {
                why,
                front: Some(front),
            },
            _ => Fault { why, front: None },
        }
    }
}

/// The line without a carriage return at its end.
pub fn without_return(line: &[u8]) -> &[u8]
    ensures { result.now ≡ strip_last 13 line.now }
{
    if !line.is_empty() && line[line.len() - 1] == b'\r' {
        &line[..line.len() - 1]
    } else {
        line
    }
}

/// Judges three fields of a line, and writes the datagram to the room.
pub fn judge_fields(
    line: &[u8],
    link: Span,
    sender: Span,
    digits: Span,
    room: &mut [u8; MOST_BYTES],
) -> Result<Parts, Fault>
    requires link { IsWithin (length line.now) link }
    requires sender { IsWithin (length line.now) sender }
    requires digits { IsWithin (length line.now) digits }
    ensures { AreThreeSaid (three_fields
        (slice_of line.now link) (slice_of line.now sender) (slice_of line.now digits))
        (origin_by (slice_of line.now link ∷ slice_of line.now sender
        ∷ slice_of line.now digits ∷ []))
        line.now room.new result }
{
    if !is_name(&line[link.from..link.to]) {
        return Err(Fault::from(LineFault::LinkName));
    }
    let Some(address) = Address::parse_bytes(&line[sender.from..sender.to]) else {
        return Err(Fault::from(LineFault::Sender));
    };
    let front = Front {
        link,
        sender: address,
    };
    let count = match decode(&line[digits.from..digits.to], room) {
        Err(why) => return Err(Fault::behind(front, why)),
        Ok(count) => count,
    };
    match read(&room[..count]) {
        Err(error) => Err(Fault::behind(front, LineFault::Wire(error))),
        Ok(_) => Ok(Parts {
            link,
            sender: address,
            count,
        }),
    }
}

/// Judges a line without its carriage return, and writes its datagram to the room.
fn judge_bare(bare: &[u8], room: &mut [u8; MOST_BYTES]) -> Result<Option<Parts>, Fault>
    ensures { IsSaid (unless_skipped (fields_of bare.now)) (origin_by (fields_of bare.now))
        bare.now room.new result }
{
    match split(bare) {
        Fields::Nothing | Fields::Comment => Ok(None),
        Fields::TooFew => Err(Fault::from(LineFault::Fields)),
        Fields::ThreeOrMore(link, sender, rest) => {
            match judge_fields(bare, link, sender, rest, room) {
                Ok(parts) => Ok(Some(parts)),
                // Digits have no blank among them, so only a bad line is searched for a fourth field.
                Err(_) if !is_field(&bare[rest.from..rest.to]) => {
                    Err(Fault::from(LineFault::Fields))
                }
                Err(fault) => Err(fault),
            }
        }
    }
}

/// Judges a line of at most 2,048 bytes, and writes its datagram to the room.
pub fn judge_line(line: &[u8], room: &mut [u8; MOST_BYTES]) -> Result<Option<Parts>, Fault>
    requires { length line.now ≤ MOST_LINE_BYTES }
    ensures { IsSaid (judge line.now) (origin_of line.now) line.now room.new result }
{
    judge_bare(without_return(line), room)
}

//! The authentication of a datagram, which can be taken off.

ghost use Rattle.std.specs.Prelude.{◌≡◌, ◌++◌, ◌≤◌, IfSome, MatchOption, is_some, length, take};
ghost use Rattle.rip_capture.specs.Authentication.{AreEntries, IsAuthenticated, has_authentication, has_keyed_digest, has_text_password, has_trailer, is_of_entries, trailer_at, without_authentication};
ghost use Rattle.rip_log.specs.Spans.{IsWithin, slice_of};
ghost use Rattle.rip_capture.specs.declared.authentication.TheConstants.{ENTRIES_FROM};
ghost use Rattle.rip_wire.specs.declared.limits.TheConstants.{HEADER_LEN};

use crate::numbers::u16_at;
use crate::password::{AUTHENTICATION, password_in};
use rip_log::Span;
use rip_wire::{ENTRY_LEN, HEADER_LEN};

/// The type of a keyed digest (RFC 2082, section 3.2).
pub(crate) const DIGEST: u16 = 3;

/// The type of the trailer that has the digest (RFC 2082, section 3.2.1).
pub(crate) const TRAILER: u16 = 1;

/// The bytes of a trailer in front of its digest.
pub(crate) const TRAILER_HEADER: usize = 4;

/// Where the length of the authentication data stands (RFC 4822, section 2.1).
pub(crate) const DATA_LEN_AT: usize = 11;

/// The bytes in front of the entries behind the first one.
pub(crate) const ENTRIES_FROM: usize = HEADER_LEN + ENTRY_LEN;

/// Whether so many bytes are a header and whole entries, at least one.
fn is_of_entries(size: usize) -> bool
    ensures { result ≡ is_of_entries size }
{
    size >= ENTRIES_FROM && (size - HEADER_LEN) % ENTRY_LEN == 0
}

/// Whether a datagram is a header and whole entries, of which the first one is a password.
fn has_text_password(datagram: &[u8]) -> bool
    ensures { result ≡ has_text_password datagram.now }
{
    password_in(datagram).is_some() && is_of_entries(datagram.len())
}

/// Whether a datagram has a trailer behind its entries, up to its end. The length of it that the
/// first entry says counts the trailer's header or does not: daemons write both.
fn has_trailer(datagram: &[u8]) -> bool
    requires first { ENTRIES_FROM ≤ length datagram.now }
    requires entries { ENTRIES_FROM ≤ trailer_at datagram.now }
    ensures { result ≡ has_trailer datagram.now }
{
    let at = usize::from(u16_at(datagram, 8));
    if datagram.len() < at + TRAILER_HEADER {
        return false;
    }
    let size = usize::from(datagram[DATA_LEN_AT]);
    u16_at(datagram, at) == AUTHENTICATION
        && u16_at(datagram, at + 2) == TRAILER
        && (at + TRAILER_HEADER + size == datagram.len() || at + size == datagram.len())
}

/// Whether a datagram is whole entries, of which the first one is of a keyed digest, and the
/// trailer that has the digest.
fn has_keyed_digest(datagram: &[u8]) -> bool
    ensures { result ≡ has_keyed_digest datagram.now }
{
    datagram.len() >= ENTRIES_FROM
        && u16_at(datagram, 4) == AUTHENTICATION
        && u16_at(datagram, 6) == DIGEST
        && is_of_entries(usize::from(u16_at(datagram, 8)))
        && has_trailer(datagram)
}

/// The entries of a datagram behind the one that authenticates it: with its header they are the
/// datagram as it would be without. None where it has no authentication, or one that does not fit
/// it.
#[tactic(auto, unfolding(crate::specs::Authentication::has_authentication, crate::specs::Authentication::without_authentication))]
pub fn entries_in(datagram: &[u8]) -> Option<Span>
    ensures found { MatchOption result (¬ IsAuthenticated datagram.now)
        (AreEntries datagram.now) }
    ensures exact { is_some result ≡ has_authentication datagram.now }
    ensures without { IfSome result (λ span. without_authentication datagram.now
        ≡ take HEADER_LEN datagram.now ++ slice_of datagram.now span) }
    ensures within { IfSome result (IsWithin (length datagram.now)) }
    ensures header { IfSome result (λ span. HEADER_LEN ≤ span.from) }
{
    let to = if has_text_password(datagram) {
        datagram.len()
    } else if has_keyed_digest(datagram) {
        usize::from(u16_at(datagram, 8))
    } else {
        return None;
    };
    Some(Span {
        from: ENTRIES_FROM,
        to,
    })
}

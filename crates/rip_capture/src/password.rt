//! The password of a datagram, which no log is to have.

ghost use Rattle.std.specs.Prelude.{◌≡◌, ◌+◌, ◌-◌, ◌≤◌, ◌++◌, drop, length, replicate, take, IfSome, MatchOption, is_some};
ghost use Rattle.rip_capture.specs.Passwords.{HasPassword, IsPassword, has_password, without_password};
ghost use Rattle.rip_log.specs.Spans.{IsWithin};

use crate::numbers::u16_at;
use rip_log::Span;

/// The bytes in front of a password: the header, and the family and the type of the first entry.
pub(crate) const PASSWORD_FROM: usize = 8;

/// The end of a password that is there whole.
pub(crate) const PASSWORD_TO: usize = 24;

/// The type of a password (RFC 2453, section 4.1).
pub(crate) const PASSWORD: u16 = 2;

/// The family of an entry that authenticates (RFC 2453, section 4.1).
pub(crate) const AUTHENTICATION: u16 = 0xFFFF;

/// Where a datagram has a password, as far as it is there: these bytes are shown as 0.
pub fn password_in(datagram: &[u8]) -> Option<Span>
    ensures found { MatchOption result (¬ HasPassword datagram.now) (IsPassword datagram.now) }
    ensures exact { is_some result ≡ has_password datagram.now }
    ensures shown { IfSome result (λ span. without_password datagram.now
        ≡ take span.from datagram.now ++ replicate (span.to - span.from) 0
        ++ drop span.to datagram.now) }
    ensures few { IfSome result (λ span. span.to ≤ span.from + 16) }
    ensures within { IfSome result (IsWithin (length datagram.now)) }
{
    if datagram.len() < PASSWORD_FROM
        || u16_at(datagram, 4) != AUTHENTICATION
        || u16_at(datagram, 6) != PASSWORD
    {
        return None;
    }
    Some(Span {
        from: PASSWORD_FROM,
        to: datagram.len().min(PASSWORD_TO),
    })
}

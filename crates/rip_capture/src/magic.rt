//! What kind of capture a file is.

ghost use Rattle.std.specs.Prelude.{◌≡◌, ◌<◌, ◌≤◌, true, false, length, MatchOption};
ghost use Rattle.rip_log.specs.Wholes.{Went};
ghost use Rattle.rip_capture.specs.Captures.{HasMagic};
ghost use Rattle.rip_capture.specs.Codes.{is_unread};
ghost use Rattle.rip_log.specs.Feeds.{held};
ghost use Rattle.rip_capture.specs.Feeds.{Keeps};
ghost use Rattle.rip_capture.specs.Finds.{FindsMagic, IsMagicOf};

use crate::error::CaptureCode;
use crate::limits::{MAGIC_LEN, SECTION};
use crate::numbers::{Order, u32_at};
use crate::parts::Parts;
use rip_log::Source;

/// What the first four bytes of a file say.
#[derive(Clone, Copy)]
pub enum Magic {
    /// A pcap file of a byte order, with times in microseconds or nanoseconds.
    Pcap(Order),
    /// A pcapng file.
    Pcapng,
}

/// The kind of a file that begins so, if it is one of the five beginnings.
fn magic_of(bytes: &[u8]) -> Option<Magic>
    requires { MAGIC_LEN ≤ length bytes.now }
    ensures { MatchOption result (¬ HasMagic bytes.now) (λ magic. IsMagicOf bytes.now magic) }
{
    match u32_at(bytes, 0) {
        0xA1B2_C3D4 | 0xA1B2_3C4D => Some(Magic::Pcap(Order::Big)),
        0xD4C3_B2A1 | 0x4D3C_B2A1 => Some(Magic::Pcap(Order::Little)),
        SECTION => Some(Magic::Pcapng),
        _ => None,
    }
}

/// The kind of a file, of which the first four bytes are then held.
pub(crate) fn next_magic<R: Source>(parts: &mut Parts<R>) -> Result<Magic, CaptureCode>
    ensures keeps { Keeps R.given parts.old.feed parts.new.feed }
    ensures went { Went R.given R.coming R.at_end parts.old.feed.source parts.new.feed.source }
    ensures found { FindsMagic (held parts.new.feed) (R.at_end parts.new.feed.source) result }
    ensures failed { is_unread result ≡ true → R.broken parts.new.feed.source ≡ true }
    ensures short { is_unread result ≡ true → length (held parts.new.feed) < MAGIC_LEN }
    ensures marks { is_unread result ≡ false →
        R.broken parts.new.feed.source ≡ R.broken parts.old.feed.source }
{
    parts.hold(MAGIC_LEN)?;
    magic_of(parts.feed.held()).ok_or(CaptureCode::Magic)
}

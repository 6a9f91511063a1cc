//! The header and the records of a pcap file (draft-ietf-opsawg-pcap).

ghost use Rattle.std.specs.Prelude.{◌≡◌, ◌<◌, ◌≤◌, [], Decides, Ok, None, true, false, length};
ghost use Rattle.rip_log.specs.Wholes.{Went};
ghost use Rattle.rip_capture.specs.Codes.{is_unread};
ghost use Rattle.rip_log.specs.Feeds.{held};
ghost use Rattle.rip_capture.specs.Feeds.{Keeps};
ghost use Rattle.rip_capture.specs.Finds.{FindsHeader, FindsRecord, ReadsHeader};
ghost use Rattle.rip_capture.specs.Pcap.{HoldsRecord, IsMagic, record_time, resolution_in};

use crate::error::CaptureCode;
use crate::limits::{BILLIONTHS, FILE_HEADER, MAGIC_LEN, MILLIONTHS, MOST_CAPTURED, RECORD_HEADER};
use crate::link::LinkType;
use crate::numbers::{Order, number_in, short_in};
use crate::parts::Parts;
use crate::time::Time;
use rip_log::Source;

/// How the packets of a file are framed, and the unit of their times.
#[derive(Clone, Copy)]
pub struct Framing {
    pub link_type: LinkType,
    pub resolution: u8,
}

/// What the header of a file says of its records.
#[derive(Clone, Copy)]
pub struct PcapHeader {
    pub order: Order,
    pub framing: Framing,
}

/// The unit of times that the first four bytes of a file tell.
fn resolution_in(order: Order, bytes: &[u8]) -> u8
    requires { MAGIC_LEN ≤ length bytes.now }
    ensures { result ≡ resolution_in order bytes.now }
{
    if number_in(order, bytes, 0) == 0xA1B2_3C4D {
        BILLIONTHS
    } else {
        MILLIONTHS
    }
}

/// The time of the record that bytes begin with.
pub(crate) fn record_time(order: Order, resolution: u8, bytes: &[u8]) -> Time
    requires { RECORD_HEADER ≤ length bytes.now }
    ensures { result ≡ record_time order resolution bytes.now }
{
    let in_second: u64 = if resolution == BILLIONTHS {
        1_000_000_000
    } else {
        1_000_000
    };
    let seconds = u64::from(number_in(order, bytes, 0));
    Time {
        ticks: seconds * in_second + u64::from(number_in(order, bytes, 4)),
        resolution,
        offset: 0,
    }
}

/// The header behind these four bytes.
fn read_header(order: Order, bytes: &[u8]) -> Result<PcapHeader, CaptureCode>
    requires { FILE_HEADER ≤ length bytes.now }
    ensures { ReadsHeader order bytes.now result }
{
    if short_in(order, bytes, 4) != 2 || short_in(order, bytes, 6) != 4 {
        return Err(CaptureCode::Version);
    }
    match LinkType::of(number_in(order, bytes, 20) % 0x0400_0000) {
        Some(link_type) => {
            let resolution = resolution_in(order, bytes);
            let framing = Framing {
                link_type,
                resolution,
            };
            Ok(PcapHeader { order, framing })
        }
        None => Err(CaptureCode::LinkType),
    }
}

/// The header at the front of a file of this order, which is then held whole.
pub(crate) fn next_header<R: Source>(
    parts: &mut Parts<R>,
    order: Order,
) -> Result<PcapHeader, CaptureCode>
    requires begun { MAGIC_LEN ≤ length (held parts.old.feed) }
    requires magic { IsMagic order (held parts.old.feed) }
    ensures keeps { Keeps R.given parts.old.feed parts.new.feed }
    ensures went { Went R.given R.coming R.at_end parts.old.feed.source parts.new.feed.source }
    ensures found { FindsHeader (held parts.new.feed) (R.at_end parts.new.feed.source) result }
    ensures failed { is_unread result ≡ true → R.broken parts.new.feed.source ≡ true }
    ensures short { is_unread result ≡ true → length (held parts.new.feed) < FILE_HEADER }
    ensures marks { is_unread result ≡ false →
        R.broken parts.new.feed.source ≡ R.broken parts.old.feed.source }
{
    parts.hold(FILE_HEADER)?;
    read_header(order, parts.feed.held())
}

/// How many bytes of a packet the next record has, which is then held whole; or that there is none.
pub(crate) fn next_record<R: Source>(
    parts: &mut Parts<R>,
    order: Order,
) -> Result<Option<usize>, CaptureCode>
    ensures keeps { Keeps R.given parts.old.feed parts.new.feed }
    ensures went { Went R.given R.coming R.at_end parts.old.feed.source parts.new.feed.source }
    ensures found { FindsRecord order (held parts.new.feed)
        (R.at_end parts.new.feed.source) result }
    ensures failed { is_unread result ≡ true → R.broken parts.new.feed.source ≡ true }
    ensures marks { is_unread result ≡ false →
        R.broken parts.new.feed.source ≡ R.broken parts.old.feed.source }
    ensures short { is_unread result ≡ true → ¬ HoldsRecord order (held parts.new.feed) }
    ensures over { held parts.old.feed ≡ [] → R.at_end parts.old.feed.source ≡ true →
        result ≡ Ok None }
    ensures ready { HoldsRecord order (held parts.old.feed) → parts.new.feed ≡ parts.old.feed }
{
    if !parts.hold_next(RECORD_HEADER)? {
        return Ok(None);
    }
    let captured = number_in(order, parts.feed.held(), 8) as usize;
    if captured > MOST_CAPTURED {
        return Err(CaptureCode::Length);
    }
    parts.hold(RECORD_HEADER + captured)?;
    Ok(Some(captured))
}

/// Whether a whole record is held.
pub(crate) fn holds_record(order: Order, held: &[u8]) -> bool
    ensures { Decides result (HoldsRecord order held.now) }
{
    RECORD_HEADER <= held.len() && number_in(order, held, 8) as usize <= held.len() - RECORD_HEADER
}

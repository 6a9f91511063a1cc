//! The blocks of a pcapng file (draft-ietf-opsawg-pcapng, section 3.1).

ghost use Rattle.std.specs.Prelude.{◌≡◌, ◌≢◌, ◌≤◌, [], Decides, List, ℕ, Ok, None, Some, MatchOption, Option, true, false, length};
ghost use Rattle.rip_log.specs.Wholes.{Went};
ghost use Rattle.rip_wire.specs.Fields.{number_at};
ghost use Rattle.rip_capture.specs.Codes.{is_unread};
ghost use Rattle.rip_log.specs.Feeds.{held};
ghost use Rattle.rip_capture.specs.Feeds.{Extends, Keeps, Skips};
ghost use Rattle.rip_capture.specs.Finds.{FindsBlock, FindsNextBlock, FindsNextOrder, FindsOrder, HoldsBlock, HoldsPacketBlock, HoldsWhole, SaysFront};
ghost use Rattle.rip_capture.specs.Pcapng.{HasOrder, begins_section, front_len, is_read_whole, kind_numbered, kind_of, least_len, order_number};

use crate::error::CaptureCode;
use crate::limits::{BLOCK_FRONT, MOST_BLOCK, SECTION, SECTION_FRONT};
use crate::numbers::{Order, number_in, u32_at};
use crate::parts::Parts;
use rip_log::Source;

/// How a packet stands in its block.
#[derive(Clone, Copy)]
pub enum PacketForm {
    /// With the number of its interface, its time and its length (section 4.3).
    Enhanced,
    /// Of the section's first interface, and without a time (section 4.4).
    Simple,
}

/// The kind of a block.
#[derive(Clone, Copy)]
pub enum BlockKind {
    /// It begins a section (section 4.1).
    Section,
    /// It describes an interface (section 4.2).
    Interface,
    /// A packet in a form that is out of use (appendix A).
    OldPacket,
    /// A packet.
    Packet(PacketForm),
    /// It is passed over.
    Other,
}

/// A block of which the front was read.
#[derive(Clone, Copy)]
pub struct Block {
    pub order: Order,
    pub kind: BlockKind,
    /// How many bytes it has.
    pub len: usize,
    /// How many of them, the last ones, are held; those before them were passed over.
    pub held: usize,
}

/// Whether a block begins a section.
fn begins_section(bytes: &[u8]) -> bool
    requires { 4 ≤ length bytes.now }
    ensures { result ≡ begins_section bytes.now }
{
    u32_at(bytes, 0) == SECTION
}

/// The byte order that a section says.
fn order_in(bytes: &[u8]) -> Option<Order>
    requires { SECTION_FRONT ≤ length bytes.now }
    ensures { MatchOption result ((order : Order) → number_at 4 8 bytes.now ≢ order_number order)
        (λ order. number_at 4 8 bytes.now ≡ order_number order) }
{
    match u32_at(bytes, 8) {
        0x1A2B_3C4D => Some(Order::Big),
        0x4D3C_2B1A => Some(Order::Little),
        _ => None,
    }
}

/// The kind of a block that does not begin a section.
fn kind_numbered(number: u32) -> BlockKind
    ensures { result ≡ kind_numbered number }
{
    match number {
        1 => BlockKind::Interface,
        2 => BlockKind::OldPacket,
        3 => BlockKind::Packet(PacketForm::Simple),
        6 => BlockKind::Packet(PacketForm::Enhanced),
        _ => BlockKind::Other,
    }
}

/// The kind of a block.
fn kind_of(order: Order, bytes: &[u8]) -> BlockKind
    requires { 4 ≤ length bytes.now }
    ensures { result ≡ kind_of order bytes.now }
{
    if begins_section(bytes) {
        BlockKind::Section
    } else {
        kind_numbered(number_in(order, bytes, 0))
    }
}

/// The fewest bytes of a block of a kind.
fn least_len(kind: BlockKind) -> usize
    ensures { result ≡ least_len kind }
{
    match kind {
        BlockKind::Section => 28,
        BlockKind::Interface => 20,
        BlockKind::Packet(PacketForm::Simple) => 16,
        BlockKind::Packet(PacketForm::Enhanced) => 32,
        BlockKind::OldPacket | BlockKind::Other => 12,
    }
}

/// Whether blocks of a kind are read, and not passed over.
fn is_read_whole(kind: BlockKind) -> bool
    ensures { result ≡ is_read_whole kind }
{
    matches!(
        kind,
        BlockKind::Section | BlockKind::Interface | BlockKind::Packet(_)
    )
}

/// The kind and the length that the front of a block says.
fn block_front(order: Order, bytes: &[u8]) -> Result<(BlockKind, usize), CaptureCode>
    requires { BLOCK_FRONT ≤ length bytes.now }
    ensures { SaysFront order bytes.now result }
{
    let kind = kind_of(order, bytes);
    let len = number_in(order, bytes, 4) as usize;
    if len % 4 != 0 || len < least_len(kind) {
        return Err(CaptureCode::Length);
    }
    if is_read_whole(kind) && len > MOST_BLOCK {
        return Err(CaptureCode::Length);
    }
    if matches!(kind, BlockKind::OldPacket) {
        return Err(CaptureCode::OldPacket);
    }
    Ok((kind, len))
}

/// The byte order of a block that begins a section, whose front is then held.
fn section_order<R: Source>(parts: &mut Parts<R>) -> Result<Order, CaptureCode>
    requires begun { 4 ≤ length (held parts.old.feed) }
    requires section { begins_section (held parts.old.feed) ≡ true }
    ensures keeps { Keeps R.given parts.old.feed parts.new.feed }
    ensures held { Extends (held parts.old.feed) (held parts.new.feed) }
    ensures went { Went R.given R.coming R.at_end parts.old.feed.source parts.new.feed.source }
    ensures found { (within : Option Order) →
        FindsOrder within (held parts.new.feed) (R.at_end parts.new.feed.source) result }
    ensures failed { is_unread result ≡ true → R.broken parts.new.feed.source ≡ true }
    ensures marks { is_unread result ≡ false →
        R.broken parts.new.feed.source ≡ R.broken parts.old.feed.source }
    ensures ready { SECTION_FRONT ≤ length (held parts.old.feed) → parts.new.feed ≡ parts.old.feed }
{
    parts.hold(SECTION_FRONT)?;
    order_in(parts.feed.held()).ok_or(CaptureCode::Version)
}

/// The byte order of the next block in a section of this order, whose front is then held; or that
/// there is none.
fn next_order<R: Source>(parts: &mut Parts<R>, within: Order) -> Result<Option<Order>, CaptureCode>
    ensures keeps { Keeps R.given parts.old.feed parts.new.feed }
    ensures held { Extends (held parts.old.feed) (held parts.new.feed) }
    ensures went { Went R.given R.coming R.at_end parts.old.feed.source parts.new.feed.source }
    ensures found { FindsNextOrder (Some within) (held parts.new.feed)
        (R.at_end parts.new.feed.source) result }
    ensures failed { is_unread result ≡ true → R.broken parts.new.feed.source ≡ true }
    ensures marks { is_unread result ≡ false →
        R.broken parts.new.feed.source ≡ R.broken parts.old.feed.source }
    ensures over { held parts.old.feed ≡ [] → R.at_end parts.old.feed.source ≡ true →
        result ≡ Ok None }
    ensures ready { front_len (held parts.old.feed) ≤ length (held parts.old.feed) →
        parts.new.feed ≡ parts.old.feed }
{
    if !parts.hold_next(BLOCK_FRONT)? {
        return Ok(None);
    }
    if begins_section(parts.feed.held()) {
        Ok(Some(section_order(parts)?))
    } else {
        Ok(Some(within))
    }
}

/// Fills the buffer with a block that is read.
fn hold_block<R: Source>(
    parts: &mut Parts<R>,
    order: Order,
    kind: BlockKind,
    len: usize,
) -> Result<Block, CaptureCode>
    requires front { front_len (held parts.old.feed) ≤ length (held parts.old.feed) }
    requires says { SaysFront order (held parts.old.feed) (Ok (kind, len)) }
    requires read { is_read_whole kind ≡ true }
    ensures keeps { Keeps R.given parts.old.feed parts.new.feed }
    ensures held { Extends (held parts.old.feed) (held parts.new.feed) }
    ensures went { Went R.given R.coming R.at_end parts.old.feed.source parts.new.feed.source }
    ensures found { (within : Option Order) → HasOrder within (held parts.old.feed) order →
        FindsBlock within [] (held parts.new.feed) (R.at_end parts.new.feed.source) result }
    ensures failed { is_unread result ≡ true → R.broken parts.new.feed.source ≡ true }
    ensures marks { is_unread result ≡ false →
        R.broken parts.new.feed.source ≡ R.broken parts.old.feed.source }
    ensures ready { len ≤ length (held parts.old.feed) → parts.new.feed ≡ parts.old.feed }
{
    parts.hold(len)?;
    if number_in(order, parts.feed.held(), len - 4) as usize != len {
        return Err(CaptureCode::Length);
    }
    Ok(Block {
        order,
        kind,
        len,
        held: len,
    })
}

/// Passes over a block that is not read, but for its length at its end.
fn pass_block<R: Source>(
    parts: &mut Parts<R>,
    order: Order,
    kind: BlockKind,
    len: usize,
) -> Result<Block, CaptureCode>
    requires front { front_len (held parts.old.feed) ≤ length (held parts.old.feed) }
    requires says { SaysFront order (held parts.old.feed) (Ok (kind, len)) }
    requires read { is_read_whole kind ≡ false }
    ensures went { Went R.given R.coming R.at_end parts.old.feed.source parts.new.feed.source }
    ensures found { (passed : List ℕ) × Skips R.given parts.old.feed parts.new.feed passed
        × ((within : Option Order) → HasOrder within (held parts.old.feed) order →
        FindsBlock within passed (held parts.new.feed) (R.at_end parts.new.feed.source) result) }
    ensures failed { is_unread result ≡ true → R.broken parts.new.feed.source ≡ true }
    ensures marks { is_unread result ≡ false →
        R.broken parts.new.feed.source ≡ R.broken parts.old.feed.source }
{
    parts.skip(len - 4)?;
    parts.hold(4)?;
    if number_in(order, parts.feed.held(), 0) as usize != len {
        return Err(CaptureCode::Length);
    }
    Ok(Block {
        order,
        kind,
        len,
        held: 4,
    })
}

/// A block of which the front is held: fills the buffer with it, or passes over it.
fn rest_of_block<R: Source>(parts: &mut Parts<R>, order: Order) -> Result<Block, CaptureCode>
    requires front { front_len (held parts.old.feed) ≤ length (held parts.old.feed) }
    ensures went { Went R.given R.coming R.at_end parts.old.feed.source parts.new.feed.source }
    ensures found { (passed : List ℕ) × Skips R.given parts.old.feed parts.new.feed passed
        × ((within : Option Order) → HasOrder within (held parts.old.feed) order →
        FindsBlock within passed (held parts.new.feed) (R.at_end parts.new.feed.source) result) }
    ensures failed { is_unread result ≡ true → R.broken parts.new.feed.source ≡ true }
    ensures marks { is_unread result ≡ false →
        R.broken parts.new.feed.source ≡ R.broken parts.old.feed.source }
    ensures ready { HoldsWhole order (held parts.old.feed) → parts.new.feed ≡ parts.old.feed }
{
    let (kind, len) = match block_front(order, parts.feed.held()) {
        Ok(says) => says,
        Err(code) => return Err(code),
    };
    if is_read_whole(kind) {
        hold_block(parts, order, kind, len)
    } else {
        pass_block(parts, order, kind, len)
    }
}

/// The block at the front of a file, of which its first four bytes say that it begins a section.
pub(crate) fn first_block<R: Source>(parts: &mut Parts<R>) -> Result<Block, CaptureCode>
    requires begun { 4 ≤ length (held parts.old.feed) }
    requires section { begins_section (held parts.old.feed) ≡ true }
    ensures went { Went R.given R.coming R.at_end parts.old.feed.source parts.new.feed.source }
    ensures found { (passed : List ℕ) × Skips R.given parts.old.feed parts.new.feed passed
        × FindsBlock None passed (held parts.new.feed) (R.at_end parts.new.feed.source) result }
    ensures failed { is_unread result ≡ true → R.broken parts.new.feed.source ≡ true }
    ensures marks { is_unread result ≡ false →
        R.broken parts.new.feed.source ≡ R.broken parts.old.feed.source }
{
    match section_order(parts) {
        Ok(order) => rest_of_block(parts, order),
        Err(code) => Err(code),
    }
}

/// The next block in a section of this byte order, which is then held, or all but its length at its
/// end passed over; or that there is none.
pub(crate) fn next_block<R: Source>(
    parts: &mut Parts<R>,
    within: Order,
) -> Result<Option<Block>, CaptureCode>
    ensures went { Went R.given R.coming R.at_end parts.old.feed.source parts.new.feed.source }
    ensures found { (passed : List ℕ) × Skips R.given parts.old.feed parts.new.feed passed
        × FindsNextBlock (Some within) passed (held parts.new.feed)
        (R.at_end parts.new.feed.source) result }
    ensures failed { is_unread result ≡ true → R.broken parts.new.feed.source ≡ true }
    ensures marks { is_unread result ≡ false →
        R.broken parts.new.feed.source ≡ R.broken parts.old.feed.source }
    ensures over { held parts.old.feed ≡ [] → R.at_end parts.old.feed.source ≡ true →
        result ≡ Ok None }
    ensures ready { HoldsBlock (Some within) (held parts.old.feed) →
        parts.new.feed ≡ parts.old.feed }
{
    match next_order(parts, within) {
        Err(code) => Err(code),
        Ok(None) => Ok(None),
        Ok(Some(order)) => match rest_of_block(parts, order) {
            Ok(block) => Ok(Some(block)),
            Err(code) => Err(code),
        },
    }
}

/// Whether a whole block of a packet is held, in a section of a byte order.
pub(crate) fn holds_packet(order: Order, held: &[u8]) -> bool
    ensures { Decides result (HoldsPacketBlock (Some order) held.now) }
{
    if held.len() < SECTION_FRONT {
        return false;
    }
    match block_front(order, held) {
        Ok((BlockKind::Packet(_), len)) => len <= held.len(),
        Ok(_) | Err(_) => false,
    }
}

//! What the blocks of a pcapng file say (draft-ietf-opsawg-pcapng, section 4).

ghost use Rattle.std.specs.Prelude.{◌≡◌, ◌<◌, ◌≤◌, ◌↔◌, [], IsTrue, length, true};
ghost use Rattle.rip_capture.specs.Bodies.{ReadsBody, ReadsPacket, entered, section_of};
ghost use Rattle.rip_capture.specs.Interfaces.{came_by, came_of};
ghost use Rattle.rip_capture.specs.Pcapng.{IsSectionVersion, interface_in, interface_of, is_read_whole, least_len, packet_from, packet_len, packet_time, simple_len};

use crate::blocks::{Block, BlockKind, PacketForm};
use crate::error::CaptureCode;
use crate::interface::{FileInterface, Interface, InterfaceName};
use crate::limits::{MILLIONTHS, MOST_CAPTURED, MOST_INTERFACES};
use crate::link::LinkType;
use crate::numbers::{Order, number_in, short_in};
use crate::options::read_options;
use crate::time::Time;
use arrayvec::ArrayVec;
use rip_log::Span;

/// What the block of a packet says.
#[derive(Clone, Copy)]
pub struct PacketBody {
    pub link_type: LinkType,
    /// Where the packet lies in the block.
    pub bytes: Span,
    /// The number of its interface.
    pub interface: usize,
    pub time: Option<Time>,
}

/// What a block says.
#[derive(Clone, Copy)]
pub enum Body {
    /// A section begins.
    Section,
    /// The section has this interface too.
    Interface(Interface),
    /// A packet.
    Packet(PacketBody),
    /// Nothing that is read.
    Other,
}

/// The section that blocks stand in: its byte order, and the interfaces that it has described so
/// far.
#[derive(Drop)]
pub struct OpenSection {
    pub order: Order,
    pub interfaces: ArrayVec<Interface, MOST_INTERFACES>,
}

impl OpenSection {
    /// A section without interfaces.
    pub fn new() -> OpenSection
        ensures { result.interfaces.items ≡ [] }
    {
        OpenSection {
            order: Order::Little,
            interfaces: ArrayVec::new(),
        }
    }

    /// What blocks stand in behind one of this byte order that says this.
    pub fn enter(&mut self, order: Order, body: Body)
        requires { (i : Interface) → body ≡ Body.Interface i →
            length self.old.interfaces.items < MOST_INTERFACES }
        ensures { section_of self.new ≡ entered (section_of self.old) order body }
    {
        match body {
            Body::Section => {
                self.order = order;
                self.interfaces.clear();
            }
            Body::Interface(interface) => self.interfaces.push(interface),
            Body::Packet(_) | Body::Other => {}
        }
    }

    /// The interface of a number.
    pub fn interface(&self, number: usize) -> FileInterface<'_>
        requires { number < length self.now.interfaces.items }
        ensures { came_of result ≡ came_by self.now.interfaces.items number }
    {
        let name = &self.interfaces[number].name;
        if name.len == 0 {
            FileInterface::Numbered(number)
        } else {
            FileInterface::Named(name)
        }
    }
}

/// The number of the interface of a packet.
fn interface_of(order: Order, form: PacketForm, bytes: &[u8]) -> usize
    requires { least_len (BlockKind.Packet form) ≤ length bytes.now }
    ensures { result ≡ interface_of order form bytes.now }
{
    match form {
        PacketForm::Enhanced => number_in(order, bytes, 8) as usize,
        PacketForm::Simple => 0,
    }
}

/// Where a packet begins in its block.
fn packet_from(form: PacketForm) -> usize
    ensures { result ≡ packet_from form }
{
    match form {
        PacketForm::Enhanced => 28,
        PacketForm::Simple => 12,
    }
}

/// How many bytes of a simple packet there are.
fn simple_len(had: usize, room: usize, most: usize) -> usize
    ensures { result ≡ simple_len had room most }
{
    let len = had.min(room);
    if most == 0 { len } else { len.min(most) }
}

/// How many bytes of a packet were captured.
fn packet_len(order: Order, form: PacketForm, bytes: &[u8], interface: Interface) -> usize
    requires { least_len (BlockKind.Packet form) ≤ length bytes.now }
    ensures { result ≡ packet_len order form bytes.now interface }
{
    match form {
        PacketForm::Enhanced => number_in(order, bytes, 20) as usize,
        PacketForm::Simple => simple_len(
            number_in(order, bytes, 8) as usize,
            bytes.len() - 16,
            interface.most as usize,
        ),
    }
}

/// The time of a packet, where its block has one: its high half is first in either byte order.
fn packet_time(order: Order, form: PacketForm, bytes: &[u8], interface: Interface) -> Option<Time>
    requires { least_len (BlockKind.Packet form) ≤ length bytes.now }
    ensures { result ≡ packet_time order form bytes.now interface }
{
    match form {
        PacketForm::Enhanced => Some(Time {
            ticks: u64::from(number_in(order, bytes, 12)) * 0x1_0000_0000
                + u64::from(number_in(order, bytes, 16)),
            resolution: interface.resolution,
            offset: interface.offset,
        }),
        PacketForm::Simple => None,
    }
}

/// The packet in a block.
fn read_packet(
    order: Order,
    interfaces: &[Interface],
    form: PacketForm,
    bytes: &[u8],
) -> Result<PacketBody, CaptureCode>
    requires { least_len (BlockKind.Packet form) ≤ length bytes.now }
    ensures { ReadsPacket order interfaces.now form bytes.now result }
{
    let number = interface_of(order, form, bytes);
    let Some(interface) = interfaces.get(number) else {
        return Err(CaptureCode::Interface);
    };
    let from = packet_from(form);
    let len = packet_len(order, form, bytes, *interface);
    if len > MOST_CAPTURED || from + len + 4 > bytes.len() {
        return Err(CaptureCode::Length);
    }
    let Some(link_type) = LinkType::of(interface.link_number) else {
        return Err(CaptureCode::LinkType);
    };
    let to = from + len;
    Ok(PacketBody {
        link_type,
        bytes: Span { from, to },
        interface: number,
        time: packet_time(order, form, bytes, *interface),
    })
}

/// Whether the version of a section is one that is read.
fn is_section_version(order: Order, bytes: &[u8]) -> bool
    requires { 16 ≤ length bytes.now }
    ensures { IsTrue result ↔ IsSectionVersion order bytes.now }
{
    let minor = short_in(order, bytes, 14);
    short_in(order, bytes, 12) == 1 && (minor == 0 || minor == 2)
}

/// The interface that a block describes, without its options.
fn interface_in(order: Order, bytes: &[u8]) -> Interface
    requires { 16 ≤ length bytes.now }
    ensures { result ≡ interface_in order bytes.now }
{
    Interface {
        link_number: u32::from(short_in(order, bytes, 8)),
        most: number_in(order, bytes, 12),
        name: InterfaceName::none(),
        resolution: MILLIONTHS,
        offset: 0,
    }
}

/// What a block says, where its section has described these interfaces so far. Of a block that is
/// passed over the bytes are not looked at.
pub(crate) fn read_body(
    block: Block,
    interfaces: &[Interface],
    bytes: &[u8],
) -> Result<Body, CaptureCode>
    requires { is_read_whole block.kind ≡ true → least_len block.kind ≤ length bytes.now }
    ensures { ReadsBody block.order interfaces.now block.kind bytes.now result }
{
    let order = block.order;
    match block.kind {
        BlockKind::Section => {
            if is_section_version(order, bytes) {
                Ok(Body::Section)
            } else {
                Err(CaptureCode::Version)
            }
        }
        BlockKind::Interface => {
            if interfaces.len() >= MOST_INTERFACES {
                return Err(CaptureCode::Interface);
            }
            let options = &bytes[16..bytes.len() - 4];
            match read_options(order, interface_in(order, bytes), options) {
                Ok(interface) => Ok(Body::Interface(interface)),
                Err(code) => Err(code),
            }
        }
        BlockKind::Packet(form) => match read_packet(order, interfaces, form, bytes) {
            Ok(packet) => Ok(Body::Packet(packet)),
            Err(code) => Err(code),
        },
        BlockKind::OldPacket | BlockKind::Other => Ok(Body::Other),
    }
}

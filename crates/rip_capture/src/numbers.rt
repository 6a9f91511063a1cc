//! Numbers in bytes: those of the network, and those of a file in its byte order.

ghost use Rattle.std.specs.Prelude.{◌≡◌, ◌+◌, ◌≤◌, length};
ghost use Rattle.rip_wire.specs.Fields.{number_at};
ghost use Rattle.rip_capture.specs.Numbers.{long_in, number_in, short_in};

use byteorder::{BigEndian, ByteOrder, LittleEndian};

/// Which byte of a number is first.
#[derive(Clone, Copy)]
pub enum Order {
    /// The most significant one.
    Big,
    /// The least significant one.
    Little,
}

/// The network's number in the two bytes at an offset.
#[tactic(auto, unfolding(rip_wire::specs::Fields::number_at))]
pub(crate) fn u16_at(bytes: &[u8], at: usize) -> u16
    requires { at + 2 ≤ length bytes.now }
    ensures { result ≡ number_at 2 at bytes.now }
{
    BigEndian::read_u16(&bytes[at..])
}

/// The network's number in the four bytes at an offset.
#[tactic(auto, unfolding(rip_wire::specs::Fields::number_at))]
pub(crate) fn u32_at(bytes: &[u8], at: usize) -> u32
    requires { at + 4 ≤ length bytes.now }
    ensures { result ≡ number_at 4 at bytes.now }
{
    BigEndian::read_u32(&bytes[at..])
}

/// The number in the two bytes at an offset, in an order.
pub(crate) fn short_in(order: Order, bytes: &[u8], at: usize) -> u16
    requires { at + 2 ≤ length bytes.now }
    ensures { result ≡ short_in order at bytes.now }
{
    match order {
        Order::Big => BigEndian::read_u16(&bytes[at..]),
        Order::Little => LittleEndian::read_u16(&bytes[at..]),
    }
}

/// The number in the eight bytes at an offset, in an order.
pub(crate) fn long_in(order: Order, bytes: &[u8], at: usize) -> u64
    requires { at + 8 ≤ length bytes.now }
    ensures { result ≡ long_in order at bytes.now }
{
    match order {
        Order::Big => BigEndian::read_u64(&bytes[at..]),
        Order::Little => LittleEndian::read_u64(&bytes[at..]),
    }
}

/// The number in the four bytes at an offset, in an order.
pub(crate) fn number_in(order: Order, bytes: &[u8], at: usize) -> u32
    requires { at + 4 ≤ length bytes.now }
    ensures { result ≡ number_in order at bytes.now }
{
    match order {
        Order::Big => BigEndian::read_u32(&bytes[at..]),
        Order::Little => LittleEndian::read_u32(&bytes[at..]),
    }
}

//! Datagrams.

ghost use Rattle.std.specs.Prelude.{◌≡◌, ◌/◌, ◌<◌, ◌≤◌, is_ok, length, slice_get, take, true};
ghost use Rattle.rip_wire.specs.Message.{message_in};
ghost use Rattle.rip_wire.specs.Whole.{IsWhole};

use crate::Entry;
use crate::entries::read_entries;
use crate::limits::{ENTRY_LEN, HEADER_LEN, MOST_ENTRIES};
use crate::reading::good_entry;

/// What a datagram is for (RFC 2453, section 3.6).
#[derive(Clone, Copy, Debug, PartialEq, Eq)]
pub enum Kind {
    /// It asks for a table.
    Request,
    /// It shows a table, or a part of one.
    Response,
}

/// A datagram of RIP version 2 without a fault. It borrows its bytes.
#[derive(Debug, Drop)]
pub struct Datagram<'a> {
    bytes: &'a [u8],
    pub ghost whole: { IsWhole bytes.now },
}

impl<'a> Datagram<'a> {
    ghost use Rattle.rip_wire.specs.Datagram.{body_of, datagram_bytes, entries_of, kind_of, message_of};

    /// The datagram of bytes in which there is no fault, as of those that `read` took before. It
    /// looks at none of them.
    pub fn of_bytes(bytes: &'a [u8]) -> Datagram<'a>
        requires { is_ok (message_in bytes.now) ≡ true }
        ensures { datagram_bytes result ≡ bytes.now }
    {
        Datagram { bytes }
    }

    /// Whether it is a request or a response.
    pub fn kind(&self) -> Kind
        ensures { result ≡ kind_of (message_of self.now) }
    {
        if self.bytes[0] == 1 {
            Kind::Request
        } else {
            Kind::Response
        }
    }

    /// How many entries it has, at most 25. A request may have none.
    pub fn len(&self) -> usize
        ensures groups { result ≡ length (body_of self.now) / ENTRY_LEN }
        ensures entries { kind_of (message_of self.now) ≡ Kind.Response →
            result ≡ length (entries_of (message_of self.now)) }
        ensures few { result ≤ MOST_ENTRIES }
    {
        (self.bytes.len() - HEADER_LEN) / ENTRY_LEN
    }

    /// The bytes after the header.
    pub fn body(&self) -> &'a [u8]
        ensures { result.now ≡ body_of self.now }
    {
        &self.bytes[HEADER_LEN..]
    }

    /// An entry of a response, by its number from 0 on.
    pub fn entry(&self, i: usize) -> Entry
        requires response { kind_of (message_of self.now) ≡ Kind.Response }
        requires within { i < length (entries_of (message_of self.now)) }
        ensures { slice_get (entries_of (message_of self.now)) i ≡ Some result }
    {
        good_entry(self.bytes, HEADER_LEN + ENTRY_LEN * i)
    }

    /// Writes the entries of a response at the front of the room, in their order, and answers how
    /// many.
    pub fn read_entries(&self, room: &mut [Entry; MOST_ENTRIES]) -> usize
        requires { kind_of (message_of self.now) ≡ Kind.Response }
        ensures entries { take result room.new ≡ entries_of (message_of self.now) }
        ensures few { result ≤ MOST_ENTRIES }
    {
        let count = self.len();
        read_entries(self.bytes, count, room);
        count
    }

    /// Writes the entries of a response at the front of the room, in their order, and answers them.
    pub fn entries<'r>(&self, room: &'r mut [Entry; MOST_ENTRIES]) -> &'r [Entry]
        requires { kind_of (message_of self.now) ≡ Kind.Response }
        ensures entries { result.now ≡ entries_of (message_of self.now) }
        ensures few { length result.now ≤ MOST_ENTRIES }
    {
        let count = self.read_entries(room);
        &room[..count]
    }
}

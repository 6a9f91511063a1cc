//! Writing datagrams.

ghost use Rattle.std.specs.Prelude.{◌≡◌, ◌+◌, ◌*◌, ◌≤◌, ◌++◌, length, take, drop};
ghost use Rattle.rip_wire.specs.Fields.{bytes_of_number};
ghost use Rattle.rip_wire.specs.Grammar.{IsEntry, ResponseBytes, entry_bytes};

use crate::Entry;
use crate::limits::{ENTRY_LEN, HEADER_LEN, MOST_BYTES, MOST_ENTRIES};
use byteorder::{BigEndian, ByteOrder};

/// Writes a number in the two bytes at an offset.
#[tactic(auto, unfolding(crate::specs::Fields::bytes_of_number))]
fn put_u16(room: &mut [u8], at: usize, number: u16)
    requires { at + 2 ≤ length room.old }
    ensures number { take (at + 2) room.new ≡ take at room.old ++ bytes_of_number 2 number }
    ensures others { drop (at + 2) room.new ≡ drop (at + 2) room.old }
{
    BigEndian::write_u16(&mut room[at..at + 2], number);
}

/// Writes a number in the four bytes at an offset.
#[tactic(auto, unfolding(crate::specs::Fields::bytes_of_number))]
fn put_u32(room: &mut [u8], at: usize, number: u32)
    requires { at + 4 ≤ length room.old }
    ensures number { take (at + 4) room.new ≡ take at room.old ++ bytes_of_number 4 number }
    ensures others { drop (at + 4) room.new ≡ drop (at + 4) room.old }
{
    BigEndian::write_u32(&mut room[at..at + 4], number);
}

/// Writes an entry in the bytes from an offset on.
fn put_entry(room: &mut [u8], at: usize, entry: Entry)
    requires { at + ENTRY_LEN ≤ length room.old }
    ensures spelling { take (at + ENTRY_LEN) room.new ≡ take at room.old ++ entry_bytes entry }
    ensures others { drop (at + ENTRY_LEN) room.new ≡ drop (at + ENTRY_LEN) room.old }
    ensures entry { IsEntry entry }
{
    put_u16(room, at, 2);
    put_u16(room, at + 2, entry.tag);
    put_u32(room, at + 4, entry.prefix.network().get());
    put_u32(room, at + 8, entry.prefix.mask());
    put_u32(room, at + 12, entry.next_hop.get());
    put_u32(room, at + 16, entry.metric.get());
}

/// Writes the response of 1 to 25 entries at the front of the room, and answers its length. The
/// other bytes stay.
pub fn write_response(entries: &[Entry], room: &mut [u8; MOST_BYTES]) -> usize
    requires some { 1 ≤ length entries.now }
    requires few { length entries.now ≤ MOST_ENTRIES }
    ensures spelling { ResponseBytes entries.now (take result room.new) }
    ensures len { result ≡ HEADER_LEN + ENTRY_LEN * length entries.now }
    ensures others { drop result room.new ≡ drop result room.old }
{
    room[..HEADER_LEN].copy_from_slice(&[2, 2, 0, 0]);
    for i in 0..entries.len() {
        put_entry(room, HEADER_LEN + ENTRY_LEN * i, entries[i]);
    }
    HEADER_LEN + ENTRY_LEN * entries.len()
}

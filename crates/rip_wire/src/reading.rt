//! Reading datagrams.

ghost use Rattle.std.specs.Prelude.{◌≡◌, ◌+◌, ◌<◌, ◌≤◌, ◌↔◌, ◌++◌, ℕ, List, Ok, Some, length, is_ok, is_some, false, true, IfErr, IfOk, IfSome, IsErrOf, IsOkAnd, MatchResult, OnOk};
ghost use Rattle.rip_wire.specs.declared.entry.Entry.{Entry};
ghost use Rattle.rip_wire.specs.declared.error.WireCode.{WireCode};
ghost use Rattle.rip_wire.specs.Faults.{WireFault};
ghost use Rattle.rip_wire.specs.Grammar.{RequestBytes, ResponseBytes};
ghost use Rattle.rip_wire.specs.Whole.{IsWhole};
ghost use Rattle.rip_wire.specs.Datagram.{datagram_bytes, message_of};
ghost use Rattle.rip_wire.specs.Fields.{number_at};
ghost use Rattle.rip_wire.specs.Message.{Message, bits_of_mask, entries_at, entry_at, groups_in, kind_in, message_in, metric_of, prefix_of, request, response};

use crate::limits::{ENTRY_LEN, HEADER_LEN, MOST_BYTES};
use crate::prefix::mask_of_length;
use crate::{Address, Datagram, Entry, Kind, Metric, Prefix, WireCode, WireError};
use byteorder::{BigEndian, ByteOrder};

/// The length whose mask this is, where it is a mask.
fn length_of_mask(mask: u32) -> Option<u8>
    ensures value { result ≡ bits_of_mask mask }
    ensures few { IfSome result (λ prefix_len. prefix_len ≤ 32) }
{
    let length = mask.leading_ones() as u8;
    if mask == mask_of_length(length) {
        Some(length)
    } else {
        None
    }
}

/// The length whose mask this is, where it is known to be one.
fn length_of_known_mask(mask: u32) -> u8
    requires { is_some (bits_of_mask mask) ≡ true }
    ensures value { bits_of_mask mask ≡ Some result }
    ensures few { result ≤ 32 }
{
    mask.leading_ones() as u8
}

/// The number in the two bytes at an offset.
#[tactic(auto, unfolding(crate::specs::Fields::number_at))]
fn u16_at(bytes: &[u8], at: usize) -> u16
    requires { at + 2 ≤ length bytes.now }
    ensures { result ≡ number_at 2 at bytes.now }
{
    BigEndian::read_u16(&bytes[at..])
}

/// The number in the four bytes at an offset.
#[tactic(auto, unfolding(crate::specs::Fields::number_at))]
fn u32_at(bytes: &[u8], at: usize) -> u32
    requires { at + 4 ≤ length bytes.now }
    ensures { result ≡ number_at 4 at bytes.now }
{
    BigEndian::read_u32(&bytes[at..])
}

/// The fault of a code at an offset.
fn fault(code: WireCode, at: usize) -> WireError
    ensures { result ≡ record { code = code; at = at } }
{
    WireError { code, at }
}

/// Whether the entry at an offset has no fault.
#[tactic(auto, unfolding(crate::specs::Message::entry_at))]
fn is_entry(bytes: &[u8], at: usize) -> bool
    requires room { at + ENTRY_LEN ≤ length bytes.now }
    requires few { length bytes.now ≤ MOST_BYTES }
    ensures { result ≡ is_ok (entry_at at bytes.now) }
{
    let Some(length) = length_of_mask(u32_at(bytes, at + 8)) else {
        return false;
    };
    let network = Address::new(u32_at(bytes, at + 4));
    u16_at(bytes, at) == 2
        && Prefix::new(network, length).is_some()
        && Metric::new(u32_at(bytes, at + 16)).is_some()
}

/// The first fault of the entry at an offset where it has one.
#[tactic(auto, unfolding(crate::specs::Message::entry_at))]
fn entry_fault(bytes: &[u8], at: usize) -> WireError
    requires room { at + ENTRY_LEN ≤ length bytes.now }
    requires few { length bytes.now ≤ MOST_BYTES }
    requires bad { is_ok (entry_at at bytes.now) ≡ false }
    ensures { entry_at at bytes.now ≡ Err result }
{
    match u16_at(bytes, at) {
        0xFFFF => return fault(WireCode::Authentication, at),
        2 => {}
        _ => return fault(WireCode::Family, at),
    }
    let address = u32_at(bytes, at + 4);
    let Some(length) = length_of_mask(u32_at(bytes, at + 8)) else {
        return fault(WireCode::Mask, at + 8);
    };
    if length == 0 && address != 0 {
        return fault(WireCode::NoMask, at + 8);
    }
    if Prefix::new(Address::new(address), length).is_none() {
        return fault(WireCode::HostBits, at + 4);
    }
    fault(WireCode::Metric, at + 16)
}

/// The entry at an offset where it has no fault.
#[tactic(auto, unfolding(crate::specs::Message::entry_at))]
pub(crate) fn good_entry(bytes: &[u8], at: usize) -> Entry
    requires room { at + ENTRY_LEN ≤ length bytes.now }
    requires few { length bytes.now ≤ MOST_BYTES }
    requires good { is_ok (entry_at at bytes.now) ≡ true }
    ensures { entry_at at bytes.now ≡ Ok result }
{
    let length = length_of_known_mask(u32_at(bytes, at + 8));
    Entry {
        tag: u16_at(bytes, at + 2),
        prefix: Prefix::of_parts(Address::new(u32_at(bytes, at + 4)), length),
        next_hop: Address::new(u32_at(bytes, at + 12)),
        metric: Metric::of_number(u32_at(bytes, at + 16)),
    }
}

/// The kind of a datagram, by its header and its length.
#[tactic(auto, unfolding(crate::specs::Message::kind_in))]
fn read_kind(bytes: &[u8]) -> Result<Kind, WireError>
    ensures { result ≡ kind_in bytes.now }
{
    let len = bytes.len();
    if len < HEADER_LEN {
        return Err(fault(WireCode::Short, len));
    }
    if bytes[0] != 1 && bytes[0] != 2 {
        return Err(fault(WireCode::Command, 0));
    }
    if bytes[1] != 2 {
        return Err(fault(WireCode::Version, 1));
    }
    if bytes[2] != 0 || bytes[3] != 0 {
        return Err(fault(WireCode::Zero, 2));
    }
    if len > MOST_BYTES {
        return Err(fault(WireCode::TooMany, MOST_BYTES));
    }
    if (len - HEADER_LEN) % ENTRY_LEN != 0 {
        return Err(fault(WireCode::Ragged, len));
    }
    if bytes[0] == 1 {
        return Ok(Kind::Request);
    }
    if len == HEADER_LEN {
        return Err(fault(WireCode::Empty, HEADER_LEN));
    }
    Ok(Kind::Response)
}

/// Tests each entry, up to the first fault.
fn check_entries(bytes: &[u8]) -> Result<(), WireError>
    requires header { HEADER_LEN ≤ length bytes.now }
    requires few { length bytes.now ≤ MOST_BYTES }
    ensures { MatchResult result
        (λ _. is_ok (entries_at (groups_in bytes.now) HEADER_LEN bytes.now) ≡ true)
        (λ e. entries_at (groups_in bytes.now) HEADER_LEN bytes.now ≡ Err e) }
{
    let count = (bytes.len() - HEADER_LEN) / ENTRY_LEN;
    for i in 0..count {
        if !is_entry(bytes, HEADER_LEN + ENTRY_LEN * i) {
            return Err(entry_fault(bytes, HEADER_LEN + ENTRY_LEN * i));
        }
    }
    Ok(())
}

/// Whether the bytes are a datagram; if not, the error is their first fault.
fn check_datagram(bytes: &[u8]) -> Result<(), WireError>
    ensures whole { OnOk result (IsWhole bytes.now) }
    ensures fault { IfErr result (λ e. message_in bytes.now ≡ Err e) }
{
    match read_kind(bytes)? {
        Kind::Request => Ok(()),
        Kind::Response => check_entries(bytes),
    }
}

/// Reads a datagram: a request, whose body is not judged, or a response of 1 to 25 entries
/// (RFC 2453, sections 3.6 and 4). It borrows the bytes. Where they are no datagram, the error is
/// their first fault: of the header, then of the length, and then entry by entry.
pub fn read(bytes: &[u8]) -> Result<Datagram<'_>, WireError>
    ensures response { (entries : List Entry) →
        IsOkAnd result (λ d. message_of d ≡ response entries) ↔ ResponseBytes entries bytes.now }
    ensures request { IsOkAnd result (λ d. message_of d ≡ request) ↔ RequestBytes bytes.now }
    ensures refused { (code : WireCode) (at : ℕ) →
        IsErrOf result (record { code = code; at = at }) ↔ WireFault bytes.now code at }
    ensures bytes { IfOk result (λ d. datagram_bytes d ≡ bytes.now) }

    // More bytes than a datagram can have are refused alike, whatever follows them.
    ensures longer { IfErr result (λ e. MOST_BYTES < length bytes.now → (more : List ℕ) →
        WireFault (bytes.now ++ more) e.code e.at) }
    ensures exact { MatchResult result
        (λ d. message_in bytes.now ≡ Ok (message_of d)) (λ e. message_in bytes.now ≡ Err e) }
{
    match check_datagram(bytes) {
        Ok(()) => Ok(Datagram::of_bytes(bytes)),
        Err(error) => Err(error),
    }
}

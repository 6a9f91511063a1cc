//! Addresses, prefixes, metrics, names and datagrams: values from outside.

use rip_wire::{
    Address, Entry, Kind, Metric, Prefix, WireCode, WireError, is_name, read, write_response,
};
use std::hash::{DefaultHasher, Hash, Hasher};
use std::process::Abort;
use std::test::Fail;

/// A response of one entry: tag 0x1234, 10.3.0.0/16 by 10.0.0.7, metric 5.
const ONE_ENTRY: [u8; 24] = [
    2, 2, 0, 0, 0, 2, 0x12, 0x34, 10, 3, 0, 0, 255, 255, 0, 0, 10, 0, 0, 7, 0, 0, 0, 5,
];

fn make_prefix(rt: &impl Abort, text: &str) -> Prefix {
    Prefix::parse(text).expect(rt, "a prefix")
}

#[test]
fn reads_addresses(rt: HostRuntime) {
    for (text, number) in [
        ("0.0.0.0", 0),
        ("10.3.0.1", 0x0A03_0001),
        ("255.254.99.100", 0xFFFE_6364),
    ] {
        let address = Address::new(number);
        assert!(rt; Address::parse(text) == Some(address), "{text}");
        assert!(rt; address.encode(&mut [0; 15]) == text, "{text}");
    }
}

/// Expects the parts of a prefix by its text, and the text by its parts.
fn expect_prefix(rt: &impl Abort, text: &str, (network, length): (u32, u8), mask: u32) {
    let prefix = make_prefix(rt, text);
    let network = Address::new(network);
    assert!(rt; Prefix::new(network, length) == Some(prefix));
    assert!(rt; prefix.network() == network && prefix.length() == length);
    assert!(rt; prefix.mask() == mask && prefix.encode(&mut [0; 18]) == text);
}

#[test]
fn reads_prefixes(rt: HostRuntime) {
    expect_prefix(&rt, "0.0.0.0/0", (0, 0), 0);
    expect_prefix(&rt, "128.0.0.0/1", (0x8000_0000, 1), 0x8000_0000);
    expect_prefix(&rt, "10.3.0.0/16", (0x0A03_0000, 16), 0xFFFF_0000);
    let ones = u32::MAX;
    expect_prefix(&rt, "255.255.255.255/32", (ones, 32), ones);
}

/// The value's hash, as the standard library computes it.
fn hash_of<T: Hash>(value: &T) -> u64 {
    let mut hasher = DefaultHasher::new();
    value.hash(&mut hasher);
    hasher.finish()
}

#[test]
fn compares_prefixes(rt: HostRuntime) {
    let parsed = make_prefix(&rt, "10.0.0.0/8");
    let longer = make_prefix(&rt, "10.0.0.0/9");
    assert!(rt; parsed < longer && longer < make_prefix(&rt, "192.0.0.0/2"));
    let made = Prefix::new(Address::new(0x0A00_0000), 8).expect(&rt, "a prefix");
    assert!(rt; made == parsed && hash_of(&made) == hash_of(&parsed));
    assert!(rt; hash_of(&parsed) != hash_of(&longer));
}

#[test]
fn answers_of_values(rt: HostRuntime) {
    let prefix = make_prefix(&rt, "10.3.0.0/16");
    assert!(rt; prefix.contains(Address::new(0x0A03_FFFF)));
    assert!(rt; !prefix.contains(Address::new(0x0A04_0000)));
    let metric = Metric::new(14).expect(&rt, "a metric");
    assert!(rt; metric.plus(1).get() == 15 && metric.plus(2).get() == 16);
    assert!(rt; metric.plus(3).get() == 16 && Metric::new(17) == None);
    assert!(rt; is_name(b"Core-1_a.Z09") && !is_name(b"a b") && !is_name(&[b'x'; 33]));
}

/// The entry of ONE_ENTRY.
fn one_entry(rt: &impl Abort) -> Entry {
    Entry {
        tag: 0x1234,
        prefix: make_prefix(rt, "10.3.0.0/16"),
        next_hop: Address::new(0x0A00_0007),
        metric: Metric::new(5).expect(rt, "a metric"),
    }
}

#[test]
fn writes_one_entry(rt: HostRuntime) {
    let mut room = [0xA5; 504];
    let length = write_response(&[one_entry(&rt)], &mut room);
    assert!(rt; room[..length] == ONE_ENTRY[..]);
}

#[test]
fn reads_a_request(rt: HostRuntime) {
    let mut bytes = ONE_ENTRY;
    bytes[0] = 1;
    let datagram = read(&bytes).expect(&rt, "a request");
    assert!(rt; datagram.kind() == Kind::Request && datagram.len() == 1);
    assert!(rt; datagram.body() == &bytes[4..]);
}

#[test]
fn reads_a_response(rt: HostRuntime) {
    let entry = one_entry(&rt);
    let datagram = read(&ONE_ENTRY).expect(&rt, "a response");
    assert!(rt; datagram.kind() == Kind::Response && datagram.len() == 1);
    assert!(rt; datagram.entry(0) == entry);
    let mut room = [Entry::FILLER; 25];
    assert!(rt; datagram.read_entries(&mut room) == 1 && room[0] == entry);
    assert!(rt; datagram.entries(&mut room) == &[entry][..]);
}

#[test]
fn refuses_a_mask(rt: HostRuntime) {
    let mut bytes = ONE_ENTRY;
    bytes[13] = 1;
    let fault = read(&bytes).err();
    let code = WireCode::Mask;
    assert!(rt; fault == Some(WireError { code, at: 12 }));
}

#[test]
fn shows_itself(rt: HostRuntime) -> Result<(), Fail> {
    let prefix = make_prefix(&rt, "10.3.0.0/16");
    let address = Address::new(0x0A00_01FF);
    let shown = format!(in rt.alloc(); "{prefix} {address}")?;
    assert!(rt; shown.as_str() == "10.3.0.0/16 10.0.1.255");
    Ok(())
}

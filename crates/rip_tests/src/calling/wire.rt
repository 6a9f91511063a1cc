//! The caller of `rip_wire`.

ghost use Rattle.std.specs.Prelude.{◌≡◌, List, Some, length};
ghost use Rattle.rip_wire.specs.Grammar.{ResponseBytes};
ghost use Rattle.rip_wire.specs.declared.entry.Entry.{Entry};

use rip_wire::{Kind, Prefix, read};

/// How many entries the bytes have, where they are a response.
fn entries_in(bytes: &[u8]) -> Option<usize>
    ensures { (entries : List Entry) → ResponseBytes entries bytes.now →
        result ≡ Some (length entries) }
{
    let datagram = read(bytes).ok()?;
    match datagram.kind() {
        Kind::Request => None,
        Kind::Response => Some(datagram.len()),
    }
}

/// The metric that the bytes show first for a prefix.
fn metric_in(bytes: &[u8], prefix: Prefix) -> Option<u32> {
    let datagram = read(bytes).ok()?;
    if datagram.kind() == Kind::Request {
        return None;
    }
    for i in 0..datagram.len() {
        let entry = datagram.entry(i);
        if entry.prefix == prefix {
            return Some(entry.metric.get());
        }
    }
    None
}

#[test]
fn a_datagram_is_asked(rt: HostRuntime) {
    let bytes = [
        2, 2, 0, 0, 0, 2, 0, 0, 10, 3, 0, 0, 255, 255, 0, 0, 0, 0, 0, 0, 0, 0, 0, 5,
    ];
    let prefix = Prefix::parse("10.3.0.0/16").expect(&rt, "a prefix");
    assert!(rt; entries_in(&bytes) == Some(1) && metric_in(&bytes, prefix) == Some(5));
    assert!(rt; entries_in(&bytes[..23]) == None);
}

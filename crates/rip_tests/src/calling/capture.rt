//! The caller of `rip_capture`.

use crate::examples::LITTLE;
use rip_capture::{CaptureReader, Carried, read_frame};
use rip_log::{FromRead, Source};
use rip_wire::Address;
use std::alloc::Global;

/// Who sent the first packet of a file, if it carries a whole RIP datagram.
fn first_sender<R: Source + Drop>(alloc: Global, file: R) -> Option<Address> {
    let Ok(mut reader) = CaptureReader::new(alloc, file) else {
        return None;
    };
    let Ok(Some(packet)) = reader.next() else {
        return None;
    };
    match read_frame(packet.link_type, packet.bytes) {
        Carried::Datagram(sender, _) => Some(sender),
        _ => None,
    }
}

#[test]
fn a_capture_is_read(rt: HostRuntime) {
    let sender = first_sender(rt.alloc(), FromRead::new(&LITTLE[..]));
    assert!(rt; sender == Address::parse("10.1.0.1"));
    assert!(rt; first_sender(rt.alloc(), FromRead::new(&LITTLE[..24])).is_none());
}

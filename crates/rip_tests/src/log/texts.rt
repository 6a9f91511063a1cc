//! Digits, fields and times: answers that no run of the program shows.

use rip_log::{Span, decode_digits, next_field, read_time, write_time};

/// Digits of either case, more than one block of them.
#[test]
fn decodes_digits(rt: HostRuntime) {
    let mut room = [0xA5; 19];
    assert!(rt; decode_digits(b"0123456789abcdEFabcdefABCDEF99999999", &mut room));
    let front = [
        0x01, 0x23, 0x45, 0x67, 0x89, 0xAB, 0xCD, 0xEF, 0xAB, 0xCD, 0xEF,
    ];
    assert!(rt; room[..11] == front[..]);
    assert!(rt; room[11..] == [0xAB, 0xCD, 0xEF, 0x99, 0x99, 0x99, 0x99, 0xA5][..]);
    for digits in [&b"012"[..], b"0g", b"0 ", b"\xFF0"] {
        assert!(rt; !decode_digits(digits, &mut room));
    }
}

#[test]
fn finds_fields(rt: HostRuntime) {
    let line = b"\t a  10.1.0.1\t";
    for (from, field) in [
        (0, Some(Span { from: 2, to: 3 })),
        (3, Some(Span { from: 5, to: 13 })),
        (13, None),
        (14, None),
    ] {
        assert!(rt; from <= line.len());
        assert!(rt; next_field(&line[..], from) == field);
    }
}

#[test]
fn reads_times(rt: HostRuntime) {
    let text = b"2026-11-27T01:16:20.394151Z";
    assert!(rt; read_time(&text[..]) == Some(1_795_742_180_394_151));
    assert!(rt; write_time(1_795_742_180_394_151).as_slice() == &text[..]);
    for other in [
        &b""[..],
        b" 2026-11-27T01:16:20.394151Z",
        b"2026-11-27T01:16:20.394151Z ",
        b"2026-11-27 01:16:20.394151Z",
        b"2026-11-27T 1:16:20.394151Z",
    ] {
        assert!(rt; read_time(other) == None);
    }
}

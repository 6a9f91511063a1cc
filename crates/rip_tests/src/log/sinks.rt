//! Sinks over memory, and over writers that fail.

use rip_log::{Failed, IntoWrite, Sink};
use std::io;
use std::io::Write;

/// A writer that fails, or takes nothing, in one of its calls, and else takes at most two bytes.
#[derive(Drop)]
struct Fragile {
    calls: usize,
    taken: usize,
    bad_call: usize,
    kind: Option<io::ErrorKind>,
}

impl Write for Fragile {
    fn write(&mut self, bytes: &[u8]) -> io::Result<usize> {
        self.calls = self.calls.wrapping_add(1);
        if self.calls == self.bad_call {
            return match self.kind {
                Some(kind) => Err(io::Error::from(kind)),
                None => Ok(0),
            };
        }
        let count = bytes.len().min(2);
        self.taken = self.taken.wrapping_add(count);
        Ok(count)
    }

    fn flush(&mut self) -> io::Result<()> {
        Ok(())
    }
}

#[test]
fn takes_bytes(rt: HostRuntime) {
    let mut sink = IntoWrite::new(Vec::new(rt.alloc()));
    assert!(rt; sink.push(b"settled") == Ok(7) && sink.push(b"") == Ok(0));
    assert!(rt; sink.push(b"!") == Ok(1) && !sink.failed());
    assert!(rt; sink.into_writer().as_slice() == &b"settled!"[..]);
}

#[test]
fn fails_for_good(rt: HostRuntime) {
    let kinds = [
        Some(io::ErrorKind::Other),
        Some(io::ErrorKind::Interrupted),
        Some(io::ErrorKind::OutOfMemory),
        None,
    ];
    for kind in kinds {
        let mut sink = IntoWrite::new(Fragile {
            calls: 0,
            taken: 0,
            bad_call: 2,
            kind,
        });
        assert!(rt; sink.push(b"abc") == Ok(2) && !sink.failed());
        for bytes in [&b"c"[..], b"c", b""] {
            assert!(rt; sink.push(bytes) == Err(Failed) && sink.failed());
        }
        let writer = sink.into_writer();
        assert!(rt; writer.calls == 2 && writer.taken == 2);
    }
}

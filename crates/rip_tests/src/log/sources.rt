//! Sources over readers that fail, and over readers that end and could go on.

use rip_log::{Failed, FromRead, Source};
use std::io;
use std::io::Read;

/// A reader that fails, or gives nothing, in one of its calls, and else gives one byte.
#[derive(Drop)]
struct Fragile {
    calls: usize,
    bad_call: usize,
    kind: Option<io::ErrorKind>,
}

impl Read for Fragile {
    fn read(&mut self, buffer: &mut [u8]) -> io::Result<usize> {
        self.calls = self.calls.wrapping_add(1);
        if self.calls == self.bad_call {
            return match self.kind {
                Some(kind) => Err(io::Error::from(kind)),
                None => Ok(0),
            };
        }
        match buffer {
            [first, ..] => {
                *first = b'x';
                Ok(1)
            }
            [] => Ok(0),
        }
    }
}

fn make_source(kind: Option<io::ErrorKind>) -> FromRead<Fragile> {
    FromRead::new(Fragile {
        calls: 0,
        bad_call: 2,
        kind,
    })
}

#[test]
fn fails_for_good(rt: HostRuntime) {
    let kinds = [
        io::ErrorKind::Other,
        io::ErrorKind::Interrupted,
        io::ErrorKind::OutOfMemory,
    ];
    for kind in kinds {
        let mut source = make_source(Some(kind));
        let mut room = [0; 4];
        assert!(rt; source.pull(&mut room) == Ok(1) && room[0] == b'x');
        assert!(rt; !source.failed());
        for _ in 0..2 {
            assert!(rt; source.pull(&mut room) == Err(Failed));
            assert!(rt; source.pull(&mut []) == Err(Failed));
            assert!(rt; source.failed() && !source.ended());
        }
        assert!(rt; source.into_reader().calls == 2);
    }
}

#[test]
fn ends_for_good(rt: HostRuntime) {
    let mut source = make_source(None);
    let mut room = [0; 4];
    assert!(rt; source.pull(&mut room) == Ok(1));
    assert!(rt; source.pull(&mut []) == Ok(0) && !source.ended());
    for _ in 0..2 {
        assert!(rt; source.pull(&mut room) == Ok(0));
        assert!(rt; source.ended() && !source.failed());
    }
    assert!(rt; source.into_reader().calls == 2);
}

//! The reader of captures pulls what a record or a block needs, and no more; and what a failed pull leaves.

use crate::devices::Pieces;
use crate::examples::{BLOCKS, LITTLE};
use rip_capture::{CaptureCode, CaptureError, CaptureReader};
use rip_log::{FromRead, Source};
use std::alloc::Global;
use std::process::Abort;
use std::test::Fail;

fn reader_of<'a>(
    rt: &impl Abort,
    alloc: Global,
    file: Pieces<'a>,
) -> CaptureReader<FromRead<Pieces<'a>>> {
    match CaptureReader::new(alloc, FromRead::new(file)) {
        Ok(reader) => reader,
        Err(_) => panic!(rt; "no memory"),
    }
}

#[test]
fn reads_what_a_record_needs(rt: HostRuntime) {
    for (file, calls, reads) in [
        (&LITTLE[..], 0, 0),
        (&LITTLE[..], 1, 106),
        (&LITTLE[..], 2, 107),
        (&LITTLE[..], 3, 107),
        (&BLOCKS[..], 1, 152),
        (&BLOCKS[..], 2, 184),
        (&BLOCKS[..], 3, 185),
        (&BLOCKS[..], 4, 185),
    ] {
        let mut reader = reader_of(&rt, rt.alloc(), Pieces::new(file, 1));
        for _ in 0..calls {
            assert!(rt; reader.next().is_ok());
        }
        assert!(rt; reader.into_source().into_reader().calls() == reads);
    }
}

/// If both records arrive at once, the second one is ready after the first.
#[test]
fn what_is_held_is_ready(rt: HostRuntime) -> Result<(), Fail> {
    let mut file = Vec::new(rt.alloc());
    file.extend_from_slice(&LITTLE)?;
    file.extend_from_slice(&LITTLE[24..])?;
    for (piece, ready) in [(1, false), (4096, true)] {
        let mut reader = reader_of(&rt, rt.alloc(), Pieces::new(file.as_slice(), piece));
        for due in [false, ready, false] {
            assert!(rt; reader.is_ready() == due);
            assert!(rt; reader.next().is_ok());
        }
    }
    Ok(())
}

/// The pull that fails, how many packets come before it, and where the error is.
#[test]
fn failing_pulls(rt: HostRuntime) {
    for (pull, packets, at) in [
        (1, 0, 0),
        (24, 0, 0),
        (25, 0, 24),
        (106, 0, 24),
        (107, 1, 106),
    ] {
        let mut reader = reader_of(&rt, rt.alloc(), Pieces::failing(&LITTLE, pull));
        for _ in 0..packets {
            assert!(rt; matches!(reader.next(), Ok(Some(_))));
        }
        let fault = CaptureError {
            code: CaptureCode::Read,
            at,
        };
        for _ in 0..2 {
            match reader.next() {
                Err(error) => assert!(rt; error == fault),
                Ok(_) => panic!(rt; "no failure"),
            }
        }
        assert!(rt; reader.into_source().failed());
    }
}

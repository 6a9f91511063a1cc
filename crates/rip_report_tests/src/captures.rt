//! Captures that come in pieces, and from sources that fail, to sinks that fail.

use rip_log::{FromRead, IntoWrite, Sink, Source};
use rip_report::{
    Authentication, CaptureLog, FilePart, Manner, RunError, Selection, Status, run_log,
};
use rip_tests::devices::{Pieces, Slow};
use rip_tests::examples::BLOCKS;
use rip_wire::is_name;
use std::alloc::Global;
use std::io::{Read, Write};
use std::process::Abort;

/// A file of raw IP packets: a request without entries from 10.1.0.2, and the same cut within the UDP header.
const FILE: &[u8; 115] = b"\xD4\xC3\xB2\xA1\x02\0\x04\0\0\0\0\0\0\0\0\0\0\0\x04\0\x65\0\0\0\
\0\0\0\0\0\0\0\0\x20\0\0\0\0\0\0\0\
\x45\0\0\x20\0\0\0\0\x01\x11\0\0\x0A\x01\0\x02\xE0\0\0\x09\x02\x08\x02\x08\0\x0C\0\0\x01\x02\0\0\
\0\0\0\0\0\0\0\0\x1B\0\0\0\0\0\0\0\
\x45\0\0\x20\0\0\0\0\x01\x11\0\0\x0A\x01\0\x02\xE0\0\0\x09\x02\x08\x02\x08\0\x0C\0";

/// The log of that file.
const TEXT: &str = "a 10.1.0.2 01020000
a 10.1.0.2 cut
# file 1 link a: 2 packets, 1 datagrams, 1 cut
";

/// Its log if the source fails within the first record, within the second one, and at the end.
const NO_LINES: &str = "failed: read\n";

const ONE_LINE: &str = "a 10.1.0.2 01020000\nfailed: read\n";

const TWO_LINES: &str = "a 10.1.0.2 01020000\na 10.1.0.2 cut\nfailed: read\n";

/// The log of `BLOCKS` if the source fails after its first packet, and at the end.
const FIRST_LINE: &str =
    "a 10.1.0.1 02020000000200000a020000ffff00000000000000000003\nfailed: read\n";

const BOTH_LINES: &str =
    "a 10.1.0.1 02020000000200000a020000ffff00000000000000000003\na unknown cut\nfailed: read\n";

/// A log of datagrams as they were sent, without times.
fn new_log() -> CaptureLog {
    CaptureLog::new(Manner {
        authentication: Authentication::AsSent,
        times: false,
    })
}

/// Adds a file to a log, all of which belongs to link a.
fn add<R: Read + Drop, W: Write>(
    rt: &impl Abort,
    alloc: Global,
    log: &mut CaptureLog,
    file: R,
    out: IntoWrite<W>,
) -> (FromRead<R>, IntoWrite<W>, Result<Status, RunError>) {
    let part = FilePart {
        link: "a",
        selection: Selection {
            interface: &[][..],
            vlans: &[][..],
        },
    };
    assert!(rt; is_name(part.link.as_bytes()));
    run_log(alloc, log, &part, FromRead::new(file), out)
}

/// Expects this answer and this text for a file from a reader. The source comes back.
fn expect_answer<'a>(
    rt: &impl Abort,
    alloc: Global,
    file: Pieces<'a>,
    due: Result<Status, RunError>,
    text: &str,
) -> FromRead<Pieces<'a>> {
    let out = IntoWrite::new(Vec::new(alloc));
    let (source, out, answer) = add(rt, alloc, &mut new_log(), file, out);
    assert!(rt; answer == due && !out.failed());
    assert!(rt; out.into_writer().as_slice() == text.as_bytes());
    source
}

#[test]
fn files_in_pieces(rt: HostRuntime) {
    for piece in [1, 2, 16, 23, 24, 25, 71, 72, 73, 4096] {
        let file = Pieces::new(&FILE[..], piece);
        let source = expect_answer(&rt, rt.alloc(), file, Ok(Status::Unclear), TEXT);
        assert!(rt; source.ended() && !source.failed());
    }
}

/// Each pull fails in turn. The pull after all bytes finds the end.
#[test]
fn a_source_that_fails(rt: HostRuntime) {
    for (file, from, to, text) in [
        (&FILE[..], 0usize, 72, NO_LINES),
        (&FILE[..], 72, 115, ONE_LINE),
        (&FILE[..], 115, 116, TWO_LINES),
        (&BLOCKS[..], 0, 152, NO_LINES),
        (&BLOCKS[..], 152, 184, FIRST_LINE),
        (&BLOCKS[..], 184, 185, BOTH_LINES),
    ] {
        for given in from..to {
            let file = Pieces::failing(file, given.wrapping_add(1));
            let source = expect_answer(&rt, rt.alloc(), file, Err(RunError::Read), text);
            assert!(rt; source.failed());
        }
    }
}

#[test]
fn a_sink_that_fails(rt: HostRuntime) {
    for most in 0..TEXT.len() {
        let out = IntoWrite::new(Slow::new(rt.alloc(), most));
        let (source, out, answer) = add(&rt, rt.alloc(), &mut new_log(), &FILE[..], out);
        assert!(rt; answer == Err(RunError::Write) && out.failed() && !source.failed());
        assert!(rt; Some(out.into_writer().taken()) == TEXT.as_bytes().get(..most));
    }
}

/// A refused file does not count for the status of the log, as one does that is unclear.
#[test]
fn the_status_of_a_log(rt: HostRuntime) {
    for (file, answer, status) in [
        (&b"no capture"[..], Status::Refused, Status::Done),
        (&FILE[..], Status::Unclear, Status::Unclear),
    ] {
        let mut log = new_log();
        let out = IntoWrite::new(Vec::new(rt.alloc()));
        let (_, _, given) = add(&rt, rt.alloc(), &mut log, file, out);
        assert!(rt; given == Ok(answer) && log.status() == status);
    }
}

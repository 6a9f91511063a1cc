//! The command `watch`: a film of the triangle, to its end or to its first settled second, in
//! pieces, and with sources and sinks that fail.

use rip_log::{FromRead, IntoWrite, Sink, Source};
use rip_report::{RunError, Status, Watching, run_watch};
use rip_table::WindowLength;
use rip_tests::devices::{Pieces, Slow};
use rip_tests::examples::TRIANGLE;
use std::alloc::Global;
use std::hash::{BuildHasherDefault, FoldHasher};
use std::io::{Read, Write};
use std::process::Abort;

/// Each interface is heard in a second of its own, and one of them once more, after two seconds in
/// which no line comes.
const LINES: &str =
    "2024-11-27T01:38:20.000000Z a 10.1.0.1 02020000000200000a030000ffff00000000000000000001000200000a020000ffff00000000000000000010
2024-11-27T01:38:21.000000Z c 10.3.0.1 02020000000200000a010000ffff00000000000000000001000200000a020000ffff00000000000000000002
2024-11-27T01:38:22.000000Z a 10.1.0.2 02020000000200000a020000ffff00000000000000000001000200000a030000ffff00000000000000000002
2024-11-27T01:38:23.000000Z b 10.2.0.2 02020000000200000a010000ffff00000000000000000001000200000a030000ffff00000000000000000010
2024-11-27T01:38:24.000000Z b 10.2.0.3 02020000000200000a030000ffff00000000000000000001000200000a010000ffff00000000000000000002
2024-11-27T01:38:25.000000Z c 10.3.0.3 02020000000200000a020000ffff00000000000000000001000200000a010000ffff00000000000000000010
2024-11-27T01:38:28.000000Z c 10.3.0.3 02020000000200000a020000ffff00000000000000000001000200000a010000ffff00000000000000000010
";

/// What a window of seven seconds shows: r1 on link a is heard for the last time in second 26.
const FILM: &str = "2024-11-27T01:38:20Z unclear: router r1 link c: not heard
2024-11-27T01:38:21Z unclear: router r2 link a: not heard
2024-11-27T01:38:22Z unclear: router r2 link b: not heard
2024-11-27T01:38:23Z unclear: router r3 link b: not heard
2024-11-27T01:38:24Z unclear: router r3 link c: not heard
2024-11-27T01:38:25Z settled: 3 routers, 3 prefixes
2024-11-27T01:38:27Z unclear: router r1 link a: not heard
";

/// The bytes of its first six lines.
const TO_SETTLED: usize = 342;

/// Watches a log of the triangle by a window of seven seconds.
fn watch<L: Read + Drop, W: Write>(
    rt: &impl Abort,
    alloc: Global,
    log: L,
    out: IntoWrite<W>,
    until_settled: bool,
) -> (FromRead<L>, IntoWrite<W>, Result<Status, RunError>) {
    let Some(length) = WindowLength::new(7) else {
        panic!(rt; "no window");
    };
    let watching = Watching {
        length,
        until_settled,
    };
    let hasher = BuildHasherDefault::<FoldHasher>::new();
    run_watch(
        alloc,
        TRIANGLE.as_bytes(),
        FromRead::new(log),
        out,
        watching,
        hasher,
    )
}

/// Expects the film to its end where its log comes in pieces of this size, and to its first settled
/// second, behind which nothing more is pulled than the line that tells so.
fn expect_film(rt: &impl Abort, alloc: Global, piece: usize) {
    let out = IntoWrite::new(Vec::new(alloc));
    let log = Pieces::new(LINES.as_bytes(), piece);
    let (source, out, outcome) = watch(rt, alloc, log, out, false);
    assert!(rt; outcome == Ok(Status::Unclear) && source.ended());
    assert!(rt; out.into_writer().as_slice() == FILM.as_bytes());
    let out = IntoWrite::new(Vec::new(alloc));
    let log = Pieces::new(LINES.as_bytes(), piece);
    let (source, out, outcome) = watch(rt, alloc, log, out, true);
    assert!(rt; outcome == Ok(Status::Settled) && !source.ended());
    assert!(rt; Some(out.into_writer().as_slice()) == FILM.as_bytes().get(..TO_SETTLED));
}

#[test]
fn films_in_pieces(rt: HostRuntime) {
    for piece in [1, 2, 7, 99, 2049] {
        expect_film(&rt, rt.alloc(), piece);
    }
}

/// The bytes of each of its first five lines.
const LINE: usize = 58;

/// A source that fails leaves the film of the lines before, but for the second of the last; a sink
/// that fails leaves what it has taken.
#[test]
fn devices_that_fail(rt: HostRuntime) {
    let mut whole = 0usize;
    for fails_at in 1..LINES.len() {
        let out = IntoWrite::new(Vec::new(rt.alloc()));
        let log = Pieces::failing(LINES.as_bytes(), fails_at);
        let (source, out, outcome) = watch(&rt, rt.alloc(), log, out, false);
        assert!(rt; outcome == Err(RunError::Read) && source.failed());
        let printed = whole.saturating_sub(1).saturating_mul(LINE);
        assert!(rt; Some(out.into_writer().as_slice()) == FILM.as_bytes().get(..printed));
        if LINES.as_bytes().get(fails_at - 1) == Some(&b'\n') {
            whole = whole.saturating_add(1);
        }
    }
    for most in 0..FILM.len() {
        let out = IntoWrite::new(Slow::new(rt.alloc(), most));
        let (source, out, outcome) = watch(&rt, rt.alloc(), LINES.as_bytes(), out, false);
        assert!(rt; outcome == Err(RunError::Write) && out.failed() && !source.failed());
        assert!(rt; Some(out.into_writer().taken()) == FILM.as_bytes().get(..most));
    }
}

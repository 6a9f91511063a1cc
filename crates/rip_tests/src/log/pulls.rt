//! When a reader of a log pulls, and what a failed pull leaves.

use super::{expect_outcome, reader_of};
use crate::devices::{Endless, Pieces};
use crate::examples::SETTLED;
use rip_log::{FromRead, LogCode, LogError, LogReader, Source};

/// How many reads a text takes in pieces of so many bytes, after so many calls.
const READS: [(usize, [(usize, usize); 5]); 4] = [
    (1, [(0, 0), (1, 100), (6, 600), (7, 601), (9, 601)]),
    (100, [(0, 0), (1, 1), (6, 6), (7, 7), (9, 7)]),
    (250, [(2, 1), (5, 2), (6, 3), (7, 4), (9, 4)]),
    (600, [(0, 0), (1, 1), (6, 1), (7, 2), (9, 2)]),
];

/// How often the reader beneath was read.
fn reads_of(reader: LogReader<FromRead<Pieces<'_>>>) -> usize {
    reader.into_source().into_reader().calls()
}

#[test]
fn reads_what_a_line_needs(rt: HostRuntime) {
    for (piece, counts) in READS {
        for (calls, reads) in counts {
            let mut reader = reader_of(&rt, rt.alloc(), Pieces::new(SETTLED.as_bytes(), piece));
            for _ in 0..calls {
                assert!(rt; reader.next().is_ok());
            }
            assert_eq!(rt;
                reads_of(reader),
                reads,
                "{calls} calls, in pieces of {piece}"
            );
        }
    }
}

#[test]
fn reads_nothing_after_the_end(rt: HostRuntime) {
    for (log, calls, reads) in [
        ("z 9.9.9.9 01020000\n", 3, 20),
        ("z 9.9.9.9 01020000\n#", 3, 21),
        ("z 9.9.9.9 01020000\n#\n", 3, 22),
        ("z 9.9.9.9 01020000\nx", 4, 21),
    ] {
        let mut reader = reader_of(&rt, rt.alloc(), Pieces::new(log.as_bytes(), 1));
        for _ in 0..calls {
            let _answer = reader.next();
        }
        assert!(rt; reads_of(reader) == reads, "{log}");
    }
}

#[test]
fn failing_reads(rt: HostRuntime) {
    for call in 1..603u32 {
        let lines = (call - 1) / 100;
        let mut reader = reader_of(
            &rt,
            rt.alloc(),
            Pieces::failing(SETTLED.as_bytes(), call as usize),
        );
        let fault = LogError {
            code: LogCode::Read,
            line: lines + 1,
        };
        let fails = call < 602;
        expect_outcome(&rt, &mut reader, lines as usize, fails.then_some(fault));
        assert!(rt; reader.into_source().failed() == fails);
    }
    let mut reader = reader_of(&rt, rt.alloc(), Pieces::failing(b"a 10.1.0.1\n", 12));
    let fault = LogError {
        code: LogCode::Fields,
        line: 1,
    };
    expect_outcome(&rt, &mut reader, 0, Some(fault));
}

#[test]
fn endless_sources(rt: HostRuntime) {
    for (byte, piece, code, line, calls) in [
        (b'x', 1, LogCode::LongLine, 1, 2049),
        (b'x', 100, LogCode::LongLine, 1, 21),
        (b'\n', 1000, LogCode::TooManyLines, 1_000_001, 1001),
    ] {
        let source = FromRead::new(Endless::new(byte, piece));
        let Ok(mut reader) = LogReader::new(rt.alloc(), source) else {
            panic!(rt; "no memory");
        };
        match reader.next() {
            Err(error) => assert!(rt; error.code == code && error.line == line),
            Ok(_) => panic!(rt; "no fault"),
        }
        assert!(rt; reader.into_source().into_reader().calls() == calls);
    }
}

/// A source that fails within a line of 5,000 bytes, most of which are passed over.
#[test]
fn a_failure_in_a_long_line(rt: HostRuntime) {
    let line = [b'x'; 5000];
    let mut reader = reader_of(&rt, rt.alloc(), Pieces::failing(&line, 4000));
    for code in [LogCode::Read, LogCode::Ended] {
        match reader.next_line() {
            Err(error) => assert!(rt; error == LogError { code, line: 1 }),
            Ok(_) => panic!(rt; "a failure"),
        }
    }
}

//! Commands whose input comes in pieces, and whose source or sink fails.

use crate::commands::{Command, LogCommand, OwnCommand, ROWS, Row, run};
use rip_log::{FromRead, IntoWrite, Sink, Source};
use rip_report::{RunError, Status};
use rip_tests::devices::{Endless, Pieces, Slow};
use std::alloc::Global;
use std::process::Abort;

/// What a command prints of an input that comes in one piece.
fn text_of(rt: &impl Abort, alloc: Global, row: &Row) -> Vec<u8> {
    let out = IntoWrite::new(Vec::new(alloc));
    let (_, out, outcome) = run(alloc, row.command, row.input.as_bytes(), out);
    assert_eq!(rt; outcome, Ok(row.status));
    out.into_writer()
}

/// Expects this text of a row whose input comes from this reader. The source comes back.
fn expect_text<'a>(
    rt: &impl Abort,
    alloc: Global,
    row: &Row,
    input: Pieces<'a>,
    text: &[u8],
) -> FromRead<Pieces<'a>> {
    let out = IntoWrite::new(Vec::new(alloc));
    let (source, out, outcome) = run(alloc, row.command, input, out);
    assert!(rt; outcome == Ok(row.status) && !out.failed());
    assert!(rt; out.into_writer().as_slice() == text);
    source
}

#[test]
fn inputs_in_pieces(rt: HostRuntime) {
    for row in ROWS {
        let text = text_of(&rt, rt.alloc(), &row);
        for piece in [1, 2, 3, 7, 99, 100, 101, 2049] {
            let input = Pieces::new(row.input.as_bytes(), piece);
            let source = expect_text(&rt, rt.alloc(), &row, input, text.as_slice());
            assert!(rt; source.ended() && !source.failed());
        }
    }
}

/// Expects that nothing is printed if the source fails in its pull of this number.
fn expect_read_failure(rt: &impl Abort, alloc: Global, row: &Row, fails_at: usize) {
    let out = IntoWrite::new(Vec::new(alloc));
    let input = Pieces::failing(row.input.as_bytes(), fails_at);
    let (source, out, outcome) = run(alloc, row.command, input, out);
    assert!(rt; outcome == Err(RunError::Read) && source.failed());
    assert!(rt; out.into_writer().is_empty());
}

/// Each pull fails in turn, for a command of each kind. The pull after all bytes finds the end.
#[test]
fn a_source_that_fails(rt: HostRuntime) {
    for row in &ROWS[..3] {
        for before in 0..row.input.len().wrapping_add(1) {
            expect_read_failure(&rt, rt.alloc(), row, before.wrapping_add(1));
        }
    }
}

#[test]
fn each_command_where_the_source_fails(rt: HostRuntime) {
    for row in ROWS {
        let len = row.input.len();
        for fails_at in [1, len / 2, len, len.wrapping_add(1)] {
            expect_read_failure(&rt, rt.alloc(), &row, fails_at);
        }
    }
}

/// The commands that end at a refused line.
const ENDED_BY_REFUSALS: [Command; 6] = [
    Command::Log(LogCommand::Audit { all: true }),
    Command::Log(LogCommand::Explain { all: true }),
    Command::Log(LogCommand::Routes),
    Command::Log(LogCommand::Table),
    Command::Own(OwnCommand::Audit { all: true }),
    Command::Own(OwnCommand::Explain { all: true }),
];

/// Expects that the source is not pulled in the pull of this number, which would fail.
fn expect_no_pull(rt: &impl Abort, alloc: Global, row: &Row, fails_at: usize) {
    let text = text_of(rt, alloc, row);
    let input = Pieces::failing(row.input.as_bytes(), fails_at);
    let source = expect_text(rt, alloc, row, input, text.as_slice());
    assert!(rt; !source.failed());
}

/// Nothing is pulled after the end of the input, or after a refused line.
#[test]
fn a_source_that_would_fail_later(rt: HostRuntime) {
    for row in ROWS {
        expect_no_pull(&rt, rt.alloc(), &row, row.input.len().wrapping_add(2));
    }
    for command in ENDED_BY_REFUSALS {
        let row = Row {
            command,
            input: "a 10.1.0.1\n",
            status: Status::Refused,
        };
        expect_no_pull(&rt, rt.alloc(), &row, row.input.len().wrapping_add(1));
    }
}

/// Expects the beginning of a text if the sink fails after `most` bytes.
fn expect_write_failure(rt: &impl Abort, alloc: Global, row: &Row, text: &[u8], most: usize) {
    let out = IntoWrite::new(Slow::new(alloc, most));
    let (source, out, outcome) = run(alloc, row.command, row.input.as_bytes(), out);
    assert!(rt; outcome == Err(RunError::Write) && out.failed() && !source.failed());
    let taken = out.into_writer();
    assert!(rt; Some(taken.taken()) == text.get(..most));
}

#[test]
fn a_sink_that_fails(rt: HostRuntime) {
    for row in ROWS {
        let text = text_of(&rt, rt.alloc(), &row);
        assert!(rt; !text.is_empty());
        for most in 0..text.len() {
            expect_write_failure(&rt, rt.alloc(), &row, text.as_slice(), most);
        }
    }
}

/// A byte that repeats without end, how often it is given before a log of it is refused, and the line that says so.
const ENDLESS: [(u8, usize, &str); 2] = [
    (b'x', 2049, "refused: log line 1: 1 LongLine\n"),
    (
        b'\n',
        1_000_001,
        "refused: log line 1000001: 8 TooManyLines\n",
    ),
];

#[test]
fn sources_that_never_end(rt: HostRuntime) {
    let table = Command::Log(LogCommand::Table);
    for (byte, given, text) in ENDLESS {
        let out = IntoWrite::new(Vec::new(rt.alloc()));
        let (source, out, outcome) = run(rt.alloc(), table, Endless::new(byte, 1), out);
        assert_eq!(rt; outcome, Ok(Status::Refused));
        assert_eq!(rt; source.into_reader().calls(), given);
        assert!(rt; out.into_writer().as_slice() == text.as_bytes());
    }
}

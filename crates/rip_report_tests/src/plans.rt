//! The commands that read a plan alone, and the one that reads a datagram.

use rip_log::{IntoWrite, Sink};
use rip_report::{RunError, Status, run_decode, run_expect, run_plan, run_whatif};
use rip_tests::devices::Slow;
use rip_tests::examples::TRIANGLE;
use std::alloc::Global;
use std::fmt::Write as _;
use std::io::Write;
use std::process::Abort;
use std::test::Fail;

#[derive(Clone, Copy)]
enum Command {
    Plan,
    Expect,
    Whatif,
    Decode,
}

/// A command, its input, and the status.
#[derive(Clone, Copy)]
struct Row {
    command: Command,
    given: &'static str,
    status: Status,
}

const ROWS: [Row; 6] = [
    Row {
        command: Command::Plan,
        given: TRIANGLE,
        status: Status::Done,
    },
    Row {
        command: Command::Plan,
        given: "version = 1\nlink = 1",
        status: Status::Refused,
    },
    Row {
        command: Command::Expect,
        given: TRIANGLE,
        status: Status::Done,
    },
    Row {
        command: Command::Whatif,
        given: TRIANGLE,
        status: Status::Done,
    },
    Row {
        command: Command::Decode,
        given: "02020000000200000a030000ffff00000000000000000001",
        status: Status::Done,
    },
    Row {
        command: Command::Decode,
        given: "020",
        status: Status::Refused,
    },
];

fn run<W: Write>(
    alloc: Global,
    command: Command,
    given: &str,
    out: IntoWrite<W>,
) -> (IntoWrite<W>, Result<Status, RunError>) {
    match command {
        Command::Plan => run_plan(alloc, given.as_bytes(), out),
        Command::Expect => run_expect(alloc, given.as_bytes(), out),
        Command::Whatif => run_whatif(alloc, given.as_bytes(), out, true),
        Command::Decode => run_decode(given, out),
    }
}

/// What a command prints to a sink that takes everything.
fn text_of(rt: &impl Abort, alloc: Global, row: &Row) -> Vec<u8> {
    let out = IntoWrite::new(Vec::new(alloc));
    let (out, outcome) = run(alloc, row.command, row.given, out);
    assert_eq!(rt; outcome, Ok(row.status));
    out.into_writer()
}

/// Expects the beginning of a text if the sink fails after `most` bytes, or all of it.
fn expect_until(rt: &impl Abort, alloc: Global, row: &Row, text: &[u8], most: usize) {
    let out = IntoWrite::new(Slow::new(alloc, most));
    let (out, outcome) = run(alloc, row.command, row.given, out);
    let is_whole = most == text.len();
    let due = if is_whole {
        Ok(row.status)
    } else {
        Err(RunError::Write)
    };
    assert!(rt; outcome == due && out.failed() != is_whole);
    let writer = out.into_writer();
    assert!(rt; Some(writer.taken()) == text.get(..most));
}

#[test]
fn sinks_that_fail(rt: HostRuntime) {
    for row in ROWS {
        let text = text_of(&rt, rt.alloc(), &row);
        assert!(rt; !text.is_empty());
        for most in 0..text.len().wrapping_add(1) {
            expect_until(&rt, rt.alloc(), &row, text.as_slice(), most);
        }
    }
}

/// The triangle with 200 own prefixes. Its routes fill more than two pages.
fn long_plan(alloc: Global) -> Result<String, Fail> {
    let mut plan = String::from_str(alloc, TRIANGLE)?;
    for k in 0..200usize {
        write!(plan, "[[router.own]]\nprefix = \"12.0.{k}.0/24\"\n")?;
    }
    Ok(plan)
}

/// The routes of a plan.
fn routes_of(rt: &impl Abort, alloc: Global, plan: &str) -> Vec<u8> {
    let (out, outcome) = run_expect(alloc, plan.as_bytes(), IntoWrite::new(Vec::new(alloc)));
    assert!(rt; outcome == Ok(Status::Done));
    out.into_writer()
}

/// Expects the beginning of the routes of a plan if the sink fails after `most` bytes.
fn expect_beginning(rt: &impl Abort, alloc: Global, plan: &str, routes: &[u8], most: usize) {
    let out = IntoWrite::new(Slow::new(alloc, most));
    let (out, outcome) = run_expect(alloc, plan.as_bytes(), out);
    assert!(rt; outcome == Err(RunError::Write));
    let writer = out.into_writer();
    assert!(rt; Some(writer.taken()) == routes.get(..most));
}

#[test]
fn a_sink_that_fails_on_a_later_page(rt: HostRuntime) -> Result<(), Fail> {
    let plan = long_plan(rt.alloc())?;
    let routes = routes_of(&rt, rt.alloc(), plan.as_str());
    assert!(rt; 8193 < routes.len());
    for most in [4000, 4095, 4096, 4097, 8191, 8192, 8193] {
        expect_beginning(&rt, rt.alloc(), plan.as_str(), routes.as_slice(), most);
    }
    Ok(())
}

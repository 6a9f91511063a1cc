//! Both tables: that they agree about the same log, and what is left where an allocation fails. `tests/growths` runs the tests of that
//! with each allocation refused in turn, and expects the lines that they print.

ghost use Rattle.rip_table.specs.State.{Fits};

use crate::examples::{BAD, PHANTOM, SETTLED, TRIANGLE};
use crate::fixtures::{fill, new_grid, plan_of};
use rip_log::{FromRead, LogReader, Source};
use rip_plan::Plan;
use rip_table::{CollectCause, CollectError, ListTable, MetricTable, Table, TableError, collect};
use std::alloc::{AllocError, Global};
use std::process::Abort;
use std::test::Fail;

/// The metric that an interface showed for the prefix with number `k`.
fn shown<T: Table>(table: &T, interface: usize, k: usize) -> Option<u32> {
    if interface < table.interface_count() && k < table.prefix_count() {
        table.metric(interface, k).map(|metric| metric.get())
    } else {
        None
    }
}

/// Whether both tables show the same at an interface.
fn agree_at<T: Table, U: Table>(one: &T, other: &U, interface: usize) -> bool {
    for k in 0..one.prefix_count() {
        if shown(one, interface, k) != shown(other, interface, k) {
            return false;
        }
    }
    interface < one.interface_count()
        && interface < other.interface_count()
        && one.heard(interface) == other.heard(interface)
}

/// Whether both tables have the same prefixes in the same order.
fn list_alike<T: Table, U: Table>(one: &T, other: &U) -> bool {
    for k in 0..one.prefix_count() {
        if k >= other.prefix_count() || one.prefix(k) != other.prefix(k) {
            return false;
        }
    }
    one.prefix_count() == other.prefix_count()
}

/// Whether both tables have the same meaning: prefixes, metrics and interfaces that were heard.
fn agree<T: Table, U: Table>(one: &T, other: &U) -> bool {
    for interface in 0..one.interface_count() {
        if !agree_at(one, other, interface) {
            return false;
        }
    }
    one.interface_count() == other.interface_count() && list_alike(one, other)
}

/// Joins a log into a table, up to its end or to what refuses it.
fn join<T: MetricTable>(
    rt: &impl Abort,
    alloc: Global,
    plan: &Plan,
    log: &[u8],
    table: &mut T,
) -> Result<(), CollectError>
    requires { Fits plan.now (T.state table.old) }
{
    match LogReader::new(alloc, FromRead::new(log)) {
        Ok(mut reader) => collect(plan, &mut reader, table),
        Err(_) => panic!(rt; "no memory"),
    }
}

/// Expects the same outcome for both tables, and the same tables after it.
fn expect_same(rt: &impl Abort, alloc: Global, plan: &Plan, log: &[u8]) {
    let (Ok(mut list), Ok(mut grid)) = (ListTable::new(alloc, plan), new_grid(alloc, plan)) else {
        panic!(rt; "no memory");
    };
    let outcome = join(rt, alloc, plan, log, &mut list);
    assert!(rt; outcome == join(rt, alloc, plan, log, &mut grid));
    assert!(rt; agree(&list, &grid));
}

/// Beginnings of logs, and a log that is refused in line 7 for a changed metric.
#[test]
fn both_tables(rt: HostRuntime) {
    let plan = plan_of(&rt, rt.alloc(), TRIANGLE);
    for (log, end) in [
        (SETTLED, 20),
        (SETTLED, 350),
        (SETTLED, 598),
        (PHANTOM, 720),
        (PHANTOM, 960),
        (BAD, 660),
    ] {
        let front = log.as_bytes().get(..end).unwrap_or(b"");
        expect_same(&rt, rt.alloc(), &plan, front);
    }
}

/// What a refused log leaves: the table of the lines before.
#[test]
fn a_changed_metric_leaves_the_lines_before(rt: HostRuntime) {
    let plan = plan_of(&rt, rt.alloc(), TRIANGLE);
    let (Ok(mut list), Ok(mut grid)) = (
        ListTable::new(rt.alloc(), &plan),
        new_grid(rt.alloc(), &plan),
    ) else {
        panic!(rt; "no memory");
    };
    match join(&rt, rt.alloc(), &plan, BAD.as_bytes(), &mut grid) {
        Err(error) => assert!(rt; error.line == 7),
        Ok(()) => panic!(rt; "no refusal"),
    }
    assert!(rt; join(&rt, rt.alloc(), &plan, SETTLED.as_bytes(), &mut list).is_ok());
    assert!(rt; agree(&list, &grid));
}

/// Lines after the settled log: a new prefix, the same prefix from another interface, a repetition of line 1, three new prefixes, and a
/// request.
const LATER: &str = "a 10.1.0.1 02020000000200000a090000ffff00000000000000000010
c 10.3.0.1 02020000000200000a090000ffff00000000000000000002
a 10.1.0.1 02020000000200000a030000ffff00000000000000000001
a 10.1.0.1 02020000000200000a640000ffff00000000000000000010000200000a650000ffff00000000000000000010000200000a660000ffff00000000000000000010
z 9.9.9.9 01020000
";

/// The line that repeats what line 1 shows.
const REPEAT: u32 = 9;

/// Digits by their value.
const DIGITS: [&str; 16] = [
    "0", "1", "2", "3", "4", "5", "6", "7", "8", "9", "a", "b", "c", "d", "e", "f",
];

/// Adds a response with 25 prefixes, from 10.FIRST.0.0/16 on.
fn push_response(log: &mut String, first: u8) -> Result<(), AllocError> {
    log.push_str("b 10.2.0.3 02020000")?;
    for x in first..first.saturating_add(25) {
        log.push_str("000200000a")?;
        log.push_str(DIGITS[usize::from(x / 16)])?;
        log.push_str(DIGITS[usize::from(x % 16)])?;
        log.push_str("0000ffff00000000000000000010")?;
    }
    log.push_str("\n")
}

/// The lines of the tests: with the last ones the tables grow more than once.
fn lines(alloc: Global) -> Result<String, AllocError> {
    let mut text = String::from_str(alloc, SETTLED)?;
    text.push_str(LATER)?;
    for first in [110, 140, 170, 200] {
        push_response(&mut text, first)?;
    }
    Ok(text)
}

/// A table that took a log.
fn table_of(
    rt: &impl Abort,
    alloc: Global,
    plan: &Plan,
    log: &[u8],
) -> Result<ListTable, TableError> {
    let mut table = ListTable::new(alloc, plan)?;
    fill(rt, alloc, plan, log, &mut table)?;
    Ok(table)
}

/// For each line of a log, a table that took the lines before it.
fn tables_before(
    rt: &impl Abort,
    alloc: Global,
    plan: &Plan,
    log: &str,
) -> Result<Vec<ListTable>, TableError> {
    let mut before = Vec::new(alloc);
    let mut front = String::new(alloc);
    for line in log.lines() {
        before.push(table_of(rt, alloc, plan, front.as_bytes())?)?;
        front.push_str(line)?;
        front.push_str("\n")?;
    }
    Ok(before)
}

/// Expects that the failed allocation was for a line with something new, that the table is as after the lines before it, and that the
/// reader goes on after it.
fn expect_memory<R: Source, T: MetricTable>(
    rt: &impl Abort,
    error: CollectError,
    reader: &mut LogReader<R>,
    table: &T,
    before: &[ListTable],
) {
    assert!(rt; error.cause == CollectCause::Table(TableError::Memory));
    assert!(rt; error.line != REPEAT);
    let Some(other) = before.get((error.line as usize).wrapping_sub(1)) else {
        panic!(rt; "no line");
    };
    assert!(rt; agree(table, other));
    match reader.next() {
        Ok(Some(record)) => assert!(rt; record.line == error.line.wrapping_add(1)),
        Ok(None) => assert!(rt; error.line as usize == before.len()),
        Err(_) => panic!(rt; "no record"),
    }
}

/// Joins a log into an empty table, and then again, which allocates nothing.
fn joins_twice<T: MetricTable>(
    rt: &impl Abort,
    alloc: Global,
    plan: &Plan,
    log: &str,
    table: &mut T,
    before: &[ListTable],
) -> Result<(), TableError>
    requires { Fits plan.now (T.state table.old) }
{
    let (Ok(mut reader), Ok(mut again)) = (
        LogReader::new(alloc, FromRead::new(log.as_bytes())),
        LogReader::new(alloc, FromRead::new(log.as_bytes())),
    ) else {
        return Err(TableError::Memory);
    };
    if let Err(error) = collect(plan, &mut reader, table) {
        expect_memory(rt, error, &mut reader, table, before);
        return Err(TableError::Memory);
    }
    assert!(rt; collect(plan, &mut again, table).is_ok());
    Ok(())
}

/// Joins the lines into an empty table. Returns whether there was memory for all of them.
fn joins<T: MetricTable>(rt: &impl Abort, alloc: Global, plan: &Plan, table: &mut T) -> bool
    requires { Fits plan.now (T.state table.old) }
{
    let Ok(log) = lines(alloc) else {
        return false;
    };
    match tables_before(rt, alloc, plan, log.as_str()) {
        Ok(before) => {
            joins_twice(rt, alloc, plan, log.as_str(), table, before.as_slice()).is_ok()
        }
        Err(_) => false,
    }
}

#[test]
fn grid_joins_the_lines_before(rt: HostRuntime) -> Result<(), Fail> {
    let Ok(plan) = Plan::read(rt.alloc(), TRIANGLE.as_bytes()) else {
        return Ok(());
    };
    let Ok(mut grid) = new_grid(rt.alloc(), &plan) else {
        return Ok(());
    };
    if joins(&rt, rt.alloc(), &plan, &mut grid) {
        println!(rt; "fifteen lines")?;
    }
    Ok(())
}

#[test]
fn list_joins_the_lines_before(rt: HostRuntime) -> Result<(), Fail> {
    let Ok(plan) = Plan::read(rt.alloc(), TRIANGLE.as_bytes()) else {
        return Ok(());
    };
    let Ok(mut list) = ListTable::new(rt.alloc(), &plan) else {
        return Ok(());
    };
    if joins(&rt, rt.alloc(), &plan, &mut list) {
        println!(rt; "fifteen lines")?;
    }
    Ok(())
}

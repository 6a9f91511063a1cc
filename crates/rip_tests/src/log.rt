//! Sources, sinks, and the reader of a log: when it reads, and where it allocates.

use crate::devices::Pieces;
use rip_log::{FromRead, LogCode, LogError, LogReader};
use std::alloc::Global;
use std::process::Abort;

mod growths;
mod pulls;
mod sinks;
mod sources;
mod texts;

fn reader_of<'a>(
    rt: &impl Abort,
    alloc: Global,
    log: Pieces<'a>,
) -> LogReader<FromRead<Pieces<'a>>> {
    match LogReader::new(alloc, FromRead::new(log)) {
        Ok(reader) => reader,
        Err(_) => panic!(rt; "no memory"),
    }
}

/// Reads `records` records, then expects the end of the log or its first fault, which stays.
fn expect_outcome(
    rt: &impl Abort,
    reader: &mut LogReader<FromRead<Pieces<'_>>>,
    records: usize,
    fault: Option<LogError>,
) {
    for _ in 0..records {
        match reader.next() {
            Ok(Some(_)) => {}
            _ => panic!(rt; "no record"),
        }
    }
    let ended = fault.map(|fault| LogError {
        code: LogCode::Ended,
        line: fault.line,
    });
    for fault in [fault, ended, ended] {
        match (reader.next(), fault) {
            (Ok(None), None) => {}
            (Err(error), Some(fault)) => assert!(rt; error == fault),
            _ => panic!(rt; "another outcome"),
        }
    }
}

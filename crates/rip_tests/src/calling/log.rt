//! The caller of `rip_log`.

use crate::examples::SETTLED;
use rip_log::{FromRead, LogCode, LogError, LogReader, Source};
use rip_wire::Address;
use std::alloc::Global;

/// Who sent the first record of a log, and in which line it stands. Without a record there is nobody.
fn first_sender<R: Source + Drop>(
    alloc: Global,
    log: R,
) -> Result<Option<(u32, Address)>, LogError> {
    let mut reader = match LogReader::new(alloc, log) {
        Ok(reader) => reader,
        Err((error, _)) => return Err(error),
    };
    match reader.next() {
        Ok(Some(record)) => Ok(Some((record.line, record.sender()))),
        Ok(None) => Ok(None),
        Err(error) => Err(error),
    }
}

#[test]
fn a_log_is_read(rt: HostRuntime) {
    let log = FromRead::new(SETTLED.as_bytes());
    let sender = Address::parse("10.1.0.1").expect(&rt, "an address");
    assert!(rt; first_sender(rt.alloc(), log) == Ok(Some((1, sender))));
    let error = LogError {
        code: LogCode::Fields,
        line: 2,
    };
    let log = FromRead::new("# nothing\na 10.1.0.1\n".as_bytes());
    assert!(rt; first_sender(rt.alloc(), log) == Err(error));
}

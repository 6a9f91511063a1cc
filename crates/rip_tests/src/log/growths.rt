//! Readers where an allocation fails: `tests/growths` runs these tests with each allocation refused in turn, and expects the lines that
//! they print.

use super::expect_outcome;
use crate::devices::Pieces;
use crate::examples::SETTLED;
use rip_log::{FromRead, LogCode, LogError, LogReader, TimedReader};
use std::test::Fail;

#[test]
fn new_hands_back(rt: HostRuntime) -> Result<(), Fail> {
    let source = FromRead::new(Pieces::new(b"", 1));
    if let Err((error, source)) = LogReader::new(rt.alloc(), source) {
        let memory = LogError {
            code: LogCode::Memory,
            line: 0,
        };
        assert!(rt; error == memory);
        assert!(rt; source.into_reader().calls() == 0);
        println!(rt; "handed back")?;
    }
    Ok(())
}

#[test]
fn timed_reader_hands_back(rt: HostRuntime) -> Result<(), Fail> {
    let source = FromRead::new(Pieces::new(b"", 1));
    if let Err((_, source)) = TimedReader::new(rt.alloc(), source) {
        assert!(rt; source.into_reader().calls() == 0);
        println!(rt; "handed back")?;
    }
    Ok(())
}

#[test]
fn next_allocates_nothing(rt: HostRuntime) -> Result<(), Fail> {
    let source = FromRead::new(Pieces::new(SETTLED.as_bytes(), 7));
    if let Ok(mut reader) = LogReader::new(rt.alloc(), source) {
        expect_outcome(&rt, &mut reader, 6, None);
        println!(rt; "six records")?;
    }
    Ok(())
}

//! The lines of a log with times, one after the other.

mod fields;
mod line;
mod reader;

pub use self::reader::{TimedFault, TimedLine, TimedReader, TimedRecord};

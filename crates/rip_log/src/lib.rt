//! Logs of captured datagrams: devices, the reading of a log's lines, and times in text.
#![tactic(auto)]

mod blocks;
mod device;
mod digits;
mod error;
mod feed;
mod fields;
mod history;
pub mod laws;
mod limits;
mod line;
mod noted_reader;
mod noted_writer;
mod progress;
mod reader;
mod sink;
mod source;
mod span;
mod text;
mod time;
mod timed;
mod window;

pub use device::Failed;
pub use digits::decode_digits;
pub use error::{LogCode, LogError};
pub use feed::Feed;
pub use fields::next_field;
pub use history::History;
pub use limits::{MOST_HELD_BYTES, MOST_LINE_BYTES, MOST_LINES, MOST_MICROS, MOST_SECONDS};
pub use reader::{BadLine, Line, LogReader, Origin, Record};
pub use sink::{IntoWrite, Sink};
pub use source::{FromRead, Source};
pub use span::Span;
pub use text::{TextLine, TextReader};
pub use time::{read_time, write_second, write_time};
pub use timed::{TimedFault, TimedLine, TimedReader, TimedRecord};

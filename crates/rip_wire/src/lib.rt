//! RIP-2 datagrams (RFC 2453, sections 3.6 and 4): addresses, prefixes, metrics, and the reading of
//! requests and responses. Nothing here allocates.
#![tactic(auto)]

mod address;
mod datagram;
mod entries;
mod entry;
mod error;
pub mod laws;
mod limits;
mod metric;
mod name;
mod prefix;
mod reading;
mod text;
mod writing;

pub use address::Address;
pub use datagram::{Datagram, Kind};
pub use entry::Entry;
pub use error::{WireCode, WireError};
pub use limits::{ENTRY_LEN, HEADER_LEN, MOST_BYTES, MOST_ENTRIES};
pub use metric::Metric;
pub use name::is_name;
pub use prefix::Prefix;
pub use reading::read;
pub use writing::write_response;

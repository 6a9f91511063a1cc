//! Captures: the packets of a capture file, and the RIP datagram that a packet carries.
#![tactic(auto)]

mod authentication;
mod blocks;
mod bodies;
mod error;
mod first;
mod frame;
mod interface;
pub mod laws;
mod limits;
mod link;
mod magic;
mod numbers;
mod options;
mod origin;
mod packet;
mod parts;
mod password;
mod pcap;
mod reader;
mod time;
mod vlans;

pub use authentication::entries_in;
pub use error::{CaptureCode, CaptureError};
pub use interface::{FileInterface, InterfaceName};
pub use limits::{GROUP, MOST_CAPTURED, MOST_NAME, MOST_PAYLOAD, PORT};
pub use link::LinkType;
pub use origin::FirstOrigin;
pub use packet::{Carried, read_frame};
pub use password::password_in;
pub use reader::{CaptureReader, Packet};
pub use rip_log::Span;
pub use time::Time;
pub use vlans::are_vlans;

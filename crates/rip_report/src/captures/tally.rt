//! What the packets of a file come to.

use crate::captures::counts::PacketCounts;

/// What the packets of a file came to so far: how many there are of each kind, how many lines the
/// log has, and the first and the last time in front of the file's lines, in micros.
#[derive(Clone, Copy)]
pub(crate) struct Tally {
    pub(crate) counts: PacketCounts,
    pub(crate) lines: u32,
    pub(crate) span: Option<(u64, u64)>,
}

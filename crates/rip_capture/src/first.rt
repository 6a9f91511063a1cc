//! The origin of the first packet that a file has.

ghost use Rattle.std.specs.Prelude.{◌≡◌, ◌≤◌, vec_len};
ghost use Rattle.rip_capture.specs.declared.limits.TheConstants.{MOST_VLANS};

use crate::interface::KeptInterface;

/// Where the first packet of a file comes from that was asked of, or nothing yet.
#[derive(Drop)]
pub struct FirstOrigin {
    pub(crate) known: bool,
    pub(crate) interface: KeptInterface,
    /// The number of the interface in its header.
    pub(crate) number: Option<u32>,
    /// Its VLANs, and room behind them.
    pub(crate) vlans: Vec<u16>,
    /// How many VLANs it has.
    pub(crate) count: usize,
    ghost room: { vec_len vlans ≡ MOST_VLANS },
    ghost few: { count ≤ MOST_VLANS },
}

//! What a log has of a captured packet.

use rip_capture::Carried;
use rip_wire::Address;

/// What a log has of a captured packet.
#[derive(Clone, Copy)]
pub(crate) enum Logged {
    /// What it carries.
    As(Carried),
    /// That a datagram of this sender comes from elsewhere than the first one of its file.
    Mixed(Address),
}

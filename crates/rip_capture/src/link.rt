//! Link types.

ghost use Rattle.std.specs.Prelude.{◌≡◌, MatchOption};
ghost use Rattle.rip_capture.specs.LinkTypes.{IsNoType, number_of};

/// How a network's packets are framed in a capture, by the numbers of tcpdump.org/linktypes.html.
#[derive(Clone, Copy, Debug, PartialEq, Eq)]
pub enum LinkType {
    /// 0: a loopback, in the byte order of the machine that captured.
    Null,
    /// 1: Ethernet.
    Ethernet,
    /// 101: IPv4 or IPv6 without a header before it.
    Raw,
    /// 108: a loopback of OpenBSD.
    Loop,
    /// 113: Linux's cooked captures.
    LinuxSll,
    /// 228: IPv4 without a header before it.
    Ipv4,
    /// 276: Linux's cooked captures, version 2.
    LinuxSll2,
}

impl LinkType {
    /// The link type of a number, if it is one that is read.
    pub fn of(number: u32) -> Option<LinkType>
        ensures { MatchOption result (IsNoType number) (λ t. number_of t ≡ number) }
    {
        match number {
            0 => Some(LinkType::Null),
            1 => Some(LinkType::Ethernet),
            101 => Some(LinkType::Raw),
            108 => Some(LinkType::Loop),
            113 => Some(LinkType::LinuxSll),
            228 => Some(LinkType::Ipv4),
            276 => Some(LinkType::LinuxSll2),
            _ => None,
        }
    }
}

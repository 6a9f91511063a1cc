//! What becomes of the authentication of datagrams in a log.

/// What becomes of the authentication of datagrams (RFC 2453, section 4.1; RFC 4822) in a log.
#[derive(Clone, Copy, Debug, PartialEq, Eq)]
pub enum Authentication {
    /// It is there as it was sent, but with zeros for a password.
    AsSent,
    /// It is taken off where it fits its datagram: the log has the datagram as it would be without.
    Removed,
}

/// What a log leaves out of a datagram.
#[derive(Clone, Copy)]
pub(crate) struct Omitted {
    /// A password, for which the log has zeros.
    pub(crate) password: bool,
    /// The authentication.
    pub(crate) authentication: bool,
}

impl Omitted {
    ghost use Rattle.std.specs.Prelude.{◌≡◌};
    ghost use Rattle.rip_report.specs.LoggedDatagrams.{nothing_omitted};

    /// Nothing is left out.
    pub(crate) fn nothing() -> Omitted
        ensures { result ≡ nothing_omitted }
    {
        Omitted {
            password: false,
            authentication: false,
        }
    }
}

//! How many packets of a file there are of each kind.

ghost use Rattle.std.specs.Prelude.{◌≡◌, []};
ghost use Rattle.rip_report.specs.CaptureText.{HasRoom, counted, counted_status, counts_of};
ghost use Rattle.rip_report.specs.declared.captures.manner.Manner.{Manner};

use crate::captures::authentication::Omitted;
use crate::captures::logged::Logged;
use crate::status::Status;
use rip_capture::Carried;

/// The packets of a file, counted by what they carry.
#[derive(Clone, Copy)]
pub(crate) struct PacketCounts {
    pub(crate) packets: u64,
    /// Datagrams to 224.0.0.9 that are there whole.
    pub(crate) datagrams: u64,
    pub(crate) cut: u64,
    pub(crate) fragments: u64,
    pub(crate) malformed: u64,
    pub(crate) long: u64,
    /// Datagrams that come from elsewhere than the first one of the file.
    pub(crate) mixed: u64,
    /// Datagrams with a password.
    pub(crate) passwords: u64,
    /// Datagrams of which the authentication was taken off.
    pub(crate) without_authentication: u64,
    /// RIP to other addresses, or from another port.
    pub(crate) elsewhere: u64,
    pub(crate) others: u64,
}

impl PacketCounts {
    /// No packets.
    pub(crate) fn new() -> PacketCounts
        ensures { (how : Manner) → result ≡ counts_of how [] }
    {
        PacketCounts {
            packets: 0,
            datagrams: 0,
            cut: 0,
            fragments: 0,
            malformed: 0,
            long: 0,
            mixed: 0,
            passwords: 0,
            without_authentication: 0,
            elsewhere: 0,
            others: 0,
        }
    }

    /// Counts a packet of which a log has this, and of whose datagram that was left out.
    pub(crate) fn add(&mut self, logged: Logged, omitted: Omitted)
        requires { HasRoom self.old }
        ensures { self.new ≡ counted self.old logged omitted }
    {
        self.packets += 1;
        match logged {
            Logged::As(Carried::Datagram(..)) => self.datagrams += 1,
            Logged::As(Carried::Cut(_) | Carried::Unknown) => self.cut += 1,
            Logged::As(Carried::Fragment(_)) => self.fragments += 1,
            Logged::As(Carried::Malformed(_)) => self.malformed += 1,
            Logged::As(Carried::Long(_)) => self.long += 1,
            Logged::Mixed(_) => self.mixed += 1,
            Logged::As(Carried::Elsewhere) => self.elsewhere += 1,
            Logged::As(Carried::Others) => self.others += 1,
        }
        if omitted.password {
            self.passwords += 1;
        }
        if omitted.authentication {
            self.without_authentication += 1;
        }
    }

    /// Done where each datagram is there whole and none is mixed in, else Unclear.
    pub(crate) fn status(self) -> Status
        ensures { result ≡ counted_status self }
    {
        if self.cut == 0
            && self.fragments == 0
            && self.malformed == 0
            && self.long == 0
            && self.mixed == 0
        {
            Status::Done
        } else {
            Status::Unclear
        }
    }
}

//! The interfaces of a capture file.

ghost use Rattle.std.specs.Prelude.{◌≡◌, [], Decides};

use crate::limits::MOST_NAME;

/// The interface of its file that a packet came by.
#[derive(Debug, Drop)]
pub enum FileInterface<'a> {
    /// The only one of a pcap file.
    Only,
    /// By the name in its description, of 1 to 64 bytes (draft-ietf-opsawg-pcapng, section 4.2,
    /// if_name).
    Named(&'a InterfaceName),
    /// By its number in its section, where its description has no such name.
    Numbered(usize),
}

/// The name of an interface, of 1 to 64 bytes, or none, which has no bytes.
#[derive(Clone, Copy, Debug)]
pub struct InterfaceName {
    /// Its bytes, and zeros behind them.
    pub(crate) bytes: [u8; MOST_NAME],
    pub(crate) len: usize,
}

impl InterfaceName {
    ghost use Rattle.rip_capture.specs.Interfaces.{name_bytes};
    ghost use Rattle.rip_capture.specs.Options.{name_of};

    /// No name.
    pub(crate) fn none() -> InterfaceName
        ensures { result ≡ name_of [] }
    {
        InterfaceName {
            bytes: [0; MOST_NAME],
            len: 0,
        }
    }

    /// The name that these bytes are, or none.
    pub(crate) fn of(value: &[u8]) -> InterfaceName
        ensures { result ≡ name_of value.now }
    {
        if value.len() > MOST_NAME {
            return InterfaceName::none();
        }
        let mut bytes = [0; MOST_NAME];
        bytes[..value.len()].copy_from_slice(value);
        InterfaceName {
            bytes,
            len: value.len(),
        }
    }

    /// Its bytes.
    pub fn as_bytes(&self) -> &[u8]
        ensures { result.now ≡ name_bytes self.now }
    {
        &self.bytes[..self.len.min(MOST_NAME)]
    }
}

impl Default for InterfaceName {
    fn default() -> InterfaceName {
        InterfaceName::none()
    }
}

/// An interface of a section.
#[derive(Clone, Copy, Default)]
pub struct Interface {
    /// The number of its link type.
    pub link_number: u32,
    /// The most bytes of a packet that it captures, or 0.
    pub most: u32,
    /// Its name.
    pub name: InterfaceName,
    /// The unit of its times.
    pub resolution: u8,
    /// The seconds that are added to its times.
    pub offset: u64,
}

impl FileInterface<'_> {
    ghost use Rattle.rip_capture.specs.Interfaces.{Named as named_so, came_of};

    /// Whether it has this name.
    pub fn has_name(&self, name: &[u8]) -> bool
        ensures { Decides result (came_of self.now ≡ named_so name.now) }
    {
        match self {
            FileInterface::Named(own) => own.as_bytes() == name,
            FileInterface::Only | FileInterface::Numbered(_) => false,
        }
    }
}

/// The interface of its file that a packet came by, kept behind the packet.
#[derive(Clone, Copy)]
pub enum KeptInterface {
    Only,
    Named(InterfaceName),
    Numbered(usize),
}

impl KeptInterface {
    ghost use Rattle.rip_capture.specs.Interfaces.{came_of, kept_of};

    /// This interface.
    pub fn of(interface: &FileInterface<'_>) -> KeptInterface
        ensures { kept_of result ≡ came_of interface.now }
    {
        match interface {
            FileInterface::Only => KeptInterface::Only,
            FileInterface::Named(name) => KeptInterface::Named(**name),
            FileInterface::Numbered(number) => KeptInterface::Numbered(*number),
        }
    }

    /// Whether it is this interface.
    pub fn is(&self, interface: &FileInterface<'_>) -> bool
        ensures { Decides result (kept_of self.now ≡ came_of interface.now) }
    {
        match self {
            KeptInterface::Only => matches!(interface, FileInterface::Only),
            KeptInterface::Named(name) => interface.has_name(name.as_bytes()),
            KeptInterface::Numbered(number) => match interface {
                FileInterface::Numbered(other) => number == other,
                FileInterface::Only | FileInterface::Named(_) => false,
            },
        }
    }
}

//! Why a plan could not be read.

ghost use Rattle.std.specs.Prelude.{◌≡◌};
ghost use Rattle.rip_plan.specs.Codes.{number_of_code};
ghost use Rattle.rip_plan.specs.declared.error.ReadError.TheVariants.{OutOfMemory};

use std::alloc::{AllocError, AllocFailed};

/// What is wrong with a plan, in the numbering that is printed.
#[derive(Clone, Copy, Debug, PartialEq, Eq)]
pub enum PlanCode {
    /// The bytes are not UTF-8, or no TOML document; told at the text.
    Syntax = 1,
    /// The version is missing, no integer, or not 1; told at the version.
    Version,
    /// A key is missing, unknown or of the wrong kind, or `link` or `router` is empty; told at the
    /// table, or at the item of a list.
    Key,
    /// The name of a link or a router does not have the form of one.
    Name,
    /// An earlier link, or an earlier router, has the name.
    DuplicateName,
    /// The text is no address: of an interface, its own or a further one, or the gateway of an own
    /// prefix.
    Address,
    /// The text is no prefix, or a host bit is set.
    Prefix,
    /// The cost is below 1 or above 15, or the direct metric is below 1 or above the cost.
    Cost,
    /// An earlier place of the prefix is on the same link, or touches a router that this one
    /// touches.
    DuplicatePrefix,
    /// No link has the name that an interface or an own prefix gives, or the own prefix's router
    /// has no interface on the link.
    UnknownLink,
    /// An earlier interface of the router is on the link.
    TwiceOnLink,
    /// An earlier interface on the link has one of the addresses, or the interface has one twice; or
    /// the gateway of an own prefix is an address of another router's interface on a link on which
    /// the owner has one.
    DuplicateAddress,
    /// The link has prefixes, and none contains the address.
    OutsidePrefix,
    /// The router has no interface.
    NoInterface,
    /// A limit is passed: of bytes, links, routers, interfaces, further addresses or places.
    Limit,
    /// A growth was refused; told at the text.
    Memory,
}

impl PlanCode {
    /// The number that is printed.
    pub fn number(self) -> u8
        ensures { result ≡ number_of_code self }
    {
        self as u8
    }
}

/// Where something stands in the text of a plan. The numbers start at 1.
#[derive(Clone, Copy, Debug, PartialEq, Eq)]
pub enum At {
    /// The text as a whole, and the root of the document.
    Text,
    /// The key `version`, also where it is missing.
    Version,
    /// A link, by its number.
    Link(usize),
    /// A prefix of a link: the number of the link, and the prefix's there.
    LinkPrefix(usize, usize),
    /// A prefix in the list of a link, to which the link keeps: the number of the link, and the
    /// prefix's in the list.
    LinkOnly(usize, usize),
    /// A router, by its number.
    Router(usize),
    /// An interface of a router: the number of the router, and the interface's there.
    RouterInterface(usize, usize),
    /// A router's own prefix: the number of the router, and the prefix's there.
    RouterOwn(usize, usize),
}

/// The first fault of a plan's text, and where it stands.
#[derive(Clone, Copy, Debug, PartialEq, Eq)]
pub struct PlanError {
    /// What is wrong.
    pub code: PlanCode,
    /// Where it stands.
    pub place: At,
}

/// A fault of the text, or a growth that was refused.
#[derive(Debug, Drop)]
pub(crate) enum ReadError {
    /// A growth was refused.
    OutOfMemory,
    /// The first fault.
    Fault(PlanError),
}

/// A fault, and where it stands.
pub(crate) fn fault(code: PlanCode, at: At) -> ReadError
    ensures { result ≡ ReadError.Fault (record { code = code; place = at }) }
{
    ReadError::Fault(PlanError { code, place: at })
}

impl From<AllocError> for ReadError {
    ghost from_gives = { λ _ e. e ≡ OutOfMemory };

    fn from(_error: AllocError) -> ReadError {
        ReadError::OutOfMemory
    }
}

impl<T: Drop> From<AllocFailed<T>> for ReadError {
    ghost from_gives = { λ _ e. e ≡ OutOfMemory };

    fn from(_error: AllocFailed<T>) -> ReadError {
        ReadError::OutOfMemory
    }
}

//! IPv4 addresses.

ghost use Rattle.std.specs.Prelude.{◌≡◌, ◌<◌, ◌≤◌, ◌^◌, ◌↔◌, ℕ, Some, IsSome, IsAscii, length};
ghost use Rattle.rip_wire.specs.Address.{address_in, address_text};

use crate::text::{put_address, read_address};
use std::fmt;
use std::marker::Model;

/// An IPv4 address. Addresses are compared by their number.
#[derive(Clone, Copy, Debug, PartialEq, Eq, PartialOrd, Ord, Hash)]
pub struct Address {
    number: u32,
}

impl Model for Address {
    ghost use Rattle.std.specs.Prelude.{ℕ};

    ghost Value = { ℕ };

    ghost view = { λ a. a.number };

    ghost inverse = { λ n. record { number = n } };
}

impl Address {
    /// 0.0.0.0, which as a next hop stands for the sender (RFC 2453, section 4.4).
    pub(crate) const UNSPECIFIED: Address = Address { number: 0 };

    /// The address with this number, whose highest byte is the first of the four.
    pub const fn new(number: u32) -> Address
        ensures { result ≡ number }
    {
        Address { number }
    }

    /// The number of the address.
    pub const fn get(self) -> u32
        ensures { result ≡ self }
    {
        self.number
    }

    /// The address that has this text, as `10.3.0.1`: just as it is printed, so there are no zeros
    /// in front of a number, no blanks and no signs.
    pub fn parse(text: &str) -> Option<Address>
        ensures exact { (a : ℕ) → a < 2 ^ 32 → (result ≡ Some a) ↔ (text.now ≡ address_text a) }
        ensures value { result ≡ address_in text.now }
        ensures ascii { IsSome result → IsAscii text.now }
    {
        Address::parse_bytes(text.as_bytes())
    }

    /// The address whose text has these bytes.
    pub fn parse_bytes(text: &[u8]) -> Option<Address>
        ensures exact { (a : ℕ) → a < 2 ^ 32 → (result ≡ Some a) ↔ (text.now ≡ address_text a) }
        ensures value { result ≡ address_in text.now }
        ensures ascii { IsSome result → IsAscii text.now }
    {
        match read_address(text) {
            Some(number) => Some(Address::new(number)),
            None => None,
        }
    }

    /// Writes the text of the address, as `10.3.0.1`, at the front of the room, and answers it.
    pub fn encode(self, room: &mut [u8; 15]) -> &str
        ensures text { result.now ≡ address_text self }
        ensures short { length result.now ≤ 15 }
    {
        let end = put_address(room, self.number);
        str::from_utf8(&room[..end]).unwrap()
    }
}

impl fmt::Display for Address {
    ghost output = { λ a. Some (address_text a) };

    fn fmt<W: fmt::Write>(&self, f: &mut fmt::Formatter<W>) -> fmt::Result {
        f.write_str(self.encode(&mut [0; 15]))
    }
}

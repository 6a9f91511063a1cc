//! Prefixes.

ghost use Rattle.std.specs.Prelude.{◌≡◌, ◌≤◌, ◌↔◌, IsTrue, Some, SomeIff, IfSome, IsSome, IsAscii, length};
ghost use Rattle.rip_wire.specs.Prefix.{Block, ContainsAddress, IsBlock, block, mask_of, prefix_in, prefix_text};

use crate::Address;
use crate::text::{put_address, put_length, read_address};
use std::cmp::Ordering;
use std::fmt;
use std::hash::{Hash, Hasher};
use std::marker::Model;

/// A network and the number of its fixed bits, as `10.3.0.0/16`. Prefixes are compared by the
/// network, and then by the length.
#[derive(Clone, Copy, Debug, PartialEq, Eq)]
pub struct Prefix {
    network: Address,
    prefix_len: u8,
}

impl Model for Prefix {
    ghost use Rattle.rip_wire.specs.Prefix.{Block, IsBlock, block};

    ghost Value = { Block };

    ghost view = { λ p. block p.network p.prefix_len };

    ghost invariant = { λ p. IsBlock (block p.network p.prefix_len) };

    ghost inverse = { λ b. record { network = b.network; prefix_len = b.prefix_len } };
}

/// The mask of a length of at most 32 bits: so many ones from the top, and zeros after them.
pub(crate) fn mask_of_length(prefix_len: u8) -> u32
    requires { prefix_len ≤ 32 }
    ensures { result ≡ mask_of prefix_len }
{
    ((1u64 << 32) - (1u64 << (32 - prefix_len))) as u32
}

/// The prefix of an address and a length with a slash between them. Some texts that no prefix has
/// are read too.
fn read_prefix(text: &str) -> Option<Prefix>
    ensures prefix { (p : Block) → IsBlock p → text.now ≡ prefix_text p → result ≡ Some p }
    ensures fits { IfSome result IsBlock }
{
    let (network, length) = text.split_once('/')?;
    Prefix::new(
        Address::new(read_address(network.as_bytes())?),
        length.parse().ok()?,
    )
}

impl Prefix {
    /// All addresses, 0.0.0.0/0: the prefix of the default route.
    pub(crate) const ALL: Prefix = Prefix {
        network: Address::UNSPECIFIED,
        prefix_len: 0,
    };

    /// The prefix of a network and a length, unless the length is above 32 or a bit past it is set.
    pub fn new(network: Address, length: u8) -> Option<Prefix>
        ensures { SomeIff result (IsBlock (block network length)) (block network length) }
    {
        if length > 32 {
            return None;
        }
        if u64::from(network.get()) % (1u64 << (32 - length)) != 0 {
            return None;
        }
        Some(Prefix {
            network,
            prefix_len: length,
        })
    }

    /// The prefix of a network and a length of which it is known that they are one.
    pub(crate) fn of_parts(network: Address, length: u8) -> Prefix
        requires { IsBlock (block network length) }
        ensures { result ≡ block network length }
    {
        Prefix {
            network,
            prefix_len: length,
        }
    }

    /// The prefix that has this text, as `10.3.0.0/16`: just as it is printed, so there are no
    /// zeros in front of a number, no blanks and no signs, and no bit past the length is set.
    pub fn parse(text: &str) -> Option<Prefix>
        ensures exact { (p : Block) → IsBlock p → (result ≡ Some p) ↔ (text.now ≡ prefix_text p) }
        ensures value { result ≡ prefix_in text.now }
        ensures ascii { IsSome result → IsAscii text.now }
    {
        let prefix = read_prefix(text)?;
        if prefix.encode(&mut [0; 18]) == text {
            Some(prefix)
        } else {
            None
        }
    }

    /// The first address of the prefix.
    pub fn network(self) -> Address
        ensures { result ≡ self.network }
    {
        self.network
    }

    /// How many bits are fixed, 0 to 32.
    pub fn length(self) -> u8
        ensures value { result ≡ self.prefix_len }
        ensures block { IsBlock self }
    {
        self.prefix_len
    }

    /// The subnet mask: as many ones from the top as bits are fixed, and zeros after them.
    pub fn mask(self) -> u32
        ensures { result ≡ mask_of self.prefix_len }
    {
        mask_of_length(self.prefix_len)
    }

    /// Whether the address begins with the bits that are fixed.
    pub fn contains(self, address: Address) -> bool
        ensures { IsTrue result ↔ (ContainsAddress self address) }
    {
        address.get() & self.mask() == self.network.get()
    }

    /// Writes the text of the prefix, as `10.3.0.0/16`, at the front of the room, and answers it.
    pub fn encode(self, room: &mut [u8; 18]) -> &str
        ensures text { result.now ≡ prefix_text self }
        ensures short { length result.now ≤ 18 }
    {
        let end = put_address(room, self.network.get());
        let end = put_length(room, end, self.prefix_len);
        str::from_utf8(&room[..end]).unwrap()
    }
}

impl Ord for Prefix {
    ghost use Rattle.std.proofs.Common.{rules};
    ghost use Rattle.std.specs.Cmp.Rules.{comparing};
    ghost use Rattle.std.specs.Ordering.{nat_cmp, on, then_cmp};

    ghost cmp = { then_cmp (on (λ p. p.network) nat_cmp) (on (λ p. p.prefix_len) nat_cmp) };

    ghost total = { Prim.search (comparing, rules) };

    ghost matches_partial_cmp = { Prim.search (comparing, rules) };

    ghost matches_eq = { Prim.search (comparing, rules) };

    fn cmp(&self, other: &Prefix) -> Ordering {
        let networks = self.network.cmp(&other.network);
        networks.then(self.prefix_len.cmp(&other.prefix_len))
    }
}

impl PartialOrd for Prefix {
    ghost use Rattle.std.proofs.Common.{rules};
    ghost use Rattle.std.specs.Cmp.{partial_order_from_own_ties};
    ghost use Rattle.std.specs.Cmp.Rules.{comparing};
    ghost use Rattle.std.specs.Ordering.{as_partial_cmp, nat_cmp, on, then_cmp};

    ghost partial_cmp = { as_partial_cmp
        (then_cmp (on (λ p. p.network) nat_cmp) (on (λ p. p.prefix_len) nat_cmp)) };

    ghost laws = { partial_order_from_own_ties
        (Prim.search (comparing, rules)) (Prim.search (comparing, rules)) };

    fn partial_cmp(&self, other: &Prefix) -> Option<Ordering> {
        Some(self.cmp(other))
    }
}

impl Hash for Prefix {
    ghost use Rattle.std.proofs.Common.{rules};
    ghost use Rattle.std.specs.Cmp.Rules.{hashing};
    ghost use Rattle.std.specs.Hash as fed;
    ghost use Rattle.std.specs.Prelude.{◌+◌, ◌*◌};

    ghost hash_input = { λ p. fed.u64 (p.network * 256 + p.prefix_len) };

    ghost respects_eq = { Prim.search (hashing, rules) };

    /// One word, so that a hasher has one write.
    fn hash<H: Hasher>(&self, state: &mut H) {
        let word = u64::from(self.network.get()) * 256 + u64::from(self.prefix_len);
        word.hash(state);
    }
}

impl fmt::Display for Prefix {
    ghost output = { λ p. Some (prefix_text p) };

    fn fmt<W: fmt::Write>(&self, f: &mut fmt::Formatter<W>) -> fmt::Result {
        f.write_str(self.encode(&mut [0; 18]))
    }
}

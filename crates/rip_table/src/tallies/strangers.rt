//! What strangers sent, counted.

ghost use Rattle.std.specs.Prelude.{◌≡◌, ◌<◌, ◌≤◌, ◌++◌, ◌∷◌, [], ℕ, List, Option, Some, None, IfNone, IfSome, OnOk, OnErr, false, length, slice_get};
ghost use Rattle.indexmap.specs.IndexMap.{index_map_len};
ghost use Rattle.rip_log.specs.Said.{Origin};
ghost use Rattle.rip_log.specs.declared.limits.TheConstants.{MOST_LINES};
ghost use Rattle.rip_table.specs.Events.{EventAt};
ghost use Rattle.rip_table.specs.declared.tallies.strangers.StrangerTally.{StrangerTally};
ghost use Rattle.rip_table.specs.Tallies.{AreStrangers, is_origin_of, new_row, origin_of, rows_of_strangers, stranger_event, stranger_line, strangers_of, with_row_line, with_stranger_event};

use super::lines::Lines;
use indexmap::{Equivalent, IndexMap};
use rip_log::LogCode;
use rip_wire::Address;
use std::alloc::{AllocError, Global};
use std::hash::BuildHasher;

/// How many strangers are told at most.
pub const MOST_STRANGERS: usize = 256;

/// The name of a link, and an address that spoke there and that no interface has.
#[derive(Debug, Drop, PartialEq, Eq, Hash)]
pub struct Stranger {
    /// The link's name, as it stands in the log.
    pub link: String,
    /// The address, which no interface of the plan has on that link.
    pub address: Address,
}

/// A stranger, whose link's name is borrowed.
#[derive(Clone, Copy, Debug, PartialEq, Eq, Hash)]
struct StrangerRef<'a> {
    link: &'a str,
    address: Address,
}

impl Equivalent<Stranger> for &StrangerRef<'_> {
    ghost use Rattle.std.proofs.lemmas.Bool.Decides.{Decides-and, Decides-eqb};
    ghost use Rattle.std.proofs.lemmas.Slice.Eq.{bytes_eq-Decides};
    ghost use Rattle.std.specs.Prelude.{refl, ◌&&◌, ◌==◌, bytes_eq, string_bytes};

    ghost equivalent = { λ q k. bytes_eq q.now.link.now (string_bytes k.link) && (q.now.address == k.address) };

    ghost respects_hash = { λ q k h. let parts = (Decides-and (bytes_eq q.now.link.now (string_bytes k.link)) (q.now.address == k.address) (bytes_eq-Decides q.now.link.now (string_bytes k.link)) (Decides-eqb q.now.address k.address)).0 h in rw (parts.0, parts.1) refl };

    ghost respects_eq = { λ q x y h. let parts = (Decides-and (bytes_eq q.now.link.now (string_bytes x.link)) (q.now.address == x.address) (bytes_eq-Decides q.now.link.now (string_bytes x.link)) (Decides-eqb q.now.address x.address)).0 h in rw (parts.0, parts.1) refl };

    fn equivalent(&self, key: &Stranger) -> bool {
        self.link == key.link.as_str() && self.address == key.address
    }
}

/// What a stranger sent.
#[derive(Clone, Copy, Debug, PartialEq, Eq)]
pub struct StrangerTally {
    /// Its responses.
    pub responses: Lines,
    /// Its lines that are bad by their datagram.
    pub bad: Lines,
    /// Why the first of these is bad.
    pub first_bad: Option<LogCode>,
}

impl StrangerTally {
    /// Of a stranger that sent nothing.
    const NONE: StrangerTally = StrangerTally {
        responses: Lines::NONE,
        bad: Lines::NONE,
        first_bad: None,
    };

    /// One line more, after others: a response, or a line that is bad by this code.
    fn add(&mut self, line: u32, bad: Option<LogCode>)
        requires responses { self.old.responses.count ≤ MOST_LINES }
        requires bad { self.old.bad.count ≤ MOST_LINES }
        ensures { (o : Origin) → self.new ≡ with_stranger_event o self.old
            (record { line = line; event = stranger_event o bad }) }
    {
        match bad {
            None => self.responses.add(line),
            Some(code) => {
                if self.first_bad.is_none() {
                    self.first_bad = Some(code);
                }
                self.bad.add(line);
            }
        }
    }
}

/// Strangers, each with what it sent, in the order in which they came, and the lines of those that
/// are not told.
#[derive(Drop)]
pub struct Strangers<S: BuildHasher> {
    alloc: Global,
    told: IndexMap<Stranger, StrangerTally, S>,
    others: Lines,
}

impl<S: BuildHasher + Drop> Strangers<S> {
    /// Before any line.
    pub(crate) fn with_hasher(alloc: Global, hasher: S) -> Strangers<S>
        ensures { AreStrangers (rows_of_strangers result.told.entries) result.others [] }
    {
        Strangers {
            alloc,
            told: IndexMap::with_hasher(alloc, hasher),
            others: Lines::NONE,
        }
    }

    /// The number of a stranger that is told.
    fn find(&self, link: &str, address: Address) -> Option<usize>
        ensures within { IfSome result (λ k. k < index_map_len self.now.told) }
        ensures some { IfSome result (λ k.
            slice_get (strangers_of (rows_of_strangers self.now.told.entries)) k
            ≡ Some (origin_of link.now address)) }
        ensures none { IfNone result (is_origin_of
            (strangers_of (rows_of_strangers self.now.told.entries)) (origin_of link.now address)
            ≡ false) }
    {
        let stranger = StrangerRef { link, address };
        self.told.get_index_of(&stranger)
    }

    /// One line more of a stranger that is told.
    fn add_to(&mut self, k: usize, line: u32, bad: Option<LogCode>)
        requires within { k < index_map_len self.old.told }
        requires few { (o : Origin) (t : StrangerTally) →
            slice_get (rows_of_strangers self.old.told.entries) k ≡ Some (o, t) →
            (t.responses.count ≤ MOST_LINES) × (t.bad.count ≤ MOST_LINES) }
        ensures rows { rows_of_strangers self.new.told.entries
            ≡ with_row_line (rows_of_strangers self.old.told.entries) k line bad }
        ensures others { self.new.others ≡ self.old.others }
    {
        self.told[k].add(line, bad);
    }

    /// A stranger that is new, with one line.
    fn add_new(
        &mut self,
        link: &str,
        address: Address,
        line: u32,
        bad: Option<LogCode>,
    ) -> Result<(), AllocError>
        requires { is_origin_of (strangers_of (rows_of_strangers self.old.told.entries))
            (origin_of link.now address) ≡ false }
        ensures ok { OnOk result (rows_of_strangers self.new.told.entries
            ≡ rows_of_strangers self.old.told.entries
            ++ new_row (origin_of link.now address) line bad ∷ []) }
        ensures err { OnErr result (rows_of_strangers self.new.told.entries
            ≡ rows_of_strangers self.old.told.entries) }
        ensures others { self.new.others ≡ self.old.others }
    {
        let mut tally = StrangerTally::NONE;
        tally.add(line, bad);
        let key = Stranger {
            link: String::from_str(self.alloc, link)?,
            address,
        };
        self.told.insert(key, tally)?;
        Ok(())
    }

    /// One line more of a stranger, after others: a response, or a line that is bad by this code.
    /// Where memory fails it is not added.
    pub(crate) fn add(
        &mut self,
        link: &str,
        address: Address,
        line: u32,
        bad: Option<LogCode>,
    ) -> Result<(), AllocError>
        requires few { (k : ℕ) (o : Origin) (t : StrangerTally) →
            slice_get (rows_of_strangers self.old.told.entries) k ≡ Some (o, t) →
            (t.responses.count ≤ MOST_LINES) × (t.bad.count ≤ MOST_LINES) }
        requires others { self.old.others.count ≤ MOST_LINES }
        ensures ok { OnOk result ((events : List EventAt) →
            AreStrangers (rows_of_strangers self.old.told.entries) self.old.others events →
            AreStrangers (rows_of_strangers self.new.told.entries) self.new.others
            (events ++ stranger_line (origin_of link.now address) line bad ∷ [])) }
        ensures err { OnErr result ((rows_of_strangers self.new.told.entries
            ≡ rows_of_strangers self.old.told.entries) × (self.new.others ≡ self.old.others)) }
    {
        if let Some(k) = self.find(link, address) {
            self.add_to(k, line, bad);
            return Ok(());
        }
        if self.told.len() < MOST_STRANGERS {
            return self.add_new(link, address, line, bad);
        }
        self.others.add(line);
        Ok(())
    }

    /// The lines of the strangers that are not told.
    pub(crate) fn others(&self) -> Lines
        ensures { result ≡ self.now.others }
    {
        self.others
    }

    /// How many strangers are told.
    pub(crate) fn count(&self) -> usize
        ensures { result ≡ length (rows_of_strangers self.now.told.entries) }
    {
        self.told.len()
    }

    /// The name of the link of a stranger that is told.
    pub(crate) fn link(&self, k: usize) -> &str
        requires { k < length (rows_of_strangers self.now.told.entries) }
        ensures { (o : Origin) (t : StrangerTally) →
            slice_get (rows_of_strangers self.now.told.entries) k ≡ Some (o, t) →
            result.now ≡ o.link }
    {
        self.told.get_index(k).unwrap().0.link.as_str()
    }

    /// The address of a stranger that is told.
    pub(crate) fn address(&self, k: usize) -> Address
        requires { k < length (rows_of_strangers self.now.told.entries) }
        ensures { (o : Origin) (t : StrangerTally) →
            slice_get (rows_of_strangers self.now.told.entries) k ≡ Some (o, t) →
            result ≡ o.sender }
    {
        self.told.get_index(k).unwrap().0.address
    }

    /// What a stranger that is told sent.
    pub(crate) fn tally(&self, k: usize) -> StrangerTally
        requires { k < length (rows_of_strangers self.now.told.entries) }
        ensures { (o : Origin) (t : StrangerTally) →
            slice_get (rows_of_strangers self.now.told.entries) k ≡ Some (o, t) → result ≡ t }
    {
        self.told[k]
    }
}

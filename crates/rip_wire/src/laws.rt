//! Laws of the definitions alone: functions that do nothing, whose contracts hold of all bytes, all
//! lists of entries and all texts.

ghost use Rattle.std.specs.Prelude.{◌≡◌, ◌≤◌, ◌<◌, ◌^◌, ◌↔◌, ℕ, List, [], ◌∷◌, Some, Ok, Err, true, length, slice_get, IsAscii};
ghost use Rattle.std.specs.List.{AllByRecursion};
ghost use Rattle.rip_wire.specs.declared.entry.Entry.{Entry};
ghost use Rattle.rip_wire.specs.declared.error.WireCode.{WireCode};
ghost use Rattle.rip_wire.specs.Address.{address_in, address_text};
ghost use Rattle.rip_wire.specs.Faults.{WireFault};
ghost use Rattle.rip_wire.specs.Grammar.{EntryBytes, IsEntry, ResponseBytes};
ghost use Rattle.rip_wire.specs.Message.{message_in, response};
ghost use Rattle.rip_wire.specs.Name.{IsName};
ghost use Rattle.rip_wire.specs.Name as name;
ghost use Rattle.rip_wire.specs.Response.{IsResponseOf};
ghost use Rattle.rip_wire.specs.Prefix.{Block, IsBlock, prefix_in, prefix_text};

use crate::limits::{ENTRY_LEN, HEADER_LEN, MOST_BYTES, MOST_ENTRIES};

/// The sizes of a datagram (RFC 2453, section 3.6).
pub fn limits()
    ensures header { HEADER_LEN ≡ 4 }
    ensures entry { ENTRY_LEN ≡ 20 }
    ensures entries { MOST_ENTRIES ≡ 25 }
    ensures bytes { MOST_BYTES ≡ 504 }
{}

/// The bytes of an entry are those of a response of this entry alone, after its header.
pub fn entry_spellings()
    ensures { (entry : Entry) (b : List ℕ) →
        EntryBytes entry b ↔ ResponseBytes (entry ∷ []) (2 ∷ 2 ∷ 0 ∷ 0 ∷ b) }
{}

/// Each list of 1 to 25 entries has one spelling.
pub fn one_spelling()
    ensures exists { (entries : List Entry) → 1 ≤ length entries →
        length entries ≤ MOST_ENTRIES → AllByRecursion IsEntry entries →
        (b : List ℕ) × ResponseBytes entries b }
    ensures one { (entries : List Entry) (b c : List ℕ) →
        ResponseBytes entries b → ResponseBytes entries c → b ≡ c }
{}

/// Two lists of entries with one spelling are equal.
pub fn one_reading()
    ensures { (entries others : List Entry) (b : List ℕ) →
        ResponseBytes entries b → ResponseBytes others b → entries ≡ others }
{}

/// Reading what was written gives the entries again.
pub fn reads_back()
    ensures { (entries : List Entry) (b : List ℕ) →
        ResponseBytes entries b → message_in b ≡ Ok (response entries) }
{}

/// Bytes are refused exactly by the first of their faults.
pub fn first_faults()
    ensures { (b : List ℕ) (code : WireCode) (at : ℕ) →
        (message_in b ≡ Err (record { code = code; at = at })) ↔ WireFault b code at }
{}

/// A response is read exactly of bytes in which its fields stand: its header, and the numbers of
/// each entry at their places. On bytes this is their spelling.
pub fn response_fields()
    ensures exact { (entries : List Entry) (b : List ℕ) →
        (message_in b ≡ Ok (response entries)) ↔ IsResponseOf entries b }
    ensures spelled { (entries : List Entry) (b : List ℕ) →
        ResponseBytes entries b → IsResponseOf entries b }
{}

/// The metrics that are read are 1 to 16 (RFC 2453, section 4).
pub fn metric_bounds()
    ensures { (b : List ℕ) (entries : List Entry) → message_in b ≡ Ok (response entries) →
        (i : ℕ) (e : Entry) → slice_get entries i ≡ Some e → (1 ≤ e.metric) × (e.metric ≤ 16) }
{}

/// The address of a text is the one that is printed so, and its text is ASCII.
pub fn address_texts()
    ensures exact { (text : List ℕ) (a : ℕ) →
        (address_in text ≡ Some a) ↔ ((a < 2 ^ 32) × (text ≡ address_text a)) }
    ensures ascii { (text : List ℕ) (a : ℕ) → address_in text ≡ Some a → IsAscii text }
{}

/// The prefix of a text is the one that is printed so, and its text is ASCII.
pub fn prefix_texts()
    ensures exact { (text : List ℕ) (p : Block) →
        (prefix_in text ≡ Some p) ↔ (IsBlock p × (text ≡ prefix_text p)) }
    ensures ascii { (text : List ℕ) (p : Block) → prefix_in text ≡ Some p → IsAscii text }
{}

/// The test of a name is true exactly of a name, and a name is ASCII.
pub fn names()
    ensures exact { (text : List ℕ) → (name.is_name text ≡ true) ↔ IsName text }
    ensures ascii { (text : List ℕ) → IsName text → IsAscii text }
{}

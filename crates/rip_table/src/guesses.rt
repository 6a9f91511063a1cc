//! Guesses at numbers: in the slot of a key is the number that was found last for a key of that
//! slot. The keys of a log are few and come again and again, so it is likely the number of the key,
//! and whoever uses it has to test it. The slots are an array where nothing may be allocated, and a
//! `Vec` in what is moved.

ghost use Rattle.std.specs.Prelude.{◌≡◌, ◌≢◌, ◌<◌, ◌^◌, ℕ, length};
ghost use Rattle.rip_table.specs.Guesses.{kept_number, slot};

/// How many slots there are, 2^12: more than a plan has interfaces or a table prefixes.
pub(crate) const SLOTS: usize = 4_096;

/// 2^32 over the golden ratio. Multiplied by it, keys at equal distances, as networks and addresses
/// are, spread over all slots (Fibonacci hashing).
const MULTIPLIER: u32 = 2_654_435_769;

/// The slot of a key: the top 12 bits of a product.
fn slot_of(key: u32) -> usize
    ensures slot { result ≡ slot key }
    ensures below { result < SLOTS }
{
    (key.wrapping_mul(MULTIPLIER) >> 20) as usize
}

/// The number that was found last for a key of the same slot, or 0.
pub(crate) fn guess(slots: &[u16], key: u32) -> usize
    requires { length slots.now ≡ SLOTS }
    ensures { result ≡ kept_number slots.now key }
{
    usize::from(slots[slot_of(key)])
}

/// Remembers the number that was found for a key.
pub(crate) fn remember(slots: &mut [u16], key: u32, number: usize)
    requires slots { length slots.old ≡ SLOTS }
    requires few { number < 2 ^ 16 }
    ensures size { length slots.new ≡ length slots.old }
    ensures found { kept_number slots.new key ≡ number }
    ensures others { (other : ℕ) → slot other ≢ slot key →
        kept_number slots.new other ≡ kept_number slots.old other }
{
    slots[slot_of(key)] = number as u16;
}

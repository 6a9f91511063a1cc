//! The numbers of the prefixes of a response.

ghost use Rattle.std.specs.Prelude.{◌≡◌, ◌≤◌, IfSome, length};
ghost use Rattle.indexmap.specs.IndexMap.{index_map_len};
ghost use Rattle.rip_plan.specs.Network.{number_of_prefix};
ghost use Rattle.rip_table.specs.Guesses.{kept_number, key};
ghost use Rattle.rip_table.specs.Numbers.{AreNumbers};
ghost use Rattle.rip_table.specs.Rows.{AreDifferent, heads, rows_of};

use super::cell::GridCell;
use super::rows::Rows;
use crate::guesses::{SLOTS, guess, remember};
use crate::judging::Numbers;
use crate::limits::MOST_PREFIXES;
use rip_wire::{Entry, MOST_ENTRIES, Prefix};
use std::hash::BuildHasher;

/// The key of a prefix among the guesses.
fn key_of(prefix: Prefix) -> u32
    ensures { result ≡ key prefix }
{
    prefix
        .network()
        .get()
        .wrapping_add(u32::from(prefix.length()))
}

/// The number of a prefix, if it has a row: the guess, where it is right, and else the one that
/// hashing finds.
fn number_of<C: GridCell, S: BuildHasher>(
    rows: &Rows<C, S>,
    guesses: &mut [u16],
    prefix: Prefix,
) -> Option<usize>
    requires differ { AreDifferent (heads (rows_of rows.now.entries)) }
    requires few { index_map_len rows.now ≤ MOST_PREFIXES }
    requires slots { length guesses.old ≡ SLOTS }
    ensures number { result ≡ number_of_prefix prefix (heads (rows_of rows.now.entries)) }
    ensures kept { IfSome result (λ k. kept_number guesses.new (key prefix) ≡ k) }
    ensures slots { length guesses.new ≡ length guesses.old }
{
    let key = key_of(prefix);
    let likely = guess(guesses, key);
    if let Some((there, _)) = rows.get_index(likely) {
        if *there == prefix {
            return Some(likely);
        }
    }
    let number = rows.get_index_of(&prefix);
    if let Some(k) = number {
        remember(guesses, key, k);
    }
    number
}

/// Finds the numbers of the prefixes of the entries of a response.
pub(crate) fn find_numbers<C: GridCell, S: BuildHasher>(
    rows: &Rows<C, S>,
    guesses: &mut [u16],
    entries: &[Entry],
    numbers: &mut Numbers,
)
    requires few { length entries.now ≤ MOST_ENTRIES }
    requires differ { AreDifferent (heads (rows_of rows.now.entries)) }
    requires rows { index_map_len rows.now ≤ MOST_PREFIXES }
    requires slots { length guesses.old ≡ SLOTS }
    ensures numbers { AreNumbers (heads (rows_of rows.now.entries)) entries.now numbers.new }
    ensures slots { length guesses.new ≡ length guesses.old }
{
    for j in 0..entries.len() {
        let entry = entries[j];
        numbers[j] = number_of(rows, guesses, entry.prefix);
    }
}

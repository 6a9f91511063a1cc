//! The entries of a response, each decoded once.

ghost use Rattle.std.specs.Prelude.{◌≡◌, ◌+◌, ◌*◌, ◌≤◌, Ok, is_ok, length, take, true};
ghost use Rattle.rip_wire.specs.Message.{entries_at};

use crate::Entry;
use crate::limits::{ENTRY_LEN, HEADER_LEN, MOST_BYTES, MOST_ENTRIES};
use crate::reading::good_entry;

/// Writes the entries of bytes in which they have no fault to the front of the room.
pub(crate) fn read_entries(bytes: &[u8], count: usize, room: &mut [Entry; MOST_ENTRIES])
    requires few { count ≤ MOST_ENTRIES }
    requires room { HEADER_LEN + ENTRY_LEN * count ≤ length bytes.now }
    requires short { length bytes.now ≤ MOST_BYTES }
    requires good { is_ok (entries_at count HEADER_LEN bytes.now) ≡ true }
    ensures { entries_at count HEADER_LEN bytes.now ≡ Ok (take count room.new) }
{
    for i in 0..count {
        room[i] = good_entry(bytes, HEADER_LEN + ENTRY_LEN * i);
    }
}

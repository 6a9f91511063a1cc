//! Hex digits to bytes, 32 digits at a time.

ghost use Rattle.std.specs.Prelude.{◌≡◌, ℕ, ◌+◌, ◌*◌, ◌/◌, ◌%◌, ◌<◌, ◌≤◌, length, take, slice_index, IsTrue, IfSome, None, Ok, Some};
ghost use Rattle.hex.specs.Hex.{decode_of, hex_digit_value};
ghost use Rattle.rip_log.specs.Pairs.{AreBytes, IsByte};

/// How many digits a block has.
const DIGITS: usize = 32;

/// How many bytes these are.
const BYTES: usize = DIGITS / 2;

/// The value of a digit; of another byte 16 or more. It takes no branch, so that the values of a
/// block are found side by side.
#[inline(always)]
fn value(byte: u8) -> u8
    ensures digit { result < 16 → hex_digit_value byte ≡ Some result }
    ensures other { 16 ≤ result → hex_digit_value byte ≡ None }
{
    let number = byte.wrapping_add(198).saturating_sub(6).wrapping_sub(240);
    let lower = byte.wrapping_sub(b'a');
    let upper = byte.wrapping_sub(b'A');
    let letter = lower.min(upper);
    number.min(letter.max(letter.wrapping_add(10)))
}

/// The values of the digits of a block.
#[inline(always)]
fn values_of(digits: &[u8; DIGITS]) -> [u8; DIGITS]
    ensures { (k : ℕ) → k < DIGITS → slice_index result k < 16 →
        hex_digit_value (slice_index digits.now k) ≡ Some (slice_index result k) }
{
    let mut values = [0; DIGITS];
    'values: for i in 0..DIGITS {
        values[i] = value(digits[i]);
    }
    values
}

/// The largest of the values.
#[inline(always)]
fn largest(values: &[u8; DIGITS]) -> u8
    ensures { (k : ℕ) → k < DIGITS → slice_index values.now k ≤ result }
{
    let mut largest = 0u8;
    'values: for i in 0..DIGITS {
        largest = largest.max(values[i]);
    }
    largest
}

/// The bytes of pairs of values.
#[inline(always)]
fn joined(values: &[u8; DIGITS]) -> [u8; BYTES]
    requires { (k : ℕ) → k < DIGITS → slice_index values.now k < 16 }
    ensures { (k : ℕ) → k < BYTES → slice_index result k
        ≡ slice_index values.now (2 * k) * 16 + slice_index values.now (2 * k + 1) }
{
    let mut bytes = [0; BYTES];
    'bytes: for i in 0..BYTES {
        bytes[i] = values[2 * i] * 16 + values[2 * i + 1];
    }
    bytes
}

/// The bytes of a block, if all of it are digits.
#[inline(always)]
fn bytes_of(digits: &[u8; DIGITS]) -> Option<[u8; BYTES]>
    ensures { IfSome result (λ bytes. AreBytes digits.now bytes BYTES) }
{
    let values = values_of(digits);
    if largest(&values) > 15 {
        return None;
    }
    Some(joined(&values))
}

/// The block from an offset of the text on.
#[inline(always)]
fn block_at(text: &[u8], at: usize) -> &[u8; DIGITS]
    requires { at + DIGITS ≤ length text.now }
    ensures { (k : ℕ) → k < DIGITS → slice_index result.now k ≡ slice_index text.now (at + k) }
{
    match text[at..].first_chunk::<DIGITS>() {
        Some(digits) => digits,
        None => unreachable!(),
    }
}

/// Writes bytes to the room, from an offset on.
#[inline(always)]
fn store(bytes: &[u8; BYTES], room: &mut [u8], to: usize)
    requires { to + BYTES ≤ length room.old }
    ensures size { length room.new ≡ length room.old }
    ensures written { (k : ℕ) → k < BYTES →
        slice_index room.new (to + k) ≡ slice_index bytes.now k }
    ensures before { (k : ℕ) → k < to → slice_index room.new k ≡ slice_index room.old k }
{
    'bytes: for i in 0..BYTES {
        room[to + i] = bytes[i];
    }
}

/// Writes the bytes of a block of the text to the room, if all of it are digits.
#[inline(always)]
fn put(text: &[u8], at: usize, room: &mut [u8], to: usize) -> bool
    requires text { at + DIGITS ≤ length text.now }
    requires room { to + BYTES ≤ length room.old }
    ensures size { length room.new ≡ length room.old }
    ensures bytes { IsTrue result → (k : ℕ) → k < BYTES →
        IsByte (slice_index text.now (at + 2 * k)) (slice_index text.now (at + 2 * k + 1))
        (slice_index room.new (to + k)) }
    ensures before { (k : ℕ) → k < to → slice_index room.new k ≡ slice_index room.old k }
{
    match bytes_of(block_at(text, at)) {
        Some(bytes) => {
            store(&bytes, room, to);
            true
        }
        None => false,
    }
}

/// Writes the bytes of a text of hex digits to the front of the room. Blocks follow one another,
/// and the last one ends with the text, over digits of the one before. False says nothing: a byte
/// may be no digit, or there are fewer digits than a block has, or an odd number.
#[inline(never)]
pub fn decode_blocks(text: &[u8], room: &mut [u8]) -> bool
    requires { length text.now / 2 ≤ length room.old }
    ensures { IsTrue result → decode_of text.now ≡ Ok (take (length text.now / 2) room.new) }
{
    let len = text.len();
    if len < DIGITS || len % 2 != 0 {
        return false;
    }
    'rows: for k in 0..len / DIGITS {
        if !put(text, DIGITS * k, room, BYTES * k) {
            return false;
        }
    }
    put(text, len - DIGITS, room, len / 2 - BYTES)
}

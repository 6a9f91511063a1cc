//! Hex digits into room that is there.

ghost use Rattle.std.specs.Prelude.{◌≡◌, ◌/◌, ◌<◌, ◌≤◌, ◌↔◌, ℕ, List, Ok, Err, false, drop, length, take, MatchResult, IsTrue};
ghost use Rattle.std.specs.List.{AllPass};
ghost use Rattle.hex.specs.Hex.{decode_of, is_hex_digit};
ghost use Rattle.rip_log.specs.Codes.{code_of};
ghost use Rattle.rip_log.specs.Lines.{bytes_of};

use crate::blocks::decode_blocks;
use crate::error::LineFault;
use rip_wire::MOST_BYTES;

/// The most digits of a datagram: two a byte.
const MOST_DIGITS: usize = 2 * MOST_BYTES;

/// Whether the byte is a hex digit, of either case.
fn is_digit(byte: u8) -> bool
    ensures { result ≡ is_hex_digit byte }
{
    matches!(byte, b'0'..=b'9' | b'a'..=b'f' | b'A'..=b'F')
}

/// Whether each byte is a hex digit.
fn are_digits(text: &[u8]) -> bool
    ensures { IsTrue result ↔ AllPass is_hex_digit text.now }
{
    text.iter().all(|byte| is_digit(*byte))
}

/// What is wrong with too many digits: Hex if their number is odd or a byte is no digit, else
/// LongDatagram.
fn fault_of_long(digits: &[u8]) -> LineFault
    requires { MOST_DIGITS < length digits.now }
    ensures { bytes_of digits.now ≡ Err (code_of result) }
{
    if digits.len() % 2 == 1 {
        return LineFault::Hex;
    }
    if are_digits(digits) {
        LineFault::LongDatagram
    } else {
        LineFault::Hex
    }
}

/// Writes the bytes that hex digits of either case spell to the front of the room, and answers
/// whether they spell any: there is an even number of them, and each is a digit. Where they do not,
/// the front of the room may hold anything. The rest of the room stays as it is.
pub fn decode_digits(digits: &[u8], room: &mut [u8]) -> bool
    requires { length digits.now / 2 ≤ length room.old }
    ensures bytes { IsTrue result →
        decode_of digits.now ≡ Ok (take (length digits.now / 2) room.new) }
    ensures none { result ≡ false → (bytes : List ℕ) → decode_of digits.now ≡ Ok bytes → ⊥ }
    ensures size { length room.new ≡ length room.old }
    ensures rest { drop (length digits.now / 2) room.new ≡ drop (length digits.now / 2) room.old }
{
    let front = &mut room[..digits.len() / 2];
    decode_blocks(digits, front) || hex::decode_to_slice(digits, front).is_ok()
}

/// Writes the bytes of hex digits to the front of the room, and answers how many there are.
pub(crate) fn decode(digits: &[u8], room: &mut [u8; MOST_BYTES]) -> Result<usize, LineFault>
    ensures { MatchResult result
        (λ n. (n ≤ MOST_BYTES) × (bytes_of digits.now ≡ Ok (take n room.new)))
        (λ fault. bytes_of digits.now ≡ Err (code_of fault)) }
{
    if digits.len() > MOST_DIGITS {
        return Err(fault_of_long(digits));
    }
    if decode_digits(digits, room) {
        Ok(digits.len() / 2)
    } else {
        Err(LineFault::Hex)
    }
}

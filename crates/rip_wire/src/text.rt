//! Texts of a fixed size.

ghost use Rattle.std.specs.Prelude.{◌≡◌, ℕ, List, Some, None, IfSome, IsSomeAnd, MatchOption, ◌<◌, ◌+◌, ◌/◌, ◌%◌, ◌^◌, ◌≤◌, ◌++◌, codes, decimal, length, take};
ghost use Rattle.rip_wire.specs.Address.{address_text};
ghost use Rattle.rip_wire.specs.Decimal.{digit_of, number_of};

use itoa::Buffer;

/// Writes text at an offset, and answers the offset after it.
pub(crate) fn put(room: &mut [u8], at: usize, text: &str) -> usize
    requires { at + length text.now ≤ length room.old }
    ensures text { take result room.new ≡ take at room.old ++ text.now }
    ensures after { result ≡ at + length text.now }
{
    let end = at + text.len();
    room[at..end].copy_from_slice(text.as_bytes());
    end
}

/// Writes a number of up to three digits at an offset, and answers the offset after it.
pub(crate) fn put_number(room: &mut [u8], at: usize, number: u8) -> usize
    requires { at + 3 ≤ length room.old }
    ensures text { take result room.new ≡ take at room.old ++ decimal number }
    ensures after { result ≤ at + 3 }
{
    put(room, at, Buffer::new().format(number))
}

/// Writes a dot and a number at an offset, and answers the offset after them.
fn put_dotted(room: &mut [u8], at: usize, number: u8) -> usize
    requires { at + 4 ≤ length room.old }
    ensures text { take result room.new ≡ take at room.old ++ (codes "." ++ decimal number) }
    ensures after { result ≤ at + 4 }
{
    let end = put(room, at, ".");
    put_number(room, end, number)
}

/// Writes an address at the front, and answers the offset after it.
pub(crate) fn put_address(room: &mut [u8], address: u32) -> usize
    requires { 15 ≤ length room.old }
    ensures text { take result room.new ≡ address_text address }
    ensures after { result ≤ 15 }
{
    let [a, b, c, d] = address.to_be_bytes();
    let end = put_number(room, 0, a);
    let end = put_dotted(room, end, b);
    let end = put_dotted(room, end, c);
    put_dotted(room, end, d)
}

/// Writes a slash and a length at an offset, and answers the offset after them.
pub(crate) fn put_length(room: &mut [u8], at: usize, prefix_len: u8) -> usize
    requires room { at + 3 ≤ length room.old }
    requires few { prefix_len ≤ 32 }
    ensures text { take result room.new ≡ take at room.old ++ (codes "/" ++ decimal prefix_len) }
    ensures after { result ≤ at + 3 }
{
    let end = put(room, at, "/");
    let mut buffer = Buffer::new();
    put(room, end, buffer.format(prefix_len))
}

/// The value of the digit at the front, and the text after it.
fn split_digit(text: &[u8]) -> Option<(u8, &[u8])>
    ensures digit { MatchOption result (digit_of text.now ≡ None)
        (λ x. digit_of text.now ≡ Some (x.0, x.1.now)) }
    ensures small { IfSome result (λ x. x.0 < 10) }
{
    let (first, rest) = text.split_first()?;
    if first.is_ascii_digit() {
        Some((*first - b'0', rest))
    } else {
        None
    }
}

/// The number of up to three digits at the front, without zeros before it and at most 255, and the
/// text after it.
fn split_number(text: &[u8]) -> Option<(u8, &[u8])>
    ensures { MatchOption result (number_of text.now ≡ None)
        (λ x. number_of text.now ≡ Some (x.0, x.1.now)) }
{
    let (first, rest) = split_digit(text)?;
    if first == 0 {
        return Some((0, rest));
    }
    let Some((second, more)) = split_digit(rest) else {
        return Some((first, rest));
    };
    let two = 10 * first + second;
    let Some((third, after)) = split_digit(more) else {
        return Some((two, more));
    };
    let three = 10 * u16::from(two) + u16::from(third);
    if three > 255 {
        return None;
    }
    Some((three as u8, after))
}

/// The number before a dot at the front, and the text after the dot.
fn split_dotted(text: &[u8]) -> Option<(u8, &[u8])>
    ensures said { IfSome result (λ x. (x.0 < 256)
        × (text.now ≡ decimal x.0 ++ (codes "." ++ x.1.now))) }
    ensures found { (n : ℕ) (rest : List ℕ) → n < 256 →
        text.now ≡ decimal n ++ (codes "." ++ rest) →
        IsSomeAnd result (λ x. (x.0 ≡ n) × (x.1.now ≡ rest)) }
{
    let (number, rest) = split_number(text)?;
    let (dot, rest) = rest.split_first()?;
    if *dot == b'.' {
        Some((number, rest))
    } else {
        None
    }
}

/// The number that is a whole text.
fn read_number(text: &[u8]) -> Option<u8>
    ensures said { IfSome result (λ n. (n < 256) × (text.now ≡ decimal n)) }
    ensures found { (n : ℕ) → n < 256 → text.now ≡ decimal n → result ≡ Some n }
{
    let (number, rest) = split_number(text)?;
    if rest.is_empty() { Some(number) } else { None }
}

/// The number of the address that has this text: four decimal numbers with dots between them, as
/// they are printed.
pub(crate) fn read_address(text: &[u8]) -> Option<u32>
    ensures said { IfSome result (λ a. (a < 2 ^ 32) × (text.now ≡ address_text a)) }
    ensures found { (a : ℕ) → a < 2 ^ 32 → text.now ≡ address_text a → result ≡ Some a }
{
    let (a, rest) = split_dotted(text)?;
    let (b, rest) = split_dotted(rest)?;
    let (c, rest) = split_dotted(rest)?;
    let d = read_number(rest)?;
    Some(u32::from_be_bytes([a, b, c, d]))
}

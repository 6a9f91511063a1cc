//! The fields of a line.

ghost use Rattle.std.specs.Prelude.{◌≡◌, ◌≤◌, ◌<◌, ◌-◌, ℕ, [], ◌∷◌, true, false, length, drop, MatchOption, slice_range, slice_index};
ghost use Rattle.memchr.specs.Find.{IsFirstByte, is_byte2};
ghost use Rattle.rip_log.specs.Fields.{is_blank, fields_of, AreThreeFrom, IsTrimmed, NextField, IsSplit};

use crate::span::Span;
use memchr::memchr2_iter;

/// The fields of a line, where they lie. Of three or more the third span is the rest of the line
/// from the third on, without the blanks at its end.
#[derive(Clone, Copy)]
pub enum Fields {
    Nothing,
    Comment,
    TooFew,
    ThreeOrMore(Span, Span, Span),
}

/// Whether the byte is a blank: a space or a tab.
fn is_blank(byte: u8) -> bool
    ensures { result ≡ is_blank byte }
{
    byte == b' ' || byte == b'\t'
}

/// The first offset from `from` on that has no blank, or the end of the line.
pub fn skip_blanks(line: &[u8], from: usize) -> usize
    requires { from ≤ length line.now }
    ensures after { from ≤ result }
    ensures within { result ≤ length line.now }
    ensures stops { result < length line.now → is_blank (slice_index line.now result) ≡ false }
    ensures same { fields_of (drop from line.now) ≡ fields_of (drop result line.now) }
{
    let mut at = from;
    while at < line.len() && is_blank(line[at]) {
        at += 1;
    }
    at
}

/// The first blank of these bytes. The iterator looks at the next 32 bytes alone before it goes on
/// by more, and few fields but the third are longer.
fn first_blank(bytes: &[u8]) -> Option<usize>
    ensures { IsFirstByte (is_byte2 32 9) bytes.now result }
{
    memchr2_iter(b' ', b'\t', bytes).next()
}

/// The first offset after `from` that has a blank, or the end of the line.
pub fn skip_field(line: &[u8], from: usize) -> usize
    requires inside { from < length line.now }
    requires field { is_blank (slice_index line.now from) ≡ false }
    ensures after { from < result }
    ensures within { result ≤ length line.now }
    ensures split { fields_of (drop from line.now)
        ≡ slice_range line.now from result ∷ fields_of (drop result line.now) }
{
    match first_blank(&line[from + 1..]) {
        Some(count) => from + 1 + count,
        None => line.len(),
    }
}

/// The offset behind the last byte that is no blank, where there is one from `from` on.
fn end_of_rest(line: &[u8], from: usize) -> usize
    requires inside { from < length line.now }
    requires field { is_blank (slice_index line.now from) ≡ false }
    ensures after { from < result }
    ensures within { result ≤ length line.now }
    ensures last { is_blank (slice_index line.now (result - 1)) ≡ false }
    ensures blanks { (k : ℕ) → result ≤ k → k < length line.now →
        is_blank (slice_index line.now k) ≡ true }
{
    let mut to = line.len();
    while is_blank(line[to - 1]) {
        to -= 1;
    }
    to
}

/// Whether bytes that neither begin nor end with a blank are one field.
pub fn is_field(bytes: &[u8]) -> bool
    requires { IsTrimmed bytes.now }
    ensures one { result ≡ true → fields_of bytes.now ≡ bytes.now ∷ [] }
    ensures more { result ≡ false → 1 < length (fields_of bytes.now) }
{
    skip_field(bytes, 0) == bytes.len()
}

/// The next field of a line from `from` on, where it lies: after blanks, which are spaces and tabs,
/// as many bytes as there are that are no blanks.
pub fn next_field(line: &[u8], from: usize) -> Option<Span>
    requires { from ≤ length line.now }
    ensures { MatchOption result (fields_of (drop from line.now) ≡ []) (NextField line.now from) }
{
    let from = skip_blanks(line, from);
    if from == line.len() {
        return None;
    }
    let to = skip_field(line, from);
    Some(Span { from, to })
}

/// The next three fields from `from` on, of which the third has all that follows, without the blanks
/// at its end.
pub fn three_from(line: &[u8], from: usize) -> Option<(Span, Span, Span)>
    requires { from ≤ length line.now }
    ensures { MatchOption result (length (fields_of (drop from line.now)) < 3)
        (AreThreeFrom line.now (fields_of (drop from line.now))) }
{
    let first = next_field(line, from)?;
    let second = next_field(line, first.to)?;
    let from = skip_blanks(line, second.to);
    if from == line.len() {
        return None;
    }
    let rest = Span {
        from,
        to: end_of_rest(line, from),
    };
    Some((first, second, rest))
}

/// The fields of a line. Whether a fourth one follows the third is not looked for.
pub fn split(line: &[u8]) -> Fields
    ensures { IsSplit line.now result }
{
    let from = skip_blanks(line, 0);
    if from == line.len() {
        return Fields::Nothing;
    }
    // The end of a comment's first field is not sought.
    if line[from] == b'#' {
        return Fields::Comment;
    }
    match three_from(line, from) {
        Some((first, second, rest)) => Fields::ThreeOrMore(first, second, rest),
        None => Fields::TooFew,
    }
}

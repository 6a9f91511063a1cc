//! The fields of a line that count.

ghost use Rattle.std.specs.Prelude.{◌≡◌, ◌∷◌, [], ℕ, List, MatchOption};
ghost use Rattle.rip_log.specs.Fields.{fields_of};
ghost use Rattle.rip_routes.specs.RouteLines.{before_comma};
ghost use Rattle.rip_routes.specs.Words.{AreWords};

use rip_log::next_field;

/// The fields of a line.
#[derive(Drop)]
pub(crate) enum Words<'a> {
    None,
    /// Fewer than three, or more than five, of which this is the first.
    Others(&'a [u8]),
    Three(&'a [u8], &'a [u8], &'a [u8]),
    Four(&'a [u8], &'a [u8], &'a [u8], &'a [u8]),
    Five(&'a [u8], &'a [u8], &'a [u8], &'a [u8], &'a [u8]),
}

/// What stands before the first comma of a line.
pub(crate) fn before_comma(line: &[u8]) -> &[u8]
    ensures { result.now ≡ before_comma line.now }
{
    for at in 0..line.len() {
        if line[at] == b',' {
            return &line[..at];
        }
    }
    line
}

/// The fields of a line.
pub(crate) fn split_line(line: &[u8]) -> Words<'_>
    ensures { AreWords (fields_of line.now) result }
{
    let Some(a) = next_field(line, 0) else {
        return Words::None;
    };
    let first = &line[a.from..a.to];
    let Some(b) = next_field(line, a.to) else {
        return Words::Others(first);
    };
    let second = &line[b.from..b.to];
    let Some(c) = next_field(line, b.to) else {
        return Words::Others(first);
    };
    let third = &line[c.from..c.to];
    let Some(d) = next_field(line, c.to) else {
        return Words::Three(first, second, third);
    };
    let fourth = &line[d.from..d.to];
    let Some(e) = next_field(line, d.to) else {
        return Words::Four(first, second, third, fourth);
    };
    match next_field(line, e.to) {
        Some(_) => Words::Others(first),
        None => Words::Five(first, second, third, fourth, &line[e.from..e.to]),
    }
}

/// The first field.
pub(crate) fn first_of<'a>(words: &Words<'a>) -> Option<&'a [u8]>
    ensures { (fields : List (List ℕ)) → AreWords fields words.now → MatchOption result
        (fields ≡ []) (λ first. (rest : List (List ℕ)) × (fields ≡ first.now ∷ rest)) }
{
    match words {
        Words::None => None,
        Words::Others(first) => Some(*first),
        Words::Three(first, _, _) => Some(*first),
        Words::Four(first, _, _, _) => Some(*first),
        Words::Five(first, _, _, _, _) => Some(*first),
    }
}

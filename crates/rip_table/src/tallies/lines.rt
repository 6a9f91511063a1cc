//! How many lines there are of a kind.

ghost use Rattle.std.specs.Prelude.{◌≡◌, ◌<◌, []};
ghost use Rattle.rip_table.specs.Tallies.{lines_in, with_line};

/// The lines of a kind: how many there are, the first and the last, which are 0 where there are
/// none.
#[derive(Clone, Copy, Debug, PartialEq, Eq)]
pub struct Lines {
    /// How many.
    pub count: u32,
    /// The number of the first, from 1 on.
    pub first: u32,
    /// The number of the last.
    pub last: u32,
}

impl Lines {
    /// No lines.
    pub(crate) const NONE: Lines = Lines {
        count: 0,
        first: 0,
        last: 0,
    };

    /// One more line, after the others.
    pub(crate) fn add(&mut self, line: u32)
        requires { self.old.count < 4294967295 }
        ensures { self.new ≡ with_line self.old line }
    {
        if self.count == 0 {
            self.first = line;
        }
        self.count += 1;
        self.last = line;
    }
}

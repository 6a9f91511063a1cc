//! Which way a packet goes.

/// Which way a router sends what is for a prefix.
#[derive(Clone, Copy, Debug, PartialEq, Eq)]
pub enum Way {
    /// Nowhere.
    Unreachable,
    /// To its own link, or to itself.
    Here,
    /// To a neighbour on this link.
    Over(usize),
}

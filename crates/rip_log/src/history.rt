//! A history that only proofs read.

ghost use Rattle.std.specs.Prelude.{◌≡◌, ◌++◌, [], ◌∷◌, ℕ, List, Option, Some, None};
ghost use Rattle.std.specs.Borrow.{ftrue};

use std::marker::Model;

/// What the calls of a device came to, one after the other: each moved some bytes, or failed. It
/// has no size, and its methods do nothing when the program runs.
#[derive(Drop)]
pub struct History {
    pub ghost outcomes: { List (Option (List ℕ)) },
}

impl Model for History {
    ghost also_owns = { λ _. ftrue };
}

impl History {
    /// The history of a device that was not called yet.
    pub fn new() -> History
        ensures { result.outcomes ≡ [] }
    {
        History {}
    }

    /// Notes that a call moved these bytes.
    #[inline(always)]
    pub fn note(&mut self, _bytes: &[u8])
        ensures { self.new.outcomes ≡ self.old.outcomes ++ Some _bytes.now ∷ [] }
    {}

    /// Notes that a call failed.
    #[inline(always)]
    pub fn note_failure(&mut self)
        ensures { self.new.outcomes ≡ self.old.outcomes ++ None ∷ [] }
    {}
}

const _: () = prove!(size_of::<History>() == 0);

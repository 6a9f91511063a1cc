//! How long a window is.

ghost use Rattle.std.specs.Prelude.{◌≡◌, ◌≤◌, SomeIff};
ghost use Rattle.rip_table.specs.declared.limits.TheConstants.{MOST_WINDOW};

use crate::limits::MOST_WINDOW;
use std::marker::Model;

/// For how many seconds what an interface says is shown: 1 to 86,400, a day.
#[derive(Clone, Copy, Debug)]
pub struct WindowLength {
    seconds: u32,
}

impl Model for WindowLength {
    ghost use Rattle.std.specs.Prelude.{ℕ, ◌≤◌};

    ghost Value = { ℕ };

    ghost view = { λ w. w.seconds };

    ghost invariant = { λ w. (1 ≤ w.seconds) × (w.seconds ≤ 86400) };

    ghost inverse = { λ n. record { seconds = n } };
}

impl WindowLength {
    /// The length of so many seconds, unless it is 0 or more than a day.
    pub const fn new(seconds: u32) -> Option<WindowLength>
        ensures { SomeIff result ((1 ≤ seconds) × (seconds ≤ MOST_WINDOW)) seconds }
    {
        if 1 <= seconds && seconds <= MOST_WINDOW {
            Some(WindowLength { seconds })
        } else {
            None
        }
    }

    /// It is 1 to 86,400. Does nothing.
    pub fn lawful(self)
        ensures low { 1 ≤ self }
        ensures high { self ≤ MOST_WINDOW }
    {
        let _seconds = self.seconds;
    }

    /// How many seconds it is, 1 to 86,400.
    pub const fn get(self) -> u32
        ensures seconds { result ≡ self }
        ensures low { 1 ≤ result }
        ensures high { result ≤ MOST_WINDOW }
    {
        self.seconds
    }
}

//! The last word of an interface about a prefix.

ghost use Rattle.std.specs.Prelude.{◌≡◌, None, is_none, option_map};
ghost use Rattle.rip_table.specs.Window.{passed_word};
ghost use Rattle.rip_table.specs.WindowRows.{new_word};

use super::cell::GridCell;
use crate::window_length::WindowLength;
use rip_wire::Metric;
use std::alloc::{AllocError, Global};
use std::marker::Model;

/// The metric that an interface showed of a prefix and for how many seconds it is shown, or nothing,
/// in one number: the metric, and 32 for each second.
#[derive(Clone, Copy, Debug)]
pub(crate) struct WordCell {
    number: u32,
}

impl Model for WordCell {
    ghost use Rattle.std.specs.Prelude.{Option};
    ghost use Rattle.rip_table.specs.Window.{Word};
    ghost use Rattle.rip_table.specs.WindowRows.{IsWordNumber, number_of_word, word_of};
    ghost use Rattle.rip_table.specs.WindowFacts.{number-of-word};

    ghost Value = { Option Word };

    ghost view = { λ c. word_of c.number };

    ghost invariant = { λ c. IsWordNumber c.number };

    ghost inverse = { λ word. record { number = number_of_word word } };

    ghost inverse_ok = { λ c _ i. record { number = number-of-word c.number i } };
}

impl GridCell for WordCell {
    // For how many seconds it is shown.
    type Term = WindowLength;

    ghost blank_cell = { None };

    ghost cell_of = { new_word };

    fn blank_row(alloc: Global, width: usize) -> Result<Vec<WordCell>, AllocError> {
        vec![in alloc; WordCell { number: 0 }; width]
    }

    fn of(term: WindowLength, metric: Metric) -> WordCell {
        WordCell {
            number: term.get() * 32 + metric.get(),
        }
    }
}

impl WordCell {
    /// Whether nothing is shown.
    pub(crate) fn is_blank(self) -> bool
        ensures { result ≡ is_none self }
    {
        self.number == 0
    }

    /// The metric, if there is one.
    pub(crate) fn metric(self) -> Option<Metric>
        ensures { result ≡ option_map (λ word. word.metric) self }
    {
        Metric::new(self.number % 32)
    }

    /// A second later.
    pub(crate) fn passed(self) -> WordCell
        ensures { result ≡ passed_word self }
    {
        if self.number < 64 {
            WordCell { number: 0 }
        } else {
            WordCell {
                number: self.number - 32,
            }
        }
    }
}

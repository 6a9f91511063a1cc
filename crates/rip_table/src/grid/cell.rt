//! What is at a cell of a grid.

ghost use Rattle.std.specs.Prelude.{◌≡◌, ℕ, Some, None, IfOk, replicate};

use rip_wire::Metric;
use std::alloc::{AllocError, Global};
use std::marker::Model;

/// A cell of a grid: blank, or made of a metric.
pub(crate) trait GridCell: Copy {
    /// What a cell is made of besides a metric.
    type Term: Copy;

    // A blank one.
    ghost blank_cell: { Self };

    // The one that is made of a term and a metric.
    ghost cell_of: { Self.Term → ℕ → Self };

    /// So many blank cells.
    fn blank_row(alloc: Global, width: usize) -> Result<Vec<Self>, AllocError>
        ensures { IfOk result (λ row. row.items ≡ replicate width blank_cell) };

    /// The cell that is made of a term and a metric.
    fn of(term: Self::Term, metric: Metric) -> Self
        ensures { result ≡ cell_of term metric };
}

/// The metric that an interface showed of a prefix, or nothing, in a byte.
#[derive(Clone, Copy, Debug)]
pub(crate) struct Cell {
    number: u8,
}

impl Model for Cell {
    ghost use Rattle.std.specs.Prelude.{ℕ, ◌==◌, ◌≤◌, if◌then◌else◌, Option, Some, None, unwrap_or};

    ghost Value = { Option ℕ };

    ghost view = { λ c. if c.number == 0 then None else Some c.number };

    ghost invariant = { λ c. c.number ≤ 16 };

    ghost inverse = { λ metric. record { number = unwrap_or metric 0 } };
}

impl GridCell for Cell {
    // What was shown once is shown for good.
    type Term = ();

    ghost blank_cell = { None };

    ghost cell_of = { λ _ metric. Some metric };

    fn blank_row(alloc: Global, width: usize) -> Result<Vec<Cell>, AllocError> {
        vec![in alloc; Cell { number: 0 }; width]
    }

    fn of(_term: (), metric: Metric) -> Cell {
        Cell {
            number: metric.get() as u8,
        }
    }
}

impl Cell {
    /// The metric, if there is one.
    pub(crate) fn metric(self) -> Option<Metric>
        ensures { result ≡ self }
    {
        Metric::new(u32::from(self.number))
    }
}

ghost use Rattle.lot.specs.Join.{blank};
ghost use Rattle.lot.specs.Laws.Joins.{blank_duties};

use lot::lot::Lot;
use lot::views::{CappedPrices, Cells};

// A row without cells, as stands before the members of a group.
#[derive(Clone, Copy)]
pub struct Heading;

impl Lot for Heading {
    ghost meaning = { λ _. blank 1 };

    ghost idle = { λ _. (blank_duties 1).idle };

    ghost greatest = { λ _. (blank_duties 1).greatest };

    ghost settled = { λ _. (blank_duties 1).settled };

    ghost unharmed = { λ _. (blank_duties 1).unharmed };

    ghost limited = { λ _. (blank_duties 1).limited };

    fn row_count(&self) -> usize {
        1
    }

    fn cell_row_count(&self) -> usize {
        0
    }

    fn refused_row(&self, _cells: Cells<'_>) -> Option<usize> {
        None
    }

    fn net(&self, _cells: Cells<'_>, _area: usize, _quarter: usize) -> i64 {
        0
    }

    fn worth(&self, _cells: Cells<'_>, _row: usize) -> i64 {
        0
    }

    fn amount(&self, _cells: Cells<'_>, _prices: CappedPrices<'_>, _row: usize) -> i64 {
        0
    }

    fn best(&self, _prices: CappedPrices<'_>) -> i64 {
        0
    }

    fn broken_row(&self, _cells: Cells<'_>, _prices: CappedPrices<'_>) -> Option<usize> {
        None
    }
}

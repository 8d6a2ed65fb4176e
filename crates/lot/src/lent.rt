use crate::lot::Lot;
use crate::views::{CappedPrices, Cells};

// A lot that is lent is a lot.
impl<'b, L: Lot> Lot for &'b L {
    ghost meaning = { λ x. L.Lot.meaning x.now };

    ghost idle = { λ x. L.Lot.idle x.now };

    ghost greatest = { λ x. L.Lot.greatest x.now };

    ghost settled = { λ x. L.Lot.settled x.now };

    ghost unharmed = { λ x. L.Lot.unharmed x.now };

    ghost limited = { λ x. L.Lot.limited x.now };

    fn row_count(&self) -> usize {
        (*self).row_count()
    }

    fn cell_row_count(&self) -> usize {
        (*self).cell_row_count()
    }

    fn refused_row(&self, cells: Cells<'_>) -> Option<usize> {
        (*self).refused_row(cells)
    }

    fn net(&self, cells: Cells<'_>, area: usize, quarter: usize) -> i64 {
        (*self).net(cells, area, quarter)
    }

    fn worth(&self, cells: Cells<'_>, row: usize) -> i64 {
        (*self).worth(cells, row)
    }

    fn amount(&self, cells: Cells<'_>, prices: CappedPrices<'_>, row: usize) -> i64 {
        (*self).amount(cells, prices, row)
    }

    fn best(&self, prices: CappedPrices<'_>) -> i64 {
        (*self).best(prices)
    }

    fn broken_row(&self, cells: Cells<'_>, prices: CappedPrices<'_>) -> Option<usize> {
        (*self).broken_row(cells, prices)
    }
}

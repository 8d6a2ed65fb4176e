ghost use Rattle.std.specs.Prelude.{◌≡◌};
ghost use Rattle.book.specs.Reading.{rows_in};
ghost use Rattle.sealed.specs.Left.{rows_left};
ghost use Rattle.sealed.specs.Lot.{book_meaning};
ghost use Rattle.sealed.specs.Laws.Books.{book_duties};

use crate::orders::Orders;
use crate::sealed_book::SealedBook;
use joined::chained::Chained;
use lot::lot::Lot;
use lot::views::{CappedPrices, Cells};

impl<'a> SealedBook<'a> {
    // The orders of the book, one after another.
    fn orders(self) -> Chained<Orders<'a>>
        ensures { rows_left result.0.rows ≡ rows_in self.entry.text.now }
    {
        Chained(Orders { rows: self.iter() })
    }
}

// A sealed book is a lot: its rows joined in order, decoded where they lie.
impl<'a> Lot for SealedBook<'a> {
    ghost meaning = { λ x. book_meaning (rows_in x.text.now) };

    ghost idle = { λ x. (book_duties (rows_in x.text.now) x.lawful).idle };

    ghost greatest = { λ x. (book_duties (rows_in x.text.now) x.lawful).greatest };

    ghost settled = { λ x. (book_duties (rows_in x.text.now) x.lawful).settled };

    ghost unharmed = { λ x. (book_duties (rows_in x.text.now) x.lawful).unharmed };

    ghost limited = { λ x. (book_duties (rows_in x.text.now) x.lawful).limited };

    fn row_count(&self) -> usize {
        self.orders().row_count()
    }

    fn cell_row_count(&self) -> usize {
        self.orders().cell_row_count()
    }

    fn refused_row(&self, cells: Cells<'_>) -> Option<usize> {
        self.orders().refused_row(cells)
    }

    fn net(&self, cells: Cells<'_>, area: usize, quarter: usize) -> i64 {
        self.orders().net(cells, area, quarter)
    }

    fn worth(&self, cells: Cells<'_>, row: usize) -> i64 {
        self.orders().worth(cells, row)
    }

    fn amount(&self, cells: Cells<'_>, prices: CappedPrices<'_>, row: usize) -> i64 {
        self.orders().amount(cells, prices, row)
    }

    fn best(&self, prices: CappedPrices<'_>) -> i64 {
        self.orders().best(prices)
    }

    fn broken_row(&self, cells: Cells<'_>, prices: CappedPrices<'_>) -> Option<usize> {
        self.orders().broken_row(cells, prices)
    }
}

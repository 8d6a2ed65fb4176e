ghost use Rattle.std.specs.Prelude.{◌≡◌, ◌*◌, ◌≤◌, length, take, drop};
ghost use Rattle.lot.specs.Meaning.{cell_rows};
ghost use Rattle.lot.specs.Duties.{most_lot_rows};
ghost use Rattle.lot.specs.Join.{join};
ghost use Rattle.lot.specs.Laws.Joins.{settled_always, join_idle, join_greatest, join_unharmed, join_limited};

use lot::lot::{Lot, MOST_LOT_ROWS};
use lot::views::{CappedPrices, Cells};

// As far as rows are counted: one more than a lot that is questioned may have.
pub const COUNTED: usize = MOST_LOT_ROWS + 1;

// Two lots as one: the first's rows and cells come before the second's.
#[derive(Clone, Copy, Drop)]
pub struct Joined<A, B>(pub A, pub B);

// A view each, beside the pair of both: `worth` and `amount` take one alone.
// The cells of the first of two lots.
pub fn front_part<'a, L: Lot>(first: &L, cells: Cells<'a>) -> Cells<'a>
    requires few { (L.Lot.meaning first.now).rows ≤ most_lot_rows }
    requires long { 17 * cell_rows (L.Lot.meaning first.now) ≤ length cells.bytes.now }
    ensures { result.bytes.now ≡ take (17 * cell_rows (L.Lot.meaning first.now)) cells.entry.bytes.now }
{
    cells.front(first.cell_row_count())
}

// The cells of the second of two lots.
pub fn rest_part<'a, L: Lot>(first: &L, cells: Cells<'a>) -> Cells<'a>
    requires few { (L.Lot.meaning first.now).rows ≤ most_lot_rows }
    requires long { 17 * cell_rows (L.Lot.meaning first.now) ≤ length cells.bytes.now }
    ensures { result.bytes.now ≡ drop (17 * cell_rows (L.Lot.meaning first.now)) cells.entry.bytes.now }
{
    cells.rest(first.cell_row_count())
}

// Both of them, with one count of the first's cell rows, which of many lots is a walk.
pub(crate) fn both_parts<'a, L: Lot>(first: &L, cells: Cells<'a>) -> (Cells<'a>, Cells<'a>)
    requires few { (L.Lot.meaning first.now).rows ≤ most_lot_rows }
    requires long { 17 * cell_rows (L.Lot.meaning first.now) ≤ length cells.bytes.now }
    ensures front { result.0.bytes.now ≡ take (17 * cell_rows (L.Lot.meaning first.now)) cells.entry.bytes.now }
    ensures rest { result.1.bytes.now ≡ drop (17 * cell_rows (L.Lot.meaning first.now)) cells.entry.bytes.now }
{
    let cell_rows = first.cell_row_count();
    (cells.front(cell_rows), cells.rest(cell_rows))
}

impl<A: Lot, B: Lot> Lot for Joined<A, B> {
    ghost meaning = { λ x. join (A.Lot.meaning x.0) (B.Lot.meaning x.1) };

    ghost idle = { λ x few. join_idle (A.Lot.meaning x.0) (B.Lot.meaning x.1) few (A.Lot.idle x.0) (B.Lot.idle x.1) };

    ghost greatest = { λ x few. join_greatest (A.Lot.meaning x.0) (B.Lot.meaning x.1) few (A.Lot.greatest x.0) (B.Lot.greatest x.1) };

    ghost settled = { λ x few. settled_always (join (A.Lot.meaning x.0) (B.Lot.meaning x.1)) };

    ghost unharmed = { λ x few. join_unharmed (A.Lot.meaning x.0) (B.Lot.meaning x.1) few (A.Lot.unharmed x.0) (B.Lot.unharmed x.1) };

    ghost limited = { λ x few. join_limited (A.Lot.meaning x.0) (B.Lot.meaning x.1) few (A.Lot.limited x.0) (B.Lot.limited x.1) };

    fn row_count(&self) -> usize {
        (self.0.row_count() + self.1.row_count()).min(COUNTED)
    }

    fn cell_row_count(&self) -> usize {
        (self.0.cell_row_count() + self.1.cell_row_count()).min(COUNTED)
    }

    fn refused_row(&self, cells: Cells<'_>) -> Option<usize> {
        let (front, rest) = both_parts(&self.0, cells);
        let second = || {
            let refused = self.1.refused_row(rest)?;
            Some(self.0.row_count() + refused)
        };
        self.0.refused_row(front).or_else(second)
    }

    fn net(&self, cells: Cells<'_>, area: usize, quarter: usize) -> i64 {
        self.0.net(front_part(&self.0, cells), area, quarter)
            + self.1.net(rest_part(&self.0, cells), area, quarter)
    }

    fn worth(&self, cells: Cells<'_>, row: usize) -> i64 {
        let rows = self.0.row_count();
        if row < rows {
            self.0.worth(front_part(&self.0, cells), row)
        } else {
            self.1.worth(rest_part(&self.0, cells), row - rows)
        }
    }

    fn amount(&self, cells: Cells<'_>, prices: CappedPrices<'_>, row: usize) -> i64 {
        let rows = self.0.row_count();
        if row < rows {
            self.0.amount(front_part(&self.0, cells), prices, row)
        } else {
            self.1.amount(rest_part(&self.0, cells), prices, row - rows)
        }
    }

    fn best(&self, prices: CappedPrices<'_>) -> i64 {
        self.0.best(prices) + self.1.best(prices)
    }

    fn broken_row(&self, cells: Cells<'_>, prices: CappedPrices<'_>) -> Option<usize> {
        let (front, rest) = both_parts(&self.0, cells);
        let second = || {
            let broken = self.1.broken_row(rest, prices)?;
            Some(self.0.row_count() + broken)
        };
        self.0.broken_row(front, prices).or_else(second)
    }
}

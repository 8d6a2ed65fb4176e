ghost use Rattle.lot.specs.Single.{single};
ghost use Rattle.lot.specs.Laws.Singles.{single_idle, single_greatest, single_unharmed, single_limited};
ghost use Rattle.lot.specs.Laws.Joins.{settled_always};
ghost use Rattle.border.specs.Flow.{flowing};
ghost use Rattle.border.specs.Laws.Flows.{border_duties};

use crate::lawful::Border;
use lot::lot::Lot;
use lot::quarters::dot;
use lot::trade::Direction;
use lot::views::{CappedPrices, Cells};

// A border as a lot of one row: its four cells are the flow, and its amount is the rent.
impl Lot for Border {
    ghost meaning = { λ x. single (flowing x.fields) };

    ghost idle = { λ x few. single_idle (flowing x.fields) (border_duties x.fields x.placed x.fine) };

    ghost greatest = { λ x few. single_greatest (flowing x.fields) (border_duties x.fields x.placed x.fine) };

    ghost settled = { λ x few. settled_always (single (flowing x.fields)) };

    ghost unharmed = { λ x few. single_unharmed (flowing x.fields) (border_duties x.fields x.placed x.fine) };

    ghost limited = { λ x few. single_limited (flowing x.fields) (border_duties x.fields x.placed x.fine) };

    fn row_count(&self) -> usize {
        1
    }

    fn cell_row_count(&self) -> usize {
        self.row_count()
    }

    fn refused_row(&self, cells: Cells<'_>) -> Option<usize> {
        let flow = cells.row(0);
        (!self.admits(&flow)).then_some(0)
    }

    fn net(&self, cells: Cells<'_>, area: usize, quarter: usize) -> i64 {
        let flow = cells.cell(0, quarter);
        self.carried(area, flow)
    }

    fn worth(&self, cells: Cells<'_>, row: usize) -> i64 {
        0
    }

    // A unit that flows is bought at the first price and sold at the second.
    fn amount(&self, cells: Cells<'_>, prices: CappedPrices<'_>, row: usize) -> i64 {
        let flow = cells.row(0);
        let first = prices.area(usize::from(self.fields.from));
        let second = prices.area(usize::from(self.fields.to));
        let gaps = Direction::Sells.gains(&second, &first);
        dot(&flow, &gaps)
    }

    fn best(&self, prices: CappedPrices<'_>) -> i64 {
        self.greatest_rent(prices)
    }

    fn broken_row(&self, cells: Cells<'_>, prices: CappedPrices<'_>) -> Option<usize> {
        let flow = cells.row(0);
        (!self.keeps_rule(&flow, prices)).then_some(0)
    }
}

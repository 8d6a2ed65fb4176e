ghost use Rattle.order.specs.Order.{order_meaning};
ghost use Rattle.order.specs.Laws.Orders.{order_duties};

use crate::order::Order;
use lot::lot::Lot;
use lot::views::{CappedPrices, Cells};

// What an order answers to a question. The check refuses a function that hands out a `dyn` lot, and a closure that takes one.
macro_rules! asked {
    ($order:expr, $lot:ident => $question:expr) => {
        match $order {
            Order::Bid($lot) => $question,
            Order::Group($lot) => $question,
            Order::Need($lot) => $question,
            Order::Border($lot) => $question,
        }
    };
}

// An order answers as the lot of its kind.
impl Lot for Order {
    ghost meaning = { λ x. order_meaning x };

    ghost idle = { λ x. (order_duties x).idle };

    ghost greatest = { λ x. (order_duties x).greatest };

    ghost settled = { λ x. (order_duties x).settled };

    ghost unharmed = { λ x. (order_duties x).unharmed };

    ghost limited = { λ x. (order_duties x).limited };

    fn row_count(&self) -> usize {
        asked!(self, lot => lot.row_count())
    }

    fn cell_row_count(&self) -> usize {
        asked!(self, lot => lot.cell_row_count())
    }

    fn refused_row(&self, cells: Cells<'_>) -> Option<usize> {
        asked!(self, lot => lot.refused_row(cells))
    }

    fn net(&self, cells: Cells<'_>, area: usize, quarter: usize) -> i64 {
        asked!(self, lot => lot.net(cells, area, quarter))
    }

    fn worth(&self, cells: Cells<'_>, row: usize) -> i64 {
        asked!(self, lot => lot.worth(cells, row))
    }

    fn amount(&self, cells: Cells<'_>, prices: CappedPrices<'_>, row: usize) -> i64 {
        asked!(self, lot => lot.amount(cells, prices, row))
    }

    fn best(&self, prices: CappedPrices<'_>) -> i64 {
        asked!(self, lot => lot.best(prices))
    }

    fn broken_row(&self, cells: Cells<'_>, prices: CappedPrices<'_>) -> Option<usize> {
        asked!(self, lot => lot.broken_row(cells, prices))
    }
}

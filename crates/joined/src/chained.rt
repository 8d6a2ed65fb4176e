ghost use Rattle.std.specs.Prelude.{◌≡◌, ◌-◌, ◌<◌, ◌≤◌};
ghost use Rattle.lot.specs.Page.{table_of, Sized, Ready};

use crate::chain::Chain;
use crate::joined::COUNTED;
use crate::parts::{Links, Part, Parts};
use lot::lot::Lot;
use lot::views::{CappedPrices, Cells};

// Lots one after another as one lot.
#[derive(Clone, Copy)]
pub struct Chained<C>(pub C);

impl<C: Chain> Chained<C> {
    // That cells are the lots' is asked at each call, as by the questions themselves (lot.rt).
    // The parts of the cells, from the first lot's to the last's.
    fn parts<'a>(&self, cells: Cells<'a>) -> Parts<'a, C>
        requires { Sized (C.Chain.meaning self.now.0) cells.bytes.now }
        ensures chain { result.chain ≡ self.now.0 }
        ensures rest { result.rest.bytes.now ≡ cells.entry.bytes.now }
        ensures passed { result.passed ≡ 0 }
    {
        Parts {
            chain: self.0,
            rest: cells,
            passed: 0,
        }
    }

    // The part that a row stands in.
    fn part_of_row<'a>(&self, cells: Cells<'a>, row: usize) -> Part<'a, C::Link>
        requires ready { Ready (C.Chain.meaning self.now.0) cells.bytes.now }
        requires row { row < (C.Chain.meaning self.now.0).rows }
        ensures ready { Ready (C.Link.Lot.meaning result.lot) result.cells.bytes.now }
        ensures before { result.before ≤ row }
        ensures row { row - result.before < (C.Link.Lot.meaning result.lot).rows }
        ensures worth { (C.Link.Lot.meaning result.lot).worth (table_of result.cells.bytes.now) (row - result.before) ≡ (C.Chain.meaning self.now.0).worth (table_of cells.entry.bytes.now) row }
        ensures net { (C.Link.Lot.meaning result.lot).net (table_of result.cells.bytes.now) (row - result.before) ≡ (C.Chain.meaning self.now.0).net (table_of cells.entry.bytes.now) row }
    {
        let Some(part) = self.parts(cells).find(|part| row - part.before < part.rows) else {
            unreachable()
        };
        part
    }
}

impl<C: Chain> Lot for Chained<C> {
    ghost meaning = { λ x. C.Chain.meaning x.0 };

    ghost idle = { λ x. (C.Chain.duties x.0).idle };

    ghost greatest = { λ x. (C.Chain.duties x.0).greatest };

    ghost settled = { λ x. (C.Chain.duties x.0).settled };

    ghost unharmed = { λ x. (C.Chain.duties x.0).unharmed };

    ghost limited = { λ x. (C.Chain.duties x.0).limited };

    fn row_count(&self) -> usize {
        Links(self.0).fold(0, |total, lot| (total + lot.row_count()).min(COUNTED))
    }

    fn cell_row_count(&self) -> usize {
        Links(self.0).fold(0, |total, lot| (total + lot.cell_row_count()).min(COUNTED))
    }

    fn refused_row(&self, cells: Cells<'_>) -> Option<usize> {
        self.parts(cells).find_map(|part| {
            let refused = part.lot.refused_row(part.cells)?;
            Some(part.before + refused)
        })
    }

    fn net(&self, cells: Cells<'_>, area: usize, quarter: usize) -> i64 {
        self.parts(cells)
            .map(|part| part.lot.net(part.cells, area, quarter))
            .sum()
    }

    fn worth(&self, cells: Cells<'_>, row: usize) -> i64 {
        let part = self.part_of_row(cells, row);
        part.lot.worth(part.cells, row - part.before)
    }

    fn amount(&self, cells: Cells<'_>, prices: CappedPrices<'_>, row: usize) -> i64 {
        let part = self.part_of_row(cells, row);
        part.lot.amount(part.cells, prices, row - part.before)
    }

    fn best(&self, prices: CappedPrices<'_>) -> i64 {
        Links(self.0).map(|lot| lot.best(prices)).sum()
    }

    fn broken_row(&self, cells: Cells<'_>, prices: CappedPrices<'_>) -> Option<usize> {
        self.parts(cells).find_map(|part| {
            let broken = part.lot.broken_row(part.cells, prices)?;
            Some(part.before + broken)
        })
    }
}

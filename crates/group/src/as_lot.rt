ghost use Rattle.std.specs.Prelude.{◌≡◌, ℕ, ◌*◌, ◌≤◌, not, map, length, take, if◌then◌else◌};
ghost use Rattle.lot.specs.Page.{table_of};
ghost use Rattle.lot.specs.Single.{at_most_one, largest};
ghost use Rattle.group.specs.Group.{member_of, grouping};
ghost use Rattle.group.specs.Laws.Groups.{grouping_duties};

use crate::group::ExclusiveGroup;
use bid::lawful::Bid;
use joined::chained::Chained;
use joined::heading::Heading;
use joined::joined::Joined;
use joined::slice::Slice;
use lot::lot::Lot;
use lot::quarters::is_idle;
use lot::views::{CappedPrices, Cells};

// Is at most one of the first cell rows not all zero?
fn at_most_one(cells: Cells<'_>, rows: usize) -> bool
    requires { 17 * rows ≤ length cells.bytes.now }
    ensures { result ≡ at_most_one rows (table_of cells.entry.bytes.now) }
{
    (0..rows).filter(|&k| !is_idle(&cells.row(k))).count() <= 1
}

// The largest best of the bids, or 0.
fn largest_best(bids: &[Bid], prices: CappedPrices<'_>) -> i64
    ensures { result ≡ largest (map member_of bids.now) (table_of prices.entry.bytes.now) }
{
    bids.iter()
        .map(|bid| bid.best(prices))
        .fold(0, |top, best| best.max(top))
}

impl ExclusiveGroup {
    // The group's own row, and the members' rows after it.
    fn rows(&self) -> Joined<Heading, Chained<Slice<'_, Bid>>>
        ensures { result.1.0.lots.now ≡ take self.now.size.members self.now.members }
    {
        Joined(
            Heading,
            Chained(Slice {
                lots: self.members(),
            }),
        )
    }
}

impl Lot for ExclusiveGroup {
    ghost meaning = { λ x. grouping (take x.size.members x.members) };

    ghost idle = { λ x. (grouping_duties (take x.size.members x.members)).idle };

    ghost greatest = { λ x. (grouping_duties (take x.size.members x.members)).greatest };

    ghost settled = { λ x. (grouping_duties (take x.size.members x.members)).settled };

    ghost unharmed = { λ x. (grouping_duties (take x.size.members x.members)).unharmed };

    ghost limited = { λ x. (grouping_duties (take x.size.members x.members)).limited };

    fn row_count(&self) -> usize {
        self.rows().row_count()
    }

    fn cell_row_count(&self) -> usize {
        self.rows().cell_row_count()
    }

    // The members are tried in order, and then the group's own rule, at its row.
    fn refused_row(&self, cells: Cells<'_>) -> Option<usize> {
        let own = || (!at_most_one(cells, self.members().len())).then_some(0);
        self.rows().refused_row(cells).or_else(own)
    }

    fn net(&self, cells: Cells<'_>, area: usize, quarter: usize) -> i64 {
        self.rows().net(cells, area, quarter)
    }

    fn worth(&self, cells: Cells<'_>, row: usize) -> i64 {
        self.rows().worth(cells, row)
    }

    fn amount(&self, cells: Cells<'_>, prices: CappedPrices<'_>, row: usize) -> i64 {
        self.rows().amount(cells, prices, row)
    }

    fn best(&self, prices: CappedPrices<'_>) -> i64 {
        largest_best(self.members(), prices)
    }

    fn broken_row(&self, cells: Cells<'_>, prices: CappedPrices<'_>) -> Option<usize> {
        self.rows().broken_row(cells, prices)
    }
}

ghost use Rattle.std.specs.Prelude.{◌≡◌, ◌<◌, ◌&&◌, pos, ◌*ℤ◌, int_le};
ghost use Rattle.units.specs.Side.{is_upward};
ghost use Rattle.lot.specs.Sum.{every, same_z};
ghost use Rattle.lot.specs.Direction.{towards, TermsOf};
ghost use Rattle.lot.specs.Page.{at, four, AllWithin};
ghost use Rattle.lot.specs.Single.{single};
ghost use Rattle.lot.specs.Laws.Joins.{settled_always};
ghost use Rattle.lot.specs.Laws.Singles.{single_idle, single_greatest, single_unharmed, single_limited};
ghost use Rattle.bid.specs.Bidding.{most, bid_trade, in_range, in_ratio, bidding};
ghost use Rattle.bid.specs.Laws.Bids.{bid_duties};

use crate::fields::BidQuarter;
use crate::lawful::Bid;
use lot::lot::Lot;
use lot::quarters::{dot, is_idle, product};
use lot::trade::{Direction, TradeTerms};
use lot::views::{CappedPrices, Cells};
use units::side::Side;

// An upward bid sells, a downward one buys.
// A need turns this round: one function for both would have to be told which, and be no plainer.
fn direction(side: Side) -> Direction
    ensures { result ≡ towards (is_upward side) }
{
    match side {
        Side::Upward => Direction::Sells,
        Side::Downward => Direction::Buys,
    }
}

// Does a cell lie from the quarter's minimum to its maximum?
fn between(cell: i32, quarter: &BidQuarter) -> bool
    ensures { result ≡ (int_le (pos quarter.now.minimum) cell && int_le cell (pos quarter.now.maximum)) }
{
    (i64::from(quarter.minimum)..=i64::from(quarter.maximum)).contains(&i64::from(cell))
}

// Are two cells one share of their maxima?
fn share(cell: i32, other_most: i32, other: i32, most: i32) -> bool
    ensures { result ≡ same_z (cell *ℤ other_most) (other *ℤ most) }
{
    product(cell, other_most) == product(other, most)
}

// Is a cell in one share with each cell before it?
fn shares_before(cells: &[i32; 4], most: &[i32; 4], t: usize) -> bool
    requires { t < 4 }
    ensures { result ≡ every t (λ u. same_z (at cells.now t *ℤ at most.now u) (at cells.now u *ℤ at most.now t)) }
{
    (0..t).all(|u| share(cells[t], most[u], cells[u], most[t]))
}

impl Bid {
    // A need's quarters are of another type: what both do here is a line or two each, and one over both would take a closure.
    // The prices by quarter.
    fn limits(&self) -> [i32; 4]
        ensures same { result ≡ four (bid_trade self.now.fields).limit }
        ensures within { AllWithin 9999999 result }
    {
        self.fields.quarters.map(|quarter| quarter.price)
    }

    // The maxima by quarter.
    fn maxima(&self) -> [i32; 4]
        ensures same { result ≡ four (most self.now.fields) }
        ensures within { AllWithin 99999 result }
    {
        self.fields.quarters.map(|quarter| quarter.maximum as i32)
    }

    fn in_range(&self, cells: &[i32; 4]) -> bool
        ensures { result ≡ in_range self.now.fields (at cells.now) }
    {
        cells
            .iter()
            .zip(&self.fields.quarters)
            .all(|(cell, quarter)| between(*cell, quarter))
    }

    fn in_ratio(&self, cells: &[i32; 4]) -> bool
        ensures { result ≡ in_ratio self.now.fields (at cells.now) }
    {
        let most = self.maxima();
        (0..4).all(|t| shares_before(cells, &most, t))
    }

    // All zero, or each in its range and all in one ratio.
    fn admits(&self, cells: &[i32; 4]) -> bool
        ensures { result ≡ (bidding self.now.fields).admits (at cells.now) }
    {
        is_idle(cells) || self.in_range(cells) && self.in_ratio(cells)
    }

    // The trade that the bid offers.
    fn terms(&self) -> TradeTerms
        ensures { TermsOf (bid_trade self.now.fields) result }
    {
        TradeTerms {
            area: usize::from(self.fields.area),
            direction: direction(self.fields.side),
            limits: self.limits(),
        }
    }
}

// A need answers six of the eight questions alike: one impl over both is refused, since it overlaps that of lent lots (`&L`).
impl Lot for Bid {
    ghost meaning = { λ x. single (bidding x.fields) };

    ghost idle = { λ x few. single_idle (bidding x.fields) (bid_duties x.fields x.placed x.fine) };

    ghost greatest = { λ x few. single_greatest (bidding x.fields) (bid_duties x.fields x.placed x.fine) };

    ghost settled = { λ x few. settled_always (single (bidding x.fields)) };

    ghost unharmed = { λ x few. single_unharmed (bidding x.fields) (bid_duties x.fields x.placed x.fine) };

    ghost limited = { λ x few. single_limited (bidding x.fields) (bid_duties x.fields x.placed x.fine) };

    fn row_count(&self) -> usize {
        1
    }

    fn cell_row_count(&self) -> usize {
        1
    }

    fn refused_row(&self, cells: Cells<'_>) -> Option<usize> {
        (!self.admits(&cells.row(0))).then_some(0)
    }

    fn net(&self, cells: Cells<'_>, area: usize, quarter: usize) -> i64 {
        self.terms().net(cells.cell(0, quarter), area)
    }

    fn worth(&self, cells: Cells<'_>, _row: usize) -> i64 {
        self.terms().worth(&cells.row(0))
    }

    fn amount(&self, cells: Cells<'_>, prices: CappedPrices<'_>, _row: usize) -> i64 {
        self.terms().amount(&cells.row(0), prices)
    }

    fn best(&self, prices: CappedPrices<'_>) -> i64 {
        dot(&self.maxima(), &self.terms().gains(prices)).max(0)
    }

    fn broken_row(&self, cells: Cells<'_>, prices: CappedPrices<'_>) -> Option<usize> {
        let surplus = dot(&cells.row(0), &self.terms().gains(prices));
        (surplus < 0).then_some(0)
    }
}

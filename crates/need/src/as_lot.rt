ghost use Rattle.std.specs.Prelude.{◌≡◌, not, pos, ◌*ℤ◌, int_le};
ghost use Rattle.std.specs.Int.{int_max};
ghost use Rattle.units.specs.Side.{is_upward};
ghost use Rattle.lot.specs.Sum.{sum, every};
ghost use Rattle.lot.specs.Direction.{towards, TermsOf};
ghost use Rattle.lot.specs.Page.{at, four, AllWithin};
ghost use Rattle.lot.specs.Single.{single};
ghost use Rattle.lot.specs.Laws.Joins.{settled_always};
ghost use Rattle.lot.specs.Laws.Singles.{single_idle, single_greatest, single_unharmed, single_limited};
ghost use Rattle.need.specs.Needing.{wanted, at_any_price, need_trade, needing};
ghost use Rattle.need.specs.Laws.Needs.{need_duties};

use crate::elasticity::Elasticity;
use crate::lawful::Need;
use lot::lot::Lot;
use lot::quarters::product;
use lot::trade::{Direction, TradeTerms};
use lot::views::{CappedPrices, Cells};
use units::limit::CAP;
use units::side::Side;

// An upward need buys, a downward one sells.
// A bid turns this round: one function for both would have to be told which, and be no plainer.
fn direction(side: Side) -> Direction
    ensures { result ≡ towards (not (is_upward side)) }
{
    match side {
        Side::Upward => Direction::Buys,
        Side::Downward => Direction::Sells,
    }
}

// What an inelastic need counts at.
fn at_any_price(side: Side) -> i32
    ensures { result ≡ at_any_price side }
{
    match side {
        Side::Upward => CAP,
        Side::Downward => -CAP,
    }
}

// What a quarter earns at most: all of its maximum, or nothing.
fn most_earned(maximum: i32, gain: i32) -> i64
    ensures { result ≡ int_max (pos 0) (maximum *ℤ gain) }
{
    product(maximum, gain).max(0)
}

// That numbers are small is asked at the call: a type for it would be made of a row and taken apart one call below.
// What the four quarters earn at most.
fn most_earned_in(maxima: &[i32; 4], gains: &[i32; 4]) -> i64
    requires maxima { AllWithin 99999 maxima.now }
    requires gains { AllWithin 19999998 gains.now }
    ensures { result ≡ sum 4 (λ t. int_max (pos 0) (at maxima.now t *ℤ at gains.now t)) }
{
    maxima
        .iter()
        .zip(gains)
        .map(|(maximum, gain)| most_earned(*maximum, *gain))
        .sum()
}

// Does none of the four quarters lose?
fn no_loss_in(cells: &[i32; 4], gains: &[i32; 4]) -> bool
    ensures { result ≡ every 4 (λ t. int_le (pos 0) (at cells.now t *ℤ at gains.now t)) }
{
    cells
        .iter()
        .zip(gains)
        .all(|(cell, gain)| product(*cell, *gain) >= 0)
}

impl Need {
    // A bid's quarters are of another type: what both do here is a line or two each, and one over both would take a closure.
    // The prices by quarter.
    fn limits(&self) -> [i32; 4]
        ensures { result ≡ four (need_trade self.now.fields).limit }
    {
        match self.fields.elasticity {
            Elasticity::Elastic => self.fields.quarters.map(|quarter| quarter.price),
            Elasticity::Inelastic => [at_any_price(self.fields.side); 4],
        }
    }

    // The maxima by quarter.
    fn maxima(&self) -> [i32; 4]
        ensures same { result ≡ four (wanted self.now.fields) }
        ensures small { AllWithin 99999 result }
    {
        self.fields.quarters.map(|quarter| quarter.maximum as i32)
    }

    // Each quarter by itself, from nothing to its maximum.
    fn admits(&self, cells: &[i32; 4]) -> bool
        ensures { result ≡ (needing self.now.fields).admits (at cells.now) }
    {
        cells
            .iter()
            .zip(&self.maxima())
            .all(|(cell, maximum)| (0..=*maximum).contains(cell))
    }

    // The trade that the need asks for.
    fn terms(&self) -> TradeTerms
        ensures { TermsOf (need_trade self.now.fields) result }
    {
        TradeTerms {
            area: usize::from(self.fields.area),
            direction: direction(self.fields.side),
            limits: self.limits(),
        }
    }
}

impl Lot for Need {
    ghost meaning = { λ x. single (needing x.fields) };

    ghost idle = { λ x few. single_idle (needing x.fields) (need_duties x.fields x.placed x.fine) };

    ghost greatest = { λ x few. single_greatest (needing x.fields) (need_duties x.fields x.placed x.fine) };

    ghost settled = { λ x few. settled_always (single (needing x.fields)) };

    ghost unharmed = { λ x few. single_unharmed (needing x.fields) (need_duties x.fields x.placed x.fine) };

    ghost limited = { λ x few. single_limited (needing x.fields) (need_duties x.fields x.placed x.fine) };

    fn row_count(&self) -> usize {
        1
    }

    fn cell_row_count(&self) -> usize {
        1
    }

    fn refused_row(&self, cells: Cells<'_>) -> Option<usize> {
        (!self.admits(&cells.row(0))).then_some(0)
    }

    fn net(&self, cells: Cells<'_>, area: usize, quarter: usize) -> i64 {
        self.terms().net(cells.cell(0, quarter), area)
    }

    fn worth(&self, cells: Cells<'_>, _row: usize) -> i64 {
        self.terms().worth(&cells.row(0))
    }

    fn amount(&self, cells: Cells<'_>, prices: CappedPrices<'_>, _row: usize) -> i64 {
        self.terms().amount(&cells.row(0), prices)
    }

    fn best(&self, prices: CappedPrices<'_>) -> i64 {
        most_earned_in(&self.maxima(), &self.terms().gains(prices))
    }

    fn broken_row(&self, cells: Cells<'_>, prices: CappedPrices<'_>) -> Option<usize> {
        let kept = no_loss_in(&cells.row(0), &self.terms().gains(prices));
        (!kept).then_some(0)
    }
}

ghost use Rattle.std.specs.Prelude.{◌≡◌, MatchResult, Ok, Err};
ghost use Rattle.asked.specs.Asked.{may_ask, may_hold, may_price, may_figure, few, held, admitted, passes, priced};

use crate::unasked::Unasked;
use lot::lot::{Lot, MOST_LOT_ROWS};
use lot::views::{CappedPrices, Cells, Prices, ROW_BYTES};

// Nothing, or why a test fails.
pub(crate) fn passed(test: bool, why: Unasked) -> Result<(), Unasked>
    ensures { result ≡ passes test why }
{
    if test { Ok(()) } else { Err(why) }
}

// Has the lot few rows enough to be questioned?
pub(crate) fn few<L: Lot>(lot: &L) -> Result<(), Unasked>
    ensures { result ≡ few (L.Lot.meaning lot.now) }
{
    passed(lot.row_count() <= MOST_LOT_ROWS, Unasked::TooManyRows)
}

// Are these cells for the lot?
pub(crate) fn held<L: Lot>(lot: &L, cells: Cells<'_>) -> Result<(), Unasked>
    ensures { result ≡ held (L.Lot.meaning lot.now) cells.entry.bytes.now }
{
    few(lot)?;
    let long = cells.bytes.len() == ROW_BYTES * lot.cell_row_count();
    passed(long, Unasked::OtherCells)
}

// Are these cells that the lot admits?
pub(crate) fn admitted<L: Lot>(lot: &L, cells: Cells<'_>) -> Result<(), Unasked>
    ensures { result ≡ admitted (L.Lot.meaning lot.now) cells.entry.bytes.now }
{
    held(lot, cells)?;
    passed(lot.refused_row(cells).is_none(), Unasked::RefusedCells)
}

// The same prices, if they are those of the 32 areas, each within the cap.
pub(crate) fn priced(prices: Prices<'_>) -> Result<CappedPrices<'_>, Unasked>
    ensures { MatchResult result (λ p. (priced prices.entry.bytes.now ≡ Ok tt) × (p.bytes.now ≡ prices.entry.bytes.now)) (λ e. priced prices.entry.bytes.now ≡ Err e) }
{
    prices.capped().ok_or(Unasked::OtherPrices)
}

pub fn may_ask<L: Lot>(lot: &L) -> bool
    ensures { result ≡ may_ask (L.Lot.meaning lot.now) }
{
    few(lot).is_ok()
}

pub fn may_hold<L: Lot>(lot: &L, cells: Cells<'_>) -> bool
    ensures { result ≡ may_hold (L.Lot.meaning lot.now) cells.entry.bytes.now }
{
    held(lot, cells).is_ok()
}

pub fn may_price(prices: Prices<'_>) -> bool
    ensures { result ≡ may_price prices.entry.bytes.now }
{
    priced(prices).is_ok()
}

pub fn may_figure<L: Lot>(lot: &L, cells: Cells<'_>) -> bool
    ensures { result ≡ may_figure (L.Lot.meaning lot.now) cells.entry.bytes.now }
{
    admitted(lot, cells).is_ok()
}

ghost use Rattle.std.specs.Prelude.{◌≡◌, ℕ};
ghost use Rattle.std.specs.Result.{result_ok};
ghost use Rattle.asked.specs.Asked.{refused_of, net_of, worth_of, amount_of, best_of, broken_of, Ceiling};
ghost use Rattle.asked.specs.Asked.{refused_told, net_told, worth_told, amount_told, best_told, broken_told};

use crate::may::{admitted, few, held, passed, priced};
use crate::unasked::Unasked;
use lot::lot::Lot;
use lot::views::{Cells, Prices};

// The row that is named for admission: none where the cells are admitted.
pub fn refused<L: Lot>(lot: &L, cells: Cells<'_>) -> Result<Option<usize>, Unasked>
    ensures answer { result_ok result ≡ refused_of (L.Lot.meaning lot.now) cells.entry.bytes.now }
    ensures told { result ≡ refused_told (L.Lot.meaning lot.now) cells.entry.bytes.now }
{
    held(lot, cells)?;
    Ok(lot.refused_row(cells))
}

// The lot's net at a place.
pub fn net<L: Lot>(lot: &L, cells: Cells<'_>, area: usize, quarter: usize) -> Result<i64, Unasked>
    ensures answer { result_ok result ≡ net_of (L.Lot.meaning lot.now) cells.entry.bytes.now area quarter }
    ensures told { result ≡ net_told (L.Lot.meaning lot.now) cells.entry.bytes.now area quarter }
{
    admitted(lot, cells)?;
    passed(area < 32 && quarter < 4, Unasked::NoPlace)?;
    Ok(lot.net(cells, area, quarter))
}

// What a row is worth.
pub fn worth<L: Lot>(lot: &L, cells: Cells<'_>, row: usize) -> Result<i64, Unasked>
    ensures answer { result_ok result ≡ worth_of (L.Lot.meaning lot.now) cells.entry.bytes.now row }
    ensures told { result ≡ worth_told (L.Lot.meaning lot.now) cells.entry.bytes.now row }
{
    admitted(lot, cells)?;
    passed(row < lot.row_count(), Unasked::NoPlace)?;
    Ok(lot.worth(cells, row))
}

// What a row comes to at the prices.
pub fn amount<L: Lot>(
    lot: &L,
    cells: Cells<'_>,
    prices: Prices<'_>,
    row: usize,
) -> Result<i64, Unasked>
    ensures answer { result_ok result ≡ amount_of (L.Lot.meaning lot.now) cells.entry.bytes.now prices.entry.bytes.now row }
    ensures told { result ≡ amount_told (L.Lot.meaning lot.now) cells.entry.bytes.now prices.entry.bytes.now row }
{
    admitted(lot, cells)?;
    let prices = priced(prices)?;
    passed(row < lot.row_count(), Unasked::NoPlace)?;
    Ok(lot.amount(cells, prices, row))
}

// The greatest surplus at the prices: a ceiling on the welfare of every feasible clearing.
pub fn best<L: Lot>(lot: &L, prices: Prices<'_>) -> Result<i64, Unasked>
    ensures answer { result_ok result ≡ best_of (L.Lot.meaning lot.now) prices.entry.bytes.now }
    ensures told { result ≡ best_told (L.Lot.meaning lot.now) prices.entry.bytes.now }
    ensures ceiling { Ceiling (L.Lot.meaning lot.now) }
{
    few(lot)?;
    let prices = priced(prices)?;
    Ok(lot.best(prices))
}

// The row that is named for the price rule: none where it is kept.
pub fn broken<L: Lot>(
    lot: &L,
    cells: Cells<'_>,
    prices: Prices<'_>,
) -> Result<Option<usize>, Unasked>
    ensures answer { result_ok result ≡ broken_of (L.Lot.meaning lot.now) cells.entry.bytes.now prices.entry.bytes.now }
    ensures told { result ≡ broken_told (L.Lot.meaning lot.now) cells.entry.bytes.now prices.entry.bytes.now }
{
    admitted(lot, cells)?;
    let prices = priced(prices)?;
    Ok(lot.broken_row(cells, prices))
}

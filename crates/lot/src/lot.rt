ghost use Rattle.std.specs.Prelude.{◌≡◌, ℕ, ◌<◌, ◌≤◌, min};
ghost use Rattle.lot.specs.Meaning.{Meaning, cell_rows, lot_net, amount as amount_of};
ghost use Rattle.lot.specs.Duties.{Idle, Greatest, Settled, Unharmed, Limited, most_lot_rows};
ghost use Rattle.lot.specs.Page.{table_of, Sized, Ready};

use crate::views::{CappedPrices, Cells};

// The most rows of a lot that is questioned. A count goes one further, and no more.
pub const MOST_LOT_ROWS: usize = 4_096;

// That cells are the lot's is asked at each question: it is a fact of lot and cells together, and joined lots split both.

// A lot: anything that can move power in the hour. What it means is one value, fixed when the lot is made; it owes the
// five laws, and answers eight questions by its meaning. Beyond the counts it is questioned only with at most 4,096
// rows, at prices within the cap, and for figures only with cells that it admits.
pub trait Lot {
    ghost meaning: { Self → Meaning };

    // All-zero cells are admitted, with zero nets and worths.
    ghost idle: { (x : Self) → (meaning x).rows ≤ most_lot_rows → Idle (meaning x) };

    // At any prices no admitted cells have a surplus above best, and some reach it.
    ghost greatest: { (x : Self) → (meaning x).rows ≤ most_lot_rows → Greatest (meaning x) };

    // The amounts of all rows sum to the lot's net at the prices.
    ghost settled: { (x : Self) → (meaning x).rows ≤ most_lot_rows → Settled (meaning x) };

    // Where the price rule is kept no row's worth plus amount is negative.
    ghost unharmed: { (x : Self) → (meaning x).rows ≤ most_lot_rows → Unharmed (meaning x) };

    // Each row's nets, worth and amount are bounded, and best by as many rows.
    ghost limited: { (x : Self) → (meaning x).rows ≤ most_lot_rows → Limited (meaning x) };

    // How many rows, counted up to 4,097.
    fn row_count(&self) -> usize
        ensures { result ≡ min (meaning self.now).rows 4097 };

    // How many of them hold cells, counted up to 4,097.
    fn cell_row_count(&self) -> usize
        ensures { result ≡ min (cell_rows (meaning self.now)) 4097 };

    // None where the cells are admitted, else the row that is named.
    fn refused_row(&self, cells: Cells<'_>) -> Option<usize>
        requires { Sized (meaning self.now) cells.bytes.now }
        ensures { result ≡ (meaning self.now).refused (table_of cells.entry.bytes.now) };

    // What the lot puts into an area in a quarter.
    fn net(&self, cells: Cells<'_>, area: usize, quarter: usize) -> i64
        requires ready { Ready (meaning self.now) cells.bytes.now }
        requires area { area < 32 }
        requires quarter { quarter < 4 }
        ensures { result ≡ lot_net (meaning self.now) (table_of cells.entry.bytes.now) area quarter };

    // What a row is worth, in grains.
    fn worth(&self, cells: Cells<'_>, row: usize) -> i64
        requires ready { Ready (meaning self.now) cells.bytes.now }
        requires row { row < (meaning self.now).rows }
        ensures { result ≡ (meaning self.now).worth (table_of cells.entry.bytes.now) row };

    // What a row's nets come to at the prices, in grains.
    fn amount(&self, cells: Cells<'_>, prices: CappedPrices<'_>, row: usize) -> i64
        requires ready { Ready (meaning self.now) cells.bytes.now }
        requires row { row < (meaning self.now).rows }
        ensures { result ≡ amount_of (meaning self.now) (table_of cells.entry.bytes.now) (table_of prices.entry.bytes.now) row };

    // The greatest surplus at the prices, in grains.
    fn best(&self, prices: CappedPrices<'_>) -> i64
        requires few { (meaning self.now).rows ≤ most_lot_rows }
        ensures { result ≡ (meaning self.now).best (table_of prices.entry.bytes.now) };

    // None where the price rule is kept, else the row that is named.
    fn broken_row(&self, cells: Cells<'_>, prices: CappedPrices<'_>) -> Option<usize>
        requires ready { Ready (meaning self.now) cells.bytes.now }
        ensures { result ≡ (meaning self.now).broken (table_of cells.entry.bytes.now) (table_of prices.entry.bytes.now) };
}

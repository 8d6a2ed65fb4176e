ghost use Rattle.std.specs.Prelude.{◌≡◌, ◌*◌, length};
ghost use Rattle.std.specs.Result.{result_err};
ghost use Rattle.lot.specs.Meaning.{welfare as welfare_of};
ghost use Rattle.lot.specs.Page.{table_of, Sized, Ready};
ghost use Rattle.judge.specs.Judge.{balance_fault, market_fault};

use lot::fault::MarketFault;
use lot::lot::Lot;
use lot::views::Cells;
use page::proposal::Proposal;

// That cells are the lot's is asked at each call, as by the questions themselves (lot.rt).

// The smallest place, 4 × area + quarter, where power is left over or missing.
fn unbalanced<L: Lot>(lot: &L, cells: Cells<'_>) -> Option<usize>
    requires { Ready (L.Lot.meaning lot.now) cells.bytes.now }
    ensures { result ≡ balance_fault (L.Lot.meaning lot.now) (table_of cells.entry.bytes.now) }
{
    'search: {
        for area in 0..32 {
            for quarter in 0..4 {
                if lot.net(cells, area, quarter) != 0 {
                    break 'search Some(4 * area + quarter);
                }
            }
        }
        None
    }
}

// What a proposed clearing breaks in the market: its cells are tried first, and its prices last.
pub fn weigh<L: Lot>(lot: &L, proposal: Proposal<'_>) -> Result<(), MarketFault>
    requires { Sized (L.Lot.meaning lot.now) proposal.cells.bytes.now }
    ensures { result_err result ≡ market_fault (L.Lot.meaning lot.now) (table_of proposal.entry.cells.bytes.now) (table_of proposal.entry.prices.bytes.now) }
{
    let Proposal { cells, prices } = proposal;
    if let Some(row) = lot.refused_row(cells) {
        return Err(MarketFault::Refused(row));
    }
    if let Some(place) = unbalanced(lot, cells) {
        return Err(MarketFault::Unbalanced(place));
    }
    if let Some(row) = lot.broken_row(cells, prices) {
        return Err(MarketFault::Broken(row));
    }
    Ok(())
}

// What all rows are worth together, in grains.
pub fn welfare<L: Lot>(lot: &L, cells: Cells<'_>) -> i64
    requires { Ready (L.Lot.meaning lot.now) cells.bytes.now }
    ensures { result ≡ welfare_of (L.Lot.meaning lot.now) (table_of cells.entry.bytes.now) }
{
    (0..lot.row_count()).map(|row| lot.worth(cells, row)).sum()
}

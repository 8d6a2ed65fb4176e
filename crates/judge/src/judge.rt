ghost use Rattle.std.specs.Prelude.{◌≡◌, ◌↔◌, IsOk, IfOk};
ghost use Rattle.lot.specs.Meaning.{Feasible};
ghost use Rattle.lot.specs.Page.{table_of, Sized};
ghost use Rattle.judge.specs.Judge.{first_broken};
ghost use Rattle.judge.specs.Figures.{figures_of, figures as figures_on, verdict, Accepted, Covers};

use crate::fault::JudgeFault;
use crate::weigh::{weigh, welfare};
use lot::lot::{Lot, MOST_LOT_ROWS};
use page::proposal::Proposal;

// The figures of an accepted page, in grains.
#[derive(Clone, Copy, PartialEq, Eq, Debug)]
pub struct Figures {
    // What all rows are worth together.
    pub welfare: i64,
    // How far that is below the best surplus at the page's prices.
    pub foregone: i64,
}

impl Figures {
    // That cells are the lot's is asked at the call, as by the questions themselves (lot.rt).
    // The figures of a clearing that is feasible.
    fn of<L: Lot>(lot: &L, proposal: Proposal<'_>) -> Figures
        requires sized { Sized (L.Lot.meaning lot.now) proposal.cells.bytes.now }
        requires feasible { Feasible (L.Lot.meaning lot.now) (table_of proposal.cells.bytes.now) }
        ensures { result ≡ figures_of (L.Lot.meaning lot.now) (table_of proposal.entry.cells.bytes.now) (table_of proposal.entry.prices.bytes.now) }
    {
        let welfare = welfare(lot, proposal.cells);
        Figures {
            welfare,
            foregone: lot.best(proposal.prices) - welfare,
        }
    }
}

// The figures of the clearing that a page proposes for a lot, or what the page is refused for first.
pub fn judge<L: Lot>(lot: &L, page: &[u8]) -> Result<Figures, JudgeFault>
    ensures answer { result ≡ verdict (first_broken (L.Lot.meaning lot.now) page.now) (figures_on (L.Lot.meaning lot.now) page.now) }
    ensures accepted { IsOk result ↔ Accepted (L.Lot.meaning lot.now) page.now }
    ensures ceiling { IfOk result (Covers (L.Lot.meaning lot.now)) }
{
    if lot.row_count() > MOST_LOT_ROWS {
        return Err(JudgeFault::Rows);
    }
    let proposal = Proposal::read(page, lot.cell_row_count())?;
    weigh(lot, proposal)?;
    Ok(Figures::of(lot, proposal))
}

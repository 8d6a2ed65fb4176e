ghost use Rattle.std.specs.Prelude.{◌≡◌, ◌+◌, ◌*◌, ◌≤◌, take, drop, MatchOption};
ghost use Rattle.std.specs.Iterator.{at_most};
ghost use Rattle.lot.specs.Meaning.{cell_rows};
ghost use Rattle.lot.specs.Duties.{most_lot_rows};
ghost use Rattle.lot.specs.Join.{Parted, nothing};
ghost use Rattle.lot.specs.Page.{Sized};

use crate::chain::Chain;
use crate::joined::both_parts;
use lot::lot::Lot;
use lot::views::Cells;

// The lots of a chain, from the first to the last.
#[derive(Drop)]
pub(crate) struct Links<C>(pub(crate) C);

impl<C: Chain> Iterator for Links<C> {
    type Item = C::Link;

    ghost next_gives = { λ s r t. MatchOption r (C.Chain.meaning s.0 ≡ nothing) (λ lot. Parted (C.Chain.meaning s.0) (C.Link.Lot.meaning lot) (C.Chain.meaning t.0)) };

    ghost remaining = { λ s. at_most (C.Chain.left s.0) };

    fn next(&mut self) -> Option<C::Link> {
        let (lot, after) = self.0.split()?;
        self.0 = after;
        Some(lot)
    }
}

// A lot of a chain, the cells that are its own, how many rows stand before it, and how many it has. A lot may be many,
// and counting it a walk: it is counted once for each.
#[derive(Drop)]
pub(crate) struct Part<'a, L> {
    pub(crate) lot: L,
    pub(crate) cells: Cells<'a>,
    pub(crate) before: usize,
    pub(crate) rows: usize,
}

// The parts of a chain, from the first to the last.
#[derive(Drop)]
pub(crate) struct Parts<'a, C: Chain> {
    pub(crate) chain: C,
    pub(crate) rest: Cells<'a>,
    pub(crate) passed: usize,
    ghost sized: { Sized (C.Chain.meaning chain) rest.bytes.now },
    ghost few: { passed + (C.Chain.meaning chain).rows ≤ most_lot_rows },
}

impl<'a, C: Chain> Iterator for Parts<'a, C> {
    type Item = Part<'a, C::Link>;

    ghost next_gives = { λ s r t. MatchOption r (C.Chain.meaning s.chain ≡ nothing) (λ p. record {
      two : Parted (C.Chain.meaning s.chain) (C.Link.Lot.meaning p.lot) (C.Chain.meaning t.chain);
      front : p.cells.bytes.now ≡ take (17 * cell_rows (C.Link.Lot.meaning p.lot)) s.rest.bytes.now;
      rest : t.rest.bytes.now ≡ drop (17 * cell_rows (C.Link.Lot.meaning p.lot)) s.rest.bytes.now;
      before : p.before ≡ s.passed;
      rows : p.rows ≡ (C.Link.Lot.meaning p.lot).rows;
      passed : t.passed ≡ s.passed + (C.Link.Lot.meaning p.lot).rows;
    }) };

    ghost remaining = { λ s. at_most (C.Chain.left s.chain) };

    fn next(&mut self) -> Option<Part<'a, C::Link>> {
        let (lot, chain) = self.chain.split()?;
        let (cells, rest) = both_parts(&lot, self.rest);
        let before = self.passed;
        let rows = lot.row_count();
        *self = Parts {
            chain,
            rest,
            passed: before + rows,
        };
        Some(Part {
            lot,
            cells,
            before,
            rows,
        })
    }
}

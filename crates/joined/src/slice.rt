ghost use Rattle.std.specs.Prelude.{length};
ghost use Rattle.lot.specs.Join.{together};
ghost use Rattle.lot.specs.Laws.Joins.{together_duties};
ghost use Rattle.joined.specs.Laws.Slices.{together_end};

use crate::chain::Chain;
use lot::lot::Lot;

// Lots of one kind, one after another.
#[derive_where(Clone, Copy)]
pub struct Slice<'a, L> {
    pub lots: &'a [L],
}

impl<'a, L: Lot> Chain for Slice<'a, L> {
    type Link = &'a L;

    ghost meaning = { λ x. together L.Lot.meaning x.lots.now };

    ghost left = { λ x. length x.lots.now };

    ghost ends = { λ x. together_end L.Lot.meaning x.lots.now };

    ghost duties = { λ x. together_duties L.Lot.meaning (λ y. record { idle = L.Lot.idle y; greatest = L.Lot.greatest y; settled = L.Lot.settled y; unharmed = L.Lot.unharmed y; limited = L.Lot.limited y }) x.lots.now };

    fn left(&self) -> usize {
        self.lots.len()
    }

    fn split(self) -> Option<(&'a L, Slice<'a, L>)> {
        let (first, lots) = self.lots.split_first()?;
        Some((first, Slice { lots }))
    }
}

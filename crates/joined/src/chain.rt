ghost use Rattle.std.specs.Prelude.{◌≡◌, ℕ, ◌<◌, MatchOption};
ghost use Rattle.lot.specs.Meaning.{Meaning};
ghost use Rattle.lot.specs.Duties.{Duties};
ghost use Rattle.lot.specs.Join.{Parted, nothing};

use lot::lot::Lot;

// Lots one after another, that are taken from the front.
pub trait Chain: Copy {
    type Link: Lot + Copy;

    // What the lots are together.
    ghost meaning: { Self → Meaning };

    // A number that falls with every lot that is taken.
    ghost left: { Self → ℕ };

    // With nothing left it is the lot of no rows.
    ghost ends: { (x : Self) → left x ≡ 0 → meaning x ≡ nothing };

    // It owes what a lot owes.
    ghost duties: { (x : Self) → Duties (meaning x) };

    // For a caller that asks without taking: zero where no lot is left.
    fn left(&self) -> usize
        ensures { result ≡ left self.now };

    // The first lot, and those after it; none where no lot is left.
    fn split(self) -> Option<(Self::Link, Self)>
        ensures { MatchOption result (left self ≡ 0) (λ p. record { less : left p.1 < left self; step : Parted (meaning self) (Self.Link.Lot.meaning p.0) (meaning p.1) }) };
}

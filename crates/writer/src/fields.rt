ghost use Rattle.std.specs.Prelude.{◌≡◌};
ghost use Rattle.book.specs.Rows.{Four};
ghost use Rattle.book.specs.declared.row.Row.{Row as RowOf};
ghost use Rattle.book.specs.declared.row.Row.TheVariants as kind;
ghost use Rattle.writer.specs.Single.{Single};

use bid::fields::BidFields;
use book::row::Row;
use border::fields::BorderFields;
use need::fields::NeedFields;
use units::limit::are_four;

// `row` and no `From`: that the row stands by itself, and that its quarters are four, go with it.
// The fields of a row that stands by itself: a bid's, a need's or a border's, lawful or not.
pub trait Fields: Copy {
    ghost as_row: { Self → RowOf };

    fn row(self) -> Row
        ensures row { result ≡ as_row self }
        ensures single { Single (as_row self) }
        ensures four { Four (as_row self) };
}

impl Fields for BidFields {
    ghost as_row = { kind.Bid };

    fn row(self) -> Row {
        are_four(&self.quarters);
        Row::Bid(self)
    }
}

impl Fields for NeedFields {
    ghost as_row = { kind.Need };

    fn row(self) -> Row {
        are_four(&self.quarters);
        Row::Need(self)
    }
}

impl Fields for BorderFields {
    ghost as_row = { kind.Border };

    fn row(self) -> Row {
        are_four(&self.quarters);
        Row::Border(self)
    }
}

ghost use Rattle.std.specs.Prelude.{◌≡◌, ◌+◌, ◌<◌, true, false, List, ◌∷◌};
ghost use Rattle.lot.specs.Join.{Parted};
ghost use Rattle.book.specs.declared.row.Row.{Row as RowOf};
ghost use Rattle.order.specs.Order.{order_meaning};
ghost use Rattle.sealed.specs.Left.{rows_left};
ghost use Rattle.sealed.specs.Lot.{is_group, book_meaning, lawful_row};
ghost use Rattle.sealed.specs.Laws.Books.{book_duties, orders_end};

use crate::orders::Orders;
use bid::lawful::Bid;
use book::row::Row;
use border::lawful::Border;
use joined::chain::Chain;
use need::lawful::Need;
use order::order::Order;

// The order that a row stands for by itself.
fn single_order(row: Row) -> Order
    requires lawful { lawful_row row ≡ true }
    requires single { is_group row ≡ false }
    ensures { (rs : List RowOf) → Parted (book_meaning (row ∷ rs)) (order_meaning result) (book_meaning rs) }
{
    let made = match row {
        Row::Bid(fields) => Bid::try_from(fields).map(Order::Bid),
        Row::Need(fields) => Need::try_from(fields).map(Order::Need),
        Row::Border(fields) => Border::try_from(fields).map(Order::Border),
        Row::Group(_) => unreachable(),
    };
    let Ok(order) = made else { unreachable() };
    order
}

impl<'a> Chain for Orders<'a> {
    type Link = Order;

    ghost meaning = { λ x. book_meaning (rows_left x.rows) };

    ghost left = { λ x. x.rows.left };

    ghost ends = { λ x. orders_end (rows_left x.rows) x.rows.left x.rows.count };

    ghost duties = { λ x. book_duties (rows_left x.rows) x.rows.lawful };

    fn left(&self) -> usize {
        self.rows.left
    }

    fn split(self) -> Option<(Order, Orders<'a>)> {
        let (row, after) = self.rows.split_first()?;
        if let Row::Group(size) = row {
            let (group, rest) = after.group(usize::from(size));
            return Some((Order::Group(group), Orders { rows: rest }));
        }
        Some((single_order(row), Orders { rows: after }))
    }
}

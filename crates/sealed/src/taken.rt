ghost use Rattle.std.specs.Prelude.{◌≡◌, ◌<◌, ◌≤◌, true, ◌∷◌, ◌++◌, length};
ghost use Rattle.bid.specs.Group.{group_fine};
ghost use Rattle.book.specs.declared.row.Row.TheVariants as kind;
ghost use Rattle.book.specs.Stands.{due_of};
ghost use Rattle.order.specs.Order.{members_of};
ghost use Rattle.sealed.specs.Left.{rows_left};
ghost use Rattle.sealed.specs.Members.{bid_rows, MemberOn, Begun, Gathered};

use crate::rows::Rows;
use bid::lawful::Bid;
use book::row::Row;
use group::group::ExclusiveGroup;

impl<'a> Rows<'a> {
    // The next member of the group underway, and the rows after it.
    fn member(self) -> (Bid, Rows<'a>)
        requires { 0 < due_of self.stand }
        ensures ahead { rows_left self.entry ≡ kind.Bid result.0.fields ∷ rows_left result.1 }
        ensures stands { MemberOn self.entry.stand result.0.fields.area result.1.stand }
    {
        let Some((row, after)) = self.split_first() else {
            unreachable()
        };
        let Row::Bid(fields) = row else { unreachable() };
        let Ok(bid) = Bid::try_from(fields) else {
            unreachable()
        };
        (bid, after)
    }

    // The members of the group underway, at the front of an array, and the rows after them.
    fn members(self, size: usize) -> ([Bid; 8], Rows<'a>)
        requires begun { Begun self.stand size }
        requires size { (1 ≤ size) × (size ≤ 8) }
        ensures { Gathered self.entry.stand self.entry.rest.now size result.0 result.1.stand result.1.rest.now }
    {
        let (first, after) = self.member();
        let mut all = [first; 8];
        let mut rows = after;
        for slot in &mut all[1..size] {
            (*slot, rows) = rows.member();
        }
        (all, rows)
    }

    // The group whose members come next, and the rows after them.
    pub(crate) fn group(self, size: usize) -> (ExclusiveGroup, Rows<'a>)
        requires begun { Begun self.stand size }
        requires fine { group_fine size ≡ true }
        ensures ahead { rows_left self.entry ≡ bid_rows (members_of result.0) ++ rows_left result.1 }
        ensures size { length (members_of result.0) ≡ size }
        ensures whole { due_of result.1.stand ≡ 0 }
    {
        let (all, rows) = self.members(size);
        let Some(group) = ExclusiveGroup::of(&all[..size]) else {
            unreachable()
        };
        (group, rows)
    }
}

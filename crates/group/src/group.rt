ghost use Rattle.std.specs.Prelude.{◌≡◌, true, take};
ghost use Rattle.group.specs.Group.{one_area};

use bid::lawful::Bid;
use bid::size::GroupSize;

// An exclusive group: two to eight bids of one area, of which at most one is taken. The members stand first in the
// array; what stands behind them does not belong to the group.
// An array with its count beside it, since there is no heap, a lot is Copy, and a vector held in place is not.
#[derive(Clone, Copy)]
pub struct ExclusiveGroup {
    pub(crate) members: [Bid; 8],
    pub(crate) size: GroupSize,
    ghost together: { one_area (take size.members members) ≡ true },
}

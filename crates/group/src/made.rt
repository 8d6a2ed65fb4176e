ghost use Rattle.std.specs.Prelude.{◌≡◌, ℕ, ◌≤◌, true, false, length, take, MatchOption};
ghost use Rattle.group.specs.Group.{in_area, one_area, may_group};

use crate::group::ExclusiveGroup;
use bid::lawful::Bid;
use bid::size::GroupSize;

// Are all bids of an area?
fn in_area(area: u8, bids: &[Bid]) -> bool
    ensures { result ≡ in_area area bids.now }
{
    bids.iter().all(|bid| bid.fields().area == area)
}

// The bids at the front of an array.
fn copied(bids: &[Bid]) -> [Bid; 8]
    requires { (1 ≤ length bids.now) × (length bids.now ≤ 8) }
    ensures { take (length bids.now) result ≡ bids.now }
{
    let mut all = [bids[0]; 8];
    all[..bids.len()].copy_from_slice(bids);
    all
}

// The group of that size, or none where the bids are not of one area.
fn grouped(bids: &[Bid], size: GroupSize) -> Option<ExclusiveGroup>
    requires { size.members ≡ length bids.now }
    ensures { MatchOption result (one_area bids.now ≡ false) (λ g. (one_area bids.now ≡ true) × (take g.size.members g.members ≡ bids.now)) }
{
    if !in_area(bids[0].fields().area, bids) {
        return None;
    }
    Some(ExclusiveGroup {
        members: copied(bids),
        size,
    })
}

impl ExclusiveGroup {
    // An `Option`: a reader and a writer have told the reason before.
    // The group of these bids, or none where they are fewer than two, more than eight, or not of one area.
    pub fn of(bids: &[Bid]) -> Option<ExclusiveGroup>
        ensures { MatchOption result (may_group bids.now ≡ false) (λ g. (may_group bids.now ≡ true) × (take g.size.members g.members ≡ bids.now)) }
    {
        let count = u8::try_from(bids.len()).ok()?;
        let size = GroupSize::try_from(count).ok()?;
        grouped(bids, size)
    }

    // The members, in order.
    pub fn members(&self) -> &[Bid]
        ensures { result.now ≡ take self.now.size.members self.now.members }
    {
        &self.members[..usize::from(self.size.members())]
    }
}

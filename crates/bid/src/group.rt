ghost use Rattle.std.specs.Prelude.{◌≡◌, ℕ};
ghost use Rattle.byte_layer.specs.Fault.{heard};
ghost use Rattle.units.specs.Field.{told_field};
ghost use Rattle.bid.specs.Group.{group_fine, group_judged, same_area};
ghost use Rattle.bid.specs.Lawful.{members_in};

use crate::size::GroupSize;
use units::field::FieldFault;

// The fewest and the most members of an exclusive group.
pub const FEWEST_MEMBERS: u8 = 2;

pub const MOST_MEMBERS: u8 = 8;

// May an exclusive group have so many members?
fn group_fine(members: u8) -> bool
    ensures { result ≡ group_fine members }
{
    (FEWEST_MEMBERS..=MOST_MEMBERS).contains(&members)
}

// The size of a group of so many members, if it may have them.
impl TryFrom<u8> for GroupSize {
    type Error = FieldFault;

    ghost try_from_gives = { λ members r. (row : ℕ) → heard (told_field row) (members_in r) ≡ group_judged row members };

    fn try_from(members: u8) -> Result<GroupSize, FieldFault> {
        if group_fine(members) {
            Ok(GroupSize { members })
        } else {
            Err(FieldFault::Rule)
        }
    }
}

impl GroupSize {
    pub fn members(&self) -> u8
        ensures { result ≡ self.now.members }
    {
        self.members
    }
}

// May a member of this area stand in a group whose first member, if it has one yet, is of the area `first`?
pub fn same_area(first: Option<u8>, area: u8) -> bool
    ensures { result ≡ same_area first area }
{
    area == first.unwrap_or(area)
}

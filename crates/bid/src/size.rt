ghost use Rattle.std.specs.Prelude.{◌≡◌, true};
ghost use Rattle.bid.specs.Group.{group_fine};

// The size of an exclusive group: a value of this type is a lawful number of members.
#[derive(Clone, Copy)]
pub struct GroupSize {
    pub(crate) members: u8,
    ghost fine: { group_fine members ≡ true },
}

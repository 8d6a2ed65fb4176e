ghost use Rattle.std.specs.Prelude.{◌≡◌, ℕ, true, length};
ghost use Rattle.units.specs.Limit.{is_area};
ghost use Rattle.bid.specs.Fields.{bid_fine};

use crate::fields::BidFields;

// Not one type over the fields of a bid, a need or a border: it would be another crate's, and could have no methods here and be
// no lot.
// A lawful bid: a value of this type keeps every rule of a bid's fields.
#[derive(Clone, Copy)]
pub struct Bid {
    pub(crate) fields: BidFields,
    ghost placed: { is_area fields.area ≡ true },
    ghost fine: { bid_fine fields.quarters ≡ true },
    ghost four: { length fields.quarters ≡ 4 },
}

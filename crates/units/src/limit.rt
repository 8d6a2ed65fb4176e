ghost use Rattle.std.specs.Prelude.{◌≡◌, length};
ghost use Rattle.units.specs.Limit.{is_area, is_quantity, is_price};

// The last of the 32 areas, which are numbered from 0.
pub const LAST_AREA: u8 = 31;

// The largest quantity, in units of 0.1 MW.
pub const MOST_QUANTITY: u32 = 99_999;

// The cap: the highest price in cents per MWh, and, below zero, the lowest.
pub const CAP: i32 = 9_999_999;

#[tactic(auto, unfolding(crate::specs::Limit::is_area))]
pub fn is_area(area: u8) -> bool
    ensures { result ≡ is_area area }
{
    area <= LAST_AREA
}

#[tactic(auto, unfolding(crate::specs::Limit::is_quantity))]
pub fn is_quantity(quantity: u32) -> bool
    ensures { result ≡ is_quantity quantity }
{
    quantity <= MOST_QUANTITY
}

#[tactic(auto, unfolding(crate::specs::Limit::is_price))]
pub fn is_price(price: i32) -> bool
    ensures { result ≡ is_price price }
{
    (-CAP..=CAP).contains(&price)
}

// Four quarters are four: what the type says, as a fact that a proof can cite.
pub fn are_four<T>(quarters: &[T; 4])
    ensures { length quarters.now ≡ 4 }
{
    let [_first, ..] = quarters;
}

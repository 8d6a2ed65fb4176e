ghost use Rattle.std.specs.Prelude.{◌≡◌};
ghost use Rattle.need.specs.Fields.{may_price, need_quarter_fine, need_offers, need_fine};

use crate::elasticity::Elasticity;
use units::limit::{is_price, is_quantity};
use units::side::Side;

// What is needed in one quarter: up to `maximum` units of 0.1 MW, at `price` cents per MWh.
// A quarter with maximum 0 is not offered.
#[derive(Clone, Copy)]
pub struct NeedQuarter {
    pub maximum: u32,
    pub price: i32,
}

// The fields of a need as they are handed in, lawful or not.
#[derive(Clone, Copy)]
pub struct NeedFields {
    pub area: u8,
    pub side: Side,
    pub elasticity: Elasticity,
    pub quarters: [NeedQuarter; 4],
}

// May a quarter with this maximum have a price other than 0?
fn may_price(elasticity: Elasticity, maximum: u32) -> bool
    ensures { result ≡ may_price elasticity maximum }
{
    match elasticity {
        Elasticity::Elastic => maximum > 0,
        Elasticity::Inelastic => false,
    }
}

fn quarter_fine(elasticity: Elasticity, q: &NeedQuarter) -> bool
    ensures { result ≡ need_quarter_fine elasticity q.now }
{
    is_quantity(q.maximum)
        && is_price(q.price)
        && (may_price(elasticity, q.maximum) || q.price == 0)
}

// A bid's quarters are of another type: a function over both would take the maximum by a closure, and be no plainer.
fn need_offers(qs: &[NeedQuarter; 4]) -> bool
    ensures { result ≡ need_offers qs.now }
{
    qs.iter().any(|q| q.maximum > 0)
}

// Every rule of a need's fields but the one on its area.
pub fn need_fine(elasticity: Elasticity, qs: &[NeedQuarter; 4]) -> bool
    ensures { result ≡ need_fine elasticity qs.now }
{
    qs.iter().all(|q| quarter_fine(elasticity, q)) && need_offers(qs)
}

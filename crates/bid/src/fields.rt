ghost use Rattle.std.specs.Prelude.{◌≡◌};
ghost use Rattle.bid.specs.Fields.{quarter_fine, bid_offers, bid_fine};

use units::limit::{is_price, is_quantity};
use units::side::Side;

// What a bid offers in one quarter: from `minimum` to `maximum` units of 0.1 MW, at `price` cents per MWh.
// A quarter with maximum 0 is not offered.
#[derive(Clone, Copy)]
pub struct BidQuarter {
    pub minimum: u32,
    pub maximum: u32,
    pub price: i32,
}

// The fields of a bid as they are handed in, lawful or not.
#[derive(Clone, Copy)]
pub struct BidFields {
    pub area: u8,
    pub side: Side,
    pub quarters: [BidQuarter; 4],
}

fn quarter_fine(q: &BidQuarter) -> bool
    ensures { result ≡ quarter_fine q.now }
{
    q.minimum <= q.maximum
        && is_quantity(q.maximum)
        && is_price(q.price)
        && (q.maximum > 0 || q.price == 0)
}

// A need's quarters are of another type: a function over both would take the maximum by a closure, and be no plainer.
fn bid_offers(qs: &[BidQuarter; 4]) -> bool
    ensures { result ≡ bid_offers qs.now }
{
    qs.iter().any(|q| q.maximum > 0)
}

// Every rule of a bid's fields but the one on its area.
pub fn bid_fine(qs: &[BidQuarter; 4]) -> bool
    ensures { result ≡ bid_fine qs.now }
{
    qs.iter().all(quarter_fine) && bid_offers(qs)
}

ghost use Rattle.std.specs.Prelude.{◌≡◌, pos, ◌-ℤ◌, if◌then◌else◌, nat_eq};
ghost use Rattle.lot.specs.Meaning.{money};
ghost use Rattle.lot.specs.Page.{at, four, table_of, Within, AllWithin};
ghost use Rattle.lot.specs.Trade.{turned, trade_net, trade_worth, gain as gainOf, Fair};

use crate::quarters::dot;
use crate::views::CappedPrices;
use std::array;

// What a trade does with power. Whoever sells puts it in; whoever buys takes it out.
#[derive(Clone, Copy, PartialEq, Eq, Debug)]
pub enum Direction {
    Sells,
    Buys,
}

impl Direction {
    ghost use Rattle.lot.specs.Direction.{sells};

    // A number as it is where power is sold, with its sign turned where it is bought.
    fn turned(self, number: i32) -> i32
        requires { Within 19999998 number }
        ensures { result ≡ turned (sells self) number }
    {
        match self {
            Direction::Sells => number,
            Direction::Buys => -number,
        }
    }

    // The net of a quantity in an area, where it is traded in the area `home`.
    pub fn net(self, home: usize, area: usize, quantity: i32) -> i64
        requires { Within 99999 quantity }
        ensures { result ≡ (if nat_eq area home then turned (sells self) quantity else pos 0) }
    {
        if area == home {
            i64::from(self.turned(quantity))
        } else {
            0
        }
    }

    // The nets of quantities, by quarter.
    fn nets(self, quantities: &[i32; 4]) -> [i32; 4]
        requires { AllWithin 99999 quantities.now }
        ensures { result ≡ four (λ t. turned (sells self) (at quantities.now t)) }
    {
        quantities.map(|quantity| self.turned(quantity))
    }

    // What one unit gains at a price over its limit.
    fn gain(self, price: i32, limit: i32) -> i32
        requires { (Within 9999999 price) × (Within 9999999 limit) }
        ensures { result ≡ turned (sells self) (price -ℤ limit) }
    {
        self.turned(price - limit)
    }

    // What one unit gains, by quarter.
    pub fn gains(self, prices: &[i32; 4], limits: &[i32; 4]) -> [i32; 4]
        requires prices { AllWithin 9999999 prices.now }
        requires limits { AllWithin 9999999 limits.now }
        ensures { result ≡ four (λ t. turned (sells self) (at prices.now t -ℤ at limits.now t)) }
    {
        array::from_fn(|t| self.gain(prices[t], limits[t]))
    }
}

// That numbers are small is asked at each call, as in quarters.rt, and for the reason given there.

// Power traded in one area, at a price a quarter: its limits.
#[derive(Clone, Copy)]
pub struct TradeTerms {
    pub area: usize,
    pub direction: Direction,
    pub limits: [i32; 4],
    pub ghost fair: { Fair area limits },
}

impl TradeTerms {
    ghost use Rattle.lot.specs.Direction.{sells, trade_of};

    // The net of a quantity in an area.
    pub fn net(&self, quantity: i32, area: usize) -> i64
        requires { Within 99999 quantity }
        ensures { result ≡ (if nat_eq area self.now.area then turned (sells self.now.direction) quantity else pos 0) }
    {
        self.direction.net(self.area, area, quantity)
    }

    // What quantities are worth, in grains.
    pub fn worth(&self, quantities: &[i32; 4]) -> i64
        requires { AllWithin 99999 quantities.now }
        ensures { result ≡ trade_worth (trade_of self.now) (at quantities.now) }
    {
        -dot(&self.direction.nets(quantities), &self.limits)
    }

    // What quantities come to at the prices, in grains.
    pub fn amount(&self, quantities: &[i32; 4], prices: CappedPrices<'_>) -> i64
        requires { AllWithin 99999 quantities.now }
        ensures { result ≡ money (trade_net (trade_of self.now) (at quantities.now)) (table_of prices.entry.bytes.now) }
    {
        dot(&self.direction.nets(quantities), &prices.area(self.area))
    }

    // What one unit gains at the prices, by quarter.
    pub fn gains(&self, prices: CappedPrices<'_>) -> [i32; 4]
        ensures same { result ≡ four (gainOf (trade_of self.now) (table_of prices.entry.bytes.now)) }
        ensures within { AllWithin 19999998 result }
    {
        self.direction.gains(&prices.area(self.area), &self.limits)
    }
}

ghost use Rattle.std.specs.Prelude.{◌≡◌, Some};
ghost use Rattle.byte_layer.specs.Fault.{told_text};
ghost use Rattle.lot.specs.Fault.{told_market};

use byte_layer::fault::{Layer, Told};
use std::error::Error;
use std::fmt;

// What a proposed clearing breaks in the market.
#[derive(Clone, Copy, PartialEq, Eq, Debug)]
pub enum MarketFault {
    // The cells are not admitted, in this row.
    Refused(usize),
    // Power is left over or missing at this place, 4 × area + quarter.
    Unbalanced(usize),
    // The price rule is broken, in this row.
    Broken(usize),
}

impl MarketFault {
    // `tell`, and not `From`, as in each layer (byte_layer).
    pub fn tell(&self) -> Told
        ensures { result ≡ told_market self.now }
    {
        let (number, place) = match self {
            MarketFault::Refused(row) => (41, *row),
            MarketFault::Unbalanced(place) => (42, *place),
            MarketFault::Broken(row) => (43, *row),
        };
        Told {
            number,
            layer: Layer::Market,
            place,
        }
    }
}

// A fault is printed as what it tells.
impl fmt::Display for MarketFault {
    ghost output = { λ x. Some (told_text (told_market x)) };

    fn fmt<W: fmt::Write>(&self, f: &mut fmt::Formatter<W>) -> fmt::Result {
        let told = self.tell();
        write!(f, "{told}")
    }
}

impl Error for MarketFault {}

ghost use Rattle.std.specs.Prelude.{◌≡◌, Some};
ghost use Rattle.units.specs.Named.{Names};
ghost use Rattle.units.specs.Side.{side_of, side_byte, side_text};

use crate::named::Unnamed;
use std::fmt;

// The direction of a bid or a need: upward is more power, downward less.
#[derive(Clone, Copy, PartialEq, Eq, Debug)]
pub enum Side {
    Upward,
    Downward,
}

// The side that a byte of a text names, if it names one.
impl TryFrom<u8> for Side {
    type Error = Unnamed;

    ghost try_from_gives = { Names side_of };

    fn try_from(byte: u8) -> Result<Side, Unnamed> {
        match byte {
            0 => Ok(Side::Upward),
            1 => Ok(Side::Downward),
            _ => Err(Unnamed(byte)),
        }
    }
}

impl From<Side> for u8 {
    ghost from_gives = { λ side byte. byte ≡ side_byte side };

    fn from(side: Side) -> u8 {
        match side {
            Side::Upward => 0,
            Side::Downward => 1,
        }
    }
}

impl fmt::Display for Side {
    ghost output = { λ x. Some (side_text x) };

    fn fmt<W: fmt::Write>(&self, f: &mut fmt::Formatter<W>) -> fmt::Result {
        f.write_str(match self {
            Side::Upward => "upward",
            Side::Downward => "downward",
        })
    }
}

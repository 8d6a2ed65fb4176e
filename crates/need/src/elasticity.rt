ghost use Rattle.std.specs.Prelude.{◌≡◌, Some};
ghost use Rattle.units.specs.Named.{Names};
ghost use Rattle.need.specs.Elasticity.{elasticity_of, elasticity_byte, elasticity_text};

use std::fmt;
use units::named::Unnamed;

// Whether a need has prices of its own: an elastic one has a price in each quarter, an inelastic one has none.
#[derive(Clone, Copy, PartialEq, Eq, Debug)]
pub enum Elasticity {
    Elastic,
    Inelastic,
}

// What a byte of a text names, if it names anything.
impl TryFrom<u8> for Elasticity {
    type Error = Unnamed;

    ghost try_from_gives = { Names elasticity_of };

    fn try_from(byte: u8) -> Result<Elasticity, Unnamed> {
        match byte {
            0 => Ok(Elasticity::Inelastic),
            1 => Ok(Elasticity::Elastic),
            _ => Err(Unnamed(byte)),
        }
    }
}

impl From<Elasticity> for u8 {
    ghost from_gives = { λ elasticity byte. byte ≡ elasticity_byte elasticity };

    fn from(elasticity: Elasticity) -> u8 {
        match elasticity {
            Elasticity::Inelastic => 0,
            Elasticity::Elastic => 1,
        }
    }
}

impl fmt::Display for Elasticity {
    ghost output = { λ x. Some (elasticity_text x) };

    fn fmt<W: fmt::Write>(&self, f: &mut fmt::Formatter<W>) -> fmt::Result {
        f.write_str(match self {
            Elasticity::Elastic => "elastic",
            Elasticity::Inelastic => "inelastic",
        })
    }
}

ghost use Rattle.std.specs.Prelude.{◌≡◌, Some};
ghost use Rattle.units.specs.Named.{Names};
ghost use Rattle.border.specs.Step.{step_for, step_byte, step_text};

use std::fmt;
use units::named::Unnamed;

// The step of a border, in quarters: within a step its flow is constant. It is matched on, since there are just these three.
#[derive(Clone, Copy, PartialEq, Eq, Debug)]
pub enum Step {
    One,
    Two,
    Four,
}

// The step that a byte of a text names, if it names one.
impl TryFrom<u8> for Step {
    type Error = Unnamed;

    ghost try_from_gives = { Names step_for };

    fn try_from(byte: u8) -> Result<Step, Unnamed> {
        match byte {
            1 => Ok(Step::One),
            2 => Ok(Step::Two),
            4 => Ok(Step::Four),
            _ => Err(Unnamed(byte)),
        }
    }
}

impl From<Step> for u8 {
    ghost from_gives = { λ step byte. byte ≡ step_byte step };

    fn from(step: Step) -> u8 {
        match step {
            Step::One => 1,
            Step::Two => 2,
            Step::Four => 4,
        }
    }
}

// A step is printed as its number of quarters.
impl fmt::Display for Step {
    ghost output = { λ x. Some (step_text x) };

    fn fmt<W: fmt::Write>(&self, f: &mut fmt::Formatter<W>) -> fmt::Result {
        write!(f, "{}", u8::from(*self))
    }
}

use std::error::Error;
use std::fmt;

// What a byte names stands in `try_from` and in `from`: with discriminants `try_from` would still match each byte, and be no
// plainer.
// A byte of a text that names nothing where it stands: no command, no side, no elasticity, no step.
#[derive(Clone, Copy, PartialEq, Eq, Debug)]
pub struct Unnamed(pub u8);

impl fmt::Display for Unnamed {
    ghost use Rattle.std.specs.Prelude.{Some};
    ghost use Rattle.units.specs.Named.{unnamed_text};

    ghost output = { λ x. Some (unnamed_text x) };

    fn fmt<W: fmt::Write>(&self, f: &mut fmt::Formatter<W>) -> fmt::Result {
        let byte = self.0;
        write!(f, "byte {byte} names nothing here")
    }
}

impl Error for Unnamed {}

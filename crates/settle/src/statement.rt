ghost use Rattle.std.specs.Prelude.{◌≡◌, ◌+◌, ◌≤◌, length};
ghost use Rattle.byte_layer.specs.Number.{placed};
ghost use Rattle.settle.specs.Statement.{line, closing};

use crate::payment::Payment;
use byte_layer::number::{write, write_bytes};

// The command bytes of a statement.
pub const PAID: u8 = 0x59;

pub const CLOSED: u8 = 0x57;

// The sums of all rows' cents, and of the grains that they leave.
#[derive(Clone, Copy, PartialEq, Eq, Debug)]
pub struct Totals {
    pub cents: i64,
    pub rest: i64,
}

// That a line lies within the text is asked at each call, as of a number (byte_layer).
impl Payment {
    // Writes a row's line into a statement from a place on.
    pub fn write(&self, text: &mut [u8], at: usize)
        requires { at + 13 ≤ length text.old }
        ensures { text.new ≡ placed text.old at (line self.now) }
    {
        write_bytes(text, at, &[PAID]);
        write(text, at + 1, self.cents);
        write(text, at + 9, self.rest);
    }
}

impl Totals {
    // Writes the closing line.
    pub fn write(&self, text: &mut [u8], at: usize)
        requires { at + 17 ≤ length text.old }
        ensures { text.new ≡ placed text.old at (closing self.now) }
    {
        let Totals { cents, rest } = *self;
        write_bytes(text, at, &[CLOSED]);
        write(text, at + 1, cents);
        write(text, at + 9, rest);
    }
}

ghost use Rattle.std.specs.Prelude.{◌≡◌, Some};
ghost use Rattle.byte_layer.specs.Fault.{told_text};
ghost use Rattle.book.specs.Fault.{told_book};
ghost use Rattle.book.specs.declared.fault.BookFault.TheVariants.{Bytes};
ghost use Rattle.units.specs.Field.{told_field};

use byte_layer::fault::{ByteFault, Layer, Told};
use std::error::Error;
use std::fmt;
use units::field::FieldFault;

// The most rows of a book.
pub const MOST_ROWS: usize = 1_024;

// What a book is refused for, by a reader or a writer.
#[derive(Clone, Copy, PartialEq, Eq, Debug)]
pub enum BookFault {
    // What the bytes alone have wrong.
    Bytes(ByteFault),
    // No bid stands where a group's member is due, in this row.
    Member(usize),
    // A row more than a book can have.
    Full,
    // An area of this row is none, or its border leads to itself.
    Area(usize),
    // Another rule on the fields of this row is broken.
    Field(usize),
    // The members of the group in this row are not of one area.
    Mixed(usize),
    // The text is too short for the next command, after so many rows.
    Short(usize),
}

impl BookFault {
    // A broken rule on the fields of a row.
    pub fn in_row(fault: FieldFault, row: usize) -> BookFault
        ensures { told_book result ≡ told_field row fault }
    {
        match fault {
            FieldFault::Area => BookFault::Area(row),
            FieldFault::Rule => BookFault::Field(row),
        }
    }

    // `tell`, and not `From`, as in each layer (byte_layer).
    pub fn tell(&self) -> Told
        ensures { result ≡ told_book self.now }
    {
        let (number, place) = match self {
            BookFault::Bytes(fault) => return fault.tell(),
            BookFault::Member(row) => (21, *row),
            BookFault::Full => (22, MOST_ROWS),
            BookFault::Area(row) => (23, *row),
            BookFault::Field(row) => (24, *row),
            BookFault::Mixed(row) => (25, *row),
            BookFault::Short(rows) => (26, *rows),
        };
        Told {
            number,
            layer: Layer::Book,
            place,
        }
    }
}

// A fault is printed as what it tells.
impl fmt::Display for BookFault {
    ghost output = { λ x. Some (told_text (told_book x)) };

    fn fmt<W: fmt::Write>(&self, f: &mut fmt::Formatter<W>) -> fmt::Result {
        let told = self.tell();
        write!(f, "{told}")
    }
}

impl Error for BookFault {}

impl From<ByteFault> for BookFault {
    ghost from_gives = { λ e r. r ≡ Bytes e };

    fn from(e: ByteFault) -> BookFault {
        BookFault::Bytes(e)
    }
}

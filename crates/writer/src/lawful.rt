ghost use Rattle.std.specs.Prelude.{◌≡◌, ℕ, ◌+◌, ◌≤◌, length};
ghost use Rattle.byte_layer.specs.Fault.{heard};
ghost use Rattle.byte_layer.specs.Number.{placed};
ghost use Rattle.units.specs.Field.{told_field};
ghost use Rattle.book.specs.Fault.{told_book};
ghost use Rattle.book.specs.Rows.{row_size, row_bytes, row_judged};
ghost use Rattle.writer.specs.Lawful.{row_of, row_in};

use bid::lawful::Bid;
use bid::size::GroupSize;
use book::command::{BID, BORDER, GROUP, NEED};
use book::fault::BookFault;
use book::row::Row;
use border::lawful::Border;
use byte_layer::number::write_bytes;
use need::lawful::Need;
use units::field::FieldFault;

// A row whose fields keep every rule.
#[derive(Clone, Copy)]
pub enum LawfulRow {
    Bid(Bid),
    Group(GroupSize),
    Need(Need),
    Border(Border),
}

// The lawful row of these fields, or the first rule that they break.
impl TryFrom<Row> for LawfulRow {
    type Error = FieldFault;

    ghost try_from_gives = { λ row r. (number : ℕ) → heard (told_field number) (row_in r) ≡ row_judged number row };

    fn try_from(row: Row) -> Result<LawfulRow, FieldFault> {
        match row {
            Row::Bid(fields) => Bid::try_from(fields).map(LawfulRow::Bid),
            Row::Group(members) => GroupSize::try_from(members).map(LawfulRow::Group),
            Row::Need(fields) => Need::try_from(fields).map(LawfulRow::Need),
            Row::Border(fields) => Border::try_from(fields).map(LawfulRow::Border),
        }
    }
}

impl LawfulRow {
    // The same, with the fault in the row of that number: no `try_from`, since it takes a number too.
    pub fn of(row: Row, number: usize) -> Result<LawfulRow, BookFault>
        ensures { heard told_book (row_in result) ≡ row_judged number row }
    {
        LawfulRow::try_from(row).map_err(|fault| BookFault::in_row(fault, number))
    }

    // That the bytes lie within the text is asked at the call: it is a fact of text, place and width together.
    // Each arm writes its command byte: a conversion to the command would match the kinds once more, and be no plainer.
    // Writes the row's command into a text from a place on.
    pub fn write(&self, text: &mut [u8], at: usize)
        requires { at + row_size (row_of self.now) ≤ length text.old }
        ensures { text.new ≡ placed text.old at (row_bytes (row_of self.now)) }
    {
        match self {
            LawfulRow::Bid(bid) => {
                write_bytes(text, at, &[BID]);
                bid.write(text, at + 1);
            }
            LawfulRow::Group(size) => write_bytes(text, at, &[GROUP, size.members()]),
            LawfulRow::Need(need) => {
                write_bytes(text, at, &[NEED]);
                need.write(text, at + 1);
            }
            LawfulRow::Border(border) => {
                write_bytes(text, at, &[BORDER]);
                border.write(text, at + 1);
            }
        }
    }
}

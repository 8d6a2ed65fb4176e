ghost use Rattle.std.specs.Prelude.{◌≡◌};
ghost use Rattle.book.specs.Rows.{command_of, row_size};

use crate::command::Command;
use bid::fields::BidFields;
use border::fields::BorderFields;
use need::fields::NeedFields;

// A row of a book, by its fields.
#[derive(Clone, Copy)]
pub enum Row {
    Bid(BidFields),
    // An exclusive group of so many members, which are the rows after it.
    Group(u8),
    Need(NeedFields),
    Border(BorderFields),
}

// The command that a row is.
impl From<Row> for Command {
    ghost from_gives = { λ row command. command ≡ command_of row };

    fn from(row: Row) -> Command {
        match row {
            Row::Bid(_) => Command::Bid,
            Row::Group(_) => Command::Group,
            Row::Need(_) => Command::Need,
            Row::Border(_) => Command::Border,
        }
    }
}

impl Row {
    // How many bytes the row's command has.
    pub fn size(&self) -> usize
        ensures { result ≡ row_size self.now }
    {
        Command::from(*self).size()
    }
}

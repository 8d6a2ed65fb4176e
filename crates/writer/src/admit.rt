ghost use Rattle.std.specs.Prelude.{◌≡◌, length, Some};
ghost use Rattle.byte_layer.specs.Fault.{heard};
ghost use Rattle.book.specs.Fault.{told_book};
ghost use Rattle.writer.specs.Lawful.{row_in};
ghost use Rattle.writer.specs.Admit.{roomed, admitted};

use crate::lawful::LawfulRow;
use book::fault::{BookFault, MOST_ROWS};
use book::row::Row;

// What a writer has before it: a text of `len` bytes, of which the first `at` are written, in so many rows.
#[derive(Clone, Copy)]
pub struct Desk {
    pub len: usize,
    pub at: usize,
    pub rows: usize,
}

impl Desk {
    pub fn over(text: &[u8], at: usize, rows: usize) -> Desk
        ensures { result ≡ record { len = length text.now; at = at; rows = rows } }
    {
        Desk {
            len: text.len(),
            at,
            rows,
        }
    }

    // Has the text room for `size` bytes more?
    pub fn room(self, size: usize) -> Result<(), BookFault>
        ensures { heard told_book result ≡ roomed self.len self.at self.rows size }
    {
        match self.len.checked_sub(self.at) {
            Some(left) if left >= size => Ok(()),
            _ => Err(BookFault::Short(self.rows)),
        }
    }

    // The row as the next of a book, or what it is refused for: 22, 23, 24, 26, in this order.
    pub fn admit(self, row: Row) -> Result<LawfulRow, BookFault>
        ensures { heard told_book (row_in result) ≡ admitted self.len self.at self.rows row }
    {
        if self.rows >= MOST_ROWS {
            return Err(BookFault::Full);
        }
        let lawful = LawfulRow::of(row, self.rows)?;
        self.room(row.size())?;
        Ok(lawful)
    }
}

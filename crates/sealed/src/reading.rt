ghost use Rattle.std.specs.Prelude.{◌≡◌, [], ◌∷◌, length, Ok};
ghost use Rattle.std.specs.List.{slice_get};
ghost use Rattle.book.specs.Reading.{checked, rows_in};
ghost use Rattle.sealed.specs.Book.{book_text};

use crate::sealed_book::SealedBook;
use book::check::{Checked, check};
use book::command::SEAL;
use book::row::Row;

impl<'a> SealedBook<'a> {
    // No `map_or`: tried, and its closure would have to state again what the check found.
    // The book of a text, or, where the text fails its check, the book of no rows: a seal alone.
    #[tactic(auto, using(crate::proofs::Turns::written_lawful))]
    pub fn open(text: &'a [u8]) -> SealedBook<'a>
        ensures { result.text.now ≡ book_text text.now }
    {
        match check(text) {
            Ok(found) => SealedBook { text, found },
            Err(_fault) => SealedBook::empty(),
        }
    }

    // The book of no rows.
    fn empty() -> SealedBook<'a>
        ensures { result.text.now ≡ 0x53 ∷ [] }
    {
        SealedBook {
            text: &[SEAL],
            found: Checked { length: 1, rows: 0 },
        }
    }

    // The book's bytes, its seal included.
    pub fn length(&self) -> usize
        ensures { checked self.now.text.now ≡ Ok (record { length = result; rows = length (rows_in self.now.text.now) }) }
    {
        self.found.length
    }

    pub fn rows(&self) -> usize
        ensures { result ≡ length (rows_in self.now.text.now) }
    {
        self.found.rows
    }

    // The fields of the row of a number, decoded where they lie; none past the last row.
    pub fn row(&self, i: usize) -> Option<Row>
        ensures { result ≡ slice_get (rows_in self.now.text.now) i }
    {
        if i >= self.found.rows {
            return None;
        }
        self.iter().nth(i)
    }
}

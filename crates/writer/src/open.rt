ghost use Rattle.std.specs.Prelude.{◌≡◌, ℕ, ◌+◌, List, [], ◌∷◌, ◌++◌, length, IfOk, Ok, MatchResult};
ghost use Rattle.book.specs.declared.row.Row.TheVariants as kind;
ghost use Rattle.book.specs.Reading.{checked, rows_in};
ghost use Rattle.writer.specs.Admit.{admitted, roomed};
ghost use Rattle.writer.specs.Calls.{RowFiled, GroupBegun, BookSealed, Unchanged};
ghost use Rattle.writer.specs.Holding.{Holds, Owes};

use crate::admit::Desk;
use crate::fields::Fields;
use crate::state::{Filed, GroupUnderway, OpenBook, Refused};
use book::command::SEAL;
use book::row::Row;
use byte_layer::number::write_bytes;

impl OpenBook {
    // A book with nothing in it yet.
    pub fn start() -> OpenBook
        ensures empty { result ≡ record { length = 0; rows = 0 } }
        ensures holds { (t : List ℕ) → Holds t result [] }
    {
        OpenBook { length: 0, rows: 0 }
    }

    // A refusal is matched here and in `seal`: a book cannot be copied, and `map_err` would take it into its closure, though it is
    // needed where the call succeeds.
    // The row as the next of the book, written behind it, or what it is refused for.
    fn file_row(self, text: &mut [u8], row: Row) -> Result<Filed<OpenBook>, Refused<OpenBook>>
        ensures { MatchResult result (λ p. RowFiled self text.old row p text.new) (λ p. Unchanged self text.old (admitted (length text.old) self.length self.rows row) p text.new) }
    {
        match Desk::over(text, self.length, self.rows).admit(row) {
            Err(fault) => Err(Refused { back: self, fault }),
            Ok(lawful) => {
                let OpenBook { length, rows } = self;
                lawful.write(text, length);
                let next = OpenBook {
                    length: length + row.size(),
                    rows: rows + 1,
                };
                Ok(Filed { next, row: rows })
            }
        }
    }

    // Files a bid, a need or a border as the next row.
    pub fn file<F: Fields>(
        self,
        text: &mut [u8],
        fields: F,
    ) -> Result<Filed<OpenBook>, Refused<OpenBook>>
        ensures outcome { MatchResult result (λ p. RowFiled self text.old (F.as_row fields) p text.new) (λ p. Unchanged self text.old (admitted (length text.old) self.length self.rows (F.as_row fields)) p text.new) }
        ensures holds { IfOk result (λ p. (rs : List Row) → Holds text.old self rs → Holds text.new p.next (rs ++ F.as_row fields ∷ [])) }
    {
        let row = fields.row();
        self.file_row(text, row)
    }

    // Begins an exclusive group of so many members, which are filed next.
    pub fn group(
        self,
        text: &mut [u8],
        members: u8,
    ) -> Result<Filed<GroupUnderway>, Refused<OpenBook>>
        ensures outcome { MatchResult result (λ p. GroupBegun self text.old members p text.new) (λ p. Unchanged self text.old (admitted (length text.old) self.length self.rows (kind.Group members)) p text.new) }
        ensures holds { IfOk result (λ p. (rs : List Row) → Holds text.old self rs → Owes text.new p.next rs (kind.Group members ∷ [])) }
    {
        let before = OpenBook {
            length: self.length,
            rows: self.rows,
        };
        let filed = self.file_row(text, Row::Group(members))?;
        let group = GroupUnderway {
            book: filed.next,
            before,
            due: members,
            first: None,
        };
        Ok(Filed {
            next: group,
            row: filed.row,
        })
    }

    // Seals the book, and tells its length, the seal included.
    pub fn seal(self, text: &mut [u8]) -> Result<usize, Refused<OpenBook>>
        ensures outcome { MatchResult result (λ n. BookSealed self text.old n text.new) (λ p. Unchanged self text.old (roomed (length text.old) self.length self.rows 1) p text.new) }
        ensures reads { IfOk result (λ n. (rs : List Row) → Holds text.old self rs → (checked text.new ≡ Ok (record { length = n; rows = length rs })) × (rows_in text.new ≡ rs)) }
    {
        match Desk::over(text, self.length, self.rows).room(1) {
            Err(fault) => Err(Refused { back: self, fault }),
            Ok(_room) => {
                let OpenBook { length, rows: _ } = self;
                write_bytes(text, length, &[SEAL]);
                Ok(length + 1)
            }
        }
    }
}

ghost use Rattle.std.specs.Prelude.{◌≡◌, ◌≤◌, [], length, drop, Some, Ok, MatchOption};
ghost use Rattle.std.specs.Iterator.{YieldsFirst, item_count};
ghost use Rattle.book.specs.Rows.{row_size};
ghost use Rattle.book.specs.Reading.{step_of, rows_in};
ghost use Rattle.book.specs.Stands.{due_of};
ghost use Rattle.sealed.specs.Left.{rows_left, NextRow};

use crate::rows::Rows;
use crate::sealed_book::SealedBook;
use book::row::Row;
use book::stand::Stand;
use book::step::step;

impl<'a> SealedBook<'a> {
    // The rows from the first to the last, each decoded where it lies.
    pub fn iter(&self) -> Rows<'a>
        ensures rows { rows_left result ≡ rows_in self.now.text.now }
        ensures whole { due_of result.stand ≡ 0 }
    {
        Rows {
            rest: self.text,
            stand: Stand::begin(),
            left: self.found.rows,
        }
    }
}

impl<'a> Rows<'a> {
    // The rows behind a row that was read.
    fn behind(self, row: &Row, next: Stand) -> Rows<'a>
        requires { step_of self.stand self.rest.now ≡ Ok (Some (row.now, next)) }
        ensures rest { result.rest.now ≡ drop (row_size row.now) self.entry.rest.now }
        ensures stand { result.stand ≡ next }
    {
        Rows {
            rest: &self.rest[row.size()..],
            stand: next,
            left: self.left - 1,
        }
    }

    // The next row, and the rows after it; none at the seal.
    pub(crate) fn split_first(self) -> Option<(Row, Rows<'a>)>
        ensures { MatchOption result (rows_left self.entry ≡ []) (λ p. NextRow self.entry p.0 p.1) }
    {
        let Ok(stepped) = step(self.rest, self.stand) else {
            unreachable()
        };
        let (row, next) = stepped?;
        Some((row, self.behind(&row, next)))
    }
}

impl<'a> Iterator for Rows<'a> {
    type Item = Row;

    ghost next_gives = { YieldsFirst rows_left };

    ghost remaining = { item_count rows_left };

    fn next(&mut self) -> Option<Row> {
        let (row, after) = self.split_first()?;
        *self = after;
        Some(row)
    }

    fn size_hint(&self) -> (usize, Option<usize>) {
        (self.left, Some(self.left))
    }
}

impl<'a> ExactSizeIterator for Rows<'a> {
    fn len(&self) -> usize {
        self.left
    }
}

impl<'a> IntoIterator for SealedBook<'a> {
    type Item = Row;

    type IntoIter = Rows<'a>;

    ghost into_iter_gives = { λ book rows. rows_left rows ≡ rows_in book.text.now };

    fn into_iter(self) -> Rows<'a> {
        self.iter()
    }
}

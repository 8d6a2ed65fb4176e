ghost use Rattle.std.specs.Prelude.{◌≡◌, true};
ghost use Rattle.book.specs.Reading.{checked, rows_in};
ghost use Rattle.sealed.specs.Book.{passes, found_in};
ghost use Rattle.sealed.specs.Lot.{lawful_rows};

use book::check::Checked;

// A sealed book: a text that is only read and has passed its check, with what the check found. It copies no row.
#[derive(Clone, Copy)]
pub struct SealedBook<'a> {
    pub(crate) text: &'a [u8],
    pub(crate) found: Checked,
    ghost passed: { passes (checked text.now) ≡ true },
    ghost tells: { found_in (checked text.now) ≡ (found.length, found.rows) },
    ghost lawful: { lawful_rows (rows_in text.now) ≡ true },
}

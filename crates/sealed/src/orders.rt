ghost use Rattle.std.specs.Prelude.{◌≡◌};
ghost use Rattle.book.specs.Stands.{due_of};

use crate::rows::Rows;

// The orders of a sealed book from some place on: rows, with no group underway.
#[derive(Clone, Copy)]
pub struct Orders<'a> {
    pub(crate) rows: Rows<'a>,
    ghost whole: { due_of rows.stand ≡ 0 },
}

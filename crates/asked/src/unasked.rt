use std::error::Error;
use std::fmt;

// Why a question to a lot has no answer, in the order in which it is tried.
#[derive(Clone, Copy, PartialEq, Eq, Debug)]
pub enum Unasked {
    // The lot has more than 4,096 rows.
    TooManyRows,
    // The bytes are not as many as the lot's cells have.
    OtherCells,
    // The lot does not admit the cells.
    RefusedCells,
    // The bytes are not the prices of the 32 areas, each within the cap.
    OtherPrices,
    // The lot has no such row, or there is no such area or quarter.
    NoPlace,
}

impl fmt::Display for Unasked {
    ghost use Rattle.std.specs.Prelude.{Some};
    ghost use Rattle.asked.specs.Asked.{unasked_text};

    ghost output = { λ x. Some (unasked_text x) };

    fn fmt<W: fmt::Write>(&self, f: &mut fmt::Formatter<W>) -> fmt::Result {
        f.write_str(match self {
            Unasked::TooManyRows => "the lot has too many rows",
            Unasked::OtherCells => "these are not cells of the lot",
            Unasked::RefusedCells => "the lot does not admit the cells",
            Unasked::OtherPrices => "these are not prices within the cap",
            Unasked::NoPlace => "there is no such place",
        })
    }
}

impl Error for Unasked {}

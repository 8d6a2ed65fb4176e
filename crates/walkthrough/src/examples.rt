ghost use Rattle.std.specs.Prelude.{◌≡◌, List, [], ◌∷◌, ◌++◌, IfOk, Ok};
ghost use Rattle.book.specs.declared.row.Row.TheVariants as kind;
ghost use Rattle.book.specs.Reading.{checked, rows_in};
ghost use Rattle.writer.specs.Holding.{Holds};

use bid::fields::{BidFields, BidQuarter};
use book::fault::BookFault;
use book::row::Row;
use border::fields::{BorderFields, BorderQuarter};
use border::step::Step;
use need::elasticity::Elasticity;
use need::fields::{NeedFields, NeedQuarter};
use units::side::Side;
use writer::state::{GroupUnderway, Membership, OpenBook, Refused};

pub(crate) const NO_BID: BidQuarter = BidQuarter {
    minimum: 0,
    maximum: 0,
    price: 0,
};

pub(crate) const NO_NEED: NeedQuarter = NeedQuarter {
    maximum: 0,
    price: 0,
};

// An upward bid in area 1, quarter 2: up to 50 MW at 30 euro.
pub(crate) fn small_bid() -> BidFields {
    let offered = BidQuarter {
        minimum: 0,
        maximum: 500,
        price: 3_000,
    };
    BidFields {
        area: 1,
        side: Side::Upward,
        quarters: [NO_BID, NO_BID, offered, NO_BID],
    }
}

// An elastic upward need there: up to 40 MW at 80 euro.
pub(crate) fn small_need() -> NeedFields {
    let wanted = NeedQuarter {
        maximum: 400,
        price: 8_000,
    };
    NeedFields {
        area: 1,
        side: Side::Upward,
        elasticity: Elasticity::Elastic,
        quarters: [NO_NEED, NO_NEED, wanted, NO_NEED],
    }
}

// A downward bid in an area: 10 to 25.5 MW in the first two quarters, below zero in the second.
pub(crate) fn block_bid(area: u8) -> BidFields {
    let first = BidQuarter {
        minimum: 100,
        maximum: 255,
        price: 4_550,
    };
    let second = BidQuarter {
        minimum: 100,
        maximum: 255,
        price: -125,
    };
    BidFields {
        area,
        side: Side::Downward,
        quarters: [first, second, NO_BID, NO_BID],
    }
}

pub(crate) fn firm_need() -> NeedFields {
    let wanted = NeedQuarter {
        maximum: 1_200,
        price: 0,
    };
    NeedFields {
        area: 7,
        side: Side::Downward,
        elasticity: Elasticity::Inelastic,
        quarters: [wanted, wanted, wanted, wanted],
    }
}

pub(crate) fn wide_border() -> BorderFields {
    let most = BorderQuarter {
        forward: 99_999,
        back: 5_000,
    };
    let shut = BorderQuarter {
        forward: 0,
        back: 5_000,
    };
    BorderFields {
        from: 7,
        to: 31,
        step: Step::Two,
        quarters: [most, most, shut, shut],
    }
}

// A bid and a need, filed and sealed: the check of the text finds the two rows, and they are read as they were filed.
pub(crate) fn small_book(
    text: &mut [u8],
    bid: BidFields,
    need: NeedFields,
) -> Result<usize, Refused<OpenBook>>
    ensures { IfOk result (λ n. (checked text.new ≡ Ok (record { length = n; rows = 2 })) × (rows_in text.new ≡ kind.Bid bid ∷ kind.Need need ∷ [])) }
{
    let filed = OpenBook::start().file(text, bid)?;
    let filed = filed.next.file(text, need)?;
    filed.next.seal(text)
}

// A group whose member was refused is struck.
fn struck(refused: Refused<GroupUnderway>) -> Refused<OpenBook> {
    let Refused { back, fault } = refused;
    Refused {
        back: back.strike(),
        fault,
    }
}

// An exclusive group of two bids behind what a book holds. Where a member is refused the group is struck.
fn pair(
    book: OpenBook,
    text: &mut [u8],
    first: BidFields,
    second: BidFields,
) -> Result<OpenBook, Refused<OpenBook>>
    ensures { IfOk result (λ b. (rs : List Row) → Holds text.old book rs → Holds text.new b (rs ++ kind.Group 2 ∷ kind.Bid first ∷ kind.Bid second ∷ [])) }
{
    let begun = book.group(text, 2)?;
    let filed = begun.next.member(text, first).map_err(struck)?;
    let group = match filed.next {
        Membership::More(group) => group,
        Membership::Last(back) => return Err(Refused {
            back,
            fault: BookFault::Member(filed.row),
        }),
    };
    let filed = group.member(text, second).map_err(struck)?;
    match filed.next {
        Membership::Last(book) => Ok(book),
        Membership::More(group) => Err(Refused {
            back: group.strike(),
            fault: BookFault::Member(filed.row),
        }),
    }
}

// A need, a border, a bid and an exclusive group of two, filed and sealed: they are checked and read as they were filed.
pub(crate) fn large_book(
    text: &mut [u8],
    need: NeedFields,
    border: BorderFields,
    bid: BidFields,
    first: BidFields,
    second: BidFields,
) -> Result<usize, Refused<OpenBook>>
    ensures { IfOk result (λ n. (checked text.new ≡ Ok (record { length = n; rows = 6 })) × (rows_in text.new ≡ kind.Need need ∷ kind.Border border ∷ kind.Bid bid ∷ kind.Group 2 ∷ kind.Bid first ∷ kind.Bid second ∷ [])) }
{
    let filed = OpenBook::start().file(text, need)?;
    let filed = filed.next.file(text, border)?;
    let filed = filed.next.file(text, bid)?;
    let book = pair(filed.next, text, first, second)?;
    book.seal(text)
}

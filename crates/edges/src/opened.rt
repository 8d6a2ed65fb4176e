ghost use Rattle.std.specs.Iterator.{IsFinite};

use crate::spelled::{side_byte, spell_row, told};
use crate::writing::Writing;
use bid::fields::{BidFields, BidQuarter};
use book::fault::BookFault;
use book::row::Row;
use border::fields::{BorderFields, BorderQuarter};
use border::step::Step;
use byte_layer::fault::Layer::{Book, Bytes};
use byte_layer::fault::{ByteFault, Layer};
use need::elasticity::Elasticity;
use need::fields::{NeedFields, NeedQuarter};
use sealed::sealed_book::SealedBook;
use std::alloc::{AllocError, Global};
use std::test::Fail;
use units::side::Side;

// A book byte for byte. A need: area 0, upward, elastic; 99,999 at -9,999,999, 1 at 1, none, 258 at -256. A border from
// 0 to 31 in steps of four: 99,999 and 0, 0 and 99,999, shut, 1 and 2. A bid: area 31, downward; 0 to 99,999 at
// -9,999,999, 1 to 1 at 9,999,999, none, 256 to 65,536 at -1. The seal.
const BOOK: &[u8; 124] = b"\
    \x4E\x00\x00\x01\
    \x00\x01\x86\x9F\xFF\x67\x69\x81\
    \x00\x00\x00\x01\x00\x00\x00\x01\
    \x00\x00\x00\x00\x00\x00\x00\x00\
    \x00\x00\x01\x02\xFF\xFF\xFF\x00\
    \x4C\x00\x1F\x04\
    \x00\x01\x86\x9F\x00\x00\x00\x00\
    \x00\x00\x00\x00\x00\x01\x86\x9F\
    \x00\x00\x00\x00\x00\x00\x00\x00\
    \x00\x00\x00\x01\x00\x00\x00\x02\
    \x42\x1F\x01\
    \x00\x00\x00\x00\x00\x01\x86\x9F\xFF\x67\x69\x81\
    \x00\x00\x00\x01\x00\x00\x00\x01\x00\x98\x96\x7F\
    \x00\x00\x00\x00\x00\x00\x00\x00\x00\x00\x00\x00\
    \x00\x00\x01\x00\x00\x01\x00\x00\xFF\xFF\xFF\xFF\
    \x53";

// The fields of its rows.
const NEED: NeedFields = NeedFields {
    area: 0,
    side: Side::Upward,
    elasticity: Elasticity::Elastic,
    quarters: [
        NeedQuarter {
            maximum: 99_999,
            price: -9_999_999,
        },
        NeedQuarter {
            maximum: 1,
            price: 1,
        },
        NeedQuarter {
            maximum: 0,
            price: 0,
        },
        NeedQuarter {
            maximum: 258,
            price: -256,
        },
    ],
};

const BORDER: BorderFields = BorderFields {
    from: 0,
    to: 31,
    step: Step::Four,
    quarters: [
        BorderQuarter {
            forward: 99_999,
            back: 0,
        },
        BorderQuarter {
            forward: 0,
            back: 99_999,
        },
        BorderQuarter {
            forward: 0,
            back: 0,
        },
        BorderQuarter {
            forward: 1,
            back: 2,
        },
    ],
};

const BID: BidFields = BidFields {
    area: 31,
    side: Side::Downward,
    quarters: [
        BidQuarter {
            minimum: 0,
            maximum: 99_999,
            price: -9_999_999,
        },
        BidQuarter {
            minimum: 1,
            maximum: 1,
            price: 9_999_999,
        },
        BidQuarter {
            minimum: 0,
            maximum: 0,
            price: 0,
        },
        BidQuarter {
            minimum: 256,
            maximum: 65_536,
            price: -1,
        },
    ],
};

// A writer of these fields writes these bytes.
#[test]
fn a_book_byte_for_byte(rt: HostRuntime) {
    let text: &mut [u8] = &mut [0xAA; 124];
    let mut writing = Writing::start();
    for row in [Row::Need(NEED), Row::Border(BORDER), Row::Bid(BID)] {
        let (next, _filed) = writing.file(text, row);
        writing = next;
    }
    assert!(rt; writing.struck().seal(text).is_ok() && text.starts_with(BOOK));
}

// The length and the rows of a text's sealed book, and that it has no row behind the last.
fn opened(text: &[u8]) -> (usize, usize, bool) {
    let book = SealedBook::open(text);
    let ends = book.row(book.rows()).is_none() && book.row(usize::MAX).is_none();
    (book.length(), book.rows(), ends)
}

// A text that fails its check, as one that is cut anywhere (the lengths are gone over), opens as the book of no rows.
#[test]
fn texts_opened(rt: HostRuntime) {
    let text: &[u8] = BOOK;
    assert_eq!(rt; opened(text), (124, 3, true));
    for n in 0..text.len() {
        assert_eq!(rt; opened(&text[0..n]), (1, 0, true));
    }
    assert_eq!(rt; opened(&[0x45, 2, 0x53]), (1, 0, true));
}

// Rows, spelled again behind one another, and the seal.
fn spelled_again<I: Iterator<Item = Row> + Drop>(
    heap: Global,
    rows: I,
) -> Result<Vec<u8>, AllocError>
    requires can { I.can_next rows }
    requires ends { IsFinite (I.remaining rows) }
{
    let mut again = Vec::new(heap);
    for row in rows {
        spell_row(&mut again, row)?;
    }
    again.push(0x53)?;
    Ok(again)
}

// What is read of every row spells the bytes that it was read from, whether the rows are gone over or asked for by their
// numbers.
#[test]
fn rows_of_a_sealed_book(rt: HostRuntime) -> Result<(), Fail> {
    let book = SealedBook::open(BOOK);
    let again = spelled_again(rt.alloc(), book.iter())?;
    assert!(rt; again.as_slice() == BOOK.as_slice());
    let numbered = (0..book.rows()).filter_map(|i| book.row(i));
    let again = spelled_again(rt.alloc(), numbered)?;
    assert!(rt; again.as_slice() == BOOK.as_slice());
    Ok(())
}

#[test]
fn fields_of_the_last_row(rt: HostRuntime) -> Result<(), Fail> {
    let Some(Row::Bid(bid)) = SealedBook::open(BOOK).row(2) else {
        return Err(Fail::new("the last row is no bid"));
    };
    assert_eq!(rt; (bid.area, side_byte(bid.side)), (31, 1));
    assert_eq!(rt;
        (
            bid.quarters.map(|q| q.minimum),
            bid.quarters.map(|q| q.maximum),
            bid.quarters.map(|q| q.price),
        ),
        (
            [0, 1, 0, 256],
            [99_999, 1, 0, 65_536],
            [-9_999_999, 9_999_999, 0, -1],
        )
    );
    Ok(())
}

const FAULTS: [(BookFault, (u8, Layer, usize)); 8] = [
    (BookFault::Bytes(ByteFault::Cut(7)), (11, Bytes, 7)),
    (BookFault::Bytes(ByteFault::Unknown(8)), (12, Bytes, 8)),
    (BookFault::Member(9), (21, Book, 9)),
    (BookFault::Full, (22, Book, 1_024)),
    (BookFault::Area(1_023), (23, Book, 1_023)),
    (BookFault::Field(0), (24, Book, 0)),
    (BookFault::Mixed(1_021), (25, Book, 1_021)),
    (BookFault::Short(1_024), (26, Book, 1_024)),
];

#[test]
fn every_fault_is_told(rt: HostRuntime) {
    for (fault, wanted) in &FAULTS {
        assert_eq!(rt; told(*fault), *wanted);
    }
}

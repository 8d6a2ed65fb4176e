use crate::sample::Sample::*;
use crate::sample::{Outcome, Sample};
use crate::spelled::{ended, read, read_rows};
use crate::writing::{both, write};
use byte_layer::fault::Layer::{Book, Bytes};
use std::alloc::{AllocError, Global};
use std::process::Abort;
use std::test::Fail;

// A book of a bid alone, and of a need or a border alone, and a row alone that breaks a rule.
const BID: Outcome = Ok((52, 1));

const OTHER: Outcome = Ok((37, 1));

const AREA: Outcome = Err((23, Book, 0));

const RULE: Outcome = Err((24, Book, 0));

const B: Sample = Bid(5);

// Rows, and what the book of them comes to.
type Case = (&'static [Sample], Outcome);

// Quantities, prices and what goes with a maximum of 0, in one quarter of a row that offers in the others too; and rows
// that offer in that quarter alone, or in none.
const QUARTERS: [Case; 44] = [
    (&[BidQuarter(0, 0, 0)], BID),
    (&[BidQuarter(0, 1, 0)], BID),
    (&[BidQuarter(0, 99_999, 0)], BID),
    (&[BidQuarter(99_999, 99_999, 0)], BID),
    (&[BidQuarter(0, 100_000, 0)], RULE),
    (&[BidQuarter(99_999, 100_000, 0)], RULE),
    (&[BidQuarter(100_000, 100_000, 0)], RULE),
    (&[BidQuarter(100_000, 99_999, 0)], RULE),
    (&[BidQuarter(500, 500, 0)], BID),
    (&[BidQuarter(501, 500, 0)], RULE),
    (&[BidQuarter(0, 1, 9_999_999)], BID),
    (&[BidQuarter(0, 1, 10_000_000)], RULE),
    (&[BidQuarter(0, 1, -9_999_999)], BID),
    (&[BidQuarter(0, 1, -10_000_000)], RULE),
    (&[BidQuarter(0, 0, 1)], RULE),
    (&[BidQuarter(0, 0, -1)], RULE),
    (&[BidQuarter(1, 0, 0)], RULE),
    (&[BidQuarter(0, u32::MAX, i32::MIN)], RULE),
    (&[BidOnly(1)], BID),
    (&[BidOnly(0)], RULE),
    (&[ElasticQuarter(0, 0)], OTHER),
    (&[ElasticQuarter(99_999, 0)], OTHER),
    (&[ElasticQuarter(100_000, 0)], RULE),
    (&[ElasticQuarter(1, 9_999_999)], OTHER),
    (&[ElasticQuarter(1, 10_000_000)], RULE),
    (&[ElasticQuarter(1, -9_999_999)], OTHER),
    (&[ElasticQuarter(1, -10_000_000)], RULE),
    (&[ElasticQuarter(0, 1)], RULE),
    (&[ElasticQuarter(0, -1)], RULE),
    (&[InelasticQuarter(0, 0)], OTHER),
    (&[InelasticQuarter(99_999, 0)], OTHER),
    (&[InelasticQuarter(100_000, 0)], RULE),
    (&[InelasticQuarter(1, 1)], RULE),
    (&[InelasticQuarter(1, -1)], RULE),
    (&[NeedOnly(1)], OTHER),
    (&[NeedOnly(0)], RULE),
    (&[BorderQuarter(0, 0)], OTHER),
    (&[BorderQuarter(99_999, 0)], OTHER),
    (&[BorderQuarter(100_000, 0)], RULE),
    (&[BorderQuarter(0, 99_999)], OTHER),
    (&[BorderQuarter(0, 100_000)], RULE),
    (&[BorderQuarter(99_999, 99_999)], OTHER),
    (&[BorderQuarter(u32::MAX, 0)], RULE),
    (&[BorderQuarter(0, u32::MAX)], RULE),
];

// An area that is none is told before any other rule on the fields.
const AREAS: [Case; 20] = [
    (&[Bid(0)], BID),
    (&[Bid(31)], BID),
    (&[Bid(32)], AREA),
    (&[Bid(255)], AREA),
    (&[Need(0)], OTHER),
    (&[Need(31)], OTHER),
    (&[Need(32)], AREA),
    (&[Border(31, 0)], OTHER),
    (&[Border(32, 0)], AREA),
    (&[Border(0, 31)], OTHER),
    (&[Border(0, 32)], AREA),
    (&[Border(30, 31)], OTHER),
    (&[Border(0, 0)], AREA),
    (&[Border(31, 31)], AREA),
    (&[Border(32, 33)], AREA),
    (&[FaultyBid(31)], RULE),
    (&[FaultyBid(32)], AREA),
    (&[FaultyBorder(5, 6)], RULE),
    (&[FaultyBorder(5, 5)], AREA),
    (
        &[Bid(1), Need(1), Border(1, 2), Need(32)],
        Err((23, Book, 3)),
    ),
];

// Groups of so many members, with bids behind them that are no members, and members of two areas.
const GROUPS: [Case; 16] = [
    (&[Group(0), Bid(5), Bid(5)], RULE),
    (&[Group(1), Bid(5), Bid(5)], RULE),
    (&[Group(2), Bid(5), Bid(5)], Ok((105, 3))),
    (&[Group(3), Bid(5), Bid(5), Bid(5)], Ok((156, 4))),
    (&[Group(8), B, B, B, B, B, B, B, B], Ok((411, 9))),
    (&[Group(9), B, B, B, B, B, B, B, B, B], RULE),
    (&[Group(255), Bid(5), Bid(5)], RULE),
    (&[Group(2), Bid(5), Bid(5), Bid(6)], Ok((156, 4))),
    (
        &[Group(2), Bid(5), Bid(5), Group(2), Bid(6), Bid(6)],
        Ok((209, 6)),
    ),
    (&[Group(2), Bid(5), Bid(6)], Err((25, Book, 0))),
    (&[Bid(6), Group(2), Bid(6), Bid(5)], Err((25, Book, 1))),
    (&[Group(3), Bid(5), Bid(5), Bid(6)], Err((25, Book, 0))),
    (&[Group(3), Bid(5), Bid(6), Bid(5)], Err((25, Book, 0))),
    (&[Group(2), Bid(5), Bid(32)], Err((23, Book, 2))),
    (&[Group(2), Bid(5), FaultyBid(5)], Err((24, Book, 2))),
    (&[Group(2), Bid(5), FaultyBid(6)], Err((24, Book, 2))),
];

// Texts for a reader alone: borders, rows behind them, and a last byte. Where a member is due, any other row and the seal
// are told before a fault of their fields, and members of two areas after the last of them. Where the rows are full, a
// row too many is told behind what is no command, is cut or is no member.
const READ: [(usize, &[Sample], u8, Outcome); 20] = [
    (0, &[Group(2)], 0x53, Err((21, Book, 1))),
    (0, &[Group(2), Need(1)], 0x53, Err((21, Book, 1))),
    (0, &[Group(2), Border(1, 2)], 0x53, Err((21, Book, 1))),
    (0, &[Group(2), Group(2)], 0x53, Err((21, Book, 1))),
    (0, &[Group(2), Need(32)], 0x53, Err((21, Book, 1))),
    (0, &[Group(2), Group(9)], 0x53, Err((21, Book, 1))),
    (0, &[Group(2), Bid(1)], 0x53, Err((21, Book, 2))),
    (0, &[Group(2), Bid(1), Need(1)], 0x53, Err((21, Book, 2))),
    (
        0,
        &[Group(2), Bid(1), Border(1, 2)],
        0x53,
        Err((21, Book, 2)),
    ),
    (0, &[Group(2), Bid(1), Group(2)], 0x53, Err((21, Book, 2))),
    (1, &[Group(2), Need(1)], 0x53, Err((21, Book, 2))),
    (9, &[Group(3), Bid(1), Bid(1)], 0x53, Err((21, Book, 12))),
    (
        0,
        &[Group(8), B, B, B, B, B, B, B],
        0x53,
        Err((21, Book, 8)),
    ),
    (
        0,
        &[Group(3), Bid(5), Bid(6), Need(6)],
        0x53,
        Err((21, Book, 3)),
    ),
    (
        0,
        &[Group(3), Bid(5), Bid(6), Bid(32)],
        0x53,
        Err((23, Book, 3)),
    ),
    (
        0,
        &[Group(3), Bid(5), Bid(6), FaultyBid(6)],
        0x53,
        Err((24, Book, 3)),
    ),
    (1_024, &[], 0x52, Err((12, Bytes, 36_864))),
    (1_024, &[], 0x4C, Err((11, Bytes, 36_864))),
    (1_022, &[Group(2), Bid(1)], 0x53, Err((21, Book, 1_024))),
    (
        1_022,
        &[Group(2), Bid(1), Need(1)],
        0x53,
        Err((21, Book, 1_024)),
    ),
];

// Tries cases by a reader and by a writer, with the quarters of their own in each place: the places themselves are gone over.
fn tried(rt: &impl Abort, heap: Global, cases: &[Case]) -> Result<(), Fail> {
    for (n, (samples, wanted)) in cases.iter().enumerate() {
        for k in 0..4 {
            both(rt, heap, n, samples, k, *wanted)?;
        }
    }
    Ok(())
}

#[test]
fn quarters(rt: HostRuntime) -> Result<(), Fail> {
    tried(&rt, rt.alloc(), &QUARTERS)
}

#[test]
fn areas(rt: HostRuntime) -> Result<(), Fail> {
    tried(&rt, rt.alloc(), &AREAS)
}

#[test]
fn groups(rt: HostRuntime) -> Result<(), Fail> {
    tried(&rt, rt.alloc(), &GROUPS)
}

// Borders, and rows behind them.
fn behind_borders(
    heap: Global,
    borders: usize,
    behind: &[Sample],
) -> Result<Vec<Sample>, AllocError> {
    let mut samples = vec![in heap; Border(1, 2); borders]?;
    samples.extend_from_slice(behind)?;
    Ok(samples)
}

fn read_behind(
    heap: Global,
    borders: usize,
    behind: &[Sample],
    end: u8,
) -> Result<Outcome, AllocError> {
    let samples = behind_borders(heap, borders, behind)?;
    read_rows(heap, samples.as_slice(), &[end])
}

#[test]
fn which_fault_is_told_first(rt: HostRuntime) -> Result<(), Fail> {
    for (borders, behind, end, wanted) in &READ {
        assert_eq!(rt; read_behind(rt.alloc(), *borders, behind, *end)?, *wanted);
    }
    Ok(())
}

// The bytes of a side, of an elasticity and of a step, at their places in a row alone. One that names nothing is told
// behind an area that is none.
const NAMES: [(Sample, usize, u8, Outcome); 20] = [
    (Bid(31), 2, 0, BID),
    (Bid(31), 2, 1, BID),
    (Bid(31), 2, 2, RULE),
    (Bid(32), 2, 2, AREA),
    (Need(31), 2, 0, OTHER),
    (Need(31), 2, 1, OTHER),
    (Need(31), 2, 2, RULE),
    (Need(32), 2, 2, AREA),
    (Need(31), 3, 0, OTHER),
    (Need(31), 3, 1, OTHER),
    (Need(31), 3, 2, RULE),
    (Need(32), 3, 2, AREA),
    (Border(0, 31), 3, 0, RULE),
    (Border(0, 31), 3, 1, OTHER),
    (Border(0, 31), 3, 2, OTHER),
    (Border(0, 31), 3, 3, RULE),
    (Border(0, 31), 3, 4, OTHER),
    (Border(0, 31), 3, 5, RULE),
    (Border(0, 32), 3, 5, AREA),
    (Border(31, 31), 3, 0, AREA),
];

// What a reader tells of a row alone with another byte at a place.
fn with_byte(heap: Global, sample: Sample, at: usize, byte: u8) -> Result<Outcome, AllocError> {
    let mut text = ended(heap, &[sample], 0, &[0x53])?;
    if let Some(place) = text.get_mut(at) {
        *place = byte;
    }
    Ok(read(text.as_slice()))
}

#[test]
fn bytes_that_name(rt: HostRuntime) -> Result<(), Fail> {
    for (sample, at, byte, wanted) in &NAMES {
        assert_eq!(rt;
            with_byte(rt.alloc(), *sample, *at, *byte)?,
            *wanted,
            "{}",
            *byte
        );
    }
    Ok(())
}

// Borders, and rows behind them, up to 1,024 rows and beyond.
const FULL: [(usize, &[Sample], Outcome); 11] = [
    (1_024, &[], Ok((36_865, 1_024))),
    (1_024, &[Bid(1)], Err((22, Book, 1_024))),
    (1_024, &[Need(1)], Err((22, Book, 1_024))),
    (1_024, &[Border(1, 2)], Err((22, Book, 1_024))),
    (1_024, &[Group(2)], Err((22, Book, 1_024))),
    (1_024, &[Bid(32)], Err((22, Book, 1_024))),
    (1_024, &[Group(9)], Err((22, Book, 1_024))),
    (1_023, &[Bid(1)], Ok((36_880, 1_024))),
    (1_021, &[Group(2), Bid(1), Bid(1)], Ok((36_861, 1_024))),
    (1_022, &[Group(2), Bid(1), Bid(1)], Err((22, Book, 1_024))),
    (1_023, &[Group(2), Bid(1), Bid(1)], Err((22, Book, 1_024))),
];

#[test]
fn rows_to_the_last(rt: HostRuntime) -> Result<(), Fail> {
    for (n, (borders, behind, wanted)) in FULL.iter().enumerate() {
        let samples = behind_borders(rt.alloc(), *borders, behind)?;
        both(&rt, rt.alloc(), n, samples.as_slice(), 0, *wanted)?;
    }
    Ok(())
}

// What a writer of borders tells in a text with the room for 1,024 of them, and for no seal.
fn write_borders(heap: Global, borders: usize) -> Result<Outcome, AllocError> {
    let samples = behind_borders(heap, borders, &[])?;
    let mut text = vec![in heap; 0u8; 36_864]?;
    Ok(write(text.as_mut_slice(), samples.as_slice(), 0))
}

// A row too many is told before a text too short.
#[test]
fn full_books_in_short_texts(rt: HostRuntime) -> Result<(), Fail> {
    assert_eq!(rt; write_borders(rt.alloc(), 1_023)?, Ok((36_829, 1_023)));
    assert_eq!(rt; write_borders(rt.alloc(), 1_024)?, Err((26, Book, 1_024)));
    assert_eq!(rt; write_borders(rt.alloc(), 1_025)?, Err((22, Book, 1_024)));
    Ok(())
}

use crate::sample::Sample::*;
use crate::sample::{Fault, Sample};
use crate::spelled::{ended, read, told};
use crate::writing::Writing;
use byte_layer::fault::Layer::Book;
use std::alloc::Global;
use std::process::Abort;
use std::test::Fail;

// A writer's call.
#[derive(Clone, Copy)]
enum Act {
    File(Sample),
    Strike,
    Seal,
}

// How many bytes of the text a call is handed, the call, and what it is to tell: a row's number, 0 for a strike, the
// sealed book's length, or a fault.
type Call = (usize, Act, Result<usize, Fault>);

// Makes a call. After a seal a new book is begun.
fn acted(writing: Writing, text: &mut [u8], act: Act) -> (Writing, Result<usize, Fault>) {
    match act {
        Act::File(sample) => writing.file(text, sample.row(0)),
        Act::Strike => (Writing::Open(writing.struck()), Ok(0)),
        Act::Seal => match writing.struck().seal(text) {
            Ok(length) => (Writing::start(), Ok(length)),
            Err(refused) => (Writing::Open(refused.back), Err(told(refused.fault))),
        },
    }
}

// Makes a call in the first bytes of a text. One that is refused changes no byte.
fn told_by(
    rt: &impl Abort,
    heap: Global,
    writing: Writing,
    text: &mut [u8],
    room: usize,
    act: Act,
) -> Result<(Writing, Result<usize, Fault>), Fail> {
    let before = text.to_vec(heap)?;
    let end = text.len().min(room);
    let (next, told) = acted(writing, &mut text[0..end], act);
    assert!(rt;
        told.is_ok() || before.as_slice() == &*text,
        "a byte has changed"
    );
    Ok((next, told))
}

// A text holds a sealed book of these rows, and is read as such.
fn holds(rt: &impl Abort, heap: Global, text: &[u8], rows: &[Sample]) -> Result<(), Fail> {
    let spelled = ended(heap, rows, 0, &[0x53])?;
    assert_eq!(rt; read(text), Ok((spelled.len(), rows.len())));
    assert!(rt; text.starts_with(spelled.as_slice()));
    Ok(())
}

// Makes calls, the last of which seals a book of these rows.
fn made(rt: &impl Abort, heap: Global, calls: &[Call], rows: &[Sample]) -> Result<(), Fail> {
    let mut space = vec![in heap; 0xAAu8; 500]?;
    let text = space.as_mut_slice();
    let mut writing = Writing::start();
    for (n, (room, act, wanted)) in calls.iter().enumerate() {
        let (next, told) = told_by(rt, heap, writing, text, *room, *act)?;
        writing = next;
        assert_eq!(rt; told, *wanted, "{}", n);
    }
    holds(rt, heap, text, rows)
}

// A book of no rows, and one whose later calls come with a shorter text, even one shorter than the book so far.
const SHORTER: [Call; 15] = [
    (0, Act::Seal, Err((26, Book, 0))),
    (1, Act::Seal, Ok(1)),
    (0, Act::File(Bid(1)), Err((26, Book, 0))),
    (50, Act::File(Bid(1)), Err((26, Book, 0))),
    (51, Act::File(Bid(1)), Ok(0)),
    (0, Act::File(Need(1)), Err((26, Book, 1))),
    (50, Act::File(Need(1)), Err((26, Book, 1))),
    (51, Act::File(Need(1)), Err((26, Book, 1))),
    (86, Act::File(Need(1)), Err((26, Book, 1))),
    (87, Act::File(Need(1)), Ok(1)),
    (0, Act::Seal, Err((26, Book, 2))),
    (50, Act::Seal, Err((26, Book, 2))),
    (86, Act::Seal, Err((26, Book, 2))),
    (87, Act::Seal, Err((26, Book, 2))),
    (88, Act::Seal, Ok(88)),
];

#[test]
fn shorter_texts_later(rt: HostRuntime) -> Result<(), Fail> {
    made(&rt, rt.alloc(), &SHORTER, &[Bid(1), Need(1)])
}

// Refused rows, after each of which the book goes on. A text too short is told behind the fields, and two areas last.
const REFUSED: [Call; 22] = [
    (0, Act::File(Bid(32)), Err((23, Book, 0))),
    (0, Act::File(FaultyBid(31)), Err((24, Book, 0))),
    (35, Act::File(Border(1, 2)), Err((26, Book, 0))),
    (36, Act::File(Border(1, 2)), Ok(0)),
    (141, Act::File(Need(32)), Err((23, Book, 1))),
    (141, Act::File(Border(5, 5)), Err((23, Book, 1))),
    (141, Act::File(FaultyBid(5)), Err((24, Book, 1))),
    (141, Act::File(InelasticQuarter(1, 1)), Err((24, Book, 1))),
    (141, Act::File(Group(1)), Err((24, Book, 1))),
    (141, Act::File(Group(9)), Err((24, Book, 1))),
    (37, Act::File(Group(2)), Err((26, Book, 1))),
    (38, Act::File(Group(2)), Ok(1)),
    (88, Act::File(Bid(5)), Err((26, Book, 2))),
    (89, Act::File(Bid(5)), Ok(2)),
    (139, Act::File(Bid(32)), Err((23, Book, 3))),
    (139, Act::File(FaultyBid(6)), Err((24, Book, 3))),
    (139, Act::File(Bid(6)), Err((26, Book, 3))),
    (139, Act::File(Bid(5)), Err((26, Book, 3))),
    (140, Act::File(Bid(6)), Err((25, Book, 1))),
    (140, Act::File(Bid(5)), Ok(3)),
    (140, Act::Seal, Err((26, Book, 4))),
    (141, Act::Seal, Ok(141)),
];

#[test]
fn refused_calls(rt: HostRuntime) -> Result<(), Fail> {
    made(
        &rt,
        rt.alloc(),
        &REFUSED,
        &[Border(1, 2), Group(2), Bid(5), Bid(5)],
    )
}

// A strike gives length and rows back, whether the group has members yet or none.
const STRUCK: [Call; 10] = [
    (500, Act::File(Border(1, 2)), Ok(0)),
    (500, Act::File(Group(3)), Ok(1)),
    (500, Act::Strike, Ok(0)),
    (500, Act::File(Group(3)), Ok(1)),
    (500, Act::File(Bid(5)), Ok(2)),
    (500, Act::File(Bid(5)), Ok(3)),
    (500, Act::Strike, Ok(0)),
    (86, Act::File(Bid(5)), Err((26, Book, 1))),
    (36, Act::Seal, Err((26, Book, 1))),
    (37, Act::Seal, Ok(37)),
];

#[test]
fn struck_groups(rt: HostRuntime) -> Result<(), Fail> {
    made(&rt, rt.alloc(), &STRUCK, &[Border(1, 2)])
}

// The last member closes its group, so that a bid of another area is a row of its own.
const EIGHT: [Call; 12] = [
    (500, Act::File(Group(8)), Ok(0)),
    (500, Act::File(Bid(5)), Ok(1)),
    (500, Act::File(Bid(5)), Ok(2)),
    (500, Act::File(Bid(5)), Ok(3)),
    (500, Act::File(Bid(5)), Ok(4)),
    (500, Act::File(Bid(5)), Ok(5)),
    (500, Act::File(Bid(5)), Ok(6)),
    (500, Act::File(Bid(5)), Ok(7)),
    (500, Act::File(Bid(6)), Err((25, Book, 0))),
    (500, Act::File(Bid(5)), Ok(8)),
    (500, Act::File(Bid(6)), Ok(9)),
    (500, Act::Seal, Ok(462)),
];

#[test]
fn eight_members(rt: HostRuntime) -> Result<(), Fail> {
    let b = Bid(5);
    made(
        &rt,
        rt.alloc(),
        &EIGHT,
        &[Group(8), b, b, b, b, b, b, b, b, Bid(6)],
    )
}

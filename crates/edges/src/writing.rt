use crate::sample::{Fault, Outcome, Sample};
use crate::spelled::{ended, read, told};
use book::row::Row;
use std::alloc::Global;
use std::process::Abort;
use std::test::Fail;
use writer::state::{Filed, GroupUnderway, Membership, OpenBook};

// A book that is being written, with a group underway or none. Where it is let go, the group is struck.
pub enum Writing {
    Open(OpenBook),
    Underway(GroupUnderway),
}

impl Drop for Writing {
    fn drop(self) {
        match self {
            Writing::Open(_book) => {}
            Writing::Underway(group) => {
                let _book = group.strike();
            }
        }
    }
}

fn opened(filed: Filed<OpenBook>) -> (Writing, usize) {
    (Writing::Open(filed.next), filed.row)
}

fn begun(filed: Filed<GroupUnderway>) -> (Writing, usize) {
    (Writing::Underway(filed.next), filed.row)
}

fn file_in(book: OpenBook, text: &mut [u8], row: Row) -> (Writing, Result<usize, Fault>) {
    let filed = match row {
        Row::Bid(fields) => book.file(text, fields).map(opened),
        Row::Need(fields) => book.file(text, fields).map(opened),
        Row::Border(fields) => book.file(text, fields).map(opened),
        Row::Group(members) => book.group(text, members).map(begun),
    };
    match filed {
        Ok((writing, row)) => (writing, Ok(row)),
        Err(refused) => (Writing::Open(refused.back), Err(told(refused.fault))),
    }
}

fn join(group: GroupUnderway, text: &mut [u8], row: Row) -> (Writing, Result<usize, Fault>) {
    let Row::Bid(fields) = row else {
        return file_in(group.strike(), text, row);
    };
    match group.member(text, fields) {
        Ok(filed) => match filed.next {
            Membership::More(group) => (Writing::Underway(group), Ok(filed.row)),
            Membership::Last(book) => (Writing::Open(book), Ok(filed.row)),
        },
        Err(refused) => (Writing::Underway(refused.back), Err(told(refused.fault))),
    }
}

impl Writing {
    pub(crate) fn start() -> Writing {
        Writing::Open(OpenBook::start())
    }

    // Files a row, and tells its number or why it is refused. A group underway takes bids as its members, and is struck
    // before any other row.
    pub(crate) fn file(self, text: &mut [u8], row: Row) -> (Writing, Result<usize, Fault>) {
        match self {
            Writing::Open(book) => file_in(book, text, row),
            Writing::Underway(group) => join(group, text, row),
        }
    }

    // The book with no group underway, the one underway struck.
    pub(crate) fn struck(self) -> OpenBook {
        match self {
            Writing::Open(book) => book,
            Writing::Underway(group) => group.strike(),
        }
    }
}

// Writes and seals a book of these rows, and tells what it comes to.
pub(crate) fn write(text: &mut [u8], samples: &[Sample], k: usize) -> Outcome {
    let mut writing = Writing::start();
    for sample in samples {
        let (next, filed) = writing.file(text, sample.row(k));
        writing = next;
        filed?;
    }
    let sealed = writing.struck().seal(text);
    sealed
        .map(|length| (length, samples.len()))
        .map_err(|refused| told(refused.fault))
}

// Tries rows by a reader, on the text that the rules spell, and by a writer, who has just the room for it. Both tell the
// same, and a book that passes has the same bytes. Where they do not, the case is named.
pub(crate) fn both(
    rt: &impl Abort,
    heap: Global,
    case: usize,
    samples: &[Sample],
    k: usize,
    wanted: Outcome,
) -> Result<(), Fail> {
    let spelled = ended(heap, samples, k, &[0x53])?;
    assert_eq!(rt;
        read(spelled.as_slice()),
        wanted,
        "case {case}, by a reader"
    );
    let mut written = vec![in heap; 0u8; spelled.len()]?;
    assert_eq!(rt;
        write(written.as_mut_slice(), samples, k),
        wanted,
        "case {case}, by a writer"
    );
    assert!(rt;
        wanted.is_err() || written == spelled,
        "case {case}, other bytes"
    );
    Ok(())
}

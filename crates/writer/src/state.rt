use book::fault::BookFault;

// A book that is being written, with no group underway: how many bytes and rows it has so far.
// It may be let go; a seal uses it up.
#[derive(Drop)]
pub struct OpenBook {
    pub(crate) length: usize,
    pub(crate) rows: usize,
}

// A group of which members are still due. It cannot be let go: its last member spends it, or a strike.
pub struct GroupUnderway {
    // The book so far, with the group's row and the members that were filed, and the book before the group.
    pub(crate) book: OpenBook,
    pub(crate) before: OpenBook,
    // How many members are due.
    pub(crate) due: u8,
    // The first member's area.
    pub(crate) first: Option<u8>,
}

// What a row that was filed leaves, and the row's number.
#[derive(Drop)]
pub struct Filed<B> {
    pub next: B,
    pub row: usize,
}

// What a member leaves: a group with members still due, or, after the last, the open book.
pub enum Membership {
    More(GroupUnderway),
    Last(OpenBook),
}

// What a refused call gives back, as it came, and why.
#[derive(Drop)]
pub struct Refused<B> {
    pub back: B,
    pub fault: BookFault,
}

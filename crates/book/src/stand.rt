ghost use Rattle.std.specs.Prelude.{◌≡◌, ℕ, ◌+◌, ◌^◌, ◌<◌, Some};
ghost use Rattle.byte_layer.specs.Fault.{heard};
ghost use Rattle.book.specs.Fault.{told_book};
ghost use Rattle.book.specs.Rows.{row_size};
ghost use Rattle.book.specs.Stands.{area_on, fresh, begin, due_of, onward, member_on, group_on, closed, after};

use crate::fault::BookFault;
use crate::row::Row;

// The areas of a group's members so far: none yet, all the same, or not.
#[derive(Clone, Copy, PartialEq, Eq, Debug)]
pub enum Areas {
    Unknown,
    Same(u8),
    Mixed,
}

impl Areas {
    // With one member of an area more.
    fn and(self, area: u8) -> Areas
        ensures { result ≡ area_on self area }
    {
        match self {
            Areas::Unknown => Areas::Same(area),
            Areas::Same(first) if area == first => self,
            _ => Areas::Mixed,
        }
    }
}

// An exclusive group underway: how many members are still due, its row, and the areas of its members so far.
#[derive(Clone, Copy)]
pub struct Gathering {
    pub due: u8,
    pub row: usize,
    pub areas: Areas,
}

// Where a reader stands in a text: the bytes and the rows behind it, and the group underway, if any.
#[derive(Clone, Copy)]
pub struct Stand {
    pub at: usize,
    pub rows: usize,
    pub group: Option<Gathering>,
}

impl Stand {
    pub fn begin() -> Stand
        ensures { result ≡ begin }
    {
        Stand::fresh(0, 0)
    }

    // With no group underway.
    pub fn fresh(at: usize, rows: usize) -> Stand
        ensures { result ≡ fresh at rows }
    {
        Stand {
            at,
            rows,
            group: None,
        }
    }

    // How many members are due.
    pub fn due(&self) -> u8
        ensures { result ≡ due_of self.now }
    {
        self.group.map_or(0, |group| group.due)
    }

    // Room for a row more is asked at each call: definitions build stands, and could not with a ghost field (docs/DECISIONS.md).
    fn onward(self, row: &Row) -> Stand
        requires { (self.at + row_size row.now < 2 ^ 64) × (self.rows < 1024) }
        ensures { result ≡ onward self row.now }
    {
        Stand::fresh(self.at + row.size(), self.rows + 1)
    }

    // One member of a group on.
    fn member_on(self, group: Gathering, area: u8) -> Stand
        requires { (self.at + 51 < 2 ^ 64) × ((self.rows < 1024) × ((0 < group.due) × (self.group ≡ Some group))) }
        ensures { result ≡ member_on self area }
    {
        Stand {
            at: self.at + 51,
            rows: self.rows + 1,
            group: Some(Gathering {
                due: group.due - 1,
                row: group.row,
                areas: group.areas.and(area),
            }),
        }
    }

    // A group's own row on.
    fn group_on(self, members: u8) -> Stand
        requires { (self.at + 2 < 2 ^ 64) × (self.rows < 1024) }
        ensures { result ≡ group_on self members }
    {
        Stand {
            at: self.at + 2,
            rows: self.rows + 1,
            group: Some(Gathering {
                due: members,
                row: self.rows,
                areas: Areas::Unknown,
            }),
        }
    }

    // After a member: the last one closes the group, whose members are to be of one area.
    fn closed(self) -> Result<Stand, BookFault>
        ensures { heard told_book result ≡ closed self }
    {
        match self.group {
            Some(group) if group.due > 0 => Ok(self),
            Some(group) if group.areas == Areas::Mixed => Err(BookFault::Mixed(group.row)),
            _ => Ok(Stand::fresh(self.at, self.rows)),
        }
    }

    // Where a reader stands after a row.
    #[tactic(auto, unfolding(crate::specs::Stands::after))]
    pub fn after(self, row: &Row) -> Result<Stand, BookFault>
        requires { (self.at + row_size row.now < 2 ^ 64) × (self.rows < 1024) }
        ensures { heard told_book result ≡ after self row.now }
    {
        match row {
            Row::Bid(bid) => match self.group {
                Some(group) if group.due > 0 => self.member_on(group, bid.area).closed(),
                _ => Ok(self.onward(row)),
            },
            Row::Group(members) => Ok(self.group_on(*members)),
            Row::Need(_) | Row::Border(_) => Ok(self.onward(row)),
        }
    }
}

use bid::lawful::Bid;
use border::lawful::Border;
use group::group::ExclusiveGroup;
use need::lawful::Need;

// What the rows of a book stand for: a bid, an exclusive group with its members, a need, or a border.
#[derive(Clone, Copy)]
pub enum Order {
    Bid(Bid),
    Group(ExclusiveGroup),
    Need(Need),
    Border(Border),
}

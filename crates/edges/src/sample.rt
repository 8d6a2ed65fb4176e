use bid::fields::{BidFields, BidQuarter};
use book::row::Row;
use border::fields::{BorderFields, BorderQuarter};
use border::step::Step;
use byte_layer::fault::Layer;
use need::elasticity::Elasticity;
use need::fields::{NeedFields, NeedQuarter};
use units::side::Side;

// A fault's number, layer and place; a tuple, since a table of cases with `Told` written out would be no plainer.
pub type Fault = (u8, Layer, usize);

// What a text comes to: the book's length and rows, or its first fault.
pub type Outcome = Result<(usize, usize), Fault>;

// A row of a case. Where it has a quarter of its own, the case says in which place.
#[derive(Clone, Copy)]
pub enum Sample {
    // A bid, a need and a border that keep every rule where their areas do.
    Bid(u8),
    Need(u8),
    Border(u8, u8),
    Group(u8),
    // Such a bid and such a border with a quantity that is too large.
    FaultyBid(u8),
    FaultyBorder(u8, u8),
    // In area 31, with a quarter of this minimum, maximum and price; of this maximum and price; and, on a border from
    // area 0, of this forward and back.
    BidQuarter(u32, u32, i32),
    ElasticQuarter(u32, i32),
    InelasticQuarter(u32, i32),
    BorderQuarter(u32, u32),
    // In area 31, with a quarter of this maximum, and no other offered.
    BidOnly(u32),
    NeedOnly(u32),
}

// The rows of a case have their sides and steps by the place too, so that each is tried.
fn side(k: usize) -> Side {
    if k % 2 == 0 {
        Side::Upward
    } else {
        Side::Downward
    }
}

fn bid(area: u8, others: u32, k: usize, minimum: u32, maximum: u32, price: i32) -> Row {
    let other = BidQuarter {
        minimum: 0,
        maximum: others,
        price: 0,
    };
    let mut quarters = [other; 4];
    quarters[k % 4] = BidQuarter {
        minimum,
        maximum,
        price,
    };
    Row::Bid(BidFields {
        area,
        side: side(k),
        quarters,
    })
}

fn need(area: u8, elasticity: Elasticity, others: u32, k: usize, maximum: u32, price: i32) -> Row {
    let other = NeedQuarter {
        maximum: others,
        price: 0,
    };
    let mut quarters = [other; 4];
    quarters[k % 4] = NeedQuarter { maximum, price };
    Row::Need(NeedFields {
        area,
        side: side(k),
        elasticity,
        quarters,
    })
}

fn border(from: u8, to: u8, k: usize, forward: u32, back: u32) -> Row {
    let other = BorderQuarter {
        forward: 1_200,
        back: 50,
    };
    let mut quarters = [other; 4];
    quarters[k % 4] = BorderQuarter { forward, back };
    let step = match k {
        0 => Step::One,
        1 => Step::Two,
        _ => Step::Four,
    };
    Row::Border(BorderFields {
        from,
        to,
        step,
        quarters,
    })
}

impl Sample {
    // The row, with its own quarter in this place.
    pub(crate) fn row(self, k: usize) -> Row {
        let firm = Elasticity::Inelastic;
        let elastic = Elasticity::Elastic;
        match self {
            Sample::Bid(area) => bid(area, 500, k, 100, 255, -125),
            Sample::Need(area) => need(area, firm, 400, k, 7, 0),
            Sample::Border(from, to) => border(from, to, k, 0, 9),
            Sample::Group(members) => Row::Group(members),
            Sample::FaultyBid(area) => bid(area, 500, k, 0, 100_000, 0),
            Sample::FaultyBorder(from, to) => border(from, to, k, 0, 100_000),
            Sample::BidQuarter(least, most, price) => bid(31, 500, k, least, most, price),
            Sample::ElasticQuarter(most, price) => need(31, elastic, 400, k, most, price),
            Sample::InelasticQuarter(most, price) => need(31, firm, 400, k, most, price),
            Sample::BorderQuarter(forward, back) => border(0, 31, k, forward, back),
            Sample::BidOnly(most) => bid(31, 0, k, 0, most, 0),
            Sample::NeedOnly(most) => need(31, firm, 0, k, most, 0),
        }
    }
}

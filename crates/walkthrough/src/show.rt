use bid::fields::{BidFields, BidQuarter};
use book::fault::BookFault;
use book::row::Row;
use border::fields::{BorderFields, BorderQuarter};
use need::elasticity::Elasticity;
use need::fields::{NeedFields, NeedQuarter};
use std::{fmt, io};

// A quantity in MW with one decimal; it counts units of 0.1 MW.
#[derive(Clone, Copy)]
pub(crate) struct Megawatts(pub u32);

// A price in euro per MWh with two decimals; it counts cents.
#[derive(Clone, Copy)]
pub(crate) struct Euros(pub i32);

impl fmt::Display for Megawatts {
    fn fmt<W: fmt::Write>(&self, f: &mut fmt::Formatter<W>) -> fmt::Result {
        let whole = self.0 / 10;
        let tenth = self.0 % 10;
        write!(f, "{whole}.{tenth} MW")
    }
}

impl fmt::Display for Euros {
    fn fmt<W: fmt::Write>(&self, f: &mut fmt::Formatter<W>) -> fmt::Result {
        let sign = if self.0 < 0 { "-" } else { "" };
        let size = self.0.unsigned_abs();
        let euros = size / 100;
        let cents = size % 100;
        write!(f, "{sign}{euros}.{cents:02} euro/MWh")
    }
}

pub(crate) fn told(rt: &impl Print, what: &str, fault: BookFault) -> io::Result<()> {
    println!(rt; "  {what}: {fault}")
}

// Shows each quarter by its number, from the first to the last.
fn quarters<Q: Copy, Show: Fn(usize, Q) -> io::Result<()>>(
    quarters: &[Q; 4],
    show: Show,
) -> io::Result<()>
    requires { Show.IsAlwaysCallable show }
{
    for (number, q) in quarters.iter().enumerate() {
        show(number, *q)?;
    }
    Ok(())
}

fn bid_quarter(rt: &impl Print, number: usize, q: BidQuarter) -> io::Result<()> {
    if q.maximum == 0 {
        return Ok(());
    }
    println!(rt;
        "      quarter {number}: {} to {} at {}",
        Megawatts(q.minimum),
        Megawatts(q.maximum),
        Euros(q.price)
    )
}

fn need_quarter(
    rt: &impl Print,
    number: usize,
    elasticity: Elasticity,
    q: NeedQuarter,
) -> io::Result<()> {
    if q.maximum == 0 {
        return Ok(());
    }
    let high = Megawatts(q.maximum);
    match elasticity {
        Elasticity::Elastic => {
            println!(rt;
                "      quarter {number}: up to {high} at {}",
                Euros(q.price)
            )
        }
        Elasticity::Inelastic => println!(rt; "      quarter {number}: up to {high} at any price"),
    }
}

fn border_quarter(rt: &impl Print, number: usize, q: BorderQuarter) -> io::Result<()> {
    println!(rt;
        "      quarter {number}: {} forward, {} back",
        Megawatts(q.forward),
        Megawatts(q.back)
    )
}

fn bid(rt: &impl Print, number: usize, fields: &BidFields) -> io::Result<()> {
    println!(rt;
        "    row {number}: {} bid in area {}",
        fields.side, fields.area
    )?;
    quarters(&fields.quarters, |k, q| bid_quarter(rt, k, q))
}

fn need(rt: &impl Print, number: usize, fields: &NeedFields) -> io::Result<()> {
    println!(rt;
        "    row {number}: {} {} need in area {}",
        fields.elasticity, fields.side, fields.area
    )?;
    quarters(
        &fields.quarters,
        |k, q| need_quarter(rt, k, fields.elasticity, q),
    )
}

fn border(rt: &impl Print, number: usize, fields: &BorderFields) -> io::Result<()> {
    println!(rt;
        "    row {number}: border from area {} to area {}, flow constant over {} quarters",
        fields.from, fields.to, fields.step
    )?;
    quarters(&fields.quarters, |k, q| border_quarter(rt, k, q))
}

pub(crate) fn row(rt: &impl Print, number: usize, row: Row) -> io::Result<()> {
    match row {
        Row::Bid(fields) => bid(rt, number, &fields),
        Row::Group(members) => {
            println!(rt; "    row {number}: exclusive group of the next {members} bids")
        }
        Row::Need(fields) => need(rt, number, &fields),
        Row::Border(fields) => border(rt, number, &fields),
    }
}

use crate::sample::{Fault, Outcome, Sample};
use bid::fields::BidFields;
use book::check::check;
use book::fault::BookFault;
use book::row::Row;
use border::fields::BorderFields;
use border::step::Step;
use need::elasticity::Elasticity;
use need::fields::NeedFields;
use std::alloc::{AllocError, Global};
use units::side::Side;

// Texts spelled out by the rules, with no writer.

pub(crate) fn side_byte(side: Side) -> u8 {
    match side {
        Side::Upward => 0,
        Side::Downward => 1,
    }
}

// Bytes, and numbers of four bytes each behind them, the highest byte first.
pub(crate) fn spell(text: &mut Vec<u8>, front: &[u8], numbers: &[u32]) -> Result<(), AllocError> {
    text.extend_from_slice(front)?;
    for number in numbers {
        text.extend_from_slice(&number.to_be_bytes())?;
    }
    Ok(())
}

fn spell_bid(text: &mut Vec<u8>, bid: BidFields) -> Result<(), AllocError> {
    spell(text, &[0x42, bid.area, side_byte(bid.side)], &[])?;
    for q in bid.quarters {
        spell(text, &[], &[q.minimum, q.maximum, q.price.cast_unsigned()])?;
    }
    Ok(())
}

fn spell_need(text: &mut Vec<u8>, need: NeedFields) -> Result<(), AllocError> {
    let elastic = need.elasticity == Elasticity::Elastic;
    let front = [0x4E, need.area, side_byte(need.side), u8::from(elastic)];
    spell(text, &front, &[])?;
    for q in need.quarters {
        spell(text, &[], &[q.maximum, q.price.cast_unsigned()])?;
    }
    Ok(())
}

fn spell_border(text: &mut Vec<u8>, border: BorderFields) -> Result<(), AllocError> {
    let step = match border.step {
        Step::One => 1,
        Step::Two => 2,
        Step::Four => 4,
    };
    spell(text, &[0x4C, border.from, border.to, step], &[])?;
    for q in border.quarters {
        spell(text, &[], &[q.forward, q.back])?;
    }
    Ok(())
}

// A row's command; a price below zero is spelled as the number that has its bytes.
pub(crate) fn spell_row(text: &mut Vec<u8>, row: Row) -> Result<(), AllocError> {
    match row {
        Row::Bid(bid) => spell_bid(text, bid),
        Row::Group(members) => spell(text, &[0x45, members], &[]),
        Row::Need(need) => spell_need(text, need),
        Row::Border(border) => spell_border(text, border),
    }
}

// The commands of rows, lawful or not, and bytes behind them.
pub(crate) fn ended(
    heap: Global,
    samples: &[Sample],
    k: usize,
    end: &[u8],
) -> Result<Vec<u8>, AllocError> {
    let mut text = Vec::new(heap);
    for sample in samples {
        spell_row(&mut text, sample.row(k))?;
    }
    text.extend_from_slice(end)?;
    Ok(text)
}

pub(crate) fn told(fault: BookFault) -> Fault {
    let told = fault.tell();
    (told.number, told.layer, told.place)
}

// What a reader tells of a text.
pub(crate) fn read(text: &[u8]) -> Outcome {
    check(text)
        .map(|found| (found.length, found.rows))
        .map_err(told)
}

// What a reader tells of rows, and bytes behind them.
pub(crate) fn read_rows(
    heap: Global,
    samples: &[Sample],
    end: &[u8],
) -> Result<Outcome, AllocError> {
    let text = ended(heap, samples, 0, end)?;
    Ok(read(text.as_slice()))
}

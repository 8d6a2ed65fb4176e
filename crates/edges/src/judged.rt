use crate::spelled::spell;
use bid::fields::{BidFields, BidQuarter};
use judge::fault::JudgeFault;
use judge::judge::{Figures, judge};
use lot::fault::MarketFault;
use need::elasticity::Elasticity;
use need::fields::{NeedFields, NeedQuarter};
use page::fault::PageFault;
use sealed::sealed_book::SealedBook;
use std::alloc::{AllocError, Global};
use std::test::Fail;
use units::side::Side;
use writer::state::OpenBook;

// Judging the book of a bid and a need in area 1, quarter 2: upward, up to 500 at 3,000; elastic, up to 400 at 8,000.

fn bid() -> BidFields {
    let none = BidQuarter {
        minimum: 0,
        maximum: 0,
        price: 0,
    };
    let offered = BidQuarter {
        minimum: 0,
        maximum: 500,
        price: 3_000,
    };
    BidFields {
        area: 1,
        side: Side::Upward,
        quarters: [none, none, offered, none],
    }
}

fn need() -> NeedFields {
    let none = NeedQuarter {
        maximum: 0,
        price: 0,
    };
    let wanted = NeedQuarter {
        maximum: 400,
        price: 8_000,
    };
    NeedFields {
        area: 1,
        side: Side::Upward,
        elasticity: Elasticity::Elastic,
        quarters: [none, none, wanted, none],
    }
}

// A page of one cell for each row, and a price there.
fn spell_page(heap: Global, cells: [u32; 2], price: u32) -> Result<Vec<u8>, AllocError> {
    let mut page = Vec::new(heap);
    spell(&mut page, &[0x50], &[])?;
    for cell in cells {
        spell(&mut page, &[0x51], &[0, 0, cell, 0])?;
    }
    for area in 0..32 {
        let there = if area == 1 { price } else { 0 };
        spell(&mut page, &[0x43], &[0, 0, there, 0])?;
    }
    Ok(page)
}

fn judged(heap: Global, cells: [u32; 2], price: u32) -> Result<Result<Figures, JudgeFault>, Fail> {
    let mut text = [0u8; 88];
    let Ok(filed) = OpenBook::start().file(&mut text, bid()) else {
        return Err(Fail::new("no bid"));
    };
    let Ok(filed) = filed.next.file(&mut text, need()) else {
        return Err(Fail::new("no need"));
    };
    let Ok(_length) = filed.next.seal(&mut text) else {
        return Err(Fail::new("no seal"));
    };
    let page = spell_page(heap, cells, price)?;
    Ok(judge(&SealedBook::open(&text), page.as_slice()))
}

#[test]
fn figures_of_an_accepted_page(rt: HostRuntime) -> Result<(), Fail> {
    for (cells, price, welfare, foregone) in [
        ([400, 400], 3_000, 2_000_000, 0),
        ([300, 300], 5_000, 1_500_000, 700_000),
        ([0, 0], 8_000, 0, 2_500_000),
    ] {
        assert_eq!(rt;
            judged(rt.alloc(), cells, price)?,
            Ok(Figures { welfare, foregone })
        );
    }
    Ok(())
}

#[test]
fn what_a_page_is_refused_for(rt: HostRuntime) -> Result<(), Fail> {
    let market = JudgeFault::Market;
    for (cells, price, fault) in [
        ([501, 400], 3_000, market(MarketFault::Refused(0))),
        ([500, 401], 3_000, market(MarketFault::Refused(1))),
        ([500, 400], 3_000, market(MarketFault::Unbalanced(6))),
        ([100, 100], 2_500, market(MarketFault::Broken(0))),
        ([100, 100], 8_001, market(MarketFault::Broken(1))),
        (
            [501, 400],
            10_000_000,
            JudgeFault::Page(PageFault::Price(6)),
        ),
    ] {
        assert_eq!(rt; judged(rt.alloc(), cells, price)?, Err(fault));
    }
    Ok(())
}

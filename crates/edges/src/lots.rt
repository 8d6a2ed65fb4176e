use crate::spelled::spell;
use asked::ask;
use asked::unasked::Unasked;
use bid::fields::{BidFields, BidQuarter};
use bid::lawful::Bid;
use border::fields::{BorderFields, BorderQuarter};
use border::lawful::Border;
use border::step::Step;
use group::group::ExclusiveGroup;
use joined::joined::Joined;
use lot::lot::Lot;
use lot::views::{Cells, Prices};
use need::elasticity::Elasticity;
use need::fields::{NeedFields, NeedQuarter};
use need::lawful::Need;
use std::alloc::{AllocError, Global};
use std::test::Fail;
use units::side::Side;

// Questions to lots, against figures that were worked out by hand.

// What a lot answers of one row: what is named for admission and for the price rule, the row's worth and amount, and best.
#[derive(Clone, Copy, PartialEq, Eq, Debug)]
struct Answers {
    refused: Result<Option<usize>, Unasked>,
    broken: Result<Option<usize>, Unasked>,
    worth: Result<i64, Unasked>,
    amount: Result<i64, Unasked>,
    best: Result<i64, Unasked>,
}

fn spell_rows(heap: Global, command: u8, rows: &[[i32; 4]]) -> Result<Vec<u8>, AllocError> {
    let mut page = Vec::new(heap);
    for row in rows {
        spell(&mut page, &[command], &row.map(i32::cast_unsigned))?;
    }
    Ok(page)
}

// The prices of areas 0 and 1, and 0 in all others.
fn spell_prices(heap: Global, first: [i32; 4], second: [i32; 4]) -> Result<Vec<u8>, AllocError> {
    let mut areas = [[0; 4]; 32];
    areas[0] = first;
    areas[1] = second;
    spell_rows(heap, 0x43, &areas)
}

// The answers of a lot for cells and for prices in areas 0 and 1.
fn asked<L: Lot>(
    heap: Global,
    lot: &L,
    row: usize,
    rows: &[[i32; 4]],
    first: [i32; 4],
    second: [i32; 4],
) -> Result<Answers, AllocError> {
    let cells = spell_rows(heap, 0x51, rows)?;
    let prices = spell_prices(heap, first, second)?;
    let cells = Cells {
        bytes: cells.as_slice(),
    };
    let prices = Prices {
        bytes: prices.as_slice(),
    };
    Ok(Answers {
        refused: ask::refused(lot, cells),
        broken: ask::broken(lot, cells, prices),
        worth: ask::worth(lot, cells, row),
        amount: ask::amount(lot, cells, prices, row),
        best: ask::best(lot, prices),
    })
}

fn figures(worth: i64, amount: i64, best: i64, broken: Option<usize>) -> Answers {
    Answers {
        refused: Ok(None),
        broken: Ok(broken),
        worth: Ok(worth),
        amount: Ok(amount),
        best: Ok(best),
    }
}

fn refused(row: usize, best: i64) -> Answers {
    Answers {
        refused: Ok(Some(row)),
        broken: Err(Unasked::RefusedCells),
        worth: Err(Unasked::RefusedCells),
        amount: Err(Unasked::RefusedCells),
        best: Ok(best),
    }
}

// A bid in area 0 that offers these quarters, each by its minimum, maximum and price, from the first quarter on.
fn bid(side: Side, first: (u32, u32, i32), second: (u32, u32, i32)) -> Result<Bid, Fail> {
    let quarter = |q: (u32, u32, i32)| BidQuarter {
        minimum: q.0,
        maximum: q.1,
        price: q.2,
    };
    let none = BidQuarter {
        minimum: 0,
        maximum: 0,
        price: 0,
    };
    let fields = BidFields {
        area: 0,
        side,
        quarters: [quarter(first), quarter(second), none, none],
    };
    Bid::try_from(fields).map_err(|_fault| Fail::new("no lawful bid"))
}

// A need in area 0, of these maxima and prices in the first two quarters.
fn need(
    side: Side,
    elasticity: Elasticity,
    first: (u32, i32),
    second: (u32, i32),
) -> Result<Need, Fail> {
    let quarter = |q: (u32, i32)| NeedQuarter {
        maximum: q.0,
        price: q.1,
    };
    let none = NeedQuarter {
        maximum: 0,
        price: 0,
    };
    let fields = NeedFields {
        area: 0,
        side,
        elasticity,
        quarters: [quarter(first), quarter(second), none, none],
    };
    Need::try_from(fields).map_err(|_fault| Fail::new("no lawful need"))
}

// A border from area 0 to area 1, of these capacities forward and back in the first two quarters.
fn border(step: Step, first: (u32, u32), second: (u32, u32)) -> Result<Border, Fail> {
    let quarter = |q: (u32, u32)| BorderQuarter {
        forward: q.0,
        back: q.1,
    };
    let none = BorderQuarter {
        forward: 0,
        back: 0,
    };
    let fields = BorderFields {
        from: 0,
        to: 1,
        step,
        quarters: [quarter(first), quarter(second), none, none],
    };
    Border::try_from(fields).map_err(|_fault| Fail::new("no lawful border"))
}

const NONE: [i32; 4] = [0; 4];

// Minima 0, maxima 100 and 200: one share of both, or nothing.
#[test]
fn one_share_of_the_maxima(rt: HostRuntime) -> Result<(), Fail> {
    let lot = bid(Side::Upward, (0, 100, 0), (0, 200, 0))?;
    let kept = figures(0, 0, 0, None);
    for cells in [[50, 100, 0, 0], [100, 200, 0, 0], [1, 2, 0, 0], NONE] {
        assert_eq!(rt; asked(rt.alloc(), &lot, 0, &[cells], NONE, NONE)?, kept);
    }
    for cells in [
        [50, 101, 0, 0],
        [101, 202, 0, 0],
        [0, 1, 0, 0],
        [50, 100, 1, 0],
        [-1, -2, 0, 0],
    ] {
        assert_eq!(rt;
            asked(rt.alloc(), &lot, 0, &[cells], NONE, NONE)?,
            refused(0, 0)
        );
    }
    Ok(())
}

// A minimum of 10 and a maximum of 20, at no price: from 10 to 20, or nothing.
#[test]
fn a_minimum_or_nothing(rt: HostRuntime) -> Result<(), Fail> {
    let lot = bid(Side::Upward, (10, 20, 0), (0, 0, 0))?;
    for cell in [0, 10, 20] {
        assert_eq!(rt;
            asked(rt.alloc(), &lot, 0, &[[cell, 0, 0, 0]], NONE, NONE)?,
            figures(0, 0, 0, None)
        );
    }
    for cell in [9, 21, -10] {
        assert_eq!(rt;
            asked(rt.alloc(), &lot, 0, &[[cell, 0, 0, 0]], NONE, NONE)?,
            refused(0, 0)
        );
    }
    Ok(())
}

// Upward, 100 and 100 at 3,000: what a quarter at 2,000 loses another at 5,000 may make good. At its full size the bid
// gains 100 times -1,000 and 100 times 2,000.
#[test]
fn a_bid_over_its_quarters_together(rt: HostRuntime) -> Result<(), Fail> {
    let lot = bid(Side::Upward, (0, 100, 3_000), (0, 100, 3_000))?;
    let cells = [[50, 50, 0, 0]];
    assert_eq!(rt;
        asked(rt.alloc(), &lot, 0, &cells, [2_000, 5_000, 0, 0], NONE)?,
        figures(-300_000, 350_000, 100_000, None)
    );
    assert_eq!(rt;
        asked(rt.alloc(), &lot, 0, &cells, [2_000, 4_000, 0, 0], NONE)?,
        figures(-300_000, 300_000, 0, None)
    );
    assert_eq!(rt;
        asked(rt.alloc(), &lot, 0, &cells, [2_000, 3_999, 0, 0], NONE)?,
        figures(-300_000, 299_950, 0, Some(0))
    );
    Ok(())
}

// Downward, minimum 10, maximum 100 at 3,000: it buys, so what it gains is 3,000 minus the price.
#[test]
fn a_downward_bid_buys(rt: HostRuntime) -> Result<(), Fail> {
    let lot = bid(Side::Downward, (10, 100, 3_000), (0, 0, 0))?;
    let cells = [[40, 0, 0, 0]];
    assert_eq!(rt;
        asked(rt.alloc(), &lot, 0, &cells, [2_000, 0, 0, 0], NONE)?,
        figures(120_000, -80_000, 100_000, None)
    );
    assert_eq!(rt;
        asked(rt.alloc(), &lot, 0, &cells, [3_001, 0, 0, 0], NONE)?,
        figures(120_000, -120_040, 0, Some(0))
    );
    Ok(())
}

// An elastic upward need of 100 at 5,000 and 100 at 1,000: it is held to its price in each quarter.
#[test]
fn a_need_in_each_quarter(rt: HostRuntime) -> Result<(), Fail> {
    let lot = need(
        Side::Upward,
        Elasticity::Elastic,
        (100, 5_000),
        (100, 1_000),
    )?;
    let prices = [4_000, 1_001, 0, 0];
    assert_eq!(rt;
        asked(rt.alloc(), &lot, 0, &[[100, 0, 0, 0]], prices, NONE)?,
        figures(500_000, -400_000, 100_000, None)
    );
    assert_eq!(rt;
        asked(rt.alloc(), &lot, 0, &[[100, 1, 0, 0]], prices, NONE)?,
        figures(501_000, -401_001, 100_000, Some(0))
    );
    assert_eq!(rt;
        asked(rt.alloc(), &lot, 0, &[[101, 0, 0, 0]], prices, NONE)?,
        refused(0, 100_000)
    );
    Ok(())
}

// An inelastic need counts at the cap, 9,999,999, or, downward, at minus the cap.
#[test]
fn an_inelastic_need_at_the_cap(rt: HostRuntime) -> Result<(), Fail> {
    let upward = need(Side::Upward, Elasticity::Inelastic, (10, 0), (0, 0))?;
    assert_eq!(rt;
        asked(
            rt.alloc(),
            &upward,
            0,
            &[[10, 0, 0, 0]],
            [9_999_999, 0, 0, 0],
            NONE
        )?,
        figures(99_999_990, -99_999_990, 0, None)
    );
    let downward = need(Side::Downward, Elasticity::Inelastic, (10, 0), (0, 0))?;
    assert_eq!(rt;
        asked(
            rt.alloc(),
            &downward,
            0,
            &[[10, 0, 0, 0]],
            [-9_999_998, 0, 0, 0],
            NONE
        )?,
        figures(99_999_990, -99_999_980, 10, None)
    );
    Ok(())
}

// 100 forward and 50 back, 100 of them taken: full, so prices may differ one way.
#[test]
fn a_full_border_earns_its_rent(rt: HostRuntime) -> Result<(), Fail> {
    let lot = border(Step::One, (100, 50), (0, 0))?;
    let cells = [[100, 0, 0, 0]];
    assert_eq!(rt;
        asked(
            rt.alloc(),
            &lot,
            0,
            &cells,
            [500, 0, 0, 0],
            [1_500, 0, 0, 0]
        )?,
        figures(0, 100_000, 100_000, None)
    );
    assert_eq!(rt;
        asked(rt.alloc(), &lot, 0, &cells, [1, 0, 0, 0], NONE)?,
        figures(0, -100, 50, Some(0))
    );
    for cell in [101, -51] {
        assert_eq!(rt;
            asked(rt.alloc(), &lot, 0, &[[cell, 0, 0, 0]], NONE, NONE)?,
            refused(0, 0)
        );
    }
    Ok(())
}

// Nothing forward: an idle border holds prices together one way, unless it is closed the other way too.
#[test]
fn an_idle_border_at_a_closed_end(rt: HostRuntime) -> Result<(), Fail> {
    let back = border(Step::One, (0, 50), (0, 0))?;
    assert_eq!(rt;
        asked(rt.alloc(), &back, 0, &[NONE], [5, 0, 0, 0], NONE)?,
        figures(0, 0, 250, Some(0))
    );
    assert_eq!(rt;
        asked(rt.alloc(), &back, 0, &[NONE], NONE, [5, 0, 0, 0])?,
        figures(0, 0, 0, None)
    );
    let shut = border(Step::One, (0, 0), (0, 0))?;
    assert_eq!(rt;
        asked(rt.alloc(), &shut, 0, &[NONE], [5, 0, 0, 0], NONE)?,
        figures(0, 0, 0, None)
    );
    Ok(())
}

// A step of two quarters: the smaller capacity of 60 holds for both, and the price differences count together.
#[test]
fn a_step_by_its_smallest_capacity(rt: HostRuntime) -> Result<(), Fail> {
    let lot = border(Step::Two, (100, 0), (60, 0))?;
    let dearer = [30, -10, 0, 0];
    assert_eq!(rt;
        asked(rt.alloc(), &lot, 0, &[[60, 60, 0, 0]], NONE, dearer)?,
        figures(0, 1_200, 1_200, None)
    );
    assert_eq!(rt;
        asked(rt.alloc(), &lot, 0, &[[59, 59, 0, 0]], NONE, dearer)?,
        figures(0, 1_180, 1_200, Some(0))
    );
    for cells in [[61, 61, 0, 0], [60, 59, 0, 0]] {
        assert_eq!(rt;
            asked(rt.alloc(), &lot, 0, &[cells], NONE, dearer)?,
            refused(0, 1_200)
        );
    }
    Ok(())
}

// Two siblings, of which the first gains 100 times 1,000 and the second 300 times 500: the larger is best, not the sum.
#[test]
fn one_sibling_at_most(rt: HostRuntime) -> Result<(), Fail> {
    let first = bid(Side::Upward, (0, 100, 3_000), (0, 0, 0))?;
    let second = bid(Side::Upward, (0, 300, 3_500), (0, 0, 0))?;
    let Some(lot) = ExclusiveGroup::of(&[first, second]) else {
        return Err(Fail::new("no group"));
    };
    let prices = [4_000, 0, 0, 0];
    let part = [10, 0, 0, 0];
    assert_eq!(rt;
        asked(rt.alloc(), &lot, 1, &[part, NONE], prices, NONE)?,
        figures(-30_000, 40_000, 150_000, None)
    );
    assert_eq!(rt;
        asked(rt.alloc(), &lot, 0, &[part, NONE], prices, NONE)?,
        figures(0, 0, 150_000, None)
    );
    assert_eq!(rt;
        asked(rt.alloc(), &lot, 2, &[NONE, part], [3_499, 0, 0, 0], NONE)?,
        figures(-35_000, 34_990, 49_900, Some(2))
    );
    assert_eq!(rt;
        asked(rt.alloc(), &lot, 0, &[part, part], prices, NONE)?,
        refused(0, 150_000)
    );
    assert_eq!(rt;
        asked(rt.alloc(), &lot, 0, &[part, [301, 0, 0, 0]], prices, NONE)?,
        refused(2, 150_000)
    );
    Ok(())
}

// A border and, behind it, a bid at its first end: nets and bests add, and the bid's row is raised.
#[test]
fn two_lots_joined(rt: HostRuntime) -> Result<(), Fail> {
    let lot = Joined(
        border(Step::One, (100, 0), (0, 0))?,
        bid(Side::Upward, (0, 100, 3_000), (0, 0, 0))?,
    );
    let cells = [[40, 0, 0, 0], [40, 0, 0, 0]];
    let bytes = spell_rows(rt.alloc(), 0x51, &cells)?;
    let view = Cells {
        bytes: bytes.as_slice(),
    };
    assert_eq!(rt; (lot.row_count(), lot.cell_row_count()), (2, 2));
    assert_eq!(rt;
        (ask::net(&lot, view, 0, 0), ask::net(&lot, view, 1, 0)),
        (Ok(0), Ok(40))
    );
    assert_eq!(rt;
        asked(
            rt.alloc(),
            &lot,
            1,
            &cells,
            [3_500, 0, 0, 0],
            [3_500, 0, 0, 0]
        )?,
        figures(-120_000, 140_000, 50_000, None)
    );
    assert_eq!(rt;
        asked(
            rt.alloc(),
            &lot,
            1,
            &cells,
            [2_999, 0, 0, 0],
            [2_999, 0, 0, 0]
        )?,
        figures(-120_000, 119_960, 0, Some(1))
    );
    assert_eq!(rt;
        asked(rt.alloc(), &lot, 1, &[NONE, [101, 0, 0, 0]], NONE, NONE)?,
        refused(1, 0)
    );
    Ok(())
}

// Why a question is not asked, in the order in which it is tried.
#[test]
fn questions_that_have_no_answer(rt: HostRuntime) -> Result<(), Fail> {
    let lot = bid(Side::Upward, (0, 100, 0), (0, 0, 0))?;
    let cells = spell_rows(rt.alloc(), 0x51, &[NONE])?;
    let view = Cells {
        bytes: cells.as_slice(),
    };
    let none = spell_rows(rt.alloc(), 0x51, &[])?;
    let short = Cells {
        bytes: none.as_slice(),
    };
    let capped = spell_prices(rt.alloc(), [9_999_999, 0, 0, 0], [0, 0, 0, -9_999_999])?;
    let beyond = spell_prices(rt.alloc(), NONE, [0, 0, 0, -10_000_000])?;
    let capped = Prices {
        bytes: capped.as_slice(),
    };
    let beyond = Prices {
        bytes: beyond.as_slice(),
    };
    assert_eq!(rt; ask::best(&lot, capped), Ok(999_999_900));
    assert_eq!(rt; ask::best(&lot, beyond), Err(Unasked::OtherPrices));
    assert_eq!(rt;
        ask::amount(&lot, view, beyond, 1),
        Err(Unasked::OtherPrices)
    );
    assert_eq!(rt; ask::amount(&lot, view, capped, 1), Err(Unasked::NoPlace));
    assert_eq!(rt; ask::worth(&lot, view, 1), Err(Unasked::NoPlace));
    assert_eq!(rt; ask::net(&lot, view, 32, 0), Err(Unasked::NoPlace));
    assert_eq!(rt; ask::net(&lot, view, 31, 4), Err(Unasked::NoPlace));
    assert_eq!(rt; ask::net(&lot, view, 31, 3), Ok(0));
    assert_eq!(rt; ask::refused(&lot, short), Err(Unasked::OtherCells));
    assert_eq!(rt; ask::worth(&lot, short, 1), Err(Unasked::OtherCells));
    Ok(())
}

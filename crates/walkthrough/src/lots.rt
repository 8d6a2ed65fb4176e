use crate::examples::{
    block_bid, firm_need, large_book, small_bid, small_book, small_need, wide_border,
};
use crate::show;
use asked::ask;
use asked::unasked::Unasked;
use judge::judge::judge;
use lot::lot::Lot;
use lot::views::{Cells, Prices};
use page::shape::{CELLS, PAGE, PRICES};
use sealed::sealed_book::SealedBook;
use std::alloc::Global;
use std::io;

// Four numbers as a row of a page: a command byte, and each number in four bytes.
fn push_row(page: &mut Vec<u8>, command: u8, numbers: &[i32; 4]) -> anyhow::Result<()> {
    page.push(command)?;
    for number in numbers {
        page.extend_from_slice(&number.to_be_bytes())?;
    }
    Ok(())
}

fn cells_of(heap: Global, rows: &[[i32; 4]]) -> anyhow::Result<Vec<u8>> {
    let mut page = Vec::new(heap);
    for row in rows {
        push_row(&mut page, CELLS, row)?;
    }
    Ok(page)
}

// The prices of some areas, and 0 in all others.
fn prices_of(heap: Global, areas: &[(usize, [i32; 4])]) -> anyhow::Result<Vec<u8>> {
    let mut page = Vec::new(heap);
    for area in 0..32 {
        let numbers = areas
            .iter()
            .find(|priced| priced.0 == area)
            .map_or([0; 4], |priced| priced.1);
        push_row(&mut page, PRICES, &numbers)?;
    }
    Ok(page)
}

// Where a lot puts power in or takes it out.
fn nets<L: Lot>(rt: &impl Print, lot: &L, cells: Cells<'_>) -> io::Result<()> {
    let mut balanced = true;
    for area in 0..32 {
        for quarter in 0..4 {
            match ask::net(lot, cells, area, quarter) {
                Ok(0) => {}
                Ok(net) => {
                    balanced = false;
                    println!(rt; "    area {area}, quarter {quarter}: net {net}")?;
                }
                Err(_why) => balanced = false,
            }
        }
    }
    if balanced {
        println!(rt; "    net 0 in every area and quarter")?;
    }
    Ok(())
}

// What each row is worth and comes to.
fn figures<L: Lot>(
    rt: &impl Print,
    lot: &L,
    cells: Cells<'_>,
    prices: Prices<'_>,
) -> io::Result<()> {
    for row in 0..lot.row_count() {
        if let (Ok(worth), Ok(amount)) = (
            ask::worth(lot, cells, row),
            ask::amount(lot, cells, prices, row),
        ) {
            println!(rt; "    row {row}: worth {worth}, amount {amount}")?;
        }
    }
    Ok(())
}

// The row that is named, if one is.
fn named(
    rt: &impl Print,
    what: &str,
    held: &str,
    answer: Result<Option<usize>, Unasked>,
) -> io::Result<()> {
    match answer {
        Ok(None) => println!(rt; "    {what}: {held}"),
        Ok(Some(row)) => println!(rt; "    {what}: row {row} is named"),
        Err(why) => println!(rt; "    {what}: not asked, {why}"),
    }
}

// A lot's answers to its questions.
fn answers<L: Lot>(
    rt: &impl Print,
    lot: &L,
    cells: Cells<'_>,
    prices: Prices<'_>,
) -> io::Result<()> {
    println!(rt;
        "    {} rows, {} of them with cells",
        lot.row_count(),
        lot.cell_row_count()
    )?;
    named(rt, "cells", "admitted", ask::refused(lot, cells))?;
    nets(rt, lot, cells)?;
    figures(rt, lot, cells, prices)?;
    match ask::best(lot, prices) {
        Ok(best) => println!(rt; "    best {best}")?,
        Err(why) => println!(rt; "    best: not asked, {why}")?,
    }
    named(rt, "price rule", "kept", ask::broken(lot, cells, prices))
}

// A book's answers for cells and prices that are given by their numbers, and what is judged of the page that proposes them.
fn shown(
    rt: &impl Print,
    heap: Global,
    what: &str,
    book: &[u8],
    rows: &[[i32; 4]],
    areas: &[(usize, [i32; 4])],
) -> anyhow::Result<()> {
    println!(rt; "  {what}")?;
    let cells = cells_of(heap, rows)?;
    let prices = prices_of(heap, areas)?;
    let mut page = Vec::new(heap);
    page.push(PAGE)?;
    page.extend_from_slice(cells.as_slice())?;
    page.extend_from_slice(prices.as_slice())?;
    let cells = Cells {
        bytes: cells.as_slice(),
    };
    let prices = Prices {
        bytes: prices.as_slice(),
    };
    let book = SealedBook::open(book);
    answers(rt, &book, cells, prices)?;
    match judge(&book, page.as_slice()) {
        Ok(figures) => println!(rt;
            "    judged: welfare {}, foregone surplus {}",
            figures.welfare, figures.foregone
        )?,
        Err(fault) => println!(rt; "    judged: {fault}")?,
    }
    Ok(())
}

// The book of a bid and a need in area 1, quarter 2.
fn of_the_small_book(rt: &impl Print, heap: Global) -> anyhow::Result<()> {
    let mut text = [0u8; 100];
    let book = match small_book(&mut text, small_bid(), small_need()) {
        Ok(length) => &text[..length.min(100)],
        Err(refused) => {
            show::told(rt, "the small book", refused.fault)?;
            return Ok(());
        }
    };
    let part = [[0, 0, 400, 0], [0, 0, 400, 0]];
    shown(
        rt,
        heap,
        "40 of the bid's 50 MW, at 35 euro",
        book,
        &part,
        &[(1, [0, 0, 3_500, 0])],
    )?;
    shown(
        rt,
        heap,
        "the same at 25 euro, below the bid's 30",
        book,
        &part,
        &[(1, [0, 0, 2_500, 0])],
    )?;
    shown(
        rt,
        heap,
        "a tenth of a MW more than the bid offers",
        book,
        &[[0, 0, 501, 0], [0, 0, 400, 0]],
        &[(1, [0, 0, 3_500, 0])],
    )?;
    shown(
        rt,
        heap,
        "the cells of one row alone",
        book,
        &[[0, 0, 400, 0]],
        &[(1, [0, 0, 3_500, 0])],
    )
}

// The book of a need, a border, a bid and a group of two: cell rows 0 to 4 are the need's, the border's, the bid's and
// those of the two members.
fn of_the_larger_book(rt: &impl Print, heap: Global) -> anyhow::Result<()> {
    let mut text = [0u8; 300];
    let book = match large_book(
        &mut text,
        firm_need(),
        wide_border(),
        small_bid(),
        block_bid(7),
        block_bid(7),
    ) {
        Ok(length) => &text[..length.min(300)],
        Err(refused) => {
            show::told(rt, "the larger book", refused.fault)?;
            return Ok(());
        }
    };
    let none = [0, 0, 0, 0];
    let block = [200, 200, 0, 0];
    let even = [(7, [4_000, -500, 0, 0]), (31, [4_000, -500, 0, 0])];
    shown(
        rt,
        heap,
        "one sibling for the need, the border idle, prices alike",
        book,
        &[block, none, none, block, none],
        &even,
    )?;
    shown(
        rt,
        heap,
        "the same, where area 31 is a cent dearer: an idle border holds prices together",
        book,
        &[block, none, none, block, none],
        &[(7, [4_000, -500, 0, 0]), (31, [4_001, -500, 0, 0])],
    )?;
    shown(
        rt,
        heap,
        "the border full on its way back, area 31 a euro cheaper there",
        book,
        &[none, [0, 0, -5_000, -5_000], none, none, none],
        &[
            (7, [4_000, 4_000, 4_000, 4_000]),
            (31, [4_000, 4_000, 3_900, 3_900]),
        ],
    )?;
    shown(
        rt,
        heap,
        "both siblings",
        book,
        &[[400, 400, 0, 0], none, none, block, block],
        &even,
    )?;
    shown(
        rt,
        heap,
        "a sibling in two shares",
        book,
        &[block, none, none, [200, 201, 0, 0], none],
        &even,
    )
}

// What lots answer, in grains: 0.1 MW at a price of one cent per MWh for one quarter.
pub(crate) fn lots(rt: &impl Print, heap: Global) -> anyhow::Result<()> {
    println!(rt; "What the small book answers as a lot")?;
    of_the_small_book(rt, heap)?;
    println!(rt; "What the larger book answers as a lot")?;
    of_the_larger_book(rt, heap)
}

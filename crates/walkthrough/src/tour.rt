use crate::examples::{
    block_bid, firm_need, large_book, small_bid, small_book, small_need, wide_border,
};
use crate::{refusals, show};
use book::check::check;
use sealed::sealed_book::SealedBook;
use std::alloc::Global;
use std::io;
use writer::state::{OpenBook, Refused};

// Checks a text, opens it as a sealed book, and reads it row by row.
fn read_back(rt: &impl Print, text: &[u8]) -> io::Result<()> {
    match check(text) {
        Ok(found) => println!(rt; "  checked: {} bytes, {} rows", found.length, found.rows)?,
        Err(fault) => show::told(rt, "checked", fault)?,
    }
    println!(rt; "  opened, and read row by row:")?;
    for (number, row) in SealedBook::open(text).iter().enumerate() {
        show::row(rt, number, row)?;
    }
    Ok(())
}

fn written(
    rt: &impl Print,
    text: &[u8],
    outcome: Result<usize, Refused<OpenBook>>,
) -> io::Result<()> {
    match outcome {
        Ok(length) => {
            println!(rt; "  written and sealed: {length} bytes")?;
            read_back(rt, text)
        }
        Err(refused) => show::told(rt, "refused", refused.fault),
    }
}

pub(crate) fn tour(rt: &impl Print, heap: Global) -> anyhow::Result<()> {
    println!(rt; "A small book: a bid and a need")?;
    let mut small = [0u8; 100];
    let outcome = small_book(&mut small, small_bid(), small_need());
    written(rt, &small, outcome)?;
    println!(rt; "A larger book: a need, a border, a bid, and an exclusive group of two bids")?;
    let mut large = [0u8; 300];
    let outcome = large_book(
        &mut large,
        firm_need(),
        wide_border(),
        small_bid(),
        block_bid(7),
        block_bid(7),
    );
    written(rt, &large, outcome)?;
    println!(rt; "A text that fails its check is the book of no rows")?;
    let none = SealedBook::open(b"no book");
    println!(rt; "  opened: {} byte, {} rows", none.length(), none.rows())?;
    println!(rt; "Refusals, each told by number, layer and place")?;
    refusals::of_bytes(rt, &small[0..88])?;
    refusals::of_members(rt)?;
    refusals::of_rows(rt, heap)?;
    refusals::of_fields(rt)?;
    refusals::of_groups(rt)?;
    refusals::of_room(rt)?;
    Ok(())
}

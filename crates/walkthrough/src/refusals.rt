use crate::examples::{block_bid, small_bid, small_need, wide_border};
use crate::show::told;
use book::check::check;
use book::fault::BookFault;
use std::alloc::Global;
use std::io;
use writer::fields::Fields;
use writer::state::{GroupUnderway, Membership, OpenBook, Refused};

// What a check says of a text that it should refuse.
fn checked(rt: &impl Print, what: &str, text: &[u8]) -> io::Result<()> {
    match check(text) {
        Ok(found) => println!(rt; "  {what}: passed with {} bytes", found.length),
        Err(fault) => told(rt, what, fault),
    }
}

// 11 and 12: what the bytes of a text alone have wrong.
pub(crate) fn of_bytes(rt: &impl Print, book: &[u8]) -> io::Result<()> {
    if book.len() < 2 {
        return Ok(());
    }
    checked(rt, "the seal is cut off", &book[0..book.len() - 1])?;
    checked(rt, "a bid is cut in its middle", &book[0..book.len() / 3])?;
    checked(rt, "a byte that is no command", &[0x42 ^ 0x10])
}

// 21: a group of two, with a seal where its first member is due.
pub(crate) fn of_members(rt: &impl Print) -> io::Result<()> {
    checked(rt, "a seal where a group's member is due", &[0x45, 2, 0x53])
}

// What a writer says of fields that it should refuse.
fn unfiled<F: Fields>(rt: &impl Print, what: &str, fields: F) -> io::Result<()> {
    let mut text = [0u8; 64];
    match OpenBook::start().file(&mut text, fields) {
        Ok(_filed) => println!(rt; "  {what}: filed"),
        Err(refused) => told(rt, what, refused.fault),
    }
}

// 23 and 24: the fields of a row.
pub(crate) fn of_fields(rt: &impl Print) -> io::Result<()> {
    unfiled(rt, "a bid in area 32", block_bid(32))?;
    let mut fields = small_bid();
    fields.quarters[2].minimum = 501;
    unfiled(rt, "a minimum above its maximum", fields)?;
    let mut border = wide_border();
    border.to = border.from;
    unfiled(rt, "a border to itself", border)
}

// 25: a group whose second member is of another area, and the group struck.
pub(crate) fn of_groups(rt: &impl Print) -> io::Result<()> {
    let mut text = [0u8; 160];
    let group = match OpenBook::start().group(&mut text, 2) {
        Ok(begun) => begun.next,
        Err(refused) => return told(rt, "a group", refused.fault),
    };
    match group.member(&mut text, block_bid(3)) {
        Ok(filed) => match filed.next {
            Membership::More(group) => second_member(rt, &mut text, group),
            Membership::Last(_book) => Ok(()),
        },
        Err(Refused { back, fault }) => {
            let _book = back.strike();
            told(rt, "a member", fault)
        }
    }
}

fn second_member(rt: &impl Print, text: &mut [u8], group: GroupUnderway) -> io::Result<()> {
    match group.member(text, block_bid(4)) {
        Ok(filed) => {
            let _book = match filed.next {
                Membership::More(group) => group.strike(),
                Membership::Last(book) => book,
            };
            println!(rt; "  a member of another area: filed")
        }
        Err(Refused { back, fault }) => struck(rt, text, back, fault),
    }
}

fn struck(
    rt: &impl Print,
    text: &mut [u8],
    group: GroupUnderway,
    fault: BookFault,
) -> io::Result<()> {
    let book = group.strike();
    told(rt, "a member of another area", fault)?;
    match book.seal(text) {
        Ok(length) => println!(rt; "  the group struck, and the book sealed: {length} byte"),
        Err(back) => told(rt, "a seal", back.fault),
    }
}

// 26: a text too short for the next command.
pub(crate) fn of_room(rt: &impl Print) -> io::Result<()> {
    let mut text = [0u8; 86];
    let book = match OpenBook::start().file(&mut text, small_bid()) {
        Ok(filed) => filed.next,
        Err(back) => return told(rt, "a bid in 86 bytes", back.fault),
    };
    match book.file(&mut text, small_need()) {
        Ok(_filed) => println!(rt; "  a need in the 35 bytes left: filed"),
        Err(back) => told(rt, "a need in the 35 bytes left", back.fault),
    }
}

// 22: a row more than a book can have.
pub(crate) fn of_rows(rt: &impl Print, heap: Global) -> anyhow::Result<()> {
    let mut space = vec![in heap; 0u8; 40_000]?;
    let text = space.as_mut_slice();
    let mut book = OpenBook::start();
    for _row in 0..1_024 {
        match book.file(text, wide_border()) {
            Ok(filed) => book = filed.next,
            Err(back) => {
                told(rt, "a border", back.fault)?;
                return Ok(());
            }
        }
    }
    match book.file(text, wide_border()) {
        Ok(_filed) => println!(rt; "  row 1,025: filed")?,
        Err(back) => {
            told(rt, "row 1,025", back.fault)?;
            match back.back.seal(text) {
                Ok(length) => println!(rt; "  the full book sealed: {length} bytes, 1,024 rows")?,
                Err(back) => told(rt, "a seal", back.fault)?,
            }
        }
    }
    Ok(())
}

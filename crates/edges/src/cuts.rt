use crate::sample::Sample::*;
use crate::sample::{Outcome, Sample};
use crate::spelled::{ended, read, read_rows};
use byte_layer::fault::Layer::{Book, Bytes};
use std::alloc::Global;
use std::process::Abort;
use std::test::Fail;

// Rows, where the last of them begins, and what they tell whole and with no seal: each command at the front and behind a
// row, members, a need where a member is due, and no row at all.
const CUTS: [(&[Sample], usize, Outcome); 12] = [
    (&[], 0, Err((11, Bytes, 0))),
    (&[Bid(1)], 0, Err((11, Bytes, 51))),
    (&[Group(2)], 0, Err((11, Bytes, 2))),
    (&[Need(1)], 0, Err((11, Bytes, 36))),
    (&[Border(1, 2)], 0, Err((11, Bytes, 36))),
    (&[Border(1, 2), Bid(1)], 36, Err((11, Bytes, 87))),
    (&[Border(1, 2), Group(2)], 36, Err((11, Bytes, 38))),
    (&[Border(1, 2), Need(1)], 36, Err((11, Bytes, 72))),
    (&[Border(1, 2), Border(1, 2)], 36, Err((11, Bytes, 72))),
    (&[Group(2), Bid(1)], 2, Err((11, Bytes, 53))),
    (&[Group(2), Bid(1), Bid(1)], 53, Err((11, Bytes, 104))),
    (&[Group(2), Need(1)], 2, Err((21, Book, 1))),
];

// Rows that are cut at every byte of the last of them tell where it begins: the lengths themselves are gone over.
fn cut_rows(
    rt: &impl Abort,
    heap: Global,
    samples: &[Sample],
    from: usize,
    whole: Outcome,
) -> Result<(), Fail> {
    let spelled = ended(heap, samples, 0, &[])?;
    let text = spelled.as_slice();
    for n in from..text.len() {
        assert_eq!(rt; read(&text[0..n]), Err((11, Bytes, from)), "{}", n);
    }
    assert_eq!(rt; read(text), whole);
    Ok(())
}

// Behind rows that only want a seal, every byte that is no command is told at its place.
fn unknown_behind(
    rt: &impl Abort,
    heap: Global,
    samples: &[Sample],
    whole: Outcome,
) -> Result<(), Fail> {
    let wanted = match whole {
        Err((11, layer, place)) => Err((12, layer, place)),
        _ => whole,
    };
    for byte in 0..=255u8 {
        if !matches!(byte, 0x42 | 0x45 | 0x4C | 0x4E | 0x53) {
            assert_eq!(rt; read_rows(heap, samples, &[byte])?, wanted, "{}", byte);
        }
    }
    Ok(())
}

#[test]
fn cuts_and_unknown_bytes(rt: HostRuntime) -> Result<(), Fail> {
    for (samples, from, whole) in &CUTS {
        cut_rows(&rt, rt.alloc(), samples, *from, *whole)?;
        unknown_behind(&rt, rt.alloc(), samples, *whole)?;
    }
    Ok(())
}

// What stands behind the seal is not looked at.
#[test]
fn bytes_behind_the_seal(rt: HostRuntime) -> Result<(), Fail> {
    for byte in 0..=255u8 {
        let told = read_rows(rt.alloc(), &[Border(1, 2), Bid(1)], &[0x53, byte, 0x42])?;
        assert_eq!(rt; told, Ok((88, 2)));
    }
    Ok(())
}

use crate::spelled::spell;
use page::fault::PageFault;
use page::proposal::Proposal;
use std::alloc::{AllocError, Global};
use std::test::Fail;

// Pages for one cell row, 562 bytes: command bytes at 0, at 1, and at 18, 35 and so on up to 545.

// A page whose prices are 0 but for some, each by its place, 4 × area + quarter.
fn spell_page(heap: Global, prices: &[(usize, i32)]) -> Result<Vec<u8>, AllocError> {
    let mut page = Vec::new(heap);
    spell(&mut page, &[0x50, 0x51], &[0, 0, 400, 0])?;
    for area in 0..32 {
        let price = |quarter: usize| {
            prices
                .iter()
                .find(|priced| priced.0 == 4 * area + quarter)
                .map_or(0, |priced| priced.1.cast_unsigned())
        };
        spell(
            &mut page,
            &[0x43],
            &[price(0), price(1), price(2), price(3)],
        )?;
    }
    Ok(page)
}

// How many bytes of cells and of prices a page has, or what it has wrong.
fn read(page: &[u8]) -> Result<(usize, usize), PageFault> {
    Proposal::read(page, 1).map(|read| (read.cells.bytes.len(), read.prices.bytes.len()))
}

#[test]
fn the_shape_of_a_page(rt: HostRuntime) -> Result<(), Fail> {
    let whole = spell_page(rt.alloc(), &[])?;
    assert_eq!(rt; read(whole.as_slice()), Ok((17, 544)));
    for offset in [0, 1, 18, 35, 528, 545] {
        let mut other = spell_page(rt.alloc(), &[])?;
        if let Some(byte) = other.get_mut(offset) {
            *byte = 0x52;
        }
        if let Some(byte) = other.get_mut(545) {
            *byte = 0x52;
        }
        assert_eq!(rt; read(other.as_slice()), Err(PageFault::Shape(offset)));
    }
    Ok(())
}

// A page that ends early, or goes on: where the shorter of the two ends, and a wrong command in it first.
#[test]
fn the_length_of_a_page(rt: HostRuntime) -> Result<(), Fail> {
    let mut page = spell_page(rt.alloc(), &[(0, 10_000_000)])?;
    page.push(0x53)?;
    assert_eq!(rt; read(page.as_slice()), Err(PageFault::Shape(562)));
    for length in [561, 546, 545, 18, 1, 0] {
        page.truncate(length);
        assert_eq!(rt; read(page.as_slice()), Err(PageFault::Shape(length)));
    }
    assert_eq!(rt; read(&[0x51, 0x51]), Err(PageFault::Shape(0)));
    assert_eq!(rt; read(&[0x50, 0x43]), Err(PageFault::Shape(1)));
    Ok(())
}

// Prices at the cap and, at the first and the last place, beyond it.
#[test]
fn the_prices_of_a_page(rt: HostRuntime) -> Result<(), Fail> {
    let capped = spell_page(rt.alloc(), &[(0, 9_999_999), (127, -9_999_999)])?;
    assert_eq!(rt; read(capped.as_slice()), Ok((17, 544)));
    for (place, price) in [
        (0, 10_000_000),
        (6, -10_000_000),
        (127, i32::MAX),
        (127, i32::MIN),
    ] {
        let beyond = spell_page(rt.alloc(), &[(place, price)])?;
        assert_eq!(rt; read(beyond.as_slice()), Err(PageFault::Price(place)));
    }
    let both = spell_page(rt.alloc(), &[(127, 10_000_000), (5, 10_000_000)])?;
    assert_eq!(rt; read(both.as_slice()), Err(PageFault::Price(5)));
    Ok(())
}

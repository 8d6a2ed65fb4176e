ghost use Rattle.std.specs.Prelude.{◌≡◌, ◌↔◌, ◌≤◌, length, Some, None, IsOk, MatchResult};
ghost use Rattle.lot.specs.Page.{Priced};
ghost use Rattle.page.specs.Shape.{cell_part, price_part, price_fault, page_fault, Shaped};

use crate::fault::PageFault;
use crate::shape::shape;
use lot::views::{CappedPrices, Cells, Prices, ROW_BYTES};
use units::limit::is_price;

// A proposed clearing, where it lies in a page's bytes: its cells, and prices within the cap.
#[derive(Clone, Copy)]
pub struct Proposal<'a> {
    pub cells: Cells<'a>,
    pub prices: CappedPrices<'a>,
}

// The smallest place whose price is beyond the cap.
fn uncapped(prices: Prices<'_>) -> Option<usize>
    requires { length prices.bytes.now ≡ 544 }
    ensures { result ≡ price_fault prices.entry.bytes.now }
{
    (0..128).find(|place| !is_price(prices.price(place / 4, place % 4)))
}

impl<'a> Proposal<'a> {
    // The clearing that a page proposes for a lot of so many cell rows, or what the page has wrong.
    pub fn read(page: &'a [u8], rows: usize) -> Result<Proposal<'a>, PageFault>
        requires { rows ≤ 4096 }
        ensures cases { MatchResult result (λ p. (page_fault rows page.now ≡ None) × (p.cells.bytes.now ≡ cell_part rows page.now) × (p.prices.bytes.now ≡ price_part rows page.now)) (λ e. page_fault rows page.now ≡ Some e) }
        ensures lawful { IsOk result ↔ (Shaped rows page.now × Priced (price_part rows page.now)) }
    {
        shape(page, rows)?;
        let [_, numbers @ ..] = page else {
            return unreachable();
        };
        let (cells, prices) = numbers.split_at(ROW_BYTES * rows);
        if let Some(place) = uncapped(Prices { bytes: prices }) {
            return Err(PageFault::Price(place));
        }
        Ok(Proposal {
            cells: Cells { bytes: cells },
            prices: CappedPrices { bytes: prices },
        })
    }
}

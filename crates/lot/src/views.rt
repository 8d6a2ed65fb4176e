ghost use Rattle.std.specs.Prelude.{◌≡◌, ℕ, ◌+◌, ◌*◌, ◌<◌, ◌≤◌, ◌↔◌, length, take, drop, IsSome, IfSome};
ghost use Rattle.lot.specs.Page.{table_of, four, Priced};
ghost use Rattle.lot.specs.Sum.{every};
ghost use Rattle.units.specs.Limit.{is_price};

use byte_layer::number::read;
use std::array;
use units::limit::is_price;

// The bytes of one row of a page: a command byte, and four numbers of 4 bytes.
pub const ROW_BYTES: usize = 17;

// The bytes of the prices of 32 areas.
const PRICE_BYTES: usize = 544;

// Rows, areas and quarters are plain numbers, bounded at each call: types for them would be made and taken apart at each.

// The number of a quarter in a row of 17 bytes.
fn number_in(bytes: &[u8], row: usize, quarter: usize) -> i32
    requires { (quarter < 4) × (17 * row + 17 ≤ length bytes.now) }
    ensures { result ≡ table_of bytes.now row quarter }
{
    read(bytes, ROW_BYTES * row + 1 + 4 * quarter)
}

// The four numbers of a row of 17 bytes.
fn row_in(bytes: &[u8], row: usize) -> [i32; 4]
    requires { 17 * row + 17 ≤ length bytes.now }
    ensures { result ≡ four (table_of bytes.now row) }
{
    array::from_fn(|quarter| number_in(bytes, row, quarter))
}

// The cells of a page, where they lie in its bytes: 17 bytes to a cell row.
#[derive(Clone, Copy)]
pub struct Cells<'a> {
    pub bytes: &'a [u8],
}

impl<'a> Cells<'a> {
    pub fn cell(self, row: usize, quarter: usize) -> i32
        requires { (quarter < 4) × (17 * row + 17 ≤ length self.bytes.now) }
        ensures { result ≡ table_of self.entry.bytes.now row quarter }
    {
        number_in(self.bytes, row, quarter)
    }

    // The four cells of a cell row.
    pub fn row(self, row: usize) -> [i32; 4]
        requires { 17 * row + 17 ≤ length self.bytes.now }
        ensures { result ≡ four (table_of self.entry.bytes.now row) }
    {
        row_in(self.bytes, row)
    }

    // The first `rows` cell rows.
    pub fn front(self, rows: usize) -> Cells<'a>
        requires { 17 * rows ≤ length self.bytes.now }
        ensures { result.bytes.now ≡ take (17 * rows) self.entry.bytes.now }
    {
        Cells {
            bytes: &self.bytes[0..ROW_BYTES * rows],
        }
    }

    // The cell rows from `rows` on.
    pub fn rest(self, rows: usize) -> Cells<'a>
        requires { 17 * rows ≤ length self.bytes.now }
        ensures { result.bytes.now ≡ drop (17 * rows) self.entry.bytes.now }
    {
        Cells {
            bytes: &self.bytes[ROW_BYTES * rows..],
        }
    }
}

// That the bytes are whole is asked at each call: a caller's prices may be any bytes, and whole ones within the cap are
// `CappedPrices`.

// The prices of a page, where they lie in its bytes: 17 bytes to each of the 32 areas.
#[derive(Clone, Copy)]
pub struct Prices<'a> {
    pub bytes: &'a [u8],
}

impl<'a> Prices<'a> {
    pub fn price(self, area: usize, quarter: usize) -> i32
        requires { (quarter < 4) × ((area < 32) × (length self.bytes.now ≡ 544)) }
        ensures { result ≡ table_of self.entry.bytes.now area quarter }
    {
        number_in(self.bytes, area, quarter)
    }

    // The four prices of an area.
    pub fn area(self, area: usize) -> [i32; 4]
        requires { (area < 32) × (length self.bytes.now ≡ 544) }
        ensures { result ≡ four (table_of self.entry.bytes.now area) }
    {
        row_in(self.bytes, area)
    }

    // Is each price of an area within the cap?
    fn area_capped(self, area: usize) -> bool
        requires { (area < 32) × (length self.bytes.now ≡ 544) }
        ensures { result ≡ every 4 (λ t. is_price (table_of self.entry.bytes.now area t)) }
    {
        self.area(area).iter().all(|price| is_price(*price))
    }

    // An `Option`: a caller tells one reason for all prices (asked).
    // The same prices, where they are those of the 32 areas, each within the cap.
    pub fn capped(self) -> Option<CappedPrices<'a>>
        ensures when { IsSome result ↔ Priced self.entry.bytes.now }
        ensures same { IfSome result (λ p. p.bytes.now ≡ self.entry.bytes.now) }
    {
        if self.bytes.len() == PRICE_BYTES && (0..32).all(|area| self.area_capped(area)) {
            Some(CappedPrices { bytes: self.bytes })
        } else {
            None
        }
    }
}

// The prices of the 32 areas, where they lie in a page's bytes, each within the cap.
#[derive(Clone, Copy)]
pub struct CappedPrices<'a> {
    pub bytes: &'a [u8],
    pub ghost priced: { Priced bytes.now },
}

// The same prices, whatever they are.
impl<'a> From<CappedPrices<'a>> for Prices<'a> {
    ghost from_gives = { λ capped prices. prices.bytes.now ≡ capped.bytes.now };

    fn from(capped: CappedPrices<'a>) -> Prices<'a> {
        Prices {
            bytes: capped.bytes,
        }
    }
}

impl<'a> CappedPrices<'a> {
    pub fn price(self, area: usize, quarter: usize) -> i32
        requires { (quarter < 4) × (area < 32) }
        ensures { result ≡ table_of self.entry.bytes.now area quarter }
    {
        Prices::from(self).price(area, quarter)
    }

    // The four prices of an area.
    pub fn area(self, area: usize) -> [i32; 4]
        requires { area < 32 }
        ensures { result ≡ four (table_of self.entry.bytes.now area) }
    {
        Prices::from(self).area(area)
    }
}

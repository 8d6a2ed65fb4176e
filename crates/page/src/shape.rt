ghost use Rattle.std.specs.Prelude.{◌≡◌, ◌+◌, ◌≤◌, length};
ghost use Rattle.std.specs.Option.{option_map};
ghost use Rattle.std.specs.Result.{result_err};
ghost use Rattle.page.specs.declared.fault.PageFault.TheVariants.{Shape as shape_of};
ghost use Rattle.page.specs.Shape.{place_of, sign_of, wrong_at, least, shape_fault};

use crate::fault::PageFault;
use lot::views::ROW_BYTES;

// The command bytes of a page.
pub const PAGE: u8 = 0x50;

pub const CELLS: u8 = 0x51;

pub const PRICES: u8 = 0x43;

// Where the command of a number stands.
fn place(number: usize) -> usize
    requires { number ≤ 10000 }
    ensures { result ≡ place_of number }
{
    (ROW_BYTES * number).saturating_sub(16)
}

// Which byte it is in a page of so many cell rows.
fn sign(rows: usize, number: usize) -> u8
    ensures { result ≡ sign_of rows number }
{
    match number {
        0 => PAGE,
        _ if number <= rows => CELLS,
        _ => PRICES,
    }
}

// Has the text that command, and is it another byte?
fn is_wrong(text: &[u8], rows: usize, number: usize) -> bool
    requires { number ≤ 10000 }
    ensures { result ≡ wrong_at rows text.now number }
{
    let at = place(number);
    at < text.len() && text[at] != sign(rows, number)
}

// Where the first wrong command stands.
fn first_wrong(text: &[u8], rows: usize) -> Option<usize>
    requires { rows ≤ 4096 }
    ensures { result ≡ option_map place_of (least (33 + rows) (wrong_at rows text.now)) }
{
    let number = (0..33 + rows).find(|number| is_wrong(text, rows, *number))?;
    Some(place(number))
}

// Where a text is no page for so many cell rows: at the first wrong command, or where the shorter of the two ends.
pub fn shape(text: &[u8], rows: usize) -> Result<(), PageFault>
    requires { rows ≤ 4096 }
    ensures { result_err result ≡ option_map shape_of (shape_fault rows text.now) }
{
    if let Some(place) = first_wrong(text, rows) {
        return Err(PageFault::Shape(place));
    }
    let whole = 545 + ROW_BYTES * rows;
    if text.len() != whole {
        return Err(PageFault::Shape(text.len().min(whole)));
    }
    Ok(())
}

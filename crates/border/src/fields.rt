ghost use Rattle.std.specs.Prelude.{◌≡◌};
ghost use Rattle.border.specs.Fields.{border_quarter_fine, border_placed, border_fine};

use crate::step::Step;
use units::limit::{is_area, is_quantity};

// The most that may flow over a border in one quarter, forward and back, in units of 0.1 MW.
#[derive(Clone, Copy)]
pub struct BorderQuarter {
    pub forward: u32,
    pub back: u32,
}

// The fields of a border as they are handed in, lawful or not.
#[derive(Clone, Copy)]
pub struct BorderFields {
    pub from: u8,
    pub to: u8,
    pub step: Step,
    pub quarters: [BorderQuarter; 4],
}

// The rule on the areas of a border: both are areas, and they differ.
pub fn border_placed(from: u8, to: u8) -> bool
    ensures { result ≡ border_placed from to }
{
    is_area(from) && is_area(to) && from != to
}

fn quarter_fine(q: &BorderQuarter) -> bool
    ensures { result ≡ border_quarter_fine q.now }
{
    is_quantity(q.forward) && is_quantity(q.back)
}

// Every rule of a border's fields but the one on its areas.
pub fn border_fine(qs: &[BorderQuarter; 4]) -> bool
    ensures { result ≡ border_fine qs.now }
{
    qs.iter().all(quarter_fine)
}

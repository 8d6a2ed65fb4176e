ghost use Rattle.std.specs.Prelude.{◌≡◌, Some};
ghost use Rattle.byte_layer.specs.Fault.{told_text};
ghost use Rattle.page.specs.Fault.{told_page};

use byte_layer::fault::{Layer, Told};
use std::error::Error;
use std::fmt;

// What a page itself has wrong, whatever lot it is for.
#[derive(Clone, Copy, PartialEq, Eq, Debug)]
pub enum PageFault {
    // It is of another shape: at this offset a command byte is wrong, or it ends here, or ought to.
    Shape(usize),
    // The price at this place, 4 × area + quarter, is beyond the cap.
    Price(usize),
}

impl PageFault {
    // `tell`, and not `From`, as in each layer (byte_layer).
    pub fn tell(&self) -> Told
        ensures { result ≡ told_page self.now }
    {
        let (number, place) = match self {
            PageFault::Shape(offset) => (31, *offset),
            PageFault::Price(place) => (32, *place),
        };
        Told {
            number,
            layer: Layer::Page,
            place,
        }
    }
}

// A fault is printed as what it tells.
impl fmt::Display for PageFault {
    ghost output = { λ x. Some (told_text (told_page x)) };

    fn fmt<W: fmt::Write>(&self, f: &mut fmt::Formatter<W>) -> fmt::Result {
        let told = self.tell();
        write!(f, "{told}")
    }
}

impl Error for PageFault {}

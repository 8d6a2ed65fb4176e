ghost use Rattle.std.specs.Prelude.{◌≡◌, Some};
ghost use Rattle.byte_layer.specs.Fault.{told_byte, layer_text, told_text};

use std::error::Error;
use std::fmt;

// The layer that a fault comes from, the lowest first.
#[derive(Clone, Copy, PartialEq, Eq, Debug)]
pub enum Layer {
    Bytes,
    Book,
    Page,
    Market,
    Gate,
    Annex,
}

impl fmt::Display for Layer {
    ghost output = { λ x. Some (layer_text x) };

    fn fmt<W: fmt::Write>(&self, f: &mut fmt::Formatter<W>) -> fmt::Result {
        f.write_str(match self {
            Layer::Bytes => "bytes",
            Layer::Book => "book",
            Layer::Page => "page",
            Layer::Market => "market",
            Layer::Gate => "gate",
            Layer::Annex => "annex",
        })
    }
}

// `Display` and `Error` are written out here and for each fault: a derived `Display` would not promise what it prints.
// What a fault tells: its number (what is filed and looked up; the faults are enums), its layer, and where it was found.
#[derive(Clone, Copy, PartialEq, Eq, Debug)]
pub struct Told {
    pub number: u8,
    pub layer: Layer,
    pub place: usize,
}

impl fmt::Display for Told {
    ghost output = { λ x. Some (told_text x) };

    fn fmt<W: fmt::Write>(&self, f: &mut fmt::Formatter<W>) -> fmt::Result {
        let Told {
            number,
            layer,
            place,
        } = *self;
        write!(f, "{number}, layer {layer}, place {place}")
    }
}

// What the bytes of a text alone can have wrong.
#[derive(Clone, Copy, PartialEq, Eq, Debug)]
pub enum ByteFault {
    // The text ends inside the command at this offset, or, with no command begun, at this length.
    Cut(usize),
    // The byte at this offset is no command.
    Unknown(usize),
}

// `tell` here and in each layer, and not `From`: a fault of a row's fields takes the row too, and so cannot be a `From`; one
// word for all of them is plainer than two.
impl ByteFault {
    pub fn tell(&self) -> Told
        ensures { result ≡ told_byte self.now }
    {
        let (number, place) = match self {
            ByteFault::Cut(place) => (11, *place),
            ByteFault::Unknown(place) => (12, *place),
        };
        Told {
            number,
            layer: Layer::Bytes,
            place,
        }
    }
}

// A fault is printed as what it tells.
impl fmt::Display for ByteFault {
    ghost output = { λ x. Some (told_text (told_byte x)) };

    fn fmt<W: fmt::Write>(&self, f: &mut fmt::Formatter<W>) -> fmt::Result {
        let told = self.tell();
        write!(f, "{told}")
    }
}

impl Error for ByteFault {}

ghost use Rattle.std.specs.Prelude.{◌≡◌, Some};
ghost use Rattle.byte_layer.specs.Fault.{told_text};
ghost use Rattle.judge.specs.Fault.{told_judge};
ghost use Rattle.judge.specs.declared.fault.JudgeFault.TheVariants.{Page, Market};

use byte_layer::fault::{Layer, Told};
use lot::fault::MarketFault;
use lot::lot::MOST_LOT_ROWS;
use page::fault::PageFault;
use std::error::Error;
use std::fmt;

// What a page is refused for.
#[derive(Clone, Copy, PartialEq, Eq, Debug)]
pub enum JudgeFault {
    // The lot has more rows than are judged: they are counted one further than that.
    Rows,
    // What the page itself has wrong.
    Page(PageFault),
    // What its clearing breaks in the market.
    Market(MarketFault),
}

impl JudgeFault {
    // `tell`, and not `From`, as in each layer (byte_layer).
    pub fn tell(&self) -> Told
        ensures { result ≡ told_judge self.now }
    {
        match self {
            JudgeFault::Rows => Told {
                number: 52,
                layer: Layer::Gate,
                place: MOST_LOT_ROWS + 1,
            },
            JudgeFault::Page(fault) => fault.tell(),
            JudgeFault::Market(fault) => fault.tell(),
        }
    }
}

// A fault is printed as what it tells.
impl fmt::Display for JudgeFault {
    ghost output = { λ x. Some (told_text (told_judge x)) };

    fn fmt<W: fmt::Write>(&self, f: &mut fmt::Formatter<W>) -> fmt::Result {
        let told = self.tell();
        write!(f, "{told}")
    }
}

impl Error for JudgeFault {}

impl From<PageFault> for JudgeFault {
    ghost from_gives = { λ e r. r ≡ Page e };

    fn from(e: PageFault) -> JudgeFault {
        JudgeFault::Page(e)
    }
}

impl From<MarketFault> for JudgeFault {
    ghost from_gives = { λ e r. r ≡ Market e };

    fn from(e: MarketFault) -> JudgeFault {
        JudgeFault::Market(e)
    }
}

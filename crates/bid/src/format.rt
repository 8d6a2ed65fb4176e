ghost use Rattle.std.specs.Prelude.{◌≡◌, ℕ, ◌+◌, ◌≤◌, length};
ghost use Rattle.byte_layer.specs.Fault.{heard};
ghost use Rattle.byte_layer.specs.Number.{placed};
ghost use Rattle.units.specs.Field.{told_field};
ghost use Rattle.bid.specs.Fields.{bid_judged};
ghost use Rattle.bid.specs.Format.{quarter_at, quarter_bytes, bid_bytes, bid_read};
ghost use Rattle.bid.specs.Lawful.{fields_in};

use crate::fields::{BidFields, BidQuarter, bid_fine};
use crate::lawful::Bid;
use byte_layer::number::{self, write_bytes};
use byte_layer::part::{Part, read_four, write_four};
use units::field::FieldFault;
use units::limit::{are_four, is_area};
use units::side::Side;

// The operands of a bid's command: area, side, then minimum, maximum and price of each quarter.
// That the bytes lie within the text is asked at each call: it is a fact of text, place and width together.

impl Part<12> for BidQuarter {
    ghost stands = { quarter_at };

    ghost bytes = { quarter_bytes };

    #[tactic(auto, unfolding(crate::specs::Format::quarter_at))]
    fn read(text: &[u8], at: usize) -> BidQuarter {
        BidQuarter {
            minimum: number::read(text, at),
            maximum: number::read(text, at + 4),
            price: number::read(text, at + 8),
        }
    }

    fn write(&self, text: &mut [u8], at: usize) {
        number::write(text, at, self.minimum);
        number::write(text, at + 4, self.maximum);
        number::write(text, at + 8, self.price);
    }
}

// The lawful bid of these fields, or the first rule that they break.
impl TryFrom<BidFields> for Bid {
    type Error = FieldFault;

    ghost try_from_gives = { λ fields r. (row : ℕ) → heard (told_field row) (fields_in r) ≡ bid_judged row fields };

    fn try_from(fields: BidFields) -> Result<Bid, FieldFault> {
        are_four(&fields.quarters);
        // The quarters are looked at only where the area is one.
        let placed = is_area(fields.area);
        FieldFault::judge(placed, placed && bid_fine(&fields.quarters))?;
        Ok(Bid { fields })
    }
}

impl Bid {
    pub fn fields(&self) -> BidFields
        ensures { result ≡ self.now.fields }
    {
        self.fields
    }

    // The bid whose operands stand at the front of a text.
    #[tactic(auto, unfolding(crate::specs::Format::bid_read))]
    pub fn read(text: &[u8]) -> Result<Bid, FieldFault>
        requires { 50 ≤ length text.now }
        ensures { (row : ℕ) → heard (told_field row) (fields_in result) ≡ bid_read row text.now }
    {
        let [area, side, ..] = text else {
            return unreachable();
        };
        let placed = is_area(*area);
        let side = Side::try_from(*side).map_err(|_unnamed| FieldFault::unreadable(placed))?;
        Bid::try_from(BidFields {
            area: *area,
            side,
            quarters: read_four(text, 2),
        })
    }

    // Writes the operands into a text from a place on.
    pub fn write(&self, text: &mut [u8], at: usize)
        requires { at + 50 ≤ length text.old }
        ensures { text.new ≡ placed text.old at (bid_bytes self.now.fields) }
    {
        let fields = &self.fields;
        write_bytes(text, at, &[fields.area, u8::from(fields.side)]);
        write_four(text, at + 2, &fields.quarters);
    }
}

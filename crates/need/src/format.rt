ghost use Rattle.std.specs.Prelude.{◌≡◌, ℕ, ◌+◌, ◌≤◌, length};
ghost use Rattle.byte_layer.specs.Fault.{heard};
ghost use Rattle.byte_layer.specs.Number.{placed};
ghost use Rattle.units.specs.Field.{told_field};
ghost use Rattle.need.specs.Fields.{need_judged};
ghost use Rattle.need.specs.Format.{need_quarter_at, need_quarter_bytes, need_bytes, need_read};
ghost use Rattle.need.specs.Lawful.{fields_in};

use crate::elasticity::Elasticity;
use crate::fields::{NeedFields, NeedQuarter, need_fine};
use crate::lawful::Need;
use byte_layer::number::{self, write_bytes};
use byte_layer::part::{Part, read_four, write_four};
use units::field::FieldFault;
use units::limit::{are_four, is_area};
use units::side::Side;

// The operands of a need's command: area, side, elasticity, then maximum and price of each quarter.
// That the bytes lie within the text is asked at each call: it is a fact of text, place and width together.

impl Part<8> for NeedQuarter {
    ghost stands = { need_quarter_at };

    ghost bytes = { need_quarter_bytes };

    #[tactic(auto, unfolding(crate::specs::Format::need_quarter_at))]
    fn read(text: &[u8], at: usize) -> NeedQuarter {
        NeedQuarter {
            maximum: number::read(text, at),
            price: number::read(text, at + 4),
        }
    }

    fn write(&self, text: &mut [u8], at: usize) {
        number::write(text, at, self.maximum);
        number::write(text, at + 4, self.price);
    }
}

// The lawful need of these fields, or the first rule that they break.
impl TryFrom<NeedFields> for Need {
    type Error = FieldFault;

    ghost try_from_gives = { λ fields r. (row : ℕ) → heard (told_field row) (fields_in r) ≡ need_judged row fields };

    fn try_from(fields: NeedFields) -> Result<Need, FieldFault> {
        are_four(&fields.quarters);
        // The quarters are looked at only where the area is one.
        let placed = is_area(fields.area);
        FieldFault::judge(
            placed,
            placed && need_fine(fields.elasticity, &fields.quarters),
        )?;
        Ok(Need { fields })
    }
}

impl Need {
    pub fn fields(&self) -> NeedFields
        ensures { result ≡ self.now.fields }
    {
        self.fields
    }

    // The need whose operands stand at the front of a text.
    #[tactic(auto, unfolding(crate::specs::Format::need_read))]
    pub fn read(text: &[u8]) -> Result<Need, FieldFault>
        requires { 35 ≤ length text.now }
        ensures { (row : ℕ) → heard (told_field row) (fields_in result) ≡ need_read row text.now }
    {
        let [area, side, elastic, ..] = text else {
            return unreachable();
        };
        // One fault for two bytes, and so no `map_err`.
        let (Ok(side), Ok(elasticity)) = (Side::try_from(*side), Elasticity::try_from(*elastic))
        else {
            return Err(FieldFault::unreadable(is_area(*area)));
        };
        Need::try_from(NeedFields {
            area: *area,
            side,
            elasticity,
            quarters: read_four(text, 3),
        })
    }

    // Writes the operands into a text from a place on.
    pub fn write(&self, text: &mut [u8], at: usize)
        requires { at + 35 ≤ length text.old }
        ensures { text.new ≡ placed text.old at (need_bytes self.now.fields) }
    {
        let fields = &self.fields;
        let head = [
            fields.area,
            u8::from(fields.side),
            u8::from(fields.elasticity),
        ];
        write_bytes(text, at, &head);
        write_four(text, at + 3, &fields.quarters);
    }
}

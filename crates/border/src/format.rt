ghost use Rattle.std.specs.Prelude.{◌≡◌, ℕ, ◌+◌, ◌≤◌, length};
ghost use Rattle.byte_layer.specs.Fault.{heard};
ghost use Rattle.byte_layer.specs.Number.{placed};
ghost use Rattle.units.specs.Field.{told_field};
ghost use Rattle.border.specs.Fields.{border_judged};
ghost use Rattle.border.specs.Format.{border_quarter_at, border_quarter_bytes, border_bytes, border_read};
ghost use Rattle.border.specs.Lawful.{fields_in};

use crate::fields::{BorderFields, BorderQuarter, border_fine, border_placed};
use crate::lawful::Border;
use crate::step::Step;
use byte_layer::number::{self, write_bytes};
use byte_layer::part::{Part, read_four, write_four};
use units::field::FieldFault;
use units::limit::are_four;

// The operands of a border's command: from, to, step, then forward and back of each quarter.
// That the bytes lie within the text is asked at each call: it is a fact of text, place and width together.

impl Part<8> for BorderQuarter {
    ghost stands = { border_quarter_at };

    ghost bytes = { border_quarter_bytes };

    #[tactic(auto, unfolding(crate::specs::Format::border_quarter_at))]
    fn read(text: &[u8], at: usize) -> BorderQuarter {
        BorderQuarter {
            forward: number::read(text, at),
            back: number::read(text, at + 4),
        }
    }

    fn write(&self, text: &mut [u8], at: usize) {
        number::write(text, at, self.forward);
        number::write(text, at + 4, self.back);
    }
}

// The lawful border of these fields, or the first rule that they break.
impl TryFrom<BorderFields> for Border {
    type Error = FieldFault;

    ghost try_from_gives = { λ fields r. (row : ℕ) → heard (told_field row) (fields_in r) ≡ border_judged row fields };

    fn try_from(fields: BorderFields) -> Result<Border, FieldFault> {
        are_four(&fields.quarters);
        // The quarters are looked at only where the areas may be a border's.
        let placed = border_placed(fields.from, fields.to);
        FieldFault::judge(placed, placed && border_fine(&fields.quarters))?;
        Ok(Border { fields })
    }
}

impl Border {
    pub fn fields(&self) -> BorderFields
        ensures { result ≡ self.now.fields }
    {
        self.fields
    }

    // The border whose operands stand at the front of a text.
    #[tactic(auto, unfolding(crate::specs::Format::border_read))]
    pub fn read(text: &[u8]) -> Result<Border, FieldFault>
        requires { 35 ≤ length text.now }
        ensures { (row : ℕ) → heard (told_field row) (fields_in result) ≡ border_read row text.now }
    {
        let [from, to, step, ..] = text else {
            return unreachable();
        };
        let placed = border_placed(*from, *to);
        let step = Step::try_from(*step).map_err(|_unnamed| FieldFault::unreadable(placed))?;
        Border::try_from(BorderFields {
            from: *from,
            to: *to,
            step,
            quarters: read_four(text, 3),
        })
    }

    // Writes the operands into a text from a place on.
    pub fn write(&self, text: &mut [u8], at: usize)
        requires { at + 35 ≤ length text.old }
        ensures { text.new ≡ placed text.old at (border_bytes self.now.fields) }
    {
        let fields = &self.fields;
        write_bytes(text, at, &[fields.from, fields.to, u8::from(fields.step)]);
        write_four(text, at + 3, &fields.quarters);
    }
}

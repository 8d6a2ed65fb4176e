ghost use Rattle.std.specs.Prelude.{◌≡◌, ℕ, true, IfOk};
ghost use Rattle.byte_layer.specs.Fault.{heard};
ghost use Rattle.units.specs.Field.{told_field, judged, unreadable};

use byte_layer::fault::{Layer, Told};

// Which rule the fields of a row break: the one on areas, which is tried first, or another.
#[derive(Clone, Copy, PartialEq, Eq, Debug)]
pub enum FieldFault {
    Area,
    Rule,
}

impl FieldFault {
    // What the fault tells in the row of that number; `tell`, and not `From`, as in each layer (byte_layer).
    pub fn tell(self, row: usize) -> Told
        ensures { result ≡ told_field row self }
    {
        let number = match self {
            FieldFault::Area => 23,
            FieldFault::Rule => 24,
        };
        Told {
            number,
            layer: Layer::Book,
            place: row,
        }
    }

    // Which rule is broken, if any, where `areas` says that the areas are lawful, and `others` that the other fields are.
    pub fn judge(areas: bool, others: bool) -> Result<(), FieldFault>
        ensures told { (row : ℕ) → heard (told_field row) result ≡ judged row areas others tt }
        ensures lawful { IfOk result (λ _. (areas ≡ true) × (others ≡ true)) }
    {
        if !areas {
            return Err(FieldFault::Area);
        }
        if !others {
            return Err(FieldFault::Rule);
        }
        Ok(())
    }

    // The fault of fields that hold a byte which names nothing: its area, if that is none, comes first.
    pub fn unreadable(lawful_areas: bool) -> FieldFault
        ensures { (row : ℕ) → told_field row result ≡ unreadable row lawful_areas }
    {
        if lawful_areas {
            FieldFault::Rule
        } else {
            FieldFault::Area
        }
    }
}

ghost use Rattle.std.specs.Prelude.{◌≡◌, ℕ, true, length};
ghost use Rattle.border.specs.Fields.{border_placed, border_fine};

use crate::fields::BorderFields;

// A lawful border: a value of this type keeps every rule of a border's fields.
#[derive(Clone, Copy)]
pub struct Border {
    pub(crate) fields: BorderFields,
    ghost placed: { border_placed fields.from fields.to ≡ true },
    ghost fine: { border_fine fields.quarters ≡ true },
    ghost four: { length fields.quarters ≡ 4 },
}

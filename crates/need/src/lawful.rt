ghost use Rattle.std.specs.Prelude.{◌≡◌, ℕ, true, length};
ghost use Rattle.units.specs.Limit.{is_area};
ghost use Rattle.need.specs.Fields.{need_fine};

use crate::fields::NeedFields;

// A lawful need: a value of this type keeps every rule of a need's fields.
#[derive(Clone, Copy)]
pub struct Need {
    pub(crate) fields: NeedFields,
    ghost placed: { is_area fields.area ≡ true },
    ghost fine: { need_fine fields.elasticity fields.quarters ≡ true },
    ghost four: { length fields.quarters ≡ 4 },
}

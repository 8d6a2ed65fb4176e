ghost use Rattle.std.specs.Prelude.{◌≡◌, ◌+◌, ◌^◌, ◌<◌, true, ◌∷◌, length};
ghost use Rattle.sealed.specs.Ahead.{reads_on, ahead};
ghost use Rattle.sealed.specs.Lot.{lawful_rows};

use book::stand::Stand;

// The rows of a sealed book from some place on: the text that is left, where its reader stands, and how many rows
// there are. It copies no row.
#[derive(Clone, Copy)]
pub struct Rows<'a> {
    pub(crate) rest: &'a [u8],
    pub(crate) stand: Stand,
    pub(crate) left: usize,
    ghost sound: { reads_on stand rest.now ≡ true },
    ghost lawful: { lawful_rows (ahead stand rest.now) ≡ true },
    ghost count: { length (ahead stand rest.now) ≡ left },
    ghost room: { stand.at + length rest.now < 2 ^ 64 },
}

ghost use Rattle.std.specs.Prelude.{◌≡◌, ◌<◌, pos, ◌+ℤ◌, ◌*ℤ◌, unsigned_abs};
ghost use Rattle.settle.specs.Payment.{cents_of, rest_of};

// How many grains a cent has.
const GRAINS: i64 = 40;

// What an amount in grains comes to: whole cents, toward zero, and the grains that are left.
#[derive(Clone, Copy, PartialEq, Eq, Debug)]
pub struct Payment {
    pub cents: i64,
    pub rest: i32,
}

impl Payment {
    pub fn of(amount: i64) -> Payment
        ensures cents { result.cents ≡ cents_of amount }
        ensures rest { result.rest ≡ rest_of amount }
        ensures whole { (pos 40 *ℤ result.cents) +ℤ result.rest ≡ amount }
        ensures small { unsigned_abs result.rest < 40 }
    {
        let cents = amount / GRAINS;
        let rest = amount % GRAINS;
        Payment {
            cents,
            rest: rest as i32,
        }
    }
}

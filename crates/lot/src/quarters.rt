ghost use Rattle.std.specs.Prelude.{◌≡◌, ◌*ℤ◌};
ghost use Rattle.lot.specs.Sum.{sum};
ghost use Rattle.lot.specs.Page.{at, AllWithin};
ghost use Rattle.lot.specs.Single.{idle_row};

// Sums over the four quarters, in grains.

// The product, which i64 always holds.
pub fn product(a: i32, b: i32) -> i64
    ensures { result ≡ a *ℤ b }
{
    i64::from(a) * i64::from(b)
}

// Quantities times prices, or differences of prices, over the four quarters.
// That numbers are small is asked at each call: a type for it would be made of a row and taken apart one call below.
pub fn dot(quantities: &[i32; 4], prices: &[i32; 4]) -> i64
    requires quantities { AllWithin 99999 quantities.now }
    requires prices { AllWithin 19999998 prices.now }
    ensures { result ≡ sum 4 (λ t. at quantities.now t *ℤ at prices.now t) }
{
    quantities
        .iter()
        .zip(prices)
        .map(|(quantity, price)| product(*quantity, *price))
        .sum()
}

// Are all four cells zero?
pub fn is_idle(cells: &[i32; 4]) -> bool
    ensures { result ≡ idle_row (at cells.now) }
{
    cells.iter().all(|cell| *cell == 0)
}

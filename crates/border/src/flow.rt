ghost use Rattle.std.specs.Prelude.{◌≡◌, ℕ, ◌+◌, ◌<◌, [], ◌∷◌};
ghost use Rattle.lot.specs.Page.{at, table_of};
ghost use Rattle.border.specs.Flow.{steady, passes, carried, stretch, flowing};

use crate::fields::BorderQuarter;
use crate::lawful::Border;
use crate::step::Step;
use crate::stretch::Stretch;
use lot::views::CappedPrices;

// Whether a flow is the same within each step.
// A chain would compare each part's cells with the part's first, and be no plainer than a line for each step.
fn steady(step: Step, flow: &[i32; 4]) -> bool
    ensures { result ≡ steady step (at flow.now) }
{
    let [a, b, c, d] = *flow;
    match step {
        Step::One => true,
        Step::Two => b == a && d == c,
        Step::Four => b == a && c == a && d == a,
    }
}

// Whether the ATCs of a quarter let a flow pass.
fn passes(quarter: &BorderQuarter, flow: i32) -> bool
    ensures { result ≡ passes quarter.now.forward quarter.now.back flow }
{
    (-i64::from(quarter.back)..=i64::from(quarter.forward)).contains(&i64::from(flow))
}

impl Border {
    pub(crate) fn admits(&self, flow: &[i32; 4]) -> bool
        ensures { result ≡ (flowing self.now.fields).admits (at flow.now) }
    {
        steady(self.fields.step, flow)
            && flow
                .iter()
                .zip(&self.fields.quarters)
                .all(|(flow, quarter)| passes(quarter, *flow))
    }

    // What a flow puts into an area.
    pub(crate) fn carried(&self, area: usize, flow: i32) -> i64
        ensures { result ≡ carried self.now.fields area flow }
    {
        if area == usize::from(self.fields.from) {
            -i64::from(flow)
        } else if area == usize::from(self.fields.to) {
            i64::from(flow)
        } else {
            0
        }
    }

    // One quarter at the prices.
    fn quarter(&self, prices: CappedPrices<'_>, quarter: usize) -> Stretch
        requires { quarter < 4 }
        ensures { result ≡ stretch self.now.fields (table_of prices.entry.bytes.now) (quarter, []) }
    {
        let atcs = self.fields.quarters[quarter];
        let first = prices.price(usize::from(self.fields.from), quarter);
        let second = prices.price(usize::from(self.fields.to), quarter);
        Stretch {
            forward: atcs.forward,
            back: atcs.back,
            gap: second - first,
        }
    }

    // A quarter and the next.
    fn half(&self, prices: CappedPrices<'_>, quarter: usize) -> Stretch
        requires { quarter + 1 < 4 }
        ensures { result ≡ stretch self.now.fields (table_of prices.entry.bytes.now) (quarter, (quarter + 1) ∷ []) }
    {
        let former = self.quarter(prices, quarter);
        let latter = self.quarter(prices, quarter + 1);
        former.and(latter)
    }

    // All four quarters.
    fn hour(&self, prices: CappedPrices<'_>) -> Stretch
        ensures { result ≡ stretch self.now.fields (table_of prices.entry.bytes.now) (0, 1 ∷ 2 ∷ 3 ∷ []) }
    {
        let latter = self.half(prices, 2);
        let second = self.quarter(prices, 1);
        let first = self.quarter(prices, 0);
        first.and(second.and(latter))
    }

    // The step is matched on, here and in `keeps_rule`: three arms are no longer than a table of what to do.
    // The greatest rents of the steps, summed.
    pub(crate) fn greatest_rent(&self, prices: CappedPrices<'_>) -> i64
        ensures { result ≡ (flowing self.now.fields).best (table_of prices.entry.bytes.now) }
    {
        match self.fields.step {
            Step::One => (0..4).map(|t| self.quarter(prices, t).best()).sum(),
            Step::Two => {
                let former = self.half(prices, 0).best();
                let latter = self.half(prices, 2).best();
                former + latter
            }
            Step::Four => self.hour(prices).best(),
        }
    }

    // Whether a flow keeps the price rule in every step.
    pub(crate) fn keeps_rule(&self, flow: &[i32; 4], prices: CappedPrices<'_>) -> bool
        ensures { result ≡ (flowing self.now.fields).keeps (at flow.now) (table_of prices.entry.bytes.now) }
    {
        match self.fields.step {
            Step::One => (0..4).all(|t| self.quarter(prices, t).keeps(flow[t])),
            Step::Two => self.half(prices, 0).keeps(flow[0]) && self.half(prices, 2).keeps(flow[2]),
            Step::Four => self.hour(prices).keeps(flow[0]),
        }
    }
}

ghost use Rattle.std.specs.Prelude.{◌≡◌, pos, ◌*ℤ◌};
ghost use Rattle.lot.specs.Page.{Within};
ghost use Rattle.border.specs.Stretch.{both, stretch_best, stretch_keeps};

// Quarters of a border that flow as one: the smallest of their ATCs forward and back, and the sum of their gaps, a gap
// being the second price minus the first.
#[derive(Clone, Copy)]
pub struct Stretch {
    pub forward: u32,
    pub back: u32,
    pub gap: i32,
}

// `product` (lot) takes two i32: one function over both would take any i64, whose product need not fit, and ask a bound.
// What a flow earns at a gap, in grains.
fn rent(flow: u32, gap: i32) -> i64
    ensures { result ≡ pos flow *ℤ gap }
{
    i64::from(flow) * i64::from(gap)
}

impl Stretch {
    // That gaps are small is asked at the call: definitions build stretches, and could not with a ghost field (docs/DECISIONS.md).
    // Two stretches as one.
    pub fn and(self, other: Stretch) -> Stretch
        requires { (Within 1000000000 self.gap) × (Within 1000000000 other.gap) }
        ensures { result ≡ both self other }
    {
        Stretch {
            forward: self.forward.min(other.forward),
            back: self.back.min(other.back),
            gap: self.gap + other.gap,
        }
    }

    // The greatest rent, in grains: all that may flow, forward or back.
    pub fn best(self) -> i64
        ensures { result ≡ stretch_best self }
    {
        let forward = rent(self.forward, self.gap);
        let back = rent(self.back, self.gap);
        forward.max(-back)
    }

    // Whether a flow keeps the price rule.
    pub fn keeps(self, flow: i32) -> bool
        ensures { result ≡ stretch_keeps self flow }
    {
        let full = i64::from(self.forward) <= i64::from(flow);
        let full_back = i64::from(flow) <= -i64::from(self.back);
        (full || self.gap <= 0) && (full_back || 0 <= self.gap)
    }
}

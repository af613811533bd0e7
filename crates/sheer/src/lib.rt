// Sheer (regulation 38): the mean of both halves, which no house changes. What it adds to the freeboard and what it deducts is worked in
// `sheer_correction`, by the definitions here.
#![tactic(auto)]

ghost use Rattle.std.specs.Prelude.{◌≡◌, ◌+◌, ◌*◌, ◌-◌, ◌/◌, ◌≤◌, ◌<◌};
ghost use Rattle.whole.specs.Divide.{ceil_div};
ghost use Rattle.whole.specs.Frac.{◌≈f◌, ◌+f◌, ◌*f◌, frac};
ghost use Rattle.units.specs.Datum.{lift, Lifted};
ghost use Rattle.sheer.specs.Sheer.{weighted, standard_after, standard_forward, above, lacks, after_counts, forward_share, excess, deficiency, after_sum, forward_sum};

use units::{Freeboard, LIFT, Length, Ordinate};

// An ordinate has LIFT added to it, and a half adds up 1 + 3 + 3 of them. Sums are in 30000ths of a millimetre, in which the standard is whole.
const LIFT7: u64 = 30000 * (7 * LIFT);

// The mean of both halves, in two parts of which one is 0.
#[derive(Clone, Copy)]
pub struct Mean {
    pub deficiency: Freeboard,
    pub excess: Freeboard,
}

// What of a forward excess counts, a fraction: `top` / `bottom` 240ths of a um.
#[derive(Clone, Copy)]
struct Credit {
    top: u64,
    bottom: u64,
}

// A half's sum of three ordinates, in millimetres.
fn half(perpendicular: Ordinate, sixth: Ordinate, third: Ordinate) -> u64
    requires { (perpendicular.0 < lift + lift) × (sixth.0 < lift + lift) × (third.0 < lift + lift) }
    ensures value { result ≡ weighted perpendicular.0 sixth.0 third.0 }
    ensures upper_bound { result ≤ 14 * lift }
{
    let p = perpendicular.0;
    let s = sixth.0;
    let t = third.0;
    p + 3 * s + 3 * t
}

// (p - q) / d um, rounded down: of the two quotients only the one that the sign asks for.
fn down(p: u64, q: u64, d: u64) -> Mean
    requires { (0 < d) × (d ≤ 126463200000) × (p ≤ 7200000 * d) × (q ≤ 9000000 * d) }
    ensures deficiency_value { (result.deficiency.0 ≡ ceil_div (q - p) d) × (result.excess.0 ≡ (p - q) / d) }
    ensures deficiency_bound { (result.deficiency.0 ≤ 9000000) × (result.excess.0 ≤ 7200000) }
{
    if p < q {
        return Mean {
            deficiency: Freeboard(whole::div_up(q - p, d)),
            excess: Freeboard(0),
        };
    }
    Mean {
        deficiency: Freeboard(0),
        excess: Freeboard((p - q) / d),
    }
}

// The sums of both halves, in millimetres, and L.
#[derive(Clone, Copy)]
struct Halves {
    after: u64,
    forward: u64,
    l: Length,
    ghost in_range: { (after ≤ 14 * lift) × (forward ≤ 14 * lift) },
}

impl Halves {
    // What of an after excess counts, in 240ths of a um: none where the forward half lacks sheer.
    fn after_counts(self) -> u64
        ensures frac { frac result 240 ≈f after_counts self.after self.forward self.l.mm }
        ensures upper_bound { result ≤ 1721000000 }
    {
        let mm = self.l.mm;
        if 30000 * self.forward < LIFT7 + 1334 * (mm + 30000) {
            return 0;
        }
        (30000 * self.after).saturating_sub(LIFT7 + 667 * (mm + 30000))
    }

    // What of a forward excess counts: none where the after half has 50 per cent of its standard w or less, all from 75 on. There w cancels; it stays in the
    // divisor only where an excess counts in part.
    fn forward_counts(self) -> Credit
        ensures frac { frac result.top (240 * result.bottom) ≈f above self.forward (standard_forward self.l.mm) *f forward_share self.after (standard_after self.l.mm) }
        ensures bottom_nonzero { (0 < result.bottom) × (result.bottom ≤ 263465000) × (result.top ≤ 1721000000 * result.bottom) }
    {
        let mm = self.l.mm;
        let w = 667 * (mm + 30000);
        let excess = (30000 * self.forward).saturating_sub(LIFT7 + 1334 * (mm + 30000));
        // So many of w: 4 times what the after sum has above 50 per cent of w, which is w at 75 per cent.
        let part = (120000 * self.after).saturating_sub(4 * LIFT7 + 2 * w);
        let counted = excess * part;
        if counted == 0 {
            return Credit { top: 0, bottom: 1 };
        }
        if w <= part {
            return Credit {
                top: excess,
                bottom: 1,
            };
        }
        Credit {
            top: counted,
            bottom: w,
        }
    }

    // What both halves lack, in 240ths of a um.
    fn lacks(self) -> u64
        ensures frac { frac result 240 ≈f lacks self.after (standard_after self.l.mm) +f lacks self.forward (standard_forward self.l.mm) }
        ensures upper_bound { result ≤ 4300000000 }
    {
        let mm = self.l.mm;
        (LIFT7 + 667 * (mm + 30000)).saturating_sub(30000 * self.after)
            + (LIFT7 + 1334 * (mm + 30000)).saturating_sub(30000 * self.forward)
    }

    // The mean of both halves, rounded down. Where the credit's bottom is 1 it is over the constant 480, by which the compiler divides with a product, as long as it
    // works `down` in place.
    fn mean(self) -> Mean
        ensures deficiency_value { (result.deficiency.0 ≡ deficiency self.after self.forward self.l.mm) × (result.excess.0 ≡ excess self.after self.forward self.l.mm) }
        ensures deficiency_bound { (result.deficiency.0 ≤ 9000000) × (result.excess.0 ≤ 7200000) }
    {
        let credit = self.forward_counts();
        let b = credit.bottom;
        let p = self.after_counts() * b + credit.top;
        let q = self.lacks() * b;
        if b == 1 {
            return down(p, q, 480);
        }
        down(p, q, 480 * b)
    }
}

// 38(8) to (11): the mean. The ordinates are AP, L/6, L/3 from AP, then L/3, L/6 from FP, FP. No house changes it.
#[tactic(auto, unfolding(crate::specs::Sheer::after_sum, crate::specs::Sheer::forward_sum))]
pub fn mean_sheer(l: Length, ordinates: [Ordinate; 6]) -> Mean
    requires { Lifted ordinates }
    ensures deficiency_value { (result.deficiency.0 ≡ deficiency (after_sum ordinates) (forward_sum ordinates) l.mm) × (result.excess.0 ≡ excess (after_sum ordinates) (forward_sum ordinates) l.mm) }
    ensures deficiency_bound { (result.deficiency.0 ≤ 9000000) × (result.excess.0 ≤ 7200000) }
{
    let after = half(ordinates[0], ordinates[1], ordinates[2]);
    let forward = half(ordinates[5], ordinates[4], ordinates[3]);
    let halves = Halves { after, forward, l };
    halves.mean()
}

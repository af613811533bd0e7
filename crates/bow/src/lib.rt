// Bow height (regulation 39): the freeboard that it asks for.
#![tactic(auto)]

ghost use Rattle.std.specs.Prelude.{◌≡◌, ◌+◌, ◌-◌, ◌*◌, ◌^◌, ◌≤◌, ◌<◌};
ghost use Rattle.whole.specs.Frac.{◌≈f◌, ◌*f◌, whole, frac};
ghost use Rattle.units.specs.Datum.{lift};
ghost use Rattle.bow.specs.Bow.{exact_b1, rises, falls, higher, lower, sheer_taken, forecastle_taken};

use units::{Freeboard, LIFT, Length, Ordinate, Span};

// What 39(1) asks by: L, M, a Cb that counts and Cwf, both in ten thousandths.
#[derive(Clone, Copy)]
struct Measures {
    l: Length,
    m: Span,
    cb: u64,
    cwf: u64,
    ghost in_range: { (1000 ≤ m.0) × (m.0 ≤ 60000) × (cb ≤ 12000) × (cwf ≤ 10000) },
}

impl Measures {
    // b1 in 5000000000ths of a um: so it is whole.
    fn cubic(self) -> u64
        ensures frac { frac result 5000000000 ≈f exact_b1 self.l.mm }
        ensures upper_bound { result ≤ 34600000000000000 }
    {
        let mm = self.l.mm;
        mm * (303750000000 + mm * mm - 937500 * mm)
    }

    // The terms that add to b2, in millionths and times 170 M: so they are whole.
    fn rise(self) -> u64
        ensures frac { frac result (170 * self.m.0) ≈f rises self.cb *f whole 1000000 }
        ensures upper_bound { result ≤ 478000000 * self.m.0 }
    {
        17 * self.m.0 * (20800000 + 609 * self.cb)
    }

    // The terms that take from it, the same.
    fn fall(self) -> u64
        ensures frac { frac result (170 * self.m.0) ≈f falls self.l.mm self.m.0 self.cwf *f whole 1000000 }
        ensures upper_bound { result ≤ 272510000 * self.m.0 + 941700000000 }
    {
        17 * self.m.0 * (1603 * self.cwf) + 2580000 * self.l.mm
    }

    // The height that 39(1) asks for, and 0 where b2 is below zero.
    fn up(self) -> Freeboard
        ensures result_value { result.0 ≡ higher self.l.mm self.m.0 self.cb self.cwf }
        ensures result_bound { result.0 ≤ 2 ^ 48 }
    {
        let b1 = whole::div_up(self.cubic(), 5000000000);
        let b2 = whole::div_up(self.rise().saturating_sub(self.fall()), 170 * self.m.0);
        Freeboard(whole::mul_div_up(b1, b2, 1000000))
    }

    // Its size where b2 is below zero, and 0 where b2 is above. With `up` it shares no quotient: each of the three is rounded the other way.
    fn down(self) -> Freeboard
        ensures result_value { result.0 ≡ lower self.l.mm self.m.0 self.cb self.cwf }
        ensures result_bound { result.0 ≤ 2 ^ 48 }
    {
        let b1 = self.cubic() / 5000000000;
        let b2 = self.fall().saturating_sub(self.rise()) / (170 * self.m.0);
        Freeboard(b1 * b2 / 1000000)
    }
}

// An ordinate at FP as a freeboard, if the ordinate at L/6 from FP is above zero; else 0. It is asked for twice: for the sheer at FP, which is taken with
// the 8192 mm in it (LIFT), and for these alone, which are given back.
#[tactic(auto, unfolding(crate::specs::Bow::sheer_taken, whole::specs::Pick::pick))]
fn sheer_taken(sixth: Ordinate, fp: Ordinate) -> Freeboard
    requires { fp.0 < lift + lift }
    ensures result_value { result.0 ≡ sheer_taken sixth.0 fp.0 }
    ensures result_bound { result.0 ≤ 1000 * (lift + lift) }
{
    let s = sixth.0;
    if LIFT < s {
        return units::freeboard_of_sheer(fp);
    }
    Freeboard(0)
}

// The forecastle's height, if its length is at least 0.07 L.
#[tactic(auto, unfolding(crate::specs::Bow::forecastle_taken, whole::specs::Pick::pick))]
fn forecastle_taken(l: Length, length: Span, height: Span) -> Freeboard
    requires { (length.0 ≤ 365000) × (height.0 ≤ 8191) }
    ensures result_value { result.0 ≡ forecastle_taken l.mm length.0 height.0 }
    ensures result_bound { result.0 ≤ 8191000 }
{
    let ship = l.mm;
    let own = length.0;
    if 7 * ship <= 100 * own {
        return units::freeboard_of_mm(height.0);
    }
    Freeboard(0)
}

// The height that the bow must have, less the sheer at FP: what adds to it and what takes from it. Where sheer is taken, both have LIFT in them.
#[derive(Clone, Copy)]
pub struct Height {
    pub above: Freeboard,
    pub below: Freeboard,
}

// 39(1), and 39(2)'s sheer: on L, M, a Cb that counts and Cwf, both in ten thousandths, and the ordinates at L/6 from FP and at FP.
pub fn asked(l: Length, m: Span, cb: u64, cwf: u64, sixth: Ordinate, fp: Ordinate) -> Height
    requires { (1000 ≤ m.0) × (m.0 ≤ 60000) × (cb ≤ 12000) × (cwf ≤ 10000) × (fp.0 < lift + lift) }
    ensures above_value { (result.above.0 ≡ higher l.mm m.0 cb cwf + sheer_taken sixth.0 lift) × (result.below.0 ≡ lower l.mm m.0 cb cwf + sheer_taken sixth.0 fp.0) }
    ensures above_bound { (result.above.0 ≤ 2 ^ 49) × (result.below.0 ≤ 2 ^ 49) }
{
    let measures = Measures { l, m, cb, cwf };
    let above = units::sum(measures.up(), sheer_taken(sixth, Ordinate(LIFT)));
    let below = units::sum(measures.down(), sheer_taken(sixth, fp));
    Height { above, below }
}

// 39(2)'s forecastle, of the given length and height, both 0 where there is none: the freeboard that is left to ask for.
pub fn freeboard(h: Height, l: Length, length: Span, height: Span) -> Freeboard
    requires { (h.above.0 ≤ 2 ^ 49) × (h.below.0 ≤ 2 ^ 49) × (length.0 ≤ 365000) × (height.0 ≤ 8191) }
    ensures result_value { result.0 ≡ h.above.0 - (h.below.0 + forecastle_taken l.mm length.0 height.0) }
    ensures result_bound { result.0 ≤ 2 ^ 49 }
{
    let above = h.above;
    let below = h.below;
    units::difference(
        above,
        units::sum(below, forecastle_taken(l, length, height)),
    )
}

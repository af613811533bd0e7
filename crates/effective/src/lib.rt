// The standard height of a house (33), the ratio of its height to that, the ratio of its breadth to the ship's, and its effective length (35), which is its
// length, limited, in both ratios. All are fractions, which nothing here rounds.
#![tactic(auto)]

ghost use Rattle.std.specs.Prelude.{◌≡◌, ◌*◌, ◌≤◌};
ghost use Rattle.whole.specs.Frac.{frac, ◌≈f◌};
ghost use Rattle.houses.specs.Height as Height;
ghost use Rattle.houses.specs.Effective.{limited_length, breadth_ratio, exact_effective};
ghost use Rattle.effective.specs.Unrounded.{standard_of, rising as rising_from, low_ordinary, low_raised, low_height, Sized, ratio_of, FairRatio, breadths_of, FairBreadths, unrounded_of, FairLength};

use houses::Placed;
use ship::House;
use units::{Effective, Ratio, Span, Unrounded};

// A standard height, size / per mm.
#[derive(Clone, Copy)]
pub struct Standard {
    pub size: u64,
    pub per: u64,
}

// v at L = a, and from there r mm more for every s mm of L.
fn rising(a: u64, v: u64, r: u64, s: u64, l: u64) -> Standard
    requires { (v ≤ 2300) × (r ≤ 3) × (1 ≤ s) × (s ≤ 250) × (a ≤ l) × (l ≤ 125000) }
    ensures { result ≡ standard_of (rising_from a v r s l) }
{
    Standard {
        size: v * s + r * (l - a),
        per: s,
    }
}

// 33: the standard height of a house that is no raised quarterdeck.
#[tactic(auto, unfolding(crate::specs::Unrounded::low_ordinary, whole::specs::Pick::pick))]
fn ordinary_height(l: u64) -> Standard
    ensures { result ≡ standard_of (low_ordinary l) }
{
    if l <= 75000 {
        return Standard { size: 1800, per: 1 };
    }
    if l < 125000 {
        return rising(75000, 1800, 1, 100, l);
    }
    Standard { size: 2300, per: 1 }
}

// 33: the standard height of a raised quarterdeck.
#[tactic(auto, unfolding(crate::specs::Unrounded::low_raised, whole::specs::Pick::pick))]
fn raised_height(l: u64) -> Standard
    ensures { result ≡ standard_of (low_raised l) }
{
    if l <= 30000 {
        return Standard { size: 900, per: 1 };
    }
    if l <= 75000 {
        return rising(30000, 900, 1, 150, l);
    }
    if l < 125000 {
        return rising(75000, 1200, 3, 250, l);
    }
    Standard { size: 1800, per: 1 }
}

// 33: the standard height of a house.
#[tactic(auto, unfolding(crate::specs::Unrounded::low_height, whole::specs::Pick::pick))]
pub fn standard_height(l: Span, quarterdeck: bool) -> Standard
    ensures frac { frac result.size result.per ≈f Height.standard_height l.0 quarterdeck }
    ensures value { result ≡ standard_of (low_height l.0 quarterdeck) }
    ensures sized { Sized result }
{
    if quarterdeck {
        return raised_height(l.0);
    }
    ordinary_height(l.0)
}

// 35: the length that counts in the effective length: a raised quarterdeck's is limited to 0.6 L.
#[tactic(auto, using(houses::proofs::Limits::limited_most), unfolding(houses::specs::Effective::limited_length, whole::specs::Pick::pick))]
fn limited_length(p: Placed) -> Effective
    ensures result_value { result.0 ≡ limited_length p.l.mm p.house }
    ensures result_bound { result.0 ≤ 1000 * p.l.mm }
{
    let um = units::effective_of(p.part());
    if p.house.quarterdeck {
        return Effective(um.0.min(600 * p.l.mm));
    }
    um
}

// The ratio of a house's height to its standard height, 1 where it is no lower. L and the house come apart: this contract asks no bound of L, as Placed does.
#[tactic(auto, using(crate::proofs::Unrounded::ratio_exact, crate::proofs::Unrounded::fair_ratio), unfolding(crate::specs::Unrounded::lesser_of))]
pub fn height_ratio(l: Span, h: House) -> Ratio
    requires { h.height.0 ≤ 8191 }
    ensures frac { frac result.top result.bottom ≈f Height.height_ratio l.0 h }
    ensures value { result ≡ ratio_of l.0 h }
    ensures fair_ratio { FairRatio result }
{
    let standard = standard_height(l, h.quarterdeck);
    Ratio {
        top: (h.height.0 * standard.per).min(standard.size),
        bottom: standard.size,
    }
}

// 35: the ratio of a house's breadth to the ship's, 1 for full breadth.
#[tactic(auto, unfolding(houses::specs::Effective::breadth_ratio, crate::specs::Unrounded::breadths_of, whole::specs::Pick::pick))]
fn breadth_ratio(h: House) -> Ratio
    ensures frac { frac result.top result.bottom ≈f breadth_ratio h }
    ensures value { result ≡ breadths_of h }
{
    if ship::full_breadth(h) {
        return Ratio { top: 1, bottom: 1 };
    }
    Ratio {
        top: h.breadth.0,
        bottom: h.beam.0,
    }
}

// 35: the effective length of a house with that ratio of heights. All ordinary houses of full breadth have the same denominator, the numerator of their standard
// height, so their numerators can be added.
#[tactic(auto, using(crate::proofs::Unrounded::unrounded_exact, crate::proofs::Unrounded::fair_unrounded), unfolding(crate::specs::Unrounded::top_of, crate::specs::Unrounded::bottom_of))]
pub fn effective_of(p: Placed, ratio: Ratio) -> Unrounded
    requires { (ratio ≡ ratio_of p.l.mm p.house) × FairBreadths p.house }
    ensures frac { frac result.top result.bottom ≈f exact_effective p.l.mm p.house }
    ensures value { result ≡ unrounded_of p.l.mm p.house }
    ensures fair_length { FairLength result }
{
    let length = limited_length(p);
    let breadths = breadth_ratio(p.house);
    Unrounded {
        top: length.0 * ratio.top * breadths.top,
        bottom: ratio.bottom * breadths.bottom,
    }
}

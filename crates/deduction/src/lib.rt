// Regulation 37: what the houses deduct. The row of percentages is the caller's: it hands over two neighbours of it.
#![tactic(auto)]

ghost use Rattle.std.specs.Prelude.{◌≡◌, ◌*◌, ◌≤◌, ◌^◌};
ghost use Rattle.whole.specs.Frac.{frac};
ghost use Rattle.whole.specs.Pick.{pick};
ghost use Rattle.deduction.specs.Deduction37.{full, of_full, lacks_forecastle};
ghost use Rattle.deduction.specs.Tenth37.{tenth, share_from};

use units::{Effective, Freeboard, Length, Unrounded, freeboard_of_mm, sum};
use whole::mul_div_down;

// The full amount, for a ship whose houses cover all of its length.
#[tactic(auto, using(crate::proofs::Deduction37::full_to_85, crate::proofs::Deduction37::full_to_122, crate::proofs::Deduction37::full_from_122))]
pub fn full_amount(length: Length) -> Freeboard
    requires { 24000 ≤ length.mm }
    ensures result_value { result.0 ≡ full length.mm }
    ensures result_bound { result.0 ≤ 1070000 }
{
    let l = length.mm;
    if l < 85000 {
        return sum(
            freeboard_of_mm(350),
            Freeboard(mul_div_down(l - 24000, 510, 61)),
        );
    }
    if l < 122000 {
        return sum(
            freeboard_of_mm(860),
            Freeboard(mul_div_down(l - 85000, 210, 37)),
        );
    }
    freeboard_of_mm(1070)
}

// The tenth of L in which E ends: the percentages at it and at the next are those that `share` asks for.
#[tactic(auto, unfolding(crate::specs::Tenth37::tenth))]
pub fn tenth_of(length: Length, effective: Effective) -> usize
    requires { 24000 ≤ length.mm }
    ensures value { result ≡ tenth length.mm effective.0 }
    ensures upper_bound { result ≤ 9 }
{
    let l = length.mm;
    let e = effective.0;
    (e / (100 * l)).min(9) as usize
}

// The share of the full amount, in millionths, between the percentages p and q (in tenths of a per cent) at the ends of E's tenth.
#[tactic(auto, using(crate::proofs::Deduction37::tenth_begins, crate::proofs::Deduction37::share_of_two, crate::proofs::Deduction37::share_from_most))]
pub fn share(p: u64, q: u64, length: Length, effective: Effective) -> u64
    requires { (p ≤ q) × (q ≤ 1000) × (24000 ≤ length.mm) × (effective.0 ≤ 1000 * length.mm) }
    ensures value { result ≡ share_from p q length.mm effective.0 }
    ensures upper_bound { result ≤ 1000000 }
{
    let l = length.mm;
    let e = effective.0;
    let u = 100 * l;
    let j = tenth_of(length, effective) as u64;
    mul_div_down(p * u + (q - p) * (e - j * u), 1000, u)
}

// So many millionths of the full amount.
#[tactic(auto, unfolding(crate::specs::Deduction37::of_full))]
pub fn of_full(length: Length, share: u64) -> Freeboard
    requires { (24000 ≤ length.mm) × (share ≤ 1000000) }
    ensures result_value { result.0 ≡ of_full length.mm share }
    ensures result_bound { result.0 ≤ 1070000 }
{
    let f = full_amount(length);
    let n = f.0;
    Freeboard(mul_div_down(n, share, 1000000))
}

// The deduction, or none where the ship is of type B (`b`) and its forecastle is short, or missing and so of length 0. The fraction itself is tested.
#[tactic(auto, using(crate::proofs::Deduction37::lacks_quotient), unfolding(whole::specs::Pick::pick))]
pub fn if_granted(b: bool, forecastle: Unrounded, length: Length, deduction: Freeboard) -> Freeboard
    requires { (1 ≤ forecastle.bottom) × (forecastle.bottom ≤ 2 ^ 35) }
    ensures result_value { result.0 ≡ pick (lacks_forecastle b (frac forecastle.top forecastle.bottom) length.mm) 0 deduction.0 }
    ensures result_le_deduction { result.0 ≤ deduction.0 }
{
    let bottom = forecastle.bottom;
    let l = length.mm;
    if b & (forecastle.top < 70 * l * bottom) {
        return Freeboard(0);
    }
    deduction
}

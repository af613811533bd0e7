// Regulation 31: what is added for a depth above L / 15, and what is taken for one below it.
ghost use Rattle.std.specs.Prelude.{◌≡◌, ◌≤◌, ◌^◌};
ghost use Rattle.whole.specs.Frac.{frac};
ghost use Rattle.corrections.specs.Depth31.{depth_addition, depth_reduction};

use units::{Freeboard, Length, Ratio, Span};
use whole::{mul_div_down, mul_div_up};

#[tactic(auto, using(crate::proofs::Depth31::addition_none, crate::proofs::Depth31::addition_to_120, crate::proofs::Depth31::addition_from_120, crate::proofs::Depth31::depth_most))]
pub fn addition(length: Length, depth: Span) -> Freeboard
    requires { depth.0 ≤ 60000 }
    ensures result_value { result.0 ≡ depth_addition length.mm depth.0 }
    ensures result_bound { result.0 ≤ 15000000 }
{
    let l = length.mm;
    let d = depth.0;
    if l >= 15 * d {
        return Freeboard(0);
    }
    if l < 120000 {
        return Freeboard(mul_div_up(15 * d - l, l, 7200));
    }
    Freeboard(mul_div_up(15 * d - l, 250, 15))
}

// What is taken, in the ratio of heights of the house amidships, which is 0 where there is none. It is rounded once: the ratio is in the one quotient.
#[tactic(auto, using(crate::proofs::Depth31::reduction_deep, crate::proofs::Depth31::reduction_none, crate::proofs::Depth31::reduction_to_120, crate::proofs::Depth31::reduction_from_120, crate::proofs::Depth31::reduction_most))]
pub fn reduction(length: Length, depth: Span, ratio: Ratio) -> Freeboard
    requires { (depth.0 ≤ 60000) × (ratio.top ≤ ratio.bottom) × (1 ≤ ratio.bottom) × (ratio.bottom ≤ 2 ^ 27) }
    ensures result_value { result.0 ≡ depth_reduction length.mm depth.0 (frac ratio.top ratio.bottom) }
    ensures result_bound { result.0 ≤ 6100000 }
{
    let l = length.mm;
    let d = depth.0;
    let top = ratio.top;
    let bottom = ratio.bottom;
    let lacking = l.saturating_sub(15 * d); // in fifteenths of a millimetre
    // either way nothing is taken, and nothing need be divided
    if lacking == 0 {
        return Freeboard(0);
    }
    if top == 0 {
        return Freeboard(0);
    }
    if l < 120000 {
        return Freeboard(mul_div_down(lacking * l, top, 7200 * bottom));
    }
    Freeboard(mul_div_down(lacking * 250, top, 15 * bottom))
}

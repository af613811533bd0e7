// Regulation 29: what is added to the tabular freeboard of a short ship of type B with few houses.
ghost use Rattle.std.specs.Prelude.{◌≡◌, ◌≤◌};
ghost use Rattle.corrections.specs.Short29.{short_b};

use units::{Effective, Freeboard, Length};
use whole::mul_div_up;

#[tactic(auto, using(crate::proofs::Short29::short_quotient, crate::proofs::Short29::short_long, crate::proofs::Short29::short_enclosed, crate::proofs::Short29::short_most))]
pub fn addition(length: Length, effective: Effective) -> Freeboard
    requires { 24000 ≤ length.mm }
    ensures result_value { result.0 ≡ short_b length.mm effective.0 }
    ensures result_bound { result.0 ≤ 199500 }
{
    let l = length.mm;
    let e = effective.0;
    if l >= 100000 {
        return Freeboard(0);
    }
    if e >= 350 * l {
        return Freeboard(0);
    }
    Freeboard(mul_div_up(350 * l - e, 3 * (100000 - l), 400 * l))
}

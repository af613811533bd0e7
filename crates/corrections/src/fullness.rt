// Regulation 30: a full ship's freeboard so far is made greater.
ghost use Rattle.std.specs.Prelude.{◌≡◌, ◌*◌, ◌^◌, ◌≤◌};
ghost use Rattle.corrections.specs.Fullness30.{counted, fullness};

use units::Freeboard;
use whole::mul_div_up;

// The block coefficient as it counts, in 1/10000.
pub fn counted_block(cb: u64) -> u64
    ensures value { result ≡ counted cb }
    ensures upper_bound { result ≤ 10000 }
{
    cb.min(10000)
}

// The sum so far, for a Cb that counts. Its bound stands in three contracts: a type for it would be made in `hull`, to be read here and in 39 alone.
#[tactic(auto, using(crate::proofs::Fullness30::fullness_none, crate::proofs::Fullness30::fullness_quotient, crate::proofs::Fullness30::fullness_most))]
pub fn corrected(cb: u64, sum: Freeboard) -> Freeboard
    requires { (cb ≤ 12000) × (sum.0 ≤ 2 ^ 32) }
    ensures result_value { result.0 ≡ fullness cb sum.0 }
    ensures result_bound { result.0 ≤ 2 * sum.0 }
{
    if cb <= 6800 {
        return sum;
    }
    Freeboard(mul_div_up(sum.0, cb + 6800, 13600))
}

// Divisions rounded up and down, and differences with their sign: each is two operations of std under one bound, in one word of the contracts.
// That a divisor is above 0 stands in contracts: a NonZero would have to be made of each constant.
#![tactic(auto)]

ghost use Rattle.std.specs.Prelude.{◌≡◌, ◌+◌, ◌*◌, ◌/◌, ◌^◌, ◌≤◌, ◌<◌, pos, ◌-ℤ◌};
ghost use Rattle.whole.specs.Divide.{ceil_div};

// a * b / d, rounded up.
#[tactic(auto, using(crate::proofs::Divide::of_div_ceil))]
pub fn mul_div_up(a: u64, b: u64, d: u64) -> u64
    requires { (0 < d) × (a * b + d ≤ 2 ^ 64) }
    ensures { result ≡ ceil_div (a * b) d }
{
    (a * b).div_ceil(d)
}

// a * b / d, rounded down.
pub fn mul_div_down(a: u64, b: u64, d: u64) -> u64
    requires { (0 < d) × (a * b < 2 ^ 64) }
    ensures { result ≡ a * b / d }
{
    a * b / d
}

// a / d, rounded up: `div_ceil`, in the word of the contracts, `ceil_div`, so that no caller's proof has to turn the one into the other.
#[tactic(auto, using(crate::proofs::Divide::of_div_ceil))]
pub fn div_up(a: u64, d: u64) -> u64
    requires { (0 < d) × (a + d ≤ 2 ^ 64) }
    ensures { result ≡ ceil_div a d }
{
    a.div_ceil(d)
}

// a - b with its sign, of numbers whose difference fits an i64 with ease.
pub fn minus(a: u64, b: u64) -> i64
    requires { (a < 2 ^ 32) × (b < 2 ^ 32) }
    ensures { result ≡ pos a -ℤ pos b }
{
    (a as i64) - (b as i64)
}

// n with a sign.
pub fn with_sign(n: u64) -> i64
    requires { n < 2 ^ 32 }
    ensures { result ≡ pos n }
{
    n as i64
}

// Whole numbers written in decimal digits.
#![tactic(auto)]

ghost use Rattle.std.specs.Prelude.{◌≡◌};
ghost use Rattle.decimal.specs.Decimal.{parsed};

// The number that the bytes write. None: no byte at all, a byte that is no digit (std's `parse` takes a + before the digits), or a number that a u64 does not hold.
#[tactic(auto, using(crate::proofs::Digits::digits))]
pub fn parse(s: &[u8]) -> Option<u64>
    ensures { result ≡ parsed s.now }
{
    if s.is_empty() {
        return None;
    }
    let mut v: u64 = 0;
    for b in s {
        if !b.is_ascii_digit() {
            return None;
        }
        v = v.checked_mul(10)?.checked_add(u64::from(*b - b'0'))?;
    }
    Some(v)
}

// Numbers in bytes, the most significant byte first. Fields of bits side by side are numbers too (specs/Fields.antt).
#![tactic(auto)]

ghost use Rattle.std.specs.Prelude.{◌≡◌, ◌-◌, ◌≤◌, ◌<◌, ◌++◌, length};
ghost use Rattle.bits.specs.Fields.{number, bytes};

// The number that at most eight bytes are.
pub fn word(s: &[u8]) -> u64
    requires { length s.now ≤ 8 }
    ensures { result ≡ number s.now }
{
    let mut acc: u64 = 0;
    for b in s {
        acc = acc * 256 + u64::from(*b);
    }
    acc
}

// Writes the last bytes of a number over the whole of `out`, at most eight.
#[tactic(auto, using(crate::proofs::Radix::last_bytes))]
pub fn put_word(out: &mut [u8], n: u64)
    requires { length out.old ≤ 8 }
    ensures { out.new ≡ bytes (length out.old) n }
{
    let all = n.to_be_bytes();
    out.copy_from_slice(&all[all.len() - out.len()..]);
}

// Writes two words over the whole of `out`, the second from byte `at` on.
pub fn put_two(out: &mut [u8], at: usize, a: u64, b: u64)
    requires { (at ≤ 8) × (at ≤ length out.old) × (length out.old - at ≤ 8) }
    ensures { out.new ≡ bytes at a ++ bytes (length out.old - at) b }
{
    put_word(&mut out[..at], a);
    put_word(&mut out[at..], b);
}

// Sheer (regulation 38): what the mean adds to the freeboard and what it deducts, one of them 0, so that at most one is divided. The mean comes rounded, as
// 01 has it: divided here for the first time, the answers would be others, and a deduction's product would pass 2^64.
#![tactic(auto)]

ghost use Rattle.std.specs.Prelude.{◌≡◌, ◌*◌, ◌≤◌};
ghost use Rattle.sheer.specs.Sheer.{addition, deduction};

use sheer::Mean;
use units::{Freeboard, Length, Span};

// The correction in its two parts.
#[derive(Clone, Copy)]
pub struct Correction {
    pub added: Freeboard,
    pub deducted: Freeboard,
}

// L, what enclosed houses cover of it (S), and the cover's reach in tenths of a millimetre.
#[derive(Clone, Copy)]
struct Cover {
    l: Length,
    s: Span,
    reach: u64,
    ghost in_range: { (24000 ≤ l.mm) × (s.0 ≤ l.mm) × (reach ≤ 2 * l.mm) },
}

impl Cover {
    // What a deficiency adds.
    fn add(self, deficiency: Freeboard) -> Freeboard
        requires { deficiency.0 ≤ 9000000 }
        ensures result_value { result.0 ≡ addition deficiency.0 self.l.mm self.s.0 }
        ensures result_bound { result.0 ≤ 9000000 }
    {
        let mm = self.l.mm;
        let um = deficiency.0;
        if um == 0 {
            return Freeboard(0);
        }
        Freeboard(whole::mul_div_up(um, 3 * mm - 2 * self.s.0, 4 * mm))
    }

    // What an excess deducts.
    fn deduct(self, excess: Freeboard) -> Freeboard
        requires { excess.0 ≤ 7200000 }
        ensures result_value { result.0 ≡ deduction excess.0 self.l.mm self.s.0 self.reach }
        ensures result_bound { result.0 ≤ 456250 }
    {
        let mm = self.l.mm;
        let covered = excess.0 * self.reach;
        if covered == 0 {
            return Freeboard(0);
        }
        let full = whole::mul_div_down(covered, 3 * mm - 2 * self.s.0, 8 * (mm * mm));
        Freeboard(full.min(5 * mm / 4))
    }
}

// 38(14) to (16): what a mean adds and deducts. `s` is the length that enclosed houses cover; `reach` is the cover's, before amidships and
// abaft, in tenths of a millimetre.
pub fn correct(m: Mean, l: Length, s: Span, reach: u64) -> Correction
    requires deficiency_bound { (m.deficiency.0 ≤ 9000000) × (m.excess.0 ≤ 7200000) }
    requires le_l { (24000 ≤ l.mm) × (s.0 ≤ l.mm) × (reach ≤ 2 * l.mm) }
    ensures added_value { (result.added.0 ≡ addition m.deficiency.0 l.mm s.0) × (result.deducted.0 ≡ deduction m.excess.0 l.mm s.0 reach) }
    ensures added_bound { (result.added.0 ≤ 9000000) × (result.deducted.0 ≤ 456250) }
{
    let cover = Cover { l, s, reach };
    let added = cover.add(m.deficiency);
    let deducted = cover.deduct(m.excess);
    Correction { added, deducted }
}

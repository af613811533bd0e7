// The summer mark (regulation 40) and the five that follow from it, in millimetres.
#![tactic(auto)]

ghost use Rattle.std.specs.Prelude.{◌≡◌, ◌+◌, ◌^◌, ◌≤◌, ◌<◌};
ghost use Rattle.mark.specs.Summer.{summer_mark};
ghost use Rattle.mark.specs.Others.{tropical, winter, atlantic, allowance, draught_at, fresh_at, six_marks, sheet, sheet_at};

use ship::refusal::Refusal;
use units::{Freeboard, Span};

mod print;

// Fresh water's may be negative.
#[derive(Clone, Copy)]
pub struct Marks {
    pub s: u64,
    pub t: u64,
    pub w: u64,
    pub wna: u64,
    pub f: i64,
    pub tf: i64,
}

// What the five other marks need of a ship besides its summer mark: the least freeboard of its type in mm, D, L, and the two certified fields, both 0
// if they are not: displacement in t, immersion in hundredths of a t per cm.
#[derive(Clone, Copy)]
pub struct Particulars {
    pub floor: u64,
    pub depth: Span,
    pub length: Span,
    pub displacement: u64,
    pub immersion: u64,
}

// The summer mark: what is added less what is taken, or the bow's freeboard if greater, and at least the floor.
pub fn summer(floor: u64, added: Freeboard, taken: Freeboard, bow: Freeboard) -> u64
    requires { (floor ≤ 60000) × (added.0 ≤ 2 ^ 50) × (bow.0 ≤ 2 ^ 50) }
    ensures value { result ≡ summer_mark floor added.0 taken.0 bow.0 }
    ensures upper_bound { result ≤ 2 ^ 50 }
{
    let corrected = units::difference(added, taken);
    let freeboard = corrected.max(bow);
    floor.max(units::mm_up(freeboard))
}

// T, from the summer mark and the summer draught d, which is worked once, in `follow`, and handed on.
#[tactic(auto, unfolding(crate::specs::Others::tropical))]
fn tropical_of(floor: u64, s: u64, d: u64) -> u64
    ensures value { result ≡ tropical floor s d }
    ensures upper_bound { result ≤ floor + s }
{
    floor.max(s.saturating_sub(d / 48))
}

// W.
#[tactic(auto, unfolding(crate::specs::Others::winter))]
fn winter_of(s: u64, d: u64) -> u64
    requires { (s ≤ 60000) × (d ≤ 60000) }
    ensures value { result ≡ winter s d }
    ensures upper_bound { result ≤ 120000 }
{
    s + whole::div_up(d, 48)
}

// WNA, from W.
#[tactic(auto, unfolding(crate::specs::Others::atlantic, whole::specs::Pick::pick))]
fn atlantic_of(w: u64, l: Span) -> u64
    requires { w ≤ 120000 }
    ensures { result ≡ atlantic w l.0 }
{
    if l.0 <= 100000 { w + 50 } else { w }
}

// The fresh water allowance, from the certified fields or from the summer draught d.
#[tactic(auto, unfolding(crate::specs::Others::allowance, whole::specs::Pick::pick))]
fn allowance_of(displacement: u64, immersion: u64, d: u64) -> u64
    requires { (displacement < 1048576) × (d ≤ 60000) }
    ensures value { result ≡ allowance displacement immersion d }
    ensures upper_bound { result ≤ 26214400 }
{
    if immersion == 0 {
        return d / 48;
    }
    25 * displacement / immersion
}

// All six, from the summer mark s, the summer draught d and the fresh allowance.
#[tactic(auto, unfolding(crate::specs::Others::six_marks))]
fn six_marks(p: Particulars, s: u64, d: u64, fresh: u64) -> Marks
    requires { (p.floor ≤ 60000) × (p.depth.0 ≤ 60000) × (s < p.depth.0) × (d ≡ draught_at p s) × (fresh ≡ fresh_at p s) × (fresh ≤ 26214400) }
    ensures { result ≡ six_marks p s }
{
    let t = tropical_of(p.floor, s, d);
    let w = winter_of(s, d);
    let wna = atlantic_of(w, p.length);
    let f = whole::minus(s, fresh);
    let tf = whole::minus(t, fresh);
    Marks {
        s,
        t,
        w,
        wna,
        f,
        tf,
    }
}

// All six from the summer mark s, or refusal 12 or 13. At a draught of 0 both can apply: 12 comes first.
#[tactic(auto, unfolding(crate::specs::Others::sheet_at, ship::specs::Refusals::first, whole::specs::Pick::pick))]
pub fn follow(p: Particulars, s: u64) -> Result<Marks, Refusal>
    requires { (p.floor ≤ 60000) × (p.depth.0 ≤ 60000) × (p.displacement < 1048576) }
    ensures { sheet result ≡ sheet_at p s }
{
    let d = units::draught(p.depth, s);
    let fresh = allowance_of(p.displacement, p.immersion, d);
    if units::is_at_keel(p.depth, s) {
        return Err(Refusal::NoDraught);
    }
    if d < fresh {
        return Err(Refusal::FreshAllowance);
    }
    Ok(six_marks(p, s, d, fresh))
}

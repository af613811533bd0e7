// Timber freeboards (regulations 41 to 45): the marks of a ship with a timber deck cargo, in millimetres and with their sign.
#![tactic(auto)]

ghost use Rattle.std.specs.Prelude.{◌≡◌, ◌^◌, ◌≤◌};
ghost use Rattle.timber.specs.Timber.{timber_winter, timber_from, no_timber, timber_marks, level_of, signed};

use mark::Marks;
use units::{Freeboard, Span};

mod print;

// A mark as what stands above zero and what lies below it: up less down.
#[derive(Clone, Copy)]
pub struct Level {
    pub up: u64,
    pub down: u64,
}

// Neither a floor nor the bow height holds timber marks up: all but LWNA, which is the ordinary WNA, may be negative.
#[derive(Clone, Copy)]
pub struct TimberMarks {
    pub ls: i64,
    pub lt: i64,
    pub lw: i64,
    pub lwna: u64,
    pub lf: i64,
    pub ltf: i64,
}

// What is given where nothing is refused: the marks, with the timber marks beside them where they are asked for.
#[derive(Clone, Copy)]
pub struct Given {
    pub ordinary: Marks,
    pub timber: Option<TimberMarks>,
}

// LS: what is added less what is taken.
#[tactic(auto, unfolding(crate::specs::Timber::level_of))]
pub fn level_of(added: Freeboard, taken: Freeboard) -> Level
    requires { (added.0 ≤ 2 ^ 40) × (taken.0 ≤ 2 ^ 40) }
    ensures value { result ≡ level_of added.0 taken.0 }
    ensures up_bound { (result.up ≤ 2 ^ 31) × (result.down ≤ 2 ^ 31) }
{
    let up = whole::div_up(added.0.saturating_sub(taken.0), 1000);
    let down = taken.0.saturating_sub(added.0) / 1000;
    Level { up, down }
}

// A ship with its timber deck cargo: whether it is reduced, its ordinary W, and LS.
#[derive(Clone, Copy)]
struct Laden {
    reduced: bool,
    w: u64,
    s: Level,
    ghost in_range: { (w ≤ 2 ^ 30) × (s.up ≤ 2 ^ 31) × (s.down ≤ 2 ^ 31) },
}

impl Laden {
    // LW, which on a reduced ship is level with its W where it would be greater. Both are counted from `down` below zero, so that neither is negative.
    #[tactic(auto, unfolding(crate::specs::Timber::timber_winter, whole::specs::Pick::pick))]
    fn winter_of(self, d: u64) -> i64
        requires { d ≤ 2 ^ 32 }
        ensures { result ≡ timber_winter self.reduced self.w (signed self.s) d }
    {
        let s = self.s;
        let top = s.up + whole::div_up(d, 36);
        if self.reduced {
            return whole::minus(top.min(self.w + s.down), s.down);
        }
        whole::minus(top, s.down)
    }

    // All six, from the ordinary WNA and the timber summer draught d.
    fn six_marks(self, wna: u64, d: u64) -> TimberMarks
        requires { d ≤ 2 ^ 32 }
        ensures { result ≡ timber_from self.reduced self.w wna (signed self.s) d }
    {
        let s = self.s;
        let once = s.down + d / 48;
        let lt = whole::minus(s.up, once);
        TimberMarks {
            ls: whole::minus(s.up, s.down),
            lt,
            lw: self.winter_of(d),
            lwna: wna,
            lf: lt,
            ltf: whole::minus(s.up, once + d / 48),
        }
    }
}

// What stands where no timber marks are given.
#[tactic(auto, unfolding(crate::specs::Timber::no_timber))]
pub fn none() -> TimberMarks
    ensures { result ≡ no_timber }
{
    TimberMarks {
        ls: 0,
        lt: 0,
        lw: 0,
        lwna: 0,
        lf: 0,
        ltf: 0,
    }
}

// All six from LS, beside the ordinary W and WNA; or zeros where LS is at or above the depth.
#[tactic(auto, unfolding(crate::specs::Timber::timber_marks, crate::specs::Timber::timber_given, crate::specs::Timber::timber_draught, whole::specs::Pick::pick))]
pub fn follow(reduced: bool, w: u64, wna: u64, depth: Span, s: Level) -> TimberMarks
    requires { (w ≤ 2 ^ 30) × (depth.0 ≤ 2 ^ 30) × (s.up ≤ 2 ^ 31) × (s.down ≤ 2 ^ 31) }
    ensures { result ≡ timber_marks reduced w wna depth.0 (signed s) }
{
    // D, counted as `up` is, from `down` below zero.
    let keel = depth.0 + s.down;
    if keel <= s.up {
        return none();
    }
    Laden { reduced, w, s }.six_marks(wna, keel - s.up)
}

// The answers of the calls for C: structs of 64-bit numbers, by value. Each begins with the verdict's number, place and overlap; beside a refusal all else is 0, for C has no Result.
#![tactic(auto)]

ghost use Rattle.std.specs.Prelude.{◌≡◌, ◌^◌, ◌≤◌, ◌<◌, Ok, Err, IfSome, eqb};
ghost use Rattle.whole.specs.Pick.{pick};
ghost use Rattle.ship.specs.Refusals.{paper};
ghost use Rattle.record.specs.Writing.{bytes_for};
ghost use Rattle.timber.specs.Answer.{sheet};
ghost use Rattle.question.specs.Question.{reply};
ghost use Rattle.answers.specs.Answers.{from_sheet, from_reply, Small};

use flat::FlatShip;
use ship::Ship;
use ship::refusal::{Paper, Refusal};
use timber::Given;

// The six marks, in mm below the deck line, and the six timber marks, which are 0 where there are none.
#[repr(C)]
#[derive(Clone, Copy)]
pub struct MarksAnswer {
    pub verdict: Paper,
    pub s: i64,
    pub t: i64,
    pub w: i64,
    pub wna: i64,
    pub f: i64,
    pub tf: i64,
    pub ls: i64,
    pub lt: i64,
    pub lw: i64,
    pub lwna: i64,
    pub lf: i64,
    pub ltf: i64,
}

// The shortest poop.
#[repr(C)]
#[derive(Clone, Copy)]
pub struct PoopAnswer {
    pub verdict: Paper,
    pub decimetres: u64,
}

// The ship that was read.
#[repr(C)]
#[derive(Clone, Copy)]
pub struct ReadAnswer {
    pub verdict: Paper,
    pub ship: FlatShip,
}

// The length of the record that was written.
#[repr(C)]
#[derive(Clone, Copy)]
pub struct WriteAnswer {
    pub verdict: Paper,
    pub bytes: u64,
}

// Marks that are given. A function, for it asks that each has room in a signed number.
#[tactic(auto, unfolding(crate::specs::Answers::from_sheet))]
pub fn marked(g: Given) -> MarksAnswer
    requires { Small g.ordinary × IfSome g.timber (λ t. t.lwna < 2 ^ 32) }
    ensures { result ≡ from_sheet (sheet (Ok g)) }
{
    let m = g.ordinary;
    let l = g.timber.unwrap_or(timber::none());
    MarksAnswer {
        verdict: Paper::from(Ok(())),
        s: whole::with_sign(m.s),
        t: whole::with_sign(m.t),
        w: whole::with_sign(m.w),
        wna: whole::with_sign(m.wna),
        f: m.f,
        tf: m.tf,
        ls: l.ls,
        lt: l.lt,
        lw: l.lw,
        lwna: whole::with_sign(l.lwna),
        lf: l.lf,
        ltf: l.ltf,
    }
}

// A refusal, and no marks.
impl From<Refusal> for MarksAnswer {
    ghost from_gives = { λ r a. a ≡ from_sheet (sheet (Err r)) };

    #[tactic(auto, unfolding(crate::specs::Answers::from_sheet, timber::specs::Timber::no_timber))]
    fn from(r: Refusal) -> MarksAnswer {
        MarksAnswer {
            verdict: Paper::from(r),
            s: 0,
            t: 0,
            w: 0,
            wna: 0,
            f: 0,
            tf: 0,
            ls: 0,
            lt: 0,
            lw: 0,
            lwna: 0,
            lf: 0,
            ltf: 0,
        }
    }
}

// The shortest poop, or what is refused.
impl From<Result<u64, Refusal>> for PoopAnswer {
    ghost from_gives = { λ a p. p ≡ from_reply (reply a) };

    #[tactic(auto, unfolding(crate::specs::Answers::from_reply))]
    fn from(a: Result<u64, Refusal>) -> PoopAnswer {
        match a {
            Ok(k) => PoopAnswer {
                verdict: Paper::from(Ok(())),
                decimetres: k,
            },
            Err(r) => PoopAnswer {
                verdict: Paper::from(r),
                decimetres: 0,
            },
        }
    }
}

// The length of a ship's record that was written, or 0 where it was refused. A function, for it asks that a ship that was written has at most eight houses.
#[tactic(auto, unfolding(whole::specs::Pick::pick))]
pub fn length_of(v: Result<(), Refusal>, x: Ship) -> u64
    requires { (paper v).number ≡ 0 → x.n ≤ 8 }
    ensures { result ≡ pick (eqb (paper v).number 0) (bytes_for x) 0 }
{
    match v {
        Ok(()) => record::record_length(record::lowest_for(x), x.n) as u64,
        Err(_) => 0,
    }
}

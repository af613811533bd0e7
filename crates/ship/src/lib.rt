// The ship of a record: its fields, and up to eight houses kept by value.
#![tactic(auto)]

ghost use Rattle.std.specs.Prelude.{◌≡◌};
ghost use Rattle.ship.specs.Vessel.{no_house, no_ship, full_breadth};

use units::{AP, LIFT, Ordinate, Span, Station};

pub mod kind;
mod print;
pub mod refusal;
pub mod rule;

// A house on the freeboard deck, from its after end to its fore end.
#[derive(Clone, Copy)]
pub struct House {
    pub enclosed: bool,
    pub quarterdeck: bool,
    pub aft: Station,
    pub fore: Station,
    pub height: Span,
    // Of set-in sides: the house's breadth and the ship's, both at the middle of the house; 0 and 0 for full breadth.
    pub breadth: Span,
    pub beam: Span,
}

// Fields 1 to 13 in the record's order, and the houses in order from aft, of which the first `n` count.
#[derive(Clone, Copy)]
pub struct Ship {
    // Its type, one of those in kind.rt.
    pub kind: u64,
    // Any number until check 4 has seen it, as the record and C give it: a type that holds at most 8 could not be refused by 4.
    pub n: usize,
    // Timber freeboards are asked for.
    pub timber: bool,
    // L, the depth D for freeboard, and the least moulded depth M.
    pub length: Span,
    pub depth: Span,
    pub moulded: Span,
    // Cb and Cwf, in ten thousandths.
    pub block: u64,
    pub waterplane: u64,
    // Of sheer: at AP, at L/6 and at L/3 from it, then at L/3 and at L/6 from FP, and at FP.
    pub sheer: [Ordinate; 6],
    // Tonnes, and hundredths of a tonne per centimetre of draught; both 0 where nothing is certified.
    pub displacement: u64,
    pub immersion: u64,
    pub houses: [House; 8],
}

// What stands in a place beyond the last house: no length and no height, at the after perpendicular, which a caller reads as 0 mm.
pub fn no_house() -> House
    ensures { result ≡ no_house }
{
    House {
        enclosed: false,
        quarterdeck: false,
        aft: Station(AP),
        fore: Station(AP),
        height: Span(0),
        breadth: Span(0),
        beam: Span(0),
    }
}

// Whether a house has the ship's full breadth: its two breadths are 0.
pub fn full_breadth(h: House) -> bool
    ensures { result ≡ full_breadth h }
{
    (h.breadth.0 == 0) & (h.beam.0 == 0)
}

// The ship beside a refusal, all zero to a caller: LIFT is the number of 0 mm of sheer.
pub fn no_ship() -> Ship
    ensures { result ≡ no_ship }
{
    Ship {
        kind: 0,
        n: 0,
        timber: false,
        length: Span(0),
        depth: Span(0),
        moulded: Span(0),
        block: 0,
        waterplane: 0,
        sheer: [Ordinate(LIFT); 6],
        displacement: 0,
        immersion: 0,
        houses: [no_house(); 8],
    }
}

// Why a call refuses: a case for each number of the papers, with the place where it has one, and the overlap of two houses where they overlap.
ghost use Rattle.std.specs.Prelude.{◌≡◌, eqb};
ghost use Rattle.whole.specs.Pick.{pick};
ghost use Rattle.ship.specs.Refusals as Refusals;
ghost use Rattle.ship.specs.Refusals.{accepted, paper, refused_as};

use units::Span;

#[derive(Clone, Copy)]
pub enum Refusal {
    ShortRecord,
    Version,
    ShipType,
    HouseCount,
    RecordLength,
    SpareBit,
    FieldRange(usize),
    HalfCertified,
    HouseExtent(usize),
    Quarterdeck(usize),
    Overlap(usize, Span),
    NoDraught,
    FreshAllowance,
    QuestionRange,
    NoRoomForPoop,
    NoLengthFits,
    ShortBuffer,
    OutOfOrder(usize),
    LengthForType,
    Breadths(usize),
    TimberForA,
}

// What the papers say of a refusal. The place is the field, counted from 1, or the house, counted from 0, and 0 where there is none; the overlap is in
// millimetres, 0 where no houses overlap. The number 0 refuses nothing. Numbers, for C.
#[repr(C)]
#[derive(Clone, Copy)]
pub struct Paper {
    pub number: u64,
    pub place: u64,
    pub overlap: u64,
}

fn refused(number: u64, place: usize) -> Paper
    ensures { result ≡ Refusals.refused number place }
{
    Paper {
        number,
        place: place as u64,
        overlap: 0,
    }
}

fn overlapping(place: usize, overlap: Span) -> Paper
    ensures { result ≡ Refusals.overlapping place overlap.0 }
{
    Paper {
        number: 11,
        place: place as u64,
        overlap: overlap.0,
    }
}

// A refusal in the papers' numbers: their table, a line for each case.
impl From<Refusal> for Paper {
    ghost from_gives = { λ r p. p ≡ refused_as r };

    fn from(r: Refusal) -> Paper {
        match r {
            Refusal::ShortRecord => refused(1, 0),
            Refusal::Version => refused(2, 0),
            Refusal::ShipType => refused(3, 0),
            Refusal::HouseCount => refused(4, 0),
            Refusal::RecordLength => refused(5, 0),
            Refusal::SpareBit => refused(6, 0),
            Refusal::FieldRange(k) => refused(7, k),
            Refusal::HalfCertified => refused(8, 0),
            Refusal::HouseExtent(k) => refused(9, k),
            Refusal::Quarterdeck(k) => refused(10, k),
            Refusal::Overlap(k, mm) => overlapping(k, mm),
            Refusal::NoDraught => refused(12, 0),
            Refusal::FreshAllowance => refused(13, 0),
            Refusal::QuestionRange => refused(14, 0),
            Refusal::NoRoomForPoop => refused(15, 0),
            Refusal::NoLengthFits => refused(16, 0),
            Refusal::ShortBuffer => refused(17, 0),
            Refusal::OutOfOrder(k) => refused(18, k),
            Refusal::LengthForType => refused(22, 0),
            Refusal::Breadths(k) => refused(23, k),
            Refusal::TimberForA => refused(24, 0),
        }
    }
}

// A verdict in the papers' numbers: 0 where nothing is refused.
impl From<Result<(), Refusal>> for Paper {
    ghost from_gives = { λ v p. p ≡ paper v };

    fn from(v: Result<(), Refusal>) -> Paper {
        match v {
            Ok(()) => refused(0, 0),
            Err(r) => Paper::from(r),
        }
    }
}

// A line of 01's table of refusals: its own where its check fails, else what the lines below it say.
#[tactic(auto, unfolding(whole::specs::Pick::pick))]
pub fn line(fails: bool, r: Refusal, below: Result<(), Refusal>) -> Result<(), Refusal>
    ensures { paper result ≡ pick fails (refused_as r) (paper below) }
{
    if fails { Err(r) } else { below }
}

// A verdict that refuses, or what the lines below it say.
#[tactic(auto, using(crate::proofs::Lines::beside_refusal), unfolding(whole::specs::Pick::pick))]
pub fn after(v: Result<(), Refusal>, below: Result<(), Refusal>) -> Result<(), Refusal>
    ensures { paper result ≡ pick (eqb (paper v).number 0) (paper below) (paper v) }
{
    v.and(below)
}

// The units that regulation 28 keeps apart, a type for each: none can be added to another or compared with it, and the values of one are ordered as numbers.
// One becomes another only in a function of this file, or in a regulation's formula, as where lengths give a freeboard. A plain number gets its unit where it
// comes in: from a record, from C, from who asks. A conversion is a function and no `From`: its name says what the plain number counts, and most have a
// `requires`, which a `From` can't have.
#![tactic(auto)]

ghost use Rattle.std.specs.Prelude.{◌≡◌, ◌+◌, ◌-◌, ◌*◌, ◌/◌, ◌^◌, ◌≤◌, ◌<◌, leb};
ghost use Rattle.whole.specs.Divide.{ceil_div};
ghost use Rattle.units.specs.Datum.{datum, lift, station_of, mm_of, station_at, sheer_of, ordinate_at, counted_from};

mod print;

// A place along the ship: millimetres forward of the after perpendicular (AP), negative abaft it, with 2^20 added so that none is below zero. The lesser
// of two lies abaft the other.
#[derive(Clone, Copy, PartialEq, Eq, PartialOrd, Ord)]
pub struct Station(pub u64);

// The station of the after perpendicular: 0 mm.
pub const AP: u64 = 1048576;

// A length or a height, in millimetres: any, so the bound of a depth or a height stands in the contracts that need it.
#[derive(Clone, Copy, PartialEq, Eq, PartialOrd, Ord)]
pub struct Span(pub u64);

// The ship's length L, from the after perpendicular to the fore one: at most 365 m wherever a regulation works with it. Its least, 24 m, stays in the contracts
// that need it: the others take any L up to this, and may not ask more.
#[derive(Clone, Copy)]
pub struct Length {
    pub mm: u64,
    pub ghost within: { mm ≤ 365000 },
}

impl Length {
    // A length that L may be.
    pub fn of(l: Span) -> Length
        requires { l.0 ≤ 365000 }
        ensures { result.mm ≡ l.0 }
    {
        Length { mm: l.0 }
    }

    // As any length.
    pub fn span(self) -> Span
        ensures { result.0 ≡ self.mm }
    {
        Span(self.mm)
    }

    // The fore perpendicular, at its end.
    pub fn fore_perpendicular(self) -> Station
        ensures { result.0 ≡ station_of self.mm }
    {
        forward_of_ap(self.span())
    }
}

// An effective length, in whole micrometres.
#[derive(Clone, Copy, PartialEq, Eq, PartialOrd, Ord)]
pub struct Effective(pub u64);

// An effective length before it is rounded, a fraction: `top` / `bottom` micrometres.
#[derive(Clone, Copy)]
pub struct Unrounded {
    pub top: u64,
    pub bottom: u64,
}

// A ratio of a house's heights or of breadths, a fraction of at most 1: `top` / `bottom`.
#[derive(Clone, Copy)]
pub struct Ratio {
    pub top: u64,
    pub bottom: u64,
}

// A freeboard, in micrometres.
#[derive(Clone, Copy, PartialEq, Eq, PartialOrd, Ord)]
pub struct Freeboard(pub u64);

// An ordinate of sheer: its signed millimetres plus 8192, so that none is below zero.
#[derive(Clone, Copy, PartialEq, Eq, PartialOrd, Ord)]
pub struct Ordinate(pub u64);

// The ordinate of no sheer: 0 mm.
pub const LIFT: u64 = 8192;

// The number that stands for so many signed millimetres, if `zero` stands for 0 mm; what would be below 0 is 0.
#[tactic(auto, unfolding(crate::specs::Datum::counted_from, whole::specs::Pick::pick))]
fn counted_from(zero: u64, mm: i64) -> u64
    requires { zero ≤ datum }
    ensures { result ≡ counted_from zero mm }
{
    let size = mm.unsigned_abs();
    if mm < 0 {
        zero.saturating_sub(size)
    } else {
        zero + size
    }
}

// ---- stations
// The station that lies `l` forward of the after perpendicular.
pub fn forward_of_ap(l: Span) -> Station
    requires { l.0 < datum }
    ensures { result.0 ≡ station_of l.0 }
{
    Station(AP + l.0)
}

// The length from one station forward to another; 0 where that one lies abaft it.
pub fn between(aft: Station, fore: Station) -> Span
    ensures { result.0 ≡ fore.0 - aft.0 }
{
    Span(fore.0.saturating_sub(aft.0))
}

// A station, half a length and a tenth of a length, in tenths of a millimetre: in millimetres the last two need not be whole.
pub fn in_tenths(s: Station) -> u64
    requires { s.0 < 2 ^ 32 }
    ensures { result ≡ 10 * s.0 }
{
    10 * s.0
}

pub fn half_in_tenths(l: Span) -> u64
    requires { l.0 < 2 ^ 32 }
    ensures { result ≡ 5 * l.0 }
{
    5 * l.0
}

pub fn tenth_in_tenths(l: Span) -> u64
    ensures { result ≡ l.0 }
{
    l.0
}

// A station as signed millimetres forward of the after perpendicular. An ordinate's twin is below: both are one line, a difference from their zero, so that a
// trait with the zero and its law would be the longer text.
pub fn mm_of_station(s: Station) -> i64
    requires { s.0 < 2 ^ 32 }
    ensures { result ≡ mm_of s.0 }
{
    whole::minus(s.0, AP)
}

// And back, for any number.
pub fn station_of_mm(mm: i64) -> Station
    ensures { result.0 ≡ station_at mm }
{
    Station(counted_from(AP, mm))
}

// ---- ordinates of sheer
// An ordinate as signed millimetres of sheer.
pub fn mm_of_ordinate(o: Ordinate) -> i64
    requires { o.0 < 2 ^ 32 }
    ensures { result ≡ sheer_of o.0 }
{
    whole::minus(o.0, LIFT)
}

// The ordinate of any number of signed millimetres.
#[tactic(auto, unfolding(crate::specs::Datum::ordinate_at, whole::specs::Pick::pick))]
pub fn ordinate_of_mm(mm: i64) -> Ordinate
    ensures { result.0 ≡ ordinate_at mm }
{
    if mm < 0 && LIFT < mm.unsigned_abs() {
        return Ordinate(2 * LIFT);
    }
    Ordinate(counted_from(LIFT, mm))
}

// Millimetres of sheer above zero, and below it: one of the two is 0.
pub fn mm_above(o: Ordinate) -> u64
    ensures { result ≡ o.0 - lift }
{
    o.0.saturating_sub(LIFT)
}

pub fn mm_below(o: Ordinate) -> u64
    ensures { result ≡ lift - o.0 }
{
    LIFT.saturating_sub(o.0)
}

// ---- lengths, effective lengths and freeboards
// The whole decimetres in a length, and the length of `k` of them.
pub fn dm_within(l: Span) -> u64
    ensures { result ≡ l.0 / 100 }
{
    l.0 / 100
}

pub fn span_of_dm(k: u64) -> Span
    requires { k ≤ 2 ^ 32 }
    ensures { result.0 ≡ 100 * k }
{
    Span(100 * k)
}

// A length in micrometres.
pub fn effective_of(l: Span) -> Effective
    requires { l.0 < 2 ^ 32 }
    ensures { result.0 ≡ 1000 * l.0 }
{
    Effective(1000 * l.0)
}

// The freeboard of `mm` millimetres.
pub fn freeboard_of_mm(mm: u64) -> Freeboard
    requires { mm < 2 ^ 32 }
    ensures { result.0 ≡ 1000 * mm }
{
    Freeboard(1000 * mm)
}

// An ordinate of sheer as a freeboard. The 8192 mm added to it (LIFT) are still in it.
pub fn freeboard_of_sheer(o: Ordinate) -> Freeboard
    requires { o.0 < 2 ^ 32 }
    ensures { result.0 ≡ 1000 * o.0 }
{
    freeboard_of_mm(o.0)
}

// A freeboard in whole millimetres, up.
pub fn mm_up(f: Freeboard) -> u64
    requires { f.0 ≤ 2 ^ 62 }
    ensures { result ≡ ceil_div f.0 1000 }
{
    whole::div_up(f.0, 1000)
}

// The sum of two freeboards.
pub fn sum(a: Freeboard, b: Freeboard) -> Freeboard
    requires { (a.0 ≤ 2 ^ 62) × (b.0 ≤ 2 ^ 62) }
    ensures { result.0 ≡ a.0 + b.0 }
{
    Freeboard(a.0 + b.0)
}

// The first freeboard less the second; 0 where the second is the greater.
pub fn difference(a: Freeboard, b: Freeboard) -> Freeboard
    ensures { result.0 ≡ a.0 - b.0 }
{
    Freeboard(a.0.saturating_sub(b.0))
}

// Whether a mark so many millimetres below the deck line lies at the keel or below it; and the draught at one that does not, 0 at one that does.
pub fn is_at_keel(depth: Span, mark: u64) -> bool
    ensures { result ≡ leb depth.0 mark }
{
    depth.0 <= mark
}

pub fn draught(depth: Span, mark: u64) -> u64
    ensures { result ≡ depth.0 - mark }
{
    depth.0.saturating_sub(mark)
}

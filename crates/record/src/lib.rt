// The layout of the ship record, versions 1 to 4: a head, then the houses. Reader and writer take the width and the place of every field from here.
#![tactic(auto)]

ghost use Rattle.std.specs.Prelude.{◌≡◌, ◌*◌, ◌≤◌, ◌<◌, eqb, take};
ghost use Rattle.whole.specs.Pick.{pick};
ghost use Rattle.units.specs.Datum.{datum, lift};
ghost use Rattle.record.specs.Layout.{last_type_in, house_size, record_length, any_set_in, lowest_for, turn, bit};

use ship::{House, Ship, kind};
use units::{AP, LIFT, Ordinate, Span, Station};

pub mod after;
pub mod range;
pub mod width;

// Bytes of the head, and of a house's two words: all but its breadths, and these.
pub const HEAD_BYTES: usize = 27;

pub const HOUSE_WORD: usize = 8;

pub const BREADTHS_WORD: usize = 4;

// The versions; the last of the types; the most houses.
pub const FIRST_VERSION: u64 = 1;

pub const SECOND_VERSION: u64 = 2;

pub const THIRD_VERSION: u64 = 3;

pub const FOURTH_VERSION: u64 = 4;

pub const LAST_VERSION: u64 = FOURTH_VERSION;

pub const LAST_TYPE: u64 = kind::PORTABLE_COVERS;

pub const MOST_HOUSES: u64 = 8;

// What the head says, in the record's order.
#[derive(Clone, Copy)]
pub struct Head {
    pub version: u64,
    // Whatever the bits say: checks 3 and 4 have to see it.
    pub kind: u64,
    pub count: u64,
    pub timber: bool,
    pub spare: u64,
    // L, D and M.
    pub length: Span,
    pub depth: Span,
    pub moulded: Span,
    // Cb and Cwf.
    pub block: u64,
    pub waterplane: u64,
    // At AP, L/6, L/3 from AP, then L/3, L/6 from FP, FP.
    pub sheer: [Ordinate; 6],
    pub displacement: u64,
    pub immersion: u64,
}

// ---- versions
// One number in version 1, and another in every later one.
#[tactic(auto, unfolding(whole::specs::Pick::pick))]
fn by_version(version: u64, first: u64, later: u64) -> u64
    ensures { result ≡ pick (eqb version 1) first later }
{
    if version == FIRST_VERSION {
        first
    } else {
        later
    }
}

// The last of the types that a version holds.
#[tactic(auto, unfolding(crate::specs::Layout::last_type_in))]
pub fn last_type_in(version: u64) -> u64
    ensures { result ≡ last_type_in version }
{
    by_version(version, kind::B, LAST_TYPE)
}

// How many bytes a house has in a version.
#[tactic(auto, unfolding(crate::specs::Layout::house_size, whole::specs::Pick::pick))]
pub fn house_size(version: u64) -> usize
    ensures { (result ≡ house_size version) × (8 ≤ result) × (result ≤ 12) }
{
    if version <= SECOND_VERSION {
        HOUSE_WORD
    } else {
        HOUSE_WORD + BREADTHS_WORD
    }
}

// How many bytes a record of `n` houses has in a version. The two come as two: a writer has no head yet, which would hold both.
pub fn record_length(version: u64, n: usize) -> usize
    requires { n ≤ 8 }
    ensures { (result ≡ record_length version n) × (result ≤ 123) }
{
    HEAD_BYTES + house_size(version) * n
}

// Whether some house has breadths.
fn any_set_in(houses: &[House]) -> bool
    ensures { result ≡ any_set_in houses.now }
{
    houses.iter().any(|h| !ship::full_breadth(*h))
}

// The lowest version that holds a ship.
#[tactic(auto, unfolding(crate::specs::Layout::lowest_for, whole::specs::Pick::pick))]
pub fn lowest_for(x: Ship) -> u64
    requires { x.n ≤ 8 }
    ensures { result ≡ lowest_for x }
{
    if x.timber {
        return FOURTH_VERSION;
    }
    if any_set_in(&x.houses[..x.n]) {
        return THIRD_VERSION;
    }
    if x.kind > last_type_in(FIRST_VERSION) {
        return SECOND_VERSION;
    }
    FIRST_VERSION
}

// A flag's bit.
pub fn bit_of(b: bool) -> u64
    ensures { (result ≡ bit b) × (result < 2) }
{
    u64::from(b)
}

// ---- signed fields
// The record holds signed millimetres in two's complement. The code holds them plus half the range, so that none is below zero:
// 0 mm is 0 in the record and `half` here. From one to the other the two halves of the range change places, and so they do on the way back.
fn turned(half: u64, u: u64) -> u64
    requires { (1 ≤ half) × (half ≤ datum) }
    ensures { (result ≡ turn half u) × (result < 2 * half) }
{
    let range = 2 * half;
    (u % range + half) % range
}

// Stations and ordinates share `turned`. One function for both types would need a trait with two impls, which is longer than these four lines of code.

// The station of a field of 21 bits.
pub fn station_in(field: u64) -> Station
    ensures { result.0 ≡ turn datum field }
{
    Station(turned(AP, field))
}

pub fn station_field(s: Station) -> u64
    ensures { (result ≡ turn datum s.0) × (result < 2 * datum) }
{
    turned(AP, s.0)
}

// The ordinate of a field of 14 bits.
pub fn ordinate_in(field: u64) -> Ordinate
    ensures { result.0 ≡ turn lift field }
{
    Ordinate(turned(LIFT, field))
}

pub fn ordinate_field(o: Ordinate) -> u64
    ensures { (result ≡ turn lift o.0) × (result < 2 * lift) }
{
    turned(LIFT, o.0)
}

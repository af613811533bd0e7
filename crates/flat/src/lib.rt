// A ship in document 01's own signed millimetres and numbers, and the ship of the steps: each way, field by field.
#![tactic(auto)]

ghost use Rattle.std.specs.Prelude.{◌≡◌, ◌<◌, map};
ghost use Rattle.flat.specs.Flat.{sheer_mm, house_of, ship_of, ordinate_from, house_from, ship_from, Near, NearHouses, NearSheer};

use ship::{House, Ship};
use units::{LIFT, Ordinate, Span};

// Stations in mm forward of the after perpendicular, below zero abaft it. Each flag is 0 for no, and any other number for yes, for C
// may hold any.
#[repr(C)]
#[derive(Clone, Copy)]
pub struct FlatHouse {
    pub enclosed: u64,
    pub quarterdeck: u64,
    pub aft: i64,
    pub fore: i64,
    pub height: u64,
    // Of set-in sides, the house's breadth and the ship's; 0 and 0 for full breadth.
    pub breadth: u64,
    pub beam: u64,
}

// Fields 1 to 13 in the record's order, and the houses, of which the first `n` count.
#[repr(C)]
#[derive(Clone, Copy)]
pub struct FlatShip {
    pub kind: u64,
    pub n: u64,
    // A flag too: timber freeboards are asked for.
    pub timber: u64,
    pub length: u64,
    pub depth: u64,
    pub moulded: u64,
    pub block: u64,
    pub waterplane: u64,
    pub sheer: [i64; 6],
    pub displacement: u64,
    pub immersion: u64,
    pub houses: [FlatHouse; 8],
}

// ---- from the steps' ship: functions, since they ask that it is near, which a From has no place for
#[tactic(auto, unfolding(crate::specs::Flat::house_of))]
fn of_house(h: House) -> FlatHouse
    requires { Near h }
    ensures { result ≡ house_of h }
{
    let enclosed = record::bit_of(h.enclosed);
    let quarterdeck = record::bit_of(h.quarterdeck);
    let aft = units::mm_of_station(h.aft);
    let fore = units::mm_of_station(h.fore);
    FlatHouse {
        enclosed,
        quarterdeck,
        aft,
        fore,
        height: h.height.0,
        breadth: h.breadth.0,
        beam: h.beam.0,
    }
}

pub fn of_ship(x: Ship) -> FlatShip
    requires { NearSheer x.sheer × NearHouses x.houses }
    ensures { result ≡ ship_of x }
{
    let timber = record::bit_of(x.timber);
    let sheer = x.sheer.map(units::mm_of_ordinate);
    let houses = x.houses.map(of_house);
    FlatShip {
        kind: x.kind,
        n: x.n as u64,
        timber,
        length: x.length.0,
        depth: x.depth.0,
        moulded: x.moulded.0,
        block: x.block,
        waterplane: x.waterplane,
        sheer,
        displacement: x.displacement,
        immersion: x.immersion,
        houses,
    }
}

// ---- to the steps' ship, from any numbers
impl From<FlatHouse> for House {
    ghost from_gives = { λ flat h. h ≡ house_from flat };

    #[tactic(auto, unfolding(crate::specs::Flat::house_from))]
    fn from(h: FlatHouse) -> House {
        let aft = units::station_of_mm(h.aft);
        let fore = units::station_of_mm(h.fore);
        House {
            enclosed: h.enclosed != 0,
            quarterdeck: h.quarterdeck != 0,
            aft,
            fore,
            height: Span(h.height),
            breadth: Span(h.breadth),
            beam: Span(h.beam),
        }
    }
}

// Filled in place, for speed: an array's `map` moves each element several times on its way.
fn to_sheer(mm: [i64; 6]) -> [Ordinate; 6]
    ensures { result ≡ map ordinate_from mm }
{
    let mut sheer = [Ordinate(LIFT); 6];
    for (k, v) in mm.iter().enumerate() {
        sheer[k] = units::ordinate_of_mm(*v);
    }
    sheer
}

fn to_houses(flat: [FlatHouse; 8]) -> [House; 8]
    ensures { result ≡ map house_from flat }
{
    let mut houses = [ship::no_house(); 8];
    for (k, h) in flat.iter().enumerate() {
        houses[k] = House::from(*h);
    }
    houses
}

impl From<FlatShip> for Ship {
    ghost from_gives = { λ flat x. x ≡ ship_from flat };

    #[tactic(auto, unfolding(crate::specs::Flat::ship_from))]
    fn from(x: FlatShip) -> Ship {
        let sheer = to_sheer(x.sheer);
        let houses = to_houses(x.houses);
        Ship {
            kind: x.kind,
            n: x.n as usize,
            timber: x.timber != 0,
            length: Span(x.length),
            depth: Span(x.depth),
            moulded: Span(x.moulded),
            block: x.block,
            waterplane: x.waterplane,
            sheer,
            displacement: x.displacement,
            immersion: x.immersion,
            houses,
        }
    }
}

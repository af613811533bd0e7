// Whether a poop of one length fits. What is the same for every length is worked once, and for each length only what its poop changes.
#![tactic(auto)]

ghost use Rattle.std.specs.Prelude.{◌≡◌, ◌*◌, ◌≤◌, ◌<◌};
ghost use Rattle.trial.specs.Poop.{poop_house};
ghost use Rattle.trial.specs.Standing.{room_of, standing_of, deck_for, marked_on, fits_on, Fair};

use deck::Deck;
use houses::Placed;
use hull::{Accepted, Hull};
use mark::Particulars;
use ship::{House, Ship};
use summer::Vessel;
use units::{Length, Ratio, Span};

// What no length of poop changes, fair only where contracts say so, for `standing_of` gives one of any ship: the hull, the deck without a poop, the poop's ratio of heights, how far it may reach, what the marks need besides, and what is
// asked.
#[derive(Clone, Copy)]
pub struct Standing {
    pub hull: Hull,
    pub deck: Deck,
    pub ratio: Ratio,
    pub room: Span,
    pub particulars: Particulars,
    pub height: Span,
    pub wish: u64,
}

// How far a poop may reach: to the first house, or to L.
#[tactic(auto, unfolding(crate::specs::Standing::room_of, whole::specs::Pick::pick))]
fn room_of(x: Ship) -> Span
    ensures { result.0 ≡ room_of x }
{
    if x.n == 0 {
        return x.length;
    }
    units::between(units::forward_of_ap(Span(0)), x.houses[0].aft)
}

// The poop of `k` decimetres, of full breadth.
#[tactic(auto, unfolding(crate::specs::Poop::poop_house))]
fn poop_house(height: Span, k: u64) -> House
    requires { k ≤ 3650 }
    ensures { result ≡ poop_house height.0 k }
{
    House {
        enclosed: true,
        quarterdeck: false,
        aft: units::forward_of_ap(Span(0)),
        fore: units::forward_of_ap(units::span_of_dm(k)),
        height,
        breadth: Span(0),
        beam: Span(0),
    }
}

// What no length changes, worked for a ship, a height of poop and a wish.
#[tactic(auto, unfolding(crate::specs::Standing::standing_of, hull::specs::Parts::hull_of, crate::specs::Poop::poop_house))]
pub fn standing_of(x: Accepted, height: Span, wish: u64) -> Standing
    requires { (x.ship.n < 8) × (1 ≤ height.0) × (height.0 ≤ 8191) }
    ensures value { result ≡ standing_of x.ship height.0 wish }
    ensures fair { Fair result }
{
    let hull = x.hull();
    Standing {
        hull,
        deck: deck::deck_of(x.length(), x.ship.houses, x.ship.n),
        ratio: effective::height_ratio(x.ship.length, poop_house(height, 0)),
        room: room_of(x.ship),
        particulars: hull::particulars_of(x.ship, hull.basis.floor),
        height,
        wish,
    }
}

// The deck with a poop of `k` decimetres; none where `k` is 0.
#[tactic(auto, unfolding(crate::specs::Standing::deck_for, whole::specs::Pick::pick))]
fn deck_for(q: Standing, k: u64) -> Deck
    requires { Fair q × (100 * k ≤ q.hull.length.0) }
    ensures { result ≡ deck_for q k }
{
    if k == 0 {
        return q.deck;
    }
    let poop = Placed {
        l: Length::of(q.hull.length),
        house: poop_house(q.height, k),
    };
    deck::with_house(poop, q.ratio, q.deck)
}

// Whether the marks that follow from `s` are given, with S at most the wish.
fn marked(q: Standing, s: u64) -> bool
    requires { Fair q }
    ensures { result ≡ marked_on q s }
{
    mark::follow(q.particulars, s).is_ok_and(|m| m.s <= q.wish)
}

// Whether a poop of `k` decimetres fits. Of checks 9 to 11, 18 and 23 only the overlap with the first house can refuse it.
#[tactic(auto, unfolding(crate::specs::Standing::fits_on))]
pub fn fits(q: Standing, k: u64) -> bool
    requires { Fair q × (100 * k ≤ q.hull.length.0) }
    ensures { result ≡ fits_on q k }
{
    if q.room.0 < units::span_of_dm(k).0 {
        return false;
    }
    let vessel = Vessel {
        hull: q.hull,
        deck: deck_for(q, k),
    };
    marked(q, vessel.summer())
}

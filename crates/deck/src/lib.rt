// What the houses on a deck give to the steps: sums over them (33 to 35, and 38's cover), the forecastle, and the house amidships (31).
#![tactic(auto)]

ghost use Rattle.std.specs.Prelude.{◌≡◌, [], ◌≤◌, take};
ghost use Rattle.whole.specs.Pick.{pick};
ghost use Rattle.ship.specs.Good.{GoodHouse, GoodHouses};
ghost use Rattle.houses.specs.Amidships.{covers_amidships};
ghost use Rattle.effective.specs.Unrounded.{ratio_of};
ghost use Rattle.deck.specs.Deck.{deck_of, deck_with, FairDeck};

use houses::Placed;
use ship::House;
use summed::Summed;
use units::{Length, Ratio, Span, Unrounded};

// Of the forecastle: its effective length, l and its height, all 0 where there is none.
#[derive(Clone, Copy)]
pub struct Forecastle {
    pub effective: Unrounded,
    pub part: Span,
    pub height: Span,
}

// S, the sums of the effective lengths, the cover's reach in tenths of a millimetre, the forecastle, and the ratio of heights of the house amidships, 0 where
// there is none.
#[derive(Clone, Copy)]
pub struct Deck {
    pub s: Span,
    pub effective: Summed,
    pub reach: u64,
    pub forecastle: Forecastle,
    pub amidships: Ratio,
}

// The ratio of heights of the house amidships, with one more house before the others: its own, or the others'.
#[tactic(auto, unfolding(whole::specs::Pick::pick))]
fn amidships_with(p: Placed, own: Ratio, others: Ratio) -> Ratio
    requires { GoodHouse p.l.mm p.house }
    ensures { result ≡ pick (covers_amidships p.l.mm p.house) own others }
{
    if p.covers_amidships() {
        let top = own.top; // number by number: a choice between two structs would keep the deck in memory
        let bottom = own.bottom;
        return Ratio { top, bottom };
    }
    others
}

// A deck with one more house before the others, of that ratio of heights.
#[tactic(auto, unfolding(crate::specs::Deck::deck_with, whole::specs::Pick::pick))]
pub fn with_house(p: Placed, ratio: Ratio, d: Deck) -> Deck
    requires { GoodHouse p.l.mm p.house × (ratio ≡ ratio_of p.l.mm p.house) × FairDeck p.l.mm d }
    ensures { result ≡ deck_with p.l.mm p.house d }
{
    let part = p.part();
    let own = effective::effective_of(p, ratio);
    let s = Span(part.0 + d.s.0);
    let effective = summed::with_one(p.house, own, d.effective);
    let reach = p.reach() + d.reach;
    let amidships = amidships_with(p, ratio, d.amidships);
    let forecastle = if p.is_forecastle() {
        Forecastle {
            effective: own,
            part,
            height: p.house.height,
        }
    } else {
        d.forecastle
    };
    Deck {
        s,
        effective,
        reach,
        forecastle,
        amidships,
    }
}

// The deck with no house.
#[tactic(auto, using(crate::proofs::Gathered::bare, crate::proofs::Gathered::bare_amidships), unfolding(crate::specs::Deck::deck_of, summed::specs::Summed::summed_of, houses::specs::Length::covered_length, houses::specs::Length::total, houses::specs::Cover::reach, houses::specs::Effective::those))]
fn bare_deck(l: Span) -> Deck
    ensures { result ≡ deck_of l.0 [] }
{
    let effective = summed::of_none(l);
    let nothing = effective.ordinary; // no length, over a denominator that is not 0
    Deck {
        s: Span(0),
        effective,
        reach: 0,
        forecastle: Forecastle {
            effective: nothing,
            part: Span(0),
            height: Span(0),
        },
        amidships: Ratio {
            top: 0,
            bottom: nothing.bottom,
        },
    }
}

// The deck of the first `n` houses, built from the foremost to the aftmost. No slice: 01 has the eight houses and their count passed whole to the steps.
pub fn deck_of(l: Length, hs: [House; 8], n: usize) -> Deck
    requires { (n ≤ 8) × GoodHouses l.mm (take n hs) }
    ensures value { result ≡ deck_of l.mm (take n hs) }
    ensures fair_deck { FairDeck l.mm result }
{
    let length = l.span();
    let mut d = bare_deck(length);
    for &house in hs[..n].iter().rev() {
        let ratio = effective::height_ratio(length, house);
        d = with_house(Placed { l, house }, ratio, d);
    }
    d
}

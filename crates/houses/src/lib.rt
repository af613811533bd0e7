// A house on the freeboard deck: its length (34); whether it is the forecastle; whether it covers what 31 asks for amidships; its reach in 38's cover there. Its
// standard height and effective length (33, 35) are worked in `effective`, by the definitions here; `summed` adds effective lengths, and `deck` gathers all that
// the houses give.
#![tactic(auto)]

ghost use Rattle.std.specs.Prelude.{◌≡◌, ◌*◌, ◌≤◌};
ghost use Rattle.ship.specs.Good.{GoodHouse};
ghost use Rattle.houses.specs.Length.{part_of};
ghost use Rattle.houses.specs.Forecastle.{is_forecastle};
ghost use Rattle.houses.specs.Cover.{reach_of};
ghost use Rattle.houses.specs.Amidships.{covers_amidships};

use ship::House;
use units::{Length, Span};

// A house on the deck of a ship of length L. That it is good (GoodHouse) stands in contracts: `part`, `is_forecastle` and `effective_of` don't ask it.
#[derive(Clone, Copy)]
pub struct Placed {
    pub l: Length,
    pub house: House,
}

impl Placed {
    // 34: the house's length, of which only the part between 0 and L counts.
    #[tactic(auto, unfolding(crate::specs::Length::part_of, whole::specs::Pick::pick))]
    pub fn part(self) -> Span
        ensures result_value { result.0 ≡ part_of self.l.mm self.house }
        ensures result_le_l { result.0 ≤ self.l.mm }
    {
        let h = self.house;
        let aft = h.aft.max(units::forward_of_ap(Span(0)));
        let fore = h.fore.min(self.l.fore_perpendicular());
        if h.enclosed {
            return units::between(aft, fore);
        }
        Span(0)
    }

    // 38: its reach before and abaft amidships, in tenths of a mm.
    #[tactic(auto, unfolding(crate::specs::Cover::reach_of, crate::specs::Cover::is_amidships, whole::specs::Pick::pick))]
    pub fn reach(self) -> u64
        requires { GoodHouse self.l.mm self.house }
        ensures value { result ≡ reach_of self.l.mm self.house }
        ensures upper_bound { result ≤ 2 * self.l.mm }
    {
        let h = self.house;
        let tenth = units::tenth_in_tenths(self.l.span());
        let ap = units::in_tenths(units::forward_of_ap(Span(0)));
        let aft = units::in_tenths(h.aft);
        let fore = units::in_tenths(h.fore);
        let amidships = ap + units::half_in_tenths(self.l.span());
        if h.enclosed & (aft <= amidships) & (amidships <= fore) {
            return (fore - amidships).min(tenth) + (amidships - aft).min(tenth);
        }
        0
    }

    // Whether it is the forecastle: enclosed, and its fore end at or beyond L.
    #[tactic(auto, unfolding(crate::specs::Forecastle::is_forecastle))]
    pub fn is_forecastle(self) -> bool
        ensures { result ≡ is_forecastle self.l.mm self.house }
    {
        let h = self.house;
        h.enclosed && self.l.fore_perpendicular() <= h.fore
    }

    // 31: whether it, enclosed, covers the whole of 0.2 L to 0.8 L.
    #[tactic(auto, unfolding(crate::specs::Amidships::covers_amidships))]
    pub fn covers_amidships(self) -> bool
        requires { GoodHouse self.l.mm self.house }
        ensures { result ≡ covers_amidships self.l.mm self.house }
    {
        let h = self.house;
        let tenth = units::tenth_in_tenths(self.l.span());
        let ap = units::in_tenths(units::forward_of_ap(Span(0)));
        let aft = units::in_tenths(h.aft);
        let fore = units::in_tenths(h.fore);
        h.enclosed & (aft <= ap + 2 * tenth) & (ap + 8 * tenth <= fore)
    }
}

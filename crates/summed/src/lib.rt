// E (35, and 02 §2 and §6): the houses' effective lengths are added as fractions and rounded down once for each of the two standard heights; a house with
// breadths is rounded down on its own.
#![tactic(auto)]

ghost use Rattle.std.specs.Prelude.{◌≡◌, [], true, ◌≤◌};
ghost use Rattle.ship.specs.Vessel.{full_breadth};
ghost use Rattle.effective.specs.Unrounded.{greatest_length, FairLength};
ghost use Rattle.summed.specs.Summed.{down, summed_of, more, bottom_in, summed_with, effective_on, FairSum, FairSummed};

use ship::House;
use units::{Effective, Span, Unrounded};

// The ordinary houses' effective lengths, added, and the raised quarterdeck's: each over the numerator of its standard height. Then
// what the houses with breadths have, each rounded down.
#[derive(Clone, Copy)]
pub struct Summed {
    pub ordinary: Unrounded,
    pub raised: Unrounded,
    pub own: Effective,
}

// Of no house.
#[tactic(auto, unfolding(crate::specs::Summed::summed_of, houses::specs::Length::total, houses::specs::Effective::those))]
pub fn of_none(l: Span) -> Summed
    ensures { result ≡ summed_of l.0 [] }
{
    Summed {
        ordinary: Unrounded {
            top: 0,
            bottom: effective::standard_height(l, false).size,
        },
        raised: Unrounded {
            top: 0,
            bottom: effective::standard_height(l, true).size,
        },
        own: Effective(0),
    }
}

// A sum with one more effective length over the same denominator. FairLength stands in contracts: `unrounded_of` gives an Unrounded for any house, fair or not.
fn plus(e: Unrounded, s: Unrounded) -> Unrounded
    requires { FairLength e × FairSum s × (e.bottom ≡ s.bottom) }
    ensures { result ≡ more e.top s }
{
    Unrounded {
        top: e.top + s.top,
        bottom: s.bottom,
    }
}

// An effective length or a sum, rounded down. Nothing is divided where there is nothing to divide: most ships have no raised quarterdeck.
#[tactic(auto, using(whole::proofs::Divide::floor_most))]
fn rounded(e: Unrounded) -> Effective
    requires { FairLength e }
    ensures result_value { result.0 ≡ down e }
    ensures result_le_greatest_length { result.0 ≤ greatest_length }
{
    if e.top == 0 {
        return Effective(0);
    }
    Effective(e.top / e.bottom)
}

// With one more house, by its kind.
#[tactic(auto, unfolding(crate::specs::Summed::summed_with, whole::specs::Pick::pick))]
pub fn with_one(h: House, e: Unrounded, s: Summed) -> Summed
    requires { FairLength e × FairSummed s × (full_breadth h ≡ true → e.bottom ≡ bottom_in h.quarterdeck s) }
    ensures { result ≡ summed_with h e s }
{
    if !ship::full_breadth(h) {
        return Summed {
            own: Effective(rounded(e).0 + s.own.0),
            ..s
        };
    }
    if h.quarterdeck {
        return Summed {
            raised: plus(e, s.raised),
            ..s
        };
    }
    Summed {
        ordinary: plus(e, s.ordinary),
        ..s
    }
}

// E.
pub fn effective_length(s: Summed) -> Effective
    requires { FairSummed s }
    ensures { result.0 ≡ effective_on s }
{
    Effective(rounded(s.ordinary).0 + rounded(s.raised).0 + s.own.0)
}

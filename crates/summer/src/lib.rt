// The steps to the summer mark and to LS, put together: what is added, what is taken, and the mark, of a vessel, that is a hull and a deck.
#![tactic(auto)]

ghost use Rattle.std.specs.Prelude.{◌≡◌, ◌*◌, ◌≤◌, ◌^◌};
ghost use Rattle.percentages.specs.Table37.{entries};
ghost use Rattle.deduction.specs.Deduction37.{deduction};
ghost use Rattle.deck.specs.Deck.{FairDeck};
ghost use Rattle.hull.specs.Parts.{FairHull};
ghost use Rattle.summer.specs.Parts.{added_on, taken_on, balance_on, summer_on, timber_on};

use corrections::{before_sheer, depth};
use deck::Deck;
use hull::Hull;
use percentages::Row;
use timber::Level;
use units::{Effective, Freeboard, Length};

// What is added and what is taken, which meet only in a mark.
#[derive(Clone, Copy)]
pub struct Balance {
    pub added: Freeboard,
    pub taken: Freeboard,
}

// A ship as the steps need it: its hull, and what the houses on its deck give. Both leave room for every sum and product.
#[derive(Clone, Copy)]
pub struct Vessel {
    pub hull: Hull,
    pub deck: Deck,
    pub ghost fair_hull: { FairHull hull },
    pub ghost fair_deck: { FairDeck hull.length.0 deck },
}

// The houses' deduction (37) for an effective length `e`, by a row of percentages.
fn deduction_by(row: Row, l: Length, e: Effective) -> Freeboard
    requires { (24000 ≤ l.mm) × (e.0 ≤ 1000 * l.mm) }
    ensures result_value { result.0 ≡ deduction (entries row) l.mm e.0 }
    ensures result_bound { result.0 ≤ 1070000 }
{
    let j = deduction::tenth_of(l, e);
    let p = percentages::percentage(row, j);
    let q = percentages::percentage(row, j + 1);
    deduction::of_full(l, deduction::share(p, q, l, e))
}

impl Vessel {
    // L.
    fn length(self) -> Length
        ensures { result.mm ≡ self.hull.length.0 }
    {
        Length::of(self.hull.length)
    }

    // What is added: the line, made greater for short B ships (29) and fullness (30), then what depth adds (31), then sheer where it is lacking (38).
    // The line's bound stands in three contracts: a struct would have to be made of each line, `Line { um: hull.basis.line }`, only to be taken apart here.
    #[tactic(auto, unfolding(crate::specs::Parts::added_on))]
    fn added(self, line: Freeboard, e: Effective, lacking: Freeboard) -> Freeboard
        requires { (line.0 ≤ 6400000) × (lacking.0 ≤ 9000000) }
        ensures result_value { result.0 ≡ added_on line.0 self.hull e.0 lacking.0 }
        ensures result_bound { result.0 ≤ 2 ^ 32 }
    {
        let h = self.hull;
        let full = before_sheer::made_full(line, h.b, self.length(), h.block, e);
        units::sum(units::sum(full, h.deep), lacking)
    }

    // What is taken: depth below L / 15 (31) by the ratio of heights of the house amidships, the houses' deduction (37) by a row of percentages, and sheer where it
    // is in excess (38).
    #[tactic(auto, unfolding(crate::specs::Parts::taken_on, deduction::specs::Deduction37::deducted))]
    fn taken(self, row: Row, e: Effective, excess: Freeboard) -> Freeboard
        requires { (e.0 ≤ 1000 * self.hull.length.0) × (excess.0 ≤ 456250) }
        ensures result_value { result.0 ≡ taken_on (entries row) self.hull self.deck.amidships self.deck.forecastle.effective e.0 excess.0 }
        ensures result_bound { result.0 ≤ 2 ^ 32 }
    {
        let h = self.hull;
        let d = self.deck;
        let l = self.length();
        let shallow = depth::reduction(l, h.depth, d.amidships);
        let full = deduction_by(row, l, e);
        let granted = deduction::if_granted(h.b, d.forecastle.effective, l, full);
        units::sum(units::sum(shallow, granted), excess)
    }

    // The two, from a line and by a row of percentages.
    #[tactic(auto, unfolding(crate::specs::Parts::balance_on))]
    fn balance(self, line: Freeboard, row: Row) -> Balance
        requires { line.0 ≤ 6400000 }
        ensures value { result ≡ balance_on line.0 (entries row) self.hull self.deck }
        ensures added_bound { (result.added.0 ≤ 2 ^ 32) × (result.taken.0 ≤ 2 ^ 32) }
    {
        let h = self.hull;
        let d = self.deck;
        let e = summed::effective_length(d.effective);
        let c = sheer_correction::correct(h.mean, self.length(), d.s, d.reach);
        Balance {
            added: self.added(line, e, c.added),
            taken: self.taken(row, e, c.deducted),
        }
    }

    // The summer mark, in millimetres.
    #[tactic(auto, unfolding(crate::specs::Parts::summer_on, crate::specs::Parts::bow_on))]
    pub fn summer(self) -> u64
        ensures { result ≡ summer_on self.hull self.deck }
    {
        let h = self.hull;
        let f = self.deck.forecastle;
        let b = self.balance(h.basis.line, Row::Ordinary);
        let bow = bow::freeboard(h.bow, self.length(), f.part, f.height);
        mark::summer(h.basis.floor, b.added, b.taken, bow)
    }

    // LS, from a line: by the timber percentages, with no bow height and no floor.
    #[tactic(auto, unfolding(crate::specs::Parts::timber_on))]
    pub fn timber(self, line: Freeboard) -> Level
        requires { line.0 ≤ 6400000 }
        ensures value { result ≡ timber_on line.0 self.hull self.deck }
        ensures up_bound { (result.up ≤ 2 ^ 31) × (result.down ≤ 2 ^ 31) }
    {
        let b = self.balance(line, Row::Timber);
        timber::level_of(b.added, b.taken)
    }
}

// A ship without its houses. It is worked once, and a search over houses then works only what they change: `summer` has the mark of a hull and a deck.
#![tactic(auto)]

ghost use Rattle.std.specs.Prelude.{◌≡◌, ◌≤◌};
ghost use Rattle.steps.specs.Steps.{Sound, basis, particulars_of};
ghost use Rattle.steps.specs.Timber.{timber_basis};
ghost use Rattle.hull.specs.Parts.{hull_of, FairHull};

use basis::Basis;
use bow::Height;
use corrections::{depth, fullness};
use mark::Particulars;
use sheer::Mean;
use ship::{Ship, kind};
use units::{Freeboard, Length, Span};

// What the type decides (27, 28, 40), depth and what it adds (31), the mean of the sheer (38), and the bow height asked for before the forecastle is taken (39).
// The block coefficient is the one that counts (30).
#[derive(Clone, Copy)]
pub struct Hull {
    pub b: bool,
    pub length: Span,
    pub block: u64,
    pub basis: Basis,
    pub depth: Span,
    pub deep: Freeboard,
    pub mean: Mean,
    pub bow: Height,
}

// A ship that the reader accepts.
#[derive(Clone, Copy)]
pub struct Accepted {
    pub ship: Ship,
    pub ghost sound: { Sound ship },
}

impl Accepted {
    // L.
    pub fn length(self) -> Length
        ensures { result.mm ≡ self.ship.length.0 }
    {
        Length::of(self.ship.length)
    }

    // The hull.
    #[tactic(auto, unfolding(crate::specs::Parts::hull_of))]
    pub fn hull(self) -> Hull
        ensures value { result ≡ hull_of self.ship }
        ensures fair_hull { FairHull result }
    {
        let x = self.ship;
        let l = self.length();
        let block = fullness::counted_block(x.block);
        Hull {
            b: x.kind != kind::A,
            length: x.length,
            block,
            basis: basis::basis_of(x.kind, l),
            depth: x.depth,
            deep: depth::addition(l, x.depth),
            mean: sheer::mean_sheer(l, x.sheer),
            bow: bow::asked(l, x.moulded, block, x.waterplane, x.sheer[4], x.sheer[5]),
        }
    }

    // The line that timber freeboards begin from (45(6)).
    pub fn timber_line(self) -> Freeboard
        ensures result_value { result.0 ≡ (timber_basis self.ship).line }
        ensures result_bound { result.0 ≤ 6400000 }
    {
        basis::basis_of(kind::for_timber(self.ship.kind), self.length()).line
    }
}

// What the other marks need of a ship. The floor is the least freeboard that its type decides.
#[tactic(auto, unfolding(steps::specs::Steps::particulars_of))]
pub fn particulars_of(x: Ship, floor: u64) -> Particulars
    requires { floor ≡ (basis x).floor }
    ensures { result ≡ particulars_of x }
{
    Particulars {
        floor,
        depth: x.depth,
        length: x.length,
        displacement: x.displacement,
        immersion: x.immersion,
    }
}

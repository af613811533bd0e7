// The marks of a ship, or of any bytes as a ship record: refusals 1 to 13, 18 and 22 to 24 in the table's order.
#![tactic(auto)]

ghost use Rattle.std.specs.Prelude.{◌≡◌, ◌≤◌};
ghost use Rattle.ship.specs.Vessel.{houses_of};
ghost use Rattle.record.specs.Layout.{ship_in};
ghost use Rattle.timber.specs.Answer.{sheet};
ghost use Rattle.steps.specs.Timber.{timber_marks_of};
ghost use Rattle.deck.specs.Deck.{deck_of};
ghost use Rattle.hull.specs.Parts.{hull_of};
ghost use Rattle.marks.specs.Marks.{answer_for, answer_in, Bounded};

use hull::Accepted;
use mark::Marks;
use ship::kind;
use ship::refusal::Refusal;
use summer::Vessel;
use timber::{Given, TimberMarks};

// The timber marks of a ship, by its hull and its deck, beside its ordinary marks.
fn timber_marks(x: Accepted, v: Vessel, m: Marks) -> TimberMarks
    requires { (v.hull ≡ hull_of x.ship) × (v.deck ≡ deck_of x.ship.length.0 (houses_of x.ship)) × (m.w ≤ 120000) }
    ensures { result ≡ timber_marks_of x.ship m }
{
    let s = v.timber(x.timber_line());
    timber::follow(kind::is_reduced(x.ship.kind), m.w, m.wna, x.ship.depth, s)
}

// The marks of a ship that the reader accepts, or refusal 12 or 13.
pub fn of_ship(x: Accepted) -> Result<Given, Refusal>
    ensures equation { sheet result ≡ answer_for x.ship }
    ensures bounded { Bounded result x.ship }
{
    let hull = x.hull();
    let deck = deck::deck_of(x.length(), x.ship.houses, x.ship.n);
    let vessel = Vessel { hull, deck };
    let ordinary = mark::follow(
        hull::particulars_of(x.ship, hull.basis.floor),
        vessel.summer(),
    )?;
    let timber = x.ship.timber.then(|| timber_marks(x, vessel, ordinary));
    Ok(Given { ordinary, timber })
}

// The marks of any bytes.
pub fn of_record(s: &[u8]) -> Result<Given, Refusal>
    ensures equation { sheet result ≡ answer_in s.now }
    ensures bounded { Bounded result (ship_in s.now) }
{
    let ship = reader::read(s)?;
    of_ship(Accepted { ship })
}

// The search for the shortest poop.
#![tactic(auto)]

ghost use Rattle.std.specs.Prelude.{◌≡◌, ◌≤◌, ◌<◌};
ghost use Rattle.question.specs.Question.{reply, shortest_for};

use hull::Accepted;
use ship::refusal::Refusal;
use units::Span;

// The shortest poop in decimetres: the first length that fits. A longer poop can raise the mark, so each is tried. Height and wish come as two, as C asks them:
// `Standing` has them together from here on.
pub fn shortest(x: Accepted, height: Span, wish: u64) -> Result<u64, Refusal>
    requires { (x.ship.n < 8) × (1 ≤ height.0) × (height.0 ≤ 8191) }
    ensures { reply result ≡ shortest_for x.ship height.0 wish }
{
    let q = trial::standing_of(x, height, wish);
    (0..units::dm_within(x.ship.length) + 1)
        .find(|k| trial::fits(q, *k))
        .ok_or(Refusal::NoLengthFits)
}

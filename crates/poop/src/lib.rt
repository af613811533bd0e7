// The shortest-poop question: on a ship, or on any bytes as a ship record, with refusals 1 to 11, 18 and 22 to 24, then 14 to 16.
#![tactic(auto)]

ghost use Rattle.std.specs.Prelude.{◌≡◌};
ghost use Rattle.question.specs.Question.{reply, no_room, reply_for, reply_in};

use hull::Accepted;
use ship::Ship;
use ship::refusal::Refusal;
use units::Span;

// Refusal 15: the first house stands where a poop would, or all eight places are taken.
fn no_room(x: Ship) -> bool
    ensures { result ≡ no_room x }
{
    (0 < x.n && x.houses[0].aft <= units::forward_of_ap(Span(0))) || x.n == 8
}

// The question on a ship that the reader accepts: refusals 14 to 16.
#[tactic(auto, unfolding(question::specs::Question::reply_for, ship::specs::Refusals::first, whole::specs::Pick::pick))]
pub fn of_ship(x: Accepted, height: u64, wish: u64) -> Result<u64, Refusal>
    ensures { reply result ≡ reply_for x.ship height wish }
{
    if height < 1 || 8191 < height || wish < 50 || 60000 < wish {
        return Err(Refusal::QuestionRange);
    }
    if no_room(x.ship) {
        return Err(Refusal::NoRoomForPoop);
    }
    question::shortest(x, Span(height), wish)
}

// The question on any bytes.
pub fn of_record(s: &[u8], height: u64, wish: u64) -> Result<u64, Refusal>
    ensures { reply result ≡ reply_in s.now height wish }
{
    let ship = reader::read(s)?;
    of_ship(Accepted { ship }, height, wish)
}

// Any bytes as a ship, or one numbered refusal.
#![tactic(auto)]

ghost use Rattle.std.specs.Prelude.{◌≡◌, ◌≤◌, IfOk};
ghost use Rattle.ship.specs.Refusals.{first};
ghost use Rattle.record.specs.Layout.{ship_of, ship_in};
ghost use Rattle.record.specs.Reading.{frame_lines, reading_of, reading_in};
ghost use Rattle.reader.specs.Answer.{shown};

use record::{HEAD_BYTES, Head};
use ship::refusal::Refusal;
use ship::{House, Ship, refusal};

// The ship of a head and of its houses.
fn ship_of(h: Head, houses: [House; 8]) -> Ship
    requires { h.count ≤ 8 }
    ensures { result ≡ ship_of h houses }
{
    let sheer = h.sheer;
    Ship {
        kind: h.kind,
        n: h.count as usize,
        timber: h.timber,
        length: h.length,
        depth: h.depth,
        moulded: h.moulded,
        block: h.block,
        waterplane: h.waterplane,
        sheer,
        displacement: h.displacement,
        immersion: h.immersion,
        houses,
    }
}

// The ship that bytes spell, before its fields and its houses are judged: refusals 1 to 6 and 24, in the table's order.
pub fn framed(s: &[u8]) -> Result<Ship, Refusal>
    ensures answer { shown result ≡ reading_of (first (frame_lines s.now)) (ship_in s.now) }
    ensures places { IfOk result (λ x. x.n ≤ 8) }
{
    let short = s.len() < HEAD_BYTES;
    if short {
        return Err(Refusal::ShortRecord);
    }
    let h = head_reader::read(s);
    head_reader::check_head(h, s.len())?;
    let all = house_reader::houses_in(s, h.version, h.count as usize);
    refusal::line(h.spare + all.spare != 0, Refusal::SpareBit, Ok(()))?;
    let places = all.places;
    Ok(ship_of(h, places))
}

// Reads a record of any version: refusals 1 to 11, 18 and 22 to 24, in the table's order.
pub fn read(s: &[u8]) -> Result<Ship, Refusal>
    ensures { shown result ≡ reading_in s.now }
{
    let x = framed(s)?;
    checks::of_ship(x)?;
    Ok(x)
}

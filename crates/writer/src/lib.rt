// Any ship as a record in a lent buffer, or one numbered refusal and the buffer as it was.
#![tactic(auto)]

ghost use Rattle.std.specs.Prelude.{◌≡◌, ◌≤◌, ◌++◌, length, drop};
ghost use Rattle.bits.specs.Fields.{Fit};
ghost use Rattle.ship.specs.Vessel.{houses_of};
ghost use Rattle.ship.specs.Refusals.{paper};
ghost use Rattle.record.specs.Layout.{HousesFit, lowest_for, head_widths, head_fields, head_for, ship_head, record_bytes};
ghost use Rattle.record.specs.Writing.{bytes_for, writing_of, written};

use record::{HEAD_BYTES, Head};
use ship::refusal::Refusal;
use ship::{Ship, kind, refusal};

// The head of a ship's record in a version.
fn head_of(x: Ship, version: u64) -> Head
    ensures { result ≡ head_for version x }
{
    let sheer = x.sheer;
    Head {
        version,
        kind: x.kind,
        count: x.n as u64,
        timber: x.timber,
        spare: 0,
        length: x.length,
        depth: x.depth,
        moulded: x.moulded,
        block: x.block,
        waterplane: x.waterplane,
        sheer,
        displacement: x.displacement,
        immersion: x.immersion,
    }
}

// Writes the record of a ship that was accepted, in the lowest version that holds it; what stands behind it stays.
fn put_record(buf: &mut [u8], x: Ship)
    requires n_bound { (x.n ≤ 8) × (bytes_for x ≤ length buf.old) }
    requires fit { Fit (head_widths (ship_head x).version) (head_fields (ship_head x)) }
    requires houses_fit { HousesFit (lowest_for x) (houses_of x) }
    ensures { buf.new ≡ record_bytes x ++ drop (bytes_for x) buf.old }
{
    let version = record::lowest_for(x);
    let h = head_of(x, version);
    head_writer::write(&mut buf[0..HEAD_BYTES], h);
    let houses = x.houses;
    house_writer::put_houses(buf, version, houses, x.n);
}

// The verdict on writing a ship into `room` bytes: refusals 3, 24, 4, 7 to 11, 18, 22, 23 and 17, in the table's order.
#[tactic(auto, unfolding(whole::specs::Pick::pick, ship::specs::Refusals::first, record::specs::Writing::writing_of))]
fn verdict(x: Ship, room: usize) -> Result<(), Refusal>
    ensures { paper result ≡ writing_of room x }
{
    if x.kind > record::LAST_TYPE {
        return Err(Refusal::ShipType);
    }
    if kind::timber_for_a(x.kind, x.timber) {
        return Err(Refusal::TimberForA);
    }
    if x.n as u64 > record::MOST_HOUSES {
        return Err(Refusal::HouseCount);
    }
    let short = room < record::record_length(record::lowest_for(x), x.n);
    let last = refusal::line(short, Refusal::ShortBuffer, Ok(()));
    refusal::after(checks::of_ship(x), last)
}

// Writes a ship's record at the start of `buf`, unless it is refused.
#[tactic(auto, unfolding(whole::specs::Pick::pick, record::specs::Writing::written))]
pub fn write(buf: &mut [u8], x: Ship) -> Result<(), Refusal>
    ensures result_value { paper result ≡ writing_of (length buf.old) x }
    ensures buf_after { buf.new ≡ written (paper result) x buf.old }
{
    verdict(x, buf.len())?;
    put_record(buf, x);
    Ok(())
}

// The houses of a record, written over their bytes behind the head: eight each, and from version 3 on four more with the breadths.
#![tactic(auto)]

ghost use Rattle.std.specs.Prelude.{◌≡◌, ◌-◌, ◌≤◌, ◌<◌, ◌++◌, length, take, drop};
ghost use Rattle.bits.specs.Fields.{pack, bytes};
ghost use Rattle.record.specs.Layout.{record_length, HousesFit, houses_bytes};
ghost use Rattle.record.specs.Words.{eight_widths, breadth_widths, eight_fields, breadth_fields};

use record::{HEAD_BYTES, HOUSE_WORD, range};
use ship::House;

// Writes a house over its bytes, as two words: in each a field shifts those before it up by its range. The spare bits are 0. The breadths have no byte in versions
// 1 and 2, and nothing is written of them.
#[tactic(auto, unfolding(bits::specs::Fields::pack))]
fn put_house(out: &mut [u8], h: House)
    requires { (8 ≤ length out.old) × (length out.old ≤ 12) × (h.height.0 < 8192) × (h.breadth.0 < 65536) × (h.beam.0 < 65536) }
    ensures { out.new ≡ bytes 8 (pack eight_widths (eight_fields h)) ++ bytes (length out.old - 8) (pack breadth_widths (breadth_fields h)) }
{
    let word = record::bit_of(h.enclosed);
    let word = word * range::FLAG + record::bit_of(h.quarterdeck);
    let word = word * range::END + record::station_field(h.aft);
    let word = word * range::END + record::station_field(h.fore);
    let word = word * range::HEIGHT + h.height.0;
    let breadths = h.breadth.0 * range::BREADTH + h.beam.0;
    bits::put_two(out, HOUSE_WORD, word * range::HOUSE_SPARE, breadths);
}

// Writes the first `n` houses, each in its own bytes: from 27 + 8k on, and from version 3 on from 27 + 12k on. Array and count come
// whole, as 01 has them.
pub fn put_houses(buf: &mut [u8], version: u64, houses: [House; 8], n: usize)
    requires n_bound { (n ≤ 8) × (record_length version n ≤ length buf.old) }
    requires houses_fit { HousesFit version (take n houses) }
    ensures { buf.new ≡ (take 27 buf.old ++ houses_bytes version (take n houses)) ++ drop (record_length version n) buf.old }
{
    let size = record::house_size(version);
    for (k, h) in houses[..n].iter().enumerate() {
        let a = HEAD_BYTES + size * k;
        put_house(&mut buf[a..a + size], *h);
    }
}

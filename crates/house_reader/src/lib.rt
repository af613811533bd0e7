// The houses of a record, read from their bytes behind the head: eight each, and from version 3 on four more with the breadths.
#![tactic(auto)]

ghost use Rattle.std.specs.Prelude.{◌≡◌, ◌≤◌, length, ◌++◌};
ghost use Rattle.bits.specs.Fields.{unpack};
ghost use Rattle.record.specs.Layout.{record_length, house_of, places_in};
ghost use Rattle.record.specs.Words.{eight_widths, breadth_widths};
ghost use Rattle.record.specs.Reading.{spares_in};

use record::{HEAD_BYTES, HOUSE_WORD, after, range};
use ship::House;
use units::Span;

// The house whose eight bytes are a word, and its breadths another.
#[tactic(auto, using(record::proofs::Complement::turn_low), unfolding(bits::specs::Fields::unpack, bits::specs::Fields::piece))]
fn house_of(word: u64, breadths: u64) -> House
    ensures { result ≡ house_of (unpack eight_widths word ++ unpack breadth_widths breadths) }
{
    let aft = record::station_in(word >> after::AFT);
    let fore = record::station_in(word >> after::FORE);
    House {
        enclosed: (word >> after::ENCLOSED) % range::FLAG == 1,
        quarterdeck: (word >> after::QUARTERDECK) % range::FLAG == 1,
        aft,
        fore,
        height: Span((word >> after::HEIGHT) % range::HEIGHT),
        breadth: Span((breadths >> after::BREADTH) % range::BREADTH),
        beam: Span(breadths % range::BREADTH),
    }
}

// The eight places of a record, and the spare bits of all its houses added up.
#[derive(Clone, Copy)]
pub struct Houses {
    pub places: [House; 8],
    pub spare: u64,
}

pub fn houses_in(s: &[u8], version: u64, n: usize) -> Houses
    requires { (n ≤ 8) × (record_length version n ≤ length s.now) }
    ensures { (result.places ≡ places_in version n s.now) × (result.spare ≡ spares_in version s.now n) × (result.spare ≤ 1024) }
{
    let size = record::house_size(version);
    // Places beyond n read as zero.
    let none = house_of(0, 0);
    let mut places = [none; 8];
    let mut spare = 0;
    for (k, place) in places[..n].iter_mut().enumerate() {
        let a = HEAD_BYTES + size * k;
        let b = a + HOUSE_WORD;
        let word = bits::word(&s[a..b]);
        let breadths = bits::word(&s[b..a + size]); // 0 in versions 1 and 2, where it has no byte
        *place = house_of(word, breadths);
        spare += word % range::HOUSE_SPARE;
    }
    Houses { places, spare }
}

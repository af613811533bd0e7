// The head of a record, read from its 27 bytes as four words, and checked. Of a word a shift drops what stands after a field,
// the remainder what stands before it.
#![tactic(auto)]

ghost use Rattle.std.specs.Prelude.{◌≡◌, ◌≤◌, length};
ghost use Rattle.ship.specs.Refusals.{paper, first};
ghost use Rattle.record.specs.Layout.{head_in};
ghost use Rattle.record.specs.Words.{sheer_in};
ghost use Rattle.record.specs.Reading.{head_lines};

use record::{Head, after, range};
use ship::kind;
use ship::refusal::Refusal;
use units::{Ordinate, Span};

// The ordinates of sheer, from the word of the first four and that of the last two.
fn sheer_in(four: u64, last: u64) -> [Ordinate; 6]
    ensures { result ≡ sheer_in four last }
{
    [
        record::ordinate_in(four >> after::AFTER_END),
        record::ordinate_in(four >> after::AFTER_SIXTH),
        record::ordinate_in(four >> after::AFTER_THIRD),
        record::ordinate_in(four),
        record::ordinate_in(last >> after::FORWARD_SIXTH),
        record::ordinate_in(last >> after::FORWARD_END),
    ]
}

// The head that the first 27 bytes are.
pub fn read(s: &[u8]) -> Head
    requires { 27 ≤ length s.now }
    ensures { result ≡ head_in s.now }
{
    let first = bits::word(&s[0..8]);
    let fullness = bits::word(&s[8..12]);
    let four = bits::word(&s[12..19]);
    let last = bits::word(&s[19..27]);
    let sheer = sheer_in(four, last);
    let version = (first >> after::VERSION) % range::VERSION;
    // M begins in the first word and ends in the second.
    let high = first % range::MOULDED_FIRST;
    let low = (fullness >> after::MOULDED_LAST) % range::MOULDED_LAST;
    Head {
        version,
        kind: (first >> after::kind(version)) % range::kind(version),
        count: (first >> after::count(version)) % range::COUNT,
        timber: (first >> after::timber(version)) % range::timber(version) == 1,
        spare: (first >> after::SPARE) % range::spare(version),
        length: Span((first >> after::LENGTH) % range::LENGTH),
        depth: Span((first >> after::DEPTH) % range::DEPTH),
        moulded: Span(high * range::MOULDED_LAST + low),
        block: (fullness >> after::BLOCK) % range::BLOCK,
        waterplane: fullness % range::WATERPLANE,
        sheer,
        displacement: (last >> after::DISPLACEMENT) % range::DISPLACEMENT,
        immersion: last % range::IMMERSION,
    }
}

// Checks 2 to 5, and 24, on the head of a record of so many bytes.
#[tactic(auto, unfolding(whole::specs::Pick::pick, ship::specs::Refusals::first))]
pub fn check_head(h: Head, bytes: usize) -> Result<(), Refusal>
    ensures { paper result ≡ first (head_lines h bytes) }
{
    if (h.version == 0) | (record::LAST_VERSION < h.version) {
        return Err(Refusal::Version);
    }
    if h.kind > record::last_type_in(h.version) {
        return Err(Refusal::ShipType);
    }
    if kind::timber_for_a(h.kind, h.timber) {
        return Err(Refusal::TimberForA);
    }
    if h.count > record::MOST_HOUSES {
        return Err(Refusal::HouseCount);
    }
    let n = h.count as usize;
    if bytes != record::record_length(h.version, n) {
        return Err(Refusal::RecordLength);
    }
    Ok(())
}

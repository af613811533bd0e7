// The head of a record as four words, written over its 27 bytes: in a word each field shifts those before it up by its range.
#![tactic(auto)]

ghost use Rattle.std.specs.Prelude.{◌≡◌, ◌<◌, length, take};
ghost use Rattle.bits.specs.Fields.{pack, Fit};
ghost use Rattle.record.specs.Layout.{opening_widths, head_widths, head_fields, head_bytes};
ghost use Rattle.record.specs.Words.{first_widths, fullness_widths, four_widths, last_widths, first_fields, fullness_fields, four_fields, last_fields};

use record::{Head, range};

// A head each of whose fields fits the bits that its version has for it.
#[derive(Clone, Copy)]
struct Fitting {
    head: Head,
    ghost fits: { Fit (head_widths head.version) (head_fields head) },
}

impl Fitting {
    // Version, type, houses n, timber flag and spare, in the bits that the version has for each: 16 together.
    #[tactic(auto, using(crate::proofs::HeadOut::opening_code, crate::proofs::HeadOut::opening_lt))]
    fn opening(self) -> u64
        ensures { (result ≡ pack (opening_widths self.head.version) (take 5 (head_fields self.head))) × (result < 65536) }
    {
        let h = self.head;
        let word = h.version * range::kind(h.version) + h.kind;
        let word = word * range::COUNT + h.count;
        let word = word * range::timber(h.version) + record::bit_of(h.timber);
        word * range::spare(h.version) + h.spare
    }

    // Then L, D and the first bits of M.
    #[tactic(auto, using(crate::proofs::HeadOut::first_code))]
    fn first_word(self) -> u64
        ensures { result ≡ pack (first_widths self.head.version) (first_fields self.head) }
    {
        let h = self.head;
        let word = self.opening();
        let word = word * range::LENGTH + h.length.0;
        let word = word * range::DEPTH + h.depth.0;
        word * range::MOULDED_FIRST + h.moulded.0 / range::MOULDED_LAST
    }

    // The last bits of M, Cb and Cwf.
    #[tactic(auto, unfolding(bits::specs::Fields::pack))]
    fn fullness_word(self) -> u64
        ensures { result ≡ pack fullness_widths (fullness_fields self.head) }
    {
        let h = self.head;
        let word = h.moulded.0 % range::MOULDED_LAST * range::BLOCK + h.block;
        word * range::WATERPLANE + h.waterplane
    }

    // The first four ordinates of sheer.
    #[tactic(auto, unfolding(bits::specs::Fields::pack))]
    fn four_word(self) -> u64
        ensures { result ≡ pack four_widths (four_fields self.head) }
    {
        let o = self.head.sheer;
        let word = record::ordinate_field(o[0]);
        let word = word * range::ORDINATE + record::ordinate_field(o[1]);
        let word = word * range::ORDINATE + record::ordinate_field(o[2]);
        word * range::ORDINATE + record::ordinate_field(o[3])
    }

    // The last two, displacement and immersion.
    #[tactic(auto, unfolding(bits::specs::Fields::pack))]
    fn last_word(self) -> u64
        ensures { result ≡ pack last_widths (last_fields self.head) }
    {
        let h = self.head;
        let word = record::ordinate_field(h.sheer[4]);
        let word = word * range::ORDINATE + record::ordinate_field(h.sheer[5]);
        let word = word * range::DISPLACEMENT + h.displacement;
        word * range::IMMERSION + h.immersion
    }
}

// Writes a head over 27 bytes.
pub fn write(out: &mut [u8], h: Head)
    requires { (length out.old ≡ 27) × Fit (head_widths h.version) (head_fields h) }
    ensures { out.new ≡ head_bytes h }
{
    let fitting = Fitting { head: h };
    let first = fitting.first_word();
    let fullness = fitting.fullness_word();
    let four = fitting.four_word();
    let last = fitting.last_word();
    bits::put_two(&mut out[0..12], 8, first, fullness);
    bits::put_two(&mut out[12..27], 7, four, last);
}

// Checks 7, 22 and 8, on a ship's fields and its type.
#![tactic(auto)]

ghost use Rattle.std.specs.Prelude.{◌≡◌, ◌<◌, unwrap_or, IfSome};
ghost use Rattle.ship.specs.Refusals.{paper, first};
ghost use Rattle.ship.specs.Checks.{fields_of, field_out, unfit_length, field_lines};

use ship::refusal::Refusal;
use ship::{Ship, kind, refusal};
use units::{LIFT, Span};

// The highest lifted ordinate of fourteen bits: 8191 mm of sheer.
const HIGHEST: u64 = 2 * LIFT - 1;

// The ranges of fields 1 to 13: 01's, or what the field's bits can hold.
const LEAST: [u64; 13] = [24000, 1000, 1000, 1, 1, 0, 0, 0, 0, 0, 0, 0, 0];

const MOST: [u64; 13] = [
    365000, 60000, 60000, 12000, 10000, HIGHEST, HIGHEST, HIGHEST, HIGHEST, HIGHEST, HIGHEST,
    1048575, 65535,
];

// The fields that have a range, in the order of the record.
fn fields(x: Ship) -> [u64; 13]
    ensures { result ≡ fields_of x }
{
    let [
        ap,
        after_sixth,
        after_third,
        forward_third,
        forward_sixth,
        fp,
    ] = x.sheer;
    [
        x.length.0,
        x.depth.0,
        x.moulded.0,
        x.block,
        x.waterplane,
        ap.0,
        after_sixth.0,
        after_third.0,
        forward_third.0,
        forward_sixth.0,
        fp.0,
        x.displacement,
        x.immersion,
    ]
}

// The first field outside its range, counted from 0.
#[tactic(auto, using(ship::proofs::First::first_fail, ship::proofs::First::first_pass, ship::proofs::First::first_end), unfolding(ship::specs::Checks::field_out))]
fn field_out(fields: [u64; 13]) -> Option<usize>
    ensures first { unwrap_or result 13 ≡ field_out fields }
    ensures within { IfSome result (λ k. k < 13) }
{
    for (k, v) in fields.iter().enumerate() {
        if *v < LEAST[k] || MOST[k] < *v {
            return Some(k);
        }
    }
    None
}

// In mm: a ship of reduced freeboard is longer than the first (27(8)), and table 27.1 ends at the second.
const REDUCED_ABOVE: u64 = 100000;

const COVERS_TO: u64 = 200000;

// Whether the type does not admit the length.
fn unfit_length(kind: u64, l: Span) -> bool
    ensures { result ≡ unfit_length kind l.0 }
{
    match kind {
        kind::B_60 | kind::B_100 => l.0 <= REDUCED_ABOVE,
        kind::PORTABLE_COVERS => COVERS_TO < l.0,
        _ => false,
    }
}

// Checks 7, 22 and 8, in the table's order. Fields are counted from 1.
#[tactic(auto, unfolding(whole::specs::Pick::pick, ship::specs::Refusals::first))]
pub fn of_fields(x: Ship) -> Result<(), Refusal>
    ensures { paper result ≡ first (field_lines x) }
{
    if let Some(k) = field_out(fields(x)) {
        return Err(Refusal::FieldRange(k + 1));
    }
    let unfit = unfit_length(x.kind, x.length);
    let half = (x.displacement == 0) != (x.immersion == 0);
    let last = refusal::line(half, Refusal::HalfCertified, Ok(()));
    refusal::line(unfit, Refusal::LengthForType, last)
}

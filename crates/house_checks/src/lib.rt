// Checks 9, 23, 10 and 11 or 18 on one house. L and the house come as two, as `breaks` takes them; `Placed` of `houses`, beside this crate, is for the steps.
#![tactic(auto)]

ghost use Rattle.std.specs.Prelude.{true, ◌||◌, ◌≡◌, ◌≤◌};
ghost use Rattle.ship.specs.Refusals.{refused_as, first};
ghost use Rattle.ship.specs.Checks.{breaks, bad_ends, bad_breadths, bad_quarterdeck, order_lines_at};
ghost use Rattle.ship.specs.declared.rule.Rule.TheVariants.{EndsAndHeight, SetInSides, RaisedQuarterdeck, Follows};

use ship::House;
use ship::refusal::Refusal;
use ship::rule::Rule;
use units::{Length, Span, Station};

// How far a house may stand out beyond either perpendicular, the greatest height of thirteen bits, and the greatest breadth of sixteen, in millimetres.
const BEYOND: u64 = 20000;

const TALLEST: u64 = 8191;

const WIDEST: u64 = 65535;

// Check 9: the house has a length, some of it lies forward of the after perpendicular and some abaft the fore one, it stands out no farther than it
// may, and its height is in its range. A length that would be negative reads as 0.
#[tactic(auto, using(crate::proofs::Borders::ends_by_lengths))]
fn bad_ends(l: Length, h: House) -> bool
    ensures { result ≡ bad_ends l.mm h }
{
    let aft = h.aft;
    let fore = h.fore;
    let height = h.height.0;
    let ap = units::forward_of_ap(Span(0));
    let fp = l.fore_perpendicular();
    let length = units::between(aft, fore).0;
    let forward_of_ap = units::between(ap, fore).0;
    let abaft_of_fp = units::between(aft, fp).0;
    let out_aft = units::between(aft, ap).0;
    let out_forward = units::between(fp, fore).0;
    (length < 1)
        | (forward_of_ap < 1)
        | (abaft_of_fp < 1)
        | (BEYOND < out_aft)
        | (BEYOND < out_forward)
        | (height < 1)
        | (TALLEST < height)
}

// Check 23: a house's two breadths are both zero, or the house is no broader than the ship, and on neither side more than 4 per cent of the ship's breadth inside
// it. A breadth beyond 16 bits is told first: its products might not fit.
#[tactic(auto, using(std::proofs::lemmas::Bool::Decides::nat_tests))]
fn bad_breadths(h: House) -> bool
    ensures { result ≡ bad_breadths h }
{
    let breadth = h.breadth.0;
    let beam = h.beam.0;
    if (WIDEST < breadth) | (WIDEST < beam) {
        return true;
    }
    let one_alone = (breadth == 0) != (beam == 0);
    one_alone | (beam < breadth) | (25 * breadth < 23 * beam)
}

// Check 10: a raised quarterdeck is enclosed, begins at the after perpendicular or abaft it, and ends abaft the fore one.
#[tactic(auto, using(crate::proofs::Borders::quarterdeck_by_lengths))]
fn bad_quarterdeck(l: Length, h: House) -> bool
    ensures { result ≡ bad_quarterdeck l.mm h }
{
    let aft = h.aft;
    let fore = h.fore;
    let ap = units::forward_of_ap(Span(0));
    let fp = l.fore_perpendicular();
    let begins = units::between(ap, aft).0;
    let short_of_fp = units::between(fore, fp).0;
    h.quarterdeck & (!h.enclosed | (0 < begins) | (short_of_fp < 1))
}

// Whether a house breaks a rule; `before` is the fore end of the house before it. The rule is named, no closure: contracts speak of a rule by its name, and of every rule.
#[tactic(auto, unfolding(ship::specs::Checks::breaks))]
pub fn house_breaks(rule: Rule, l: Length, before: Station, h: House) -> bool
    ensures { result ≡ breaks rule l.mm before.0 h }
{
    match rule {
        Rule::EndsAndHeight => bad_ends(l, h),
        Rule::SetInSides => bad_breadths(h),
        Rule::RaisedQuarterdeck => bad_quarterdeck(l, h),
        Rule::Follows => h.aft < before,
    }
}

// Whether a house breaks any of the four.
pub fn breaks_any(l: Length, before: Station, h: House) -> bool
    ensures { result ≡ (breaks EndsAndHeight l.mm before.0 h || breaks SetInSides l.mm before.0 h || breaks RaisedQuarterdeck l.mm before.0 h || breaks Follows l.mm before.0 h) }
{
    let ends = house_breaks(Rule::EndsAndHeight, l, before, h);
    let sides = house_breaks(Rule::SetInSides, l, before, h);
    let deck = house_breaks(Rule::RaisedQuarterdeck, l, before, h);
    let order = house_breaks(Rule::Follows, l, before, h);
    ends | sides | deck | order
}

// Why the house at place k is refused if it begins abaft the fore end of the one before it: by 18 if abaft its aft end too, which sorting can mend, else by 11.
#[tactic(auto, unfolding(whole::specs::Pick::pick, ship::specs::Refusals::first))]
pub fn misplaced(k: usize, before: House, h: House) -> Refusal
    ensures { refused_as result ≡ first (order_lines_at k true before h) }
{
    if h.aft < before.aft {
        return Refusal::OutOfOrder(k);
    }
    let end = before.fore.min(h.fore);
    Refusal::Overlap(k, units::between(h.aft, end))
}

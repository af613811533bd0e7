// Checks 7 to 11, 18, 22 and 23 on a ship, and those of the houses on a list with L alone.
#![tactic(auto)]

ghost use Rattle.std.specs.Prelude.{true, ◌≡◌, ◌≤◌, ◌<◌, take, length, unwrap_or, IfSome};
ghost use Rattle.ship.specs.Refusals.{paper, first};
ghost use Rattle.ship.specs.Checks.{first_breach, order_lines, house_lines, ship_lines};
ghost use Rattle.ship.specs.declared.rule.Rule.{Rule};

use field_checks::of_fields;
use house_checks::{breaks_any, house_breaks, misplaced};
use ship::refusal::Refusal;
use ship::rule::Rule;
use ship::{House, Ship};
use units::{Length, Station};

// The first house that breaks a rule.
#[tactic(auto, using(ship::proofs::First::first_fail, ship::proofs::First::first_pass, ship::proofs::First::first_end), unfolding(ship::specs::Checks::first_breach, ship::specs::Checks::breach_at))]
fn first_breach(rule: Rule, l: Length, houses: &[House]) -> Option<usize>
    ensures first { unwrap_or result (length houses.now) ≡ first_breach rule l.mm houses.now }
    ensures within { IfSome result (λ k. k < length houses.now) }
{
    let mut before = Station(0);
    for (k, h) in houses.iter().enumerate() {
        if house_breaks(rule, l, before, *h) {
            return Some(k);
        }
        before = h.fore;
    }
    None
}

// Whether all houses keep the four: most lists do, and one pass shows it.
#[tactic(auto, using(ship::proofs::First::first_pass, ship::proofs::First::first_end), unfolding(ship::specs::Checks::first_breach, ship::specs::Checks::breach_at))]
fn all_keep(l: Length, houses: &[House]) -> bool
    ensures { result ≡ true → (rule : Rule) → first_breach rule l.mm houses.now ≡ length houses.now }
{
    let mut reached = Station(0);
    for h in houses {
        if breaks_any(l, reached, *h) {
            return false;
        }
        reached = h.fore;
    }
    true
}

// Checks 11 and 18: the first house that begins abaft the fore end of the one before it decides.
#[tactic(auto, using(ship::proofs::Split::first_bad), unfolding(whole::specs::Pick::pick, ship::specs::Refusals::first))]
fn in_order(l: Length, houses: &[House]) -> Result<(), Refusal>
    ensures { paper result ≡ first (order_lines l.mm houses.now) }
{
    match first_breach(Rule::Follows, l, houses) {
        Some(k) => Err(misplaced(k, houses[k - 1], houses[k])),
        None => Ok(()),
    }
}

// Checks 9, 23, 10 and 11 or 18 on the first `n` houses, each over all of them before the next. Array and count come whole, as 01 has them.
#[tactic(auto, unfolding(whole::specs::Pick::pick, ship::specs::Refusals::first))]
pub fn of_houses(l: Length, houses: [House; 8], n: usize) -> Result<(), Refusal>
    requires { n ≤ 8 }
    ensures { paper result ≡ first (house_lines l.mm (take n houses)) }
{
    let houses = &houses[..n];
    if all_keep(l, houses) {
        return Ok(());
    }
    if let Some(k) = first_breach(Rule::EndsAndHeight, l, houses) {
        return Err(Refusal::HouseExtent(k));
    }
    if let Some(k) = first_breach(Rule::SetInSides, l, houses) {
        return Err(Refusal::Breadths(k));
    }
    if let Some(k) = first_breach(Rule::RaisedQuarterdeck, l, houses) {
        return Err(Refusal::Quarterdeck(k));
    }
    in_order(l, houses)
}

// Checks 7 to 11, 18, 22 and 23. The houses' own can be worked only once L is known to be in its range.
pub fn of_ship(x: Ship) -> Result<(), Refusal>
    requires { x.n ≤ 8 }
    ensures { paper result ≡ first (ship_lines x) }
{
    of_fields(x)?;
    let l = Length::of(x.length);
    of_houses(l, x.houses, x.n)
}

// What a ship's type decides (27, 40): the line that its freeboard begins from, and the least freeboard.
#![tactic(auto)]

ghost use Rattle.std.specs.Prelude.{◌≡◌, ◌≤◌};
ghost use Rattle.whole.specs.Frac.{ceil};
ghost use Rattle.ship.specs.Kinds.{kind_covers};
ghost use Rattle.basis.specs.Basis.{basis_of, exact_reduced};

use ship::kind;
use tabular::{covers_add, tabular_a, tabular_b};
use units::{Freeboard, Length};
use whole::mul_div_down;

// The line, and the least freeboard in millimetres.
#[derive(Clone, Copy)]
pub struct Basis {
    pub line: Freeboard,
    pub floor: u64,
}

// The least freeboard (40), in millimetres; with portable covers it is greater.
const LEAST: u64 = 50;

const LEAST_WITH_COVERS: u64 = 150;

// The part of B - A that a B-60 ship is spared, in per cent.
const SPARED: u64 = 60;

// The line of a B-60 ship. What it is spared is rounded down, so that the line is rounded up.
#[tactic(auto, using(crate::proofs::Laws::reduced_code))]
fn line_b_60(l: Length) -> Freeboard
    requires { 24000 ≤ l.mm }
    ensures result_value { result.0 ≡ ceil (exact_reduced 60 l.mm) }
    ensures result_bound { result.0 ≤ 6000000 }
{
    let a = tabular_a(l);
    let b = tabular_b(l);
    let above = units::difference(b, a);
    let spared = Freeboard(mul_div_down(above.0, SPARED, 100));
    units::difference(b, spared)
}

// The line of a type at a length. A B-100 ship is spared all of what B is above A: A is left.
#[tactic(auto, using(crate::proofs::Laws::b100_is_a), unfolding(crate::specs::Basis::basis_of))]
fn line_of(kind: u64, l: Length) -> Freeboard
    requires le_l { 24000 ≤ l.mm }
    requires kind_le_kind_covers { (kind ≤ kind_covers) × (kind ≡ kind_covers → l.mm ≤ 200000) }
    ensures result_value { result.0 ≡ (basis_of kind l.mm).line }
    ensures result_bound { result.0 ≤ 6400000 }
{
    match kind {
        kind::A | kind::B_100 => tabular_a(l),
        kind::B_60 => line_b_60(l),
        kind::PORTABLE_COVERS => units::sum(tabular_b(l), covers_add(l.span())),
        _ => tabular_b(l),
    }
}

// What a type, a number as in kind.rt, decides for a ship of length `l`.
#[tactic(auto, using(crate::proofs::Laws::floor_of), unfolding(crate::specs::Basis::basis_of))]
pub fn basis_of(kind: u64, l: Length) -> Basis
    requires le_l { 24000 ≤ l.mm }
    requires kind_le_kind_covers { (kind ≤ kind_covers) × (kind ≡ kind_covers → l.mm ≤ 200000) }
    ensures line_value { (result.line.0 ≡ (basis_of kind l.mm).line) × (result.floor ≡ (basis_of kind l.mm).floor) }
    ensures line_bound { (result.line.0 ≤ 6400000) × (result.floor ≤ 60000) }
{
    let line = line_of(kind, l);
    if kind == kind::PORTABLE_COVERS {
        return Basis {
            line,
            floor: LEAST_WITH_COVERS,
        };
    }
    Basis { line, floor: LEAST }
}

// The types of regulation 27, by their number in the record. All but A are type B ships. Not an enum: `writing_of` refuses a ship of any other number by 3.
ghost use Rattle.std.specs.Prelude.{◌≡◌};
ghost use Rattle.ship.specs.Kinds.{is_reduced, timber_kind, timber_for_a};

pub const A: u64 = 0;

pub const B: u64 = 1;

// Of reduced freeboard, by 60 and by 100 per cent of the difference from A.
pub const B_60: u64 = 2;

pub const B_100: u64 = 3;

// With portable covers on the hatchways in position 1.
pub const PORTABLE_COVERS: u64 = 4;

// Whether a type is of reduced freeboard.
pub fn is_reduced(kind: u64) -> bool
    ensures { result ≡ is_reduced kind }
{
    matches!(kind, B_60 | B_100)
}

// The type by which timber freeboards are worked: of a reduced ship the ordinary type B.
#[tactic(auto, unfolding(whole::specs::Pick::pick, crate::specs::Kinds::timber_kind))]
pub fn for_timber(kind: u64) -> u64
    ensures { result ≡ timber_kind kind }
{
    if is_reduced(kind) { B } else { kind }
}

// Whether timber freeboards are asked for a type A ship.
pub fn timber_for_a(kind: u64, timber: bool) -> bool
    ensures { result ≡ timber_for_a kind timber }
{
    timber & (kind == A)
}

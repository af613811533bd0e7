// How many values a field can have: two to the power of its bits.
ghost use Rattle.std.specs.Prelude.{◌≡◌, ◌^◌, ◌≤◌, ◌<◌};
ghost use Rattle.record.specs.Layout.{kind_bits, timber_bits, spare_bits};

use crate::width;

// ---- the head
pub const VERSION: u64 = 1 << width::VERSION;

pub const COUNT: u64 = 1 << width::COUNT;

pub const LENGTH: u64 = 1 << width::LENGTH;

pub const DEPTH: u64 = 1 << width::DEPTH;

pub const MOULDED_FIRST: u64 = 1 << width::MOULDED_FIRST;

pub const MOULDED_LAST: u64 = 1 << width::MOULDED_LAST;

pub const BLOCK: u64 = 1 << width::BLOCK;

pub const WATERPLANE: u64 = 1 << width::WATERPLANE;

pub const ORDINATE: u64 = 1 << width::ORDINATE;

pub const DISPLACEMENT: u64 = 1 << width::DISPLACEMENT;

pub const IMMERSION: u64 = 1 << width::IMMERSION;

// ---- a house
pub const FLAG: u64 = 1 << width::FLAG;

pub const END: u64 = 1 << width::END;

pub const HEIGHT: u64 = 1 << width::HEIGHT;

pub const HOUSE_SPARE: u64 = 1 << width::HOUSE_SPARE;

pub const BREADTH: u64 = 1 << width::BREADTH;

// ---- by the version
#[tactic(auto, using(crate::proofs::Shifted::one_shifted))]
pub fn kind(version: u64) -> u64
    ensures { (result ≡ 2 ^ kind_bits version) × (0 < result) × (result ≤ 8) }
{
    1 << width::kind(version)
}

#[tactic(auto, using(crate::proofs::Shifted::one_shifted))]
pub fn timber(version: u64) -> u64
    ensures { (result ≡ 2 ^ timber_bits version) × (0 < result) × (result ≤ 2) }
{
    1 << width::timber(version)
}

#[tactic(auto, using(crate::proofs::Shifted::one_shifted))]
pub fn spare(version: u64) -> u64
    ensures { (result ≡ 2 ^ spare_bits version) × (0 < result) × (result ≤ 64) }
{
    1 << width::spare(version)
}

// The tables of the record in documents 01 and 02: how many bits each field has.
ghost use Rattle.std.specs.Prelude.{◌≡◌, ◌≤◌};
ghost use Rattle.record.specs.Layout.{kind_bits, timber_bits, spare_bits};

use crate::{THIRD_VERSION, by_version};

// ---- the head
pub const VERSION: u64 = 4;

// In version 1, and from version 2 on.
pub const KIND_IN_1: u64 = 2;

pub const KIND: u64 = 3;

pub const COUNT: u64 = 4;

// From version 4 on.
pub const TIMBER: u64 = 1;

// The type, the timber flag and what is spare have together, in every version.
pub const KIND_TO_SPARE: u64 = 8;

pub const LENGTH: u64 = 20;

pub const DEPTH: u64 = 16;

// M has 16 bits. The code takes the head in words of at most eight bytes, and a word ends within M: 12 bits stand in it, 4 in the next.
pub const MOULDED_FIRST: u64 = 12;

pub const MOULDED_LAST: u64 = 4;

pub const BLOCK: u64 = 14;

pub const WATERPLANE: u64 = 14;

pub const ORDINATE: u64 = 14;

pub const DISPLACEMENT: u64 = 20;

pub const IMMERSION: u64 = 16;

// ---- a house
pub const FLAG: u64 = 1;

pub const END: u64 = 21;

pub const HEIGHT: u64 = 13;

pub const HOUSE_SPARE: u64 = 7;

// From version 3 on.
pub const BREADTH: u64 = 16;

// ---- by the version
#[tactic(auto, using(crate::proofs::Parts::eight_bits), unfolding(crate::specs::Layout::kind_bits))]
pub fn kind(version: u64) -> u64
    ensures { (result ≡ kind_bits version) × (result ≤ 3) }
{
    by_version(version, KIND_IN_1, KIND)
}

#[tactic(auto, unfolding(crate::specs::Layout::timber_bits, whole::specs::Pick::pick))]
pub fn timber(version: u64) -> u64
    ensures { (result ≡ timber_bits version) × (result ≤ 1) }
{
    if version <= THIRD_VERSION { 0 } else { TIMBER }
}

#[tactic(auto, using(crate::proofs::Parts::eight_bits), unfolding(crate::specs::Layout::spare_bits))]
pub fn spare(version: u64) -> u64
    ensures { (result ≡ spare_bits version) × (result ≤ 6) }
{
    KIND_TO_SPARE - (kind(version) + timber(version))
}

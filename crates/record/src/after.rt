// The code takes a record in words of at most eight bytes: how many bits of its word stand after a field.
ghost use Rattle.std.specs.Prelude.{◌≡◌, ◌+◌, ◌<◌};
ghost use Rattle.record.specs.Layout.{timber_bits, spare_bits};

use crate::width;

// ---- bytes 0 to 7: version, type, houses n, timber flag, spare, L, D, the first bits of M
pub const DEPTH: u64 = width::MOULDED_FIRST;

pub const LENGTH: u64 = DEPTH + width::DEPTH;

pub const SPARE: u64 = LENGTH + width::LENGTH;

// The spare bits, whose number the version decides, stand after the flag, n and the type.
pub fn timber(version: u64) -> u64
    ensures { (result ≡ 48 + spare_bits version) × (result < 56) }
{
    SPARE + width::spare(version)
}

pub fn count(version: u64) -> u64
    ensures { (result ≡ 48 + spare_bits version + timber_bits version) × (result < 57) }
{
    timber(version) + width::timber(version)
}

pub fn kind(version: u64) -> u64
    ensures { (result ≡ 52 + spare_bits version + timber_bits version) × (result < 61) }
{
    count(version) + width::COUNT
}

// The same in every version: what the type or the flag has more, the spare has less.
pub const VERSION: u64 = SPARE + width::KIND_TO_SPARE + width::COUNT;

// ---- bytes 8 to 11: the last bits of M, Cb, Cwf
pub const BLOCK: u64 = width::WATERPLANE;

pub const MOULDED_LAST: u64 = BLOCK + width::BLOCK;

// ---- bytes 12 to 18: the ordinates of sheer at AP, L/6, L/3 from AP, L/3 from FP
pub const AFTER_THIRD: u64 = width::ORDINATE;

pub const AFTER_SIXTH: u64 = AFTER_THIRD + width::ORDINATE;

pub const AFTER_END: u64 = AFTER_SIXTH + width::ORDINATE;

// ---- bytes 19 to 26: those at L/6 from FP and FP, displacement, immersion
pub const DISPLACEMENT: u64 = width::IMMERSION;

pub const FORWARD_END: u64 = DISPLACEMENT + width::DISPLACEMENT;

pub const FORWARD_SIXTH: u64 = FORWARD_END + width::ORDINATE;

// ---- the first eight bytes of a house: enclosed, raised quarterdeck, aft end, fore end, height, spare
pub const HEIGHT: u64 = width::HOUSE_SPARE;

pub const FORE: u64 = HEIGHT + width::HEIGHT;

pub const AFT: u64 = FORE + width::END;

pub const QUARTERDECK: u64 = AFT + width::END;

pub const ENCLOSED: u64 = QUARTERDECK + width::FLAG;

// ---- and from version 3 on the four behind them: the breadths, house and ship
pub const BREADTH: u64 = width::BREADTH;

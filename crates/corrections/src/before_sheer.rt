// What is added before depth and sheer: the table with regulations 29 and 30. `b` says whether the ship is of type B.
ghost use Rattle.std.specs.Prelude.{◌≡◌, ◌+◌, ◌^◌, ◌≤◌};
ghost use Rattle.whole.specs.Pick.{pick};
ghost use Rattle.corrections.specs.Short29.{short_b};
ghost use Rattle.corrections.specs.Gathered.{made_full};

use crate::{fullness, short};
use units::{Effective, Freeboard, Length};

// The table's freeboard with regulation 29 where the ship is of type B.
#[tactic(auto, unfolding(whole::specs::Pick::pick))]
fn with_short(table: Freeboard, b: bool, length: Length, effective: Effective) -> Freeboard
    requires { (table.0 ≤ 2 ^ 24) × (24000 ≤ length.mm) }
    ensures result_value { result.0 ≡ table.0 + pick b (short_b length.mm effective.0) 0 }
    ensures result_bound { result.0 ≤ table.0 + 199500 }
{
    if !b {
        return table;
    }
    units::sum(table, short::addition(length, effective))
}

// The table's freeboard with regulations 29 and 30, for a Cb that counts.
#[tactic(auto, unfolding(crate::specs::Gathered::made_full))]
pub fn made_full(
    table: Freeboard,
    b: bool,
    length: Length,
    cb: u64,
    effective: Effective,
) -> Freeboard
    requires { (table.0 ≤ 6400000) × (24000 ≤ length.mm) × (cb ≤ 12000) }
    ensures result_value { result.0 ≡ made_full table.0 b length.mm cb effective.0 }
    ensures result_bound { result.0 ≤ 2 ^ 24 }
{
    fullness::corrected(cb, with_short(table, b, length, effective))
}

// A table of freeboards between its rows: 28.1 and 28.2 of regulation 28, and 27.1 of regulation 27.
#![tactic(auto)]

ghost use Rattle.std.specs.Prelude.{◌≡◌, ◌*◌, ◌≤◌, ◌<◌, length};
ghost use Rattle.std.specs.List.Sorted.{IsNonDecreasing};
ghost use Rattle.tabular.specs.Tabular.{row_of, tabular, table_a, table_b, covers_add};

use tables::{table27, table28a, table28b};
use units::{Freeboard, Length, Span};

// The first metre of tables 28.1 and 28.2, and that of 27.1.
const FIRST: u64 = 24;

const COVERS_FIRST: u64 = 108;

// The freeboard at `l` in a table from the metre `first` on, between the row of the whole metre at or below and the next. A thousandth of a row, which is in mm,
// is whole in um: nothing is rounded. The last row is its own next: the greatest length ends there, and no row past it is read.
#[tactic(auto, unfolding(crate::specs::Tabular::tabular))]
fn tabular(table: &[u16], first: u64, l: Span) -> Freeboard
    requires table_rises { IsNonDecreasing table.now }
    requires row_in_table { (1000 * first ≤ l.0) × (row_of first l.0 < length table.now) }
    ensures { result.0 ≡ tabular first table.now l.0 }
{
    let mm = l.0;
    let k = (mm / 1000 - first) as usize;
    let last = table.len() - 1;
    let lo = u64::from(table[k]);
    let hi = u64::from(table[(k + 1).min(last)]);
    let rise = Freeboard(mm % 1000 * (hi - lo));
    units::sum(units::freeboard_of_mm(lo), rise)
}

// The tabular freeboard of a type A ship of length `l`.
pub fn tabular_a(l: Length) -> Freeboard
    requires { 24000 ≤ l.mm }
    ensures result_value { result.0 ≡ table_a l.mm }
    ensures result_bound { result.0 ≤ 6000000 }
{
    tabular(table28a::table(), FIRST, l.span())
}

// The tabular freeboard of a type B ship of length `l`.
pub fn tabular_b(l: Length) -> Freeboard
    requires { 24000 ≤ l.mm }
    ensures result_value { result.0 ≡ table_b l.mm }
    ensures result_bound { result.0 ≤ 6000000 }
{
    tabular(table28b::table(), FIRST, l.span())
}

// What portable covers add for a ship of length `l`. The table's first row is for its length and below.
pub fn covers_add(l: Span) -> Freeboard
    requires { l.0 ≤ 200000 }
    ensures result_value { result.0 ≡ covers_add l.0 }
    ensures result_bound { result.0 ≤ 358000 }
{
    let counted = Span(l.0.max(1000 * COVERS_FIRST));
    tabular(table27::table(), COVERS_FIRST, counted)
}

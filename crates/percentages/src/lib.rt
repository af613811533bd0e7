// The percentages of the houses' deduction (37, 45), in tenths of a per cent: an entry for each tenth of E/L.
#![tactic(auto)]

ghost use Rattle.std.specs.Prelude.{◌≡◌, ◌≤◌, ◌<◌, get_or};
ghost use Rattle.percentages.specs.Table37.{entries};

// Table 37.1.
static ORDINARY: [u64; 11] = [0, 70, 140, 210, 310, 410, 520, 630, 753, 877, 1000];

// Table 45.1, ships with timber deck cargoes.
static TIMBER: [u64; 11] = [200, 310, 420, 530, 640, 700, 760, 820, 880, 940, 1000];

// The 1966 edition's regulation 37 for type B ships, line I: a forecastle and no detached bridge. docs/TABLES.md says where it is from.
static OLDER: [u64; 11] = [0, 50, 100, 150, 235, 320, 460, 630, 753, 877, 1000];

// Its line II: a forecastle and a detached bridge.
static OLDER_BRIDGE: [u64; 11] = [0, 63, 127, 190, 275, 360, 460, 630, 753, 877, 1000];

#[derive(Clone, Copy)]
pub enum Row {
    Ordinary,
    Timber,
    Older,
    OlderBridge,
}

impl Row {
    // Its entries, which lie in the program's data.
    #[tactic(auto, unfolding(crate::specs::Table37::ordinary_row, crate::specs::Table37::timber_row, crate::specs::Table37::older_row, crate::specs::Table37::older_bridge_row))]
    fn entries(self) -> &'static [u64; 11]
        ensures { result.now ≡ entries self }
    {
        match self {
            Row::Ordinary => &ORDINARY,
            Row::Timber => &TIMBER,
            Row::Older => &OLDER,
            Row::OlderBridge => &OLDER_BRIDGE,
        }
    }
}

// The percentage at the tenth `k` of E/L.
pub fn percentage(row: Row, k: usize) -> u64
    requires { k < 11 }
    ensures value { result ≡ get_or (entries row) k 0 }
    ensures upper_bound { result ≤ 1000 }
{
    row.entries()[k]
}

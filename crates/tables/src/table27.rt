// Table 27.1 of regulation 27(6): what portable covers in position 1 add, in mm at each whole metre from 108 to 200.
ghost use Rattle.std.specs.Prelude.{◌≡◌};
ghost use Rattle.tables.specs.Table27.{table27};

static ROWS: [u16; 93] = [
    50, 52, 55, 57, 59, 62, 64, 68, 70, 73, 76, 80, 84, 87, 91, 95, 99, 103, 108, 112, 116, 121,
    126, 131, 136, 142, 147, 153, 159, 164, 170, 175, 181, 186, 191, 196, 201, 206, 210, 215, 219,
    224, 228, 232, 236, 240, 244, 247, 251, 254, 258, 261, 264, 267, 270, 273, 275, 278, 280, 283,
    285, 287, 290, 292, 294, 297, 299, 301, 304, 306, 308, 311, 313, 315, 318, 320, 322, 325, 327,
    329, 332, 334, 336, 339, 341, 343, 346, 348, 350, 353, 355, 357, 358,
];

// The table, which lies in the program's data and is never copied.
#[tactic(auto, unfolding(crate::specs::Table27::table27))]
pub fn table() -> &'static [u16]
    ensures { result.now ≡ table27 }
{
    &ROWS
}

// Ships and refusals in print, in the papers' own terms and on one line. What a refusal prints is stated; a ship's text is run and compared.
ghost use Rattle.std.specs.Prelude.{Some};
ghost use Rattle.ship.specs.Printed.{refusal_text};

use crate::refusal::{Paper, Refusal};
use crate::{House, Ship};
use std::fmt;

// Number and place; the overlap for houses that overlap, and no third number for any other refusal.
impl fmt::Display for Refusal {
    ghost output = { λ r. Some (refusal_text r) };

    fn fmt<W: fmt::Write>(&self, f: &mut fmt::Formatter<W>) -> fmt::Result {
        let p = Paper::from(*self);
        match p.overlap {
            0 => write!(f, "refused {} {}", p.number, p.place),
            mm => write!(f, "refused {} {} {mm}", p.number, p.place),
        }
    }
}

// Its two flags as 0 or 1, its ends, its height, and its breadth and the ship's.
impl fmt::Display for House {
    fn fmt<W: fmt::Write>(&self, f: &mut fmt::Formatter<W>) -> fmt::Result {
        let House {
            enclosed,
            quarterdeck,
            aft,
            fore,
            height,
            breadth,
            beam,
        } = *self;
        write!(f, "[{} {} ", u8::from(enclosed), u8::from(quarterdeck))?;
        write!(f, "{aft} {fore} {height} {breadth} {beam}]")
    }
}

// Its fields by name in the record's order, then how many houses it has and each of them.
impl fmt::Display for Ship {
    fn fmt<W: fmt::Write>(&self, f: &mut fmt::Formatter<W>) -> fmt::Result {
        write!(f, "type {}", self.kind)?;
        if self.timber {
            write!(f, " timber")?;
        }
        write!(f, " L {} D {} M {}", self.length, self.depth, self.moulded)?;
        write!(f, " Cb {} Cwf {} sheer", self.block, self.waterplane)?;
        for o in &self.sheer {
            write!(f, " {o}")?;
        }
        write!(f, " certified {} {}", self.displacement, self.immersion)?;
        write!(f, " houses {}", self.n)?;
        for h in self.houses.iter().take(self.n) {
            write!(f, " {h}")?;
        }
        Ok(())
    }
}

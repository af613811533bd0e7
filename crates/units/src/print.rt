// In print, a length is its millimetres, a station and an ordinate are their signed millimetres.
ghost use Rattle.std.specs.Prelude.{Some};
ghost use Rattle.std.specs.Fmt.{decimal, signed_decimal};
ghost use Rattle.units.specs.Datum.{mm_of, sheer_of};

use crate::{AP, Ordinate, Span, Station, mm_above, mm_below};
use std::fmt;

impl fmt::Display for Span {
    ghost output = { λ l. Some (decimal l.0) };

    fn fmt<W: fmt::Write>(&self, f: &mut fmt::Formatter<W>) -> fmt::Result {
        write!(f, "{}", self.0)
    }
}

impl fmt::Display for Station {
    ghost output = { λ s. Some (signed_decimal (mm_of s.0)) };

    fn fmt<W: fmt::Write>(&self, f: &mut fmt::Formatter<W>) -> fmt::Result {
        let mm = i128::from(self.0) - i128::from(AP);
        write!(f, "{mm}")
    }
}

impl fmt::Display for Ordinate {
    ghost output = { λ o. Some (signed_decimal (sheer_of o.0)) };

    fn fmt<W: fmt::Write>(&self, f: &mut fmt::Formatter<W>) -> fmt::Result {
        let mm = i128::from(mm_above(*self)) - i128::from(mm_below(*self));
        write!(f, "{mm}")
    }
}

// The marks that are given in print, the timber marks behind the others.
ghost use Rattle.std.specs.Prelude.{Some};
ghost use Rattle.timber.specs.Printed.{timber_text, given_text};

use crate::{Given, TimberMarks};
use std::fmt;

impl fmt::Display for TimberMarks {
    ghost output = { λ m. Some (timber_text m) };

    fn fmt<W: fmt::Write>(&self, f: &mut fmt::Formatter<W>) -> fmt::Result {
        write!(f, "LS {} LT {}", self.ls, self.lt)?;
        write!(f, " LW {} LWNA {}", self.lw, self.lwna)?;
        write!(f, " LF {} LTF {}", self.lf, self.ltf)
    }
}

impl fmt::Display for Given {
    ghost output = { λ g. Some (given_text g) };

    fn fmt<W: fmt::Write>(&self, f: &mut fmt::Formatter<W>) -> fmt::Result {
        match self.timber {
            None => write!(f, "{}", self.ordinary),
            Some(t) => write!(f, "{} {t}", self.ordinary),
        }
    }
}

// The six marks in print, in millimetres behind their names.
ghost use Rattle.std.specs.Prelude.{Some};
ghost use Rattle.mark.specs.Printed.{marks_text};

use crate::Marks;
use std::fmt;

impl fmt::Display for Marks {
    ghost output = { λ m. Some (marks_text m) };

    fn fmt<W: fmt::Write>(&self, f: &mut fmt::Formatter<W>) -> fmt::Result {
        write!(f, "S {} T {}", self.s, self.t)?;
        write!(f, " W {} WNA {}", self.w, self.wna)?;
        write!(f, " F {} TF {}", self.f, self.tf)
    }
}

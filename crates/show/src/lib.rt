// What the programs print besides the Displays of ships, marks and refusals. What is printed is run and compared.
#![tactic(auto)]

ghost use Rattle.std.specs.Prelude.{Some};
ghost use Rattle.show.specs.Printed.{bytes_text, poop_text};

use ship::refusal::Refusal;
use std::fmt;
use std::io::Print;

// Bytes, two hexadecimal digits each: std prints no slice so.
#[derive(Clone, Copy)]
pub struct Hex<'a>(pub &'a [u8]);

impl fmt::Display for Hex<'_> {
    ghost output = { λ h. Some (bytes_text h.0.now) };

    fn fmt<W: fmt::Write>(&self, f: &mut fmt::Formatter<W>) -> fmt::Result {
        for b in self.0 {
            write!(f, "{b:02x}")?;
        }
        Ok(())
    }
}

// The answer to the question: the shortest poop, in decimetres.
#[derive(Clone, Copy)]
pub struct Poop(pub u64);

impl fmt::Display for Poop {
    ghost output = { λ p. Some (poop_text p.0) };

    fn fmt<W: fmt::Write>(&self, f: &mut fmt::Formatter<W>) -> fmt::Result {
        write!(f, "poop {}", self.0)
    }
}

// An answer, or why there is none, on a line.
pub fn answer<T: fmt::Display>(rt: &impl Print, a: &Result<T, Refusal>) {
    let _ = match a {
        Ok(x) => println!(rt; "{x}"),
        Err(r) => println!(rt; "{r}"),
    };
}

// Reads each record that an argument names, prints its ship or its refusal, and writes an accepted ship back: to the same bytes, or to those it then prints.
// What must come is in `stdout`, made by `samples records` of twin/, which shares no code with the crates.
#![tactic(auto)]

use record::MOST_HOUSES;
use ship::Ship;
use show::Hex;
use std::io;

fn is_untouched(out: &[u8]) -> bool {
    out.iter().all(|b| *b == 0xA5)
}

// Whether `out` begins with `s`, and is untouched behind it.
fn is_copy(out: &[u8], s: &[u8]) -> bool {
    out.strip_prefix(s).is_some_and(|rest| is_untouched(rest))
}

// Prints the record of a ship, which stands first in `out` with nothing behind it.
fn print_written(rt: &HostRuntime, out: &[u8; 128], x: Ship) -> io::Result<()> {
    if x.n as u64 <= MOST_HOUSES {
        let e = record::record_length(record::lowest_for(x), x.n);
        let (written, rest) = out.split_at(e);
        print!(rt; "{}", Hex(written))?;
        if !is_untouched(rest) {
            print!(rt; " and more")?;
        }
    }
    Ok(())
}

fn back(rt: &HostRuntime, x: Ship, s: &[u8]) -> io::Result<()> {
    let mut out = [0xA5u8; 128];
    match writer::write(&mut out, x) {
        Ok(()) if is_copy(&out, s) => print!(rt; " back"),
        Ok(()) => {
            print!(rt; " as ")?;
            print_written(rt, &out, x)
        }
        Err(r) => print!(rt; " {r}"),
    }
}

fn one(rt: &HostRuntime, i: usize) -> io::Result<()> {
    let mut buf = [0u8; 128];
    let n = files::named(rt, i, &mut buf);
    match reader::read(&buf[..n]) {
        Ok(x) => {
            print!(rt; "{x}")?;
            back(rt, x, &buf[..n])?;
        }
        Err(r) => print!(rt; "{r}")?,
    }
    println!(rt; "")
}

fn main(rt: HostRuntime) {
    for i in 1..files::arg_count(&rt) {
        let _ = one(&rt, i);
    }
}

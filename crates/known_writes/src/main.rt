// Writes each ship that an argument names into a buffer of the length it names, and prints the verdict and the whole buffer.
// A file is 72 numbers of eight bytes: the buffer's length, the ship's numbers as they are held, and eight houses of seven numbers; one more, 1, is the timber flag.
// What must come is in `stdout`, made by `samples writes` of twin/, which shares no code with the crates.
#![tactic(auto)]

ghost use Rattle.std.specs.Prelude.{◌<◌};

use ship::{House, Ship};
use show::Hex;
use std::{array, io};
use units::{Ordinate, Span, Station};

fn numbers(buf: &[u8; 584]) -> [u64; 73] {
    array::from_fn(|k| bits::word(&buf[8 * k..8 * k + 8]))
}

fn house(v: &[u64; 73], k: usize) -> House
    requires { k < 8 }
{
    let i = 16 + 7 * k;
    House {
        enclosed: v[i] == 1,
        quarterdeck: v[i + 1] == 1,
        aft: Station(v[i + 2]),
        fore: Station(v[i + 3]),
        height: Span(v[i + 4]),
        breadth: Span(v[i + 5]),
        beam: Span(v[i + 6]),
    }
}

fn vessel(v: &[u64; 73]) -> Ship {
    Ship {
        kind: v[1],
        n: v[2] as usize,
        timber: v[72] == 1,
        length: Span(v[3]),
        depth: Span(v[4]),
        moulded: Span(v[5]),
        block: v[6],
        waterplane: v[7],
        sheer: array::from_fn(|k| Ordinate(v[8 + k])),
        displacement: v[14],
        immersion: v[15],
        houses: array::from_fn(|k| house(v, k)),
    }
}

fn put(rt: &HostRuntime, x: Ship, out: &mut [u8]) -> io::Result<()> {
    match writer::write(out, x) {
        Ok(()) => print!(rt; "written")?,
        Err(r) => print!(rt; "{r}")?,
    }
    if !out.is_empty() {
        print!(rt; " {}", Hex(out))?;
    }
    println!(rt; "")
}

fn one(rt: &HostRuntime, i: usize) -> io::Result<()> {
    let mut buf = [0u8; 584];
    files::named(rt, i, &mut buf);
    let v = numbers(&buf);
    let room = v[0] as usize;
    let mut out = [0xA5u8; 128];
    if room <= 128 {
        put(rt, vessel(&v), &mut out[..room])
    } else {
        println!(rt; "a buffer longer than 128")
    }
}

fn main(rt: HostRuntime) {
    for i in 1..files::arg_count(&rt) {
        let _ = one(&rt, i);
    }
}

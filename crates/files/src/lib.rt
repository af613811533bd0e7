// The files that a program's arguments name. What is printed and read is run and compared, not proved.
#![tactic(auto)]

ghost use Rattle.std.specs.Prelude.{take};
ghost use Rattle.std.specs.Io.KnownBytes.{Consumes};
ghost use Rattle.files.specs.Counts.{IsPrefixLen};

use std::env::FillError;
use std::io::{Print, Read};
use std::rt::{Env, Files};
use std::{fs, str};

// How many arguments the program was started with, its own name among them: they come by number, so programs count them.
pub fn arg_count(rt: &impl Env) -> usize {
    (0..usize::MAX)
        .find(|i| matches!(rt.arg(*i, &mut []), Err(FillError::NotPresent)))
        .unwrap_or(usize::MAX)
}

// Puts argument i at the start of the buffer, and answers its length, or 0 where it is missing or longer than the buffer.
// No Option: to every caller a missing argument is what an empty one is, no number and no file, and this cannot fail.
pub fn arg(rt: &impl Env, i: usize, buf: &mut [u8]) -> usize
    ensures { IsPrefixLen result buf.new }
{
    rt.arg(i, buf).unwrap_or(0)
}

// Reads until the buffer is full, the input ends or a read fails, and answers how many bytes came: the input's next ones, at the start of the buffer.
// The loop is std's `read_to_end` without its heap; `read_exact` does not say how many bytes a short input had.
pub fn read_full<R: Read>(input: &mut R, buf: &mut [u8]) -> usize
    ensures in_bounds { IsPrefixLen result buf.new }
    ensures bytes { Consumes (R.remaining input.old) (R.remaining input.new) (take result buf.new) }
{
    let mut done = 0;
    while done < buf.len()
        && let Ok(n @ 1..) = input.read(&mut buf[done..])
    {
        done += n;
    }
    done
}

// Prints argument i and a colon, reads the file that it names into the buffer, and answers how many bytes came: none, where it cannot be opened.
pub fn named(rt: &(impl Env + Files + Print), i: usize, buf: &mut [u8]) -> usize
    ensures { IsPrefixLen result buf.new }
{
    let mut path = [0u8; 4096];
    let length = arg(rt, i, &mut path);
    let _ = rt.write_all(&path[..length]);
    let _ = rt.write_all(b": ");
    let Ok(name) = str::from_utf8(&path[..length]) else {
        return 0;
    };
    let Ok(mut file) = fs::open(rt, name) else {
        return 0;
    };
    read_full(&mut file, buf)
}

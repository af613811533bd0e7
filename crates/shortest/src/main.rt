// The shortest poop of the record on standard input: shortest HEIGHT WISH, both in millimetres.
#![tactic(auto)]

use show::Poop;

fn argument(rt: &HostRuntime, i: usize) -> Option<u64> {
    let mut buf = [0u8; 4096];
    let n = files::arg(rt, i, &mut buf);
    decimal::parse(&buf[..n])
}

// The longest record has 123 bytes; one more tells every longer input from a record.
fn answer(rt: &HostRuntime, height: u64, wish: u64) {
    let mut buf = [0u8; 124];
    let n = files::read_full(&mut rt.stdin(), &mut buf);
    show::answer(rt, &poop::of_record(&buf[..n], height, wish).map(Poop));
}

// What is printed in place of an answer.
fn complain(rt: &HostRuntime, what: &str) {
    let _ = println!(rt; "shortest: {what}");
}

fn main(rt: HostRuntime) {
    if files::arg_count(&rt) != 3 {
        return complain(&rt, "two arguments are needed, HEIGHT and WISH");
    }
    let Some(height) = argument(&rt, 1) else {
        return complain(&rt, "HEIGHT is a whole number of millimetres below 2^64");
    };
    let Some(wish) = argument(&rt, 2) else {
        return complain(&rt, "WISH is a whole number of millimetres below 2^64");
    };
    answer(&rt, height, wish);
}

// Asks the shortest poop of each file that an argument names: eight bytes of height, eight of wish, then a record.
// What must come is in `stdout`, made by `samples questions` of twin/, which shares no code with the crates.
#![tactic(auto)]

use ship::refusal::Refusal;
use show::Poop;

fn ask(s: &[u8]) -> Result<u64, Refusal> {
    let Some((asked, record)) = s.split_at_checked(16) else {
        return poop::of_record(s, 0, 0);
    };
    let (height, wish) = asked.split_at(8);
    poop::of_record(record, bits::word(height), bits::word(wish))
}

fn one(rt: &HostRuntime, i: usize) {
    let mut buf = [0u8; 144];
    let n = files::named(rt, i, &mut buf);
    show::answer(rt, &ask(&buf[..n]).map(Poop));
}

fn main(rt: HostRuntime) {
    for i in 1..files::arg_count(&rt) {
        one(&rt, i);
    }
}

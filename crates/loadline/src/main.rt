// Reads one ship record from standard input and prints its marks, or what is refused, on one line.
#![tactic(auto)]

fn main(rt: HostRuntime) {
    // The longest record has 123 bytes: one byte more tells every longer input from a record.
    let mut buf = [0u8; 124];
    let n = files::read_full(&mut rt.stdin(), &mut buf);
    show::answer(&rt, &marks::of_record(&buf[..n]));
}

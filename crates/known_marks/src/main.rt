// Prints the marks or the refusal of each record that an argument names.
// What must come is in `stdout`, made by `samples marks` of twin/, which shares no code with the crates.
#![tactic(auto)]

fn one(rt: &HostRuntime, i: usize) {
    let mut buf = [0u8; 128];
    let n = files::named(rt, i, &mut buf);
    show::answer(rt, &marks::of_record(&buf[..n]));
}

fn main(rt: HostRuntime) {
    for i in 1..files::arg_count(&rt) {
        one(&rt, i);
    }
}

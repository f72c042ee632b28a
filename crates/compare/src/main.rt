// Compares the saves that two arguments name.
#![tactic(auto)]

fn main(rt: HostRuntime) {
    let left = input::first(&rt);
    if input::arg_count(&rt) != left + 2 || input::has_unknown_option(&rt) {
        output::print(&rt, b"usage: compare [--archive] LEFT RIGHT\n");
        return;
    }
    let mode = input::mode(&rt);
    output::noticed(&rt, saves::compare_arguments(&rt, mode, left, left + 1));
}

// The listing program on commands of each kind: refused ones, lines that are no command, lines at and past the longest, numbers at the limits, several
// openings, F by default, and a last line without its newline.
#![tactic(auto)]

fn main(rt: HostRuntime) {
    streams::report(listing_loop::run(rt.stdin(), rt.stdout()), rt.stderr());
}

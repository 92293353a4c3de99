// The listing program: answers the commands on standard input, here those of document 01's example.
#![tactic(auto)]

fn main(rt: HostRuntime) {
    streams::report(listing_loop::run(rt.stdin(), rt.stdout()), rt.stderr());
}

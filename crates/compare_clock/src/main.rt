// Runs fixed and random histories of calls with windows and a clock that goes forward and back, on the factor's public entries and on the second implementation,
// and compares after each call everything that it answers, and after each opening, batch or change of the clock all that the tables hold. It prints a line for
// whatever differs, then how many calls it ran.
#![tactic(auto)]

mod crowd;
mod fixed;
mod large;
mod lent;
mod minutes;
mod random;

use pairs::{pair, tally};

fn main() {
    let mut p = fixed::all(pair::unopened());
    p = large::all(p);
    p = crowd::histories(p, 9, 12);
    p = random::histories(p, 5, 6, 8, 160, 60);
    p = random::histories(p, 6, 14, 24, 80, 60);
    p = random::histories(p, 7, 20, 256, 24, 40);
    p = random::histories(p, 8, 64, 128, 8, 20);
    let t = p.tally;
    tally::print_clock(t);
    tally::print(t);
}

// Runs fixed and random histories of calls on the factor's public entries and on the second implementation, and compares after each call everything that it
// answers, and after each opening or batch all that the tables hold. No column has a window, and the clock stays at 0. It prints a line for whatever differs, then how many
// calls it ran.
#![tactic(auto)]

mod fixed;
mod limits;
mod random;

use pairs::{pair, tally};

fn main() {
    let mut p = fixed::all(pair::unopened());
    p = limits::all(p);
    p = random::histories(p, 1, 6, 8, 240, 60);
    p = random::histories(p, 2, 14, 24, 120, 60);
    p = random::histories(p, 3, 20, 256, 40, 40);
    p = random::histories(p, 4, 64, 128, 16, 20);
    let t = p.tally;
    tally::print(t);
}

// What a change of the clock is counted as: by its number, by where the clock goes, and by how many columns stop counting and begin to.
use crate::pair::{Pair, mark_live};
use crate::tally::Tally;
use reference::Live;

// How many ids have the first mark and not the second.
fn only_in(live: &Live, other: &Live) -> u32 {
    live.iter()
        .zip(other)
        .filter(|(a, b)| **a != 0 && **b == 0)
        .count() as u32
}

// The tally with a change of the clock, by the pair before it: the minute that it is set to, and its number.
pub fn tallied(p: Pair, tally: Tally, minute: u32, number: u32) -> Tally {
    let mut t = tally;
    let before = t.clock;
    let mut clock = before.numbered(number);
    if number == 0 {
        clock = clock.went(p.clock, minute);
        if minute != p.clock {
            let mut q = p;
            let mut was = [0u8; 256];
            let mut live = [0u8; 256];
            q.clock = minute;
            mark_live(p, &mut was);
            mark_live(q, &mut live);
            clock = clock.moved(only_in(&was, &live), only_in(&live, &was));
        }
    }
    t.clock = clock;
    t
}

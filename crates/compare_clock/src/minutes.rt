// Minutes and windows drawn from a seed. Minutes are mostly 0 to 12, so that windows and clock meet; now and then the last that there are.
ghost use Rattle.std.specs.Prelude.{◌≤◌};

use pairs::draw::{chance, draw};

// A minute for each of some columns; one more than the ids that a batch draws.
pub type Minutes = [u32; 66];

#[derive(Clone, Copy)]
pub struct Window {
    pub first: u32,
    pub second: u32,
}

// A minute: mostly 0 to 12, now and then one of the last two.
pub fn minute(seed: &mut u64) -> u32 {
    if chance(seed, 31) {
        return 4294967295 - draw(seed, 1);
    }
    draw(seed, 12)
}

// ---- windows

fn between(first: u32, second: u32) -> Window {
    Window { first, second }
}

// A minute after the first: mostly soon, also late, or the last.
fn later(seed: &mut u64, first: u32) -> u32
    requires { first ≤ 12 }
{
    match draw(seed, 7) {
        0 => 4294967295,
        1 | 2 => first + 1 + draw(seed, 12),
        _ => first + 1 + draw(seed, 3),
    }
}

// A window that can be: none; from minute 0 on; the last minute but one alone; from a minute of 0 to 12 on.
fn drawn(seed: &mut u64) -> Window {
    let kind = draw(seed, 15);
    let first = draw(seed, 12);
    match kind {
        0..=3 => between(0, 0),
        4 => between(0, later(seed, 0)),
        5 => between(4294967294, 4294967295),
        _ => between(first, later(seed, first)),
    }
}

// A window that holds minute 4 and not 10, or one that holds minute 10 and not 4.
fn turn(seed: &mut u64) -> Window {
    if chance(seed, 1) {
        return between(draw(seed, 4), 5 + draw(seed, 3));
    }
    between(5 + draw(seed, 5), 11 + draw(seed, 3))
}

// A window that can be, or one of those that take turns.
fn either(seed: &mut u64, in_turns: bool) -> Window {
    if in_turns {
        return turn(seed);
    }
    drawn(seed)
}

// A window that cannot be: two equal minutes; a second of 0; one before the first; a first that is the last minute.
fn broken(seed: &mut u64) -> Window {
    let kind = draw(seed, 3);
    let first = 1 + draw(seed, 11);
    match kind {
        0 => between(first, first),
        1 => between(first, 0),
        2 => between(first + 1, first),
        _ => between(4294967295, 4294967295 - draw(seed, 1)),
    }
}

// ---- lists

// Writes a window at a place of both lists.
fn put(firsts: &mut Minutes, seconds: &mut Minutes, at: usize, w: Window) {
    if at < 66 {
        firsts[at] = w.first;
        seconds[at] = w.second;
    }
}

// Writes windows at all places: any that can be, or those that take turns.
pub fn write(seed: &mut u64, firsts: &mut Minutes, seconds: &mut Minutes, in_turns: bool) {
    for t in 0..66 {
        put(firsts, seconds, t, either(seed, in_turns));
    }
}

// Now and then writes one of the first r windows anew, by one that cannot be.
pub fn damage(seed: &mut u64, firsts: &mut Minutes, seconds: &mut Minutes, r: u32)
    requires { r ≤ 65 }
{
    if !chance(seed, 11) || r < 1 {
        return;
    }
    let at = draw(seed, r - 1) as usize;
    put(firsts, seconds, at, broken(seed));
}

// How long a list is that keeps step with r ids; now and then one less or one more.
pub fn length(seed: &mut u64, r: u32) -> usize
    requires { r ≤ 65 }
{
    if chance(seed, 63) {
        return (r + 1) as usize;
    }
    if r < 1 {
        return 0;
    }
    if chance(seed, 63) {
        return (r - 1) as usize;
    }
    r as usize
}

// Windows of two minutes: a booked column counts from the first up to, not including, the second; with minutes 0 and 0 it always counts. Those of an id that
// is not booked are 0 and 0.
ghost use Rattle.std.specs.Prelude.{◌≡◌, ◌≤◌, length};
ghost use Rattle.reference.specs.Ranges.{IsId};

use crate::columns::wide;
use crate::refusals::is_outside;
use crate::{Booked, Live, Windows, columns, pattern};

// ---- one window

// Whether the two minutes are 0 and 0.
fn is_none(first: u32, second: u32) -> bool {
    first == 0 && second == 0
}

// Whether a window can be: none, or one whose second minute is later than its first.
pub fn is_window(first: u32, second: u32) -> bool {
    is_none(first, second) || first < second
}

// Whether a column with these minutes counts at a minute.
fn is_inside(first: u32, second: u32, minute: u32) -> bool {
    is_none(first, second) || (first..second).contains(&minute)
}

// ---- columns that count

// Whether id i is booked and counts at a minute.
fn is_counted(booked: &Booked, windows: &Windows, minute: u32, i: usize) -> bool
    requires { IsId i }
{
    columns::is_marked(booked, i) && is_inside(windows[2 * i - 2], windows[2 * i - 1], minute)
}

// Marks the ids that are live at a minute.
pub fn mark_live(booked: &Booked, windows: &Windows, live: &mut Live, minute: u32) {
    for (k, slot) in live.iter_mut().enumerate() {
        *slot = pattern::mark(is_counted(booked, windows, minute, k + 1));
    }
}

// ---- minutes in and out

// Writes the minutes of an id, if the tables have it.
fn put(windows: &mut Windows, i: usize, first: u32, second: u32, n: usize)
    requires { n ≤ 256 }
{
    if is_outside(i, 1, n) {
        return;
    }
    windows[2 * i - 2] = first;
    windows[2 * i - 1] = second;
}

// Every id of a batch gets its minutes.
pub fn enter(windows: &mut Windows, ids: &[u32], firsts: &[u32], seconds: &[u32], n: usize)
    requires { (n ≤ 256) × (length firsts.now ≡ length ids.now) × (length seconds.now ≡ length ids.now) }
{
    for (id, (first, second)) in ids.iter().zip(firsts.iter().zip(seconds)) {
        put(windows, wide(*id), *first, *second, n);
    }
}

// The minutes of every id of a batch are forgotten.
pub fn leave(windows: &mut Windows, ids: &[u32], n: usize)
    requires { n ≤ 256 }
{
    for id in ids {
        put(windows, wide(*id), 0, 0, n);
    }
}

// The minutes of every id are forgotten.
pub fn leave_all(windows: &mut Windows) {
    windows.fill(0);
}

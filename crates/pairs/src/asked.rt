// The questions on both. A list has 160 places that hold 9.
use crate::pair::{Pair, mark_live, served};
use crate::same;
use reference::Square;

// The pair with a question counted.
fn counted(p: Pair, number: u32, same: bool) -> Pair {
    let mut q = p;
    let t = p.tally;
    q.tally = t.counted(number, same);
    q
}

// The reference's pattern.
fn fills(p: Pair, pattern: &mut Square) {
    let holds = p.holds;
    let mut live = [0u8; 256];
    mark_live(p, &mut live);
    reference::pattern::fills(&holds, &live, pattern, served(p.sizes));
}

pub fn next_row(p: Pair, i: u32, j: u32) -> Pair {
    let mut pattern = [0u8; 4096];
    fills(p, &mut pattern);
    crate::next_row::asked(p, &pattern, i, j)
}

pub fn parent(p: Pair, j: u32) -> Pair {
    let mut pattern = [0u8; 4096];
    fills(p, &mut pattern);
    let ours = p.host.parent(j);
    let theirs = reference::questions::parent(&pattern, served(p.sizes), j as usize);
    counted(p, ours.number, same::replies("parent", ours, theirs))
}

// ---- lists: the first `room` places are lent, or all where there are fewer

pub fn path(p: Pair, j: u32, at: usize, room: usize) -> Pair {
    let room = room.min(160);
    let mut pattern = [0u8; 4096];
    fills(p, &mut pattern);
    let mut list = [9u32; 160];
    let mut other = [9u32; 160];
    let ours = p.host.path(&mut list[..room], j, at);
    let theirs = reference::questions::path(
        &pattern,
        &mut other[..room],
        served(p.sizes),
        at,
        j as usize,
    );
    let a = same::replies("path", ours, theirs);
    let b = same::lists("rows of a path", &list, &other);
    counted(p, ours.number, a & b)
}

pub fn column(p: Pair, j: u32, at: usize, room: usize) -> Pair {
    let room = room.min(160);
    let holds = p.holds;
    let mut live = [0u8; 256];
    let mut pattern = [0u8; 4096];
    mark_live(p, &mut live);
    fills(p, &mut pattern);
    let mut list = [9u32; 160];
    let mut other = [9u32; 160];
    let ours = p.host.column(&mut list[..room], j, at);
    let theirs = reference::questions::column(
        &holds,
        &live,
        &pattern,
        &mut other[..room],
        served(p.sizes),
        at,
        j as usize,
    );
    let a = same::replies("column", ours, theirs);
    let b = same::lists("entries of a column", &list, &other);
    counted(p, ours.number, a & b)
}

// The check, which the reference answers from the record alone.
pub fn check(p: Pair) -> Pair {
    let record = p.host.check();
    let theirs = reference::refusals::of_record(served(p.sizes));
    counted(
        p,
        record.number,
        same::refusals("check", record.number, theirs),
    )
}

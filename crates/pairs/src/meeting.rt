// The questions about rows on both: the columns that meet a row, and the smallest row on the paths of all of some rows. Compared are the reply, the whole list and
// the work table: tables are lent to be read alone. The reference's pattern is lent, since many are asked at one point of a history.
ghost use Rattle.std.specs.Prelude.{◌≤◌};
ghost use Rattle.reference.specs.Ranges.{Served};

use crate::pair::{Pair, served};
use crate::{kept, same};
use reference::{Sizes, Square};

// ---- what a question leaves

// How many work places are zero after a call: none where it is refused by 1 to 5, otherwise as many as the sizes need.
fn cleared(sizes: Sizes, refusal: Option<usize>) -> usize
    requires { Served sizes.m sizes.n }
{
    if let Some(1..=5) = refusal {
        return 0;
    }
    if 2080 < sizes.f || 2048 < sizes.c {
        return 12160;
    }
    8 * sizes.m + 4 * sizes.f + sizes.c + sizes.n + 1024
}

// Whether the work table is as it must be after a question that the reference refuses so, or answers.
fn left(p: Pair, work: &[u32], refusal: Option<usize>) -> bool {
    kept::cleared(work, cleared(served(p.sizes), refusal))
}

// ---- the columns that meet a row: the first `room` places of the list are lent, or all where there are fewer

pub fn meets(p: Pair, pattern: &Square, i: u32, at: usize, room: usize) -> Pair {
    let room = room.min(160);
    let mut q = p;
    let mut list = [9u32; 160];
    let mut other = [9u32; 160];
    let ours = p.host.meets(&mut list[..room], i, at);
    let theirs = reference::meeting::meets(
        pattern,
        &mut other[..room],
        served(p.sizes),
        at,
        i as usize,
    );
    let reply = ours.reply;
    let a = same::replies("meets", reply, theirs);
    let b = same::lists("columns that meet a row", &list, &other);
    let c = left(p, &ours.work, theirs.err());
    let t = p.tally;
    q.tally = t.counted(reply.number, a & b & c).met(reply.number);
    q
}

// How many columns meet row i, by the reference; 0 where it is refused.
pub fn width(p: Pair, pattern: &Square, i: u32) -> usize
    ensures { result ≤ 64 }
{
    let mut other = [9u32; 160];
    let theirs = reference::meeting::meets(pattern, &mut other, served(p.sizes), 0, i as usize);
    theirs.unwrap_or(0)
}

// ---- the smallest row on all paths

pub fn common(p: Pair, pattern: &Square, row_list: &[u32]) -> Pair {
    let mut q = p;
    let ours = p.host.common(row_list);
    let theirs = reference::meeting::common(pattern, row_list, served(p.sizes));
    let reply = ours.reply;
    let a = same::replies("common", reply, theirs);
    let b = left(p, &ours.work, theirs.err());
    let t = p.tally;
    q.tally = t
        .counted(reply.number, a & b)
        .joined(reply.number, reply.value);
    q
}

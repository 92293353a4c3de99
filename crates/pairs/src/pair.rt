// Both implementations at the same point of a history, and each call on both: opening, batches and the clock. After each of these all that the tables hold is
// compared.
ghost use Rattle.reference.specs.Ranges.{Served};

use crate::tally::Tally;
use crate::{held, moves, same};
use answers::Changed;
use case_tables::Host;
use reference::{Booked, Holds, Limits, Live, Sizes, Windows};

// Limits as an opening takes them: the first entries of grades 2, 3 and 4.
pub type Three = [u32; 3];

#[derive(Clone, Copy)]
pub struct Pair {
    pub host: Host,
    pub holds: Holds,
    pub booked: Booked,
    pub windows: Windows,
    pub clock: u32,
    pub sizes: Sizes,
    pub tally: Tally,
}

// Before any opening.
pub fn unopened() -> Pair {
    Pair {
        host: Host::unopened(),
        holds: [0; 16384],
        booked: [0; 256],
        windows: [0; 512],
        clock: 0,
        sizes: none(),
        tally: Tally::new(),
    }
}

fn none() -> Sizes
    ensures { Served result.m result.n }
{
    Sizes {
        m: 0,
        n: 0,
        f: 0,
        c: 0,
        limits: limits([0, 0, 0]),
    }
}

// The limits as the reference takes them.
fn limits(three: Three) -> Limits {
    Limits {
        grade2: three[0] as usize,
        grade3: three[1] as usize,
        grade4: three[2] as usize,
    }
}

// The sizes, which the reference serves; none otherwise, which no opening leaves.
pub fn served(s: Sizes) -> Sizes
    ensures { Served result.m result.n }
{
    if 64 < s.m || 256 < s.n { none() } else { s }
}

// Marks the ids that are live at the clock.
pub fn mark_live(p: Pair, live: &mut Live) {
    let booked = p.booked;
    let windows = p.windows;
    reference::windows::mark_live(&booked, &windows, live, p.clock);
}

// ---- counting

// The pair with a call counted, once all that the tables hold is compared.
fn compared(p: Pair, number: u32, same: bool) -> Pair {
    let mut q = p;
    let mut t = p.tally;
    let ours = p.host;
    let record = ours.factor;
    t.columns = sum(t.columns, record.m);
    let all = held::same_factor(p);
    q.tally = t.counted(number, same & all);
    q
}

// The same of a change.
fn change_compared(p: Pair, changed: Changed, same: bool) -> Pair {
    let mut q = p;
    if changed.number == 0 {
        q.tally = p.tally.graded(changed.grade);
    }
    compared(q, changed.number, same)
}

// A sum up to a thousand million.
fn sum(a: u32, b: u32) -> u32 {
    if 1000000000 < a || 1000000000 < b {
        a
    } else {
        a + b
    }
}

// ---- calls

// The sizes asked for.
fn asked(m: u32, n: u32, f: u32, c: u32, three: Three) -> Sizes {
    Sizes {
        m: m as usize,
        n: n as usize,
        f: f as usize,
        c: c as usize,
        limits: limits(three),
    }
}

// Opens with the old limits.
pub fn open(p: Pair, m: u32, n: u32, f: u32, c: u32) -> Pair {
    open_with(p, m, n, f, c, [0, 0, 0])
}

// Opens with limits of the grades.
pub fn open_with(p: Pair, m: u32, n: u32, f: u32, c: u32, three: Three) -> Pair {
    let mut q = p;
    let mut host = p.host;
    let mut booked = p.booked;
    let mut windows = p.windows;
    let mut clock = p.clock;
    let opened = host.open(m, n, f, c, three[0], three[1], three[2]);
    let theirs = reference::open(
        &mut booked,
        &mut windows,
        &mut clock,
        asked(m, n, f, c, three),
    );
    let sizes = theirs.unwrap_or(served(p.sizes));
    q.host = host;
    q.booked = booked;
    q.windows = windows;
    q.clock = clock;
    q.sizes = sizes;
    let number = same::refusals("opening", opened, theirs.err());
    let records = same::numbers("records", host.factor.f, sizes.f);
    compared(q, opened, number & records)
}

// Writes limits over those of both records, as no opening does where they break the rule.
pub fn overwrite(p: Pair, three: Three) -> Pair {
    let mut q = p;
    let mut host = p.host;
    let mut record = host.factor;
    let mut sizes = p.sizes;
    let limits = limits(three);
    record.grade2 = three[0];
    record.grade3 = three[1];
    record.grade4 = three[2];
    host.factor = record;
    sizes.limits = limits;
    q.host = host;
    q.sizes = sizes;
    q
}

// Adds a batch with windows.
pub fn add_within(
    p: Pair,
    ids: &[u32],
    counts: &[u32],
    rows: &[u32],
    firsts: &[u32],
    seconds: &[u32],
) -> Pair {
    let mut q = p;
    let mut host = p.host;
    let mut holds = p.holds;
    let mut booked = p.booked;
    let mut windows = p.windows;
    let mut touched = [9u16; 64];
    let mut labels = [9u16; 64];
    let ours = host.add(ids, counts, rows, firsts, seconds);
    let theirs = reference::adding::add(
        &mut holds,
        &mut booked,
        &mut windows,
        &mut touched,
        &mut labels,
        ids,
        counts,
        rows,
        firsts,
        seconds,
        p.clock,
        served(p.sizes),
    );
    q.host = host;
    q.holds = holds;
    q.booked = booked;
    q.windows = windows;
    let same = same::batches(&ours, theirs, &touched, &labels);
    change_compared(q, ours.changed, same)
}

// Adds a batch whose first and second minutes stand in one list.
fn add_from(p: Pair, ids: &[u32], counts: &[u32], rows: &[u32], minutes: &[u32]) -> Pair {
    let k = ids.len();
    if minutes.len() < k {
        return p;
    }
    add_within(p, ids, counts, rows, &minutes[..k], &minutes[..k])
}

// Adds a batch of columns that have no window, at most 65.
pub fn add(p: Pair, ids: &[u32], counts: &[u32], rows: &[u32]) -> Pair {
    let none = [0u32; 65];
    add_from(p, ids, counts, rows, &none)
}

pub fn remove(p: Pair, ids: &[u32]) -> Pair {
    let mut q = p;
    let mut host = p.host;
    let holds = p.holds;
    let mut booked = p.booked;
    let mut windows = p.windows;
    let mut touched = [9u16; 64];
    let mut labels = [9u16; 64];
    let ours = host.remove(ids);
    let theirs = reference::removing::remove(
        &holds,
        &mut booked,
        &mut windows,
        &mut touched,
        &mut labels,
        ids,
        p.clock,
        served(p.sizes),
    );
    q.host = host;
    q.booked = booked;
    q.windows = windows;
    let same = same::batches(&ours, theirs, &touched, &labels);
    change_compared(q, ours.changed, same)
}

// Sets the clock.
pub fn set_clock(p: Pair, minute: u32) -> Pair {
    let mut q = p;
    let mut host = p.host;
    let holds = p.holds;
    let booked = p.booked;
    let windows = p.windows;
    let mut clock = p.clock;
    let mut touched = [9u16; 64];
    let mut labels = [9u16; 64];
    let ours = host.set_clock(minute);
    let theirs = reference::clock::set(
        &holds,
        &booked,
        &windows,
        &mut touched,
        &mut labels,
        &mut clock,
        minute,
        served(p.sizes),
    );
    q.host = host;
    q.clock = clock;
    let same = same::batches(&ours, theirs, &touched, &labels);
    let changed = ours.changed;
    let t = p.tally;
    q.tally = moves::tallied(p, t, minute, changed.number);
    change_compared(q, changed, same)
}

// The calls of the factor, each with its lines.
use crate::lines;
use case_tables::Host;
use questions::Reply;

// Opens anew with the old limits, and gives the host from now on.
pub fn open(m: u32, n: u32, f: u32, c: u32) -> Host {
    open_with(m, n, f, c, 0, 0, 0)
}

// Opens anew with limits of the grades.
pub fn open_with(m: u32, n: u32, f: u32, c: u32, grade2: u32, grade3: u32, grade4: u32) -> Host {
    let mut h = Host::unopened();
    let opened = h.open(m, n, f, c, grade2, grade3, grade4);
    if opened == 0 {
        lines::text("open\n");
    } else {
        lines::no(opened, 0);
    }
    h
}

// Adds columns that have no window.
pub fn add(before: Host, ids: &[u32], counts: &[u32], rows: &[u32]) -> Host {
    let mut h = before;
    lines::tell(&h.add_always(ids, counts, rows));
    h
}

// Adds columns with their windows.
pub fn add_within(
    before: Host,
    ids: &[u32],
    counts: &[u32],
    rows: &[u32],
    firsts: &[u32],
    seconds: &[u32],
) -> Host {
    let mut h = before;
    lines::tell(&h.add(ids, counts, rows, firsts, seconds));
    h
}

pub fn remove(before: Host, ids: &[u32]) -> Host {
    let mut h = before;
    lines::tell(&h.remove(ids));
    h
}

// Sets the clock, and says where it stands then.
pub fn set_clock(before: Host, minute: u32) -> Host {
    let mut h = before;
    lines::tell(&h.set_clock(minute));
    lines::text("clock");
    lines::word(h.factor.clock);
    lines::end();
    h
}

// ---- the factor, as the listing shows it

// Column j: j, its parent, its entries.
fn show_column(h: &Host, j: u32) {
    let mut list = [0u32; 128];
    let parent = h.parent(j);
    let column = h.column(&mut list, j, 0);
    lines::number(j);
    lines::reply(parent);
    lines::pairs(&list, column.value);
    lines::end();
}

// What check answers, then every column.
pub fn show(h: Host) {
    let sound = h.check();
    lines::text("check");
    lines::word(sound.number);
    lines::end();
    for j in 1..=h.row_count() {
        show_column(&h, j);
    }
}

// The second record of column j, by the tables themselves; 0 where there is none.
pub fn second_record(h: Host, j: u32) -> u32 {
    if j < 1 || 64 < j {
        return 0;
    }
    let head = h.heads[(j - 1) as usize];
    if head < 1 || 2080 < head {
        return 0;
    }
    h.next[(head - 1) as usize]
}

// ---- questions; a list is one of six places that hold 9, shown whole

// What a question answers, and the list that it was lent.
fn listed(name: &str, reply: Reply, list: &[u32]) {
    lines::text(name);
    lines::reply(reply);
    lines::text(":");
    lines::places(list);
    lines::end();
}

pub fn path(h: Host, at: usize, j: u32) {
    let mut list = [9u32; 6];
    let reply = h.path(&mut list, j, at);
    listed("path", reply, &list);
}

pub fn column(h: Host, at: usize, j: u32) {
    let mut list = [9u32; 6];
    let reply = h.column(&mut list, j, at);
    listed("column", reply, &list);
}

pub fn meets(h: Host, at: usize, i: u32) {
    let mut list = [9u32; 6];
    let reply = h.meets(&mut list, i, at).reply;
    listed("meets", reply, &list);
}

// The smallest row on the paths of all rows that are named.
pub fn common(h: Host, rows: &[u32]) {
    lines::text("common");
    lines::reply(h.common(rows).reply);
    lines::end();
}

pub fn parent(h: Host, j: u32) {
    lines::text("parent");
    lines::reply(h.parent(j));
    lines::end();
}

// The first row at or above i in column j, and its multiplicity.
pub fn next_row(h: Host, i: u32, j: u32) {
    lines::next_row(i, j, h.next_row(i, j));
}

// What the program writes: words, lists, answers and replies.
use crate::out::Out;
use answers::Changed;
use case_tables::changing::Batched;
use questions::{Found, Reply};
use std::fmt::Write;

pub fn text(s: &str) {
    let _ = write!(Out, "{s}");
}

pub fn number(n: u32) {
    let _ = write!(Out, "{n}");
}

pub fn word(n: u32) {
    let _ = write!(Out, " {n}");
}

pub fn end() {
    let _ = writeln!(Out);
}

pub fn title(name: &str) {
    let _ = writeln!(Out, "-- {name}");
}

pub fn no(n: u32, position: u32) {
    let _ = writeln!(Out, "no {n} {position}");
}

// The first n numbers of a list.
fn words(list: &[u16], n: u32) {
    for x in list.iter().take(n as usize) {
        let _ = write!(Out, " {x}");
    }
}

// What an accepted batch reports, or `no number position`.
pub fn report(changed: Changed) {
    if changed.number != 0 {
        no(changed.number, changed.position);
        return;
    }
    let _ = writeln!(
        Out,
        "ok {} {} {}",
        changed.touched, changed.entries, changed.grade
    );
}

// The report of a batch, then, where it touched any column, the touched columns and their labels.
pub fn tell(b: &Batched) {
    let changed = b.changed;
    report(changed);
    if changed.touched == 0 {
        return;
    }
    text("touched");
    words(&b.touched, changed.touched);
    text("; labels");
    words(&b.labels, changed.touched);
    end();
}

// Whether all places of a list hold 9.
fn is_lent(list: &[u16]) -> bool {
    list.iter().all(|x| *x == 9)
}

// Whether both lists hold what they held before the call.
pub fn tell_lent(b: &Batched) {
    if is_lent(&b.touched) && is_lent(&b.labels) {
        text("lists as lent\n");
    } else {
        text("lists written\n");
    }
}

fn refused(n: u32) {
    let _ = write!(Out, " no {n}");
}

// The value of a question, or its refusal.
pub fn reply(r: Reply) {
    if r.number == 0 {
        word(r.value);
    } else {
        refused(r.number);
    }
}

// The question for the next row: from which row on and in which column, then the row that it gives with its multiplicity, or its refusal.
pub fn next_row(i: u32, j: u32, f: Found) {
    let _ = write!(Out, "next row from {i} in {j}:");
    if f.number == 0 {
        word(f.row);
        word(f.multiplicity);
    } else {
        refused(f.number);
    }
    end();
}

// The first n entries of a list.
pub fn pairs(list: &[u32], n: u32) {
    for [row, count] in list.as_chunks::<2>().0.iter().take(n as usize) {
        let _ = write!(Out, " {row}:{count}");
    }
}

// All places of a list.
pub fn places(list: &[u32]) {
    for x in list {
        word(*x);
    }
}

// Whether both gave the same; where not, a line says what differs.
use crate::out::Out;
use answers::Changed;
use case_tables::changing::Batched;
use factor::Factor;
use reference::{Answer, Entry, Limits, Reply, Rows};
use std::fmt::Write;

fn tell(what: &str, ours: usize, theirs: usize) {
    let _ = writeln!(Out, "differs: {what} {ours}, reference {theirs}");
}

// A number of the factor and one of the reference.
pub fn numbers(what: &str, ours: u32, theirs: usize) -> bool {
    let same = ours as usize == theirs;
    if !same {
        tell(what, ours as usize, theirs);
    }
    same
}

// A number that the factor refuses by, 0 for none, and the reference's.
pub fn refusals(what: &str, ours: u32, theirs: Option<usize>) -> bool {
    numbers(what, ours, theirs.unwrap_or(0))
}

// One place of two lists.
pub fn places(what: &str, place: usize, ours: u32, theirs: u32) -> bool {
    let same = ours == theirs;
    if !same {
        let _ = write!(Out, "at place {place} ");
        tell(what, ours as usize, theirs as usize);
    }
    same
}

// Every place of two lists that are equally long.
pub fn lists<T: Copy + Into<u32>>(what: &str, ours: &[T], theirs: &[T]) -> bool {
    for (k, (&x, &y)) in ours.iter().zip(theirs).enumerate() {
        if !places(what, k, x.into(), y.into()) {
            return false;
        }
    }
    true
}

// The limits of the grades.
pub fn limits(ours: Factor, theirs: Limits) -> bool {
    let a = numbers("limit of grade 2", ours.grade2, theirs.grade2);
    let b = numbers("limit of grade 3", ours.grade3, theirs.grade3);
    let c = numbers("limit of grade 4", ours.grade4, theirs.grade4);
    a & b & c
}

// What a batch answers: an accepted one has neither number nor position, and a refused one reports nothing.
fn answers(ours: Changed, theirs: Answer) -> bool {
    let (number, position, touched, entries, grade) = match theirs {
        Ok(report) => (0, 0, report.touched, report.entries, report.grade),
        Err(refusal) => (refusal.number, refusal.position, 0, 0, 0),
    };
    let a = numbers("number", ours.number, number);
    let b = numbers("position", ours.position, position);
    let c = numbers("touched", ours.touched, touched);
    let d = numbers("entries", ours.entries, entries);
    let e = numbers("grade", ours.grade, grade);
    a & b & c & d & e
}

// A batch: its answer, touched columns and labels.
pub fn batches(ours: &Batched, theirs: Answer, touched: &Rows, labels: &Rows) -> bool {
    let a = answers(ours.changed, theirs);
    let b = lists("touched column", &ours.touched, touched);
    let c = lists("label", &ours.labels, labels);
    a & b & c
}

// What the question for the next row answers: row and multiplicity are 0 for none.
pub fn found(ours: questions::Found, theirs: Result<Option<Entry>, usize>) -> bool {
    let (row, multiplicity) = match theirs {
        Ok(Some(entry)) => (entry.row, entry.multiplicity),
        _ => (0, 0),
    };
    let a = refusals("number of next row", ours.number, theirs.err());
    let b = numbers("next row", ours.row, row);
    let c = numbers("multiplicity", ours.multiplicity, multiplicity);
    a & b & c
}

// What another question answers: a refused one has the value 0.
pub fn replies(what: &str, ours: questions::Reply, theirs: Reply) -> bool {
    let a = refusals(what, ours.number, theirs.err());
    let b = numbers(what, ours.value, theirs.unwrap_or(0));
    a & b
}

// What the program counts, and its summary.
use crate::out::Out;
use std::fmt::Write;

#[derive(Clone, Copy)]
pub struct Tally {
    // Calls on both.
    pub calls: u32,
    // Accepted batches and changes of the clock.
    pub batches: u32,
    // Columns compared after openings and changes.
    pub columns: u32,
    // Calls in which something differed.
    pub differences: u32,
    // Calls by their number, 0 to 21.
    pub numbers: [u32; 22],
    // Accepted changes by their grade, 0 to 4.
    pub grades: [u32; 5],
    // Questions for the columns that meet a row, by their number, 0 to 21.
    pub meets: [u32; 22],
    // Questions for the smallest row on all paths, by their number, but for those that `apart` counts.
    pub common: [u32; 22],
    // Those of them whose answer is 0, since the paths do not join.
    pub apart: u32,
    // Questions for the next row, by their number, but for those that `later` and `ended` count.
    pub next_rows: [u32; 22],
    // Those of them that give a row above the one asked for.
    pub later: u32,
    // Those of them whose answer is 0, since the column ends before.
    pub ended: u32,
    // Changes of the clock.
    pub clock: Clock,
}

// Changes of the clock. A column moves if it counts at one of the two minutes and not at the other.
#[derive(Clone, Copy)]
pub struct Clock {
    // All of them, by their number, 0 to 21.
    pub numbers: [u32; 22],
    // Accepted ones to an earlier minute.
    pub back: u32,
    // Accepted ones to the minute at which the clock stands.
    pub again: u32,
    // Accepted ones to another minute, where no column moves.
    pub still: u32,
    // Accepted ones where some columns leave and others enter.
    pub both: u32,
    // Of these, those where more than 64 leave and more than 64 enter.
    pub many: u32,
}

impl Tally {
    pub fn new() -> Self {
        Tally {
            calls: 0,
            batches: 0,
            columns: 0,
            differences: 0,
            numbers: [0; 22],
            grades: [0; 5],
            meets: [0; 22],
            common: [0; 22],
            apart: 0,
            next_rows: [0; 22],
            later: 0,
            ended: 0,
            clock: Clock {
                numbers: [0; 22],
                back: 0,
                again: 0,
                still: 0,
                both: 0,
                many: 0,
            },
        }
    }

    // One call more, with its number, and whether nothing differed.
    pub fn counted(self, number: u32, same: bool) -> Self {
        let mut t = self;
        t.calls = more(t.calls);
        one_more(&mut t.numbers, number);
        if !same {
            t.differences = more(t.differences);
        }
        t
    }

    // One accepted change more, with its grade.
    pub fn graded(self, grade: u32) -> Self {
        let mut t = self;
        t.batches = more(t.batches);
        one_more(&mut t.grades, grade);
        t
    }

    // One question more for the columns that meet a row, with its number.
    pub fn met(self, number: u32) -> Self {
        let mut t = self;
        one_more(&mut t.meets, number);
        t
    }

    // One question more for the smallest row on all paths, with its number and that row.
    pub fn joined(self, number: u32, row: u32) -> Self {
        let mut t = self;
        if number == 0 && row == 0 {
            t.apart = more(t.apart);
        } else {
            one_more(&mut t.common, number);
        }
        t
    }

    // One question more for the next row, with its number, the row asked for and the row given.
    pub fn found(self, number: u32, asked: u32, row: u32) -> Self {
        let mut t = self;
        if number == 0 && row == 0 {
            t.ended = more(t.ended);
        } else if number == 0 && asked < row {
            t.later = more(t.later);
        } else {
            one_more(&mut t.next_rows, number);
        }
        t
    }
}

impl Clock {
    // One change more, with its number.
    pub fn numbered(self, number: u32) -> Self {
        let mut c = self;
        one_more(&mut c.numbers, number);
        c
    }

    // One accepted change more, from a minute to a minute.
    pub fn went(self, before: u32, after: u32) -> Self {
        let mut c = self;
        if after < before {
            c.back = more(c.back);
        }
        if after == before {
            c.again = more(c.again);
        }
        c
    }

    // One accepted change more to another minute, with how many columns leave and how many enter.
    pub fn moved(self, leave: u32, enter: u32) -> Self {
        let mut c = self;
        if leave == 0 && enter == 0 {
            c.still = more(c.still);
        }
        if leave != 0 && enter != 0 {
            c.both = more(c.both);
        }
        if 64 < leave && 64 < enter {
            c.many = more(c.many);
        }
        c
    }
}

// One more, up to a thousand million.
fn more(n: u32) -> u32 {
    if n < 1000000000 { n + 1 } else { n }
}

// One more at a number's place, if the list has it.
fn one_more(list: &mut [u32], number: u32) {
    if let Some(n) = list.get_mut(number as usize) {
        *n = more(*n);
    }
}

fn line(name: &str, n: u32) {
    let _ = writeln!(Out, "{name} {n}");
}

// How many calls were refused by each number.
fn print_refused(numbers: &[u32; 22]) {
    for (k, &n) in numbers.iter().enumerate().skip(1) {
        let _ = writeln!(Out, "refused by {k}: {n}");
    }
}

// The questions about rows. 2 to 5 come up for none of them.
fn print_questions(meets: &[u32; 22], common: &[u32; 22], apart: u32) {
    line("columns of a row given:", meets[0]);
    line("columns of a row refused by 1:", meets[1]);
    line("columns of a row refused by 6:", meets[6]);
    line("columns of a row refused by 17:", meets[17]);
    line("columns of a row refused by 18:", meets[18]);
    line("common row given:", common[0]);
    line("common row 0:", apart);
    line("common row refused by 1:", common[1]);
    line("common row refused by 6:", common[6]);
    line("common row refused by 7:", common[7]);
    line("common row refused by 17:", common[17]);
}

// The questions for the next row.
fn print_next_rows(next_rows: &[u32; 22], later: u32, ended: u32) {
    line("next row the one asked for:", next_rows[0]);
    line("next row above it:", later);
    line("next row 0:", ended);
    line("next row refused by 1:", next_rows[1]);
    line("next row refused by 6:", next_rows[6]);
    line("next row refused by 17:", next_rows[17]);
}

// The changes of the clock. 2 to 5 come up for none of them.
pub fn print_clock(t: Tally) {
    let clock = t.clock;
    let numbers = clock.numbers;
    line("clock set:", numbers[0]);
    line("clock set back:", clock.back);
    line("clock set to its minute again:", clock.again);
    line("clock set with no column moved:", clock.still);
    line("clock set with some leaving and some entering:", clock.both);
    line("clock set with more than 64 of both:", clock.many);
    line("clock refused by 1:", numbers[1]);
    line("clock refused by 6:", numbers[6]);
    line("clock refused by 16:", numbers[16]);
}

// Everything but the changes of the clock.
pub fn print(t: Tally) {
    let numbers = t.numbers;
    let grades = t.grades;
    let meets = t.meets;
    let common = t.common;
    let next_rows = t.next_rows;
    line("calls", t.calls);
    line("accepted", numbers[0]);
    line("accepted batches", t.batches);
    line("of grade 0:", grades[0]);
    line("of grade 1:", grades[1]);
    line("of grade 2:", grades[2]);
    line("of grade 3:", grades[3]);
    line("of grade 4:", grades[4]);
    line("columns compared", t.columns);
    print_refused(&numbers);
    print_questions(&meets, &common, t.apart);
    print_next_rows(&next_rows, t.later, t.ended);
    line("calls that differ", t.differences);
}

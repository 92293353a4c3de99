// What an answer that is an enum becomes as it crosses to a host: an opening's answer and a reading, each as a struct of numbers that stands for just that answer.
#![tactic(auto)]

ghost use Rattle.std.specs.Prelude.{◌≡◌};
ghost use Rattle.crossing.specs.Crossing.{opened_from, read_from};

use factor::Factor;
use reader::Entry;

// What an opening answers: number 0 and the record, or the number of the refusal and a record of zeros.
#[repr(C)]
#[derive(Clone, Copy)]
pub struct Opened {
    pub number: u32,
    pub factor: Factor,
}

// What is read at a record: row, multiplicity and the record after it, 0 if there is none. At the end all are 0.
#[repr(C)]
#[derive(Clone, Copy)]
pub struct Read {
    pub row: u32,
    pub multiplicity: u32,
    pub next: u32,
}

// An opening's answer, refused by a number, as a struct.
pub fn opened_from(x: Result<Factor, u32>) -> Opened
    ensures { result ≡ opened_from x }
{
    match x {
        Ok(factor) => Opened { number: 0, factor },
        Err(number) => Opened {
            number,
            factor: Factor {
                m: 0,
                n: 0,
                f: 0,
                c: 0,
                free: 0,
                book_free: 0,
                grade2: 0,
                grade3: 0,
                grade4: 0,
                clock: 0,
            },
        },
    }
}

// A reading as a struct.
pub fn read_from(x: Option<Entry>) -> Read
    ensures { result ≡ read_from x }
{
    match x {
        Some(Entry { row, count, after }) => Read {
            row: row as u32,
            multiplicity: count as u32,
            next: after.0,
        },
        None => Read {
            row: 0,
            multiplicity: 0,
            next: 0,
        },
    }
}

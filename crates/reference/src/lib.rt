// The calls of the factor a second time, by brute force, for programs that run histories on both and compare. Patterns come from the chain rule,
// multiplicities from the words of the definition, refusals from the table's words. It shares no code and no definition with the product.
// The tables serve 64 rows and 256 ids: id i holds row j if place (i - 1) * 64 + (j - 1) is 1, and row i is in L_j if place (j - 1) * 64 + (i - 1) is;
// the minutes of id i stand at places 2 * i - 2 and 2 * i - 1. Which columns are live is found anew, from these minutes and the clock, whenever it is asked.
#![tactic(auto)]

pub mod adding;
pub mod batch;
pub mod clock;
pub mod columns;
pub mod meeting;
pub mod pattern;
pub mod questions;
pub mod refusals;
pub mod removing;
pub mod tree;
pub mod windows;

ghost use Rattle.std.specs.Prelude.{◌≡◌, ℕ, ◌*◌, ◌≤◌, IfOk};
ghost use Rattle.reference.specs.Ranges.{Served};

// A mark for each id and row.
pub type Holds = [u8; 16384];
// A mark for each id, 1 if it is booked.
pub type Booked = [u8; 256];
// A mark for each id, 1 if it is booked and counts.
pub type Live = [u8; 256];
// Two minutes for each id.
pub type Windows = [u32; 512];
// A mark for each row.
pub type Marks = [u8; 64];
// A mark for each two rows.
pub type Square = [u8; 4096];
// A row or a label for each row.
pub type Rows = [u16; 64];

// The first entries of grades 2, 3 and 4.
#[derive(Clone, Copy)]
pub struct Limits {
    pub grade2: usize,
    pub grade3: usize,
    pub grade4: usize,
}

// What an opening fixes: rows, ids, factor records, book records, and the limits that grades are read from.
#[derive(Clone, Copy)]
pub struct Sizes {
    pub m: usize,
    pub n: usize,
    pub f: usize,
    pub c: usize,
    pub limits: Limits,
}

// Why a batch is refused: a number, and the position of the column that it is given for, 0 for the whole batch.
#[derive(Clone, Copy)]
pub struct Refusal {
    pub number: usize,
    pub position: usize,
}

// What an accepted batch reports.
#[derive(Clone, Copy)]
pub struct Report {
    pub touched: usize,
    pub entries: usize,
    pub grade: usize,
}

// What a batch gives.
pub type Answer = Result<Report, Refusal>;

// What a question gives: a parent, a row or a number of places or entries, or the number that it is refused by.
pub type Reply = Result<usize, usize>;

// An entry of a column.
#[derive(Clone, Copy)]
pub struct Entry {
    pub row: usize,
    pub multiplicity: usize,
}

// The sum of a number for each of 1 to n, none above 64.
fn total<F: Fn(usize) -> usize>(n: usize, number: F) -> usize
    requires { (n ≤ 256) × ((k : ℕ) → (1 ≤ k) × (k ≤ n) → F.pre number k) × ((k r : ℕ) → F.post number k r → r ≤ 64) }
    ensures { result ≤ 64 * n }
{
    let mut sum = 0;
    for k in 1..=n {
        sum += number(k);
    }
    sum
}

// The report of an accepted batch, of the number of its touched columns and of its entries.
fn accepted(sizes: Sizes, touched: usize, entries: usize) -> Report
    ensures { result.touched ≡ touched }
{
    Report {
        touched,
        entries,
        grade: batch::grade(sizes.limits, entries),
    }
}

// An F of 0 means 32 * m.
fn records_meant(m: usize, f: usize) -> usize {
    if f == 0 && m <= 4096 { 32 * m } else { f }
}

// Three zeros mean the old limits.
fn limits_meant(asked: Limits) -> Limits {
    match asked {
        Limits {
            grade2: 0,
            grade3: 0,
            grade4: 0,
        } => Limits {
            grade2: 256,
            grade3: 4096,
            grade4: 65536,
        },
        _ => asked,
    }
}

fn meant(asked: Sizes) -> Sizes {
    Sizes {
        f: records_meant(asked.m, asked.f),
        limits: limits_meant(asked.limits),
        ..asked
    }
}

// Opens: no column is booked, and the clock stands at 0. It gives the sizes that serve from now on. Refused by 1 to 4 and 20, and by 5 where these tables do
// not serve the sizes; then all is as before.
pub fn open(
    booked: &mut Booked,
    windows: &mut Windows,
    clock: &mut u32,
    asked: Sizes,
) -> Result<Sizes, usize>
    ensures { IfOk result (λ sizes. Served sizes.m sizes.n) }
{
    let sizes = meant(asked);
    if let Some(number) = refusals::of_opening(sizes) {
        return Err(number);
    }
    if 64 < sizes.m || 256 < sizes.n {
        return Err(5);
    }
    columns::leave_all(booked);
    windows::leave_all(windows);
    *clock = 0;
    Ok(sizes)
}

// The report of an accepted batch, of the pattern that its columns are live in: the one after an addition, the one before a removal.
pub fn reported(
    pattern: &Square,
    touched: &mut Rows,
    labels: &mut Rows,
    label_of: &Rows,
    sizes: Sizes,
) -> Report
    requires { Served sizes.m sizes.n }
    ensures { result.touched ≤ 64 }
{
    let count = batch::report(touched, labels, label_of, label_of, sizes.m);
    let entries = batch::entries(pattern, label_of, sizes.m);
    accepted(sizes, count, entries)
}

// The columns of a batch leave, with their minutes.
pub fn leave(booked: &mut Booked, windows: &mut Windows, ids: &[u32], n: usize)
    requires { n ≤ 256 }
{
    batch::leave(booked, ids, n);
    windows::leave(windows, ids, n);
}

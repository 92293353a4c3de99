// The library for hosts in C and Rust: every entry of the factor and the reader's step, and nothing besides. Each passes its arguments on; its contract is that of
// the entry. Its name ends in the interface's version, so that hosts of another one do not link. An answer that is an enum crosses as a struct of numbers (`crossing`).
#![tactic(auto)]

ghost use Rattle.std.specs.Prelude.{◌≡◌};
ghost use Rattle.reader.specs.Reading.{entry_at};
ghost use Rattle.symbolic.specs.Grades.{limits_of};
ghost use Rattle.tables.specs.Tables.{tables_of, sizes_of};
ghost use Rattle.crossing.specs.Crossing.{OpenedStep, numbered, read_from};

mod asking;
mod batches;

use crossing::{Opened, Read};
use early_refusals::Refusal;
use factor::Factor;
use pool::Rec;

// Opens: a fresh factor from four sizes and three limits of grades, all tables written. F = 0 means as many records as `early_refusals::default_records` says, three zeros
// for the limits mean 256, 4,096 and 65,536; limits that break the rule are refused by 20.
#[unsafe(no_mangle)]
pub extern "C" fn nigvalds_open_0_7(
    m: u32,
    n: u32,
    f: u32,
    c: u32,
    grade2: u32,
    grade3: u32,
    grade4: u32,
    heads: &mut [u32],
    parents: &mut [u16],
    rows: &mut [u16],
    counts: &mut [u16],
    next: &mut [u32],
    book_heads: &mut [u32],
    book_rows: &mut [u16],
    book_next: &mut [u32],
    windows: &mut [u32],
    work: &mut [u32],
) -> Opened
    ensures { OpenedStep (sizes_of m n f c) (limits_of grade2 grade3 grade4) (tables_of heads.old parents.old rows.old counts.old next.old book_heads.old book_rows.old book_next.old windows.old) work.old result (tables_of heads.new parents.new rows.new counts.new next.new book_heads.new book_rows.new book_next.new windows.new) work.new }
{
    let x = Factor::open(
        m, n, f, c, grade2, grade3, grade4, heads, parents, rows, counts, next, book_heads,
        book_rows, book_next, windows, work,
    );
    crossing::opened_from(numbered(x))
}

// What an opening gives, with the number of its refusal.
fn numbered(x: Result<Factor, Refusal>) -> Result<Factor, u32>
    ensures { result ≡ numbered x }
{
    match x {
        Ok(factor) => Ok(factor),
        Err(reason) => Err(reason.number()),
    }
}

// The entry of a record, of any tables and any number.
#[unsafe(no_mangle)]
pub extern "C" fn nigvalds_read_0_7(rows: &[u16], counts: &[u16], next: &[u32], record: u32) -> Read
    ensures { result ≡ read_from (entry_at rows.now counts.now next.now «record») }
{
    let x = reader::entry_at(rows, counts, next, Rec(record));
    crossing::read_from(x)
}

// One line of the listing program's input to the bytes that it prints: `answer` is the command of the line, on a factor that is kept between lines. It
// calls the unchecked entries, whose premise holds from an accepted opening on.
#![tactic(auto)]

mod changing;

ghost use Rattle.listing_memory.specs.Memory.{memory_of};
ghost use Rattle.tables.specs.Tables.{tables_of};
ghost use Rattle.std.specs.Prelude.{◌≤◌, length};
ghost use Rattle.listing_answers.specs.Listing.{Ready, Answered, Answers};

use factor::Factor;
use listing_memory::Printed;
use listing_text::command::Command;
use listing_text::{command, text};

// Answers a line, without its newline: the bytes stand at the front of out.
pub fn answer(
    factor: Factor,
    heads: &mut [u32],
    parents: &mut [u16],
    rows: &mut [u16],
    counts: &mut [u16],
    next: &mut [u32],
    book_heads: &mut [u32],
    book_rows: &mut [u16],
    book_next: &mut [u32],
    windows: &mut [u32],
    work: &mut [u32],
    touched: &mut [u16],
    labels: &mut [u16],
    list: &mut [u32],
    out: &mut [u8],
    line: &[u8],
) -> Printed
    requires places { 1000 ≤ length list.old }
    requires room { 91520 ≤ length out.old }
    requires ready { Ready (memory_of factor (tables_of heads.old parents.old rows.old counts.old next.old book_heads.old book_rows.old book_next.old windows.old) work.old touched.old labels.old) }
    ensures answered { Answers (Answered (memory_of factor (tables_of heads.old parents.old rows.old counts.old next.old book_heads.old book_rows.old book_next.old windows.old) work.old touched.old labels.old) line.now) out.old out.new result (memory_of result.factor (tables_of heads.new parents.new rows.new counts.new next.new book_heads.new book_rows.new book_next.new windows.new) work.new touched.new labels.new) }
    ensures ready { Ready (memory_of result.factor (tables_of heads.new parents.new rows.new counts.new next.new book_heads.new book_rows.new book_next.new windows.new) work.new touched.new labels.new) }
{
    let asked = command::parse(line, list);
    match asked {
        Command::Open { m, n, f, c } => changing::open_line(
            factor, heads, parents, rows, counts, next, book_heads, book_rows, book_next, windows,
            work, out, m, n, f, c,
        ),
        Command::Add { id, count } => changing::add_line(
            factor, heads, parents, rows, counts, next, book_heads, book_rows, book_next, windows,
            work, touched, labels, out, list, id, count,
        ),
        Command::Drop(id) => changing::drop_line(
            factor, heads, parents, rows, counts, next, book_heads, book_rows, book_next, windows,
            work, touched, labels, out, id,
        ),
        Command::Show => {
            let end = listing_show::show(
                factor, heads, parents, rows, counts, next, book_heads, book_rows, book_next,
                windows, list, out,
            );
            Printed { factor, end }
        }
        Command::Unknown => {
            let end = text::no_line(out, 0, 19, 0);
            Printed { factor, end }
        }
    }
}

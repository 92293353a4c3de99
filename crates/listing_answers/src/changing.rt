// The commands that change the factor: open, add and drop, each with the line of its answer.
ghost use Rattle.listing_memory.specs.Memory.{memory_of, numbered};
ghost use Rattle.std.specs.Prelude.{[], ◌∷◌, ◌≡◌, ◌≤◌, length, take};
ghost use Rattle.calls.specs.Calls.Change.{adding, removing};
ghost use Rattle.tables.specs.Tables.{tables_of, sizes_of};
ghost use Rattle.answers.specs.Answers.{changed_answer};
ghost use Rattle.listing_text.specs.Text.{Written};
ghost use Rattle.listing_answers.specs.Listing.{BatchAnswered, IsReady, OpenPrinted, Answers};
ghost use Rattle.listing_show.specs.Showing.{answer_line};

use answers::Changed;
use early_refusals::Refusal;
use factor::Factor;
use listing_memory::Printed;
use listing_text::text;

// The line of a batch's answer.
fn changed_line(out: &mut [u8], x: Changed) -> usize
    requires { 40 ≤ length out.old }
    ensures { Written out.old 0 (answer_line (changed_answer x)) out.new result }
{
    if x.number == 0 {
        return text::ok_line(out, 0, x.touched, x.entries, x.grade);
    }
    text::no_line(out, 0, x.number, x.position)
}

// Opens a factor, with the default limits of grades; refused, the one before stays.
pub fn open_line(
    factor: Factor,
    heads: &mut [u32],
    parents: &mut [u16],
    rows: &mut [u16],
    counts: &mut [u16],
    next: &mut [u32],
    book_heads: &mut [u32],
    book_rows: &mut [u16],
    book_next: &mut [u32],
    windows: &mut [u32],
    work: &mut [u32],
    out: &mut [u8],
    m: u32,
    n: u32,
    f: u32,
    c: u32,
) -> Printed
    requires { 40 ≤ length out.old }
    ensures { OpenPrinted (sizes_of m n f c) (tables_of heads.old parents.old rows.old counts.old next.old book_heads.old book_rows.old book_next.old windows.old) work.old factor out.old (tables_of heads.new parents.new rows.new counts.new next.new book_heads.new book_rows.new book_next.new windows.new) work.new out.new result }
{
    let opened = Factor::open(
        m, n, f, c, 0, 0, 0, heads, parents, rows, counts, next, book_heads, book_rows, book_next,
        windows, work,
    );
    listing_memory::opened_line(out, factor, numbered(opened))
}

// What an opening gives, with the number of its refusal.
fn numbered(opened: Result<Factor, Refusal>) -> Result<Factor, u32>
    ensures { result ≡ numbered opened }
{
    match opened {
        Ok(factor) => Ok(factor),
        Err(reason) => Err(reason.number()),
    }
}

// Adds a column without a window: an id with the rows at the front of the list.
pub fn add_line(
    factor: Factor,
    heads: &[u32],
    parents: &mut [u16],
    rows: &mut [u16],
    counts: &mut [u16],
    next: &mut [u32],
    book_heads: &mut [u32],
    book_rows: &mut [u16],
    book_next: &mut [u32],
    windows: &mut [u32],
    work: &mut [u32],
    touched: &mut [u16],
    labels: &mut [u16],
    out: &mut [u8],
    list: &[u32],
    id: u32,
    count: u32,
) -> Printed
    requires room { 40 ≤ length out.old }
    requires listed { count ≤ length list.now }
    requires usable { IsReady (memory_of factor (tables_of heads.now parents.old rows.old counts.old next.old book_heads.old book_rows.old book_next.old windows.old) work.old touched.old labels.old) }
    ensures { Answers (BatchAnswered (memory_of factor (tables_of heads.now parents.old rows.old counts.old next.old book_heads.old book_rows.old book_next.old windows.old) work.old touched.old labels.old) (adding (id ∷ []) (count ∷ []) (take count list.now) (0 ∷ []) (0 ∷ []))) out.old out.new result (memory_of result.factor (tables_of heads.now parents.new rows.new counts.new next.new book_heads.new book_rows.new book_next.new windows.new) work.new touched.new labels.new) }
{
    if factor.m == 0 {
        let end = text::no_line(out, 0, 1, 0);
        return Printed { factor, end };
    }
    let ids = [id];
    let row_counts = [count];
    let firsts = [0];
    let seconds = [0];
    let most = count as usize;
    let x = changes::add_unchecked(
        factor,
        heads,
        parents,
        rows,
        counts,
        next,
        book_heads,
        book_rows,
        book_next,
        windows,
        work,
        touched,
        labels,
        &ids,
        &row_counts,
        &list[..most],
        &firsts,
        &seconds,
    );
    let after = x.factor;
    let end = changed_line(out, x);
    Printed { factor: after, end }
}

// Removes the column of an id.
pub fn drop_line(
    factor: Factor,
    heads: &[u32],
    parents: &mut [u16],
    rows: &mut [u16],
    counts: &mut [u16],
    next: &mut [u32],
    book_heads: &mut [u32],
    book_rows: &mut [u16],
    book_next: &mut [u32],
    windows: &mut [u32],
    work: &mut [u32],
    touched: &mut [u16],
    labels: &mut [u16],
    out: &mut [u8],
    id: u32,
) -> Printed
    requires room { 40 ≤ length out.old }
    requires usable { IsReady (memory_of factor (tables_of heads.now parents.old rows.old counts.old next.old book_heads.old book_rows.old book_next.old windows.old) work.old touched.old labels.old) }
    ensures { Answers (BatchAnswered (memory_of factor (tables_of heads.now parents.old rows.old counts.old next.old book_heads.old book_rows.old book_next.old windows.old) work.old touched.old labels.old) (removing (id ∷ []))) out.old out.new result (memory_of result.factor (tables_of heads.now parents.new rows.new counts.new next.new book_heads.new book_rows.new book_next.new windows.new) work.new touched.new labels.new) }
{
    if factor.m == 0 {
        let end = text::no_line(out, 0, 1, 0);
        return Printed { factor, end };
    }
    let ids = [id];
    let x = changes::remove_unchecked(
        factor, heads, parents, rows, counts, next, book_heads, book_rows, book_next, windows,
        work, touched, labels, &ids,
    );
    let after = x.factor;
    let end = changed_line(out, x);
    Printed { factor: after, end }
}

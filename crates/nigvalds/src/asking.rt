// Check and questions for hosts. Row numbers cross as plain numbers.
ghost use Rattle.tables.specs.Lent.{tables_in};
ghost use Rattle.questions.specs.Asked.{reply_of, found_of};
ghost use Rattle.calls.specs.Calls.{call_of};
ghost use Rattle.calls.specs.Calls.Entry.{checking, asking};
ghost use Rattle.calls.specs.Calls.Question.{ask_next_row, ask_parent, ask_path, ask_column, ask_meets, ask_common};
ghost use Rattle.calls.specs.Lent.{work_in, work_out, list_in, list_out};
ghost use Rattle.factor.specs.Entries.{world_of, ReadStep};

use book::Row;
use factor::Factor;
use questions::{Found, Reply};

// Whether the tables are sound, and the record's limits: 0, 6 for no, or 1 to 5.
#[unsafe(no_mangle)]
pub extern "C" fn nigvalds_check_0_7(
    factor: Factor,
    heads: &[u32],
    parents: &[u16],
    rows: &[u16],
    counts: &[u16],
    next: &[u32],
    book_heads: &[u32],
    book_rows: &[u16],
    book_next: &[u32],
    windows: &[u32],
    work: &mut [u32],
) -> Reply
    ensures { ReadStep (world_of factor (tables_in heads parents rows counts next book_heads book_rows book_next windows)) (call_of checking (work_in work)) (reply_of result) (work_out work) }
{
    factor.check(
        heads, parents, rows, counts, next, book_heads, book_rows, book_next, windows, work,
    )
}

// The first row at or above i in column j and its multiplicity, both 0 if the column ends before.
#[unsafe(no_mangle)]
pub extern "C" fn nigvalds_next_row_0_7(
    factor: Factor,
    heads: &[u32],
    parents: &[u16],
    rows: &[u16],
    counts: &[u16],
    next: &[u32],
    book_heads: &[u32],
    book_rows: &[u16],
    book_next: &[u32],
    windows: &[u32],
    work: &mut [u32],
    i: u32,
    j: u32,
) -> Found
    ensures { ReadStep (world_of factor (tables_in heads parents rows counts next book_heads book_rows book_next windows)) (call_of (asking (ask_next_row i j) 0) (work_in work)) (found_of result) (work_out work) }
{
    factor.next_row(
        heads,
        parents,
        rows,
        counts,
        next,
        book_heads,
        book_rows,
        book_next,
        windows,
        work,
        Row(i),
        Row(j),
    )
}

// The parent of j, 0 for a root.
#[unsafe(no_mangle)]
pub extern "C" fn nigvalds_parent_0_7(
    factor: Factor,
    heads: &[u32],
    parents: &[u16],
    rows: &[u16],
    counts: &[u16],
    next: &[u32],
    book_heads: &[u32],
    book_rows: &[u16],
    book_next: &[u32],
    windows: &[u32],
    work: &mut [u32],
    j: u32,
) -> Reply
    ensures { ReadStep (world_of factor (tables_in heads parents rows counts next book_heads book_rows book_next windows)) (call_of (asking (ask_parent j) 0) (work_in work)) (reply_of result) (work_out work) }
{
    factor.parent(
        heads,
        parents,
        rows,
        counts,
        next,
        book_heads,
        book_rows,
        book_next,
        windows,
        work,
        Row(j),
    )
}

// The path of j, a row to a place from the given place of the list on, and its length.
#[unsafe(no_mangle)]
pub extern "C" fn nigvalds_path_0_7(
    factor: Factor,
    heads: &[u32],
    parents: &[u16],
    rows: &[u16],
    counts: &[u16],
    next: &[u32],
    book_heads: &[u32],
    book_rows: &[u16],
    book_next: &[u32],
    windows: &[u32],
    work: &mut [u32],
    list: &mut [u32],
    j: u32,
    place: usize,
) -> Reply
    ensures { ReadStep (world_of factor (tables_in heads parents rows counts next book_heads book_rows book_next windows)) (call_of (asking (ask_path j) place) (list_in work list)) (reply_of result) (list_out work list) }
{
    factor.path(
        heads,
        parents,
        rows,
        counts,
        next,
        book_heads,
        book_rows,
        book_next,
        windows,
        work,
        list,
        Row(j),
        place,
    )
}

// Column j, row then multiplicity from the given place of the list on, and its number of entries.
#[unsafe(no_mangle)]
pub extern "C" fn nigvalds_column_0_7(
    factor: Factor,
    heads: &[u32],
    parents: &[u16],
    rows: &[u16],
    counts: &[u16],
    next: &[u32],
    book_heads: &[u32],
    book_rows: &[u16],
    book_next: &[u32],
    windows: &[u32],
    work: &mut [u32],
    list: &mut [u32],
    j: u32,
    place: usize,
) -> Reply
    ensures { ReadStep (world_of factor (tables_in heads parents rows counts next book_heads book_rows book_next windows)) (call_of (asking (ask_column j) place) (list_in work list)) (reply_of result) (list_out work list) }
{
    factor.column(
        heads,
        parents,
        rows,
        counts,
        next,
        book_heads,
        book_rows,
        book_next,
        windows,
        work,
        list,
        Row(j),
        place,
    )
}

// The columns whose pattern holds row i, ascending, a column to a place from the given place of the list on, and the number of places filled.
#[unsafe(no_mangle)]
pub extern "C" fn nigvalds_meets_0_7(
    factor: Factor,
    heads: &[u32],
    parents: &[u16],
    rows: &[u16],
    counts: &[u16],
    next: &[u32],
    book_heads: &[u32],
    book_rows: &[u16],
    book_next: &[u32],
    windows: &[u32],
    work: &mut [u32],
    list: &mut [u32],
    i: u32,
    place: usize,
) -> Reply
    ensures { ReadStep (world_of factor (tables_in heads parents rows counts next book_heads book_rows book_next windows)) (call_of (asking (ask_meets i) place) (list_in work list)) (reply_of result) (list_out work list) }
{
    factor.meets(
        heads,
        parents,
        rows,
        counts,
        next,
        book_heads,
        book_rows,
        book_next,
        windows,
        work,
        list,
        Row(i),
        place,
    )
}

// The smallest row that lies on the paths of all of the rows, 1 to 64 of them; 0 where there is none.
#[unsafe(no_mangle)]
pub extern "C" fn nigvalds_common_0_7(
    factor: Factor,
    heads: &[u32],
    parents: &[u16],
    rows: &[u16],
    counts: &[u16],
    next: &[u32],
    book_heads: &[u32],
    book_rows: &[u16],
    book_next: &[u32],
    windows: &[u32],
    work: &mut [u32],
    row_list: &[u32],
) -> Reply
    ensures { ReadStep (world_of factor (tables_in heads parents rows counts next book_heads book_rows book_next windows)) (call_of (asking (ask_common row_list.now) 0) (work_in work)) (reply_of result) (work_out work) }
{
    factor.common(
        heads, parents, rows, counts, next, book_heads, book_rows, book_next, windows, work,
        row_list,
    )
}

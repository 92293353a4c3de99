// The lines of a shown factor: for each column its number, its parent, then its entries as row:multiplicity. `show` writes those of all columns, or the
// refusal before an accepted opening.
#![tactic(auto)]

ghost use Rattle.std.specs.Prelude.{length};
ghost use Rattle.tables.specs.Tables.{tables_of};
ghost use Rattle.listing_text.specs.Text.{Written};
ghost use Rattle.factor.specs.Entries.{state_of, world_of};
ghost use Rattle.listing_show.specs.Showing.{shown_by, PairsRoom, PairsWritten, CanShow, CanShowAll, LineWritten};

use book::Row;
use factor::Factor;
use listing_text::text;

// Writes the entries that stand at the front of a list, two places each.
fn show_pairs(out: &mut [u8], list: &[u32], at: usize, count: usize) -> usize
    requires { PairsRoom (length out.old) (length list.now) at count }
    ensures { PairsWritten out.old list.now at count out.new result }
{
    let mut end = at;
    for i in 0..count {
        end = text::show_pair(out, end, list[2 * i], list[2 * i + 1]);
    }
    end
}

// Writes the line of column j.
fn show_column(
    factor: Factor,
    heads: &[u32],
    parents: &[u16],
    rows: &[u16],
    counts: &[u16],
    next: &[u32],
    book_heads: &[u32],
    book_rows: &[u16],
    book_next: &[u32],
    windows: &[u32],
    list: &mut [u32],
    out: &mut [u8],
    j: u32,
    at: usize,
) -> usize
    requires { CanShow (state_of factor) (tables_of heads.now parents.now rows.now counts.now next.now book_heads.now book_rows.now book_next.now windows.now) (length list.old) (length out.old) j at }
    ensures { LineWritten (state_of factor) (tables_of heads.now parents.now rows.now counts.now next.now book_heads.now book_rows.now book_next.now windows.now) out.old j at out.new result }
{
    let parent = factor.parent_unchecked(
        heads,
        parents,
        rows,
        counts,
        next,
        book_heads,
        book_rows,
        book_next,
        windows,
        Row(j),
    );
    let column = factor.column_unchecked(
        heads,
        parents,
        rows,
        counts,
        next,
        book_heads,
        book_rows,
        book_next,
        windows,
        list,
        Row(j),
        0,
    );
    let head = text::show_head(out, at, j, parent.value);
    let end = show_pairs(out, list, head, column.value as usize);
    text::line_end(out, end)
}

// Writes the lines of all columns or, where no factor is open, the refusal by 1.
pub fn show(
    factor: Factor,
    heads: &[u32],
    parents: &[u16],
    rows: &[u16],
    counts: &[u16],
    next: &[u32],
    book_heads: &[u32],
    book_rows: &[u16],
    book_next: &[u32],
    windows: &[u32],
    list: &mut [u32],
    out: &mut [u8],
) -> usize
    requires { CanShowAll (state_of factor) (tables_of heads.now parents.now rows.now counts.now next.now book_heads.now book_rows.now book_next.now windows.now) (length list.old) (length out.old) }
    ensures { Written out.old 0 (shown_by (world_of factor (tables_of heads.now parents.now rows.now counts.now next.now book_heads.now book_rows.now book_next.now windows.now))) out.new result }
{
    if factor.m == 0 {
        return text::no_line(out, 0, 1, 0);
    }
    let mut end = 0;
    for j in 0..factor.m {
        end = show_column(
            factor,
            heads,
            parents,
            rows,
            counts,
            next,
            book_heads,
            book_rows,
            book_next,
            windows,
            list,
            out,
            j + 1,
            end,
        );
    }
    end
}

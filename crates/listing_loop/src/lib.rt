// The listing program: reads standard input in pieces of any size, answers it line by line, and writes the answers of a piece together. The tables serve m 64,
// n 256, F 2,048 and C 2,048. What is proved of the whole program is `Listed`: it reads until no read gives any more, and the bytes handed to the output are the
// answers, in order, to the lines of all bytes that the reads gave, the last line among them if it lacks its newline.
#![tactic(auto)]

ghost use Rattle.listing_memory.specs.Memory.{memory_of};
ghost use Rattle.tables.specs.Tables.{tables_of};
ghost use Rattle.std.specs.Prelude.{◌≡◌, [], ◌≤◌, length};
ghost use Rattle.listing_answers.specs.Listing.{Ready};
ghost use Rattle.streams.specs.Passing.{Passed};
ghost use Rattle.listing_loop.specs.Running.{AllAnswered, Listed};

use factor::Factor;
use listing_input::Input;
use std::io::{Stdin, Stdout};
use streams::Streams;

// Answers one line after another, until there is none.
fn serve(
    factor: Factor,
    heads: &mut [u32],
    parents: &mut [u16],
    rows: &mut [u16],
    counts: &mut [u16],
    next: &mut [u32],
    book_heads: &mut [u32],
    book_rows: &mut [u16],
    book_next: &mut [u32],
    windows: &mut [u32],
    work: &mut [u32],
    touched: &mut [u16],
    labels: &mut [u16],
    list: &mut [u32],
    out: &mut [u8],
    line: &mut [u8],
    piece: &mut [u8],
    streams: Streams,
) -> Streams
    requires places { 1000 ≤ length list.old }
    requires room { 91520 ≤ length out.old }
    requires ready { Ready (memory_of factor (tables_of heads.old parents.old rows.old counts.old next.old book_heads.old book_rows.old book_next.old windows.old) work.old touched.old labels.old) }
    requires line { length line.old ≡ 2000 }
    requires piece { length piece.old ≡ 4096 }
    requires fresh { Passed streams [] [] }
    ensures { AllAnswered (memory_of factor (tables_of heads.old parents.old rows.old counts.old next.old book_heads.old book_rows.old book_next.old windows.old) work.old touched.old labels.old) result }
{
    let begun = Input {
        streams,
        place: 0,
        count: 0,
        waiting: 0,
        line: None,
    };
    let mut current = factor;
    let mut input = listing_input::next_line(piece, line, out, begun, 0);
    while let Some(filled) = input.line {
        let waiting = input.waiting;
        let x = listing_answers::answer(
            current,
            heads,
            parents,
            rows,
            counts,
            next,
            book_heads,
            book_rows,
            book_next,
            windows,
            work,
            touched,
            labels,
            list,
            &mut out[waiting..],
            &line[..filled],
        );
        current = x.factor;
        input = listing_input::next_line(piece, line, out, input, x.end);
    }
    input.streams
}

// The whole program, and what went through.
pub fn run(stdin: Stdin, stdout: Stdout) -> Streams
    ensures { Listed result }
{
    let factor = listing_memory::closed();
    let streams = streams::start(stdin, stdout);
    let mut heads = [0u32; 64];
    let mut parents = [0u16; 64];
    let mut rows = [0u16; 2048];
    let mut counts = [0u16; 2048];
    let mut next = [0u32; 2048];
    let mut book_heads = [0u32; 256];
    let mut book_rows = [0u16; 2048];
    let mut book_next = [0u32; 2048];
    let mut windows = [0u32; 512];
    let mut work = [0u32; 12032];
    let mut touched = [0u16; 64];
    let mut labels = [0u16; 64];
    let mut list = [0u32; 1000];
    let mut out = [0u8; 131072];
    let mut line = [0u8; 2000];
    let mut piece = [0u8; 4096];
    serve(
        factor,
        &mut heads,
        &mut parents,
        &mut rows,
        &mut counts,
        &mut next,
        &mut book_heads,
        &mut book_rows,
        &mut book_next,
        &mut windows,
        &mut work,
        &mut touched,
        &mut labels,
        &mut list,
        &mut out,
        &mut line,
        &mut piece,
        streams,
    )
}

// The next line of standard input: `next_line` takes it from a piece that was read, byte by byte, and reads on where the piece is used up. Before each read the bytes that
// wait at the front of a list are written, so that whoever wrote a line has the answers to all lines before it. It knows no factor.
#![tactic(auto)]

ghost use Rattle.std.specs.Prelude.{◌≤◌, length};
ghost use Rattle.listing_input.specs.Input.{PieceRead, Between, NextLine};

use streams::{Reading, Streams};

// Between lines: what went through, how far the piece is taken, of how many bytes read, how many bytes wait to be written, and how long the line found is, if there is one.
#[derive(Drop)]
pub struct Input {
    pub streams: Streams,
    pub place: usize,
    pub count: usize,
    pub waiting: usize,
    pub line: Option<usize>,
}

// Writes the bytes that wait at the front of out, and reads the next piece.
fn next_piece(piece: &mut [u8], out: &[u8], streams: Streams, waiting: usize) -> Reading
    requires { waiting ≤ length out.now }
    ensures { PieceRead streams out.now waiting piece.new result }
{
    let after = streams::write(streams, &out[..waiting]);
    streams::read(after, piece)
}

// Finds the next line: its bytes without the newline stand at the front of line, cut at 2,000. The last line may lack its newline if it is not empty. So many bytes were
// added behind those that wait, and there is room for an answer behind all of them.
pub fn next_line(piece: &mut [u8], line: &mut [u8], out: &[u8], input: Input, added: usize) -> Input
    requires { Between piece.old line.old out.now input added }
    ensures { NextLine piece.old out.now input added piece.new line.new result }
{
    let mut passed = input.streams;
    let mut place = input.place;
    let mut count = input.count;
    let mut waiting = input.waiting + added;
    let mut filled = 0;
    loop {
        let taken = listing_lines::take_line(&piece[..count], line, place, filled);
        filled = taken.length;
        if let Some(after) = taken.after {
            let room = streams::make_room(passed, out, waiting, 91520);
            return Input {
                streams: room.streams,
                place: after,
                count,
                waiting: room.count,
                line: Some(filled),
            };
        }
        let got = next_piece(piece, out, passed, waiting);
        let over = got.count == 0;
        if over {
            return Input {
                streams: got.streams,
                place: 0,
                count: 0,
                waiting: 0,
                line: (filled > 0).then_some(filled),
            };
        }
        passed = got.streams;
        place = 0;
        count = got.count;
        waiting = 0;
    }
}

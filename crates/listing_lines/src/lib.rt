// Lines from pieces of input: a line grows in a lent list, piece by piece, until a newline ends it. A list of 2,000 places holds every command; bytes past
// its end are dropped, so that a full list stands for a line that is too long.
#![tactic(auto)]

ghost use Rattle.listing_lines.specs.Lines.{Growing, Grown};

// The byte that ends a line.
const NEWLINE: u8 = b'\n';

// What was taken: the line's length now, and the place after the newline that ended it, if one did.
#[derive(Clone, Copy, PartialEq, Eq, Debug)]
pub struct Taken {
    pub length: usize,
    pub after: Option<usize>,
}

// Adds the bytes of a piece from a place on to a line, as far as the newline, which is passed over.
pub fn take_line(piece: &[u8], line: &mut [u8], place: usize, length: usize) -> Taken
    requires { Growing piece.now line.old place length }
    ensures { Grown piece.now line.old place length line.new result }
{
    let rest = &piece[place..];
    let newline = rest.iter().position(|b| *b == NEWLINE);
    let end = newline.unwrap_or(rest.len());
    let count = end.min(line.len() - length);
    line[length..length + count].copy_from_slice(&rest[..count]);
    Taken {
        length: length + count,
        after: newline.map(|end| place + end + 1),
    }
}

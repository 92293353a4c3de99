// The lines that the listing program prints. Each function writes its bytes to a lent list from a given place on, leaves the rest of the
// list as it was, and gives the place after them; the list must have room for them. A number below 2^32 has at most 10 bytes.
ghost use Rattle.std.specs.Prelude.{[], ◌∷◌};
ghost use Rattle.listing_text.specs.Text.{decimal, marked_number, ok_line, no_line, show_head, show_pair, newline, Room, Written};

// The digits of a number, without leading zeros.
pub fn number(out: &mut [u8], at: usize, n: u32) -> usize
    requires { Room out.old at (decimal n) }
    ensures { Written out.old at (decimal n) out.new result }
{
    if n < 10 {
        out[at] = b'0' + n as u8;
        return at + 1;
    }
    let end = number(out, at, n / 10);
    out[end] = b'0' + (n % 10) as u8;
    end + 1
}

// A byte, then a number's digits.
pub fn marked(out: &mut [u8], at: usize, mark: u8, n: u32) -> usize
    requires { Room out.old at (marked_number mark n) }
    ensures { Written out.old at (marked_number mark n) out.new result }
{
    out[at] = mark;
    number(out, at + 1, n)
}

// The two letters that start an answer.
fn letters(out: &mut [u8], at: usize, first: u8, second: u8) -> usize
    requires { Room out.old at (first ∷ second ∷ []) }
    ensures { Written out.old at (first ∷ second ∷ []) out.new result }
{
    out[at] = first;
    out[at + 1] = second;
    at + 2
}

// The end of a line.
pub fn line_end(out: &mut [u8], at: usize) -> usize
    requires { Room out.old at newline }
    ensures { Written out.old at newline out.new result }
{
    out[at] = b'\n';
    at + 1
}

// The answer to an accepted command: the touched columns' number, the entries and the grade.
pub fn ok_line(out: &mut [u8], at: usize, touched: u32, entries: u32, grade: u32) -> usize
    requires { Room out.old at (ok_line touched entries grade) }
    ensures { Written out.old at (ok_line touched entries grade) out.new result }
{
    let a = letters(out, at, b'o', b'k');
    let b = marked(out, a, b' ', touched);
    let d = marked(out, b, b' ', entries);
    let e = marked(out, d, b' ', grade);
    line_end(out, e)
}

// The answer to a refused command: the refusal's number and position.
pub fn no_line(out: &mut [u8], at: usize, refusal: u32, position: u32) -> usize
    requires { Room out.old at (no_line refusal position) }
    ensures { Written out.old at (no_line refusal position) out.new result }
{
    let a = letters(out, at, b'n', b'o');
    let b = marked(out, a, b' ', refusal);
    let d = marked(out, b, b' ', position);
    line_end(out, d)
}

// The head of a shown column: its number and its parent.
pub fn show_head(out: &mut [u8], at: usize, column: u32, parent: u32) -> usize
    requires { Room out.old at (show_head column parent) }
    ensures { Written out.old at (show_head column parent) out.new result }
{
    let a = number(out, at, column);
    marked(out, a, b' ', parent)
}

// One entry of a shown column: its row and its multiplicity.
pub fn show_pair(out: &mut [u8], at: usize, row: u32, multiplicity: u32) -> usize
    requires { Room out.old at (show_pair row multiplicity) }
    ensures { Written out.old at (show_pair row multiplicity) out.new result }
{
    let a = marked(out, at, b' ', row);
    marked(out, a, b':', multiplicity)
}

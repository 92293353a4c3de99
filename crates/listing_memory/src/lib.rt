// What the listing program keeps between lines: a factor with its tables and lists, which serve document 01's sizes (proofs/Serving.antt), and which factor it is before any
// opening (`closed`) and after one (`opened_line`).
#![tactic(auto)]

ghost use Rattle.std.specs.Prelude.{◌≡◌, ◌≤◌, length};
ghost use Rattle.factor.specs.Entries.{state_of};
ghost use Rattle.listing_show.specs.Showing.{no_state};
ghost use Rattle.listing_memory.specs.Memory.{OpeningPrinted};

use factor::Factor;
use listing_text::text;

// The factor after a line, and the end of the bytes written.
#[derive(Clone, Copy)]
pub struct Printed {
    pub factor: Factor,
    pub end: usize,
}

// The factor before an accepted opening: all numbers 0.
pub fn closed() -> Factor
    ensures { state_of result ≡ no_state }
{
    Factor {
        m: 0,
        n: 0,
        f: 0,
        c: 0,
        free: 0,
        book_free: 0,
        grade2: 0,
        grade3: 0,
        grade4: 0,
        clock: 0,
    }
}

// The line of an opening's answer, and the factor after it: refused, the one before stays.
pub fn opened_line(out: &mut [u8], factor: Factor, opened: Result<Factor, u32>) -> Printed
    requires { 40 ≤ length out.old }
    ensures { OpeningPrinted factor opened out.old out.new result }
{
    match opened {
        Ok(fresh) => {
            let end = text::ok_line(out, 0, 0, 0, 0);
            Printed { factor: fresh, end }
        }
        Err(number) => {
            let end = text::no_line(out, 0, number, 0);
            Printed { factor, end }
        }
    }
}
